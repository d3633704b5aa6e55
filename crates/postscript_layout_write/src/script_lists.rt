//! The script list and the feature list.
ghost use Rattle.std.specs.Prelude.{◌≡◌, ◌⊎◌, ℕ, ◌+◌, ◌*◌, ◌^◌, ◌<◌, ◌≤◌, IfErr, IfOk};
ghost use Rattle.postscript_layout.specs.Numbers.{word as the_word};
ghost use Rattle.postscript_layout_write.specs.Refusals.{IsUsedUp};
ghost use Rattle.postscript_layout_write.specs.ScriptLists.{FeatureEnds, FeaturesEnd, IsLeast, LanguageEnds, ListsEnd, ScriptEnds, ScriptsEnd, named as the_named, parameters_size as the_size};

use crate::error::Result;
use crate::limit::pay;
use crate::numbers::{long, word};

/// Returns the greater one of two offsets.
fn later(a: usize, b: usize) -> usize
    ensures a { a ≤ result }
    ensures b { b ≤ result }
    ensures least { (m : ℕ) → a ≤ m → b ≤ m → result ≤ m }
{
    if a < b { b } else { a }
}

/// Returns the offset of the table that record `i` of a list names.
pub(crate) fn table_at(gpos: &[u8], from: usize, records: usize, i: usize) -> usize
    requires from { from < 2 ^ 30 }
    requires records { records < 2 ^ 30 }
    requires few { i < 65536 }
    ensures exact { result ≡ the_named gpos.now from records i }
    ensures near { result < from + 65536 }
{
    from + word(gpos, records + i * 6 + 4)
}

/// Returns the end of a language system table.
fn language_end(gpos: &[u8], language: usize) -> usize
    requires { language < 2 ^ 31 }
    ensures { IsLeast (λ end. LanguageEnds gpos.now end language) result }
{
    language + 6 + word(gpos, language + 4) * 2
}

/// Returns the end of the default language system table of a script, or 0 if there is none.
fn default_end(gpos: &[u8], script: usize) -> usize
    requires { script < 2 ^ 30 }
    ensures { IsLeast (λ end. (the_word gpos.now script ≡ 0) ⊎ LanguageEnds gpos.now end (script + the_word gpos.now script)) result }
{
    let offset = word(gpos, script);
    if offset == 0 {
        0
    } else {
        language_end(gpos, script + offset)
    }
}

/// Returns the end of a script table and its language systems.
fn script_end(gpos: &[u8], script: usize, limit: &mut u64) -> Result<usize>
    requires { script < 2 ^ 29 }
    ensures exact { IfOk result (λ end. IsLeast (λ m. ScriptEnds gpos.now m script) end) }
    ensures spends { limit.new ≤ limit.old }
    ensures why { IfErr result (λ e. IsUsedUp limit.new e) }
{
    let count = word(gpos, script + 2);
    let mut end = later(script + 4 + count * 6, default_end(gpos, script));
    for j in 0..count {
        pay(limit)?;
        end = later(
            end,
            language_end(gpos, table_at(gpos, script, script + 4, j)),
        );
    }
    Ok(end)
}

/// Returns the end of the script list and all its tables.
fn scripts_end(gpos: &[u8], limit: &mut u64) -> Result<usize>
    ensures exact { IfOk result (λ end. IsLeast (λ m. ScriptsEnd gpos.now m) end) }
    ensures spends { limit.new ≤ limit.old }
    ensures why { IfErr result (λ e. IsUsedUp limit.new e) }
{
    let list = word(gpos, 4);
    let count = word(gpos, list);
    let mut end = list + 2 + count * 6;
    for i in 0..count {
        pay(limit)?;
        let script = script_end(gpos, table_at(gpos, list, list + 2, i), limit)?;
        end = later(end, script);
    }
    Ok(end)
}

/// Returns the size of the parameters of a feature.
pub(crate) fn parameters_size(gpos: &[u8], tag: usize, parameters: usize) -> usize
    requires { parameters < 2 ^ 31 }
    ensures exact { result ≡ the_size gpos.now tag parameters }
    ensures small { result < 262144 }
{
    if tag == 0x73697a65 {
        10
    } else if tag / 65536 == 0x7373 {
        4
    } else if tag / 65536 == 0x6376 {
        14 + word(gpos, parameters + 12) * 3
    } else {
        0
    }
}

/// Returns the end of the parameters of a feature, or 0 if there are none.
fn parameters_end(gpos: &[u8], tag: usize, feature: usize) -> usize
    requires { feature < 2 ^ 30 }
    ensures { IsLeast (λ end. (the_word gpos.now feature ≡ 0) ⊎ (feature + the_word gpos.now feature + the_size gpos.now tag (feature + the_word gpos.now feature) ≤ end)) result }
{
    let offset = word(gpos, feature);
    if offset == 0 {
        0
    } else {
        feature + offset + parameters_size(gpos, tag, feature + offset)
    }
}

/// Returns the end of a feature table and its parameters.
fn feature_end(gpos: &[u8], tag: usize, feature: usize) -> usize
    requires { feature < 2 ^ 30 }
    ensures { IsLeast (λ end. FeatureEnds gpos.now end tag feature) result }
{
    let indices = feature + 4 + word(gpos, feature + 2) * 2;
    later(indices, parameters_end(gpos, tag, feature))
}

/// Returns the end of the feature list and all its tables.
fn features_end(gpos: &[u8], limit: &mut u64) -> Result<usize>
    ensures exact { IfOk result (λ end. IsLeast (λ m. FeaturesEnd gpos.now m) end) }
    ensures spends { limit.new ≤ limit.old }
    ensures why { IfErr result (λ e. IsUsedUp limit.new e) }
{
    let list = word(gpos, 6);
    let count = word(gpos, list);
    let mut end = list + 2 + count * 6;
    for i in 0..count {
        pay(limit)?;
        let tag = long(gpos, list + 2 + i * 6);
        end = later(
            end,
            feature_end(gpos, tag, table_at(gpos, list, list + 2, i)),
        );
    }
    Ok(end)
}

/// Returns the end of the header, the script list and the feature list, with all tables that they name.
pub(crate) fn lists_end(gpos: &[u8], limit: &mut u64) -> Result<usize>
    ensures exact { IfOk result (λ end. IsLeast (λ m. ListsEnd gpos.now m) end) }
    ensures spends { limit.new ≤ limit.old }
    ensures why { IfErr result (λ e. IsUsedUp limit.new e) }
{
    let scripts = scripts_end(gpos, limit)?;
    let features = features_end(gpos, limit)?;
    Ok(later(10, later(scripts, features)))
}
