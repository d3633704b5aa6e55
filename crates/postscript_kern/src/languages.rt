//! The languages in which a `GPOS` table kerns.
ghost use Rattle.std.specs.Prelude.{◌≡◌, ◌↔◌, ℕ, ◌+◌, ◌^◌, ◌<◌, ◌≤◌, IfErr, IfOk, IsTrue, OnErr, OnOk};
ghost use Rattle.postscript_kern.specs.Languages.{EachLanguageKerns, EachScriptKerns, HasForOthers, IsForOthers, IsKernFeature, LanguageKerns, ScriptKerns, table_of as the_table, tag_of as the_tag};
ghost use Rattle.postscript_kern.specs.Numbers.{word as the_word};
ghost use Rattle.postscript_kern.specs.Refusals.{IsUsedUp};
ghost use Rattle.postscript_kern.specs.Units.{languages_units, listed_units, script_units, scripts_units, total};

use crate::error::Result;
use crate::limit::pay;
use crate::numbers::word;

/// Returns the tag of record `i` of a list.
fn tag_of(gpos: &[u8], records: usize, i: usize) -> usize
    requires records { records < 2 ^ 35 }
    requires few { i < 65536 }
    ensures { result ≡ the_tag gpos.now records i }
{
    let record = records + i * 6;
    word(gpos, record) * 65536 + word(gpos, record + 2)
}

/// Returns the offset of the table that record `i` of a list names.
fn table_of(gpos: &[u8], from: usize, records: usize, i: usize) -> usize
    requires from { from < 2 ^ 35 }
    requires records { records < 2 ^ 35 }
    requires few { i < 65536 }
    ensures exact { result ≡ the_table gpos.now from records i }
    ensures near { result < from + 65536 }
{
    from + word(gpos, records + i * 6 + 4)
}

/// Returns whether the feature list has a feature, with the tag `kern`.
fn is_kern_feature(gpos: &[u8], feature: usize) -> bool
    requires { feature < 65536 }
    ensures { IsTrue result ↔ IsKernFeature gpos.now feature }
{
    let list = word(gpos, 6);
    feature < word(gpos, list) && tag_of(gpos, list + 2, feature) == 0x6b65726e
}

/// Returns whether a language system kerns.
fn language_kerns(gpos: &[u8], language: usize, limit: &mut u64) -> Result<bool>
    requires { language < 2 ^ 35 }
    ensures exact { IfOk result (λ kerns. IsTrue kerns ↔ LanguageKerns gpos.now language) }
    ensures spends { limit.new ≤ limit.old }
    ensures most { OnOk result (limit.old ≤ limit.new + the_word gpos.now (language + 4)) }
    ensures lacking { OnErr result (limit.old < the_word gpos.now (language + 4)) }
    ensures why { IfErr result (λ e. IsUsedUp limit.new e) }
{
    for k in 0..word(gpos, language + 4) {
        pay(limit)?;
        if is_kern_feature(gpos, word(gpos, language + 6 + k * 2)) {
            return Ok(true);
        }
    }
    Ok(false)
}

/// Returns whether all language systems of a script kern, apart from the default one.
fn languages_kern(gpos: &[u8], script: usize, limit: &mut u64) -> Result<bool>
    requires { script < 2 ^ 34 }
    ensures exact { IfOk result (λ kern. IsTrue kern ↔ ((j : ℕ) → j < the_word gpos.now (script + 2) → LanguageKerns gpos.now (the_table gpos.now script (script + 4) j))) }
    ensures spends { limit.new ≤ limit.old }
    ensures most { OnOk result (limit.old ≤ limit.new + total (listed_units gpos.now script) (the_word gpos.now (script + 2))) }
    ensures lacking { OnErr result (limit.old < total (listed_units gpos.now script) (the_word gpos.now (script + 2))) }
    ensures why { IfErr result (λ e. IsUsedUp limit.new e) }
{
    for j in 0..word(gpos, script + 2) {
        pay(limit)?;
        let language = table_of(gpos, script, script + 4, j);
        if !language_kerns(gpos, language, limit)? {
            return Ok(false);
        }
    }
    Ok(true)
}

/// Returns whether a script has a default language system, and all its language systems kern.
fn script_kerns(gpos: &[u8], script: usize, limit: &mut u64) -> Result<bool>
    requires { script < 2 ^ 34 }
    ensures exact { IfOk result (λ kerns. IsTrue kerns ↔ ScriptKerns gpos.now script) }
    ensures spends { limit.new ≤ limit.old }
    ensures most { OnOk result (limit.old ≤ limit.new + languages_units gpos.now script) }
    ensures lacking { OnErr result (limit.old < languages_units gpos.now script) }
    ensures why { IfErr result (λ e. IsUsedUp limit.new e) }
{
    let default = word(gpos, script);
    if default == 0 {
        return Ok(false);
    }
    pay(limit)?;
    if !language_kerns(gpos, script + default, limit)? {
        return Ok(false);
    }
    languages_kern(gpos, script, limit)
}

/// Returns whether all scripts kern.
fn scripts_kern(gpos: &[u8], limit: &mut u64) -> Result<bool>
    ensures exact { IfOk result (λ kern. IsTrue kern ↔ EachScriptKerns gpos.now) }
    ensures spends { limit.new ≤ limit.old }
    ensures most { OnOk result (limit.old ≤ limit.new + total (script_units gpos.now) (the_word gpos.now (the_word gpos.now 4))) }
    ensures lacking { OnErr result (limit.old < total (script_units gpos.now) (the_word gpos.now (the_word gpos.now 4))) }
    ensures why { IfErr result (λ e. IsUsedUp limit.new e) }
{
    let list = word(gpos, 4);
    for i in 0..word(gpos, list) {
        pay(limit)?;
        let script = table_of(gpos, list, list + 2, i);
        if !script_kerns(gpos, script, limit)? {
            return Ok(false);
        }
    }
    Ok(true)
}

/// Returns whether the tag of a script is `DFLT`, `dflt` or `latn`.
fn is_for_others(tag: usize) -> bool
    ensures { IsTrue result ↔ IsForOthers tag }
{
    tag == 0x44464c54 || (tag == 0x64666c74 || tag == 0x6c61746e)
}

/// Returns whether one of the scripts is `DFLT`, `dflt` or `latn`.
fn has_for_others(gpos: &[u8], limit: &mut u64) -> Result<bool>
    ensures exact { IfOk result (λ has. IsTrue has ↔ HasForOthers gpos.now) }
    ensures spends { limit.new ≤ limit.old }
    ensures most { OnOk result (limit.old ≤ limit.new + the_word gpos.now (the_word gpos.now 4)) }
    ensures lacking { OnErr result (limit.old < the_word gpos.now (the_word gpos.now 4)) }
    ensures why { IfErr result (λ e. IsUsedUp limit.new e) }
{
    let list = word(gpos, 4);
    for i in 0..word(gpos, list) {
        pay(limit)?;
        if is_for_others(tag_of(gpos, list + 2, i)) {
            return Ok(true);
        }
    }
    Ok(false)
}

/// Returns whether a `GPOS` table kerns in each language.
///
/// It does if one of its scripts is `DFLT`, `dflt` or `latn`, each script has a default language system, and each language
/// system of each script has the index of a feature `kern`. A required feature does not count. Bytes past the end of the
/// table are 0.
///
/// One unit of the limit is paid for each feature index and for each language system that is read, and one or two for each
/// script.
///
/// # Errors
///
/// - `TooLong`: the table costs more than the limit.
pub fn each_language_kerns(gpos: &[u8], limit: &mut u64) -> Result<bool>
    // True exactly if there is a script for text of other scripts, and all language systems kern.
    ensures exact { IfOk result (λ kerns. IsTrue kerns ↔ EachLanguageKerns gpos.now) }
    // The limit never grows.
    ensures spends { limit.new ≤ limit.old }
    // The limit falls by at most the units of all scripts, even if the call fails.
    ensures most { limit.old ≤ limit.new + scripts_units gpos.now }
    // The call fails only if the limit is lower than these units.
    ensures lacking { OnErr result (limit.old < scripts_units gpos.now) }
    // The only error is `TooLong`, with nothing left of the limit.
    ensures why { IfErr result (λ e. IsUsedUp limit.new e) }
{
    if !has_for_others(gpos, limit)? {
        return Ok(false);
    }
    scripts_kern(gpos, limit)
}
