//! Scripts and language systems with only some of the features.
ghost use Rattle.std.specs.Prelude.{◌≡◌, ◌⊎◌, ◌+◌, ◌*◌, ◌^◌, ◌<◌, ◌≤◌, length, filter_map, IfErr, IfOk, OnOk};
ghost use Rattle.postscript_layout.specs.Numbers.{long as the_long, word as the_word};
ghost use Rattle.postscript_layout_write.specs.Features.{KeepsLanguage, KeepsScript, KeepsScripts, features_of, or_no_feature};
ghost use Rattle.postscript_layout_write.specs.Records.{AreRecords, Puts, PutsDefault, Stands};
ghost use Rattle.postscript_layout_write.specs.Refusals.{Fails, IsUsedUp};
ghost use Rattle.postscript_layout_write.specs.Renumbering.{AreNumbers, new_number};
ghost use Rattle.postscript_layout_write.specs.ScriptLists.{named as the_named};
ghost use Rattle.postscript_layout_write.specs.declared.error.Error.TheVariants as errors;

use crate::error::{Error, Result};
use crate::limit::pay;
use crate::numbers::{long, word};
use crate::records::{Records, put_records};
use crate::script_lists::table_at;
use crate::subtables::put_glyphs;
use std::alloc::Global;

/// Returns the new index of a feature, or 0xFFFF if it is not kept.
fn new_required(kept: &[u16], numbers: &[Option<usize>], feature: usize) -> u16
    requires few { length kept.now < 65536 }
    requires exact { AreNumbers kept.now numbers.now }
    requires small { feature < 65536 }
    ensures { result ≡ or_no_feature (new_number kept.now feature) }
{
    let _ = kept;
    match numbers[feature] {
        Some(number) => number as u16,
        None => 65535,
    }
}

/// Returns the features of a language system that are kept, under their new indices.
fn new_features(
    alloc: Global,
    table: &[u8],
    language: usize,
    kept: &[u16],
    numbers: &[Option<usize>],
    limit: &mut u64,
) -> Result<Vec<u16>>
    requires near { language < 2 ^ 31 }
    requires few { length kept.now < 65536 }
    requires exact { AreNumbers kept.now numbers.now }
    ensures exact { IfOk result (λ features. features.items ≡ filter_map (new_number kept.now) (features_of table.now language)) }
    ensures few { IfOk result (λ features. length features.items < 65536) }
    ensures spends { limit.new ≤ limit.old }
    ensures why { IfErr result (λ e. (e ≡ errors.Memory) ⊎ IsUsedUp limit.new e) }
{
    let _ = kept;
    let mut features = Vec::new(alloc);
    let count = word(table, language + 4);
    for k in 0..count {
        pay(limit)?;
        if let Some(number) = numbers[word(table, language + 6 + k * 2)] {
            features.push(number as u16)?;
        }
    }
    Ok(features)
}

/// Appends a language system.
fn put_language(
    alloc: Global,
    out: &mut Vec<u8>,
    table: &[u8],
    language: usize,
    kept: &[u16],
    numbers: &[Option<usize>],
    limit: &mut u64,
) -> Result<()>
    requires near { language < 2 ^ 31 }
    requires few { length kept.now < 65536 }
    requires exact { AreNumbers kept.now numbers.now }
    ensures done { OnOk result (Puts (KeepsLanguage kept.now table.now language) out.old.items out.new.items) }
    ensures spends { limit.new ≤ limit.old }
    ensures why { IfErr result (λ e. Fails limit.new e) }
{
    let features = new_features(alloc, table, language, kept, numbers, limit)?;
    let required = new_required(kept, numbers, word(table, language + 2));
    put_glyphs(out, &[0, required, features.len() as u16])?;
    put_glyphs(out, &features)?;
    Ok(())
}

/// Appends the default language system of a script, if there is one.
fn put_default(
    alloc: Global,
    out: &mut Vec<u8>,
    table: &[u8],
    script: usize,
    kept: &[u16],
    numbers: &[Option<usize>],
    limit: &mut u64,
) -> Result<()>
    requires near { script < 2 ^ 29 }
    requires few { length kept.now < 65536 }
    requires exact { AreNumbers kept.now numbers.now }
    ensures done { OnOk result (PutsDefault kept.now table.now script out.old.items out.new.items) }
    ensures spends { limit.new ≤ limit.old }
    ensures why { IfErr result (λ e. Fails limit.new e) }
{
    let offset = word(table, script);
    if offset == 0 {
        return Ok(());
    }
    pay(limit)?;
    put_language(alloc, out, table, script + offset, kept, numbers, limit)?;
    Ok(())
}

/// Collects the language systems of a script, after the default one.
fn languages_of(
    alloc: Global,
    table: &[u8],
    script: usize,
    kept: &[u16],
    numbers: &[Option<usize>],
    limit: &mut u64,
) -> Result<Records>
    requires near { script < 2 ^ 29 }
    requires few { length kept.now < 65536 }
    requires exact { AreNumbers kept.now numbers.now }
    ensures default { IfOk result (λ records. (the_word table.now script ≡ 0) ⊎ Stands (KeepsLanguage kept.now table.now (script + the_word table.now script)) records.tables.bytes.items 0) }
    ensures records { IfOk result (λ records. AreRecords (λ j. the_long table.now (script + 4 + j * 6)) (λ j. KeepsLanguage kept.now table.now (the_named table.now script (script + 4) j)) (4 + the_word table.now (script + 2) * 6) (the_word table.now (script + 2)) records.numbers.items records.tables.bytes.items) }
    ensures spends { limit.new ≤ limit.old }
    ensures why { IfErr result (λ e. Fails limit.new e) }
{
    let count = word(table, script + 2);
    let mut default = Vec::new(alloc);
    put_default(alloc, &mut default, table, script, kept, numbers, limit)?;
    let mut records = Records::new(alloc, &default)?;
    for j in 0..count {
        pay(limit)?;
        let tag = long(table, script + 4 + j * 6);
        let language = table_at(table, script, script + 4, j);
        let mut text = Vec::new(alloc);
        put_language(alloc, &mut text, table, language, kept, numbers, limit)?;
        records.add(tag, 4 + count * 6, &text)?;
    }
    Ok(records)
}

/// Appends a script.
fn put_script(
    alloc: Global,
    out: &mut Vec<u8>,
    table: &[u8],
    script: usize,
    kept: &[u16],
    numbers: &[Option<usize>],
    limit: &mut u64,
) -> Result<()>
    requires near { script < 2 ^ 29 }
    requires few { length kept.now < 65536 }
    requires exact { AreNumbers kept.now numbers.now }
    ensures done { OnOk result (Puts (KeepsScript kept.now table.now script) out.old.items out.new.items) }
    ensures spends { limit.new ≤ limit.old }
    ensures why { IfErr result (λ e. Fails limit.new e) }
{
    let count = word(table, script + 2);
    if count > 10921 {
        return Err(Error::TooLarge);
    }
    let records = languages_of(alloc, table, script, kept, numbers, limit)?;
    let default = if word(table, script) == 0 {
        0
    } else {
        4 + count * 6
    };
    put_records(out, &[default as u16, count as u16], &records)?;
    Ok(())
}

/// Collects the scripts of a table.
fn scripts_of(
    alloc: Global,
    table: &[u8],
    kept: &[u16],
    numbers: &[Option<usize>],
    limit: &mut u64,
) -> Result<Records>
    requires few { length kept.now < 65536 }
    requires exact { AreNumbers kept.now numbers.now }
    ensures records { IfOk result (λ records. AreRecords (λ i. the_long table.now (the_word table.now 4 + 2 + i * 6)) (λ i. KeepsScript kept.now table.now (the_named table.now (the_word table.now 4) (the_word table.now 4 + 2) i)) (2 + the_word table.now (the_word table.now 4) * 6) (the_word table.now (the_word table.now 4)) records.numbers.items records.tables.bytes.items) }
    ensures spends { limit.new ≤ limit.old }
    ensures why { IfErr result (λ e. Fails limit.new e) }
{
    let list = word(table, 4);
    let count = word(table, list);
    let mut records = Records::new(alloc, &[])?;
    for i in 0..count {
        pay(limit)?;
        let tag = long(table, list + 2 + i * 6);
        let script = table_at(table, list, list + 2, i);
        let mut text = Vec::new(alloc);
        put_script(alloc, &mut text, table, script, kept, numbers, limit)?;
        records.add(tag, 2 + count * 6, &text)?;
    }
    Ok(records)
}

/// Appends the script list.
pub(crate) fn put_scripts(
    alloc: Global,
    out: &mut Vec<u8>,
    table: &[u8],
    kept: &[u16],
    numbers: &[Option<usize>],
    limit: &mut u64,
) -> Result<()>
    requires few { length kept.now < 65536 }
    requires exact { AreNumbers kept.now numbers.now }
    ensures done { OnOk result (Puts (KeepsScripts kept.now table.now (the_word table.now 4)) out.old.items out.new.items) }
    ensures spends { limit.new ≤ limit.old }
    ensures why { IfErr result (λ e. Fails limit.new e) }
{
    let records = scripts_of(alloc, table, kept, numbers, limit)?;
    let count = word(table, word(table, 4));
    put_records(out, &[count as u16], &records)?;
    Ok(())
}
