//! Writes a layout table with only some of its features.
ghost use Rattle.std.specs.Prelude.{◌≡◌, ◌⊎◌, ◌+◌, ◌*◌, ◌^◌, ◌<◌, ◌≤◌, ◌++◌, drop, length, slice_index, IfErr, IfOk, OnOk};
ghost use Rattle.postscript_layout.specs.Numbers.{long as the_long, word as the_word};
ghost use Rattle.postscript_layout_write.specs.Features.{HasOnlyFeatures, KeepsFeature, KeepsFeatures, bytes_at, chosen_features as the_chosen, size_of as the_size};
ghost use Rattle.postscript_layout_write.specs.Records.{AreRecords, Puts, table_text};
ghost use Rattle.postscript_layout_write.specs.Refusals.{Fails, IsUsedUp};
ghost use Rattle.postscript_layout_write.specs.ScriptLists.{named as the_named};
ghost use Rattle.postscript_layout_write.specs.declared.error.Error.TheVariants as errors;

use crate::error::{Error, Result};
use crate::languages::put_scripts;
use crate::limit::{pay, pay_all};
use crate::numbers::{long, word};
use crate::records::{Records, put_records};
use crate::renumbering::new_numbers;
use crate::rules::read_glyphs;
use crate::script_lists::{parameters_size, table_at};
use crate::subtables::put_glyphs;
use std::alloc::{AllocError, Global};

/// Returns the features whose tags are chosen.
fn chosen_features(alloc: Global, table: &[u8], tags: &[u32], limit: &mut u64) -> Result<Vec<u16>>
    ensures exact { IfOk result (λ kept. kept.items ≡ the_chosen table.now tags.now) }
    ensures few { IfOk result (λ kept. length kept.items < 65536) }
    ensures spends { limit.new ≤ limit.old }
    ensures why { IfErr result (λ e. (e ≡ errors.Memory) ⊎ IsUsedUp limit.new e) }
{
    let list = word(table, 6);
    let count = word(table, list);
    let mut kept = Vec::new(alloc);
    for i in 0..count {
        pay(limit)?;
        pay_all(limit, tags.len())?;
        let tag = long(table, list + 2 + i * 6);
        if tags.contains(&(tag as u32)) {
            kept.push(i as u16)?;
        }
    }
    Ok(kept)
}

/// Returns the number of bytes of the parameters of a feature.
fn size_of(table: &[u8], tag: usize, feature: usize) -> usize
    requires { feature < 2 ^ 30 }
    ensures exact { result ≡ the_size table.now tag feature }
    ensures small { result < 262144 }
{
    let offset = word(table, feature);
    if offset == 0 {
        0
    } else {
        parameters_size(table, tag, feature + offset)
    }
}

/// Returns a byte of a table. Bytes past its end are 0.
fn byte(table: &[u8], offset: usize) -> u8
    ensures { result ≡ slice_index table.now offset }
{
    if offset < table.len() {
        table[offset]
    } else {
        0
    }
}

/// Appends bytes of a table.
fn put_bytes(
    out: &mut Vec<u8>,
    table: &[u8],
    offset: usize,
    count: usize,
) -> std::result::Result<(), AllocError>
    requires offset { offset < 2 ^ 32 }
    requires count { count < 2 ^ 32 }
    ensures { OnOk result (out.new.items ≡ out.old.items ++ bytes_at table.now offset count) }
{
    for k in 0..count {
        out.push(byte(table, offset + k))?;
    }
    Ok(())
}

/// Appends a feature table with its parameters.
fn put_feature(
    alloc: Global,
    out: &mut Vec<u8>,
    table: &[u8],
    tag: usize,
    feature: usize,
    limit: &mut u64,
) -> Result<()>
    requires { feature < 2 ^ 30 }
    ensures done { OnOk result (Puts (KeepsFeature table.now tag feature) out.old.items out.new.items) }
    ensures spends { limit.new ≤ limit.old }
    ensures why { IfErr result (λ e. Fails limit.new e) }
{
    let count = word(table, feature + 2);
    if count > 32765 {
        return Err(Error::TooLarge);
    }
    let size = size_of(table, tag, feature);
    pay_all(limit, size)?;
    let mut lookups = Vec::new(alloc);
    read_glyphs(&mut lookups, table, feature + 4, count, limit)?;
    let parameters = if size == 0 { 0 } else { 4 + count * 2 };
    put_glyphs(out, &[parameters as u16, count as u16])?;
    put_glyphs(out, &lookups)?;
    put_bytes(out, table, feature + word(table, feature), size)?;
    Ok(())
}

/// Collects kept features.
fn features_of(alloc: Global, table: &[u8], kept: &[u16], limit: &mut u64) -> Result<Records>
    requires few { length kept.now < 65536 }
    ensures records { IfOk result (λ records. AreRecords (λ j. the_long table.now (the_word table.now 6 + 2 + slice_index kept.now j * 6)) (λ j. KeepsFeature table.now (the_long table.now (the_word table.now 6 + 2 + slice_index kept.now j * 6)) (the_named table.now (the_word table.now 6) (the_word table.now 6 + 2) (slice_index kept.now j))) (2 + length kept.now * 6) (length kept.now) records.numbers.items records.tables.bytes.items) }
    ensures spends { limit.new ≤ limit.old }
    ensures why { IfErr result (λ e. Fails limit.new e) }
{
    let list = word(table, 6);
    let count = kept.len();
    let mut records = Records::new(alloc, &[])?;
    for j in 0..count {
        pay(limit)?;
        let i = kept[j] as usize;
        let tag = long(table, list + 2 + i * 6);
        let feature = table_at(table, list, list + 2, i);
        let mut text = Vec::new(alloc);
        put_feature(alloc, &mut text, table, tag, feature, limit)?;
        records.add(tag, 2 + count * 6, &text)?;
    }
    Ok(records)
}

/// Appends a feature list with the kept features.
fn put_features(
    alloc: Global,
    out: &mut Vec<u8>,
    table: &[u8],
    kept: &[u16],
    limit: &mut u64,
) -> Result<()>
    requires few { length kept.now < 65536 }
    ensures done { OnOk result (Puts (KeepsFeatures kept.now table.now (the_word table.now 6)) out.old.items out.new.items) }
    ensures spends { limit.new ≤ limit.old }
    ensures why { IfErr result (λ e. Fails limit.new e) }
{
    let records = features_of(alloc, table, kept, limit)?;
    put_records(out, &[kept.len() as u16], &records)?;
    Ok(())
}

/// Appends the bytes of a table from its lookup list on.
fn put_lookups(out: &mut Vec<u8>, table: &[u8]) -> std::result::Result<(), AllocError>
    ensures { OnOk result (out.new.items ≡ out.old.items ++ drop (the_word table.now 8) table.now) }
{
    let lookups = word(table, 8);
    if lookups >= table.len() {
        return Ok(());
    }
    out.extend_from_slice(&table[lookups..])
}

/// Returns a table with a script list, a feature list, and the bytes of an old table from its lookup list on.
#[tactic(auto, unfolding(crate::specs::Records::table_text))]
fn join_lists(alloc: Global, scripts: &[u8], features: &[u8], table: &[u8]) -> Result<Vec<u8>>
    ensures text { IfOk result (λ new. new.items ≡ table_text scripts.now features.now (drop (the_word table.now 8) table.now)) }
    ensures small { OnOk result (10 + length scripts.now + length features.now < 65536) }
    ensures why { IfErr result (λ e. (e ≡ errors.Memory) ⊎ (e ≡ errors.TooLarge)) }
{
    let size = scripts.len();
    let more = features.len();
    if size > 65525 || more > 65525 - size {
        return Err(Error::TooLarge);
    }
    let mut out = Vec::new(alloc);
    put_glyphs(
        &mut out,
        &[1, 0, 10, (10 + size) as u16, (10 + size + more) as u16],
    )?;
    out.extend_from_slice(scripts)?;
    out.extend_from_slice(features)?;
    put_lookups(&mut out, table)?;
    Ok(out)
}

/// Returns a `GSUB` or `GPOS` table with only the features whose tags are given.
///
/// A tag is a number of four bytes. The new table has version 1.0, with all scripts and languages, even if no feature of
/// theirs is left. The kept features are in the same order, with the same lookups and parameters, under new indices. Only
/// `size` and tags that begin with `ss` or `cv` have parameters. If the required feature of a language system is dropped,
/// the language system has none. The last part is the lookup list with all bytes of the old table that follow it. So all
/// lookups are kept, even if no feature names them now. An old script list or feature list after the lookup list is kept
/// there, unused; tables of this crate have none there. Feature variations are dropped.
///
/// Equal tables of scripts, language systems and features share their bytes, if at most 63 others are between them. For
/// each feature of the old table, one unit of the limit is paid, and one more for each tag. One is paid for each script,
/// each language system, and each of its feature indices. One is paid for each kept feature, each of its lookup indices,
/// and each byte of its parameters.
///
/// # Errors
///
/// - `TooLarge`: an offset or a count would exceed 16 bits.
/// - `TooLong`: the table costs more than the limit.
/// - `Memory`: out of memory.
pub fn with_features(alloc: Global, table: &[u8], tags: &[u32], limit: &mut u64) -> Result<Vec<u8>>
    // All scripts and languages keep their features with the given tags, and only these.
    ensures kept { IfOk result (λ new. HasOnlyFeatures table.now tags.now new.items) }
    // The limit never grows.
    ensures spends { limit.new ≤ limit.old }
    // `TooLong` leaves nothing of the limit. The other errors are `Memory` and `TooLarge`.
    ensures why { IfErr result (λ e. Fails limit.new e) }
{
    let kept = chosen_features(alloc, table, tags, limit)?;
    let numbers = new_numbers(alloc, &kept)?;
    let mut scripts = Vec::new(alloc);
    put_scripts(alloc, &mut scripts, table, &kept, &numbers, limit)?;
    let mut features = Vec::new(alloc);
    put_features(alloc, &mut features, table, &kept, limit)?;
    let new = join_lists(alloc, &scripts, &features, table)?;
    Ok(new)
}
