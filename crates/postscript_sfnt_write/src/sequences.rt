//! Adds variation sequences to a `cmap` table (ISO/IEC 14496-22, 5.2.1, "Format 14").
ghost use Rattle.std.specs.Prelude.{◌≡◌, ◌↔◌, ◌⊎◌, ℕ, ◌+◌, ◌-◌, ◌*◌, ◌^◌, ◌<◌, ◌≤◌, List, ◌++◌, length, IsTrue, OnOk, IfOk, IfErr};
ghost use Rattle.postscript_base.specs.Index.{number_at as the_number};
ghost use Rattle.postscript_sfnt.specs.Choice.{place_at, records_of};
ghost use Rattle.postscript_sfnt_write.specs.Mappings.{AreTold, AreToldIn4, HasFormat4, IsReadable};
ghost use Rattle.postscript_sfnt_write.specs.Moving.{RecordFits, RecordsFit, moved_record, moved_text, with_text};
ghost use Rattle.postscript_sfnt_write.specs.Records.{AllAscend};
ghost use Rattle.postscript_sfnt_write.specs.Sequences.{AreClosed, HasSubtables, IsLower, IsWith, RefusesSubtable};
ghost use Rattle.postscript_sfnt_write.specs.declared.error.Error.TheVariants as errors;
ghost use Rattle.postscript_sfnt_write.specs.declared.mapping.Mapping.{Mapping};

use crate::error::{Error, Result};
use crate::mapping::put_encoding;
use crate::numbers::put_uint16;
use postscript_base::index::number::number_at;
use std::alloc::{AllocError, Global};

/// The number of bytes of a table and of a subtable that are too large together: the new record has 8 bytes.
const SIZE: usize = 0xffff_fff8;

/// Whether each subtable begins after the records and at least two bytes before the end.
fn are_within(cmap: &[u8], count: usize) -> bool
    requires exact { count ≡ records_of cmap.now }
    requires room { 4 + count * 8 ≤ length cmap.now }
    requires small { count < 65536 }
    ensures { IsTrue result ↔ HasSubtables cmap.now }
{
    for i in 0..count {
        let offset = number_at(cmap, 4 + i * 8 + 4, 4);
        if offset < 4 + count * 8 || offset + 2 > cmap.len() {
            return false;
        }
    }
    true
}

/// Returns the number of records.
fn count_of(cmap: &[u8]) -> Result<usize>
    ensures count { IfOk result (λ count. (count ≡ records_of cmap.now) × (count < 65536)) }
    ensures subtables { OnOk result (HasSubtables cmap.now) }
    ensures refused { IfErr result (λ e. (e ≡ errors.Cut) × (HasSubtables cmap.now → ⊥)) }
{
    if cmap.len() < 4 {
        return Err(Error::Cut);
    }
    let count = number_at(cmap, 2, 2);
    if cmap.len() < 4 + count * 8 || !are_within(cmap, count) {
        return Err(Error::Cut);
    }
    Ok(count)
}

/// Returns the index of the first record that is not for platform 0 and an encoding below 5.
fn index_in(cmap: &[u8], count: usize) -> usize
    requires room { 4 + count * 8 ≤ length cmap.now }
    requires small { count < 65536 }
    ensures listed { result ≤ count }
    ensures lower { (i : ℕ) → i < result → IsLower cmap.now i }
    ensures higher { result < count → IsLower cmap.now result → ⊥ }
{
    for i in 0..count {
        if number_at(cmap, 4 + i * 8, 2) != 0 || number_at(cmap, 4 + i * 8 + 2, 2) >= 5 {
            return i;
        }
    }
    count
}

/// Appends a record. Its offset becomes 8 greater.
fn put_record(out: &mut Vec<u8>, cmap: &[u8], i: usize) -> std::result::Result<(), AllocError>
    requires room { 4 + i * 8 + 8 ≤ length cmap.now }
    requires small { i < 65536 }
    requires offset { place_at cmap.now i + 8 < 2 ^ 32 }
    ensures text { OnOk result (out.new.items ≡ out.old.items ++ moved_record cmap.now i) }
    ensures fits { OnOk result (RecordFits cmap.now i) }
{
    let platform = number_at(cmap, 4 + i * 8, 2) as u16;
    let encoding = number_at(cmap, 4 + i * 8 + 2, 2) as u16;
    let offset = (number_at(cmap, 4 + i * 8 + 4, 4) + 8) as u32;
    put_encoding(out, platform, encoding, offset)
}

/// Appends records. Their offsets become 8 greater.
#[tactic(auto, unfolding(crate::specs::Moving::moved_text))]
fn put_records(
    out: &mut Vec<u8>,
    cmap: &[u8],
    from: usize,
    count: usize,
) -> std::result::Result<(), AllocError>
    requires room { 4 + (from + count) * 8 ≤ length cmap.now }
    requires small { from + count < 65536 }
    requires offsets { (i : ℕ) → i < from + count → place_at cmap.now i + 8 < 2 ^ 32 }
    ensures text { OnOk result (out.new.items ≡ out.old.items ++ moved_text cmap.now from count) }
    ensures fit { OnOk result (RecordsFit cmap.now from count) }
{
    for k in 0..count {
        put_record(out, cmap, from + k)?;
    }
    Ok(())
}

/// Writes the table with a new record at an index.
#[tactic(auto, unfolding(crate::specs::Moving::with_text))]
fn write_with_record(
    alloc: Global,
    cmap: &[u8],
    subtable: &[u8],
    at: usize,
    count: usize,
) -> std::result::Result<Vec<u8>, AllocError>
    requires listed { at ≤ count }
    requires small { count < 65535 }
    requires room { 4 + count * 8 ≤ length cmap.now }
    requires short { length cmap.now + 8 < 2 ^ 32 }
    requires offsets { (i : ℕ) → i < count → place_at cmap.now i + 8 < 2 ^ 32 }
    ensures text { IfOk result (λ new. new.items ≡ with_text cmap.now subtable.now at count) }
    ensures lower { OnOk result (RecordsFit cmap.now 0 at) }
    ensures higher { OnOk result (RecordsFit cmap.now at (count - at)) }
{
    let mut new = Vec::new(alloc);
    new.extend_from_slice(&cmap[..2])?;
    put_uint16(&mut new, count as u16 + 1)?;
    put_records(&mut new, cmap, 0, at)?;
    put_encoding(&mut new, 0, 5, cmap.len() as u32 + 8)?;
    put_records(&mut new, cmap, at, count - at)?;
    new.extend_from_slice(&cmap[4 + count * 8..])?;
    new.extend_from_slice(subtable)?;
    Ok(new)
}

/// Returns a `cmap` table with variation sequences.
///
/// `subtable` is a subtable of format 14. It ends the new table. Its encoding record, of platform 0 and encoding 5, is the
/// first one that keeps ascending records in order. So it comes before all records of this platform and encoding.
///
/// # Errors
///
/// - `Cut`: the records are truncated, or a subtable begins within the records or less than two bytes before the end.
/// - `TooLarge`: the table has 65,535 records, or the new table would have 2^32 bytes or more.
/// - `Memory`: out of memory.
pub fn with_sequences(alloc: Global, cmap: &[u8], subtable: &[u8]) -> Result<Vec<u8>>
    // The new table has one more record, and the subtable at its end. All else is the old table.
    ensures added { IfOk result (λ new. IsWith cmap.now subtable.now new.items) }
    // If a reader finds a whole subtable in the old table, it finds one in the new table.
    ensures read { IfOk result (λ new. IsReadable cmap.now → IsReadable new.items) }
    // The best subtable maps characters as before, if the old ones read nothing past the end.
    ensures told { IfOk result (λ new. (mappings : List Mapping) → AreClosed cmap.now →
        AreTold cmap.now mappings → AreTold new.items mappings) }
    // The new table has a subtable of format 4 for Unicode on Windows, if the old one has.
    ensures format4 { IfOk result (λ new. HasFormat4 cmap.now → HasFormat4 new.items) }
    // So does each one of format 4, if the new subtable has format 14.
    ensures told_in_4 { IfOk result (λ new. (mappings : List Mapping) → AreClosed cmap.now → the_number subtable.now 0 2 ≡ 14 →
        AreToldIn4 cmap.now mappings → AreToldIn4 new.items mappings) }
    // Segments and groups that ascend still do, under the same conditions.
    ensures ascend { IfOk result (λ new. AreClosed cmap.now → the_number subtable.now 0 2 ≡ 14 →
        AllAscend cmap.now → AllAscend new.items) }
    // `Cut` and `TooLarge` come only for such tables. Other errors, except `Memory`, never come.
    ensures refused { IfErr result (λ e. RefusesSubtable cmap.now subtable.now e) }
{
    let count = count_of(cmap)?;
    if count == 65535 || cmap.len() + subtable.len() >= SIZE {
        return Err(Error::TooLarge);
    }
    let at = index_in(cmap, count);
    let new = write_with_record(alloc, cmap, subtable, at, count)?;
    Ok(new)
}
