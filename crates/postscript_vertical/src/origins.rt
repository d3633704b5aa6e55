//! The `VORG` table of the kept glyphs.
ghost use Rattle.std.specs.Prelude.{◌≡◌, ◌↔◌, ℕ, ◌<◌, [], length, slice_index, IfErr, IfOk, IsTrue, MatchOption, OnOk};
ghost use Rattle.postscript_vertical.specs.Listed.{AreListed, IsTable};
ghost use Rattle.postscript_vertical.specs.Origins.{AreAscending, HasNoRecord, HasOrigins, HasRecord, IsOrigin, KeepsOrigins, records_in as the_records};
ghost use Rattle.postscript_vertical.specs.Refusals.{RefusesOrigins};
ghost use Rattle.postscript_vertical.specs.declared.error.Error.TheVariants as errors;

use crate::error::{Error, Result};
use crate::numbers::{put_pair, word};
use std::alloc::Global;

/// Returns whether the glyphs of the records are in strictly ascending order.
fn is_ascending(vorg: &[u8], count: usize) -> bool
    requires { count < 65536 }
    ensures { IsTrue result ↔ AreAscending vorg.now count }
{
    for k in 1..count {
        if word(vorg, 8 + k * 4) <= word(vorg, 8 + (k - 1) * 4) {
            return false;
        }
    }
    true
}

/// Returns the y coordinate in the record of a glyph.
fn record_of(vorg: &[u8], glyph: usize) -> Option<u16>
    requires { HasOrigins vorg.now }
    ensures { MatchOption result (HasNoRecord vorg.now glyph) (λ y. HasRecord vorg.now glyph y) }
{
    let mut low = 0;
    let mut high = word(vorg, 6);
    while low < high {
        let middle = low + (high - low) / 2;
        let found = word(vorg, 8 + middle * 4);
        if found == glyph {
            return Some(word(vorg, 8 + middle * 4 + 2) as u16);
        }
        if found < glyph {
            low = middle + 1;
        } else {
            high = middle;
        }
    }
    None
}

/// Writes the records of the origins under their new numbers.
fn records_of(alloc: Global, vorg: &[u8], origins: &[u16]) -> Result<Vec<u8>>
    requires sound { HasOrigins vorg.now }
    requires few { length origins.now < 65536 }
    ensures exact { IfOk result (λ records. AreListed vorg.now origins.now (length origins.now) records.items) }
    ensures memory { IfErr result (λ e. e ≡ errors.Memory) }
{
    let mut records = Vec::new(alloc);
    for i in 0..origins.len() {
        if let Some(y) = record_of(vorg, origins[i] as usize) {
            put_pair(&mut records, i as u16, y)?;
        }
    }
    Ok(records)
}

/// Writes a table of version 1.0 with these records.
fn table_of(alloc: Global, default: u16, records: &[u8]) -> Result<Vec<u8>>
    requires { length records.now < 262144 }
    ensures exact { IfOk result (λ new. IsTable default records.now new.items) }
    ensures memory { IfErr result (λ e. e ≡ errors.Memory) }
{
    let mut new = Vec::new(alloc);
    put_pair(&mut new, 1, 0)?;
    put_pair(&mut new, default, (records.len() / 4) as u16)?;
    new.extend_from_slice(records)?;
    Ok(new)
}

/// Checks that a table can be read.
fn read(vorg: &[u8]) -> Result<()>
    ensures exact { OnOk result (HasOrigins vorg.now) }
    ensures why { IfErr result (λ e. RefusesOrigins e vorg.now []) }
{
    if vorg.len() < 8 {
        return Err(Error::TruncatedOrigins);
    }
    if word(vorg, 0) != 1 {
        return Err(Error::UnknownVersion);
    }
    let count = word(vorg, 6);
    if vorg.len() < 8 + count * 4 {
        return Err(Error::TruncatedOrigins);
    }
    if !is_ascending(vorg, count) {
        return Err(Error::NotAscending);
    }
    Ok(())
}

/// Returns the `VORG` table of the kept glyphs.
///
/// `origins` has the old numbers of the glyphs. The new number of a glyph is its index there. The new table has version 1.0
/// and the old default y coordinate. Each new glyph whose origin has a record has the y coordinate of this record. There are
/// no other records.
///
/// # Errors
///
/// - `Memory`: out of memory.
/// - `TooManyGlyphs`: there are more than 65,535 glyphs.
/// - `TruncatedOrigins`: the table has fewer than 8 bytes, or ends before its last record.
/// - `UnknownVersion`: the major version is not 1.
/// - `NotAscending`: the records are not in strictly ascending order of their glyphs.
pub fn kept_origins(alloc: Global, vorg: &[u8], origins: &[u16]) -> Result<Vec<u8>>
    // The new table has the old default and the records of the origins, under their new numbers.
    ensures kept { IfOk result (λ new. KeepsOrigins vorg.now origins.now new.items) }
    // The vertical origin of each new glyph has the y coordinate of its origin's.
    ensures placed { IfOk result (λ new. (i y : ℕ) → i < length origins.now → (IsOrigin new.items i y ↔ IsOrigin vorg.now (slice_index origins.now i) y)) }
    // There are at most 65,535 glyphs.
    ensures few { IfOk result (λ new. length origins.now < 65536) }
    // An error has its cause.
    ensures why { IfErr result (λ e. RefusesOrigins e vorg.now origins.now) }
{
    if origins.len() > 65535 {
        return Err(Error::TooManyGlyphs);
    }
    read(vorg)?;
    let records = records_of(alloc, vorg, origins)?;
    let new = table_of(alloc, word(vorg, 4) as u16, &records)?;
    Ok(new)
}
