//! The `kern` table of the kept glyphs.
ghost use Rattle.std.specs.Prelude.{◌≡◌, ◌⊎◌, ◌↔◌, ◌+◌, ◌^◌, ◌<◌, ◌≤◌, [], List, length, IfErr, IfOk, IsTrue, MatchOption, OnOk};
ghost use Rattle.postscript_kern.specs.Kept.{AreKept, Subtable};
ghost use Rattle.postscript_kern.specs.Pairs.{HasPairs, count_of as the_count};
ghost use Rattle.postscript_kern.specs.Refusals.{Refuses, RefusesSubtable};
ghost use Rattle.postscript_kern.specs.Renumbering.{AreNumbers};
ghost use Rattle.postscript_kern.specs.Units.{pairs_at, units_of};
ghost use Rattle.postscript_kern.specs.Written.{Adds, AreWritten, IsTable};
ghost use Rattle.postscript_kern.specs.declared.error.Error.TheVariants as errors;

use crate::error::{Error, Result};
use crate::limit::pay;
use crate::numbers::{put_words, word};
use crate::pairs::kept_pairs;
use crate::renumbering::new_numbers;
use crate::writing::put_subtable;
use std::alloc::Global;

/// Returns the number of subtables of a table of version 0.
fn count_of(table: &[u8]) -> usize
    ensures exact { result ≡ the_count table.now }
    ensures small { result < 65536 }
{
    if word(table, 0) == 0 {
        word(table, 2)
    } else {
        0
    }
}

/// Returns whether a subtable has format 0, and its header is in the table.
fn has_pairs(table: &[u8], at: usize) -> bool
    requires { at < 2 ^ 36 }
    ensures { IsTrue result ↔ HasPairs table.now at }
{
    at + 14 <= table.len() && word(table, at + 4) < 256
}

/// Appends a subtable with the pairs of kept glyphs of an old one, and returns true, if there are any.
fn add(
    alloc: Global,
    out: &mut Vec<u8>,
    table: &[u8],
    at: usize,
    kept: &[u16],
    numbers: &[Option<usize>],
    limit: &mut u64,
) -> Result<bool>
    requires near { at < 2 ^ 36 }
    requires few { length kept.now < 65536 }
    requires exact { AreNumbers kept.now numbers.now }
    ensures added { IfOk result (λ added. Adds table.now kept.now at out.old.items added out.new.items) }
    ensures spends { limit.new ≤ limit.old }
    ensures paid { OnOk result (limit.old ≡ limit.new + pairs_at table.now at) }
    ensures most { limit.old ≤ limit.new + pairs_at table.now at }
    ensures lacking { IfErr result (λ e. e ≡ errors.TooLong → limit.old < pairs_at table.now at) }
    ensures why { IfErr result (λ e. RefusesSubtable table.now kept.now at limit.new e) }
{
    if !has_pairs(table, at) {
        return Ok(false);
    }
    let pairs = kept_pairs(alloc, table, at, kept, numbers, limit)?;
    if pairs.is_empty() {
        return Ok(false);
    }
    put_subtable(out, word(table, at + 4) as u16, &pairs)?;
    Ok(true)
}

/// Appends the subtables with pairs of kept glyphs, and returns their number.
fn put_subtables(
    alloc: Global,
    out: &mut Vec<u8>,
    table: &[u8],
    kept: &[u16],
    limit: &mut u64,
) -> Result<usize>
    requires few { length kept.now < 65536 }
    requires empty { out.old.items ≡ [] }
    ensures put { IfOk result (λ count. (subtables : List Subtable) × AreKept table.now kept.now (the_count table.now) subtables × AreWritten subtables out.new.items × (length subtables ≡ count)) }
    ensures few { IfOk result (λ count. count < 65536) }
    ensures spends { limit.new ≤ limit.old }
    ensures paid { OnOk result (limit.old ≡ limit.new + units_of table.now) }
    ensures most { limit.old ≤ limit.new + units_of table.now }
    ensures lacking { IfErr result (λ e. e ≡ errors.TooLong → limit.old < units_of table.now) }
    ensures why { IfErr result (λ e. Refuses e table.now kept.now limit.new) }
{
    let numbers = new_numbers(alloc, kept)?;
    let mut count = 0;
    let mut at = 4;
    for _i in 0..count_of(table) {
        pay(limit)?;
        if add(alloc, out, table, at, kept, &numbers, limit)? {
            count += 1;
        }
        at += word(table, at + 2);
    }
    Ok(count)
}

/// Returns a `kern` table with the pairs of the kept glyphs. Returns `None` if there are no such pairs.
///
/// `kept` has the old numbers of the glyphs. The new number of a glyph is its index there. Subtables of format 0 keep the
/// pairs of kept glyphs with their values, in ascending order, and the coverage. Subtables without such pairs are dropped.
///
/// One unit of the limit is paid for each subtable, and for each record of a pair.
///
/// # Errors
///
/// - `Memory`: out of memory.
/// - `TooLong`: the table costs more than the limit.
/// - `TooLarge`: a subtable would have more than 10,920 pairs, or there are more than 65,535 glyphs.
pub fn kept_kerning(
    alloc: Global,
    table: &[u8],
    kept: &[u16],
    limit: &mut u64,
) -> Result<Option<Vec<u8>>>
    // The new table has the subtables with pairs of kept glyphs, or there are none.
    ensures kept { IfOk result (λ made. (subtables : List Subtable) × AreKept table.now kept.now (the_count table.now) subtables
        × MatchOption made (subtables ≡ []) (λ new. IsTable subtables new.items)) }
    // The limit never grows.
    ensures spends { limit.new ≤ limit.old }
    // On success, the limit falls by one unit for each subtable, and for each of its pairs.
    ensures paid { OnOk result (limit.old ≡ limit.new + units_of table.now) }
    // An error costs at most these units.
    ensures most { limit.old ≤ limit.new + units_of table.now }
    // The error is `TooLong` only if the limit is lower than these units.
    ensures lacking { IfErr result (λ e. e ≡ errors.TooLong → limit.old < units_of table.now) }
    // An error has its cause.
    ensures why { IfErr result (λ e. Refuses e table.now kept.now limit.new) }
{
    if kept.len() > 65535 {
        return Err(Error::TooLarge);
    }
    let mut bytes = Vec::new(alloc);
    let count = put_subtables(alloc, &mut bytes, table, kept, limit)?;
    if count == 0 {
        return Ok(None);
    }
    let mut new = Vec::new(alloc);
    put_words(&mut new, &[0, count as u16])?;
    new.extend_from_slice(&bytes)?;
    Ok(Some(new))
}
