//! The pairs of kept glyphs of a subtable (OpenType, "kern", "Format 0").
ghost use Rattle.std.specs.Prelude.{◌≡◌, ◌⊎◌, ◌+◌, ◌*◌, ◌^◌, ◌<◌, ◌≤◌, ◌==◌, ℕ, None, Some, length, if◌then◌else◌, IfErr, IfOk, OnOk};
ghost use Rattle.std.specs.BTreeMap.{get};
ghost use Rattle.std.specs.Ordering.{nat_cmp};
ghost use Rattle.postscript_kern.specs.First.{or_else};
ghost use Rattle.postscript_kern.specs.Kept.{AreCollected, IsKept};
ghost use Rattle.postscript_kern.specs.Pairs.{HasPairs, pairs_in as the_pairs};
ghost use Rattle.postscript_kern.specs.Refusals.{IsUsedUp, RefusesSubtable};
ghost use Rattle.postscript_kern.specs.Renumbering.{AreNumbers};
ghost use Rattle.postscript_kern.specs.declared.error.Error.TheVariants as errors;

use crate::error::{Error, Result};
use crate::limit::pay;
use crate::numbers::word;
use crate::renumbering::new_pair;
use std::alloc::Global;
use std::collections::BTreeMap;

/// Pairs of glyphs with their values. The number of a pair has the left glyph in its upper half.
pub(crate) type Pairs = BTreeMap<u32, u16>;

/// Adds the value of a pair, unless the pair has one.
fn put_first(pairs: &mut Pairs, pair: u32, value: u16) -> Result<()>
    ensures put { OnOk result ((q : ℕ) → get nat_cmp pairs.new q ≡ or_else (get nat_cmp pairs.old q) (if pair == q then Some value else None)) }
    ensures memory { IfErr result (λ e. e ≡ errors.Memory) }
{
    if !pairs.contains_key(&pair) {
        pairs.insert(pair, value)?;
    }
    Ok(())
}

/// Returns the number of the pairs of a subtable that end within the table.
fn pairs_in(table: &[u8], at: usize) -> usize
    requires near { at < 2 ^ 36 }
    requires within { at + 14 ≤ length table.now }
    ensures exact { result ≡ the_pairs table.now at }
    ensures few { result < 65536 }
{
    word(table, at + 6).min((table.len() - (at + 14)) / 6)
}

/// Collects the pairs of kept glyphs of a subtable, under their new numbers.
fn collect_pairs(
    alloc: Global,
    table: &[u8],
    at: usize,
    kept: &[u16],
    numbers: &[Option<usize>],
    limit: &mut u64,
) -> Result<Pairs>
    requires near { at < 2 ^ 36 }
    requires within { at + 14 ≤ length table.now }
    requires few { length kept.now < 65536 }
    requires exact { AreNumbers kept.now numbers.now }
    ensures exact { IfOk result (λ pairs. AreCollected table.now kept.now at (the_pairs table.now at) pairs) }
    ensures spends { limit.new ≤ limit.old }
    ensures paid { OnOk result (limit.old ≡ limit.new + the_pairs table.now at) }
    ensures most { limit.old ≤ limit.new + the_pairs table.now at }
    ensures lacking { IfErr result (λ e. e ≡ errors.TooLong → limit.old < the_pairs table.now at) }
    ensures why { IfErr result (λ e. (e ≡ errors.Memory) ⊎ IsUsedUp limit.new e) }
{
    let mut pairs = BTreeMap::new(alloc);
    for k in 0..pairs_in(table, at) {
        pay(limit)?;
        let record = at + 14 + k * 6;
        if let Some(pair) = new_pair(kept, numbers, word(table, record), word(table, record + 2)) {
            put_first(&mut pairs, pair, word(table, record + 4) as u16)?;
        }
    }
    Ok(pairs)
}

/// The most pairs of a subtable, whose length has 16 bits.
const MOST: usize = 10920;

/// Returns the pairs of kept glyphs of a subtable, under their new numbers.
pub(crate) fn kept_pairs(
    alloc: Global,
    table: &[u8],
    at: usize,
    kept: &[u16],
    numbers: &[Option<usize>],
    limit: &mut u64,
) -> Result<Pairs>
    requires near { at < 2 ^ 36 }
    requires has { HasPairs table.now at }
    requires few { length kept.now < 65536 }
    requires exact { AreNumbers kept.now numbers.now }
    ensures exact { IfOk result (λ pairs. IsKept table.now kept.now at pairs.entries) }
    ensures few { IfOk result (λ pairs. length pairs.entries ≤ 10920) }
    ensures spends { limit.new ≤ limit.old }
    ensures paid { OnOk result (limit.old ≡ limit.new + the_pairs table.now at) }
    ensures most { limit.old ≤ limit.new + the_pairs table.now at }
    ensures lacking { IfErr result (λ e. e ≡ errors.TooLong → limit.old < the_pairs table.now at) }
    ensures why { IfErr result (λ e. RefusesSubtable table.now kept.now at limit.new e) }
{
    let pairs = collect_pairs(alloc, table, at, kept, numbers, limit)?;
    if pairs.len() > MOST {
        return Err(Error::TooLarge);
    }
    Ok(pairs)
}
