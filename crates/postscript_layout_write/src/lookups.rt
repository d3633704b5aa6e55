//! Lookups of pair adjustments: the first subtable that applies.
ghost use Rattle.std.specs.Prelude.{◌≡◌, ◌⊎◌, ◌^◌, ◌<◌, ◌≤◌, IfErr, IfOk, IfSome};
ghost use Rattle.postscript_layout_write.specs.Indices.{AreIndices};
ghost use Rattle.postscript_layout_write.specs.Pairs.{by_lookup as the_adjustment, by_part, index_at, pairs_at as the_pairs};
ghost use Rattle.postscript_layout_write.specs.Refusals.{IsUsedUp};
ghost use Rattle.postscript_layout_write.specs.declared.error.Error.TheVariants as errors;

use crate::error::Result;
use crate::limit::pay;
use crate::numbers::{long, word};
use crate::pairs::adjustment_of;
use crate::ranges::coverage_index;
use crate::values::{Adjustment, ZERO};
use std::alloc::Global;

/// Returns the offset of subtable `j` of a lookup, or of the subtable that its extension names, if that is a subtable of
/// pair adjustments.
pub(crate) fn pairs_at(gpos: &[u8], lookup: usize, j: usize) -> Option<usize>
    requires near { lookup < 2 ^ 31 }
    requires few { j < 65536 }
    ensures exact { result ≡ the_pairs gpos.now lookup j }
    ensures near { IfSome result (λ at. at < 2 ^ 33) }
{
    let part = lookup + word(gpos, lookup + 6 + j * 2);
    match word(gpos, lookup) {
        2 => Some(part),
        9 => {
            if word(gpos, part + 2) == 2 {
                Some(part + long(gpos, part + 4))
            } else {
                None
            }
        }
        _ => None,
    }
}

/// Returns the coverage index of a glyph in subtable `j` of a lookup.
fn index_in(
    gpos: &[u8],
    lookup: usize,
    j: usize,
    first: usize,
    limit: &mut u64,
) -> Result<Option<usize>>
    requires near { lookup < 2 ^ 31 }
    requires few { j < 65536 }
    requires glyph { first < 65536 }
    ensures exact { IfOk result (λ index. index ≡ index_at gpos.now (the_pairs gpos.now lookup j) first) }
    ensures small { IfOk result (λ index. IfSome index (λ i. i < 2 ^ 17)) }
    ensures spends { limit.new ≤ limit.old }
    ensures why { IfErr result (λ e. IsUsedUp limit.new e) }
{
    match pairs_at(gpos, lookup, j) {
        Some(subtable) => {
            let coverage = subtable + word(gpos, subtable + 2);
            let index = coverage_index(gpos, coverage, first, limit)?;
            Ok(index)
        }
        None => Ok(None),
    }
}

/// Returns the coverage index of a glyph in each subtable of a lookup.
pub(crate) fn indices_of(
    alloc: Global,
    gpos: &[u8],
    lookup: usize,
    first: usize,
    limit: &mut u64,
) -> Result<Vec<Option<usize>>>
    requires near { lookup < 2 ^ 31 }
    requires glyph { first < 65536 }
    ensures exact { IfOk result (λ indices. AreIndices gpos.now lookup first indices.items) }
    ensures spends { limit.new ≤ limit.old }
    ensures why { IfErr result (λ e. (e ≡ errors.Memory) ⊎ IsUsedUp limit.new e) }
{
    let mut indices = Vec::new(alloc);
    let count = word(gpos, lookup + 4);
    for j in 0..count {
        pay(limit)?;
        let index = index_in(gpos, lookup, j, first, limit)?;
        indices.push(index)?;
    }
    Ok(indices)
}

/// Returns the adjustment of a pair by subtable `j` of a lookup, if that applies.
fn by_subtable(
    gpos: &[u8],
    lookup: usize,
    j: usize,
    index: Option<usize>,
    first: usize,
    second: usize,
    limit: &mut u64,
) -> Result<Option<Adjustment>>
    requires near { lookup < 2 ^ 31 }
    requires few { j < 65536 }
    requires exact { index ≡ index_at gpos.now (the_pairs gpos.now lookup j) first }
    ensures exact { IfOk result (λ adjustment. adjustment ≡ by_part gpos.now (the_pairs gpos.now lookup j) first second) }
    ensures spends { limit.new ≤ limit.old }
    ensures why { IfErr result (λ e. IsUsedUp limit.new e) }
{
    match pairs_at(gpos, lookup, j) {
        Some(subtable) => match index {
            Some(i) => {
                let found = adjustment_of(gpos, subtable, i, first, second, limit)?;
                Ok(found)
            }
            None => Ok(None),
        },
        None => Ok(None),
    }
}

/// Returns the adjustment of a pair by the first subtable of a lookup that applies.
pub(crate) fn by_lookup(
    gpos: &[u8],
    lookup: usize,
    indices: &[Option<usize>],
    first: usize,
    second: usize,
    limit: &mut u64,
) -> Result<Adjustment>
    requires near { lookup < 2 ^ 31 }
    requires exact { AreIndices gpos.now lookup first indices.now }
    ensures exact { IfOk result (λ adjustment. adjustment ≡ the_adjustment gpos.now lookup first second) }
    ensures spends { limit.new ≤ limit.old }
    ensures why { IfErr result (λ e. IsUsedUp limit.new e) }
{
    for j in 0..indices.len() {
        pay(limit)?;
        let found = by_subtable(gpos, lookup, j, indices[j], first, second, limit)?;
        if let Some(adjustment) = found {
            return Ok(adjustment);
        }
    }
    Ok(Adjustment {
        first: ZERO,
        second: None,
    })
}
