//! The pairs of kept glyphs that a lookup adjusts.
ghost use Rattle.std.specs.Prelude.{◌≡◌, ◌⊎◌, ℕ, ◌^◌, ◌<◌, ◌≤◌, ◌++◌, length, false, None, IfErr, IfOk, OnOk, slice_index, slice_index_or};
ghost use Rattle.postscript_layout_write.specs.Entries.{AreEntries, form_of as the_form, listed};
ghost use Rattle.postscript_layout_write.specs.Indices.{AreIndices};
ghost use Rattle.postscript_layout_write.specs.Pairs.{by_lookup as the_adjustment};
ghost use Rattle.postscript_layout_write.specs.Refusals.{IsUsedUp};
ghost use Rattle.postscript_layout_write.specs.Scopes.{pair_by};
ghost use Rattle.postscript_layout_write.specs.declared.error.Error.TheVariants as errors;

use crate::error::Result;
use crate::limit::pay;
use crate::lookups::{by_lookup, indices_of};
use crate::numbers::word;
use crate::scope::{Scope, leaves_out};
use crate::values::Adjustment;
use std::alloc::Global;

/// The form in which a pair is written.
#[derive(Clone, Copy, Debug, Drop, PartialEq, Eq)]
pub(crate) enum Form {
    /// The advance of the first glyph.
    Advance,
    /// Four numbers for the first glyph.
    First,
    /// Four numbers for each of the two glyphs.
    Both,
}

/// The second glyph of a pair, and the adjustment of the pair.
#[derive(Clone, Copy, Debug, Drop, PartialEq, Eq)]
pub(crate) struct Entry {
    pub(crate) second: u16,
    pub(crate) adjustment: Adjustment,
}

/// Returns the form of an adjustment, or `None` if the adjustment is nothing.
pub(crate) fn form_of(adjustment: &Adjustment) -> Option<Form>
    ensures { result ≡ the_form adjustment.now }
{
    let first = &adjustment.first;
    match adjustment.second {
        Some(_) => Some(Form::Both),
        None => {
            if first.x_placement == 0 && first.y_placement == 0 && first.y_advance == 0 {
                if first.x_advance == 0 {
                    None
                } else {
                    Some(Form::Advance)
                }
            } else {
                Some(Form::First)
            }
        }
    }
}

/// Returns whether some subtable covers the first glyph.
fn has_index(indices: &[Option<usize>]) -> bool
    ensures { result ≡ false → (j : ℕ) → j < length indices.now → slice_index_or indices.now j None ≡ None }
{
    for index in indices {
        if index.is_some() {
            return true;
        }
    }
    false
}

/// Appends an entry, unless its adjustment is nothing.
fn list(entries: &mut Vec<Entry>, second: u16, adjustment: Adjustment) -> Result<()>
    ensures items { OnOk result (entries.new.items ≡ entries.old.items ++ listed second adjustment (the_form adjustment)) }
    ensures memory { IfErr result (λ e. e ≡ errors.Memory) }
{
    if form_of(&adjustment).is_some() {
        entries.push(Entry { second, adjustment })?;
    }
    Ok(())
}

/// Returns the pairs of a first glyph with the kept glyphs that a lookup adjusts, by the new numbers of the second glyphs.
fn adjusted_pairs(
    alloc: Global,
    gpos: &[u8],
    lookup: usize,
    indices: &[Option<usize>],
    first: usize,
    kept: &[u16],
    limit: &mut u64,
) -> Result<Vec<Entry>>
    requires near { lookup < 2 ^ 31 }
    requires few { length kept.now < 65536 }
    requires exact { AreIndices gpos.now lookup first indices.now }
    ensures exact { IfOk result (λ entries. AreEntries (λ y. the_adjustment gpos.now lookup first (slice_index kept.now y)) (length kept.now) entries.items) }
    ensures spends { limit.new ≤ limit.old }
    ensures why { IfErr result (λ e. (e ≡ errors.Memory) ⊎ IsUsedUp limit.new e) }
{
    let mut entries = Vec::new(alloc);
    for k in 0..kept.len() {
        pay(limit)?;
        let adjustment = by_lookup(gpos, lookup, indices, first, kept[k] as usize, limit)?;
        list(&mut entries, k as u16, adjustment)?;
    }
    Ok(entries)
}

/// Returns the pairs of a first glyph with the kept glyphs that a lookup adjusts. A lookup that is left
/// out has none.
pub(crate) fn entries_of(
    alloc: Global,
    gpos: &[u8],
    lookup: usize,
    scope: Scope,
    first: usize,
    kept: &[u16],
    limit: &mut u64,
) -> Result<Vec<Entry>>
    requires near { lookup < 2 ^ 31 }
    requires few { length kept.now < 65536 }
    requires glyph { first < 65536 }
    ensures exact { IfOk result (λ entries. AreEntries (λ y. pair_by scope gpos.now lookup first (slice_index kept.now y)) (length kept.now) entries.items) }
    ensures spends { limit.new ≤ limit.old }
    ensures why { IfErr result (λ e. (e ≡ errors.Memory) ⊎ IsUsedUp limit.new e) }
{
    if leaves_out(scope, word(gpos, lookup + 2)) {
        return Ok(Vec::new(alloc));
    }
    let indices = indices_of(alloc, gpos, lookup, first, limit)?;
    if !has_index(&indices) {
        return Ok(Vec::new(alloc));
    }
    let entries = adjusted_pairs(alloc, gpos, lookup, &indices, first, kept, limit)?;
    Ok(entries)
}
