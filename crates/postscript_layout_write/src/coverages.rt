//! The kept glyphs of coverage tables.
ghost use Rattle.std.specs.Prelude.{◌≡◌, ◌⊎◌, ◌+◌, ◌*◌, ◌^◌, ◌<◌, ◌≤◌, ◌||◌, ℕ, false, length, slice_index_or, IfErr, IfOk};
ghost use Rattle.postscript_layout.specs.Numbers.{word as the_word};
ghost use Rattle.postscript_layout_write.specs.Sequences.{covered_of as the_covered};
ghost use Rattle.postscript_layout_write.specs.Coverages.{AreCovered, AreListed, AreMarked, AreRanged, is_between};
ghost use Rattle.postscript_layout_write.specs.Refusals.{IsUsedUp};
ghost use Rattle.postscript_layout_write.specs.declared.error.Error.TheVariants as errors;

use crate::error::Result;
use crate::limit::{pay, pay_all};
use crate::numbers::word;
use std::alloc::Global;

/// The units for the marks of all glyph numbers.
const MARKS: usize = 1000;

/// Returns this number of marks. None of them is set.
pub(crate) fn unset_marks(alloc: Global, count: usize) -> Result<Vec<bool>>
    ensures many { IfOk result (λ marks. length marks.items ≡ count) }
    ensures none { IfOk result (λ marks. (m : ℕ) → slice_index_or marks.items m false ≡ false) }
    ensures memory { IfErr result (λ e. e ≡ errors.Memory) }
{
    let marks = vec![in alloc; false; count]?;
    Ok(marks)
}

/// Returns marks for all glyph numbers. None of them is set.
fn no_marks(alloc: Global) -> Result<Vec<bool>>
    ensures none { IfOk result (λ marks. AreMarked (λ glyph. false) marks.items) }
    ensures memory { IfErr result (λ e. e ≡ errors.Memory) }
{
    let marks = unset_marks(alloc, 65536)?;
    Ok(marks)
}

/// Returns marks for the glyphs in the list of a coverage table (format 1).
fn marks_of_list(alloc: Global, table: &[u8], coverage: usize, limit: &mut u64) -> Result<Vec<bool>>
    requires near { coverage < 2 ^ 36 }
    ensures exact { IfOk result (λ marks. AreListed table.now coverage (the_word table.now (coverage + 2)) marks.items) }
    ensures spends { limit.new ≤ limit.old }
    ensures why { IfErr result (λ e. (e ≡ errors.Memory) ⊎ IsUsedUp limit.new e) }
{
    let mut marks = no_marks(alloc)?;
    let count = word(table, coverage + 2);
    for i in 0..count {
        pay(limit)?;
        let glyph = word(table, coverage + 4 + i * 2);
        marks[glyph] = true;
    }
    Ok(marks)
}

/// Sets the marks of a range of glyphs.
fn mark_range(marks: &mut Vec<bool>, first: usize, last: usize)
    requires many { length marks.old.items ≡ 65536 }
    requires last { last < 65536 }
    ensures many { length marks.new.items ≡ 65536 }
    ensures exact { (glyph : ℕ) → glyph < 65536 → slice_index_or marks.new.items glyph false ≡ (slice_index_or marks.old.items glyph false || is_between first last glyph) }
{
    if last < first {
        return;
    }
    for glyph in first..last + 1 {
        marks[glyph] = true;
    }
}

/// Returns marks for the glyphs in the ranges of a coverage table (format 2).
fn marks_of_ranges(
    alloc: Global,
    table: &[u8],
    coverage: usize,
    limit: &mut u64,
) -> Result<Vec<bool>>
    requires near { coverage < 2 ^ 36 }
    ensures exact { IfOk result (λ marks. AreRanged table.now coverage (the_word table.now (coverage + 2)) marks.items) }
    ensures spends { limit.new ≤ limit.old }
    ensures why { IfErr result (λ e. (e ≡ errors.Memory) ⊎ IsUsedUp limit.new e) }
{
    let mut marks = no_marks(alloc)?;
    let count = word(table, coverage + 2);
    for r in 0..count {
        let range = coverage + 4 + r * 6;
        let first = word(table, range);
        let last = word(table, range + 2);
        pay_all(limit, 1 + last.saturating_sub(first))?;
        mark_range(&mut marks, first, last);
    }
    Ok(marks)
}

/// Returns marks for the glyphs of a coverage table.
fn marks_of(alloc: Global, table: &[u8], coverage: usize, limit: &mut u64) -> Result<Vec<bool>>
    requires near { coverage < 2 ^ 36 }
    ensures exact { IfOk result (λ marks. AreCovered table.now coverage marks.items) }
    ensures spends { limit.new ≤ limit.old }
    ensures why { IfErr result (λ e. (e ≡ errors.Memory) ⊎ IsUsedUp limit.new e) }
{
    match word(table, coverage) {
        1 => marks_of_list(alloc, table, coverage, limit),
        2 => marks_of_ranges(alloc, table, coverage, limit),
        _ => no_marks(alloc),
    }
}

/// Returns the new numbers of the kept glyphs that a coverage table has.
pub(crate) fn covered_of(
    alloc: Global,
    table: &[u8],
    coverage: usize,
    kept: &[u16],
    limit: &mut u64,
) -> Result<Vec<u16>>
    requires near { coverage < 2 ^ 36 }
    requires few { length kept.now ≤ 65536 }
    ensures exact { IfOk result (λ numbers. numbers.items ≡ the_covered table.now kept.now coverage) }
    ensures spends { limit.new ≤ limit.old }
    ensures why { IfErr result (λ e. (e ≡ errors.Memory) ⊎ IsUsedUp limit.new e) }
{
    pay_all(limit, MARKS + kept.len())?;
    let marks = marks_of(alloc, table, coverage, limit)?;
    let mut numbers = Vec::new(alloc);
    for k in 0..kept.len() {
        if marks[kept[k] as usize] {
            numbers.push(k as u16)?;
        }
    }
    Ok(numbers)
}
