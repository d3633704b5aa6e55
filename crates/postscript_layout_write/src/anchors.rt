//! Anchors, and the rows of subtables: marks, bases, adjustments and ends of glyphs (OpenType, "GPOS - Glyph Positioning
//! Table").
ghost use Rattle.std.specs.Prelude.{◌≡◌, ◌⊎◌, ◌+◌, ◌*◌, ◌^◌, ◌<◌, ◌≤◌, None, Some, IfErr, IfOk, IfSome};
ghost use Rattle.postscript_layout.specs.Numbers.{word as the_word};
ghost use Rattle.postscript_layout_write.specs.Attaching.{IsNewRow, array_of as the_array, base_in, base_row as the_base_row, cell_of as the_cell, coverage_of as the_coverage, ends_row as the_ends_row, mark_row as the_mark_row, row_covered, row_in as the_row, row_of as the_row_of, single_row as the_single_row, classes_of as the_classes, width_of as the_width};
ghost use Rattle.postscript_layout_write.specs.Cursive.{ends_in as the_ends};
ghost use Rattle.postscript_layout_write.specs.Marks.{anchor_at as the_anchor, anchor_in as the_anchor_in, mark_in, optional_anchor as the_optional};
ghost use Rattle.postscript_layout_write.specs.Refusals.{IsUsedUp};
ghost use Rattle.postscript_layout_write.specs.Singles.{record_of, values_by};
ghost use Rattle.postscript_layout_write.specs.declared.error.Error.TheVariants as errors;

use crate::error::Result;
use crate::limit::pay;
use crate::numbers::word;
use crate::ranges::coverage_index;
use crate::singles::values_in;
use std::alloc::Global;

/// An anchor. A negative coordinate `n` is `n` + 65536.
#[derive(Clone, Copy, Debug, Drop, PartialEq, Eq)]
pub(crate) struct Anchor {
    pub(crate) x: u16,
    pub(crate) y: u16,
}

/// A number of an array: as it is, or the offset of an anchor.
#[derive(Clone, Copy, Debug, Drop, PartialEq, Eq)]
pub(crate) enum Cell {
    Number(u16),
    At(Anchor),
}

/// The entry anchor and the exit anchor of a glyph.
#[derive(Clone, Copy, Debug, Drop, PartialEq, Eq)]
pub(crate) struct Ends {
    pub(crate) entry: Option<Anchor>,
    pub(crate) exit: Option<Anchor>,
}

/// The kinds of rows of a subtable: the marks or the bases of an attachment, single adjustments, or the ends of glyphs.
#[derive(Clone, Copy, Debug, Drop, PartialEq, Eq)]
pub(crate) enum Side {
    Marks,
    Bases,
    Singles,
    Cursive,
}

/// Returns the anchor at an offset of a table.
fn anchor_at(gpos: &[u8], table: usize, offset: usize) -> Anchor
    requires near { table < 2 ^ 36 }
    requires small { offset < 65536 }
    ensures { result ≡ the_anchor gpos.now table offset }
{
    let at = table + offset;
    let format = word(gpos, at);
    if 0 < offset && 0 < format && format < 4 {
        Anchor {
            x: word(gpos, at + 2) as u16,
            y: word(gpos, at + 4) as u16,
        }
    } else {
        Anchor { x: 0, y: 0 }
    }
}

/// Returns the anchor at an offset of a table, unless the offset is NULL.
fn optional_anchor(gpos: &[u8], table: usize, offset: usize) -> Option<Anchor>
    requires near { table < 2 ^ 36 }
    requires small { offset < 65536 }
    ensures { result ≡ the_optional gpos.now table offset }
{
    if offset == 0 {
        None
    } else {
        Some(anchor_at(gpos, table, offset))
    }
}

/// Returns the anchor of base `i` for a class of marks.
pub(crate) fn anchor_in(
    gpos: &[u8],
    array: usize,
    classes: usize,
    i: usize,
    class: usize,
) -> Option<Anchor>
    requires near { array < 2 ^ 36 }
    requires small { classes < 65536 }
    ensures { result ≡ the_anchor_in gpos.now array classes i class }
{
    if i < word(gpos, array) && class < classes {
        let offset = word(gpos, array + 2 + (i * classes + class) * 2);
        optional_anchor(gpos, array, offset)
    } else {
        None
    }
}

/// Returns the cell of an anchor. No anchor is the offset 0.
pub(crate) fn cell_of(anchor: Option<Anchor>) -> Cell
    ensures { result ≡ the_cell anchor }
{
    match anchor {
        Some(anchor) => Cell::At(anchor),
        None => Cell::Number(0),
    }
}

/// Returns the class and the anchor of mark `i`.
fn mark_row(alloc: Global, gpos: &[u8], array: usize, i: usize) -> Result<Option<Vec<Cell>>>
    requires near { array < 2 ^ 34 }
    requires few { i < 2 ^ 17 }
    ensures exact { IfOk result (λ row. IsNewRow 2 (the_mark_row (mark_in gpos.now array i)) row) }
    ensures memory { IfErr result (λ e. e ≡ errors.Memory) }
{
    if i >= word(gpos, array) {
        return Ok(None);
    }
    let class = word(gpos, array + 2 + i * 4);
    let anchor = anchor_at(gpos, array, word(gpos, array + 4 + i * 4));
    let mut row = Vec::new(alloc);
    row.push(Cell::Number(class as u16))?;
    row.push(Cell::At(anchor))?;
    Ok(Some(row))
}

/// Returns the anchors of base `i` for each class of marks.
fn base_row(
    alloc: Global,
    gpos: &[u8],
    array: usize,
    classes: usize,
    i: usize,
    limit: &mut u64,
) -> Result<Option<Vec<Cell>>>
    requires near { array < 2 ^ 36 }
    requires small { classes < 65536 }
    ensures exact { IfOk result (λ row. IsNewRow classes (the_base_row (base_in gpos.now array classes i)) row) }
    ensures spends { limit.new ≤ limit.old }
    ensures why { IfErr result (λ e. (e ≡ errors.Memory) ⊎ IsUsedUp limit.new e) }
{
    if i >= word(gpos, array) {
        return Ok(None);
    }
    let mut row = Vec::new(alloc);
    for class in 0..classes {
        pay(limit)?;
        row.push(cell_of(anchor_in(gpos, array, classes, i, class)))?;
    }
    Ok(Some(row))
}

/// Returns the entry and exit anchors of the glyph with coverage index `i`.
fn ends_in(gpos: &[u8], subtable: usize, i: usize) -> Option<Ends>
    requires near { subtable < 2 ^ 34 }
    requires few { i < 2 ^ 17 }
    ensures { result ≡ the_ends gpos.now subtable i }
{
    if i < word(gpos, subtable + 4) {
        Some(Ends {
            entry: optional_anchor(gpos, subtable, word(gpos, subtable + 6 + i * 4)),
            exit: optional_anchor(gpos, subtable, word(gpos, subtable + 8 + i * 4)),
        })
    } else {
        None
    }
}

/// Returns the cells of the entry and exit anchors of the glyph with coverage index `i`.
fn ends_row(alloc: Global, gpos: &[u8], subtable: usize, i: usize) -> Result<Option<Vec<Cell>>>
    requires near { subtable < 2 ^ 34 }
    requires few { i < 2 ^ 17 }
    ensures exact { IfOk result (λ row. IsNewRow 2 (the_ends_row (the_ends gpos.now subtable i)) row) }
    ensures memory { IfErr result (λ e. e ≡ errors.Memory) }
{
    match ends_in(gpos, subtable, i) {
        Some(ends) => {
            let mut row = Vec::new(alloc);
            row.push(cell_of(ends.entry))?;
            row.push(cell_of(ends.exit))?;
            Ok(Some(row))
        }
        None => Ok(None),
    }
}

/// Returns the numbers of the adjustment of the glyph with coverage index `i`.
fn single_row(alloc: Global, gpos: &[u8], subtable: usize, i: usize) -> Result<Option<Vec<Cell>>>
    requires near { subtable < 2 ^ 34 }
    requires few { i < 2 ^ 17 }
    ensures exact { IfOk result (λ row. IsNewRow 4 (the_single_row (values_by gpos.now subtable (record_of gpos.now subtable i))) row) }
    ensures memory { IfErr result (λ e. e ≡ errors.Memory) }
{
    match values_in(gpos, subtable, i) {
        Some(values) => {
            let mut row = Vec::new(alloc);
            row.push(Cell::Number(values.x_placement))?;
            row.push(Cell::Number(values.y_placement))?;
            row.push(Cell::Number(values.x_advance))?;
            row.push(Cell::Number(values.y_advance))?;
            Ok(Some(row))
        }
        None => Ok(None),
    }
}

/// Returns the offset of the coverage table of a kind of rows.
pub(crate) fn coverage_of(gpos: &[u8], subtable: usize, side: Side) -> usize
    requires near { subtable < 2 ^ 33 }
    ensures exact { result ≡ the_coverage gpos.now subtable side }
    ensures near { result < 2 ^ 34 }
{
    match side {
        Side::Marks => subtable + word(gpos, subtable + 2),
        Side::Bases => subtable + word(gpos, subtable + 4),
        Side::Singles => subtable + word(gpos, subtable + 2),
        Side::Cursive => subtable + word(gpos, subtable + 2),
    }
}

/// Returns the offset of the array of marks or bases, or else of the subtable.
pub(crate) fn array_at(gpos: &[u8], subtable: usize, side: Side) -> usize
    requires near { subtable < 2 ^ 33 }
    ensures exact { result ≡ the_array gpos.now subtable side }
    ensures near { result < 2 ^ 34 }
{
    match side {
        Side::Marks => subtable + word(gpos, subtable + 8),
        Side::Bases => subtable + word(gpos, subtable + 10),
        Side::Singles => subtable,
        Side::Cursive => subtable,
    }
}

/// Returns row `i` of a kind.
fn row_in(
    alloc: Global,
    gpos: &[u8],
    subtable: usize,
    side: Side,
    i: usize,
    limit: &mut u64,
) -> Result<Option<Vec<Cell>>>
    requires near { subtable < 2 ^ 33 }
    requires few { i < 2 ^ 17 }
    ensures exact { IfOk result (λ row. IsNewRow (the_width side (the_word gpos.now (subtable + 6))) (the_row gpos.now (the_array gpos.now subtable side) (the_word gpos.now (subtable + 6)) side i) row) }
    ensures spends { limit.new ≤ limit.old }
    ensures why { IfErr result (λ e. (e ≡ errors.Memory) ⊎ IsUsedUp limit.new e) }
{
    let array = array_at(gpos, subtable, side);
    match side {
        Side::Marks => {
            let row = mark_row(alloc, gpos, array, i)?;
            Ok(row)
        }
        Side::Bases => {
            let classes = word(gpos, subtable + 6);
            let row = base_row(alloc, gpos, array, classes, i, limit)?;
            Ok(row)
        }
        Side::Singles => {
            let row = single_row(alloc, gpos, array, i)?;
            Ok(row)
        }
        Side::Cursive => {
            let row = ends_row(alloc, gpos, array, i)?;
            Ok(row)
        }
    }
}

/// Returns the row of a glyph among the rows of a kind of a subtable.
pub(crate) fn row_of(
    alloc: Global,
    gpos: &[u8],
    subtable: Option<usize>,
    side: Side,
    glyph: usize,
    limit: &mut u64,
) -> Result<Option<Vec<Cell>>>
    requires near { IfSome subtable (λ at. at < 2 ^ 33) }
    requires glyph { glyph < 65536 }
    ensures exact { IfOk result (λ row. IsNewRow (the_width side (the_classes gpos.now subtable)) (the_row_of gpos.now subtable side glyph) row) }
    ensures spends { limit.new ≤ limit.old }
    ensures why { IfErr result (λ e. (e ≡ errors.Memory) ⊎ IsUsedUp limit.new e) }
{
    let Some(subtable) = subtable else {
        return Ok(None);
    };
    let coverage = coverage_of(gpos, subtable, side);
    match coverage_index(gpos, coverage, glyph, limit)? {
        Some(i) => {
            let row = row_in(alloc, gpos, subtable, side, i, limit)?;
            Ok(row)
        }
        None => Ok(None),
    }
}
