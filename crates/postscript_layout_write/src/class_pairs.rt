//! Subtables of pairs by classes of glyphs (OpenType, "Pair adjustment positioning format 2: class pair adjustment").
ghost use Rattle.std.specs.Prelude.{◌≡◌, ◌⊎◌, ◌+◌, ◌*◌, ◌<◌, ◌≤◌, ◌++◌, ℕ, true, length, slice_index, IfErr, IfOk, IfSome, OnOk};
ghost use Rattle.std.specs.List.{All};
ghost use Rattle.postscript_layout_write.specs.ClassPairs.{AddsFirst, AreAdvances, AreColumnsIfOpen, AreFirsts, AreRows, AreValues, HasClasses, IsClassText, IsColumn, PutsValues};
ghost use Rattle.postscript_layout_write.specs.Entries.{AreEntries};
ghost use Rattle.postscript_layout_write.specs.Values.{nothing};
ghost use Rattle.postscript_layout_write.specs.declared.error.Error.TheVariants as errors;
ghost use Rattle.postscript_layout_write.specs.declared.values.Adjustment.{Adjustment};

use crate::entries::{Entry, Form};
use crate::error::Result;
use crate::lines::Lines;
use crate::subtables::{has_form, put_coverage, put_glyphs};
use std::alloc::Global;

/// Returns the advances of the pairs of a first glyph, by the second glyph, unless something else is adjusted.
fn advances_of(alloc: Global, entries: &[Entry], width: usize) -> Result<Option<Vec<u16>>>
    requires { All (λ e. e.second < width) entries.now }
    ensures exact { IfOk result (λ found. IfSome found (λ line. AreAdvances entries.now width line.items)) }
    ensures memory { IfErr result (λ e. e ≡ errors.Memory) }
{
    let mut line: Vec<u16> = vec![in alloc; 0; width]?;
    for entry in entries {
        if !has_form(Form::Advance, entry) {
            return Ok(None);
        }
        line[entry.second as usize] = entry.adjustment.first.x_advance;
    }
    Ok(Some(line))
}

/// Adds the pairs of a first glyph.
pub(crate) fn add_first(alloc: Global, rows: &mut Lines, entries: &[Entry]) -> Result<()>
    requires { rows.old.is_open ≡ true → All (λ e. e.second < rows.old.width) entries.now }
    ensures added { OnOk result (rows.new.is_open ≡ true → (f : ℕ → Adjustment) → AreEntries f rows.old.width entries.now → AddsFirst f rows.old rows.new) }
    ensures open { OnOk result (rows.new.is_open ≡ true → rows.old.is_open ≡ true) }
    ensures memory { IfErr result (λ e. e ≡ errors.Memory) }
{
    if !rows.is_open {
        return Ok(());
    }
    if entries.is_empty() {
        rows.add_zeros()?;
        return Ok(());
    }
    match advances_of(alloc, entries, rows.width)? {
        Some(line) => rows.add(&line)?,
        None => rows.is_open = false,
    }
    Ok(())
}

/// Returns a column of rows.
fn column_of(alloc: Global, rows: &Lines, y: usize) -> Result<Vec<u16>>
    requires open { rows.now.is_open ≡ true }
    requires within { y < rows.now.width }
    ensures exact { IfOk result (λ column. IsColumn rows.now y column.items) }
    ensures memory { IfErr result (λ e. e ≡ errors.Memory) }
{
    let mut column = Vec::new(alloc);
    for class in 0..rows.keys.len() {
        column.push(rows.cells[class * rows.width + y])?;
    }
    Ok(column)
}

/// Returns the columns of rows.
fn columns_of(alloc: Global, rows: &Lines) -> Result<Lines>
    requires { rows.now.is_open ≡ true }
    ensures exact { IfOk result (λ columns. AreColumnsIfOpen rows.now rows.now.width columns) }
    ensures memory { IfErr result (λ e. e ≡ errors.Memory) }
{
    let mut columns = Lines::new(alloc, rows.keys.len())?;
    for y in 0..rows.width {
        if columns.is_open {
            let column = column_of(alloc, rows, y)?;
            columns.add(&column)?;
        }
    }
    Ok(columns)
}

/// Appends number `r` of the column of each class.
fn put_values(values: &mut Vec<u16>, columns: &Lines, r: usize) -> Result<()>
    requires open { columns.now.is_open ≡ true }
    requires within { r < columns.now.width }
    ensures put { OnOk result (PutsValues columns.now r (length columns.now.keys.items) values.old.items values.new.items) }
    ensures memory { IfErr result (λ e. e ≡ errors.Memory) }
{
    for class in 0..columns.keys.len() {
        values.push(columns.cells[class * columns.width + r])?;
    }
    Ok(())
}

/// Returns the numbers of the columns of all classes, one row after the other.
fn values_of(alloc: Global, columns: &Lines) -> Result<Vec<u16>>
    requires { columns.now.is_open ≡ true }
    ensures exact { IfOk result (λ values. AreValues columns.now columns.now.width values.items) }
    ensures memory { IfErr result (λ e. e ≡ errors.Memory) }
{
    let mut values = Vec::new(alloc);
    for r in 0..columns.width {
        put_values(&mut values, columns, r)?;
    }
    Ok(values)
}

/// Returns the numbers that are in another class than 0.
fn firsts_of(alloc: Global, classes: &[u16]) -> Result<Vec<u16>>
    requires { length classes.now ≤ 8192 }
    ensures exact { IfOk result (λ firsts. AreFirsts classes.now (length classes.now) firsts.items) }
    ensures memory { IfErr result (λ e. e ≡ errors.Memory) }
{
    let mut firsts = Vec::new(alloc);
    for x in 0..classes.len() {
        if classes[x] != 0 {
            firsts.push(x as u16)?;
        }
    }
    Ok(firsts)
}

/// Returns a subtable of format 2: advances for classes, the first glyphs, and the class of each glyph.
#[tactic(auto, unfolding(crate::specs::ClassPairs::class_text))]
fn text_of(
    alloc: Global,
    row_count: u16,
    column_count: u16,
    values: &[u16],
    firsts: &[u16],
    rows: &[u16],
    columns: &[u16],
) -> Result<Vec<u8>>
    requires few { length firsts.now ≤ 8192 }
    requires columns { length columns.now ≤ 8192 }
    requires near { 26 + length values.now * 2 + length firsts.now * 2 + length rows.now * 2 < 65536 }
    ensures exact { IfOk result (λ bytes. IsClassText row_count column_count values.now firsts.now rows.now columns.now bytes.items) }
    ensures memory { IfErr result (λ e. e ≡ errors.Memory) }
{
    let coverage = 16 + values.len() * 2;
    let first_classes = coverage + 4 + firsts.len() * 2;
    let second_classes = first_classes + 6 + rows.len() * 2;
    let mut out = Vec::new(alloc);
    put_glyphs(
        &mut out,
        &[
            2,
            coverage as u16,
            4,
            0,
            first_classes as u16,
            second_classes as u16,
            row_count,
            column_count,
        ],
    )?;
    put_glyphs(&mut out, values)?;
    put_coverage(&mut out, firsts)?;
    put_glyphs(&mut out, &[1, 0, rows.len() as u16])?;
    put_glyphs(&mut out, rows)?;
    put_glyphs(&mut out, &[1, 0, columns.len() as u16])?;
    put_glyphs(&mut out, columns)?;
    Ok(out)
}

/// Returns a subtable of format 2 with the pairs of rows, if it is shorter than a number of bytes.
pub(crate) fn class_subtable(alloc: Global, rows: &Lines, size: usize) -> Result<Option<Vec<u8>>>
    requires { rows.now.is_open ≡ true → length rows.now.classes.items ≡ rows.now.width }
    ensures exact { IfOk result (λ found. IfSome found (λ bytes. (rows.now.is_open ≡ true) × ((f : (x y : ℕ) → Adjustment) → AreRows f rows.now.width rows.now → ((x y : ℕ) → (rows.now.width ≤ x) ⊎ (rows.now.width ≤ y) → f x y ≡ nothing) → HasClasses f bytes.items))) }
    ensures memory { IfErr result (λ e. e ≡ errors.Memory) }
{
    if !rows.is_open {
        return Ok(None);
    }
    let columns = columns_of(alloc, rows)?;
    if !columns.is_open {
        return Ok(None);
    }
    let firsts = firsts_of(alloc, &rows.classes)?;
    let number = rows.keys.len() * columns.keys.len();
    let total = 32 + number * 2 + firsts.len() * 2 + rows.width * 4;
    if total > 65535 || total >= size {
        return Ok(None);
    }
    let values = values_of(alloc, &columns)?;
    let text = text_of(
        alloc,
        rows.keys.len() as u16,
        columns.keys.len() as u16,
        &values,
        &firsts,
        &rows.classes,
        &columns.classes,
    )?;
    Ok(Some(text))
}
