//! Rows of numbers and anchors, and their arrays.
ghost use Rattle.std.specs.Prelude.{◌≡◌, ◌⊎◌, ◌+◌, ◌*◌, ◌^◌, ◌<◌, ◌≤◌, ◌++◌, [], ◌∷◌, length, slice_index, IfErr, IfOk, IfSome, OnOk};
ghost use Rattle.postscript_layout_write.specs.Attaching.{AreRows, HasCells, IsArray, PlacesCell, anchor_text as the_text, cells_text, classes_of, lead_of as the_lead, row_of as the_row, width_of};
ghost use Rattle.postscript_layout_write.specs.Refusals.{Fails, IsUsedUp};
ghost use Rattle.postscript_layout_write.specs.declared.error.Error.TheVariants as errors;

use crate::anchors::{Anchor, Cell, Side, row_of};
use crate::error::{Error, Result};
use crate::limit::pay;
use crate::numbers::put_uint16;
use crate::subtables::{Sets, put_glyphs};
use std::alloc::Global;

/// The most numbers of an array whose offsets of two bytes can follow them.
const MOST: usize = 32766;

/// The new numbers of some glyphs, and the rows of these glyphs one after the other.
#[derive(Drop)]
pub(crate) struct Rows {
    pub(crate) glyphs: Vec<u16>,
    pub(crate) cells: Vec<Cell>,
}

impl Rows {
    /// Returns no rows.
    pub(crate) fn new(alloc: Global) -> Rows
        ensures glyphs { result.glyphs.items ≡ [] }
        ensures cells { result.cells.items ≡ [] }
    {
        Rows {
            glyphs: Vec::new(alloc),
            cells: Vec::new(alloc),
        }
    }

    /// Adds the row of a glyph. Rows that take more than one array are too large.
    fn add(&mut self, glyph: u16, row: &[Cell]) -> Result<()>
        ensures glyphs { OnOk result (self.new.glyphs.items ≡ self.old.glyphs.items ++ glyph ∷ []) }
        ensures cells { OnOk result (self.new.cells.items ≡ self.old.cells.items ++ row.now) }
        ensures small { OnOk result (glyph < 65536) }
        ensures why { IfErr result (λ e. (e ≡ errors.Memory) ⊎ (e ≡ errors.TooLarge)) }
    {
        if row.len() > MOST || self.cells.len() > MOST - row.len() {
            return Err(Error::TooLarge);
        }
        self.glyphs.push(glyph)?;
        self.cells.extend_from_slice(row)?;
        Ok(())
    }
}

/// Collects the rows of a kind of the kept glyphs that a subtable has.
pub(crate) fn rows_of(
    alloc: Global,
    gpos: &[u8],
    subtable: Option<usize>,
    side: Side,
    kept: &[u16],
    limit: &mut u64,
) -> Result<Rows>
    requires near { IfSome subtable (λ at. at < 2 ^ 33) }
    requires few { length kept.now < 65536 }
    ensures exact { IfOk result (λ rows. AreRows (width_of side (classes_of gpos.now subtable)) (λ x. the_row gpos.now subtable side (slice_index kept.now x)) (length kept.now) rows.glyphs.items rows.cells.items) }
    ensures spends { limit.new ≤ limit.old }
    ensures why { IfErr result (λ e. Fails limit.new e) }
{
    let mut rows = Rows::new(alloc);
    for k in 0..kept.len() {
        pay(limit)?;
        let found = row_of(alloc, gpos, subtable, side, kept[k] as usize, limit)?;
        if let Some(row) = found {
            rows.add(k as u16, &row)?;
        }
    }
    Ok(rows)
}

/// Returns the bytes of an anchor.
#[tactic(auto, unfolding(crate::specs::Attaching::anchor_text))]
fn anchor_text(alloc: Global, anchor: &Anchor) -> Result<Vec<u8>>
    ensures text { IfOk result (λ text. text.items ≡ the_text anchor.now) }
    ensures x { OnOk result (anchor.now.x < 65536) }
    ensures y { OnOk result (anchor.now.y < 65536) }
    ensures memory { IfErr result (λ e. e ≡ errors.Memory) }
{
    let mut text = Vec::new(alloc);
    put_uint16(&mut text, 1)?;
    put_uint16(&mut text, anchor.x)?;
    put_uint16(&mut text, anchor.y)?;
    Ok(text)
}

/// Returns the number of a cell of an array. An anchor is placed in the pool, which begins at offset `base`.
fn number_of(alloc: Global, pool: &mut Sets, base: usize, cell: &Cell) -> Result<u16>
    requires { base < 65536 }
    ensures done { IfOk result (λ number. PlacesCell base cell.now number pool.old.bytes.items pool.new.bytes.items) }
    ensures why { IfErr result (λ e. (e ≡ errors.Memory) ⊎ (e ≡ errors.TooLarge)) }
{
    match cell {
        Cell::Number(number) => Ok(*number),
        Cell::At(anchor) => {
            let text = anchor_text(alloc, anchor)?;
            let place = pool.place(&text)?;
            if place > 65535 - base {
                return Err(Error::TooLarge);
            }
            pool.offsets.push(place)?;
            Ok((base + place) as u16)
        }
    }
}

/// Returns the bytes of an array of rows, with the anchors behind it. Offsets are counted from `lead` bytes before it.
pub(crate) fn array_of(alloc: Global, lead: usize, count: u16, cells: &[Cell]) -> Result<Vec<u8>>
    requires { lead ≤ 6 }
    ensures text { IfOk result (λ text. HasCells lead count cells.now text.items 0) }
    ensures why { IfErr result (λ e. (e ≡ errors.Memory) ⊎ (e ≡ errors.TooLarge)) }
{
    if cells.len() > MOST - lead {
        return Err(Error::TooLarge);
    }
    let base = lead + (2 + cells.len() * 2);
    let mut pool = Sets::new(alloc);
    let mut numbers = Vec::new(alloc);
    for cell in cells {
        let number = number_of(alloc, &mut pool, base, cell)?;
        numbers.push(number)?;
    }
    let mut out = Vec::new(alloc);
    put_uint16(&mut out, count)?;
    put_glyphs(&mut out, &numbers)?;
    out.extend_from_slice(&pool.bytes)?;
    Ok(out)
}

/// The glyphs of an array, and its bytes.
#[derive(Drop)]
pub(crate) struct Array {
    pub(crate) glyphs: Vec<u16>,
    pub(crate) bytes: Vec<u8>,
}

/// Returns the number of bytes before an array from which its offsets are counted.
pub(crate) fn lead_of(side: Side) -> usize
    ensures exact { result ≡ the_lead side }
    ensures small { result ≤ 6 }
{
    match side {
        Side::Marks => 0,
        Side::Bases => 0,
        Side::Singles => 6,
        Side::Cursive => 4,
    }
}

/// Returns the array of some rows.
pub(crate) fn rows_array(alloc: Global, lead: usize, rows: Rows) -> Result<Array>
    requires { lead ≤ 6 }
    ensures glyphs { IfOk result (λ array. array.glyphs.items ≡ rows.glyphs.items) }
    ensures text { IfOk result (λ array. HasCells lead (length rows.glyphs.items) rows.cells.items array.bytes.items 0) }
    ensures why { IfErr result (λ e. (e ≡ errors.Memory) ⊎ (e ≡ errors.TooLarge)) }
{
    let count = rows.glyphs.len();
    if count > 16380 {
        return Err(Error::TooLarge);
    }
    let bytes = array_of(alloc, lead, count as u16, &rows.cells)?;
    Ok(Array {
        glyphs: rows.glyphs,
        bytes,
    })
}

/// Returns the array of the kept glyphs of a subtable.
pub(crate) fn array_in(
    alloc: Global,
    gpos: &[u8],
    subtable: Option<usize>,
    side: Side,
    kept: &[u16],
    limit: &mut u64,
) -> Result<Array>
    requires near { IfSome subtable (λ at. at < 2 ^ 33) }
    requires few { length kept.now < 65536 }
    ensures exact { IfOk result (λ array. IsArray side gpos.now subtable kept.now array.glyphs.items array.bytes.items) }
    ensures spends { limit.new ≤ limit.old }
    ensures why { IfErr result (λ e. Fails limit.new e) }
{
    let rows = rows_of(alloc, gpos, subtable, side, kept, limit)?;
    let array = rows_array(alloc, lead_of(side), rows)?;
    Ok(array)
}
