//! Ligatures whose components have anchors (OpenType, "Lookup type 5 subtable: mark-to-ligature attachment positioning").
ghost use Rattle.std.specs.Prelude.{◌≡◌, ◌⊎◌, ◌+◌, ◌*◌, ◌^◌, ◌<◌, ◌≤◌, ◌++◌, length, IfErr, IfOk, IfSome, OnOk};
ghost use Rattle.postscript_layout.specs.Numbers.{word as the_word};
ghost use Rattle.postscript_layout_write.specs.Attaching.{AddsLigature, AreComponents, AreLigatures, HasLigature, IsLigatureArray, classes_of, ligature_at as the_ligature, ligatures_text};
ghost use Rattle.postscript_layout_write.specs.Ligatures.{ligature_in as the_table};
ghost use Rattle.postscript_layout_write.specs.Refusals.{Fails, IsUsedUp};
ghost use Rattle.postscript_layout_write.specs.declared.error.Error.TheVariants as errors;

use crate::anchors::{Cell, Side, anchor_in, array_at, cell_of, coverage_of};
use crate::cells::array_of;
use crate::error::{Error, Result};
use crate::limit::pay;
use crate::numbers::{put_uint16, word};
use crate::ranges::coverage_index;
use crate::subtables::{Sets, put_offsets};
use std::alloc::Global;

/// Returns the offset of the table of ligature `i`.
fn ligature_in(gpos: &[u8], array: usize, i: usize) -> Option<usize>
    requires near { array < 2 ^ 34 }
    requires few { i < 2 ^ 17 }
    ensures exact { result ≡ the_table gpos.now array i }
    ensures near { IfSome result (λ at. at < 2 ^ 36) }
{
    if i < word(gpos, array) {
        Some(array + word(gpos, array + 2 + i * 2))
    } else {
        None
    }
}

/// Returns the offset of the table of a glyph among the ligatures of a subtable.
fn ligature_of(
    gpos: &[u8],
    subtable: Option<usize>,
    glyph: usize,
    limit: &mut u64,
) -> Result<Option<usize>>
    requires near { IfSome subtable (λ at. at < 2 ^ 33) }
    requires glyph { glyph < 65536 }
    ensures exact { IfOk result (λ ligature. ligature ≡ the_ligature gpos.now subtable glyph) }
    ensures near { IfOk result (λ ligature. IfSome ligature (λ at. at < 2 ^ 36)) }
    ensures spends { limit.new ≤ limit.old }
    ensures why { IfErr result (λ e. IsUsedUp limit.new e) }
{
    let Some(subtable) = subtable else {
        return Ok(None);
    };
    let coverage = coverage_of(gpos, subtable, Side::Bases);
    match coverage_index(gpos, coverage, glyph, limit)? {
        Some(i) => Ok(ligature_in(gpos, array_at(gpos, subtable, Side::Bases), i)),
        None => Ok(None),
    }
}

/// Returns the anchors of the components of a ligature.
fn cells_of(
    alloc: Global,
    gpos: &[u8],
    ligature: usize,
    classes: usize,
    limit: &mut u64,
) -> Result<Vec<Cell>>
    requires near { ligature < 2 ^ 36 }
    requires small { classes < 65536 }
    ensures exact { IfOk result (λ cells. AreComponents gpos.now ligature classes cells.items) }
    ensures spends { limit.new ≤ limit.old }
    ensures why { IfErr result (λ e. Fails limit.new e) }
{
    let mut cells = Vec::new(alloc);
    if classes == 0 {
        return Ok(cells);
    }
    let count = word(gpos, ligature) * classes;
    if count > 32766 {
        return Err(Error::TooLarge);
    }
    for q in 0..count {
        pay(limit)?;
        cells.push(cell_of(anchor_in(gpos, ligature, classes, q / classes, q % classes)))?;
    }
    Ok(cells)
}

/// Returns the table of a ligature.
fn text_of(
    alloc: Global,
    gpos: &[u8],
    ligature: usize,
    classes: usize,
    limit: &mut u64,
) -> Result<Vec<u8>>
    requires near { ligature < 2 ^ 36 }
    requires small { classes < 65536 }
    ensures text { IfOk result (λ text. HasLigature gpos.now ligature classes text.items 0) }
    ensures spends { limit.new ≤ limit.old }
    ensures why { IfErr result (λ e. Fails limit.new e) }
{
    let cells = cells_of(alloc, gpos, ligature, classes, limit)?;
    let text = array_of(alloc, 0, word(gpos, ligature) as u16, &cells)?;
    Ok(text)
}

/// Adds the table of a ligature.
fn add(ligatures: &mut Sets, glyph: u16, text: &[u8]) -> Result<()>
    ensures done { OnOk result (AddsLigature glyph text.now ligatures.old.firsts.items ligatures.old.offsets.items ligatures.old.bytes.items ligatures.new.firsts.items ligatures.new.offsets.items ligatures.new.bytes.items) }
    ensures why { IfErr result (λ e. (e ≡ errors.Memory) ⊎ (e ≡ errors.TooLarge)) }
{
    let place = ligatures.place(text)?;
    ligatures.firsts.push(glyph)?;
    ligatures.offsets.push(place)?;
    Ok(())
}

/// Collects the kept ligatures of a subtable with a number of classes of marks.
pub(crate) fn ligatures_of(
    alloc: Global,
    gpos: &[u8],
    subtable: Option<usize>,
    classes: usize,
    kept: &[u16],
    limit: &mut u64,
) -> Result<Sets>
    requires near { IfSome subtable (λ at. at < 2 ^ 33) }
    requires classes { classes ≡ classes_of gpos.now subtable }
    requires small { classes < 65536 }
    requires few { length kept.now < 65536 }
    ensures exact { IfOk result (λ sets. AreLigatures gpos.now subtable kept.now (length kept.now) sets.firsts.items sets.offsets.items sets.bytes.items) }
    ensures spends { limit.new ≤ limit.old }
    ensures why { IfErr result (λ e. Fails limit.new e) }
{
    let mut ligatures = Sets::new(alloc);
    for k in 0..kept.len() {
        pay(limit)?;
        let found = ligature_of(gpos, subtable, kept[k] as usize, limit)?;
        if let Some(ligature) = found {
            let text = text_of(alloc, gpos, ligature, classes, limit)?;
            add(&mut ligatures, k as u16, &text)?;
        }
    }
    Ok(ligatures)
}

/// Returns the array of some ligatures.
#[tactic(auto, unfolding(crate::specs::Attaching::ligatures_text))]
pub(crate) fn ligature_array(alloc: Global, offsets: &[usize], bytes: &[u8]) -> Result<Vec<u8>>
    ensures text { IfOk result (λ text. IsLigatureArray offsets.now bytes.now text.items) }
    ensures why { IfErr result (λ e. (e ≡ errors.Memory) ⊎ (e ≡ errors.TooLarge)) }
{
    let count = offsets.len();
    if count > 16380 {
        return Err(Error::TooLarge);
    }
    let mut out = Vec::new(alloc);
    put_uint16(&mut out, count as u16)?;
    put_offsets(&mut out, 2 + count * 2, offsets)?;
    out.extend_from_slice(bytes)?;
    Ok(out)
}
