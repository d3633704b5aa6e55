//! Subtables that attach marks to bases, to ligatures or to other marks.
ghost use Rattle.std.specs.Prelude.{◌≡◌, ◌⊎◌, ◌+◌, ◌*◌, ◌^◌, ◌<◌, ◌≤◌, ◌++◌, length, IfErr, IfOk, IfSome, OnOk};
ghost use Rattle.postscript_layout_write.specs.Attaching.{AddsAttaching, HasLigatureArray, HasSecondArray, PutsAttaching, attaching_head, classes_of as the_classes};
ghost use Rattle.postscript_layout_write.specs.Refusals.{Fails};
ghost use Rattle.postscript_layout_write.specs.declared.error.Error.TheVariants as errors;

use crate::anchors::Side;
use crate::cells::{Array, Rows, array_in, rows_array};
use crate::error::{Error, Result};
use crate::ligatures::{ligature_array, ligatures_of};
use crate::numbers::word;
use crate::subtables::{put_coverage, put_glyphs};
use std::alloc::Global;

/// Returns the number of classes of marks of a subtable.
fn classes_of(gpos: &[u8], subtable: Option<usize>) -> usize
    requires near { IfSome subtable (λ at. at < 2 ^ 33) }
    ensures exact { result ≡ the_classes gpos.now subtable }
    ensures small { result < 65536 }
{
    match subtable {
        Some(at) => word(gpos, at + 6),
        None => 0,
    }
}

/// Appends the header of a subtable with numbers of marks and bases, and with an array of marks of a size.
#[tactic(auto, unfolding(crate::specs::Attaching::attaching_head))]
fn put_numbers(
    out: &mut Vec<u8>,
    classes: u16,
    marks: usize,
    bases: usize,
    size: usize,
) -> Result<()>
    requires marks { marks ≤ 16380 }
    requires bases { bases ≤ 16380 }
    ensures text { OnOk result (out.new.items ≡ out.old.items ++ attaching_head classes marks bases size) }
    ensures small { OnOk result (classes < 65536) }
    ensures fit { OnOk result (20 + marks * 2 + bases * 2 + size < 65536) }
    ensures why { IfErr result (λ e. (e ≡ errors.Memory) ⊎ (e ≡ errors.TooLarge)) }
{
    let first = 20 + marks * 2 + bases * 2;
    if first > 65535 || size > 65535 - first {
        return Err(Error::TooLarge);
    }
    let second = first + size;
    put_glyphs(
        out,
        &[
            1,
            12,
            (16 + marks * 2) as u16,
            classes,
            first as u16,
            second as u16,
        ],
    )?;
    Ok(())
}

/// Appends a subtable.
#[tactic(auto, unfolding(crate::specs::Attaching::attaching_text))]
fn put_subtable(
    out: &mut Vec<u8>,
    classes: u16,
    marks: &[u16],
    bases: &[u16],
    first: &[u8],
    second: &[u8],
) -> Result<()>
    ensures done { OnOk result (PutsAttaching classes marks.now bases.now first.now second.now out.old.items out.new.items) }
    ensures why { IfErr result (λ e. (e ≡ errors.Memory) ⊎ (e ≡ errors.TooLarge)) }
{
    if marks.len() > 16380 || bases.len() > 16380 {
        return Err(Error::TooLarge);
    }
    put_numbers(out, classes, marks.len(), bases.len(), first.len())?;
    put_coverage(out, marks)?;
    put_coverage(out, bases)?;
    out.extend_from_slice(first)?;
    out.extend_from_slice(second)?;
    Ok(())
}

/// Returns the kept ligatures of a subtable.
fn kept_ligatures(
    alloc: Global,
    gpos: &[u8],
    subtable: Option<usize>,
    kept: &[u16],
    limit: &mut u64,
) -> Result<Array>
    requires near { IfSome subtable (λ at. at < 2 ^ 33) }
    requires few { length kept.now < 65536 }
    ensures exact { IfOk result (λ array. HasLigatureArray gpos.now subtable kept.now array.glyphs.items array.bytes.items) }
    ensures spends { limit.new ≤ limit.old }
    ensures why { IfErr result (λ e. Fails limit.new e) }
{
    let classes = classes_of(gpos, subtable);
    let sets = ligatures_of(alloc, gpos, subtable, classes, kept, limit)?;
    let bytes = ligature_array(alloc, &sets.offsets, &sets.bytes)?;
    Ok(Array {
        glyphs: sets.firsts,
        bytes,
    })
}

/// Returns the kept bases of a subtable of a type, or its kept ligatures. Without marks, none are needed.
fn seconds_of(
    alloc: Global,
    gpos: &[u8],
    kind: usize,
    subtable: Option<usize>,
    marks: &[u16],
    kept: &[u16],
    limit: &mut u64,
) -> Result<Array>
    requires near { IfSome subtable (λ at. at < 2 ^ 33) }
    requires few { length kept.now < 65536 }
    ensures exact { IfOk result (λ array. HasSecondArray kind gpos.now subtable kept.now marks.now array.glyphs.items array.bytes.items) }
    ensures spends { limit.new ≤ limit.old }
    ensures why { IfErr result (λ e. Fails limit.new e) }
{
    if marks.is_empty() {
        let array = rows_array(alloc, 0, Rows::new(alloc))?;
        return Ok(array);
    }
    if kind == 5 {
        let array = kept_ligatures(alloc, gpos, subtable, kept, limit)?;
        Ok(array)
    } else {
        let array = array_in(alloc, gpos, subtable, Side::Bases, kept, limit)?;
        Ok(array)
    }
}

/// Appends a subtable of a type with the kept marks, and with the kept bases or ligatures.
pub(crate) fn add_attaching(
    alloc: Global,
    out: &mut Vec<u8>,
    gpos: &[u8],
    kind: usize,
    subtable: Option<usize>,
    kept: &[u16],
    limit: &mut u64,
) -> Result<()>
    requires near { IfSome subtable (λ at. at < 2 ^ 33) }
    requires few { length kept.now < 65536 }
    ensures done { OnOk result (AddsAttaching kind gpos.now subtable kept.now out.old.items out.new.items) }
    ensures spends { limit.new ≤ limit.old }
    ensures why { IfErr result (λ e. Fails limit.new e) }
{
    let marks = array_in(alloc, gpos, subtable, Side::Marks, kept, limit)?;
    let others = seconds_of(alloc, gpos, kind, subtable, &marks.glyphs, kept, limit)?;
    let classes = classes_of(gpos, subtable);
    put_subtable(
        out,
        classes as u16,
        &marks.glyphs,
        &others.glyphs,
        &marks.bytes,
        &others.bytes,
    )?;
    Ok(())
}
