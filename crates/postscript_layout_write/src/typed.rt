//! Lookups that are written with a subtable for each old one: single adjustments, cursive attachment, and marks.
ghost use Rattle.std.specs.Prelude.{◌≡◌, ◌⊎◌, ◌%◌, ◌+◌, ◌*◌, ◌^◌, ◌<◌, ◌≤◌, ◌++◌, length, IfErr, IfOk, IfSome, OnOk};
ghost use Rattle.postscript_layout.specs.Numbers.{word as the_word};
ghost use Rattle.postscript_layout_write.specs.Flags.{has_kept_type as the_having};
ghost use Rattle.postscript_layout_write.specs.Marks.{of_format1 as the_format1, type_at, typed_at as the_subtable};
ghost use Rattle.postscript_layout_write.specs.Positions.{has_no_pairs as the_no_pairs, is_kept_type as the_kept, keeps_type as the_keeps};
ghost use Rattle.postscript_layout_write.specs.Refusals.{Fails, IsUsedUp};
ghost use Rattle.postscript_layout_write.specs.Typed.{AddsPart, AddsTyped, HasParts};
ghost use Rattle.postscript_layout_write.specs.declared.error.Error.TheVariants as errors;

use crate::anchors::Side;
use crate::error::{Error, Result};
use crate::limit::pay;
use crate::lookups::pairs_at;
use crate::marks::add_attaching;
use crate::numbers::{long, word};
use crate::row_subtables::add_rows;
use crate::scope::put_set;
use crate::substituting::put_head;
use crate::subtables::{Sets, put_offsets};
use std::alloc::Global;

/// Returns the type of a lookup. An extension has the type of its first subtable.
pub(crate) fn type_of(gpos: &[u8], lookup: usize) -> usize
    requires near { lookup < 2 ^ 31 }
    ensures exact { result ≡ type_at gpos.now lookup }
    ensures small { result < 65536 }
{
    let kind = word(gpos, lookup);
    if kind == 9 {
        word(gpos, lookup + word(gpos, lookup + 6) + 2)
    } else {
        kind
    }
}

/// Whether all subtables of lookups of a type are kept.
pub(crate) fn is_kept_type(kind: usize) -> bool
    ensures { result ≡ the_kept kind }
{
    kind == 4 || kind == 6 || kind == 5 || kind == 1 || kind == 3
}

/// Returns a subtable, if it has format 1.
fn of_format1(gpos: &[u8], subtable: Option<usize>) -> Option<usize>
    requires near { IfSome subtable (λ at. at < 2 ^ 33) }
    ensures exact { result ≡ the_format1 gpos.now subtable }
    ensures near { IfSome result (λ at. at < 2 ^ 33) }
{
    match subtable {
        Some(at) => { if word(gpos, at) == 1 { Some(at) } else { None } }
        None => None,
    }
}

/// Returns the offset of subtable `j` of a lookup, or of the subtable that its extension names, if that has a type.
pub(crate) fn subtable_at(gpos: &[u8], lookup: usize, kind: usize, j: usize) -> Option<usize>
    requires near { lookup < 2 ^ 31 }
    requires few { j < 65536 }
    ensures exact { result ≡ the_subtable gpos.now lookup kind j }
    ensures near { IfSome result (λ at. at < 2 ^ 33) }
{
    let part = lookup + word(gpos, lookup + 6 + j * 2);
    if word(gpos, lookup) == kind {
        Some(part)
    } else if word(gpos, lookup) == 9 && word(gpos, part + 2) == kind {
        Some(part + long(gpos, part + 4))
    } else {
        None
    }
}

/// Whether no subtable of a lookup has pairs.
pub(crate) fn has_no_pairs(gpos: &[u8], lookup: usize, limit: &mut u64) -> Result<bool>
    requires near { lookup < 2 ^ 31 }
    ensures exact { IfOk result (λ none. none ≡ the_no_pairs gpos.now lookup) }
    ensures spends { limit.new ≤ limit.old }
    ensures why { IfErr result (λ e. IsUsedUp limit.new e) }
{
    let count = word(gpos, lookup + 4);
    for j in 0..count {
        pay(limit)?;
        if pairs_at(gpos, lookup, j).is_some() {
            return Ok(false);
        }
    }
    Ok(true)
}

/// Whether a lookup keeps its type: all subtables of that type are kept, it uses no classes or sets of marks, and it has no
/// pairs.
pub(crate) fn keeps_type(gpos: &[u8], lookup: usize, limit: &mut u64) -> Result<bool>
    requires near { lookup < 2 ^ 31 }
    ensures exact { IfOk result (λ keeps. keeps ≡ the_keeps gpos.now lookup) }
    ensures spends { limit.new ≤ limit.old }
    ensures why { IfErr result (λ e. IsUsedUp limit.new e) }
{
    if is_kept_type(type_of(gpos, lookup)) && word(gpos, lookup + 2) < 16 {
        let none = has_no_pairs(gpos, lookup, limit)?;
        Ok(none)
    } else {
        Ok(false)
    }
}

/// Whether a lookup has a type of which all subtables are kept, and no pairs.
pub(crate) fn has_kept_type(gpos: &[u8], lookup: usize, limit: &mut u64) -> Result<bool>
    requires near { lookup < 2 ^ 31 }
    ensures exact { IfOk result (λ has. has ≡ the_having gpos.now lookup) }
    ensures spends { limit.new ≤ limit.old }
    ensures why { IfErr result (λ e. IsUsedUp limit.new e) }
{
    if is_kept_type(type_of(gpos, lookup)) {
        let none = has_no_pairs(gpos, lookup, limit)?;
        Ok(none)
    } else {
        Ok(false)
    }
}

/// Appends a subtable of a type for the kept glyphs.
fn add_part(
    alloc: Global,
    out: &mut Vec<u8>,
    gpos: &[u8],
    kind: usize,
    part: Option<usize>,
    kept: &[u16],
    limit: &mut u64,
) -> Result<()>
    requires near { IfSome part (λ at. at < 2 ^ 33) }
    requires few { length kept.now < 65536 }
    ensures done { OnOk result (AddsPart kind gpos.now part kept.now out.old.items out.new.items) }
    ensures spends { limit.new ≤ limit.old }
    ensures why { IfErr result (λ e. Fails limit.new e) }
{
    match kind {
        1 => add_rows(alloc, out, gpos, Side::Singles, part, kept, limit),
        3 => add_rows(
            alloc,
            out,
            gpos,
            Side::Cursive,
            of_format1(gpos, part),
            kept,
            limit,
        ),
        _ => add_attaching(alloc, out, gpos, kind, of_format1(gpos, part), kept, limit),
    }
}

/// Collects the subtables of a lookup of a type with a new flag, after the set of marks of the lookup, if it uses one.
/// Subtables with the same bytes can have the same offset.
fn parts_of(
    alloc: Global,
    gpos: &[u8],
    lookup: usize,
    kind: usize,
    flag: usize,
    kept: &[u16],
    limit: &mut u64,
) -> Result<Sets>
    requires near { lookup < 2 ^ 31 }
    requires few { length kept.now < 65536 }
    ensures exact { IfOk result (λ parts. HasParts gpos.now lookup kind flag kept.now (the_word gpos.now (lookup + 4)) parts.offsets.items parts.bytes.items) }
    ensures spends { limit.new ≤ limit.old }
    ensures why { IfErr result (λ e. Fails limit.new e) }
{
    let mut parts = Sets::new(alloc);
    put_set(&mut parts.bytes, gpos, lookup, flag)?;
    let count = word(gpos, lookup + 4);
    for j in 0..count {
        pay(limit)?;
        let subtable = subtable_at(gpos, lookup, kind, j);
        let mut text = Vec::new(alloc);
        add_part(alloc, &mut text, gpos, kind, subtable, kept, limit)?;
        let offset = parts.place(&text)?;
        parts.offsets.push(offset)?;
    }
    Ok(parts)
}

/// Appends a lookup with its type, a new flag, and a subtable for each old one.
#[tactic(auto, unfolding(crate::specs::Typed::parts_text))]
pub(crate) fn put_typed(
    alloc: Global,
    out: &mut Vec<u8>,
    gpos: &[u8],
    lookup: usize,
    flag: usize,
    kept: &[u16],
    limit: &mut u64,
) -> Result<()>
    requires near { lookup < 2 ^ 31 }
    requires few { length kept.now < 65536 }
    requires small { flag < 65536 }
    ensures done { OnOk result (AddsTyped gpos.now kept.now lookup flag out.old.items out.new.items) }
    ensures spends { limit.new ≤ limit.old }
    ensures why { IfErr result (λ e. Fails limit.new e) }
{
    let kind = type_of(gpos, lookup);
    let parts = parts_of(alloc, gpos, lookup, kind, flag, kept, limit)?;
    let count = parts.offsets.len();
    if count > 32000 {
        return Err(Error::TooLarge);
    }
    put_head(out, kind as u16, flag as u16, count as u16)?;
    put_offsets(out, 6 + count * 2, &parts.offsets)?;
    out.extend_from_slice(&parts.bytes)?;
    Ok(())
}
