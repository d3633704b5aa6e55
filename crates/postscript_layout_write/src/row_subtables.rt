//! Subtables with a row for each glyph: single adjustments (format 2) and cursive attachment (format 1).
ghost use Rattle.std.specs.Prelude.{◌≡◌, ◌⊎◌, ◌+◌, ◌^◌, ◌<◌, ◌≤◌, ◌++◌, length, IfErr, IfSome, OnOk};
ghost use Rattle.postscript_layout_write.specs.Attaching.{numbers_of};
ghost use Rattle.postscript_layout_write.specs.Refusals.{Fails};
ghost use Rattle.postscript_layout_write.specs.Text.{array_text};
ghost use Rattle.postscript_layout_write.specs.Typed.{AddsRows, PutsRows};
ghost use Rattle.postscript_layout_write.specs.declared.error.Error.TheVariants as errors;

use crate::anchors::Side;
use crate::cells::{array_in, lead_of};
use crate::error::{Error, Result};
use crate::subtables::{put_coverage, put_glyphs};
use std::alloc::{AllocError, Global};

/// Appends the numbers before an array: the format, the offset of the coverage table, and the format of the values.
fn put_numbers(out: &mut Vec<u8>, side: Side, coverage: u16) -> std::result::Result<(), AllocError>
    ensures { OnOk result (out.new.items ≡ out.old.items ++ array_text (numbers_of side coverage)) }
{
    match side {
        Side::Singles => put_glyphs(out, &[2, coverage, 15]),
        Side::Cursive => put_glyphs(out, &[1, coverage]),
        _ => put_glyphs(out, &[]),
    }
}

/// Appends a subtable with an array. The coverage table follows the array.
#[tactic(auto, unfolding(crate::specs::Typed::rows_text))]
fn put_rows(out: &mut Vec<u8>, side: Side, glyphs: &[u16], array: &[u8]) -> Result<()>
    ensures done { OnOk result (PutsRows side glyphs.now array.now out.old.items out.new.items) }
    ensures why { IfErr result (λ e. (e ≡ errors.Memory) ⊎ (e ≡ errors.TooLarge)) }
{
    let lead = lead_of(side);
    if glyphs.len() > 16380 || array.len() > 65535 - lead {
        return Err(Error::TooLarge);
    }
    put_numbers(out, side, (lead + array.len()) as u16)?;
    out.extend_from_slice(array)?;
    put_coverage(out, glyphs)?;
    Ok(())
}

/// Appends a subtable with a row for each kept glyph that an old subtable has.
pub(crate) fn add_rows(
    alloc: Global,
    out: &mut Vec<u8>,
    gpos: &[u8],
    side: Side,
    subtable: Option<usize>,
    kept: &[u16],
    limit: &mut u64,
) -> Result<()>
    requires near { IfSome subtable (λ at. at < 2 ^ 33) }
    requires few { length kept.now < 65536 }
    ensures done { OnOk result (AddsRows side gpos.now subtable kept.now out.old.items out.new.items) }
    ensures spends { limit.new ≤ limit.old }
    ensures why { IfErr result (λ e. Fails limit.new e) }
{
    let array = array_in(alloc, gpos, subtable, side, kept, limit)?;
    put_rows(out, side, &array.glyphs, &array.bytes)?;
    Ok(())
}
