//! The row of a glyph. Its columns are in `head` (docs/report-format.md).
use crate::drawing::{draw, width_of};
use postscript_drawing::Accent;
use postscript_outline::Outline;
use postscript_type2::{Charstring, Program, Subroutines};
use postscript_view::Glyph;
use psotf_font::characters::{Mapped, of_glyph};
use psotf_font::face::Face;
use psotf_font::report::{operations, outlines, short};
use psotf_output::failure::{Failure, Refusal};
use psotf_output::limit::Budget;
use psotf_output::sheet::Sheet;
use psotf_output::stopped::Stopped;
use psotf_output::text::Text;
use std::alloc::Global;

/// Writes the CID or the name of a glyph, or null.
fn name(sheet: &mut Sheet, face: &Face<'_>, gid: u16) {
    match face.cid(gid) {
        Some(cid) => sheet.u64(u64::from(cid)),
        None => sheet.bytes_or_null(face.name(gid)),
    }
}

/// Writes the characters of a glyph.
fn chars(sheet: &mut Sheet, chars: &[Mapped]) {
    sheet.begin_array();
    for mapped in chars {
        sheet.u64(u64::from(mapped.char));
    }
    sheet.end_array();
}

/// Writes the index of a glyph's Private DICT, or null.
fn part(sheet: &mut Sheet, face: &Face<'_>, gid: u16) {
    match face.font.part_of(usize::from(gid)) {
        Some(part) => sheet.u64(part as u64),
        None => sheet.null(),
    }
}

/// Writes the width of a glyph by its charstring, and the width operand if there is one, or null.
fn width(alloc: Global, sheet: &mut Sheet, glyph: &Glyph<'_, '_>, outline: &Outline) {
    let Some(bits) = width_of(glyph, outline) else {
        return sheet.null();
    };
    let mut text = Text::new(alloc);
    short::put_bits(&mut text, bits);
    if let Some(operand) = outline.width_difference {
        short::put_bits(&mut text, i64::from(operand.bits()));
    }
    sheet.put(&text);
}

/// Returns the cost of a run that ends, and the base and the accent of a `seac` glyph.
fn cost_of(
    program: &mut Program<'_>,
    budget: &mut Budget,
) -> Result<(u64, Option<Accent>), Failure> {
    let share = budget.share();
    let mut left = share;
    let _ = program.fits(&mut left)?;
    let cost = share.saturating_sub(left);
    budget.spend(cost.saturating_mul(3));
    let accent = Accent::named_by(program.operands_at_end());
    Ok((cost, accent.unwrap_or(None)))
}

/// Writes the cost of a glyph, and the sizes of its flattened and its desubroutinized code. Returns the base and the
/// accent of a `seac` glyph.
fn costs(
    alloc: Global,
    sheet: &mut Sheet,
    glyph: &Glyph<'_, '_>,
    budget: &mut Budget,
) -> Result<Option<Accent>, Failure> {
    let (cost, accent) = cost_of(&mut glyph.program(alloc), budget)?;
    let subroutines = Subroutines::indexes(glyph.global_subroutines, glyph.part.subroutines);
    let code = glyph.code;
    let charstring = Charstring { code, subroutines };
    sheet.u64(cost);
    sheet.u64(charstring.flat_len(alloc)? as u64);
    sheet.u64(charstring.inlined_len(alloc)? as u64);
    Ok(accent)
}

/// Writes the codes of a base and an accent.
fn both(sheet: &mut Sheet, accent: &Accent) {
    sheet.numbers(&[u64::from(accent.base), u64::from(accent.accent)]);
}

/// Writes the outline and the code of a glyph.
fn put_drawn(
    alloc: Global,
    sheet: &mut Sheet,
    glyph: &Glyph<'_, '_>,
    outline: &Outline,
    budget: &mut Budget,
) -> Result<(), Failure> {
    width(alloc, sheet, glyph, outline);
    outlines::put_bounds(alloc, sheet, outline);
    let accent = costs(alloc, sheet, glyph, budget)?;
    outlines::put(alloc, sheet, outline);
    operations::put(alloc, sheet, glyph, budget)?;
    sheet.hex(glyph.code);
    if let Some(accent) = accent {
        both(sheet, &accent);
    }
    Ok(())
}

/// Writes the error of a glyph.
fn put_error(
    sheet: &mut Sheet,
    gid: u16,
    refusal: &Refusal,
    stopped: &mut Stopped<'_>,
) -> Result<(), Failure> {
    sheet.put_display(refusal);
    if refusal.is_by_limit() {
        stopped.add(gid, refusal)?;
    }
    Ok(())
}

/// Writes a glyph as a row, with its drawing or its error. A glyph that costs more than the limit is reported.
pub fn put(
    alloc: Global,
    sheet: &mut Sheet,
    face: &Face<'_>,
    mapped: &[Mapped],
    gid: u16,
    budget: &mut Budget,
    stopped: &mut Stopped<'_>,
) -> Result<(), Failure> {
    sheet.begin_array();
    name(sheet, face, gid);
    chars(sheet, of_glyph(mapped, gid));
    sheet.u64(u64::from(face.advances.of(gid)));
    part(sheet, face, gid);
    match draw(alloc, face, gid, budget) {
        Ok((glyph, outline)) => put_drawn(alloc, sheet, &glyph, &outline, budget)?,
        Err(refusal) => put_error(sheet, gid, &refusal, stopped)?,
    }
    sheet.end_array();
    Ok(())
}
