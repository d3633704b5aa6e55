//! A glyph of a `CFF ` table, as a JSON object.
use crate::drawing::{draw, width_of};
use postscript_outline::Outline;
use postscript_type2::{Operand, Operator, Program};
use postscript_view::Glyph;
use psotf_font::characters::{Mapped, of_glyph};
use psotf_font::face::Face;
use psotf_output::failure::{Failure, Refusal};
use psotf_output::limit::{Budget, OPERAND};
use psotf_output::sheet::Sheet;
use psotf_output::text::Text;
use std::alloc::Global;
use std::io::Write;

/// Writes the name of a glyph, and its CID if the font is CID-keyed.
fn name(sheet: &mut Sheet, face: &Face<'_>, gid: u16) {
    if face.font.is_cid_keyed() {
        sheet.key("cid");
        match face.cid(gid) {
            Some(cid) => sheet.u64(u64::from(cid)),
            None => sheet.null(),
        }
    }
    sheet.key("name");
    sheet.bytes_or_null(face.name(gid));
}

/// Writes the characters of a glyph.
pub fn chars(sheet: &mut Sheet, chars: &[Mapped]) {
    sheet.begin_list("chars");
    for mapped in chars {
        sheet.character(mapped.char);
    }
    sheet.end_array();
}

/// Writes the bounds and the segments of an outline.
pub fn shape<W: Write>(sheet: &mut Sheet, outline: &Outline, out: &mut W) -> Result<(), Failure> {
    sheet.bounds("bounds", outline.bounds());
    sheet.bounds("tight_bounds", outline.tight_bounds());
    sheet.segments("segments", outline.segments.as_slice(), out)
}

/// Writes the width and the outline of a glyph.
fn put_drawn<W: Write>(
    sheet: &mut Sheet,
    glyph: &Glyph<'_, '_>,
    outline: &Outline,
    out: &mut W,
) -> Result<(), Failure> {
    sheet.key("width");
    match width_of(glyph, outline) {
        Some(bits) => sheet.bits(bits),
        None => sheet.null(),
    }
    shape(sheet, outline, out)
}

/// Writes the error of a glyph, and null for all parts of its drawing.
fn put_error(sheet: &mut Sheet, refusal: &Refusal) {
    for key in ["width", "bounds", "tight_bounds", "segments", "operations"] {
        sheet.key(key);
        sheet.null();
    }
    sheet.tell("refused", refusal);
}

/// Writes an operation as a list, and spends its cost.
fn operation(sheet: &mut Sheet, operator: Operator, operands: &[Operand], budget: &mut Budget) {
    let count = (operands.len() as u64).saturating_add(1);
    budget.spend(count.saturating_mul(OPERAND));
    sheet.operation(operator.name(), operands);
}

/// Prints the operations of a program, each as a list, piece by piece.
fn operations<W: Write>(
    sheet: &mut Sheet,
    program: &mut Program<'_>,
    budget: &mut Budget,
    out: &mut W,
) -> Result<(), Failure> {
    sheet.begin_list("operations");
    for i in 0..u64::MAX {
        let Some((operator, operands)) = program.next()? else {
            break;
        };
        if i > 0 {
            sheet.next_item(out)?;
        }
        operation(sheet, operator, operands.as_slice(), budget);
    }
    sheet.end_array();
    Ok(())
}

/// Writes the outline and the operations of a glyph, or its error. Returns whether it is drawn.
fn put_drawing<W: Write>(
    alloc: Global,
    sheet: &mut Sheet,
    face: &Face<'_>,
    gid: u16,
    budget: &mut Budget,
    out: &mut W,
) -> Result<bool, Failure> {
    match draw(alloc, face, gid, budget) {
        Ok((glyph, outline)) => {
            put_drawn(sheet, &glyph, &outline, out)?;
            operations(sheet, &mut glyph.program(alloc), budget, out)?;
            Ok(true)
        }
        Err(refusal) => {
            put_error(sheet, &refusal);
            Ok(false)
        }
    }
}

/// Writes a glyph as an object, and prints the beginning of a long one. Returns whether it is drawn.
pub fn object<W: Write>(
    alloc: Global,
    sheet: &mut Sheet,
    face: &Face<'_>,
    mapped: &[Mapped],
    gid: u16,
    budget: &mut Budget,
    out: &mut W,
) -> Result<bool, Failure> {
    sheet.begin_object();
    sheet.number("gid", u64::from(gid));
    name(sheet, face, gid);
    chars(sheet, of_glyph(mapped, gid));
    sheet.number("advance", u64::from(face.advances.of(gid)));
    let is_drawn = put_drawing(alloc, sheet, face, gid, budget, out)?;
    sheet.end_object();
    Ok(is_drawn)
}

/// Adds the name of a glyph, or its CID.
pub fn put_name(alloc: Global, line: &mut Text, face: &Face<'_>, gid: u16) {
    match face.cid(gid) {
        Some(cid) => write!(line, "cid{cid:05}"),
        None => line.put_made(String::from_utf8_lossy(alloc, face.name(gid).unwrap_or(b"-"))),
    }
}
