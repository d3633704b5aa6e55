//! Drawing of glyphs within the budget.
use crate::held::{full_by, held_within};
use postscript_drawing::{Accent, Error as Undrawn, draw_components, draw_program};
use postscript_instance_file::Held;
use postscript_outline::{Outline, Point};
use postscript_type2::{Operand, Program};
use postscript_view::{Advance, Glyph};
use psotf_font::face::Face;
use psotf_output::failure::Refusal;
use psotf_output::limit::{Budget, SEGMENT};
use std::alloc::Global;

/// Returns the error of a glyph that was run within a share.
fn refusal_of(error: Undrawn, glyph: &Glyph<'_, '_>, share: u64, budget: &mut Budget) -> Refusal {
    match error {
        Undrawn::Font(fault) => {
            budget.refuse(glyph);
            Refusal::run(fault)
        }
        Undrawn::NoSuchGlyph(_) => Refusal::NoPart,
        Undrawn::TooLong => budget.stop(share),
        error => Refusal::accent(error),
    }
}

/// Draws a program into a list, with the components of a `seac` glyph, within its share. Returns the width minus
/// nominalWidthX.
fn draw_into(
    alloc: Global,
    face: &Face<'_>,
    program: &mut Program<'_>,
    share: &mut u64,
    budget: &mut Budget,
    held: &mut Held,
) -> Result<Option<Operand>, Undrawn> {
    let width = draw_program(program, Point::ORIGIN, share, held)?;
    if let Some(accent) = Accent::named_by(program.operands_at_end())? {
        budget.search(&face.font);
        draw_components(alloc, &face.font, &accent, share, held)?;
    }
    Ok(width)
}

/// Returns a glyph and its outline, with the components of a `seac` glyph.
pub fn draw<'f, 'l>(
    alloc: Global,
    face: &'f Face<'l>,
    gid: u16,
    budget: &mut Budget,
) -> Result<(Glyph<'f, 'l>, Outline), Refusal> {
    let Some(glyph) = face.font.glyph(usize::from(gid)) else {
        return Err(Refusal::NoPart);
    };
    let share = budget.share();
    let mut left = share;
    let mut held = held_within(alloc, budget);
    let drawn = draw_into(
        alloc,
        face,
        &mut glyph.program(alloc),
        &mut left,
        budget,
        &mut held,
    );
    let taken = share.saturating_sub(left);
    budget.spend(taken);
    budget.spend((held.segments.len() as u64).saturating_mul(SEGMENT));
    match drawn {
        Ok(width) => {
            budget.keep(taken)?;
            let outline = Outline {
                segments: held.segments,
                width_difference: width,
            };
            Ok((glyph, outline))
        }
        Err(error) => match full_by(&held, &error) {
            Some(refusal) => Err(refusal),
            None => Err(refusal_of(error, &glyph, share, budget)),
        },
    }
}

/// Returns the width of a glyph by its charstring, in 65536ths of a unit. Returns `None` if nominalWidthX or
/// defaultWidthX is no 32-bit integer.
pub fn width_of(glyph: &Glyph<'_, '_>, outline: &Outline) -> Option<i64> {
    let advance = match outline.width_difference {
        Some(difference) => Advance::Nominal(glyph.part.nominal_width()?, difference),
        None => Advance::Default(glyph.part.default_width()?),
    };
    advance.in_bits()
}
