//! The data of a glyph apart from its segments.
ghost use Rattle.std.specs.Prelude.{◌≡◌, pos};
ghost use Rattle.postscript_base.specs.Error.{code};
ghost use Rattle.postscript_c.specs.Answers.{advance as the_advance, HasZeros, IsToldOf, TellsWidth, undrawn_code};
ghost use Rattle.postscript_c.specs.Shown.{drawn_shown};

use crate::part::PsfPart;
use crate::picture::DrawnGlyph;
use crate::status::{NESTED_ACCENT, NO_ACCENTS, NO_CODE, NO_COMPONENT, NO_GLYPH, TOO_LONG};
use postscript_base::Error;
use postscript_drawing::Error as Undrawn;
use postscript_type2::Operand;

/// The data of a glyph apart from its segments, as 16.16 numbers.
#[repr(C)]
#[derive(Clone, Copy)]
pub struct PsfGlyph {
    /// The advance width: the default one, or the nominal one plus the width in the charstring.
    pub advance: i64,
    /// The bounds of all points, 0 if there is none.
    pub left: i32,
    pub bottom: i32,
    pub right: i32,
    pub top: i32,
    /// 1 if there is a point, otherwise 0.
    pub has_bounds: u32,
    /// 1 if the charstring has a width, otherwise 0.
    pub has_width: u32,
}

/// The status of an error.
pub(crate) fn status(e: &Error) -> i32
    ensures { result ≡ pos (code e.now) }
{
    i32::from(e.code())
}

/// The status of an error of drawing.
pub(crate) fn undrawn_status(e: &Undrawn) -> i32
    ensures { result ≡ pos (undrawn_code e.now) }
{
    match e {
        Undrawn::Font(cause) => status(cause),
        Undrawn::Full => status(&Error::Memory),
        Undrawn::TooLong => TOO_LONG,
        Undrawn::NoSuchGlyph(_) => NO_GLYPH,
        Undrawn::NoCode => NO_CODE,
        Undrawn::NoAccents => NO_ACCENTS,
        Undrawn::MissingComponent(_) => NO_COMPONENT,
        Undrawn::NestedAccent(_) => NESTED_ACCENT,
    }
}

/// The advance width of a glyph.
fn advance(width: Option<Operand>, part: &PsfPart) -> i64
    ensures { result ≡ the_advance width part.now }
{
    match width {
        None => part.default_width,
        Some(width) => part.nominal_width.saturating_add(i64::from(width.bits())),
    }
}

/// The data of a drawn glyph.
pub(crate) fn glyph_for_c(found: &DrawnGlyph) -> PsfGlyph
    ensures told { IsToldOf (drawn_shown found.now) found.now.part result }
    ensures zeros { HasZeros result }
    ensures width { TellsWidth (drawn_shown found.now) result }
{
    let advance = advance(found.width, &found.part);
    let has_width = u32::from(found.width.is_some());
    match found.sketch.bounds() {
        Some(bounds) => PsfGlyph {
            advance,
            left: bounds.low.x,
            bottom: bounds.low.y,
            right: bounds.high.x,
            top: bounds.high.y,
            has_bounds: 1,
            has_width,
        },
        None => PsfGlyph {
            advance,
            left: 0,
            bottom: 0,
            right: 0,
            top: 0,
            has_bounds: 0,
            has_width,
        },
    }
}
