//! The bounds of the lines and curves of a glyph.
ghost use Rattle.std.specs.Prelude.{◌≡◌, IfErr, IfOk, MatchOption};
ghost use Rattle.postscript_c.specs.BoundsTold.{AreZeros, IsTracedOver, TellsTraced, sides_of};
ghost use Rattle.postscript_c.specs.Drawn.{HasNone, IsUndrawnOver};

use crate::drawn::draw_over;
use crate::font::PsfFont;
use crate::part::PsfPart;
use crate::status::NO_GLYPH;
use crate::told::undrawn_status;
use postscript_drawing::Result;
use postscript_outline::laws::tight_bounds_take_in_curves;
use postscript_outline::{Bounds, TightBounds};
use std::alloc::Global;

/// The bounds of a glyph by its part, drawn without a list of segments. `None` if there is no such glyph.
pub(crate) fn traced_glyph(
    alloc: Global,
    bytes: &[u8],
    font: &PsfFont,
    part: &PsfPart,
    glyph: usize,
) -> Result<Option<TightBounds>>
    ensures found { IfOk result (λ found. MatchOption found (HasNone bytes.now font.now part.now glyph)
        (λ tight. IsTracedOver bytes.now font.now part.now glyph tight.bounds)) }
    ensures why { IfErr result (λ e. IsUndrawnOver bytes.now font.now part.now glyph e) }
{
    let mut tight = TightBounds::new();
    tight_bounds_take_in_curves();
    match draw_over(alloc, bytes, font, part, glyph, &mut tight)? {
        Some(_) => Ok(Some(tight)),
        None => Ok(None),
    }
}

/// The bounds of the lines and curves of a glyph, in 65536ths of a unit.
#[repr(C)]
#[derive(Clone, Copy)]
pub struct PsfBounds {
    /// 0 if there is no point.
    pub left: i32,
    pub bottom: i32,
    pub right: i32,
    pub top: i32,
    /// 1 if there is a point, otherwise 0.
    pub has_bounds: u32,
}

impl PsfBounds {
    /// Bounds in the form for C, if there are any.
    pub(crate) fn from_bounds(bounds: Option<Bounds>) -> PsfBounds
        ensures sides { sides_of result ≡ bounds }
        ensures zeros { AreZeros result }
    {
        match bounds {
            Some(bounds) => PsfBounds {
                left: bounds.low.x,
                bottom: bounds.low.y,
                right: bounds.high.x,
                top: bounds.high.y,
                has_bounds: 1,
            },
            None => PsfBounds {
                left: 0,
                bottom: 0,
                right: 0,
                top: 0,
                has_bounds: 0,
            },
        }
    }
}

/// Stores the bounds.
pub(crate) fn bound(answer: &Result<Option<TightBounds>>, bounds: &mut PsfBounds) -> i32
    ensures { TellsTraced answer.now result bounds.old bounds.new }
{
    match answer {
        Ok(Some(tight)) => {
            *bounds = PsfBounds::from_bounds(tight.bounds);
            0
        }
        Ok(None) => NO_GLYPH,
        Err(e) => undrawn_status(e),
    }
}
