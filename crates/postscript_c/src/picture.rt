//! Drawn glyphs in the form for C.
ghost use Rattle.postscript_c.specs.Answers.{IsOf};
ghost use Rattle.postscript_c.specs.Shown.{found_shown};

use crate::drawn::draw_over;
use crate::font::PsfFont;
use crate::part::PsfPart;
use crate::segments::Segments;
use postscript_drawing::Result;
use postscript_type2::Operand;
use std::alloc::Global;

/// The segments of a glyph in the form for C, the width in its charstring, and its part.
#[derive(Drop)]
pub(crate) struct DrawnGlyph {
    pub(crate) sketch: Segments,
    pub(crate) width: Option<Operand>,
    pub(crate) part: PsfPart,
}

/// Draws a glyph by its part. `None` if there is no such glyph.
#[inline(always)]
pub(crate) fn found_glyph(
    alloc: Global,
    bytes: &[u8],
    font: &PsfFont,
    part: PsfPart,
    glyph: usize,
) -> Result<Option<DrawnGlyph>>
    ensures { IsOf bytes.now font.now part glyph (found_shown result) }
{
    let mut sketch = Segments::new(alloc)?;
    match draw_over(alloc, bytes, font, &part, glyph, &mut sketch)? {
        Some(width) => Ok(Some(DrawnGlyph {
            sketch,
            width,
            part,
        })),
        None => Ok(None),
    }
}
