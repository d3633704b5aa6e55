//! New fonts.
ghost use Rattle.std.specs.Prelude.{◌≡◌, pos};
ghost use Rattle.postscript_c.specs.Texts.{lent};
ghost use Rattle.postscript_c.specs.Written.{IsFlat, IsSet, IsSubset, TellsWritten, refusal as no_refusal, refusal_of as the_refusal, written_code};

use crate::status::{
    NO_GLYPH, NO_GLYPHS, NO_NAME, NO_PART, REFUSED_GLYPH, SEVERAL_FONTS, TOO_LARGE, TOO_LONG,
};
use crate::texts::hand_over;
use crate::told::status;
use postscript_write::{Error, Result, flat_font, subset_within};
use std::alloc::Global;

/// The details of an error of writing a font, in addition to the status.
#[repr(C)]
#[derive(Clone, Copy)]
pub struct PsfRefusal {
    /// The glyph of the error, 0 if there is none.
    pub glyph: u64,
    /// The status with which the run of that glyph fails, otherwise 0.
    pub cause: i32,
}

/// The status of an error.
pub(crate) fn written_status(e: &Error) -> i32
    ensures { result ≡ pos (written_code e.now) }
{
    match e {
        Error::Refused(cause) => status(cause),
        Error::Glyph(_, _) => REFUSED_GLYPH,
        Error::SeveralFonts => SEVERAL_FONTS,
        Error::MissingGlyph(_) => NO_GLYPH,
        Error::MissingPart(_) => NO_PART,
        Error::MissingName(_) => NO_NAME,
        Error::NoGlyphs => NO_GLYPHS,
        Error::LongGlyph(_) | Error::TooLarge => TOO_LARGE,
        Error::TooLong => TOO_LONG,
    }
}

/// The details of a glyph and a cause.
pub(crate) fn refusal_with(glyph: usize, cause: i32) -> PsfRefusal
    ensures { result ≡ record { glyph = glyph; cause = cause } }
{
    PsfRefusal {
        glyph: glyph as u64,
        cause,
    }
}

/// The glyph of an error, and the status of its cause.
pub(crate) fn refusal_of(e: &Error) -> PsfRefusal
    ensures { result ≡ the_refusal e.now }
{
    match e {
        Error::Glyph(glyph, cause) => refusal_with(*glyph, status(cause)),
        Error::MissingGlyph(glyph)
        | Error::MissingPart(glyph)
        | Error::MissingName(glyph)
        | Error::LongGlyph(glyph) => refusal_with(*glyph, 0),
        _ => refusal_with(0, 0),
    }
}

/// Stores that no glyph is involved, if no font is written.
pub(crate) fn tell_unasked(refusal: &mut PsfRefusal)
    ensures { refusal.new ≡ no_refusal 0 (pos 0) }
{
    *refusal = refusal_with(0, 0);
}

/// Stores a font. Returns 0, `NO_ROOM`, or the status of the error.
pub(crate) fn tell_written(
    answer: &Result<Vec<u8>>,
    room: &mut [u8],
    count: &mut usize,
    refusal: &mut PsfRefusal,
) -> i32
    ensures { TellsWritten answer.now result (lent room.old count.old) (lent room.new count.new) refusal.old refusal.new }
{
    match answer {
        Ok(flat) => hand_over(flat, room, count),
        Err(e) => {
            *refusal = refusal_of(e);
            written_status(e)
        }
    }
}

/// The font without subroutines.
pub(crate) fn flat(alloc: Global, bytes: &[u8]) -> Result<Vec<u8>>
    ensures { IsFlat bytes.now result }
{
    flat_font(alloc, bytes)
}

/// Whether a number is not 0.
pub(crate) fn is_set(number: u32) -> bool
    ensures { IsSet number result }
{
    number != 0
}

/// The subset with these glyphs, under their old numbers or new ones. The runs of its glyphs share the limit.
pub(crate) fn subset_of(
    alloc: Global,
    bytes: &[u8],
    glyphs: &[usize],
    keeps: u32,
    limit: u64,
) -> Result<Vec<u8>>
    ensures { IsSubset keeps limit bytes.now glyphs.now result }
{
    let retain = is_set(keeps);
    match subset_within(alloc, bytes, glyphs, retain, Some(limit)) {
        Ok(subset) => Ok(subset.font),
        Err(error) => Err(error),
    }
}
