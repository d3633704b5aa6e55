//! Charstrings without calls.
ghost use Rattle.postscript_c.specs.Fitting.{ReadsWithin, RunsWithin};
ghost use Rattle.postscript_c.specs.Flats.{flat_at, flattened};
ghost use Rattle.postscript_c.specs.Flatness.{flat_shown, TellsFlatBy};
ghost use Rattle.postscript_c.specs.Texts.{lent as lends};

use crate::font::PsfFont;
use crate::glyph::program;
use crate::limit::Kept;
use crate::part::PsfPart;
use crate::status::{NO_GLYPH, TOO_LONG};
use crate::texts::hand_over;
use crate::told::status;
use postscript_base::Result;
use postscript_type2::Program;
use std::alloc::Global;

/// The desubroutinized charstring of a glyph (no calls).
#[derive(Drop)]
pub(crate) struct Flat {
    pub(crate) code: Vec<u8>,
}

/// The flat code of a program, if its run is within the limit.
fn flatten(program: Program<'_>, limit: &mut u64) -> Result<Option<Flat>>
    ensures within { RunsWithin flat_shown flattened program.entry limit.old result limit.new }
{
    match program.flat_within(limit)? {
        Some(code) => Ok(Some(Flat { code })),
        None => Ok(None),
    }
}

/// The flat code of a glyph by its part, if its run is within the limit of the font.
fn flat_glyph(
    alloc: Global,
    bytes: &[u8],
    font: &PsfFont,
    part: &PsfPart,
    glyph: usize,
) -> Result<Kept<Flat>>
    ensures within { ReadsWithin flat_shown bytes.now font.now part.now glyph (flat_at font.now part.now glyph) result }
{
    let Some(program) = program(alloc, bytes, font, part, glyph)? else {
        return Ok(Kept::NoGlyph);
    };
    let mut limit = font.limit;
    match flatten(program, &mut limit)? {
        Some(flat) => Ok(Kept::Told(flat)),
        None => Ok(Kept::TooLong),
    }
}

/// Stores the flat code of a glyph by its part, if its run is within the limit of the font.
pub(crate) fn tell_flat_by(
    alloc: Global,
    bytes: &[u8],
    font: &PsfFont,
    part: &PsfPart,
    glyph: usize,
    room: &mut [u8],
    count: &mut usize,
) -> i32
    ensures { TellsFlatBy bytes.now font.now part.now glyph result (lends room.old count.old) (lends room.new count.new) }
{
    match flat_glyph(alloc, bytes, font, part, glyph) {
        Ok(Kept::Told(flat)) => hand_over(&flat.code, room, count),
        Ok(Kept::NoGlyph) => NO_GLYPH,
        Ok(Kept::TooLong) => TOO_LONG,
        Err(e) => status(&e),
    }
}
