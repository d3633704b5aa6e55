//! Faces with outlines in a `CFF2` or a `CFF ` table.
ghost use Rattle.std.specs.Prelude.{◌≡◌, MatchOption};
ghost use Rattle.postscript_c.specs.Either.{HasNoPlain, HasPlain, TellsCount, TellsCountEitherOf, TellsCountPlain, TellsDrawn, TellsEither, TellsEitherOf, TellsGlyphOf, TellsGlyphsOf, TellsPlain, TellsPlainAt, within as the_font_within};
ghost use Rattle.postscript_c.specs.Law.{OpensFont};
ghost use Rattle.postscript_c.specs.Shown.{found_shown};
ghost use Rattle.postscript_c.specs.VariedTold.{outline_room};

use crate::counted::tell_count_of;
use crate::files::file_status;
use crate::fill::PsfSegment;
use crate::font::{PsfFont, open_font};
use crate::glyph::part_at;
use crate::picture::{DrawnGlyph, found_glyph};
use crate::place::{coordinates_at, unplaced_status};
use crate::status::NO_GLYPH;
use crate::tight::PsfBounds;
use crate::told::{status, undrawn_status};
use crate::varied::{hand, tell_varied_of};
use postscript_base::Result as Opening;
use postscript_drawing::Result as Drawing;
use postscript_sfnt::FontFile;
use std::alloc::Global;

/// The `CFF ` table of a face without a `CFF2` table. `None` for any other face.
fn plain_table<'l>(file: &FontFile<'l>) -> Option<&'l [u8]>
    ensures { MatchOption result (HasNoPlain file.now) (λ table. HasPlain file.now table.now) }
{
    match file.table(*b"CFF2") {
        Some(_) => None,
        None => file.table(*b"CFF "),
    }
}

/// Stores the outline of a glyph.
fn tell_drawn(
    answer: &Drawing<Option<DrawnGlyph>>,
    segments: &mut [PsfSegment],
    count: &mut usize,
    bounds: &mut PsfBounds,
) -> i32
    ensures { TellsDrawn (found_shown answer.now) result (outline_room segments.old count.old bounds.old)
        (outline_room segments.new count.new bounds.new) }
{
    match answer {
        Ok(Some(found)) => hand(&found.sketch, segments, count, bounds),
        Ok(None) => NO_GLYPH,
        Err(e) => undrawn_status(e),
    }
}

/// Draws a glyph of a font.
fn tell_glyph_of(
    alloc: Global,
    bytes: &[u8],
    font: &PsfFont,
    glyph: usize,
    segments: &mut [PsfSegment],
    count: &mut usize,
    bounds: &mut PsfBounds,
) -> i32
    ensures { TellsGlyphOf bytes.now font.now glyph result (outline_room segments.old count.old bounds.old)
        (outline_room segments.new count.new bounds.new) }
{
    match part_at(alloc, bytes, font, glyph) {
        Ok(part) => tell_drawn(
            &found_glyph(alloc, bytes, font, part, glyph),
            segments,
            count,
            bounds,
        ),
        Err(status) => status,
    }
}

/// The font with another limit.
fn with_limit(limit: u64, font: &PsfFont) -> PsfFont
    ensures { result ≡ the_font_within limit font.now }
{
    PsfFont { limit, ..*font }
}

/// Draws a glyph of the font at the beginning of the bytes, within a limit.
fn tell_plain(
    alloc: Global,
    bytes: &[u8],
    glyph: usize,
    limit: u64,
    segments: &mut [PsfSegment],
    count: &mut usize,
    bounds: &mut PsfBounds,
) -> i32
    ensures { TellsPlain bytes.now glyph limit result (outline_room segments.old count.old bounds.old)
        (outline_room segments.new count.new bounds.new) }
{
    match open_font(alloc, bytes) {
        Ok(font) => tell_glyph_of(
            alloc,
            bytes,
            &with_limit(limit, &font),
            glyph,
            segments,
            count,
            bounds,
        ),
        Err(e) => status(&e),
    }
}

/// The same for the table of a face, if the user coordinates are valid for it.
fn tell_plain_at(
    alloc: Global,
    file: &FontFile<'_>,
    table: &[u8],
    values: &[i32],
    glyph: usize,
    limit: u64,
    segments: &mut [PsfSegment],
    count: &mut usize,
    bounds: &mut PsfBounds,
) -> i32
    ensures { TellsPlainAt file.now table.now values.now glyph limit result (outline_room segments.old count.old bounds.old)
        (outline_room segments.new count.new bounds.new) }
{
    match coordinates_at(alloc, file, values) {
        Ok(_) => tell_plain(alloc, table, glyph, limit, segments, count, bounds),
        Err(e) => unplaced_status(&e),
    }
}

/// Draws a glyph of a face at user coordinates.
fn tell_either_of(
    alloc: Global,
    file: &FontFile<'_>,
    values: &[i32],
    glyph: usize,
    limit: u64,
    segments: &mut [PsfSegment],
    count: &mut usize,
    bounds: &mut PsfBounds,
) -> i32
    ensures { TellsEitherOf file.now values.now glyph limit result (outline_room segments.old count.old bounds.old)
        (outline_room segments.new count.new bounds.new) }
{
    match plain_table(file) {
        Some(table) => tell_plain_at(
            alloc, file, table, values, glyph, limit, segments, count, bounds,
        ),
        None => tell_varied_of(alloc, file, values, glyph, limit, segments, count, bounds),
    }
}

/// The same for a face of a file.
pub(crate) fn tell_either(
    alloc: Global,
    bytes: &[u8],
    face: usize,
    values: &[i32],
    glyph: usize,
    limit: u64,
    segments: &mut [PsfSegment],
    count: &mut usize,
    bounds: &mut PsfBounds,
) -> i32
    ensures { TellsEither bytes.now face values.now glyph limit result (outline_room segments.old count.old bounds.old)
        (outline_room segments.new count.new bounds.new) }
{
    match FontFile::read(bytes, face) {
        Ok(file) => tell_either_of(alloc, &file, values, glyph, limit, segments, count, bounds),
        Err(e) => file_status(e),
    }
}

/// Stores the number of glyphs of a font.
fn tell_glyphs_of(answer: &Opening<PsfFont>, count: &mut usize) -> i32
    ensures { TellsGlyphsOf answer.now result count.old count.new }
{
    match answer {
        Ok(font) => {
            *count = font.glyphs as usize;
            0
        }
        Err(e) => status(e),
    }
}

/// Stores the number of glyphs of the font at the beginning of the bytes.
fn tell_count_plain(alloc: Global, bytes: &[u8], count: &mut usize) -> i32
    ensures { TellsCountPlain bytes.now result count.old count.new }
{
    let answer = open_font(alloc, bytes);
    tell_glyphs_of(&answer, count)
}

/// Stores the number of glyphs of a face.
fn tell_count_either_of(alloc: Global, file: &FontFile<'_>, count: &mut usize) -> i32
    ensures { TellsCountEitherOf file.now result count.old count.new }
{
    match plain_table(file) {
        Some(table) => tell_count_plain(alloc, table, count),
        None => tell_count_of(file, count),
    }
}

/// The same for a face of a file.
pub(crate) fn tell_count(alloc: Global, bytes: &[u8], face: usize, count: &mut usize) -> i32
    ensures { TellsCount bytes.now face result count.old count.new }
{
    match FontFile::read(bytes, face) {
        Ok(file) => tell_count_either_of(alloc, &file, count),
        Err(e) => file_status(e),
    }
}
