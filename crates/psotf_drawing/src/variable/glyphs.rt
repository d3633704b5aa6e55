//! Glyphs of variable fonts at a location.
use super::VariableFace;
use super::place::Chosen;
use crate::glyph::{chars, shape};
use crate::glyphs::Glyphs;
use crate::held::{full_by, held_within};
use postscript_drawing::Error as Undrawn;
use postscript_outline::Outline;
use postscript_sfnt::CharacterMap;
use postscript_variable_font::draw_glyph;
use psotf_font::characters::{Mapped, of_glyph};
use psotf_output::failure::{Failure, Refusal};
use psotf_output::limit::{Budget, SEGMENT};
use psotf_output::sheet::Sheet;
use psotf_output::text::Text;
use std::alloc::Global;
use std::io::Write;

/// Returns the number of glyphs that have a charstring.
pub fn count(face: &VariableFace<'_>) -> u16 {
    let charstrings = face.opened.font.char_strings.len().min(65535) as u16;
    face.common.glyphs.min(charstrings)
}

/// Returns the advance of a glyph at a location: that in `hmtx` plus the delta in `HVAR`, rounded to the nearest unit.
pub fn advance_of(face: &VariableFace<'_>, gid: u16, chosen: &Chosen) -> i64 {
    let advance = face.opened.advances_at(&chosen.coordinates).of(gid);
    i64::try_from(advance).unwrap_or(0)
}

/// Returns the error of a glyph that was run within a share.
fn refusal_of(error: Undrawn, face: &VariableFace<'_>, share: u64, budget: &mut Budget) -> Refusal {
    match error {
        Undrawn::Font(fault) => {
            budget.spend_whole(face.opened.font.bytes.len() as u64);
            Refusal::run(fault)
        }
        Undrawn::NoSuchGlyph(_) => Refusal::NoPart,
        Undrawn::TooLong => budget.stop(share),
        error => Refusal::accent(error),
    }
}

/// Returns the outline of a glyph at a location, if the cost is within its share.
pub fn outline_of(
    alloc: Global,
    face: &VariableFace<'_>,
    gid: u16,
    chosen: &Chosen,
    budget: &mut Budget,
) -> Result<Outline, Refusal> {
    let share = budget.share();
    let mut left = share;
    let mut held = held_within(alloc, budget);
    let drawn = draw_glyph(
        alloc,
        &face.opened.font,
        usize::from(gid),
        &chosen.place,
        &mut left,
        &mut held,
    );
    budget.spend(share.saturating_sub(left));
    budget.spend((held.segments.len() as u64).saturating_mul(SEGMENT));
    match drawn {
        Ok(()) => Ok(Outline {
            segments: held.segments,
            width_difference: None,
        }),
        Err(error) => match full_by(&held, &error) {
            Some(refusal) => Err(refusal),
            None => Err(refusal_of(error, face, share, budget)),
        },
    }
}

/// Writes the outline of a glyph, or its error. Returns whether it is drawn.
fn put_drawn<W: Write>(
    sheet: &mut Sheet,
    outline: &Result<Outline, Refusal>,
    out: &mut W,
) -> Result<bool, Failure> {
    match outline {
        Ok(outline) => {
            shape(sheet, outline, out)?;
            Ok(true)
        }
        Err(refusal) => {
            sheet.tell("refused", refusal);
            Ok(false)
        }
    }
}

/// A font at a location.
#[derive(Clone, Copy)]
pub struct Placed<'f, 'l> {
    pub face: &'f VariableFace<'l>,
    pub chosen: &'f Chosen,
}

impl<'f, 'l> Glyphs for Placed<'f, 'l> {
    fn count(&self) -> u16 {
        count(self.face)
    }

    fn map(&self) -> &Option<CharacterMap<'_>> {
        &self.face.common.map
    }

    fn units(&self) -> u16 {
        self.face.common.units
    }

    fn of_name(&self, _name: &str) -> Result<u16, Failure> {
        Err(Failure::no_part("glyph names: CFF2 has none"))
    }

    fn put_name(&self, _alloc: Global, _line: &mut Text, _gid: u16) {}

    fn advance(&self, gid: u16) -> i64 {
        advance_of(self.face, gid, self.chosen)
    }

    fn outline(&self, alloc: Global, gid: u16, budget: &mut Budget) -> Result<Outline, Refusal> {
        outline_of(alloc, self.face, gid, self.chosen, budget)
    }

    fn object<W: Write>(
        &self,
        alloc: Global,
        sheet: &mut Sheet,
        mapped: &[Mapped],
        gid: u16,
        budget: &mut Budget,
        out: &mut W,
    ) -> Result<bool, Failure> {
        sheet.begin_object();
        sheet.number("gid", u64::from(gid));
        chars(sheet, of_glyph(mapped, gid));
        sheet.key("advance");
        sheet.i64(self.advance(gid));
        let is_drawn = put_drawn(sheet, &self.outline(alloc, gid, budget), out)?;
        sheet.end_object();
        Ok(is_drawn)
    }
}
