//! Glyphs as lines or as JSON objects.
use crate::drawing::draw;
use crate::glyph;
use postscript_outline::Outline;
use postscript_sfnt::CharacterMap;
use psotf_font::characters::{Mapped, by_glyph};
use psotf_font::face::{Face, count};
use psotf_output::failure::{Failure, Refusal};
use psotf_output::limit::Budget;
use psotf_output::progress::Progress;
use psotf_output::sheet::Sheet;
use psotf_output::text::{Text, end_in};
use std::alloc::Global;
use std::io::Write;
use std::ops::Range;

/// The glyphs of a font: of its `CFF ` table, or of a variable font at a location.
pub trait Glyphs {
    /// Returns the number of glyphs that have a charstring.
    fn count(&self) -> u16;

    /// Returns the character map.
    fn map(&self) -> &Option<CharacterMap<'_>>;

    /// Returns the units per em.
    fn units(&self) -> u16;

    /// Returns the glyph with a name.
    fn of_name(&self, name: &str) -> Result<u16, Failure>;

    /// Adds the name of a glyph and a space, if the font has glyph names.
    fn put_name(&self, alloc: Global, line: &mut Text, gid: u16);

    /// Returns the advance of a glyph.
    fn advance(&self, gid: u16) -> i64;

    /// Returns the outline of a glyph, if the cost is within its share.
    fn outline(&self, alloc: Global, gid: u16, budget: &mut Budget) -> Result<Outline, Refusal>;

    /// Writes a glyph as an object, and prints the beginning of a long one. Returns whether it is drawn.
    fn object<W: Write>(
        &self,
        alloc: Global,
        sheet: &mut Sheet,
        mapped: &[Mapped],
        gid: u16,
        budget: &mut Budget,
        out: &mut W,
    ) -> Result<bool, Failure>;
}

impl<'l> Glyphs for Face<'l> {
    fn count(&self) -> u16 {
        count(self)
    }

    fn map(&self) -> &Option<CharacterMap<'_>> {
        &self.map
    }

    fn units(&self) -> u16 {
        self.units
    }

    fn of_name(&self, name: &str) -> Result<u16, Failure> {
        match self.glyph_of_name(name.as_bytes()) {
            Some(gid) => Ok(u16::try_from(gid).unwrap_or(u16::MAX)),
            None => Err(Failure::no_part("glyph with this name")),
        }
    }

    fn put_name(&self, alloc: Global, line: &mut Text, gid: u16) {
        glyph::put_name(alloc, line, self, gid);
        line.push(' ');
    }

    fn advance(&self, gid: u16) -> i64 {
        i64::from(self.advances.of(gid))
    }

    fn outline(&self, alloc: Global, gid: u16, budget: &mut Budget) -> Result<Outline, Refusal> {
        match draw(alloc, self, gid, budget) {
            Ok((_, outline)) => Ok(outline),
            Err(refusal) => Err(refusal),
        }
    }

    fn object<W: Write>(
        &self,
        alloc: Global,
        sheet: &mut Sheet,
        mapped: &[Mapped],
        gid: u16,
        budget: &mut Budget,
        out: &mut W,
    ) -> Result<bool, Failure> {
        glyph::object(alloc, sheet, self, mapped, gid, budget, out)
    }
}

/// Adds a glyph as a line: its number, its name or CID if it has one, its advance and its path. Returns whether it is
/// drawn.
fn put_line<G: Glyphs>(
    alloc: Global,
    line: &mut Text,
    glyphs: &G,
    gid: u16,
    budget: &mut Budget,
) -> bool {
    line.put_number(u64::from(gid));
    line.push(' ');
    glyphs.put_name(alloc, line, gid);
    line.write_fmt(glyphs.advance(gid));
    line.push(' ');
    match glyphs.outline(alloc, gid, budget) {
        Ok(outline) => {
            line.write_fmt(&outline);
            line.push('\n');
            true
        }
        Err(refusal) => {
            line.push_str("error: ");
            line.write_fmt(&refusal);
            line.push('\n');
            false
        }
    }
}

/// Prints glyphs, one on each line. Returns the number of glyphs with errors.
fn lines<G: Glyphs, W: Write>(
    alloc: Global,
    glyphs: &G,
    gids: Range<u16>,
    budget: &mut Budget,
    progress: &mut Progress<'_>,
    out: &mut W,
) -> Result<u64, Failure> {
    let mut line = Text::new(alloc);
    let mut refused = 0u64;
    for gid in gids {
        progress.at_glyph(gid);
        if !put_line(alloc, &mut line, glyphs, gid, budget) {
            refused = refused.saturating_add(1);
        }
        end_in(&mut line, out)?;
    }
    Ok(refused)
}

/// Prints glyphs as objects, one on each line. Returns the number of glyphs with errors.
fn objects<G: Glyphs, W: Write>(
    alloc: Global,
    glyphs: &G,
    gids: Range<u16>,
    budget: &mut Budget,
    progress: &mut Progress<'_>,
    out: &mut W,
) -> Result<u64, Failure> {
    let mapped = by_glyph(alloc, glyphs.map())?;
    let mut sheet = Sheet::new(alloc);
    let mut refused = 0u64;
    for gid in gids {
        progress.at_glyph(gid);
        if !glyphs.object(alloc, &mut sheet, &mapped, gid, budget, out)? {
            refused = refused.saturating_add(1);
        }
        sheet.end(out)?;
    }
    Ok(refused)
}

/// Prints glyphs as lines or as JSON objects, and its progress. Returns the number of glyphs with errors.
pub fn write<G: Glyphs, W: Write>(
    rt: &HostRuntime,
    glyphs: &G,
    gids: Range<u16>,
    as_json: bool,
    budget: &mut Budget,
    out: &mut W,
) -> Result<u64, Failure> {
    let mut progress = Progress::of_answers(rt, gids.end);
    let refused = if as_json {
        objects(rt.alloc(), glyphs, gids, budget, &mut progress, out)
    } else {
        lines(rt.alloc(), glyphs, gids, budget, &mut progress, out)
    };
    progress.end();
    refused
}
