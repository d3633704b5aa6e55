//! Whole OpenType files, and fonts that stay in their bytes.
ghost use Rattle.std.specs.Prelude.{◌≡◌, ◌⊎◌, ℕ, ◌<◌, IfOk, IfErr, length};
ghost use Rattle.postscript_base.specs.Index.Lent.{items_of};

use anyhow::{Context, Result, bail};
use postscript_drawing::LIMIT;
use postscript_outline::Outline;
use postscript_sfnt::{Advances, CharacterMap, FontFile};
use postscript_view::{Advance, AdvanceWithin, FontView};
use std::alloc::Global;

/// Returns the names of a font's glyphs in order, with `None` for a glyph without a name.
pub fn glyph_names(alloc: Global, cff: &[u8]) -> Result<Vec<Option<&[u8]>>> {
    let font = FontView::read(alloc, cff)?;
    let set = font.char_set()?;
    let mut names = Vec::new(alloc);
    for glyph in 0..font.char_strings.len() {
        names.push(font.name(&set, glyph))?;
    }
    Ok(names)
}

/// Returns the exact advance width of a glyph in glyph units, by the `CFF ` table.
pub fn advance_of(alloc: Global, cff: &[u8], glyph: usize) -> Result<Advance> {
    let font = FontView::read(alloc, cff)?;
    let mut limit = LIMIT;
    match font.advance(alloc, glyph, &mut limit)? {
        AdvanceWithin::Known(advance) => Ok(advance),
        AdvanceWithin::Unknown => bail!("the font has no such glyph"),
        AdvanceWithin::TooLong => bail!("the glyph takes too long to run"),
    }
}

/// Returns the glyph of a character, by the character map that the file prefers.
pub fn glyph_of(file: &FontFile<'_>, character: char) -> Option<u16> {
    let map = CharacterMap::read(file.table(*b"cmap")?)?;
    match map.glyph_of(u32::from(character)) {
        0 => None,
        glyph => Some(glyph),
    }
}

/// Returns the outline of a character's glyph. Displayed, it is SVG path data with y upwards.
pub fn outline_of(alloc: Global, file: &FontFile<'_>, character: char) -> Result<Outline> {
    let cff = file.table(*b"CFF ").context("no table CFF")?;
    let glyph = glyph_of(file, character).context("no glyph for the character")?;
    let font = FontView::read(alloc, cff)?;
    let mut limit = LIMIT;
    let outline = postscript_drawing::outline_of(alloc, &font, usize::from(glyph), &mut limit)?;
    Ok(outline)
}

/// A glyph, and its position on the line, in font units from the start of the line.
#[derive(Clone, Copy, Debug, PartialEq, Eq)]
pub struct Placed {
    pub glyph: u16,
    pub x: u32,
}

/// Lays out a line of text: the glyph of each character, one after the other by their advance widths.
pub fn line_of(alloc: Global, file: &FontFile<'_>, text: &str) -> Result<Vec<Placed>> {
    let (hhea, hmtx) = (file.table(*b"hhea"), file.table(*b"hmtx"));
    let advances = Advances::read(hhea.context("no hhea")?, hmtx.context("no hmtx")?).context(
        "no advances",
    )?;
    let mut line = Vec::new(alloc);
    let mut x = 0u32;
    for character in text.chars() {
        let glyph = glyph_of(file, character).context("no glyph for a character")?;
        line.push(Placed { glyph, x })?;
        x = x.saturating_add(u32::from(advances.of(glyph)));
    }
    Ok(line)
}

/// Returns the same font without subroutine calls in its glyphs.
pub fn flat(alloc: Global, cff: &[u8]) -> Result<Vec<u8>> {
    Ok(postscript_write::flat_font(alloc, cff)?)
}

/// Returns a font with only `.notdef`, the glyphs of these characters, and the components of `seac` glyphs.
pub fn cut_to(alloc: Global, file: &FontFile<'_>, text: &str) -> Result<Vec<u8>> {
    let cff = file.table(*b"CFF ").context("no table CFF")?;
    let mut glyphs = Vec::new(alloc);
    for character in text.chars() {
        let glyph = glyph_of(file, character).context("no glyph for a character")?;
        glyphs.push(usize::from(glyph))?;
    }
    Ok(postscript_write::subset(alloc, cff, &glyphs)?)
}

/// Returns why a font is rejected, as a message, or `None` if it is accepted. Any bytes are safe here.
pub fn refusal_of(alloc: Global, cff: &[u8]) -> Result<Option<String>> {
    match FontView::read(alloc, cff) {
        Ok(_font) => Ok(None),
        Err(error) => Ok(Some(error.to_string(alloc)?)),
    }
}
