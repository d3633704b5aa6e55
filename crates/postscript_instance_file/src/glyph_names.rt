//! The glyph names that a static font keeps.
use crate::face::VariableFace;
use postscript_sfnt::GlyphNames;
use std::alloc::{AllocError, Global};

/// The most names of a `CFF ` table.
const MOST: usize = 64000;

/// The names that are kept, or why none are.
#[derive(Drop)]
pub(crate) enum Kept<'l> {
    Names(Vec<&'l [u8]>),
    /// The font has no glyph names.
    Untold,
    Lost(&'static str),
}

impl<'l> Kept<'l> {
    /// Returns the names that are kept.
    pub(crate) fn names(&self) -> Option<&[&'l [u8]]> {
        match self {
            Kept::Names(names) => Some(names.as_slice()),
            Kept::Untold | Kept::Lost(_) => None,
        }
    }

    /// Returns why names are dropped, if they are.
    pub(crate) fn lost(&self) -> Option<&'static str> {
        match self {
            Kept::Lost(why) => Some(*why),
            Kept::Names(_) | Kept::Untold => None,
        }
    }
}

/// Returns whether a name is a PostScript name (Technical Note 5176, "Name INDEX"): up to 127 ASCII characters without
/// spaces and delimiters.
fn is_fit(name: &[u8]) -> bool {
    if name.is_empty() || name.len() > 127 {
        return false;
    }
    for byte in name {
        if !byte.is_ascii_graphic() || b"[](){}<>/%".contains(byte) {
            return false;
        }
    }
    true
}

/// Returns the names of `glyphs` glyphs. Returns `None` if a glyph has no name, or one that is not allowed.
fn all<'l>(
    alloc: Global,
    names: &GlyphNames<'l>,
    glyphs: usize,
) -> Result<Option<Vec<&'l [u8]>>, AllocError> {
    let mut all = Vec::new(alloc);
    for glyph in 0..glyphs {
        match names.get(glyph) {
            Some(name) if is_fit(name) => all.push(name)?,
            _ => return Ok(None),
        }
    }
    Ok(Some(all))
}

/// Returns whether two adjacent names are equal.
fn are_twins(sorted: &[&[u8]]) -> bool {
    for pair in sorted.windows(2) {
        if pair[0] == pair[1] {
            return true;
        }
    }
    false
}

/// Returns whether two names are equal.
fn has_twins(alloc: Global, names: &[&[u8]]) -> Result<bool, AllocError> {
    let mut sorted: Vec<&[u8]> = Vec::from_slice(alloc, names)?;
    sorted.sort()?;
    Ok(are_twins(sorted.as_slice()))
}

/// Checks that there are not too many names, that the first is `.notdef`, and that all differ.
fn fit<'l>(alloc: Global, names: Vec<&'l [u8]>) -> Result<Kept<'l>, AllocError> {
    if names.len() > MOST {
        return Ok(Kept::Lost("there are too many names"));
    }
    if names.first().copied() != Some(b".notdef") {
        return Ok(Kept::Lost("the first name is not .notdef"));
    }
    if has_twins(alloc, &names)? {
        return Ok(Kept::Lost("two glyphs have the same name"));
    }
    Ok(Kept::Names(names))
}

/// Returns the glyph names in the `post` table. A `CFF ` table with names has one Private DICT, so the names are
/// dropped if the font has several Font DICTs.
pub(crate) fn names_of<'l>(alloc: Global, face: &VariableFace<'l>) -> Result<Kept<'l>, AllocError> {
    let Some(post) = face.file.table(*b"post") else {
        return Ok(Kept::Untold);
    };
    let Some(names) = GlyphNames::read(alloc, post)? else {
        return Ok(Kept::Untold);
    };
    if face.font.font_dictionaries.len() != 1 {
        return Ok(Kept::Lost("the font has several Font DICTs"));
    }
    match all(alloc, &names, face.font.char_strings.len())? {
        Some(names) => fit(alloc, names),
        None => Ok(Kept::Lost("a glyph has no name, or one that CFF does not allow")),
    }
}
