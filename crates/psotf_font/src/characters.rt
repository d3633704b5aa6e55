//! The characters of glyphs.
use postscript_sfnt::CharacterMap;
use psotf_output::failure::Failure;
use psotf_output::text::Text;
use std::alloc::{AllocError, Global};

/// A character and its glyph.
#[derive(Clone, Copy)]
pub struct Mapped {
    pub glyph: u16,
    pub char: u32,
}

/// Returns all characters that have a glyph, in ascending order.
pub fn all_of(
    alloc: Global,
    map: &Option<CharacterMap<'_>>,
) -> Result<Vec<(u32, u16)>, AllocError> {
    match map {
        Some(map) => map.characters(alloc),
        None => Ok(Vec::new(alloc)),
    }
}

/// Returns all characters that have a glyph, without their glyphs.
pub fn mapped_by(alloc: Global, map: &Option<CharacterMap<'_>>) -> Result<Vec<u32>, AllocError> {
    let mut chars = Vec::new(alloc);
    for (char, _) in all_of(alloc, map)? {
        chars.push(char)?;
    }
    Ok(chars)
}

/// Returns all characters that have a glyph, in the order of their glyphs.
pub fn by_glyph(alloc: Global, map: &Option<CharacterMap<'_>>) -> Result<Vec<Mapped>, AllocError> {
    let mut all = Vec::new(alloc);
    for (char, glyph) in all_of(alloc, map)? {
        all.push(Mapped { glyph, char })?;
    }
    all.sort_by_key(|mapped: &Mapped| mapped.glyph)?;
    Ok(all)
}

/// Returns the characters of a text that have no glyph, each once. Each is written as a space, `U+` and its number.
pub fn missing_characters(
    alloc: Global,
    map: &Option<CharacterMap<'_>>,
    text: &str,
) -> Result<String, AllocError> {
    let mut told = Text::new(alloc);
    let mut seen = Vec::new(alloc);
    for char in text.chars() {
        let number = u32::from(char);
        if glyph_of(map, number) == 0 && !seen.contains(&number) {
            if seen.push(number).is_err() {
                told.fail();
            }
            told.push(' ');
            told.put_character(number);
        }
    }
    told.end()
}

/// Fails if a text has characters without a glyph, and lists them.
pub fn refuse_missing(
    alloc: Global,
    map: &Option<CharacterMap<'_>>,
    text: &str,
) -> Result<(), Failure> {
    let missing = missing_characters(alloc, map, text)?;
    if missing.is_empty() {
        Ok(())
    } else {
        Err(Failure::no_chars(missing))
    }
}

/// Returns the glyph of a character, or 0.
pub fn glyph_of(map: &Option<CharacterMap<'_>>, char: u32) -> u16 {
    match map {
        Some(map) => map.glyph_of(char),
        None => 0,
    }
}

/// Returns the number of characters that have a glyph.
pub fn count(alloc: Global, map: &Option<CharacterMap<'_>>) -> Result<u64, AllocError> {
    Ok(all_of(alloc, map)?.len() as u64)
}

/// Returns the characters of a glyph.
pub fn of_glyph(all: &[Mapped], gid: u16) -> &[Mapped] {
    let from = all.partition_point(|mapped| mapped.glyph < gid);
    let behind = &all[from..];
    let to = behind.partition_point(|mapped| mapped.glyph <= gid);
    &behind[..to]
}
