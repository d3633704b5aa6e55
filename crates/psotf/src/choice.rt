//! The glyphs and characters that a subset keeps.
use clap::ArgMatches;
use postscript_shaping::shaped;
use psotf_font::characters::{
    Mapped, all_of, by_glyph, glyph_of, mapped_by, of_glyph, refuse_missing,
};
use psotf_font::face::Face;
use psotf_output::failure::Failure;
use std::alloc::{AllocError, Global};

/// The message for a malformed list of characters.
const NOT_IN_HEX: &str =
    "--unicodes takes a list of hexadecimal numbers and ranges, e.g. 41,U+42,61-7a";

/// The last character of Unicode.
const LAST: u32 = 0x10ffff;

/// The most characters that are looked up one by one, instead of in a list of all characters.
const FEW: usize = 1024;

/// The characters and glyphs of a subset.
#[derive(Drop)]
pub struct Choice {
    /// The characters. Each has a glyph.
    pub chars: Vec<u32>,
    /// The glyphs that are chosen by number.
    pub glyphs: Vec<usize>,
    /// The glyphs of variation sequences of the characters, in a subset without layout tables.
    pub varied: Vec<usize>,
    /// The glyphs that a subset with layout tables keeps.
    pub added: Vec<usize>,
}

impl Choice {
    /// Adds a character. It fails if the font has no glyph for it, or if it is no character of Unicode.
    fn put_char(&mut self, face: &Face<'_>, char: u32) -> Result<(), Failure> {
        match glyph_of(&face.map, char) {
            0 => Err(Failure::no_char(char)),
            _ if char > LAST => Err(Failure::no_char(char)),
            _ => Ok(self.chars.push(char)?),
        }
    }

    /// Adds the characters of a text. The error lists all characters without a glyph.
    fn put_text(&mut self, alloc: Global, face: &Face<'_>, text: &str) -> Result<(), Failure> {
        refuse_missing(alloc, &face.map, text)?;
        for char in text.chars() {
            self.chars.push(u32::from(char))?;
        }
        Ok(())
    }

    /// Adds the characters of a range that have a glyph, and looks up each.
    fn put_few(&mut self, face: &Face<'_>, first: u32, last: u32) -> Result<(), AllocError> {
        for char in first..last.min(LAST) + 1 {
            if glyph_of(&face.map, char) != 0 {
                self.chars.push(char)?;
            }
        }
        Ok(())
    }

    /// Adds the characters of a range that have a glyph, from a list of all characters.
    fn put_many(&mut self, all: &[(u32, u16)], first: u32, last: u32) -> Result<(), AllocError> {
        let from = all.partition_point(|mapped| mapped.0 < first);
        for (char, _) in &all[from..] {
            if *char > last {
                break;
            }
            self.chars.push(*char)?;
        }
        Ok(())
    }

    /// Adds the characters of a list of hexadecimal numbers and ranges. Each number may begin with `U+`.
    fn put_unicodes(&mut self, alloc: Global, face: &Face<'_>, list: &str) -> Result<(), Failure> {
        if list.is_empty() {
            return Ok(());
        }
        let all = if has_many(list) {
            all_of(alloc, &face.map)?
        } else {
            Vec::new(alloc)
        };
        self.put_each(face, &all, list)
    }

    /// Adds the characters of each item of such a list.
    fn put_each(&mut self, face: &Face<'_>, all: &[(u32, u16)], list: &str) -> Result<(), Failure> {
        for word in list.split(',') {
            self.put_unicode(face, all, word)?;
        }
        Ok(())
    }

    /// Adds the characters of one item of such a list.
    fn put_unicode(
        &mut self,
        face: &Face<'_>,
        all: &[(u32, u16)],
        word: &str,
    ) -> Result<(), Failure> {
        match range_of(word) {
            Some((Some(first), Some(last))) if are_many(first, last) => {
                Ok(self.put_many(all, first, last)?)
            }
            Some((Some(first), Some(last))) => Ok(self.put_few(face, first, last)?),
            Some(_) => Err(Failure::usage(NOT_IN_HEX)),
            None => match char_of(word) {
                Some(char) => self.put_char(face, char),
                None => Err(Failure::usage(NOT_IN_HEX)),
            },
        }
    }

    /// Adds a range of glyphs.
    fn put_numbers(&mut self, first: u32, last: u32) -> Result<(), AllocError> {
        for gid in first..last.saturating_add(1) {
            self.glyphs.push(gid as usize)?;
        }
        Ok(())
    }

    /// Adds the glyphs of a list of numbers and ranges.
    fn put_gids(&mut self, list: &str, glyphs: usize) -> Result<(), Failure> {
        if list.is_empty() {
            return Ok(());
        }
        for word in list.split(',') {
            let (first, last) = gids_of(word, glyphs)?;
            self.put_numbers(first, last)?;
        }
        Ok(())
    }

    /// Adds the glyphs of a list of names. The first glyph with a name counts.
    fn put_names(&mut self, face: &Face<'_>, list: &str) -> Result<(), Failure> {
        if list.is_empty() {
            return Ok(());
        }
        for name in list.split(',') {
            match face.glyph_of_name(name.as_bytes()) {
                Some(glyph) => self.glyphs.push(glyph)?,
                None => return Err(no_name(name)),
            }
        }
        Ok(())
    }

    /// Adds the glyphs of the numbers or the names that the arguments list, and their characters.
    fn put_glyphs(
        &mut self,
        alloc: Global,
        face: &Face<'_>,
        words: &ArgMatches<'_>,
    ) -> Result<(), Failure> {
        self.put_names(face, words.get_str("glyphs").unwrap_or(""))?;
        let list = words.get_str("gids").unwrap_or("");
        self.put_gids(list, face.font.char_strings.len())?;
        Ok(self.put_own_chars(alloc, face)?)
    }

    /// Adds the characters of the glyphs, from a list of all characters.
    fn put_chars(&mut self, all: &[Mapped]) -> Result<(), AllocError> {
        for glyph in &self.glyphs {
            put_chars_of(&mut self.chars, all, *glyph)?;
        }
        Ok(())
    }

    /// Adds the characters that the font maps to the glyphs.
    fn put_own_chars(&mut self, alloc: Global, face: &Face<'_>) -> Result<(), AllocError> {
        let all = by_glyph(alloc, &face.map)?;
        self.put_chars(&all)
    }

    /// Adds the characters and glyphs that the arguments choose. It fails if they choose none.
    fn put(
        &mut self,
        alloc: Global,
        face: &Face<'_>,
        words: &ArgMatches<'_>,
    ) -> Result<(), Failure> {
        if let Some(text) = words.get_str("text") {
            self.put_text(alloc, face, text)?;
        } else if let Some(list) = words.get_str("unicodes") {
            self.put_unicodes(alloc, face, list)?;
        } else {
            self.put_glyphs(alloc, face, words)?;
        }
        if self.chars.is_empty() && self.glyphs.is_empty() {
            return Err(Failure::no_glyphs());
        }
        Ok(())
    }

    /// Appends the glyphs of the characters.
    fn put_mapped(
        &self,
        alloc: Global,
        face: &Face<'_>,
        glyphs: &mut Vec<usize>,
    ) -> Result<(), AllocError> {
        if self.chars.len() <= FEW {
            return put_each_of(glyphs, face, &self.chars);
        }
        let all = all_of(alloc, &face.map)?;
        for char in &self.chars {
            glyphs.push(glyph_in(&all, *char))?;
        }
        Ok(())
    }

    /// Returns all glyphs that are chosen or added, those of the characters, and `.notdef`, in ascending order.
    pub fn all_glyphs(&self, alloc: Global, face: &Face<'_>) -> Result<Vec<usize>, AllocError> {
        let mut glyphs = Vec::from_slice(alloc, &[0])?;
        glyphs.extend_from_slice(&self.glyphs)?;
        glyphs.extend_from_slice(&self.varied)?;
        glyphs.extend_from_slice(&self.added)?;
        self.put_mapped(alloc, face, &mut glyphs)?;
        glyphs.sort()?;
        glyphs.dedup();
        Ok(glyphs)
    }

    /// Adds the characters that a shaper may use in addition.
    pub fn put_shaped(&mut self, alloc: Global, face: &Face<'_>) -> Result<(), AllocError> {
        let mapped = mapped_by(alloc, &face.map)?;
        self.chars = shaped(alloc, &mapped, &self.chars)?;
        Ok(())
    }

    /// Returns the characters that a shaper may use in addition, in ascending order.
    pub fn not_shaped(&self, alloc: Global, face: &Face<'_>) -> Result<Vec<u32>, AllocError> {
        let mapped = mapped_by(alloc, &face.map)?;
        let mut known = Vec::from_slice(alloc, &self.chars)?;
        known.sort()?;
        let mut left = shaped(alloc, &mapped, &self.chars)?;
        left.sort()?;
        left.dedup();
        left.retain(|char| known.binary_search(char).is_err());
        Ok(left)
    }

    /// Returns the characters and glyphs that the arguments choose.
    pub fn read(alloc: Global, face: &Face<'_>, words: &ArgMatches<'_>) -> Result<Choice, Failure> {
        let mut choice = Choice {
            chars: Vec::new(alloc),
            glyphs: Vec::new(alloc),
            varied: Vec::new(alloc),
            added: Vec::new(alloc),
        };
        choice.put(alloc, face, words)?;
        Ok(choice)
    }
}

/// Appends the glyph of each of these characters.
fn put_each_of(glyphs: &mut Vec<usize>, face: &Face<'_>, chars: &[u32]) -> Result<(), AllocError> {
    for char in chars {
        glyphs.push(usize::from(glyph_of(&face.map, *char)))?;
    }
    Ok(())
}

/// Returns the glyph of a character, from a list of all characters.
fn glyph_in(all: &[(u32, u16)], char: u32) -> usize {
    let at = all.partition_point(|mapped| mapped.0 < char);
    match all.get(at) {
        Some((found, glyph)) if *found == char => usize::from(*glyph),
        _ => 0,
    }
}

/// Adds the characters of a glyph, from a list of all characters.
fn put_chars_of(chars: &mut Vec<u32>, all: &[Mapped], glyph: usize) -> Result<(), AllocError> {
    let gid = u16::try_from(glyph).unwrap_or(u16::MAX);
    for mapped in of_glyph(all, gid) {
        chars.push(mapped.char)?;
    }
    Ok(())
}

/// Returns the failure of a name that no glyph has.
fn no_name(name: &str) -> Failure {
    Failure::other(format_args!("the font has no glyph with the name {name}"))
}

/// Parses a character in hexadecimal. Returns `None` if the text is no such number.
fn char_of(word: &str) -> Option<u32> {
    let digits = word.strip_prefix("U+").unwrap_or(word);
    u32::from_str_radix(digits, 16).ok()
}

/// Returns whether a range has too many characters to look up each.
fn are_many(first: u32, last: u32) -> bool {
    last.saturating_sub(first) as usize >= FEW
}

/// Returns whether a list of hexadecimal numbers and ranges has a range of many characters.
fn has_many(list: &str) -> bool {
    for word in list.split(',') {
        if let Some((Some(first), Some(last))) = range_of(word)
            && are_many(first, last)
        {
            return true;
        }
    }
    false
}

/// Parses a range of characters. Returns `None` if the text has no hyphen.
fn range_of(word: &str) -> Option<(Option<u32>, Option<u32>)> {
    let (first, last) = word.split_once('-')?;
    Some((char_of(first), char_of(last)))
}

/// Parses a glyph number or a range of two.
fn gids_of(word: &str, glyphs: usize) -> Result<(u32, u32), Failure> {
    let (first, last) = word.split_once('-').unwrap_or((word, word));
    Ok((gid_of(first, glyphs)?, gid_of(last, glyphs)?))
}

/// Parses the number of one of `glyphs` glyphs.
fn gid_of(word: &str, glyphs: usize) -> Result<u32, Failure> {
    match word.parse::<u32>() {
        Ok(gid) if (gid as usize) < glyphs => Ok(gid),
        Ok(gid) => Err(Failure::no_glyph(gid)),
        Err(_) => Err(Failure::usage("--gids takes a list of numbers and ranges, e.g. 1,7-12")),
    }
}
