//! Fonts of files.
use crate::refused::spot_of;
use crate::weight::is_too_much;
use postscript_base::Error;
use postscript_sfnt::{Advances, CharacterMap, FontFile, Name, Names, faces, glyphs, units_per_em};
use postscript_view::{CharSetView, FontView};
use psotf_output::failure::Failure;
use psotf_output::rules::Spot;
use std::alloc::Global;

/// The parts of a font apart from its outlines.
#[derive(Clone, Copy)]
pub struct Common<'l> {
    pub units: u16,
    pub glyphs: u16,
    pub advances: Advances<'l>,
    pub map: Option<CharacterMap<'l>>,
    pub names: Option<Names<'l>>,
}

/// A font of a file, with any kind of outlines.
#[derive(Clone, Copy)]
pub struct Source<'l> {
    /// The bytes of the file.
    pub bytes: &'l [u8],
    /// The index of the font in the file.
    pub number: usize,
    pub file: FontFile<'l>,
}

/// A font of a file, with a `CFF ` table.
#[derive(Drop)]
pub struct Face<'l> {
    pub source: Source<'l>,
    pub faces: usize,
    pub units: u16,
    pub glyphs: u16,
    pub advances: Advances<'l>,
    pub map: Option<CharacterMap<'l>>,
    pub names: Option<Names<'l>>,
    /// The bytes of the `CFF ` table.
    pub cff: &'l [u8],
    pub font: FontView<'l>,
    pub set: Option<CharSetView<'l>>,
}

/// Returns the family and the style in the `name` table.
pub fn family_and_style<'l>(names: &Option<Names<'l>>) -> (Option<Name<'l>>, Option<Name<'l>>) {
    match names {
        Some(names) => (names.family(), names.style()),
        None => (None, None),
    }
}

/// Returns a required table.
pub fn required_table<'l>(
    file: &FontFile<'l>,
    tag: [u8; 4],
    name: &'static str,
) -> Result<&'l [u8], Failure> {
    match file.table(tag) {
        Some(table) => Ok(table),
        None => Err(Failure::no_table(name)),
    }
}

/// Returns the advances of a font.
fn advances_of<'l>(file: &FontFile<'l>) -> Result<Advances<'l>, Failure> {
    let hhea = required_table(file, [b'h', b'h', b'e', b'a'], "hhea")?;
    let hmtx = required_table(file, [b'h', b'm', b't', b'x'], "hmtx")?;
    match Advances::read(hhea, hmtx) {
        Some(advances) => Ok(advances),
        None => Err(Failure::cut("hmtx")),
    }
}

/// Reads the font of a `CFF ` table. An error names the part and the rule.
fn open_font<'l>(alloc: Global, cff: &'l [u8]) -> Result<FontView<'l>, Failure> {
    if is_too_much(alloc, cff) {
        return Err(Failure::dictionaries());
    }
    match FontView::read(alloc, cff) {
        Ok(font) => Ok(font),
        Err(error) => Err(Failure::of_table(spot_of(alloc, cff), error)),
    }
}

/// Returns the part and the error of an invalid `CFF ` table. Returns `None` if it is valid.
pub fn refusal_of(alloc: Global, cff: &[u8]) -> Option<(Spot, Error)> {
    let error = FontView::read(alloc, cff).err()?;
    Some((spot_of(alloc, cff), error))
}

/// Returns the kind of a file that this program cannot read, if it is a known one.
fn other_kind(bytes: &[u8]) -> Option<&'static str> {
    if bytes.starts_with(b"wOFF") {
        Some("a WOFF file (to unpack it: woff2sfnt FILE > OUT.otf)")
    } else if bytes.starts_with(b"wOF2") {
        Some("a WOFF2 file (to unpack it: woff2_decompress FILE)")
    } else if bytes.starts_with(b"%!PS") || bytes.starts_with(&[0x80, 0x01]) {
        Some("a Type 1 font")
    } else {
        None
    }
}

/// Returns the kind of a font without a `CFF ` table, if it is a known one.
fn other_outlines(file: &FontFile<'_>) -> Option<&'static str> {
    if file.table(*b"glyf").is_some() {
        return Some("a TrueType font, with its outlines in a glyf table");
    }
    None
}

/// Returns the bytes of the `CFF ` table.
fn cff_of<'l>(file: &FontFile<'l>) -> Result<&'l [u8], Failure> {
    match required_table(file, *b"CFF ", "CFF") {
        Ok(table) => Ok(table),
        Err(failure) => match other_outlines(file) {
            Some(kind) => Err(Failure::other_kind(kind)),
            None => Err(failure),
        },
    }
}

impl<'l> Common<'l> {
    /// Reads the parts of a font of a file.
    pub fn open(file: &FontFile<'l>) -> Result<Common<'l>, Failure> {
        let head = required_table(file, *b"head", "head")?;
        let maxp = required_table(file, *b"maxp", "maxp")?;
        let Some(units) = units_per_em(head) else {
            return Err(Failure::cut("head"));
        };
        let Some(glyphs) = glyphs(maxp) else {
            return Err(Failure::cut("maxp"));
        };
        let advances = advances_of(file)?;
        let map = match file.table(*b"cmap") {
            Some(cmap) => CharacterMap::read(cmap),
            None => None,
        };
        let names = match file.table(*b"name") {
            Some(names) => Names::read(names),
            None => None,
        };
        Ok(Common {
            units,
            glyphs,
            advances,
            map,
            names,
        })
    }
}

/// Returns a font of a file by its number, with any kind of outlines.
pub fn source_of(bytes: &[u8], number: u16) -> Result<Source<'_>, Failure> {
    if let Some(kind) = other_kind(bytes) {
        return Err(Failure::other_kind(kind));
    }
    let number = usize::from(number);
    let file = FontFile::read(bytes, number)?;
    Ok(Source {
        bytes,
        number,
        file,
    })
}

/// The most bytes of a string that are printed. Many glyphs or DICTs may share a long one.
const LONGEST: usize = 1_000;

/// Returns the beginning of a string, as far as it is printed.
pub fn cut(string: &[u8]) -> &[u8] {
    string.get(..LONGEST).unwrap_or(string)
}

impl<'l> Face<'l> {
    /// Reads a font of a file.
    pub fn open(alloc: Global, source: Source<'l>) -> Result<Face<'l>, Failure> {
        let cff = cff_of(&source.file)?;
        let Common {
            units,
            glyphs,
            advances,
            map,
            names,
        } = Common::open(&source.file)?;
        let faces = faces(source.bytes)?;
        let font = open_font(alloc, cff)?;
        let set = font.char_set().ok();
        Ok(Face {
            source,
            faces,
            units,
            glyphs,
            advances,
            map,
            names,
            cff,
            font,
            set,
        })
    }

    /// Returns the name of a glyph, at most its first 1,000 bytes. Returns `None` if the font is CID-keyed, or if the
    /// glyph has no name.
    pub fn name(&self, gid: u16) -> Option<&[u8]> {
        match &self.set {
            Some(set) => Some(cut(self.font.name(set, usize::from(gid))?)),
            None => None,
        }
    }

    /// Returns the CID of a glyph. Returns `None` if the font is not CID-keyed, or if the glyph has no CID.
    pub fn cid(&self, gid: u16) -> Option<u16> {
        match &self.set {
            Some(set) => self.font.cid(set, usize::from(gid)),
            None => None,
        }
    }

    /// Returns the first glyph with a name. Returns `None` also if the font is CID-keyed.
    pub fn glyph_of_name(&self, name: &[u8]) -> Option<usize> {
        match &self.set {
            Some(set) => self.font.glyph_of_name(set, name),
            None => None,
        }
    }
}

/// Returns the number of glyphs that have a charstring.
pub fn count(face: &Face<'_>) -> u16 {
    let programs = face.font.char_strings.len().min(65535) as u16;
    face.glyphs.min(programs)
}
