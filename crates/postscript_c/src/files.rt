//! OpenType files: faces, tables and character maps.
ghost use Rattle.std.specs.Prelude.{◌≡◌, pos};
ghost use Rattle.postscript_c.specs.Files.{TellsFaces, TellsTable, TellsGlyph, file_code, span};

use crate::status::{NO_MAP, NO_TABLE};
use postscript_sfnt::{CharacterMap, Error, FontFile, faces};

/// The status of an error of a file, from 33 to 35.
pub(crate) fn file_status(e: Error) -> i32
    ensures { result ≡ pos (file_code e) }
{
    match e {
        Error::Cut => 33,
        Error::UnknownVersion => 34,
        Error::NoSuchFace => 35,
    }
}

/// Stores the number of faces of a file.
pub(crate) fn tell_faces(bytes: &[u8], count: &mut usize) -> i32
    ensures { TellsFaces bytes.now result count.old count.new }
{
    match faces(bytes) {
        Ok(found) => {
            *count = found;
            0
        }
        Err(e) => file_status(e),
    }
}

/// Stores the offset and the size of a table of a face.
pub(crate) fn tell_table(
    bytes: &[u8],
    face: usize,
    tag: u32,
    place: &mut usize,
    size: &mut usize,
) -> i32
    ensures { TellsTable bytes.now face tag result (span place.old size.old) (span place.new size.new) }
{
    match FontFile::read(bytes, face) {
        Ok(file) => match file.span(tag) {
            Some(span) => {
                *place = span.0;
                *size = span.1;
                0
            }
            None => NO_TABLE,
        },
        Err(e) => file_status(e),
    }
}

/// Stores the glyph of a character in a `cmap` table.
pub(crate) fn tell_glyph(cmap: &[u8], character: u32, glyph: &mut usize) -> i32
    ensures { TellsGlyph cmap.now character result glyph.old glyph.new }
{
    match CharacterMap::read(cmap) {
        Some(map) => {
            *glyph = usize::from(map.glyph_of(character));
            0
        }
        None => NO_MAP,
    }
}
