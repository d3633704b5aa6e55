//! Variable fonts: fonts with outlines in a `CFF2` table.
mod fixed;
pub mod glyphs;
pub mod holds;
pub mod moving;
pub mod place;

use postscript_cff2::Dictionary;
use postscript_cff2::layout::PRIVATE;
use postscript_sfnt::FontFile;
use psotf_font::face::Common;
use psotf_font::weight;
use psotf_output::failure::Failure;

/// A font of a file, with a `CFF2` table.
#[derive(Clone, Copy)]
pub struct VariableFace<'l> {
    pub common: Common<'l>,
    /// The font and its tables of variations.
    pub opened: postscript_instance_file::VariableFace<'l>,
}

/// Returns the length of a Font DICT and its Private DICT in bytes.
fn dictionary_len(face: &postscript_instance_file::VariableFace<'_>, item: &[u8]) -> u64 {
    let named = Dictionary { bytes: item }.offset(PRIVATE).unwrap_or(0);
    (named.min(face.font.bytes.len()) as u64).saturating_add(item.len() as u64)
}

/// Returns whether the Font DICTs and their Private DICTs have too many bytes.
fn is_too_much(face: &postscript_instance_file::VariableFace<'_>) -> bool {
    let mut sum = 0u64;
    for item in face.font.font_dictionaries.iter() {
        sum = sum.saturating_add(dictionary_len(face, item));
    }
    sum > weight::MOST
}

impl<'l> VariableFace<'l> {
    /// Reads a font of a file. Returns `None` if it has no `CFF2` table, or also has a `CFF ` table. It fails if a
    /// table is invalid or too expensive to process.
    pub fn open(file: &FontFile<'l>) -> Result<Option<VariableFace<'l>>, Failure> {
        match postscript_instance_file::VariableFace::open(file) {
            Ok(Some(opened)) if is_too_much(&opened) => Err(Failure::dictionaries()),
            Ok(Some(opened)) => Ok(Some(VariableFace {
                common: Common::open(file)?,
                opened,
            })),
            Ok(None) => Ok(None),
            Err(error) => Err(Failure::other(error)),
        }
    }
}
