//! The number of glyphs of a variable font.
ghost use Rattle.postscript_c.specs.Counted.{TellsCountOf};

use crate::varied::{font_of, unvaried_status};
use postscript_sfnt::FontFile;

/// Stores the number of glyphs in the `CFF2` table of a face.
pub(crate) fn tell_count_of(file: &FontFile<'_>, count: &mut usize) -> i32
    ensures { TellsCountOf file.now result count.old count.new }
{
    match font_of(file) {
        Ok(font) => {
            *count = font.char_strings.len();
            0
        }
        Err(e) => unvaried_status(&e),
    }
}
