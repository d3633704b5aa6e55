//! All characters of a character map, in the form for C.
ghost use Rattle.std.specs.Prelude.{◌≡◌, map, IfOk};
ghost use Rattle.postscript_c.specs.Characters.{HasRows, TellsCharacters, row as the_row};
ghost use Rattle.postscript_c.specs.Texts.{lent};

use crate::status::{MEMORY, NO_MAP};
use crate::texts::hand_over;
use postscript_sfnt::CharacterMap;
use std::alloc::{AllocError, Global};

/// A character that has a glyph.
#[repr(C)]
#[derive(Clone, Copy)]
pub struct PsfCharacter {
    /// The code point of the character.
    pub character: u32,
    /// Its glyph, which is not 0.
    pub glyph: u32,
}

/// A character and its glyph.
fn row(pair: (u32, u16)) -> PsfCharacter
    ensures { result ≡ the_row pair }
{
    PsfCharacter {
        character: pair.0,
        glyph: u32::from(pair.1),
    }
}

/// Characters and their glyphs.
fn rows(alloc: Global, all: &[(u32, u16)]) -> Result<Vec<PsfCharacter>, AllocError>
    ensures { IfOk result (λ rows. rows.items ≡ map the_row all.now) }
{
    let mut rows = Vec::new(alloc);
    for pair in all {
        rows.push(row(*pair))?;
    }
    Ok(rows)
}

/// All characters with a glyph in a map.
fn characters_of(alloc: Global, map: &CharacterMap<'_>) -> Result<Vec<PsfCharacter>, AllocError>
    ensures { IfOk result (λ found. HasRows map.now found.items) }
{
    let all = map.characters(alloc)?;
    rows(alloc, &all)
}

/// Stores all characters with a glyph in a `cmap` table.
pub(crate) fn tell_characters(
    alloc: Global,
    cmap: &[u8],
    room: &mut [PsfCharacter],
    count: &mut usize,
) -> i32
    ensures { TellsCharacters cmap.now result (lent room.old count.old) (lent room.new count.new) }
{
    match CharacterMap::read(cmap) {
        Some(map) => match characters_of(alloc, &map) {
            Ok(found) => hand_over(&found, room, count),
            Err(_) => MEMORY,
        },
        None => NO_MAP,
    }
}
