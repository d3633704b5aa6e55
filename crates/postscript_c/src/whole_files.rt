//! New font files.
ghost use Rattle.std.specs.Prelude.{◌≡◌, ◌≢◌, IfOk, pos};
ghost use Rattle.postscript_c.specs.Texts.{lent};
ghost use Rattle.postscript_c.specs.WholeFiles.{IsBeyond, IsChoice, IsFlatFile, IsSubsetBy, IsSubsetFile, RunsEnd, TellsFile, whole_code, whole_refusal};

use crate::files::file_status;
use crate::limit::tell_fits_at_once;
use crate::short_names::given_names;
use crate::status::{
    CUT_TABLE, MEMORY, NO_ADVANCES, NO_CHARACTER, NO_MAP, NO_TABLE, OVERLAP, SAME_TAG, TOO_LARGE,
};
use crate::texts::hand_over;
use crate::written::{PsfRefusal, refusal_of, refusal_with, written_status};
use postscript_files::{Choice, Error, Given, Result, flat_file, subset_file};
use postscript_sfnt::FontFile;
use std::alloc::Global;

/// The status of an error.
pub(crate) fn whole_status(e: &Error) -> i32
    ensures { result ≡ pos (whole_code e.now) }
{
    match e {
        Error::Memory => MEMORY,
        Error::File(fault) => file_status(*fault),
        Error::MissingTable(_) => NO_TABLE,
        Error::NoMap => NO_MAP,
        Error::NoAdvances => NO_ADVANCES,
        Error::MissingCharacter(_) => NO_CHARACTER,
        Error::Font(fault) => written_status(fault),
        Error::Overlap => OVERLAP,
        Error::SameTag(_) => SAME_TAG,
        Error::Cut => CUT_TABLE,
        Error::TooLarge => TOO_LARGE,
    }
}

/// The glyph, the character or the tag of an error, and the status of its cause.
pub(crate) fn whole_refusal_of(e: &Error) -> PsfRefusal
    ensures { result ≡ whole_refusal e.now }
{
    match e {
        Error::Font(fault) => refusal_of(fault),
        Error::MissingCharacter(number) | Error::MissingTable(number) | Error::SameTag(number) => {
            refusal_with(*number as usize, 0)
        }
        _ => refusal_with(0, 0),
    }
}

/// Stores a file. Returns 0, `NO_ROOM`, or the status of the error.
pub(crate) fn tell_file(
    answer: &Result<Vec<u8>>,
    room: &mut [u8],
    count: &mut usize,
    refusal: &mut PsfRefusal,
) -> i32
    ensures { TellsFile answer.now result (lent room.old count.old) (lent room.new count.new) refusal.old refusal.new }
{
    match answer {
        Ok(file) => hand_over(file, room, count),
        Err(e) => {
            *refusal = whole_refusal_of(e);
            whole_status(e)
        }
    }
}

/// Returns 0 if the runs of all glyphs of a face end within a limit, otherwise the status of the reason. A file without
/// the face or its `CFF ` table gives 0.
pub(crate) fn asked_of(alloc: Global, bytes: &[u8], face: usize, limit: u64) -> i32
    ensures end { result ≡ pos 0 → RunsEnd bytes.now face limit }
    ensures beyond { result ≢ pos 0 → IsBeyond bytes.now face limit result }
{
    let Ok(file) = FontFile::read(bytes, face) else {
        return 0;
    };
    let Some(cff) = file.table(*b"CFF ") else {
        return 0;
    };
    tell_fits_at_once(alloc, cff, limit)
}

/// The file of a face without subroutines.
pub(crate) fn flat_of(alloc: Global, bytes: &[u8], face: usize) -> Result<Vec<u8>>
    ensures { IsFlatFile bytes.now face result }
{
    flat_file(alloc, bytes, face)
}

/// The choice of a caller, with the tables that are given.
pub(crate) fn choice_of<'l>(
    chars: &'l [u32],
    glyphs: &'l [usize],
    copied: &'l [u32],
    given: &'l [Given],
    lenient: u32,
    keeps: u32,
    limit: u64,
) -> Choice<'l>
    ensures { IsChoice chars.now glyphs.now copied.now given.now lenient keeps limit result }
{
    Choice {
        chars,
        glyphs,
        unmapped: &[],
        lenient: lenient != 0,
        retain_gids: keeps != 0,
        copied,
        given,
        limit: Some(limit),
    }
}

/// The file of a choice.
fn subset_by(alloc: Global, bytes: &[u8], face: usize, choice: &Choice<'_>) -> Result<Vec<u8>>
    ensures { IsSubsetBy choice.now bytes.now face result }
{
    subset_file(alloc, bytes, face, choice)
}

/// The file of a face with these characters and glyphs, and with the `name` table that is asked for.
pub(crate) fn subset_of(
    alloc: Global,
    bytes: &[u8],
    face: usize,
    chars: &[u32],
    glyphs: &[usize],
    copied: &[u32],
    lenient: u32,
    keeps: u32,
    names: u32,
    limit: u64,
) -> Result<Vec<u8>>
    ensures { IsSubsetFile chars.now glyphs.now copied.now lenient keeps names limit bytes.now face result }
{
    let given = given_names(alloc, bytes, face, names)?;
    let choice = choice_of(chars, glyphs, copied, &given, lenient, keeps, limit);
    subset_by(alloc, bytes, face, &choice)
}
