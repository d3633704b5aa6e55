//! Lists that are copied into buffers of C.
ghost use Rattle.std.specs.Option.{option_copied};
ghost use Rattle.std.specs.Prelude.{◌≡◌, ◌≤◌, ◌++◌, drop, length, map, slice_get};
ghost use Rattle.postscript_c.specs.Statuses.{TellsText, text_of as the_text_of};
ghost use Rattle.postscript_c.specs.Texts.{HandsOver, lent};

use crate::status::{NO_ROOM, NO_STATUS};

/// Copies a list to the front of another.
pub(crate) fn copy<T: Copy>(from: &[T], room: &mut [T])
    requires { length from.now ≤ length room.old }
    ensures { room.new ≡ from.now ++ drop (length from.now) room.old }
{
    room[..from.len()].copy_from_slice(from);
}

/// Copies items into a buffer. Returns 0 or `NO_ROOM`. The count is set in both cases.
pub(crate) fn hand_over<T: Copy>(items: &[T], room: &mut [T], count: &mut usize) -> i32
    ensures { HandsOver items.now result (lent room.old count.old) (lent room.new count.new) }
{
    *count = items.len();
    if room.len() < items.len() {
        return NO_ROOM;
    }
    copy(items, room);
    0
}

/// The texts of all statuses from 0 on.
const TEXTS: [&str; 76] = [
    "done",
    "failed to fill whole buffer",
    "found a fault of the tape",
    "failed to find memory",
    "found a tape that stands still",
    "found a malformed offset",
    "found a malformed index",
    "found a malformed number",
    "found a number out of range",
    "found an unknown operator",
    "found a malformed char set",
    "found an unknown char-set format",
    "found an unknown char-string format",
    "found a malformed operation of a dictionary",
    "failed to find an operation of a dictionary",
    "found an offset out of range",
    "found an unsupported part",
    "expected an operand",
    "expected an operand of a different type",
    "expected more operands",
    "found malformed operands",
    "found an invalid operand",
    "failed to find a subroutine",
    "found a return operator without a caller",
    "found trailing data after the end operator",
    "found calls nested too deep",
    "found an overflow",
    "found a zero divisor",
    "found a root of a negative number",
    "found too many stems",
    "the program has failed before",
    "no such glyph",
    "the buffer is too small",
    "the file ends early",
    "not an OpenType file",
    "no such face",
    "the face has no such table",
    "no readable character map",
    "the glyph has no name",
    "no such status",
    "the charstring of a glyph has an error",
    "the table does not contain exactly one font",
    "a glyph has no Font DICT",
    "the list of glyphs is empty",
    "an unused status",
    "the font is too large to write",
    "the limit is used up",
    "the base and the accent of a seac glyph are not character codes",
    "a seac glyph in a CID-keyed font, which has no glyph names",
    "no glyph has the name of the base or the accent",
    "the base or the accent is itself a seac glyph",
    "no such axis",
    "no such named instance",
    "more coordinates than axes",
    "the fvar table ends early",
    "the fvar table has an unknown format",
    "the avar table ends early",
    "the avar table has an unknown format",
    "the HVAR table ends early",
    "the HVAR table has an unknown format",
    "the hhea and hmtx tables are truncated",
    "the header of the CFF2 table is missing or truncated",
    "the major version of the CFF2 table is not 2",
    "the Top DICT of the CFF2 table is truncated",
    "the Global Subr INDEX of the CFF2 table is malformed",
    "the Top DICT of the CFF2 table lacks an offset",
    "an INDEX of the CFF2 table is malformed",
    "FDSelect of the CFF2 table is malformed",
    "the item variation store of the CFF2 table is malformed",
    "item variation data of the CFF2 table are missing",
    "the font has no glyph for a character",
    "the tables overlap",
    "two tables have the same tag",
    "a table ends early",
    "the face has no CFF2 table, or a CFF table too",
    "a table has an unknown format",
];

/// The text with an index, if there is one.
fn text_at(table: &[&'static str], place: usize) -> Option<&'static str>
    ensures { option_copied result ≡ slice_get (map (λ text. text.now) table.now) place }
{
    table.get(place).copied()
}

/// The text of a status.
fn text_of(status: i32) -> Option<&'static str>
    ensures { option_copied result ≡ the_text_of status }
{
    if status < 0 {
        return None;
    }
    text_at(&TEXTS, status as usize)
}

/// Stores the text of a status.
pub(crate) fn tell_text(of: i32, room: &mut [u8], count: &mut usize) -> i32
    ensures { TellsText of result (lent room.old count.old) (lent room.new count.new) }
{
    match text_of(of) {
        Some(text) => hand_over(text.as_bytes(), room, count),
        None => NO_STATUS,
    }
}
