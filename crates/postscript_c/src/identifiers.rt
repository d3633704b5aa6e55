//! The SIDs or CIDs of glyphs, and strings.
ghost use Rattle.std.specs.Prelude.{◌≡◌, IfOk};
ghost use Rattle.postscript_c.specs.Identifiers.{AreIdentifiers, IsIdentifier, TellsIdentifiers, TellsIdentifiersIn, TellsString, TellsStringIn};
ghost use Rattle.postscript_c.specs.Texts.{lent};
ghost use Rattle.postscript_view.specs.Value.{view_shown};

use crate::status::{MEMORY, NO_NAME};
use crate::texts::hand_over;
use crate::told::status;
use postscript_view::{CharSetView, FontView};
use std::alloc::{AllocError, Global};

/// The SID or CID of a glyph, or -1 if the charset has none.
fn told_of(set: &CharSetView<'_>, glyph: usize) -> i32
    ensures { IsIdentifier set.now glyph result }
{
    match set.identifier(glyph) {
        Some(identifier) => i32::from(identifier),
        None => -1,
    }
}

/// The same for all glyphs.
fn all_told(alloc: Global, set: &CharSetView<'_>, glyphs: usize) -> Result<Vec<i32>, AllocError>
    ensures { IfOk result (λ all. AreIdentifiers set.now glyphs all.items) }
{
    let mut all = Vec::new(alloc);
    for glyph in 0..glyphs {
        all.push(told_of(set, glyph))?;
    }
    Ok(all)
}

/// Stores the SIDs or CIDs of the glyphs of an open font.
fn tell_identifiers_in(
    alloc: Global,
    view: &FontView<'_>,
    room: &mut [i32],
    count: &mut usize,
) -> i32
    ensures { TellsIdentifiersIn view.now.bytes.now (view_shown view.now) result (lent room.old count.old) (lent room.new count.new) }
{
    match view.char_set() {
        Ok(set) => match all_told(alloc, &set, view.char_strings.len()) {
            Ok(all) => hand_over(&all, room, count),
            Err(_) => MEMORY,
        },
        Err(e) => status(&e),
    }
}

/// Stores the SIDs or CIDs of glyphs.
pub(crate) fn tell_identifiers(
    alloc: Global,
    bytes: &[u8],
    room: &mut [i32],
    count: &mut usize,
) -> i32
    ensures { TellsIdentifiers bytes.now result (lent room.old count.old) (lent room.new count.new) }
{
    match FontView::read_font(alloc, bytes, 0) {
        Ok(view) => tell_identifiers_in(alloc, &view, room, count),
        Err(e) => status(&e),
    }
}

/// Stores the string with an SID in an open font.
fn tell_string_in(view: &FontView<'_>, identifier: u16, room: &mut [u8], count: &mut usize) -> i32
    ensures { TellsStringIn (view_shown view.now) identifier result (lent room.old count.old) (lent room.new count.new) }
{
    match view.string(identifier) {
        Some(string) => hand_over(string, room, count),
        None => NO_NAME,
    }
}

/// Stores the string with an SID.
pub(crate) fn tell_string(
    alloc: Global,
    bytes: &[u8],
    identifier: u16,
    room: &mut [u8],
    count: &mut usize,
) -> i32
    ensures { TellsString bytes.now identifier result (lent room.old count.old) (lent room.new count.new) }
{
    match FontView::read_font(alloc, bytes, 0) {
        Ok(view) => tell_string_in(&view, identifier, room, count),
        Err(e) => status(&e),
    }
}
