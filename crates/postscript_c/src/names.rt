//! Names of glyphs.
ghost use Rattle.std.specs.Prelude.{◌≡◌};
ghost use Rattle.postscript_c.specs.Naming.{TellsName, TellsNameIn, TellsNamed, TellsNamedIn};
ghost use Rattle.postscript_c.specs.Texts.{lent};
ghost use Rattle.postscript_view.specs.Value.{view_shown};

use crate::status::{NO_GLYPH, NO_NAME};
use crate::texts::hand_over;
use crate::told::status;
use postscript_view::FontView;
use std::alloc::Global;

/// Stores the name of a glyph of an open font.
fn tell_name_in(view: &FontView<'_>, glyph: usize, room: &mut [u8], count: &mut usize) -> i32
    ensures { TellsNameIn view.now.bytes.now (view_shown view.now) glyph result (lent room.old count.old) (lent room.new count.new) }
{
    match view.char_set() {
        Ok(set) => match view.name(&set, glyph) {
            Some(name) => hand_over(name, room, count),
            None => NO_NAME,
        },
        Err(e) => status(&e),
    }
}

/// Stores the name of a glyph.
pub(crate) fn tell_name(
    alloc: Global,
    bytes: &[u8],
    glyph: usize,
    room: &mut [u8],
    count: &mut usize,
) -> i32
    ensures { TellsName bytes.now glyph result (lent room.old count.old) (lent room.new count.new) }
{
    match FontView::read_font(alloc, bytes, 0) {
        Ok(view) => tell_name_in(&view, glyph, room, count),
        Err(e) => status(&e),
    }
}

/// Stores the glyph with a name in an open font.
fn tell_named_in(view: &FontView<'_>, name: &[u8], glyph: &mut usize) -> i32
    ensures { TellsNamedIn view.now.bytes.now (view_shown view.now) name.now result glyph.old glyph.new }
{
    match view.char_set() {
        Ok(set) => match view.glyph_of_name(&set, name) {
            Some(found) => {
                *glyph = found;
                0
            }
            None => NO_GLYPH,
        },
        Err(e) => status(&e),
    }
}

/// Stores the glyph with a name.
pub(crate) fn tell_named(alloc: Global, bytes: &[u8], name: &[u8], glyph: &mut usize) -> i32
    ensures { TellsNamed bytes.now name.now result glyph.old glyph.new }
{
    match FontView::read_font(alloc, bytes, 0) {
        Ok(view) => tell_named_in(&view, name, glyph),
        Err(e) => status(&e),
    }
}
