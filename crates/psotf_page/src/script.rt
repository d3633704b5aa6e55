//! The script of the page.
mod block;
mod calls;
mod font;
mod glyph;
mod grid;
mod page;
mod walk;

use block::BLOCK;
use calls::CALLS;
use font::FONT;
use glyph::GLYPH;
use grid::GRID;
use page::PAGE;
use walk::WALK;

/// Returns the parts of the script, which builds the page from the block of JSON. Only this function names these long
/// texts, since each function that names them has them in its proof.
pub fn script() -> [&'static str; 7] {
    [BLOCK, WALK, FONT, GRID, GLYPH, CALLS, PAGE]
}
