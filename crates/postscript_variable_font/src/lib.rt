//! Locations of variable fonts with a `CFF2` table, and their glyphs (OpenType 1.9, "CFF2", "OpenType Font Variations
//! Common Table Formats", "CFF2 CharString Format", "Path Construction Operators"). Glyphs are drawn with the pen for
//! Type 2 charstrings.
#![tactic(auto)]

mod drawing;
mod error;
mod glyph;
pub mod laws;
mod place;

pub use drawing::{draw, draw_program, outline_of};
pub use error::{Error, Result};
pub use glyph::{charstring, draw_glyph};
pub use place::Place;
