//! Drawing of glyphs. The operations of a charstring draw the segments (Adobe Technical Note 5177, "Path Construction
//! Operators"). A `seac` glyph, whose `endchar` has four operands, also draws its components, a base and an accent
//! (Appendix C, "Compatibility and Deprecated Operators").
#![tactic(auto)]

mod accent;
mod component;
mod error;
mod flex;
mod glyph;
pub mod laws;
mod operands;
mod operations;
mod paths;
mod pen;
mod program;
mod reach;
mod stroke;
mod undrawn;

pub use accent::Accent;
pub use component::component_of;
pub use error::{Error, Result};
pub use flex::flex_strokes;
pub use glyph::{draw_components, draw_glyph, outline_of};
pub use operations::outline_of_operations;
pub use pen::Pen;
pub use program::{LIMIT, draw_program};
pub use stroke::{Axis, Stroke, Vector};
pub use undrawn::{Stroked, Undrawn};
