//! The basic parts of the Compact Font Format (Adobe Technical Note 5176).
mod digits;
mod header;
pub mod laws;
pub mod number;
mod offset;
mod operand;
mod operands;
mod operation;
mod operations;
mod operator;
mod significant;
mod text;

pub use header::Header;
pub use offset::{Offset, OffsetSize};
pub use operand::Operand;
pub use operands::Operands;
pub use operation::Operation;
pub use operations::Operations;
pub use operator::Operator;

/// A glyph index in a font, counted from 0.
pub type GlyphID = u16;

/// A string identifier (SID): a standard string below 391, and a string of the font from 391 on.
pub type StringID = u16;
