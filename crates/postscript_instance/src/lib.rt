//! Writes static fonts at locations of variable fonts: CFF2 charstrings become Type 2 charstrings (Technical Note 5177;
//! OpenType 1.9, "CFF2 CharString Format").
#![tactic(auto)]

mod advances;
mod axes;
mod blending;
mod error;
mod indices;
pub mod laws;
mod layout;
mod matrix;
mod naming;
mod numbers;
mod parts;
mod pieces;
mod privates;
mod reals;
mod rooms;
mod rounding;
mod statics;
mod tables;
mod texts;
mod whole;

pub use advances::AdvancesAt;
pub use error::{Error, Result};
pub use naming::Naming;
pub use statics::charstring;
pub use tables::{glyph, rounded_table, table};
pub use whole::{rounded, rounded_glyph};
