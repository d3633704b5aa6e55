//! Runs the charstrings of CFF2 fonts (OpenType 1.9, "CFF2 CharString Format").
#![tactic(auto)]

mod blend;
mod charstring;
mod command;
pub mod laws;
mod machine;
mod program;
mod routine;
mod sayings;
mod state;
mod within;

pub use charstring::{Blends, Charstring};
pub use command::Command;
pub use program::Program;
pub use sayings::Saying;
