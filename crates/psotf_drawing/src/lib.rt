//! Glyphs as `psotf` draws them, within the budget of a command: as lines, as JSON, as pictures and in reports, of fonts
//! and of variable fonts at a location.
//!
//! Each call is safe and ends.
#![tactic(auto)]

pub mod drawing;
pub mod glyph;
pub mod glyphs;
mod held;
pub mod report;
pub mod specimen;
pub mod svg;
pub mod variable;
