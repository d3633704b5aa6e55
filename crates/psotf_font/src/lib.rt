//! Fonts of files and their glyphs, within the budget of a command of `psotf`, and what `psotf` tells of a font as lines
//! or as JSON.
//!
//! Each call is safe and ends.
#![tactic(auto)]

pub mod along;
pub mod asking;
pub mod characters;
pub mod dictionaries;
pub mod face;
pub mod hints;
pub mod inspect;
pub mod layouts;
pub mod leaving;
pub mod readings;
mod refused;
pub mod report;
pub mod weight;
