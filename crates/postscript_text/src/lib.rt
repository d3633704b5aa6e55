//! Texts that are built piece by piece: numbers, names of fonts, and `name` tables (ISO/IEC 14496-22).
//!
//! Each call is safe and ends.
#![tactic(auto)]

pub mod decimal;
pub mod names;
mod text;

pub use text::{Text, text_of};
