//! Reads OpenType layout tables in place (OpenType 1.9; ISO/IEC 14496-22, 6): the lookups that features name, and the
//! closure of glyphs over lookups of the `GSUB` table.
#![tactic(auto)]

mod closing;
mod error;
mod features;
mod glyph_set;
pub mod laws;
mod lookups;
pub mod numbers;
mod substitutions;
#[cfg(test)]
mod tests;

pub use closing::{closure, closure_over};
pub use error::{Error, Result};
pub use features::{all_lookups, feature_lookups};
