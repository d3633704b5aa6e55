//! Writes fonts of the Compact Font Format (Adobe Technical Note 5176): without subroutines, or with only some glyphs.
#![tactic(auto)]

mod char_sets;
mod closure;
mod components;
mod dictionaries;
mod error;
mod fonts;
mod glyphs;
mod indices;
pub mod laws;
mod layout;
mod naming;
mod number;
mod numbering;
mod sizes;
mod sources;
mod spans;
mod strings;
mod whole;

pub use error::{Error, Result};
pub use fonts::{
    FontSubset, flat_font, kept_glyphs, kept_glyphs_within, subset, subset_keeping, subset_within,
};
pub use indices::{index, put_index};
