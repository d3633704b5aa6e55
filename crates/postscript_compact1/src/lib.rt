//! The Compact Font Format (Adobe Technical Note 5176): INDEX structures, charsets, encodings and fonts.
#![tactic(auto)]

pub mod char_set;
pub mod encoding;
pub mod font_set;
pub mod index;
mod standard_strings;
