//! Writes OpenType files with only some characters, whose layout tables still apply (ISO/IEC 14496-22, 6).
//!
//! [`subset_with_layout`] cuts a face as [`postscript_files::subset_file`] does. It also keeps the glyphs of variation sequences
//! and the glyphs that the substitutions of chosen features can make. It writes `GSUB`, `GPOS`, `GDEF` and `kern` tables and the
//! tables for vertical text under the new glyph numbers. [`glyphs_with_layout`] returns these glyphs beforehand.
//!
//! [`text_chars`] lists the characters that such a subset needs, so that shapers set text with it as with the whole face.
//!
//! # What is proved
//!
//! Each call is safe and ends, on all bytes.
//!
//! - The file is a subset of the face, for the caller's choice with further glyphs and tables. All clauses of `subset_file`
//!   are true of it.
//! - A text of named glyphs and of glyphs of variation sequences has only glyphs of the subset, after any substitutions by
//!   the chosen lookups.
//! - The `GSUB` table substitutes as the old one (`KeepsRules` of `postscript_layout_write`), the `GPOS` table positions glyphs
//!   as the old one (`KeepsPositions`, `KeepsFlaggedPositions`), and the `GDEF` table has the old classes (`KeepsClasses`).
//!   Both tables have all scripts and languages, with the chosen features only (`HasOnlyFeatures`).
//! - Each glyph has its vertical metrics and its vertical origin (`AreVertical`).
//! - If glyphs keep their numbers, the layout tables are copied, and such a text has only glyphs that are the same in the new
//!   face, after any substitutions.
//! - `glyphs_with_layout` returns exactly the glyphs that the chosen lookups can make of the named ones and of the
//!   glyphs of variation sequences.
//! - The outcome of a table names why it is absent or lost. If `GDEF` is lost, `GSUB` and `GPOS` are not kept. Each error has
//!   its cause.
//!
//! # What is not proved
//!
//! - That there is enough memory, which limit suffices, and that a table is lost as `TooLarge` only if it is too large.
//! - What `postscript_layout_write` leaves out, such as device tables.
#![tactic(auto)]

mod closing;
mod error;
mod features;
mod glyphs;
mod in_place;
mod layers;
mod subset;
mod text;
mod vertical;

pub use error::{Error, Result};
pub use features::Features;
pub use glyphs::glyphs_with_layout;
pub use layers::Outcome;
pub use subset::{Subset, subset_with_layout};
pub use text::text_chars;
