//! Writes one instance of a variable font as a static OpenType file with a `CFF ` table (OpenType 1.9, "OpenType Font
//! Variations Overview").
//!
//! [`VariableFace::read`] opens a font with outlines in a `CFF2` table. [`Location::of`] is a location in its design space,
//! and [`static_font`] writes the file. [`instance_file`] does all three.
//!
//! # What is proved
//!
//! Each call is safe and ends, on all bytes. A file that is written has one face, which opens with exactly the tables that are
//! written. Its tags ascend, its checksums are right, and only zeros are between tables. Its `CFF ` table is one that
//! `postscript_instance` writes for the location, so glyphs are drawn as at the location.
//! An error names a table that is missing, malformed, too expensive or not made, or the first glyph that is refused. The cause is
//! present: a table is as heavy, an advance as wide, a run as expensive, and names are as long as the error says
//! (`specs/Weights.antt`, `specs/Glyphs.antt`, `specs/Names.antt`). A font with a table that is too expensive is never opened.
//! Any call may also be out of memory. The limit of all glyphs never grows.
//!
//! # What is not proved
//!
//! - That there is enough memory.
//! - The tables other than `CFF `: metrics, the texts of names, glyph classes and positions are tested.
#![tactic(auto)]

mod drawn;
mod error;
mod face;
mod gaps;
mod glyph_names;
mod held;
mod instance;
mod kept;
mod location;
mod made;
mod metrics;
mod positions;
mod records;
mod style;
mod values;
mod weight;

pub use error::{Error, GlyphError, Result};
pub use face::VariableFace;
pub use held::Held;
pub use instance::{RUNS, StaticFont, Unwatched, Watch, instance_file, static_font};
pub use location::Location;
