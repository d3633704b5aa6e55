//! Unicode variation sequences: the `cmap` subtable of format 14 (OpenType 1.9, "cmap"), read in place and written for the
//! characters of a subset.
//!
//! A sequence is a character and a variation selector. It has the glyph of the character alone (a default sequence), or a
//! glyph of its own. [`Sequences::find`] opens the subtable of a `cmap` table, and [`Sequences::get`] looks up a sequence.
//! [`Sequences::glyphs_of`] returns the glyphs that a subset needs for its characters. [`Sequences::kept`] writes the
//! subtable of the subset.
//!
//! It is proved that
//!
//! - `find` opens the subtable of the first encoding record of platform 0 and encoding 5 whose subtable has format 14, and
//!   `get` returns what the subtable says of the sequence (`IsDefault` and `IsMapped` in specs/Sequences.antt);
//! - `glyphs_of` returns exactly the glyphs of the sequences of some characters, with any selector;
//! - the table of `kept` says of each sequence of these characters what the old one says, under new glyph numbers, and has
//!   no other sequences (`Keeps` in specs/Keeps.antt). A sequence is dropped if its glyph is not kept, and a record if it
//!   has no sequences left. The table has exactly the bytes that these records need (`size_of` in specs/Sizes.antt);
//! - `kept` returns `TooLarge` only if there are more than 65,536 glyphs, or if the table would have 2^32 bytes or more;
//! - `is_enough` is true exactly if a limit has the units of all records (`units_of` in specs/Units.antt). With such a limit
//!   `glyphs_of` and `kept` do not return `TooLong`;
//! - each call is safe and ends, on all bytes. `glyphs_of` and `kept` keep to a limit, and allocate nothing by the counts
//!   that a table claims.
//!
//! These rules are the same for tables that keep to the specification. They say what counts in other tables:
//!
//! - The subtable extends to the end of the bytes; its length is not used. Entries that are cut off there do not count.
//! - An entry counts only if all entries before it are lower, as a search in ascending order finds it. So the first of equal
//!   entries counts, and one after a greater entry does not.
//! - The Default UVS table counts before the Non-Default UVS table.
//! - Characters have 24 bits.
//!
//! Each range of the new table has one character, so a table with longer ranges may be shorter.
#![tactic(auto)]

mod arrays;
mod error;
mod numbers;
mod parts;
mod renumbering;
mod said;
mod sequences;
#[cfg(test)]
mod tests;
mod writing;

pub use error::{Error, Result};
pub use sequences::{Sequence, Sequences, is_ascending};
