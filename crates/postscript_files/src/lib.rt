//! Writes whole OpenType files (ISO/IEC 14496-22): desubroutinized, or with only some characters and glyphs.
//!
//! [`Face::open`] opens a face with its `CFF ` table, its best character map and its advance widths. [`flat_file`] writes
//! the face again without subroutines. [`subset_file`] and [`Face::subset`] write only the
//! characters, glyphs and tables of a [`Choice`].
//!
//! # What is proved
//!
//! Each call is safe and ends, on all bytes. A file that is written has one face, which opens. Its records are
//! sorted, its checksums are right, and only zeros are between its tables.
//!
//! - `flat_file`: the `CFF ` table is one that `postscript_write::flat_font` writes, so each glyph is drawn as before and
//!   keeps its name or CID. All other tables but `DSIG` are copied byte for byte, apart from `checkSumAdjustment` in
//!   `head`. There are no other tables.
//! - `subset_file`: the best map has a glyph for each kept character, and no glyph for other characters. This glyph is
//!   drawn as the old one. It has the same name or CID, the same advance width and the same left side bearing. A subtable of
//!   format 4 has the same glyphs for the characters below U+FFFF, or none if these form more than 8,000 segments. The
//!   variation sequences of kept characters are there exactly if their glyphs are kept, under the new numbers. `CFF `,
//!   `maxp`, `hhea` and `hmtx` have the same number of glyphs. Tables of the choice are copied byte for byte, apart from
//!   `checkSumAdjustment`. There are no other tables. New glyph `i` is the old glyph at index `i` of the list that
//!   [`Face::origins`] returns.
//! - Errors of `subset_file`: `MissingCharacter`, `Font`, `Cut` and `SameTag`, and the errors of `Face::open`, come only
//!   if the old file or the choice has that fault. `TooLarge` comes as that of `flat_file`.
//! - Errors of `flat_file`: `File`, `MissingTable` and `Font` come only if the old file has that fault. `Overlap` comes only
//!   if the tables that are copied have more bytes together than the file. `TooLarge` comes only if the tables of the new
//!   file are 4,096 or more, or if the file of them would have 2^32 bytes or more. Other errors except `Memory` never come.
//!
//! # What is not proved
//!
//! - That there is enough memory.
//! - That text is shaped as before: `GSUB`, `GPOS` and `kern` are not written unless the choice has them, and a copied
//!   `GSUB` or `GPOS` has the old glyph numbers. `postscript_subset` writes these tables under the new numbers.
#![tactic(auto)]

mod choice;
mod error;
mod face;
mod flat;
mod glyphs;
pub mod laws;
mod lookup;
mod metrics;
mod numbers;
mod sequences;
mod subset;
mod tables;

pub use choice::{Choice, Given};
pub use error::{Error, Result};
pub use face::Face;
pub use flat::flat_file;
pub use subset::subset_file;
