//! Writes the pairs of a `kern` table for the glyphs of a subset, which have new numbers (OpenType 1.9, "kern - Kerning").
//!
//! It is proved that each subtable of the new table has exactly the pairs of kept glyphs of an old one, with its coverage
//! and with the same values (`IsKept` in specs/Kept.antt). The new table has these subtables in the old order, and no other
//! bytes (`IsTable` in specs/Written.antt).
//!
//! The crate also finds out whether a `GPOS` table kerns text of each script and language (`EachLanguageKerns` in
//! specs/Languages.antt). Shapers that kern by one of the two tables then need no `kern` table.
//!
//! specs/Units.antt says how many units a table needs. With such a limit no call returns `TooLong`, and no call costs more. If
//! `kept_kerning` succeeds, it costs exactly these units.
//!
//! What is left out:
//!
//! - Subtables of other formats than 0, and subtables without pairs of kept glyphs.
//! - Tables of another version than 0, such as those of Apple's "kern" specification.
//! - The pairs of a subtable are those of its records that end within the table, at most `nPairs`. The length of the
//!   subtable does not bound them, since it overflows with more than 10,920 pairs. The next subtable begins after `length`
//!   bytes. If a pair is listed twice, its first record counts.
#![tactic(auto)]

mod error;
mod kerning;
mod languages;
mod limit;
mod numbers;
mod pairs;
mod renumbering;
mod writing;

pub use error::{Error, Result};
pub use kerning::kept_kerning;
pub use languages::each_language_kerns;
