//! The characters of a font that a shaper may use for a text (The Unicode Standard, 3.7, 3.11 and 3.12).
//!
//! A shaper does not only look up the characters of a text. It composes and decomposes them, mirrors brackets, inserts a
//! dotted circle under a mark without a base, and falls back to Arabic presentation forms. A subset that lacks these
//! characters can look different from the whole font.
//!
//! # What is proved
//!
//! [`shaped`] is safe, ends, and returns exactly the characters that `IsUsed` describes (specs/Shaping.antt), by the tables
//! of Unicode 18.
//!
//! # What is not proved
//!
//! - That a shaper uses no other characters. This is tested with HarfBuzz (`tools/evidence/shaped.py`).
//! - That there is enough memory.
#![tactic(auto)]

mod characters;
mod composing;
mod forms;
mod parts;
mod sorted;
mod used;

pub use used::shaped;
