//! Variation sequences of a font.
ghost use Rattle.std.specs.Prelude.{◌≡◌, ◌↔◌, ℕ, ◌+◌, ◌^◌, ◌<◌, ◌≤◌, length, drop, IfErr, IfOk, OnOk, IsTrue, MatchOption};
ghost use Rattle.std.specs.List.{Contains};
ghost use Rattle.postscript_sequences.specs.Refusals.{Fails, KeepFails};
ghost use Rattle.postscript_sequences.specs.Keeps.{Keeps};
ghost use Rattle.postscript_sequences.specs.Sizes.{IsTooLarge, NeedsBytes};
ghost use Rattle.postscript_sequences.specs.Units.{units_of};
ghost use Rattle.postscript_sequences.specs.declared.error.Error.TheVariants as errors;
ghost use Rattle.postscript_sequences.specs.Tables.{format_of};
ghost use Rattle.postscript_sequences.specs.Sequences.{AreAscending, AreFound, HasNone, IsGlyphOf, IsOfFormat, IsSubtable, Says, offset_at, table_of};

use crate::arrays::{record_of, records, units};
use crate::error::{Error, Result};
use crate::numbers::number;
use crate::parts::{parts_of, put_glyphs};
use crate::renumbering::{GLYPHS, kept_parts, numbers_of};
use crate::said::{Cursor, look_up};
use crate::writing::write_subtable;
use std::alloc::Global;

/// What a font says of a sequence of a character and a variation selector.
#[derive(Clone, Copy, Debug, Drop, PartialEq, Eq)]
pub enum Sequence {
    /// The sequence has the glyph of the character alone.
    Default,
    /// The sequence has this glyph.
    Glyph(u16),
}

/// The variation sequences of a font: a `cmap` subtable of format 14.
#[derive(Clone, Copy)]
pub struct Sequences<'l> {
    table: &'l [u8],
}

impl<'l> Sequences<'l> {
    /// Opens a subtable. Returns `None` if its format is not 14.
    ///
    /// The length in its header is not used: the subtable extends to the end of the bytes. Entries that are cut off there
    /// are not found.
    pub fn open(table: &'l [u8]) -> Option<Sequences<'l>>
        // The sequences of the subtable, or `None` exactly if its format is not 14.
        ensures { MatchOption result
            (format_of table.now ≡ 14 → ⊥)
            (λ sequences. (format_of table.now ≡ 14) × (table_of sequences ≡ table.now)) }
    {
        if number(table, 0, 2) == 14 {
            Some(Sequences { table })
        } else {
            None
        }
    }

    /// Finds the subtable of a `cmap` table.
    ///
    /// Returns `None` if no encoding record has platform 0, encoding 5 and a subtable of format 14.
    pub fn find(cmap: &'l [u8]) -> Option<Sequences<'l>>
        // The subtable is that of the first such record. `None` exactly if there is none.
        ensures { MatchOption result
            ((i : ℕ) → IsSubtable cmap.now i → ⊥)
            (λ sequences. (i : ℕ) × AreFound cmap.now i sequences) }
    {
        let count = number(cmap, 2, 2).min(cmap.len().saturating_sub(4) / 8);
        for i in 0..count {
            if let Some(offset) = offset_of(cmap, i) {
                return Some(Sequences {
                    table: &cmap[offset..],
                });
            }
        }
        None
    }

    /// Returns what the font says of a character with a variation selector, or `None` if it does not have the sequence.
    ///
    /// The Default UVS table counts first. The search is linear: it takes at most as many steps as the selector's two tables
    /// have entries, and as there are selectors.
    #[tactic(auto, using(crate::proofs::Finding::told, crate::proofs::Finding::no_record))]
    pub fn get(&self, char: u32, selector: u32) -> Option<Sequence>
        // What the table says of the sequence, or `None` exactly if it does not have it.
        ensures { MatchOption result
            (HasNone (table_of self.now) char selector)
            (λ sequence. Says (table_of self.now) char selector sequence) }
    {
        let i = record_of(self.table, selector as usize)?;
        let mut cursor = Cursor {
            range: 0,
            mapping: 0,
        };
        look_up(self.table, i, &mut cursor, char as usize)
    }

    /// Returns whether a limit suffices for some characters: [`Sequences::glyphs_of`] and [`Sequences::kept`] do not return
    /// `TooLong` with it.
    ///
    /// A record needs a unit, and one for each of the characters and for each range and mapping of its tables.
    #[tactic(auto, using(crate::proofs::Spending::units_next))]
    pub fn is_enough(&self, limit: u64, chars: &[u32]) -> bool
        // True exactly if all records together need at most as many units as the limit has.
        ensures { IsTrue result ↔ (units_of (table_of self.now) (length chars.now) ≤ limit) }
    {
        let mut left = limit;
        for i in 0..records(self.table) {
            let units = units(self.table, i, chars.len());
            if left < units {
                return false;
            }
            left -= units;
        }
        true
    }

    /// Returns the glyphs that sequences of some characters have, with any variation selector. A subset that has these
    /// characters needs them. Glyphs may be there several times.
    ///
    /// It costs a unit for each record and for each of its characters, and one for each range and mapping that is passed.
    ///
    /// # Errors
    ///
    /// - `Memory`: out of memory.
    /// - `TooLong`: the search costs more than the limit.
    #[tactic(auto, using(crate::proofs::Glyphs::glyphs_are))]
    pub fn glyphs_of(&self, alloc: Global, chars: &[u32], limit: &mut u64) -> Result<Vec<u16>>
        requires { AreAscending chars.now }
        // The list has exactly the glyphs of these characters' sequences that are not default ones.
        ensures exact { IfOk result (λ glyphs. (glyph : ℕ) → Contains glyphs.items glyph ↔ IsGlyphOf (table_of self.now) chars.now glyph) }
        // The limit never grows.
        ensures spends { limit.new ≤ limit.old }
        // `TooLong` comes only if the limit is lower than `units_of` for these characters.
        ensures lacking { IfErr result (λ e. e ≡ errors.TooLong → limit.old < units_of (table_of self.now) (length chars.now)) }
        // An error is `Memory`, or `TooLong` with nothing left of the limit.
        ensures why { IfErr result (λ e. Fails limit.new e) }
    {
        let parts = parts_of(alloc, self.table, chars, limit)?;
        let mut glyphs = Vec::new(alloc);
        for part in &parts {
            put_glyphs(&mut glyphs, &part.mapped)?;
        }
        Ok(glyphs)
    }

    /// Returns a new subtable with the sequences of some characters, under new glyph numbers.
    ///
    /// `glyphs` has the old glyph of each new glyph. A sequence is dropped if its glyph is not kept, so keep the glyphs of
    /// [`Sequences::glyphs_of`]. Selectors, characters and ranges are in ascending order, and each range has one character.
    /// A table without sequences has 10 bytes and no record.
    ///
    /// It costs as much as `glyphs_of`.
    ///
    /// # Errors
    ///
    /// - `Memory`: out of memory.
    /// - `TooLong`: the search costs more than the limit.
    /// - `TooLarge`: there are more than 65,536 glyphs, or the new table has 4,294,967,296 bytes or more.
    pub fn kept(
        &self,
        alloc: Global,
        chars: &[u32],
        glyphs: &[u16],
        limit: &mut u64,
    ) -> Result<Vec<u8>>
        requires { AreAscending chars.now }
        // The new table has exactly the sequences of these characters whose glyphs are kept.
        ensures exact { IfOk result (λ new. Keeps (table_of self.now) chars.now glyphs.now new.items) }
        // It has as many bytes as these sequences need. Each range has one character.
        ensures size { IfOk result (λ new. NeedsBytes (table_of self.now) chars.now glyphs.now (length new.items)) }
        // It has fewer than 2^32 bytes.
        ensures small { IfOk result (λ new. length new.items < 2 ^ 32) }
        // There are at most 65,536 glyphs.
        ensures few { OnOk result (length glyphs.now ≤ 65536) }
        // The limit never grows.
        ensures spends { limit.new ≤ limit.old }
        // `TooLong` comes only if the limit is lower than `units_of` for these characters.
        ensures lacking { IfErr result (λ e. e ≡ errors.TooLong → limit.old < units_of (table_of self.now) (length chars.now)) }
        // `TooLarge` comes only for more than 65,536 glyphs, or if the sequences need 2^32 bytes.
        ensures large { IfErr result (λ e. e ≡ errors.TooLarge →
            IsTooLarge (table_of self.now) chars.now glyphs.now) }
        // `TooLong` leaves nothing of the limit.
        ensures why { IfErr result (λ e. KeepFails limit.new e) }
    {
        if glyphs.len() > GLYPHS {
            return Err(Error::TooLarge);
        }
        let parts = parts_of(alloc, self.table, chars, limit)?;
        let numbers = numbers_of(alloc, glyphs)?;
        let kept = kept_parts(alloc, glyphs, &numbers, &parts)?;
        write_subtable(alloc, &kept)
    }
}

/// Returns whether characters are in ascending order, without duplicates, as [`Sequences::glyphs_of`] needs them.
pub fn is_ascending(chars: &[u32]) -> bool
    // True exactly if each character is lower than all later ones.
    ensures { IsTrue result ↔ AreAscending chars.now }
{
    for i in 1..chars.len() {
        if chars[i] <= chars[i - 1] {
            return false;
        }
    }
    true
}

/// Returns the offset of the subtable of a record, if it has platform 0, encoding 5 and format 14.
fn offset_of(cmap: &[u8], i: usize) -> Option<usize>
    requires small { i < 65536 }
    ensures { MatchOption result
        (IsOfFormat cmap.now i → ⊥)
        (λ offset. IsOfFormat cmap.now i × (offset ≡ offset_at cmap.now i) × (offset ≤ length cmap.now)) }
{
    let record = 4 + i * 8;
    if number(cmap, record, 2) != 0 || number(cmap, record + 2, 2) != 5 {
        return None;
    }
    let offset = number(cmap, record + 4, 4);
    if number(cmap, offset, 2) == 14 {
        Some(offset)
    } else {
        None
    }
}
