//! The sequences of some characters, by variation selectors.
ghost use Rattle.std.specs.Prelude.{◌≡◌, ℕ, ◌+◌, ◌^◌, ◌<◌, ◌≤◌, ◌++◌, IfErr, IfOk, OnOk, OnErr, length, map};
ghost use Rattle.postscript_sequences.specs.Parts.{AreParts, IsPart};
ghost use Rattle.postscript_sequences.specs.Private.{IsPut};
ghost use Rattle.postscript_sequences.specs.Refusals.{Fails};
ghost use Rattle.postscript_sequences.specs.Sequences.{AreAscending};
ghost use Rattle.postscript_sequences.specs.Tables.{records_of};
ghost use Rattle.postscript_sequences.specs.Units.{record_units, units_of};
ghost use Rattle.postscript_sequences.specs.declared.error.Error.TheVariants as errors;

use crate::arrays::{records, selector};
use crate::error::Result;
use crate::numbers::pay;
use crate::said::{Cursor, look_up_within};
use crate::sequences::Sequence;
use std::alloc::Global;

/// The sequences of a variation selector: the characters of its default sequences, and the others with their glyphs.
#[derive(Drop)]
pub(crate) struct Part {
    pub(crate) selector: u32,
    pub(crate) defaults: Vec<u32>,
    pub(crate) mapped: Vec<(u32, u16)>,
}

impl Part {
    /// Adds a sequence of a character, if there is one.
    fn put(&mut self, char: u32, sequence: Option<Sequence>) -> Result<()>
        ensures put { OnOk result (IsPut self.old char sequence self.new) }
        ensures memory { IfErr result (λ e. e ≡ errors.Memory) }
    {
        match sequence {
            Some(Sequence::Default) => self.defaults.push(char)?,
            Some(Sequence::Glyph(glyph)) => self.mapped.push((char, glyph))?,
            None => {}
        }
        Ok(())
    }
}

/// Returns the sequences of characters that a record has.
fn part_of(alloc: Global, table: &[u8], i: usize, chars: &[u32], limit: &mut u64) -> Result<Part>
    requires small { i < 2 ^ 32 }
    requires ascending { AreAscending chars.now }
    ensures are { IfOk result (λ part. IsPart table.now i chars.now part) }
    ensures spends { limit.new ≤ limit.old }
    ensures most { OnOk result (limit.old + 1 ≤ limit.new + record_units table.now (length chars.now) i) }
    ensures lacking { IfErr result (λ e. e ≡ errors.TooLong → limit.old + 1 < record_units table.now (length chars.now) i) }
    ensures why { IfErr result (λ e. Fails limit.new e) }
{
    let mut part = Part {
        selector: selector(table, i) as u32,
        defaults: Vec::new(alloc),
        mapped: Vec::new(alloc),
    };
    let mut cursor = Cursor {
        range: 0,
        mapping: 0,
    };
    for char in chars {
        let sequence = look_up_within(table, i, &mut cursor, *char as usize, limit)?;
        part.put(*char, sequence)?;
    }
    Ok(part)
}

/// Returns the sequences of characters that the records have.
pub(crate) fn parts_of(
    alloc: Global,
    table: &[u8],
    chars: &[u32],
    limit: &mut u64,
) -> Result<Vec<Part>>
    requires { AreAscending chars.now }
    ensures are { IfOk result (λ parts. AreParts table.now chars.now (records_of table.now) parts.items) }
    ensures spends { limit.new ≤ limit.old }
    ensures lacking { IfErr result (λ e. e ≡ errors.TooLong → limit.old < units_of table.now (length chars.now)) }
    ensures why { IfErr result (λ e. Fails limit.new e) }
{
    let mut parts = Vec::new(alloc);
    let mut next = 0;
    for i in 0..records(table) {
        pay(limit, 1)?;
        let selector = selector(table, i);
        if selector >= next {
            let part = part_of(alloc, table, i, chars, limit)?;
            parts.push(part)?;
            next = selector + 1;
        }
    }
    Ok(parts)
}

/// Adds the glyphs of characters.
pub(crate) fn put_glyphs(glyphs: &mut Vec<u16>, mapped: &[(u32, u16)]) -> Result<()>
    ensures put { OnOk result (glyphs.new.items ≡ glyphs.old.items ++ map (λ one. one.1) mapped.now) }
    ensures memory { IfErr result (λ e. e ≡ errors.Memory) }
{
    for (_, glyph) in mapped {
        glyphs.push(*glyph)?;
    }
    Ok(())
}
