//! The variation sequences of a subset (ISO/IEC 14496-22, 5.2.1, "Format 14").
ghost use Rattle.std.specs.Prelude.{◌≡◌, ◌↔◌, ◌⊎◌, ℕ, ◌+◌, ◌<◌, ◌≤◌, length, IfErr, IfOk, IfSome, IfNone, MatchOption};
ghost use Rattle.std.specs.List.{Contains};
ghost use Rattle.postscript_base.specs.Index.{number_at};
ghost use Rattle.postscript_sequences.specs.Keeps.{Keeps};
ghost use Rattle.postscript_sequences.specs.Sequences.{AreAscending, IsGlyphOf, table_of};
ghost use Rattle.postscript_sfnt_write.specs.Mappings.{CharsRise};
ghost use Rattle.postscript_sfnt_write.specs.Records.{HasRecords};
ghost use Rattle.postscript_sfnt_write.specs.Sequences.{AreClosed};
ghost use Rattle.postscript_files.specs.Origins.{AreFew, AreSmall};
ghost use Rattle.postscript_files.specs.Sequences.{HasNoSequences, IsAdded, IsFirstIndex, IsKept, IsMapLike, IsSequenceGlyph, IsSequencesOf, IsTooLong, KeepsSequences, chars_of as the_chars};
ghost use Rattle.postscript_files.specs.declared.error.Error.TheVariants as errors;

use crate::error::{Error, Result};
use postscript_sequences::Sequences;
use postscript_sfnt_write::{Mapping, with_sequences};
use std::alloc::Global;

/// The units that the variation sequences of a subset may cost. For each variation selector these are a unit, and one for each
/// character of the subset and for each range and mapping of the selector.
const LIMIT: u64 = 20_000_000;

/// The size of a subtable with one record.
const ONE: usize = 21;

/// Returns the characters of mappings.
fn chars_of(alloc: Global, pairs: &[Mapping]) -> Result<Vec<u32>>
    ensures chars { IfOk result (λ chars. chars.items ≡ the_chars pairs.now) }
    ensures memory { IfErr result (λ e. e ≡ errors.Memory) }
{
    let mut chars = Vec::new(alloc);
    for pair in pairs {
        chars.push(pair.char)?;
    }
    Ok(chars)
}

/// Returns numbers of glyphs without their bound.
fn wide(alloc: Global, glyphs: &[u16]) -> Result<Vec<usize>>
    ensures same { IfOk result (λ wide. wide.items ≡ glyphs.now) }
    ensures small { IfOk result (λ wide. AreSmall wide.items) }
    ensures memory { IfErr result (λ e. e ≡ errors.Memory) }
{
    let mut wide = Vec::new(alloc);
    for glyph in glyphs {
        wide.push(usize::from(*glyph))?;
    }
    Ok(wide)
}

/// Returns numbers of glyphs, which are below 65,536.
fn narrow(alloc: Global, glyphs: &[usize]) -> Result<Vec<u16>>
    requires { AreFew glyphs.now }
    ensures same { IfOk result (λ narrow. narrow.items ≡ glyphs.now) }
    ensures memory { IfErr result (λ e. e ≡ errors.Memory) }
{
    let mut narrow = Vec::new(alloc);
    for i in 0..glyphs.len() {
        narrow.push(glyphs[i] as u16)?;
    }
    Ok(narrow)
}

/// Finds the sequences of a `cmap` table.
fn find_sequences(cmap: &[u8]) -> Option<Sequences<'_>>
    ensures { MatchOption result (HasNoSequences cmap.now) (λ sequences. IsSequencesOf cmap.now (table_of sequences)) }
{
    Sequences::find(cmap)
}

/// Finds the sequences of a `cmap` table, unless the search for these characters exceeds the limit.
#[tactic(auto, using(crate::proofs::Varied::not_long))]
fn find_within<'l>(cmap: &'l [u8], chars: &[u32]) -> Option<Sequences<'l>>
    ensures some { IfSome result (λ sequences. IsSequencesOf cmap.now (table_of sequences) × (IsTooLong cmap.now chars.now → ⊥)) }
    ensures none { IfNone result (HasNoSequences cmap.now ⊎ IsTooLong cmap.now chars.now) }
{
    let sequences = find_sequences(cmap)?;
    if sequences.is_enough(LIMIT, chars) {
        Some(sequences)
    } else {
        None
    }
}

/// Returns the glyphs of the sequences of characters.
fn glyphs_of(alloc: Global, sequences: &Sequences<'_>, chars: &[u32]) -> Result<Vec<usize>>
    requires { AreAscending chars.now }
    ensures exact { IfOk result (λ glyphs. (glyph : ℕ) →
        Contains glyphs.items glyph ↔ IsGlyphOf (table_of sequences.now) chars.now glyph) }
    ensures small { IfOk result (λ glyphs. AreSmall glyphs.items) }
    ensures memory { IfErr result (λ e. e ≡ errors.Memory) }
{
    let mut limit = LIMIT;
    match sequences.glyphs_of(alloc, chars, &mut limit) {
        Ok(glyphs) => wide(alloc, &glyphs),
        // It is out of memory: the limit is enough.
        Err(_) => Err(Error::Memory),
    }
}

/// Returns the glyphs that the variation sequences of characters have in a `cmap` table. There are none if the sequences
/// cost more than the limit.
#[tactic(auto, using(crate::proofs::Varied::no_glyph))]
pub(crate) fn sequence_glyphs(alloc: Global, cmap: &[u8], pairs: &[Mapping]) -> Result<Vec<usize>>
    requires { CharsRise pairs.now }
    // The list has exactly the glyphs of sequences of these characters, or none if the sequences exceed the limit.
    ensures exact { IfOk result (λ glyphs. (glyph : ℕ) →
        Contains glyphs.items glyph ↔ IsSequenceGlyph cmap.now (the_chars pairs.now) glyph) }
    // Each is below 65,536.
    ensures small { IfOk result (λ glyphs. AreSmall glyphs.items) }
    // The only error is `Memory`.
    ensures memory { IfErr result (λ e. e ≡ errors.Memory) }
{
    let chars = chars_of(alloc, pairs)?;
    match find_within(cmap, &chars) {
        Some(sequences) => glyphs_of(alloc, &sequences, &chars),
        None => Ok(Vec::new(alloc)),
    }
}

/// Returns the subtable of the sequences of characters under new numbers.
fn kept_subtable(
    alloc: Global,
    sequences: &Sequences<'_>,
    chars: &[u32],
    glyphs: &[u16],
) -> Result<Vec<u8>>
    requires { AreAscending chars.now }
    ensures exact { IfOk result (λ new. Keeps (table_of sequences.now) chars.now glyphs.now new.items) }
    ensures memory { IfErr result (λ e. e ≡ errors.Memory) }
{
    let mut limit = LIMIT;
    match sequences.kept(alloc, chars, glyphs, &mut limit) {
        Ok(new) => Ok(new),
        // It is out of memory: the limit is enough, there are fewer than 65,536 glyphs, and no table has 2^32 bytes.
        Err(_) => Err(Error::Memory),
    }
}

/// Returns the subtable of the sequences of characters under new numbers. It is empty if there are no sequences, or if they
/// cost more than the limit.
fn subtable_of(alloc: Global, cmap: &[u8], pairs: &[Mapping], origins: &[usize]) -> Result<Vec<u8>>
    requires rise { CharsRise pairs.now }
    requires few { AreFew origins.now }
    ensures kept { IfOk result (λ new. IsKept cmap.now (the_chars pairs.now) origins.now new.items) }
    ensures memory { IfErr result (λ e. e ≡ errors.Memory) }
{
    let chars = chars_of(alloc, pairs)?;
    match find_within(cmap, &chars) {
        Some(sequences) => {
            let glyphs = narrow(alloc, origins)?;
            kept_subtable(alloc, &sequences, &chars, &glyphs)
        }
        None => Ok(Vec::new(alloc)),
    }
}

/// Adds a subtable to a written `cmap` table, if it has room for a record.
fn add_subtable(alloc: Global, plain: Vec<u8>, subtable: &[u8]) -> Result<Vec<u8>>
    requires closed { AreClosed plain.items }
    requires format { 21 ≤ length subtable.now → number_at subtable.now 0 2 ≡ 14 }
    ensures added { IfOk result (λ cmap. IsAdded plain.items subtable.now cmap.items) }
    ensures map { IfOk result (λ cmap. IsMapLike plain.items cmap.items) }
    ensures size { IfOk result (λ cmap. length cmap.items ≤ length plain.items + 8 + length subtable.now) }
    ensures memory { IfErr result (λ e. e ≡ errors.Memory) }
{
    if subtable.len() < ONE {
        return Ok(plain);
    }
    match with_sequences(alloc, &plain, subtable) {
        Ok(cmap) => Ok(cmap),
        // It is out of memory: the table is not cut, and at the limit no table has 2^32 bytes.
        Err(_) => Err(Error::Memory),
    }
}

/// Adds the variation sequences of characters to a written `cmap` table, under the first indices of their glyphs in a list.
/// They are dropped if they cost more than the limit.
pub(crate) fn with_kept(
    alloc: Global,
    old: &[u8],
    pairs: &[Mapping],
    glyphs: &[usize],
    plain: Vec<u8>,
) -> Result<Vec<u8>>
    requires rise { CharsRise pairs.now }
    requires few { AreFew glyphs.now }
    requires closed { AreClosed plain.items }
    requires records { HasRecords plain.items }
    // The new table has exactly the sequences of these characters, under new numbers, or none if they exceed the limit.
    ensures sequences { IfOk result (λ cmap. KeepsSequences old.now (the_chars pairs.now) (IsFirstIndex glyphs.now) cmap.items) }
    // Its other subtables are those of the written table.
    ensures map { IfOk result (λ cmap. IsMapLike plain.items cmap.items) }
    // The only error is `Memory`.
    ensures memory { IfErr result (λ e. e ≡ errors.Memory) }
{
    let subtable = subtable_of(alloc, old, pairs, glyphs)?;
    add_subtable(alloc, plain, &subtable)
}
