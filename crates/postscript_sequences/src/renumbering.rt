//! Sequences under new glyph numbers.
ghost use Rattle.std.specs.Prelude.{◌≡◌, ◌<◌, ◌≤◌, ℕ, Bool, IsTrue, List, None, [], length, option_map, slice_index_or, IfErr, IfOk, MatchBool};
ghost use Rattle.postscript_sequences.specs.Numbers.{new_number};
ghost use Rattle.postscript_sequences.specs.Keeping.{AreKept, IsEmpty, IsRenumbered};
ghost use Rattle.postscript_sequences.specs.Private.{AreNumbers};
ghost use Rattle.postscript_sequences.specs.declared.error.Error.TheVariants as errors;

use crate::error::Result;
use crate::parts::Part;
use std::alloc::Global;

/// The number of glyph numbers.
pub(crate) const GLYPHS: usize = 65536;

/// Returns a list of no numbers.
fn no_numbers(alloc: Global, count: usize) -> Result<Vec<Option<u16>>>
    ensures many { IfOk result (λ numbers. length numbers.items ≡ count) }
    ensures none { IfOk result (λ numbers. (k : ℕ) → k < count → slice_index_or numbers.items k None ≡ None) }
    ensures memory { IfErr result (λ e. e ≡ errors.Memory) }
{
    let numbers = vec![in alloc; None; count]?;
    Ok(numbers)
}

/// Returns the new number of each old glyph: its first index among the glyphs.
pub(crate) fn numbers_of(alloc: Global, glyphs: &[u16]) -> Result<Vec<Option<u16>>>
    requires few { length glyphs.now ≤ 65536 }
    ensures exact { IfOk result (λ numbers. AreNumbers glyphs.now numbers.items) }
    ensures memory { IfErr result (λ e. e ≡ errors.Memory) }
{
    let mut numbers = no_numbers(alloc, GLYPHS)?;
    for k in 0..glyphs.len() {
        let glyph = glyphs[k] as usize;
        if numbers[glyph].is_none() {
            numbers[glyph] = Some(k as u16);
        }
    }
    Ok(numbers)
}

/// Returns the new number of a glyph.
fn number_of(glyphs: &[u16], numbers: &[Option<u16>], glyph: u16) -> Option<u16>
    requires { AreNumbers glyphs.now numbers.now }
    ensures { result ≡ new_number glyphs.now glyph }
{
    let _ = glyphs;
    numbers[glyph as usize]
}

/// Returns a part under new glyph numbers. Sequences whose glyphs have none are dropped.
fn renumber_part(
    alloc: Global,
    glyphs: &[u16],
    numbers: &[Option<u16>],
    part: &Part,
) -> Result<Part>
    requires few { length glyphs.now ≤ 65536 }
    requires exact { AreNumbers glyphs.now numbers.now }
    ensures exact { IfOk result (λ new. IsRenumbered glyphs.now part.now new) }
    ensures memory { IfErr result (λ e. e ≡ errors.Memory) }
{
    let defaults = Vec::from_slice(alloc, &part.defaults)?;
    let mut mapped = Vec::new(alloc);
    for (char, glyph) in &part.mapped {
        match number_of(glyphs, numbers, *glyph) {
            Some(number) => mapped.push((*char, number))?,
            None => {}
        }
    }
    Ok(Part {
        selector: part.selector,
        defaults,
        mapped,
    })
}

/// Returns whether a part has sequences.
fn has_sequences(part: &Part) -> bool
    ensures { MatchBool result (IsEmpty part.now → ⊥) (IsEmpty part.now) }
{
    !part.defaults.is_empty() || !part.mapped.is_empty()
}

/// Returns the parts under new glyph numbers, without those that have no sequences.
pub(crate) fn kept_parts(
    alloc: Global,
    glyphs: &[u16],
    numbers: &[Option<u16>],
    parts: &[Part],
) -> Result<Vec<Part>>
    requires few { length glyphs.now ≤ 65536 }
    requires exact { AreNumbers glyphs.now numbers.now }
    ensures exact { IfOk result (λ kept. AreKept glyphs.now parts.now kept.items) }
    ensures memory { IfErr result (λ e. e ≡ errors.Memory) }
{
    let mut kept = Vec::new(alloc);
    for part in parts {
        let new = renumber_part(alloc, glyphs, numbers, part)?;
        if has_sequences(&new) {
            kept.push(new)?;
        }
    }
    Ok(kept)
}
