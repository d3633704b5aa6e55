//! The new numbers of the kept glyphs.
ghost use Rattle.std.specs.Prelude.{◌≡◌, ◌<◌, ℕ, None, length, option_map, slice_index_or, IfErr, IfOk};
ghost use Rattle.postscript_layout_write.specs.Renumbering.{AreNumbers, renumbered as the_renumbered};
ghost use Rattle.postscript_layout_write.specs.declared.error.Error.TheVariants as errors;

use crate::error::Result;
use std::alloc::Global;

/// Returns a list of no numbers.
fn no_numbers(alloc: Global, count: usize) -> Result<Vec<Option<usize>>>
    ensures many { IfOk result (λ numbers. length numbers.items ≡ count) }
    ensures none { IfOk result (λ numbers. (k : ℕ) → k < count → slice_index_or numbers.items k None ≡ None) }
    ensures memory { IfErr result (λ e. e ≡ errors.Memory) }
{
    let numbers = vec![in alloc; None; count]?;
    Ok(numbers)
}

/// Returns the new number of each old glyph: its first index among the kept glyphs.
pub(crate) fn new_numbers(alloc: Global, kept: &[u16]) -> Result<Vec<Option<usize>>>
    ensures exact { IfOk result (λ numbers. AreNumbers kept.now numbers.items) }
    ensures memory { IfErr result (λ e. e ≡ errors.Memory) }
{
    let mut numbers = no_numbers(alloc, 65536)?;
    for k in 0..kept.len() {
        let glyph = kept[k] as usize;
        if numbers[glyph].is_none() {
            numbers[glyph] = Some(k);
        }
    }
    Ok(numbers)
}

/// Returns glyphs under their new numbers, if all of them are kept.
pub(crate) fn renumber(
    alloc: Global,
    kept: &[u16],
    numbers: &[Option<usize>],
    glyphs: &[u16],
) -> Result<Option<Vec<u16>>>
    requires few { length kept.now < 65536 }
    requires exact { AreNumbers kept.now numbers.now }
    ensures exact { IfOk result (λ new. option_map (λ v. v.items) new ≡ the_renumbered kept.now glyphs.now) }
    ensures memory { IfErr result (λ e. e ≡ errors.Memory) }
{
    let _ = kept;
    let mut new = Vec::new(alloc);
    for glyph in glyphs {
        match numbers[*glyph as usize] {
            Some(number) => new.push(number as u16)?,
            None => return Ok(None),
        }
    }
    Ok(Some(new))
}
