//! The new numbers of the kept glyphs.
ghost use Rattle.std.specs.Prelude.{◌≡◌, ◌<◌, ℕ, None, length, slice_index_or, IfErr, IfOk};
ghost use Rattle.postscript_kern.specs.Renumbering.{AreNumbers, new_pair as the_new_pair};
ghost use Rattle.postscript_kern.specs.declared.error.Error.TheVariants as errors;

use crate::error::Result;
use std::alloc::Global;

/// Returns a list of no numbers.
fn no_numbers(alloc: Global, count: usize) -> Result<Vec<Option<usize>>>
    ensures many { IfOk result (λ numbers. length numbers.items ≡ count) }
    ensures none { IfOk result (λ numbers. (k : ℕ) → k < count → slice_index_or numbers.items k None ≡ None) }
    ensures memory { IfErr result (λ e. e ≡ errors.Memory) }
{
    let numbers = vec![in alloc; None; count]?;
    Ok(numbers)
}

/// Returns the new number of each old glyph: its first index among the kept glyphs.
pub(crate) fn new_numbers(alloc: Global, kept: &[u16]) -> Result<Vec<Option<usize>>>
    ensures exact { IfOk result (λ numbers. AreNumbers kept.now numbers.items) }
    ensures memory { IfErr result (λ e. e ≡ errors.Memory) }
{
    let mut numbers = no_numbers(alloc, 65536)?;
    for k in 0..kept.len() {
        let glyph = kept[k] as usize;
        if numbers[glyph].is_none() {
            numbers[glyph] = Some(k);
        }
    }
    Ok(numbers)
}

/// Returns the number of a pair of glyphs under their new numbers, if both are kept.
pub(crate) fn new_pair(
    kept: &[u16],
    numbers: &[Option<usize>],
    left: usize,
    right: usize,
) -> Option<u32>
    requires few { length kept.now < 65536 }
    requires exact { AreNumbers kept.now numbers.now }
    requires left { left < 65536 }
    requires right { right < 65536 }
    ensures { result ≡ the_new_pair kept.now left right }
{
    let _ = kept;
    match (numbers[left], numbers[right]) {
        (Some(x), Some(y)) => Some(x as u32 * 65536 + y as u32),
        _ => None,
    }
}
