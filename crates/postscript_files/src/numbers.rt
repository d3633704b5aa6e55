//! The new numbers of glyphs.
ghost use Rattle.std.specs.Prelude.{◌≡◌, ℕ, ◌<◌, ◌≤◌, ◌^◌, length, slice_index_or, slice_set, IfOk, IfErr, OnOk};
ghost use Rattle.postscript_files.specs.Origins.{AreFew};
ghost use Rattle.postscript_files.specs.Renumbered.{AreBelow, AreNumbersOf, AreRenumbered, AreSpread};
ghost use Rattle.postscript_files.specs.declared.error.Error.TheVariants as errors;

use crate::error::Result;
use postscript_sfnt_write::Mapping;
use std::alloc::Global;

/// Returns the least number above all origins.
fn least_above(origins: &[usize]) -> usize
    requires few { AreFew origins.now }
    ensures { AreBelow origins.now result }
{
    let mut above = 0usize;
    for i in 0..origins.len() {
        above = above.max(origins[i] + 1);
    }
    above
}

/// Returns the new number of each old glyph that is in the new font.
pub(crate) fn numbers_of(alloc: Global, origins: &[usize]) -> Result<Vec<u16>>
    requires few { AreFew origins.now }
    ensures numbers { IfOk result (λ numbers. AreNumbersOf origins.now numbers.items) }
    ensures memory { IfErr result (λ e. e ≡ errors.Memory) }
{
    let mut numbers = vec![in alloc; 0u16; least_above(origins)]?;
    for i in 0..origins.len() {
        numbers[origins[i]] = i as u16;
    }
    Ok(numbers)
}

/// Returns the new number of a glyph.
fn number_of(numbers: &[u16], glyph: u16) -> u16
    ensures { result ≡ slice_index_or numbers.now glyph 0 }
{
    let glyph = usize::from(glyph);
    if glyph < numbers.len() {
        numbers[glyph]
    } else {
        0
    }
}

/// Returns characters with the new numbers of their glyphs.
pub(crate) fn with_new_numbers(
    alloc: Global,
    pairs: &[Mapping],
    numbers: &[u16],
) -> Result<Vec<Mapping>>
    ensures renumbered { IfOk result (λ all. AreRenumbered pairs.now numbers.now all.items) }
    ensures memory { IfErr result (λ e. e ≡ errors.Memory) }
{
    let mut all = Vec::new(alloc);
    for pair in pairs {
        all.push(Mapping {
            char: pair.char,
            glyph: number_of(numbers, pair.glyph),
        })?;
    }
    Ok(all)
}

/// Sets the item at the index of a glyph to the glyph, if there is one.
fn place(all: &mut Vec<usize>, glyph: usize)
    ensures { all.new.items ≡ slice_set all.old.items glyph glyph }
{
    if glyph < all.len() {
        all[glyph] = glyph;
    }
}

/// Returns this number of items. Each of these glyphs is at its own index, and the other items are 0.
pub(crate) fn spread(alloc: Global, glyphs: &[usize], count: usize) -> Result<Vec<usize>>
    ensures spread { IfOk result (λ all. AreSpread glyphs.now count all.items) }
    ensures memory { IfErr result (λ e. e ≡ errors.Memory) }
{
    let mut all = vec![in alloc; 0usize; count]?;
    for glyph in glyphs {
        place(&mut all, *glyph);
    }
    Ok(all)
}
