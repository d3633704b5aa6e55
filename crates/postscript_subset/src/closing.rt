//! The glyphs that substitutions can make of the glyphs of a choice.
ghost use Rattle.std.specs.Prelude.{◌≡◌, ◌⊎◌, ◌++◌, ◌∷◌, [], ◌<◌, ◌≤◌, IfOk, IfErr, OnOk};
ghost use Rattle.postscript_subset.specs.Closing.{AreClosed, AreExtended, IsClosingError, IsUnopenedFace, with_notdef, below as the_below};
ghost use Rattle.postscript_files.specs.Origins.{AreSmall};
ghost use Rattle.postscript_layout_write.specs.Reached.{AreReached};
ghost use Rattle.postscript_subset.specs.Refusals.{IsSearched, IsWide};
ghost use Rattle.postscript_files.specs.declared.error.Error.TheVariants as causes;
ghost use Rattle.postscript_subset.specs.declared.error.Error.TheVariants as errors;

use crate::error::{Error, Result};
use crate::features::Features;
use postscript_files::{Choice, Face};
use postscript_layout_write::{Error as Fault, Reached, closure_with_called};
use std::alloc::Global;

/// Returns glyph numbers in 16 bits.
pub(crate) fn narrow(alloc: Global, glyphs: &[usize]) -> Result<Vec<u16>>
    ensures same { IfOk result (λ narrow. narrow.items ≡ glyphs.now) }
    ensures why { IfErr result (λ e. IsWide glyphs.now e) }
{
    let mut narrow = Vec::new(alloc);
    for glyph in glyphs {
        if *glyph > 65535 {
            return Err(Error::LargeGlyph(*glyph));
        }
        narrow.push(*glyph as u16)?;
    }
    Ok(narrow)
}

/// Returns the glyphs below a number.
pub(crate) fn glyphs_below(alloc: Global, glyphs: &[u16], count: usize) -> Result<Vec<usize>>
    ensures below { IfOk result (λ found. found.items ≡ the_below count glyphs.now) }
    ensures memory { IfErr result (λ e. e ≡ errors.File causes.Memory) }
{
    let mut found = Vec::new(alloc);
    for glyph in glyphs {
        if usize::from(*glyph) < count {
            found.push(usize::from(*glyph))?;
        }
    }
    Ok(found)
}

/// Adds the glyphs of variation sequences.
fn put_varied(named: &mut Vec<u16>, varied: &[usize]) -> Result<()>
    requires small { AreSmall varied.now }
    ensures put { OnOk result (named.new.items ≡ named.old.items ++ varied.now) }
    ensures memory { IfErr result (λ e. e ≡ errors.File causes.Memory) }
{
    for i in 0..varied.len() {
        named.push(varied[i] as u16)?;
    }
    Ok(())
}

/// Adds `.notdef` to named glyphs, if there are any.
fn put_notdef(named: &mut Vec<u16>) -> Result<()>
    ensures put { OnOk result (named.new.items ≡ with_notdef named.old.items) }
    ensures memory { IfErr result (λ e. e ≡ errors.File causes.Memory) }
{
    if !named.is_empty() {
        named.push(0)?;
    }
    Ok(())
}

/// Returns lookups of a `GSUB` table with those that their contexts call, and the glyphs that all of these can make.
fn called_lookups(
    alloc: Global,
    gsub: &[u8],
    lookups: &[u16],
    glyphs: &[u16],
    limit: &mut u64,
) -> Result<Reached>
    ensures reached { IfOk result (λ all. AreReached gsub.now lookups.now glyphs.now all.lookups.items all.glyphs.items) }
    ensures spends { limit.new ≤ limit.old }
    ensures why { IfErr result (λ e. IsSearched limit.new e) }
{
    match closure_with_called(alloc, gsub, lookups, glyphs, limit) {
        Ok(all) => Ok(all),
        Err(Fault::TooLong) => Err(Error::TooLong),
        Err(_) => Err(Error::File(postscript_files::Error::Memory)),
    }
}

/// Returns the lookups of the features, with those that their contexts call, and the glyphs that all of these can make of the
/// named glyphs, the glyphs of variation sequences, and `.notdef`. There are no glyphs if none is named.
pub(crate) fn close(
    alloc: Global,
    face: &Face<'_>,
    choice: &Choice<'_>,
    features: &Features<'_>,
    gsub: &[u8],
    limit: &mut u64,
) -> Result<Reached>
    ensures closed { IfOk result (λ closed. AreClosed choice.now features.now face.now gsub.now closed.lookups.items closed.glyphs.items) }
    ensures spends { limit.new ≤ limit.old }
    ensures why { IfErr result (λ e. IsClosingError choice.now face.now limit.new e) }
{
    let named = face.named_glyphs(alloc, choice)?;
    let varied = face.sequence_glyphs(alloc, choice)?;
    let mut glyphs = narrow(alloc, &named)?;
    put_varied(&mut glyphs, &varied)?;
    put_notdef(&mut glyphs)?;
    let chosen = features.lookups_in(alloc, gsub, limit)?;
    let all = called_lookups(alloc, gsub, &chosen, &glyphs, limit)?;
    Ok(all)
}

/// Returns the further glyphs of a choice, and those of a list that a face has.
pub(crate) fn with_further_glyphs(
    alloc: Global,
    face: &Face<'_>,
    choice: &Choice<'_>,
    glyphs: &[u16],
) -> Result<Vec<usize>>
    ensures extended { IfOk result (λ all. AreExtended face.now choice.now.unmapped.now glyphs.now all.items) }
    ensures why { IfErr result (λ e. IsUnopenedFace face.now e) }
{
    let count = face.number_of_glyphs(alloc)?;
    let added = glyphs_below(alloc, glyphs, count)?;
    let mut all = Vec::from_slice(alloc, choice.unmapped)?;
    all.extend_from_slice(&added)?;
    Ok(all)
}
