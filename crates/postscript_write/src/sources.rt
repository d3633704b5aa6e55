//! The source glyphs of a new font.
ghost use Rattle.std.specs.Prelude.{◌≡◌, ◌<◌, ◌==◌, ◌||◌, ◌++◌, ℕ, [], ◌∷◌, Some, None, false, length, map, slice_index_or, if◌then◌else◌, IfOk, IfErr, OnOk};
ghost use Rattle.postscript_base.specs.declared.error.Error.TheVariants as causes;
ghost use Rattle.postscript_write.specs.Sources.{AreMarks, AreThere, choice_by, chosen as the_chosen, every as the_every, keeping as the_keeping, kept_of as the_kept};
ghost use Rattle.postscript_write.specs.Steps.{IsNotChosen};
ghost use Rattle.postscript_write.specs.declared.error.Error.TheVariants as errors;

use crate::error::{Error, Result};
use std::alloc::Global;

/// All glyphs of a font.
pub(crate) fn every(alloc: Global, glyphs: usize) -> Result<Vec<Option<usize>>>
    ensures sources { IfOk result (λ sources. sources.items ≡ the_every glyphs) }
    ensures memory { IfErr result (λ e. e ≡ errors.Refused causes.Memory) }
{
    let mut sources = Vec::with_capacity(alloc, glyphs)?;
    for glyph in 0..glyphs {
        sources.push(Some(glyph))?;
    }
    Ok(sources)
}

/// Marks for glyphs, none of them set.
pub(crate) fn no_marks(alloc: Global, glyphs: usize) -> Result<Vec<bool>>
    ensures many { IfOk result (λ marks. length marks.items ≡ glyphs) }
    ensures none { IfOk result (λ marks. (glyph : ℕ) → glyph < glyphs → slice_index_or marks.items glyph false ≡ false) }
    ensures memory { IfErr result (λ e. e ≡ errors.Refused causes.Memory) }
{
    Ok(vec![in alloc; false; glyphs]?)
}

/// Marks for glyphs, set at the named ones.
fn marks_of(alloc: Global, named: &[usize], glyphs: usize) -> Result<Vec<bool>>
    ensures marks { IfOk result (λ marks. AreMarks named.now glyphs marks.items) }
    ensures refused { IfErr result (λ e. IsNotChosen named.now glyphs e) }
{
    let mut marks = no_marks(alloc, glyphs)?;
    for i in 0..named.len() {
        let glyph = named[i];
        if glyph >= glyphs {
            return Err(Error::MissingGlyph(glyph));
        }
        marks[glyph] = true;
    }
    Ok(marks)
}

/// Whether a glyph is kept.
fn is_kept(marks: &[bool], glyph: usize) -> bool
    requires { glyph < length marks.now }
    ensures { result ≡ (slice_index_or marks.now glyph false || (glyph == 0)) }
{
    marks[glyph] || glyph == 0
}

/// Appends a glyph if it is kept.
fn push_if(kept: &mut Vec<usize>, keeps: bool, glyph: usize) -> Result<()>
    ensures kept { OnOk result (kept.new.items ≡ kept.old.items ++ (if keeps then glyph ∷ [] else [])) }
    ensures memory { IfErr result (λ e. e ≡ errors.Refused causes.Memory) }
{
    if keeps {
        kept.push(glyph)?;
    }
    Ok(())
}

/// The kept glyphs in ascending order.
pub(crate) fn kept_of(alloc: Global, named: &[usize], glyphs: usize) -> Result<Vec<usize>>
    ensures kept { IfOk result (λ kept. kept.items ≡ the_kept named.now glyphs) }
    ensures there { OnOk result (AreThere named.now glyphs) }
    ensures refused { IfErr result (λ e. IsNotChosen named.now glyphs e) }
{
    let marks = marks_of(alloc, named, glyphs)?;
    let mut kept = Vec::new(alloc);
    for glyph in 0..glyphs {
        let keeps = is_kept(&marks, glyph);
        push_if(&mut kept, keeps, glyph)?;
    }
    Ok(kept)
}

/// The sources of a font of these glyphs.
fn made_of(alloc: Global, glyphs: &[usize]) -> Result<Vec<Option<usize>>>
    ensures sources { IfOk result (λ sources. sources.items ≡ map Some glyphs.now) }
    ensures memory { IfErr result (λ e. e ≡ errors.Refused causes.Memory) }
{
    let mut sources = Vec::with_capacity(alloc, glyphs.len())?;
    for glyph in glyphs {
        sources.push(Some(*glyph))?;
    }
    Ok(sources)
}

/// The sources of a subset with new numbers.
fn renumbered_sources(alloc: Global, named: &[usize], glyphs: usize) -> Result<Vec<Option<usize>>>
    ensures sources { IfOk result (λ sources. sources.items ≡ the_chosen named.now glyphs) }
    ensures there { OnOk result (AreThere named.now glyphs) }
    ensures refused { IfErr result (λ e. IsNotChosen named.now glyphs e) }
{
    let kept = kept_of(alloc, named, glyphs)?;
    made_of(alloc, &kept)
}

/// A glyph if it is kept.
fn kept_or_none(kept: bool, glyph: usize) -> Option<usize>
    ensures { result ≡ (if kept then Some glyph else None) }
{
    if kept { Some(glyph) } else { None }
}

/// The sources of a subset with the old numbers, and empty glyphs between them.
fn sources_in_place(alloc: Global, named: &[usize], glyphs: usize) -> Result<Vec<Option<usize>>>
    ensures sources { IfOk result (λ sources. sources.items ≡ the_keeping named.now glyphs) }
    ensures there { OnOk result (AreThere named.now glyphs) }
    ensures refused { IfErr result (λ e. IsNotChosen named.now glyphs e) }
{
    let marks = marks_of(alloc, named, glyphs)?;
    let mut sources = Vec::with_capacity(alloc, glyphs)?;
    for glyph in 0..glyphs {
        let kept = is_kept(&marks, glyph);
        sources.push(kept_or_none(kept, glyph))?;
    }
    Ok(sources)
}

/// The sources of a subset, with the old numbers if glyphs keep them.
pub(crate) fn sources_by(
    alloc: Global,
    named: &[usize],
    glyphs: usize,
    retain_gids: bool,
) -> Result<Vec<Option<usize>>>
    ensures sources { IfOk result (λ sources. sources.items ≡ choice_by retain_gids named.now glyphs) }
    ensures refused { IfErr result (λ e. IsNotChosen named.now glyphs e) }
{
    if retain_gids {
        return sources_in_place(alloc, named, glyphs);
    }
    renumbered_sources(alloc, named, glyphs)
}
