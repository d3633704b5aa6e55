//! The glyphs of a subset: the named ones, and the components of `seac` glyphs.
ghost use Rattle.std.specs.Prelude.{◌≡◌, ◌<◌, ◌↔◌, ◌⊎◌, ℕ, [], ◌∷◌, List, true, length, IfOk, IfErr, OnOk};
ghost use Rattle.std.specs.List.{Contains};
ghost use Rattle.postscript_drawing.specs.Components.{glyphs_of};
ghost use Rattle.postscript_base.specs.declared.error.Error.TheVariants as causes;
ghost use Rattle.postscript_write.specs.Closure.{AreMarkedAs, AreReached, Grow};
ghost use Rattle.postscript_write.specs.Components.{AreComponentsOf, AreKnown, IsReached, IsUntold};
ghost use Rattle.postscript_write.specs.Costs.{AreDistinct, Stops};
ghost use Rattle.postscript_write.specs.Sources.{AreThere, is_kept};
ghost use Rattle.postscript_write.specs.Stepping.{AllShare, Leaves, Share, StopsAt};
ghost use Rattle.postscript_write.specs.Steps.{IsNotChosen, IsNotClosed};
ghost use Rattle.postscript_write.specs.declared.error.Error.TheVariants as errors;

use crate::components::{none_known, push_components};
use crate::error::{Error, Result};
use crate::sources::no_marks;
use postscript_type2::laws::limit_is_cost;
use postscript_view::FontView;
use std::alloc::Global;

/// Appends and marks a glyph that is not marked.
fn reach(marks: &mut Vec<bool>, glyphs: &mut Vec<usize>, glyph: usize) -> Result<()>
    requires there { glyph < length marks.old.items }
    requires marked { AreMarkedAs marks.old.items glyphs.old.items }
    ensures grown { OnOk result (Grow marks.old.items glyphs.old.items (glyph ∷ []) marks.new.items glyphs.new.items) }
    ensures memory { IfErr result (λ e. e ≡ errors.Refused causes.Memory) }
{
    if !marks[glyph] {
        marks[glyph] = true;
        glyphs.push(glyph)?;
    }
    Ok(())
}

/// The same with each glyph of a list.
fn reach_all(marks: &mut Vec<bool>, glyphs: &mut Vec<usize>, added: &[usize]) -> Result<()>
    requires marked { AreMarkedAs marks.old.items glyphs.old.items }
    ensures grown { OnOk result (Grow marks.old.items glyphs.old.items added.now marks.new.items glyphs.new.items) }
    ensures there { OnOk result (AreThere added.now (length marks.old.items)) }
    ensures refused { IfErr result (λ e. IsNotChosen added.now (length marks.old.items) e) }
{
    for i in 0..added.len() {
        let glyph = added[i];
        if glyph >= marks.len() {
            return Err(Error::MissingGlyph(glyph));
        }
        reach(marks, glyphs, glyph)?;
    }
    Ok(())
}

/// The same with the components of a glyph.
fn reach_components(
    alloc: Global,
    font: &FontView<'_>,
    glyph: usize,
    known: &mut Vec<Option<Option<usize>>>,
    marks: &mut Vec<bool>,
    glyphs: &mut Vec<usize>,
    limit: &mut Option<u64>,
) -> Result<()>
    requires known { AreKnown font.now known.old.items }
    requires marked { AreMarkedAs marks.old.items glyphs.old.items }
    requires many { length marks.old.items ≡ glyphs_of font.now }
    ensures known { OnOk result (AreKnown font.now known.new.items) }
    ensures grown { OnOk result ((added : List ℕ) × AreComponentsOf font.now glyph added
        × Grow marks.old.items glyphs.old.items added marks.new.items glyphs.new.items) }
    ensures leaves { OnOk result (Leaves font.now limit.old glyph limit.new) }
    ensures stops { IfErr result (λ e. IsUntold font.now e ⊎ StopsAt font.now glyph limit.old e) }
{
    let mut components = Vec::new(alloc);
    push_components(alloc, font, glyph, known, &mut components, limit)?;
    reach_all(marks, glyphs, &components)
}

/// Appends the components of the glyphs, their components, and so on. Marks keep each glyph from being repeated.
fn follow(
    alloc: Global,
    font: &FontView<'_>,
    marks: &mut Vec<bool>,
    glyphs: &mut Vec<usize>,
    limit: &mut Option<u64>,
) -> Result<()>
    requires marked { AreMarkedAs marks.old.items glyphs.old.items }
    requires many { length marks.old.items ≡ glyphs_of font.now }
    requires notdef { Contains glyphs.old.items 0 }
    requires distinct { AreDistinct glyphs.old.items }
    ensures reached { OnOk result (AreReached font.now glyphs.old.items glyphs.new.items) }
    ensures there { OnOk result (AreThere glyphs.new.items (glyphs_of font.now)) }
    ensures distinct { OnOk result (AreDistinct glyphs.new.items) }
    ensures shared { OnOk result (Share font.now limit.old glyphs.new.items limit.new) }
    ensures stops { IfErr result (λ e. IsUntold font.now e ⊎ Stops font.now glyphs.old.items limit.old e) }
{
    limit_is_cost();
    let mut known = none_known(alloc)?;
    let mut next = 0usize;
    while next < glyphs.len() {
        let glyph = glyphs[next];
        reach_components(alloc, font, glyph, &mut known, marks, glyphs, limit)?;
        next += 1;
    }
    Ok(())
}

/// The named glyphs, `.notdef`, and all their components. Their runs share the limit, if there is one.
pub(crate) fn closed_over(
    alloc: Global,
    font: &FontView<'_>,
    named: &[usize],
    limit: Option<u64>,
) -> Result<Vec<usize>>
    requires some { 0 < length named.now }
    ensures closed { IfOk result (λ closed. (glyph : ℕ) → (is_kept closed.items glyph ≡ true) ↔ IsReached font.now named.now glyph) }
    ensures there { IfOk result (λ closed. AreThere closed.items (glyphs_of font.now)) }
    ensures named { OnOk result (AreThere named.now (glyphs_of font.now)) }
    ensures shared { OnOk result (AllShare font.now named.now limit) }
    ensures refused { IfErr result (λ e. IsNotClosed font.now named.now e ⊎ Stops font.now named.now limit e) }
{
    let mut left = limit;
    let mut marks = no_marks(alloc, font.char_strings.len())?;
    let mut closed = Vec::new(alloc);
    reach_all(&mut marks, &mut closed, named)?;
    reach(&mut marks, &mut closed, 0)?;
    follow(alloc, font, &mut marks, &mut closed, &mut left)?;
    Ok(closed)
}
