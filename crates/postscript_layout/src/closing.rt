//! The closure of glyphs.
ghost use Rattle.std.specs.Prelude.{◌≡◌, ◌≢◌, ◌⊎◌, ℕ, ◌+◌, ◌<◌, ◌≤◌, true, false, length, IfOk, OnOk, Err, IfErr, slice_index_or};
ghost use Rattle.std.specs.List.Sorted.{IsStrictlyIncreasing};
ghost use Rattle.postscript_layout.specs.Closure.{IsClosure};
ghost use Rattle.postscript_layout.specs.Substitutions.{every_lookup};
ghost use Rattle.postscript_layout.specs.Rounds.{IsTooLow, Suffices};
ghost use Rattle.postscript_layout.specs.Steps.{AreMarked, IsSettled};
ghost use Rattle.postscript_layout.specs.Refusals.{IsUsedUp};
ghost use Rattle.postscript_layout.specs.declared.error.Error.TheVariants as errors;

use crate::error::{Error, Result};
use crate::features::all_lookups;
use crate::glyph_set::{GlyphSet, pay};
use crate::lookups::follow_each;
use std::alloc::Global;

/// Applies the chosen lookups, round after round, until a round adds no glyph.
fn settle(gsub: &[u8], lookups: &[u16], set: &mut GlyphSet, limit: &mut u64) -> Result<()>
    ensures done { OnOk result (IsSettled gsub.now lookups.now set.old set.new) }
    ensures spends { limit.new ≤ limit.old }
    ensures why { IfErr result (λ e. IsUsedUp limit.new e) }
    ensures low { IfErr result (λ _. IsTooLow gsub.now lookups.now set.old limit.old) }
{
    while *limit > 0 {
        pay(limit)?;
        set.grown = false;
        follow_each(gsub, lookups, set, limit)?;
        if !set.grown {
            return Ok(());
        }
    }
    Err(Error::TooLong)
}

/// Returns the indices of the marks that are set, in ascending order.
pub(crate) fn listed(alloc: Global, marks: &[bool]) -> Result<Vec<u16>>
    requires { length marks.now ≤ 65536 }
    ensures memory { IfErr result (λ e. e ≡ errors.Memory) }
    ensures all { IfOk result (λ glyphs. AreMarked marks.now glyphs.items) }
    ensures rises { IfOk result (λ glyphs. IsStrictlyIncreasing glyphs.items) }
    ensures few { IfOk result (λ glyphs. length glyphs.items ≤ length marks.now) }
{
    let mut glyphs = Vec::new(alloc);
    for glyph in 0..marks.len() {
        if marks[glyph] {
            glyphs.push(glyph as u16)?;
        }
    }
    Ok(glyphs)
}

/// Returns the closure of glyphs over chosen lookups of the `GSUB` table: these glyphs and all glyphs that substitutions
/// of the chosen lookups can make of them, in ascending order. `lookups` has indices of the lookup list; others than the
/// table has are passed over. Contexts (types 5 and 6) substitute nothing themselves, so the lookups that they name count
/// only if they are chosen too. A glyph number that a lookup names is in the list even if the font has no such glyph.
///
/// A round over the chosen lookups costs one unit, and one unit for each chosen lookup, and each subtable, range, covered
/// glyph, ligature, component and substitute that it visits. Another round follows as long as a round adds glyphs.
///
/// # Errors
///
/// - `TooLong`: the closure costs more than the limit.
/// - `Memory`: memory could not be allocated.
pub fn closure_over(
    alloc: Global,
    gsub: &[u8],
    lookups: &[u16],
    glyphs: &[u16],
    limit: &mut u64,
) -> Result<Vec<u16>>
    // The list is the least one that has the given glyphs and is closed under the chosen lookups.
    ensures closed { IfOk result (λ closed. IsClosure gsub.now lookups.now glyphs.now closed.items) }
    // The list is strictly ascending.
    ensures rises { IfOk result (λ closed. IsStrictlyIncreasing closed.items) }
    // There are at most 65,536 glyphs.
    ensures few { IfOk result (λ closed. length closed.items ≤ 65536) }
    // The limit never grows.
    ensures spends { limit.new ≤ limit.old }
    // An error is `Memory`, or `TooLong` with nothing left of the limit.
    ensures why { IfErr result (λ e. (e ≡ errors.Memory) ⊎ IsUsedUp limit.new e) }
    // If the limit pays for the needed rounds and one more, the error is never `TooLong`.
    ensures suffices { Suffices gsub.now lookups.now glyphs.now limit.old → result ≢ Err errors.TooLong }
{
    let mut set = GlyphSet::new(alloc)?;
    set.hold_all(glyphs);
    settle(gsub, lookups, &mut set, limit)?;
    let closed = listed(alloc, &set.marks)?;
    Ok(closed)
}

/// Returns the closure of glyphs over the `GSUB` table: `closure_over` with every lookup, whatever features, scripts,
/// languages and contexts select it.
///
/// # Errors
///
/// - `TooLong`: the closure costs more than the limit.
/// - `Memory`: memory could not be allocated.
pub fn closure(alloc: Global, gsub: &[u8], glyphs: &[u16], limit: &mut u64) -> Result<Vec<u16>>
    // The list is the least one that has the given glyphs and is closed under all substitutions.
    ensures closed { IfOk result (λ closed. IsClosure gsub.now (every_lookup gsub.now) glyphs.now closed.items) }
    // The list is strictly ascending.
    ensures rises { IfOk result (λ closed. IsStrictlyIncreasing closed.items) }
    // The limit never grows.
    ensures spends { limit.new ≤ limit.old }
    // An error is `Memory`, or `TooLong` with nothing left of the limit.
    ensures why { IfErr result (λ e. (e ≡ errors.Memory) ⊎ IsUsedUp limit.new e) }
    // If the limit pays for the needed rounds and one more, the error is never `TooLong`.
    ensures suffices { Suffices gsub.now (every_lookup gsub.now) glyphs.now limit.old → result ≢ Err errors.TooLong }
{
    let lookups = all_lookups(alloc, gsub)?;
    closure_over(alloc, gsub, &lookups, glyphs, limit)
}
