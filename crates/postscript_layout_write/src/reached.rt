//! The closure of glyphs over lookups, in which contexts call others.
ghost use Rattle.std.specs.List.{AllPairs};
ghost use Rattle.std.specs.List.Sorted.{IsStrictlyIncreasing};
ghost use Rattle.std.specs.Prelude.{◌≡◌, ◌≢◌, ◌⊎◌, ◌<◌, ◌≤◌, length, IfErr, IfOk};
ghost use Rattle.postscript_layout.specs.Closure.{IsClosure};
ghost use Rattle.postscript_layout_write.specs.Reached.{AreReached};
ghost use Rattle.postscript_layout_write.specs.Refusals.{IsUsedUp};
ghost use Rattle.postscript_layout_write.specs.declared.error.Error.TheVariants as errors;

use crate::called::Lookups;
use crate::contexts::Source;
use crate::error::{Error, Result};
use crate::limit::pay;
use postscript_layout::{Error as Unclosed, closure_over};
use std::alloc::Global;

/// Lookups, and the glyphs that they can make of given ones.
#[derive(Drop)]
pub struct Reached {
    /// The indices of the lookups, each once.
    pub lookups: Vec<u16>,
    /// The glyphs, in ascending order.
    pub glyphs: Vec<u16>,
}

/// Returns the closure of glyphs over lookups.
fn closed_over(
    alloc: Global,
    gsub: &[u8],
    lookups: &[u16],
    glyphs: &[u16],
    limit: &mut u64,
) -> Result<Vec<u16>>
    ensures closed { IfOk result (λ closed. IsClosure gsub.now lookups.now glyphs.now closed.items) }
    ensures rises { IfOk result (λ closed. IsStrictlyIncreasing closed.items) }
    ensures few { IfOk result (λ closed. length closed.items ≤ 65536) }
    ensures spends { limit.new ≤ limit.old }
    ensures why { IfErr result (λ e. (e ≡ errors.Memory) ⊎ IsUsedUp limit.new e) }
{
    match closure_over(alloc, gsub, lookups, glyphs, limit) {
        Ok(closed) => Ok(closed),
        Err(Unclosed::TooLong) => Err(Error::TooLong),
        Err(Unclosed::Memory) => Err(Error::Memory),
    }
}

/// Returns lookups of a `GSUB` table with all lookups that their contexts call, and the closure of glyphs over all of these. A
/// context calls lookups, directly or by others, if each of its positions has a glyph of the closure.
///
/// These are the lookups to choose for [`substitutions`](crate::substitutions), and the glyphs to keep. Contexts are those
/// of lookups of type 5 or 6 whose subtables all have format 1, 2 or 3.
///
/// The closure and the search for calls take turns, as long as one of them adds something. `closure_over` of
/// `postscript_layout` says what the closure costs. The search costs one unit for each lookup, and each subtable, set of
/// rules, rule and action of it; for a set of glyphs 1,000, and one for each kept glyph, and each glyph or range of its table.
///
/// # Errors
///
/// - `TooLong`: the search costs more than the limit.
/// - `Memory`: out of memory.
pub fn closure_with_called(
    alloc: Global,
    gsub: &[u8],
    lookups: &[u16],
    glyphs: &[u16],
    limit: &mut u64,
) -> Result<Reached>
    // The given lookups and glyphs, and exactly those that they lead to.
    ensures reached { IfOk result (λ all. AreReached gsub.now lookups.now glyphs.now all.lookups.items all.glyphs.items) }
    // Each lookup is there once.
    ensures once { IfOk result (λ all. AllPairs (λ x y. x ≢ y) all.lookups.items) }
    // The glyphs are strictly ascending.
    ensures rises { IfOk result (λ all. IsStrictlyIncreasing all.glyphs.items) }
    // The limit never grows.
    ensures spends { limit.new ≤ limit.old }
    // `TooLong` leaves nothing of the limit. The only other error is `Memory`.
    ensures why { IfErr result (λ e. (e ≡ errors.Memory) ⊎ IsUsedUp limit.new e) }
{
    let mut found = Lookups::new(alloc)?;
    found.add_all(lookups, limit)?;
    let mut closed = Vec::new(alloc);
    let mut is_done = false;
    while !is_done {
        pay(limit)?;
        let count = found.lookups.len();
        closed = closed_over(alloc, gsub, &found.lookups, glyphs, limit)?;
        let source = Source {
            gsub,
            kept: &closed,
        };
        found.follow_all(alloc, &source, limit)?;
        is_done = found.lookups.len() == count;
    }
    Ok(Reached {
        lookups: found.lookups,
        glyphs: closed,
    })
}
