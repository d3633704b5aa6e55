//! Sets of glyphs, or of lookups.
ghost use Rattle.std.specs.Prelude.{◌≡◌, ℕ, ◌+◌, ◌^◌, ◌<◌, ◌≤◌, [], ◌∷◌, true, false, length, IfErr, IfOk, OnOk, slice_index_or};
ghost use Rattle.std.specs.List.{All};
ghost use Rattle.postscript_layout.specs.Costs.{IsShort};
ghost use Rattle.postscript_layout.specs.declared.error.Error.TheVariants as errors;

use crate::error::{Error, Result};
use crate::numbers::word;
use std::alloc::Global;

/// A set of glyphs, or of lookups: a mark for each number, and whether a glyph was added in this round.
#[derive(Drop)]
pub(crate) struct GlyphSet {
    pub(crate) marks: Vec<bool>,
    pub(crate) grown: bool,
    ghost all: { length marks.items ≡ 65536 },
}

/// Returns `count` marks that are not set.
fn unmarked(alloc: Global, count: usize) -> Result<Vec<bool>>
    ensures memory { IfErr result (λ e. e ≡ errors.Memory) }
    ensures many { IfOk result (λ marks. length marks.items ≡ count) }
    ensures none { IfOk result (λ marks. (glyph : ℕ) → slice_index_or marks.items glyph false ≡ false) }
{
    Ok(vec![in alloc; false; count]?)
}

/// Pays one unit from the limit.
pub(crate) fn pay(limit: &mut u64) -> Result<()>
    ensures paid { OnOk result (limit.new + 1 ≡ limit.old) }
    ensures spends { limit.new ≤ limit.old }
    ensures why { IfErr result (λ e. IsShort 1 limit.old limit.new e) }
{
    if *limit == 0 {
        return Err(Error::TooLong);
    }
    *limit -= 1;
    Ok(())
}

impl GlyphSet {
    ghost use Rattle.postscript_layout.specs.Numbers.{words as the_words};
    ghost use Rattle.postscript_layout.specs.Steps.{HoldsMore, IsHeld};

    /// Returns an empty set.
    pub(crate) fn new(alloc: Global) -> Result<GlyphSet>
        ensures none { IfOk result (λ set. (glyph : ℕ) → IsHeld set glyph → ⊥) }
        ensures memory { IfErr result (λ e. e ≡ errors.Memory) }
    {
        Ok(GlyphSet {
            marks: unmarked(alloc, 65536)?,
            grown: false,
        })
    }

    /// Returns whether the set has a glyph.
    pub(crate) fn holds(&self, glyph: usize) -> bool
        requires { glyph < 65536 }
        ensures { result ≡ slice_index_or self.now.marks.items glyph false }
    {
        self.marks[glyph]
    }

    /// Adds a glyph.
    pub(crate) fn hold(&mut self, glyph: usize)
        requires { glyph < 65536 }
        ensures { HoldsMore self.old (glyph ∷ []) self.new }
    {
        if !self.marks[glyph] {
            self.marks[glyph] = true;
            self.grown = true;
        }
    }

    /// Adds glyphs.
    pub(crate) fn hold_all(&mut self, glyphs: &[u16])
        ensures { HoldsMore self.old glyphs.now self.new }
    {
        for i in 0..glyphs.len() {
            self.hold(glyphs[i] as usize);
        }
    }

    /// Adds the `count` glyphs that a table lists from an offset on.
    pub(crate) fn hold_words(
        &mut self,
        table: &[u8],
        offset: usize,
        count: usize,
        limit: &mut u64,
    ) -> Result<()>
        requires near { offset < 2 ^ 36 }
        requires few { count < 65536 }
        ensures done { OnOk result (HoldsMore self.old (the_words table.now offset count) self.new) }
        ensures spends { limit.new ≤ limit.old }
        ensures within { OnOk result (limit.old ≤ limit.new + (count)) }
        ensures why { IfErr result (λ e. IsShort (count) limit.old limit.new e) }
    {
        for k in 0..count {
            pay(limit)?;
            let glyph = word(table, offset + k * 2);
            self.hold(glyph);
        }
        Ok(())
    }

    /// Returns whether the set has all of the `count` glyphs that a table lists from an offset on.
    pub(crate) fn holds_words(
        &self,
        table: &[u8],
        offset: usize,
        count: usize,
        limit: &mut u64,
    ) -> Result<bool>
        requires near { offset < 2 ^ 36 }
        requires few { count < 65536 }
        ensures yes { IfOk result (λ all. all ≡ true → All (IsHeld self.now) (the_words table.now offset count)) }
        ensures no { IfOk result (λ all. all ≡ false → All (IsHeld self.now) (the_words table.now offset count) → ⊥) }
        ensures spends { limit.new ≤ limit.old }
        ensures within { OnOk result (limit.old ≤ limit.new + (count)) }
        ensures why { IfErr result (λ e. IsShort (count) limit.old limit.new e) }
    {
        for k in 0..count {
            pay(limit)?;
            let glyph = word(table, offset + k * 2);
            if !self.holds(glyph) {
                return Ok(false);
            }
        }
        Ok(true)
    }
}
