//! Charsets.
ghost use Rattle.std.specs.Prelude.{◌≡◌, ◌⊎◌, ◌<◌, ◌≤◌, [], ◌∷◌, IfOk, IsNone, IsTrue};
ghost use Rattle.std.specs.Option.{option_copied};
ghost use Rattle.postscript_base.specs.Error.{IsListed};
ghost use Rattle.postscript_base.specs.Tape.{Reads};
ghost use Rattle.postscript_base.specs.Tape.Outcome.{same};
ghost use Rattle.postscript_base.specs.Private.Seen.{each_as_it_is};
ghost use Rattle.postscript_compact1.specs.CharSets.{char_set};
ghost use Rattle.postscript_compact1.specs.CharSets.Predefined.{are_runs, identifier_of, is_predefined, name_of, name_of_glyph, runs_of};
ghost use Rattle.postscript_compact1.specs.StandardStrings.{standard_string};
ghost use Rattle.postscript_compact1.specs.declared.char_set.CharSet.TheVariants as sets;

mod format0;
mod format1;
mod format2;
pub mod laws;
mod predefined;
mod range;

pub use format0::CharSet0;
pub use format1::CharSet1;
pub use format2::CharSet2;
use postscript_base::compact1::{GlyphID, StringID};
use postscript_base::error::{Error, Result};
use postscript_base::{Tape, Value, Walue};
use predefined::{EXPERT, EXPERT_SUBSET, ISO_ADOBE, Run, identifier, name};
pub use range::{Range1, Range2};
use std::alloc::{AllocError, Global};

/// A charset: the list that gives each glyph the string of its name (Technical Note 5176, "Charsets").
#[derive(Debug, Drop)]
pub enum CharSet {
    /// The predefined charset ISOAdobe.
    ISOAdobe,
    /// The predefined charset Expert.
    Expert,
    /// The predefined charset ExpertSubset.
    ExpertSubset,
    /// A charset that lists its glyphs.
    Format0(CharSet0),
    /// A charset of ranges of at most 256 glyphs.
    Format1(CharSet1),
    /// A charset of ranges of at most 65,536 glyphs.
    Format2(CharSet2),
}

impl CharSet {
    /// Returns whether the charset is a predefined one: ISOAdobe, Expert or ExpertSubset.
    pub fn is_predefined(&self) -> bool
        // The result is true exactly for `ISOAdobe`, `Expert` and `ExpertSubset`.
        ensures { result ≡ is_predefined self.now }
    {
        !matches!(
            self,
            CharSet::Format0(_) | CharSet::Format1(_) | CharSet::Format2(_)
        )
    }

    /// Returns the name of the variant, such as `ISOAdobe` or `Format0`.
    pub fn name(&self) -> &'static str
        // The result is the name of the variant.
        ensures { result.now ≡ name_of self.now }
    {
        match self {
            CharSet::ISOAdobe => "ISOAdobe",
            CharSet::Expert => "Expert",
            CharSet::ExpertSubset => "ExpertSubset",
            CharSet::Format0(_) => "Format0",
            CharSet::Format1(_) => "Format1",
            CharSet::Format2(_) => "Format2",
        }
    }

    /// Returns the name of a glyph in a predefined charset (Technical Note 5176, Appendix C). It is `None` for glyph 0,
    /// which is `.notdef`, and for a glyph that the charset does not contain.
    ///
    /// The caller proves that the charset is predefined. The fields of any other charset contain its SIDs, and
    /// `Strings::get` returns their strings.
    ///
    /// ```rust
    /// pub fn name_of_glyph(set: &CharSet, glyph: GlyphID) -> Option<&'static str> {
    ///     if set.is_predefined() {
    ///         return set.get(glyph);
    ///     }
    ///     None
    /// }
    /// ```
    pub fn get(&self, gid: GlyphID) -> Option<&'static str>
        requires { IsTrue (is_predefined self.now) }
        // In `ISOAdobe` a glyph from 1 to 228 has the standard string with its own number.
        ensures iso_adobe { self.now ≡ sets.ISOAdobe → 0 < gid → gid ≤ 228 → option_copied result ≡ standard_string gid }
        // In `ISOAdobe` glyph 0 and the glyphs above 228 have no string.
        ensures iso_adobe_alone { self.now ≡ sets.ISOAdobe → (gid ≡ 0) ⊎ (228 < gid) → IsNone result }
        // The result is exactly what `name_of_glyph` computes (specs/CharSets/Predefined.antt).
        ensures exact { option_copied result ≡ name_of_glyph self.now gid }
    {
        name(self.runs(), gid)
    }

    /// Returns the SID of the name of a glyph in a predefined charset (Technical Note 5176, Appendix C). It is `None`
    /// for glyph 0, which is `.notdef`, and for a glyph that the charset does not contain. The caller proves that the
    /// charset is predefined.
    pub fn identifier(&self, gid: GlyphID) -> Option<StringID>
        requires { IsTrue (is_predefined self.now) }
        // The result is exactly what `identifier_of` computes (specs/CharSets/Predefined.antt).
        ensures { result ≡ identifier_of (runs_of self.now) gid }
    {
        identifier(self.runs(), gid)
    }

    /// The SIDs of a predefined charset, in ranges.
    fn runs(&self) -> &'static [Run]
        ensures exact { result.now ≡ runs_of self.now }
        ensures runs { IsTrue (are_runs result.now) }
    {
        match self {
            CharSet::ISOAdobe => &ISO_ADOBE,
            CharSet::Expert => &EXPERT,
            CharSet::ExpertSubset => &EXPERT_SUBSET,
            CharSet::Format0(_) | CharSet::Format1(_) | CharSet::Format2(_) => &[],
        }
    }

    /// Returns a copy of the charset. It allocates a list of glyphs or ranges, and nothing for a predefined charset.
    ///
    /// # Errors
    ///
    /// - `Memory`: out of memory.
    pub fn clone(&self) -> Result<Self>
        // The copy is equal to the original.
        ensures equal { IfOk result (λ set. set ≡ self.now) }
        // The only error is `Memory`.
        ensures listed { IsListed (3 ∷ []) result }
    {
        Ok(match self {
            CharSet::ISOAdobe => CharSet::ISOAdobe,
            CharSet::Expert => CharSet::Expert,
            CharSet::ExpertSubset => CharSet::ExpertSubset,
            CharSet::Format0(set) => CharSet::Format0(set.clone()?),
            CharSet::Format1(set) => CharSet::Format1(set.clone()?),
            CharSet::Format2(set) => CharSet::Format2(set.clone()?),
        })
    }
}

/// Clones as `CharSet::clone` does, so that lists of these can be cloned. It fails only if out of memory.
impl Clone for CharSet {
    ghost use Rattle.std.specs.Prelude.{◌≡◌};

    ghost is_clone = { λ old new. new ≡ old };

    fn clone(&self) -> std::result::Result<Self, AllocError> {
        self.clone().map_err(|_| AllocError)
    }
}

/// Reads a charset in the format that its first byte gives (Technical Note 5176, "Charsets"). The parameter is the
/// number of glyphs. Glyph 0 is not in the charset.
///
/// # Errors
///
/// The format and the number of glyphs are checked first, and then the bytes in their order.
///
/// - `UnknownCharSetFormat`: the format is not 0, 1 or 2.
/// - `MalformedCharSet`: there are no glyphs, or a range covers more glyphs than are left.
/// - `UnexpectedEof`: the format, an SID or a range is truncated.
/// - `Io`: any other fault of the tape.
/// - `Memory`: out of memory.
#[tactic(auto, unfolding(crate::specs::CharSets::char_set))]
impl Walue for CharSet {
    ghost use Rattle.postscript_compact1.specs.declared.char_set.CharSet.{CharSet};

    type Parameter = usize;

    ghost Shown = { CharSet };

    ghost view = { same };

    ghost views = { same };

    ghost views_each = { each_as_it_is };

    ghost reading = { char_set };

    ghost refusals = { 1 ∷ 2 ∷ 3 ∷ 10 ∷ 11 ∷ [] };

    fn read<T: Tape>(alloc: Global, tape: &mut T, glyphs: usize) -> Result<CharSet> {
        match u8::read(alloc, tape)? {
            0 => Ok(CharSet::Format0(format0::listed(alloc, tape, glyphs)?)),
            1 => Ok(CharSet::Format1(format1::covered(alloc, tape, glyphs)?)),
            2 => Ok(CharSet::Format2(format2::covered(alloc, tape, glyphs)?)),
            _ => Err(Error::UnknownCharSetFormat),
        }
    }
}
