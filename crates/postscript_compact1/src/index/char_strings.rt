//! The CharStrings INDEX.
ghost use Rattle.std.specs.Prelude.{◌≡◌, ◌≢◌, [], ◌∷◌, IfOk, Err, pos};
ghost use Rattle.postscript_base.specs.Error.{IsListed};
ghost use Rattle.postscript_base.specs.Tape.{Reads};
ghost use Rattle.postscript_base.specs.Tape.Outcome.{same};
ghost use Rattle.postscript_base.specs.declared.error.Error.TheVariants as errors;
ghost use Rattle.postscript_compact1.specs.Kinds.{char_strings};

use super::Index;
use postscript_base::{Error, Result, Tape, Value, Walue};
use std::alloc::{AllocError, Global};
use std::marker::Model;
use std::ops::Deref;

/// An INDEX of charstrings, one for each glyph.
#[derive(Debug, Drop)]
pub struct CharStrings(pub Index);

impl Model for CharStrings {
    ghost use Rattle.postscript_compact1.specs.Index.{Index};

    ghost Value = { Index };

    ghost view = { λ char_strings. char_strings.0 };
}

/// Dereferences to the INDEX, so that `data`, `len`, `item` and `iter` can be called on it. Item `g` is the charstring
/// of glyph `g`.
impl Deref for CharStrings {
    type Target = Index;

    ghost deref_gives = { λ char_strings index. index ≡ char_strings };

    fn deref(&self) -> &Index {
        &self.0
    }
}

impl CharStrings {
    /// Returns a copy of the charstrings. It allocates as `Index::clone` does.
    ///
    /// # Errors
    ///
    /// - `Memory`: out of memory.
    pub fn clone(&self) -> Result<Self>
        // The copy is equal to the original.
        ensures equal { IfOk result (λ char_strings. char_strings ≡ self.now) }
        // The only error is `Memory`.
        ensures listed { IsListed (3 ∷ []) result }
    {
        Ok(CharStrings(self.0.clone()?))
    }
}

/// Clones as `CharStrings::clone` does, so that lists of these can be cloned. It fails only if out of memory.
impl Clone for CharStrings {
    ghost use Rattle.std.specs.Prelude.{◌≡◌};

    ghost is_clone = { λ old new. new ≡ old };

    fn clone(&self) -> std::result::Result<Self, AllocError> {
        self.clone().map_err(|_| AllocError)
    }
}

/// Reads an INDEX of charstrings (Technical Note 5176, "CharStrings INDEX"). The parameter is the charstring type.
///
/// # Errors
///
/// - `UnknownCharStringFormat`: the type is not 2. The tape is then unchanged.
/// - The errors of reading an `Index`.
#[tactic(auto, unfolding(crate::specs::Kinds::char_strings))]
impl Walue for CharStrings {
    type Parameter = i32;

    ghost use Rattle.std.specs.Prelude.{[], ◌∷◌};
    ghost use Rattle.postscript_base.specs.Tape.Outcome.{same};
    ghost use Rattle.postscript_base.specs.Private.Seen.{each_as_it_is};
    ghost use Rattle.postscript_compact1.specs.Index.{Index};
    ghost use Rattle.postscript_compact1.specs.Kinds.{char_strings};

    ghost Shown = { Index };

    ghost view = { same };

    ghost views = { same };

    ghost views_each = { each_as_it_is };

    ghost reading = { char_strings };

    ghost refusals = { 1 ∷ 2 ∷ 3 ∷ 5 ∷ 6 ∷ 12 ∷ [] };

    fn read<T: Tape>(alloc: Global, tape: &mut T, format: i32) -> Result<CharStrings>
        // An honest tape gives exactly what `char_strings` gives, unless memory runs out.
        ensures exact { Reads same (T.state tape.old) result (T.state tape.new) (char_strings format) }
        // The only errors are those with the codes 1 to 3, 5, 6 and 12 (`Error::code`).
        ensures listed { IsListed (1 ∷ 2 ∷ 3 ∷ 5 ∷ 6 ∷ 12 ∷ []) result }
        // A type other than 2 is `UnknownCharStringFormat`.
        ensures refused { format ≢ pos 2 → result ≡ Err errors.UnknownCharStringFormat }
        // A type other than 2 leaves the tape unchanged.
        ensures untouched { format ≢ pos 2 → tape.new ≡ tape.old }
    {
        if format != 2 {
            return Err(Error::UnknownCharStringFormat);
        }
        Ok(CharStrings(Index::read(alloc, tape)?))
    }
}
