//! The subroutines of charstrings.
ghost use Rattle.std.specs.Prelude.{◌≡◌, [], ◌∷◌, IfOk};
ghost use Rattle.postscript_base.specs.Error.{IsListed};
ghost use Rattle.postscript_compact1.specs.Index.{empty};

use super::Index;
use postscript_base::{Result, Tape, Value};
use std::alloc::{AllocError, Global};
use std::marker::Model;
use std::ops::Deref;

/// An INDEX of charstring subroutines.
#[derive(Debug, Drop)]
pub struct Subroutines(pub Index);

impl Model for Subroutines {
    ghost use Rattle.postscript_compact1.specs.Index.{Index};

    ghost Value = { Index };

    ghost view = { λ subroutines. subroutines.0 };
}

/// Dereferences to the INDEX, so that `data`, `len`, `item` and `iter` can be called on it. `Program::new` takes
/// `data`.
impl Deref for Subroutines {
    type Target = Index;

    ghost deref_gives = { λ subroutines index. index ≡ subroutines };

    fn deref(&self) -> &Index {
        &self.0
    }
}

impl Subroutines {
    /// Returns an INDEX without subroutines.
    pub fn empty(alloc: Global) -> Self
        // There are no subroutines.
        ensures { result ≡ empty }
    {
        Subroutines(Index::empty(alloc))
    }

    /// Returns a copy of the subroutines. It allocates as `Index::clone` does.
    ///
    /// # Errors
    ///
    /// - `Memory`: out of memory.
    pub fn clone(&self) -> Result<Self>
        // The copy is equal to the original.
        ensures equal { IfOk result (λ subroutines. subroutines ≡ self.now) }
        // The only error is `Memory`.
        ensures listed { IsListed (3 ∷ []) result }
    {
        Ok(Subroutines(self.0.clone()?))
    }
}

/// Clones as `Subroutines::clone` does, so that lists of these can be cloned. It fails only if out of memory.
impl Clone for Subroutines {
    ghost use Rattle.std.specs.Prelude.{◌≡◌};

    ghost is_clone = { λ old new. new ≡ old };

    fn clone(&self) -> std::result::Result<Self, AllocError> {
        self.clone().map_err(|_| AllocError)
    }
}

/// Reads an INDEX of subroutines (Technical Note 5176, "Local/Global Subrs INDEXes").
///
/// # Errors
///
/// - The errors of reading an `Index`.
impl Value for Subroutines {
    ghost use Rattle.std.specs.Prelude.{[], ◌∷◌};
    ghost use Rattle.postscript_base.specs.Tape.Outcome.{same};
    ghost use Rattle.postscript_base.specs.Private.Seen.{each_as_it_is};
    ghost use Rattle.postscript_compact1.specs.Index.{Index, index};

    ghost Shown = { Index };

    ghost view = { same };

    ghost views = { same };

    ghost views_each = { each_as_it_is };

    ghost reading = { index };

    ghost refusals = { 1 ∷ 2 ∷ 3 ∷ 5 ∷ 6 ∷ [] };

    fn read<T: Tape>(alloc: Global, tape: &mut T) -> Result<Subroutines> {
        Ok(Subroutines(Index::read(alloc, tape)?))
    }
}
