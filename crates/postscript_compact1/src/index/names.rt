//! The Name INDEX.
ghost use Rattle.std.specs.Prelude.{◌≡◌, [], ◌∷◌, IfOk, map, string_bytes};
ghost use Rattle.postscript_base.specs.Error.{IsListed};
ghost use Rattle.postscript_compact1.specs.Texts.{text};

use super::Index;
use bstr::ByteVec;
use postscript_base::{Result, Tape, Value};
use std::alloc::Global;
use std::marker::Model;
use std::ops::Deref;

/// An INDEX of font names.
#[derive(Debug, Drop)]
pub struct Names(pub Index);

impl Model for Names {
    ghost use Rattle.postscript_compact1.specs.Index.{Index};

    ghost Value = { Index };

    ghost view = { λ names. names.0 };
}

/// Dereferences to the INDEX, so that `data`, `len`, `item` and `iter` can be called on it.
impl Deref for Names {
    type Target = Index;

    ghost deref_gives = { λ names index. index ≡ names };

    fn deref(&self) -> &Index {
        &self.0
    }
}

impl Names {
    /// Returns a copy of the names. It allocates as `Index::clone` does.
    ///
    /// # Errors
    ///
    /// - `Memory`: out of memory.
    pub fn clone(&self) -> Result<Self>
        // The copy is equal to the original.
        ensures equal { IfOk result (λ names. names ≡ self.now) }
        // The only error is `Memory`.
        ensures listed { IsListed (3 ∷ []) result }
    {
        Ok(Names(self.0.clone()?))
    }

    /// Returns the names as text, in order (Technical Note 5176, "Name INDEX"). Invalid UTF-8 is replaced by U+FFFD, as
    /// `bstr` does.
    ///
    /// # Errors
    ///
    /// - `Memory`: out of memory.
    #[tactic(auto, unfolding(crate::specs::Texts::text))]
    pub fn into(self, alloc: Global) -> Result<Vec<String>>
        // The result is the text of each item, in order.
        ensures texts { IfOk result (λ texts. map string_bytes texts.items ≡ map text self.items) }
        // The only error is `Memory`.
        ensures listed { IsListed (3 ∷ []) result }
    {
        let mut texts = Vec::new(alloc);
        let index = self.0;
        for item in index.items {
            texts.push(item.into_string_lossy()?)?;
        }
        Ok(texts)
    }
}

/// Reads an INDEX of names.
///
/// # Errors
///
/// - The errors of reading an `Index`.
impl Value for Names {
    ghost use Rattle.std.specs.Prelude.{[], ◌∷◌};
    ghost use Rattle.postscript_base.specs.Tape.Outcome.{same};
    ghost use Rattle.postscript_base.specs.Private.Seen.{each_as_it_is};
    ghost use Rattle.postscript_compact1.specs.Index.{Index, index};

    ghost Shown = { Index };

    ghost view = { same };

    ghost views = { same };

    ghost views_each = { each_as_it_is };

    ghost reading = { index };

    ghost refusals = { 1 ∷ 2 ∷ 3 ∷ 5 ∷ 6 ∷ [] };

    fn read<T: Tape>(alloc: Global, tape: &mut T) -> Result<Names> {
        Ok(Names(Index::read(alloc, tape)?))
    }
}
