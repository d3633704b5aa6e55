//! An INDEX of dictionaries.
ghost use Rattle.std.specs.Prelude.{◌≡◌, ℕ, List, [], ◌∷◌, IfOk, slice_get};
ghost use Rattle.postscript_base.specs.Error.{IsListed};
ghost use Rattle.postscript_base.specs.Tape.Outcome.{Answers, same};
ghost use Rattle.postscript_compact1.specs.Kinds.{map_of, map_if, maps_of};

use super::Index;
use postscript_base::compact1::Operations;
use postscript_base::{Result, Tape, Value};
use std::alloc::Global;
use std::io::Cursor;
use std::marker::Model;
use std::ops::Deref;

/// An INDEX of dictionaries.
#[derive(Debug, Drop)]
pub struct Dictionaries(pub Index);

impl Model for Dictionaries {
    ghost use Rattle.postscript_compact1.specs.Index.{Index};

    ghost Value = { Index };

    ghost view = { λ dictionaries. dictionaries.0 };
}

/// Dereferences to the INDEX, so that `data`, `len`, `item` and `iter` can be called on it.
impl Deref for Dictionaries {
    type Target = Index;

    ghost deref_gives = { λ dictionaries index. index ≡ dictionaries };

    fn deref(&self) -> &Index {
        &self.0
    }
}

impl Dictionaries {
    /// Returns a copy of the dictionaries. It allocates as `Index::clone` does.
    ///
    /// # Errors
    ///
    /// - `Memory`: out of memory.
    pub fn clone(&self) -> Result<Self>
        // The copy is equal to the original.
        ensures equal { IfOk result (λ dictionaries. dictionaries ≡ self.now) }
        // The only error is `Memory`.
        ensures listed { IsListed (3 ∷ []) result }
    {
        Ok(Dictionaries(self.0.clone()?))
    }

    /// Reads the dictionary in item `i`, counted from 0 (see `Operations`). It returns `None` if there is no such item.
    ///
    /// # Errors
    ///
    /// - `MalformedNumber`, `OutOfRangeNumber`, `UnknownOperator`: the first bad number or operator.
    /// - `Memory`: out of memory.
    pub fn operations(&self, alloc: Global, i: usize) -> Result<Option<Operations>>
        // The result is exactly what `map_if` gives for item `i`, unless memory runs out.
        ensures exact { (bytes : List ℕ) (place : ℕ) → Answers same result place (map_if (slice_get self.now.items i) bytes place) }
        // The only errors are `Memory`, `MalformedNumber`, `OutOfRangeNumber`, `UnknownOperator`.
        ensures listed { IsListed (3 ∷ 7 ∷ 8 ∷ 9 ∷ []) result }
    {
        match self.item(i) {
            None => Ok(None),
            Some(item) => Ok(Some(operations_of(alloc, item)?)),
        }
    }

    /// Reads the dictionaries of all items, in order (Technical Note 5176, "Top DICT INDEX").
    ///
    /// # Errors
    ///
    /// - `MalformedNumber`, `OutOfRangeNumber`, `UnknownOperator`: the first bad number or operator.
    /// - `Memory`: out of memory.
    pub fn into(self, alloc: Global) -> Result<Vec<Operations>>
        // The result is exactly what `maps_of` gives for the items, unless memory runs out.
        ensures exact { (bytes : List ℕ) (place : ℕ) → Answers (λ maps. maps.items) result place (maps_of self.items bytes place) }
        // The only errors are `Memory`, `MalformedNumber`, `OutOfRangeNumber`, `UnknownOperator`.
        ensures listed { IsListed (3 ∷ 7 ∷ 8 ∷ 9 ∷ []) result }
    {
        let mut maps = Vec::new(alloc);
        'maps: while let Some(map) = self.operations(alloc, maps.len())? {
            maps.push(map)?;
        }
        Ok(maps)
    }
}

/// Reads an INDEX of dictionaries. Its items are not parsed.
///
/// # Errors
///
/// - The errors of reading an `Index`.
impl Value for Dictionaries {
    ghost use Rattle.std.specs.Prelude.{[], ◌∷◌};
    ghost use Rattle.postscript_base.specs.Tape.Outcome.{same};
    ghost use Rattle.postscript_base.specs.Private.Seen.{each_as_it_is};
    ghost use Rattle.postscript_compact1.specs.Index.{Index, index};

    ghost Shown = { Index };

    ghost view = { same };

    ghost views = { same };

    ghost views_each = { each_as_it_is };

    ghost reading = { index };

    ghost refusals = { 1 ∷ 2 ∷ 3 ∷ 5 ∷ 6 ∷ [] };

    fn read<T: Tape>(alloc: Global, tape: &mut T) -> Result<Dictionaries> {
        Ok(Dictionaries(Index::read(alloc, tape)?))
    }
}

/// Reads the dictionary in the bytes of an item.
#[tactic(auto, unfolding(crate::specs::Kinds::map_of))]
pub(crate) fn operations_of(alloc: Global, item: &[u8]) -> Result<Operations>
    ensures exact { (bytes : List ℕ) (place : ℕ) → Answers same result place (map_of item.now bytes place) }
    ensures listed { IsListed (3 ∷ 7 ∷ 8 ∷ 9 ∷ []) result }
{
    Operations::read(alloc, &mut Cursor::new(item))
}
