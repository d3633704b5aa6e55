//! The String INDEX.
ghost use Rattle.std.specs.Prelude.{◌≡◌, [], ◌∷◌, IfOk, string_bytes, option_map};
ghost use Rattle.postscript_base.specs.Error.{IsListed};
ghost use Rattle.postscript_compact1.specs.Texts.{string_of, text};

use super::{Index, get_standard_string};
use bstr::ByteSlice;
use postscript_base::compact1::StringID;
use postscript_base::{Result, Tape, Value};
use std::alloc::Global;
use std::marker::Model;
use std::ops::Deref;

/// The number of standard strings.
const STANDARD: usize = 391;

/// An INDEX of strings.
#[derive(Debug, Drop)]
pub struct Strings(pub Index);

impl Model for Strings {
    ghost use Rattle.postscript_compact1.specs.Index.{Index};

    ghost Value = { Index };

    ghost view = { λ strings. strings.0 };
}

/// Dereferences to the INDEX, so that `data`, `len`, `item` and `iter` can be called on it. Item 0 has the SID 391.
impl Deref for Strings {
    type Target = Index;

    ghost deref_gives = { λ strings index. index ≡ strings };

    fn deref(&self) -> &Index {
        &self.0
    }
}

impl Strings {
    /// Returns a copy of the strings. It allocates as `Index::clone` does.
    ///
    /// # Errors
    ///
    /// - `Memory`: out of memory.
    pub fn clone(&self) -> Result<Self>
        // The copy is equal to the original.
        ensures equal { IfOk result (λ strings. strings ≡ self.now) }
        // The only error is `Memory`.
        ensures listed { IsListed (3 ∷ []) result }
    {
        Ok(Strings(self.0.clone()?))
    }

    /// Returns the string with an SID (Technical Note 5176, "String INDEX", Appendix A). Below 391 it is a standard
    /// string. Otherwise it is the text of item `sid - 391`, and `None` if there is no such item. Invalid UTF-8 is
    /// replaced by U+FFFD, as `bstr` does.
    ///
    /// # Errors
    ///
    /// - `Memory`: out of memory.
    ///
    /// ```rust
    /// pub fn notice(alloc: Global, font: &FontSet, dictionary: &Operations) -> Result<Option<String>> {
    ///     let Some(operand) = dictionary.get_single(Operator::Notice) else {
    ///         return Ok(None);
    ///     };
    ///     match operand.to_i32().map(StringID::try_from) {
    ///         Some(Ok(sid)) => font.strings.get(alloc, sid),
    ///         _ => Ok(None),
    ///     }
    /// }
    /// ```
    #[tactic(auto, unfolding(crate::specs::Texts::string_of))]
    pub fn get(&self, alloc: Global, sid: StringID) -> Result<Option<String>>
        // Below 391 it is the standard string, and otherwise the text of item `sid - 391`, if any.
        ensures string { IfOk result (λ found. option_map string_bytes found ≡ string_of self.now.items sid) }
        // The only error is `Memory`.
        ensures listed { IsListed (3 ∷ []) result }
    {
        if let Some(standard) = get_standard_string(sid) {
            return Ok(Some(String::from_str(alloc, standard)?));
        }
        match self.item(usize::from(sid).saturating_sub(STANDARD)) {
            None => Ok(None),
            Some(item) => Ok(Some(text_of(alloc, item)?)),
        }
    }
}

/// Reads an INDEX of strings.
///
/// # Errors
///
/// - The errors of reading an `Index`.
impl Value for Strings {
    ghost use Rattle.std.specs.Prelude.{[], ◌∷◌};
    ghost use Rattle.postscript_base.specs.Tape.Outcome.{same};
    ghost use Rattle.postscript_base.specs.Private.Seen.{each_as_it_is};
    ghost use Rattle.postscript_compact1.specs.Index.{Index, index};

    ghost Shown = { Index };

    ghost view = { same };

    ghost views = { same };

    ghost views_each = { each_as_it_is };

    ghost reading = { index };

    ghost refusals = { 1 ∷ 2 ∷ 3 ∷ 5 ∷ 6 ∷ [] };

    fn read<T: Tape>(alloc: Global, tape: &mut T) -> Result<Strings> {
        Ok(Strings(Index::read(alloc, tape)?))
    }
}

/// Decodes bytes as text.
#[tactic(auto, unfolding(crate::specs::Texts::text))]
fn text_of(alloc: Global, item: &[u8]) -> Result<String>
    ensures text { IfOk result (λ found. string_bytes found ≡ text item.now) }
    ensures listed { IsListed (3 ∷ []) result }
{
    let mut found = String::new(alloc);
    item.to_str_lossy_into(&mut found)?;
    Ok(found)
}
