//! The parts of a glyph by its Font DICT.
ghost use Rattle.std.specs.Prelude.{◌≡◌, ℕ, ◌+◌, ◌<◌, ◌≤◌, length, IfSome, IfNone, List};
ghost use Rattle.postscript_base.specs.Index.Lent.{items_of};
ghost use Rattle.postscript_cff2.specs.Parts.{HasPrivate, HasSubroutines, HasIndex, IsPart, PrivateDict as ShownDict};

use crate::dictionary::Dictionary;
use crate::layout::{PRIVATE, SUBROUTINES, VS_INDEX, index_at};
use postscript_base::index::IndexView;

/// The parts that a Font DICT points to.
#[derive(Clone, Copy)]
pub struct PrivateDict<'l> {
    /// The Private DICT.
    pub private_dictionary: Dictionary<'l>,
    /// The Local Subr INDEX, empty if there is none.
    pub subroutines: IndexView<'l>,
    /// The `vsindex`: the number of the item variation data for the first blends. It is 0 if the Private DICT has none.
    pub index: usize,
}

/// The Private DICT of a Font DICT, and its offset.
fn private_of<'l>(bytes: &'l [u8], dictionary: &Dictionary) -> Option<(usize, Dictionary<'l>)>
    ensures found { IfSome result (λ read. HasPrivate bytes.now dictionary.now.bytes.now read.0 read.1.bytes.now) }
    ensures small { IfSome result (λ read. read.0 < 2147483648) }
    ensures none { IfNone result ((place : ℕ) (held : List ℕ) → HasPrivate bytes.now dictionary.now.bytes.now place held → ⊥) }
{
    let size = dictionary.offset(PRIVATE)?;
    let place = dictionary.second_offset(PRIVATE)?;
    if place > bytes.len() || bytes.len() - place < size {
        return None;
    }
    Some((
        place,
        Dictionary {
            bytes: &bytes[place..place + size],
        },
    ))
}

/// The local subroutines of a Private DICT at an offset.
fn subroutines_of<'l>(bytes: &'l [u8], place: usize, held: &Dictionary) -> Option<IndexView<'l>>
    requires { place < 2147483648 }
    ensures found { IfSome result (λ items. HasSubroutines bytes.now place held.now.bytes.now (items_of items)) }
    ensures none { IfNone result ((items : List (List ℕ)) → HasSubroutines bytes.now place held.now.bytes.now items → ⊥) }
{
    match held.offset(SUBROUTINES) {
        Some(offset) => index_at(bytes, place + offset),
        None => {
            if held.last(SUBROUTINES).is_none() {
                Some(IndexView::empty())
            } else {
                None
            }
        }
    }
}

/// The `vsindex` of a Private DICT, or 0 if it has none.
fn index_of(held: &Dictionary) -> Option<usize>
    ensures found { IfSome result (λ index. HasIndex held.now.bytes.now index) }
    ensures none { IfNone result ((index : ℕ) → HasIndex held.now.bytes.now index → ⊥) }
{
    match held.offset(VS_INDEX) {
        Some(index) => Some(index),
        None => {
            if held.last(VS_INDEX).is_none() {
                Some(0)
            } else {
                None
            }
        }
    }
}

impl<'l> PrivateDict<'l> {
    ghost use Rattle.postscript_cff2.specs.Shown.{part_shown};

    /// Reads the parts of a Font DICT.
    ///
    /// Returns `None` if its Private DICT is missing or truncated, if the local subroutines of that DICT are malformed,
    /// or if its `vsindex` is not a whole number from 0.
    pub fn read(bytes: &'l [u8], dictionary: &Dictionary) -> Option<PrivateDict<'l>>
        // The parts are exactly the ones that the Font DICT points to.
        ensures found { IfSome result (λ part. IsPart bytes.now dictionary.now.bytes.now (part_shown part)) }
        // `None` only if the Font DICT does not point to such parts.
        ensures none { IfNone result ((part : ShownDict) → IsPart bytes.now dictionary.now.bytes.now part → ⊥) }
    {
        let Some((place, private_dictionary)) = private_of(bytes, dictionary) else {
            return None;
        };
        let Some(subroutines) = subroutines_of(bytes, place, &private_dictionary) else {
            return None;
        };
        let Some(index) = index_of(&private_dictionary) else {
            return None;
        };
        Some(PrivateDict {
            private_dictionary,
            subroutines,
            index,
        })
    }
}
