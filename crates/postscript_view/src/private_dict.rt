//! Private DICTs and their subroutines.
ghost use Rattle.std.specs.Prelude.{◌≡◌, ℕ, List, [], ◌∷◌, None, IfOk};
ghost use Rattle.postscript_base.specs.Compact1.Defaults.{first_of, look};
ghost use Rattle.postscript_base.specs.Error.{IsListed};
ghost use Rattle.postscript_base.specs.Tape.Outcome.{Answers, same};
ghost use Rattle.postscript_base.specs.Index.Lent.{items_of};
ghost use Rattle.postscript_view.specs.Order.{own_part as the_own_part, part as the_part, subroutines as the_subroutines, item_part as the_item_part};
ghost use Rattle.postscript_view.specs.Refusals.{part_refusals};

use crate::advance::Advance;
use crate::tables::{operations_of, slice_at};
use postscript_base::Result;
use postscript_base::compact1::{Operand, Operations, Operator};
use postscript_base::index::IndexView;
use postscript_compact1::font_set::operands::{bounds, place_at};
use postscript_type2::Operand as Difference;
use std::alloc::Global;

/// A Private DICT and its local subroutines.
#[derive(Drop)]
pub struct PrivateDict<'l> {
    /// The Private DICT.
    pub dictionary: Operations,
    /// The local subroutines.
    pub subroutines: IndexView<'l>,
    /// The Font DICT that names them, in a CID-keyed font.
    pub font_dictionary: Option<Operations>,
}

impl<'l> PrivateDict<'l> {
    ghost use Rattle.postscript_view.specs.Advances.{advance_of};
    ghost use Rattle.postscript_view.specs.Sizes.{private_size};
    ghost use Rattle.postscript_view.specs.Value.{part_shown};

    /// Returns the advance of glyphs whose charstring has no width, in glyph units.
    pub fn default_width(&self) -> Option<Operand>
        // The result is the first operand of `DefaultWidthX`, or its default.
        ensures { result ≡ first_of (look self.now.dictionary Operator.DefaultWidthX) }
    {
        self.dictionary.get_single(Operator::DefaultWidthX)
    }

    /// Returns the number to add to the width from a charstring, in glyph units.
    pub fn nominal_width(&self) -> Option<Operand>
        // The result is the first operand of `NominalWidthX`, or its default.
        ensures { result ≡ first_of (look self.now.dictionary Operator.NominalWidthX) }
    {
        self.dictionary.get_single(Operator::NominalWidthX)
    }

    /// The number of bytes of the Private DICT that the Font DICT names.
    pub(crate) fn private_size(&self) -> u64
        ensures { result ≡ private_size self.now }
    {
        let Some(dictionary) = &self.font_dictionary else {
            return 0;
        };
        let Some((size, _offset)) = dictionary.get_double(Operator::Private) else {
            return 0;
        };
        match size.to_i32() {
            Some(size) => size.max(0) as u64,
            None => 0,
        }
    }

    /// The advance of a glyph with this width from its charstring, or with none.
    pub(crate) fn advance_by(&self, width: Option<Difference>) -> Option<Advance>
        ensures { result ≡ advance_of self.now.dictionary width }
    {
        match width {
            Some(difference) => Some(Advance::Nominal(self.nominal_width()?, difference)),
            None => Some(Advance::Default(self.default_width()?)),
        }
    }

    /// The Private DICT that a DICT names, and its subroutines. They are empty if it is missing.
    #[tactic(auto, unfolding(crate::specs::Order::part))]
    pub(crate) fn open(
        alloc: Global,
        bytes: &'l [u8],
        dictionary: &Operations,
    ) -> Result<PrivateDict<'l>>
        ensures exact { (place : ℕ) → Answers part_shown result place (the_part dictionary.now bytes.now place) }
        ensures plain { IfOk result (λ part. part.font_dictionary ≡ None) }
        ensures listed { IsListed part_refusals result }
    {
        if dictionary.get_double(Operator::Private).is_none() {
            return Ok(PrivateDict {
                dictionary: Operations::empty(alloc),
                subroutines: IndexView::empty(),
                font_dictionary: None,
            });
        }
        PrivateDict::own(alloc, bytes, dictionary)
    }

    /// The part of the Font DICT in an item.
    #[tactic(auto, unfolding(crate::specs::Order::item_part))]
    pub(crate) fn of_item(alloc: Global, bytes: &'l [u8], item: &[u8]) -> Result<PrivateDict<'l>>
        ensures exact { (place : ℕ) → Answers part_shown result place (the_item_part item.now bytes.now place) }
        ensures listed { IsListed part_refusals result }
    {
        let dictionary = operations_of(alloc, item)?;
        let part = PrivateDict::open(alloc, bytes, &dictionary)?;
        Ok(PrivateDict {
            dictionary: part.dictionary,
            subroutines: part.subroutines,
            font_dictionary: Some(dictionary),
        })
    }

    /// The Private DICT that a DICT names, and its subroutines.
    #[tactic(auto, unfolding(crate::specs::Order::own_part))]
    fn own(alloc: Global, bytes: &'l [u8], dictionary: &Operations) -> Result<PrivateDict<'l>>
        ensures exact { (place : ℕ) → Answers part_shown result place (the_own_part dictionary.now bytes.now place) }
        ensures plain { IfOk result (λ part. part.font_dictionary ≡ None) }
        ensures listed { IsListed part_refusals result }
    {
        let (size, offset, place) = bounds(0, dictionary)?;
        let text = slice_at(bytes, place, size)?;
        let local = operations_of(alloc, text)?;
        let subroutines = open_subroutines(bytes, offset, &local)?;
        Ok(PrivateDict {
            dictionary: local,
            subroutines,
            font_dictionary: None,
        })
    }
}

/// The local subroutines of a Private DICT at an offset. There are none if its operator is missing.
#[tactic(auto, unfolding(crate::specs::Order::subroutines))]
fn open_subroutines<'l>(bytes: &'l [u8], offset: u32, local: &Operations) -> Result<IndexView<'l>>
    ensures exact { (place : ℕ) → Answers items_of result place (the_subroutines offset local.now bytes.now place) }
    ensures listed { IsListed (1 ∷ 5 ∷ 13 ∷ 14 ∷ 15 ∷ []) result }
{
    if local.get_single(Operator::Subrs).is_none() {
        return Ok(IndexView::empty());
    }
    let place = place_at(0, offset, local, Operator::Subrs)?;
    let (items, _next) = IndexView::open(bytes, place as usize)?;
    Ok(items)
}
