//! An INDEX that stays in its bytes.
ghost use Rattle.std.specs.Prelude.{◌≡◌, ◌⊎◌, ℕ, ◌+◌, ◌*◌, ◌<◌, ◌≤◌, ◌^◌, List, [], ◌∷◌, length, IfOk, IfErr, MatchResult, option_map, slice_get, slice_index_or, IsTrue, ◌↔◌};
ghost use Rattle.postscript_base.specs.Error.{IsListed};
ghost use Rattle.postscript_base.specs.declared.error.Error.TheVariants as errors;
ghost use Rattle.postscript_base.specs.Index.{count_at, place_of, offset_at, AreInOrder, HasBadSize, IsIndex, IsLaidOut, IsOpened, IsOutOfOrder, opened, spread};

pub mod laws;
pub mod number;
mod wide;

use crate::{Error, Result};
use number::{lent, number_at, number_within};
use std::iter::FusedIterator;
use std::marker::Model;

/// A view of the items of an INDEX. Each item is a slice of the bytes of the font (Technical Note 5176, "INDEX Data").
/// An item may be empty.
#[derive(Clone, Copy)]
pub struct IndexView<'l> {
    pub(crate) bytes: &'l [u8],
    pub(crate) start: usize,
    pub(crate) size: usize,
    pub(crate) count: usize,
    ghost sized: { size ≤ 4 },
    ghost counted: { count < 4294967296 },
    ghost room: { start + (count + 1) * size ≤ length bytes.now },
}

impl<'l> IndexView<'l> {
    ghost use Rattle.postscript_base.specs.Index.Lent.{items_of, AreLentFrom, Opens};

    /// Returns a view without items.
    #[tactic(auto, using(crate::proofs::ItemsAt::no_items))]
    pub fn empty() -> IndexView<'l>
        // The view has no items.
        ensures { items_of result ≡ [] }
    {
        IndexView {
            bytes: &[],
            start: 0,
            size: 0,
            count: 0,
        }
    }

    /// Opens the INDEX at the offset `place`, and returns its items and the offset after it.
    ///
    /// Only the last of the INDEX's own offsets is checked. If the others are out of order, an item between offsets
    /// that decrease is empty, and an item that goes past the end is truncated.
    ///
    /// # Errors
    ///
    /// - `UnexpectedEof`: the count, the size, an offset or the last item is truncated.
    /// - `MalformedOffset`: the offset size is 0 or greater than 4.
    #[tactic(auto, unfolding(crate::specs::Index::opened))]
    #[inline(always)]
    pub fn open(bytes: &'l [u8], place: usize) -> Result<(IndexView<'l>, usize)>
        // The result is exactly what `opened` computes from the bytes (specs/Index.antt).
        ensures reads { Opens result (opened bytes.now place) }
        // Gives items and end of an INDEX at `place`, sorted or not. Fails exactly without one.
        ensures exact { MatchResult result
            (λ read. IsOpened bytes.now place (items_of read.0) read.1)
            (λ e. (items : List (List ℕ)) (next : ℕ) → IsOpened bytes.now place items next → ⊥) }
        // The only errors are `UnexpectedEof` and `MalformedOffset`.
        ensures listed { IsListed (1 ∷ 5 ∷ []) result }
    {
        let count = number_within(bytes, place, 2)?;
        if count == 0 {
            return Ok((IndexView::empty(), place + 2));
        }
        IndexView::filled(bytes, place, count)
    }

    /// Reads the INDEX at the offset `place`, and returns its items and the offset after it. It succeeds exactly if
    /// there is an INDEX whose own offsets begin with 1 and do not decrease.
    ///
    /// # Errors
    ///
    /// - The errors of [`IndexView::open`].
    /// - `MalformedIndex`: there is an INDEX, but its offsets are not in order.
    pub fn read(bytes: &'l [u8], place: usize) -> Result<(IndexView<'l>, usize)>
        // Gives the items and the end of a sorted INDEX at `place`. Fails exactly if there is none.
        ensures exact { MatchResult result
            (λ read. IsIndex bytes.now place (items_of read.0) read.1)
            (λ e. (items : List (List ℕ)) (next : ℕ) → IsIndex bytes.now place items next → ⊥) }
        // An error is `MalformedOffset` exactly if a nonzero count precedes a size not from 1 to 4.
        ensures sizes { IfErr result (λ e. (e ≡ errors.MalformedOffset) ↔ HasBadSize bytes.now place 2) }
        // An error is `MalformedIndex` exactly if there is an INDEX with its offsets out of order.
        ensures order { IfErr result (λ e. (e ≡ errors.MalformedIndex) ↔ IsOutOfOrder bytes.now place) }
        // The only errors are `UnexpectedEof`, `MalformedOffset` and `MalformedIndex`.
        ensures listed { IsListed (1 ∷ 5 ∷ 6 ∷ []) result }
    {
        let count = number_within(bytes, place, 2)?;
        if count == 0 {
            return Ok((IndexView::empty(), place + 2));
        }
        let (items, next) = IndexView::filled(bytes, place, count)?;
        if items.are_in_order() {
            Ok((items, next))
        } else {
            Err(Error::MalformedIndex)
        }
    }

    /// Reads the items after their count.
    #[tactic(auto, unfolding(crate::specs::Index::spread))]
    #[inline(always)]
    fn filled(bytes: &'l [u8], place: usize, count: usize) -> Result<(IndexView<'l>, usize)>
        requires within { place + 2 ≤ length bytes.now }
        requires some { 0 < count }
        requires counted { count ≡ count_at bytes.now place }
        requires most { count < 65536 }
        ensures exact { MatchResult result
            (λ read. IsLaidOut bytes.now place read.1)
            (λ e. (next : ℕ) → IsLaidOut bytes.now place next → ⊥) }
        ensures reads { Opens result (spread bytes.now place) }
        ensures lent { IfOk result (λ read. AreLentFrom bytes.now place read.0) }
        ensures sizes { IfErr result (λ e. (e ≡ errors.MalformedOffset) ↔ HasBadSize bytes.now place 2) }
        ensures listed { IsListed (1 ∷ 5 ∷ []) result }
    {
        let size = number_within(bytes, place + 2, 1)?;
        if size < 1 || size > 4 {
            return Err(Error::MalformedOffset);
        }
        let start = place + 3;
        if bytes.len() - start < (count + 1) * size {
            return Err(Error::UnexpectedEof);
        }
        let items = IndexView {
            bytes,
            start,
            size,
            count,
        };
        let next = items.place(count);
        if next > bytes.len() {
            return Err(Error::UnexpectedEof);
        }
        Ok((items, next))
    }

    /// Returns the number of items.
    #[tactic(auto, using(crate::proofs::ItemsAt::length_items))]
    pub fn len(&self) -> usize
        // The result is the number of items.
        ensures { result ≡ length (items_of self.now) }
    {
        self.count
    }

    /// Returns offset `i` as it is stored.
    #[inline(always)]
    fn offset(&self, i: usize) -> usize
        requires { i ≤ self.now.count }
        ensures exact { result ≡ offset_at self.now.bytes.now self.now.start self.now.size i }
        ensures small { result < 2 ^ (8 * self.now.size) }
    {
        number_at(self.bytes, self.start + i * self.size, self.size)
    }

    /// Returns whether the offsets begin with 1 and do not decrease.
    pub(crate) fn are_in_order(&self) -> bool
        ensures { IsTrue result ↔ AreInOrder self.now.bytes.now self.now.start self.now.size self.now.count }
    {
        let mut low = self.offset(0);
        if low != 1 {
            return false;
        }
        for i in 0..self.count {
            let high = self.offset(i + 1);
            if high < low {
                return false;
            }
            low = high;
        }
        true
    }

    /// Returns the offset in the bytes that the stored offset `i` points to.
    #[inline(always)]
    pub(crate) fn place(&self, i: usize) -> usize
        requires { i ≤ self.now.count }
        ensures { result ≡ place_of self.now.bytes.now self.now.start self.now.size self.now.count i }
    {
        (self.start + (self.count + 1) * self.size + self.offset(i)).saturating_sub(1)
    }

    /// Returns the bytes of item `i`, counted from 0. The caller proves that there is such an item.
    #[tactic(auto, using(crate::proofs::ItemsAt::item_read, crate::proofs::ItemsAt::within, crate::proofs::ItemsAt::length_items))]
    pub fn item(&self, i: usize) -> &'l [u8]
        requires { i < length (items_of self.now) }
        // The result is the bytes of item `i`.
        ensures { result.now ≡ slice_index_or (items_of self.now) i result.now }
    {
        lent(self.bytes, self.place(i), self.place(i + 1))
    }

    /// Returns the bytes of item `i`, counted from 0. It is `None` if there is no such item.
    #[tactic(auto, using(crate::proofs::ItemsAt::item_at_place, crate::proofs::ItemsAt::item_past))]
    #[inline(always)]
    pub fn get(&self, i: usize) -> Option<&'l [u8]>
        // The result is the bytes of item `i`, or `None` if there is no such item.
        ensures { option_map (λ item. item.now) result ≡ slice_get (items_of self.now) i }
    {
        if i >= self.count {
            return None;
        }
        Some(lent(self.bytes, self.place(i), self.place(i + 1)))
    }

    /// Iterates over the items in order.
    ///
    /// ```rust
    /// pub fn bytes_of_items(items: &IndexView<'_>) -> usize {
    ///     let mut bytes = 0usize;
    ///     for item in items.iter() {
    ///         bytes = bytes.saturating_add(item.len());
    ///     }
    ///     bytes
    /// }
    /// ```
    pub fn iter(&self) -> ItemsIter<'l>
        // The iterator yields all items in order.
        ensures { result ≡ items_of self.now }
    {
        ItemsIter {
            items: *self,
            next: 0,
        }
    }
}

/// An iterator over the items of an INDEX in order, from [`IndexView::iter`].
#[derive(Drop)]
pub struct ItemsIter<'l> {
    items: IndexView<'l>,
    next: usize,
}

impl<'l> Model for ItemsIter<'l> {
    ghost use Rattle.std.specs.Prelude.{ℕ, List, drop};
    ghost use Rattle.postscript_base.specs.Index.Lent.{items_of};

    ghost Value = { List (List ℕ) };

    ghost view = { λ left. drop left.next (items_of left.items) };
}

#[tactic(auto, using(crate::proofs::ItemsAt::rest_from, crate::proofs::ItemsAt::rest_past))]
impl<'l> Iterator for ItemsIter<'l> {
    type Item = &'l [u8];

    ghost use Rattle.std.specs.Iterator.{YieldsFirstBy, item_count};

    ghost next_gives = { YieldsFirstBy (λ item. item.now) (λ left. left) };

    ghost remaining = { item_count (λ left. left) };

    /// Returns the next item, and `None` after the last one.
    fn next(&mut self) -> Option<&'l [u8]> {
        if self.next >= self.items.len() {
            return None;
        }
        let item = self.items.item(self.next);
        self.next += 1;
        Some(item)
    }
}

impl<'l> FusedIterator for ItemsIter<'l> {}
