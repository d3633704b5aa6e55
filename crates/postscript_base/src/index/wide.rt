//! An INDEX whose count has four bytes, as in `CFF2`.
ghost use Rattle.std.specs.Prelude.{◌≡◌, ◌↔◌, ℕ, ◌+◌, ◌<◌, ◌≤◌, List, [], ◌∷◌, length, IfOk, IfErr, MatchResult};
ghost use Rattle.postscript_base.specs.Error.{IsListed};
ghost use Rattle.postscript_base.specs.declared.error.Error.TheVariants as errors;
ghost use Rattle.postscript_base.specs.Index.{HasBadSize};
ghost use Rattle.postscript_base.specs.Index.Wide.{wide_count_at, IsWideIndex, IsWideLaidOut, IsWideOpened, IsWideOutOfOrder};

use super::IndexView;
use super::number::number_within;
use crate::{Error, Result};

impl<'l> IndexView<'l> {
    ghost use Rattle.postscript_base.specs.Index.Lent.{items_of, AreWideLentFrom};

    /// Opens the INDEX at the offset `place` as [`IndexView::open`] does, but with a count of four bytes, as in `CFF2`.
    ///
    /// # Errors
    ///
    /// - The errors of [`IndexView::open`].
    pub fn open_wide(bytes: &'l [u8], place: usize) -> Result<(IndexView<'l>, usize)>
        // Gives items and end of an INDEX at `place`, sorted or not. Fails exactly without one.
        ensures exact { MatchResult result
            (λ read. IsWideOpened bytes.now place (items_of read.0) read.1)
            (λ e. (items : List (List ℕ)) (next : ℕ) → IsWideOpened bytes.now place items next → ⊥) }
        // An error is `MalformedOffset` exactly if a nonzero count precedes a size not from 1 to 4.
        ensures sizes { IfErr result (λ e. (e ≡ errors.MalformedOffset) ↔ HasBadSize bytes.now place 4) }
        // The only errors are `UnexpectedEof` and `MalformedOffset`.
        ensures listed { IsListed (1 ∷ 5 ∷ []) result }
    {
        let count = number_within(bytes, place, 4)?;
        if count == 0 {
            return Ok((IndexView::empty(), place + 4));
        }
        IndexView::filled_wide(bytes, place, count)
    }

    /// Reads the INDEX at the offset `place` as [`IndexView::read`] does, but with a count of four bytes, as in `CFF2`.
    ///
    /// # Errors
    ///
    /// - The errors of [`IndexView::read`].
    pub fn read_wide(bytes: &'l [u8], place: usize) -> Result<(IndexView<'l>, usize)>
        // Gives the items and the end of a sorted INDEX at `place`. Fails exactly if there is none.
        ensures exact { MatchResult result
            (λ read. IsWideIndex bytes.now place (items_of read.0) read.1)
            (λ e. (items : List (List ℕ)) (next : ℕ) → IsWideIndex bytes.now place items next → ⊥) }
        // An error is `MalformedOffset` exactly if a nonzero count precedes a size not from 1 to 4.
        ensures sizes { IfErr result (λ e. (e ≡ errors.MalformedOffset) ↔ HasBadSize bytes.now place 4) }
        // An error is `MalformedIndex` exactly if there is an INDEX with its offsets out of order.
        ensures order { IfErr result (λ e. (e ≡ errors.MalformedIndex) ↔ IsWideOutOfOrder bytes.now place) }
        // The only errors are `UnexpectedEof`, `MalformedOffset` and `MalformedIndex`.
        ensures listed { IsListed (1 ∷ 5 ∷ 6 ∷ []) result }
    {
        let count = number_within(bytes, place, 4)?;
        if count == 0 {
            return Ok((IndexView::empty(), place + 4));
        }
        let (items, next) = IndexView::filled_wide(bytes, place, count)?;
        if items.are_in_order() {
            Ok((items, next))
        } else {
            Err(Error::MalformedIndex)
        }
    }

    /// Reads the items after their count of four bytes.
    fn filled_wide(bytes: &'l [u8], place: usize, count: usize) -> Result<(IndexView<'l>, usize)>
        requires within { place + 4 ≤ length bytes.now }
        requires some { 0 < count }
        requires counted { count ≡ wide_count_at bytes.now place }
        requires most { count < 4294967296 }
        ensures exact { MatchResult result
            (λ read. IsWideLaidOut bytes.now place read.1)
            (λ e. (next : ℕ) → IsWideLaidOut bytes.now place next → ⊥) }
        ensures lent { IfOk result (λ read. AreWideLentFrom bytes.now place read.0) }
        ensures sizes { IfErr result (λ e. (e ≡ errors.MalformedOffset) ↔ HasBadSize bytes.now place 4) }
        ensures listed { IsListed (1 ∷ 5 ∷ []) result }
    {
        let size = number_within(bytes, place + 4, 1)?;
        if size < 1 || size > 4 {
            return Err(Error::MalformedOffset);
        }
        let start = place + 5;
        if bytes.len() - start < (count + 1) * size {
            return Err(Error::UnexpectedEof);
        }
        let items = IndexView {
            bytes,
            start,
            size,
            count,
        };
        let next = items.place(count);
        if next > bytes.len() {
            return Err(Error::UnexpectedEof);
        }
        Ok((items, next))
    }
}
