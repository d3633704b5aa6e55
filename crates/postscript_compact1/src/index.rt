//! INDEX structures: items, and the offsets between them (Technical Note 5176, "INDEX Data").
ghost use Rattle.std.specs.Prelude.{◌≡◌, ℕ, ◌+◌, ◌<◌, List, [], ◌∷◌, length, map, refl, IfOk, IsTrue, None, slice_get, vec_len};
ghost use Rattle.std.specs.Option.{option_copied};
ghost use Rattle.postscript_base.specs.Error.{IsListed};
ghost use Rattle.postscript_base.specs.Numbers.{slice};
ghost use Rattle.postscript_base.specs.Tape.{Reads, IsHonest};
ghost use Rattle.postscript_base.specs.Compact1.Offset.{behind, rises};
ghost use Rattle.postscript_base.specs.Tape.Loops.{AreLinked};
ghost use Rattle.postscript_base.specs.Tape.Outcome.{same};
ghost use Rattle.postscript_base.specs.Private.Seen.{each_as_it_is};
ghost use Rattle.postscript_compact1.specs.IndexAt.{IsFilled, IsWhole};
ghost use Rattle.postscript_compact1.specs.Index.{empty as no_items, filled, index, lengths, lengths_from, offsets as the_offsets};

mod char_strings;
mod dictionaries;
pub mod laws;
mod names;
mod passed;
mod strings;
mod subroutines;

pub use crate::standard_strings::get_standard_string;
pub use char_strings::CharStrings;
pub use dictionaries::Dictionaries;
pub(crate) use dictionaries::operations_of;
pub use names::Names;
pub(crate) use passed::pass_index_at;
use postscript_base::compact1::{Offset, OffsetSize};
use postscript_base::tape::{Source, read_chain, read_each};
use postscript_base::{Result, Tape, Value, Walue};
use std::alloc::Global;
use std::marker::Model;
use std::slice::Iter;
pub use strings::Strings;
pub use subroutines::Subroutines;

/// An INDEX, read into memory.
#[derive(Debug, Drop)]
pub struct Index {
    /// The number of items.
    pub count: u16,
    /// The number of bytes in an offset. It is 0 if there are no items.
    pub offset_size: OffsetSize,
    /// The offsets that bound the items, counted from the byte before the first item. The list is empty if there are no
    /// items.
    pub offsets: Vec<Offset>,
    /// The items.
    pub items: Vec<Vec<u8>>,
}

impl Model for Index {
    ghost use Rattle.std.specs.Prelude.{map};
    ghost use Rattle.postscript_compact1.specs.Index.{Index};

    ghost Value = { Index };

    ghost view = { λ index. record {
      count = index.count;
      offset_size = index.offset_size;
      offsets = index.offsets.items;
      items =
          map (λ item. item.items) index.items.items;
    } };
}

impl Index {
    /// Returns an INDEX without items. Its count and its offset size are 0.
    pub fn empty(alloc: Global) -> Self
        // The INDEX is the empty one, without items and offsets.
        ensures { result ≡ no_items }
    {
        Index {
            count: 0,
            offset_size: 0,
            offsets: Vec::new(alloc),
            items: Vec::new(alloc),
        }
    }

    /// Returns the items as a slice of lists of bytes, as `Program::new` expects the subroutines of a font.
    pub fn data(&self) -> &[Vec<u8>]
        // The slice has the items in order.
        ensures { map (λ item. item.items) result.now ≡ self.now.items }
    {
        self.items.as_slice()
    }

    /// Returns the number of items.
    pub fn len(&self) -> usize
        // The result is the number of items.
        ensures { result ≡ length self.now.items }
    {
        self.items.len()
    }

    /// Returns the bytes of item `i`, counted from 0. It is `None` if there is no such item.
    ///
    /// ```rust
    /// pub fn glyph_code<'l>(font: &'l FontSet, dictionary: usize, glyph: GlyphID) -> Option<&'l [u8]> {
    ///     let char_strings = font.char_strings.get(dictionary)?;
    ///     char_strings.item(usize::from(glyph))
    /// }
    /// ```
    pub fn item(&self, i: usize) -> Option<&[u8]>
        // The result is the bytes of item `i`, or `None` if there is no such item.
        ensures { option_copied result ≡ slice_get self.now.items i }
    {
        Some(self.items.get(i)?.as_slice())
    }

    /// Iterates over the items in order, each a list of bytes.
    ///
    /// ```rust
    /// pub fn bytes_of_items(index: &Index) -> usize {
    ///     let mut bytes = 0usize;
    ///     for item in index.iter() {
    ///         bytes = bytes.saturating_add(item.len());
    ///     }
    ///     bytes
    /// }
    /// ```
    pub fn iter(&self) -> Iter<'_, Vec<u8>>
        // The iterator yields all items in order.
        ensures { map (λ item. item.items) result.rest.now ≡ self.now.items }
    {
        self.items.iter()
    }

    /// Returns a copy of the INDEX. It allocates a list of offsets, a list of items, and the bytes of each item.
    ///
    /// # Errors
    ///
    /// - `Memory`: out of memory.
    pub fn clone(&self) -> Result<Self>
        // The copy is equal to the original.
        ensures equal { IfOk result (λ index. index ≡ self.now) }
        // The only error is `Memory`.
        ensures listed { IsListed (3 ∷ []) result }
    {
        Ok(Index {
            count: self.count,
            offset_size: self.offset_size,
            offsets: self.offsets.clone()?,
            items: self.items.clone()?,
        })
    }
}

/// Reads a count of two bytes. If it is not 0, the offset size, the offsets (one more than there are items) and the
/// items follow (Technical Note 5176, "INDEX Data").
///
/// An `Index` that was read is empty or has as many items as its count says. Its offsets begin with 1 and increase, and
/// the length of item `i` is the difference between offsets `i + 1` and `i`. An empty item is an error.
///
/// # Errors
///
/// The bytes are checked in their order.
///
/// - `UnexpectedEof`: the count, the offset size, an offset or an item is truncated.
/// - `MalformedOffset`: the offset size is 0 or greater than 4.
/// - `MalformedIndex`: the first offset is not 1, or a later one is not greater than the one before it.
/// - `Io`: any other fault of the tape.
/// - `Memory`: out of memory.
#[tactic(auto, using(crate::proofs::IndexIs::empty_whole), unfolding(crate::specs::Index::index))]
impl Value for Index {
    ghost use Rattle.std.specs.Prelude.{[], ◌∷◌};
    ghost use Rattle.postscript_base.specs.Tape.Outcome.{same};
    ghost use Rattle.postscript_base.specs.Private.Seen.{each_as_it_is};
    ghost use Rattle.postscript_base.specs.Tape.{Reads, IsHonest};
    ghost use Rattle.postscript_compact1.specs.Index.{Index, index};
    ghost use Rattle.postscript_compact1.specs.IndexAt.{IsWhole};

    ghost Shown = { Index };

    ghost view = { same };

    ghost views = { same };

    ghost views_each = { each_as_it_is };

    ghost reading = { index };

    ghost refusals = { 1 ∷ 2 ∷ 3 ∷ 5 ∷ 6 ∷ [] };

    fn read<T: Tape>(alloc: Global, tape: &mut T) -> Result<Index>
        // On an honest tape the result is exactly what `index` gives, unless memory runs out.
        ensures exact { Reads same (T.state tape.old) result (T.state tape.new) index }
        // The only errors are `UnexpectedEof`, `Io`, `Memory`, `MalformedOffset`, `MalformedIndex`.
        ensures listed { IsListed (1 ∷ 2 ∷ 3 ∷ 5 ∷ 6 ∷ []) result }
        // An INDEX from an honest tape is empty, or its count, offsets and items agree (`IsWhole`).
        ensures whole { IsHonest (T.state tape.old) → IfOk result IsWhole }
        // An INDEX from any tape is empty, or its count, offsets and items agree (`IsWhole`).
        ensures whole_anywhere { IfOk result IsWhole }
    {
        let count = u16::read(alloc, tape)?;
        if count == 0 {
            return Ok(Index::empty(alloc));
        }
        read_filled(alloc, tape, count)
    }
}

/// Reads the rest of an INDEX whose count is not 0.
#[tactic(auto, unfolding(crate::specs::Index::filled))]
fn read_filled<T: Tape>(alloc: Global, tape: &mut T, count: u16) -> Result<Index>
    ensures exact { Reads same (T.state tape.old) result (T.state tape.new) (filled count) }
    ensures listed { IsListed (1 ∷ 2 ∷ 3 ∷ 5 ∷ 6 ∷ []) result }
    ensures filled { 0 < count → IfOk result IsFilled }
{
    let offset_size = u8::read(alloc, tape)?;
    let offsets = read_offsets(alloc, tape, offset_size, count)?;
    let lengths = lengths_of(alloc, &offsets)?;
    let items = read_each(alloc, tape, &lengths, ())?;
    Ok(Index {
        count,
        offset_size,
        offsets,
        items,
    })
}

/// Reads the offsets, one more than there are items.
#[tactic(auto, unfolding(crate::specs::Index::offsets))]
fn read_offsets<T: Tape>(
    alloc: Global,
    tape: &mut T,
    size: OffsetSize,
    count: u16,
) -> Result<Vec<Offset>>
    ensures exact { Reads (λ offsets. offsets.items) (T.state tape.old) result (T.state tape.new) (the_offsets size (count + 1)) }
    ensures listed { IsListed (3 ∷ 1 ∷ 2 ∷ 5 ∷ 6 ∷ []) result }
    ensures linked { IfOk result
        (λ offsets. AreLinked (λ given next. IsTrue (rises given.1 next)) behind (size, None) (count + 1) offsets.items) }
{
    read_chain(alloc, tape, (size, None), usize::from(count) + 1)
}

/// The length of an item.
#[derive(Clone, Copy, Debug)]
struct Length(u32);

impl Source for Length {
    type Given = ();

    type Value = Vec<u8>;

    ghost Seen = { ℕ };

    ghost seen = { λ length. length.0 };

    ghost Shown = { List ℕ };

    ghost view = { λ item. item.items };

    ghost views = { map (λ item. item.items) };

    ghost views_each = { λ _. refl };

    ghost reading = { λ _. slice };

    ghost refusals = { 1 ∷ 2 ∷ 3 ∷ [] };

    ghost fits = { λ length item. vec_len item ≡ length.0 };

    #[inline(always)]
    fn read<T: Tape>(&self, alloc: Global, tape: &mut T, _given: ()) -> Result<Vec<u8>> {
        Vec::<u8>::read(alloc, tape, self.0 as usize)
    }
}

/// Returns the lengths of the items between offsets.
fn lengths_of(alloc: Global, offsets: &[Offset]) -> Result<Vec<Length>>
    ensures lengths { IfOk result (λ found. map (λ length. length.0) found.items ≡ lengths offsets.now) }
    ensures listed { IsListed (3 ∷ []) result }
{
    match offsets {
        [] => Ok(Vec::new(alloc)),
        [first, others @ ..] => lengths_from(alloc, *first, others),
    }
}

/// Returns the lengths of the items between an offset and the ones that follow.
fn lengths_from(alloc: Global, first: Offset, others: &[Offset]) -> Result<Vec<Length>>
    ensures lengths { IfOk result (λ found. map (λ length. length.0) found.items ≡ lengths_from first others.now) }
    ensures listed { IsListed (3 ∷ []) result }
{
    let mut lengths = Vec::with_capacity(alloc, others.len())?;
    let mut low = first;
    for high in others {
        lengths.push(Length(high.0.saturating_sub(low.0)))?;
        low = *high;
    }
    Ok(lengths)
}
