//! Skipping an INDEX (Technical Note 5176, "INDEX Data").
ghost use Rattle.std.specs.Prelude.{◌≡◌, [], ◌∷◌};
ghost use Rattle.postscript_base.specs.Error.{IsListed};
ghost use Rattle.postscript_base.specs.Tape.{Reads};
ghost use Rattle.postscript_base.specs.Tape.At.{at};
ghost use Rattle.postscript_base.specs.Tape.Outcome.{same};
ghost use Rattle.postscript_compact1.specs.Private.Passed.{passed, size_of_items as the_size_of_items, filled_count, index_count};

use super::read_offsets;
use postscript_base::compact1::Offset;
use postscript_base::{Error, Result, Tape, Value};
use std::alloc::Global;
use std::io::SeekFrom;

/// Skips the INDEX at the offset `place` from the start of the tape, and returns its number of items. No item is read.
/// Each offset takes four bytes of memory.
///
/// # Errors
///
/// - `UnexpectedEof` or `Io`: the offset is past the end.
/// - The errors of reading an `Index`.
#[tactic(auto, using(crate::proofs::Passed::count_needs), unfolding(postscript_base::specs::Tape::At::at))]
pub(crate) fn pass_index_at<T: Tape>(alloc: Global, tape: &mut T, place: u64) -> Result<usize>
    ensures exact { Reads same (T.state tape.old) result (T.state tape.new) (at place index_count) }
    ensures listed { IsListed (1 ∷ 2 ∷ 3 ∷ 5 ∷ 6 ∷ []) result }
{
    tape.jump(place)?;
    pass_index(alloc, tape)
}

/// Skips an INDEX, and returns its number of items.
#[tactic(auto, unfolding(crate::specs::Private::Passed::index_count))]
fn pass_index<T: Tape>(alloc: Global, tape: &mut T) -> Result<usize>
    ensures exact { Reads same (T.state tape.old) result (T.state tape.new) index_count }
    ensures listed { IsListed (1 ∷ 2 ∷ 3 ∷ 5 ∷ 6 ∷ []) result }
{
    let count = u16::read(alloc, tape)?;
    if count == 0 {
        return Ok(0);
    }
    pass_filled(alloc, tape, count)
}

/// Skips the rest of an INDEX whose count is not 0, and returns the count.
#[tactic(auto, unfolding(crate::specs::Private::Passed::filled_count))]
fn pass_filled<T: Tape>(alloc: Global, tape: &mut T, count: u16) -> Result<usize>
    ensures exact { Reads same (T.state tape.old) result (T.state tape.new) (filled_count count) }
    ensures listed { IsListed (1 ∷ 2 ∷ 3 ∷ 5 ∷ 6 ∷ []) result }
{
    let offset_size = u8::read(alloc, tape)?;
    let offsets = read_offsets(alloc, tape, offset_size, count)?;
    pass_bytes(tape, size_of_items(&offsets))?;
    Ok(usize::from(count))
}

/// Returns the total size of the items: the last offset minus the first, which is 1. It is 0 if there are no offsets.
fn size_of_items(offsets: &[Offset]) -> u32
    ensures { result ≡ the_size_of_items offsets.now }
{
    match offsets {
        [] => 0,
        [.., last] => last.0.saturating_sub(1),
    }
}

/// Skips `count` bytes without reading them. The end of the tape shows whether they are there.
///
/// # Errors
///
/// - `UnexpectedEof`: fewer bytes are left.
/// - `Io`: any other fault of the tape.
#[tactic(auto, unfolding(crate::specs::Private::Passed::passed))]
fn pass_bytes<T: Tape>(tape: &mut T, count: u32) -> Result<()>
    ensures exact { Reads (λ _. tt) (T.state tape.old) result (T.state tape.new) (passed count) }
    ensures listed { IsListed (1 ∷ 2 ∷ []) result }
{
    let place = tape.position()?;
    let end = tape.seek_to(SeekFrom::End(0))?;
    let Some(behind) = place.checked_add(u64::from(count)) else {
        return Err(Error::UnexpectedEof);
    };
    if end < behind {
        return Err(Error::UnexpectedEof);
    }
    tape.jump(behind)?;
    Ok(())
}
