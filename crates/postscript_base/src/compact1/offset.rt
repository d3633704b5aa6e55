//! Offsets, as fonts store them.
ghost use Rattle.std.specs.Prelude.{◌≡◌, ◌≢◌, ℕ, List, [], ◌∷◌, IsTrue};
ghost use Rattle.postscript_base.specs.Error.{IsListed};
ghost use Rattle.postscript_base.specs.Numbers.{number};
ghost use Rattle.postscript_base.specs.Compact1.Offset.{IsOffsetSize, offset, rising, behind, rises as the_test};
ghost use Rattle.postscript_base.specs.Tape.Outcome.{same};
ghost use Rattle.postscript_base.specs.Private.Seen.{each_as_it_is};
ghost use Rattle.postscript_base.specs.Tape.{Reads};

use crate::error::{Error, Result};
use crate::tape::{Linked, Tape, Value, Walue};
use std::alloc::Global;
use std::marker::Model;

/// The number of bytes in an offset.
pub type OffsetSize = u8;

/// An offset (Technical Note 5176, "Data Types").
#[derive(Clone, Copy, Debug, PartialEq, Eq, PartialOrd, Ord)]
pub struct Offset(pub u32);

impl Model for Offset {
    ghost use Rattle.std.specs.Prelude.{ℕ};
    ghost use Rattle.std.specs.Coded.{coded_ℕ};

    ghost Value = { ℕ };

    ghost coded = { coded_ℕ };

    ghost view = { λ offset. offset.0 };

    ghost inverse = { λ n. record { 0 = n } };
}

/// Reads an offset: a big-endian number. The parameter is its number of bytes, from 1 to 4.
///
/// # Errors
///
/// - `MalformedOffset`: the parameter is not from 1 to 4. The tape is then unchanged, whatever it contains.
/// - `UnexpectedEof`: fewer bytes are left.
/// - `Io`: any other fault of the tape.
#[tactic(auto, unfolding(crate::specs::Compact1::Offset::offset))]
impl Walue for Offset {
    type Parameter = OffsetSize;

    ghost Shown = { ℕ };

    ghost view = { same };

    ghost views = { same };

    ghost views_each = { each_as_it_is };

    ghost reading = { offset };

    ghost refusals = { 1 ∷ 2 ∷ 5 ∷ [] };

    fn read<T: Tape>(alloc: Global, tape: &mut T, size: OffsetSize) -> Result<Offset>
        // An honest tape gives exactly the number of the next `size` bytes, if the size is valid.
        ensures exact { Reads same (T.state tape.old) result (T.state tape.new) (offset size) }
        // The only errors are `UnexpectedEof`, `Io` and `MalformedOffset`.
        ensures listed { IsListed (1 ∷ 2 ∷ 5 ∷ []) result }
        // After `MalformedOffset` the state of the tape is unchanged.
        ensures untouched { result ≡ Err Error.MalformedOffset → T.state tape.new ≡ T.state tape.old }
        // A size other than 1 to 4 is `MalformedOffset`, and the tape is unchanged.
        ensures refused { ¬ IsOffsetSize size → (result ≡ Err Error.MalformedOffset) × (tape.new ≡ tape.old) }
        // A size from 1 to 4 is never `MalformedOffset`.
        ensures sized { IsOffsetSize size → result ≢ Err Error.MalformedOffset }
    {
        match size {
            1 => Ok(Offset(u32::from(u8::read(alloc, tape)?))),
            2 => Ok(Offset(u32::from(u16::read(alloc, tape)?))),
            3 => three_bytes(alloc, tape),
            4 => Ok(Offset(u32::read(alloc, tape)?)),
            _ => Err(Error::MalformedOffset),
        }
    }
}

/// Reads an offset of an INDEX (Technical Note 5176, "INDEX Data"). It is given the number of bytes, from 1 to 4, and
/// the previous offset, if there was one.
///
/// # Errors
///
/// - `MalformedOffset`: the number of bytes is not from 1 to 4.
/// - `UnexpectedEof`: fewer bytes are left.
/// - `MalformedIndex`: the first offset is not 1, or a later one is not greater than the one before it.
/// - `Io`: any other fault of the tape.
#[tactic(auto, unfolding(crate::specs::Compact1::Offset::rising))]
impl Linked for Offset {
    type Given = (OffsetSize, Option<Offset>);

    ghost Shown = { ℕ };

    ghost view = { same };

    ghost views = { same };

    ghost views_each = { each_as_it_is };

    ghost reading = { rising };

    ghost refusals = { 1 ∷ 2 ∷ 5 ∷ 6 ∷ [] };

    ghost left = { behind };

    ghost follows = { λ given next. IsTrue (the_test given.1 next) };

    fn read<T: Tape>(alloc: Global, tape: &mut T, given: Self::Given) -> Result<Offset> {
        let (size, last) = given;
        let next = <Offset as Walue>::read(alloc, tape, size)?;
        if rises(last, next) {
            Ok(next)
        } else {
            Err(Error::MalformedIndex)
        }
    }

    fn left(&self, given: Self::Given) -> Self::Given {
        (given.0, Some(*self))
    }
}

/// Returns whether an offset may follow the previous one.
fn rises(last: Option<Offset>, next: Offset) -> bool
    ensures { result ≡ the_test last next }
{
    match last {
        None => next.0 == 1,
        Some(last) => last.0 < next.0,
    }
}

/// Reads an offset of three bytes.
#[tactic(auto, unfolding(crate::specs::Numbers::number))]
fn three_bytes<T: Tape>(alloc: Global, tape: &mut T) -> Result<Offset>
    ensures exact { Reads same (T.state tape.old) result (T.state tape.new) (number 3) }
    ensures listed { IsListed (1 ∷ 2 ∷ []) result }
{
    let [high, middle, low] = <[u8; 3]>::read(alloc, tape)?;
    Ok(Offset(u32::from(high) * 65536 + u32::from(middle) * 256 + u32::from(low)))
}
