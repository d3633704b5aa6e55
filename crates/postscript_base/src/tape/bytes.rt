//! A list of bytes.
ghost use Rattle.std.specs.Prelude.{◌≡◌, ℕ, ◌+◌, List, [], ◌∷◌, IfOk, OnOk, vec_len, map, refl};
ghost use Rattle.postscript_base.specs.Error.{IsListed};
ghost use Rattle.postscript_base.specs.Tape.{Reads};
ghost use Rattle.postscript_base.specs.Numbers.{slice, slice_behind};

use super::{Tape, Walue};
use crate::error::Result;
use std::alloc::Global;

/// The most bytes by which a list grows before they are read.
const PIECE: usize = 65_536;

/// Reads bytes as they are. The parameter is their number, which may be 0. The list grows as bytes are read, so that
/// a large count by itself takes no memory (tested by `tools/hostile.py fonts`).
///
/// # Errors
///
/// - `UnexpectedEof`: fewer bytes are left.
/// - `Io`: any other fault of the tape.
/// - `Memory`: out of memory.
#[tactic(auto, unfolding(crate::specs::Numbers::slice))]
impl Walue for Vec<u8> {
    type Parameter = usize;

    ghost Shown = { List ℕ };

    ghost view = { λ bytes. bytes.items };

    ghost views = { map (λ bytes. bytes.items) };

    ghost views_each = { λ _. refl };

    ghost reading = { slice };

    ghost refusals = { 1 ∷ 2 ∷ 3 ∷ [] };

    #[inline(always)]
    fn read<T: Tape>(alloc: Global, tape: &mut T, count: usize) -> Result<Vec<u8>>
        // On an honest tape it reads exactly the next `count` bytes, unless memory runs out.
        ensures exact { Reads (λ bytes. bytes.items) (T.state tape.old) result (T.state tape.new) (slice count) }
        // The only errors are `UnexpectedEof`, `Io` and `Memory`.
        ensures listed { IsListed (1 ∷ 2 ∷ 3 ∷ []) result }
        // On any tape the list has `count` bytes.
        ensures len { IfOk result (λ bytes. vec_len bytes ≡ count) }
    {
        let mut bytes = Vec::new(alloc);
        while bytes.len() < count {
            let more = (count - bytes.len()).min(PIECE);
            append(tape, &mut bytes, more)?;
        }
        Ok(bytes)
    }
}

/// Appends the next `more` bytes.
#[inline(always)]
fn append<T: Tape>(tape: &mut T, bytes: &mut Vec<u8>, more: usize) -> Result<()>
    ensures exact { Reads (λ _. bytes.new.items) (T.state tape.old) result (T.state tape.new)
        (slice_behind bytes.old.items more) }
    ensures listed { IsListed (1 ∷ 2 ∷ 3 ∷ []) result }
    ensures len { OnOk result (vec_len bytes.new ≡ vec_len bytes.old + more) }
{
    tape.read_onto(bytes, more)
}
