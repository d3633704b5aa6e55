//! Values with a fixed number of bytes.
ghost use Rattle.std.specs.Prelude.{ℕ, List, [], ◌∷◌};
ghost use Rattle.postscript_base.specs.Tape.Outcome.{same};
ghost use Rattle.postscript_base.specs.Private.Seen.{each_as_it_is};
ghost use Rattle.postscript_base.specs.Numbers.{slice, number};

use super::{Tape, Value, fixed};
use crate::error::Result;
use crate::number::{byte, long_word, word};
use std::alloc::Global;

/// Reads one byte (Technical Note 5176, "Data Types", Card8).
///
/// # Errors
///
/// - `UnexpectedEof`: no byte is left.
/// - `Io`: any other fault of the tape.
impl Value for u8 {
    ghost Shown = { ℕ };

    ghost view = { same };

    ghost views = { same };

    ghost views_each = { each_as_it_is };

    ghost reading = { number 1 };

    ghost refusals = { 1 ∷ 2 ∷ [] };

    fn read<T: Tape>(_alloc: Global, tape: &mut T) -> Result<u8> {
        byte(tape)
    }
}

/// Reads a big-endian number of two bytes (Technical Note 5176, "Data Types", Card16).
///
/// # Errors
///
/// - `UnexpectedEof`: fewer bytes are left.
/// - `Io`: any other fault of the tape.
impl Value for u16 {
    ghost Shown = { ℕ };

    ghost view = { same };

    ghost views = { same };

    ghost views_each = { each_as_it_is };

    ghost reading = { number 2 };

    ghost refusals = { 1 ∷ 2 ∷ [] };

    fn read<T: Tape>(_alloc: Global, tape: &mut T) -> Result<u16> {
        word(tape)
    }
}

/// Reads a big-endian number of four bytes.
///
/// # Errors
///
/// - `UnexpectedEof`: fewer bytes are left.
/// - `Io`: any other fault of the tape.
impl Value for u32 {
    ghost Shown = { ℕ };

    ghost view = { same };

    ghost views = { same };

    ghost views_each = { each_as_it_is };

    ghost reading = { number 4 };

    ghost refusals = { 1 ∷ 2 ∷ [] };

    fn read<T: Tape>(_alloc: Global, tape: &mut T) -> Result<u32> {
        long_word(tape)
    }
}

/// Reads three bytes as they are.
///
/// # Errors
///
/// - `UnexpectedEof`: fewer bytes are left.
/// - `Io`: any other fault of the tape.
impl Value for [u8; 3] {
    ghost Shown = { List ℕ };

    ghost view = { same };

    ghost views = { same };

    ghost views_each = { each_as_it_is };

    ghost reading = { slice 3 };

    ghost refusals = { 1 ∷ 2 ∷ [] };

    fn read<T: Tape>(_alloc: Global, tape: &mut T) -> Result<[u8; 3]> {
        fixed(tape)
    }
}
