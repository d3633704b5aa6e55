//! Numbers with the same spelling in dictionaries and in charstrings.
ghost use Rattle.std.specs.Prelude.{[], ◌∷◌, ◌≡◌, ◌≤◌, ◌<◌, pos, ◌+ℤ◌, ◌-ℤ◌, ◌*ℤ◌};
ghost use Rattle.postscript_base.specs.Error.{IsListed};
ghost use Rattle.postscript_base.specs.Tape.Outcome.{same};
ghost use Rattle.postscript_base.specs.Tape.{Reads};
ghost use Rattle.postscript_base.specs.Numbers.{number, small as the_small, above as the_above, below as the_below};

use crate::tape::fixed;
use crate::{Result, Tape};

/// Reads the next byte, a number from 0 to 255.
///
/// # Errors
///
/// - `UnexpectedEof`: no byte is left.
/// - `Io`: any other fault of the tape.
#[inline(always)]
#[tactic(auto, unfolding(crate::specs::Numbers::number))]
pub fn byte<T: Tape>(tape: &mut T) -> Result<u8>
    // An honest tape gives exactly the next byte, or fails if none is left.
    ensures exact { Reads same (T.state tape.old) result (T.state tape.new) (number 1) }
    // The only errors are `UnexpectedEof` and `Io`.
    ensures listed { IsListed (1 ∷ 2 ∷ []) result }
{
    let [byte] = fixed::<1, T>(tape)?;
    Ok(byte)
}

/// Reads the next two bytes as a big-endian number (Technical Note 5176, "Data Types").
///
/// # Errors
///
/// - `UnexpectedEof`: fewer bytes are left.
/// - `Io`: any other fault of the tape.
#[inline(always)]
#[tactic(auto, unfolding(crate::specs::Numbers::number))]
pub fn word<T: Tape>(tape: &mut T) -> Result<u16>
    // An honest tape gives exactly the number of the next two bytes, or fails if fewer are left.
    ensures exact { Reads same (T.state tape.old) result (T.state tape.new) (number 2) }
    // The only errors are `UnexpectedEof` and `Io`.
    ensures listed { IsListed (1 ∷ 2 ∷ []) result }
{
    Ok(u16::from_be_bytes(fixed(tape)?))
}

/// Reads the next four bytes as a big-endian number.
///
/// # Errors
///
/// - `UnexpectedEof`: fewer bytes are left.
/// - `Io`: any other fault of the tape.
#[inline(always)]
#[tactic(auto, unfolding(crate::specs::Numbers::number))]
pub fn long_word<T: Tape>(tape: &mut T) -> Result<u32>
    // An honest tape gives exactly the number of the next four bytes, or fails if fewer are left.
    ensures exact { Reads same (T.state tape.old) result (T.state tape.new) (number 4) }
    // The only errors are `UnexpectedEof` and `Io`.
    ensures listed { IsListed (1 ∷ 2 ∷ []) result }
{
    Ok(u32::from_be_bytes(fixed(tape)?))
}

/// Decodes an integer of one byte, which is from 32 to 246. The result is from -107 to 107 (Technical Note 5176, "DICT
/// Data", and Technical Note 5177, "Charstring Number Encoding").
pub fn small(first: u8) -> i16
    requires low { 32 ≤ first }
    requires high { first < 247 }
    // The result is `first - 139`.
    ensures { result ≡ the_small first }
{
    i16::from(first) - 139
}

/// Decodes an integer of two bytes whose first byte is from 247 to 250. The result is from 108 to 1131.
pub fn above(first: u8, second: u8) -> i16
    requires low { 247 ≤ first }
    requires high { first < 251 }
    // The result is `(first - 247) * 256 + second + 108`.
    ensures { result ≡ the_above first second }
{
    (i16::from(first) - 247) * 256 + i16::from(second) + 108
}

/// Decodes an integer of two bytes whose first byte is from 251 to 254. The result is from -108 down to -1131.
pub fn below(first: u8, second: u8) -> i16
    requires low { 251 ≤ first }
    requires high { first < 255 }
    // The result is `(251 - first) * 256 - second - 108`.
    ensures { result ≡ the_below first second }
{
    (251 - i16::from(first)) * 256 - i16::from(second) - 108
}
