//! The numbers of dictionaries.
ghost use Rattle.std.specs.Prelude.{[], ◌∷◌, ◌≡◌, ◌≢◌, ◌≤◌, ◌<◌, ◌+ℤ◌, ◌-ℤ◌, ◌*ℤ◌, pos};
ghost use Rattle.postscript_base.specs.Compact1.Decimal.{FindsOperands};
ghost use Rattle.postscript_base.specs.Error.{IsListed};
ghost use Rattle.postscript_base.specs.Tape.Outcome.{same};
ghost use Rattle.postscript_base.specs.Tape.{Reads};
ghost use Rattle.postscript_base.specs.Tape.Onward.{TakesBytes};
ghost use Rattle.postscript_base.specs.Compact1.Integers.{ReadsIntegers};
ghost use Rattle.postscript_base.specs.Compact1.Reals.{ReadsSpellings};
ghost use Rattle.postscript_base.specs.Compact1.Nibbles.{real as the_real};
ghost use Rattle.postscript_base.specs.Compact1.Number.{number as the_number, BeginsNoReal, begun as the_begun, whole as the_whole};

use super::operand::Operand;
use super::text::{operand, read_text};
use crate::number::{above, below, byte, long_word, small, word};
use crate::{Error, Result, Tape};
use std::alloc::Global;

/// Reads a number of a dictionary (Technical Note 5176, "DICT Data"). It is an integer of one, two, three or five
/// bytes, or a real. The result is its only operand.
///
/// # Errors
///
/// - `UnexpectedEof`: the number is truncated.
/// - `MalformedNumber`: the first byte begins no number, or the text of a real is malformed.
/// - `OutOfRangeNumber`: the value of a real has no operand (see `Operand::new`).
/// - `Io`: any other fault of the tape.
/// - `Memory`: out of memory. An integer on an honest tape never fails with it.
///
/// ```rust
/// pub fn decimal(alloc: Global, bytes: &[u8]) -> Result<(i64, i32)> {
///     let operand = number::read(alloc, &mut Cursor::new(bytes))?;
///     Ok((operand.mantissa(), operand.exponent()))
/// }
/// ```
#[tactic(auto, unfolding(crate::specs::Compact1::Number::number), using(crate::proofs::Spellings::reads_spellings, crate::proofs::Integers::reads_integers, crate::proofs::Operands::finds_operands, crate::proofs::Onward::dict_number_takes, crate::proofs::Outcomes::refused_after))]
pub fn read<T: Tape>(alloc: Global, tape: &mut T) -> Result<Operand>
    // If no real begins on an honest tape, errors are `UnexpectedEof`, `Io` or `MalformedNumber`.
    ensures no_memory { BeginsNoReal (T.state tape.old) → IsListed (1 ∷ 2 ∷ 7 ∷ []) result }
    // Law: a text is read as the real that it spells, and only the texts of reals are read.
    ensures grammar { ReadsSpellings }
    // Law: every integer is read as its value, and anything else that is read begins as a real.
    ensures integers { ReadsIntegers }
    // Law: `operand_of` finds an operand exactly if one has the value, and it is the only one.
    ensures operands { FindsOperands }
    // Law: a number takes at least one byte and stays within the bytes.
    ensures onward { TakesBytes the_number }
    // On an honest tape the result is exactly what `number` gives, unless memory runs out.
    ensures exact { Reads same (T.state tape.old) result (T.state tape.new) the_number }
    // The only errors are `UnexpectedEof`, `Io`, `Memory`, `MalformedNumber`, `OutOfRangeNumber`.
    ensures listed { IsListed (1 ∷ 2 ∷ 3 ∷ 7 ∷ 8 ∷ []) result }
{
    let first = byte(tape)?;
    begun(alloc, tape, first)
}

/// Reads the rest of a number, given its first byte.
#[inline(always)]
pub(super) fn begun<T: Tape>(alloc: Global, tape: &mut T, first: u8) -> Result<Operand>
    ensures exact { Reads same (T.state tape.old) result (T.state tape.new) (the_begun first) }
    ensures listed { IsListed (1 ∷ 2 ∷ 3 ∷ 7 ∷ 8 ∷ []) result }
    ensures no_memory { first ≢ 0x1e → IsListed (1 ∷ 2 ∷ 7 ∷ []) result }
{
    match first {
        0x1e => real(alloc, tape),
        _ => integer(tape, first),
    }
}

/// Reads the rest of an integer, given its first byte.
#[inline(always)]
#[tactic(auto, unfolding(crate::specs::Compact1::Number::number))]
fn integer<T: Tape>(tape: &mut T, first: u8) -> Result<Operand>
    requires { first ≢ 0x1e }
    ensures exact { Reads same (T.state tape.old) result (T.state tape.new) (the_begun first) }
    ensures listed { IsListed (1 ∷ 2 ∷ 7 ∷ []) result }
{
    match first {
        0x1c => Ok(whole(word(tape)?.cast_signed())),
        0x1d => Ok(Operand::from_i32(long_word(tape)?.cast_signed())),
        0x20..=0xf6 => Ok(whole(small(first))),
        0xf7..=0xfa => Ok(whole(above(first, byte(tape)?))),
        0xfb..=0xfe => Ok(whole(below(first, byte(tape)?))),
        _ => Err(Error::MalformedNumber),
    }
}

/// Reads the rest of a real, after its first byte.
#[tactic(auto, unfolding(crate::specs::Compact1::Nibbles::real))]
fn real<T: Tape>(alloc: Global, tape: &mut T) -> Result<Operand>
    ensures exact { Reads same (T.state tape.old) result (T.state tape.new) the_real }
    ensures listed { IsListed (1 ∷ 2 ∷ 3 ∷ 7 ∷ 8 ∷ []) result }
{
    let text = read_text(alloc, tape)?;
    operand(&text)
}

/// Returns the operand of a 16-bit integer.
fn whole(number: i16) -> Operand
    ensures { result ≡ the_whole number }
{
    Operand::from_i32(i32::from(number))
}
