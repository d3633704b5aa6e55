//! The texts of reals: digits, a point, an exponent.
ghost use Rattle.std.specs.Prelude.{◌≡◌, ◌⊎◌, ◌<◌, ℕ, Bool, false, List, [], ◌∷◌, Option, Some, None, IfSome, IfNone, MatchResult, vec_len};
ghost use Rattle.std.specs.List.{prefix_len};
ghost use Rattle.postscript_base.specs.Compact1.Decimal.{IsDigits};
ghost use Rattle.postscript_base.specs.Error.{IsListed};
ghost use Rattle.postscript_base.specs.Tape.Outcome.{Answers, same};
ghost use Rattle.postscript_base.specs.Tape.{Reads};
ghost use Rattle.postscript_base.specs.declared.error.Error.TheVariants as errors;
ghost use Rattle.postscript_base.specs.Private.Nibbles.{one_nibble, step as the_step};
ghost use Rattle.postscript_base.specs.Compact1.Reals.{after_digits, digits_of, is_exponent_negative, is_digit, fraction_at, fraction_digits, exponent_at, exponent_digits, real_of, after_sign};
ghost use Rattle.postscript_base.specs.Compact1.Nibbles.{text_of_real, valued};

use super::digits::of_real;
use super::operand::Operand;
use crate::number::byte;
use crate::{Error, Result, Tape};
use std::alloc::Global;

const POINT: u8 = 10;

const E: u8 = 11;

const MINUS: u8 = 14;

/// Reads the text of a real.
pub(crate) fn read_text<T: Tape>(alloc: Global, tape: &mut T) -> Result<Vec<u8>>
    ensures exact { Reads (λ text. text.items) (T.state tape.old) result (T.state tape.new) text_of_real }
    ensures listed { IsListed (1 ∷ 2 ∷ 3 ∷ 7 ∷ []) result }
{
    let mut text = Vec::new(alloc);
    while !step(tape, &mut text)? {}
    Ok(text)
}

/// Reads one byte of a text, and returns whether it was the last.
#[inline(always)]
#[tactic(auto, unfolding(crate::specs::Private::Nibbles::step))]
fn step<T: Tape>(tape: &mut T, text: &mut Vec<u8>) -> Result<bool>
    ensures exact { Reads (λ ended. (ended, text.new.items)) (T.state tape.old) result (T.state tape.new) (the_step text.old.items) }
    ensures listed { IsListed (1 ∷ 2 ∷ 3 ∷ 7 ∷ []) result }
    ensures longer { MatchResult result (λ ended. ended ≡ false → vec_len text.old < vec_len text.new) (λ _. Unit {0}) }
{
    let byte = byte(tape)?;
    if push(text, byte / 16)? {
        return Ok(true);
    }
    push(text, byte % 16)
}

/// Appends one nibble, and returns whether it ends the text.
#[inline(always)]
fn push(text: &mut Vec<u8>, nibble: u8) -> Result<bool>
    ensures exact { MatchResult result (λ ended. one_nibble text.old.items nibble ≡ Some (ended, text.new.items))
        (λ e. (e ≡ errors.Memory) ⊎ ((e ≡ errors.MalformedNumber) × (one_nibble text.old.items nibble ≡ None))) }
    ensures longer { MatchResult result (λ ended. ended ≡ false → vec_len text.old < vec_len text.new) (λ _. Unit {0}) }
{
    match nibble {
        15 => Ok(true),
        13 => Err(Error::MalformedNumber),
        12 => {
            text.push(E)?;
            text.push(MINUS)?;
            Ok(false)
        }
        _ => {
            text.push(nibble)?;
            Ok(false)
        }
    }
}

/// Returns the operand of the real that a text spells.
#[tactic(auto, unfolding(crate::specs::Compact1::Reals::real_of))]
pub(crate) fn operand(text: &[u8]) -> Result<Operand>
    ensures exact { (bytes : List ℕ) (place : ℕ) → Answers same result place (valued (real_of text.now) bytes place) }
    ensures listed { IsListed (7 ∷ 8 ∷ []) result }
{
    let (negative, unsigned) = split_sign(text);
    let (whole, behind) = split_digits(unsigned);
    let (fraction, behind) = split_fraction(behind);
    let Some((down, exponent)) = split_exponent(behind) else {
        return Err(Error::MalformedNumber);
    };
    if whole.is_empty() && fraction.is_empty() {
        return Err(Error::MalformedNumber);
    }
    of_real(negative, whole, fraction, down, exponent).ok_or(Error::OutOfRangeNumber)
}

/// Splits off a leading minus: returns whether there is one, and the rest.
fn split_sign(text: &[u8]) -> (bool, &[u8])
    ensures sign { result.0 ≡ (after_sign text.now).0 }
    ensures rest { result.1.now ≡ (after_sign text.now).1 }
{
    match text {
        [MINUS, rest @ ..] => (true, rest),
        _ => (false, text),
    }
}

/// Splits off the leading digits.
fn split_digits(text: &[u8]) -> (&[u8], &[u8])
    ensures front { result.0.now ≡ digits_of text.now }
    ensures rest { result.1.now ≡ after_digits text.now }
    ensures digits { IsDigits result.0.now }
{
    text.split_at(leading_digits(text))
}

/// Counts the leading digits.
fn leading_digits(text: &[u8]) -> usize
    ensures { result ≡ prefix_len is_digit text.now }
{
    let mut count = 0;
    while count < text.len() && text[count] < 10 {
        count += 1;
    }
    count
}

/// Splits off the digits after a point. There are none if there is no point.
fn split_fraction(text: &[u8]) -> (&[u8], &[u8])
    ensures fraction { result.0.now ≡ fraction_digits (fraction_at text.now).0 }
    ensures rest { result.1.now ≡ (fraction_at text.now).1 }
    ensures digits { IsDigits result.0.now }
{
    match text {
        [POINT, rest @ ..] => split_digits(rest),
        _ => (&[], text),
    }
}

/// Parses an exponent that is all of the text: whether it is negative, and its digits, none if the text is empty.
fn split_exponent(text: &[u8]) -> Option<(bool, &[u8])>
    ensures some { IfSome result (λ r. (p : Option (Bool × List ℕ)) × (exponent_at text.now ≡ Some p) × (r.0 ≡ is_exponent_negative p)
        × (r.1.now ≡ exponent_digits p)) }
    ensures none { IfNone result (exponent_at text.now ≡ None) }
    ensures digits { IfSome result (λ r. IsDigits r.1.now) }
{
    let [mark, rest @ ..] = text else {
        return Some((false, &[]));
    };
    let (down, exponent) = split_sign(rest);
    if *mark != E || exponent.is_empty() || leading_digits(exponent) < exponent.len() {
        return None;
    }
    Some((down, exponent))
}
