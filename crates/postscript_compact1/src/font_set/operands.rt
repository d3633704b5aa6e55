//! The operands of a dictionary that describe a font: integers, and offsets from the start of the font.
ghost use Rattle.std.specs.Prelude.{ℕ, List, [], ◌∷◌};
ghost use Rattle.postscript_base.specs.Error.{IsListed};
ghost use Rattle.postscript_base.specs.Tape.Outcome.{Answers, same};
ghost use Rattle.postscript_compact1.specs.FontSet.Operands.{first as the_first, two as the_two, place_at as the_place_at, type_two as the_type_two, bounds as the_bounds};

use postscript_base::compact1::{Operations, Operator};
use postscript_base::{Error, Result};

/// Returns the first operand of an operator as an integer.
///
/// # Errors
///
/// - `MissingOperation`: there is no such operand.
/// - `MalformedOperation`: the operand is not an integer in the range of `i32`.
#[tactic(auto, unfolding(crate::specs::FontSet::Operands::first))]
pub fn first(dictionary: &Operations, operator: Operator) -> Result<i32>
    // The result is exactly what `first` gives (specs/FontSet/Operands.antt).
    ensures exact { (bytes : List ℕ) (place : ℕ) → Answers same result place (the_first dictionary.now operator bytes place) }
    // The only errors are `MalformedOperation` and `MissingOperation`.
    ensures listed { IsListed (13 ∷ 14 ∷ []) result }
{
    let operand = dictionary
        .get_single(operator)
        .ok_or(Error::MissingOperation(operator))?;
    operand.to_i32().ok_or(Error::MalformedOperation(operator))
}

/// Returns the first two operands of an operator as integers.
///
/// # Errors
///
/// - `MissingOperation`: there are fewer than two operands.
/// - `MalformedOperation`: an operand is not an integer in the range of `i32`.
#[tactic(auto, unfolding(crate::specs::FontSet::Operands::two))]
fn two(dictionary: &Operations, operator: Operator) -> Result<(i32, i32)>
    ensures exact { (bytes : List ℕ) (place : ℕ) → Answers (λ r. (r.0, r.1)) result place (the_two dictionary.now operator bytes place) }
    ensures listed { IsListed (13 ∷ 14 ∷ []) result }
{
    let Some((x, y)) = dictionary.get_double(operator) else {
        return Err(Error::MissingOperation(operator));
    };
    let (Some(a), Some(b)) = (x.to_i32(), y.to_i32()) else {
        return Err(Error::MalformedOperation(operator));
    };
    Ok((a, b))
}

/// Returns the offset in the tape that the first operand of an operator points to (Technical Note 5176, Table 9,
/// "Offset"). The operand and `base` are added to `start`, the offset of the font.
///
/// # Errors
///
/// - `MissingOperation`: the dictionary has no such operand.
/// - `MalformedOperation`: the operand is not an integer in the range of `i32`.
/// - `OutOfRangeOffset`: the offset from the start of the font is negative, or the sum does not fit in 64 bits.
#[tactic(auto, unfolding(crate::specs::FontSet::Operands::place_at))]
pub fn place_at(start: u64, base: u32, dictionary: &Operations, operator: Operator) -> Result<u64>
    // The result is exactly what `place_at` gives (specs/FontSet/Operands.antt).
    ensures exact { (bytes : List ℕ) (place : ℕ) → Answers same result place (the_place_at start base dictionary.now operator bytes place) }
    // The only errors are `MalformedOperation`, `MissingOperation` and `OutOfRangeOffset`.
    ensures listed { IsListed (13 ∷ 14 ∷ 15 ∷ []) result }
{
    let offset = i64::from(base) + i64::from(first(dictionary, operator)?);
    if offset < 0 {
        return Err(Error::OutOfRangeOffset);
    }
    start
        .checked_add(offset as u64)
        .ok_or(Error::OutOfRangeOffset)
}

/// Checks that charstrings are of type 2 (Technical Note 5176, Table 9, "CharstringType").
///
/// # Errors
///
/// - `UnknownCharStringFormat`: they are of another type.
/// - `MissingOperation`: the operator has no operand.
/// - `MalformedOperation`: the operand is not an integer in the range of `i32`.
#[tactic(auto, unfolding(crate::specs::FontSet::Operands::type_two))]
pub fn type_two(dictionary: &Operations) -> Result<()>
    // The result is exactly what `type_two` gives (specs/FontSet/Operands.antt).
    ensures exact { (bytes : List ℕ) (place : ℕ) → Answers (λ _. tt) result place (the_type_two dictionary.now bytes place) }
    // The only errors are those with the codes 12 to 14 (`Error::code`).
    ensures listed { IsListed (12 ∷ 13 ∷ 14 ∷ []) result }
{
    if first(dictionary, Operator::CharStringType)? == 2 {
        Ok(())
    } else {
        Err(Error::UnknownCharStringFormat)
    }
}

/// Returns the size of the Private DICT in bytes, its offset from the start of the font, and its offset in the tape.
/// The font begins at `start` (Technical Note 5176, section 15).
///
/// # Errors
///
/// - `MissingOperation`: `Private` has fewer than two operands.
/// - `MalformedOperation`: an operand is not an integer in the range of `i32`.
/// - `OutOfRangeOffset`: an operand is negative, or the offset in the tape does not fit in 64 bits.
#[tactic(auto, unfolding(crate::specs::FontSet::Operands::bounds))]
pub fn bounds(start: u64, dictionary: &Operations) -> Result<(usize, u32, u64)>
    // The result is exactly what `bounds` gives (specs/FontSet/Operands.antt).
    ensures exact { (bytes : List ℕ) (place : ℕ) →
        Answers (λ r. (r.0, r.1, r.2)) result place (the_bounds start dictionary.now bytes place) }
    // The only errors are `MalformedOperation`, `MissingOperation` and `OutOfRangeOffset`.
    ensures listed { IsListed (13 ∷ 14 ∷ 15 ∷ []) result }
{
    let (size, offset) = two(dictionary, Operator::Private)?;
    if size < 0 || offset < 0 {
        return Err(Error::OutOfRangeOffset);
    }
    let Some(place) = start.checked_add(offset as u64) else {
        return Err(Error::OutOfRangeOffset);
    };
    Ok((size as usize, offset as u32, place))
}
