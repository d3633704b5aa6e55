//! The operations of dictionaries.
ghost use Rattle.std.specs.Prelude.{◌≡◌, ◌<◌, [], ◌∷◌, ◌≢◌, Bool, true, None, vec_len, MatchResult, IsTrue};
ghost use Rattle.postscript_base.specs.Error.{IsListed};
ghost use Rattle.postscript_base.specs.Tape.Outcome.{same};
ghost use Rattle.postscript_base.specs.Tape.{Reads};
ghost use Rattle.postscript_base.specs.Compact1.Operation.{begins_operand as the_test, operation, operator_begun, step as the_step};

use super::number::begun;
use super::{Operand, Operator};
use crate::number::byte;
use crate::tape::{Tape, Value};
use crate::{Error, Result};
use std::alloc::Global;

/// The initial capacity for operands. Most operators have fewer.
const ROOM: usize = 4;

/// An operation: an operator and its operands.
pub type Operation = (Operator, Vec<Operand>);

/// Reads operands, and then an operator of one byte, or of two that begin with 0x0c (Technical Note 5176, "DICT
/// Data").
///
/// # Errors
///
/// The first bad operand or operator decides.
///
/// - `UnexpectedEof`: an operand or the operator is truncated, or there is no operator.
/// - `MalformedNumber`, `OutOfRangeNumber`: an operand is bad.
/// - `UnknownOperator`: no operator has the code.
/// - `Io`: any other fault of the tape.
/// - `Memory`: out of memory.
impl Value for Operation {
    ghost use Rattle.std.specs.Prelude.{[], ◌∷◌, map, refl};
    ghost use Rattle.postscript_base.specs.Compact1.Operation.{Operation, operation};

    ghost Shown = { Operation };

    ghost view = { λ operation. (operation.0, operation.1.items) };

    ghost views = { map (λ operation. (operation.0, operation.1.items)) };

    ghost views_each = { λ _. refl };

    ghost reading = { operation };

    ghost refusals = { 1 ∷ 2 ∷ 3 ∷ 7 ∷ 8 ∷ 9 ∷ [] };

    #[inline(always)]
    fn read<T: Tape>(alloc: Global, tape: &mut T) -> Result<Operation> {
        let mut operands = Vec::with_capacity(alloc, ROOM)?;
        'operands: loop {
            if let Some(operator) = step(alloc, tape, &mut operands)? {
                return Ok((operator, operands));
            }
        }
    }
}

/// Reads one more operand, or the operator.
#[inline(always)]
#[tactic(auto, unfolding(crate::specs::Compact1::Operation::step))]
fn step<T: Tape>(
    alloc: Global,
    tape: &mut T,
    operands: &mut Vec<Operand>,
) -> Result<Option<Operator>>
    ensures exact { Reads (λ found. (found, operands.new.items)) (T.state tape.old) result (T.state tape.new)
        (the_step operands.old.items) }
    ensures listed { IsListed (1 ∷ 2 ∷ 3 ∷ 7 ∷ 8 ∷ 9 ∷ []) result }
    ensures longer { MatchResult result (λ found. found ≡ None → vec_len operands.old < vec_len operands.new) (λ _. Unit {0}) }
{
    let first = byte(tape)?;
    if !begins_operand(first) {
        return Ok(Some(operator(tape, first)?));
    }
    let operand = begun(alloc, tape, first)?;
    operands.push(operand)?;
    Ok(None)
}

/// Returns whether a byte begins an operand.
fn begins_operand(first: u8) -> bool
    ensures { result ≡ the_test first }
{
    (0x1c <= first && first <= 0x1e) || (0x20 <= first && first <= 0xfe)
}

/// Reads the rest of an operator, given its first byte.
#[inline(always)]
#[tactic(auto, using(crate::proofs::Outcomes::refused_after, crate::proofs::Known::known_answers, crate::proofs::Known::known_listed))]
fn operator<T: Tape>(tape: &mut T, first: u8) -> Result<Operator>
    ensures exact { Reads same (T.state tape.old) result (T.state tape.new) (operator_begun first) }
    ensures listed { IsListed (1 ∷ 2 ∷ 9 ∷ []) result }
{
    match first {
        0x0c => {
            let second = byte(tape)?;
            Operator::from(0x0c00 + u16::from(second))
        }
        _ => Operator::from(u16::from(first)),
    }
}
