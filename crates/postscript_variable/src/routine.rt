//! A routine: code and an offset in it.
ghost use Rattle.std.specs.Option.{ok_or};
ghost use Rattle.std.specs.Prelude.{◌≡◌, ◌∷◌, ◌+◌, ◌-◌, ◌<◌, ◌≤◌, ◌^◌, OnOk, IfOk, IfErr, IfSome, length, take, drop, option_map};
ghost use Rattle.postscript_type2.specs.declared.refused.Refused.TheVariants as cases;
ghost use Rattle.postscript_variable.specs.Commands.{command_of};
ghost use Rattle.postscript_variable.specs.Private.Numbers.{IsNumberAt, PutsNumbers};
ghost use Rattle.postscript_variable.specs.Private.Working.{EndsAt, ReadsTokenAt, ReadsFront};

use crate::command::Command;
use postscript_type2::shared::{Refused, Result, Routine, begins_number, is_alone, make_room};
use postscript_type2::{Operand, number};

/// A value that is read, and the offset after it.
type At<T> = (T, usize);

/// A number, as its 16.16 bits, or an operator.
#[derive(Clone, Copy)]
pub(crate) enum Token {
    Number(i32),
    Operator(Command),
}

/// The operator of a code that ends just before an offset.
#[inline(always)]
fn operator_at(code: u16, place: usize) -> Result<At<Command>>
    ensures { result ≡ ok_or (option_map (λ command. (command, place)) (command_of code)) cases.UnknownOperator }
{
    match Command::of(code) {
        Some(command) => Ok((command, place)),
        None => Err(Refused::UnknownOperator),
    }
}

/// Reads the operator with this first byte. `place` is the offset of the second byte, if there is one.
#[inline(always)]
fn command_at(code: &[u8], first: u8, place: usize) -> Result<At<Command>>
    requires { place ≤ length code.now }
    ensures exact { EndsAt first (drop place code.now) place result }
    ensures room { IfOk result (λ read. read.1 ≤ length code.now) }
{
    if first != 0x0c {
        return operator_at(u16::from(first), place);
    }
    match code.get(place) {
        Some(second) => operator_at(0x0c00 + u16::from(*second), place + 1),
        None => Err(Refused::UnexpectedEof),
    }
}

/// Reads the number or operator at an offset, given its first byte.
#[inline(always)]
fn token_at(code: &[u8], first: u8, place: usize) -> Result<At<Token>>
    requires room { place < length code.now }
    requires front { drop place code.now ≡ first ∷ drop (place + 1) code.now }
    ensures exact { ReadsTokenAt first (drop (place + 1) code.now) (place + 1) result }
    ensures behind { IfOk result (λ read. place < read.1) }
    ensures room { IfOk result (λ read. read.1 ≤ length code.now) }
{
    if !begins_number(first) {
        let (command, behind) = command_at(code, first, place + 1)?;
        return Ok((Token::Operator(command), behind));
    }
    match number::at(code, place) {
        Some((number, behind)) => Ok((Token::Number(number.bits()), behind)),
        None => Err(Refused::UnexpectedEof),
    }
}

/// The maximum number of operands on the stack ("CFF2 CharString Implementation Limits").
pub(crate) const OPERANDS: usize = 513;

/// The number of operands that memory is allocated for at the beginning.
const ROOM: usize = 256;

/// The number at an offset, and the offset after it. `None` if there is an operator or a truncated number.
#[inline(always)]
fn number_at(code: &[u8], place: usize) -> Option<At<Operand>>
    requires { place < length code.now }
    ensures found { IfSome result (λ read. IsNumberAt (drop place code.now) place read.0 read.1) }
    ensures room { IfSome result (λ read. read.1 ≤ length code.now) }
{
    let first = code[place];
    if is_alone(first) {
        return Some((Operand::from_int(i16::from(first) - 139), place + 1));
    }
    if !begins_number(first) {
        return None;
    }
    number::at(code, place)
}

/// The offset before which a number may begin: within the code, the size of the stack and the limit.
#[inline(always)]
fn last_place(code: &[u8], place: usize, held: usize, limit: u64) -> usize
    requires { place ≤ length code.now }
    ensures code { result ≤ length code.now }
    ensures room { result ≤ place + (513 - held) }
    ensures limit { result ≤ place + limit }
{
    let bytes = code.len() - place;
    let room = OPERANDS.saturating_sub(held);
    place + (room.min(bytes) as u64).min(limit) as usize
}

/// Pushes the numbers at an offset onto the stack, up to its maximum and the limit. Returns the offset after them.
#[inline(always)]
fn numbers_at(code: &[u8], place: usize, stack: &mut Vec<Operand>, limit: u64) -> Result<usize>
    requires { place ≤ length code.now }
    ensures puts { IfOk result (λ next.
        PutsNumbers (drop place code.now) stack.old.items limit (drop next code.now) stack.new.items (limit - (next - place))) }
    ensures from { IfOk result (λ next. place ≤ next) }
    ensures room { IfOk result (λ next. next ≤ length code.now) }
    ensures refused { IfErr result (λ e. e ≡ cases.Memory) }
{
    let last = last_place(code, place, stack.len(), limit);
    let mut next = place;
    while next < last {
        let Some((number, behind)) = number_at(code, next) else {
            break;
        };
        stack.push(number)?;
        next = behind;
    }
    Ok(next)
}

/// Takes `count` bytes, which must be there.
#[inline(always)]
pub(crate) fn take<'l>(routine: &mut Routine<'l>, count: usize) -> &'l [u8]
    requires { count ≤ length routine.old }
    ensures taken { result.now ≡ take count routine.old }
    ensures left { routine.new ≡ drop count routine.old }
{
    let (code, place) = routine.reached();
    *routine = Routine::at(code, place + count);
    &code[place..place + count]
}

/// Reads the number or operator at the front, with its size, if bytes are left.
#[inline(always)]
pub(crate) fn next_token(routine: &mut Routine<'_>) -> Result<Option<(Token, usize)>>
    ensures reads { ReadsFront routine.old result routine.new }
    ensures room { IfOk result (λ token. IfSome token (λ read. read.1 + length routine.new < 2 ^ 63)) }
{
    let (code, place) = routine.reached();
    let Some(first) = code.get(place) else {
        return Ok(None);
    };
    let (token, next) = token_at(code, *first, place)?;
    *routine = Routine::at(code, next);
    Ok(Some((token, next - place)))
}

/// Pushes the numbers at the front onto the stack, up to its maximum and the limit. Returns the rest of the limit.
#[inline(always)]
pub(crate) fn numbers(
    routine: &mut Routine<'_>,
    stack: &mut Vec<Operand>,
    limit: u64,
) -> Result<u64>
    ensures puts { IfOk result (λ left. PutsNumbers routine.old stack.old.items limit routine.new stack.new.items left) }
    ensures refused { IfErr result (λ e. e ≡ cases.Memory) }
{
    make_room(stack, ROOM)?;
    let (code, place) = routine.reached();
    let next = numbers_at(code, place, stack, limit)?;
    *routine = Routine::at(code, next);
    Ok(limit.saturating_sub((next - place) as u64))
}
