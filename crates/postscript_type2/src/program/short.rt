//! Numbers of one and two bytes, read in one loop up to the next operator.
ghost use Rattle.std.specs.Prelude.{◌≡◌, ◌≤◌, ◌<◌, ◌+◌, ◌&&◌, nat_lt, if◌then◌else◌, length, IfOk, IfErr};
ghost use Rattle.postscript_type2.specs.declared.refused.Refused.TheVariants as cases;
ghost use Rattle.postscript_base.specs.Numbers.{above, below};
ghost use Rattle.postscript_type2.specs.Number.{whole};
ghost use Rattle.postscript_type2.specs.Private.Alone.{alone as the_alone, is_alone as the_is_alone};
ghost use Rattle.postscript_type2.specs.Private.Tokens.{Puts};

use super::routine::make_room;
use crate::number::paired;
use crate::operation::Operand;
use crate::refused::Result;
use core::mem::replace_with;

/// The number of operands that the Note allows on a stack; a stack with more takes more memory (Technical Note 5177,
/// Appendix B, "Type 2 Charstring Implementation Limits"). A little more is allocated, so that no stack within this
/// limit grows.
const OPERANDS: usize = 48;

/// The least free capacity of a stack when numbers are put onto it.
const ROOM: usize = 8;

/// Returns whether a byte is a number by itself, as most are (Technical Note 5177, "Charstring Number Encoding").
#[inline(always)]
pub fn is_alone(first: u8) -> bool
    // The result is `true` exactly for the bytes from 32 to 246.
    ensures { result ≡ (nat_lt 0x1f first && nat_lt first 0xf7) }
{
    32 <= first && first < 247
}

/// The number of one byte.
#[inline(always)]
fn alone(byte: u8) -> Operand
    ensures { result ≡ the_alone byte }
{
    Operand::from_int(i16::from(byte) - 139)
}

/// The number of two bytes.
#[inline(always)]
fn pair(first: u8, second: u8) -> Operand
    requires low { 247 ≤ first }
    requires high { first < 255 }
    ensures { result ≡ whole (if nat_lt first 251 then above first second else below first second) }
{
    Operand::from_int(paired(first, second))
}

/// Returns the stack with the one-byte and two-byte numbers at an offset, as far as its capacity allows, and the offset
/// after them. The stack is passed by value, so that its address is not reloaded after each number.
#[inline(always)]
fn with_short(stack: Vec<Operand>, at: (&[u8], usize)) -> (Vec<Operand>, usize)
    requires { at.1 ≤ length at.0.now }
    ensures puts { Puts at.entry.0.now at.entry.1 stack.items result.1 result.0.items }
    ensures within { result.1 ≤ length at.entry.0.now }
{
    let (code, place) = at;
    let mut stack = stack;
    let mut next = place;
    let room = stack.capacity() - stack.len();
    // each byte that is read here has one after it
    let limit = place + room.min((code.len() - place).saturating_sub(1));
    while next < limit {
        let first = code[next];
        // tested first, so that there is one misprediction for each phrase
        if first < 32 {
            break;
        }
        if is_alone(first) {
            stack.push_reserved(alone(first));
            next += 1;
        } else if first < 255 {
            stack.push_reserved(pair(first, code[next + 1]));
            next += 2;
        } else {
            break;
        }
    }
    (stack, next)
}

/// Puts the one-byte and two-byte numbers at an offset onto the stack, as far as its capacity allows. Returns the
/// offset after them.
#[inline(always)]
pub(super) fn put_short(code: &[u8], place: usize, stack: &mut Vec<Operand>) -> Result<usize>
    requires { place ≤ length code.now }
    ensures puts { IfOk result (λ next. Puts code.now place stack.old.items next stack.new.items) }
    ensures room { IfOk result (λ next. next ≤ length code.now) }
    ensures refused { IfErr result (λ e. e ≡ cases.Memory) }
{
    if stack.capacity() - stack.len() < ROOM {
        make_room(stack, OPERANDS + ROOM)?;
        stack.reserve(ROOM)?;
    }
    Ok(replace_with(stack, (code, place), with_short))
}
