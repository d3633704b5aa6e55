//! Operands of dictionaries, and the numbers that spell them.
use crate::checks::{Wanted, holds, holds_at};
use postscript::Result;
use postscript::compact1::{Operand, number};
use std::alloc::Global;
use std::io::Cursor;
use std::process::Abort;

/// 10^18.
const QUINTILLION: i128 = 1_000_000_000_000_000_000;

/// A mantissa and an exponent, the same for the operand, and the value if it is an integer of 32 bits.
type Made = ((i128, i32), Option<(i64, i32)>, Option<i32>);

#[rattlefmt::skip]
const MADE: &[Made] = &[
    ((1000, -3), Some((1, 0)), Some(1)), ((0, 5000), Some((0, 0)), Some(0)),
    ((QUINTILLION, 0), Some((1, 18)), None), ((QUINTILLION + 1, 0), None, None),
    ((QUINTILLION - 1, 0), Some((999_999_999_999_999_999, 0)), None),
    ((10, 999), Some((1, 1000)), None), ((10, 1000), None, None),
    ((10, -1001), Some((1, -1000)), None), ((1, -1001), None, None), ((1, i32::MAX), None, None),
    ((-2250, -3), Some((-225, -2)), None), ((10, i32::MIN), None, None),
    ((1, 9), Some((1, 9)), Some(1_000_000_000)), ((1, 10), Some((1, 10)), None),
    ((225, -2), Some((225, -2)), None), ((2_147_483_648, 0), Some((2_147_483_648, 0)), None),
    ((2_147_483_647, 0), Some((2_147_483_647, 0)), Some(2_147_483_647)),
    ((-2_147_483_648, 0), Some((-2_147_483_648, 0)), Some(-2_147_483_648)),
    ((-2_147_483_649, 0), Some((-2_147_483_649, 0)), None), ((0, 0), Some((0, 0)), Some(0)),
];

/// Bytes, and the text of the number with its value if that is an integer of 32 bits, or the code of the error.
type Read = (&'static [u8], Wanted<(&'static str, Option<i32>)>);

#[rattlefmt::skip]
const READ: &[Read] = &[
    // Integers.
    (&[0x8b], Ok(("0", Some(0)))), (&[0xef], Ok(("1e2", Some(100)))),
    (&[0x27], Ok(("-1e2", Some(-100)))), (&[0xfa, 0x7c], Ok(("1e3", Some(1000)))),
    (&[0xfe, 0x7c], Ok(("-1e3", Some(-1000)))), (&[0x1c, 0x27, 0x10], Ok(("1e4", Some(10000)))),
    (&[0x1c, 0xd8, 0xf0], Ok(("-1e4", Some(-10000)))),
    (&[0x1d, 0x00, 0x01, 0x86, 0xa0], Ok(("1e5", Some(100_000)))),
    (&[0x1d, 0xff, 0xfe, 0x79, 0x60], Ok(("-1e5", Some(-100_000)))),
    // Reals.
    (&[0x1e, 0xe2, 0xa2, 0x5f], Ok(("-225e-2", None))),
    (&[0x1e, 0x0a, 0x14, 0x05, 0x41, 0xc3, 0xff], Ok(("140541e-9", None))),
    (&[0x1e, 0x1b, 0x10, 0x00, 0xff], Ok(("1e1000", None))),
    (&[0x1e, 0x0b, 0x99, 0x99, 0x99, 0xff], Ok(("0", Some(0)))),
    (&[0x1e, 0x12, 0x34, 0x56, 0x78, 0x90, 0x12, 0x34, 0x56, 0x78, 0xff], Ok(("123456789012345678", None))),
    (&[0x1e, 0x1b, 0xe1, 0xff], Ok(("1e-1", None))), (&[0x1e, 0x1c, 0x1f], Ok(("1e-1", None))),
    (&[0x1e, 0x5a, 0xff], Ok(("5", Some(5)))), (&[0x1e, 0xa5, 0xff], Ok(("5e-1", None))),
    (&[0x1e, 0x05, 0xfd], Ok(("5", Some(5)))),
    // Beyond the range.
    (&[0x1e, 0x12, 0x34, 0x56, 0x78, 0x90, 0x12, 0x34, 0x56, 0x78, 0x9f], Err(8)),
    (&[0x1e, 0x1b, 0x10, 0x01, 0xff], Err(8)),
    // No numbers.
    (&[0x1e, 0xff], Err(7)), (&[0x1e, 0xd0], Err(7)), (&[0x1e, 0xaf], Err(7)),
    (&[0x1e, 0xef], Err(7)), (&[0x1e, 0x1b, 0xef], Err(7)), (&[0x1e, 0x1c, 0xe2, 0xff], Err(7)),
    (&[0x1e, 0x1a, 0x2a, 0x3f], Err(7)), (&[0x1e, 0x0d], Err(7)), (&[0x1f], Err(7)),
    (&[0xff], Err(7)),
    // Truncated ones.
    (&[0x1e, 0x12], Err(1)), (&[], Err(1)), (&[0x1c, 0x00], Err(1)),
    (&[0x1d, 0x00, 0x00, 0x00], Err(1)), (&[0xf7], Err(1)),
];

/// Whether an operand is made as wanted.
fn is_made(made: Option<Operand>, wanted: Option<(i64, i32)>, whole: Option<i32>) -> bool {
    match (made, wanted) {
        (Some(operand), Some((mantissa, exponent))) => {
            operand.mantissa() == mantissa
                && operand.exponent() == exponent
                && operand.to_i32() == whole
        }
        (None, None) => true,
        _ => false,
    }
}

#[test]
fn operands(rt: HostRuntime) {
    for (row, ((mantissa, exponent), wanted, whole)) in MADE.iter().enumerate() {
        let made = Operand::new(*mantissa, *exponent);
        holds_at(&rt, is_made(made, *wanted, *whole), "row", row);
    }
}

/// Whether an operand is shown so.
fn is_shown<R: Abort>(rt: &R, alloc: Global, operand: Operand, text: &str) -> bool {
    let shown = operand.to_string(alloc).expect(rt, "memory");
    shown.as_str() == text
}

/// Whether a number is read as a row wants.
fn is_wanted<R: Abort>(rt: &R, alloc: Global, read: &Result<Operand>, row: &Read) -> bool {
    match (read, &row.1) {
        (Ok(operand), Ok((text, whole))) => {
            is_shown(rt, alloc, *operand, text) && operand.to_i32() == *whole
        }
        (Err(fault), Err(code)) => fault.code() == *code,
        _ => false,
    }
}

/// Whether a number is read as a row wants, and all its bytes.
fn is_read<R: Abort>(rt: &R, alloc: Global, row: &Read) -> bool {
    let mut tape = Cursor::new(row.0);
    let read = number::read(alloc, &mut tape);
    let is_at_end = tape.position() == row.0.len() as u64;
    is_wanted(rt, alloc, &read, row) && (is_at_end || row.1.is_err())
}

/// The number that bytes spell.
fn number_of<R: Abort>(rt: &R, alloc: Global, bytes: &[u8]) -> Operand {
    number::read(alloc, &mut Cursor::new(bytes)).expect(rt, "a number")
}

/// The text `0.`, 1200 zeros, `1e1201`.
fn long_real<R: Abort>(rt: &R, alloc: Global) -> Vec<u8> {
    let mut bytes = Vec::from_slice(alloc, &[0x1e, 0x0a]).expect(rt, "memory");
    bytes.resize(602, 0).expect(rt, "memory");
    let end = bytes.extend_from_slice(&[0x1b, 0x12, 0x01, 0xff]);
    end.expect(rt, "memory");
    bytes
}

/// Reads a number of many digits.
fn check_long<R: Abort>(rt: &R, alloc: Global) {
    let long = number_of(rt, alloc, long_real(rt, alloc).as_slice());
    let is_one = long.mantissa() == 1 && long.exponent() == 0;
    holds(rt, is_one, "many digits");
}

#[test]
fn numbers(rt: HostRuntime) {
    let alloc = rt.alloc();
    for (i, row) in READ.iter().enumerate() {
        holds_at(&rt, is_read(&rt, alloc, row), "row", i);
    }
    // Two spellings of one number.
    let spelled = number_of(&rt, alloc, &[0x1e, 0x1b, 0xe1, 0xff]);
    let at_once = number_of(&rt, alloc, &[0x1e, 0x1c, 0x1f]);
    holds(&rt, spelled == at_once, "two spellings");
    check_long(&rt, alloc);
}
