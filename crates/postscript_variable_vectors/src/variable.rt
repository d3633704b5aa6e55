//! Hand-made charstrings, by the rules of the specifications.
use crate::checks::{holds_at, tables};
use postscript_base::Error;
use postscript_type2::{Operand, Operator, Subroutines, Within};
use postscript_variable::{Blends, Charstring, Program};
use std::alloc::Global;
use std::process::Abort;

/// A charstring with these global subroutines and scalars.
fn charstring_with<'l>(
    code: &'l [u8],
    global: &'l [Vec<u8>],
    tables: &'l [Vec<u32>],
) -> Charstring<'l> {
    Charstring {
        code,
        subroutines: Subroutines::lists(global, &[]),
        blends: Blends { tables, index: 0 },
    }
}

/// Whether two operands are these, in 16.16 bits.
fn are(operands: &[Operand], dx: i32, dy: i32) -> bool {
    match operands {
        [x, y] => x.bits() == dx && y.bits() == dy,
        _ => false,
    }
}

/// Each row: a charstring, and the operands of its only operation, `rmoveto`.
#[test]
fn first_operations(rt: HostRuntime) {
    let tables = tables(&rt, rt.alloc());
    let rows: [(&[u8], i32, i32); 6] = [
        // 100 50 rmoveto
        (&[0xef, 0xbd, 0x15], 100 * 65536, 50 * 65536),
        // 100 10 -20 1 blend 50 rmoveto: 100 + 10 / 2 - 20 / 4
        (
            &[0xef, 0x95, 0x77, 0x8c, 0x10, 0xbd, 0x15],
            100 * 65536,
            50 * 65536,
        ),
        // 100 50 10 -20 0 8 2 blend rmoveto: 100 + 5 - 5, 50 + 0 + 2
        (
            &[0xef, 0xbd, 0x95, 0x77, 0x8b, 0x93, 0x8d, 0x10, 0x15],
            100 * 65536,
            52 * 65536,
        ),
        // 100 1/65536 1/65536 1 blend 50 rmoveto: halves of a unit go up, quarters go down
        (
            &[
                0xef, 0xff, 0, 0, 0, 1, 0xff, 0, 0, 0, 1, 0x8c, 0x10, 0xbd, 0x15,
            ],
            100 * 65536 + 1,
            50 * 65536,
        ),
        // 100 -1/65536 0 1 blend 50 rmoveto: below zero they go down
        (
            &[
                0xef, 0xff, 0xff, 0xff, 0xff, 0xff, 0x8b, 0x8c, 0x10, 0xbd, 0x15,
            ],
            100 * 65536 - 1,
            50 * 65536,
        ),
        // 1 vsindex 100 50 2 blend rmoveto: no region, no delta
        (
            &[0x8c, 0x0f, 0xef, 0xbd, 0x8d, 0x10, 0x15],
            100 * 65536,
            50 * 65536,
        ),
    ];
    for (i, (code, dx, dy)) in rows.iter().enumerate() {
        let mut program = charstring_with(code, &[], &tables).program(rt.alloc());
        let is_so = match program.step() {
            Ok(Some((operator, operands))) => {
                operator == Operator::RMoveTo && are(operands, *dx, *dy)
            }
            _ => false,
        };
        holds_at(&rt, is_so, "an operation", i);
        let is_over = matches!(program.step(), Ok(None));
        holds_at(&rt, is_over, "the end", i);
    }
}

/// The code of the error of a step, 0 if there is none.
fn refusal_of(program: &mut Program<'_>) -> u8 {
    match program.step() {
        Ok(_) => 0,
        Err(e) => e.code(),
    }
}

/// Each row: a charstring, and the error of its first step. The next step fails with `AlreadyFailed`.
#[test]
fn refusals(rt: HostRuntime) {
    let tables = tables(&rt, rt.alloc());
    let rows: [(&[u8], Error); 8] = [
        // endchar, return
        (&[0x0e], Error::UnknownOperator),
        (&[0x0b], Error::UnknownOperator),
        // 100 10 1 blend: a delta is missing
        (&[0xef, 0x95, 0x8c, 0x10], Error::ExpectedMoreOperands),
        // 0 blend 0 vsindex
        (&[0x8b, 0x10, 0x8b, 0x0f], Error::InvalidOperand),
        // 2 vsindex: there are two
        (&[0x8d, 0x0f], Error::InvalidOperand),
        // -107 callsubr: there are none
        (&[0x20, 0x0a], Error::MissingSubroutine),
        // half a number
        (&[0x1c, 0x01], Error::UnexpectedEof),
        // 1 2 rmoveto with one operand
        (&[0x8c, 0x15], Error::MalformedOperands),
    ];
    for (i, (code, wanted)) in rows.iter().enumerate() {
        let mut program = charstring_with(code, &[], &tables).program(rt.alloc());
        let found = refusal_of(&mut program);
        holds_at(&rt, found == wanted.code(), "a refusal", i);
        let after = refusal_of(&mut program);
        holds_at(&rt, after == Error::AlreadyFailed.code(), "it stays", i);
    }
}

/// Two subroutines: 0 calls itself, and 1 is 100 50 rmoveto.
fn routines<R: Abort>(rt: &R, alloc: Global) -> Vec<Vec<u8>> {
    let mut global = Vec::new(alloc);
    let own = Vec::from_array(alloc, [0x20, 0x1d]).expect(rt, "memory");
    global.push(own).expect(rt, "memory");
    let moves = Vec::from_array(alloc, [0xef, 0xbd, 0x15]).expect(rt, "memory");
    global.push(moves).expect(rt, "memory");
    global
}

/// Each row: the number of operands 0 before `hlineto`, and the code of the error.
#[test]
fn operands_at_their_limit(rt: HostRuntime) {
    let tables = tables(&rt, rt.alloc());
    let rows = [(513, 0), (514, Error::Overflow.code())];
    for (i, (count, wanted)) in rows.iter().enumerate() {
        let mut code = vec![in rt.alloc(); 0x8b; *count].expect(&rt, "memory");
        code.push(0x06).expect(&rt, "memory");
        let mut program = charstring_with(&code, &[], &tables).program(rt.alloc());
        let found = refusal_of(&mut program);
        holds_at(&rt, found == *wanted, "operands", i);
    }
}

/// A routine that calls itself. Then -107 10 -16 1 blend callgsubr, whose -107 + 5 - 4 is the number of the subroutine
/// 1.
#[test]
fn calls(rt: HostRuntime) {
    let tables = tables(&rt, rt.alloc());
    let global = routines(&rt, rt.alloc());
    let rows: [(&[u8], u8); 2] = [
        (&[0x20, 0x1d], Error::TooDeep.code()),
        (&[0x20, 0x95, 0x7b, 0x8c, 0x10, 0x1d], 0),
    ];
    for (i, (code, wanted)) in rows.iter().enumerate() {
        let mut program = charstring_with(code, &global, &tables).program(rt.alloc());
        let found = refusal_of(&mut program);
        holds_at(&rt, found == *wanted, "a call", i);
    }
}

/// Whether a program gives an operation within a limit.
fn tells(program: &mut Program<'_>, limit: &mut u64) -> bool {
    matches!(program.step_within(limit), Ok(Within::Operation(..)))
}

/// 100 10 -20 1 blend 50 rmoveto: seven bytes, and the blend has four operands on the stack. Each row: a limit, the
/// rest of it, and whether the operation is given.
#[test]
fn a_limit(rt: HostRuntime) {
    let tables = tables(&rt, rt.alloc());
    let code = [0xef, 0x95, 0x77, 0x8c, 0x10, 0xbd, 0x15];
    let rows = [(10, 0, false), (11, 0, true), (12, 1, true)];
    for (i, (given, left, comes)) in rows.iter().enumerate() {
        let mut program = charstring_with(&code, &[], &tables).program(rt.alloc());
        let mut limit = *given;
        let first = tells(&mut program, &mut limit);
        holds_at(&rt, first == *comes, "an operation", i);
        holds_at(&rt, limit == *left, "what is left", i);
        let mut more = 100;
        let second = tells(&mut program, &mut more);
        holds_at(&rt, second != *comes, "an operation then", i);
    }
}
