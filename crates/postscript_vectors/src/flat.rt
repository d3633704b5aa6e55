//! Flattened code, and desubroutinized code (no calls).
use crate::checks::{bytes_of, holds};
use crate::common::code_of;
use crate::programs::{DOUBLING, describe_run, routines_of};
use postscript::Result;
use postscript::type2::{Charstring, Program, Subroutines};
use std::alloc::Global;
use std::process::Abort;

/// How a code is written without calls.
#[derive(Clone, Copy)]
enum Form {
    Flat,
    Inlined,
}

/// A code in hex, its local subroutines in hex, each after a space, and its code without calls in hex.
type Row = (&'static str, &'static str, &'static str);

const FLAT: &[Row] = &[
    ("", "", ""),
    ("8c8d8b0c12150e", "", "8c8d8b0c12150e"),
    ("200a0e", "8c8d150b", "200c128c8d158b0c120e"),
    // Used up in a subroutine, and after a return.
    ("200a", "8c0b", "200c128c8b0c12"),
    ("200a8c8d150e", "8c16", "200c128c16"),
    ("200a0e", "210a 0e", "200c12210c120e"),
    // `endchar` in a subroutine drops the outer bytes.
    ("200aff", "0e", "200c120e"),
    ("0eff", "", "0e"),
    // A mask keeps its bytes.
    ("8c8d8c8d200a0e", "13800b", "8c8d8c8d200c1213808b0c120e"),
    ("8e8c8d13800e", "", "8e8c8d13800e"),
    // Operands before a call and before a return.
    ("8e8c200a150e", "8d0b", "8e8c200c128d8b0c12150e"),
    // Flattened code stores the numbers that a routine stores.
    ("200a8b0c1516", "908b0c140b", "200c12908b0c148b0c128b0c1516"),
];

const INLINED: &[Row] = &[
    ("", "", ""),
    // A `drop` of the code itself stays.
    ("8c8d8b0c12150e", "", "8c8d8b0c12150e"),
    ("200a0e", "8c8d150b", "8c8d150e"),
    ("200a0e", "210a 0e", "0e"),
    ("200aff", "0e", "0e"),
    ("0eff", "", "0e"),
    // The operands before a call and before a return stay.
    ("8e8c200a150e", "8d0b", "8e8c8d150e"),
    ("200a8b0c1516", "908b0c140b", "908b0c148b0c1516"),
    // Used up in a subroutine, and after a return: no operator takes the operand that is left.
    ("200a8c8d150e", "8c16", "8c16"),
    ("8c16200a", "8c0b", "8c16"),
    ("8c168d200a", "8e210a 8f0b", "8c16"),
    // A mask keeps its bytes, even one that could begin a number or an operator.
    ("8c8d8c8d200a0e", "13800b", "8c8d8c8d13800e"),
    ("8c8d1320200a0e", "0b", "8c8d13200e"),
    ("8c8d131c200a0e", "0b", "8c8d131c0e"),
    ("8c8d130c200a0e", "8c160b", "8c8d130c8c160e"),
    // The number of the call in three bytes and in five, and numbers of each form before it.
    ("1cff950a0e", "8c160b", "8c160e"),
    ("ffff9500000a0e", "8c160b", "8c160e"),
    ("fb00f7001cff950a0e", "150b", "fb00f700150e"),
    ("1c2020200a0e", "160b", "1c2020160e"),
    ("ff202020208c200a0e", "150b", "ff202020208c150e"),
    // Operators computed the number of the call, or a subroutine left it.
    ("208b0c0a0a0e", "8c160b", "208b0c0a0c128c160e"),
    ("200a0a0e", "210b 8c160b", "210c128c160e"),
];

/// A code in hex, its local subroutines in hex, and the number of the fault.
type Faulty = (&'static str, &'static str, u8);

const FAULTY: &[Faulty] = &[
    ("8c8d", "", 1),
    ("200aff", "0e0b", 24),
    ("0b", "", 23),
    ("200a", "200a", 25),
    ("200a0e", "210a0b 0e", 24),
    ("06", "", 20),
    ("8cab0c14", "", 21),
];

/// A code in hex, its local subroutines in hex, and the least limit within which its flattened code is given.
const LEAST: &[(&str, &str, u64)] = &[
    // Each byte of a phrase costs a unit, and the last phrase is begun while one is left.
    ("200a0e", "8c8d150b", 7),
    // The end of the code is seen while one unit is left.
    ("8c16", "", 3),
    ("", "", 1),
    // A roll costs 4096 more, and a square root 8 more.
    ("8c8d8d8c0c1e150e", "", 4104),
    ("8c0c1a160e", "", 13),
];

/// The code without calls.
fn flat_code(alloc: Global, form: Form, code: &[u8], local: &[Vec<u8>]) -> Result<Vec<u8>> {
    match form {
        Form::Flat => Program::flatten(alloc, code, &[], local),
        Form::Inlined => Program::inlined(alloc, code, &[], local),
    }
}

/// The length of the code without calls.
fn flat_length(alloc: Global, form: Form, code: &[u8], local: &[Vec<u8>]) -> Result<usize> {
    match form {
        Form::Flat => Program::flat_len(alloc, code, &[], local),
        Form::Inlined => Program::inlined_len(alloc, code, &[], local),
    }
}

/// Whether a code without calls stays as it is.
fn stays<R: Abort>(rt: &R, alloc: Global, form: Form, code: &[u8]) -> bool {
    let again = flat_code(alloc, form, code, &[]).expect(rt, "the code again");
    again.as_slice() == code
}

/// Whether the runs of a code and of one without calls have the same results.
fn are_same<R: Abort>(rt: &R, alloc: Global, code: &[u8], local: &[Vec<u8>], flat: &[u8]) -> bool {
    let before = describe_run(rt, alloc, code, (&[], local));
    let after = describe_run(rt, alloc, flat, (&[], &[]));
    after.as_str() == before.as_str()
}

/// Writes a code without calls, and that code again.
fn check<R: Abort>(rt: &R, alloc: Global, form: Form, row: &Row) {
    let bytes = bytes_of(rt, alloc, row.0);
    let local = routines_of(rt, alloc, row.1);
    let wanted = bytes_of(rt, alloc, row.2);
    let found = flat_code(alloc, form, &bytes, &local).expect(rt, "a code");
    holds(rt, found.as_slice() == wanted.as_slice(), row.0);
    let length = flat_length(alloc, form, &bytes, &local).expect(rt, "a length");
    holds(rt, length == wanted.len(), row.0);
    holds(rt, stays(rt, alloc, form, &wanted), row.0);
    holds(rt, are_same(rt, alloc, &bytes, &local, &wanted), row.0);
}

/// A code whose run fails is neither written nor measured.
fn check_faulty<R: Abort>(rt: &R, alloc: Global, form: Form, row: &Faulty) {
    let bytes = bytes_of(rt, alloc, row.0);
    let local = routines_of(rt, alloc, row.1);
    let code = code_of(flat_code(alloc, form, &bytes, &local));
    holds(rt, code == row.2, row.0);
    let code = code_of(flat_length(alloc, form, &bytes, &local));
    holds(rt, code == row.2, row.0);
}

/// Whether the flattened code is given within a limit, by the charstring and by its program. If so, it is that of
/// `flatten`.
fn is_told_within<R: Abort>(rt: &R, alloc: Global, row: &(&str, &str, u64), limit: u64) -> bool {
    let code = bytes_of(rt, alloc, row.0);
    let local = routines_of(rt, alloc, row.1);
    let charstring = Charstring {
        code: code.as_slice(),
        subroutines: Subroutines::lists(&[], local.as_slice()),
    };
    let (mut left, mut again) = (limit, limit);
    let told = charstring
        .flatten_within(alloc, &mut left)
        .expect(rt, "a run");
    let program = charstring.program(alloc);
    let same = program.flat_within(&mut again).expect(rt, "a run again");
    holds(rt, told == same && left == again, row.0);
    let whole = charstring.flatten(alloc).expect(rt, "a flat code");
    holds(rt, told.is_none() || told == Some(whole), row.0);
    same.is_some()
}

/// Writes and measures 512 moves and a thousand calls.
fn check_moves<R: Abort>(rt: &R, alloc: Global, form: Form, wanted: usize) {
    let local = routines_of(rt, alloc, DOUBLING);
    let code = [0x20, 0x0a, 0x0e];
    let found = flat_code(alloc, form, &code, &local).expect(rt, "a code");
    holds(rt, found.len() == wanted, "many moves");
    let length = flat_length(alloc, form, &code, &local).expect(rt, "a length");
    holds(rt, length == wanted, "the length of many moves");
    holds(rt, stays(rt, alloc, form, &found), "many moves again");
}

#[test]
fn flat_codes(rt: HostRuntime) {
    let alloc = rt.alloc();
    for row in FLAT {
        check(&rt, alloc, Form::Flat, row);
    }
    check_moves(&rt, alloc, Form::Flat, 7163);
}

#[test]
fn inlined_codes(rt: HostRuntime) {
    let alloc = rt.alloc();
    for row in INLINED {
        check(&rt, alloc, Form::Inlined, row);
    }
    check_moves(&rt, alloc, Form::Inlined, 1025);
}

#[test]
fn flat_codes_within_limits(rt: HostRuntime) {
    let alloc = rt.alloc();
    for row in LEAST {
        holds(&rt, is_told_within(&rt, alloc, row, row.2), row.0);
        let less = row.2.saturating_sub(1);
        holds(&rt, !is_told_within(&rt, alloc, row, less), row.0);
    }
}

#[test]
fn faulty_codes(rt: HostRuntime) {
    let alloc = rt.alloc();
    for row in FAULTY {
        check_faulty(&rt, alloc, Form::Flat, row);
        check_faulty(&rt, alloc, Form::Inlined, row);
    }
}
