//! Charstrings, and the results of their runs.
mod arithmetic;
mod calls;
mod codes;
mod paths;
mod steps;
mod storage;

use crate::checks::{Wanted, bytes_of, holds, holds_at, is_text, put, put_shown};
use crate::common::code_of;
use crate::synthetic::charstring;
use calls::{GLOBAL_CALLS, LONG_LISTS};
use codes::{LENGTHS, NUMBERS, OPERANDS, OPERATORS};
use postscript::type2::{self, Answers, Operand, Operation, Operator, Program, number};
use postscript::{Error, Result};
use std::alloc::Global;
use std::io::Cursor;
use std::process::Abort;
use steps::STEPS;

/// A code in hex, its local subroutines in hex, each after a space, and the results of the run. These are a text for
/// each operation, for the end, and for the width, if there is one.
type Row = (&'static str, &'static str, &'static str);

/// The global subroutines and the local ones.
type Lists<'l> = (&'l [Vec<u8>], &'l [Vec<u8>]);

/// The routines in hex, each after a space.
pub fn routines_of<R: Abort>(rt: &R, alloc: Global, words: &str) -> Vec<Vec<u8>> {
    let mut routines = Vec::new(alloc);
    for word in words.split_whitespace() {
        let routine = bytes_of(rt, alloc, word);
        routines.push(routine).expect(rt, "memory");
    }
    routines
}

/// Routines, of which the last one moves and the others are empty.
fn long_list<R: Abort>(rt: &R, alloc: Global, count: usize) -> Vec<Vec<u8>> {
    let mut routines = Vec::new(alloc);
    for _ in 1..count {
        routines.push(Vec::new(alloc)).expect(rt, "memory");
    }
    let last = bytes_of(rt, alloc, "8c16");
    routines.push(last).expect(rt, "memory");
    routines
}

/// Adds the operator's name, and each operand after a space.
fn put_operands<R: Abort>(rt: &R, text: &mut String, operator: Operator, operands: &[Operand]) {
    put(rt, text, operator.name());
    for operand in operands {
        put_shown(rt, text, " ", operand);
    }
}

/// Adds the width, if there is one.
fn put_width<R: Abort>(rt: &R, text: &mut String, word: &str, width: Option<Operand>) {
    if let Some(width) = width {
        put_shown(rt, text, word, &width);
    }
}

/// Adds the number of a fault, or the end if there is none.
fn put_end<R: Abort>(rt: &R, text: &mut String, fault: Option<&Error>) {
    match fault {
        Some(fault) => put_shown(rt, text, "fault ", &fault.code()),
        None => put(rt, text, "end"),
    }
}

/// The operations of a run as a text.
fn operations_of<R: Abort>(rt: &R, alloc: Global, answers: &Answers) -> String {
    let mut text = String::new(alloc);
    for operation in &answers.operations {
        put_operands(rt, &mut text, operation.0, operation.1.as_slice());
        put(rt, &mut text, " | ");
    }
    text
}

/// The results of a run as a text.
fn text_of<R: Abort>(rt: &R, alloc: Global, answers: &Answers) -> String {
    let mut text = operations_of(rt, alloc, answers);
    put_end(rt, &mut text, answers.fault.as_ref());
    put_width(rt, &mut text, " | width ", answers.width);
    text
}

/// The results of the run of a code.
fn run<R: Abort>(rt: &R, alloc: Global, code: &[u8], lists: Lists<'_>) -> Answers {
    type2::run(alloc, code, lists.0, lists.1).expect(rt, "memory")
}

/// The results of the run of a code, as a text.
pub fn describe_run<R: Abort>(rt: &R, alloc: Global, code: &[u8], lists: Lists<'_>) -> String {
    text_of(rt, alloc, &run(rt, alloc, code, lists))
}

/// Runs a code in hex, and compares the results.
fn check<R: Abort>(rt: &R, alloc: Global, code: &str, lists: Lists<'_>, wanted: &str) {
    let bytes = bytes_of(rt, alloc, code);
    let text = describe_run(rt, alloc, bytes.as_slice(), lists);
    is_text(rt, text.as_str(), wanted, code);
}

/// Whether the operations of a prefix begin the whole code's, and its fault is that of the whole code, or the input
/// ends early.
fn is_front<R: Abort>(rt: &R, alloc: Global, part: &Answers, whole: &Answers) -> bool {
    let begun = operations_of(rt, alloc, part);
    let all = operations_of(rt, alloc, whole);
    let fault = fault_of(part);
    all.as_str().starts_with(begun.as_str()) && (fault < 2 || fault == fault_of(whole))
}

/// The number of the fault of a run, 0 if there is none.
fn fault_of(answers: &Answers) -> u8 {
    match &answers.fault {
        Some(fault) => fault.code(),
        None => 0,
    }
}

/// Whether the run of a prefix of a code begins the run of the whole code.
fn begins<R: Abort>(rt: &R, alloc: Global, front: &[u8], code: &[u8], lists: Lists<'_>) -> bool {
    let part = run(rt, alloc, front, lists);
    is_front(rt, alloc, &part, &run(rt, alloc, code, lists))
}

/// Runs a code of a table, and each prefix of it.
fn check_row<R: Abort>(rt: &R, alloc: Global, row: &Row) {
    let local = routines_of(rt, alloc, row.1);
    let lists: Lists<'_> = (&[], local.as_slice());
    check(rt, alloc, row.0, lists, row.2);
    let bytes = bytes_of(rt, alloc, row.0);
    for length in 0..bytes.len() {
        let is_so = begins(rt, alloc, &bytes[..length], bytes.as_slice(), lists);
        holds_at(rt, is_so, row.0, length);
    }
}

/// Runs each code of a table.
fn check_rows<R: Abort>(rt: &R, alloc: Global, rows: &[Row]) {
    for row in rows {
        check_row(rt, alloc, row);
    }
}

#[test]
fn runs_and_their_fronts(rt: HostRuntime) {
    let alloc = rt.alloc();
    check_rows(&rt, alloc, paths::numbers());
    check_rows(&rt, alloc, paths::paths());
    check_rows(&rt, alloc, paths::hints());
    check_rows(&rt, alloc, calls::calls());
    check_rows(&rt, alloc, arithmetic::arithmetic());
    check_rows(&rt, alloc, arithmetic::stack());
    check_rows(&rt, alloc, storage::storage());
}

/// Runs a row with global subroutines.
fn check_global<R: Abort>(rt: &R, alloc: Global, row: &(&str, &str, &str, &str)) {
    let global = routines_of(rt, alloc, row.1);
    let local = routines_of(rt, alloc, row.2);
    check(
        rt,
        alloc,
        row.0,
        (global.as_slice(), local.as_slice()),
        row.3,
    );
}

/// Runs a code with a long list.
fn check_long<R: Abort>(rt: &R, alloc: Global, row: &(&str, usize, &str)) {
    let local = long_list(rt, alloc, row.1);
    check(rt, alloc, row.0, (&[], local.as_slice()), row.2);
}

/// A list in which each of nine subroutines calls the next one twice, and the last one moves.
pub const DOUBLING: &str =
    "210a210a0b 220a220a0b 230a230a0b 240a240a0b 250a250a0b 260a260a0b 270a270a0b 280a280a0b 290a290a0b 8c160b";

/// Runs nine subroutines that call the next one twice: 512 moves.
fn check_doubling<R: Abort>(rt: &R, alloc: Global) {
    let local = routines_of(rt, alloc, DOUBLING);
    let mut wanted = String::new(alloc);
    for _ in 0..512 {
        put(rt, &mut wanted, "HMoveTo 1 | ");
    }
    put(rt, &mut wanted, "end");
    check(
        rt,
        alloc,
        "200a0e",
        (&[], local.as_slice()),
        wanted.as_str(),
    );
}

/// Whether a run has no fault and `count` operations.
fn has_run(answers: &Answers, count: usize) -> bool {
    answers.fault.is_none() && answers.operations.len() == count
}

/// Whether a charstring of `count` operations is run without a fault.
fn is_run<R: Abort>(rt: &R, alloc: Global, count: usize) -> bool {
    let code = charstring(alloc, count).expect(rt, "memory");
    has_run(&run(rt, alloc, code.as_slice(), (&[], &[])), count)
}

#[test]
fn runs_with_other_lists(rt: HostRuntime) {
    let alloc = rt.alloc();
    for row in GLOBAL_CALLS {
        check_global(&rt, alloc, row);
    }
    for row in LONG_LISTS {
        check_long(&rt, alloc, row);
    }
    check_doubling(&rt, alloc);
    for count in [0, 1, 64, 65, 1000] {
        holds_at(&rt, is_run(&rt, alloc, count), "so many operations:", count);
    }
}

/// Adds the result of a program's next step.
fn put_step<R: Abort>(rt: &R, text: &mut String, program: &mut Program<'_>) {
    match program.next() {
        Ok(Some(operation)) => put_operands(rt, text, operation.0, operation.1.as_slice()),
        Ok(None) => put_end(rt, text, None),
        Err(fault) => put_end(rt, text, Some(&fault)),
    }
}

/// Adds the result of a program's next step, which borrows its operands.
fn put_lent_step<R: Abort>(rt: &R, text: &mut String, program: &mut Program<'_>) {
    match program.step() {
        Ok(Some((operator, operands))) => put_operands(rt, text, operator, operands),
        Ok(None) => put_end(rt, text, None),
        Err(fault) => put_end(rt, text, Some(&fault)),
    }
}

/// The result of a program's next step, and the width after it.
fn step<R: Abort>(rt: &R, alloc: Global, program: &mut Program<'_>, is_lent: bool) -> String {
    let mut text = String::new(alloc);
    if is_lent {
        put_lent_step(rt, &mut text, program);
    } else {
        put_step(rt, &mut text, program);
    }
    put_width(rt, &mut text, ", width ", program.width());
    text
}

/// Runs a program step by step. The values of `lent` choose in turn between `step` and `next`.
fn check_steps<R: Abort>(rt: &R, alloc: Global, row: &(&str, &str, &[&str]), lent: [bool; 2]) {
    let bytes = bytes_of(rt, alloc, row.0);
    let local = routines_of(rt, alloc, row.1);
    let mut program = Program::new(alloc, bytes.as_slice(), &[], local.as_slice());
    holds(rt, program.width().is_none(), row.0);
    for (i, wanted) in row.2.iter().enumerate() {
        let text = step(rt, alloc, &mut program, lent[i % 2]);
        is_text(rt, text.as_str(), wanted, row.0);
    }
}

#[test]
fn next_and_step_by_turns(rt: HostRuntime) {
    let alloc = rt.alloc();
    for row in STEPS {
        check_steps(&rt, alloc, row, [false, false]);
        check_steps(&rt, alloc, row, [true, false]);
        check_steps(&rt, alloc, row, [false, true]);
    }
}

/// Whether a program reads the number too, and draws a line by it.
fn is_run_so<R: Abort>(rt: &R, alloc: Global, number: &[u8], operand: Operand) -> bool {
    let mut code = Vec::from_slice(alloc, number).expect(rt, "memory");
    code.push(0x06).expect(rt, "memory");
    let text = describe_run(rt, alloc, code.as_slice(), (&[], &[]));
    let mut wanted = String::new(alloc);
    put_shown(rt, &mut wanted, "HLineTo ", &operand);
    put(rt, &mut wanted, " | end");
    text.as_str() == wanted.as_str()
}

/// Reads a number, of a tape and in a program.
fn is_number<R: Abort>(rt: &R, alloc: Global, bytes: &[u8], wanted: &Wanted<i32>) -> bool {
    match (number::read(&mut Cursor::new(bytes)), wanted) {
        (Ok(operand), Ok(bits)) => operand.bits() == *bits && is_run_so(rt, alloc, bytes, operand),
        (Err(fault), Err(code)) => fault.code() == *code,
        _ => false,
    }
}

/// Each code has its operator, and no other code has one.
fn check_operators<R: Abort>(rt: &R) {
    for (code, name) in OPERATORS {
        let operator = Operator::from(*code).expect(rt, "an operator");
        holds_at(rt, operator.name() == *name, "code", usize::from(*code));
    }
    let mut known = 0usize;
    for code in 0..=u16::MAX {
        let fault = code_of(Operator::from(code));
        holds_at(rt, fault == 0 || fault == 9, "code", usize::from(code));
        if fault == 0 {
            known = known.saturating_add(1);
        }
    }
    holds(rt, known == OPERATORS.len(), "the number of operators");
}

/// Whether an operand has these bits, this whole number and this text.
fn is_operand<R: Abort>(rt: &R, alloc: Global, bits: i32, whole: Option<i16>, text: &str) -> bool {
    let operand = Operand::from_bits(bits);
    let shown = operand.to_string(alloc).expect(rt, "memory");
    let is_same = match whole {
        Some(number) => Operand::from_int(number) == operand,
        None => true,
    };
    is_same && operand.bits() == bits && operand.to_int() == whole && shown.as_str() == text
}

#[test]
fn tables(rt: HostRuntime) {
    let alloc = rt.alloc();
    for (digits, wanted) in NUMBERS {
        let bytes = bytes_of(&rt, alloc, digits);
        let is_so = is_number(&rt, alloc, bytes.as_slice(), wanted);
        holds(&rt, is_so, digits);
    }
}

#[test]
fn operators_of_codes(rt: HostRuntime) {
    check_operators(&rt);
    for (code, length, wanted) in LENGTHS {
        let operator = Operator::from(*code).expect(&rt, "an operator");
        let is_so = operator.taken(*length) == *wanted;
        holds_at(&rt, is_so, "code", usize::from(*code));
    }
}

#[test]
fn operands_of_bits(rt: HostRuntime) {
    let alloc = rt.alloc();
    for (bits, whole, text) in OPERANDS {
        let is_so = is_operand(&rt, alloc, *bits, *whole, text);
        holds(&rt, is_so, text);
    }
    let order = Operand::from_int(-1) < Operand::from_bits(-1);
    holds(&rt, order, "the order of operands");
}
