//! The codes and the messages of errors.
use crate::checks::{holds, holds_at, is_text};
use postscript::Error;
use postscript::compact1::Operator;
use postscript::error::Part;
use std::alloc::{AllocError, Global};
use std::io;
use std::io::ErrorKind;
use std::process::Abort;

/// The errors except a fault of the tape, their codes and their messages.
#[rattlefmt::skip]
const REFUSALS: &[(Error, u8, &str)] = &[
    (Error::UnexpectedEof, 1, "failed to fill whole buffer"),
    (Error::Memory, 3, "failed to find memory"),
    (Error::TapeStuck, 4, "found a tape that stands still"),
    (Error::MalformedOffset, 5, "found a malformed offset"),
    (Error::MalformedIndex, 6, "found a malformed index"),
    (Error::MalformedNumber, 7, "found a malformed number"),
    (Error::OutOfRangeNumber, 8, "found a number out of range"),
    (Error::UnknownOperator, 9, "found an unknown operator"),
    (Error::MalformedCharSet, 10, "found a malformed char set"),
    (Error::UnknownCharSetFormat, 11, "found an unknown char-set format"),
    (Error::UnknownCharStringFormat, 12, "found an unknown char-string format"),
    (Error::OutOfRangeOffset, 15, "found an offset out of range"),
    (Error::Unsupported(Part::CustomEncoding), 16, "found an unsupported part"),
    (Error::Unsupported(Part::Random), 16, "found an unsupported part"),
    (Error::ExpectedOperand, 17, "expected an operand"),
    (Error::ExpectedInteger, 18, "expected an operand of a different type"),
    (Error::ExpectedMoreOperands, 19, "expected more operands"),
    (Error::MalformedOperands, 20, "found malformed operands"),
    (Error::InvalidOperand, 21, "found an invalid operand"),
    (Error::MissingSubroutine, 22, "failed to find a subroutine"),
    (Error::ReturnWithoutCaller, 23, "found a return operator without a caller"),
    (Error::TrailingData, 24, "found trailing data after the end operator"),
    (Error::TooDeep, 25, "found calls nested too deep"),
    (Error::Overflow, 26, "found an overflow"),
    (Error::ZeroDivisor, 27, "found a zero divisor"),
    (Error::NegativeRoot, 28, "found a root of a negative number"),
    (Error::TooManyStems, 29, "found too many stems"),
    (Error::AlreadyFailed, 30, "the program has failed before"),
];

/// The code and the message of an error.
fn check<R: Abort>(rt: &R, alloc: Global, error: &Error, code: u8, message: &str) {
    holds_at(rt, error.code() == code, "refusal", usize::from(code));
    let text = error.to_string(alloc).expect(rt, "memory");
    is_text(rt, text.as_str(), message, message);
}

/// Whether the error with this code, for an operator of this name, has this start of its message and then the name.
fn names<R: Abort>(
    rt: &R,
    alloc: Global,
    error: &Error,
    code: u8,
    front: &str,
    name: &str,
) -> bool {
    let text = error.to_string(alloc).expect(rt, "memory");
    error.code() == code && text.as_str().strip_prefix(front) == Some(name)
}

/// Whether both errors that name an operator name this one.
pub fn is_named<R: Abort>(rt: &R, alloc: Global, operator: Operator, name: &str) -> bool {
    let malformed = Error::MalformedOperation(operator);
    let missing = Error::MissingOperation(operator);
    let front = "found a malformed operation with operator ";
    let other = "failed to find an operation with operator ";
    names(rt, alloc, &malformed, 13, front, name) && names(rt, alloc, &missing, 14, other, name)
}

/// Whether a fault of this kind stays a fault of the tape.
fn is_fault(kind: ErrorKind) -> bool {
    match Error::from(io::Error::from(kind)) {
        Error::Io(fault) => fault.kind() == kind,
        other => other.code() == 2,
    }
}

#[test]
fn refusals(rt: HostRuntime) {
    let alloc = rt.alloc();
    for (error, code, message) in REFUSALS {
        check(&rt, alloc, error, *code, message);
    }
    let fault = Error::Io(io::Error::from(ErrorKind::NotFound));
    check(&rt, alloc, &fault, 2, "found a fault of the tape");
    // Faults of other kinds.
    let end = Error::from(io::Error::from(ErrorKind::UnexpectedEof));
    holds(&rt, matches!(end, Error::UnexpectedEof), "the end");
    holds(&rt, is_fault(ErrorKind::PermissionDenied), "denied");
    holds(&rt, is_fault(ErrorKind::Interrupted), "interrupted");
    holds(&rt, is_fault(ErrorKind::Other), "another fault");
    let memory = matches!(Error::from(AllocError), Error::Memory);
    holds(&rt, memory, "memory");
}
