//! The errors of this library.
ghost use Rattle.std.specs.Prelude.{◌≡◌};
ghost use Rattle.postscript_base.specs.Error.{code, FromIo};
ghost use Rattle.postscript_base.specs.declared.error.Error.TheVariants as errors;

use crate::compact1::Operator;
use std::alloc::{AllocError, AllocFailed};
use std::io;
use thiserror::Error;

/// The result of a call that can fail with an [`enum@Error`].
pub type Result<T> = std::result::Result<T, Error>;

/// An error.
#[derive(Debug, Drop, Error)]
pub enum Error {
    /// The data ends early, or an offset points past the end. A reader, a seek or a writer can also fail with this kind
    /// of `io::Error`.
    #[error("failed to fill whole buffer")]
    UnexpectedEof,
    /// A reader, a seek or a writer failed with any other kind of `io::Error`.
    #[error("found a fault of the tape")]
    Io(io::Error),
    /// Out of memory.
    #[error("failed to find memory")]
    Memory,
    /// A tape keeps giving operations of a dictionary, but its offset does not increase.
    #[error("found a tape that stands still")]
    TapeStuck,
    /// The offset size of an INDEX is 0 or greater than 4.
    #[error("found a malformed offset")]
    MalformedOffset,
    /// The offsets of an INDEX do not begin with 1, or one is less than the one before it. `Index` rejects equal ones
    /// too.
    #[error("found a malformed index")]
    MalformedIndex,
    /// The bytes spell no number.
    #[error("found a malformed number")]
    MalformedNumber,
    /// A real has more than 18 significant digits, or its exponent is not from -1000 to 1000.
    #[error("found a number out of range")]
    OutOfRangeNumber,
    /// No operator has the code.
    #[error("found an unknown operator")]
    UnknownOperator,
    /// The ranges of a charset cover more glyphs than there are, there are no glyphs, or the format is not the one
    /// expected.
    #[error("found a malformed char set")]
    MalformedCharSet,
    /// The format byte of a charset is unknown.
    #[error("found an unknown char-set format")]
    UnknownCharSetFormat,
    /// The charstrings are not of type 2.
    #[error("found an unknown char-string format")]
    UnknownCharStringFormat,
    /// An operand of this operator is not an integer in the range of `i32`.
    #[error("found a malformed operation with operator {}", .0.name())]
    MalformedOperation(Operator),
    /// This operator is missing, or has too few operands.
    #[error("failed to find an operation with operator {}", .0.name())]
    MissingOperation(Operator),
    /// A size, an offset or a sum of offsets is negative, or does not fit in 64 bits.
    #[error("found an offset out of range")]
    OutOfRangeOffset,
    /// A part of the format that this library does not support.
    #[error("found an unsupported part")]
    Unsupported(Part),
    /// An operator takes an operand off an empty stack.
    #[error("expected an operand")]
    ExpectedOperand,
    /// A subroutine number, or a number that an operator counts by, is missing or not an integer.
    #[error("expected an operand of a different type")]
    ExpectedInteger,
    /// The stack has fewer operands than `dup`, `index` or `roll` needs.
    #[error("expected more operands")]
    ExpectedMoreOperands,
    /// The stack has too few operands for an operator that draws or declares stems.
    #[error("found malformed operands")]
    MalformedOperands,
    /// The count of a `roll` is negative, or the index of a stored number is not from 0 to 31.
    #[error("found an invalid operand")]
    InvalidOperand,
    /// No subroutine has the number.
    #[error("failed to find a subroutine")]
    MissingSubroutine,
    /// The outermost code returns.
    #[error("found a return operator without a caller")]
    ReturnWithoutCaller,
    /// `endchar` is in a subroutine, and bytes follow in it or in one of the subroutines that led to it.
    #[error("found trailing data after the end operator")]
    TrailingData,
    /// Calls are nested more than ten deep.
    #[error("found calls nested too deep")]
    TooDeep,
    /// A sum, difference, product, quotient, negation or absolute value is out of the range of 16.16 bits.
    #[error("found an overflow")]
    Overflow,
    /// A division by zero.
    #[error("found a zero divisor")]
    ZeroDivisor,
    /// The square root of a negative number.
    #[error("found a root of a negative number")]
    NegativeRoot,
    /// More stems than 32 bits can count.
    #[error("found too many stems")]
    TooManyStems,
    /// An earlier call on this program failed.
    #[error("the program has failed before")]
    AlreadyFailed,
}

/// A part of the formats that is not supported.
#[derive(Clone, Copy, Debug, PartialEq, Eq)]
pub enum Part {
    /// An encoding other than Standard and Expert.
    CustomEncoding,
    /// The charstring operator `random`.
    Random,
}

impl Error {
    /// Returns the number of the error, from 1 to 30. It is the same in every version of this library.
    pub fn code(&self) -> u8
        // The result is the number of the error in specs/RefusalOf.antt.
        ensures { result ≡ code self.now }
    {
        match self {
            Error::UnexpectedEof => 1,
            Error::Io(_) => 2,
            Error::Memory => 3,
            Error::TapeStuck => 4,
            Error::MalformedOffset => 5,
            Error::MalformedIndex => 6,
            Error::MalformedNumber => 7,
            Error::OutOfRangeNumber => 8,
            Error::UnknownOperator => 9,
            Error::MalformedCharSet => 10,
            Error::UnknownCharSetFormat => 11,
            Error::UnknownCharStringFormat => 12,
            Error::MalformedOperation(_) => 13,
            Error::MissingOperation(_) => 14,
            Error::OutOfRangeOffset => 15,
            Error::Unsupported(_) => 16,
            Error::ExpectedOperand => 17,
            Error::ExpectedInteger => 18,
            Error::ExpectedMoreOperands => 19,
            Error::MalformedOperands => 20,
            Error::InvalidOperand => 21,
            Error::MissingSubroutine => 22,
            Error::ReturnWithoutCaller => 23,
            Error::TrailingData => 24,
            Error::TooDeep => 25,
            Error::Overflow => 26,
            Error::ZeroDivisor => 27,
            Error::NegativeRoot => 28,
            Error::TooManyStems => 29,
            Error::AlreadyFailed => 30,
        }
    }
}

/// Converts a fault of a tape: to `UnexpectedEof` if it is of that kind, and otherwise to `Io` with the fault in it.
impl From<io::Error> for Error {
    ghost from_gives = { FromIo };

    fn from(fault: io::Error) -> Error {
        match fault.kind() {
            io::ErrorKind::UnexpectedEof => Error::UnexpectedEof,
            _ => Error::Io(fault),
        }
    }
}

/// Converts a failed allocation to `Memory`.
impl From<AllocError> for Error {
    ghost from_gives = { λ _ e. e ≡ errors.Memory };

    fn from(_fault: AllocError) -> Error {
        Error::Memory
    }
}

/// Converts a failed allocation that returns the value to its caller. The result is `Memory`.
impl<T: Drop> From<AllocFailed<T>> for Error {
    ghost from_gives = { λ _ e. e ≡ errors.Memory };

    fn from(_fault: AllocFailed<T>) -> Error {
        Error::Memory
    }
}
