//! The errors of a program.
ghost use Rattle.std.specs.Prelude.{◌≡◌};
ghost use Rattle.postscript_type2.specs.Refused.{error_of};
ghost use Rattle.postscript_type2.specs.declared.refused.Refused.TheVariants as cases;

use postscript_base::Error;
use postscript_base::error::Part;
use std::alloc::{AllocError, AllocFailed};

/// The result of a call that may fail with [`Refused`].
pub type Result<T> = std::result::Result<T, Refused>;

/// An error of a program, with the name of the corresponding `Error`. It is a small type, whereas an `Error` may hold
/// an I/O error of a tape. `Error::from` converts it.
#[derive(Debug, Drop)]
pub enum Refused {
    Memory,
    UnexpectedEof,
    MalformedNumber,
    UnknownOperator,
    Unsupported(Part),
    ExpectedOperand,
    ExpectedInteger,
    ExpectedMoreOperands,
    MalformedOperands,
    InvalidOperand,
    MissingSubroutine,
    ReturnWithoutCaller,
    TrailingData,
    TooDeep,
    Overflow,
    ZeroDivisor,
    NegativeRoot,
    TooManyStems,
    /// The program has failed before.
    AlreadyFailed,
}

impl From<AllocError> for Refused {
    ghost from_gives = { λ _ refused. refused ≡ cases.Memory };

    fn from(_fault: AllocError) -> Refused {
        Refused::Memory
    }
}

impl<T: Drop> From<AllocFailed<T>> for Refused {
    ghost from_gives = { λ _ refused. refused ≡ cases.Memory };

    fn from(_fault: AllocFailed<T>) -> Refused {
        Refused::Memory
    }
}

impl From<Refused> for Error {
    ghost from_gives = { λ refused error. error ≡ error_of refused };

    fn from(refused: Refused) -> Error {
        match refused {
            Refused::Memory => Error::Memory,
            Refused::UnexpectedEof => Error::UnexpectedEof,
            Refused::MalformedNumber => Error::MalformedNumber,
            Refused::UnknownOperator => Error::UnknownOperator,
            Refused::Unsupported(part) => Error::Unsupported(part),
            Refused::ExpectedOperand => Error::ExpectedOperand,
            Refused::ExpectedInteger => Error::ExpectedInteger,
            Refused::ExpectedMoreOperands => Error::ExpectedMoreOperands,
            Refused::MalformedOperands => Error::MalformedOperands,
            Refused::InvalidOperand => Error::InvalidOperand,
            Refused::MissingSubroutine => Error::MissingSubroutine,
            Refused::ReturnWithoutCaller => Error::ReturnWithoutCaller,
            Refused::TrailingData => Error::TrailingData,
            Refused::TooDeep => Error::TooDeep,
            Refused::Overflow => Error::Overflow,
            Refused::ZeroDivisor => Error::ZeroDivisor,
            Refused::NegativeRoot => Error::NegativeRoot,
            Refused::TooManyStems => Error::TooManyStems,
            Refused::AlreadyFailed => Error::AlreadyFailed,
        }
    }
}
