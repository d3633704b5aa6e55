//! Errors.
ghost use Rattle.std.specs.Prelude.{◌≡◌};
ghost use Rattle.postscript_layout.specs.declared.error.Error.TheVariants as errors;

use std::alloc::{AllocError, AllocFailed};
use std::fmt;

/// The reason why lookups or a closure are not computed.
#[derive(Clone, Copy, Debug, Drop, PartialEq, Eq)]
pub enum Error {
    /// Memory could not be allocated.
    Memory,
    /// The feature list, or the closure, costs more than the limit.
    TooLong,
}

impl fmt::Display for Error {
    fn fmt<W: fmt::Write>(&self, f: &mut fmt::Formatter<W>) -> fmt::Result {
        f.write_str(match self {
            Error::Memory => "out of memory",
            Error::TooLong => "the table costs more than the limit",
        })
    }
}

impl std::error::Error for Error {}

/// Converts a failed allocation to `Memory`.
impl From<AllocError> for Error {
    ghost from_gives = { λ _ e. e ≡ errors.Memory };

    fn from(_fault: AllocError) -> Error {
        Error::Memory
    }
}

/// Converts a failed allocation that returns its value to `Memory`.
impl<T: Drop> From<AllocFailed<T>> for Error {
    ghost from_gives = { λ _ e. e ≡ errors.Memory };

    fn from(_fault: AllocFailed<T>) -> Error {
        Error::Memory
    }
}

pub type Result<T> = std::result::Result<T, Error>;
