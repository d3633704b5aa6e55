//! Errors.
ghost use Rattle.std.specs.Prelude.{◌≡◌};
ghost use Rattle.postscript_variable_font.specs.declared.error.Error.TheVariants as errors;

use std::alloc::{AllocError, AllocFailed};
use thiserror::Error;

/// The result of a call of this crate.
pub type Result<T> = std::result::Result<T, Error>;

/// The reason why a call fails.
#[derive(Debug, Drop, Error)]
pub enum Error {
    /// Out of memory.
    #[error("out of memory")]
    Memory,
    /// The item variation data with this number are missing or truncated.
    #[error("item variation data {0} are missing")]
    MissingData(usize),
}

impl From<AllocError> for Error {
    ghost from_gives = { λ _ e. e ≡ errors.Memory };

    fn from(_fault: AllocError) -> Error {
        Error::Memory
    }
}

impl<T: Drop> From<AllocFailed<T>> for Error {
    ghost from_gives = { λ _ e. e ≡ errors.Memory };

    fn from(_fault: AllocFailed<T>) -> Error {
        Error::Memory
    }
}
