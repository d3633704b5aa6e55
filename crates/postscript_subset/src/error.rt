//! Errors.
ghost use Rattle.std.specs.Prelude.{◌≡◌};
ghost use Rattle.postscript_files.specs.declared.error.Error.TheVariants as causes;
ghost use Rattle.postscript_layout.specs.declared.error.Error.{Error as Search};
ghost use Rattle.postscript_subset.specs.Refusals.{IsSearchError};
ghost use Rattle.postscript_subset.specs.declared.error.Error.TheVariants as errors;

use std::alloc::{AllocError, AllocFailed};
use thiserror::Error;

/// The result of a call of this crate.
pub type Result<T> = std::result::Result<T, Error>;

/// The reason why no file is written.
#[derive(Debug, Drop, Error)]
pub enum Error {
    /// The lookups of the features, or the closure of the glyphs, cost more than the limit.
    #[error("the substitutions cost more than the limit")]
    TooLong,
    /// A chosen glyph has this number, which is above 65,535.
    #[error("the glyph number {0} is above 65,535")]
    LargeGlyph(usize),
    /// The face is not opened, or no file is written. This includes `Memory`.
    #[error("{0}")]
    File(postscript_files::Error),
}

/// Converts a failed allocation to `Memory`.
impl From<AllocError> for Error {
    ghost from_gives = { λ _ e. e ≡ errors.File causes.Memory };

    fn from(_fault: AllocError) -> Error {
        Error::File(postscript_files::Error::Memory)
    }
}

/// Converts a failed allocation that returns its value to `Memory`.
impl<T: Drop> From<AllocFailed<T>> for Error {
    ghost from_gives = { λ _ e. e ≡ errors.File causes.Memory };

    fn from(_fault: AllocFailed<T>) -> Error {
        Error::File(postscript_files::Error::Memory)
    }
}

/// Converts an error of a file to `File`.
impl From<postscript_files::Error> for Error {
    ghost from_gives = { λ fault e. e ≡ errors.File fault };

    fn from(fault: postscript_files::Error) -> Error {
        Error::File(fault)
    }
}

/// Converts an error of the search for lookups and glyphs.
impl From<postscript_layout::Error> for Error {
    ghost from_gives = { λ fault e. IsSearchError fault e };

    fn from(fault: postscript_layout::Error) -> Error {
        match fault {
            postscript_layout::Error::TooLong => Error::TooLong,
            postscript_layout::Error::Memory => Error::File(postscript_files::Error::Memory),
        }
    }
}
