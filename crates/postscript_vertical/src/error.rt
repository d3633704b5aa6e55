//! Errors.
ghost use Rattle.std.specs.Prelude.{◌≡◌};
ghost use Rattle.postscript_vertical.specs.declared.error.Error.TheVariants as errors;

use std::alloc::AllocError;
use thiserror::Error;

/// The result of a call of this crate.
pub type Result<T> = std::result::Result<T, Error>;

/// The reason why no table is written.
#[derive(Clone, Copy, Debug, Drop, PartialEq, Eq, Error)]
pub enum Error {
    /// Out of memory.
    #[error("out of memory")]
    Memory,
    /// There are more than 65,535 glyphs.
    #[error("there are more than 65,535 glyphs")]
    TooManyGlyphs,
    /// The `vhea` table has fewer than 36 bytes.
    #[error("the `vhea` table is truncated")]
    TruncatedHeader,
    /// The number of metrics in the `vhea` table is 0.
    #[error("the `vhea` table counts no metrics")]
    NoMetrics,
    /// The `vmtx` table ends before the last of the metrics that the `vhea` table counts.
    #[error("the `vmtx` table is truncated")]
    TruncatedMetrics,
    /// The `VORG` table has fewer than 8 bytes, or ends before its last record.
    #[error("the `VORG` table is truncated")]
    TruncatedOrigins,
    /// The major version of the `VORG` table is not 1.
    #[error("the `VORG` table has an unknown version")]
    UnknownVersion,
    /// The records of the `VORG` table are not in strictly ascending order of their glyphs.
    #[error("the records of the `VORG` table are not in ascending order")]
    NotAscending,
}

/// Converts a failed allocation to `Memory`.
impl From<AllocError> for Error {
    ghost from_gives = { λ _ e. e ≡ errors.Memory };

    fn from(_fault: AllocError) -> Error {
        Error::Memory
    }
}
