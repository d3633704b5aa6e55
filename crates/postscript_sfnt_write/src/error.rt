//! Errors.
ghost use Rattle.std.specs.Prelude.{◌≡◌};
ghost use Rattle.postscript_sfnt_write.specs.declared.error.Error.TheVariants as errors;

use std::alloc::AllocError;
use thiserror::Error;

/// The result of a call of this crate.
pub type Result<T> = std::result::Result<T, Error>;

/// The reason why nothing is written.
#[derive(Clone, Copy, Debug, Drop, PartialEq, Eq, Error)]
pub enum Error {
    /// Out of memory.
    #[error("out of memory")]
    Memory,
    /// The table is truncated.
    #[error("the table ends early")]
    Cut,
    /// The characters are not in strictly ascending order.
    #[error("the characters are not in ascending order")]
    CharactersDoNotRise,
    /// The tags of the tables are not in strictly ascending order.
    #[error("the table tags are not in ascending order")]
    TagsDoNotRise,
    /// There are 4,096 tables or more: `searchRange` is too small for them.
    #[error("too many tables")]
    TooManyTables,
    /// The file or the table would have 2^32 bytes or more.
    #[error("too many bytes")]
    TooLarge,
}

/// Converts a failed allocation to `Memory`.
impl From<AllocError> for Error {
    ghost from_gives = { λ _ e. e ≡ errors.Memory };

    fn from(_fault: AllocError) -> Error {
        Error::Memory
    }
}
