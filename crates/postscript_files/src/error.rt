//! Errors.
ghost use Rattle.std.specs.Prelude.{◌≡◌};
ghost use Rattle.postscript_files.specs.declared.error.Error.TheVariants as errors;

use std::alloc::{AllocError, AllocFailed};
use thiserror::Error;

/// The result of a call of this crate.
pub type Result<T> = std::result::Result<T, Error>;

/// The reason why no face is opened, or no file is written.
#[derive(Debug, Drop, Error)]
pub enum Error {
    /// Out of memory.
    #[error("out of memory")]
    Memory,
    /// The file is malformed, or it has too few faces.
    #[error("{0}")]
    File(postscript_sfnt::Error),
    /// The face has no table with this tag, which is required.
    #[error("a required table is missing")]
    MissingTable(u32),
    /// The `cmap` table has no supported subtable, or its best one is truncated.
    #[error("the cmap table has no supported subtable")]
    NoMap,
    /// The `hhea` and `hmtx` tables have no advance widths, or they are truncated.
    #[error("the hhea and hmtx tables have no advance widths")]
    NoAdvances,
    /// The face has no glyph for this character.
    #[error("the font has no glyph for the character {0}")]
    MissingCharacter(u32),
    /// The `CFF ` table is malformed, or one of the glyphs is.
    #[error("{0}")]
    Font(postscript_write::Error),
    /// The tables of the face overlap: together they have more bytes than the file.
    #[error("the tables overlap: together they have more bytes than the file")]
    Overlap,
    /// Two tables have this tag.
    #[error("two tables have the same tag")]
    SameTag(u32),
    /// The `maxp` table is truncated.
    #[error("the maxp table is truncated")]
    Cut,
    /// The file would have 4,096 tables or more, or 2^32 bytes or more.
    #[error("the file is too large to be written")]
    TooLarge,
}

/// Converts a failed allocation to `Memory`.
impl From<AllocError> for Error {
    ghost from_gives = { λ _ e. e ≡ errors.Memory };

    fn from(_fault: AllocError) -> Error {
        Error::Memory
    }
}

/// Converts a failed allocation that returns its value to `Memory`.
impl<T: Drop> From<AllocFailed<T>> for Error {
    ghost from_gives = { λ _ e. e ≡ errors.Memory };

    fn from(_fault: AllocFailed<T>) -> Error {
        Error::Memory
    }
}

/// Converts an error of reading a file to `File`.
impl From<postscript_sfnt::Error> for Error {
    ghost from_gives = { λ fault e. e ≡ errors.File fault };

    fn from(fault: postscript_sfnt::Error) -> Error {
        Error::File(fault)
    }
}
