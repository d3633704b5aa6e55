//! Errors.
ghost use Rattle.std.specs.Prelude.{◌≡◌};
ghost use Rattle.postscript_instance_file.specs.declared.error.Error.TheVariants as errors;

use std::alloc::{AllocError, AllocFailed};
use thiserror::Error;

/// The result of a call of this crate.
pub type Result<T> = std::result::Result<T, Error>;

/// The reason why a glyph is not written.
#[derive(Debug, Drop, Error)]
pub enum GlyphError {
    /// The glyph has no Font DICT.
    #[error("it has no Font DICT in FDSelect")]
    NoPart,
    /// The run costs this limit of a glyph or more.
    #[error("it costs more than {0} units")]
    TooLong(u64),
    /// The run costs more than this part of the limit. All operations of a glyph are kept in memory.
    #[error("it costs more than {0} units, a fortieth of the limit")]
    Held(u64),
    /// The glyph draws more than this number of segments, and no more are kept.
    #[error("it draws more than {0} segments, one for each 50 units of the limit")]
    Segments(u64),
    /// The glyphs before this one leave no more of the limit of all glyphs than its run costs.
    #[error("all glyphs together cost more than their limit")]
    UsedUp,
    /// The advance width is not from 0 to 32767.
    #[error("its advance, {0}, is not from 0 to 32767")]
    Advance(i128),
    /// The run fails.
    #[error("{0}")]
    Run(postscript_base::Error),
    /// Out of memory for the segments (`Full`).
    #[error("{0}")]
    Undrawn(postscript_drawing::Error),
    /// The charstring cannot be written.
    #[error("{0}")]
    Unwritten(postscript_instance::Error),
}

/// The reason why a variable font is not opened, or no file is written.
#[derive(Debug, Drop, Error)]
pub enum Error {
    /// Out of memory.
    #[error("out of memory")]
    Memory,
    /// The file is malformed, or it has too few faces.
    #[error("cannot open the font: {0}")]
    File(postscript_sfnt::Error),
    /// The face has no `CFF2` table, or it has a `CFF ` table too.
    #[error("not a variable font: it has no CFF2 table")]
    NotVariable,
    /// A required table is missing.
    #[error("there is no {0} table, or it is truncated")]
    NoTable(&'static str),
    /// A table is truncated.
    #[error("the {0} table is truncated")]
    Cut(&'static str),
    /// A table of variations is malformed.
    #[error("the {0} table: {1}")]
    Variations(&'static str, postscript_variation::Error),
    /// The `CFF2` table is malformed.
    #[error("the CFF2 table: {0}")]
    Font(postscript_cff2::Error),
    /// The item variation store has no scalars at the location.
    #[error("the item variation store: {0}")]
    Place(postscript_variable_font::Error),
    /// A table makes too much work (`specs/Weights.antt`).
    #[error("the {0} table is too expensive to process")]
    Heavy(&'static str),
    /// A glyph is not written.
    #[error("glyph {0}: {1}")]
    Glyph(u16, GlyphError),
    /// The `CFF ` table is not written.
    #[error("cannot write the CFF table: {0}")]
    Table(postscript_instance::Error),
    /// The `name` table would have more than 65,535 bytes of records or of texts.
    #[error("the font has no space for more names in its name table")]
    Names,
    /// The file is not written. `Cut`: the `hhea` table is truncated.
    #[error("cannot write the font file: {0}")]
    Write(postscript_sfnt_write::Error),
}

/// Converts a failed allocation to `Memory`.
impl From<AllocError> for Error {
    ghost from_gives = { λ _ e. e ≡ errors.Memory };

    fn from(_fault: AllocError) -> Error {
        Error::Memory
    }
}

/// Converts a failed allocation that returns its value to `Memory`.
impl<T: Drop> From<AllocFailed<T>> for Error {
    ghost from_gives = { λ _ e. e ≡ errors.Memory };

    fn from(_fault: AllocFailed<T>) -> Error {
        Error::Memory
    }
}

/// Converts an error of reading a file to `File`.
impl From<postscript_sfnt::Error> for Error {
    ghost from_gives = { λ fault e. e ≡ errors.File fault };

    fn from(fault: postscript_sfnt::Error) -> Error {
        Error::File(fault)
    }
}

/// Converts an error of the `CFF2` table to `Font`.
impl From<postscript_cff2::Error> for Error {
    ghost from_gives = { λ fault e. e ≡ errors.Font fault };

    fn from(fault: postscript_cff2::Error) -> Error {
        Error::Font(fault)
    }
}

/// Converts an error of a location to `Place`.
impl From<postscript_variable_font::Error> for Error {
    ghost from_gives = { λ fault e. e ≡ errors.Place fault };

    fn from(fault: postscript_variable_font::Error) -> Error {
        Error::Place(fault)
    }
}

/// Converts an error of the written `CFF ` table to `Table`.
impl From<postscript_instance::Error> for Error {
    ghost from_gives = { λ fault e. e ≡ errors.Table fault };

    fn from(fault: postscript_instance::Error) -> Error {
        Error::Table(fault)
    }
}

/// Converts an error of a written file to `Write`.
impl From<postscript_sfnt_write::Error> for Error {
    ghost from_gives = { λ fault e. e ≡ errors.Write fault };

    fn from(fault: postscript_sfnt_write::Error) -> Error {
        Error::Write(fault)
    }
}
