//! Errors.
ghost use Rattle.std.specs.Prelude.{◌≡◌};
ghost use Rattle.postscript_base.specs.declared.error.Error.TheVariants as causes;
ghost use Rattle.postscript_instance.specs.declared.error.Error.TheVariants as errors;

use postscript_base::Error as Cause;
use std::alloc::{AllocError, AllocFailed};
use thiserror::Error;

/// The result of a call of this crate.
pub type Result<T> = std::result::Result<T, Error>;

/// The reason why nothing is written.
#[derive(Debug, Drop, Error)]
pub enum Error {
    /// The run of the charstring fails. Also `Memory`: out of memory.
    #[error("{0}")]
    Font(Cause),
    /// A stem operator or a mask has more than 48 numbers before it, including the width (Technical Note 5177, Appendix
    /// B).
    #[error("an operator has more than 48 operands")]
    TooManyOperands,
    /// A width is given, but the first operator is a line or a curve, which cannot have one (Technical Note 5177, "Type
    /// 2 Charstring Organization").
    #[error("the first path does not begin with a move")]
    NoMove,
    /// A point or the edge of a stem does not fit into 16.16 bits, as it is or rounded. Or the rounded distance to it
    /// does not (Technical Note 5177, "Charstring Number Encoding").
    #[error("a coordinate does not fit into 16 bits")]
    TooFar,
    /// There is no glyph with this number, or its Font DICT is missing or malformed.
    #[error("there is no glyph {0}")]
    NoGlyph(usize),
    /// The item variation data with this number are missing or truncated.
    #[error("item variation data {0} are missing")]
    NoData(usize),
    /// The advance width of a glyph is not from 0 to 32767.
    #[error("the advance of glyph {0} is not from 0 to 32767")]
    Advance(usize),
    /// The number of names is not the number of glyphs.
    #[error("the number of names is not the number of glyphs")]
    OtherNames,
    /// Glyph names are given, but the font does not have exactly one Font DICT. A font with glyph names has one Private
    /// DICT.
    #[error("glyph names need exactly one Font DICT")]
    NotOneDictionary,
    /// The font is too large: it has too many glyphs, names, Font DICTs or bytes.
    #[error("the font is too large")]
    TooLarge,
}

/// Converts an error of the run to `Font`.
impl From<Cause> for Error {
    ghost from_gives = { λ fault e. e ≡ errors.Font fault };

    fn from(fault: Cause) -> Error {
        Error::Font(fault)
    }
}

/// Converts a failed allocation to `Font`.
impl From<AllocError> for Error {
    ghost from_gives = { λ _ e. e ≡ errors.Font causes.Memory };

    fn from(_fault: AllocError) -> Error {
        Error::Font(Cause::Memory)
    }
}

/// Converts a failed allocation to `Font`.
impl<T: Drop> From<AllocFailed<T>> for Error {
    ghost from_gives = { λ _ e. e ≡ errors.Font causes.Memory };

    fn from(_fault: AllocFailed<T>) -> Error {
        Error::Font(Cause::Memory)
    }
}
