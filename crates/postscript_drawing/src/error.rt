//! The errors of drawing.
ghost use Rattle.std.specs.Prelude.{◌≡◌};
ghost use Rattle.postscript_drawing.specs.Undrawn.{error_of};
ghost use Rattle.postscript_base.specs.declared.error.Error.TheVariants as causes;
ghost use Rattle.postscript_drawing.specs.declared.error.Error.TheVariants as errors;
ghost use Rattle.postscript_type2.specs.Refused.{error_of as cause_of};

use crate::undrawn::Undrawn;
use postscript_base::Error as Cause;
use postscript_outline::Full;
use postscript_type2::Refused;
use std::alloc::{AllocError, AllocFailed};
use thiserror::Error;

/// The result of a call that may fail with [`Error`].
pub type Result<T> = std::result::Result<T, Error>;

/// An error of drawing.
#[derive(Debug, Drop, Error)]
pub enum Error {
    /// The run of a glyph fails, the charset is malformed, a coordinate leaves the range (`Overflow`), or memory runs out
    /// (`Memory`).
    #[error("{0}")]
    Font(Cause),
    /// The sink takes no more segments.
    #[error("the sink takes no more segments")]
    Full,
    /// The limit is used up before the end.
    #[error("the limit is used up")]
    TooLong,
    /// The font has no glyph with this index, or `FDSelect` gives it no Font DICT of the font.
    #[error("there is no glyph {0}")]
    NoSuchGlyph(usize),
    /// The `endchar` of a glyph has four operands, but the last two are not both codes.
    #[error("the base and the accent of a seac glyph are not character codes")]
    NoCode,
    /// A `seac` glyph is in a CID-keyed font, whose glyphs have no names.
    #[error("a seac glyph in a CID-keyed font, which has no glyph names")]
    NoAccents,
    /// No glyph of the font has the name that this code has in the standard encoding.
    #[error("no glyph has the name of code {0} in the standard encoding")]
    MissingComponent(u8),
    /// The glyph with this code is a component of a `seac` glyph, and is a `seac` glyph itself.
    #[error("the glyph for code {0} is itself a seac glyph")]
    NestedAccent(u8),
}

/// Converts an error of the font into `Font`.
impl From<Cause> for Error {
    ghost from_gives = { λ fault e. e ≡ errors.Font fault };

    fn from(fault: Cause) -> Error {
        Error::Font(fault)
    }
}

/// Converts an error of a program into `Font`.
impl From<Refused> for Error {
    ghost from_gives = { λ refused e. e ≡ errors.Font (cause_of refused) };

    fn from(refused: Refused) -> Error {
        Error::Font(Cause::from(refused))
    }
}

/// Converts an allocation failure into `Font` with `Memory`.
impl From<AllocError> for Error {
    ghost from_gives = { λ _ e. e ≡ errors.Font causes.Memory };

    fn from(_fault: AllocError) -> Error {
        Error::Font(Cause::Memory)
    }
}

/// Converts an allocation failure of a call that returns its value into `Font` with `Memory`.
impl<T: Drop> From<AllocFailed<T>> for Error {
    ghost from_gives = { λ _ e. e ≡ errors.Font causes.Memory };

    fn from(_fault: AllocFailed<T>) -> Error {
        Error::Font(Cause::Memory)
    }
}

/// Converts the error of a full sink into `Full`.
impl From<Full> for Error {
    ghost from_gives = { λ _ e. e ≡ errors.Full };

    fn from(_full: Full) -> Error {
        Error::Full
    }
}

/// Converts an error of drawing strokes into `Font` with `Overflow`, or into `Full`.
impl From<Undrawn> for Error {
    ghost from_gives = { λ undrawn e. e ≡ error_of undrawn };

    fn from(undrawn: Undrawn) -> Error {
        match undrawn {
            Undrawn::Overflow => Error::Font(Cause::Overflow),
            Undrawn::Full => Error::Full,
        }
    }
}
