//! Errors.
ghost use Rattle.std.specs.Prelude.{◌≡◌, ◌≢◌};
ghost use Rattle.postscript_base.specs.declared.error.Error.TheVariants as causes;
ghost use Rattle.postscript_write.specs.declared.error.Error.TheVariants as errors;

use postscript_base::Error as Cause;
use std::alloc::{AllocError, AllocFailed};
use thiserror::Error;

/// The result of a call of this crate.
pub type Result<T> = std::result::Result<T, Error>;

/// The reason why no font is written.
#[derive(Debug, Drop, Error)]
pub enum Error {
    /// The font, its charset or its encoding is malformed. Also `Memory`: out of memory.
    #[error("{0}")]
    Refused(Cause),
    /// The charstring of the glyph with this number fails, for this reason.
    #[error("glyph {0}: {1}")]
    Glyph(usize, Cause),
    /// The font set does not have exactly one font.
    #[error("the table does not contain exactly one font")]
    SeveralFonts,
    /// The font has no glyph with this number.
    #[error("there is no glyph {0}")]
    MissingGlyph(usize),
    /// FDSelect gives the glyph with this number no Font DICT of the font.
    #[error("glyph {0} has no Font DICT")]
    MissingPart(usize),
    /// The charset has no SID or CID for the glyph with this number.
    #[error("glyph {0} has no name")]
    MissingName(usize),
    /// The charstring of the glyph with this number has more than 65,535 bytes without calls (Technical Note 5177,
    /// Appendix B).
    #[error("glyph {0}: its charstring has more than 65535 bytes without calls")]
    LongGlyph(usize),
    /// The list of glyphs is empty.
    #[error("the list of glyphs is empty")]
    NoGlyphs,
    /// The font is too large. The limit is 2,000,000,000 bytes for the sum of the new charstrings, the names, the
    /// strings, and four times the size of the input.
    #[error("the font is too large to write")]
    TooLarge,
    /// The runs of the kept glyphs cost more than the limit.
    #[error("the kept glyphs cost more than the limit")]
    TooLong,
}

/// Converts an error of reading to `Refused`.
impl From<Cause> for Error {
    ghost from_gives = { λ fault e. e ≡ errors.Refused fault };

    fn from(fault: Cause) -> Error {
        Error::Refused(fault)
    }
}

/// Converts a failed allocation to `Refused`.
impl From<AllocError> for Error {
    ghost from_gives = { λ _ e. e ≡ errors.Refused causes.Memory };

    fn from(_fault: AllocError) -> Error {
        Error::Refused(Cause::Memory)
    }
}

/// Converts a failed allocation that returns its value to `Refused`.
impl<T: Drop> From<AllocFailed<T>> for Error {
    ghost from_gives = { λ _ e. e ≡ errors.Refused causes.Memory };

    fn from(_fault: AllocFailed<T>) -> Error {
        Error::Refused(Cause::Memory)
    }
}

/// The error of a step that can only run out of memory.
pub(crate) fn of_memory(fault: Cause) -> Error
    ensures memory { (fault ≢ causes.Memory → ⊥) → result ≡ errors.Refused causes.Memory }
{
    match fault {
        Cause::Memory => Error::Refused(Cause::Memory),
        fault => Error::Refused(fault),
    }
}
