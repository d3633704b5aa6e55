//! The header of a font.
ghost use Rattle.std.specs.Prelude.{[], ◌∷◌};
ghost use Rattle.postscript_base.specs.Tape.Outcome.{same};
ghost use Rattle.postscript_base.specs.Private.Seen.{each_as_it_is};

use super::OffsetSize;
use crate::error::Result;
use crate::tape::{Tape, Value};
use std::alloc::Global;

/// The header of a font (Technical Note 5176, "Header"). Neither the version nor the sizes are checked.
#[derive(Clone, Copy, Debug, PartialEq, Eq)]
pub struct Header {
    /// The major version.
    pub major: u8,
    /// The minor version.
    pub minor: u8,
    /// The size of the header in bytes.
    pub header_size: u8,
    /// The size in bytes of offsets from the start of the font.
    pub offset_size: OffsetSize,
}

/// Reads four bytes, in the order of the fields (Technical Note 5176, "Header"). Their values are not checked.
///
/// # Errors
///
/// - `UnexpectedEof`: fewer than four bytes are left.
/// - `Io`: any other fault of the tape.
#[tactic(auto, unfolding(crate::specs::Compact1::Header::header))]
impl Value for Header {
    ghost use Rattle.postscript_base.specs.Compact1.Header.{header};
    ghost use Rattle.postscript_base.specs.declared.compact1.header.Header.{Header};

    ghost Shown = { Header };

    ghost view = { same };

    ghost views = { same };

    ghost views_each = { each_as_it_is };

    ghost reading = { header };

    ghost refusals = { 1 ∷ 2 ∷ [] };

    fn read<T: Tape>(alloc: Global, tape: &mut T) -> Result<Header> {
        Ok(Header {
            major: u8::read(alloc, tape)?,
            minor: u8::read(alloc, tape)?,
            header_size: u8::read(alloc, tape)?,
            offset_size: u8::read(alloc, tape)?,
        })
    }
}
