//! Charsets of format 0.
ghost use Rattle.std.specs.Prelude.{◌≡◌, ℕ, List, [], ◌∷◌, IfOk};
ghost use Rattle.postscript_base.specs.Error.{IsListed};
ghost use Rattle.postscript_base.specs.Tape.{Reads};
ghost use Rattle.postscript_base.specs.Tape.Outcome.{same};
ghost use Rattle.postscript_base.specs.Private.Seen.{each_as_it_is};
ghost use Rattle.postscript_compact1.specs.CharSets.{char_set_0, listed as the_listed};
ghost use Rattle.postscript_compact1.specs.CharSets.Formats.{Listed};

use postscript_base::compact1::StringID;
use postscript_base::error::{Error, Result};
use postscript_base::tape::read_many;
use postscript_base::{Tape, Value, Walue};
use std::alloc::Global;
use std::marker::Model;

/// A charset that lists its glyphs (Technical Note 5176, "Charsets", Table 17).
#[derive(Debug, Drop)]
pub struct CharSet0 {
    /// The format, which is 0.
    pub format: u8,
    /// The SIDs of the glyphs from glyph 1.
    pub glyphs: Vec<StringID>,
}

impl Model for CharSet0 {
    ghost use Rattle.postscript_compact1.specs.CharSets.Formats.{Listed};

    ghost Value = { Listed };

    ghost view = { λ set. record { format = set.format; glyphs = set.glyphs.items } };
}

impl CharSet0 {
    /// Returns a copy of the charset. It allocates the list of glyphs.
    ///
    /// # Errors
    ///
    /// - `Memory`: out of memory.
    pub fn clone(&self) -> Result<Self>
        // The copy is equal to the original.
        ensures equal { IfOk result (λ set. set ≡ self.now) }
        // The only error is `Memory`.
        ensures listed { IsListed (3 ∷ []) result }
    {
        Ok(CharSet0 {
            format: self.format,
            glyphs: self.glyphs.clone()?,
        })
    }
}

/// Reads a charset of format 0: the byte 0, and an SID for each glyph from glyph 1 (Technical Note 5176, "Charsets",
/// Table 17). The parameter is the number of glyphs. Glyph 0 is not in the charset.
///
/// # Errors
///
/// - `MalformedCharSet`: the first byte is not 0, or there are no glyphs.
/// - `UnexpectedEof`: the first byte or an SID is truncated.
/// - `Io`: any other fault of the tape.
/// - `Memory`: out of memory.
#[tactic(auto, unfolding(crate::specs::CharSets::char_set_0))]
impl Walue for CharSet0 {
    type Parameter = usize;

    ghost Shown = { Listed };

    ghost view = { same };

    ghost views = { same };

    ghost views_each = { each_as_it_is };

    ghost reading = { char_set_0 };

    ghost refusals = { 1 ∷ 2 ∷ 3 ∷ 10 ∷ [] };

    fn read<T: Tape>(alloc: Global, tape: &mut T, glyphs: usize) -> Result<CharSet0> {
        match u8::read(alloc, tape)? {
            0 => listed(alloc, tape, glyphs),
            _ => Err(Error::MalformedCharSet),
        }
    }
}

/// Reads the rest, after the format byte.
#[tactic(auto, unfolding(crate::specs::CharSets::listed))]
pub(super) fn listed<T: Tape>(alloc: Global, tape: &mut T, glyphs: usize) -> Result<CharSet0>
    ensures exact { Reads same (T.state tape.old) result (T.state tape.new) (the_listed glyphs) }
    ensures listed { IsListed (1 ∷ 2 ∷ 3 ∷ 10 ∷ []) result }
{
    if glyphs == 0 {
        return Err(Error::MalformedCharSet);
    }
    Ok(CharSet0 {
        format: 0,
        glyphs: read_many(alloc, tape, glyphs - 1)?,
    })
}
