//! Charsets of format 2.
ghost use Rattle.std.specs.Prelude.{◌≡◌, ℕ, List, [], ◌∷◌, IfOk};
ghost use Rattle.postscript_base.specs.Error.{IsListed};
ghost use Rattle.postscript_base.specs.Tape.{Reads};
ghost use Rattle.postscript_base.specs.Tape.Outcome.{same};
ghost use Rattle.postscript_base.specs.Private.Seen.{each_as_it_is};
ghost use Rattle.postscript_compact1.specs.CharSets.{char_set_2, covered_2};
ghost use Rattle.postscript_compact1.specs.CharSets.Formats.{Covered};
ghost use Rattle.postscript_compact1.specs.declared.char_set.range.Range2.{Range2};

use super::range::{Range2, ranges};
use postscript_base::error::{Error, Result};
use postscript_base::{Tape, Value, Walue};
use std::alloc::Global;
use std::marker::Model;

/// A charset of ranges (Technical Note 5176, "Charsets", Table 20).
#[derive(Debug, Drop)]
pub struct CharSet2 {
    /// The format, which is 2.
    pub format: u8,
    /// The ranges that cover the glyphs from glyph 1.
    pub ranges: Vec<Range2>,
}

impl Model for CharSet2 {
    ghost use Rattle.postscript_compact1.specs.CharSets.Formats.{Covered};
    ghost use Rattle.postscript_compact1.specs.declared.char_set.range.Range2.{Range2};

    ghost Value = { Covered Range2 };

    ghost view = { λ set. record { format = set.format; ranges = set.ranges.items } };
}

impl CharSet2 {
    /// Returns a copy of the charset. It allocates the list of ranges.
    ///
    /// # Errors
    ///
    /// - `Memory`: out of memory.
    pub fn clone(&self) -> Result<Self>
        // The copy is equal to the original.
        ensures equal { IfOk result (λ set. set ≡ self.now) }
        // The only error is `Memory`.
        ensures listed { IsListed (3 ∷ []) result }
    {
        Ok(CharSet2 {
            format: self.format,
            ranges: self.ranges.clone()?,
        })
    }
}

/// Reads a charset of format 2: the byte 2, and ranges of four bytes (Technical Note 5176, "Charsets", Table 20). The
/// parameter is the number of glyphs. Glyph 0 is not in the charset.
///
/// # Errors
///
/// The bytes are checked in their order.
///
/// - `MalformedCharSet`: the first byte is not 2, there are no glyphs, or a range covers more glyphs than are left.
/// - `UnexpectedEof`: the first byte or a range is truncated.
/// - `Io`: any other fault of the tape.
/// - `Memory`: out of memory.
#[tactic(auto, unfolding(crate::specs::CharSets::char_set_of))]
impl Walue for CharSet2 {
    type Parameter = usize;

    ghost Shown = { Covered Range2 };

    ghost view = { same };

    ghost views = { same };

    ghost views_each = { each_as_it_is };

    ghost reading = { char_set_2 };

    ghost refusals = { 1 ∷ 2 ∷ 3 ∷ 10 ∷ [] };

    fn read<T: Tape>(alloc: Global, tape: &mut T, glyphs: usize) -> Result<CharSet2> {
        match u8::read(alloc, tape)? {
            2 => covered(alloc, tape, glyphs),
            _ => Err(Error::MalformedCharSet),
        }
    }
}

/// Reads the rest, after the format byte.
#[tactic(auto, using(crate::proofs::Ranges::ranges_2_take), unfolding(crate::specs::CharSets::covered))]
pub(super) fn covered<T: Tape>(alloc: Global, tape: &mut T, glyphs: usize) -> Result<CharSet2>
    ensures exact { Reads same (T.state tape.old) result (T.state tape.new) (covered_2 glyphs) }
    ensures listed { IsListed (1 ∷ 2 ∷ 3 ∷ 10 ∷ []) result }
{
    Ok(CharSet2 {
        format: 2,
        ranges: ranges(alloc, tape, glyphs)?,
    })
}
