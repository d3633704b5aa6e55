//! Charsets of format 1.
ghost use Rattle.std.specs.Prelude.{◌≡◌, ℕ, List, [], ◌∷◌, IfOk};
ghost use Rattle.postscript_base.specs.Error.{IsListed};
ghost use Rattle.postscript_base.specs.Tape.{Reads};
ghost use Rattle.postscript_base.specs.Tape.Outcome.{same};
ghost use Rattle.postscript_base.specs.Private.Seen.{each_as_it_is};
ghost use Rattle.postscript_compact1.specs.CharSets.{char_set_1, covered_1};
ghost use Rattle.postscript_compact1.specs.CharSets.Formats.{Covered};
ghost use Rattle.postscript_compact1.specs.declared.char_set.range.Range1.{Range1};

use super::range::{Range1, ranges};
use postscript_base::error::{Error, Result};
use postscript_base::{Tape, Value, Walue};
use std::alloc::Global;
use std::marker::Model;

/// A charset of ranges (Technical Note 5176, "Charsets", Table 18).
#[derive(Debug, Drop)]
pub struct CharSet1 {
    /// The format, which is 1.
    pub format: u8,
    /// The ranges that cover the glyphs from glyph 1.
    pub ranges: Vec<Range1>,
}

impl Model for CharSet1 {
    ghost use Rattle.postscript_compact1.specs.CharSets.Formats.{Covered};
    ghost use Rattle.postscript_compact1.specs.declared.char_set.range.Range1.{Range1};

    ghost Value = { Covered Range1 };

    ghost view = { λ set. record { format = set.format; ranges = set.ranges.items } };
}

impl CharSet1 {
    /// Returns a copy of the charset. It allocates the list of ranges.
    ///
    /// # Errors
    ///
    /// - `Memory`: out of memory.
    pub fn clone(&self) -> Result<Self>
        // The copy is equal to the original.
        ensures equal { IfOk result (λ set. set ≡ self.now) }
        // The only error is `Memory`.
        ensures listed { IsListed (3 ∷ []) result }
    {
        Ok(CharSet1 {
            format: self.format,
            ranges: self.ranges.clone()?,
        })
    }
}

/// Reads a charset of format 1: the byte 1, and ranges of three bytes (Technical Note 5176, "Charsets", Table 18). The
/// parameter is the number of glyphs. Glyph 0 is not in the charset.
///
/// # Errors
///
/// The bytes are checked in their order.
///
/// - `MalformedCharSet`: the first byte is not 1, there are no glyphs, or a range covers more glyphs than are left.
/// - `UnexpectedEof`: the first byte or a range is truncated.
/// - `Io`: any other fault of the tape.
/// - `Memory`: out of memory.
#[tactic(auto, unfolding(crate::specs::CharSets::char_set_of))]
impl Walue for CharSet1 {
    type Parameter = usize;

    ghost Shown = { Covered Range1 };

    ghost view = { same };

    ghost views = { same };

    ghost views_each = { each_as_it_is };

    ghost reading = { char_set_1 };

    ghost refusals = { 1 ∷ 2 ∷ 3 ∷ 10 ∷ [] };

    fn read<T: Tape>(alloc: Global, tape: &mut T, glyphs: usize) -> Result<CharSet1> {
        match u8::read(alloc, tape)? {
            1 => covered(alloc, tape, glyphs),
            _ => Err(Error::MalformedCharSet),
        }
    }
}

/// Reads the rest, after the format byte.
#[tactic(auto, using(crate::proofs::Ranges::ranges_1_take), unfolding(crate::specs::CharSets::covered))]
pub(super) fn covered<T: Tape>(alloc: Global, tape: &mut T, glyphs: usize) -> Result<CharSet1>
    ensures exact { Reads same (T.state tape.old) result (T.state tape.new) (covered_1 glyphs) }
    ensures listed { IsListed (1 ∷ 2 ∷ 3 ∷ 10 ∷ []) result }
{
    Ok(CharSet1 {
        format: 1,
        ranges: ranges(alloc, tape, glyphs)?,
    })
}
