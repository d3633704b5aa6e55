//! Ranges of glyphs.
ghost use Rattle.std.specs.Prelude.{◌≡◌, ℕ, ◌-◌, [], ◌∷◌};
ghost use Rattle.postscript_base.specs.Error.{IsListed};
ghost use Rattle.postscript_base.specs.Tape.{Reads};
ghost use Rattle.postscript_base.specs.Tape.Loops.{until};
ghost use Rattle.postscript_base.specs.Tape.Onward.{TakesBytes};
ghost use Rattle.postscript_base.specs.Tape.Outcome.{Reading, same};
ghost use Rattle.postscript_base.specs.Private.Seen.{each_as_it_is};
ghost use Rattle.postscript_compact1.specs.CharSets.{range_1, range_2, glyphs_of_1, glyphs_of_2, covering, uncovered, none_wanting, if_any};

use postscript_base::compact1::StringID;
use postscript_base::error::{Error, Result};
use postscript_base::tape::{Linked, Until, read_until};
use postscript_base::{Tape, Value};
use std::alloc::Global;

/// A range of glyphs with consecutive SIDs (Technical Note 5176, "Charsets", Table 19).
#[derive(Clone, Copy, Debug)]
pub struct Range1 {
    /// The SID of the first glyph.
    pub first: StringID,
    /// The number of glyphs after the first one in the range.
    pub left: u8,
}

/// A range of glyphs with consecutive SIDs (Technical Note 5176, "Charsets", Table 21).
#[derive(Clone, Copy, Debug)]
pub struct Range2 {
    /// The SID of the first glyph.
    pub first: StringID,
    /// The number of glyphs after the first one in the range.
    pub left: u16,
}

/// A range of either format.
trait Range: Sized {
    /// The number of glyphs that a range covers.
    ghost size: { Self → ℕ };

    /// The outcome of reading a range.
    ghost one: { Reading Self };

    /// Returns the number of glyphs that the range covers.
    fn glyphs(&self) -> usize
        ensures { result ≡ size self.now };

    /// Reads a range.
    fn read_one<T: Tape>(alloc: Global, tape: &mut T) -> Result<Self>
        ensures exact { Reads same (T.state tape.old) result (T.state tape.new) one }
        ensures listed { IsListed (1 ∷ 2 ∷ []) result };
}

impl Range for Range1 {
    ghost size = { glyphs_of_1 };

    ghost one = { range_1 };

    fn glyphs(&self) -> usize {
        usize::from(self.left) + 1
    }

    fn read_one<T: Tape>(alloc: Global, tape: &mut T) -> Result<Range1> {
        <Range1 as Value>::read(alloc, tape)
    }
}

impl Range for Range2 {
    ghost size = { glyphs_of_2 };

    ghost one = { range_2 };

    fn glyphs(&self) -> usize {
        usize::from(self.left) + 1
    }

    fn read_one<T: Tape>(alloc: Global, tape: &mut T) -> Result<Range2> {
        <Range2 as Value>::read(alloc, tape)
    }
}

/// Reads a range that covers at most `wanting` glyphs.
#[tactic(auto, unfolding(crate::specs::CharSets::covering))]
fn read_covering<R: Range + Drop, T: Tape>(alloc: Global, tape: &mut T, wanting: usize) -> Result<R>
    ensures exact { Reads same (T.state tape.old) result (T.state tape.new) (covering R.size R.one wanting) }
    ensures listed { IsListed (1 ∷ 2 ∷ 10 ∷ []) result }
{
    let range = R::read_one(alloc, tape)?;
    if range.glyphs() > wanting {
        return Err(Error::MalformedCharSet);
    }
    Ok(range)
}

/// Reads the ranges that cover all glyphs except glyph 0.
#[tactic(auto, unfolding(crate::specs::CharSets::if_any))]
pub(super) fn ranges<R: Linked<Given = usize> + Until + Drop, T: Tape>(
    alloc: Global,
    tape: &mut T,
    glyphs: usize,
) -> Result<Vec<R>>
    requires { (wanting : ℕ) → TakesBytes (R.reading wanting) }
    ensures exact { Reads (λ ranges. R.views ranges.items) (T.state tape.old) result (T.state tape.new)
        (if_any glyphs (until R.is_last R.reading R.left (glyphs - 1))) }
    ensures listed { IsListed (3 ∷ 10 ∷ R.refusals) result }
{
    if glyphs == 0 {
        return Err(Error::MalformedCharSet);
    }
    read_until(alloc, tape, glyphs - 1)
}

/// Reads three bytes: an SID of two, and the number of glyphs left in the range (Technical Note 5176, "Charsets", Table
/// 19).
///
/// # Errors
///
/// - `UnexpectedEof`: fewer bytes are left.
/// - `Io`: any other fault of the tape.
#[tactic(auto, unfolding(crate::specs::CharSets::range))]
impl Value for Range1 {
    ghost use Rattle.postscript_compact1.specs.declared.char_set.range.Range1.{Range1};

    ghost Shown = { Range1 };

    ghost view = { same };

    ghost views = { same };

    ghost views_each = { each_as_it_is };

    ghost reading = { range_1 };

    ghost refusals = { 1 ∷ 2 ∷ [] };

    fn read<T: Tape>(alloc: Global, tape: &mut T) -> Result<Range1> {
        Ok(Range1 {
            first: u16::read(alloc, tape)?,
            left: u8::read(alloc, tape)?,
        })
    }
}

/// Reads four bytes: an SID of two, and the number of glyphs left in the range (Technical Note 5176, "Charsets", Table
/// 21).
///
/// # Errors
///
/// - `UnexpectedEof`: fewer bytes are left.
/// - `Io`: any other fault of the tape.
#[tactic(auto, unfolding(crate::specs::CharSets::range))]
impl Value for Range2 {
    ghost use Rattle.postscript_compact1.specs.declared.char_set.range.Range2.{Range2};

    ghost Shown = { Range2 };

    ghost view = { same };

    ghost views = { same };

    ghost views_each = { each_as_it_is };

    ghost reading = { range_2 };

    ghost refusals = { 1 ∷ 2 ∷ [] };

    fn read<T: Tape>(alloc: Global, tape: &mut T) -> Result<Range2> {
        Ok(Range2 {
            first: StringID::read(alloc, tape)?,
            left: u16::read(alloc, tape)?,
        })
    }
}

/// Reads a range. It gets the number of glyphs that are still to be covered, and passes on the number that it leaves.
///
/// # Errors
///
/// - `UnexpectedEof`: the range is truncated.
/// - `MalformedCharSet`: the range covers more glyphs than are still to be covered.
/// - `Io`: any other fault of the tape.
impl Linked for Range1 {
    ghost use Rattle.postscript_compact1.specs.declared.char_set.range.Range1.{Range1};

    type Given = usize;

    ghost Shown = { Range1 };

    ghost view = { same };

    ghost views = { same };

    ghost views_each = { each_as_it_is };

    ghost reading = { covering glyphs_of_1 range_1 };

    ghost refusals = { 1 ∷ 2 ∷ 10 ∷ [] };

    ghost left = { uncovered glyphs_of_1 };

    fn read<T: Tape>(alloc: Global, tape: &mut T, wanting: usize) -> Result<Range1> {
        read_covering(alloc, tape, wanting)
    }

    fn left(&self, wanting: usize) -> usize {
        wanting.saturating_sub(self.glyphs())
    }
}

/// Reads a range. It gets the number of glyphs that are still to be covered, and passes on the number that it leaves.
///
/// # Errors
///
/// - `UnexpectedEof`: the range is truncated.
/// - `MalformedCharSet`: the range covers more glyphs than are still to be covered.
/// - `Io`: any other fault of the tape.
impl Linked for Range2 {
    ghost use Rattle.postscript_compact1.specs.declared.char_set.range.Range2.{Range2};

    type Given = usize;

    ghost Shown = { Range2 };

    ghost view = { same };

    ghost views = { same };

    ghost views_each = { each_as_it_is };

    ghost reading = { covering glyphs_of_2 range_2 };

    ghost refusals = { 1 ∷ 2 ∷ 10 ∷ [] };

    ghost left = { uncovered glyphs_of_2 };

    fn read<T: Tape>(alloc: Global, tape: &mut T, wanting: usize) -> Result<Range2> {
        read_covering(alloc, tape, wanting)
    }

    fn left(&self, wanting: usize) -> usize {
        wanting.saturating_sub(self.glyphs())
    }
}

/// Stops when all glyphs are covered.
impl Until for Range1 {
    ghost is_last = { none_wanting };

    fn is_last(wanting: usize) -> bool {
        wanting == 0
    }
}

/// Stops when all glyphs are covered.
impl Until for Range2 {
    ghost is_last = { none_wanting };

    fn is_last(wanting: usize) -> bool {
        wanting == 0
    }
}
