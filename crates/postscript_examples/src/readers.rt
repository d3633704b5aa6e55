//! User-defined readings made from the library's loops: increasing offsets, ranges up to a count, numbers to the end,
//! a text for each size in a list, and a number at an offset.
ghost use Rattle.std.specs.Prelude.{◌≡◌, ◌≤◌, ℕ, List, [], ◌∷◌, map, refl, length, IfOk};
ghost use Rattle.postscript_base.specs.Error.{IsListed};
ghost use Rattle.postscript_base.specs.Numbers.{number};
ghost use Rattle.postscript_base.specs.Tape.{Reads};
ghost use Rattle.postscript_base.specs.Tape.At.{at};
ghost use Rattle.postscript_base.specs.Tape.Loops.{chain, until, to_end, each};
ghost use Rattle.postscript_base.specs.Tape.Outcome.{same};
ghost use Rattle.postscript_base.specs.Private.Seen.{each_as_it_is};
ghost use Rattle.postscript_examples.specs.Readers.{rising, greatest, covers, uncovered, is_covered, text_of, private_size as the_size};

use postscript_base::compact1::Operator;
use postscript_base::tape::{
    Linked, Source, Until, numbers_move_on, read_at, read_chain, read_each, read_to_end, read_until,
};
use postscript_base::{Error, Result, Tape, Value, Walue};
use std::alloc::Global;

/// An offset that is greater than the one before it.
#[derive(Clone, Copy, Debug)]
pub struct Rising(pub u16);

impl Linked for Rising {
    type Given = u16;

    ghost Shown = { ℕ };

    ghost view = { λ offset. offset.0 };

    ghost views = { map (λ offset. offset.0) };

    ghost views_each = { λ _. refl };

    ghost reading = { rising };

    ghost refusals = { 1 ∷ 2 ∷ 5 ∷ [] };

    ghost left = { greatest };

    fn read<T: Tape>(alloc: Global, tape: &mut T, last: u16) -> Result<Rising> {
        let offset = u16::read(alloc, tape)?;
        if offset > last {
            Ok(Rising(offset))
        } else {
            Err(Error::MalformedOffset)
        }
    }

    fn left(&self, _last: u16) -> u16 {
        self.0
    }
}

/// Reads `count` offsets that increase from 0.
pub fn offsets<T: Tape>(alloc: Global, tape: &mut T, count: usize) -> Result<Vec<Rising>>
    ensures exact { Reads (λ offsets. map (λ offset. offset.0) offsets.items) (T.state tape.old) result (T.state tape.new)
        (chain rising greatest 0 count) }
    ensures listed { IsListed (3 ∷ 1 ∷ 2 ∷ 5 ∷ []) result }
{
    read_chain(alloc, tape, 0, count)
}

/// A range. It covers one glyph more than its byte says.
#[derive(Clone, Copy, Debug)]
pub struct Run(pub u8);

impl Linked for Run {
    type Given = u64;

    ghost Shown = { ℕ };

    ghost view = { λ run. run.0 };

    ghost views = { map (λ run. run.0) };

    ghost views_each = { λ _. refl };

    ghost reading = { covers };

    ghost refusals = { 1 ∷ 2 ∷ [] };

    ghost left = { uncovered };

    fn read<T: Tape>(alloc: Global, tape: &mut T, _glyphs: u64) -> Result<Run> {
        Ok(Run(u8::read(alloc, tape)?))
    }

    fn left(&self, glyphs: u64) -> u64 {
        glyphs.saturating_sub(u64::from(self.0) + 1)
    }
}

impl Until for Run {
    ghost is_last = { is_covered };

    fn is_last(glyphs: u64) -> bool {
        glyphs == 0
    }
}

/// Reads ranges until they cover `glyphs` glyphs.
pub fn runs<T: Tape>(alloc: Global, tape: &mut T, glyphs: u64) -> Result<Vec<Run>>
    ensures exact { Reads (λ runs. map (λ run. run.0) runs.items) (T.state tape.old) result (T.state tape.new)
        (until is_covered covers uncovered glyphs) }
    ensures listed { IsListed (3 ∷ 1 ∷ 2 ∷ []) result }
{
    numbers_move_on(1);
    read_until(alloc, tape, glyphs)
}

/// Reads numbers of two bytes up to the end of the tape.
pub fn words<T: Tape>(alloc: Global, tape: &mut T) -> Result<Vec<u16>>
    ensures exact { Reads (λ words. words.items) (T.state tape.old) result (T.state tape.new) (to_end (number 2)) }
    ensures listed { IsListed (1 ∷ 2 ∷ 3 ∷ 4 ∷ 1 ∷ 2 ∷ []) result }
{
    numbers_move_on(2);
    read_to_end(alloc, tape)
}

/// The size of a text.
#[derive(Clone, Copy, Debug)]
pub struct Size(pub u16);

impl Source for Size {
    type Given = u16;

    type Value = Vec<u8>;

    ghost Seen = { ℕ };

    ghost seen = { λ size. size.0 };

    ghost Shown = { List ℕ };

    ghost view = { λ text. text.items };

    ghost views = { map (λ text. text.items) };

    ghost views_each = { λ _. refl };

    ghost reading = { text_of };

    ghost refusals = { 1 ∷ 2 ∷ 3 ∷ 5 ∷ [] };

    fn read<T: Tape>(&self, alloc: Global, tape: &mut T, longest: u16) -> Result<Vec<u8>> {
        if self.0 > longest {
            return Err(Error::MalformedOffset);
        }
        Ok(Vec::<u8>::read(alloc, tape, usize::from(self.0))?)
    }
}

/// Reads a text for each size, one after the other.
pub fn texts<T: Tape>(alloc: Global, tape: &mut T, sizes: &[Size]) -> Result<Vec<Vec<u8>>>
    ensures exact { Reads (λ texts. map (λ text. text.items) texts.items) (T.state tape.old) result (T.state tape.new)
        (each (text_of 255) (map (λ size. size.0) sizes.now)) }
    ensures listed { IsListed (3 ∷ 1 ∷ 2 ∷ 3 ∷ 5 ∷ []) result }
{
    read_each(alloc, tape, sizes, 255)
}

/// Reads the number of two bytes at the offset `place`.
pub fn word_at<T: Tape>(alloc: Global, tape: &mut T, place: u64) -> Result<u16>
    ensures exact { Reads same (T.state tape.old) result (T.state tape.new) (at place (number 2)) }
    ensures listed { IsListed (1 ∷ 2 ∷ 1 ∷ 2 ∷ []) result }
{
    numbers_move_on(2);
    read_at(alloc, tape, place)
}

/// Reads the size of a Private DICT.
///
/// # Errors
///
/// - `MissingOperation` with `Private`: the size is 0.
/// - `UnexpectedEof`: fewer than two bytes are left.
/// - `Io`: any other fault of the tape.
pub fn private_size<T: Tape>(alloc: Global, tape: &mut T) -> Result<u16>
    ensures exact { Reads same (T.state tape.old) result (T.state tape.new) the_size }
    ensures listed { IsListed (1 ∷ 2 ∷ 14 ∷ []) result }
{
    match u16::read(alloc, tape)? {
        0 => Err(Error::MissingOperation(Operator::Private)),
        size => Ok(size),
    }
}
