//! Skipping the parts of a font.
ghost use Rattle.std.specs.Prelude.{[], ◌∷◌};
ghost use Rattle.postscript_base.specs.Error.{IsListed};
ghost use Rattle.postscript_base.specs.Tape.{Reads};
ghost use Rattle.postscript_base.specs.Tape.Outcome.{same};
ghost use Rattle.postscript_compact1.specs.Private.Passed.{glyph_count, passed_part, passed_parts};

use super::{char_set, encoding, locals};
use crate::font_set::manner::Manner;
use crate::font_set::operands::{place_at, type_two};
use crate::index::pass_index_at;
use postscript_base::compact1::{Operations, Operator};
use postscript_base::{Result, Tape};
use std::alloc::Global;

/// Skips the parts of all Top DICTs. It fails as `read_parts` does.
pub(in crate::font_set) fn pass_parts<T: Tape>(
    alloc: Global,
    tape: &mut T,
    manner: Manner,
    start: u64,
    dictionaries: &[Operations],
) -> Result<()>
    ensures exact { Reads (λ _. tt) (T.state tape.old) result (T.state tape.new) (passed_parts manner start dictionaries.now) }
    ensures listed { IsListed (1 ∷ 2 ∷ 3 ∷ 5 ∷ 6 ∷ 7 ∷ 8 ∷ 9 ∷ 10 ∷ 11 ∷ 12 ∷ 13 ∷ 14 ∷ 15 ∷ 16 ∷ []) result }
{
    for dictionary in dictionaries {
        pass_part(alloc, tape, manner, start, dictionary)?;
    }
    Ok(())
}

/// Skips the parts of a Top DICT, and fails as `read_part` does. The charset, the Private DICT and the local
/// subroutines are read, and dropped.
#[tactic(auto, using(crate::proofs::Outcomes::refused_after), unfolding(crate::specs::Private::Passed::passed_part))]
fn pass_part<T: Tape>(
    alloc: Global,
    tape: &mut T,
    manner: Manner,
    start: u64,
    dictionary: &Operations,
) -> Result<()>
    ensures exact { Reads (λ _. tt) (T.state tape.old) result (T.state tape.new) (passed_part manner start dictionary.now) }
    ensures listed { IsListed (1 ∷ 2 ∷ 3 ∷ 5 ∷ 6 ∷ 7 ∷ 8 ∷ 9 ∷ 10 ∷ 11 ∷ 12 ∷ 13 ∷ 14 ∷ 15 ∷ 16 ∷ []) result }
{
    encoding(dictionary)?;
    let glyphs = pass_char_strings(alloc, tape, start, dictionary)?;
    char_set(alloc, tape, start, glyphs, dictionary)?;
    locals(alloc, tape, manner, start, dictionary)?;
    Ok(())
}

/// Skips the charstrings of a Top DICT, and returns their number. It fails as `char_strings` does.
#[tactic(auto, unfolding(crate::specs::Private::Passed::glyph_count))]
fn pass_char_strings<T: Tape>(
    alloc: Global,
    tape: &mut T,
    start: u64,
    dictionary: &Operations,
) -> Result<usize>
    ensures exact { Reads same (T.state tape.old) result (T.state tape.new) (glyph_count start dictionary.now) }
    ensures listed { IsListed (1 ∷ 2 ∷ 3 ∷ 5 ∷ 6 ∷ 12 ∷ 13 ∷ 14 ∷ 15 ∷ []) result }
{
    let place = place_at(start, 0, dictionary, Operator::CharStrings)?;
    type_two(dictionary)?;
    pass_index_at(alloc, tape, place)
}
