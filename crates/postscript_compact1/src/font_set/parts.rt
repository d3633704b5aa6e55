//! The parts of a font that belong to one of its Top DICTs.
ghost use Rattle.std.specs.Prelude.{◌≡◌, ℕ, List, [], ◌∷◌, IfErr, OnOk};
ghost use Rattle.postscript_base.specs.Error.{IsListed};
ghost use Rattle.postscript_base.specs.Tape.{Reads};
ghost use Rattle.postscript_base.specs.Tape.Outcome.{Answers, same};
ghost use Rattle.postscript_compact1.specs.Computed.Order.{parts};
ghost use Rattle.postscript_compact1.specs.Computed.Parts.{encoding as the_encoding, char_strings as the_char_strings, char_set as the_char_set, char_set_offset as the_char_set_offset, own_char_set as the_own_char_set, glyphs as the_glyphs, locals as the_locals, own_locals as the_own_locals, own_subroutines as the_own_subroutines, private as the_private, subroutines as the_subroutines, part};
ghost use Rattle.postscript_compact1.specs.FontSet.Font.{columns, more};
ghost use Rattle.postscript_compact1.specs.FontSet.Value.{part_shown, parts_shown};

mod passed;

use super::manner::Manner;
use super::operands::{bounds, first, place_at, type_two};
use crate::char_set::CharSet;
use crate::encoding::Encoding;
use crate::index::{CharStrings, Subroutines, operations_of};
pub(super) use passed::pass_parts;
use postscript_base::compact1::{Operations, Operator};
use postscript_base::error::Part as Unsupported;
use postscript_base::tape::{bytes_at, read_at, read_given_at};
use postscript_base::{Error, Result, Tape};
use std::alloc::Global;

/// The parts of a font that belong to one of its Top DICTs.
#[derive(Drop)]
pub(super) struct Part {
    pub(super) encoding: Encoding,
    pub(super) char_strings: CharStrings,
    pub(super) char_set: CharSet,
    pub(super) local_dictionary: Operations,
    pub(super) local_subroutines: Subroutines,
}

/// Reads the parts of a Top DICT.
#[tactic(auto, using(crate::proofs::Outcomes::refused_after), unfolding(crate::specs::Computed::Parts::part))]
pub(super) fn read_part<T: Tape>(
    alloc: Global,
    tape: &mut T,
    manner: Manner,
    start: u64,
    dictionary: &Operations,
) -> Result<Part>
    ensures exact { Reads part_shown (T.state tape.old) result (T.state tape.new) (part manner start dictionary.now) }
    ensures listed { IsListed (1 ∷ 2 ∷ 3 ∷ 5 ∷ 6 ∷ 7 ∷ 8 ∷ 9 ∷ 10 ∷ 11 ∷ 12 ∷ 13 ∷ 14 ∷ 15 ∷ 16 ∷ []) result }
{
    let encoding = encoding(dictionary)?;
    let (char_strings, char_set) = glyphs(alloc, tape, start, dictionary)?;
    let (local_dictionary, local_subroutines) = locals(alloc, tape, manner, start, dictionary)?;
    Ok(Part {
        encoding,
        char_strings,
        char_set,
        local_dictionary,
        local_subroutines,
    })
}

/// Returns the encoding of a Top DICT.
///
/// # Errors
///
/// - `MissingOperation`, `MalformedOperation`: the operand is missing or not an integer in the range of `i32`.
/// - `Unsupported`: the encoding is neither Standard nor Expert.
#[tactic(auto, unfolding(crate::specs::Computed::Parts::encoding))]
fn encoding(dictionary: &Operations) -> Result<Encoding>
    ensures exact { (bytes : List ℕ) (place : ℕ) → Answers same result place (the_encoding dictionary.now bytes place) }
    ensures listed { IsListed (13 ∷ 14 ∷ 16 ∷ []) result }
{
    match first(dictionary, Operator::Encoding)? {
        0 => Ok(Encoding::Standard),
        1 => Ok(Encoding::Expert),
        _ => Err(Error::Unsupported(Unsupported::CustomEncoding)),
    }
}

/// Reads the charstrings and the charset of a Top DICT.
#[tactic(auto, unfolding(crate::specs::Computed::Parts::glyphs))]
fn glyphs<T: Tape>(
    alloc: Global,
    tape: &mut T,
    start: u64,
    dictionary: &Operations,
) -> Result<(CharStrings, CharSet)>
    ensures exact { Reads (λ r. (r.0, r.1)) (T.state tape.old) result (T.state tape.new) (the_glyphs start dictionary.now) }
    ensures listed { IsListed (1 ∷ 2 ∷ 3 ∷ 5 ∷ 6 ∷ 10 ∷ 11 ∷ 12 ∷ 13 ∷ 14 ∷ 15 ∷ []) result }
{
    let char_strings = char_strings(alloc, tape, start, dictionary)?;
    let char_set = char_set(alloc, tape, start, char_strings.len(), dictionary)?;
    Ok((char_strings, char_set))
}

/// Reads the charstrings of a Top DICT.
#[tactic(auto, using(crate::proofs::IndexIs::char_strings_need), unfolding(crate::specs::Computed::Parts::char_strings, crate::specs::Kinds::char_strings))]
fn char_strings<T: Tape>(
    alloc: Global,
    tape: &mut T,
    start: u64,
    dictionary: &Operations,
) -> Result<CharStrings>
    ensures exact { Reads same (T.state tape.old) result (T.state tape.new) (the_char_strings start dictionary.now) }
    ensures listed { IsListed (1 ∷ 2 ∷ 3 ∷ 5 ∷ 6 ∷ 12 ∷ 13 ∷ 14 ∷ 15 ∷ []) result }
{
    let place = place_at(start, 0, dictionary, Operator::CharStrings)?;
    type_two(dictionary)?;
    Ok(read_given_at::<CharStrings, T>(alloc, tape, place, 2)?)
}

/// Reads the charset of a Top DICT.
///
/// # Errors
///
/// - `MissingOperation`, `MalformedOperation`: the operand is missing or not an integer in the range of `i32`.
/// - `OutOfRangeOffset`: the offset is negative, or does not fit in 64 bits.
/// - The errors of reading a `CharSet`.
#[tactic(auto, unfolding(crate::specs::Computed::Parts::char_set))]
fn char_set<T: Tape>(
    alloc: Global,
    tape: &mut T,
    start: u64,
    glyphs: usize,
    dictionary: &Operations,
) -> Result<CharSet>
    ensures exact { Reads same (T.state tape.old) result (T.state tape.new) (the_char_set start glyphs dictionary.now) }
    ensures listed { IsListed (1 ∷ 2 ∷ 3 ∷ 10 ∷ 11 ∷ 13 ∷ 14 ∷ 15 ∷ []) result }
{
    match char_set_offset(dictionary)? {
        0 => Ok(CharSet::ISOAdobe),
        1 => Ok(CharSet::Expert),
        2 => Ok(CharSet::ExpertSubset),
        offset => own_char_set(alloc, tape, start, offset, glyphs),
    }
}

/// Returns the offset of the charset, or the number of a predefined one.
#[tactic(auto, unfolding(crate::specs::Computed::Parts::char_set_offset))]
fn char_set_offset(dictionary: &Operations) -> Result<u32>
    ensures exact { (bytes : List ℕ) (place : ℕ) → Answers same result place (the_char_set_offset dictionary.now bytes place) }
    ensures listed { IsListed (13 ∷ 14 ∷ 15 ∷ []) result }
{
    let offset = first(dictionary, Operator::CharSet)?;
    u32::try_from(offset).map_err(|_| Error::OutOfRangeOffset)
}

/// Reads the charset at an offset.
#[tactic(auto, using(crate::proofs::CharSetIs::char_set_needs), unfolding(crate::specs::Computed::Parts::own_char_set))]
fn own_char_set<T: Tape>(
    alloc: Global,
    tape: &mut T,
    start: u64,
    offset: u32,
    glyphs: usize,
) -> Result<CharSet>
    ensures exact { Reads same (T.state tape.old) result (T.state tape.new) (the_own_char_set start glyphs offset) }
    ensures listed { IsListed (1 ∷ 2 ∷ 3 ∷ 10 ∷ 11 ∷ 15 ∷ []) result }
{
    let Some(place) = start.checked_add(u64::from(offset)) else {
        return Err(Error::OutOfRangeOffset);
    };
    Ok(read_given_at::<CharSet, T>(alloc, tape, place, glyphs)?)
}

/// Reads the Private DICT and the local subroutines of a Top DICT. Both are empty if there need not be a Private DICT
/// and there is none.
#[tactic(auto, unfolding(crate::specs::Computed::Parts::locals))]
fn locals<T: Tape>(
    alloc: Global,
    tape: &mut T,
    manner: Manner,
    start: u64,
    dictionary: &Operations,
) -> Result<(Operations, Subroutines)>
    ensures exact { Reads (λ r. (r.0, r.1)) (T.state tape.old) result (T.state tape.new) (the_locals manner start dictionary.now) }
    ensures listed { IsListed (1 ∷ 2 ∷ 3 ∷ 5 ∷ 6 ∷ 7 ∷ 8 ∷ 9 ∷ 13 ∷ 14 ∷ 15 ∷ []) result }
{
    if manner.goes_without(&dictionary.get_double(Operator::Private)) {
        return Ok((Operations::empty(alloc), Subroutines::empty(alloc)));
    }
    own_locals(alloc, tape, manner, start, dictionary)
}

/// Reads the Private DICT of a Top DICT, and the local subroutines.
#[tactic(auto, unfolding(crate::specs::Computed::Parts::own_locals))]
fn own_locals<T: Tape>(
    alloc: Global,
    tape: &mut T,
    manner: Manner,
    start: u64,
    dictionary: &Operations,
) -> Result<(Operations, Subroutines)>
    ensures exact { Reads (λ r. (r.0, r.1)) (T.state tape.old) result (T.state tape.new) (the_own_locals manner start dictionary.now) }
    ensures listed { IsListed (1 ∷ 2 ∷ 3 ∷ 5 ∷ 6 ∷ 7 ∷ 8 ∷ 9 ∷ 13 ∷ 14 ∷ 15 ∷ []) result }
{
    let (offset, local_dictionary) = private(alloc, tape, start, dictionary)?;
    let local_subroutines = own_subroutines(alloc, tape, manner, start, offset, &local_dictionary)?;
    Ok((local_dictionary, local_subroutines))
}

/// Reads the Private DICT, and returns its offset too.
#[tactic(auto, unfolding(crate::specs::Computed::Parts::private))]
fn private<T: Tape>(
    alloc: Global,
    tape: &mut T,
    start: u64,
    dictionary: &Operations,
) -> Result<(u32, Operations)>
    ensures exact { Reads (λ r. (r.0, r.1)) (T.state tape.old) result (T.state tape.new) (the_private start dictionary.now) }
    ensures listed { IsListed (1 ∷ 2 ∷ 3 ∷ 7 ∷ 8 ∷ 9 ∷ 13 ∷ 14 ∷ 15 ∷ []) result }
{
    let (size, offset, place) = bounds(start, dictionary)?;
    let text = bytes_at(alloc, tape, place, size)?;
    let local_dictionary = operations_of(alloc, &text)?;
    Ok((offset, local_dictionary))
}

/// Reads the local subroutines of a Private DICT, or returns an empty list if they may be missing and are.
#[tactic(auto, unfolding(crate::specs::Computed::Parts::own_subroutines))]
fn own_subroutines<T: Tape>(
    alloc: Global,
    tape: &mut T,
    manner: Manner,
    start: u64,
    offset: u32,
    local_dictionary: &Operations,
) -> Result<Subroutines>
    ensures exact { Reads same (T.state tape.old) result (T.state tape.new) (the_own_subroutines manner start offset local_dictionary.now) }
    ensures listed { IsListed (1 ∷ 2 ∷ 3 ∷ 5 ∷ 6 ∷ 13 ∷ 14 ∷ 15 ∷ []) result }
{
    if manner.goes_without(&local_dictionary.get_single(Operator::Subrs)) {
        return Ok(Subroutines::empty(alloc));
    }
    subroutines(alloc, tape, start, offset, local_dictionary)
}

/// Reads the local subroutines of a Private DICT at an offset.
#[tactic(auto, using(crate::proofs::IndexIs::needs), unfolding(crate::specs::Computed::Parts::subroutines))]
fn subroutines<T: Tape>(
    alloc: Global,
    tape: &mut T,
    start: u64,
    offset: u32,
    local_dictionary: &Operations,
) -> Result<Subroutines>
    ensures exact { Reads same (T.state tape.old) result (T.state tape.new) (the_subroutines start offset local_dictionary.now) }
    ensures listed { IsListed (1 ∷ 2 ∷ 3 ∷ 5 ∷ 6 ∷ 13 ∷ 14 ∷ 15 ∷ []) result }
{
    let place = place_at(start, offset, local_dictionary, Operator::Subrs)?;
    Ok(read_at::<Subroutines, T>(alloc, tape, place)?)
}

/// The parts of all Top DICTs, by kind.
#[derive(Drop)]
pub(super) struct Parts {
    pub(super) encodings: Vec<Encoding>,
    pub(super) char_sets: Vec<CharSet>,
    pub(super) char_strings: Vec<CharStrings>,
    pub(super) local_dictionaries: Vec<Operations>,
    pub(super) local_subroutines: Vec<Subroutines>,
}

impl Parts {
    /// Returns empty lists.
    fn empty(alloc: Global) -> Self
        ensures { parts_shown result ≡ columns [] }
    {
        Parts {
            encodings: Vec::new(alloc),
            char_sets: Vec::new(alloc),
            char_strings: Vec::new(alloc),
            local_dictionaries: Vec::new(alloc),
            local_subroutines: Vec::new(alloc),
        }
    }

    /// Appends one part.
    fn push(&mut self, part: Part) -> Result<()>
        ensures ok { OnOk result (parts_shown self.new ≡ more (parts_shown self.old) (part_shown part)) }
        ensures memory { IfErr result (λ e. e ≡ Error.Memory) }
        ensures listed { IsListed (3 ∷ []) result }
    {
        self.encodings.push(part.encoding)?;
        self.char_sets.push(part.char_set)?;
        self.char_strings.push(part.char_strings)?;
        self.local_dictionaries.push(part.local_dictionary)?;
        self.local_subroutines.push(part.local_subroutines)?;
        Ok(())
    }
}

/// Reads the parts of all Top DICTs.
pub(super) fn read_parts<T: Tape>(
    alloc: Global,
    tape: &mut T,
    manner: Manner,
    start: u64,
    dictionaries: &[Operations],
) -> Result<Parts>
    ensures exact { Reads parts_shown (T.state tape.old) result (T.state tape.new) (parts manner start dictionaries.now) }
    ensures listed { IsListed (1 ∷ 2 ∷ 3 ∷ 5 ∷ 6 ∷ 7 ∷ 8 ∷ 9 ∷ 10 ∷ 11 ∷ 12 ∷ 13 ∷ 14 ∷ 15 ∷ 16 ∷ []) result }
{
    let mut parts = Parts::empty(alloc);
    for dictionary in dictionaries {
        let part = read_part(alloc, tape, manner, start, dictionary)?;
        parts.push(part)?;
    }
    Ok(parts)
}
