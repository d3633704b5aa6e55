//! New font files with layout tables.
ghost use Rattle.std.specs.Prelude.{◌≡◌, pos, IfOk, IfErr};
ghost use Rattle.postscript_c.specs.Layouts.{AreCharsOf, IsFeatures, IsLaidOutBy, IsLaidOutFile, TellsLaidOut, laid_code, laid_refusal, outcome_code, outcomes_of};
ghost use Rattle.postscript_c.specs.Texts.{lent};
ghost use Rattle.postscript_subset.specs.TextChars.{NoTextChars};

use crate::short_names::given_names;
use crate::status::{CUT_TABLE, MEMORY, NO_GLYPH, TOO_LARGE, TOO_LONG};
use crate::texts::hand_over;
use crate::whole_files::{choice_of, whole_refusal_of, whole_status};
use crate::written::{PsfRefusal, refusal_with};
use postscript_files::Choice;
use postscript_layout_write::Error as Fault;
use postscript_subset::{Error, Features, Outcome, Result, Subset, subset_with_layout, text_chars};
use std::alloc::Global;

/// What became of the layout tables. The outcome of a table is 0 if the face has no such table, 1 if the new file has it, and
/// 2 if none of its features is chosen, or `kern` is not needed. Otherwise the table is lost, and the outcome is the status of
/// the reason: 45, 46 or 73.
#[repr(C)]
#[derive(Clone, Copy)]
pub struct PsfLayout {
    pub gsub: i32,
    pub gpos: i32,
    pub gdef: i32,
    pub kern: i32,
    /// The number of chosen lookups that the new `GSUB` table does not keep.
    pub left_out: u64,
}

/// The number of an outcome.
fn outcome_status(outcome: Outcome) -> i32
    ensures { result ≡ pos (outcome_code outcome) }
{
    match outcome {
        Outcome::Absent => 0,
        Outcome::Kept => 1,
        Outcome::NotChosen => 2,
        Outcome::Lost(Fault::Memory) => MEMORY,
        Outcome::Lost(Fault::TooLong) => TOO_LONG,
        Outcome::Lost(Fault::TooLarge) => TOO_LARGE,
        Outcome::Lost(Fault::ListsTooLong) => CUT_TABLE,
    }
}

/// The outcomes of a subset.
fn layout_of(subset: &Subset) -> PsfLayout
    ensures { result ≡ outcomes_of subset.now }
{
    PsfLayout {
        gsub: outcome_status(subset.gsub),
        gpos: outcome_status(subset.gpos),
        gdef: outcome_status(subset.gdef),
        kern: outcome_status(subset.kern),
        left_out: subset.left_out.len() as u64,
    }
}

/// The status of an error.
fn laid_status(e: &Error) -> i32
    ensures { result ≡ pos (laid_code e.now) }
{
    match e {
        Error::TooLong => TOO_LONG,
        Error::LargeGlyph(_) => NO_GLYPH,
        Error::File(fault) => whole_status(fault),
    }
}

/// The details of an error.
fn laid_refusal_of(e: &Error) -> PsfRefusal
    ensures { result ≡ laid_refusal e.now }
{
    match e {
        Error::TooLong => refusal_with(0, 0),
        Error::LargeGlyph(glyph) => refusal_with(*glyph, 0),
        Error::File(fault) => whole_refusal_of(fault),
    }
}

/// Stores a file and its outcomes. Returns 0, `NO_ROOM`, or the status of the error.
pub(crate) fn tell_laid_out(
    answer: &Result<Subset>,
    room: &mut [u8],
    count: &mut usize,
    layout: &mut PsfLayout,
    refusal: &mut PsfRefusal,
) -> i32
    ensures { TellsLaidOut answer.now result (lent room.old count.old) (lent room.new count.new) layout.old layout.new refusal.old refusal.new }
{
    match answer {
        Ok(subset) => {
            *layout = layout_of(subset);
            hand_over(&subset.file, room, count)
        }
        Err(e) => {
            *refusal = laid_refusal_of(e);
            laid_status(e)
        }
    }
}

/// The features with these tags, or all features.
fn features_of<'t>(tags: &'t [u32], all: u32) -> Features<'t>
    ensures { IsFeatures tags.now all result }
{
    if all == 0 {
        Features::These(tags)
    } else {
        Features::All
    }
}

/// The file of a face with these characters and glyphs, and with layout tables.
pub(crate) fn laid_out(
    alloc: Global,
    bytes: &[u8],
    face: usize,
    choice: &Choice<'_>,
    tags: &[u32],
    all: u32,
    limit: u64,
) -> Result<Subset>
    ensures { IsLaidOutBy choice.now tags.now all limit bytes.now face result }
{
    let mut left = limit;
    subset_with_layout(
        alloc,
        bytes,
        face,
        choice,
        features_of(tags, all),
        &mut left,
    )
}

/// The characters of a subset: the given ones, and unless `exact` is set those that a shaper may use for them.
fn chars_of(alloc: Global, bytes: &[u8], face: usize, chars: &[u32], exact: u32) -> Result<Vec<u32>>
    ensures chars { IfOk result (λ used. AreCharsOf exact bytes.now face chars.now used.items) }
    ensures why { IfErr result (λ e. NoTextChars bytes.now face e) }
{
    if exact == 0 {
        return text_chars(alloc, bytes, face, chars);
    }
    Ok(Vec::from_slice(alloc, chars)?)
}

/// The same for characters and glyphs, and with the `name` table that is asked for.
pub(crate) fn laid_out_of(
    alloc: Global,
    bytes: &[u8],
    face: usize,
    chars: &[u32],
    glyphs: &[usize],
    copied: &[u32],
    lenient: u32,
    keeps: u32,
    names: u32,
    exact: u32,
    tags: &[u32],
    all: u32,
    limit: u64,
) -> Result<Subset>
    ensures { IsLaidOutFile chars.now glyphs.now copied.now lenient keeps names exact tags.now all limit bytes.now face result }
{
    let used = chars_of(alloc, bytes, face, chars, exact)?;
    let given = given_names(alloc, bytes, face, names)?;
    let choice = choice_of(&used, glyphs, copied, &given, lenient, keeps, limit);
    laid_out(alloc, bytes, face, &choice, tags, all, limit)
}
