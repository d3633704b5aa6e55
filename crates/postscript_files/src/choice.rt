//! The characters and glyphs of a subset.
ghost use Rattle.std.specs.Prelude.{◌≡◌, ℕ, ◌++◌, ◌<◌, true, false, slice_index_or, slice_set, length, IfOk, IfErr, OnOk, IsTrue, ◌↔◌};
ghost use Rattle.std.specs.List.{All};
ghost use Rattle.postscript_files.specs.Choices.{AreKeptPairs, AreMarks, IsFirstMissing, IsMissing, NoneIsMissing, filtered as the_filtered, glyphs_of, keeps as the_keeps, kept_if, named_of};
ghost use Rattle.postscript_files.specs.declared.error.Error.TheVariants as errors;

use crate::error::{Error, Result};
use crate::lookup::looked_up;
use postscript_sfnt::CharacterMap;
use postscript_sfnt_write::Mapping;
use std::alloc::Global;

/// One more than the last character of Unicode.
const CHARS: usize = 0x110000;

/// One more than the last glyph number.
const GLYPHS: usize = 0x10000;

/// The most characters that are looked up one by one.
const FEW: usize = 1024;

/// A table of the caller's own, for [`Choice`].
#[derive(Drop)]
pub struct Given {
    /// The tag, as a big-endian number of four bytes.
    pub tag: u32,
    /// The bytes of the table.
    pub bytes: Vec<u8>,
}

/// The contents of a subset.
#[derive(Clone, Copy)]
pub struct Choice<'t> {
    /// Characters, in any order. Repeated ones count once.
    pub chars: &'t [u32],
    /// Glyph numbers, in any order. Each glyph is kept with all its characters.
    pub glyphs: &'t [usize],
    /// Further glyph numbers, in any order. Each glyph is kept, but its characters are not.
    pub unmapped: &'t [usize],
    /// Characters without a glyph are left out if this is set. Otherwise they are an error.
    pub lenient: bool,
    /// Glyphs keep their numbers if this is set, with empty glyphs between them.
    pub retain_gids: bool,
    /// Tags of tables that are copied unchanged, if the face has them.
    pub copied: &'t [u32],
    /// Further tables for the new file.
    pub given: &'t [Given],
    /// The limit that the runs of all kept glyphs share, in units of `Program::step_within`, or `None` if there is none.
    pub limit: Option<u64>,
}

/// Sets the mark of a number, if there is one.
fn set(marks: &mut Vec<bool>, number: usize)
    ensures { marks.new.items ≡ slice_set marks.old.items number true }
{
    if number < marks.len() {
        marks[number] = true;
    }
}

/// Returns this number of marks. None of them is set.
fn no_marks(alloc: Global, count: usize) -> Result<Vec<bool>>
    ensures many { IfOk result (λ marks. length marks.items ≡ count) }
    ensures none { IfOk result (λ marks. (n : ℕ) → n < count → slice_index_or marks.items n false ≡ false) }
    ensures memory { IfErr result (λ e. e ≡ errors.Memory) }
{
    Ok(vec![in alloc; false; count]?)
}

/// Returns this number of marks, with those of characters set.
fn marked_chars(alloc: Global, chars: &[u32], count: usize) -> Result<Vec<bool>>
    ensures marks { IfOk result (λ marks. AreMarks chars.now count marks.items) }
    ensures memory { IfErr result (λ e. e ≡ errors.Memory) }
{
    let mut marks = no_marks(alloc, count)?;
    for char in chars {
        set(&mut marks, *char as usize);
    }
    Ok(marks)
}

/// Returns this number of marks, with those of glyphs set.
fn marked_glyphs(alloc: Global, glyphs: &[usize], count: usize) -> Result<Vec<bool>>
    ensures marks { IfOk result (λ marks. AreMarks glyphs.now count marks.items) }
    ensures memory { IfErr result (λ e. e ≡ errors.Memory) }
{
    let mut marks = no_marks(alloc, count)?;
    for glyph in glyphs {
        set(&mut marks, *glyph);
    }
    Ok(marks)
}

/// Returns true if the mark of a number is set.
fn is_marked(marks: &[bool], number: usize) -> bool
    ensures { result ≡ slice_index_or marks.now number false }
{
    number < marks.len() && marks[number]
}

/// Returns true if a character is kept: its mark is set, or that of its glyph.
fn keeps(chars: &[bool], glyphs: &[bool], pair: &(u32, u16)) -> bool
    ensures exact { result ≡ the_keeps chars.now glyphs.now pair.now }
    ensures low { pair.now.1 < 65536 }
{
    let glyph = usize::from(pair.1);
    is_marked(chars, pair.0 as usize) || is_marked(glyphs, glyph)
}

/// Appends a character with its glyph, if it is kept.
fn push_if(pairs: &mut Vec<Mapping>, kept: bool, pair: &(u32, u16)) -> Result<()>
    ensures pushed { OnOk result (pairs.new.items ≡ pairs.old.items ++ kept_if kept pair.now) }
    ensures memory { IfErr result (λ e. e ≡ errors.Memory) }
{
    if kept {
        pairs.push(Mapping {
            char: pair.0,
            glyph: pair.1,
        })?;
    }
    Ok(())
}

/// Returns the characters that are kept, of a list with their glyphs.
fn kept_of_list(
    alloc: Global,
    all: &[(u32, u16)],
    chars: &[bool],
    glyphs: &[bool],
) -> Result<Vec<Mapping>>
    ensures kept { IfOk result (λ pairs. pairs.items ≡ the_filtered chars.now glyphs.now all.now) }
    ensures low { OnOk result (All (λ pair. pair.1 < 65536) all.now) }
    ensures memory { IfErr result (λ e. e ≡ errors.Memory) }
{
    let mut pairs = Vec::new(alloc);
    for pair in all {
        let kept = keeps(chars, glyphs, pair);
        push_if(&mut pairs, kept, pair)?;
    }
    Ok(pairs)
}

/// Returns the characters of a face that are kept, each with its glyph, by a walk through all characters.
fn kept_by_walk(alloc: Global, map: &CharacterMap<'_>, choice: &Choice<'_>) -> Result<Vec<Mapping>>
    ensures kept { IfOk result (λ pairs. AreKeptPairs choice.now map.now pairs.items) }
    ensures memory { IfErr result (λ e. e ≡ errors.Memory) }
{
    let chars = marked_chars(alloc, choice.chars, CHARS)?;
    let glyphs = marked_glyphs(alloc, choice.glyphs, GLYPHS)?;
    let all = map.characters(alloc)?;
    kept_of_list(alloc, &all, &chars, &glyphs)
}

/// Returns the characters of a face that are kept, each with its glyph, in ascending order. Few characters are looked up,
/// so that a small subset of a large font takes little time.
pub(crate) fn kept_pairs(
    alloc: Global,
    map: &CharacterMap<'_>,
    choice: &Choice<'_>,
) -> Result<Vec<Mapping>>
    ensures kept { IfOk result (λ pairs. AreKeptPairs choice.now map.now pairs.items) }
    ensures memory { IfErr result (λ e. e ≡ errors.Memory) }
{
    if choice.glyphs.is_empty() && choice.chars.len() <= FEW {
        looked_up(alloc, map, choice.chars)
    } else {
        kept_by_walk(alloc, map, choice)
    }
}

/// Returns true if the face has no glyph for a character.
fn is_missing(map: &CharacterMap<'_>, char: u32) -> bool
    ensures { IsTrue result ↔ IsMissing map.now char }
{
    char as usize >= CHARS || map.glyph_of(char) == 0
}

/// Returns an error for the first character without a glyph.
pub(crate) fn refuse_missing(map: &CharacterMap<'_>, chars: &[u32]) -> Result<()>
    ensures none { OnOk result (NoneIsMissing map.now chars.now) }
    ensures missing { IfErr result (λ e. IsFirstMissing map.now chars.now e) }
{
    for char in chars {
        if is_missing(map, *char) {
            return Err(Error::MissingCharacter(*char));
        }
    }
    Ok(())
}

/// Returns the chosen glyphs.
fn chosen_glyphs(alloc: Global, choice: &Choice<'_>) -> Result<Vec<usize>>
    ensures chosen { IfOk result (λ chosen. chosen.items ≡ glyphs_of choice.now) }
    ensures memory { IfErr result (λ e. e ≡ errors.Memory) }
{
    let mut chosen = Vec::from_slice(alloc, choice.glyphs)?;
    chosen.extend_from_slice(choice.unmapped)?;
    Ok(chosen)
}

/// Returns the chosen glyphs, and the glyphs of characters.
pub(crate) fn glyphs_of_choice(
    alloc: Global,
    choice: &Choice<'_>,
    pairs: &[Mapping],
) -> Result<Vec<usize>>
    ensures named { IfOk result (λ named. named.items ≡ named_of (glyphs_of choice.now) pairs.now) }
    ensures memory { IfErr result (λ e. e ≡ errors.Memory) }
{
    let mut named = chosen_glyphs(alloc, choice)?;
    for pair in pairs {
        named.push(usize::from(pair.glyph))?;
    }
    Ok(named)
}
