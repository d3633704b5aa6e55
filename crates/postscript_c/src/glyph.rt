//! Glyphs by their numbers.
ghost use Rattle.std.specs.Prelude.{◌≡◌, ℕ, ◌<◌, ◌≤◌, pos, List, option_map, IfNone, IfOk, IfSome, MatchResult};
ghost use Rattle.postscript_base.specs.Tape.Outcome.{Answers, same};
ghost use Rattle.postscript_c.specs.Glyphs.{index_at as the_index, program_at, program_of as the_program};
ghost use Rattle.postscript_c.specs.CidParts.{HasItem, HasNumber, IsCidPart, IsPartOf, item_part as the_item_part};
ghost use Rattle.postscript_c.specs.Parts.{IsPartIn, IsPartless};
ghost use Rattle.postscript_base.specs.Index.Lent.{items_of};
ghost use Rattle.postscript_type2.specs.Program.Evaluation.{run_of};
ghost use Rattle.postscript_type2.specs.Program.Programs.{begun};
ghost use Rattle.postscript_type2.specs.Program.Routines.{lent};

use crate::font::PsfFont;
use crate::part::{PsfPart, part_of};
use crate::status::{NO_GLYPH, NO_PART};
use crate::told::status;
use postscript_base::Result;
use postscript_base::index::IndexView;
use postscript_type2::{Charstring, Program, Subroutines};
use postscript_view::FdSelect;
use postscript_view::tables::operations_of;
use std::alloc::Global;

/// The items of the INDEX at an offset, or none at 0.
#[tactic(auto, unfolding(crate::specs::Glyphs::index_at))]
pub(crate) fn index_at(bytes: &[u8], there: u64) -> Result<IndexView<'_>>
    ensures exact { (place : ℕ) → Answers items_of result place (the_index there bytes.now place) }
{
    if there == 0 {
        return Ok(IndexView::empty());
    }
    let (items, _next) = IndexView::open(bytes, there as usize)?;
    Ok(items)
}

/// The number of the Font DICT of a glyph: the one that FDSelect gives it, or 0 if there is one Font DICT. `None` if
/// FDSelect gives it none.
fn number_of(bytes: &[u8], font: &PsfFont, dictionaries: usize, glyph: usize) -> Option<usize>
    ensures found { IfSome result (λ fd. HasNumber bytes.now font.now dictionaries glyph fd) }
    ensures none { IfNone result ((fd : ℕ) → HasNumber bytes.now font.now dictionaries glyph fd → ⊥) }
{
    if dictionaries == 1 {
        return Some(0);
    }
    if font.fd_select == 0 {
        return None;
    }
    FdSelect::at(bytes, font.fd_select as usize, font.glyphs as usize).part_of(glyph)
}

/// The Font DICT of a glyph. `None` if there is no such glyph, or no Font DICT with its number.
fn item_of<'l>(
    bytes: &[u8],
    font: &PsfFont,
    dictionaries: &IndexView<'l>,
    glyph: usize,
) -> Option<&'l [u8]>
    ensures found { IfSome result (λ item. HasItem bytes.now font.now (items_of dictionaries.now) glyph item.now) }
    ensures none { IfNone result ((item : List ℕ) → HasItem bytes.now font.now (items_of dictionaries.now) glyph item → ⊥) }
{
    if glyph as u64 >= font.glyphs {
        return None;
    }
    let Some(fd) = number_of(bytes, font, dictionaries.len(), glyph) else {
        return None;
    };
    dictionaries.get(fd)
}

/// The part of a Font DICT.
#[tactic(auto, unfolding(crate::specs::CidParts::item_part))]
fn item_part(alloc: Global, bytes: &[u8], item: &[u8]) -> Result<PsfPart>
    ensures exact { (place : ℕ) → Answers (λ part. part.local_subroutines) result place (the_item_part item.now bytes.now place) }
    ensures part { IfOk result (λ part. IsPartOf bytes.now item.now part) }
{
    let dictionary = operations_of(alloc, item)?;
    part_of(alloc, bytes, &dictionary)
}

/// The part of a glyph of a CID-keyed font. `None` if the glyph has no Font DICT.
#[inline(never)]
fn cid_part(alloc: Global, bytes: &[u8], font: &PsfFont, glyph: usize) -> Result<Option<PsfPart>>
    ensures { IsCidPart bytes.now font.now glyph result }
{
    let dictionaries = index_at(bytes, font.font_dictionaries)?;
    let Some(item) = item_of(bytes, font, &dictionaries, glyph) else {
        return Ok(None);
    };
    match item_part(alloc, bytes, item) {
        Ok(part) => Ok(Some(part)),
        Err(e) => Err(e),
    }
}

/// The status of a glyph without a Font DICT.
fn partless(font: &PsfFont, glyph: usize) -> i32
    ensures no_glyph { font.now.glyphs ≤ glyph → result ≡ pos 31 }
    ensures no_dictionary { glyph < font.now.glyphs → result ≡ pos 42 }
{
    if glyph as u64 >= font.glyphs {
        NO_GLYPH
    } else {
        NO_PART
    }
}

/// The part of a glyph, or the status if it has none.
pub(crate) fn part_at(
    alloc: Global,
    bytes: &[u8],
    font: &PsfFont,
    glyph: usize,
) -> std::result::Result<PsfPart, i32>
    ensures { MatchResult result (λ part. IsPartIn bytes.now font.now glyph part) (λ status. IsPartless bytes.now font.now glyph status) }
{
    if font.is_cid == 0 {
        return Ok(font.part);
    }
    match cid_part(alloc, bytes, font, glyph) {
        Ok(Some(part)) => Ok(part),
        Ok(None) => Err(partless(font, glyph)),
        Err(e) => Err(status(&e)),
    }
}

/// The program of a charstring with these subroutines.
pub(crate) fn program_over<'l>(
    alloc: Global,
    code: &'l [u8],
    globals: IndexView<'l>,
    locals: IndexView<'l>,
) -> Program<'l>
    ensures { result ≡ begun (run_of (lent (items_of globals.entry) (items_of locals.entry)) code.now) }
{
    let subroutines = Subroutines::indexes(globals, locals);
    Charstring { code, subroutines }.program(alloc)
}

/// The program of a charstring with the subroutines at two offsets.
#[tactic(auto, unfolding(crate::specs::Glyphs::program_of))]
fn program_of<'l>(
    alloc: Global,
    bytes: &'l [u8],
    code: Option<&'l [u8]>,
    global: u64,
    local: u64,
) -> Result<Option<Program<'l>>>
    ensures exact { (place : ℕ) →
        Answers same result place (the_program (option_map (λ code. code.now) code.entry) global local bytes.now place) }
{
    let Some(code) = code else {
        return Ok(None);
    };
    let globals = index_at(bytes, global)?;
    let locals = index_at(bytes, local)?;
    Ok(Some(program_over(alloc, code, globals, locals)))
}

/// The program of a glyph. `None` if there is no such glyph.
#[tactic(auto, unfolding(crate::specs::Glyphs::program_at))]
pub(crate) fn program<'l>(
    alloc: Global,
    bytes: &'l [u8],
    font: &PsfFont,
    part: &PsfPart,
    glyph: usize,
) -> Result<Option<Program<'l>>>
    ensures exact { (place : ℕ) → Answers same result place (program_at font.now part.now glyph bytes.now place) }
{
    let codes = index_at(bytes, font.char_strings)?;
    program_of(
        alloc,
        bytes,
        codes.get(glyph),
        font.global_subroutines,
        part.local_subroutines,
    )
}
