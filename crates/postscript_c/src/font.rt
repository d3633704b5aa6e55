//! Fonts in the form for C.
ghost use Rattle.std.specs.Prelude.{◌≡◌, ℕ, IfOk, slice_get, true, false};
ghost use Rattle.postscript_base.specs.Tape.Outcome.{Answers, same};
ghost use Rattle.postscript_c.specs.Places.{codes as the_codes, local as the_local, placed, places, places_of, tables as the_tables};
ghost use Rattle.postscript_c.specs.Keyed.{IsKeyedBy, IsPlaceOrNone};
ghost use Rattle.postscript_c.specs.FontWidths.{HaveWidths, TellsWidths};
ghost use Rattle.postscript_base.specs.Index.Lent.{items_of};
ghost use Rattle.postscript_view.specs.Order.{aside, map_from};

use crate::part::{PsfPart, part_of};
use postscript_base::compact1::{Operations, Operator};
use postscript_base::index::IndexView;
use postscript_base::{Error, Result};
use postscript_compact1::font_set::operands::{place_at, type_two};
use postscript_drawing::LIMIT;
use postscript_view::tables::{header_size, operations_of};
use std::alloc::Global;

/// A font as plain numbers: the offsets of its parts in the bytes. An offset of 0 means that the part is absent.
///
/// There is no invariant. With any numbers each call is safe, and returns a result or an error.
#[repr(C)]
#[derive(Clone, Copy)]
pub struct PsfFont {
    /// The offset of the CharStrings INDEX.
    pub char_strings: u64,
    /// The offset of the Global Subr INDEX.
    pub global_subroutines: u64,
    /// The offset of FDArray, the Font DICT INDEX, in a CID-keyed font, otherwise 0.
    pub font_dictionaries: u64,
    /// The offset of FDSelect in a CID-keyed font, otherwise 0. It gives each glyph its Font DICT.
    pub fd_select: u64,
    /// The part of a font that is not CID-keyed.
    pub part: PsfPart,
    /// The number of glyphs.
    pub glyphs: u64,
    /// 1 if the font is CID-keyed, otherwise 0.
    pub is_cid: u32,
    /// The limit for the run of a glyph, in units of `psf_font_fits`.
    pub limit: u64,
}

/// The DICT of the first item.
fn first_dictionary(alloc: Global, bytes: &[u8], dictionaries: &IndexView<'_>) -> Result<Operations>
    ensures exact { (place : ℕ) → Answers same result place (map_from (slice_get (items_of dictionaries.now) 0) bytes.now place) }
{
    match dictionaries.get(0) {
        Some(item) => operations_of(alloc, item),
        None => Err(Error::UnexpectedEof),
    }
}

/// The Top DICT of the first font, and the offset of the global subroutines.
#[tactic(auto, unfolding(crate::specs::Places::tables))]
fn tables(alloc: Global, bytes: &[u8], start: usize) -> Result<(Operations, u64)>
    ensures exact { (place : ℕ) → Answers (λ r. (r.0, r.1)) result place (aside start the_tables bytes.now place) }
{
    let (_names, next) = IndexView::open(bytes, start)?;
    let (dictionaries, next) = IndexView::open(bytes, next)?;
    let (_strings, there) = IndexView::open(bytes, next)?;
    let (_subroutines, _next) = IndexView::open(bytes, there)?;
    let dictionary = first_dictionary(alloc, bytes, &dictionaries)?;
    Ok((dictionary, there as u64))
}

/// The offset of an operator, or 0 if it is missing or not an offset.
fn place_or_none(dictionary: &Operations, operator: Operator) -> u64
    ensures { IsPlaceOrNone dictionary.now operator result }
{
    match place_at(0, 0, dictionary, operator) {
        Ok(place) => place,
        Err(_e) => 0,
    }
}

/// The offset of the charstrings, and their number.
#[tactic(auto, unfolding(crate::specs::Places::codes))]
fn codes(bytes: &[u8], dictionary: &Operations) -> Result<(u64, u64)>
    ensures exact { (place : ℕ) → Answers (λ r. (r.0, r.1)) result place (the_codes dictionary.now bytes.now place) }
{
    let there = place_at(0, 0, dictionary, Operator::CharStrings)?;
    type_two(dictionary)?;
    let (items, _next) = IndexView::open(bytes, there as usize)?;
    Ok((there, items.len() as u64))
}

/// The part of a font that is not CID-keyed.
#[tactic(auto, unfolding(crate::specs::Places::local))]
fn local(alloc: Global, bytes: &[u8], dictionary: &Operations) -> Result<PsfPart>
    ensures exact { (place : ℕ) → Answers (λ part. part.local_subroutines) result place (the_local dictionary.now bytes.now place) }
    ensures widths { IfOk result (λ part. HaveWidths bytes.now dictionary.now part) }
{
    if dictionary.get(Operator::ROS).is_some() {
        return Ok(PsfPart::none());
    }
    part_of(alloc, bytes, dictionary)
}

/// The offset of an operator in a CID-keyed font, otherwise 0.
fn cid_place(dictionary: &Operations, is_cid: bool, operator: Operator) -> u64
    ensures cid { is_cid ≡ true → IsPlaceOrNone dictionary.now operator result }
    ensures plain { is_cid ≡ false → result ≡ 0 }
{
    if is_cid {
        place_or_none(dictionary, operator)
    } else {
        0
    }
}

/// The font of a Top DICT, given the offset of the global subroutines.
#[tactic(auto, unfolding(crate::specs::Places::places_of))]
fn font_of(
    alloc: Global,
    bytes: &[u8],
    dictionary: &Operations,
    global_subroutines: u64,
) -> Result<PsfFont>
    ensures exact { (place : ℕ) → Answers placed result place (places_of dictionary.now global_subroutines bytes.now place) }
    ensures widths { IfOk result (λ font. HaveWidths bytes.now dictionary.now font.part) }
    ensures keyed { IfOk result (λ font. IsKeyedBy dictionary.now font) }
    ensures limit { IfOk result (λ font. font.limit ≡ 20000000) }
{
    let (char_strings, glyphs) = codes(bytes, dictionary)?;
    let part = local(alloc, bytes, dictionary)?;
    let is_cid = dictionary.get(Operator::ROS).is_some();
    Ok(PsfFont {
        char_strings,
        global_subroutines,
        font_dictionaries: cid_place(dictionary, is_cid, Operator::FDArray),
        fd_select: cid_place(dictionary, is_cid, Operator::FDSelect),
        part,
        glyphs,
        is_cid: u32::from(is_cid),
        limit: LIMIT,
    })
}

/// The font at the beginning of the bytes.
#[tactic(auto, unfolding(crate::specs::Places::places))]
pub(crate) fn open_font(alloc: Global, bytes: &[u8]) -> Result<PsfFont>
    ensures exact { (place : ℕ) → Answers placed result place (places bytes.now place) }
    ensures widths { IfOk result (λ font. TellsWidths bytes.now font) }
    ensures limit { IfOk result (λ font. font.limit ≡ 20000000) }
{
    let size = header_size(bytes)?;
    let (dictionary, global_subroutines) = tables(alloc, bytes, size)?;
    font_of(alloc, bytes, &dictionary, global_subroutines)
}
