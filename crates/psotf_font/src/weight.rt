//! The amount of work that a `CFF ` table makes, computed before the font is read.
use postscript_base::compact1::{Operations, Operator};
use postscript_base::index::IndexView;
use postscript_compact1::font_set::operands::{bounds, place_at};
use postscript_view::tables::{header_size, operations_of};
use std::alloc::Global;

/// The most bytes of a Top DICT and its Private DICT, or of all Font DICTs and their Private DICTs. Each is read separately,
/// even if they overlap.
pub const MOST: u64 = 500_000;

/// Returns the bytes of the Top DICT of the first font.
fn top_of(cff: &[u8]) -> Option<&[u8]> {
    let size = header_size(cff).ok()?;
    let (_names, place) = IndexView::open(cff, size).ok()?;
    let (dictionaries, _next) = IndexView::open(cff, place).ok()?;
    dictionaries.get(0)
}

/// Returns the Top DICT of the first font.
pub fn dictionary_of(alloc: Global, cff: &[u8]) -> Option<Operations> {
    operations_of(alloc, top_of(cff)?).ok()
}

/// Returns the offset of the part that an operator names.
fn named_offset(cff: &[u8], dictionary: &Operations, operator: Operator) -> Option<usize> {
    let place = place_at(0, 0, dictionary, operator).ok()?;
    if place > cff.len() as u64 {
        return None;
    }
    Some(place as usize)
}

/// Returns the INDEX that an operator names.
fn items_of<'l>(
    cff: &'l [u8],
    dictionary: &Operations,
    operator: Operator,
) -> Option<IndexView<'l>> {
    let (items, _next) = IndexView::open(cff, named_offset(cff, dictionary, operator)?).ok()?;
    Some(items)
}

/// Returns the Font DICT INDEX, if the font is CID-keyed.
fn font_dictionaries<'l>(cff: &'l [u8], dictionary: &Operations) -> Option<IndexView<'l>> {
    if dictionary.get(Operator::ROS).is_none() {
        return None;
    }
    items_of(cff, dictionary, Operator::FDArray)
}

/// Returns the size of the Private DICT that a DICT names.
fn size_by(cff: &[u8], dictionary: &Operations) -> u64 {
    match bounds(0, dictionary) {
        Ok((size, _offset, _place)) => (size as u64).min(cff.len() as u64),
        Err(_) => 0,
    }
}

/// Returns the size of the Private DICT that a Font DICT names.
fn private_size(alloc: Global, cff: &[u8], item: &[u8]) -> u64 {
    match operations_of(alloc, item) {
        Ok(dictionary) => size_by(cff, &dictionary),
        Err(_) => 0,
    }
}

/// Returns whether Font DICTs and their Private DICTs have too many bytes.
fn are_too_much(alloc: Global, cff: &[u8], items: &IndexView<'_>) -> bool {
    let mut sum = 0u64;
    for item in items.iter() {
        sum = sum.saturating_add(item.len() as u64);
        if sum > MOST {
            return true;
        }
        sum = sum.saturating_add(private_size(alloc, cff, item));
    }
    sum > MOST
}

/// Returns whether the DICTs have too many bytes: the Top DICT, its Private DICT, or in a CID-keyed font the Font DICTs and
/// their Private DICTs.
pub fn is_too_much(alloc: Global, cff: &[u8]) -> bool {
    if top_of(cff).unwrap_or(&[]).len() as u64 > MOST {
        return true;
    }
    let Some(dictionary) = dictionary_of(alloc, cff) else {
        return false;
    };
    match font_dictionaries(cff, &dictionary) {
        Some(items) => are_too_much(alloc, cff, &items),
        None => size_by(cff, &dictionary) > MOST,
    }
}
