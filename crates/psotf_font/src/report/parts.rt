//! The parts of the `CFF ` table, with their offsets and sizes (Technical Note 5176, Table 1).
use crate::face::Face;
use postscript_base::compact1::{Operations, Operator};
use postscript_base::index::IndexView;
use postscript_base::index::number::number_within;
use postscript_view::{Codes, Identifiers};
use psotf_output::sheet::Sheet;

/// Writes the name, the offset and the size of a part.
fn part(sheet: &mut Sheet, name: &str, place: usize, size: usize) {
    sheet.put_entry(name, place as u64, size as u64);
}

/// Writes the INDEX at `place`. Returns the offset after it.
fn index(sheet: &mut Sheet, cff: &[u8], name: &str, place: usize) -> usize {
    let Ok((_, end)) = IndexView::open(cff, place) else {
        return place;
    };
    part(sheet, name, place, end.saturating_sub(place));
    end
}

/// Returns an operand that is an offset or a size. `before` counts from the last operand.
fn operand(dictionary: &Operations, operator: Operator, before: usize) -> Option<usize> {
    let operands = dictionary.get(operator)?;
    let list = operands.as_slice();
    let i = list.len().checked_sub(1)?.checked_sub(before)?;
    usize::try_from(list.get(i)?.to_i32()?).ok()
}

/// The INDEXes after the header, in their order.
const BEHIND_THE_HEADER: [&str; 4] = [
    "Name INDEX",
    "Top DICT INDEX",
    "String INDEX",
    "Global Subr INDEX",
];

/// Writes the consecutive parts from the header on, as far as they are well formed.
pub fn first(sheet: &mut Sheet, cff: &[u8]) {
    let header = number_within(cff, 2, 1).unwrap_or(0);
    part(sheet, "header", 0, header);
    let mut place = header;
    for name in &BEHIND_THE_HEADER {
        let end = index(sheet, cff, name, place);
        if end == place {
            break;
        }
        place = end;
    }
}

/// Returns the number of glyphs after the first of a range, which has two bytes or one.
fn glyphs_after_first(bytes: &[u8], place: usize, is_wide: bool) -> postscript_base::Result<usize> {
    let behind = place.saturating_add(2);
    if is_wide {
        number_within(bytes, behind, 2)
    } else {
        number_within(bytes, behind, 1)
    }
}

/// Returns the size of the ranges for `glyphs` glyphs, of four or three bytes each.
fn ranges(bytes: &[u8], is_wide: bool, glyphs: usize) -> usize {
    let mut left = glyphs;
    let mut place = 0usize;
    for _ in 0..glyphs {
        if left == 0 {
            break;
        }
        let Ok(more) = glyphs_after_first(bytes, place, is_wide) else {
            break;
        };
        left = left.saturating_sub(more.saturating_add(1));
        place = place.saturating_add(if is_wide { 4 } else { 3 });
    }
    place
}

/// Writes a custom charset.
fn char_set(sheet: &mut Sheet, face: &Face<'_>) {
    let (Some(set), Some(place)) = (
        &face.set,
        operand(&face.font.dictionary, Operator::CharSet, 0),
    ) else {
        return;
    };
    let behind = face.font.char_strings.len().saturating_sub(1);
    let size = match set.identifiers {
        Identifiers::Listed(_) => behind.saturating_mul(2),
        Identifiers::Ranges1(bytes) => ranges(bytes, false, behind),
        Identifiers::Ranges2(bytes) => ranges(bytes, true, behind),
        _ => return,
    };
    part(sheet, "Charsets", place, size.saturating_add(1));
}

/// Writes a custom encoding.
fn encoding(sheet: &mut Sheet, face: &Face<'_>) {
    let (Ok(encoding), Some(place)) = (
        face.font.encoding(),
        operand(&face.font.dictionary, Operator::Encoding, 0),
    ) else {
        return;
    };
    let codes = match encoding.codes {
        Codes::Listed(codes) => codes.len(),
        Codes::Ranges(codes) => codes.len(),
        Codes::Predefined(_) => return,
    };
    let supplements = match encoding.supplements.len() {
        0 => 0,
        len => len.saturating_add(1),
    };
    let size = codes.saturating_add(2).saturating_add(supplements);
    part(sheet, "Encodings", place, size);
}

/// Writes FDSelect (section 19).
fn select(sheet: &mut Sheet, face: &Face<'_>) {
    let Some(place) = operand(&face.font.dictionary, Operator::FDSelect, 0) else {
        return;
    };
    let size = match number_within(face.cff, place, 1) {
        Ok(0) => face.font.char_strings.len().saturating_add(1),
        Ok(3) => number_within(face.cff, place.saturating_add(1), 2)
            .unwrap_or(0)
            .saturating_mul(3)
            .saturating_add(5),
        _ => return,
    };
    part(sheet, "FDSelect", place, size);
}

/// Writes the Private DICT that a DICT names, and its local subroutines.
fn private(sheet: &mut Sheet, face: &Face<'_>, dictionary: &Operations, own: &Operations) {
    let (Some(size), Some(place)) = (
        operand(dictionary, Operator::Private, 1),
        operand(dictionary, Operator::Private, 0),
    ) else {
        return;
    };
    part(sheet, "Private DICT", place, size);
    if let Some(behind) = operand(own, Operator::Subrs, 0) {
        let _ = index(
            sheet,
            face.cff,
            "Local Subr INDEX",
            place.saturating_add(behind),
        );
    }
}

/// Writes the Private DICTs and their local subroutines.
fn privates(sheet: &mut Sheet, face: &Face<'_>) {
    for one in &face.font.parts {
        match &one.font_dictionary {
            Some(dictionary) => private(sheet, face, dictionary, &one.dictionary),
            None => private(sheet, face, &face.font.dictionary, &one.dictionary),
        }
    }
}

/// Writes the INDEX that an operator of the Top DICT names.
fn put_index_of(sheet: &mut Sheet, face: &Face<'_>, name: &str, operator: Operator) {
    if let Some(place) = operand(&face.font.dictionary, operator, 0) {
        let _ = index(sheet, face.cff, name, place);
    }
}

/// Writes the name, the offset and the size of each part.
pub fn put(sheet: &mut Sheet, face: &Face<'_>) {
    sheet.begin_list("parts");
    first(sheet, face.cff);
    encoding(sheet, face);
    char_set(sheet, face);
    select(sheet, face);
    put_index_of(sheet, face, "CharStrings INDEX", Operator::CharStrings);
    put_index_of(sheet, face, "Font DICT INDEX", Operator::FDArray);
    privates(sheet, face);
    sheet.end_array();
}
