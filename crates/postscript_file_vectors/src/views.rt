//! Fonts in place: a CID-keyed one, one with its own encoding, and fonts in which only a part is bad.
pub mod rows;

use crate::checks::{bytes_of, holds, holds_at, is_text, put_shown, with_changed_byte};
use postscript::compact1::FontSet;
use postscript_vectors::common::{TWO_DICTIONARIES, code_of};
use postscript_view::{Advance, AdvanceWithin, FdSelect, FontView};
use rows::{
    BROKEN, CID, CIDS_OF_LETTERS, CODES, FALLING, FITTING, GLYPHS, LASTS, MATRICES, PLAIN, RANGE,
    REFUSED, SELECTED, SELECTIONS, WITHIN,
};
use std::alloc::Global;
use std::io::Cursor;
use std::process::Abort;

/// The bytes of a font, followed by others.
pub fn join_bytes<R: Abort>(rt: &R, alloc: Global, font: &str, behind: &str) -> Vec<u8> {
    let mut bytes = bytes_of(rt, alloc, font);
    let more = bytes_of(rt, alloc, behind);
    bytes
        .extend_from_slice(more.as_slice())
        .expect(rt, "memory");
    bytes
}

/// Adds the parts of an advance.
fn put_advance<R: Abort>(rt: &R, text: &mut String, advance: &Advance) {
    match advance {
        Advance::Default(width) => put_shown(rt, text, " advance ", width),
        Advance::Nominal(width, difference) => {
            put_shown(rt, text, " advance ", width);
            put_shown(rt, text, " and ", difference);
        }
    }
    if let Some(bits) = advance.in_bits() {
        put_shown(rt, text, " bits ", &bits);
    }
}

/// Describes a glyph of a CID-keyed font.
pub fn describe_glyph<R: Abort>(
    rt: &R,
    alloc: Global,
    font: &FontView<'_>,
    glyph: usize,
) -> String {
    let mut text = String::new(alloc);
    let set = font.char_set().expect(rt, "a char set");
    if let Some(cid) = font.cid(&set, glyph) {
        put_shown(rt, &mut text, "cid ", &cid);
    }
    if let Some(part) = font.part_of(glyph) {
        put_shown(rt, &mut text, " part ", &part);
    }
    if let Some(found) = font.glyph(glyph) {
        put_shown(rt, &mut text, " bytes ", &found.code.len());
    }
    let mut limit = 100;
    let told = font.advance(alloc, glyph, &mut limit).expect(rt, "a run");
    if let AdvanceWithin::Known(advance) = told {
        put_advance(rt, &mut text, &advance);
    }
    if let Some(matrix) = font.font_matrix(glyph) {
        for operand in matrix.as_slice() {
            put_shown(rt, &mut text, " ", operand);
        }
    }
    if let Some(private) = font.private(glyph) {
        put_shown(rt, &mut text, " private ", &private.0.len());
    }
    text
}

#[test]
fn glyphs_of_a_cid_keyed_font(rt: HostRuntime) {
    let alloc = rt.alloc();
    for selection in SELECTIONS {
        let bytes = join_bytes(&rt, alloc, CID, selection);
        let font = FontView::read(alloc, bytes.as_slice()).expect(&rt, "a font");
        holds(&rt, font.is_cid_keyed(), "a CID-keyed font");
        for (glyph, wanted) in GLYPHS.iter().enumerate() {
            let text = describe_glyph(&rt, alloc, &font, glyph);
            is_text(&rt, text.as_str(), wanted, selection);
        }
    }
}

#[test]
fn ranges_that_fall_give_no_part(rt: HostRuntime) {
    let alloc = rt.alloc();
    let bytes = join_bytes(&rt, alloc, CID, FALLING);
    let font = FontView::read(alloc, bytes.as_slice()).expect(&rt, "a font");
    for glyph in 0..4 {
        let is_none = font.part_of(glyph).is_none() && font.glyph(glyph).is_none();
        holds_at(&rt, is_none, "glyph", glyph);
    }
}

#[test]
fn font_dictionaries_of_glyphs(rt: HostRuntime) {
    let alloc = rt.alloc();
    for (row, (selection, glyphs, glyph, wanted)) in SELECTED.iter().enumerate() {
        let bytes = bytes_of(&rt, alloc, selection);
        let select = FdSelect::at(bytes.as_slice(), 0, *glyphs);
        holds_at(&rt, select.part_of(*glyph) == *wanted, "row", row);
    }
}

#[test]
fn fonts_that_fit_a_limit(rt: HostRuntime) {
    let alloc = rt.alloc();
    for (font, selection, given, fits, left) in FITTING {
        let bytes = join_bytes(&rt, alloc, font, selection);
        let font = FontView::read(alloc, bytes.as_slice()).expect(&rt, "a font");
        let mut limit = *given;
        let told = font.fits(alloc, &mut limit).expect(&rt, "memory");
        holds(&rt, told == *fits && limit == *left, selection);
    }
}

/// What an advance within a limit is, and what is left of the limit.
fn told_within<R: Abort>(
    rt: &R,
    alloc: Global,
    font: &FontView<'_>,
    glyph: usize,
    given: u64,
) -> (&'static str, u64) {
    let mut limit = given;
    let told = match font.advance(alloc, glyph, &mut limit).expect(rt, "a run") {
        AdvanceWithin::Known(_) => "known",
        AdvanceWithin::Unknown => "unknown",
        AdvanceWithin::TooLong => "too long",
    };
    (told, limit)
}

#[test]
fn advances_within_a_limit(rt: HostRuntime) {
    let alloc = rt.alloc();
    let bytes = join_bytes(&rt, alloc, CID, SELECTIONS[0]);
    let font = FontView::read(alloc, bytes.as_slice()).expect(&rt, "a font");
    for (row, (glyph, given, wanted, left)) in WITHIN.iter().enumerate() {
        let (told, limit) = told_within(&rt, alloc, &font, *glyph, *given);
        is_text(&rt, told, wanted, "the outcome");
        holds_at(&rt, limit == *left, "row", row);
    }
}

#[test]
fn glyphs_of_cids(rt: HostRuntime) {
    let alloc = rt.alloc();
    let bytes = join_bytes(&rt, alloc, CID, SELECTIONS[0]);
    let font = FontView::read(alloc, bytes.as_slice()).expect(&rt, "a font");
    let set = font.char_set().expect(&rt, "a char set");
    let found = [0, 1, 10, 11, 12, 100, 101].map(|cid| font.glyph_of_cid(&set, cid));
    let wanted = [Some(0), None, Some(1), Some(2), None, Some(3), None];
    holds(&rt, found == wanted, "the glyphs");
    holds(&rt, font.string(391) == Some(b"Adobe"), "a string");
    let mut text = String::new(alloc);
    for operand in font.font_bbox().expect(&rt, "a box").as_slice() {
        put_shown(&rt, &mut text, " ", operand);
    }
    is_text(&rt, text.as_str(), " -1e1 -2e1 3e2 4e2", "the box");
    let program = font.program(alloc, 1).expect(&rt, "a program");
    holds(&rt, program.width().is_none(), "a program before its run");
}

/// The codes that have a glyph, each with the glyph.
pub fn codes_of<R: Abort>(rt: &R, alloc: Global, bytes: &[u8]) -> String {
    let mut text = String::new(alloc);
    let font = FontView::read(alloc, bytes).expect(rt, "a font");
    let set = font.char_set().expect(rt, "a char set");
    match font.encoding() {
        Ok(encoding) => {
            for code in 0..=255u8 {
                if let Some(glyph) = font.glyph_of_code(&encoding, &set, code) {
                    put_shown(rt, &mut text, " ", &code);
                    put_shown(rt, &mut text, ":", &glyph);
                }
            }
        }
        Err(e) => put_shown(rt, &mut text, " fault ", &e.code()),
    }
    text
}

#[test]
fn codes_of_encodings(rt: HostRuntime) {
    let alloc = rt.alloc();
    for (encoding, wanted) in CODES {
        let bytes = join_bytes(&rt, alloc, PLAIN, encoding);
        let text = codes_of(&rt, alloc, bytes.as_slice());
        is_text(&rt, text.as_str(), wanted, encoding);
    }
}

#[test]
fn names_of_glyphs(rt: HostRuntime) {
    let alloc = rt.alloc();
    let bytes = bytes_of(&rt, alloc, PLAIN);
    let font = FontView::read(alloc, bytes.as_slice()).expect(&rt, "a font");
    let set = font.char_set().expect(&rt, "a char set");
    holds(&rt, !font.is_cid_keyed(), "no CID-keyed font");
    holds(&rt, font.cid(&set, 1).is_none(), "no CID");
    holds(
        &rt,
        font.glyph_of_cid(&set, 34).is_none(),
        "no glyph of a CID",
    );
    let names: [&[u8]; 5] = [b".notdef", b"A", b"alpha", b"B", b"beta"];
    for (glyph, name) in names.iter().enumerate() {
        holds_at(&rt, font.name(&set, glyph) == Some(name), "name", glyph);
        holds_at(
            &rt,
            font.glyph_of_name(&set, name) == Some(glyph),
            "glyph",
            glyph,
        );
    }
    holds(&rt, font.name(&set, 5).is_none(), "no sixth glyph");
    holds(
        &rt,
        font.glyph_of_name(&set, b"C").is_none(),
        "no such name",
    );
}

#[test]
fn no_names_in_a_cid_keyed_font(rt: HostRuntime) {
    let alloc = rt.alloc();
    let bytes = bytes_of(&rt, alloc, CIDS_OF_LETTERS);
    let font = FontView::read(alloc, bytes.as_slice()).expect(&rt, "a font");
    let set = font.char_set().expect(&rt, "a char set");
    let encoding = font.encoding().expect(&rt, "an encoding");
    holds(&rt, font.cid(&set, 1) == Some(34), "a CID");
    for glyph in 0..4 {
        holds_at(&rt, font.name(&set, glyph).is_none(), "a name", glyph);
    }
    let found = font.glyph_of_name(&set, b"A");
    holds(&rt, found.is_none(), "a glyph of a name");
    let found = font.glyph_of_code(&encoding, &set, 65);
    holds(&rt, found.is_none(), "a glyph of a code");
}

#[test]
fn no_names_behind_the_last_glyph(rt: HostRuntime) {
    let alloc = rt.alloc();
    for (row, (place, byte, last, behind)) in LASTS.iter().enumerate() {
        let bytes = with_changed_byte(&rt, alloc, RANGE, *place, *byte);
        let font = FontView::read(alloc, bytes.as_slice()).expect(&rt, "a font");
        let set = font.char_set().expect(&rt, "a char set");
        holds_at(&rt, set.identifier(3) == Some(*last), "the last", row);
        holds_at(&rt, set.glyph_of(*last, 8) == Some(3), "its glyph", row);
        holds_at(&rt, font.name(&set, 3).is_some(), "its name", row);
        holds_at(&rt, set.identifier(4).is_none(), "one behind", row);
        holds_at(&rt, set.glyph_of(*behind, 8).is_none(), "no glyph", row);
        holds_at(&rt, font.name(&set, 4).is_none(), "no name", row);
    }
}

#[test]
fn fonts_of_another_version(rt: HostRuntime) {
    let alloc = rt.alloc();
    // `FontSet` reads the version without checking it, and `FontView` opens every font that `FontSet` reads.
    let bytes = with_changed_byte(&rt, alloc, RANGE, 0, 9);
    let font = FontView::read(alloc, bytes.as_slice()).expect(&rt, "a font in place");
    holds(&rt, font.char_strings.len() == 4, "four glyphs");
    let set = FontSet::read_lenient(alloc, &mut Cursor::new(bytes.as_slice()));
    holds(
        &rt,
        set.expect(&rt, "a font set").header.major == 9,
        "its version",
    );
}

/// The first operand of the FontMatrix of a glyph.
fn scale_of<R: Abort>(rt: &R, alloc: Global, bytes: &[u8], glyph: usize) -> String {
    let mut text = String::new(alloc);
    let font = FontView::read(alloc, bytes).expect(rt, "a font");
    if let Some(matrix) = font.font_matrix(glyph) {
        if let Some(operand) = matrix.as_slice().first() {
            put_shown(rt, &mut text, "", operand);
        }
    }
    text
}

#[test]
fn matrices_of_glyphs(rt: HostRuntime) {
    let alloc = rt.alloc();
    // With the matrix of the font, and without it: its operator is changed to StrokeWidth.
    for (operator, wanted) in [(0x07u8, ["2e-3", "5e-4", ""]), (0x08, ["1e-3", "5e-4", ""])] {
        let bytes = with_changed_byte(&rt, alloc, MATRICES, 35, operator);
        for (glyph, scale) in wanted.iter().enumerate() {
            let text = scale_of(&rt, alloc, bytes.as_slice(), glyph);
            is_text(&rt, text.as_str(), scale, "a matrix");
        }
    }
}

#[test]
fn fonts_that_are_refused(rt: HostRuntime) {
    let alloc = rt.alloc();
    for (row, (place, byte, code)) in REFUSED.iter().enumerate() {
        let bytes = with_changed_byte(&rt, alloc, PLAIN, *place, *byte);
        let found = code_of(FontView::read(alloc, bytes.as_slice()));
        holds_at(&rt, found == *code, "refused row", row);
    }
    for (row, (place, byte, code)) in BROKEN.iter().enumerate() {
        let bytes = with_changed_byte(&rt, alloc, PLAIN, *place, *byte);
        let font = FontView::read(alloc, bytes.as_slice()).expect(&rt, "a font");
        holds_at(&rt, code_of(font.char_set()) == *code, "broken row", row);
    }
}

#[test]
fn codes_of_predefined_encodings(rt: HostRuntime) {
    let alloc = rt.alloc();
    let bytes = with_changed_byte(&rt, alloc, PLAIN, 21, 0x00);
    let text = codes_of(&rt, alloc, bytes.as_slice());
    is_text(&rt, text.as_str(), " 65:1 66:3", "the standard encoding");
    let bytes = with_changed_byte(&rt, alloc, PLAIN, 21, 0x01);
    let text = codes_of(&rt, alloc, bytes.as_slice());
    is_text(&rt, text.as_str(), "", "the expert encoding");
}

#[test]
fn fonts_of_a_set(rt: HostRuntime) {
    let alloc = rt.alloc();
    let bytes = bytes_of(&rt, alloc, TWO_DICTIONARIES);
    holds(
        &rt,
        matches!(FontView::fonts(bytes.as_slice()), Ok(2)),
        "two fonts",
    );
    for number in 0..2 {
        let font = FontView::read_font(alloc, bytes.as_slice(), number).expect(&rt, "a font");
        holds_at(&rt, font.char_strings.len() == 1, "font", number);
    }
    let found = code_of(FontView::read_font(alloc, bytes.as_slice(), 2));
    holds(&rt, found == 1, "no third font");
    let found = code_of(FontView::fonts(&[1, 0, 4, 1, 0]));
    holds(&rt, found == 1, "names that are cut");
}
