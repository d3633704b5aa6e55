//! Fonts that lack Private DICTs or local subroutines, by both readings.
use crate::checks::{holds_at, is_text, put_shown, read, with_changed_byte};
use crate::common::TWO_DICTIONARIES;
use crate::fonts::{FONT, describe_font, is_told};
use postscript::Result;
use postscript::compact1::{FontSet, Operations, Operator};
use std::alloc::Global;
use std::io::Cursor;
use std::process::Abort;

/// Digits with spaces, and an offset in the bytes and the new value there. Then the descriptions by the strict reading
/// and by the lenient one.
type Row = (&'static str, usize, u8, &'static str, &'static str);

const OF_FONT: &str =
    "header 1 0 4 1|name A|strings 0|globals 0|font Standard ISOAdobe glyphs 1 locals 0|local 1 width 0";

const WITH_WIDTH: &str =
    "header 1 0 4 1|name A|strings 0|globals 0|font Standard ISOAdobe glyphs 1 locals 0|local 1 width 2";

const WITHOUT: &str =
    "header 1 0 4 1|name A|strings 0|globals 0|font Standard ISOAdobe glyphs 1 locals 0|local 0 width 0";

const NAMELESS: &str =
    "header 1 0 4 1|strings 0|globals 0|font Standard ISOAdobe glyphs 1 locals 0|local 0 width 0";

const FIRST_WITHOUT: &str =
    "header 1 0 4 1|strings 0|globals 0|font Standard ISOAdobe glyphs 1 locals 0|font Standard ISOAdobe glyphs 1 locals 0\
        |local 0 width 0|local 1 width 0";

#[rattlefmt::skip]
const ROWS: &[Row] = &[
    (FONT, 0, 0x01, OF_FONT, OF_FONT),
    // No Private, and no Subrs after DefaultWidthX.
    (FONT, 19, 0x13, "fault 14", WITHOUT),
    (FONT, 31, 0x14, "fault 14", WITH_WIDTH),
    // A size of 0 reads no bytes, even if the offset is past the end. A negative offset is an error.
    (FONT, 17, 0x8b, "fault 14", WITHOUT),
    ("01000401000101010241000101 0106a3118bf612000000000001010102 0e8d130000", 0, 0x01, "fault 14", WITHOUT),
    (FONT, 18, 0x8a, "fault 15", "fault 15"),
    ("01000401000101010241000101 0106a3118b8a12000000000001010102 0e8d130000", 0, 0x01, "fault 15", "fault 15"),
    // No operand of Private, and one that is not an integer.
    ("01000401 0000 0001010103 9c11 0000 0000 00010101020e", 0, 0x01, "fault 14", NAMELESS),
    ("01000401 0000 0001010108 a1111e2a5f8b12 0000 0000 00010101020e", 0, 0x01, "fault 13", "fault 13"),
    // Two dictionaries, the first of which has no Private.
    (TWO_DICTIONARIES, 16, 0x13, "fault 14", FIRST_WITHOUT),
];

/// Adds the number of operators of a Private DICT, and its default width.
fn put_local<R: Abort>(rt: &R, text: &mut String, local: &Operations) {
    put_shown(rt, text, "|local ", &local.0.len());
    if let Some(width) = local.get_single(Operator::DefaultWidthX) {
        put_shown(rt, text, " width ", &width);
    }
}

/// Adds the description of each Private DICT.
fn put_locals<R: Abort>(rt: &R, text: &mut String, read: &Result<FontSet>) {
    if let Ok(font) = read {
        for local in &font.local_dictionaries {
            put_local(rt, text, local);
        }
    }
}

/// The summary of a font, and for each Private DICT the number of its operators and its default width. Or the code of
/// the error.
fn told_long<R: Abort>(rt: &R, alloc: Global, read: &Result<FontSet>) -> String {
    let mut text = describe_font(rt, alloc, read);
    put_locals(rt, &mut text, read);
    text
}

#[test]
fn clone_of_a_font_with_empty_lists(rt: HostRuntime) {
    let alloc = rt.alloc();
    // The first of two dictionaries has no Private DICT, and so no local subroutines.
    let bytes = with_changed_byte(&rt, alloc, TWO_DICTIONARIES, 16, 0x13);
    let found = FontSet::read_lenient(alloc, &mut Cursor::new(bytes.as_slice()));
    let copy = found.expect(&rt, "a font").clone();
    let text = told_long(&rt, alloc, &copy);
    is_text(&rt, text.as_str(), FIRST_WITHOUT, "a clone");
}

#[test]
fn fonts_by_both_readings(rt: HostRuntime) {
    let alloc = rt.alloc();
    for (row, (digits, place, byte, strict, lenient)) in ROWS.iter().enumerate() {
        let bytes = with_changed_byte(&rt, alloc, digits, *place, *byte);
        let text = told_long(&rt, alloc, &read(alloc, bytes.as_slice()));
        holds_at(&rt, text.as_str() == *strict, "strict row", row);
        let found = FontSet::read_lenient(alloc, &mut Cursor::new(bytes.as_slice()));
        let text = told_long(&rt, alloc, &found);
        holds_at(&rt, text.as_str() == *lenient, "lenient row", row);
        let checked = FontSet::check(alloc, &mut Cursor::new(bytes.as_slice()));
        holds_at(
            &rt,
            is_told(&rt, alloc, checked, strict),
            "checked row",
            row,
        );
        let checked = FontSet::check_lenient(alloc, &mut Cursor::new(bytes.as_slice()));
        holds_at(
            &rt,
            is_told(&rt, alloc, checked, lenient),
            "leniently checked row",
            row,
        );
    }
}
