//! Fonts, their summaries and their errors.
use crate::checks::{bytes_of, holds, holds_at, is_text, put, put_shown, read, with_changed_byte};
use crate::common::{TWO_DICTIONARIES, code_of};
use crate::tapes::{Trouble, TroubledTape};
use postscript::compact1::{FontSet, Header};
use postscript::{Result, Tape};
use std::alloc::Global;
use std::io::{BufReader, Cursor};
use std::process::Abort;

/// The smallest font with a name, a glyph, a Private DICT and local subroutines.
pub const FONT: &str = "01000401000101010241000101 0106a3118da912000000000001010102 0e8d130000";

pub const OF_FONT: &str =
    "header 1 0 4 1|name A|strings 0|globals 0|font Standard ISOAdobe glyphs 1 locals 0";

/// The smallest font after three other bytes.
const BEHIND: &str =
    "ffffff 01000401000101010241000101 0106a3118da912000000000001010102 0e8d130000";

const OWN_CHAR_SET: &str = "010004010000 0001010108a111a90f8da712 0000 0000 00010101020e8d130000";

/// Its charset is at 32, after the local subroutines: the byte 2, and no range, since there is one glyph.
const CHAR_SET_OF_FORMAT_2: &str =
    "010004010000 0001010108a111ab0f8da712 0000 0000 00010101020e8d130000 02";

const PAIR: &str =
    "header 1 0 4 1|strings 0|globals 0|font Standard ISOAdobe glyphs 1 locals 0|font Standard ISOAdobe glyphs 1 locals 0";

/// Digits with spaces, the offset of the font, its summary or its fault, and the next offset, if there is a font.
type Row = (&'static str, u64, &'static str, Option<u64>);

#[rattlefmt::skip]
const ROWS: &[Row] = &[
    (FONT, 0, OF_FONT, Some(34)),
    ("0000000000000000", 0, "header 0 0 0 0|strings 0|globals 0", Some(8)),
    ("00000000000000", 0, "fault 1", None),
    (TWO_DICTIONARIES, 0, PAIR, Some(36)),
    (BEHIND, 3, OF_FONT, Some(37)),
    (OWN_CHAR_SET, 0, "header 1 0 4 1|strings 0|globals 0|font Standard Format0 glyphs 1 locals 0", Some(32)),
    (CHAR_SET_OF_FORMAT_2, 0, "header 1 0 4 1|strings 0|globals 0|font Standard Format2 glyphs 1 locals 0", Some(32)),
    // Private: no operand, one operand, and one that is not an integer.
    ("010004010000 00010101039c11 0000 0000 00010101020e", 0, "fault 14", None),
    ("010004010000 0001010108a1111e2a5f8b12 0000 0000 00010101020e", 0, "fault 13", None),
    // CharStrings.
    ("010004010000 00010101071d7fffffff11 0000 0000", 0, "fault 1", None),
    ("010004010000 00010101071d8000000011 0000 0000", 0, "fault 15", None),
    ("010004010000 00010101041e2f11 0000 0000", 0, "fault 5", None),
    ("010004010000 00010101051e2a5f11 0000 0000", 0, "fault 13", None),
    ("010004010000 00010101091e2147483648ff11 0000 0000", 0, "fault 13", None),
    ("010004010000 000101010211 0000 0000", 0, "fault 14", None),
    // CharStringType 1, and a custom encoding before CharStrings is missed.
    ("010004010000 00010101068f118c0c06 0000 0000", 0, "fault 12", None),
    ("010004010000 00010101038910 0000 0000", 0, "fault 16", None),
];

/// The offset of a byte of the smallest font, its new value, and its summary or its fault. Others are in `lenient`.
type Change = (usize, u8, &'static str);

const CHANGES: &[Change] = &[
    (16, 0x10, "fault 16"),
    (17, 0x8a, "fault 15"),
    (30, 0x6c, "fault 15"),
    (30, 0x6d, "fault 6"),
    // The local subroutines are the same slice as the strings.
    (30, 0x81, OF_FONT),
];

/// Adds the fields of a header.
fn put_header<R: Abort>(rt: &R, text: &mut String, header: &Header) {
    put_shown(rt, text, "header ", &header.major);
    put_shown(rt, text, " ", &header.minor);
    put_shown(rt, text, " ", &header.header_size);
    put_shown(rt, text, " ", &header.offset_size);
}

/// Adds the names.
fn put_names<R: Abort>(rt: &R, text: &mut String, names: &[String]) {
    for name in names {
        put(rt, text, "|name ");
        put(rt, text, name.as_str());
    }
}

/// Adds a dictionary's charset.
fn put_char_set<R: Abort>(rt: &R, text: &mut String, font: &FontSet, i: usize) {
    if let Some(set) = font.char_sets.get(i) {
        put(rt, text, " ");
        put(rt, text, set.name());
    }
}

/// Adds the numbers of glyphs and local subroutines of a dictionary.
fn put_counts<R: Abort>(rt: &R, text: &mut String, font: &FontSet, i: usize) {
    if let Some(glyphs) = font.char_strings.get(i) {
        put_shown(rt, text, " glyphs ", &glyphs.len());
    }
    if let Some(locals) = font.local_subroutines.get(i) {
        put_shown(rt, text, " locals ", &locals.len());
    }
}

/// Adds a dictionary.
fn put_dictionary<R: Abort>(rt: &R, text: &mut String, font: &FontSet, i: usize) {
    if let Some(encoding) = font.encodings.get(i) {
        put(rt, text, "|font ");
        put(rt, text, encoding.name());
    }
    put_char_set(rt, text, font, i);
    put_counts(rt, text, font, i);
}

/// The fields of the header, the names, and the numbers of strings and global subroutines. Then for each dictionary its
/// encoding, its charset, and the numbers of glyphs and local subroutines. It says so if the numbers of global and
/// local dictionaries differ.
fn summary<R: Abort>(rt: &R, alloc: Global, font: &FontSet) -> String {
    let mut text = String::new(alloc);
    put_header(rt, &mut text, &font.header);
    put_names(rt, &mut text, font.names.as_slice());
    put_shown(rt, &mut text, "|strings ", &font.strings.len());
    put_shown(rt, &mut text, "|globals ", &font.global_subroutines.len());
    for i in 0..font.encodings.len() {
        put_dictionary(rt, &mut text, font, i);
    }
    if font.global_dictionaries.len() != font.local_dictionaries.len() {
        put(rt, &mut text, "|unpaired");
    }
    text
}

/// The summary of a font, or the code of the error.
pub fn describe_font<R: Abort>(rt: &R, alloc: Global, read: &Result<FontSet>) -> String {
    match read {
        Ok(font) => summary(rt, alloc, font),
        Err(e) => {
            let mut text = String::new(alloc);
            put_shown(rt, &mut text, "fault ", &e.code());
            text
        }
    }
}

/// Describes the font on a tape.
pub fn told_on<R: Abort, T: Tape>(rt: &R, alloc: Global, tape: &mut T) -> String {
    describe_font(rt, alloc, &Tape::take::<FontSet>(tape, alloc))
}

/// Describes the font at the start of bytes.
fn told_of<R: Abort>(rt: &R, alloc: Global, bytes: &[u8]) -> String {
    told_on(rt, alloc, &mut Cursor::new(bytes))
}

/// Reads a row, and compares the next offset if there is a font.
fn is_row<R: Abort>(rt: &R, alloc: Global, row: &Row) -> bool {
    let bytes = bytes_of(rt, alloc, row.0);
    let mut tape = Cursor::new(bytes.as_slice());
    tape.set_position(row.1);
    let text = told_on(rt, alloc, &mut tape);
    text.as_str() == row.2 && row.3.unwrap_or(tape.position()) == tape.position()
}

/// Whether a check succeeds if a text describes a font, and otherwise fails with the fault that the text gives.
pub fn is_told<R: Abort>(rt: &R, alloc: Global, checked: Result<()>, wanted: &str) -> bool {
    match checked {
        Ok(()) => !wanted.starts_with("fault"),
        Err(e) => {
            let mut text = String::new(alloc);
            put_shown(rt, &mut text, "fault ", &e.code());
            text.as_str() == wanted
        }
    }
}

/// Checks a row, and compares the next offset if there is a font.
fn is_checked<R: Abort>(rt: &R, alloc: Global, row: &Row) -> bool {
    let bytes = bytes_of(rt, alloc, row.0);
    let mut tape = Cursor::new(bytes.as_slice());
    tape.set_position(row.1);
    let checked = FontSet::check(alloc, &mut tape);
    is_told(rt, alloc, checked, row.2) && row.3.unwrap_or(tape.position()) == tape.position()
}

#[test]
fn rows_of_fonts(rt: HostRuntime) {
    let alloc = rt.alloc();
    for (i, row) in ROWS.iter().enumerate() {
        holds_at(&rt, is_row(&rt, alloc, row), "row", i);
        holds_at(&rt, is_checked(&rt, alloc, row), "checked row", i);
    }
}

/// Whether the smallest font with a byte changed is read as wanted.
fn is_changed<R: Abort>(rt: &R, alloc: Global, change: &Change) -> bool {
    let bytes = with_changed_byte(rt, alloc, FONT, change.0, change.1);
    told_of(rt, alloc, bytes.as_slice()).as_str() == change.2
}

#[test]
fn changed_and_cut_fonts(rt: HostRuntime) {
    let alloc = rt.alloc();
    for change in CHANGES {
        holds_at(&rt, is_changed(&rt, alloc, change), "place", change.0);
    }
    let bytes = bytes_of(&rt, alloc, FONT);
    for length in 0..bytes.len() {
        let text = told_of(&rt, alloc, &bytes.as_slice()[..length]);
        holds_at(&rt, text.as_str() == "fault 1", "a font cut to", length);
        let checked = FontSet::check(alloc, &mut Cursor::new(&bytes.as_slice()[..length]));
        holds_at(&rt, code_of(checked) == 1, "a check cut to", length);
    }
}

#[test]
fn local_subroutines_among_the_strings(rt: HostRuntime) {
    let alloc = rt.alloc();
    // Nothing follows the charstrings: the list of local subroutines is that of the strings.
    let mut bytes = with_changed_byte(&rt, alloc, FONT, 30, 0x81);
    bytes.truncate(32);
    let text = told_of(&rt, alloc, bytes.as_slice());
    is_text(&rt, text.as_str(), OF_FONT, "a font cut to 32");
}

/// Whether a tape contains the smallest font.
fn holds_font<R: Abort, T: Tape>(rt: &R, alloc: Global, tape: &mut T) -> bool {
    told_on(rt, alloc, tape).as_str() == OF_FONT
}

#[test]
fn fonts_on_other_tapes(rt: HostRuntime) {
    let alloc = rt.alloc();
    let font = bytes_of(&rt, alloc, FONT);
    let mut one_byte = TroubledTape::new(font.as_slice(), Trouble::OneByte);
    let is_so = holds_font(&rt, alloc, &mut one_byte);
    holds(&rt, is_so, "one byte a read");
    let buffered = BufReader::new(alloc, Cursor::new(font.as_slice()));
    let is_so = holds_font(&rt, alloc, &mut buffered.expect(&rt, "memory"));
    holds(&rt, is_so, "a buffered cursor");
}

#[test]
fn a_clone(rt: HostRuntime) {
    let alloc = rt.alloc();
    let bytes = bytes_of(&rt, alloc, FONT);
    let font: FontSet = read(alloc, bytes.as_slice()).expect(&rt, "a font");
    let text = describe_font(&rt, alloc, &font.clone());
    is_text(&rt, text.as_str(), OF_FONT, "a clone");
}

/// Whether the smallest font is read on a tape that fails after `calls` calls: reading fails with the one failure, or
/// none occurred. With 0 calls one occurs, and with 79 none.
fn is_failing<R: Abort>(rt: &R, alloc: Global, font: &[u8], calls: u32) -> bool {
    let mut tape = TroubledTape::new(font, Trouble::FailsAfter(calls));
    let text = told_on(rt, alloc, &mut tape);
    match tape.failures() {
        0 => calls > 0 && text.as_str() == OF_FONT,
        1 => calls < 79 && text.as_str() == "fault 2",
        _ => false,
    }
}

/// The same of a check, which makes fewer calls.
fn is_check_failing(alloc: Global, font: &[u8], calls: u32) -> bool {
    let mut tape = TroubledTape::new(font, Trouble::FailsAfter(calls));
    let code = code_of(FontSet::check(alloc, &mut tape));
    match tape.failures() {
        0 => calls > 0 && code == 0,
        1 => calls < 79 && code == 2,
        _ => false,
    }
}

#[test]
fn io_without_failure(rt: HostRuntime) {
    let alloc = rt.alloc();
    let font = bytes_of(&rt, alloc, FONT);
    for calls in 0..80u32 {
        let is_so = is_failing(&rt, alloc, font.as_slice(), calls);
        holds_at(&rt, is_so, "so many calls passed:", calls as usize);
        let is_so = is_check_failing(alloc, font.as_slice(), calls);
        holds_at(
            &rt,
            is_so,
            "so many calls of a check passed:",
            calls as usize,
        );
    }
}
