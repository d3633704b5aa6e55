//! Charsets and encodings, and the strings that they name.
mod tables;

use crate::checks::{Wanted, holds, holds_at, put, put_shown, read_given};
use crate::common::code_of;
use postscript::compact1::char_set::{CharSet0, CharSet1, CharSet2, Range1, Range2};
use postscript::compact1::index::get_standard_string;
use postscript::compact1::{CharSet, Encoding};
use postscript::{Result, Tape};
use std::alloc::Global;
use std::io::Cursor;
use std::process::Abort;
use tables::{EXPERT, EXPERT_ENCODING, EXPERT_SUBSET, STANDARD_ENCODING, STRINGS};

/// The words of a text.
fn words<R: Abort>(rt: &R, alloc: Global, text: &'static str) -> Vec<&'static str> {
    let mut words = Vec::new(alloc);
    for word in text.split(' ') {
        words.push(word).expect(rt, "memory");
    }
    words
}

/// Compares each standard string with the words.
fn check_strings<R: Abort>(rt: &R, words: &[&'static str]) {
    holds(rt, words.len() == 391, "the number of strings");
    for number in 0..=u16::MAX {
        let wanted = words.get(usize::from(number)).copied();
        let is_so = get_standard_string(number) == wanted;
        holds_at(rt, is_so, "string", usize::from(number));
    }
}

/// A predefined charset.
enum Set {
    ISOAdobe,
    Expert,
    ExpertSubset,
}

/// The name of a glyph.
fn name_of(set: &Set, number: u16) -> Option<&'static str> {
    match set {
        Set::ISOAdobe => CharSet::ISOAdobe.get(number),
        Set::Expert => CharSet::Expert.get(number),
        Set::ExpertSubset => CharSet::ExpertSubset.get(number),
    }
}

/// Compares each glyph of a charset with the words, the first of which is the name of glyph 1.
fn check_set<R: Abort>(rt: &R, set: &Set, words: &[&'static str], count: usize) {
    holds(rt, words.len() == count, "the number of glyphs");
    for number in 0..=u16::MAX {
        let before = usize::from(number).wrapping_sub(1);
        let is_so = name_of(set, number) == words.get(before).copied();
        holds_at(rt, is_so, "glyph", usize::from(number));
    }
}

#[test]
fn every_glyph_of_the_predefined_sets(rt: HostRuntime) {
    let alloc = rt.alloc();
    let strings = words(&rt, alloc, STRINGS);
    check_strings(&rt, strings.as_slice());
    let plain = strings.get(1..229).unwrap_or(&[]);
    check_set(&rt, &Set::ISOAdobe, plain, 228);
    let experts = words(&rt, alloc, EXPERT);
    check_set(&rt, &Set::Expert, experts.as_slice(), 165);
    let subset = words(&rt, alloc, EXPERT_SUBSET);
    check_set(&rt, &Set::ExpertSubset, subset.as_slice(), 86);
}

/// Some glyphs of the predefined charsets, and their names.
#[rattlefmt::skip]
const GLYPHS: &[(Set, u16, Option<&str>)] = &[
    (Set::Expert, 2, Some("exclamsmall")), (Set::Expert, 12, Some("comma")), (Set::Expert, 166, None),
    (Set::Expert, 165, Some("Ydieresissmall")), (Set::ExpertSubset, 2, Some("dollaroldstyle")), (Set::ISOAdobe, 0, None),
];

#[test]
fn some_glyphs_of_the_predefined_sets(rt: HostRuntime) {
    for (row, (set, number, name)) in GLYPHS.iter().enumerate() {
        holds_at(&rt, name_of(set, *number) == *name, "row", row);
    }
    let last = get_standard_string(390) == Some("Semibold");
    holds(&rt, last, "the last standard string");
}

/// Compares the glyph of each code with the words of a text. The word for a code without a glyph is not a number.
fn check_codes<R: Abort>(rt: &R, encoding: Encoding, text: &str) {
    let mut codes = 0u16;
    for word in text.split(' ') {
        let is_so = encoding.get(codes) == word.parse::<u16>().ok();
        holds_at(rt, is_so, encoding.name(), usize::from(codes));
        codes = codes.saturating_add(1);
    }
    holds(rt, codes == 256, "the number of codes");
    for code in 256..=u16::MAX {
        let is_so = encoding.get(code) == None;
        holds_at(rt, is_so, encoding.name(), usize::from(code));
    }
}

#[test]
fn every_code_of_the_encodings(rt: HostRuntime) {
    holds(&rt, Encoding::Standard.name() == "Standard", "a name");
    check_codes(&rt, Encoding::Standard, STANDARD_ENCODING);
    holds(&rt, Encoding::Expert.name() == "Expert", "another name");
    check_codes(&rt, Encoding::Expert, EXPERT_ENCODING);
    holds(&rt, Encoding::Standard.get(42) == Some(11), "code 42");
}

/// Bytes, and the number of glyphs. The charset as a text, or the code of the error.
type Row = (&'static [u8], usize, Wanted<&'static str>);

#[rattlefmt::skip]
const ROWS: &[Row] = &[
    (&[0, 0, 5], 2, Ok("Format0 0: 5")), (&[0, 0, 5, 1, 2], 3, Ok("Format0 0: 5 258")),
    (&[0, 0, 5], 0, Err(10)), (&[0], 1, Ok("Format0 0:")), (&[0, 0], 2, Err(1)),
    (&[0], usize::MAX, Err(1)), (&[1, 0, 1, 2], 4, Ok("Format1 1: 1+2")),
    (&[1, 0, 1, 2], 3, Err(10)), (&[1, 0, 1, 2], 5, Err(1)),
    (&[1, 0, 1, 2, 0, 9, 0], 5, Ok("Format1 1: 1+2 9+0")), (&[1], 1, Ok("Format1 1:")),
    (&[1], 0, Err(10)), (&[1, 0, 1, 255], 257, Ok("Format1 1: 1+255")),
    (&[1, 0, 1, 255], 256, Err(10)), (&[1, 0, 1, 255], usize::MAX, Err(1)),
    (&[2, 0, 1, 0, 2], 4, Ok("Format2 2: 1+2")), (&[2, 0, 1, 0, 2], 3, Err(10)),
    (&[2, 0, 1, 0, 2], 5, Err(1)), (&[2, 0, 1, 0, 2, 0, 9, 0, 0], 5, Ok("Format2 2: 1+2 9+0")),
    (&[2, 0, 1, 1, 0], 258, Ok("Format2 2: 1+256")), (&[2, 0, 1, 1, 0], 257, Err(10)),
    (&[2], 1, Ok("Format2 2:")), (&[2], 0, Err(10)), (&[2], 4, Err(1)),
    // Sums that do not fit in 16 bits.
    (&[2, 0, 1, 255, 255], 65_537, Ok("Format2 2: 1+65535")),
    (&[2, 0, 1, 255, 255], 65_536, Err(10)), (&[2, 0, 1, 255, 255, 0, 1, 255, 255], 2, Err(10)),
    (&[2, 0, 1, 255, 255, 0, 1, 255, 255], 65_540, Err(10)),
    (&[2, 0, 1, 255, 255, 0, 1, 255, 255], 131_073, Ok("Format2 2: 1+65535 1+65535")),
    (&[2, 0, 1, 255, 255], usize::MAX, Err(1)), (&[3], 4, Err(11)), (&[255], 0, Err(11)),
    (&[], 0, Err(1)),
];

/// Adds the glyphs of a charset that lists them.
fn put_glyphs<R: Abort>(rt: &R, text: &mut String, set: &CharSet0) {
    put_shown(rt, text, " ", &set.format);
    put(rt, text, ":");
    for glyph in &set.glyphs {
        put_shown(rt, text, " ", glyph);
    }
}

/// Adds the ranges of format 1.
fn put_ranges<R: Abort>(rt: &R, text: &mut String, set: &CharSet1) {
    put_shown(rt, text, " ", &set.format);
    put(rt, text, ":");
    for range in &set.ranges {
        put_shown(rt, text, " ", &range.first);
        put_shown(rt, text, "+", &range.left);
    }
}

/// Adds the ranges of format 2.
fn put_long_ranges<R: Abort>(rt: &R, text: &mut String, set: &CharSet2) {
    put_shown(rt, text, " ", &set.format);
    put(rt, text, ":");
    for range in &set.ranges {
        put_shown(rt, text, " ", &range.first);
        put_shown(rt, text, "+", &range.left);
    }
}

/// Whether this is the text of a charset: its name, its format, and its glyphs or ranges.
fn is_set<R: Abort>(rt: &R, alloc: Global, set: &CharSet, wanted: &str) -> bool {
    let mut text = String::new(alloc);
    put(rt, &mut text, set.name());
    match set {
        CharSet::Format0(set) => put_glyphs(rt, &mut text, set),
        CharSet::Format1(set) => put_ranges(rt, &mut text, set),
        CharSet::Format2(set) => put_long_ranges(rt, &mut text, set),
        _ => {}
    }
    text.as_str() == wanted
}

/// Whether each prefix of the bytes is an error, as truncated.
fn are_cut(alloc: Global, bytes: &[u8], glyphs: usize) -> bool {
    let mut are_so = true;
    for length in 0..bytes.len() {
        are_so = are_so && code_of(read_given::<CharSet>(alloc, &bytes[..length], glyphs)) == 1;
    }
    are_so
}

/// Whether a charset and its clone are as wanted, and the prefixes of its bytes are truncated.
fn is_whole<R: Abort>(rt: &R, alloc: Global, set: &CharSet, row: &Row, text: &str) -> bool {
    let same = set.clone().expect(rt, "memory");
    is_set(rt, alloc, set, text)
        && is_set(rt, alloc, &same, text)
        && !set.is_predefined()
        && are_cut(alloc, row.0, row.1)
}

/// Whether a charset is read as a row wants.
fn is_wanted<R: Abort>(rt: &R, alloc: Global, read: &Result<CharSet>, row: &Row) -> bool {
    match (read, &row.2) {
        (Ok(set), Ok(text)) => is_whole(rt, alloc, set, row, text),
        (Err(e), Err(code)) => e.code() == *code,
        _ => false,
    }
}

/// Whether a charset is read as a row wants, and its bytes to their end.
fn is_row<R: Abort>(rt: &R, alloc: Global, row: &Row) -> bool {
    let mut tape = Cursor::new(row.0);
    let read = Tape::take_given::<CharSet>(&mut tape, alloc, row.1);
    let is_at_end = tape.position() == row.0.len() as u64;
    is_wanted(rt, alloc, &read, row) && (is_at_end || row.2.is_err())
}

#[test]
fn rows_of_char_sets(rt: HostRuntime) {
    let alloc = rt.alloc();
    for (i, row) in ROWS.iter().enumerate() {
        holds_at(&rt, is_row(&rt, alloc, row), "row", i);
    }
}

/// A format by itself, and the codes of the errors if it is read as each of the three, for one glyph.
#[rattlefmt::skip]
const FORMATS: &[(u8, [u8; 3])] =
    &[(0, [0, 10, 10]), (1, [10, 0, 10]), (2, [10, 10, 0]), (3, [10, 10, 10])];

/// The codes of the errors of bytes as a charset of each format, for one glyph.
fn codes_of_formats(alloc: Global, bytes: &[u8]) -> [u8; 3] {
    [
        code_of(read_given::<CharSet0>(alloc, bytes, 1)),
        code_of(read_given::<CharSet1>(alloc, bytes, 1)),
        code_of(read_given::<CharSet2>(alloc, bytes, 1)),
    ]
}

/// Reads a charset of format 0, and clones it.
fn check_format0<R: Abort>(rt: &R, alloc: Global) {
    let set: CharSet0 = read_given(alloc, &[0, 1, 1], 2).expect(rt, "a set");
    let same = set.clone().expect(rt, "memory");
    holds(rt, same.glyphs.as_slice() == [257].as_slice(), "a clone");
}

/// Whether two charsets are of format 2, with the same two ranges.
fn are_same(set: &CharSet2, other: &CharSet2) -> bool {
    let mut are_so = set.format == 2 && other.format == 2;
    are_so = are_so && set.ranges.len() == 2 && other.ranges.len() == 2;
    for (range, same) in set.ranges.iter().zip(other.ranges.iter()) {
        are_so = are_so && range.first == same.first && range.left == same.left;
    }
    are_so
}

/// Reads a charset of format 2, and clones it.
fn check_format2<R: Abort>(rt: &R, alloc: Global) {
    let bytes = [2, 0, 7, 1, 0, 0, 9, 0, 0];
    let set: CharSet2 = read_given(alloc, &bytes, 259).expect(rt, "a set");
    let same = set.clone().expect(rt, "memory");
    holds(rt, are_same(&set, &same), "a set and its clone");
}

#[test]
fn sets_of_one_format(rt: HostRuntime) {
    let alloc = rt.alloc();
    for (format, codes) in FORMATS {
        let is_so = codes_of_formats(alloc, &[*format]) == *codes;
        holds_at(&rt, is_so, "format", usize::from(*format));
    }
    check_format0(&rt, alloc);
    check_format2(&rt, alloc);
}

#[test]
fn ranges_of_both_formats(rt: HostRuntime) {
    let alloc = rt.alloc();
    let mut tape = Cursor::new([1, 2, 3, 1, 2, 3, 4].as_slice());
    let range = Tape::take::<Range1>(&mut tape, alloc).expect(&rt, "a range");
    let is_so = range.first == 258 && range.left == 3 && tape.position() == 3;
    holds(&rt, is_so, "a range of format 1");
    let range = Tape::take::<Range2>(&mut tape, alloc).expect(&rt, "a range");
    let is_so = range.first == 258 && range.left == 772 && tape.position() == 7;
    holds(&rt, is_so, "a range of format 2");
}

/// Whether a charset is predefined, and its clone has its name.
fn is_predefined<R: Abort>(rt: &R, set: &CharSet) -> bool {
    let same = set.clone().expect(rt, "memory");
    set.is_predefined() && same.name() == set.name()
}

#[test]
fn predefined_sets_and_their_clones(rt: HostRuntime) {
    let plain = is_predefined(&rt, &CharSet::ISOAdobe);
    holds(&rt, plain, "ISOAdobe");
    let expert = is_predefined(&rt, &CharSet::Expert);
    holds(&rt, expert, "Expert");
    let subset = is_predefined(&rt, &CharSet::ExpertSubset);
    holds(&rt, subset, "ExpertSubset");
}

/// Makes `count - 1` ranges that begin with glyph 7 and have `left` glyphs left, and a last one if `left` is 255.
fn ranges<R: Abort>(rt: &R, alloc: Global, left: u8, count: usize) -> Vec<u8> {
    let mut bytes = Vec::from_slice(alloc, &[1]).expect(rt, "memory");
    for _ in 1..count {
        bytes.extend_from_slice(&[0, 7, left]).expect(rt, "memory");
    }
    if left == 255 {
        bytes.extend_from_slice(&[0, 7, 253]).expect(rt, "memory");
    }
    bytes
}

/// Whether 65,535 glyphs are read in these ranges.
fn are_ranges<R: Abort>(rt: &R, alloc: Global, bytes: &[u8]) -> bool {
    let set: CharSet1 = read_given(alloc, bytes, 65_535).expect(rt, "a set");
    let same = set.clone().expect(rt, "memory");
    same.ranges.len().saturating_mul(3).saturating_add(1) == bytes.len()
}

#[test]
fn long_char_sets(rt: HostRuntime) {
    let alloc = rt.alloc();
    for (left, count) in [(255, 256), (0, 65_535)] {
        let bytes = ranges(&rt, alloc, left, count);
        holds_at(
            &rt,
            are_ranges(&rt, alloc, bytes.as_slice()),
            "ranges",
            count,
        );
    }
}
