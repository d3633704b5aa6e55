//! INDEX structures, and the results of parsing their items.
use crate::checks::{Wanted, holds, holds_at, read, read_given};
use crate::common::code_of;
use crate::tapes::{Trouble, TroubledTape};
use postscript::compact1::index::{CharStrings, Dictionaries, Names, Strings, Subroutines};
use postscript::compact1::{Index, Offset, Operations, Operator};
use postscript::{Result, Tape};
use std::alloc::Global;
use std::io::Cursor;
use std::process::Abort;

/// Bytes, and the items and the next offset, or the code of the error.
type Row = (&'static [u8], Wanted<(&'static [&'static [u8]], u64)>);

#[rattlefmt::skip]
const ROWS: &[Row] = &[
    (&[0, 0], Ok((&[], 2))), (&[0, 0, 5], Ok((&[], 2))), (&[], Err(1)), (&[0], Err(1)),
    (&[0, 1], Err(1)),
    // Offsets that do not begin with 1, or do not increase. The first wrong one is an error before the next is read.
    (&[0, 1, 1, 1, 1], Err(6)), (&[0, 1, 1, 2, 3], Err(6)), (&[0, 1, 1, 2], Err(6)),
    (&[0, 1, 1, 0], Err(6)), (&[0, 2, 1, 1, 3, 2], Err(6)),
    // Sizes of offsets.
    (&[0, 1, 0], Err(5)), (&[0, 1, 5], Err(5)), (&[0, 1, 0xff, 1, 2, 0x41], Err(5)),
    (&[0, 1, 1, 1, 2, 0x41], Ok((&[&[0x41]], 6))),
    (&[0, 1, 2, 0, 1, 0, 3, 0x41, 0x42], Ok((&[&[0x41, 0x42]], 9))),
    (&[0, 1, 3, 0, 0, 1, 0, 0, 2, 0x0e], Ok((&[&[0x0e]], 10))),
    (&[0, 1, 4, 0, 0, 0, 1, 0, 0, 0, 2, 0x0e, 0x0f], Ok((&[&[0x0e]], 12))),
    // A truncated item, one of 4 GiB, and 65,535 of them.
    (&[0, 1, 1, 1, 3, 0x41], Err(1)), (&[0, 1, 4, 0, 0, 0, 1, 0xff, 0xff, 0xff, 0xff], Err(1)),
    (&[0xff, 0xff, 1, 1, 2, 3, 4, 5, 6, 7], Err(1)), (TWO, Ok((&[&[0x41], &[0x42, 0x43]], 9))),
];

/// Two items, of one byte and of two.
const TWO: &[u8] = &[0, 2, 1, 1, 2, 4, 0x41, 0x42, 0x43];

/// Whether an INDEX has these items, by each of its look-ups.
fn has_items(index: &Index, items: &[&[u8]]) -> bool {
    let mut same = index.len() == items.len() && index.data().len() == items.len();
    for (i, item) in index.iter().enumerate() {
        same = same
            && items.get(i) == Some(&item.as_slice())
            && index.item(i) == Some(item.as_slice());
    }
    same && index.item(items.len()).is_none() && index.item(usize::MAX).is_none()
}

/// Whether an INDEX has exactly the two items.
fn is_two(index: &Index) -> bool {
    index.count == 2
        && index.offset_size == 1
        && index.offsets.as_slice() == [Offset(1), Offset(2), Offset(4)].as_slice()
        && has_items(index, &[&[0x41], &[0x42, 0x43]])
}

/// Whether an INDEX is the one without items.
fn is_empty(index: &Index) -> bool {
    index.count == 0 && index.offset_size == 0 && index.offsets.is_empty() && has_items(index, &[])
}

/// Whether an INDEX is read as a row wants, up to this place.
fn is_row(read: &Result<Index>, next: u64, row: &Row) -> bool {
    match (read, &row.1) {
        (Ok(index), Ok((items, place))) => next == *place && has_items(index, items),
        (Err(e), Err(code)) => e.code() == *code,
        _ => false,
    }
}

#[test]
fn rows_of_indices(rt: HostRuntime) {
    let alloc = rt.alloc();
    for (i, row) in ROWS.iter().enumerate() {
        let mut tape = Cursor::new(row.0);
        let read = Tape::take::<Index>(&mut tape, alloc);
        holds_at(&rt, is_row(&read, tape.position(), row), "row", i);
    }
}

/// Reads the two items, and clones them.
fn check_clone<R: Abort>(rt: &R, alloc: Global) {
    let index: Index = read(alloc, TWO).expect(rt, "two items");
    holds(rt, is_two(&index), "two items");
    holds(rt, is_two(&index.clone().expect(rt, "memory")), "a clone");
}

#[test]
fn cut_copied_and_empty_indices(rt: HostRuntime) {
    let alloc = rt.alloc();
    for length in 0..TWO.len() {
        let code = code_of(read::<Index>(alloc, &TWO[..length]));
        holds_at(&rt, code == 1, "an INDEX cut to", length);
    }
    check_clone(&rt, alloc);
    let empty = Index::empty(alloc);
    holds(&rt, is_empty(&empty), "no items");
}

/// Reads the two items on a tape that fails after `calls` calls.
fn check_failing<R: Abort>(rt: &R, alloc: Global, calls: u32) {
    let mut tape = TroubledTape::new(TWO, Trouble::FailsAfter(calls));
    let code = code_of(Tape::take::<Index>(&mut tape, alloc));
    let failed = if calls < 7 { 1 } else { 0 };
    let is_so = tape.failures() == failed && u32::from(code) == 2 * failed;
    holds_at(rt, is_so, "so many calls passed:", calls as usize);
}

/// Whether the two items are read in spite of a trouble.
fn are_read<R: Abort>(rt: &R, alloc: Global, trouble: Trouble) -> bool {
    let mut tape = TroubledTape::new(TWO, trouble);
    is_two(&Tape::take::<Index>(&mut tape, alloc).expect(rt, "two items"))
}

#[test]
fn indices_on_troubled_tapes(rt: HostRuntime) {
    let alloc = rt.alloc();
    // A count, a size, three offsets and two items are seven reads.
    for calls in 0..9u32 {
        check_failing(&rt, alloc, calls);
    }
    let interrupted = are_read(&rt, alloc, Trouble::Interrupted);
    holds(&rt, interrupted, "interrupted");
    let one_byte = are_read(&rt, alloc, Trouble::OneByte);
    holds(&rt, one_byte, "one byte a read");
}

/// The lengths of items that are read in one piece or in more.
const LONG: [usize; 4] = [1, 65_535, 65_536, 65_537];

/// An item of `length` bytes.
fn long_item<R: Abort>(rt: &R, alloc: Global, byte: usize, length: usize) -> Vec<u8> {
    vec![in alloc; short(byte); length].expect(rt, "memory")
}

/// The bytes of an INDEX of the long items.
fn index_of_long<R: Abort>(rt: &R, alloc: Global) -> Vec<u8> {
    // The offsets 1, 2, 65,537, 131,073 and 196,610, of three bytes.
    let front = [0, 4, 3, 0, 0, 1, 0, 0, 2, 1, 0, 1, 2, 0, 1, 3, 0, 2];
    let mut bytes = Vec::from_slice(alloc, &front).expect(rt, "memory");
    for (i, long) in LONG.iter().enumerate() {
        let item = long_item(rt, alloc, i, *long);
        let added = bytes.extend_from_slice(item.as_slice());
        added.expect(rt, "memory");
    }
    bytes
}

#[test]
fn long_items(rt: HostRuntime) {
    let alloc = rt.alloc();
    let bytes = index_of_long(&rt, alloc);
    let index: Index = read(alloc, bytes.as_slice()).expect(&rt, "long items");
    holds(&rt, index.len() == 4, "the number of items");
    for (i, long) in LONG.iter().enumerate() {
        let item = long_item(&rt, alloc, i, *long);
        holds_at(&rt, index.item(i) == Some(item.as_slice()), "item", i);
    }
}

/// Charstrings of another format are an error before a byte is read.
fn are_refused(alloc: Global) -> bool {
    let mut tape = Cursor::new(TWO);
    let mut are_so = true;
    for format in [1, 0, -1, 3, i32::MIN, i32::MAX] {
        let code = code_of(Tape::take_given::<CharStrings>(&mut tape, alloc, format));
        are_so = are_so && code == 12 && tape.position() == 0;
    }
    are_so
}

/// Whether an INDEX and its clone have exactly the two items.
fn are_two(index: &Index, same: &Index) -> bool {
    is_two(index) && is_two(same)
}

/// Whether the two items are charstrings, in a clone too.
fn are_char_strings<R: Abort>(rt: &R, alloc: Global) -> bool {
    let items: CharStrings = read_given(alloc, TWO, 2).expect(rt, "char strings");
    are_two(&*items, &*items.clone().expect(rt, "memory"))
}

/// Whether the two items are dictionaries, in a clone too.
fn are_dictionaries<R: Abort>(rt: &R, alloc: Global) -> bool {
    let items: Dictionaries = read(alloc, TWO).expect(rt, "dictionaries");
    are_two(&*items, &*items.clone().expect(rt, "memory"))
}

/// Whether the two items are names, in a clone too.
fn are_names<R: Abort>(rt: &R, alloc: Global) -> bool {
    let items: Names = read(alloc, TWO).expect(rt, "names");
    are_two(&*items, &*items.clone().expect(rt, "memory"))
}

/// Whether the two items are strings, in a clone too.
fn are_strings<R: Abort>(rt: &R, alloc: Global) -> bool {
    let items: Strings = read(alloc, TWO).expect(rt, "strings");
    are_two(&*items, &*items.clone().expect(rt, "memory"))
}

/// Whether the two items are subroutines, in a clone too.
fn are_subroutines<R: Abort>(rt: &R, alloc: Global) -> bool {
    let items: Subroutines = read(alloc, TWO).expect(rt, "subroutines");
    are_two(&*items, &*items.clone().expect(rt, "memory"))
}

#[test]
fn what_two_items_are_read_as(rt: HostRuntime) {
    let alloc = rt.alloc();
    holds(&rt, are_refused(alloc), "other formats");
    holds(&rt, are_char_strings(&rt, alloc), "char strings");
    holds(&rt, are_dictionaries(&rt, alloc), "dictionaries");
    holds(&rt, are_names(&rt, alloc), "names");
    holds(&rt, are_strings(&rt, alloc), "strings");
    holds(&rt, are_subroutines(&rt, alloc), "subroutines");
    let none = Subroutines::empty(alloc);
    holds(&rt, none.len() == 0, "no subroutines");
}

/// A number below 256.
fn short(number: usize) -> u8 {
    u8::try_from(number).unwrap_or(u8::MAX)
}

/// Adds the offsets after items.
fn put_offsets<R: Abort>(rt: &R, bytes: &mut Vec<u8>, items: &[&[u8]]) {
    let mut offset = 1u8;
    for item in items {
        offset = offset.saturating_add(short(item.len()));
        bytes.push(offset).expect(rt, "memory");
    }
}

/// The bytes of an INDEX of short items.
fn index_of<R: Abort>(rt: &R, alloc: Global, items: &[&[u8]]) -> Vec<u8> {
    let front = [0, short(items.len()), 1, 1];
    let mut bytes = Vec::from_slice(alloc, &front).expect(rt, "memory");
    put_offsets(rt, &mut bytes, items);
    for item in items {
        bytes.extend_from_slice(item).expect(rt, "memory");
    }
    bytes
}

/// Bytes and their text. The last four are the Unicode Standard's tables 3-8 to 3-11 (3.9, "U+FFFD Substitution of
/// Maximal Subparts"): forms that are not the shortest, surrogates, other bytes, and truncated sequences.
#[rattlefmt::skip]
const TEXTS: &[(&[u8], &str)] = &[
    (b"A", "A"),
    (&[0xc3, 0x84, 0xe2, 0x82, 0xac, 0xf0, 0x9f, 0x98, 0x80], "\u{c4}\u{20ac}\u{1f600}"),
    (&[0xff, 0x41], "\u{fffd}A"),
    (&[0xff, 0xff], "\u{fffd}\u{fffd}"),
    (&[0xe2, 0x82, 0x41], "\u{fffd}A"),
    (&[0xc0, 0xaf, 0xe0, 0x80, 0xbf, 0xf0, 0x81, 0x82, 0x41], "\u{fffd}\u{fffd}\u{fffd}\u{fffd}\u{fffd}\u{fffd}\u{fffd}\u{fffd}A"),
    (&[0xed, 0xa0, 0x80, 0xed, 0xbf, 0xbf, 0xed, 0xaf, 0x41], "\u{fffd}\u{fffd}\u{fffd}\u{fffd}\u{fffd}\u{fffd}\u{fffd}\u{fffd}A"),
    (&[0xf4, 0x91, 0x92, 0x93, 0xff, 0x41, 0x80, 0xbf, 0x42], "\u{fffd}\u{fffd}\u{fffd}\u{fffd}\u{fffd}A\u{fffd}\u{fffd}B"),
    (&[0xe1, 0x80, 0xe2, 0xf0, 0x91, 0x92, 0xf1, 0xbf, 0x41], "\u{fffd}\u{fffd}\u{fffd}\u{fffd}A"),
];

/// The bytes of an INDEX of the bytes of the texts.
fn index_of_texts<R: Abort>(rt: &R, alloc: Global) -> Vec<u8> {
    let mut items = Vec::new(alloc);
    for (bytes, _) in TEXTS {
        items.push(*bytes).expect(rt, "memory");
    }
    index_of(rt, alloc, items.as_slice())
}

/// Whether the name at an index has this text.
fn is_name(names: &[String], i: usize, text: &str) -> bool {
    match names.get(i) {
        Some(name) => name.as_str() == text,
        None => false,
    }
}

#[test]
fn texts_of_names(rt: HostRuntime) {
    let alloc = rt.alloc();
    let bytes = index_of_texts(&rt, alloc);
    let names: Names = read(alloc, bytes.as_slice()).expect(&rt, "names");
    let texts = names.into(alloc).expect(&rt, "texts");
    holds(&rt, texts.len() == TEXTS.len(), "the number of names");
    for (i, (_, text)) in TEXTS.iter().enumerate() {
        holds_at(&rt, is_name(texts.as_slice(), i, text), "row", i);
    }
}

/// Fails if the string of a number has another text.
fn check_string<R: Abort>(rt: &R, alloc: Global, strings: &Strings, sid: u16, text: Option<&str>) {
    let string = strings.get(alloc, sid).expect(rt, "memory");
    let is_so = string.as_deref() == text;
    holds_at(rt, is_so, "string", usize::from(sid));
}

/// SIDs of standard strings and of none, and their texts.
const NUMBERS: &[(u16, Option<&str>)] = &[
    (0, Some(".notdef")),
    (175, Some("Aring")),
    (390, Some("Semibold")),
    (400, None),
    (401, None),
    (u16::MAX, None),
];

#[test]
fn texts_of_strings(rt: HostRuntime) {
    let alloc = rt.alloc();
    let bytes = index_of_texts(&rt, alloc);
    let strings: Strings = read(alloc, bytes.as_slice()).expect(&rt, "strings");
    for (i, (_, text)) in TEXTS.iter().enumerate() {
        let sid = 391 + u16::from(short(i));
        check_string(&rt, alloc, &strings, sid, Some(*text));
    }
    for (sid, text) in NUMBERS {
        check_string(&rt, alloc, &strings, *sid, *text);
    }
}

/// The dictionaries of an INDEX of short items.
fn dictionaries_of<R: Abort>(rt: &R, alloc: Global, items: &[&[u8]]) -> Dictionaries {
    let bytes = index_of(rt, alloc, items);
    read(alloc, bytes.as_slice()).expect(rt, "dictionaries")
}

/// Whether a map has exactly this operation, with this operand.
fn is_single(map: &Operations, operator: Operator, operand: i32) -> bool {
    match map.get_single(operator) {
        Some(found) => map.0.len() == 1 && found.to_i32() == Some(operand),
        None => false,
    }
}

/// Whether the first two of three maps have the operations of the first two dictionaries.
fn are_maps(maps: &[Operations]) -> bool {
    match maps {
        [first, second, _] => {
            is_single(first, Operator::Version, 1) && is_single(second, Operator::Private, 2)
        }
        _ => false,
    }
}

/// The operations of a dictionary.
fn map_of<R: Abort>(rt: &R, alloc: Global, all: &Dictionaries, i: usize) -> Option<Operations> {
    all.operations(alloc, i).expect(rt, "operations")
}

/// Whether a dictionary has exactly this operation, with this operand.
fn has_single(map: &Option<Operations>, operator: Operator, operand: i32) -> bool {
    match map {
        Some(map) => is_single(map, operator, operand),
        None => false,
    }
}

/// Reads dictionaries one by one.
fn check_each<R: Abort>(rt: &R, alloc: Global, all: &Dictionaries) {
    let first = map_of(rt, alloc, all, 0);
    holds(rt, has_single(&first, Operator::Version, 1), "the first");
    let second = map_of(rt, alloc, all, 1);
    holds(rt, has_single(&second, Operator::Private, 2), "the second");
    holds(rt, map_of(rt, alloc, all, 3).is_none(), "no fourth");
    let last = map_of(rt, alloc, all, usize::MAX);
    holds(rt, last.is_none(), "no last of all");
}

#[test]
fn dictionaries_of_items(rt: HostRuntime) {
    let alloc = rt.alloc();
    let all = dictionaries_of(&rt, alloc, &[&[0x8c, 0x00], &[0x8d, 0x12], &[0x8b]]);
    check_each(&rt, alloc, &all);
    let copy = all.clone().expect(&rt, "memory");
    let maps = copy.into(alloc).expect(&rt, "operations");
    holds(&rt, are_maps(maps.as_slice()), "all dictionaries");
}

/// Items, and the codes of the errors of the first two of them, of the third, and of all. If there is no third, there
/// is no error for it.
type Refused = (&'static [&'static [u8]], [u8; 4]);

#[rattlefmt::skip]
const REFUSED: &[Refused] = &[
    (&[&[0x8c, 0x00], &[0xff]], [0, 9, 0, 9]),
    (&[&[0x8c, 0x00], &[0xff], &[0x8b, 0x0c, 0x1d]], [0, 9, 9, 9]),
    (&[&[0x8c, 0x00], &[0x1e, 0xd0]], [0, 7, 0, 7]),
    (&[&[0x8c, 0x00], &[0x1e, 0xd0], &[0x8b, 0x0c, 0x1d]], [0, 7, 9, 7]),
    (&[&[0x8c, 0x00], &[0x1e, 0x1b, 0x10, 0x01, 0xff]], [0, 8, 0, 8]),
    (&[&[0x8c, 0x00], &[0x1e, 0x1b, 0x10, 0x01, 0xff], &[0x8b, 0x0c, 0x1d]], [0, 8, 9, 8]),
];

/// The codes of the errors of three items, one by one, and of all items.
fn codes_of<R: Abort>(rt: &R, alloc: Global, items: &[&[u8]]) -> [u8; 4] {
    let all = dictionaries_of(rt, alloc, items);
    let first = code_of(all.operations(alloc, 0));
    let second = code_of(all.operations(alloc, 1));
    let third = code_of(all.operations(alloc, 2));
    [first, second, third, code_of(all.into(alloc))]
}

#[test]
fn refused_dictionaries_of_items(rt: HostRuntime) {
    let alloc = rt.alloc();
    for (row, (items, codes)) in REFUSED.iter().enumerate() {
        holds_at(&rt, codes_of(&rt, alloc, items) == *codes, "row", row);
    }
}
