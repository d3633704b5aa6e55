//! A subtable that is laid out by hand, and what it says.
use crate::{Error, Sequence, Sequences, is_ascending};
use std::process::Abort;

/// A `cmap` table with a record of platform 0 and encoding 5.
const CMAP: &[u8] = &[
    0, 0, 0, 1, 0, 0, 0, 5, 0, 0, 0, 12, // the record: its subtable is at 12
    0, 14, 0, 0, 0, 63, 0, 0, 0, 2, // format 14, 63 bytes, two records
    0, 0xfe, 0, 0, 0, 0, 0, 0, 0, 0, 32, // U+FE00: mappings at 32
    14, 1, 0, 0, 0, 0, 41, 0, 0, 0, 49, // U+E0100: ranges at 41, mappings at 49
    0, 0, 0, 1, 0, 0x4e, 0, 0, 7, // U+4E00 has glyph 7
    0, 0, 0, 1, 0, 0x4e, 0, 1, // U+4E00 and U+4E01 are default
    0, 0, 0, 2, 0, 0x4e, 2, 0, 9, 0, 0x4e, 3, 0, 10, // U+4E02 has glyph 9, and U+4E03 glyph 10
];

/// Characters and selectors, and what the table says of them.
const ROWS: &[(u32, u32, Option<Sequence>)] = &[
    (0x4e00, 0xfe00, Some(Sequence::Glyph(7))),
    (0x4e01, 0xfe00, None),
    (0x4e00, 0xe0100, Some(Sequence::Default)),
    (0x4e01, 0xe0100, Some(Sequence::Default)),
    (0x4e02, 0xe0100, Some(Sequence::Glyph(9))),
    (0x4e03, 0xe0100, Some(Sequence::Glyph(10))),
    (0x4e04, 0xe0100, None),
    (0x4e00, 0xe0101, None),
];

/// The table for U+4E01 and U+4E02, if glyph 9 becomes glyph 2.
const KEPT: &[u8] = &[
    0, 14, 0, 0, 0, 38, 0, 0, 0, 1, // format 14, 38 bytes, one record
    14, 1, 0, 0, 0, 0, 21, 0, 0, 0, 29, // U+E0100
    0, 0, 0, 1, 0, 0x4e, 1, 0, // U+4E01 is default
    0, 0, 0, 1, 0, 0x4e, 2, 0, 2, // U+4E02 has glyph 2
];

#[test]
fn sequences(rt: HostRuntime) {
    let sequences = Sequences::find(CMAP).expect(&rt, "found");
    for (char, selector, said) in ROWS {
        assert_eq!(rt; sequences.get(*char, *selector), *said, "{char} {selector}");
    }
}

/// A subtable that is cut off by a byte has no mapping for U+4E03. Other formats have no sequences.
#[test]
fn cut_tables(rt: HostRuntime) {
    let sequences = Sequences::open(&CMAP[12..74]).expect(&rt, "opened");
    assert_eq!(rt; sequences.get(0x4e02, 0xe0100), Some(Sequence::Glyph(9)));
    assert_eq!(rt; sequences.get(0x4e03, 0xe0100), None);
    assert_eq!(rt; Sequences::open(CMAP).is_none(), true);
    assert_eq!(rt; Sequences::find(&CMAP[12..]).is_none(), true);
}

/// Two records cost two units, two characters two units for each record, and a mapping and a range that are passed one each.
#[test]
fn glyphs(rt: HostRuntime) {
    let sequences = Sequences::find(CMAP).expect(&rt, "found");
    let mut limit = 8;
    let glyphs = sequences
        .glyphs_of(rt.alloc(), &[0x4e00, 0x4e02], &mut limit)
        .expect(&rt, "within the limit");
    assert_eq!(rt; glyphs.as_slice(), [7, 9].as_slice());
    assert_eq!(rt; limit, 0);
    limit = 7;
    match sequences.glyphs_of(rt.alloc(), &[0x4e00, 0x4e02], &mut limit) {
        Ok(_) => assert_eq!(rt; true, false, "too cheap"),
        Err(error) => assert_eq!(rt; error, Error::TooLong),
    }
    assert_eq!(rt; limit, 0);
}

/// For two characters the records have 4 and 6 units: one each, two for the characters, one mapping, and a range and two mappings.
#[test]
fn enough(rt: HostRuntime) {
    let sequences = Sequences::find(CMAP).expect(&rt, "found");
    assert_eq!(rt; sequences.is_enough(10, &[0x4e00, 0x4e02]), true);
    assert_eq!(rt; sequences.is_enough(9, &[0x4e00, 0x4e02]), false);
}

#[test]
fn kept_sequences(rt: HostRuntime) {
    let sequences = Sequences::find(CMAP).expect(&rt, "found");
    let mut limit = 100;
    let kept = sequences
        .kept(rt.alloc(), &[0x4e01, 0x4e02], &[0, 3, 9], &mut limit)
        .expect(&rt, "kept");
    assert_eq!(rt; kept.as_slice(), KEPT);
}

#[test]
fn ascending(rt: HostRuntime) {
    assert_eq!(rt; is_ascending(&[]), true);
    assert_eq!(rt; is_ascending(&[1, 2, 5]), true);
    assert_eq!(rt; is_ascending(&[1, 2, 2]), false);
    assert_eq!(rt; is_ascending(&[2, 1]), false);
}
