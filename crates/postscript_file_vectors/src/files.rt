//! Whole files written: desubroutinized, and with only some characters.
use crate::checks::{bytes_of, holds, holds_at, is_text};
use crate::small_file::{CFF, CHARS, CMAP, HHEA, MAXP, METRICS, NAME, VARIED, choice, tables_of};
use postscript_files::{Choice, Face, Given, flat_file, subset_file};
use postscript_sequences::Sequence::{self, Default, Glyph};
use postscript_sequences::Sequences;
use postscript_sfnt::{FontFile, glyphs};
use postscript_sfnt_write::{Table, file_of};
use postscript_view::FontView;
use std::alloc::Global;
use std::process::Abort;

/// A file of the font, without the table of a tag.
fn file<R: Abort>(rt: &R, alloc: Global, changed: u32, digits: &str, without: u32) -> Vec<u8> {
    let given = tables_of(alloc, changed, digits).expect(rt, "tables");
    let mut tables = Vec::new(alloc);
    for table in &given {
        if table.tag != without {
            tables
                .push(Table {
                    tag: table.tag,
                    bytes: table.bytes.as_slice(),
                })
                .expect(rt, "memory");
        }
    }
    file_of(alloc, tables.as_slice()).expect(rt, "a file")
}

/// Characters, whether glyphs keep their numbers, and of the new file: the glyphs of A, grave and Agrave, the `hmtx`
/// table, and the number of glyphs. By hand: Agrave has the components A and grave, and `.notdef` is always kept. Emptied
/// glyphs have the metrics of `.notdef`.
const ROWS: &[(&[u32], bool, [u16; 3], &str, u16)] = &[
    (&[0x60], false, [0, 1, 0], "01f40000 012cffec", 2),
    (
        &[0x60],
        true,
        [0, 2, 0],
        "01f40000 01f40000 012cffec 01f40000",
        4,
    ),
    (&[0xc0, 0x41], false, [1, 0, 3], METRICS, 4),
];

#[test]
fn files_of_some_characters(rt: HostRuntime) {
    let alloc = rt.alloc();
    let bytes = file(&rt, alloc, 0, "", 0);
    for (row, (chars, retain_gids, numbers, metrics, count)) in ROWS.iter().enumerate() {
        let asked = choice(chars, *retain_gids, &[NAME]);
        let new = subset_file(alloc, bytes.as_slice(), 0, &asked).expect(&rt, "a file");
        let face = Face::open(new.as_slice(), 0).expect(&rt, "a face");
        for (k, (char, _)) in CHARS.iter().enumerate() {
            let is = numbers.get(k) == Some(&face.map.glyph_of(*char));
            holds_at(&rt, is, "character in row", row);
        }
        let wanted = bytes_of(&rt, alloc, metrics);
        holds_at(&rt, face.hmtx == wanted.as_slice(), "hmtx in row", row);
        holds_at(&rt, glyphs(face.maxp) == Some(*count), "maxp in row", row);
        let font = FontView::read(alloc, face.cff).expect(&rt, "a font");
        holds_at(
            &rt,
            font.char_strings.len() == usize::from(*count),
            "glyphs in row",
            row,
        );
        let name = face.file.table(*b"name").unwrap_or(&[]);
        holds_at(
            &rt,
            name == [10, 11, 12, 13, 14].as_slice(),
            "name in row",
            row,
        );
        holds_at(&rt, face.file.tables() == 7, "tables in row", row);
    }
}

/// Glyphs with their characters, glyphs without them, and the new glyphs of A, grave and Agrave. By hand: Agrave is kept
/// with its components, which have no characters in the subset.
const CHOSEN: &[(&[usize], &[usize], [u16; 3])] = &[
    (&[3], &[], [0, 0, 3]),
    (&[], &[3], [0, 0, 0]),
    (&[2], &[3, 3], [0, 2, 0]),
];

#[test]
fn glyphs_with_and_without_characters(rt: HostRuntime) {
    let alloc = rt.alloc();
    let bytes = file(&rt, alloc, 0, "", 0);
    for (row, (glyphs, unmapped, numbers)) in CHOSEN.iter().enumerate() {
        let mut asked = choice(&[], false, &[]);
        asked.glyphs = glyphs;
        asked.unmapped = unmapped;
        let new = subset_file(alloc, bytes.as_slice(), 0, &asked).expect(&rt, "a file");
        let face = Face::open(new.as_slice(), 0).expect(&rt, "a face");
        for (k, (char, _)) in CHARS.iter().enumerate() {
            let is = numbers.get(k) == Some(&face.map.glyph_of(*char));
            holds_at(&rt, is, "character in row", row);
        }
        holds_at(
            &rt,
            postscript_sfnt::glyphs(face.maxp) == Some(4),
            "glyphs in row",
            row,
        );
    }
}

/// A sequence of the table `VARIED`.
fn sequence_in(cmap: &[u8], char: u32, selector: u32) -> Option<Sequence> {
    Sequences::find(cmap)?.get(char, selector)
}

/// The sequences of `VARIED`.
const SEQUENCES: [(u32, u32); 5] = [
    (0x41, 0xfe00),
    (0x60, 0xfe00),
    (0x60, 0xfe01),
    (0x60, 0xfe02),
    (0x60, 0xfe03),
];

/// Characters, further glyphs, whether glyphs keep their numbers, and the new sequences. By hand: the sequences of these
/// characters are kept if their glyphs are, and Agrave is kept with A and grave.
const VARIATIONS: &[(&[u32], &[usize], bool, [Option<Sequence>; 5])] = &[
    (
        &[0x60],
        &[],
        false,
        [None, None, Some(Glyph(1)), Some(Glyph(0)), None],
    ),
    (
        &[0x60],
        &[],
        true,
        [None, None, Some(Glyph(2)), Some(Glyph(0)), None],
    ),
    (
        &[0x60],
        &[1],
        true,
        [None, None, Some(Glyph(2)), Some(Glyph(0)), Some(Glyph(1))],
    ),
    (
        &[0x60],
        &[3],
        true,
        [
            None,
            Some(Glyph(3)),
            Some(Glyph(2)),
            Some(Glyph(0)),
            Some(Glyph(1)),
        ],
    ),
    (
        &[0x41, 0x60],
        &[],
        true,
        [
            Some(Default),
            None,
            Some(Glyph(2)),
            Some(Glyph(0)),
            Some(Glyph(1)),
        ],
    ),
    (&[0x41], &[], true, [Some(Default), None, None, None, None]),
    (&[0xc0], &[], true, [None, None, None, None, None]),
];

#[test]
fn variation_sequences_of_some_characters(rt: HostRuntime) {
    let alloc = rt.alloc();
    let bytes = file(&rt, alloc, CMAP, VARIED, 0);
    for (row, (chars, unmapped, retain_gids, wanted)) in VARIATIONS.iter().enumerate() {
        let mut asked = choice(chars, *retain_gids, &[]);
        asked.unmapped = unmapped;
        let new = subset_file(alloc, bytes.as_slice(), 0, &asked).expect(&rt, "a file");
        let face = Face::open(new.as_slice(), 0).expect(&rt, "a face");
        for (k, (char, selector)) in SEQUENCES.iter().enumerate() {
            let is = wanted.get(k) == Some(&sequence_in(face.cmap, *char, *selector));
            holds_at(&rt, is, "sequence in row", row);
        }
    }
}

#[test]
fn a_file_without_subroutines(rt: HostRuntime) {
    let alloc = rt.alloc();
    let bytes = file(&rt, alloc, 0, "", 0);
    let new = flat_file(alloc, bytes.as_slice(), 0).expect(&rt, "a file");
    let face = Face::open(new.as_slice(), 0).expect(&rt, "a face");
    holds(&rt, face.file.tables() == 6, "six tables");
    let wanted = bytes_of(&rt, alloc, METRICS);
    holds(&rt, face.hmtx == wanted.as_slice(), "the metrics");
    let font = FontView::read(alloc, face.cff).expect(&rt, "a font");
    holds(&rt, font.char_strings.len() == 4, "four glyphs");
}

/// Why there is no subset: the text of the error.
fn refusal<R: Abort>(rt: &R, alloc: Global, bytes: &[u8], choice: &Choice<'_>) -> String {
    match subset_file(alloc, bytes, 0, choice) {
        Ok(_) => String::new(alloc),
        Err(e) => e.to_string(alloc).expect(rt, "memory"),
    }
}

/// Tables with other bytes, tables that are left out, and the error.
const REFUSED: &[(u32, &str, u32, &str)] = &[
    (0, "", CFF, "a required table is missing"),
    (
        CMAP,
        "0000 0000",
        0,
        "the cmap table has no supported subtable",
    ),
    (
        HHEA,
        "0001",
        0,
        "the hhea and hmtx tables have no advance widths",
    ),
    (MAXP, "00005000", 0, "the maxp table is truncated"),
];

#[test]
fn files_that_are_not_written(rt: HostRuntime) {
    let alloc = rt.alloc();
    let asked = choice(&[0x60], false, &[]);
    for (changed, digits, without, wanted) in REFUSED {
        let bytes = file(&rt, alloc, *changed, digits, *without);
        let found = refusal(&rt, alloc, bytes.as_slice(), &asked);
        is_text(&rt, found.as_str(), wanted, digits);
    }
    let found = refusal(&rt, alloc, b"OTT", &asked);
    is_text(&rt, found.as_str(), "the file ends early", "a cut file");
}

/// Characters, tables to copy, and the error.
const UNFIT: &[(&[u32], &[u32], &str)] = &[
    (&[], &[], "the list of glyphs is empty"),
    (
        &[0x41, 0x42],
        &[],
        "the font has no glyph for the character 66",
    ),
    (&[0x41], &[NAME, NAME], "two tables have the same tag"),
    (&[0x41], &[MAXP], "two tables have the same tag"),
];

#[test]
fn choices_that_do_not_fit(rt: HostRuntime) {
    let alloc = rt.alloc();
    let bytes = file(&rt, alloc, 0, "", 0);
    for (chars, copied, wanted) in UNFIT {
        let found = refusal(&rt, alloc, bytes.as_slice(), &choice(chars, false, copied));
        is_text(&rt, found.as_str(), wanted, "a choice");
    }
}

/// The glyph of `0x60` costs 8 units, and `.notdef` 1.
#[test]
fn files_within_a_limit(rt: HostRuntime) {
    let alloc = rt.alloc();
    let bytes = file(&rt, alloc, 0, "", 0);
    let mut asked = choice(&[0x60], false, &[]);
    asked.limit = Some(9);
    let found = refusal(&rt, alloc, bytes.as_slice(), &asked);
    is_text(&rt, found.as_str(), "", "a file");
    asked.limit = Some(8);
    let found = refusal(&rt, alloc, bytes.as_slice(), &asked);
    let wanted = "the kept glyphs cost more than the limit";
    is_text(&rt, found.as_str(), wanted, "no file");
}

/// Empty tables with the tags from 1 to the one before `end`.
fn empty_tables<R: Abort>(rt: &R, alloc: Global, end: u32) -> Vec<Given> {
    let mut tables = Vec::new(alloc);
    for tag in 1..end {
        let bytes = Vec::new(alloc);
        tables.push(Given { tag, bytes }).expect(rt, "memory");
    }
    tables
}

/// A file has at most 4,095 tables, and six are made.
#[test]
fn files_of_many_tables(rt: HostRuntime) {
    let alloc = rt.alloc();
    let bytes = file(&rt, alloc, 0, "", 0);
    let (many, fewer) = (
        empty_tables(&rt, alloc, 4091),
        empty_tables(&rt, alloc, 4090),
    );
    let mut asked = choice(&[0x41], false, &[]);
    asked.given = many.as_slice();
    let found = refusal(&rt, alloc, bytes.as_slice(), &asked);
    is_text(
        &rt,
        found.as_str(),
        "the file is too large to be written",
        "4,096 tables",
    );
    asked.given = fewer.as_slice();
    let new = subset_file(alloc, bytes.as_slice(), 0, &asked).expect(&rt, "a file");
    let face = Face::open(new.as_slice(), 0).expect(&rt, "a face");
    holds(&rt, face.file.tables() == 4095, "4,095 tables");
}

/// Sets a byte, if there is one at this offset.
fn set(bytes: &mut Vec<u8>, at: usize, byte: u8) {
    if let Some(found) = bytes.get_mut(at) {
        *found = byte;
    }
}

/// Two records of the directory name the whole file.
#[test]
fn tables_that_overlap(rt: HostRuntime) {
    let alloc = rt.alloc();
    let mut bytes = file(&rt, alloc, 0, "", 0);
    let [high, low] = u16::try_from(bytes.len()).unwrap_or(0).to_be_bytes();
    for at in [38usize, 39, 40, 41, 54, 55, 56, 57] {
        set(&mut bytes, at, 0);
    }
    for at in [42usize, 58] {
        set(&mut bytes, at, high);
    }
    for at in [43usize, 59] {
        set(&mut bytes, at, low);
    }
    let refused = flat_file(alloc, bytes.as_slice(), 0);
    holds(
        &rt,
        matches!(refused, Err(postscript_files::Error::Overlap)),
        "overlap",
    );
}
