//! OpenType files: faces, tables, face numbers, names and characters.
mod rows;

use crate::checks::{bytes_of, holds, holds_at, is_text};
use postscript_sfnt::{
    Advances, Bounds, CharacterMap, FontFile, GlyphNames, Name, Names, bounding_box, faces, glyphs,
    has_magic_number, units_per_em,
};
use postscript_text::names::trimmed;
use rows::{COLLECTION, FILE, MAPS, NAMES, NEXT, NO_MAPS, NO_POSTS, POST, REFUSALS, TRIMMED};
use std::alloc::Global;
use std::process::Abort;

/// The table of a face.
fn table<'l, R: Abort>(rt: &R, file: &FontFile<'l>, tag: [u8; 4]) -> &'l [u8] {
    file.table(tag).expect(rt, "a table")
}

#[test]
fn a_file_of_one_face(rt: HostRuntime) {
    let bytes = bytes_of(&rt, rt.alloc(), FILE);
    let file = FontFile::read(bytes.as_slice(), 0).expect(&rt, "a face");
    holds(&rt, faces(bytes.as_slice()) == Ok(1), "one face");
    holds(&rt, file.tables() == 3, "three tables");
    holds(&rt, file.table(*b"CFF ").is_none(), "no outlines");
    let head = table(&rt, &file, *b"head");
    holds(&rt, units_per_em(head) == Some(1000), "units");
    holds(&rt, has_magic_number(head), "the magic number");
    let bounds = Bounds {
        x_min: -20,
        y_min: -250,
        x_max: 1000,
        y_max: 750,
    };
    holds(&rt, bounding_box(head) == Some(bounds), "the box");
    // The first record of `maxp` names bytes past the end.
    let maxp = table(&rt, &file, *b"maxp");
    holds(&rt, glyphs(maxp) == Some(3), "the glyphs");
}

/// The result of opening a face of a file: the number of its tables, or the error.
fn read<R: Abort>(rt: &R, alloc: Global, digits: &str, face: usize) -> String {
    let bytes = bytes_of(rt, alloc, digits);
    match FontFile::read(bytes.as_slice(), face) {
        Ok(file) => file.tables().to_string(alloc).expect(rt, "memory"),
        Err(e) => e.to_string(alloc).expect(rt, "memory"),
    }
}

#[test]
fn faces_that_are_refused(rt: HostRuntime) {
    let alloc = rt.alloc();
    for (digits, face, wanted) in REFUSALS {
        let found = read(&rt, alloc, digits, *face);
        is_text(&rt, found.as_str(), wanted, digits);
    }
    let bytes = bytes_of(&rt, alloc, COLLECTION);
    holds(&rt, faces(bytes.as_slice()) == Ok(2), "two faces");
}

#[test]
fn advances_of_glyphs(rt: HostRuntime) {
    let hhea = [0; 34];
    holds(&rt, Advances::read(&hhea, &[]).is_none(), "a cut table");
    let mut hhea = [0; 36];
    holds(&rt, Advances::read(&hhea, &[]).is_none(), "no advance");
    hhea[35] = 2;
    let hmtx = [1, 0xf4, 0, 0, 2, 0x58, 0, 0];
    holds(
        &rt,
        Advances::read(&hhea, &hmtx[..7]).is_none(),
        "a cut advance",
    );
    let advances = Advances::read(&hhea, &hmtx).expect(&rt, "advances");
    let found = [
        advances.of(0),
        advances.of(1),
        advances.of(2),
        advances.of(65535),
    ];
    holds(&rt, found == [500, 600, 600, 600], "the advances");
}

/// The characters of a name.
fn text_of<R: Abort>(rt: &R, alloc: Global, name: Option<Name<'_>>) -> String {
    let mut text = String::new(alloc);
    if let Some(name) = name {
        for char in name.chars() {
            text.push(char).expect(rt, "memory");
        }
    }
    text
}

#[test]
fn names_of_a_font(rt: HostRuntime) {
    let alloc = rt.alloc();
    let bytes = bytes_of(&rt, alloc, NAMES);
    let names = Names::read(bytes.as_slice()).expect(&rt, "names");
    let family = text_of(&rt, alloc, names.family());
    is_text(&rt, family.as_str(), "B\u{1F600}", "the family");
    let style = text_of(&rt, alloc, names.style());
    is_text(&rt, style.as_str(), "Kr\u{e4}ftig", "the style");
    let other = text_of(&rt, alloc, names.get(2));
    is_text(
        &rt,
        other.as_str(),
        "\u{fffd}C",
        "a surrogate alone, and an odd byte",
    );
    holds(&rt, names.get(16).is_none(), "a text past the end");
}

#[test]
fn names_that_are_cut(rt: HostRuntime) {
    let mut bytes = bytes_of(&rt, rt.alloc(), NAMES);
    bytes.truncate(70);
    let names = Names::read(bytes.as_slice());
    holds(&rt, names.is_none(), "records that are cut");
}

#[test]
fn names_of_subsets(rt: HostRuntime) {
    let alloc = rt.alloc();
    for (old, new) in TRIMMED {
        let table = bytes_of(&rt, alloc, old);
        let found = trimmed(alloc, table.as_slice(), false).expect(&rt, "memory");
        let found = found.expect(&rt, "a table");
        holds(&rt, found == bytes_of(&rt, alloc, new), old);
    }
    let found = trimmed(alloc, &[0, 0, 0, 1, 0, 18], false).expect(&rt, "memory");
    holds(&rt, found.is_none(), "a record that is cut");
}

/// The names of the first glyphs, with a space after each, and a line for those without one.
fn glyph_names<R: Abort>(rt: &R, alloc: Global, names: &GlyphNames<'_>) -> String {
    let mut text = String::new(alloc);
    for glyph in 0..7usize {
        for byte in names.get(glyph).unwrap_or(b"-") {
            text.push(char::from(*byte)).expect(rt, "memory");
        }
        text.push(' ').expect(rt, "memory");
    }
    text
}

#[test]
fn names_of_glyphs(rt: HostRuntime) {
    let alloc = rt.alloc();
    let post = bytes_of(&rt, alloc, POST);
    let names = GlyphNames::read(alloc, post.as_slice())
        .expect(&rt, "memory")
        .expect(&rt, "names");
    let found = glyph_names(&rt, alloc, &names);
    is_text(
        &rt,
        found.as_str(),
        ".notdef A dcroat alpha b.alt - - ",
        "names of glyphs",
    );
}

#[test]
fn tables_without_names_of_glyphs(rt: HostRuntime) {
    for (row, digits) in NO_POSTS.iter().enumerate() {
        let post = bytes_of(&rt, rt.alloc(), digits);
        let names = GlyphNames::read(rt.alloc(), post.as_slice()).expect(&rt, "memory");
        holds_at(&rt, names.is_none(), "row", row);
    }
}

/// Compares the glyph of a character, each spelled in digits: the character in hex, a colon, and the glyph.
fn check_char<R: Abort>(rt: &R, map: &CharacterMap<'_>, word: &str, row: usize) {
    let Some((char, glyph)) = word.split_once(':') else {
        return rt.panic("no colon");
    };
    let char = u32::from_str_radix(char, 16).expect(rt, "a character");
    let glyph = glyph.parse::<u16>().expect(rt, "a glyph");
    holds_at(rt, map.glyph_of(char) == glyph, word, row);
}

/// The characters that have a glyph, each found from the one before it, as `check_char` has them.
fn all_chars<R: Abort>(rt: &R, alloc: Global, map: &CharacterMap<'_>) -> String {
    let mut text = String::new(alloc);
    let mut from = 0u32;
    for _ in 0..100u32 {
        let Some((char, glyph)) = map.next_char(from) else {
            break;
        };
        write!(text, "{char:x}:{glyph} ").expect(rt, "memory");
        from = char.saturating_add(1);
    }
    text
}

#[test]
fn characters_one_after_another(rt: HostRuntime) {
    for (row, wanted) in NEXT {
        let (digits, _words) = MAPS[*row % MAPS.len()];
        let bytes = bytes_of(&rt, rt.alloc(), digits);
        let map = CharacterMap::read(bytes.as_slice()).expect(&rt, "a map");
        let found = all_chars(&rt, rt.alloc(), &map);
        is_text(&rt, found.as_str(), wanted, "the characters");
    }
}

#[test]
fn glyphs_of_characters(rt: HostRuntime) {
    for (row, (digits, wanted)) in MAPS.iter().enumerate() {
        let bytes = bytes_of(&rt, rt.alloc(), digits);
        let map = CharacterMap::read(bytes.as_slice()).expect(&rt, "a map");
        for word in wanted.split(' ') {
            check_char(&rt, &map, word, row);
        }
    }
}

#[test]
fn tables_without_a_map(rt: HostRuntime) {
    for (row, digits) in NO_MAPS.iter().enumerate() {
        let bytes = bytes_of(&rt, rt.alloc(), digits);
        let map = CharacterMap::read(bytes.as_slice());
        holds_at(&rt, map.is_none(), "row", row);
    }
}
