//! Fonts written: of all glyphs, and of some.
use crate::checks::{bytes_of, holds, holds_at, is_text};
use crate::small_file::ACCENTED;
use crate::views::rows::{CID, PLAIN, SELECTIONS};
use crate::views::{codes_of, describe_glyph, join_bytes};
use postscript::compact1::FontSet;
use postscript_base::index::IndexView;
use postscript_drawing::{LIMIT, outline_of};
use postscript_view::FontView;
use postscript_write::{
    Error, flat_font, index, kept_glyphs, kept_glyphs_within, subset, subset_keeping, subset_within,
};
use std::alloc::Global;
use std::io::Cursor;
use std::process::Abort;

/// Describes each glyph of the CID-keyed font without subroutines. The descriptions are those from the font with them,
/// except for the bytes of the codes `87 9f 16 0e`, `92 bd 16 0e` and `8b 0c 12`, and for the operator Subrs of the
/// first Private DICT.
const FLAT: &[&str] = &[
    "cid 0 part 0 bytes 1 advance 5e2 bits 32768000 5e-4 0 0 5e-4 0 0 private 2",
    "cid 10 part 0 bytes 4 advance 6e2 and -4 bits 39059456 5e-4 0 0 5e-4 0 0 private 2",
    "cid 11 part 1 bytes 4 advance -3e1 and 7 bits -1507328 1e-3 0 0 1e-3 0 0 private 2",
    "cid 100 part 1 bytes 3 advance 25e1 bits 16384000 1e-3 0 0 1e-3 0 0 private 2",
    "",
];

/// The code of a glyph of a font.
fn code_is<R: Abort>(rt: &R, alloc: Global, bytes: &[u8], glyph: usize, digits: &str) {
    let font = FontView::read(alloc, bytes).expect(rt, "a font");
    let wanted = bytes_of(rt, alloc, digits);
    holds(
        rt,
        font.char_strings.get(glyph) == Some(wanted.as_slice()),
        digits,
    );
}

/// The glyphs of a font are described as in these rows of the flattened one.
fn tells<R: Abort>(rt: &R, alloc: Global, bytes: &[u8], rows: &[usize]) {
    let font = FontView::read(alloc, bytes).expect(rt, "a font");
    for (glyph, row) in rows.iter().enumerate() {
        let text = describe_glyph(rt, alloc, &font, glyph);
        is_text(rt, text.as_str(), FLAT[*row % FLAT.len()], "a glyph");
    }
}

#[test]
fn cid_keyed_fonts_written(rt: HostRuntime) {
    let alloc = rt.alloc();
    for selection in SELECTIONS {
        let bytes = join_bytes(&rt, alloc, CID, selection);
        let flat = flat_font(alloc, bytes.as_slice()).expect(&rt, "a flat font");
        tells(&rt, alloc, flat.as_slice(), &[0, 1, 2, 3, 4]);
        code_is(&rt, alloc, flat.as_slice(), 1, "879f160e");
        code_is(&rt, alloc, flat.as_slice(), 2, "92bd160e");
    }
}

#[test]
fn cid_keyed_fonts_cut(rt: HostRuntime) {
    let alloc = rt.alloc();
    let bytes = join_bytes(&rt, alloc, CID, SELECTIONS[0]);
    let cut = subset(alloc, bytes.as_slice(), &[2, 2]).expect(&rt, "a subset");
    tells(&rt, alloc, cut.as_slice(), &[0, 2, 4]);
    let kept = subset_keeping(alloc, bytes.as_slice(), &[2]).expect(&rt, "a subset");
    code_is(&rt, alloc, kept.as_slice(), 1, "0e");
    code_is(&rt, alloc, kept.as_slice(), 2, "92bd160e");
    code_is(&rt, alloc, kept.as_slice(), 3, "0e");
}

#[test]
fn codes_written(rt: HostRuntime) {
    let alloc = rt.alloc();
    let bytes = join_bytes(&rt, alloc, PLAIN, "00 02 4142");
    let flat = flat_font(alloc, bytes.as_slice()).expect(&rt, "a flat font");
    let text = codes_of(&rt, alloc, flat.as_slice());
    is_text(&rt, text.as_str(), " 65:1 66:2", "a flat font");
    let kept = subset_keeping(alloc, bytes.as_slice(), &[3]).expect(&rt, "a subset");
    let text = codes_of(&rt, alloc, kept.as_slice());
    is_text(&rt, text.as_str(), " 65:1 66:2", "numbers kept");
    // only B, by the standard encoding
    let cut = subset(alloc, bytes.as_slice(), &[3]).expect(&rt, "a subset");
    let text = codes_of(&rt, alloc, cut.as_slice());
    is_text(&rt, text.as_str(), " 66:1", "a subset");
}

/// A font has exactly these strings, and this name of its last glyph.
fn is_named<R: Abort>(rt: &R, alloc: Global, bytes: &[u8], strings: &[&[u8]], name: &[u8]) {
    let font = FontView::read(alloc, bytes).expect(rt, "a font");
    let set = font.char_set().expect(rt, "a char set");
    holds(rt, font.strings.len() == strings.len(), "so many strings");
    for (i, string) in strings.iter().enumerate() {
        holds_at(rt, font.strings.get(i) == Some(*string), "string", i);
    }
    let last = font.char_strings.len().saturating_sub(1);
    holds(rt, font.name(&set, last) == Some(name), "the last name");
}

/// Strings that no glyph and no operator names are left out, unless glyphs keep their numbers. The others keep their
/// order.
#[test]
fn strings_cut(rt: HostRuntime) {
    let alloc = rt.alloc();
    let bytes = join_bytes(&rt, alloc, PLAIN, "00 02 4142");
    is_named(&rt, alloc, bytes.as_slice(), &[b"alpha", b"beta"], b"beta");
    let cut = subset(alloc, bytes.as_slice(), &[4]).expect(&rt, "a subset");
    is_named(&rt, alloc, cut.as_slice(), &[b"beta"], b"beta");
    let cut = subset(alloc, bytes.as_slice(), &[3]).expect(&rt, "a subset");
    is_named(&rt, alloc, cut.as_slice(), &[], b"B");
    let kept = subset_keeping(alloc, bytes.as_slice(), &[4]).expect(&rt, "a subset");
    is_named(&rt, alloc, kept.as_slice(), &[b"alpha", b"beta"], b"beta");
}

#[test]
fn fonts_that_are_not_written(rt: HostRuntime) {
    let alloc = rt.alloc();
    let mut bytes = join_bytes(&rt, alloc, PLAIN, "00 02 4142");
    let none = subset(alloc, bytes.as_slice(), &[]);
    holds(&rt, matches!(none, Err(Error::NoGlyphs)), "no glyphs");
    let past = subset_keeping(alloc, bytes.as_slice(), &[1, 5]);
    holds(&rt, matches!(past, Err(Error::MissingGlyph(5))), "no sixth");
    let none = kept_glyphs(alloc, bytes.as_slice(), &[]);
    holds(&rt, matches!(none, Err(Error::NoGlyphs)), "none told");
    let past = kept_glyphs(alloc, bytes.as_slice(), &[1, 5]);
    holds(&rt, matches!(past, Err(Error::MissingGlyph(5))), "not told");
    // the code of glyph 2 returns
    if let Some(code) = bytes.get_mut(69) {
        *code = 0x0b;
    }
    let refused = subset(alloc, bytes.as_slice(), &[3, 2]);
    holds(&rt, matches!(refused, Err(Error::Glyph(2, _))), "glyph 2");
    let written = subset(alloc, bytes.as_slice(), &[3]);
    holds(&rt, written.is_ok(), "without glyph 2");
}

/// The only glyph calls a subroutine that returns, so that its code without calls has no byte. It is written as `0
/// drop`, since `FontSet` reads no empty items.
#[test]
fn a_code_of_no_byte(rt: HostRuntime) {
    let alloc = rt.alloc();
    let bytes = bytes_of(
        &rt,
        alloc,
        "01000401 000101010241 00010101051c001b11 0000 00010101020b 0001010103201d",
    );
    let wanted = bytes_of(
        &rt,
        alloc,
        "01000404 000101010241 00010101071d0000001911 0000 0000 00010101048b0c12",
    );
    let flat = flat_font(alloc, bytes.as_slice()).expect(&rt, "a font");
    holds(&rt, flat == wanted, "0 drop");
    let read = FontSet::check_lenient(alloc, &mut Cursor::new(flat.as_slice()));
    holds(&rt, read.is_ok(), "read as a whole");
}

/// The Top DICT of a CID-keyed font names its own Private DICT, which only its Font DICTs are to do. It is left out.
#[test]
fn a_private_dictionary_of_no_glyph(rt: HostRuntime) {
    let alloc = rt.alloc();
    let bytes = bytes_of(
        &rt,
        alloc,
        "01000401 000101010241 0001010117 8c8c8b0c1e 1c00310c24 1c00290c25 1c002b11 8b8b12 \
            0000 0000 0000 00010101020e 00010101048b8b12",
    );
    let wanted = bytes_of(
        &rt,
        alloc,
        "01000404 000101010241 000101011a 8c8c8b0c1e 1d0000002c0c25 1d0000002e11 1d000000340c24 \
            0000 0000 0000 00010101020e 000101010c1d000000001d0000003412",
    );
    let flat = flat_font(alloc, bytes.as_slice()).expect(&rt, "a font");
    holds(&rt, flat == wanted, "no Private beside ROS");
}

#[test]
fn an_index_written(rt: HostRuntime) {
    let alloc = rt.alloc();
    let mut items = Vec::new(alloc);
    items
        .push(bytes_of(&rt, alloc, "0a0b"))
        .expect(&rt, "memory");
    items.push(Vec::new(alloc)).expect(&rt, "memory");
    items.push(bytes_of(&rt, alloc, "0c")).expect(&rt, "memory");
    let written = index(alloc, items.as_slice()).expect(&rt, "an INDEX");
    let wanted = bytes_of(&rt, alloc, "0003 01 01030304 0a0b0c");
    holds(&rt, written == wanted, "an INDEX");
}

/// A glyph of a font has an outline of `segments` segments.
fn draws<R: Abort>(rt: &R, alloc: Global, bytes: &[u8], glyph: usize, segments: usize) {
    let font = FontView::read(alloc, bytes).expect(rt, "a font");
    let mut limit = LIMIT;
    let outline = outline_of(alloc, &font, glyph, &mut limit).expect(rt, "an outline");
    holds_at(rt, outline.segments.len() == segments, "segments", glyph);
}

/// A font has `glyphs` glyphs.
fn has_glyphs<R: Abort>(rt: &R, alloc: Global, bytes: &[u8], glyphs: usize) {
    let font = FontView::read(alloc, bytes).expect(rt, "a font");
    holds_at(rt, font.char_strings.len() == glyphs, "glyphs", glyphs);
}

/// These glyphs are kept if this one is named.
fn keeps<R: Abort>(rt: &R, alloc: Global, bytes: &[u8], named: usize, kept: &[usize]) {
    let told = kept_glyphs(alloc, bytes, &[named, named]).expect(rt, "glyphs");
    holds_at(rt, told.as_slice() == kept, "glyphs of", named);
}

/// The base and the accent of a `seac` glyph are kept with it.
#[test]
fn components_kept(rt: HostRuntime) {
    let alloc = rt.alloc();
    let bytes = bytes_of(&rt, alloc, ACCENTED);
    draws(&rt, alloc, bytes.as_slice(), 3, 8);
    let cut = subset(alloc, bytes.as_slice(), &[3]).expect(&rt, "a subset");
    has_glyphs(&rt, alloc, cut.as_slice(), 4);
    draws(&rt, alloc, cut.as_slice(), 3, 8);
    let kept = subset_keeping(alloc, bytes.as_slice(), &[3]).expect(&rt, "a subset");
    draws(&rt, alloc, kept.as_slice(), 3, 8);
    draws(&rt, alloc, kept.as_slice(), 1, 4);
    let base = subset(alloc, bytes.as_slice(), &[2]).expect(&rt, "a subset");
    has_glyphs(&rt, alloc, base.as_slice(), 2);
    keeps(&rt, alloc, bytes.as_slice(), 3, &[0, 1, 2, 3]);
    keeps(&rt, alloc, bytes.as_slice(), 2, &[0, 2]);
    keeps(&rt, alloc, bytes.as_slice(), 0, &[0]);
}

/// The `seac` glyph costs 6 units, its base and its accent 8 each, and `.notdef` 1. So the limits 23 and 22 are on both
/// sides of the cost.
#[test]
fn glyphs_kept_within_a_limit(rt: HostRuntime) {
    let alloc = rt.alloc();
    let bytes = bytes_of(&rt, alloc, ACCENTED);
    let all: &[usize] = &[0, 1, 2, 3];
    let told = kept_glyphs_within(alloc, bytes.as_slice(), &[3], Some(23)).expect(&rt, "glyphs");
    holds(&rt, told.as_slice() == all, "all glyphs");
    let past = kept_glyphs_within(alloc, bytes.as_slice(), &[3], Some(22));
    holds(&rt, matches!(past, Err(Error::TooLong)), "past the limit");
    for keeps in [false, true] {
        let cut = subset_within(alloc, bytes.as_slice(), &[3], keeps, Some(23)).expect(&rt, "23");
        holds(&rt, cut.kept.as_slice() == all, "all kept");
        draws(&rt, alloc, cut.font.as_slice(), 3, 8);
        let past = subset_within(alloc, bytes.as_slice(), &[3], keeps, Some(22));
        holds(&rt, matches!(past, Err(Error::TooLong)), "past the limit");
    }
}

/// With a limit, the error of a glyph that fails comes from the search.
#[test]
fn glyphs_that_fail_within_a_limit(rt: HostRuntime) {
    let alloc = rt.alloc();
    let mut bytes = join_bytes(&rt, alloc, PLAIN, "00 02 4142");
    // the code of glyph 2 returns
    if let Some(code) = bytes.get_mut(69) {
        *code = 0x0b;
    }
    let refused = subset_within(alloc, bytes.as_slice(), &[3, 2], false, Some(1000));
    holds(&rt, matches!(refused, Err(Error::Glyph(2, _))), "glyph 2");
    let written = subset_within(alloc, bytes.as_slice(), &[3], false, Some(1000));
    holds(&rt, written.is_ok(), "without glyph 2");
}

/// A component that the font does not have is not kept, and drawing the glyph fails as before.
#[test]
fn components_wanting(rt: HostRuntime) {
    let alloc = rt.alloc();
    let mut bytes = bytes_of(&rt, alloc, ACCENTED);
    // the accent has the code 194, which no glyph has
    if let Some(code) = bytes.get_mut(87) {
        *code = 0x56;
    }
    let cut = subset(alloc, bytes.as_slice(), &[3]).expect(&rt, "a subset");
    has_glyphs(&rt, alloc, cut.as_slice(), 3);
    let font = FontView::read(alloc, cut.as_slice()).expect(&rt, "a font");
    let mut limit = LIMIT;
    let refused = outline_of(alloc, &font, 2, &mut limit);
    holds(
        &rt,
        matches!(
            refused,
            Err(postscript_drawing::Error::MissingComponent(194))
        ),
        "no accent",
    );
}

/// A font of `.notdef`, A, grave, a circumflex that is a `seac` glyph itself, `1 2 193 65 endchar`, and a glyph of A
/// and it.
const NESTED: &str =
    "01000401000101010246000101010d958bdecb05aa0f8bd712b31100000000000022007c007e00ac00050101020910161c0e\
    9516bd06bd070e9f16c706c7070e8c8df755cc0e8e8fccf7570e";

/// A component that is a `seac` glyph keeps its own components, and is drawn as before.
#[test]
fn components_of_components(rt: HostRuntime) {
    let alloc = rt.alloc();
    let bytes = bytes_of(&rt, alloc, NESTED);
    keeps(&rt, alloc, bytes.as_slice(), 4, &[0, 1, 2, 3, 4]);
    keeps(&rt, alloc, bytes.as_slice(), 3, &[0, 1, 2, 3]);
    let cut = subset(alloc, bytes.as_slice(), &[4]).expect(&rt, "a subset");
    draws(&rt, alloc, bytes.as_slice(), 3, 8);
    draws(&rt, alloc, cut.as_slice(), 3, 8);
    let font = FontView::read(alloc, cut.as_slice()).expect(&rt, "a font");
    let mut limit = LIMIT;
    let refused = outline_of(alloc, &font, 4, &mut limit);
    holds(
        &rt,
        matches!(refused, Err(postscript_drawing::Error::NestedAccent(195))),
        "nested",
    );
}

/// A font whose Private DICT has no bytes, and an offset past the end.
const NO_PRIVATE: &str = "010004040001020001000246000102000100181d0000002e0f1d00000035111d00000000 \
    1d000186a01200000000000022007c00ab00040200010002000a001200180e959515bd06bd070e9f9f15c706c7070e8e8fccf7550e9214";

/// Fonts whose charset ends with the table before it names all glyphs: after a range of one glyph, and inside it.
const SHORT_SETS: [&str; 2] = [
    "010004040001020001000246000102000100181d000000540f1d0000002e111d000000021d00000052120000000000040200 \
    010002000a001200180e959515bd06bd070e9f9f15c706c7070e8e8fccf7550e921401002200",
    "010004040001020001000246000102000100181d000000540f1d0000002e111d000000021d00000052120000000000040200 \
    010002000a001200180e959515bd06bd070e9f9f15c706c7070e8e8fccf7550e9214010022",
];

/// A font without subroutines has `glyphs` glyphs, all with names.
fn names<R: Abort>(rt: &R, alloc: Global, bytes: &[u8], named: usize) {
    let font = FontView::read(alloc, bytes).expect(rt, "a font");
    let set = font.char_set().expect(rt, "a char set");
    let mut count = 0usize;
    for glyph in 0..font.char_strings.len() {
        if set.identifier(glyph).is_some() {
            count = count.saturating_add(1);
        }
    }
    holds_at(rt, count == named, "names", count);
}

/// Private DICTs without bytes may have any offset, and charsets may name only some of the glyphs.
#[test]
fn odd_fonts_written(rt: HostRuntime) {
    let alloc = rt.alloc();
    let bytes = bytes_of(&rt, alloc, NO_PRIVATE);
    let flat = flat_font(alloc, bytes.as_slice()).expect(&rt, "a flat font");
    names(&rt, alloc, flat.as_slice(), 4);
    let cut = subset(alloc, bytes.as_slice(), &[1]).expect(&rt, "a subset");
    names(&rt, alloc, cut.as_slice(), 2);
    for (named, digits) in [2usize, 1].iter().zip(SHORT_SETS) {
        let bytes = bytes_of(&rt, alloc, digits);
        let flat = flat_font(alloc, bytes.as_slice()).expect(&rt, "a flat font");
        names(&rt, alloc, flat.as_slice(), *named);
        let kept = subset_keeping(alloc, bytes.as_slice(), &[1]).expect(&rt, "a subset");
        names(&rt, alloc, kept.as_slice(), *named);
    }
}

/// Fonts whose Top DICT has an operator twice: `Encoding`, `charset` and `FullName`. For each the first operation of the
/// new Top DICT, which is the last one of that operator, and the size of the new Top DICT.
const TWICE: &[(&str, &str, usize)] = &[
    (
        "010004040001040000000100000006536d616c6c00010400000001000000241d000000460f1d0000004d101d00000052111d0000000c\
        1d00000093121d000000001000000000000022002300240003414243000404000000010000000b00000016000000200000002b8b8b15\
        9506950781060e9f8c8d15a906a9076d060e8e8f15bd06bd0759060e86909115d106d10745060e1d000001f4141d0000025815",
        "1d0000000010",
        29,
    ),
    (
        "010004040001040000000100000006536d616c6c000104000000010000001e1d000000400f1d00000044111d0000000c1d0000008512\
        1d000000000f0000000001002202000404000000010000000b00000016000000200000002b8b8b159506950781060e9f8c8d15a906a9\
        076d060e8e8f15bd06bd0759060e86909115d106d10745060e1d000001f4141d0000025815",
        "1d000000000f",
        23,
    ),
    (
        "010004040001040000000100000006536d616c6c00010400000001000000241d00000188021d00000187021d000000590f1d00000060\
        111d0000000c1d000000a112000204000000010000000400000007412062432064000000002200230024000404000000010000000b00\
        000016000000200000002b8b8b159506950781060e9f8c8d15a906a9076d060e8e8f15bd06bd0759060e86909115d106d10745060e1d\
        000001f4141d0000025815",
        "1d0000018702",
        29,
    ),
];

/// The CID-keyed font [`CIDS_OF_LETTERS`] with `ROS` after the charset.
const LATE_ROS: &str = "01000404 0001 02 0001 0002 46 0001 02 0001 0028 \
        1d00000052 0f 1d00000187 1d00000188 8b 0c1e 1d00000059 11 1d00000085 0c24 1d00000080 0c25 \
        0002 02 0001 0006 000e 41646f6265 4964656e74697479 0000 00 0022 0023 0024 \
        0004 02 0001 0002 000a 0012 0019 0e 959515bd06bd070e 9f9f15c706c7070e 8b8b15efef050e 9214 \
        00 00000001 0002 02 0001 000c 0017 1d000000021d0000007e12 1d000000021d0000007e12";

/// The Top DICT of a font begins with these bytes, and has so many.
fn begins_with<R: Abort>(rt: &R, alloc: Global, bytes: &[u8], first: &str, count: usize) {
    let (_names, next) = IndexView::open(bytes, 4).expect(rt, "names");
    let (dictionaries, _next) = IndexView::open(bytes, next).expect(rt, "dictionaries");
    let dictionary = dictionaries.get(0).expect(rt, "a dictionary");
    let wanted = bytes_of(rt, alloc, first);
    holds(rt, dictionary.starts_with(wanted.as_slice()), first);
    holds_at(rt, dictionary.len() == count, "bytes", dictionary.len());
}

/// The stale first copy of an operator is left out, and `ROS` comes first.
#[test]
fn operators_written_once(rt: HostRuntime) {
    let alloc = rt.alloc();
    for (digits, first, count) in TWICE {
        let bytes = bytes_of(&rt, alloc, digits);
        let flat = flat_font(alloc, bytes.as_slice()).expect(&rt, "a flat font");
        begins_with(&rt, alloc, flat.as_slice(), first, *count);
        let kept = subset_keeping(alloc, bytes.as_slice(), &[1]).expect(&rt, "a subset");
        begins_with(&rt, alloc, kept.as_slice(), first, *count);
    }
    let bytes = bytes_of(&rt, alloc, LATE_ROS);
    let flat = flat_font(alloc, bytes.as_slice()).expect(&rt, "a flat font");
    begins_with(
        &rt,
        alloc,
        flat.as_slice(),
        "1d00000187 1d00000188 8b 0c1e",
        39,
    );
}

/// A font up to the CharStrings INDEX. Its global subroutine 2 runs 3,840 bytes: 16 times subroutine 1, which runs 16
/// times the 15 bytes of subroutine 0.
const CALLS: &str = "01000401 000101010241 00010101051c006e11 0000 0003 01 01113253 \
    8b0c128b0c128b0c128b0c128b0c120b \
    201d201d201d201d201d201d201d201d201d201d201d201d201d201d201d201d0b \
    211d211d211d211d211d211d211d211d211d211d211d211d211d211d211d211d0b ";

/// A charstring that calls subroutine 2 seventeen times, so that it has 65,281 bytes without calls. And one that calls it
/// once more, so that it has 69,121, more than the 65,535 that a charstring may have.
const CALLERS: [&str; 2] = [
    "0001 01 0124 221d221d221d221d221d221d221d221d221d221d221d221d221d221d221d221d221d0e",
    "0001 01 0126 221d221d221d221d221d221d221d221d221d221d221d221d221d221d221d221d221d221d0e",
];

/// A font is not written if a charstring is too long without calls.
#[test]
fn long_charstrings(rt: HostRuntime) {
    let alloc = rt.alloc();
    let bytes = join_bytes(&rt, alloc, CALLS, CALLERS[0]);
    let flat = flat_font(alloc, bytes.as_slice()).expect(&rt, "a flat font");
    has_glyphs(&rt, alloc, flat.as_slice(), 1);
    let bytes = join_bytes(&rt, alloc, CALLS, CALLERS[1]);
    let flat = flat_font(alloc, bytes.as_slice());
    holds(&rt, matches!(flat, Err(Error::LongGlyph(0))), "too long");
    let kept = subset_keeping(alloc, bytes.as_slice(), &[0]);
    holds(&rt, matches!(kept, Err(Error::LongGlyph(0))), "too long");
}
