//! Hand-made charstrings and static fonts, by the rules of the specifications.
use crate::checks::{holds, tables};
use crate::small::TABLE;
use postscript_base::Error as Cause;
use postscript_base::compact1::Operator;
use postscript_cff2::Font;
use postscript_instance::{
    AdvancesAt, Error, Naming, charstring, glyph, rounded, rounded_glyph, rounded_table, table,
};
use postscript_sfnt::Advances;
use postscript_type2::{Operand, Subroutines};
use postscript_variable::{Blends, Charstring};
use postscript_variable_font::Place;
use postscript_variation::AdvanceVariations;
use postscript_view::FontView;
use std::alloc::Global;
use std::process::Abort;

/// A charstring with these scalars.
fn charstring_with<'l>(code: &'l [u8], tables: &'l [Vec<u32>]) -> Charstring<'l> {
    Charstring {
        code,
        subroutines: Subroutines::lists(&[], &[]),
        blends: Blends { tables, index: 0 },
    }
}

/// Each row: a charstring of CFF2, a width, and the charstring of Type 2.
#[test]
fn rows(rt: HostRuntime) {
    let tables = tables(&rt, rt.alloc());
    let rows: [(&[u8], Option<i16>, &[u8]); 9] = [
        // nothing: endchar; and with the width 500, which is 247 + (500 - 108) / 256 and the rest
        (&[], None, &[0x0e]),
        (&[], Some(500), &[0xf8, 0x88, 0x0e]),
        // 100 50 rmoveto
        (&[0xef, 0xbd, 0x15], None, &[0xef, 0xbd, 0x15, 0x0e]),
        (
            &[0xef, 0xbd, 0x15],
            Some(-20),
            &[0x77, 0xef, 0xbd, 0x15, 0x0e],
        ),
        // 100 10 -20 1 blend 50 rmoveto: 100 + 10 / 2 - 20 / 4
        (
            &[0xef, 0x95, 0x77, 0x8c, 0x10, 0xbd, 0x15],
            None,
            &[0xef, 0xbd, 0x15, 0x0e],
        ),
        // 100 11 0 1 blend 50 rmoveto: 105.5
        (
            &[0xef, 0x96, 0x8b, 0x8c, 0x10, 0xbd, 0x15],
            None,
            &[0xff, 0, 105, 0x80, 0, 0xbd, 0x15, 0x0e],
        ),
        // 10 20 hstemhm 30 40 hintmask with one byte: the mask has two stems; 10 hmoveto
        (
            &[0x95, 0x9f, 0x12, 0xa9, 0xb3, 0x13, 0xc0, 0x95, 0x16],
            Some(1),
            &[
                0x8c, 0x95, 0x9f, 0x12, 0xa9, 0xb3, 0x13, 0xc0, 0x95, 0x16, 0x0e,
            ],
        ),
        // one operand too many is not taken: 7 100 50 rmoveto
        (&[0x92, 0xef, 0xbd, 0x15], None, &[0xef, 0xbd, 0x15, 0x0e]),
        // 28 fc 18 (-1000) vmoveto has a shorter spelling: 251 + (1000 - 108) / 256 and the rest
        (&[0x1c, 0xfc, 0x18, 0x04], None, &[0xfe, 0x7c, 0x04, 0x0e]),
    ];
    for (code, width, wanted) in rows {
        let width = width.map(|number: i16| Operand::from_int(number));
        let found = charstring(rt.alloc(), charstring_with(code, &tables), width).expect(
            &rt,
            "a charstring",
        );
        holds(&rt, found.as_slice() == wanted, "a charstring");
    }
}

/// Charstrings that are rejected, and the name of each error.
#[test]
fn refusals(rt: HostRuntime) {
    let tables = tables(&rt, rt.alloc());
    let width = Some(Operand::from_int(1));
    // an operator that CFF2 does not have
    let found = charstring(rt.alloc(), charstring_with(&[0x0e], &tables), None);
    holds(
        &rt,
        matches!(found, Err(Error::Font(Cause::UnknownOperator))),
        "endchar",
    );
    // a line before a move, with a width and without one
    let found = charstring(rt.alloc(), charstring_with(&[0x95, 0x06], &tables), width);
    holds(&rt, matches!(found, Err(Error::NoMove)), "hlineto");
    let found = charstring(rt.alloc(), charstring_with(&[0x95, 0x06], &tables), None);
    holds(&rt, matches!(found, Ok(_)), "hlineto");
    // the operands of 24 stems, and of 25, with a width and the 24, implied by a mask, with its four bytes
    let rows: [(usize, &[u8], Option<i16>, bool); 5] = [
        (48, &[0x12], None, true),
        (50, &[0x12], None, false),
        (48, &[0x12], Some(1), false),
        (48, &[0x13, 0, 0, 0], None, true),
        (50, &[0x13, 0, 0, 0, 0], None, false),
    ];
    for (count, operator, width, is_written) in rows {
        let mut code = Vec::new(rt.alloc());
        put_ones(&rt, &mut code, count);
        code.extend_from_slice(operator).expect(&rt, "memory");
        let width = width.map(|number: i16| Operand::from_int(number));
        let found = charstring(rt.alloc(), charstring_with(&code, &tables), width);
        holds(
            &rt,
            matches!(found, Ok(_)) == is_written,
            "how many operands",
        );
        holds(
            &rt,
            matches!(found, Err(Error::TooManyOperands)) != is_written,
            "how many operands",
        );
    }
}

/// Appends the number 1 `count` times.
fn put_ones<R: Abort>(rt: &R, code: &mut Vec<u8>, count: usize) {
    for _ in 0..count {
        code.push(0x8c).expect(rt, "memory");
    }
}

/// The numbers from 1 to 101, one byte each (Technical Note 5177, "Charstring Number Encoding").
const RISING: &[u8] = &[
    0x8c, 0x8d, 0x8e, 0x8f, 0x90, 0x91, 0x92, 0x93, 0x94, 0x95, 0x96, 0x97, 0x98, 0x99, 0x9a, 0x9b,
    0x9c, 0x9d, 0x9e, 0x9f, 0xa0, 0xa1, 0xa2, 0xa3, 0xa4, 0xa5, 0xa6, 0xa7, 0xa8, 0xa9, 0xaa, 0xab,
    0xac, 0xad, 0xae, 0xaf, 0xb0, 0xb1, 0xb2, 0xb3, 0xb4, 0xb5, 0xb6, 0xb7, 0xb8, 0xb9, 0xba, 0xbb,
    0xbc, 0xbd, 0xbe, 0xbf, 0xc0, 0xc1, 0xc2, 0xc3, 0xc4, 0xc5, 0xc6, 0xc7, 0xc8, 0xc9, 0xca, 0xcb,
    0xcc, 0xcd, 0xce, 0xcf, 0xd0, 0xd1, 0xd2, 0xd3, 0xd4, 0xd5, 0xd6, 0xd7, 0xd8, 0xd9, 0xda, 0xdb,
    0xdc, 0xdd, 0xde, 0xdf, 0xe0, 0xe1, 0xe2, 0xe3, 0xe4, 0xe5, 0xe6, 0xe7, 0xe8, 0xe9, 0xea, 0xeb,
    0xec, 0xed, 0xee, 0xef, 0xf0,
];

/// Appends the numbers from one index to another, and an operator.
fn put_numbers<R: Abort>(rt: &R, code: &mut Vec<u8>, from: usize, to: usize, operator: u8) {
    let numbers = RISING.get(from..to).expect(rt, "numbers");
    code.extend_from_slice(numbers).expect(rt, "memory");
    code.push(operator).expect(rt, "memory");
}

/// Appends pieces: for each, the numbers from one index to another, and its operator.
fn put_pieces<R: Abort>(rt: &R, code: &mut Vec<u8>, pieces: &[(usize, usize, u8)]) {
    for (from, to, operator) in pieces {
        put_numbers(rt, code, *from, *to, *operator);
    }
}

/// Path operators with more operands than a stack can have.
///
/// Each row is the operator, the number of its operands, and the pieces: the range of operands of each, and its
/// operator. Pieces contain whole lines or curves. If their directions alternate, a piece has an even number of them,
/// so that the next one begins along the axis of its operator.
///
/// The operand before the first curve of vvcurveto and hhcurveto is in the first piece. The operand after the last
/// curve of vhcurveto and hvcurveto is in the last piece. So are the line of rcurveline and the curve of rlinecurve.
#[test]
fn pieces(rt: HostRuntime) {
    let tables = tables(&rt, rt.alloc());
    let rows: [(u8, usize, &[(usize, usize, u8)]); 18] = [
        (0x05, 48, &[(0, 48, 0x05)]),
        (0x05, 50, &[(0, 48, 0x05), (48, 50, 0x05)]),
        (0x06, 48, &[(0, 48, 0x06)]),
        (0x06, 49, &[(0, 48, 0x06), (48, 49, 0x06)]),
        (0x07, 97, &[(0, 48, 0x07), (48, 96, 0x07), (96, 97, 0x07)]),
        (0x08, 54, &[(0, 48, 0x08), (48, 54, 0x08)]),
        (0x18, 44, &[(0, 44, 0x18)]),
        (0x18, 50, &[(0, 42, 0x08), (42, 50, 0x18)]),
        (0x18, 98, &[(0, 42, 0x08), (42, 84, 0x08), (84, 98, 0x18)]),
        (0x19, 50, &[(0, 42, 0x05), (42, 50, 0x19)]),
        (0x1a, 48, &[(0, 48, 0x1a)]),
        (0x1a, 49, &[(0, 45, 0x1a), (45, 49, 0x1a)]),
        (0x1a, 97, &[(0, 45, 0x1a), (45, 89, 0x1a), (89, 97, 0x1a)]),
        (0x1b, 52, &[(0, 44, 0x1b), (44, 52, 0x1b)]),
        (0x1b, 53, &[(0, 45, 0x1b), (45, 53, 0x1b)]),
        (0x1e, 49, &[(0, 40, 0x1e), (40, 49, 0x1e)]),
        (0x1f, 52, &[(0, 40, 0x1f), (40, 52, 0x1f)]),
        (0x1f, 101, &[(0, 40, 0x1f), (40, 80, 0x1f), (80, 101, 0x1f)]),
    ];
    for (operator, count, parts) in rows {
        // 2 hmoveto, and the operator
        let mut code = Vec::from_array(rt.alloc(), [0x8d, 0x16]).expect(&rt, "memory");
        put_numbers(&rt, &mut code, 0, count, operator);
        // the width 1, and the same in pieces
        let mut wanted = Vec::from_array(rt.alloc(), [0x8c, 0x8d, 0x16]).expect(&rt, "memory");
        put_pieces(&rt, &mut wanted, parts);
        wanted.push(0x0e).expect(&rt, "memory");
        let found = charstring(
            rt.alloc(),
            charstring_with(&code, &tables),
            Some(Operand::from_int(1)),
        )
        .expect(&rt, "a charstring");
        holds(
            &rt,
            found.as_slice() == wanted.as_slice(),
            "an operator in pieces",
        );
    }
}

/// A `hhea` table with two advances, and nothing else.
const HEADER: &[u8] = &[
    0x00, 0x01, 0x00, 0x00, 0x00, 0x00, 0x00, 0x00, 0x00, 0x00, 0x00, 0x00, 0x00, 0x00, 0x00, 0x00,
    0x00, 0x00, 0x00, 0x00, 0x00, 0x00, 0x00, 0x00, 0x00, 0x00, 0x00, 0x00, 0x00, 0x00, 0x00, 0x00,
    0x00, 0x00, 0x00, 0x02,
];

/// A `hmtx` table with the advances 600 and 500.
const METRICS: &[u8] = &[0x02, 0x58, 0x00, 0x00, 0x01, 0xf4, 0x00, 0x00];

/// A `HVAR` table whose store has one region, which rises from 0 to 1. The advances of two glyphs vary by 10 and -21.
const VARIED: &[u8] = &[
    0x00, 0x01, 0x00, 0x00, 0x00, 0x00, 0x00, 0x14, 0x00, 0x00, 0x00, 0x00, 0x00, 0x00, 0x00, 0x00,
    0x00, 0x00, 0x00, 0x00, 0x00, 0x01, 0x00, 0x00, 0x00, 0x0c, 0x00, 0x01, 0x00, 0x00, 0x00, 0x16,
    0x00, 0x01, 0x00, 0x01, 0x00, 0x00, 0x40, 0x00, 0x40, 0x00, 0x00, 0x02, 0x00, 0x00, 0x00, 0x01,
    0x00, 0x00, 0x0a, 0xeb,
];

/// The advances of these tables at a location, with or without a `HVAR` table.
fn advances_at<'l, R: Abort>(
    rt: &R,
    hvar: Option<&'l [u8]>,
    coordinates: &'l [i16],
) -> AdvancesAt<'l> {
    AdvancesAt {
        default: Advances::read(HEADER, METRICS).expect(rt, "advances"),
        variations: match hvar {
            Some(hvar) => Some(AdvanceVariations::read(hvar).expect(rt, "variations")),
            None => None,
        },
        coordinates,
    }
}

/// The table at a location, with advances and no names.
fn table_without_names<R: Abort>(
    rt: &R,
    alloc: Global,
    table_of: &[u8],
    hvar: Option<&[u8]>,
    coordinate: i16,
) -> Vec<u8> {
    let font = Font::read(table_of).expect(rt, "the font");
    let coordinates = [coordinate];
    let naming = Naming {
        font: b"Small",
        glyphs: None,
    };
    let advances = advances_at(rt, hvar, &coordinates);
    table(alloc, &font, &naming, &advances).expect(rt, "a table")
}

/// The table at locations on its axis. The second glyph is 100 10 -20 1 blend 50 rmoveto 10 20 rlineto -30 hlineto, and
/// the regions rise from 0 to 1 and from 0 to -1. The advances are 600 and 500 at the default. At 1/2 the first is 605.
/// The second is 490, since 489.5 is rounded up. The width 490 is spelled as 247 + 1 and 490 - 108 - 256.
#[test]
fn a_table_at_places(rt: HostRuntime) {
    let rows: [(i16, [u8; 3], [u8; 3]); 3] = [
        (0, [0xf8, 0xec, 0x0e], [0xf8, 0x88, 0xef]),
        (8192, [0xf8, 0xf1, 0x0e], [0xf8, 0x7e, 0xf4]),
        (-16384, [0xf8, 0xec, 0x0e], [0xf8, 0x88, 0xdb]),
    ];
    for (coordinate, first, begin) in rows {
        let bytes = table_without_names(&rt, rt.alloc(), TABLE, Some(VARIED), coordinate);
        let view = FontView::read(rt.alloc(), &bytes).expect(&rt, "a font");
        holds(
            &rt,
            view.names.get(0) == Some(b"Small".as_slice()),
            "the name",
        );
        holds(
            &rt,
            view.char_strings.get(0) == Some(first.as_slice()),
            "the first glyph",
        );
        let mut wanted = Vec::from_array(rt.alloc(), begin).expect(&rt, "memory");
        wanted
            .extend_from_slice(&[0xbd, 0x15, 0x95, 0x9f, 0x05, 0x6d, 0x06, 0x0e])
            .expect(&rt, "memory");
        holds(
            &rt,
            view.char_strings.get(1) == Some(wanted.as_slice()),
            "the second glyph",
        );
        holds(&rt, view.is_cid_keyed(), "by CIDs");
    }
}

/// Only the glyphs. In whole units the second is the same, since its numbers are whole, and there is no third.
#[test]
fn glyphs_alone(rt: HostRuntime) {
    let font = Font::read(TABLE).expect(&rt, "the font");
    let place = Place::of(rt.alloc(), font.store.as_ref(), &[0]).expect(&rt, "a place");
    let width = Some(Operand::from_int(500));
    let wanted = [
        0xf8, 0x88, 0xef, 0xbd, 0x15, 0x95, 0x9f, 0x05, 0x6d, 0x06, 0x0e,
    ];
    let exact = glyph(rt.alloc(), &font, 1, &place, width).expect(&rt, "a glyph");
    holds(&rt, exact.as_slice() == wanted.as_slice(), "a glyph");
    let whole = rounded_glyph(rt.alloc(), &font, 1, &place, width).expect(&rt, "a glyph");
    holds(&rt, whole.as_slice() == wanted.as_slice(), "in whole units");
    let past = glyph(rt.alloc(), &font, 2, &place, None);
    holds(
        &rt,
        matches!(past, Err(Error::NoGlyph(2))),
        "no third glyph",
    );
    let past = rounded_glyph(rt.alloc(), &font, 2, &place, None);
    holds(
        &rt,
        matches!(past, Err(Error::NoGlyph(2))),
        "no third glyph in whole units",
    );
}

/// Advances at locations. After the end of the list the last one is used, which does not vary there. A variation by
/// -609 gives -9, which is not a valid advance.
#[test]
fn advances(rt: HostRuntime) {
    let at = advances_at(&rt, Some(VARIED), &[16384]);
    holds(
        &rt,
        at.of(0) == 610 && at.of(1) == 479 && at.of(2) == 500,
        "at the end",
    );
    let all = at.operands(rt.alloc(), 3).expect(&rt, "advances");
    let wanted = [
        Operand::from_int(610),
        Operand::from_int(479),
        Operand::from_int(500),
    ];
    holds(&rt, all.as_slice() == wanted.as_slice(), "in 16.16 bits");
    let still = advances_at(&rt, None, &[16384]);
    holds(
        &rt,
        still.of(0) == 600 && still.of(1) == 500,
        "without HVAR",
    );
    // two words with one delta of two bytes each: -609 and 0
    let mut low = Vec::from_slice(rt.alloc(), VARIED).expect(&rt, "memory");
    low.truncate(44);
    low.extend_from_slice(&[0x00, 0x01, 0x00, 0x01, 0x00, 0x00, 0xfd, 0x9f, 0x00, 0x00])
        .expect(&rt, "memory");
    let at = advances_at(&rt, Some(&low), &[16384]);
    holds(&rt, at.of(0) == -9, "below 0");
    let found = at.operands(rt.alloc(), 2);
    holds(&rt, matches!(found, Err(Error::Advance(0))), "no room");
}

/// A hand-made table of three glyphs. Its Top DICT has FontMatrix 0.0005 0 0 0.0005 0 0. Its two Font DICTs have
/// Private DICTs with StdVW 80 and 90. By FDSelect the second glyph has the second one. fontTools 4.38 reads it so.
const TWO: &[u8] = &[
    0x02, 0x00, 0x05, 0x00, 0x22, 0x1e, 0xa0, 0x00, 0x5f, 0x8b, 0x8b, 0x1e, 0xa0, 0x00, 0x5f, 0x8b,
    0x8b, 0x0c, 0x07, 0x1d, 0x00, 0x00, 0x00, 0x2b, 0x11, 0x1d, 0x00, 0x00, 0x00, 0x3d, 0x0c, 0x24,
    0x1d, 0x00, 0x00, 0x00, 0x39, 0x0c, 0x25, 0x00, 0x00, 0x00, 0x00, 0x00, 0x00, 0x00, 0x03, 0x01,
    0x01, 0x01, 0x04, 0x06, 0xef, 0xbd, 0x15, 0x95, 0x16, 0x00, 0x00, 0x01, 0x00, 0x00, 0x00, 0x00,
    0x02, 0x01, 0x01, 0x08, 0x0f, 0x8d, 0x1d, 0x00, 0x00, 0x00, 0x53, 0x12, 0x8d, 0x1d, 0x00, 0x00,
    0x00, 0x55, 0x12, 0xdb, 0x0b, 0xe5, 0x0b,
];

/// FontMatrix, FDSelect and the Private DICTs of a static table. The Top DICT begins at 19, after the header, an INDEX
/// with the name `Small`, and the count and the offsets of its own INDEX. Its FontMatrix is after the nine bytes of
/// ROS.
#[test]
fn matrix_and_font_dictionaries(rt: HostRuntime) {
    let bytes = table_without_names(&rt, rt.alloc(), TWO, None, 0);
    let matrix = bytes.get(28..42);
    holds(
        &rt,
        matrix.is_some() && matrix == TWO.get(5..19),
        "FontMatrix",
    );
    let view = FontView::read(rt.alloc(), &bytes).expect(&rt, "a font");
    for (glyph, dictionary, stem) in [(0, 0, 80), (1, 1, 90), (2, 0, 80)] {
        holds(&rt, view.part_of(glyph) == Some(dictionary), "FDSelect");
        let private = view.private(glyph).expect(&rt, "a Private DICT");
        let width = private.get_single(Operator::StdVW).expect(&rt, "StdVW");
        holds(&rt, width.to_i32() == Some(stem), "StdVW");
    }
}

/// The same table with FontMatrix 0.0005123456789012345678 0 0 0.0005 0 0, whose first number has 19 significant digits.
fn with_long_matrix<R: Abort>(rt: &R, alloc: Global) -> Vec<u8> {
    let long = [
        0x1e, 0xa0, 0x00, 0x51, 0x23, 0x45, 0x67, 0x89, 0x01, 0x23, 0x45, 0x67, 0x8f,
    ];
    let mut bytes = Vec::new(alloc);
    bytes.extend_from_slice(&TWO[..5]).expect(rt, "memory");
    bytes.extend_from_slice(&long).expect(rt, "memory");
    bytes.extend_from_slice(&TWO[9..]).expect(rt, "memory");
    // the size of the Top DICT, and all offsets after it, are 9 more
    let offsets = [
        (4, 0x2b),
        (32, 0x34),
        (38, 0x46),
        (45, 0x42),
        (83, 0x5c),
        (90, 0x5e),
    ];
    for (place, byte) in offsets {
        if let Some(slot) = bytes.get_mut(place) {
            *slot = byte;
        }
    }
    bytes
}

/// A FontMatrix with more digits than a reader takes. The first 18 significant digits stay.
#[test]
fn long_matrix(rt: HostRuntime) {
    let source = with_long_matrix(&rt, rt.alloc());
    let bytes = table_without_names(&rt, rt.alloc(), &source, None, 0);
    let wanted = [
        0x1e, 0xa0, 0x00, 0x51, 0x23, 0x45, 0x67, 0x89, 0x01, 0x23, 0x45, 0x67, 0xff, 0x8b, 0x8b,
        0x1e, 0xa0, 0x00, 0x5f, 0x8b, 0x8b, 0x0c, 0x07,
    ];
    let matrix = bytes.get(28..51);
    holds(&rt, matrix == Some(wanted.as_slice()), "18 digits");
    let view = FontView::read(rt.alloc(), &bytes).expect(&rt, "a font");
    holds(&rt, view.part_of(1) == Some(1), "FDSelect");
}

/// The same table with hints in its Private DICT. These are `vsindex` 1, BlueValues -10 10 blended by 3 0 and 0 0,
/// StdVW 80 blended by 20 0, and BlueScale 0.039625. fontTools 4.38 reads it so.
const HINTED: &[u8] = &[
    0x02, 0x00, 0x05, 0x00, 0x13, 0x1d, 0x00, 0x00, 0x00, 0x22, 0x11, 0x1d, 0x00, 0x00, 0x00, 0x35,
    0x0c, 0x24, 0x1d, 0x00, 0x00, 0x00, 0x66, 0x18, 0x00, 0x00, 0x00, 0x01, 0x01, 0x01, 0x04, 0x95,
    0x9f, 0x05, 0x00, 0x00, 0x00, 0x02, 0x01, 0x01, 0x01, 0x0c, 0xef, 0x95, 0x77, 0x8c, 0x10, 0xbd,
    0x15, 0x20, 0x1d, 0x20, 0x0a, 0x00, 0x00, 0x00, 0x01, 0x01, 0x01, 0x08, 0xa5, 0x1d, 0x00, 0x00,
    0x00, 0x43, 0x12, 0x8c, 0x16, 0x81, 0x95, 0x8e, 0x8b, 0x8b, 0x8b, 0x8d, 0x17, 0x06, 0xdb, 0x9f,
    0x8b, 0x8c, 0x17, 0x0b, 0x1e, 0xa0, 0x39, 0x62, 0x5f, 0x0c, 0x09, 0xa5, 0x13, 0x00, 0x00, 0x00,
    0x01, 0x01, 0x01, 0x03, 0x6d, 0x06, 0x00, 0x32, 0x00, 0x01, 0x00, 0x00, 0x00, 0x10, 0x00, 0x02,
    0x00, 0x00, 0x00, 0x20, 0x00, 0x00, 0x00, 0x28, 0x00, 0x01, 0x00, 0x02, 0x00, 0x00, 0x40, 0x00,
    0x40, 0x00, 0xc0, 0x00, 0xc0, 0x00, 0x00, 0x00, 0x00, 0x00, 0x00, 0x00, 0x00, 0x01, 0x00, 0x00,
    0x00, 0x00, 0x00, 0x00, 0x00, 0x02, 0x00, 0x00, 0x00, 0x01,
];

/// The names of its glyphs, of which one is not a standard string.
const NAMES: [&[u8]; 2] = [b".notdef", b"alpha"];

/// The table of a font at a location, with these glyph names.
fn table_with_names<R: Abort>(
    rt: &R,
    alloc: Global,
    table_of: &[u8],
    names: &[&[u8]],
    coordinate: i16,
) -> Vec<u8> {
    let font = Font::read(table_of).expect(rt, "the font");
    let coordinates = [coordinate];
    let advances = advances_at(rt, None, &coordinates);
    let naming = Naming {
        font: b"Small",
        glyphs: Some(names),
    };
    table(alloc, &font, &naming, &advances).expect(rt, "a table")
}

/// The table at a location, with names.
fn named_table<R: Abort>(rt: &R, alloc: Global, coordinate: i16) -> Vec<u8> {
    table_with_names(rt, alloc, HINTED, &NAMES, coordinate)
}

/// The hints at locations. At 1/2 the zone is from -8.5 to 1.5, and so from -8 to 2, and the stem is 90 wide. At -1 the
/// second region is 1, and all hints are as at the default. At 1 the zone is from -7 to 3, and the stem is 100 wide.
/// The Private DICT is the last part.
#[test]
fn hints_at_places(rt: HostRuntime) {
    let rows: [(i16, [u8; 3], u8); 4] = [
        (0, [0x81, 0x95, 0x06], 0xdb),
        (8192, [0x83, 0x95, 0x06], 0xe5),
        (16384, [0x84, 0x95, 0x06], 0xef),
        (-16384, [0x81, 0x95, 0x06], 0xdb),
    ];
    for (coordinate, zone, stem) in rows {
        let bytes = named_table(&rt, rt.alloc(), coordinate);
        let mut wanted = Vec::from_array(rt.alloc(), zone).expect(&rt, "memory");
        let rest = [
            stem, 0x0b, 0x1e, 0xa0, 0x39, 0x62, 0x5f, 0x0c, 0x09, 0x8b, 0x14, 0x8b, 0x15,
        ];
        wanted.extend_from_slice(&rest).expect(&rt, "memory");
        holds(&rt, bytes.ends_with(&wanted), "the hints");
    }
}

/// The same table with BlueScale 0.03712345678912345678, which has 19 significant digits.
fn with_long_real<R: Abort>(rt: &R, alloc: Global) -> Vec<u8> {
    let long = [
        0x1e, 0xa0, 0x37, 0x12, 0x34, 0x56, 0x78, 0x91, 0x23, 0x45, 0x67, 0x8f,
    ];
    let mut bytes = Vec::new(alloc);
    bytes.extend_from_slice(&HINTED[..84]).expect(rt, "memory");
    bytes.extend_from_slice(&long).expect(rt, "memory");
    bytes.extend_from_slice(&HINTED[89..]).expect(rt, "memory");
    // the offset of the item variation store, the size of the Private DICT, and Subrs are 7 more
    for (place, byte) in [(22, 0x6d), (60, 0xac), (98, 0xac)] {
        if let Some(slot) = bytes.get_mut(place) {
            *slot = byte;
        }
    }
    bytes
}

/// A real with more digits than a reader takes. The first 18 significant digits stay.
#[test]
fn long_reals(rt: HostRuntime) {
    let source = with_long_real(&rt, rt.alloc());
    let bytes = table_with_names(&rt, rt.alloc(), &source, &NAMES, 0);
    let wanted = [
        0xdb, 0x0b, 0x1e, 0xa0, 0x37, 0x12, 0x34, 0x56, 0x78, 0x91, 0x23, 0x45, 0x67, 0xff, 0x0c,
        0x09, 0x8b, 0x14, 0x8b, 0x15,
    ];
    holds(&rt, bytes.ends_with(&wanted), "18 digits of BlueScale");
}

/// The names of glyphs, and the same table in whole units, since all its numbers are whole.
#[test]
fn names_of_glyphs(rt: HostRuntime) {
    let bytes = named_table(&rt, rt.alloc(), 0);
    let view = FontView::read(rt.alloc(), &bytes).expect(&rt, "a font");
    let set = view.char_set().expect(&rt, "a char set");
    holds(
        &rt,
        view.name(&set, 0) == Some(b".notdef".as_slice()),
        "the first",
    );
    holds(
        &rt,
        view.name(&set, 1) == Some(b"alpha".as_slice()),
        "the second",
    );
    let font = Font::read(HINTED).expect(&rt, "the font");
    let advances = advances_at(&rt, None, &[0]);
    let naming = Naming {
        font: b"Small",
        glyphs: Some(&NAMES),
    };
    let whole = rounded_table(rt.alloc(), &font, &naming, &advances).expect(&rt, "a table");
    holds(&rt, whole.as_slice() == bytes.as_slice(), "in whole units");
    let naming = Naming {
        font: b"Small",
        glyphs: Some(&NAMES[..1]),
    };
    let few = table(rt.alloc(), &font, &naming, &advances);
    holds(&rt, matches!(few, Err(Error::OtherNames)), "one name");
}

/// Appends numbers in eighths of a unit as 16.16 numbers after ff.
fn put_eighths<R: Abort>(rt: &R, code: &mut Vec<u8>, numbers: &[i32]) {
    for number in numbers {
        code.push(0xff).expect(rt, "memory");
        let bits = number.wrapping_mul(8192);
        code.extend_from_slice(&bits.to_be_bytes())
            .expect(rt, "memory");
    }
}

/// Operators in whole units. Each row has operators with their operands in eighths of a unit, and the bytes of the mask
/// after them. The last column is the charstring in whole units. A number n from -107 to 107 is the byte 139 + n.
#[test]
fn whole_units(rt: HostRuntime) {
    let tables = tables(&rt, rt.alloc());
    let rows: [(&[(&[i32], &[u8])], &[u8]); 12] = [
        // halves go up: 0.5, -0.5 and -1.5
        (&[(&[4], &[0x16])], &[0x8c, 0x16, 0x0e]),
        (&[(&[-4], &[0x16])], &[0x8b, 0x16, 0x0e]),
        (&[(&[-12], &[0x04])], &[0x8a, 0x04, 0x0e]),
        // three lines of 0.375 each end at 0.375, 0.75 and 1.125: at 0, 1 and 1
        (
            &[(&[0], &[0x16]), (&[3, 0, 3, 0, 3, 0], &[0x05])],
            &[0x8b, 0x16, 0x8b, 0x8b, 0x8c, 0x8b, 0x8b, 0x8b, 0x05, 0x0e],
        ),
        // a triangle from (0.375, 0.375) by (10.625, 0.625) and (10.875, 10.875) is closed: (0, 0), (11, 1), (11, 11)
        (
            &[(&[3, 3], &[0x15]), (&[82, 2, 2, 82, -84, -84], &[0x05])],
            &[
                0x8b, 0x8b, 0x15, 0x96, 0x8c, 0x8b, 0x95, 0x80, 0x80, 0x05, 0x0e,
            ],
        ),
        // lines in turn, from (0.5, 0): 0.5 up, 0.5 right, 0.5 up
        (
            &[(&[4], &[0x16]), (&[4, 4, 4], &[0x07])],
            &[0x8c, 0x16, 0x8c, 0x8b, 0x8b, 0x07, 0x0e],
        ),
        // stems from 10.375 to 30.75 and from 36 to 39.5; then the stems of a mask, a ghost from 0.5 down by 20
        (
            &[(&[83, 163, 42, 28], &[0x12]), (&[4, -160], &[0x13, 0xe0])],
            &[0x95, 0xa0, 0x90, 0x8f, 0x12, 0x8c, 0x77, 0x13, 0xe0, 0x0e],
        ),
        // 0.5 1.25 0.5 0.5 1.25 hhcurveto: y at 0.5, x at 1.25 and 1.75, y at 1, x at 3
        (
            &[(&[0], &[0x16]), (&[4, 10, 4, 4, 10], &[0x1b])],
            &[0x8b, 0x16, 0x8c, 0x8c, 0x8c, 0x8b, 0x8c, 0x1b, 0x0e],
        ),
        // 0.5 0.5 0.5 0.5 0.5 hvcurveto: x at 0.5 and 1, y at 0.5 and 1, x at 1.5
        (
            &[(&[0], &[0x16]), (&[4, 4, 4, 4, 4], &[0x1f])],
            &[0x8b, 0x16, 0x8c, 0x8b, 0x8c, 0x8b, 0x8c, 0x1f, 0x0e],
        ),
        // hflex is flex with a depth of 50: x at 0.5, 1, 1.5, 2, 2.5 and 3, y at 0, 0.5, 0.5, 0.5, 0 and 0
        (
            &[(&[0], &[0x16]), (&[4, 4, 4, 4, 4, 4, 4], &[0x0c, 0x22])],
            &[
                0x8b, 0x16, 0x8c, 0x8b, 0x8b, 0x8c, 0x8c, 0x8b, 0x8b, 0x8b, 0x8c, 0x8a, 0x8b, 0x8b,
                0xbd, 0x0c, 0x23, 0x0e,
            ],
        ),
        // flex1 goes 1.25 right and 1.125 up by five vectors, so its last operand is x, and y goes back: x at 0.25,
        // 0.5, 0.75, 1, 1.25 and 1.5, y at 0.25, 0.5, 0.75, 1, 1.125 and 0
        (
            &[
                (&[0], &[0x16]),
                (&[2, 2, 2, 2, 2, 2, 2, 2, 2, 1, 2], &[0x0c, 0x25]),
            ],
            &[
                0x8b, 0x16, 0x8b, 0x8b, 0x8c, 0x8c, 0x8b, 0x8b, 0x8b, 0x8b, 0x8b, 0x8b, 0x8c, 0x8a,
                0xbd, 0x0c, 0x23, 0x0e,
            ],
        ),
        // the depth of a flex stays: 30.5
        (
            &[
                (&[0], &[0x16]),
                (&[3, 0, 3, 0, 3, 0, 0, 0, 0, 0, 0, 0, 244], &[0x0c, 0x23]),
            ],
            &[
                0x8b, 0x16, 0x8b, 0x8b, 0x8c, 0x8b, 0x8b, 0x8b, 0x8b, 0x8b, 0x8b, 0x8b, 0x8b, 0x8b,
                0xff, 0, 30, 0x80, 0, 0x0c, 0x23, 0x0e,
            ],
        ),
    ];
    for (operators, wanted) in rows {
        let mut code = Vec::new(rt.alloc());
        for (operands, operator) in operators {
            put_eighths(&rt, &mut code, *operands);
            code.extend_from_slice(*operator).expect(&rt, "memory");
        }
        let found = rounded(rt.alloc(), charstring_with(&code, &tables), None).expect(
            &rt,
            "in whole units",
        );
        holds(&rt, found.as_slice() == wanted, "in whole units");
    }
}

/// The width stays as it is given. In whole units 32767.5 is out of range, but 32767.25 and -32768 are not.
#[test]
fn whole_units_in_range(rt: HostRuntime) {
    let tables = tables(&rt, rt.alloc());
    let half = Some(Operand::from_bits(32768));
    let found = rounded(rt.alloc(), charstring_with(&[0x8b, 0x16], &tables), half).expect(
        &rt, "a width",
    );
    holds(
        &rt,
        found.as_slice() == [0xff, 0, 0, 0x80, 0, 0x8b, 0x16, 0x0e].as_slice(),
        "a width",
    );
    let found = rounded(rt.alloc(), charstring_with(&[0x8b, 0x06], &tables), half);
    holds(&rt, matches!(found, Err(Error::NoMove)), "no move");
    for (eighths, is_near) in [(262138, true), (262140, false), (-262144, true)] {
        let mut code = Vec::new(rt.alloc());
        put_eighths(&rt, &mut code, &[eighths]);
        code.push(0x16).expect(&rt, "memory");
        let found = rounded(rt.alloc(), charstring_with(&code, &tables), None);
        holds(&rt, matches!(found, Ok(_)) == is_near, "how far");
        holds(
            &rt,
            matches!(found, Err(Error::TooFar)) != is_near,
            "how far",
        );
    }
}

/// A hand-made table of seven glyphs without operators. The charstrings are at 22, a Font DICT at 35, and its Private
/// DICT at 49, with StdVW 80. fontTools 4.38 reads it so.
const SEVEN: &[u8] = &[
    0x02, 0x00, 0x05, 0x00, 0x0d, 0x1d, 0x00, 0x00, 0x00, 0x16, 0x11, 0x1d, 0x00, 0x00, 0x00, 0x23,
    0x0c, 0x24, 0x00, 0x00, 0x00, 0x00, 0x00, 0x00, 0x00, 0x07, 0x01, 0x01, 0x01, 0x01, 0x01, 0x01,
    0x01, 0x01, 0x01, 0x00, 0x00, 0x00, 0x01, 0x01, 0x01, 0x08, 0x8d, 0x1d, 0x00, 0x00, 0x00, 0x31,
    0x12, 0xdb, 0x0b,
];

/// The same with three glyphs: the Font DICT is at 31, and its Private DICT at 45.
const THREE: &[u8] = &[
    0x02, 0x00, 0x05, 0x00, 0x0d, 0x1d, 0x00, 0x00, 0x00, 0x16, 0x11, 0x1d, 0x00, 0x00, 0x00, 0x1f,
    0x0c, 0x24, 0x00, 0x00, 0x00, 0x00, 0x00, 0x00, 0x00, 0x03, 0x01, 0x01, 0x01, 0x01, 0x01, 0x00,
    0x00, 0x00, 0x01, 0x01, 0x01, 0x08, 0x8d, 0x1d, 0x00, 0x00, 0x00, 0x2d, 0x12, 0xdb, 0x0b,
];

/// Charsets. A, B, C, D are 34 to 37, and names that are not standard strings begin with 391. In ranges six of them
/// take 9 bytes. The two of the other row take fewer in a list.
#[test]
fn char_sets(rt: HostRuntime) {
    let long: [&[u8]; 7] = [b".notdef", b"A", b"B", b"C", b"D", b"alpha", b"beta"];
    let short: [&[u8]; 3] = [b".notdef", b"A", b"alpha"];
    let rows: [(&[u8], &[&[u8]], &[u8]); 2] = [
        (SEVEN, &long, &[2, 0, 34, 0, 3, 1, 0x87, 0, 1]),
        (THREE, &short, &[0, 0, 34, 1, 0x87]),
    ];
    for (font, names, wanted) in rows {
        let bytes = table_with_names(&rt, rt.alloc(), font, names, 0);
        let view = FontView::read(rt.alloc(), &bytes).expect(&rt, "a font");
        let place = view.dictionary.get_single(Operator::CharSet);
        let place = place
            .and_then(|place| place.to_i32())
            .expect(&rt, "a place");
        let place = usize::try_from(place).expect(&rt, "a place");
        let set = bytes.get(place..).expect(&rt, "a char set");
        holds(&rt, set.starts_with(wanted), "the char set");
    }
}
