//! Each example once.
use crate::checks::{bytes_of, holds};
use postscript::compact1::{FontSet, Operations, Operator as Key};
use postscript::type2::{Operand, Operator, Program};
use postscript::{Error, Value};
use postscript_examples::advances::advance;
use postscript_examples::dictionaries::{dictionary_of, italic_angle, texts_of};
use postscript_examples::flat::{flat, flat_glyphs_of};
use postscript_examples::fonts::{font_of, glyphs_of, names_of};
use postscript_examples::glyphs::{Glyph, each_glyph, glyph, operand_count, operators, pass};
use postscript_examples::own_tapes::{Counted, held_font};
use postscript_examples::readers::{
    Rising, Run, Size, offsets, private_size, runs, texts, word_at, words,
};
use postscript_examples::tapes::{first_byte_twice, first_number};
use std::alloc::Global;
use std::io::Cursor;
use std::process::Abort;

/// The width 3, a move by 1 and 2, and a call of the subroutine with the number -107.
const CODE: [u8; 7] = [0x8e, 0x8c, 0x8d, 0x15, 0x20, 0x0a, 0x0e];

/// A line of 1, and a return.
const LINE: &str = "8c060b";

/// The same glyph without a call: the subroutine number and the return's zero are dropped.
const FLAT: [u8; 13] = [
    0x8e, 0x8c, 0x8d, 0x15, 0x20, 0x0c, 0x12, 0x8c, 0x06, 0x8b, 0x0c, 0x12, 0x0e,
];

/// A font of the name A with this glyph. After the header and the names come the Top DICT (`CharStrings` at 24, `Private`
/// of 2 bytes at 36), no strings and no global subroutines. Then come the charstrings, the Private DICT (`Subrs` 2 after
/// it) and the subroutine.
const FONT: [u8; 46] = [
    1, 0, 4, 1, 0, 1, 1, 1, 2, 0x41, 0, 1, 1, 1, 6, 0xa3, 0x11, 0x8d, 0xaf, 0x12, 0, 0, 0, 0, 0, 1,
    1, 1, 8, 0x8e, 0x8c, 0x8d, 0x15, 0x20, 0x0a, 0x0e, 0x8d, 0x13, 0, 1, 1, 1, 4, 0x8c, 0x06, 0x0b,
];

/// The same font with nominalWidthX 100 in its Private DICT, which has 4 bytes (`Subrs` 4 after it).
const WIDE: [u8; 48] = [
    1, 0, 4, 1, 0, 1, 1, 1, 2, 0x41, 0, 1, 1, 1, 6, 0xa3, 0x11, 0x8f, 0xaf, 0x12, 0, 0, 0, 0, 0, 1,
    1, 1, 8, 0x8e, 0x8c, 0x8d, 0x15, 0x20, 0x0a, 0x0e, 0xef, 0x15, 0x8f, 0x13, 0, 1, 1, 1, 4, 0x8c,
    0x06, 0x0b,
];

#[test]
fn numbers_and_bytes(rt: HostRuntime) {
    let alloc = rt.alloc();
    let number = first_number(alloc, &[0x12, 0x34, 0x56]);
    holds(&rt, matches!(number, Ok(0x1234)), "a number");
    let cut = first_number(alloc, &[0x12]);
    holds(&rt, matches!(cut, Err(Error::UnexpectedEof)), "a cut one");
    let bytes = Vec::from_slice(alloc, &[7]).expect(&rt, "memory");
    let twice = first_byte_twice(alloc, bytes);
    holds(&rt, matches!(twice, Ok((7, 7))), "a byte twice");
}

/// An operand that is a whole number.
fn whole(number: i16) -> Operand {
    Operand::from_int(number)
}

/// Whether a glyph is the one of `CODE`.
fn is_it(glyph: &Glyph) -> bool {
    let (operations, width) = glyph;
    match operations.as_slice() {
        [(Operator::RMoveTo, to), (Operator::HLineTo, line)] => {
            *width == Some(whole(3))
                && to.as_slice() == [whole(1), whole(2)].as_slice()
                && line.as_slice() == [whole(1)].as_slice()
        }
        _ => false,
    }
}

/// Whether a code draws it with these local subroutines.
fn draws_it<R: Abort>(rt: &R, alloc: Global, code: &[u8], local: &[Vec<u8>]) -> bool {
    is_it(&glyph(alloc, code, &[], local).expect(rt, "a glyph"))
}

/// Whether `CODE` has three operands and the width 3 with these local subroutines.
fn is_counted<R: Abort>(rt: &R, alloc: Global, local: &[Vec<u8>]) -> bool {
    let counted = operand_count(alloc, &CODE, &[], local);
    counted.expect(rt, "a count") == (3, Some(whole(3)))
}

/// Whether the first operation of `CODE` is passed as a move by two operands, with the width 3.
fn is_passed(alloc: Global, local: &[Vec<u8>]) -> bool {
    let mut program = Program::new(alloc, &CODE, &[], local);
    let moves = matches!(pass(&mut program), Ok(Some((Operator::RMoveTo, 2))));
    moves && program.width() == Some(whole(3))
}

/// Whether the operators of `CODE` are a move and a line.
fn are_its_operators<R: Abort>(rt: &R, alloc: Global, local: &[Vec<u8>]) -> bool {
    let found = operators(alloc, &CODE, &[], local).expect(rt, "operators");
    matches!(found.as_slice(), [Operator::RMoveTo, Operator::HLineTo])
}

/// Whether `CODE` has the flattened code `FLAT` with these local subroutines, and `FLAT` draws it with none.
fn is_flat<R: Abort>(rt: &R, alloc: Global, local: &[Vec<u8>]) -> bool {
    let code = flat(alloc, &CODE, &[], local).expect(rt, "flat code");
    code.as_slice() == FLAT.as_slice() && draws_it(rt, alloc, &code, &[])
}

#[test]
fn a_glyph(rt: HostRuntime) {
    let alloc = rt.alloc();
    let refused = glyph(alloc, &CODE, &[], &[]);
    let is_so = matches!(refused, Err(Error::MissingSubroutine));
    holds(&rt, is_so, "no subroutine");
    let line = bytes_of(&rt, alloc, LINE);
    let local = Vec::from_array(alloc, [line]).expect(&rt, "memory");
    holds(&rt, draws_it(&rt, alloc, &CODE, &local), "the glyph");
    holds(&rt, is_counted(&rt, alloc, &local), "its operands");
    holds(&rt, is_passed(alloc, &local), "its first operation");
    holds(&rt, are_its_operators(&rt, alloc, &local), "its operators");
    holds(&rt, is_flat(&rt, alloc, &local), "its flat code");
}

/// Whether this text is the only one.
fn are(texts: &[String], wanted: &str) -> bool {
    match texts {
        [text] => text.as_str() == wanted,
        _ => false,
    }
}

/// Whether there is exactly the glyph of `CODE`.
fn is_it_alone(glyphs: &[Glyph]) -> bool {
    match glyphs {
        [glyph] => is_it(glyph),
        _ => false,
    }
}

/// Whether the glyph of `CODE` is the only one in a font, in its first dictionary.
fn has_the_glyph<R: Abort>(rt: &R, alloc: Global, font: &FontSet) -> bool {
    let first = glyphs_of(alloc, font, 0).expect(rt, "glyphs");
    let second = glyphs_of(alloc, font, 1).expect(rt, "no glyphs");
    is_it_alone(&first) && second.is_empty()
}

/// Whether its flattened code draws it with no subroutines.
fn has_it_flat<R: Abort>(rt: &R, alloc: Global, font: &FontSet) -> bool {
    let codes = flat_glyphs_of(alloc, font, 0).expect(rt, "flat codes");
    is_it_alone(&each_glyph(alloc, &codes, &[], &[]).expect(rt, "glyphs"))
}

#[test]
fn a_font(rt: HostRuntime) {
    let alloc = rt.alloc();
    let names = names_of(alloc, &FONT).expect(&rt, "names");
    holds(&rt, are(&names, "A"), "the name");
    let font = font_of(alloc, &FONT).expect(&rt, "a font");
    holds(&rt, has_the_glyph(&rt, alloc, &font), "the glyph");
    holds(&rt, has_it_flat(&rt, alloc, &font), "its flat code");
}

/// Whether the only glyph of a font has this advance, in whole units.
fn advances_by(alloc: Global, bytes: &[u8], units: i64) -> bool {
    let Ok(font) = font_of(alloc, bytes) else {
        return false;
    };
    let none = matches!(advance(alloc, &font, 0, 1), Ok(None));
    match advance(alloc, &font, 0, 0) {
        Ok(Some(found)) => none && found / 65536 == units && found % 65536 == 0,
        _ => false,
    }
}

#[test]
fn an_advance(rt: HostRuntime) {
    let alloc = rt.alloc();
    holds(&rt, advances_by(alloc, &FONT, 3), "no nominal width");
    holds(&rt, advances_by(alloc, &WIDE, 103), "a nominal width");
}

/// Whether the operands of a dictionary have only this text.
fn is_told<R: Abort>(rt: &R, alloc: Global, map: &Operations, key: Key, wanted: &str) -> bool {
    are(&texts_of(alloc, map, key).expect(rt, "texts"), wanted)
}

#[test]
fn a_dictionary(rt: HostRuntime) {
    let alloc = rt.alloc();
    // -12.5 as a real, and `ItalicAngle`.
    let map = dictionary_of(alloc, &[0x1e, 0xe1, 0x2a, 0x5f, 0x0c, 0x02]);
    let map = map.expect(&rt, "a dictionary");
    let angle = italic_angle(&map);
    holds(&rt, angle == Some((-125, -1)), "the angle");
    let is_so = is_told(&rt, alloc, &map, Key::ItalicAngle, "-125e-1");
    holds(&rt, is_so, "the text of the angle");
    // An operator that the dictionary does not have has its default.
    let is_so = is_told(&rt, alloc, &map, Key::BlueScale, "39625e-6");
    holds(&rt, is_so, "a default");
    let refused = dictionary_of(alloc, &[0xff]);
    let is_so = matches!(refused, Err(Error::UnknownOperator));
    holds(&rt, is_so, "no operator");
}

/// Whether a font that is read is the one of the name A.
fn is_named(font: Result<FontSet, Error>) -> bool {
    match font {
        Ok(font) => are(&font.names, "A"),
        Err(_) => false,
    }
}

#[test]
fn readers_of_ones_own(rt: HostRuntime) {
    let alloc = rt.alloc();
    let bytes = Vec::from_slice(alloc, &FONT).expect(&rt, "memory");
    holds(&rt, is_named(held_font(alloc, bytes)), "a held font");
    let mut counted = Counted {
        reader: Cursor::new(FONT.as_slice()),
        reads: 0,
    };
    let font = FontSet::read(alloc, &mut counted);
    holds(&rt, is_named(font), "a font that is counted");
    holds(&rt, counted.reads > 0, "its reads");
}

/// Two offsets, two runs of two glyphs each, texts of two bytes and of one, a size, and a number.
const PARTS: [u8; 13] = [0, 1, 0, 5, 1, 1, b'a', b'b', b'c', 0, 7, 0x12, 0x34];

/// Whether offsets are 1 and 5.
fn rise(offsets: &[Rising]) -> bool {
    match offsets {
        [first, second] => first.0 == 1 && second.0 == 5,
        _ => false,
    }
}

/// Whether two runs cover two glyphs each.
fn cover(runs: &[Run]) -> bool {
    match runs {
        [first, second] => first.0 == 1 && second.0 == 1,
        _ => false,
    }
}

/// Whether texts are `ab` and `c`.
fn are_two(texts: &[Vec<u8>]) -> bool {
    match texts {
        [first, second] => first.as_slice() == b"ab".as_slice()
            && second.as_slice() == b"c".as_slice(),
        _ => false,
    }
}

#[test]
fn loops_of_ones_own(rt: HostRuntime) {
    let alloc = rt.alloc();
    let mut tape = Cursor::new(PARTS.as_slice());
    let rising = offsets(alloc, &mut tape, 2).expect(&rt, "offsets");
    holds(&rt, rise(&rising), "offsets");
    let covering = runs(alloc, &mut tape, 4).expect(&rt, "runs");
    holds(&rt, cover(&covering), "runs");
    let two = texts(alloc, &mut tape, &[Size(2), Size(1)]).expect(&rt, "texts");
    holds(&rt, are_two(&two), "texts");
    let size = private_size(alloc, &mut tape).expect(&rt, "a size");
    let left = words(alloc, &mut tape).expect(&rt, "words");
    let first = word_at(alloc, &mut tape, 0).expect(&rt, "a word");
    holds(&rt, size == 7 && first == 1, "a size, and the first word");
    holds(
        &rt,
        left.as_slice() == [0x1234].as_slice(),
        "the words left",
    );
}
