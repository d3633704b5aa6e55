//! Dictionaries: their operators, their operations, and the map that they make.
use crate::checks::{Wanted, holds, holds_at, put_shown, read};
use crate::common::code_of;
use crate::errors::is_named;
use crate::tapes::{Trouble, TroubledTape};
use postscript::compact1::{Operand, Operands, Operation, Operations, Operator};
use postscript::{Result, Tape};
use std::alloc::Global;
use std::io::Cursor;
use std::process::Abort;

/// Bytes, and each operator with its operands as texts, or the code of the error.
type Row = (&'static [u8], Wanted<&'static [(Operator, &'static str)]>);

#[rattlefmt::skip]
const ROWS: &[Row] = &[
    (&[0x8b], Ok(&[])),
    (&[0x8c, 0x00, 0x8d, 0x00], Ok(&[(Operator::Version, "2")])),
    (&[0x0c], Ok(&[])),
    (&[], Ok(&[])),
    (&[0xff], Err(9)),
    (&[0x8c, 0x8d, 0x12, 0x8b, 0x12], Ok(&[(Operator::Private, "0")])),
    (&[0x0c, 0x06], Ok(&[(Operator::CharStringType, "")])),
    (&[0x1e, 0x12], Ok(&[])),
    (&[0x8c, 0x1c, 0x00], Ok(&[])),
    (&[0x1e, 0xd0], Err(7)),
    (&[0x8b, 0x0c, 0x1d], Err(9)),
    (&[0x1f], Err(9)),
    // The Top DICT and the Private DICT of the smallest font.
    (&[0xa3, 0x11, 0x8d, 0xa9, 0x12], Ok(&[(Operator::CharStrings, "24"), (Operator::Private, "2 3e1")])),
    (&[0x8d, 0x13], Ok(&[(Operator::Subrs, "2")])),
    // Operands of each form, truncated before the operator, and before the end of each.
    (
        &[0x1c, 0x27, 0x10, 0x1d, 0, 1, 0x86, 0xa0, 0x1e, 0xe2, 0xa2, 0x5f, 0xfa, 0x7c, 0x05],
        Ok(&[(Operator::FontBBox, "1e4 1e5 -225e-2 1e3")]),
    ),
    (&[0x8c, 0x00, 0x1c, 0x27], Ok(&[(Operator::Version, "1")])),
    (&[0x8c, 0x00, 0x1d, 0, 1, 0x86], Ok(&[(Operator::Version, "1")])),
    (&[0x8c, 0x00, 0x1e, 0xe2, 0xa2], Ok(&[(Operator::Version, "1")])),
    (&[0x8c, 0x00, 0xfa], Ok(&[(Operator::Version, "1")])),
    // Errors after an operation, and after an operand.
    (&[0x8c, 0x00, 0x8c, 0x16], Err(9)),
    (&[0x8c, 0x00, 0x1e, 0x1b, 0x10, 0x01, 0xff], Err(8)),
];

/// The texts of operands, a space between them.
fn texts<R: Abort>(rt: &R, alloc: Global, operands: &[Operand]) -> String {
    let mut text = String::new(alloc);
    for operand in operands {
        let space = if text.is_empty() { "" } else { " " };
        put_shown(rt, &mut text, space, operand);
    }
    text
}

/// Whether a map has an operator, of operands with these texts.
fn has<R: Abort>(rt: &R, alloc: Global, map: &Operations, operator: &Operator, text: &str) -> bool {
    match map.0.get(operator) {
        Some(found) => texts(rt, alloc, found.as_slice()).as_str() == text,
        None => false,
    }
}

/// Whether a map has these operators, and no other.
fn is_map<R: Abort>(rt: &R, alloc: Global, map: &Operations, wanted: &[(Operator, &str)]) -> bool {
    let mut is_so = map.0.len() == wanted.len();
    for (operator, text) in wanted {
        is_so = is_so && has(rt, alloc, map, operator, text);
    }
    is_so
}

/// Whether a dictionary is read as a row wants.
fn is_wanted<R: Abort>(rt: &R, alloc: Global, read: &Result<Operations>, row: &Row) -> bool {
    match (read, &row.1) {
        (Ok(map), Ok(wanted)) => is_map(rt, alloc, map, wanted),
        (Err(e), Err(code)) => e.code() == *code,
        _ => false,
    }
}

/// Whether a dictionary is read as a row wants, up to the end of the tape.
fn is_row<R: Abort>(rt: &R, alloc: Global, row: &Row) -> bool {
    let mut tape = Cursor::new(row.0);
    let read = Tape::take::<Operations>(&mut tape, alloc);
    let is_at_end = tape.position() == row.0.len() as u64;
    is_wanted(rt, alloc, &read, row) && (is_at_end || row.1.is_err())
}

#[test]
fn rows_of_dictionaries(rt: HostRuntime) {
    let alloc = rt.alloc();
    for (i, row) in ROWS.iter().enumerate() {
        holds_at(&rt, is_row(&rt, alloc, row), "row", i);
    }
}

/// Each operator: its code, its name, and the texts of its default operands, `-` if it has none (Technical Note 5176,
/// Tables 9, 10 and 23).
#[rattlefmt::skip]
const OPERATORS: &[(u16, &str, &str)] = &[
    (0x00, "Version", "-"), (0x01, "Notice", "-"), (0x02, "FullName", "-"), (0x03, "FamilyName", "-"),
    (0x04, "Weight", "-"), (0x05, "FontBBox", "0 0 0 0"), (0x06, "BlueValues", "-"),
    (0x07, "OtherBlues", "-"), (0x08, "FamilyBlues", "-"), (0x09, "FamilyOtherBlues", "-"),
    (0x0a, "StdHW", "-"), (0x0b, "StdVW", "-"), (0x0d, "UniqueID", "-"), (0x0e, "XUID", "-"),
    (0x0f, "CharSet", "0"), (0x10, "Encoding", "0"), (0x11, "CharStrings", "-"), (0x12, "Private", "-"),
    (0x13, "Subrs", "-"), (0x14, "DefaultWidthX", "0"), (0x15, "NominalWidthX", "0"),
    (0x0c00, "Copyright", "-"), (0x0c01, "IsFixedPitch", "0"), (0x0c02, "ItalicAngle", "0"),
    (0x0c03, "UnderlinePosition", "-1e2"), (0x0c04, "UnderlineThickness", "5e1"),
    (0x0c05, "PaintType", "0"), (0x0c06, "CharStringType", "2"),
    (0x0c07, "FontMatrix", "1e-3 0 0 1e-3 0 0"), (0x0c08, "StrokeWidth", "0"),
    (0x0c09, "BlueScale", "39625e-6"), (0x0c0a, "BlueShift", "7"), (0x0c0b, "BlueFuzz", "1"),
    (0x0c0c, "StemSnapH", "-"), (0x0c0d, "StemSnapV", "-"), (0x0c0e, "ForceBold", "0"),
    (0x0c11, "LanguageGroup", "0"), (0x0c12, "ExpansionFactor", "6e-2"), (0x0c13, "InitialRandomSeed", "0"),
    (0x0c14, "SyntheticBase", "-"), (0x0c15, "PostScript", "-"), (0x0c16, "BaseFontName", "-"),
    (0x0c17, "BaseFontBlend", "-"), (0x0c1e, "ROS", "-"), (0x0c1f, "CIDFontVersion", "0"),
    (0x0c20, "CIDFontRevision", "0"), (0x0c21, "CIDFontType", "0"), (0x0c22, "CIDCount", "872e1"),
    (0x0c23, "UIDBase", "-"), (0x0c24, "FDArray", "-"), (0x0c25, "FDSelect", "-"),
    (0x0c26, "FontName", "-"),
];

/// Whether operands have this text, `-` if there are none.
fn are<R: Abort>(rt: &R, alloc: Global, operands: &Option<Operands<'_>>, text: &str) -> bool {
    match operands {
        Some(operands) => texts(rt, alloc, operands.as_slice()).as_str() == text,
        None => text == "-",
    }
}

/// Whether the default operands of an operator have this text, even if a map has no operations.
fn is_default<R: Abort>(rt: &R, alloc: Global, operator: Operator, text: &str) -> bool {
    let none = Operations::empty(alloc);
    are(rt, alloc, &operator.default(), text) && are(rt, alloc, &none.get(operator), text)
}

/// Whether a code has the operator of a row, whose name errors contain, or none if there is no row.
fn is_known<R: Abort>(
    rt: &R,
    alloc: Global,
    found: &Result<Operator>,
    row: Option<&(u16, &str, &str)>,
) -> bool {
    match (found, row) {
        (Ok(operator), Some((_, name, text))) => {
            operator.name() == *name
                && is_default(rt, alloc, *operator, text)
                && is_named(rt, alloc, *operator, name)
        }
        (Err(e), None) => e.code() == 9,
        _ => false,
    }
}

/// The row of a code.
fn row_of(code: u16) -> Option<&'static (u16, &'static str, &'static str)> {
    for row in OPERATORS {
        if row.0 == code {
            return Some(row);
        }
    }
    None
}

#[test]
fn each_operator_its_defaults_and_its_refusals(rt: HostRuntime) {
    let alloc = rt.alloc();
    for code in 0..0x0d00u16 {
        let is_so = is_known(&rt, alloc, &Operator::from(code), row_of(code));
        holds_at(&rt, is_so, "code", usize::from(code));
    }
}

/// The integer that is an operator's one operand.
fn single(map: &Operations, operator: Operator) -> Option<i32> {
    map.get_single(operator)?.to_i32()
}

/// Whether a map has Private 0 and the font's box from 3, 4 on, and gives the defaults for other operators.
fn is_looked_up(map: &Operations) -> bool {
    let box_front = map
        .get_double(Operator::FontBBox)
        .map(|two| (two.0.to_i32(), two.1.to_i32()));
    let line = map
        .get_single(Operator::UnderlinePosition)
        .map(|operand| (operand.mantissa(), operand.exponent()));
    map.0.len() == 2
        && single(map, Operator::Private) == Some(0)
        && map.get_double(Operator::Private).is_none()
        && box_front == Some((Some(3), Some(4)))
        && single(map, Operator::CharStringType) == Some(2)
        && map.get(Operator::Version).is_none()
        && line == Some((-1, 2))
}

/// Reads a dictionary, and clones it.
fn check_clone<R: Abort>(rt: &R, alloc: Global) {
    let bytes = [0x8c, 0x8d, 0x12, 0x8b, 0x12, 0x8e, 0x8f, 0x90, 0x05];
    let map: Operations = read(alloc, &bytes).expect(rt, "a dictionary");
    holds(rt, is_looked_up(&map), "a dictionary");
    let copy = map.clone().expect(rt, "memory");
    holds(rt, is_looked_up(&copy), "a clone");
}

#[test]
fn looked_up_and_cloned(rt: HostRuntime) {
    let alloc = rt.alloc();
    check_clone(&rt, alloc);
    // Operands that are written, and none of them, are not the defaults.
    let bare: Operations = read(alloc, &[0x0c, 0x06]).expect(&rt, "no operand");
    let none = bare.get_single(Operator::CharStringType).is_none();
    holds(&rt, none, "no operand is written");
}

#[test]
fn one_operation(rt: HostRuntime) {
    let alloc = rt.alloc();
    let first: Operation = read(alloc, &[0x8c, 0x00]).expect(&rt, "an operation");
    holds(&rt, first.0 == Operator::Version, "the operator");
    let text = texts(&rt, alloc, first.1.as_slice());
    holds(&rt, text.as_str() == "1", "the operand");
}

/// Whether a single byte is a dictionary: an operator of one byte, or the beginning of an operand or of an operator of
/// two.
fn stands_alone(byte: u8) -> bool {
    byte <= 0x15 || matches!(byte, 0x1c..=0x1e | 0x20..=0xfe)
}

/// Whether a single byte is a dictionary, with an operator if it is one, or an error.
fn is_first(read: &Result<Operations>, byte: u8) -> bool {
    match read {
        Ok(map) => {
            let operators = if byte <= 0x15 && byte != 0x0c { 1 } else { 0 };
            stands_alone(byte) && map.0.len() == operators
        }
        Err(e) => !stands_alone(byte) && e.code() == 9,
    }
}

/// Ten thousand operations of one operator.
fn long_dictionary<R: Abort>(rt: &R, alloc: Global) -> Vec<u8> {
    let mut bytes = Vec::new(alloc);
    for _ in 0..9_999 {
        bytes.extend_from_slice(&[0x8c, 0x00]).expect(rt, "memory");
    }
    bytes.extend_from_slice(&[0x8d, 0x00]).expect(rt, "memory");
    bytes
}

#[test]
fn first_bytes_long_dictionaries_and_tapes_that_stand_still(rt: HostRuntime) {
    let alloc = rt.alloc();
    for byte in 0..=255u8 {
        let is_so = is_first(&read(alloc, &[byte]), byte);
        holds_at(&rt, is_so, "byte", usize::from(byte));
    }
    // The last operation counts.
    let long = long_dictionary(&rt, alloc);
    let map: Operations = read(alloc, long.as_slice()).expect(&rt, "a long dictionary");
    holds(&rt, map.0.len() == 1, "one operator");
    let last = single(&map, Operator::Version);
    holds(&rt, last == Some(2), "the last operation");
    // A tape that goes on for ever, with the same offset.
    let mut still = TroubledTape::new(&[], Trouble::Still);
    let code = code_of(Tape::take::<Operations>(&mut still, alloc));
    holds(&rt, code == 4, "a tape that stands still");
}
