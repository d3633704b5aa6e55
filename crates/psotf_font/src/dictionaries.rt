//! DICTs with the names of their operators.
use crate::face::cut;
use postscript_base::compact1::{Operand, Operations, Operator};
use postscript_text::decimal;
use postscript_view::FontView;
use psotf_output::sheet::Sheet;
use psotf_output::text::Text;
use std::alloc::Global;

/// The operators of a Top DICT (Technical Note 5176, Table 9).
const TOP: [u16; 25] = [
    0x00, 0x01, 0x02, 0x03, 0x04, 0x05, 0x0d, 0x0e, 0x0f, 0x10, 0x11, 0x12, 0x0c00, 0x0c01, 0x0c02,
    0x0c03, 0x0c04, 0x0c05, 0x0c06, 0x0c07, 0x0c08, 0x0c14, 0x0c15, 0x0c16, 0x0c17,
];

/// The operators of the Top DICT of a CID-keyed font (Tables 9 and 10).
const CID_TOP: [u16; 34] = [
    0x00, 0x01, 0x02, 0x03, 0x04, 0x05, 0x0d, 0x0e, 0x0f, 0x10, 0x11, 0x12, 0x0c00, 0x0c01, 0x0c02,
    0x0c03, 0x0c04, 0x0c05, 0x0c06, 0x0c07, 0x0c08, 0x0c14, 0x0c15, 0x0c16, 0x0c17, 0x0c1e, 0x0c1f,
    0x0c20, 0x0c21, 0x0c22, 0x0c23, 0x0c24, 0x0c25, 0x0c26,
];

/// The operators of a Private DICT (Table 23).
const PRIVATE: [u16; 18] = [
    0x06, 0x07, 0x08, 0x09, 0x0a, 0x0b, 0x13, 0x14, 0x15, 0x0c09, 0x0c0a, 0x0c0b, 0x0c0c, 0x0c0d,
    0x0c0e, 0x0c11, 0x0c12, 0x0c13,
];

/// The kind of a DICT.
#[derive(Clone, Copy)]
pub enum Kind {
    Top,
    /// The Top DICT of a CID-keyed font, or a Font DICT.
    CidTop,
    Private,
}

/// Returns the operators that a DICT may have.
fn codes_of(kind: Kind) -> &'static [u16] {
    match kind {
        Kind::Top => TOP.as_slice(),
        Kind::CidTop => CID_TOP.as_slice(),
        Kind::Private => PRIVATE.as_slice(),
    }
}

/// Returns whether the operand with an index is a SID (Technical Note 5176, Tables 9 and 10).
fn is_identifier(operator: Operator, i: usize) -> bool {
    match operator {
        Operator::Version | Operator::Notice | Operator::Copyright | Operator::FullName => i == 0,
        Operator::FamilyName | Operator::Weight | Operator::FontName => i == 0,
        Operator::PostScript | Operator::BaseFontName => i == 0,
        Operator::ROS => i < 2,
        _ => false,
    }
}

/// Returns the string whose SID is the operand. Returns `None` if the operand is no SID, or if it has no string.
fn string_of<'l>(
    font: &FontView<'l>,
    operator: Operator,
    i: usize,
    operand: &Operand,
) -> Option<&'l [u8]> {
    if !is_identifier(operator, i) {
        return None;
    }
    Some(cut(font.string(u16::try_from(operand.to_i32()?).ok()?)?))
}

/// Writes the operands of an operator as a list of strings and numbers.
fn put(sheet: &mut Sheet, font: &FontView<'_>, operator: Operator, operands: &[Operand]) {
    sheet.begin_array();
    for (i, operand) in operands.iter().enumerate() {
        match string_of(font, operator, i, operand) {
            Some(string) => sheet.printable(string),
            None => sheet.decimal(operand),
        }
    }
    sheet.end_array();
}

/// Writes the operators that have operands, in the DICT or by default.
pub fn write(sheet: &mut Sheet, font: &FontView<'_>, dictionary: &Operations, kind: Kind) {
    sheet.begin_object();
    for code in codes_of(kind) {
        if let Ok(operator) = Operator::from(*code) {
            if let Some(operands) = dictionary.get(operator) {
                sheet.key(operator.name());
                put(sheet, font, operator, operands.as_slice());
            }
        }
    }
    sheet.end_object();
}

/// Adds the operands of an operator, each after a space.
fn put_operands(
    alloc: Global,
    lines: &mut Text,
    font: &FontView<'_>,
    operator: Operator,
    operands: &[Operand],
) {
    for (i, operand) in operands.iter().enumerate() {
        lines.push(' ');
        match string_of(font, operator, i, operand) {
            Some(string) => lines.put_printable(alloc, string),
            None => decimal::put(lines, operand),
        }
    }
}

/// Adds a line for each operator that has operands, after a title.
pub fn list(
    alloc: Global,
    lines: &mut Text,
    font: &FontView<'_>,
    title: &str,
    dictionary: &Operations,
    kind: Kind,
) {
    for code in codes_of(kind) {
        if let Ok(operator) = Operator::from(*code) {
            if let Some(operands) = dictionary.get(operator) {
                lines.push_str(title);
                lines.push(' ');
                lines.push_str(operator.name());
                lines.push(':');
                put_operands(alloc, lines, font, operator, operands.as_slice());
                lines.push('\n');
            }
        }
    }
}
