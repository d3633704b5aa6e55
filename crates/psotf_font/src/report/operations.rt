//! Operations in the short form (docs/report-format.md).
use super::short;
use postscript_type2::{Hints, Operand, Operator, Program, Told};
use postscript_view::Glyph;
use psotf_output::failure::Failure;
use psotf_output::limit::{Budget, OPERAND};
use psotf_output::sheet::Sheet;
use psotf_output::text::Text;
use std::alloc::Global;

/// Returns the code of an operator (Technical Note 5177, Appendix A), or 0 for operators that a run never returns. The
/// code of a two-byte operator is 0x0c00 plus the second byte.
fn code_of(operator: Operator) -> i64 {
    match operator {
        Operator::HStem => 1,
        Operator::VStem => 3,
        Operator::VMoveTo => 4,
        Operator::RLineTo => 5,
        Operator::HLineTo => 6,
        Operator::VLineTo => 7,
        Operator::RRCurveTo => 8,
        Operator::HStemHM => 18,
        Operator::HintMask => 19,
        Operator::CntrMask => 20,
        Operator::RMoveTo => 21,
        Operator::HMoveTo => 22,
        Operator::VStemHM => 23,
        Operator::RCurveLine => 24,
        Operator::RLineCurve => 25,
        Operator::VVCurveTo => 26,
        Operator::HHCurveTo => 27,
        Operator::VHCurveTo => 30,
        Operator::HVCurveTo => 31,
        Operator::HFlex => 0x0c22,
        Operator::Flex => 0x0c23,
        Operator::HFlex1 => 0x0c24,
        Operator::Flex1 => 0x0c25,
        _ => 0,
    }
}

/// Returns whether a mask follows an operator.
fn has_mask(operator: Operator) -> bool {
    match operator {
        Operator::HintMask | Operator::CntrMask => true,
        _ => false,
    }
}

/// Adds the number of operands, and the operands.
fn put_operands(text: &mut Text, operands: &[Operand]) {
    short::put_count(text, operands.len());
    for operand in operands {
        short::put_bits(text, i64::from(operand.bits()));
    }
}

/// Adds the stems that a mask implies, and its bytes, each after their number.
fn put_hints(text: &mut Text, hints: Hints<'_>) {
    put_operands(text, hints.stems);
    short::put_count(text, hints.mask.len());
    for byte in hints.mask {
        short::put(text, i64::from(*byte));
    }
}

/// Adds the code of an operator and its operands, and for a mask its stems and bytes.
fn put_operation(text: &mut Text, operator: Operator, operands: &[Operand], hints: Hints<'_>) {
    short::put(text, code_of(operator));
    put_operands(text, operands);
    if has_mask(operator) {
        put_hints(text, hints);
    }
}

/// Returns the cost of writing an operation.
fn price(operands: usize, hints: Hints<'_>) -> u64 {
    (operands as u64)
        .saturating_add(hints.stems.len() as u64)
        .saturating_add(hints.mask.len() as u64)
        .saturating_add(1)
        .saturating_mul(OPERAND)
}

/// Adds the operations of a program.
fn put_all(text: &mut Text, program: &mut Program<'_>, budget: &mut Budget) -> Result<(), Failure> {
    let mut left = u64::MAX;
    for _ in 0..u64::MAX {
        let Told::Operation(operator, operands, hints, _) = program.tell_within(&mut left)? else {
            break;
        };
        budget.spend(price(operands.len(), hints));
        put_operation(text, operator, operands, hints);
    }
    Ok(())
}

/// Writes the operations of a glyph as one string.
pub fn put(
    alloc: Global,
    sheet: &mut Sheet,
    glyph: &Glyph<'_, '_>,
    budget: &mut Budget,
) -> Result<(), Failure> {
    let mut text = Text::new(alloc);
    put_all(&mut text, &mut glyph.program(alloc), budget)?;
    sheet.put(&text);
    Ok(())
}
