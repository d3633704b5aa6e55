//! Writes operations as Type 2 charstrings.
ghost use Rattle.std.specs.Prelude.{◌≡◌, [], ◌∷◌, ◌++◌, ◌||◌, ℕ, List, None, nat_le, length, map, IfOk, OnOk, IfErr};
ghost use Rattle.postscript_base.specs.declared.error.Error.TheVariants as causes;
ghost use Rattle.postscript_variable.specs.Defaults.{AreHeld};
ghost use Rattle.postscript_variable.specs.Sayings.{Phrase};
ghost use Rattle.postscript_variable.specs.Told.{said_of};
ghost use Rattle.postscript_instance.specs.declared.error.Error.TheVariants as errors;
ghost use Rattle.postscript_instance.specs.Refusals.{LacksMove};
ghost use Rattle.postscript_instance.specs.Statics.{BearsWidth, bears_width as may_bear};
ghost use Rattle.postscript_instance.specs.Texts.{operator_text, width_numbers, numbers_of, phrase_text};
ghost use Rattle.postscript_instance.specs.Numbers.{numbers_text};
ghost use Rattle.postscript_instance.specs.Private.{AreHeldOrCut, HasMoreUncut, IsUnwritten, IsWritten};
ghost use Rattle.postscript_instance.specs.Cuts.{said_by, is_cut as may_be_cut};

use crate::error::{Error, Result};
use crate::numbers::{put_number, put_numbers};
use crate::pieces::{OPERANDS, Piece, is_cut};
use postscript_type2::{Operand, Operator};
use postscript_variable::Saying;
use std::alloc::Global;

/// The bytes of an operator that draws, declares stems or masks (Technical Note 5177, Appendix A).
fn code_of(operator: Operator) -> &'static [u8]
    ensures { result.now ≡ operator_text operator }
{
    match operator {
        Operator::HStem => &[0x01],
        Operator::VStem => &[0x03],
        Operator::VMoveTo => &[0x04],
        Operator::RLineTo => &[0x05],
        Operator::HLineTo => &[0x06],
        Operator::VLineTo => &[0x07],
        Operator::RRCurveTo => &[0x08],
        Operator::HStemHM => &[0x12],
        Operator::HintMask => &[0x13],
        Operator::CntrMask => &[0x14],
        Operator::RMoveTo => &[0x15],
        Operator::HMoveTo => &[0x16],
        Operator::VStemHM => &[0x17],
        Operator::RCurveLine => &[0x18],
        Operator::RLineCurve => &[0x19],
        Operator::VVCurveTo => &[0x1a],
        Operator::HHCurveTo => &[0x1b],
        Operator::VHCurveTo => &[0x1e],
        Operator::HVCurveTo => &[0x1f],
        Operator::HFlex => &[0x0c, 0x22],
        Operator::Flex => &[0x0c, 0x23],
        Operator::HFlex1 => &[0x0c, 0x24],
        Operator::Flex1 => &[0x0c, 0x25],
        _ => &[],
    }
}

/// Whether an operator may have the width before its operands.
fn bears_width(operator: Operator) -> bool
    ensures { result ≡ may_bear operator }
{
    matches!(
        operator,
        Operator::HStem
            | Operator::HStemHM
            | Operator::VStem
            | Operator::VStemHM
            | Operator::HintMask
            | Operator::CntrMask
            | Operator::HMoveTo
            | Operator::VMoveTo
            | Operator::RMoveTo
    )
}

/// The number of numbers of a width: 0 or 1.
fn width_count(width: Option<Operand>) -> usize
    ensures { result ≡ length (width_numbers width) }
{
    match width {
        Some(_) => 1,
        None => 0,
    }
}

/// Whether the numbers before an operator fit on the stack.
fn is_held(width: Option<Operand>, saying: &Saying<'_>) -> bool
    ensures { result ≡ nat_le (length (numbers_of width (said_of saying.now))) 48 }
{
    let stems = saying.stems.len();
    let operands = saying.operands.len();
    stems <= OPERANDS && operands <= OPERANDS && width_count(width) + stems + operands <= OPERANDS
}

/// Whether an operator can be split, or the numbers before it fit on the stack.
fn has_room(width: Option<Operand>, saying: &Saying<'_>) -> bool
    ensures { let x = said_of saying.now in result ≡ (may_be_cut x.operator || nat_le (length (numbers_of width x)) 48) }
{
    is_cut(saying.operator) || is_held(width, saying)
}

/// Checks that each operator that cannot be split has few enough numbers before it. The only error is
/// `TooManyOperands`.
fn check_operands(width: &Option<Operand>, sayings: &[Saying<'_>]) -> Result<()>
    ensures fits { OnOk result (AreHeldOrCut width.now (map said_of sayings.now)) }
    ensures refused { IfErr result (λ e. (e ≡ errors.TooManyOperands) × HasMoreUncut width.now (map said_of sayings.now)) }
{
    let mut width = *width;
    for saying in sayings {
        if !has_room(width, saying) {
            return Err(Error::TooManyOperands);
        }
        width = None;
    }
    Ok(())
}

/// Checks that the first operator may have the width before its operands. The only error is `NoMove`.
fn check_first(width: &Option<Operand>, sayings: &[Saying<'_>]) -> Result<()>
    ensures bears { OnOk result (BearsWidth width.now (map said_of sayings.now)) }
    ensures refused { IfErr result (λ e. (e ≡ errors.NoMove) × LacksMove width.now (map said_of sayings.now)) }
{
    if width.is_none() {
        return Ok(());
    }
    match sayings.first() {
        Some(first) if !bears_width(first.operator) => Err(Error::NoMove),
        _ => Ok(()),
    }
}

/// Appends a width, if there is one.
fn put_width(out: &mut Vec<u8>, width: Option<Operand>) -> Result<()>
    ensures ok { OnOk result (out.new.items ≡ out.old.items ++ numbers_text (width_numbers width)) }
    ensures held { OnOk result (AreHeld (width_numbers width)) }
    ensures err { IfErr result (λ e. e ≡ errors.Font causes.Memory) }
{
    match width {
        Some(width) => put_number(out, width),
        None => Ok(()),
    }
}

/// Appends a piece: its numbers, its operator and its mask.
fn put_piece(out: &mut Vec<u8>, width: Option<Operand>, piece: Piece<'_>) -> Result<()>
    ensures ok { let x = said_by piece.entry in OnOk result (out.new.items ≡ out.old.items ++ (phrase_text width x ++ x.mask)) }
    ensures held { OnOk result (AreHeld (numbers_of width (said_by piece.entry))) }
    ensures err { IfErr result (λ e. e ≡ errors.Font causes.Memory) }
{
    put_width(out, width)?;
    put_numbers(out, piece.stems)?;
    put_numbers(out, piece.operands)?;
    out.extend_from_slice(code_of(piece.operator))?;
    out.extend_from_slice(piece.mask)?;
    Ok(())
}

/// Appends an operation, in pieces if it does not fit on the stack.
fn put_saying(out: &mut Vec<u8>, width: Option<Operand>, saying: &Saying<'_>) -> Result<()>
    ensures ok { OnOk result ((xs : List Phrase) (end : List ℕ) → IsWritten None xs out.new.items end →
        IsWritten width (said_of saying.now ∷ xs) out.old.items end) }
    ensures err { IfErr result (λ e. e ≡ errors.Font causes.Memory) }
{
    let mut width = width;
    let mut rest = Piece::whole_operation(saying);
    while let Some((first, behind)) = rest.cut() {
        put_piece(out, width, first)?;
        width = None;
        rest = behind;
    }
    put_piece(out, width, rest)
}

/// Appends all operations, with the width before the first, and `endchar` after the last.
fn put_sayings(out: &mut Vec<u8>, width: Option<Operand>, sayings: &[Saying<'_>]) -> Result<()>
    ensures ok { OnOk result (IsWritten width (map said_of sayings.now) out.old.items out.new.items) }
    ensures err { IfErr result (λ e. e ≡ errors.Font causes.Memory) }
{
    let mut width = width;
    for saying in sayings {
        put_saying(out, width, saying)?;
        width = None;
    }
    put_width(out, width)?;
    out.push(0x0e)?;
    Ok(())
}

/// The operations as a Type 2 charstring, with a width before the first operator. The errors are `NoMove`,
/// `TooManyOperands`, and `Font` with `Memory`.
pub(crate) fn write_charstring(
    alloc: Global,
    width: Option<Operand>,
    sayings: &[Saying<'_>],
) -> Result<Vec<u8>>
    ensures ok { IfOk result (λ code. IsWritten width (map said_of sayings.now) [] code.items) }
    ensures fits { OnOk result (AreHeldOrCut width (map said_of sayings.now)) }
    ensures bears { OnOk result (BearsWidth width (map said_of sayings.now)) }
    ensures refused { IfErr result (λ e. IsUnwritten width (map said_of sayings.now) e) }
{
    check_first(&width, sayings)?;
    check_operands(&width, sayings)?;
    let mut code = Vec::new(alloc);
    put_sayings(&mut code, width, sayings)?;
    Ok(code)
}
