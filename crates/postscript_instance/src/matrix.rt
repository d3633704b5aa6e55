//! FontMatrix of a `CFF ` table (Technical Note 5176, section 9, Table 9).
ghost use Rattle.std.specs.Prelude.{◌≡◌, ◌+◌, ◌<◌, ◌++◌, ◌∷◌, [], ℕ, List, length, IfErr, IfOk, IsTrue, OnOk, ◌↔◌};
ghost use Rattle.std.specs.Option.{MatchOption};
ghost use Rattle.postscript_base.specs.Compact1.Decimal.{Decimal};
ghost use Rattle.postscript_base.specs.declared.compact1.operator.Operator.TheVariants.{FontMatrix};
ghost use Rattle.postscript_cff2.specs.Tokens.{operand_size as the_size};
ghost use Rattle.postscript_instance.specs.Glyphs.{IsMatrixIn};
ghost use Rattle.postscript_instance.specs.Refusals.{IsMemory};
ghost use Rattle.postscript_instance.specs.Whole.{AreShortened, IsDict, IsMatrix, matrix_text as the_text};

use crate::error::Result;
use crate::parts::operation_in;
use crate::privates::{bytes_between, is_among};
use crate::reals::put_real;
use postscript_base::compact1::Operator;
use postscript_base::index::number::number_at;
use postscript_cff2::{Font, operand_size};
use std::alloc::Global;

/// The operator FontMatrix of a Top DICT.
const FONT_MATRIX: usize = 0x0c07;

/// Appends the operand of a DICT from one offset to another, with at most 18 significant digits in a real.
fn put_operand(
    alloc: Global,
    out: &mut Vec<u8>,
    operands: &[u8],
    place: usize,
    end: usize,
) -> Result<()>
    requires there { place < length operands.now }
    requires end { end ≡ place + the_size operands.now place }
    ensures more { OnOk result ((more : List ℕ) × (out.new.items ≡ out.old.items ++ more)
        × ((rest : List ℕ) → AreShortened operands.now end rest → AreShortened operands.now place (more ++ rest))) }
    ensures memory { IfErr result (λ e. IsMemory e) }
{
    let operand = bytes_between(operands, place, end);
    if number_at(operands, place, 1) == 30 {
        put_real(alloc, out, operand)?;
        return Ok(());
    }
    out.extend_from_slice(operand)?;
    Ok(())
}

/// The operands of a DICT, with at most 18 significant digits in each real.
fn shorten_operands(alloc: Global, operands: &[u8]) -> Result<Vec<u8>>
    ensures are { IfOk result (λ text. AreShortened operands.now 0 text.items) }
    ensures memory { IfErr result (λ e. IsMemory e) }
{
    let mut out = Vec::new(alloc);
    let mut place = 0usize;
    while place < operands.len() {
        let end = place + operand_size(operands, place);
        put_operand(alloc, &mut out, operands, place, end)?;
        place = end;
    }
    Ok(out)
}

/// Whether a text is one operation FontMatrix.
fn is_matrix(alloc: Global, text: &[u8]) -> Result<bool>
    ensures is { IfOk result (λ is. IsTrue is ↔ ((operands : List Decimal) × IsDict text.now ((FontMatrix, operands) ∷ []))) }
    ensures memory { IfErr result (λ e. IsMemory e) }
{
    match operation_in(alloc, text)? {
        Some((operator, _operands)) => Ok(is_among(operator, &[Operator::FontMatrix])),
        None => Ok(false),
    }
}

/// FontMatrix with these operands, if it can be read.
fn matrix_with(alloc: Global, operands: &[u8]) -> Result<Option<Vec<u8>>>
    ensures is { IfOk result (λ found. MatchOption found ((numbers : List Decimal) → IsMatrix operands.now numbers → ⊥)
        (λ text. (numbers : List Decimal) × IsMatrix operands.now numbers × (text.items ≡ the_text operands.now))) }
    ensures memory { IfErr result (λ e. IsMemory e) }
{
    let mut text = Vec::new(alloc);
    text.extend_from_slice(operands)?;
    text.extend_from_slice(&[0x0c, 0x07])?;
    if is_matrix(alloc, &text)? {
        return Ok(Some(text));
    }
    Ok(None)
}

/// FontMatrix of the CFF2 Top DICT. It is empty if there is none that can be read. If it cannot be read as it is, digits
/// of a real after the 18th significant one are cut off.
pub(crate) fn matrix_text(alloc: Global, font: &Font<'_>) -> Result<Vec<u8>>
    ensures is { IfOk result (λ text. IsMatrixIn font.now text.items) }
    ensures memory { IfErr result (λ e. IsMemory e) }
{
    let Some(entry) = font.dictionary.last(FONT_MATRIX) else {
        return Ok(Vec::new(alloc));
    };
    let operands = bytes_between(font.dictionary.bytes, entry.start, entry.place);
    if let Some(text) = matrix_with(alloc, operands)? {
        return Ok(text);
    }
    let shortened = shorten_operands(alloc, operands)?;
    match matrix_with(alloc, &shortened)? {
        Some(text) => Ok(text),
        None => Ok(Vec::new(alloc)),
    }
}
