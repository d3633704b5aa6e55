//! Advance widths of glyphs.
ghost use Rattle.std.specs.Prelude.{◌≡◌, ◌⊎◌, ℕ, ℤ, pos, ◌*ℤ◌, List, Some, None, IfOk, IfErr, IfSome, IsOkAnd, ◌≤◌, ◌^◌};
ghost use Rattle.std.specs.Int.RustNames.{unsigned_abs};
ghost use Rattle.postscript_base.specs.Compact1.Dictionary.{Dictionary};
ghost use Rattle.postscript_base.specs.RefusalOf.{refusal_of};
ghost use Rattle.postscript_compact1.specs.Index.{Index};
ghost use Rattle.postscript_compact1.specs.FontSet.Value.{font_shown};
ghost use Rattle.postscript_type2.specs.Program.Evaluation.{run_of};
ghost use Rattle.postscript_type2.specs.Program.Routines.{subroutines};
ghost use Rattle.postscript_type2.specs.Program.Runs.{width_of};
ghost use Rattle.postscript_examples.specs.Advances.{advance_by, advance_of as the_advance, in_bits as the_bits, HasGlyph};
ghost use Rattle.postscript_examples.specs.Glyphs.{lists, refused_by};

use crate::glyphs::glyph as drawn;
use postscript::compact1::{self, FontSet, Operations, Operator};
use postscript::type2::Operand;
use postscript::{Error, Result};
use std::alloc::Global;

/// Returns the advance width of a glyph in one of a font's dictionaries, in 65536ths of a unit. Glyphs and dictionaries
/// are counted from 0.
///
/// The advance is nominalWidthX of the Private DICT plus the difference that the charstring gives, or defaultWidthX if
/// it gives none. It is `None` if there is no such glyph, or if the width in the dictionary is not an integer of 32
/// bits.
///
/// # Errors
///
/// - The error of the glyph's run.
/// - `Memory`: out of memory.
pub fn advance(
    alloc: Global,
    font: &FontSet,
    dictionary: usize,
    glyph: usize,
) -> Result<Option<i64>>
    ensures advance { (code : List ℕ) (local : Index) (private : Dictionary) →
        HasGlyph (font_shown font.now) dictionary glyph code local private →
        IfOk result (λ found. found ≡ advance_by (font_shown font.now) code local private) }
    ensures refused { (code : List ℕ) (local : Index) (private : Dictionary) →
        HasGlyph (font_shown font.now) dictionary glyph code local private →
        IfErr result (λ e. (e ≡ Error.Memory)
        ⊎ (refused_by (lists (font_shown font.now).global_subroutines local) code ≡ Some (refusal_of e))) }
    ensures absent { ((code : List ℕ) (local : Index) (private : Dictionary) →
        HasGlyph (font_shown font.now) dictionary glyph code local private → ⊥) →
        IsOkAnd result (λ found. found ≡ None) }
{
    let (Some(codes), Some(local), Some(private)) = (
        font.char_strings.get(dictionary),
        font.local_subroutines.get(dictionary),
        font.local_dictionaries.get(dictionary),
    ) else {
        return Ok(None);
    };
    let Some(code) = codes.item(glyph) else {
        return Ok(None);
    };
    advance_over(
        alloc,
        code,
        font.global_subroutines.data(),
        local.data(),
        private,
    )
}

/// Returns the advance width of a charstring with its subroutines and Private DICT.
fn advance_over(
    alloc: Global,
    code: &[u8],
    global: &[Vec<u8>],
    local: &[Vec<u8>],
    private: &Operations,
) -> Result<Option<i64>>
    ensures advance { IfOk result
        (λ found. found ≡ the_advance private.now (width_of (run_of (subroutines global.now local.now) code.now))) }
    ensures refused { IfErr result
        (λ e. (e ≡ Error.Memory) ⊎ (refused_by (subroutines global.now local.now) code.now ≡ Some (refusal_of e))) }
{
    let (_operations, width) = drawn(alloc, code, global, local)?;
    Ok(advance_of(private, width))
}

/// Returns the advance width of a glyph, by the width minus nominalWidthX that its charstring gives, if any.
fn advance_of(private: &Operations, width: Option<Operand>) -> Option<i64>
    ensures { result ≡ the_advance private.now width }
{
    match width {
        Some(difference) => {
            let nominal = in_bits(private.get_single(Operator::NominalWidthX)?)?;
            Some(nominal + i64::from(difference.bits()))
        }
        None => in_bits(private.get_single(Operator::DefaultWidthX)?),
    }
}

/// Returns an integer width in 65536ths.
fn in_bits(width: compact1::Operand) -> Option<i64>
    ensures exact { result ≡ the_bits (Some width) }
    ensures room { IfSome result (λ n. unsigned_abs n ≤ 2 ^ 47) }
{
    Some(i64::from(width.to_i32()?) * 65536)
}
