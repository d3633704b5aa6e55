//! Private DICTs in the form for C.
ghost use Rattle.std.specs.Prelude.{◌≡◌, ℕ, ◌-◌, ◌^◌, min, pos, IfOk};
ghost use Rattle.std.specs.Int.{saturate_signed, w64};
ghost use Rattle.postscript_base.specs.Compact1.Decimal.{signed};
ghost use Rattle.postscript_c.specs.Widths.{AreIn, AreWidths, HasWidths, IsWidth};
ghost use Rattle.postscript_base.specs.Tape.Outcome.{Answers, same};
ghost use Rattle.postscript_c.specs.Places.{own_part as the_own_part, part as the_part, subroutines as the_subroutines};

use postscript_base::Result;
use postscript_base::compact1::{Operand, Operations, Operator};
use postscript_compact1::font_set::operands::{bounds, place_at};
use postscript_view::tables::{operations_of, slice_at};
use std::alloc::Global;

/// The values of a Private DICT for glyphs.
#[repr(C)]
#[derive(Clone, Copy)]
pub struct PsfPart {
    /// The offset of the Local Subr INDEX, or 0 if there is none.
    pub local_subroutines: u64,
    /// The width of glyphs without a width in their charstrings, in 65536ths of a unit.
    pub default_width: i64,
    /// The number that is added to the width in a charstring, in 65536ths of a unit.
    pub nominal_width: i64,
}

impl PsfPart {
    /// No subroutines, and widths of 0.
    pub(crate) fn none() -> PsfPart
        ensures local { result.local_subroutines ≡ 0 }
        ensures default { result.default_width ≡ pos 0 }
        ensures nominal { result.nominal_width ≡ pos 0 }
    {
        PsfPart {
            local_subroutines: 0,
            default_width: 0,
            nominal_width: 0,
        }
    }
}

/// The number of 65536ths in `mantissa * 10^exponent`, at most 2^128 - 1.
fn magnitude(mantissa: u64, exponent: i32) -> u128
    ensures { (bits : ℕ) × AreIn mantissa exponent bits × (result ≡ min bits (2 ^ 128 - 1)) }
{
    let bits = u128::from(mantissa) * 65536;
    let power = 10u128.saturating_pow(exponent.unsigned_abs());
    if exponent < 0 {
        bits / power
    } else {
        bits.saturating_mul(power)
    }
}

/// A signed number, limited to 64 bits.
fn with_sign(negative: bool, bits: u128) -> i64
    ensures { result ≡ saturate_signed w64 (signed negative bits) }
{
    match i64::try_from(bits) {
        Ok(bits) if negative => -bits,
        Ok(bits) => bits,
        Err(_) if negative => i64::MIN,
        Err(_) => i64::MAX,
    }
}

/// A width of a Private DICT in 65536ths of a unit, rounded towards zero and limited to 64 bits, or 0 if there is none.
fn width_in_bits(width: Option<Operand>) -> i64
    ensures { IsWidth width result }
{
    let Some(width) = width else {
        return 0;
    };
    let mantissa = width.mantissa();
    with_sign(
        mantissa < 0,
        magnitude(mantissa.unsigned_abs(), width.exponent()),
    )
}

/// The offset of the local subroutines of a Private DICT.
#[tactic(auto, unfolding(crate::specs::Places::subroutines))]
fn subroutines(bytes: &[u8], offset: u32, local: &Operations) -> Result<u64>
    ensures exact { (place : ℕ) → Answers same result place (the_subroutines offset local.now bytes.now place) }
{
    if local.get_single(Operator::Subrs).is_none() {
        return Ok(0);
    }
    place_at(0, offset, local, Operator::Subrs)
}

/// The part of the Private DICT of a DICT.
#[tactic(auto, unfolding(crate::specs::Places::own_part))]
fn own_part(alloc: Global, bytes: &[u8], dictionary: &Operations) -> Result<PsfPart>
    ensures exact { (place : ℕ) → Answers (λ part. part.local_subroutines) result place (the_own_part dictionary.now bytes.now place) }
    ensures widths { IfOk result (λ part. HasWidths bytes.now dictionary.now part.default_width part.nominal_width) }
{
    let (size, offset, place) = bounds(0, dictionary)?;
    let text = slice_at(bytes, place, size)?;
    let local = operations_of(alloc, text)?;
    let local_subroutines = subroutines(bytes, offset, &local)?;
    Ok(PsfPart {
        local_subroutines,
        default_width: width_in_bits(local.get_single(Operator::DefaultWidthX)),
        nominal_width: width_in_bits(local.get_single(Operator::NominalWidthX)),
    })
}

/// The part of a DICT.
#[tactic(auto, unfolding(crate::specs::Places::part))]
pub(crate) fn part_of(alloc: Global, bytes: &[u8], dictionary: &Operations) -> Result<PsfPart>
    ensures exact { (place : ℕ) → Answers (λ part. part.local_subroutines) result place (the_part dictionary.now bytes.now place) }
    ensures widths { IfOk result (λ part. AreWidths bytes.now dictionary.now part.default_width part.nominal_width) }
{
    if dictionary.get_double(Operator::Private).is_none() {
        return Ok(PsfPart::none());
    }
    own_part(alloc, bytes, dictionary)
}
