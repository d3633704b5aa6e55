//! Advances of glyphs.
ghost use Rattle.std.specs.Prelude.{◌≡◌, ◌≢◌, ◌⊎◌, ◌<◌, ◌≤◌, ◌^◌, Some, Ok, IfOk, IfErr, IfSome};
ghost use Rattle.std.specs.Int.RustNames.{unsigned_abs};
ghost use Rattle.postscript_base.specs.RefusalOf.{refusal_of};
ghost use Rattle.postscript_base.specs.declared.error.Error.TheVariants as errors;
ghost use Rattle.postscript_type2.specs.Program.Limit.{cost};
ghost use Rattle.postscript_type2.specs.Program.Runs.{fault_of, width_by};
ghost use Rattle.postscript_view.specs.Advances.{advance_of, outcome_of, whole_bits, PaysPhrases, TellsAdvance};

use crate::private_dict::PrivateDict;
use postscript_base::Result;
use postscript_base::compact1::Operand;
use postscript_type2::{Operand as Difference, Program, Within};

/// The advance of a glyph, in glyph units, as exact summands.
#[derive(Clone, Copy)]
pub enum Advance {
    /// The defaultWidthX of the Private DICT, for a charstring without a width.
    Default(Operand),
    /// The nominalWidthX of the Private DICT, and the width minus nominalWidthX from the charstring. The advance is their
    /// sum.
    Nominal(Operand, Difference),
}

impl Advance {
    ghost use Rattle.postscript_view.specs.Advances.{bits_of};

    /// Returns the advance in 65536ths of a unit. Returns `None` if the width in the Private DICT is not a whole number
    /// of 32 bits.
    pub fn in_bits(&self) -> Option<i64>
        // The result is 65536 times the advance, or `None` if the DICT has no whole 32-bit width.
        ensures { result ≡ bits_of self.now }
    {
        match self {
            Advance::Default(width) => in_bits(*width),
            Advance::Nominal(width, difference) => {
                Some(in_bits(*width)? + i64::from(difference.bits()))
            }
        }
    }
}

/// A width of a DICT in 65536ths of a unit, if it is a whole number of 32 bits.
fn in_bits(width: Operand) -> Option<i64>
    ensures bits { result ≡ whole_bits width }
    ensures small { IfSome result (λ bits. unsigned_abs bits ≤ 2 ^ 47) }
{
    Some(i64::from(width.to_i32()?) * 65536)
}

/// The outcome of a call for the advance of a glyph within a limit.
#[derive(Clone, Copy)]
pub enum AdvanceWithin {
    /// The advance.
    Known(Advance),
    /// There is no such glyph, or the operator of its width has no operand.
    Unknown,
    /// The limit is used up before the end of the run.
    TooLong,
}

/// The outcome for an advance, or for none.
fn outcome(advance: Option<Advance>) -> AdvanceWithin
    ensures { result ≡ outcome_of advance }
{
    match advance {
        Some(advance) => AdvanceWithin::Known(advance),
        None => AdvanceWithin::Unknown,
    }
}

/// The advance by a Private DICT and by the width after all that a program has left to run, within a limit.
pub(crate) fn advance_within(
    program: &mut Program<'_>,
    part: &PrivateDict<'_>,
    limit: &mut u64,
) -> Result<AdvanceWithin>
    ensures told { IfOk result (TellsAdvance (advance_of part.now.dictionary
        (width_by program.old.width program.old.answers program.old.end)) program.old.end) }
    ensures spent { PaysPhrases program.old.trace limit.old result limit.new }
    ensures suffices { cost program.old.trace < limit.old → result ≢ Ok AdvanceWithin.TooLong }
    ensures refused { IfErr result (λ e. (e ≡ errors.Memory) ⊎ (fault_of program.old.end ≡ Some (refusal_of e))) }
{
    loop {
        match program.step_within(limit) {
            Ok(Within::Operation(..)) => {}
            Ok(Within::End) => return Ok(outcome(part.advance_by(program.width()))),
            Ok(Within::Paused) => return Ok(AdvanceWithin::TooLong),
            Err(e) => return Err(e),
        }
    }
}
