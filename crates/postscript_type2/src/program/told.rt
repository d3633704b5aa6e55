//! Operations with their hints and their bytes, within a limit.
ghost use Rattle.std.specs.Borrow.{sem};
ghost use Rattle.std.specs.Prelude.{◌≡◌, ◌≢◌, ◌<◌, ℤ, List};
ghost use Rattle.postscript_base.specs.Error.{IsListed};
ghost use Rattle.postscript_type2.specs.Program.Effects.{last_of};
ghost use Rattle.postscript_type2.specs.Program.Endings.{next_refusals};
ghost use Rattle.postscript_type2.specs.Program.Limit.{cost};
ghost use Rattle.postscript_type2.specs.Program.Programs.{ended, ended_over, failed};
ghost use Rattle.postscript_type2.specs.Program.Told.{LendsTold, within_of, TellsHintsOf};
ghost use Rattle.postscript_type2.specs.Program.Within.{IsHeadWithin};

use super::machine::Tell;
use super::{Phase, Program};
use crate::operation::{Operand, Operator};
use postscript_base::{Error, Result};

/// The hints of a mask: the operands of the stems that it implies, the lowest first, and its bytes (Technical Note
/// 5177, "Hint Operators"). Both are empty for any other operator.
#[derive(Clone, Copy)]
pub struct Hints<'p> {
    pub stems: &'p [Operand],
    pub mask: &'p [u8],
}

/// The progress of a program within its limit, like [`Within`], with the hints and the phrase of the next operation.
/// The phrase contains the bytes of the numbers before the operator, of the operator and of its mask. These numbers are
/// not all operands if some were computed, or pushed before a call.
#[derive(Clone, Copy)]
pub enum Told<'p> {
    /// The next operation: the operator, its operands, the lowest first, its hints, and its phrase.
    Operation(Operator, &'p [Operand], Hints<'p>, &'p [u8]),
    /// The end.
    End,
    /// The limit is used up. The next call continues from there.
    Paused,
}

/// The last `count` bytes.
fn last(bytes: &[u8], count: usize) -> &[u8]
    ensures { result.now ≡ last_of bytes.now count }
{
    &bytes[bytes.len().saturating_sub(count)..]
}

impl<'l> Program<'l> {
    /// Returns the next operation, as [`Program::step_within`] does, with its hints and its phrase. That function
    /// describes how the limit is spent and when the program pauses.
    ///
    /// ```rust
    /// pub fn mask(program: &mut Program<'_>, limit: &mut u64) -> Result<usize> {
    ///     match program.tell_within(limit)? {
    ///         Told::Operation(_, _, hints, _) => Ok(hints.mask.len()),
    ///         Told::End | Told::Paused => Ok(0),
    ///     }
    /// }
    /// ```
    ///
    /// # Errors
    ///
    /// - The errors of [`Program::next`].
    pub fn tell_within(&mut self, limit: &mut u64) -> Result<Told<'_>>
        // When the borrow ends, the program is as after `step_within`, which has run the phrase.
        ensures* steps { sem 𝓛 (LendsTold self.entry limit.old result limit.new) }
        // The result is the first operation left, the end, a pause, the fault or `Memory`.
        ensures head { IsHeadWithin self.old (within_of result) }
        // The hints of an operation are those of the first operation left.
        ensures hints { TellsHintsOf self.old result }
        // Errors: `Memory`, `UnexpectedEof`, `UnknownOperator` or `Unsupported` to `AlreadyFailed`.
        ensures listed { IsListed next_refusals result }
        // After an end at which `endchar` took no operands, the result is `End` again.
        ensures ended { self.old ≡ ended self.old.width → result ≡ Ok Told.End }
        // After an end at which `endchar` took any operands, the result is `End` again.
        ensures over { (operands : List ℤ) → self.old ≡ ended_over operands self.old.width → result ≡ Ok Told.End }
        // After a failure the result is `AlreadyFailed`.
        ensures failed { self.old ≡ failed self.old.width → result ≡ Err Error.AlreadyFailed }
        // If the phrases left cost less than the limit, the result is not `Paused`.
        ensures suffices { cost self.old.trace < limit.old → result ≢ Ok Told.Paused }
    {
        match self.phase {
            Phase::Running => self.machine.empty(),
            Phase::Paused => self.phase = Phase::Running,
            Phase::Ended => return Ok(Told::End),
            Phase::Failed => return Err(Error::AlreadyFailed),
        }
        match self.machine.tell_within(limit) {
            Ok(Tell::At(said, taken)) => {
                let machine = &self.machine;
                let hints = Hints {
                    stems: machine.operands(taken.stems),
                    mask: last(said.bytes, said.mask),
                };
                let operands = machine.operands(taken.count);
                Ok(Told::Operation(said.operator, operands, hints, said.bytes))
            }
            Ok(Tell::End) => {
                self.phase = Phase::Ended;
                Ok(Told::End)
            }
            Ok(Tell::Paused) => {
                self.phase = Phase::Paused;
                Ok(Told::Paused)
            }
            Err(e) => {
                self.phase = Phase::Failed;
                Err(Error::from(e))
            }
        }
    }
}
