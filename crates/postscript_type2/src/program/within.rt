//! Operations with borrowed operands, within a limit.
ghost use Rattle.std.specs.Borrow.{sem};
ghost use Rattle.std.specs.Prelude.{◌≡◌, ◌≢◌, ◌<◌, ℤ, List};
ghost use Rattle.postscript_base.specs.Error.{IsListed};
ghost use Rattle.postscript_type2.specs.Program.Endings.{next_refusals};
ghost use Rattle.postscript_type2.specs.Program.Limit.{cost};
ghost use Rattle.postscript_type2.specs.Program.Programs.{ended, ended_over, failed};
ghost use Rattle.postscript_type2.specs.Program.Within.{LendsWithin, IsHeadWithin};
ghost use Rattle.postscript_type2.specs.Refused.{with_error};

use super::machine::Stop;
use super::{Phase, Program};
use crate::operation::{Operand, Operator};
use crate::refused::Refused;
use postscript_base::{Error, Result};

/// The progress of a program within its limit.
#[derive(Clone, Copy)]
pub enum Within<'p> {
    /// The next operation: the operator, and its operands, the lowest first.
    Operation(Operator, &'p [Operand]),
    /// The end.
    End,
    /// The limit is used up. The next call continues from there.
    Paused,
}

impl<'l> Program<'l> {
    /// Returns the next operation, as [`Program::step`] does, if the limit is not used up before it. Each phrase that
    /// is run (an operator with the numbers before it) costs one unit for each of its bytes. A `roll` costs 4096 units
    /// more, and a `sqrt` 8 more. A phrase is only begun while some of the limit is left. If it costs more, it takes
    /// the rest. So a call reads at most one byte for each unit of the limit, and one more phrase.
    ///
    /// After `Paused` the program has everything left that it had before, and any call continues from there. A run that
    /// costs less than the limit is never paused. Calls of [`Program::next`] and [`Program::step`] may be mixed with
    /// this one, but they ignore the limit. Memory is allocated as by [`Program::step`].
    ///
    /// ```rust
    /// pub fn count(program: &mut Program<'_>, mut limit: u64) -> Result<Option<u64>> {
    ///     let mut count = 0u64;
    ///     for _ in 0..u64::MAX {
    ///         match program.step_within(&mut limit)? {
    ///             Within::Operation(..) => count = count.saturating_add(1),
    ///             Within::End => return Ok(Some(count)),
    ///             Within::Paused => return Ok(None),
    ///         }
    ///     }
    ///     Ok(None)
    /// }
    /// ```
    ///
    /// # Errors
    ///
    /// - The errors of [`Program::next`].
    #[inline(always)]
    pub fn step_within(&mut self, limit: &mut u64) -> Result<Within<'_>>
        // When the borrow ends, the program is as after `step` or paused, and its phrases are paid.
        ensures* steps { sem 𝓛 (LendsWithin self.entry limit.old result limit.new) }
        // The result is the first operation left, the end, a pause, the fault or `Memory`.
        ensures head { IsHeadWithin self.old result }
        // Errors: `Memory`, `UnexpectedEof`, `UnknownOperator` or `Unsupported` to `AlreadyFailed`.
        ensures listed { IsListed next_refusals result }
        // After an end at which `endchar` took no operands, the result is `End` again.
        ensures ended { self.old ≡ ended self.old.width → result ≡ Ok Within.End }
        // After an end at which `endchar` took any operands, the result is `End` again.
        ensures over { (operands : List ℤ) → self.old ≡ ended_over operands self.old.width → result ≡ Ok Within.End }
        // After a failure the result is `AlreadyFailed`.
        ensures failed { self.old ≡ failed self.old.width → result ≡ Err Error.AlreadyFailed }
        // If the phrases left cost less than the limit, the result is not `Paused`.
        ensures suffices { cost self.old.trace < limit.old → result ≢ Ok Within.Paused }
    {
        match self.step_within_for::<()>(limit) {
            Ok(within) => Ok(within),
            Err(e) => Err(Error::from(e)),
        }
    }

    /// Returns the next operation, as [`Program::step_within`] does. It is compiled separately for each type `S`, which
    /// is not used otherwise. A compiler inlines a function that has one caller. So code that draws into a sink of type
    /// `S` contains the run, without a call for each operation.
    ///
    /// # Errors
    ///
    /// - The errors of [`Program::next`], as [`Refused`].
    #[inline(always)]
    pub fn step_within_for<S>(
        &mut self,
        limit: &mut u64,
    ) -> std::result::Result<Within<'_>, Refused>
        // When the borrow ends, the program is as after `step` or paused, and its phrases are paid.
        ensures* steps { sem 𝓛 (LendsWithin self.entry limit.old (with_error result) limit.new) }
        // The result is the first operation left, the end, a pause, the fault or `Memory`.
        ensures head { IsHeadWithin self.old (with_error result) }
        // Errors: `Memory`, `UnexpectedEof`, `UnknownOperator` or `Unsupported` to `AlreadyFailed`.
        ensures listed { IsListed next_refusals (with_error result) }
        // After an end at which `endchar` took no operands, the result is `End` again.
        ensures ended { self.old ≡ ended self.old.width → result ≡ Ok Within.End }
        // After an end at which `endchar` took any operands, the result is `End` again.
        ensures over { (operands : List ℤ) → self.old ≡ ended_over operands self.old.width → result ≡ Ok Within.End }
        // After a failure the result is `AlreadyFailed`.
        ensures failed { self.old ≡ failed self.old.width → result ≡ Err Refused.AlreadyFailed }
        // If the phrases left cost less than the limit, the result is not `Paused`.
        ensures suffices { cost self.old.trace < limit.old → result ≢ Ok Within.Paused }
    {
        match self.phase {
            Phase::Running => self.machine.empty(),
            Phase::Paused => self.phase = Phase::Running,
            over if over.has_failed() => return Err(Refused::AlreadyFailed),
            _ => return Ok(Within::End),
        }
        match self.machine.stop_within::<S>(limit) {
            Ok(Stop::At(operator, count)) => Ok(Within::Operation(
                operator,
                self.machine.operands(count),
            )),
            Ok(Stop::End) => {
                self.phase = Phase::Ended;
                Ok(Within::End)
            }
            Ok(Stop::Paused) => {
                self.phase = Phase::Paused;
                Ok(Within::Paused)
            }
            Err(e) => {
                self.phase = Phase::Failed;
                Err(e)
            }
        }
    }
}
