//! Operations with borrowed operands.
ghost use Rattle.std.specs.Borrow.{sem};
ghost use Rattle.std.specs.Prelude.{◌≡◌, ℤ, List};
ghost use Rattle.postscript_base.specs.Error.{IsListed};
ghost use Rattle.postscript_type2.specs.Program.Endings.{next_refusals};
ghost use Rattle.postscript_type2.specs.Program.Lending.{LendsNext, IsHead};
ghost use Rattle.postscript_type2.specs.Program.Programs.{ended, ended_over, failed};

use super::{Phase, Program};
use crate::operation::{Operand, Operator};
use postscript_base::{Error, Result};

impl<'l> Program<'l> {
    /// Returns the next operation, as [`Program::next`] does, but borrows its operands, the lowest first, from the
    /// program. Returns `None` at the end. Calls of [`Program::next`] and `step` may be mixed.
    ///
    /// Memory for the stack is allocated once, and again only if there are more than 48 operands on it. Memory is also
    /// allocated for the callers when subroutine calls nest. None is allocated for the borrowed operands.
    ///
    /// ```rust
    /// pub fn pass(program: &mut Program<'_>) -> Result<Option<(Operator, usize)>> {
    ///     match program.step()? {
    ///         Some((operator, operands)) => Ok(Some((operator, operands.len()))),
    ///         None => Ok(None),
    ///     }
    /// }
    /// ```
    ///
    /// # Errors
    ///
    /// - The errors of [`Program::next`].
    #[inline(always)]
    pub fn step(&mut self) -> Result<Option<(Operator, &[Operand])>>
        // When the borrow of the operands ends, the program is as after `next`.
        ensures* steps { sem 𝓛 (LendsNext self.entry result) }
        // The result is the first operation left, the end, the fault or `Memory`.
        ensures head { IsHead self.old result }
        // Errors: `Memory`, `UnexpectedEof`, `UnknownOperator` or `Unsupported` to `AlreadyFailed`.
        ensures listed { IsListed next_refusals result }
        // After an end at which `endchar` took no operands, the result is `None` again.
        ensures ended { self.old ≡ ended self.old.width → result ≡ Ok None }
        // After an end at which `endchar` took any operands, the result is `None` again.
        ensures over { (operands : List ℤ) → self.old ≡ ended_over operands self.old.width → result ≡ Ok None }
        // After a failure the result is `AlreadyFailed`.
        ensures failed { self.old ≡ failed self.old.width → result ≡ Err Error.AlreadyFailed }
    {
        match self.phase {
            Phase::Running => self.machine.empty(),
            Phase::Paused => self.phase = Phase::Running,
            over if over.has_failed() => return Err(Error::AlreadyFailed),
            _ => return Ok(None),
        }
        match self.machine.stop() {
            Ok(Some((operator, count))) => Ok(Some((operator, self.machine.operands(count)))),
            Ok(None) => {
                self.phase = Phase::Ended;
                Ok(None)
            }
            Err(e) => {
                self.phase = Phase::Failed;
                Err(Error::from(e))
            }
        }
    }
}
