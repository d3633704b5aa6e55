//! Operations within a limit.
ghost use Rattle.std.specs.Borrow.{sem};
ghost use Rattle.std.specs.Prelude.{◌≡◌, ◌≢◌, ◌<◌};
ghost use Rattle.postscript_base.specs.Error.{IsListed};
ghost use Rattle.postscript_variable.specs.Endings.{step_refusals};
ghost use Rattle.postscript_variable.specs.Limit.{cost};
ghost use Rattle.postscript_variable.specs.Programs.{ended, failed};
ghost use Rattle.postscript_variable.specs.Within.{LendsWithin, IsHeadWithin};

use crate::machine::Reach;
use crate::program::Program;
use postscript_base::{Error, Result};
use postscript_type2::Within;
use postscript_type2::shared::Phase;

impl<'l> Program<'l> {
    /// Runs to the next operation, as [`Program::step`] does, within a limit of `*limit` units.
    ///
    /// A number or an operator costs a unit for each of its bytes, and `blend` one more for each operand on the stack
    /// (`specs/Costs.antt`). It is run only while the limit is above 0. If it costs more than the rest of the limit, it
    /// takes all of the rest.
    ///
    /// After `Paused` nothing is lost: any later call goes on from there. A run that costs less than the limit is never
    /// paused. Calls of `step` may be mixed in, and have no limit. The call allocates as `step` does.
    ///
    /// # Errors
    ///
    /// - The errors of [`Program::step`].
    #[inline(always)]
    pub fn step_within(&mut self, limit: &mut u64) -> Result<Within<'_>>
        // Each call returns the next operation or the end, or pauses at 0, and subtracts its cost.
        ensures* steps { sem 𝓛 (LendsWithin self.entry limit.old result limit.new) }
        // The operation is the first one that is left, with its operands.
        ensures head { IsHeadWithin self.old result }
        // The only errors are the ones of `step`.
        ensures listed { IsListed step_refusals result }
        // After the end, the result is the end again.
        ensures ended { self.old ≡ ended → result ≡ Ok Within.End }
        // After an error, the result is `AlreadyFailed`.
        ensures failed { self.old ≡ failed → result ≡ Err Error.AlreadyFailed }
        // If the rest of the run costs less than the limit, there is no pause.
        ensures suffices { cost self.old.costs < limit.old → result ≢ Ok Within.Paused }
    {
        match self.phase {
            Phase::Running => self.machine.empty(),
            Phase::Paused => self.phase = Phase::Running,
            Phase::Ended => return Ok(Within::End),
            Phase::Failed => return Err(Error::AlreadyFailed),
        }
        match self.machine.reach_within(limit) {
            Ok(Reach::At(operator, count)) => Ok(Within::Operation(
                operator,
                self.machine.operands(count),
            )),
            Ok(Reach::End) => {
                self.phase = Phase::Ended;
                Ok(Within::End)
            }
            Ok(Reach::Paused) => {
                self.phase = Phase::Paused;
                Ok(Within::Paused)
            }
            Err(e) => {
                self.phase = Phase::Failed;
                Err(Error::from(e))
            }
        }
    }
}
