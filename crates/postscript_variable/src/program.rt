//! Programs.
ghost use Rattle.std.specs.Borrow.{sem};
ghost use Rattle.std.specs.Prelude.{◌≡◌};
ghost use Rattle.postscript_base.specs.Error.{IsListed};
ghost use Rattle.postscript_variable.specs.Endings.{step_refusals};
ghost use Rattle.postscript_variable.specs.Lending.{LendsNext, IsHead};
ghost use Rattle.postscript_variable.specs.Programs.{ended, failed};

use crate::machine::Machine;
use postscript_base::{Error, Result};
use postscript_type2::shared::Phase;
use postscript_type2::{Operand, Operator};
use std::marker::Model;

/// A running CFF2 charstring, which returns one operation at a time.
#[derive(Drop)]
pub struct Program<'l> {
    pub(crate) machine: Machine<'l>,
    pub(crate) phase: Phase,
}

impl<'l> Model for Program<'l> {
    ghost use Rattle.postscript_variable.specs.Programs.{Pending};

    ghost Value = { Pending };

    ghost use Rattle.postscript_variable.specs.Private.Views.{pending_of};

    ghost view = { λ program. pending_of program.phase program.machine };

    ghost use Rattle.std.specs.Prelude.{◌≡◌};
    ghost use Rattle.postscript_variable.specs.Private.Machines.{IsNested};
    ghost use Rattle.postscript_type2.specs.declared.program.Phase.TheVariants as phases;

    ghost invariant = { λ program. (program.phase ≡ phases.Running → IsNested program.machine) ×
        (program.phase ≡ phases.Paused → IsNested program.machine) };
}

impl<'l> Program<'l> {
    /// Runs to the next operation, and returns its operator and its operands as 16.16 numbers, the lowest first.
    ///
    /// The operands are borrowed until the program is used again. At the end it returns `None`, and `None` again from
    /// then on. It allocates only if the stack of operands or of callers grows. There is no limit: use
    /// [`Program::step_within`] for one.
    ///
    /// # Errors
    ///
    /// By the rules of a run (`specs/Meaning.antt`):
    ///
    /// - `UnexpectedEof`: the code ends inside an operator, a number or a mask.
    /// - `UnknownOperator`: there is no such operator.
    /// - `ExpectedInteger`: there is no whole number on top of the stack, which the operator needs.
    /// - `ExpectedMoreOperands`: a `blend` counts more operands than there are.
    /// - `MalformedOperands`: the operator does not take this number of operands.
    /// - `InvalidOperand`: a `vsindex` is after a `blend` or has no item variation data, or a `blend` has none or a negative
    ///   count.
    /// - `MissingSubroutine`: there is no such subroutine.
    /// - `TooDeep`: more than ten calls are nested.
    /// - `Overflow`: the stack is full, or a blended value is out of range.
    /// - `TooManyStems`: there are 2^32 stems or more.
    ///
    /// Besides these:
    ///
    /// - `Memory`: out of memory.
    /// - `AlreadyFailed`: an earlier call failed.
    #[inline(always)]
    pub fn step(&mut self) -> Result<Option<(Operator, &[Operand])>>
        // Each call returns the next operation, the end or the error of the run, or `Memory`.
        ensures* steps { sem 𝓛 (LendsNext self.entry result) }
        // The operation is the first one that is left, with its operands.
        ensures head { IsHead self.old result }
        // The only errors are the ones listed above.
        ensures listed { IsListed step_refusals result }
        // After the end, the result is `None` again.
        ensures ended { self.old ≡ ended → result ≡ Ok None }
        // After an error, the result is `AlreadyFailed`.
        ensures failed { self.old ≡ failed → result ≡ Err Error.AlreadyFailed }
    {
        match self.phase {
            Phase::Running => self.machine.empty(),
            Phase::Paused => self.phase = Phase::Running,
            Phase::Ended => return Ok(None),
            Phase::Failed => return Err(Error::AlreadyFailed),
        }
        match self.machine.reach() {
            Ok(Some((operator, count))) => Ok(Some((operator, self.machine.operands(count)))),
            Ok(None) => {
                self.phase = Phase::Ended;
                Ok(None)
            }
            Err(e) => {
                self.phase = Phase::Failed;
                Err(Error::from(e))
            }
        }
    }
}
