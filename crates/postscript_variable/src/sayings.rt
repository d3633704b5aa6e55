//! All operations of a charstring at once.
ghost use Rattle.std.specs.Prelude.{◌≡◌, ◌⊎◌, ◌∷◌, map, IfOk, IfErr, OnOk};
ghost use Rattle.postscript_base.specs.declared.error.Error.TheVariants as errors;
ghost use Rattle.postscript_base.specs.Error.{IsListed};
ghost use Rattle.postscript_base.specs.RefusalOf.{refusal_of};
ghost use Rattle.postscript_type2.specs.Operation.Kinds.{kind};
ghost use Rattle.postscript_type2.specs.Program.Effects.{last_of};
ghost use Rattle.postscript_type2.specs.declared.refused.Refused.TheVariants as cases;
ghost use Rattle.postscript_variable.specs.State.{State as ProgramState};
ghost use Rattle.postscript_variable.specs.Endings.{sayings_refusals};
ghost use Rattle.postscript_variable.specs.Meaning.{UsedUp, Stopped};
ghost use Rattle.postscript_variable.specs.Private.Machines.{IsNested, still_of};
ghost use Rattle.postscript_type2.specs.Refused.{reason};
ghost use Rattle.postscript_variable.specs.Sayings.{implied_by, said};
ghost use Rattle.postscript_variable.specs.Told.{Says, StopsWith, said_of};

use crate::charstring::Charstring;
use crate::machine::{Event, Machine};
use postscript_base::{Error, Result};
use postscript_type2::{Operand, Operator, shared};
use std::alloc::Global;

/// An operation in full: an operator with its operands, and the hints of a mask.
#[derive(Drop)]
pub struct Saying<'l> {
    /// The operator.
    pub operator: Operator,
    /// At a mask, the operands before it for stems that no operator declared. Empty at every other operator.
    pub stems: Vec<Operand>,
    /// Its operands as 16.16 numbers, the lowest first.
    pub operands: Vec<Operand>,
    /// The bytes of its mask.
    pub mask: &'l [u8],
}

impl<'l> Machine<'l> {
    /// Copies the last `count` operands on the stack.
    fn copy_operands(&self, alloc: Global, count: usize) -> shared::Result<Vec<Operand>>
        ensures ok { IfOk result (λ operands. operands.items ≡ last_of self.now.state.stack.items count) }
        ensures err { IfErr result (λ e. e ≡ cases.Memory) }
    {
        let operands = Vec::from_slice(alloc, self.operands(count))?;
        Ok(operands)
    }

    /// The operands of the stems that an operator implies.
    fn stems(&self, alloc: Global, operator: Operator) -> shared::Result<Vec<Operand>>
        ensures ok { IfOk result (λ stems. stems.items ≡ implied_by (kind operator) self.now.state.stack.items) }
        ensures err { IfErr result (λ e. e ≡ cases.Memory) }
    {
        let count = self.state.stack.len();
        match operator {
            Operator::HintMask | Operator::CntrMask => self.copy_operands(alloc, count - count % 2),
            _ => Ok(Vec::new(alloc)),
        }
    }

    /// The operation of an operator, copied from the stack.
    fn saying(
        &self,
        alloc: Global,
        operator: Operator,
        count: usize,
        mask: &'l [u8],
    ) -> shared::Result<Saying<'l>>
        ensures ok { let stack = self.now.state.stack.items in
            IfOk result (λ saying. said_of saying ≡ said operator stack (last_of stack count) mask.now) }
        ensures err { IfErr result (λ e. e ≡ cases.Memory) }
    {
        Ok(Saying {
            operator,
            stems: self.stems(alloc, operator)?,
            operands: self.copy_operands(alloc, count)?,
            mask,
        })
    }
}

/// All operations that are left in a machine.
fn all_sayings<'l>(alloc: Global, machine: &mut Machine<'l>) -> shared::Result<Vec<Saying<'l>>>
    requires { IsNested machine.old }
    ensures told { IfOk result (λ sayings. map said_of sayings.items ≡ (still_of machine.old).says) }
    ensures faultless { OnOk result ((last : ProgramState) × ((still_of machine.old).end ≡ UsedUp last)) }
    ensures refused { IfErr result (λ e. (e ≡ cases.Memory) ⊎ ((still_of machine.old).end ≡ Stopped (reason e))) }
{
    let mut sayings = Vec::new(alloc);
    loop {
        match machine.advance()? {
            Event::UsedUp => return Ok(sayings),
            Event::Back | Event::Continued(_) => {}
            Event::Operation(operator, count, mask, _) => {
                sayings.push(machine.saying(alloc, operator, count, mask)?)?;
                machine.empty();
            }
        }
    }
}

impl<'l> Charstring<'l> {
    /// Runs the charstring to its end, and returns all operations: each operator that draws, declares stems or masks.
    ///
    /// An operation has its operands, the stems that a mask implies, and the bytes of a mask (`specs/Told.antt`). The
    /// operators and operands are the same as from [`Program::step`]. There is no limit.
    ///
    /// # Errors
    ///
    /// - The errors of [`Program::step`] apart from `AlreadyFailed`.
    pub fn sayings(self, alloc: Global) -> Result<Vec<Saying<'l>>>
        // The run ends without a fault by the rules, and these are all of its operations in order.
        ensures said { IfOk result (λ sayings. Says self.entry (map said_of sayings.items)) }
        // An error is `Memory`, or the run stops with this error by the rules.
        ensures refused { IfErr result (λ e. (e ≡ errors.Memory) ⊎ StopsWith self.entry (refusal_of e)) }
        // The only errors are the ones of `Program::step` without `AlreadyFailed`.
        ensures listed { IsListed sayings_refusals result }
    {
        let mut machine = Machine::over(alloc, self);
        machine.empty();
        match all_sayings(alloc, &mut machine) {
            Ok(sayings) => Ok(sayings),
            Err(e) => Err(Error::from(e)),
        }
    }
}
