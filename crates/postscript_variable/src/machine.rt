//! The machine of a program, which runs one number or operator at a time.
ghost use Rattle.std.specs.Prelude.{◌≡◌, ◌<◌, ◌+◌, ◌-◌, ◌^◌, length, [], ◌∷◌, suc, Ok, OnOk, IfOk, IfErr, IfSome};
ghost use Rattle.postscript_type2.specs.declared.refused.Refused.TheVariants as cases;
ghost use Rattle.postscript_type2.specs.Program.Effects.{last_of};
ghost use Rattle.postscript_variable.specs.Charstrings.{run_from};
ghost use Rattle.postscript_variable.specs.Costs.{cost_beside};
ghost use Rattle.postscript_variable.specs.Private.Machines.{IsNested, still_of, still_emptied, still_with, still_by, work_of, cost_of, Advances, Reaches};
ghost use Rattle.postscript_variable.specs.Private.Limited.{Passes, ReachesWithin};
ghost use Rattle.postscript_variable.specs.Private.Working.{font_of, state_of};

use crate::charstring::Charstring;
use crate::command::Command;
use crate::routine::{self, OPERANDS, Token};
use crate::state::{Effect, Font, State};
use postscript_type2::shared::{Callers, Refused, Result, Routine};
use postscript_type2::{Operand, Operator};
use std::alloc::Global;
use std::mem;

/// The cost of a number or an operator: a unit for each byte, with the bytes of a mask, and an additional cost.
#[derive(Clone, Copy)]
pub(crate) struct Cost {
    pub(crate) bytes: usize,
    pub(crate) beside: usize,
}

/// The result of a step of the machine.
#[derive(Drop)]
pub(crate) enum Event<'l> {
    /// The code is used up: the run ends without a fault.
    UsedUp,
    /// A subroutine is used up: the run goes on in its caller.
    Back,
    /// A number or an operator was read, and the run goes on.
    Continued(Cost),
    /// An operator with the number of its operands, which are on the stack until it is cleared, and with the bytes of
    /// its mask.
    Operation(Operator, usize, &'l [u8], Cost),
}

/// The progress of a machine within its limit: an operator with the number of its operands at the top of the stack, the
/// end without a fault, or a pause.
#[derive(Clone, Copy)]
pub(crate) enum Reach {
    At(Operator, usize),
    End,
    Paused,
}

/// The maximum depth of nested calls ("CFF2 CharString Implementation Limits").
const NESTED_CALLS: usize = 10;

/// The data of the run, the current routine, its callers, the number of further nested calls, and the state.
#[derive(Drop)]
pub(crate) struct Machine<'l> {
    pub(crate) font: Font<'l>,
    pub(crate) routine: Routine<'l>,
    pub(crate) callers: Callers<'l>,
    pub(crate) left: usize,
    pub(crate) state: State<'l>,
}

/// Subtracts a cost from the limit, down to 0.
#[inline(always)]
fn spend(limit: &mut u64, cost: Cost)
    ensures { limit.new ≡ limit.old - cost_of cost }
{
    *limit = limit
        .saturating_sub(cost.bytes as u64)
        .saturating_sub(cost.beside as u64);
}

impl<'l> Machine<'l> {
    /// A machine before the first byte of a charstring.
    pub(crate) fn over(alloc: Global, charstring: Charstring<'l>) -> Self
        ensures run { still_emptied result ≡ run_from charstring.entry }
        ensures nested { IsNested result }
    {
        let font = Font {
            subroutines: charstring.subroutines,
            tables: charstring.blends.tables,
        };
        let scalars = match font.tables.get(charstring.blends.index) {
            Some(scalars) => Some(scalars.as_slice()),
            None => None,
        };
        let state = State {
            stack: Vec::new(alloc),
            stems: 0,
            scalars,
            is_blended: false,
        };
        Machine {
            font,
            routine: Routine::new(charstring.code),
            callers: Callers::none(alloc),
            left: NESTED_CALLS,
            state,
        }
    }

    /// Pushes a number of `size` bytes onto the stack.
    #[inline(always)]
    fn push(&mut self, number: Operand, size: usize) -> Result<Event<'l>>
        requires nested { IsNested self.old }
        requires some { 0 < size }
        ensures advances { let before = still_with self.old size number in Advances before (work_of before self.old) result self.new }
        ensures nested { IfOk result (λ event. IsNested self.new) }
    {
        if self.state.stack.len() >= OPERANDS {
            return Err(Refused::Overflow);
        }
        self.state.stack.push(number)?;
        Ok(Event::Continued(Cost {
            bytes: size,
            beside: 0,
        }))
    }

    /// The cost of an operator in addition to its bytes.
    #[inline(always)]
    fn beside(&self, command: Command) -> usize
        ensures { result ≡ cost_beside command self.now.state.stack.items }
    {
        match command {
            Command::Blend => self.state.stack.len(),
            _ => 0,
        }
    }

    /// Enters a routine, if the depth allows it.
    #[inline(always)]
    fn enter(&mut self, code: &'l [u8]) -> Result<()>
        requires { 0 < self.old.left }
        ensures routine { OnOk result (self.new.routine ≡ code.now) }
        ensures callers { OnOk result (self.new.callers ≡ self.old.routine ∷ self.old.callers) }
        ensures left { OnOk result (self.old.left ≡ suc self.new.left) }
        ensures font { font_of self.new.font ≡ font_of self.old.font }
        ensures state { state_of self.new.state ≡ state_of self.old.state }
        ensures refused { IfErr result (λ e. e ≡ cases.Memory) }
    {
        let caller = mem::replace(&mut self.routine, Routine::new(code));
        self.callers.enter(caller)?;
        self.left -= 1;
        Ok(())
    }

    /// Runs an operator of `size` bytes.
    #[inline(always)]
    fn operate(&mut self, command: Command, size: usize) -> Result<Event<'l>>
        requires nested { IsNested self.old }
        requires some { 0 < size }
        requires room { size + length self.old.routine < 2 ^ 63 }
        ensures advances { let before = still_by self.old size command in Advances before (work_of before self.old) result self.new }
        ensures nested { IfOk result (λ event. IsNested self.new) }
    {
        let behind = self.routine.len();
        let beside = self.beside(command);
        let cost = Cost {
            bytes: size,
            beside,
        };
        match self.state.act(&self.font, command, behind)? {
            Effect::Keeps => Ok(Event::Continued(cost)),
            Effect::Clears(operator, count, mask) => {
                let bytes = size + mask;
                let mask = routine::take(&mut self.routine, mask);
                Ok(Event::Operation(operator, count, mask, Cost { bytes, beside }))
            }
            Effect::Calls(code) => {
                if self.left == 0 {
                    return Err(Refused::TooDeep);
                }
                self.enter(code)?;
                Ok(Event::Continued(cost))
            }
        }
    }

    /// Goes back to the caller of a routine that is used up, if there is one.
    #[inline(always)]
    fn leave(&mut self) -> Event<'l>
        requires used_up { self.old.routine ≡ [] }
        requires nested { IsNested self.old }
        ensures advances { Advances (still_of self.old) (work_of (still_of self.old) self.old) (Ok result) self.new }
        ensures nested { IsNested self.new }
    {
        match self.callers.leave() {
            Some(caller) => {
                self.routine = caller;
                self.left += 1;
                Event::Back
            }
            None => Event::UsedUp,
        }
    }

    /// Runs one number or operator, or leaves a routine that is used up.
    #[inline(always)]
    pub(crate) fn advance(&mut self) -> Result<Event<'l>>
        requires nested { IsNested self.old }
        ensures advances { Advances (still_of self.old) (work_of (still_of self.old) self.old) result self.new }
        ensures nested { IfOk result (λ event. IsNested self.new) }
    {
        let Some((token, size)) = routine::next_token(&mut self.routine)? else {
            return Ok(self.leave());
        };
        match token {
            Token::Number(bits) => self.push(Operand::from_bits(bits), size),
            Token::Operator(command) => self.operate(command, size),
        }
    }

    /// Clears the stack after an operation.
    #[inline(always)]
    pub(crate) fn empty(&mut self)
        requires nested { IsNested self.old }
        ensures still { still_of self.new ≡ still_emptied self.old }
        ensures work { work_of (still_of self.new) self.new ≡ work_of (still_emptied self.old) self.old }
        ensures nested { IsNested self.new }
    {
        self.state.stack.clear();
    }

    /// Pushes the numbers at the front onto the stack, up to its maximum and the limit.
    #[inline(always)]
    fn pass_numbers(&mut self, limit: &mut u64) -> Result<()>
        requires nested { IsNested self.old }
        ensures passes { OnOk result (Passes (still_of self.old) (work_of (still_of self.old) self.old) limit.old self.new limit.new) }
        ensures nested { OnOk result (IsNested self.new) }
        ensures refused { IfErr result (λ e. (e ≡ cases.Memory) × (limit.new ≡ limit.old)) }
    {
        let left = routine::numbers(&mut self.routine, &mut self.state.stack, *limit)?;
        *limit = left;
        Ok(())
    }

    /// Runs up to the next operation, with its operands on the stack. `None` at an end without a fault.
    #[inline(always)]
    pub(crate) fn reach(&mut self) -> Result<Option<(Operator, usize)>>
        requires nested { IsNested self.old }
        ensures reaches { Reaches (still_of self.old) result self.new }
        ensures nested { IfOk result (λ reached. IfSome reached (λ _. IsNested self.new)) }
    {
        loop {
            self.pass_numbers(&mut u64::MAX)?;
            match self.advance() {
                Ok(Event::Back | Event::Continued(_)) => {}
                Ok(Event::Operation(operator, count, _, _)) => return Ok(Some((operator, count))),
                Ok(Event::UsedUp) => return Ok(None),
                Err(e) => return Err(e),
            }
        }
    }

    /// The same within a limit.
    #[inline(always)]
    pub(crate) fn reach_within(&mut self, limit: &mut u64) -> Result<Reach>
        requires nested { IsNested self.old }
        ensures reaches { ReachesWithin (still_of self.old) limit.old result self.new limit.new }
        ensures nested { IfOk result (λ _. IsNested self.new) }
    {
        loop {
            self.pass_numbers(limit)?;
            if *limit == 0 {
                return Ok(Reach::Paused);
            }
            match self.advance() {
                Ok(Event::Back) => {}
                Ok(Event::Continued(cost)) => spend(limit, cost),
                Ok(Event::Operation(operator, count, _, cost)) => {
                    spend(limit, cost);
                    return Ok(Reach::At(operator, count));
                }
                Ok(Event::UsedUp) => return Ok(Reach::End),
                Err(e) => return Err(e),
            }
        }
    }

    /// The last `count` operands on the stack.
    #[inline(always)]
    pub(crate) fn operands(&self, count: usize) -> &[Operand]
        ensures { result.now ≡ last_of self.now.state.stack.items count }
    {
        let from = self.state.stack.len().saturating_sub(count);
        &self.state.stack[from..]
    }
}
