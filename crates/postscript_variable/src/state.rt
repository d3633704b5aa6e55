//! The effect of an operator on the stack.
ghost use Rattle.std.specs.Prelude.{◌≡◌, ◌≤◌, ◌*◌, ℕ, suc, List, length, nat_lt, IfOk};
ghost use Rattle.postscript_type2.specs.Program.Charstrings.{lists_of};
ghost use Rattle.postscript_variable.specs.Effects.{effect, path_move, stem_move, mask_move, answer_move, index_move, blend_over, call_move};
ghost use Rattle.postscript_type2.specs.Operation.Kinds.{kind};
ghost use Rattle.postscript_variable.specs.Programs.{tables_of};
ghost use Rattle.postscript_variable.specs.Private.Working.{font_of, state_of, mask_of, Does, Leaves};

use crate::blend::blend;
use crate::command::Command;
use postscript_type2::shared::{Refused, Result, stems_after, whole_operand};
use postscript_type2::{Operand, Operator, Subroutines};

/// The subroutines, and the scalars of the regions of each item variation data.
#[derive(Clone, Copy)]
pub(crate) struct Font<'l> {
    pub(crate) subroutines: Subroutines<'l>,
    pub(crate) tables: &'l [Vec<u32>],
}

/// The operands, with the top last, the number of stems, the scalars in use, and whether a `blend` was run.
#[derive(Drop)]
pub(crate) struct State<'l> {
    pub(crate) stack: Vec<Operand>,
    pub(crate) stems: u32,
    pub(crate) scalars: Option<&'l [u32]>,
    pub(crate) is_blended: bool,
}

/// The effect of an operator: `Keeps` goes on with the run. `Clears` returns an operator of Type 2 charstrings, with a
/// number of operands at the top and a number of bytes for its mask. `Calls` calls a routine.
#[derive(Drop)]
pub(crate) enum Effect<'l> {
    Keeps,
    Clears(Operator, usize, usize),
    Calls(&'l [u8]),
}

/// Whether there are too few operands for `n` defaults and a delta of each for each region.
#[inline(always)]
fn has_fewer(operands: usize, n: usize, regions: usize) -> bool
    ensures { result ≡ nat_lt operands (n * suc regions) }
{
    (operands as u128) < n as u128 * (regions as u128 + 1)
}

impl<'l> State<'l> {
    /// Runs an operator that draws.
    fn path(&mut self, operator: Operator) -> Result<Effect<'l>>
        ensures value { Does (path_move operator (state_of self.old)) result self.new }
        ensures room { IfOk result (λ effect. mask_of effect ≡ 0) }
        ensures stays { IfOk result (λ effect. Leaves effect self.old.stack.items self.new.stack.items) }
    {
        match operator.taken(self.stack.len()) {
            Some(count) => Ok(Effect::Clears(operator, count, 0)),
            None => Err(Refused::MalformedOperands),
        }
    }

    /// Runs an operator that declares stems.
    #[inline(always)]
    fn stem(&mut self, operator: Operator) -> Result<Effect<'l>>
        ensures value { Does (stem_move operator (state_of self.old)) result self.new }
        ensures room { IfOk result (λ effect. mask_of effect ≡ 0) }
        ensures stays { IfOk result (λ effect. Leaves effect self.old.stack.items self.new.stack.items) }
    {
        let stems = stems_after(self.stems, self.stack.len())?;
        let Some(count) = operator.taken(self.stack.len()) else {
            return Err(Refused::MalformedOperands);
        };
        self.stems = stems;
        Ok(Effect::Clears(operator, count, 0))
    }

    /// Runs a mask operator with `behind` bytes after it.
    #[inline(always)]
    fn mask(&mut self, operator: Operator, behind: usize) -> Result<Effect<'l>>
        ensures value { (bytes : List ℕ) → length bytes ≡ behind → Does (mask_move operator bytes (state_of self.old)) result self.new }
        ensures room { IfOk result (λ effect. mask_of effect ≤ behind) }
        ensures stays { IfOk result (λ effect. Leaves effect self.old.stack.items self.new.stack.items) }
    {
        let stems = stems_after(self.stems, self.stack.len())?;
        let mask = (stems as usize).div_ceil(8);
        if behind < mask {
            return Err(Refused::UnexpectedEof);
        }
        let Some(count) = operator.taken(self.stack.len()) else {
            return Err(Refused::MalformedOperands);
        };
        self.stems = stems;
        Ok(Effect::Clears(operator, count, mask))
    }

    /// Runs an operator that is returned to the caller.
    fn answer(&mut self, operator: Operator, behind: usize) -> Result<Effect<'l>>
        ensures value { (bytes : List ℕ) → length bytes ≡ behind →
            Does (answer_move (kind operator) operator bytes (state_of self.old)) result self.new }
        ensures room { IfOk result (λ effect. mask_of effect ≤ behind) }
        ensures stays { IfOk result (λ effect. Leaves effect self.old.stack.items self.new.stack.items) }
    {
        match operator {
            Operator::HStem | Operator::VStem | Operator::HStemHM | Operator::VStemHM => self.stem(
                operator,
            ),
            Operator::HintMask | Operator::CntrMask => self.mask(operator, behind),
            _ => self.path(operator),
        }
    }

    /// |- ivs vsindex (15) |-
    fn index(&mut self, tables: &'l [Vec<u32>]) -> Result<Effect<'l>>
        ensures value { Does (index_move (tables_of tables.now) (state_of self.old)) result self.new }
        ensures room { IfOk result (λ effect. mask_of effect ≡ 0) }
        ensures stays { IfOk result (λ effect. Leaves effect self.old.stack.items self.new.stack.items) }
    {
        if self.is_blended {
            return Err(Refused::InvalidOperand);
        }
        let number = whole_operand(&mut self.stack)?;
        if number < 0 {
            return Err(Refused::InvalidOperand);
        }
        match tables.get(number as usize) {
            Some(scalars) => {
                self.scalars = Some(scalars.as_slice());
                self.stack.clear();
                Ok(Effect::Keeps)
            }
            None => Err(Refused::InvalidOperand),
        }
    }

    /// num(0) .. num(n-1) delta(0,0) .. delta(k-1,n-1) n blend (16) val(0) .. val(n-1)
    fn blend(&mut self) -> Result<Effect<'l>>
        ensures value { Does (blend_over (state_of self.old) (state_of self.old).scalars) result self.new }
        ensures room { IfOk result (λ effect. mask_of effect ≡ 0) }
        ensures stays { IfOk result (λ effect. Leaves effect self.old.stack.items self.new.stack.items) }
    {
        let Some(scalars) = self.scalars else {
            return Err(Refused::InvalidOperand);
        };
        let number = whole_operand(&mut self.stack)?;
        if number < 0 {
            return Err(Refused::InvalidOperand);
        }
        let n = number as usize;
        if has_fewer(self.stack.len(), n, scalars.len()) {
            return Err(Refused::ExpectedMoreOperands);
        }
        blend(&mut self.stack, n, scalars)?;
        self.is_blended = true;
        Ok(Effect::Keeps)
    }

    /// subr# callsubr (10)
    #[inline(always)]
    fn call_local(&mut self, subroutines: &Subroutines<'l>) -> Result<Effect<'l>>
        ensures value { Does (call_move (state_of self.old) (lists_of subroutines.now).local) result self.new }
        ensures room { IfOk result (λ effect. mask_of effect ≡ 0) }
        ensures stays { IfOk result (λ effect. Leaves effect self.old.stack.items self.new.stack.items) }
    {
        let number = whole_operand(&mut self.stack)?;
        match subroutines.local(number) {
            Some(routine) => Ok(Effect::Calls(routine)),
            None => Err(Refused::MissingSubroutine),
        }
    }

    /// globalsubr# callgsubr (29)
    #[inline(always)]
    fn call_global(&mut self, subroutines: &Subroutines<'l>) -> Result<Effect<'l>>
        ensures value { Does (call_move (state_of self.old) (lists_of subroutines.now).global) result self.new }
        ensures room { IfOk result (λ effect. mask_of effect ≡ 0) }
        ensures stays { IfOk result (λ effect. Leaves effect self.old.stack.items self.new.stack.items) }
    {
        let number = whole_operand(&mut self.stack)?;
        match subroutines.global(number) {
            Some(routine) => Ok(Effect::Calls(routine)),
            None => Err(Refused::MissingSubroutine),
        }
    }

    /// Runs an operator with `behind` bytes after it.
    #[inline(always)]
    pub(crate) fn act(
        &mut self,
        font: &Font<'l>,
        command: Command,
        behind: usize,
    ) -> Result<Effect<'l>>
        ensures value { (bytes : List ℕ) → length bytes ≡ behind →
            Does (effect (font_of font.now) command bytes (state_of self.old)) result self.new }
        ensures room { IfOk result (λ effect. mask_of effect ≤ behind) }
        ensures stays { IfOk result (λ effect. Leaves effect self.old.stack.items self.new.stack.items) }
    {
        match command {
            Command::Answered(operator) => self.answer(operator, behind),
            Command::VsIndex => self.index(font.tables),
            Command::Blend => self.blend(),
            Command::CallSubr => self.call_local(&font.subroutines),
            Command::CallGSubr => self.call_global(&font.subroutines),
        }
    }
}
