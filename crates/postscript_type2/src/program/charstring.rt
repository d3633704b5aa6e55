//! Charstrings.
ghost use Rattle.std.specs.Prelude.{◌≡◌, ◌≢◌, ◌⊎◌, ◌<◌, ◌≤◌, length, OnOk, IfOk, IfErr, IfSome, MatchResult};
ghost use Rattle.postscript_base.specs.declared.error.Error.TheVariants as errors;
ghost use Rattle.postscript_base.specs.Error.{code as number, IsOneOf, IsListed};
ghost use Rattle.postscript_base.specs.RefusalOf.{refusal_of};
ghost use Rattle.postscript_type2.specs.Program.Charstrings.{run_from, IsRunFrom};
ghost use Rattle.postscript_type2.specs.Program.Endings.{run_refusals, flatten_refusals};
ghost use Rattle.postscript_type2.specs.Program.Flat.{flat_text, flat_len as the_flat_len};
ghost use Rattle.postscript_type2.specs.Program.Inlined.{inlined_text, inlined_len as the_inlined_len};
ghost use Rattle.postscript_type2.specs.Program.InlinedLaws.{AddsNoOperator};
ghost use Rattle.postscript_type2.specs.Program.Inlining.{KeepsMeaning, FlatTextKeepsMeaning};
ghost use Rattle.postscript_type2.specs.Program.Limit.{cost};
ghost use Rattle.postscript_type2.specs.Program.Programs.{begun};
ghost use Rattle.postscript_type2.specs.Program.Routines.{Lists};
ghost use Rattle.postscript_type2.specs.Program.Runs.{Run, fault_of};
ghost use Rattle.postscript_type2.specs.Program.RunAnswers.{Tells};
ghost use Rattle.postscript_type2.specs.Program.Within.{AnswersWithin};

use super::flat::{flat_code, flat_code_within, measured};
use super::inlined::{inlined_code, inlined_measured};
use super::machine::Machine;
use super::subroutines::Subroutines;
use super::{Answers, Phase, Program, all_answers};
use postscript_base::Result;
use std::alloc::Global;

/// A charstring and the subroutines that it may call (Technical Note 5177, "Subroutine Operators"), all borrowed.
#[derive(Clone, Copy)]
pub struct Charstring<'l> {
    /// The bytes of the charstring.
    pub code: &'l [u8],
    /// The subroutines.
    pub subroutines: Subroutines<'l>,
}

impl<'l> Charstring<'l> {
    /// Returns the program of the charstring, before its first operation and without a width.
    ///
    /// ```rust
    /// pub fn width_over(alloc: Global, code: &[u8], table: &[u8], global: usize, local: usize) -> Result<Option<Operand>> {
    ///     let (global, _) = IndexView::open(table, global)?;
    ///     let (local, _) = IndexView::open(table, local)?;
    ///     let subroutines = Subroutines::indexes(global, local);
    ///     let mut program = Charstring { code, subroutines }.program(alloc);
    ///     program.next()?;
    ///     Ok(program.width())
    /// }
    /// ```
    pub fn program(self, alloc: Global) -> Program<'l>
        // The program is at the start of the run by the rules (specs/Program/Meaning.antt).
        ensures meant { (run : Run) × IsRunFrom self.entry run × (result ≡ begun run) }
        // The program is at the start of the computed run (specs/Program/Evaluation.antt).
        ensures value { result ≡ begun (run_from self.entry) }
    {
        Program {
            machine: Machine::over(alloc, self),
            phase: Phase::Running,
        }
    }

    /// Runs the charstring to its end and returns everything, as the function `run` does.
    ///
    /// # Errors
    ///
    /// - `Memory`: out of memory.
    pub fn run(self, alloc: Global) -> Result<Answers>
        // A fault is `UnexpectedEof`, `UnknownOperator` or one of `Unsupported` to `TooManyStems`.
        ensures listed { IfOk result (λ told. IfSome told.fault (λ e. IsOneOf run_refusals (number e))) }
        // The result is exactly the run by the rules (specs/Program/Meaning.antt).
        ensures meant { IfOk result (λ told. (run : Run) × IsRunFrom self.entry run × Tells told run) }
        // The result is exactly the computed run, and the only error is `Memory`.
        ensures tells { MatchResult result (λ told. Tells told (run_from self.entry)) (λ e. e ≡ errors.Memory) }
    {
        all_answers(alloc, &mut self.program(alloc))
    }

    /// Returns the number of bytes of the code of [`Charstring::flatten`], or `usize::MAX` if it has more.
    ///
    /// # Errors
    ///
    /// - The fault that ends the run: `UnexpectedEof`, `UnknownOperator`, or one from `Unsupported` to `TooManyStems`.
    /// - `Memory`: out of memory.
    pub fn flat_len(self, alloc: Global) -> Result<usize>
        // On success the run ends without a fault.
        ensures faultless { OnOk result (fault_of (run_from self.entry).end ≡ None) }
        // The result is the length of the flat text of the run, or `usize::MAX` if it is longer.
        ensures measures { IfOk result (λ len. len ≡ the_flat_len (run_from self.entry).trace) }
        // The result is also this length for the run by the rules (specs/Program/Meaning.antt).
        ensures meant { IfOk result (λ len. (run : Run) × IsRunFrom self.entry run × (len ≡ the_flat_len run.trace)) }
        // An error other than `Memory` is the fault that ends the run.
        ensures refused { IfErr result (λ e. (e ≡ errors.Memory) ⊎ (fault_of (run_from self.entry).end ≡ Some (refusal_of e))) }
        // Errors: `Memory`, `UnexpectedEof`, `UnknownOperator` or `Unsupported` to `TooManyStems`.
        ensures listed { IsListed flatten_refusals result }
    {
        measured(&mut Machine::over(alloc, self))
    }

    /// Returns the same glyph as flat code, without calls, as [`Program::flatten`] does.
    ///
    /// # Errors
    ///
    /// - The fault that ends the run: `UnexpectedEof`, `UnknownOperator`, or one from `Unsupported` to `TooManyStems`.
    /// - `Memory`: out of memory.
    pub fn flatten(self, alloc: Global) -> Result<Vec<u8>>
        // On success the run ends without a fault.
        ensures faultless { OnOk result (fault_of (run_from self.entry).end ≡ None) }
        // The code is the flat text of the run (specs/Program/Flat.antt).
        ensures text { IfOk result (λ flat. flat.items ≡ flat_text (run_from self.entry).trace) }
        // The code is the flat text of the run by the rules (specs/Program/Meaning.antt).
        ensures meant { IfOk result (λ flat. (run : Run) × IsRunFrom self.entry run × (flat.items ≡ flat_text run.trace)) }
        // Over any subroutines, it has the operations, hints and width of the run, and no calls.
        ensures keeps { IfOk result (λ flat. (other : Lists) → KeepsMeaning other flat.items (run_from self.entry)) }
        // An error other than `Memory` is the fault that ends the run.
        ensures refused { IfErr result (λ e. (e ≡ errors.Memory) ⊎ (fault_of (run_from self.entry).end ≡ Some (refusal_of e))) }
        // Errors: `Memory`, `UnexpectedEof`, `UnknownOperator` or `Unsupported` to `TooManyStems`.
        ensures listed { IsListed flatten_refusals result }
        // The flat text of any run without a fault keeps its meaning over any subroutines.
        ensures law { FlatTextKeepsMeaning }
        // The length of the code is the result of `flat_len`.
        ensures measured { IfOk result (λ flat. length flat.items ≡ the_flat_len (run_from self.entry).trace) }
    {
        let len = self.flat_len(alloc)?;
        flat_code(alloc, len, &mut Machine::over(alloc, self))
    }

    /// Returns the code of [`Charstring::flatten`] if the run ends within the limit, or `None` if the limit is used up
    /// first. [`Program::step_within`] describes how the limit is spent. The charstring is run once.
    ///
    /// ```rust
    /// pub fn flat_or_long(alloc: Global, code: &[u8], subroutines: Subroutines<'_>) -> Result<Option<Vec<u8>>> {
    ///     let mut limit = 1_000_000;
    ///     Charstring { code, subroutines }.flatten_within(alloc, &mut limit)
    /// }
    /// ```
    ///
    /// # Errors
    ///
    /// - The fault that ends the run: `UnexpectedEof`, `UnknownOperator`, or one from `Unsupported` to `TooManyStems`.
    /// - `Memory`: out of memory.
    pub fn flatten_within(self, alloc: Global, limit: &mut u64) -> Result<Option<Vec<u8>>>
        // `None` means that the limit is used up, any other result but `Memory` that the run fits.
        ensures fits { AnswersWithin (run_from self.entry).trace limit.old result limit.new }
        // If the run costs less than the limit, the result is not `None`.
        ensures suffices { cost (run_from self.entry).trace < limit.old → result ≢ Ok None }
        // If code is returned, the run ends without a fault.
        ensures faultless { IfOk result (λ told. IfSome told (λ _. fault_of (run_from self.entry).end ≡ None)) }
        // The code is the flat text of the run (specs/Program/Flat.antt).
        ensures text { IfOk result (λ told. IfSome told (λ flat. flat.items ≡ flat_text (run_from self.entry).trace)) }
        // The code is the flat text of the run by the rules (specs/Program/Meaning.antt).
        ensures meant { IfOk result
            (λ told. IfSome told (λ flat. (run : Run) × IsRunFrom self.entry run × (flat.items ≡ flat_text run.trace))) }
        // Over any subroutines, it has the operations, hints and width of the run, and no calls.
        ensures keeps { IfOk result (λ told. IfSome told (λ flat. (other : Lists) → KeepsMeaning other flat.items (run_from self.entry))) }
        // An error other than `Memory` is the fault that ends the run.
        ensures refused { IfErr result (λ e. (e ≡ errors.Memory) ⊎ (fault_of (run_from self.entry).end ≡ Some (refusal_of e))) }
        // Errors: `Memory`, `UnexpectedEof`, `UnknownOperator` or `Unsupported` to `TooManyStems`.
        ensures listed { IsListed flatten_refusals result }
    {
        flat_code_within(alloc, &mut Machine::over(alloc, self), limit)
    }

    /// Returns the number of bytes of the code of [`Charstring::inlined`], or `usize::MAX` if it has more.
    ///
    /// # Errors
    ///
    /// - The fault that ends the run: `UnexpectedEof`, `UnknownOperator`, or one from `Unsupported` to `TooManyStems`.
    /// - `Memory`: out of memory.
    pub fn inlined_len(self, alloc: Global) -> Result<usize>
        // On success the run ends without a fault.
        ensures faultless { OnOk result (fault_of (run_from self.entry).end ≡ None) }
        // The result is the length of the inlined text of the run, or `usize::MAX` if it is longer.
        ensures measures { IfOk result (λ len. len ≡ the_inlined_len (run_from self.entry).trace) }
        // The result is also this length for the run by the rules (specs/Program/Meaning.antt).
        ensures meant { IfOk result (λ len. (run : Run) × IsRunFrom self.entry run × (len ≡ the_inlined_len run.trace)) }
        // An error other than `Memory` is the fault that ends the run.
        ensures refused { IfErr result (λ e. (e ≡ errors.Memory) ⊎ (fault_of (run_from self.entry).end ≡ Some (refusal_of e))) }
        // Errors: `Memory`, `UnexpectedEof`, `UnknownOperator` or `Unsupported` to `TooManyStems`.
        ensures listed { IsListed flatten_refusals result }
    {
        inlined_measured(&mut Machine::over(alloc, self))
    }

    /// Returns the same glyph as desubroutinized code (no calls), as [`Program::inlined`] does. It is never longer than
    /// the code of [`Charstring::flatten`].
    ///
    /// # Errors
    ///
    /// - The fault that ends the run: `UnexpectedEof`, `UnknownOperator`, or one from `Unsupported` to `TooManyStems`.
    /// - `Memory`: out of memory.
    pub fn inlined(self, alloc: Global) -> Result<Vec<u8>>
        // On success the run ends without a fault.
        ensures faultless { OnOk result (fault_of (run_from self.entry).end ≡ None) }
        // The code is the inlined text of the run (specs/Program/Inlined.antt).
        ensures text { IfOk result (λ flat. flat.items ≡ inlined_text (run_from self.entry).trace) }
        // The code is the inlined text of the run by the rules (specs/Program/Meaning.antt).
        ensures meant { IfOk result (λ flat. (run : Run) × IsRunFrom self.entry run × (flat.items ≡ inlined_text run.trace)) }
        // Over any subroutines, it has the operations, hints and width of the run, and no calls.
        ensures keeps { IfOk result (λ flat. (other : Lists) → KeepsMeaning other flat.items (run_from self.entry)) }
        // If each call has its number right before it, no operator is added to those of the run.
        ensures adds_none { IfOk result (λ flat. (other : Lists) → AddsNoOperator other flat.items (run_from self.entry)) }
        // The code is never longer than the flat text of the run.
        ensures no_longer { IfOk result (λ flat. length flat.items ≤ length (flat_text (run_from self.entry).trace)) }
        // An error other than `Memory` is the fault that ends the run.
        ensures refused { IfErr result (λ e. (e ≡ errors.Memory) ⊎ (fault_of (run_from self.entry).end ≡ Some (refusal_of e))) }
        // Errors: `Memory`, `UnexpectedEof`, `UnknownOperator` or `Unsupported` to `TooManyStems`.
        ensures listed { IsListed flatten_refusals result }
        // The length of the code is the result of `inlined_len`.
        ensures measured { IfOk result (λ flat. length flat.items ≡ the_inlined_len (run_from self.entry).trace) }
    {
        inlined_code(alloc, &mut Machine::over(alloc, self))
    }
}
