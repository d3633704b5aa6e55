//! Charstrings.
ghost use Rattle.std.specs.Prelude.{◌≡◌, List};
ghost use Rattle.postscript_type2.specs.Program.Runs.{Answer};
ghost use Rattle.postscript_variable.specs.Charstrings.{run_from, IsRunFrom};
ghost use Rattle.postscript_variable.specs.Meaning.{End};
ghost use Rattle.postscript_variable.specs.Programs.{begun, end_of};

use crate::machine::Machine;
use crate::program::Program;
use postscript_type2::Subroutines;
use postscript_type2::shared::Phase;
use std::alloc::Global;

/// The data for `blend` at a location of the font.
///
/// It has, for each item variation data of the variation store (ItemVariationData) in order, the scalars of its regions
/// in units of 1 / 65536. It also has the number that the Private DICT gives by `vsindex`, or 0. A font without a
/// variation store has no scalars.
#[derive(Clone, Copy)]
pub struct Blends<'l> {
    /// The scalars of each item variation data.
    pub tables: &'l [Vec<u32>],
    /// The number of the item variation data in use at first.
    pub index: usize,
}

/// A CFF2 charstring with its subroutines and the data for `blend`. All are borrowed.
#[derive(Clone, Copy)]
pub struct Charstring<'l> {
    /// The bytes of the charstring.
    pub code: &'l [u8],
    /// The subroutines.
    pub subroutines: Subroutines<'l>,
    /// The data for `blend`.
    pub blends: Blends<'l>,
}

impl<'l> Charstring<'l> {
    /// Returns a program that runs the charstring, before its first operation.
    pub fn program(self, alloc: Global) -> Program<'l>
        // The program returns the operations and the end that the charstring has by the rules.
        ensures meant { (answers : List Answer) × (end : End) × IsRunFrom self.entry answers end ×
            (result.answers ≡ answers) × (result.end ≡ end_of end) }
        // The program is at the beginning of the computed run.
        ensures value { result ≡ begun (run_from self.entry) }
    {
        Program {
            machine: Machine::over(alloc, self),
            phase: Phase::Running,
        }
    }
}
