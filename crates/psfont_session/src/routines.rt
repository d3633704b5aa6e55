//! The input of a run.
ghost use Rattle.std.specs.Prelude.{◌≡◌, ◌⊎◌, ℕ, [], OnOk, OnErr, ◌∷◌, map, vec_items, IfOk, IfErr, MatchResult};
ghost use Rattle.postscript.specs.Error.{IsListed};
ghost use Rattle.postscript.specs.RefusalOf.{refusal_of};
ghost use Rattle.postscript.specs.Program.Endings.{flatten_refusals};
ghost use Rattle.postscript.specs.Program.Evaluation.{run_of};
ghost use Rattle.postscript.specs.Program.Flat.{flat_text};
ghost use Rattle.postscript.specs.Program.Inlining.{KeepsMeaning};
ghost use Rattle.postscript.specs.Program.Meaning.{IsRunOf};
ghost use Rattle.postscript.specs.Program.Within.{Fits};
ghost use Rattle.postscript.specs.Program.Routines.{Lists, subroutines};
ghost use Rattle.postscript.specs.Program.Runs.{Run, fault_of};
ghost use Rattle.postscript.specs.Program.RunAnswers.{Tells};
ghost use Rattle.psfont_session.specs.Loaded.{Loaded, put, lists_of};

use crate::command::Place;
use postscript::type2::{self, Answers, Program};
use postscript::{Error, Result};
use std::alloc::Global;
use std::marker::Model;

/// The code, and the subroutines that it may call.
#[derive(Drop)]
pub struct Routines {
    code: Vec<u8>,
    global: Vec<Vec<u8>>,
    local: Vec<Vec<u8>>,
}

impl Model for Routines {
    ghost Value = { Loaded };

    ghost view = { λ routines. record {
      code = routines.code.items;
      global = map vec_items routines.global.items;
      local = map vec_items routines.local.items;
    } };
}

/// Whether the run of a code ends or fails within a limit.
#[tactic(auto, using(crate::proofs::Limiting::with_left))]
fn fits(
    alloc: Global,
    code: &[u8],
    global: &[Vec<u8>],
    local: &[Vec<u8>],
    limit: u64,
) -> Result<bool>
    ensures fits { IfOk result (λ fits. (left : ℕ) × Fits (run_of (subroutines global.now local.now) code.now).trace limit fits left) }
    ensures memory { IfErr result (λ e. e ≡ Error.Memory) }
{
    let mut left = limit;
    let mut program = Program::new(alloc, code, global, local);
    program.fits(&mut left)
}

impl Routines {
    /// Starts without code and subroutines.
    pub fn new(alloc: Global) -> Routines
        ensures { result ≡ record { code = []; global = []; local = [] } }
    {
        Routines {
            code: Vec::new(alloc),
            global: Vec::new(alloc),
            local: Vec::new(alloc),
        }
    }

    /// Stores bytes as code or as a subroutine. New code starts without subroutines.
    pub fn load(&mut self, place: Place, bytes: Vec<u8>) -> Result<()>
        ensures ok { OnOk result (self.new ≡ put place bytes.items self.old) }
        ensures err { OnErr result (self.new ≡ self.old) }
        ensures listed { IsListed (3 ∷ []) result }
    {
        match place {
            Place::Code => {
                self.code = bytes;
                self.global.clear();
                self.local.clear();
            }
            Place::Global => self.global.push(bytes)?,
            Place::Local => self.local.push(bytes)?,
        }
        Ok(())
    }

    /// Runs the code. The only error is `Memory`.
    pub fn run(&self, alloc: Global) -> Result<Answers>
        ensures meant { IfOk result (λ told. (run : Run) × IsRunOf (lists_of self.now) self.now.code run × Tells told run) }
        ensures tells { MatchResult result
            (λ told. Tells told (run_of (lists_of self.now) self.now.code))
            (λ e. e ≡ Error.Memory) }
    {
        type2::run(
            alloc,
            self.code.as_slice(),
            self.global.as_slice(),
            self.local.as_slice(),
        )
    }

    /// The code.
    pub fn code(&self) -> &[u8]
        ensures { result.now ≡ self.now.code }
    {
        self.code.as_slice()
    }

    /// Returns whether the run of the code ends or fails within a limit, in units of `Program::step_within`. The only
    /// error is `Memory`.
    pub fn fits(&self, alloc: Global, limit: u64) -> Result<bool>
        ensures fits { IfOk result (λ fits. (left : ℕ) × Fits (run_of (lists_of self.now) self.now.code).trace limit fits left) }
        ensures memory { IfErr result (λ e. e ≡ Error.Memory) }
    {
        fits(
            alloc,
            self.code.as_slice(),
            self.global.as_slice(),
            self.local.as_slice(),
            limit,
        )
    }

    /// Returns the code without calls. The errors are the fault of the run, and `Memory`.
    pub fn flatten(&self, alloc: Global) -> Result<Vec<u8>>
        ensures faultless { OnOk result (fault_of (run_of (lists_of self.now) self.now.code).end ≡ None) }
        ensures text { IfOk result (λ flat. flat.items ≡ flat_text (run_of (lists_of self.now) self.now.code).trace) }
        ensures keeps { IfOk result (λ flat. (other : Lists) → KeepsMeaning other flat.items (run_of (lists_of self.now) self.now.code)) }
        ensures refused { IfErr result
            (λ e. (e ≡ Error.Memory) ⊎ (fault_of (run_of (lists_of self.now) self.now.code).end ≡ Some (refusal_of e))) }
        ensures listed { IsListed flatten_refusals result }
    {
        Program::flatten(
            alloc,
            self.code.as_slice(),
            self.global.as_slice(),
            self.local.as_slice(),
        )
    }
}
