//! Desubroutinized (inlined) code: the phrases of a run without its calls, their numbers and its returns.
ghost use Rattle.std.specs.Prelude.{◌≡◌, ◌⊎◌, ◌∷◌, ◌≤◌, [], List, length, OnOk, IfOk, IfErr};
ghost use Rattle.postscript_base.specs.declared.error.Error.TheVariants as errors;
ghost use Rattle.postscript_base.specs.RefusalOf.{refusal_of};
ghost use Rattle.postscript_type2.specs.declared.refused.Refused.TheVariants as cases;
ghost use Rattle.postscript_type2.specs.Program.Inlined.{behind_first, piece as the_piece, inlined_text, inlined_len};
ghost use Rattle.postscript_type2.specs.Private.Machines.{IsNested, said_of, still_of};
ghost use Rattle.postscript_type2.specs.Program.Runs.{Phrase as ShownPhrase, fault_of};
ghost use Rattle.postscript_type2.specs.Private.Written.{IsPiece, IsLastOf, written, counted};

use super::machine::{Event, Machine, Phrase};
use crate::operation::Operator;
use crate::refused;
use postscript_base::Result;
use std::alloc::Global;

/// The part of a phrase that is kept: a whole phrase, or numbers for the next phrase.
#[derive(Clone, Copy)]
enum Piece<'l> {
    Stands(&'l [u8]),
    Leaves(&'l [u8]),
}

/// The number of bytes of a number after its first one.
fn behind(first: u8) -> usize
    ensures { result ≡ behind_first first }
{
    match first {
        0x1c => 2,
        0x00..=0xf6 => 0,
        0xf7..=0xfe => 1,
        0xff => 4,
    }
}

/// The offset of the last number, if there is one.
fn last_number(numbers: &[u8]) -> Option<usize>
    ensures { IsLastOf numbers.now result }
{
    let mut last = None;
    let mut next = 0usize;
    while next < numbers.len() {
        last = Some(next);
        next += behind(numbers[next]) + 1;
    }
    last
}

/// The part of a phrase that is kept in inlined code.
fn kept<'l>(said: Phrase<'l>) -> Piece<'l>
    ensures { IsPiece result (the_piece (said_of said.entry)) }
{
    let numbers = &said.bytes[..said.bytes.len().saturating_sub(1)];
    match said.operator {
        Operator::CallSubr | Operator::CallGSubr => match last_number(numbers) {
            Some(place) => Piece::Leaves(&numbers[..place]),
            None => Piece::Stands(&[0x0c, 0x12]),
        },
        Operator::Return => Piece::Leaves(numbers),
        _ => Piece::Stands(said.bytes),
    }
}

/// The inlined code so far, and the number of its bytes up to its last operator. Only numbers follow these.
#[derive(Drop)]
struct Inlined {
    code: Vec<u8>,
    whole: usize,
}

impl Inlined {
    /// Appends the part of a phrase that is kept.
    fn append(&mut self, said: Phrase<'_>) -> refused::Result<()>
        requires { self.old.whole ≤ length self.old.code.items }
        ensures ok { OnOk result ((more : List ShownPhrase) → written self.new more ≡ written self.old (said_of said.entry ∷ more)) }
        ensures room { OnOk result (self.new.whole ≤ length self.new.code.items) }
        ensures err { IfErr result (λ e. e ≡ cases.Memory) }
    {
        match kept(said) {
            Piece::Stands(bytes) => {
                self.code.extend_from_slice(bytes)?;
                self.whole = self.code.len();
            }
            Piece::Leaves(numbers) => self.code.extend_from_slice(numbers)?,
        }
        Ok(())
    }

    /// The code, without numbers after its last operator, in no more memory than it needs.
    fn finish(mut self) -> Vec<u8>
        requires { self.whole ≤ length self.code.items }
        ensures text { result.items ≡ written self [] }
        ensures small { length result.items ≤ usize.MAX }
    {
        self.code.truncate(self.whole);
        self.code.shrink_to_fit();
        self.code
    }
}

/// The number of bytes of inlined code so far, and the number of bytes up to its last operator.
#[derive(Clone, Copy)]
struct Lengths {
    len: usize,
    whole: usize,
}

impl Lengths {
    /// Counts the part of a phrase that is kept.
    fn count(self, said: Phrase<'_>) -> Self
        ensures fits { result.whole ≤ usize.MAX }
        ensures counts { (more : List ShownPhrase) → counted result more ≡ counted self (said_of said.entry ∷ more) }
    {
        match kept(said) {
            Piece::Stands(bytes) => {
                let len = self.len.saturating_add(bytes.len());
                Lengths { len, whole: len }
            }
            Piece::Leaves(numbers) => {
                let len = self.len.saturating_add(numbers.len());
                Lengths {
                    len,
                    whole: self.whole,
                }
            }
        }
    }
}

/// The length of the inlined code of all that a machine has left to run.
pub(crate) fn inlined_measured(machine: &mut Machine<'_>) -> Result<usize>
    requires { IsNested machine.old }
    ensures faultless { OnOk result (fault_of (still_of machine.old).end ≡ None) }
    ensures len { IfOk result (λ len. len ≡ inlined_len (still_of machine.old).trace) }
    ensures refused { IfErr result (λ e. (e ≡ errors.Memory) ⊎ (fault_of (still_of machine.old).end ≡ Some (refusal_of e))) }
{
    let mut lengths = Lengths { len: 0, whole: 0 };
    loop {
        match machine.advance::<()>()? {
            Event::UsedUp => return Ok(lengths.whole),
            Event::Continued(said) => lengths = lengths.count(said),
            Event::Operation(said, taken) => {
                machine.clear(taken);
                lengths = lengths.count(said);
            }
            Event::EndChar(said) => return Ok(lengths.count(said).whole),
        }
    }
}

/// The inlined code of all that a machine has left to run. Memory for most glyphs is allocated at once.
pub(crate) fn inlined_code(alloc: Global, machine: &mut Machine<'_>) -> Result<Vec<u8>>
    requires { IsNested machine.old }
    ensures faultless { OnOk result (fault_of (still_of machine.old).end ≡ None) }
    ensures text { IfOk result (λ inlined. inlined.items ≡ inlined_text (still_of machine.old).trace) }
    ensures small { IfOk result (λ inlined. length inlined.items ≤ usize.MAX) }
    ensures refused { IfErr result (λ e. (e ≡ errors.Memory) ⊎ (fault_of (still_of machine.old).end ≡ Some (refusal_of e))) }
{
    let code = Vec::with_capacity(alloc, 512)?;
    let mut inlined = Inlined { code, whole: 0 };
    loop {
        let event = machine.advance::<()>()?;
        match event {
            Event::UsedUp => return Ok(inlined.finish()),
            Event::Continued(said) => inlined.append(said)?,
            Event::Operation(said, taken) => {
                machine.clear(taken);
                inlined.append(said)?;
            }
            Event::EndChar(said) => {
                inlined.append(said)?;
                return Ok(inlined.finish());
            }
        }
    }
}
