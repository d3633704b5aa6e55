//! Laws about operands and dictionaries: equality, hashing and reading.
ghost use Rattle.std.specs.Prelude.{◌≡◌, ◌↔◌, IsTrue};
ghost use Rattle.postscript_base.specs.Compact1.Decimal.{AreEqual, Decimal, HasOperand};
ghost use Rattle.postscript_base.specs.Compact1.DictionaryLaw.{ReadsDictionaries};
ghost use Rattle.postscript_base.specs.Compact1.OperationLaw.{ReadsOperations};

use super::operand::Operand;
use std::hash::Hash;

/// Compares two operands. They are equal exactly if their values are, and then they are the same operand.
pub fn are_equal(a: &Operand, b: &Operand) -> bool
    // The result is true exactly if the values are equal.
    ensures equal { IsTrue result ↔ AreEqual a.now b.now }
    // Operands of equal value are the same operand.
    ensures one_operand { AreEqual a.now b.now → a.now ≡ b.now }
{
    // These calls give the proof the invariant of both operands.
    let _ = (a.mantissa(), b.mantissa());
    a == b
}

/// States that operands of equal value hash alike. It does nothing at run time.
pub fn hash_alike()
    // Operands of equal value give the same input to a hasher.
    ensures { (a b : Decimal) → HasOperand a → HasOperand b → AreEqual a b →
        ⟦<Operand as Hash>⟧.hash_input a ≡ ⟦<Operand as Hash>⟧.hash_input b }
{}

/// States how an operation of a dictionary is read. It does nothing at run time.
///
/// An operation is read exactly if the bytes at the offset spell operands and then an operator. Otherwise the error is
/// the one for the number or operator after the operands, which is malformed or truncated.
#[tactic(auto, using(crate::proofs::OperationIs::reads_operations))]
pub fn reads_operations()
    // An operation is read exactly if the bytes spell operands and then an operator.
    ensures law { ReadsOperations }
{}

/// States how a dictionary is read. It does nothing at run time.
///
/// A dictionary is read exactly if the bytes are operations followed by an unfinished rest. The map has the operands
/// of the last operation of each operator. Otherwise the error is the one for the first bad number or operator.
#[tactic(auto, using(crate::proofs::DictionaryIs::reads_dictionaries))]
pub fn reads_dictionaries()
    // A dictionary is read exactly if the bytes are operations and an unfinished rest.
    ensures law { ReadsDictionaries }
{}
