//! Dictionaries.
ghost use Rattle.std.specs.Prelude.{◌≡◌, [], ◌∷◌, map, OnOk, IfOk};
ghost use Rattle.std.specs.FinMap as map;
ghost use Rattle.postscript_base.specs.Compact1.Defaults.{first_of, first_two_of, look};
ghost use Rattle.postscript_base.specs.Error.{IsListed};
ghost use Rattle.postscript_base.specs.Compact1.Dictionary.{dictionary_of, put};

use super::{Operand, Operands, Operation, Operator};
use crate::Result;
use crate::tape::{Tape, Value, read_to_end};
use std::alloc::{AllocError, Global};
use std::collections::HashMap;
use std::marker::Model;

/// A dictionary: the operators that occur in it, each with its operands.
#[derive(Drop)]
pub struct Operations(pub HashMap<Operator, Vec<Operand>>);

impl Model for Operations {
    ghost use Rattle.std.specs.FinMap as map;
    ghost use Rattle.postscript_base.specs.contracts.compact1.operator.Operator as operator;
    ghost use Rattle.postscript_base.specs.Compact1.Dictionary.{Dictionary, decimals_code, listed};

    ghost Value = { Dictionary };

    ghost coded = { map.code operator.the_row.coded decimals_code };

    ghost view = { λ operations. map.from_entries (listed operations.0.entries) };
}

impl Operations {
    /// Returns a dictionary without operations.
    pub fn empty(alloc: Global) -> Self
        // The dictionary has no operators.
        ensures { result ≡ map.empty }
    {
        Operations(HashMap::new(alloc))
    }

    /// Returns a dictionary without operations that has a given capacity.
    fn with_capacity(alloc: Global, capacity: usize) -> Result<Self>
        ensures empty { IfOk result (λ operations. operations ≡ map.empty) }
        ensures listed { IsListed (3 ∷ []) result }
    {
        Ok(Operations(HashMap::with_capacity(alloc, capacity)?))
    }

    /// Returns the operands of an operator. If the dictionary has none, they are the defaults (`Operator::default`),
    /// and `None` if there are no defaults.
    ///
    /// ```rust
    /// pub fn blue_values(dictionary: &Operations) -> usize {
    ///     match dictionary.get(Operator::BlueValues) {
    ///         Some(operands) => operands.len(),
    ///         None => 0,
    ///     }
    /// }
    /// ```
    pub fn get(&self, operator: Operator) -> Option<Operands<'_>>
        // The result is the dictionary's operands, or the defaults, or `None` if there are neither.
        ensures { result ≡ look self.now operator }
    {
        match self.0.get(&operator) {
            Some(operands) => Some(Operands::lent(operands.as_slice())),
            None => operator.default(),
        }
    }

    /// Returns the first operand of an operator, from the dictionary or from the defaults. It is `None` if there is
    /// none.
    ///
    /// ```rust
    /// pub fn italic_angle(dictionary: &Operations) -> Option<(i64, i32)> {
    ///     let angle = dictionary.get_single(Operator::ItalicAngle)?;
    ///     Some((angle.mantissa(), angle.exponent()))
    /// }
    /// ```
    pub fn get_single(&self, operator: Operator) -> Option<Operand>
        // The result is the first operand that `get` returns, or `None` if it returns none.
        ensures { result ≡ first_of (look self.now operator) }
    {
        self.get(operator)?.as_slice().first().copied()
    }

    /// Returns the first two operands of an operator, from the dictionary or from the defaults. It is `None` if there
    /// are fewer.
    pub fn get_double(&self, operator: Operator) -> Option<(Operand, Operand)>
        // The result is the first two operands that `get` returns, or `None` if it returns fewer.
        ensures { result ≡ first_two_of (look self.now operator) }
    {
        let operands = self.get(operator)?;
        match operands.as_slice() {
            [first, second, ..] => Some((*first, *second)),
            _ => None,
        }
    }

    /// Returns a copy of the dictionary. It allocates a map, and a list for the operands of each operator.
    ///
    /// # Errors
    ///
    /// - `Memory`: out of memory.
    pub fn clone(&self) -> Result<Self>
        // The copy has the same operators with the same operands.
        ensures equal { IfOk result (λ map. map ≡ self.now) }
        // The only error is `Memory`.
        ensures listed { IsListed (3 ∷ []) result }
    {
        Ok(Operations(self.0.clone()?))
    }

    /// Inserts an operation, and replaces an earlier one of the same operator.
    fn put(&mut self, operation: Operation) -> Result<()>
        ensures ok { OnOk result (self.new ≡ put self.old (operation.0, operation.1.items)) }
        ensures listed { IsListed (3 ∷ []) result }
    {
        self.0.insert(operation.0, operation.1)?;
        Ok(())
    }
}

/// Clones as `Operations::clone` does, so that lists of dictionaries can be cloned. It fails only if out of memory.
impl Clone for Operations {
    ghost use Rattle.std.specs.Prelude.{◌≡◌};

    ghost is_clone = { λ old new. new ≡ old };

    fn clone(&self) -> std::result::Result<Self, AllocError> {
        self.clone().map_err(|_| AllocError)
    }
}

/// Reads operations up to the end of the tape (Technical Note 5176, "DICT Data"). A last operation that the end
/// truncates is ignored. For each operator its last operation counts. Afterwards the tape is at its end.
///
/// # Errors
///
/// - `MalformedNumber`, `OutOfRangeNumber`, `UnknownOperator`: the first bad number or operator.
/// - `TapeStuck`: the offset of the tape does not increase. This never happens on an honest tape.
/// - `UnexpectedEof`: a seek failed. This never happens on an honest tape.
/// - `Io`: any other fault of the tape.
/// - `Memory`: out of memory.
///
/// ```rust
/// pub fn dictionary_of(alloc: Global, bytes: &[u8]) -> Result<Operations> {
///     Operations::read(alloc, &mut Cursor::new(bytes))
/// }
/// ```
#[tactic(auto, using(crate::proofs::Outcomes::refused_after, crate::proofs::OperationSteps::operation_takes, crate::proofs::DictionaryIs::reads_dictionaries), unfolding(crate::specs::Compact1::Dictionary::dictionary))]
impl Value for Operations {
    ghost use Rattle.std.specs.Prelude.{[], ◌∷◌};
    ghost use Rattle.postscript_base.specs.Tape.Outcome.{same};
    ghost use Rattle.postscript_base.specs.Private.Seen.{each_as_it_is};
    ghost use Rattle.postscript_base.specs.Compact1.Dictionary.{Dictionary, dictionary};
    ghost use Rattle.postscript_base.specs.Compact1.DictionaryLaw.{ReadsDictionaries};
    ghost use Rattle.postscript_base.specs.Tape.{Reads};

    ghost Shown = { Dictionary };

    ghost view = { same };

    ghost views = { same };

    ghost views_each = { each_as_it_is };

    ghost reading = { dictionary };

    ghost refusals = { 1 ∷ 2 ∷ 3 ∷ 4 ∷ 7 ∷ 8 ∷ 9 ∷ [] };

    /// Reads the dictionary. A caller's proof also gets the law about dictionaries (clause `law`).
    fn read<T: Tape>(alloc: Global, tape: &mut T) -> Result<Operations>
        // On an honest tape the result is exactly what `dictionary` gives, unless memory runs out.
        ensures exact { Reads same (T.state tape.old) result (T.state tape.new) dictionary }
        // The only errors are those with the codes 1 to 4 and 7 to 9 (`Error::code`).
        ensures listed { IsListed (1 ∷ 2 ∷ 3 ∷ 4 ∷ 7 ∷ 8 ∷ 9 ∷ []) result }
        // Law: a dictionary is read exactly if the bytes are operations and an unfinished rest.
        ensures law { ReadsDictionaries }
    {
        let all = read_to_end::<Operation, T>(alloc, tape)?;
        of_all(alloc, all)
    }
}

/// Returns the dictionary that these operations make.
fn of_all(alloc: Global, all: Vec<Operation>) -> Result<Operations>
    ensures dictionary { IfOk result
        (λ operations. operations ≡ dictionary_of (map (λ operation. (operation.0, operation.1.items)) all.items)) }
    ensures listed { IsListed (3 ∷ []) result }
{
    let mut operations = Operations::with_capacity(alloc, all.len())?;
    for operation in all {
        operations.put(operation)?;
    }
    Ok(operations)
}
