//! Parsing dictionaries, and reading their operands.
ghost use Rattle.std.specs.Prelude.{◌≡◌, ◌≢◌, ℕ, IfOk, IfErr};
ghost use Rattle.std.specs.Option.{option_map};
ghost use Rattle.postscript_base.specs.Compact1.Defaults.{first_of, look};
ghost use Rattle.postscript_base.specs.Compact1.Dictionary.{Dictionary};
ghost use Rattle.postscript_base.specs.Compact1.DictionaryLaw.{IsDictionary};

use postscript::compact1::{Operand, Operations, Operator};
use postscript::{Error, Result, Value};
use std::alloc::Global;
use std::io::Cursor;

/// Parses a dictionary. It succeeds exactly if the bytes are a dictionary, apart from running out of memory.
pub fn dictionary_of(alloc: Global, bytes: &[u8]) -> Result<Operations>
    ensures found { IfOk result (λ map. IsDictionary bytes.now 0 map) }
    ensures only { IfErr result (λ e. e ≢ Error.Memory → (map : Dictionary) → IsDictionary bytes.now 0 map → ⊥) }
{
    let mut tape = Cursor::new(bytes);
    Operations::read(alloc, &mut tape)
}

/// Returns the italic angle in degrees as `mantissa * 10^exponent`. The default is 0.
pub fn italic_angle(dictionary: &Operations) -> Option<(i64, i32)>
    ensures { result ≡ option_map (λ angle. (angle.mantissa, angle.exponent)) (first_of (look dictionary.now Operator.ItalicAngle)) }
{
    let angle = dictionary.get_single(Operator::ItalicAngle)?;
    Some((angle.mantissa(), angle.exponent()))
}

/// Returns the operands of an operator as strings. Each is an integer, or has a power of ten, as in `39625e-6`.
pub fn texts_of(alloc: Global, dictionary: &Operations, operator: Operator) -> Result<Vec<String>> {
    let mut texts = Vec::new(alloc);
    let Some(operands) = dictionary.get(operator) else {
        return Ok(texts);
    };
    for operand in operands.as_slice() {
        texts.push(text_of(alloc, operand)?)?;
    }
    Ok(texts)
}

/// Returns an operand as a string.
fn text_of(alloc: Global, operand: &Operand) -> Result<String> {
    Ok(format!(in alloc; "{operand}")?)
}
