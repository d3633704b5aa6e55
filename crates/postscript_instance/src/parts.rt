//! Reads operations (Technical Note 5176, "DICT Data").
ghost use Rattle.std.specs.Prelude.{◌≡◌, ◌↔◌, [], ◌∷◌, length, IfErr, IfOk, IfSome, IsTrue, Some, option_map};
ghost use Rattle.postscript_base.specs.Compact1.Operation.{Operation as Spoken};
ghost use Rattle.postscript_base.specs.declared.error.Error.TheVariants as causes;
ghost use Rattle.postscript_instance.specs.Refusals.{IsMemory};
ghost use Rattle.postscript_instance.specs.Whole.{IsDict, told};

use crate::error::{Error, Result};
use postscript_base::compact1::Operation;
use postscript_base::compact1::laws::reads_operations;
use postscript_base::{Error as Cause, Value};
use std::alloc::Global;
use std::io::Cursor;

/// Whether an error is `Memory`.
fn is_memory(error: &Cause) -> bool
    ensures { IsTrue result ↔ error.now ≡ causes.Memory }
{
    match error {
        Cause::Memory => true,
        _ => false,
    }
}

/// The operation that a text is, if it is one.
pub(crate) fn operation_in(alloc: Global, text: &[u8]) -> Result<Option<Operation>>
    ensures is { IfOk result (λ found. (o : Spoken) → IsDict text.now (o ∷ []) → option_map told found ≡ Some o) }
    ensures found { IfOk result (λ found. IfSome found (λ operation. IsDict text.now (told operation ∷ []))) }
    ensures memory { IfErr result (λ e. IsMemory e) }
{
    reads_operations();
    let mut tape = Cursor::new(text);
    match Operation::read(alloc, &mut tape) {
        Ok(operation) => {
            if tape.position() == text.len() as u64 {
                return Ok(Some(operation));
            }
            Ok(None)
        }
        Err(e) => {
            if is_memory(&e) {
                return Err(Error::Font(Cause::Memory));
            }
            Ok(None)
        }
    }
}
