//! Numbers, operations and INDEXes of a `CFF ` table (Technical Note 5176, "Data Types", "DICT Data", "INDEX Data").
ghost use Rattle.std.specs.Prelude.{◌≡◌, ◌<◌, ◌^◌, ◌++◌, [], ◌∷◌, IfErr, IfOk, OnOk};
ghost use Rattle.postscript_instance.specs.Numbers.{two_bytes};
ghost use Rattle.postscript_instance.specs.Refusals.{IsMemory};
ghost use Rattle.postscript_type2.specs.Program.Routines.{texts};
ghost use Rattle.postscript_write.specs.Dictionaries.{escaped_text, integer_text, operation_text};
ghost use Rattle.postscript_write.specs.Index.{FitsIndex, index_text};

use crate::error::{Error, Result};
use postscript_base::Error as Cause;
use postscript_write::put_index as append_index;
use std::alloc::Global;

/// Appends a number in two bytes.
pub(crate) fn put_short(out: &mut Vec<u8>, number: u16) -> Result<()>
    ensures text { OnOk result (out.new.items ≡ out.old.items ++ two_bytes number) }
    ensures memory { IfErr result (λ e. IsMemory e) }
{
    out.extend_from_slice(&[(number / 256) as u8, (number % 256) as u8])?;
    Ok(())
}

/// Appends an INDEX.
pub(crate) fn put_index(out: &mut Vec<u8>, items: &[Vec<u8>]) -> Result<()>
    requires { FitsIndex (texts items.now) }
    ensures text { OnOk result (out.new.items ≡ out.old.items ++ index_text (texts items.now)) }
    ensures memory { IfErr result (λ e. IsMemory e) }
{
    match append_index(out, items) {
        Ok(()) => Ok(()),
        Err(_) => Err(Error::Font(Cause::Memory)),
    }
}

/// Appends an INDEX of one item.
pub(crate) fn put_single(alloc: Global, out: &mut Vec<u8>, item: &[u8]) -> Result<()>
    requires { FitsIndex (item.now ∷ []) }
    ensures text { OnOk result (out.new.items ≡ out.old.items ++ index_text (item.now ∷ [])) }
    ensures memory { IfErr result (λ e. IsMemory e) }
{
    let mut items = Vec::new(alloc);
    items.push(Vec::from_slice(alloc, item)?)?;
    put_index(out, &items)
}

/// Appends an integer operand of five bytes.
fn put_integer(out: &mut Vec<u8>, number: usize) -> Result<()>
    requires { number < 2 ^ 31 }
    ensures text { OnOk result (out.new.items ≡ out.old.items ++ integer_text number) }
    ensures memory { IfErr result (λ e. IsMemory e) }
{
    out.extend_from_slice(&[
        0x1d,
        (number / 16_777_216 % 256) as u8,
        (number / 65536 % 256) as u8,
        (number / 256 % 256) as u8,
        (number % 256) as u8,
    ])?;
    Ok(())
}

/// Appends an operation with an integer operand and an operator of one byte.
pub(crate) fn put_operation(out: &mut Vec<u8>, number: usize, code: u8) -> Result<()>
    requires { number < 2 ^ 31 }
    ensures text { OnOk result (out.new.items ≡ out.old.items ++ operation_text (number ∷ []) code) }
    ensures memory { IfErr result (λ e. IsMemory e) }
{
    put_integer(out, number)?;
    out.push(code)?;
    Ok(())
}

/// Appends an operation with an integer operand and an operator of two bytes, of which the first is 12.
pub(crate) fn put_escaped(out: &mut Vec<u8>, number: usize, second: u8) -> Result<()>
    requires { number < 2 ^ 31 }
    ensures text { OnOk result (out.new.items ≡ out.old.items ++ escaped_text (number ∷ []) second) }
    ensures memory { IfErr result (λ e. IsMemory e) }
{
    put_integer(out, number)?;
    out.extend_from_slice(&[0x0c, second])?;
    Ok(())
}

/// Appends the operation Private, with the size and the offset of a Private DICT.
pub(crate) fn put_private(out: &mut Vec<u8>, size: usize, place: usize) -> Result<()>
    requires size { size < 2 ^ 31 }
    requires place { place < 2 ^ 31 }
    ensures text { OnOk result (out.new.items ≡ out.old.items ++ operation_text (size ∷ place ∷ []) 0x12) }
    ensures memory { IfErr result (λ e. IsMemory e) }
{
    put_integer(out, size)?;
    put_integer(out, place)?;
    out.push(0x12)?;
    Ok(())
}
