//! Numbers at an offset of a table, and numbers as they are written.
ghost use Rattle.std.specs.Prelude.{◌≡◌, ◌^◌, ◌<◌, slice_index_or, IfErr, OnOk};
ghost use Rattle.postscript_vertical.specs.Numbers.{Puts, PutsPair, word as the_word};
ghost use Rattle.postscript_vertical.specs.declared.error.Error.TheVariants as errors;

use crate::error::Result;

/// Returns a byte, or 0 past the end of the table.
fn byte(table: &[u8], offset: usize) -> usize
    ensures exact { result ≡ slice_index_or table.now offset 0 }
    ensures small { result < 256 }
{
    if offset < table.len() {
        table[offset] as usize
    } else {
        0
    }
}

/// Returns the number of two bytes.
#[tactic(auto, unfolding(crate::specs::Numbers::word))]
pub(crate) fn word(table: &[u8], offset: usize) -> usize
    requires { offset < 2 ^ 40 }
    ensures exact { result ≡ the_word table.now offset }
    ensures small { result < 65536 }
{
    byte(table, offset) * 256 + byte(table, offset + 1)
}

/// Appends a number of two bytes.
pub(crate) fn put_word(out: &mut Vec<u8>, number: u16) -> Result<()>
    ensures put { OnOk result (Puts number out.old.items out.new.items) }
    ensures memory { IfErr result (λ e. e ≡ errors.Memory) }
{
    out.extend_from_slice(&number.to_be_bytes())?;
    Ok(())
}

/// Appends two numbers of two bytes.
pub(crate) fn put_pair(out: &mut Vec<u8>, first: u16, second: u16) -> Result<()>
    ensures put { OnOk result (PutsPair first second out.old.items out.new.items) }
    ensures memory { IfErr result (λ e. e ≡ errors.Memory) }
{
    put_word(out, first)?;
    put_word(out, second)
}
