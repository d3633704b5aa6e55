//! Numbers at an offset of a table, and numbers as they are written.
ghost use Rattle.std.specs.Prelude.{◌≡◌, ◌^◌, ◌<◌, ◌++◌, slice_index_or, flat_map, OnOk};
ghost use Rattle.postscript_kern.specs.Numbers.{uint16 as the_uint16, word as the_word};

use std::alloc::AllocError;

/// Returns a byte, or 0 past the end of the table.
fn byte(table: &[u8], offset: usize) -> usize
    ensures exact { result ≡ slice_index_or table.now offset 0 }
    ensures small { result < 256 }
{
    if offset < table.len() {
        table[offset] as usize
    } else {
        0
    }
}

/// Returns the number of two bytes.
#[tactic(auto, unfolding(crate::specs::Numbers::word))]
pub(crate) fn word(table: &[u8], offset: usize) -> usize
    requires { offset < 2 ^ 40 }
    ensures exact { result ≡ the_word table.now offset }
    ensures small { result < 65536 }
{
    byte(table, offset) * 256 + byte(table, offset + 1)
}

/// Appends numbers of two bytes.
pub(crate) fn put_words(out: &mut Vec<u8>, numbers: &[u16]) -> Result<(), AllocError>
    ensures { OnOk result (out.new.items ≡ out.old.items ++ flat_map the_uint16 numbers.now) }
{
    for number in numbers {
        out.extend_from_slice(&number.to_be_bytes())?;
    }
    Ok(())
}
