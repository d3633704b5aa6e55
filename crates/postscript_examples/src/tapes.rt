//! Reading from a cursor. Each reading gives exactly the result that follows from the bytes.
ghost use Rattle.std.specs.Prelude.{◌≡◌, ◌≤◌, ◌<◌, length, take, vec_len, IsOkAnd};
ghost use Rattle.postscript_base.specs.Numbers.{big_endian};

use postscript::{Error, Result, Tape};
use std::alloc::Global;
use std::io::Cursor;

/// Reads the number in the first two bytes.
#[tactic(auto, unfolding(postscript_base::specs::Numbers::number, postscript_base::specs::Numbers::slice))]
pub fn first_number(alloc: Global, bytes: &[u8]) -> Result<u16>
    ensures found { 2 ≤ length bytes.now → result ≡ Ok (big_endian (take 2 bytes.now)) }
    ensures wanting { length bytes.now < 2 → result ≡ Err Error.UnexpectedEof }
{
    let mut tape = Cursor::new(bytes);
    tape.take(alloc)
}

/// Reads the first byte twice: peeks at it, and then takes it.
#[tactic(auto, unfolding(postscript_base::specs::Numbers::number, postscript_base::specs::Numbers::slice))]
pub fn first_byte_twice(alloc: Global, bytes: Vec<u8>) -> Result<(u8, u8)>
    ensures { 1 ≤ vec_len bytes → IsOkAnd result (λ both. both.0 ≡ both.1) }
{
    let mut tape = Cursor::new(bytes);
    let looked_at = tape.peek(alloc)?;
    let taken = tape.take(alloc)?;
    Ok((looked_at, taken))
}
