//! How a test fails, and the bytes that tests compare.
ghost use Rattle.std.specs.Prelude.{IsTrue};

use postscript_vectors::common::decode_digits;
use std::alloc::Global;
use std::process::Abort;

/// Fails the test if a fact does not hold, and names the row.
pub fn holds_at<R: Abort>(rt: &R, is_so: bool, place: &str, number: usize)
    // If it returns, the fact holds.
    ensures { IsTrue is_so }
{
    if !is_so {
        panic!(rt; "at {place} {number}")
    }
}

/// The bytes that hex digits with spaces spell.
pub fn bytes_of<R: Abort>(rt: &R, alloc: Global, digits: &str) -> Vec<u8> {
    decode_digits(alloc, digits).expect(rt, "hex digits")
}
