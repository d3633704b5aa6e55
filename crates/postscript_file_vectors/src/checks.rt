//! How a test fails, and the bytes and texts that tests compare.
ghost use Rattle.std.specs.Prelude.{IsTrue};

use postscript_vectors::common::decode_digits;
use std::alloc::Global;
use std::fmt::Display;
use std::process::Abort;

/// Fails the test if a fact does not hold, and names the fact.
pub fn holds<R: Abort>(rt: &R, is_so: bool, fact: &str)
    // If it returns, the fact holds.
    ensures { IsTrue is_so }
{
    if !is_so {
        rt.panic(fact)
    }
}

/// Fails the test if a fact does not hold, and names the row.
pub fn holds_at<R: Abort>(rt: &R, is_so: bool, place: &str, number: usize)
    // If it returns, the fact holds.
    ensures { IsTrue is_so }
{
    if !is_so {
        panic!(rt; "at {place} {number}")
    }
}

/// Fails the test if a text is not the wanted one, and names the row.
pub fn is_text<R: Abort>(rt: &R, found: &str, wanted: &str, place: &str) {
    if found != wanted {
        panic!(rt; "at {place}: {found}")
    }
}

/// Adds a word to a text, and a value as it is shown.
pub fn put_shown<R: Abort, D: Display>(rt: &R, text: &mut String, word: &str, value: &D) {
    write!(text, "{word}{value}").expect(rt, "memory");
}

/// The bytes that hex digits with spaces spell.
pub fn bytes_of<R: Abort>(rt: &R, alloc: Global, digits: &str) -> Vec<u8> {
    decode_digits(alloc, digits).expect(rt, "hex digits")
}

/// Bytes with one of them changed.
pub fn with_changed_byte<R: Abort>(
    rt: &R,
    alloc: Global,
    digits: &str,
    place: usize,
    byte: u8,
) -> Vec<u8> {
    let mut bytes = bytes_of(rt, alloc, digits);
    if let Some(at) = bytes.get_mut(place) {
        *at = byte;
    }
    bytes
}
