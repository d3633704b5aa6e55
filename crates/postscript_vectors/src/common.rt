//! Bytes, errors and a font that the tests of several crates use.
use postscript::Result;
use std::alloc::{AllocError, Global};

/// A file of two fonts without names, with the same charstrings.
pub const TWO_DICTIONARIES: &str =
    "010004010000 00020101060ba5118dab12a5118dab12 0000 0000 00010101020e8d130000";

/// The bytes that hex digits with spaces spell. None if they are no hex digits, or if memory runs out.
pub fn decode_digits(alloc: Global, digits: &str) -> Option<Vec<u8>> {
    let mut plain = Vec::new(alloc);
    push_digits(&mut plain, digits).ok()?;
    hex::decode(alloc, plain.as_slice()).ok()
}

/// Adds a text without its spaces.
fn push_digits(plain: &mut Vec<u8>, digits: &str) -> std::result::Result<(), AllocError> {
    for digit in digits.as_bytes() {
        if *digit != b' ' {
            plain.push(*digit)?;
        }
    }
    Ok(())
}

/// The code of an error, 0 if there is none.
pub fn code_of<T: Drop>(outcome: Result<T>) -> u8 {
    match outcome {
        Ok(_) => 0,
        Err(e) => e.code(),
    }
}
