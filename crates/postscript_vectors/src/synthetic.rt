//! Generated charstrings, for measuring.
use std::alloc::{AllocError, Global};

/// The operators that draw and move, each with a number of operands that it takes.
const SHAPES: [(u8, u8); 16] = [
    (0x15, 2),
    (0x16, 1),
    (0x04, 1),
    (0x05, 2),
    (0x05, 12),
    (0x06, 1),
    (0x06, 4),
    (0x07, 3),
    (0x08, 6),
    (0x08, 12),
    (0x1b, 5),
    (0x1a, 4),
    (0x1f, 8),
    (0x1e, 9),
    (0x18, 8),
    (0x19, 10),
];

/// A charstring of `count` operations without calls. They are always the same ones.
///
/// The first two declare two horizontal and two vertical stems. From then on each 32nd is a hint mask, and the others
/// are paths of 1 to 12 operands, chosen by a linear congruence. Its numbers have one, two, three or five bytes, the
/// short forms more often. The charstring ends with `endchar`.
pub fn charstring(alloc: Global, operations: usize) -> Result<Vec<u8>, AllocError> {
    let mut code = Vec::new(alloc);
    let mut seed = 1u32;
    for i in 0..operations {
        push_operation(&mut code, &mut seed, i)?;
    }
    code.push(0x0e)?;
    Ok(code)
}

/// Adds the operation of this number.
fn push_operation(code: &mut Vec<u8>, seed: &mut u32, i: usize) -> Result<(), AllocError> {
    if i % 32 == 0 && i > 0 {
        code.extend_from_slice(&[0x13, next_byte(seed)])?;
    } else {
        let (operator, operands) = match i {
            0 => (0x12, 4),
            1 => (0x17, 4),
            _ => SHAPES[usize::from(next_byte(seed) % 16)],
        };
        push_numbers(code, seed, operands)?;
        code.push(operator)?;
    }
    Ok(())
}

/// The next byte of the linear congruence.
fn next_byte(seed: &mut u32) -> u8 {
    *seed = seed.wrapping_mul(1_664_525).wrapping_add(1_013_904_223);
    (*seed >> 24) as u8
}

/// Adds `count` numbers.
fn push_numbers(code: &mut Vec<u8>, seed: &mut u32, count: u8) -> Result<(), AllocError> {
    for _ in 0..count {
        let form = next_byte(seed) % 16;
        let byte = next_byte(seed);
        match form {
            0 => code.extend_from_slice(&[0xff, 0x00, byte, byte, next_byte(seed)])?,
            1 => code.extend_from_slice(&[0x1c, byte % 4, next_byte(seed)])?,
            2..=5 => code.extend_from_slice(&[0xf7 + byte % 8, next_byte(seed)])?,
            _ => code.push(0x20 + byte % 215)?,
        }
    }
    Ok(())
}
