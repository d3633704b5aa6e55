//! The short form of numbers (docs/report-format.md).
use psotf_output::text::Text;

/// The digits of numbers. The last digit of a number is in the first half.
const DIGITS: &[u8; 64] = b"ABCDEFGHIJKLMNOPQRSTUVWXYZabcdefghijklmnopqrstuvwxyz0123456789+/";

fn put_digit(text: &mut Text, digit: u64) {
    let letter = DIGITS.get(digit as usize).copied().unwrap_or(b'A');
    text.push(letter as char);
}

/// Adds a whole number: digits of five bits, lowest first, with the sign in the lowest bit.
pub fn put(text: &mut Text, number: i64) {
    let mut left = number.unsigned_abs().saturating_mul(2);
    if number < 0 {
        left = left.saturating_add(1);
    }
    for _ in 0..13 {
        let digit = left % 32;
        left /= 32;
        if left == 0 {
            put_digit(text, digit);
            break;
        }
        put_digit(text, digit.saturating_add(32));
    }
}

/// Adds a number in 65536ths: a whole one in units, or any other after a point.
pub fn put_bits(text: &mut Text, bits: i64) {
    if bits % 65536 == 0 {
        put(text, bits / 65536);
    } else {
        text.push('.');
        put(text, bits);
    }
}

/// Adds a count.
pub fn put_count(text: &mut Text, count: usize) {
    put(text, i64::try_from(count).unwrap_or(0));
}
