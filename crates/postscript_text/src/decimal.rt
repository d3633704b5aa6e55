//! Decimal numbers as text.
use crate::text::Text;
use postscript_base::compact1::Operand;

/// The largest number of zeros, or of digits after the point, that is written without an exponent.
const MOST: u32 = 30;

/// Adds a whole number and `zeros` zeros.
fn put_whole(text: &mut Text, number: i64, zeros: u32) {
    text.write_fmt(number);
    for _ in 0..zeros {
        text.push('0');
    }
}

/// Adds a decimal number, without an exponent if it is short enough.
pub fn put(text: &mut Text, value: &Operand) {
    let (mantissa, exponent) = (value.mantissa(), value.exponent());
    let size = exponent.unsigned_abs();
    if size > MOST {
        text.write_fmt(value);
    } else if exponent < 0 {
        if mantissa < 0 {
            text.push('-');
        }
        put_fraction(text, mantissa.unsigned_abs(), size);
    } else {
        put_whole(text, mantissa, size);
    }
}

/// Adds a number with `places` digits after the point.
fn put_fraction(text: &mut Text, number: u64, places: u32) {
    let mut unit = 1u128;
    for _ in 0..places {
        unit = unit.wrapping_mul(10);
    }
    let number = u128::from(number);
    let whole = number.checked_div(unit).unwrap_or(0);
    text.write_fmt(whole);
    text.push('.');
    put_digits(
        text,
        number.wrapping_sub(whole.wrapping_mul(unit)),
        unit,
        places,
    );
}

/// Adds the digits of a fraction.
fn put_digits(text: &mut Text, part: u128, unit: u128, places: u32) {
    let mut rest = part;
    for _ in 0..places {
        let ten = rest.wrapping_mul(10);
        let digit = ten.checked_div(unit).unwrap_or(0);
        rest = ten.wrapping_sub(digit.wrapping_mul(unit));
        text.push(char::from_digit((digit % 10) as u32, 10).unwrap_or('0'));
    }
}

/// Adds a number in 65536ths, with at most sixteen digits after the point. It is exact.
pub fn put_bits(text: &mut Text, bits: i64) {
    if bits < 0 {
        text.push('-');
    }
    let size = bits.unsigned_abs();
    let whole = size / 65536;
    text.put_number(whole);
    let mut part = size % 65536;
    if part > 0 {
        text.push('.');
    }
    for _ in 0..16 {
        if part > 0 {
            let ten = part.wrapping_mul(10);
            text.push(char::from_digit((ten / 65536 % 10) as u32, 10).unwrap_or('0'));
            part = ten % 65536;
        }
    }
}
