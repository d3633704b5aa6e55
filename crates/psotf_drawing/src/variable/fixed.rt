//! Parsing of user coordinates.

/// The most digits before or after the point.
const PLACES: usize = 6;

/// Parses at most six digits. Returns `None` for any other text.
fn number_of(digits: &str) -> Option<i64> {
    if digits.is_empty() || digits.len() > PLACES {
        return None;
    }
    let mut number = 0i64;
    for digit in digits.chars() {
        let value = digit.to_digit(10)?;
        number = number.saturating_mul(10).saturating_add(i64::from(value));
    }
    Some(number)
}

/// Returns ten to the power of `places`.
fn power_of_ten(places: usize) -> i64 {
    let mut power = 1i64;
    for _ in 0..places {
        power = power.saturating_mul(10);
    }
    power
}

/// Parses the digits after a point, and returns 65536ths, rounded to the nearest.
fn fraction_of(digits: &str) -> Option<i64> {
    if digits.is_empty() {
        return Some(0);
    }
    let number = number_of(digits)?;
    let unit = power_of_ten(digits.len());
    number
        .saturating_mul(131072)
        .saturating_add(unit)
        .checked_div(unit.saturating_mul(2))
}

/// Parses a number such as 650, -12 or 0.5, and returns it in 65536ths. Returns `None` for any other text, and for a
/// number of more than 16 bits.
pub fn fixed_of(word: &str) -> Option<i32> {
    let digits = word.strip_prefix("-").unwrap_or(word);
    let (whole, fraction) = digits.split_once('.').unwrap_or((digits, ""));
    let size = number_of(whole)?
        .saturating_mul(65536)
        .saturating_add(fraction_of(fraction)?);
    let signed = if digits.len() < word.len() {
        0i64.saturating_sub(size)
    } else {
        size
    };
    i32::try_from(signed).ok()
}
