//! Big-endian UTF-16.
ghost use Rattle.std.specs.Prelude.{◌≡◌, ◌+◌, ◌-◌, ◌*◌, ◌<◌, ◌≤◌, length};
ghost use Rattle.postscript_sfnt.specs.Texts.{BeginsUtf16, pair};

use postscript_base::index::number::number_at;

/// Decodes the first character and returns it with its size in bytes. A surrogate without its partner is U+FFFD.
pub(crate) fn first_char(bytes: &[u8]) -> (char, usize)
    requires { 2 ≤ length bytes.now }
    ensures begins { BeginsUtf16 bytes.now result.0 result.1 }
{
    let unit = number_at(bytes, 0, 2);
    if unit >= 0xd800 && unit < 0xdc00 && bytes.len() >= 4 {
        let low = number_at(bytes, 2, 2);
        if low >= 0xdc00 && low < 0xe000 {
            return (combine_surrogates(unit, low), 4);
        }
    }
    (alone(unit), 2)
}

/// Combines two surrogates.
fn combine_surrogates(high: usize, low: usize) -> char
    requires high { (0xd800 ≤ high) × (high < 0xdc00) }
    requires low { (0xdc00 ≤ low) × (low < 0xe000) }
    ensures { result ≡ pair high low }
{
    let code = 0x10000 + (high - 0xd800) * 0x400 + (low - 0xdc00);
    match char::from_u32(code as u32) {
        Some(char) => char,
        None => '\u{fffd}',
    }
}

/// The character of a single unit, U+FFFD for a surrogate.
fn alone(unit: usize) -> char
    requires { unit < 0x10000 }
    ensures plain { (unit < 0xd800) → result ≡ unit }
    ensures upper { 0xe000 ≤ unit → result ≡ unit }
    ensures surrogate { (0xd800 ≤ unit) → (unit < 0xe000) → result ≡ 0xfffd }
{
    match char::from_u32(unit as u32) {
        Some(char) => char,
        None => '\u{fffd}',
    }
}
