//! Checksums (ISO/IEC 14496-22, 4.5, "Calculating checksums").
ghost use Rattle.std.specs.Prelude.{◌≡◌, ◌<◌, ◌%◌, ◌^◌, length, sum};
ghost use Rattle.postscript_sfnt_write.specs.Checksum.{checksum as the_checksum, words};

/// Returns the checksum of a table: the sum of its big-endian numbers of four bytes, modulo 2^32. Zeros fill up the
/// last number.
#[tactic(auto, unfolding(crate::specs::Checksum::words))]
pub fn checksum(table: &[u8]) -> u32
    // The result is exactly what `checksum` computes from the bytes (specs/Checksum.antt).
    ensures { result ≡ the_checksum table.now }
{
    let mut sum = 0u32;
    let mut rest = table;
    while let [a, b, c, d, behind @ ..] = rest {
        sum = sum.wrapping_add(u32::from_be_bytes([*a, *b, *c, *d]));
        rest = behind;
    }
    sum.wrapping_add(last_word(rest))
}

/// The number of fewer than four bytes, filled up with zeros.
#[tactic(auto, unfolding(crate::specs::Checksum::words))]
fn last_word(bytes: &[u8]) -> u32
    requires { length bytes.now < 4 }
    ensures { result ≡ sum (words bytes.now) }
{
    match bytes {
        [a, b, c] => u32::from_be_bytes([*a, *b, *c, 0]),
        [a, b] => u32::from_be_bytes([*a, *b, 0, 0]),
        [a] => u32::from_be_bytes([*a, 0, 0, 0]),
        _ => 0,
    }
}
