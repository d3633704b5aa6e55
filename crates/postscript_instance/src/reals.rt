//! Reals of DICTs with at most 18 significant digits, which is what `postscript_base` reads (Technical Note 5176, "DICT
//! Data", Table 5).
ghost use Rattle.std.specs.Prelude.{◌≡◌, ◌≢◌, ◌++◌, ◌∷◌, ℕ, List, drop, false, IfErr, IfOk, OnOk};
ghost use Rattle.postscript_base.specs.Compact1.Nibbles.{nibbles as the_nibbles};
ghost use Rattle.postscript_instance.specs.Encoded.{one_or_none};
ghost use Rattle.postscript_instance.specs.Reals.{byte_of as the_byte, cut, packed, real_text};
ghost use Rattle.postscript_instance.specs.Refusals.{IsMemory};

use crate::error::Result;
use std::alloc::Global;

/// The byte before the nibbles of a real.
const REAL: u8 = 30;

/// The nibbles of a point, of an exponent and of a negative one, and of the end.
const POINT: u8 = 10;

const EXPONENT: u8 = 11;

const NEGATIVE_EXPONENT: u8 = 12;

const END: u8 = 15;

/// The greatest number of significant digits.
const DIGITS: usize = 18;

/// The significant digits of a real so far, and the part of the real that was reached.
#[derive(Drop)]
struct Digits {
    count: usize,
    is_fraction: bool,
    is_exponent: bool,
}

impl Digits {
    /// The nibble to write for a nibble of the real. A digit after the last significant one becomes 0 before the point,
    /// and is left out after it.
    fn kept_nibble(&mut self, nibble: u8) -> Option<u8>
        requires { nibble ≢ 15 }
        ensures { (rest : List ℕ) → cut self.old.count self.old.is_fraction self.old.is_exponent (nibble ∷ rest)
            ≡ one_or_none result ++ cut self.new.count self.new.is_fraction self.new.is_exponent rest }
    {
        if nibble < POINT && !self.is_exponent && (nibble > 0 || self.count > 0) {
            if self.count < DIGITS {
                self.count += 1;
                return Some(nibble);
            }
            return if self.is_fraction { None } else { Some(0) };
        }
        self.is_fraction = self.is_fraction || nibble == POINT;
        self.is_exponent = self.is_exponent || (nibble == EXPONENT || nibble == NEGATIVE_EXPONENT);
        Some(nibble)
    }
}

/// The nibbles of bytes.
fn nibbles_of(alloc: Global, bytes: &[u8]) -> Result<Vec<u8>>
    ensures are { IfOk result (λ nibbles. nibbles.items ≡ the_nibbles bytes.now) }
    ensures memory { IfErr result (λ e. IsMemory e) }
{
    let mut nibbles = Vec::new(alloc);
    for byte in bytes {
        nibbles.extend_from_slice(&[byte / 16, byte % 16])?;
    }
    Ok(nibbles)
}

/// The nibbles of a real up to its end, with at most 18 significant digits.
fn shorten_real(alloc: Global, nibbles: &[u8]) -> Result<Vec<u8>>
    ensures are { IfOk result (λ kept. kept.items ≡ cut 0 false false nibbles.now) }
    ensures memory { IfErr result (λ e. IsMemory e) }
{
    let mut digits = Digits {
        count: 0,
        is_fraction: false,
        is_exponent: false,
    };
    let mut kept = Vec::new(alloc);
    for nibble in nibbles {
        if *nibble == END {
            return Ok(kept);
        }
        if let Some(nibble) = digits.kept_nibble(*nibble) {
            kept.push(nibble)?;
        }
    }
    Ok(kept)
}

/// A byte of two nibbles.
fn byte_of(high: u8, low: u8) -> u8
    ensures { result ≡ the_byte high low }
{
    high % 16 * 16 + low % 16
}

/// Appends nibbles, and the end of a real.
fn put_nibbles(out: &mut Vec<u8>, nibbles: &[u8]) -> Result<()>
    ensures text { OnOk result (out.new.items ≡ out.old.items ++ packed nibbles.now) }
    ensures memory { IfErr result (λ e. IsMemory e) }
{
    let mut rest = nibbles;
    while rest.len() > 1 {
        out.push(byte_of(rest[0], rest[1]))?;
        rest = &rest[2..];
    }
    let high = if rest.is_empty() { END } else { rest[0] };
    out.push(byte_of(high, END))?;
    Ok(())
}

/// The bytes of a real after the first.
fn digits_of(real: &[u8]) -> &[u8]
    ensures { result.now ≡ drop 1 real.now }
{
    match real {
        [_first, digits @ ..] => digits,
        [] => &[],
    }
}

/// Appends a real with at most 18 significant digits. More digits are cut off.
pub(crate) fn put_real(alloc: Global, out: &mut Vec<u8>, real: &[u8]) -> Result<()>
    ensures text { OnOk result (out.new.items ≡ out.old.items ++ real_text real.now) }
    ensures memory { IfErr result (λ e. IsMemory e) }
{
    let nibbles = nibbles_of(alloc, digits_of(real))?;
    let kept = shorten_real(alloc, &nibbles)?;
    out.push(REAL)?;
    put_nibbles(out, &kept)
}
