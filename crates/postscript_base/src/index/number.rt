//! Numbers read from a slice at an offset.
ghost use Rattle.std.specs.Prelude.{◌≡◌, [], ◌∷◌, ◌+◌, ◌-◌, ◌*◌, ◌<◌, ◌≤◌, ◌^◌, length, MatchResult};
ghost use Rattle.std.specs.List.{slice_range};
ghost use Rattle.postscript_base.specs.Error.{IsListed};
ghost use Rattle.postscript_base.specs.Index.{number_at as the_number};

use crate::{Error, Result};

/// Returns the big-endian number of `size` bytes, at most four, at the offset `place`. The caller proves that the bytes
/// are there.
#[tactic(auto, using(crate::proofs::NumbersAt::of_none, crate::proofs::NumbersAt::of_one, crate::proofs::NumbersAt::of_two, crate::proofs::NumbersAt::of_three, crate::proofs::NumbersAt::of_four))]
#[inline(always)]
pub fn number_at(bytes: &[u8], place: usize, size: usize) -> usize
    requires size { size ≤ 4 }
    requires room { place + size ≤ length bytes.now }
    // The result fits in `size` bytes.
    ensures small { result < 2 ^ (8 * size) }
    // The result is the big-endian number of the `size` bytes at `place`.
    ensures value { result ≡ the_number bytes.now place size }
{
    match size {
        1 => bytes[place] as usize,
        2 => bytes[place] as usize * 256 + bytes[place + 1] as usize,
        3 => bytes[place] as usize * 65536
            + bytes[place + 1] as usize * 256
            + bytes[place + 2] as usize,
        4 => u32::from_be_bytes([
            bytes[place],
            bytes[place + 1],
            bytes[place + 2],
            bytes[place + 3],
        ]) as usize,
        _ => 0,
    }
}

/// Returns the big-endian number of `size` bytes, at most four, at the offset `place`.
///
/// # Errors
///
/// - `UnexpectedEof`: fewer bytes are left.
#[inline(always)]
pub fn number_within(bytes: &[u8], place: usize, size: usize) -> Result<usize>
    requires { size ≤ 4 }
    // Returns the number of the `size` bytes at `place`. Fails exactly if fewer bytes are left.
    ensures exact { MatchResult result
        (λ n. (place + size ≤ length bytes.now) × (n ≡ the_number bytes.now place size) × (n < 2 ^ (8 * size)))
        (λ e. length bytes.now < place + size) }
    // The only error is `UnexpectedEof`.
    ensures listed { IsListed (1 ∷ []) result }
{
    if place > bytes.len() || bytes.len() - place < size {
        return Err(Error::UnexpectedEof);
    }
    Ok(number_at(bytes, place, size))
}

/// Returns the bytes from `from` to `to`, truncated at the end of the slice.
#[inline(always)]
pub(crate) fn lent(bytes: &[u8], from: usize, to: usize) -> &[u8]
    ensures { result.now ≡ slice_range bytes.now from to }
{
    let to = to.min(bytes.len());
    if from < to { &bytes[from..to] } else { &[] }
}
