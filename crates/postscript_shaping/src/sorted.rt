//! Sorted lists of characters.
ghost use Rattle.std.specs.Prelude.{◌≡◌, IfOk};
ghost use Rattle.std.specs.List.Sorted.{IsNonDecreasing, IsPermutation};
ghost use Rattle.postscript_shaping.specs.Computing.{has as the_has, has_all as the_has_all, has_any as the_has_any};

use std::alloc::{AllocError, Global};

/// Returns characters in ascending order.
pub(crate) fn sorted(alloc: Global, chars: &[u32]) -> Result<Vec<u32>, AllocError>
    ensures order { IfOk result (λ sorted. IsNonDecreasing sorted.items) }
    ensures same { IfOk result (λ sorted. IsPermutation chars.now sorted.items) }
{
    let mut sorted = Vec::from_slice(alloc, chars)?;
    sorted.sort()?;
    Ok(sorted)
}

/// Returns whether a sorted list has a character.
pub(crate) fn has(sorted: &[u32], char: u32) -> bool
    requires { IsNonDecreasing sorted.now }
    ensures { result ≡ the_has sorted.now char }
{
    sorted.binary_search(&char).is_ok()
}

/// Returns whether a sorted list has all of some characters.
pub(crate) fn has_all(sorted: &[u32], chars: &[char]) -> bool
    requires { IsNonDecreasing sorted.now }
    ensures { result ≡ the_has_all sorted.now chars.now }
{
    chars.iter().all(|char| has(sorted, u32::from(*char)))
}

/// Returns whether a sorted list has one of some characters.
pub(crate) fn has_any(sorted: &[u32], chars: &[char]) -> bool
    requires { IsNonDecreasing sorted.now }
    ensures { result ≡ the_has_any sorted.now chars.now }
{
    chars.iter().any(|char| has(sorted, u32::from(*char)))
}
