//! Finds, for all characters at once, the first segment that contains each.
ghost use Rattle.std.specs.Prelude.{◌≡◌, ℕ, ◌+◌, ◌<◌, ◌≤◌, length, slice_index, IfOk};
ghost use Rattle.postscript_sfnt.specs.Owners.{AreLinks, AreOwners, IsChain, IsFree};

use super::END;
use std::alloc::{AllocError, Global};

/// Marks a character without a segment.
const NONE: u32 = 4294967295;

/// A list that links each number up to `END` to itself.
#[tactic(auto, using(crate::proofs::Owning::identity_chain, crate::proofs::Owning::identity_links))]
fn links(alloc: Global) -> Result<Vec<u32>, AllocError>
    ensures chain { IfOk result (λ links. IsChain links.items) }
    ensures links { IfOk result (λ links. (first last : ℕ → ℕ) → AreLinks first last 0 0 links.items) }
{
    let mut links = Vec::with_capacity(alloc, END + 1)?;
    for char in 0..END as u32 + 1 {
        links.push(char)?;
    }
    Ok(links)
}

/// A list without a segment for any character.
#[tactic(auto, using(crate::proofs::Owning::no_owners))]
fn none(alloc: Global) -> Result<Vec<u32>, AllocError>
    ensures { IfOk result (λ owners. (first last : ℕ → ℕ) → AreOwners first last 0 owners.items) }
{
    let mut owners = Vec::with_capacity(alloc, END)?;
    for _ in 0..END {
        owners.push(NONE)?;
    }
    Ok(owners)
}

/// The first free character from one on, or `END`. Links on the way are shortened.
fn free_from(links: &mut [u32], from: usize) -> usize
    requires within { from ≤ 0x110000 }
    requires chain { IsChain links.old }
    ensures within { result ≤ 0x110000 }
    ensures chain { IsChain links.new }
    ensures links { (first last : ℕ → ℕ) (count to : ℕ) → AreLinks first last count to links.old → AreLinks first last count to links.new }
    ensures free { (first last : ℕ → ℕ) (count to : ℕ) → AreLinks first last count to links.old → IsFree first last count to from result }
{
    let mut char = from;
    while links[char] as usize != char {
        let next = links[char] as usize;
        links[char] = links[next];
        char = next;
    }
    char
}

/// Assigns to a segment its characters that no earlier segment contains.
#[tactic(auto, using(crate::proofs::Owning::painted_owners))]
fn paint(owners: &mut [u32], links: &mut [u32], firsts: &[u32], lasts: &[u32], i: usize)
    requires listed { i < length firsts.now }
    requires paired { length lasts.now ≡ length firsts.now }
    requires counted { i < 4294967295 }
    requires owners { AreOwners (slice_index firsts.now) (slice_index lasts.now) i owners.old }
    requires chain { IsChain links.old }
    requires links { AreLinks (slice_index firsts.now) (slice_index lasts.now) i 0 links.old }
    ensures owners { AreOwners (slice_index firsts.now) (slice_index lasts.now) (i + 1) owners.new }
    ensures chain { IsChain links.new }
    ensures links { AreLinks (slice_index firsts.now) (slice_index lasts.now) (i + 1) 0 links.new }
{
    let first = firsts[i] as usize;
    let last = lasts[i] as usize;
    let from = if first < END { first } else { END };
    let mut char = free_from(links, from);
    while char < END && char <= last {
        owners[char] = i as u32;
        links[char] = char as u32 + 1;
        char = free_from(links, char + 1);
    }
}

/// Returns, for each character of Unicode, the first segment that contains it, or `NONE`.
///
/// Segments are given by their first and last characters. The number of steps is about the number of segments and
/// characters, whatever the order of the segments.
pub(crate) fn owners(alloc: Global, firsts: &[u32], lasts: &[u32]) -> Result<Vec<u32>, AllocError>
    requires paired { length lasts.now ≡ length firsts.now }
    requires counted { length firsts.now < 4294967296 }
    ensures { IfOk result (λ owners. AreOwners (slice_index firsts.now) (slice_index lasts.now) (length firsts.now) owners.items) }
{
    let mut owners = none(alloc)?;
    let mut links = links(alloc)?;
    for i in 0..firsts.len() {
        paint(&mut owners, &mut links, firsts, lasts, i);
    }
    Ok(owners)
}
