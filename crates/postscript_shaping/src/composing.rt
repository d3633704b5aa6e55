//! Characters that a shaper composes of other characters, or decomposes to them.
ghost use Rattle.std.specs.Prelude.{◌≡◌, ◌++◌, IfOk, OnOk};
ghost use Rattle.std.specs.List.{filter, list_any};
ghost use Rattle.std.specs.List.Sorted.{IsNonDecreasing};
ghost use Rattle.postscript_shaping.specs.Computing.{compose, has_parts as the_has_parts, has_all as the_has_all, has_any as the_has_any, is_between as the_between, is_composed as the_composed, is_long as the_long, is_some_of as the_some_of, with_parts as the_with_parts};
ghost use Rattle.postscript_shaping.specs.Jamo.{list_of};
ghost use Rattle.postscript_shaping.specs.Parts.{parts, rest};

use crate::parts::{Jamo, jamo_of, letters, put_parts};
use crate::sorted::{has, has_all, has_any};
use std::alloc::{AllocError, Global};

/// Returns whether a sorted list has a jamo after the leading consonant.
fn has_later_jamo(sorted: &[u32], jamo: Jamo) -> bool
    requires { IsNonDecreasing sorted.now }
    ensures { result ≡ the_has_any sorted.now (rest (list_of jamo)) }
{
    match jamo.trailing {
        Some(trailing) => has(sorted, jamo.vowel) || has(sorted, trailing),
        None => has(sorted, jamo.vowel),
    }
}

/// Returns whether a sorted list has a part of a character after its first part.
fn has_later(sorted: &[u32], char: u32) -> bool
    requires { IsNonDecreasing sorted.now }
    ensures { result ≡ the_has_any sorted.now (rest (parts char)) }
{
    if let Some(jamo) = jamo_of(char) {
        return has_later_jamo(sorted, jamo);
    }
    match letters(char) {
        [_, later @ ..] => has_any(sorted, later),
        [] => false,
    }
}

/// Returns whether a shaper may compose one of the kept characters with a character before it.
fn may_compose(mapped: &[u32], kept: &[u32]) -> bool
    requires { IsNonDecreasing kept.now }
    ensures { result ≡ compose mapped.now kept.now }
{
    mapped.iter().any(|char| has_later(kept, *char))
}

/// Returns whether a sorted list has all jamo of a syllable.
fn has_jamo(sorted: &[u32], jamo: Jamo) -> bool
    requires { IsNonDecreasing sorted.now }
    ensures { result ≡ the_has_all sorted.now (list_of jamo) }
{
    let begins = has(sorted, jamo.leading) && has(sorted, jamo.vowel);
    match jamo.trailing {
        Some(trailing) => begins && has(sorted, trailing),
        None => begins,
    }
}

/// Returns whether a character has parts, and a sorted list has all of them.
fn has_parts(sorted: &[u32], char: u32) -> bool
    requires { IsNonDecreasing sorted.now }
    ensures { result ≡ the_has_parts sorted.now char }
{
    if let Some(jamo) = jamo_of(char) {
        return has_jamo(sorted, jamo);
    }
    let parts = letters(char);
    !parts.is_empty() && has_all(sorted, parts)
}

/// Returns characters and their parts.
pub(crate) fn with_parts(alloc: Global, chars: &[u32]) -> Result<Vec<u32>, AllocError>
    ensures { IfOk result (λ all. all.items ≡ the_with_parts chars.now) }
{
    let mut all = Vec::from_slice(alloc, chars)?;
    for char in chars {
        put_parts(&mut all, *char)?;
    }
    Ok(all)
}

/// Returns the characters with more than two letters.
fn long_of(alloc: Global, chars: &[u32]) -> Result<Vec<u32>, AllocError>
    ensures { IfOk result (λ long. long.items ≡ filter the_long chars.now) }
{
    let mut long = Vec::new(alloc);
    for char in chars {
        if letters(*char).len() > 2 {
            long.push(*char)?;
        }
    }
    Ok(long)
}

/// Returns whether a list has all of some letters.
fn are_among(all: &[char], some: &[char]) -> bool
    ensures { result ≡ the_has_all all.now some.now }
{
    some.iter().all(|letter| all.contains(letter))
}

/// Returns whether a character consists of fewer letters than another one, and all of them are letters of that one.
fn is_some_of(whole: u32, char: u32) -> bool
    ensures { result ≡ the_some_of whole char }
{
    let (all, some) = (letters(whole), letters(char));
    some.len() < all.len() && are_among(all, some)
}

/// Returns whether a character consists of fewer of the letters of one of some others.
fn is_some_of_any(wholes: &[u32], char: u32) -> bool
    ensures { result ≡ list_any (λ whole. the_some_of whole char) wholes.now }
{
    wholes.iter().any(|whole| is_some_of(*whole, char))
}

/// Returns whether a character has letters, and consists of fewer of the letters of one of the long ones.
fn is_between(long: &[u32], char: u32) -> bool
    ensures { result ≡ the_between long.now char }
{
    !letters(char).is_empty() && is_some_of_any(long, char)
}

/// Returns whether a shaper may decompose to a character, or compose it.
fn is_composed(composes: bool, known: &[u32], long: &[u32], char: u32) -> bool
    requires { IsNonDecreasing known.now }
    ensures { result ≡ the_composed composes known.now long.now char }
{
    has(known, char) || (composes && has_parts(known, char)) || is_between(long, char)
}

/// Adds the characters of a font that are composed of others.
fn put_each(
    all: &mut Vec<u32>,
    mapped: &[u32],
    composes: bool,
    known: &[u32],
    long: &[u32],
) -> Result<(), AllocError>
    requires { IsNonDecreasing known.now }
    ensures { OnOk result (all.new.items ≡ all.old.items ++ filter (the_composed composes known.now long.now) mapped.now) }
{
    for char in mapped {
        if is_composed(composes, known, long, *char) {
            all.push(*char)?;
        }
    }
    Ok(())
}

/// Adds the characters of a font that a shaper may decompose the base characters to, or compose of them. `known` has the
/// base characters and their parts.
pub(crate) fn put_composed(
    alloc: Global,
    all: &mut Vec<u32>,
    mapped: &[u32],
    base: &[u32],
    known: &[u32],
) -> Result<(), AllocError>
    requires base { IsNonDecreasing base.now }
    requires known { IsNonDecreasing known.now }
    ensures { OnOk result (all.new.items ≡ all.old.items ++ filter (the_composed (compose mapped.now base.now) known.now (filter the_long base.now)) mapped.now) }
{
    let composes = may_compose(mapped, base);
    let long = long_of(alloc, base)?;
    put_each(all, mapped, composes, known, &long)
}
