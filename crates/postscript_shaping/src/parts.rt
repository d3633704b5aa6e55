//! The parts that characters consist of.
ghost use Rattle.std.specs.Prelude.{◌≡◌, ◌++◌, true, false, MatchOption, OnOk};
ghost use Rattle.postscript_shaping.specs.Parts.{compatible as the_compatible, is_syllable, letters as the_letters, parts as the_parts};
ghost use Rattle.postscript_shaping.specs.Jamo.{IsSyllable, list_of};

use std::alloc::AllocError;
use ucd_normal::{canonical_decomposition, compatibility_decomposition};

/// The Hangul syllables, and the first of the jamo that they consist of.
const SYLLABLES: u32 = 0xac00;

const LEADING: u32 = 0x1100;

const VOWELS: u32 = 0x1161;

const TRAILING: u32 = 0x11a7;

/// The jamo of a Hangul syllable.
#[derive(Clone, Copy)]
pub(crate) struct Jamo {
    pub(crate) leading: u32,
    pub(crate) vowel: u32,
    pub(crate) trailing: Option<u32>,
}

/// Returns the canonical decomposition of a character, or no characters.
pub(crate) fn letters(char: u32) -> &'static [char]
    ensures { result.now ≡ the_letters char }
{
    match char::from_u32(char) {
        Some(char) => canonical_decomposition(char),
        None => &[],
    }
}

/// Returns the compatibility decomposition of a character, or no characters.
pub(crate) fn compatible(char: u32) -> &'static [char]
    ensures { result.now ≡ the_compatible char }
{
    match char::from_u32(char) {
        Some(char) => compatibility_decomposition(char),
        None => &[],
    }
}

/// Returns the jamo of a Hangul syllable.
pub(crate) fn jamo_of(char: u32) -> Option<Jamo>
    ensures { MatchOption result (is_syllable char ≡ false) (λ jamo. IsSyllable char jamo) }
{
    if char < SYLLABLES || char > 0xd7a3 {
        return None;
    }
    let number = char - SYLLABLES;
    Some(Jamo {
        leading: LEADING + number / 588,
        vowel: VOWELS + number / 28 % 21,
        trailing: match number % 28 {
            0 => None,
            trailing => Some(TRAILING + trailing),
        },
    })
}

/// Adds the jamo of a syllable.
fn put_jamo(chars: &mut Vec<u32>, jamo: Jamo) -> Result<(), AllocError>
    ensures { OnOk result (chars.new.items ≡ chars.old.items ++ list_of jamo) }
{
    chars.push(jamo.leading)?;
    chars.push(jamo.vowel)?;
    if let Some(trailing) = jamo.trailing {
        chars.push(trailing)?;
    }
    Ok(())
}

/// Adds some characters.
fn put_all(chars: &mut Vec<u32>, more: &[char]) -> Result<(), AllocError>
    ensures { OnOk result (chars.new.items ≡ chars.old.items ++ more.now) }
{
    for char in more {
        chars.push(u32::from(*char))?;
    }
    Ok(())
}

/// Adds the parts of a character.
pub(crate) fn put_parts(chars: &mut Vec<u32>, char: u32) -> Result<(), AllocError>
    ensures { OnOk result (chars.new.items ≡ chars.old.items ++ the_parts char) }
{
    match jamo_of(char) {
        Some(jamo) => put_jamo(chars, jamo),
        None => put_all(chars, letters(char)),
    }
}
