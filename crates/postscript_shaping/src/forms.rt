//! Characters that a shaper may use without composing or decomposing those of a text.
ghost use Rattle.std.specs.Prelude.{◌≡◌, ◌++◌, IfOk, OnOk};
ghost use Rattle.std.specs.List.{filter, list_any};
ghost use Rattle.postscript_shaping.specs.Characters.{is_attached as the_attached, is_mirrored as the_mirrored, is_right_to_left as the_right_to_left};
ghost use Rattle.std.specs.List.Sorted.{IsNonDecreasing};
ghost use Rattle.postscript_shaping.specs.Computing.{base as the_base, is_arabic as the_arabic, is_form as the_form, is_inserted as the_inserted};
ghost use Rattle.postscript_shaping.specs.Traits.{AreTraits};

use crate::characters::{is_arabic_form, is_attached, is_mirrored, is_right_to_left};
use crate::parts::compatible;
use crate::sorted::has_all;
use std::alloc::{AllocError, Global};

/// The space, which shapers use for characters that they hide.
const SPACE: u32 = 0x20;

/// The dotted circle, which shapers insert before a mark or a modifier without a base.
const DOTTED_CIRCLE: u32 = 0x25cc;

/// Returns whether some character is attached to a base.
fn has_attached(kept: &[u32]) -> bool
    ensures { result ≡ list_any the_attached kept.now }
{
    kept.iter().any(|char| is_attached(*char))
}

/// Returns whether some character is written from right to left.
fn has_right_to_left(kept: &[u32]) -> bool
    ensures { result ≡ list_any the_right_to_left kept.now }
{
    kept.iter().any(|char| is_right_to_left(*char))
}

/// Returns whether some character is mirrored in text from right to left.
fn has_mirrored(kept: &[u32]) -> bool
    ensures { result ≡ list_any the_mirrored kept.now }
{
    kept.iter().any(|char| is_mirrored(*char))
}

/// What a text has.
#[derive(Clone, Copy)]
struct Traits {
    /// A character.
    some: bool,
    /// A character that is attached to a base.
    attached: bool,
    /// A letter that is written from right to left, and a character that is mirrored there.
    mirrors: bool,
}

/// Returns what the kept characters have.
fn traits_of(kept: &[u32]) -> Traits
    ensures { AreTraits kept.now result }
{
    Traits {
        some: !kept.is_empty(),
        attached: has_attached(kept),
        mirrors: has_right_to_left(kept) && has_mirrored(kept),
    }
}

/// Returns whether a shaper may insert a character: the space if some character is kept, or the dotted circle if one
/// is that is attached to a base.
fn is_inserted(some: bool, attached: bool, char: u32) -> bool
    ensures { result ≡ the_inserted some attached char }
{
    (some && char == SPACE) || (attached && char == DOTTED_CIRCLE)
}

/// Returns whether a character is an Arabic presentation form of kept characters. `own` has these and their parts.
fn is_arabic(own: &[u32], char: u32) -> bool
    requires { IsNonDecreasing own.now }
    ensures { result ≡ the_arabic own.now char }
{
    if !is_arabic_form(char) {
        return false;
    }
    let parts = compatible(char);
    !parts.is_empty() && has_all(own, parts)
}

/// Returns whether a shaper may use a character as a form of kept ones. `own` has these and their parts.
fn is_form(_kept: &[u32], own: &[u32], traits: Traits, char: u32) -> bool
    requires order { IsNonDecreasing own.now }
    requires traits { AreTraits _kept.now traits }
    ensures { result ≡ the_form _kept.now own.now char }
{
    is_inserted(traits.some, traits.attached, char)
        || (traits.mirrors && is_mirrored(char))
        || is_arabic(own, char)
}

/// Adds the forms of a font for kept characters.
fn put_forms(
    all: &mut Vec<u32>,
    mapped: &[u32],
    kept: &[u32],
    own: &[u32],
    traits: Traits,
) -> Result<(), AllocError>
    requires order { IsNonDecreasing own.now }
    requires traits { AreTraits kept.now traits }
    ensures { OnOk result (all.new.items ≡ all.old.items ++ filter (the_form kept.now own.now) mapped.now) }
{
    for char in mapped {
        if is_form(kept, own, traits, *char) {
            all.push(*char)?;
        }
    }
    Ok(())
}

/// Returns the kept characters, and their forms in a font. `own` has the kept characters and their parts.
pub(crate) fn with_forms(
    alloc: Global,
    mapped: &[u32],
    kept: &[u32],
    own: &[u32],
) -> Result<Vec<u32>, AllocError>
    requires { IsNonDecreasing own.now }
    ensures { IfOk result (λ all. all.items ≡ the_base mapped.now kept.now own.now) }
{
    let mut all = Vec::from_slice(alloc, kept)?;
    put_forms(&mut all, mapped, kept, own, traits_of(kept))?;
    Ok(all)
}
