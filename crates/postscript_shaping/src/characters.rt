//! Properties of characters. A number that is no character of Unicode has none of them.
ghost use Rattle.std.specs.Prelude.{◌≡◌};
ghost use Rattle.postscript_shaping.specs.Characters.{is_arabic_form as the_arabic_form, is_attached as the_attached, is_mark as the_mark, is_mirrored as the_mirrored, is_modifier as the_modifier, is_right_to_left as the_right_to_left};

use ucd_bidi::{BidiClass, is_bidi_mirrored};
use ucd_category::{GeneralCategory, GeneralCategoryGroup};

/// Returns whether a character is a mark.
fn is_mark(char: u32) -> bool
    ensures { result ≡ the_mark char }
{
    match char::from_u32(char) {
        Some(char) => GeneralCategoryGroup::Mark.contains(GeneralCategory::for_char(char)),
        None => false,
    }
}

/// Returns whether a character is a digit that modifies a syllable of an Indic script.
fn is_modifier(char: u32) -> bool
    ensures { result ≡ the_modifier char }
{
    matches!(char, 0xb2..=0xb3 | 0x2074 | 0x2082..=0x2084)
}

/// Returns whether a character is attached to a base.
pub(crate) fn is_attached(char: u32) -> bool
    ensures { result ≡ the_attached char }
{
    is_mark(char) || is_modifier(char)
}

/// Returns whether a character is a letter that is written from right to left.
pub(crate) fn is_right_to_left(char: u32) -> bool
    ensures { result ≡ the_right_to_left char }
{
    match char::from_u32(char) {
        Some(char) => matches!(
            BidiClass::for_char(char),
            BidiClass::RightToLeft | BidiClass::ArabicLetter
        ),
        None => false,
    }
}

/// Returns whether a character has a mirrored form in text from right to left.
pub(crate) fn is_mirrored(char: u32) -> bool
    ensures { result ≡ the_mirrored char }
{
    match char::from_u32(char) {
        Some(char) => is_bidi_mirrored(char),
        None => false,
    }
}

/// Returns whether a character is an Arabic presentation form.
pub(crate) fn is_arabic_form(char: u32) -> bool
    ensures { result ≡ the_arabic_form char }
{
    matches!(char, 0xfb50..=0xfdff | 0xfe70..=0xfeff)
}
