//! The maximum size of a `CFF ` table.
ghost use Rattle.std.specs.Prelude.{◌≡◌, ◌+◌, ◌<◌, ◌≤◌, length, IfNone, IfSome, MatchBool};
ghost use Rattle.postscript_instance.specs.Rooms.{IsCrowded, IsTooLarge, codes_size, glyphs_size, names_size};

use crate::naming::Naming;
use postscript_cff2::Font;

/// The sum of two sizes, if it is below 2,000,000,000 bytes.
fn sum_within(sum: usize, more: usize) -> Option<usize>
    requires { sum < 2000000000 }
    ensures some { IfSome result (λ all. (all ≡ sum + more) × (all < 2000000000)) }
    ensures none { IfNone result (2000000000 ≤ sum + more) }
{
    if more < 2_000_000_000 - sum {
        Some(sum + more)
    } else {
        None
    }
}

/// A size plus the size of names, if it is below 2,000,000,000 bytes.
fn with_names(sum: usize, names: &[&[u8]]) -> Option<usize>
    requires { sum < 2000000000 }
    ensures some { IfSome result (λ all. (all ≡ sum + names_size names.now) × (all < 2000000000)) }
    ensures none { IfNone result (2000000000 ≤ sum + names_size names.now) }
{
    let mut all = sum;
    for i in 0..names.len() {
        all = sum_within(all, names[i].len())?;
    }
    Some(all)
}

/// A size plus the size of the glyph names, if any, if it is below 2,000,000,000 bytes.
fn with_glyphs(sum: usize, naming: &Naming<'_>) -> Option<usize>
    requires { sum < 2000000000 }
    ensures some { IfSome result (λ all. (all ≡ sum + glyphs_size naming.now.glyphs) × (all < 2000000000)) }
    ensures none { IfNone result (2000000000 ≤ sum + glyphs_size naming.now.glyphs) }
{
    match naming.glyphs {
        Some(names) => with_names(sum, names),
        None => Some(sum),
    }
}

/// A size plus the size of texts, if it is below 2,000,000,000 bytes.
fn with_codes(sum: usize, codes: &[Vec<u8>]) -> Option<usize>
    requires { sum < 2000000000 }
    ensures some { IfSome result (λ all. (all ≡ sum + codes_size codes.now) × (all < 2000000000)) }
    ensures none { IfNone result (2000000000 ≤ sum + codes_size codes.now) }
{
    let mut all = sum;
    for i in 0..codes.len() {
        all = sum_within(all, codes[i].len())?;
    }
    Some(all)
}

/// The size of names, charstrings, Private DICTs and FontMatrix, if it is below 2,000,000,000 bytes.
fn size_of_table(
    naming: &Naming<'_>,
    codes: &[Vec<u8>],
    privates: &[Vec<u8>],
    matrix: &[u8],
) -> Option<usize>
    ensures none { IfNone result (2000000000 ≤ length naming.now.font.now + glyphs_size naming.now.glyphs + codes_size codes.now
        + codes_size privates.now + length matrix.now) }
    ensures some { IfSome result (λ all. all ≡ length naming.now.font.now + glyphs_size naming.now.glyphs + codes_size codes.now
        + codes_size privates.now + length matrix.now) }
    ensures few { IfSome result (λ all. all < 2000000000) }
{
    let font = sum_within(0, naming.font.len())?;
    let names = with_glyphs(font, naming)?;
    let charstrings = with_codes(names, codes)?;
    let dictionaries = with_codes(charstrings, privates)?;
    sum_within(dictionaries, matrix.len())
}

/// Whether there are more names than SIDs, or more Font DICTs than FDSelect can number.
fn is_crowded(font: &Font<'_>, naming: &Naming<'_>) -> bool
    ensures { MatchBool result (IsCrowded font.now naming.now) (IsCrowded font.now naming.now → ⊥) }
{
    match naming.glyphs {
        Some(names) => names.len() > 64_609,
        None => font.font_dictionaries.len() > 256,
    }
}

/// Whether a table with these charstrings, Private DICTs and this FontMatrix is too large.
pub(crate) fn is_too_large(
    font: &Font<'_>,
    naming: &Naming<'_>,
    codes: &[Vec<u8>],
    privates: &[Vec<u8>],
    matrix: &[u8],
) -> bool
    ensures { MatchBool result (IsTooLarge font.now naming.now codes.now privates.now matrix.now)
        (IsTooLarge font.now naming.now codes.now privates.now matrix.now → ⊥) }
{
    codes.len() > 0xffff
        || is_crowded(font, naming)
        || size_of_table(naming, codes, privates, matrix).is_none()
}
