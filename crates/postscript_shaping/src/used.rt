//! The characters that a shaper may use.
ghost use Rattle.std.specs.Prelude.{IfOk};
ghost use Rattle.postscript_shaping.specs.Shaping.{AreUsed};

use crate::composing::{put_composed, with_parts};
use crate::forms::with_forms;
use crate::sorted::sorted;
use std::alloc::{AllocError, Global};

/// Returns the characters that a shaper may use for a text of some characters, in a font that maps `mapped`.
///
/// The result has the characters of the text, in any case, and these characters of the font:
///
/// - U+0020, which is drawn for characters that shapers hide, if the text is not empty;
/// - U+25CC, which is inserted before a mark without a base, or in Indic scripts before a digit such as superscript two, if
///   the text has one of these;
/// - mirrored characters such as brackets, if the text has one, and has a letter that is written from right to left;
/// - Arabic presentation forms of characters of the text, also of those that can be decomposed, such as alef with hamza above;
/// - the characters that these can be decomposed to, in one or more steps;
/// - if one of these, such as a combining mark or a jamo, can be composed with a character before it: the characters that can
///   be composed.
///
/// The characters are in no order, and may be there several times.
///
/// # Errors
///
/// `AllocError`: out of memory.
pub fn shaped(alloc: Global, mapped: &[u32], chars: &[u32]) -> Result<Vec<u32>, AllocError>
    // The result has exactly the characters that a shaper may use.
    ensures { IfOk result (λ all. AreUsed mapped.now chars.now all.items) }
{
    let kept = sorted(alloc, chars)?;
    let whole = with_parts(alloc, &kept)?;
    let own = sorted(alloc, &whole)?;
    let forms = with_forms(alloc, mapped, &kept, &own)?;
    let base = sorted(alloc, &forms)?;
    let parts = with_parts(alloc, &base)?;
    let known = sorted(alloc, &parts)?;
    let mut all = forms;
    put_composed(alloc, &mut all, mapped, &base, &known)?;
    Ok(all)
}
