//! The characters that a subset needs for a text.
ghost use Rattle.std.specs.Prelude.{◌≡◌, IfOk, IfErr, map};
ghost use Rattle.postscript_files.specs.declared.error.Error.TheVariants as causes;
ghost use Rattle.postscript_subset.specs.TextChars.{AreMapped, AreTextChars, NoTextChars};
ghost use Rattle.postscript_subset.specs.declared.error.Error.TheVariants as errors;

use crate::error::Result;
use postscript_files::Face;
use postscript_sfnt::CharacterMap;
use postscript_shaping::shaped;
use std::alloc::Global;

/// Returns the characters of pairs with their glyphs.
fn firsts(alloc: Global, all: &[(u32, u16)]) -> Result<Vec<u32>>
    ensures firsts { IfOk result (λ chars. chars.items ≡ map (λ next. next.0) all.now) }
    ensures memory { IfErr result (λ e. e ≡ errors.File causes.Memory) }
{
    let mut chars = Vec::new(alloc);
    for next in all {
        chars.push(next.0)?;
    }
    Ok(chars)
}

/// Returns all characters that a map gives a glyph.
fn mapped_by(alloc: Global, map: &CharacterMap<'_>) -> Result<Vec<u32>>
    ensures mapped { IfOk result (λ chars. AreMapped map.now chars.items) }
    ensures memory { IfErr result (λ e. e ≡ errors.File causes.Memory) }
{
    let all = map.characters(alloc)?;
    let chars = firsts(alloc, &all)?;
    Ok(chars)
}

/// Returns the given characters, and the characters of a face that a shaper may use for a text of them.
///
/// A subset with these characters sets such a text as the whole face does, also if it is composed, decomposed, mirrored or
/// has marks. They are the `chars` of [`subset_with_layout`]. The crate `postscript_shaping` lists them.
///
/// # Errors
///
/// `File`: the face is not opened. This includes `Memory`.
///
/// [`subset_with_layout`]: crate::subset_with_layout
pub fn text_chars(alloc: Global, file: &[u8], number: usize, chars: &[u32]) -> Result<Vec<u32>>
    // Exactly the given characters, and those that a shaper may use in addition.
    ensures used { IfOk result (λ all. AreTextChars file.now number chars.now all.items) }
    // An error is that of a face that is not opened, or memory runs out.
    ensures why { IfErr result (λ e. NoTextChars file.now number e) }
{
    let face = Face::open(file, number)?;
    let mapped = mapped_by(alloc, &face.map)?;
    let all = shaped(alloc, &mapped, chars)?;
    Ok(all)
}
