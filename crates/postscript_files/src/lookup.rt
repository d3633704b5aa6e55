//! The glyphs of a few characters, each looked up by itself.
ghost use Rattle.std.specs.Prelude.{◌≡◌, ◌⊎◌, ◌<◌, ◌≤◌, ◌↔◌, ℕ, IfOk, IfErr, OnOk};
ghost use Rattle.std.specs.List.{Contains};
ghost use Rattle.std.specs.List.Sorted.{IsStrictlyIncreasing};
ghost use Rattle.postscript_files.specs.Choices.{AreLookedUp, IsGlyphFor, PushesIf};
ghost use Rattle.postscript_files.specs.declared.error.Error.TheVariants as errors;

use crate::error::Result;
use postscript_sfnt::CharacterMap;
use postscript_sfnt_write::Mapping;
use std::alloc::Global;

/// One more than the last character of Unicode.
const CHARS: u32 = 0x110000;

/// Returns the glyph of a character, or 0 if the number is no character of Unicode.
fn glyph_for(map: &CharacterMap<'_>, char: u32) -> u16
    ensures { IsGlyphFor map.now char result }
{
    if char >= CHARS {
        return 0;
    }
    map.glyph_of(char)
}

/// Returns characters in ascending order, each once.
fn sorted_chars(alloc: Global, chars: &[u32]) -> Result<Vec<u32>>
    ensures rise { IfOk result (λ all. IsStrictlyIncreasing all.items) }
    ensures same { IfOk result (λ all. (char : ℕ) → Contains all.items char ↔ Contains chars.now char) }
    ensures memory { IfErr result (λ e. e ≡ errors.Memory) }
{
    let mut all = Vec::from_slice(alloc, chars)?;
    all.sort()?;
    all.dedup();
    Ok(all)
}

/// Appends a character with its glyph, if it has one.
fn push_if(pairs: &mut Vec<Mapping>, char: u32, glyph: u16) -> Result<()>
    ensures pushed { OnOk result (PushesIf pairs.old.items char glyph pairs.new.items) }
    ensures memory { IfErr result (λ e. e ≡ errors.Memory) }
{
    if glyph != 0 {
        pairs.push(Mapping { char, glyph })?;
    }
    Ok(())
}

/// Returns the characters of an ascending list that have a glyph, each with its glyph.
fn each_looked_up(alloc: Global, map: &CharacterMap<'_>, chars: &[u32]) -> Result<Vec<Mapping>>
    requires rise { IsStrictlyIncreasing chars.now }
    ensures found { IfOk result (λ pairs. AreLookedUp map.now chars.now pairs.items) }
    ensures memory { IfErr result (λ e. e ≡ errors.Memory) }
{
    let mut pairs = Vec::new(alloc);
    for char in chars {
        let glyph = glyph_for(map, *char);
        push_if(&mut pairs, *char, glyph)?;
    }
    Ok(pairs)
}

/// Returns the characters of a list that have a glyph, each with its glyph, in ascending order.
pub(crate) fn looked_up(
    alloc: Global,
    map: &CharacterMap<'_>,
    chars: &[u32],
) -> Result<Vec<Mapping>>
    ensures found { IfOk result (λ pairs. AreLookedUp map.now chars.now pairs.items) }
    ensures memory { IfErr result (λ e. e ≡ errors.Memory) }
{
    let all = sorted_chars(alloc, chars)?;
    each_looked_up(alloc, map, &all)
}
