//! Parsing fonts.
ghost use Rattle.std.specs.Prelude.{◌≡◌, ◌≢◌, ◌⊎◌, ℕ, [], None, IfOk, IfErr, IsOkAnd, OnOk, map, slice_get, string_bytes};
ghost use Rattle.postscript_base.specs.RefusalOf.{refusal_of};
ghost use Rattle.postscript_compact1.specs.Index.{Index};
ghost use Rattle.postscript_compact1.specs.FontSet.Font.{Font};
ghost use Rattle.postscript_compact1.specs.FontSet.Layout.{IsFont};
ghost use Rattle.postscript_compact1.specs.FontSet.Value.{font_shown};
ghost use Rattle.postscript_examples.specs.Glyphs.{drawn, drawn_by, first_refused_by, lists, HasGlyphs};

use crate::glyphs::{Glyph, each_glyph};
use postscript::compact1::FontSet;
use postscript::{Error, Result, Value};
use std::alloc::Global;
use std::io::Cursor;

/// Parses the font at the start of the bytes. It succeeds exactly if there is one, apart from running out of memory.
pub fn font_of(alloc: Global, bytes: &[u8]) -> Result<FontSet>
    ensures found { IfOk result (λ font. (next : ℕ) × IsFont bytes.now 0 (font_shown font) next) }
    ensures only { IfErr result (λ e. e ≢ Error.Memory → (font : Font) (next : ℕ) → IsFont bytes.now 0 font next → ⊥) }
{
    let mut tape = Cursor::new(bytes);
    FontSet::read(alloc, &mut tape)
}

/// Returns the names of the fonts in the bytes. It succeeds exactly if there is a font, apart from running out of
/// memory.
pub fn names_of(alloc: Global, bytes: &[u8]) -> Result<Vec<String>>
    ensures names { IfOk result (λ names. (font : Font) × (next : ℕ) × IsFont bytes.now 0 font next
        × (font.names ≡ map string_bytes names.items)) }
    ensures only { IfErr result (λ e. e ≢ Error.Memory → (font : Font) (next : ℕ) → IsFont bytes.now 0 font next → ⊥) }
{
    let font = font_of(alloc, bytes)?;
    Ok(font.names)
}

/// Returns the operations of each glyph in one of a font's dictionaries, and the width minus nominalWidthX.
/// Dictionaries are counted from 0. The list is empty if there is no such dictionary.
pub fn glyphs_of(alloc: Global, font: &FontSet, dictionary: usize) -> Result<Vec<Glyph>>
    ensures drawn { (codes local : Index) → HasGlyphs (font_shown font.now) dictionary codes local →
        IfOk result (λ glyphs. map drawn glyphs.items ≡ map (drawn_by (lists (font_shown font.now).global_subroutines local)) codes.items) }
    ensures faultless { (codes local : Index) → HasGlyphs (font_shown font.now) dictionary codes local →
        OnOk result (first_refused_by (lists (font_shown font.now).global_subroutines local) codes.items ≡ None) }
    ensures refused { (codes local : Index) → HasGlyphs (font_shown font.now) dictionary codes local →
        IfErr result (λ e. (e ≡ Error.Memory)
        ⊎ (first_refused_by (lists (font_shown font.now).global_subroutines local) codes.items ≡ Some (refusal_of e))) }
    ensures absent { (slice_get (font_shown font.now).char_strings dictionary ≡ None)
        ⊎ (slice_get (font_shown font.now).local_subroutines dictionary ≡ None) →
        IsOkAnd result (λ glyphs. glyphs.items ≡ []) }
{
    let (Some(codes), Some(local)) = (
        font.char_strings.get(dictionary),
        font.local_subroutines.get(dictionary),
    ) else {
        return Ok(Vec::new(alloc));
    };
    each_glyph(
        alloc,
        codes.data(),
        font.global_subroutines.data(),
        local.data(),
    )
}
