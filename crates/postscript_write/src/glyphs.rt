//! The charstrings of glyphs without calls.
ghost use Rattle.std.specs.Prelude.{◌≡◌, ◌≢◌, ◌⊎◌, ◌<◌, ℕ, [], ◌∷◌, Some, None, length, slice_index_or, IfNone, IfOk, IfErr, IfSome, OnOk};
ghost use Rattle.postscript_base.specs.declared.error.Error.TheVariants as causes;
ghost use Rattle.postscript_type2.specs.Program.Routines.{texts};
ghost use Rattle.postscript_write.specs.declared.error.Error.TheVariants as errors;
ghost use Rattle.postscript_view.specs.Value.{view_shown};
ghost use Rattle.postscript_base.specs.Index.Lent.{items_of};
ghost use Rattle.postscript_write.specs.Glyphs.{AreCodesOf, AreGlyphs, AreNumbersOf, ShowsPartFor, IsCodeFor, IsCodeOf, IsGlyph, code_text};
ghost use Rattle.postscript_view.specs.Glyphs.{HasPartNumber};
ghost use Rattle.postscript_write.specs.Refusals.{IsFirstLong};
ghost use Rattle.postscript_write.specs.Sizes.{AreShort};
ghost use Rattle.postscript_write.specs.Steps.{IsNotNumbered, RefusedBy, RefusedFor};

use crate::error::{Error, Result};
use postscript_base::Error as Cause;
use postscript_type2::{Charstring, Subroutines};
use postscript_view::FontView;
use std::alloc::Global;

/// The number of the Font DICT of a source glyph.
fn number_of(font: &FontView<'_>, source: Option<usize>) -> Result<usize>
    ensures number { IfOk result (λ number. ShowsPartFor font.now.bytes.now (view_shown font.now) source number) }
    ensures there { OnOk result (IsGlyph source (length (items_of font.now.char_strings))) }
    ensures refused { IfErr result (λ e. (glyph : ℕ) × (source ≡ Some glyph) × (e ≡ errors.MissingPart glyph)
        × ((part : ℕ) → HasPartNumber font.now glyph part → ⊥)) }
{
    let Some(glyph) = source else {
        return Ok(0);
    };
    match font.part_of(glyph) {
        Some(number) => Ok(number),
        None => Err(Error::MissingPart(glyph)),
    }
}

/// The numbers of the Font DICTs of source glyphs.
pub(crate) fn numbers_of(
    alloc: Global,
    font: &FontView<'_>,
    sources: &[Option<usize>],
) -> Result<Vec<usize>>
    ensures numbers { IfOk result (λ numbers. AreNumbersOf font.now.bytes.now (view_shown font.now) sources.now numbers.items) }
    ensures there { OnOk result (AreGlyphs sources.now (length (items_of font.now.char_strings))) }
    ensures refused { IfErr result (λ e. IsNotNumbered font.now.bytes.now (view_shown font.now) sources.now e) }
{
    let mut numbers = Vec::with_capacity(alloc, sources.len())?;
    for i in 0..sources.len() {
        let number = number_of(font, sources[i])?;
        numbers.push(number)?;
    }
    Ok(numbers)
}

/// The error of a glyph, apart from running out of memory.
fn refusal(glyph: usize, cause: Cause) -> Error
    ensures { (result ≡ errors.Refused causes.Memory) ⊎ ((cause ≢ causes.Memory) × (result ≡ errors.Glyph glyph cause)) }
{
    match cause {
        Cause::Memory => Error::Refused(Cause::Memory),
        cause => Error::Glyph(glyph, cause),
    }
}

/// The charstring to write. An empty one becomes `0 drop`, since `FontSet` rejects an INDEX with empty items.
fn never_empty(code: Vec<u8>) -> Result<Vec<u8>>
    ensures code { IfOk result (λ written. written.items ≡ code_text code.items) }
    ensures memory { IfErr result (λ e. e ≡ errors.Refused causes.Memory) }
{
    let mut written = code;
    if written.is_empty() {
        written.extend_from_slice(&[0x8b, 0x0c, 0x12])?;
    }
    Ok(written)
}

/// The charstring of a glyph without calls.
fn flat_code(alloc: Global, font: &FontView<'_>, glyph: usize, number: usize) -> Result<Vec<u8>>
    requires glyph { glyph < length (items_of font.now.char_strings) }
    requires part { number < length font.now.parts.items }
    ensures code { IfOk result (λ flat. IsCodeOf (view_shown font.now) glyph number flat.items) }
    ensures refused { IfErr result (λ e. RefusedFor (view_shown font.now) (Some glyph) number e) }
{
    let code = font.char_strings.item(glyph);
    let part = &font.parts[number];
    let subroutines = Subroutines::indexes(font.global_subroutines, part.subroutines);
    match (Charstring { code, subroutines }).inlined(alloc) {
        Ok(flat) => never_empty(flat),
        Err(cause) => Err(refusal(glyph, cause)),
    }
}

/// The charstring of an empty glyph.
fn empty_code(alloc: Global) -> Result<Vec<u8>>
    ensures code { IfOk result (λ flat. flat.items ≡ 0x0e ∷ []) }
    ensures memory { IfErr result (λ e. e ≡ errors.Refused causes.Memory) }
{
    let mut flat = Vec::new(alloc);
    flat.push(0x0e)?;
    Ok(flat)
}

/// The charstring of a source glyph.
fn code_of(
    alloc: Global,
    font: &FontView<'_>,
    source: Option<usize>,
    number: usize,
) -> Result<Vec<u8>>
    requires glyph { IsGlyph source (length (items_of font.now.char_strings)) }
    requires part { ShowsPartFor font.now.bytes.now (view_shown font.now) source number }
    ensures code { IfOk result (λ flat. IsCodeFor (view_shown font.now) source number flat.items) }
    ensures refused { IfErr result (λ e. RefusedFor (view_shown font.now) source number e) }
{
    match source {
        Some(glyph) => flat_code(alloc, font, glyph, number),
        None => empty_code(alloc),
    }
}

/// The charstrings of source glyphs.
pub(crate) fn codes_of(
    alloc: Global,
    font: &FontView<'_>,
    sources: &[Option<usize>],
    numbers: &[usize],
) -> Result<Vec<Vec<u8>>>
    requires glyphs { AreGlyphs sources.now (length (items_of font.now.char_strings)) }
    requires numbers { AreNumbersOf font.now.bytes.now (view_shown font.now) sources.now numbers.now }
    ensures codes { IfOk result (λ flats. AreCodesOf (view_shown font.now) sources.now numbers.now (texts flats.items)) }
    ensures refused { IfErr result (λ e. RefusedBy (view_shown font.now) sources.now numbers.now e) }
{
    let mut flats = Vec::with_capacity(alloc, sources.len())?;
    for i in 0..sources.len() {
        let flat = match code_of(alloc, font, sources[i], numbers[i]) {
            Ok(flat) => flat,
            Err(e) => return Err(e),
        };
        flats.push(flat)?;
    }
    Ok(flats)
}

/// The source of the first charstring that has more bytes than a charstring may have (Technical Note 5177, Appendix B).
pub(crate) fn long_glyph(sources: &[Option<usize>], codes: &[Vec<u8>]) -> Option<usize>
    requires many { length codes.now ≡ length sources.now }
    requires empty { (i : ℕ) → i < length sources.now → slice_index_or sources.now i None ≡ None →
        length (slice_index_or (texts codes.now) i []) ≡ 1 }
    ensures long { IfSome result (λ glyph. IsFirstLong sources.now (texts codes.now) glyph) }
    ensures short { IfNone result (AreShort (texts codes.now)) }
{
    for i in 0..codes.len() {
        if codes[i].len() > 65_535 {
            return sources[i];
        }
    }
    None
}
