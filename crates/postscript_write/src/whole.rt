//! Makes a font of glyphs of another one.
ghost use Rattle.std.specs.Prelude.{◌≡◌, ◌≢◌, ◌<◌, ◌^◌, IfOk, IfErr, length, true};
ghost use Rattle.postscript_base.specs.Tape.Outcome.{Got};
ghost use Rattle.postscript_base.specs.declared.error.Error.TheVariants as causes;
ghost use Rattle.postscript_type2.specs.Program.Routines.{texts};
ghost use Rattle.postscript_view.specs.CharSets.{IsCharSetOf};
ghost use Rattle.postscript_view.specs.Encodings.{IsEncodingOf};
ghost use Rattle.postscript_view.specs.Layout.{IsLaidOut};
ghost use Rattle.postscript_view.specs.Contents.{View};
ghost use Rattle.postscript_base.specs.Index.Lent.{items_of};
ghost use Rattle.postscript_view.specs.Value.{view_shown};
ghost use Rattle.postscript_write.specs.Glyphs.{AreCodesOf, AreGlyphs, AreNumbersOf};
ghost use Rattle.postscript_write.specs.Identified.{AreSources, AreSourcesFor};
ghost use Rattle.postscript_write.specs.Making.{IsFontBy};
ghost use Rattle.postscript_write.specs.Once.{BeginsWithRos, TellsOnce};
ghost use Rattle.postscript_write.specs.ReadBack.{IsReadAs};
ghost use Rattle.postscript_write.specs.Readings.{HasLenientFont};
ghost use Rattle.postscript_write.specs.Refusals.{FontRefusedBy, NeedsNoName};
ghost use Rattle.postscript_write.specs.Room.{IsRead};
ghost use Rattle.postscript_write.specs.Selected.{AreLow, SelectsParts};
ghost use Rattle.postscript_write.specs.Sizes.{HasShortCodes, IsLarge};
ghost use Rattle.postscript_write.specs.Whole.{IsWholeFont};
ghost use Rattle.postscript_write.specs.declared.error.Error.TheVariants as errors;

use crate::error::{Error, Result, of_memory};
use crate::glyphs::{codes_of, long_glyph, numbers_of};
use crate::layout::write_font;
use crate::numbering::{identifiers_of, number_glyphs};
use crate::sizes::is_large;
use postscript_base::compact1::StringID;
use postscript_view::{CharSetView, EncodingView, FontView};
use std::alloc::Global;

/// The parts of a new font.
///
/// They are the old font with its charset and encoding, and for each glyph its source, the number of its Font DICT and
/// its charstring. The flag is set if glyphs keep their numbers.
#[derive(Clone, Copy)]
struct Making<'m, 'l> {
    font: &'m FontView<'l>,
    set: &'m CharSetView<'l>,
    encoding: &'m EncodingView<'l>,
    sources: &'m [Option<usize>],
    numbers: &'m [usize],
    codes: &'m [Vec<u8>],
    retain_gids: bool,
}

/// Writes a font from charstrings of another one. Without a list of SIDs or CIDs, its charset, encoding and strings are
/// unchanged. The only error is `Memory`.
fn put_together(
    alloc: Global,
    from: &Making<'_, '_>,
    identifiers: &Option<Vec<StringID>>,
) -> Result<Vec<u8>>
    requires read { IsRead from.now.font.now }
    requires low { AreLow from.now.font.now.bytes.now }
    requires set { IsCharSetOf from.now.set.now from.now.font.now.bytes.now from.now.font.now.dictionary
        (length (items_of from.now.font.now.char_strings)) }
    requires encoding { IsEncodingOf from.now.encoding.now from.now.font.now.bytes.now from.now.font.now.dictionary }
    requires numbers { AreNumbersOf from.now.font.now.bytes.now (view_shown from.now.font.now) from.now.sources.now from.now.numbers.now }
    requires codes { AreCodesOf (view_shown from.now.font.now) from.now.sources.now from.now.numbers.now (texts from.now.codes.now) }
    requires few { length from.now.sources.now < 2 ^ 16 }
    requires sources { AreSourcesFor from.now.retain_gids from.now.set.now (length (items_of from.now.font.now.char_strings))
        from.now.sources.now identifiers.now }
    requires small { IsLarge from.now.font.now.bytes.now (view_shown from.now.font.now) (texts from.now.codes.now) → ⊥ }
    ensures made { IfOk result (λ flat. (new : View) × IsReadAs from.now.retain_gids from.now.sources.now (view_shown from.now.font.now)
        from.now.set.now from.now.encoding.now from.now.numbers.now (texts from.now.codes.now) flat.items new) }
    ensures font { IfOk result (λ flat. (new : View) × IsLaidOut flat.items 0 new
        × IsFontBy from.now.retain_gids from.now.sources.now from.now.font.now.bytes.now (view_shown from.now.font.now) flat.items new) }
    ensures whole { IfOk result (λ flat. IsWholeFont flat.items) }
    ensures once { IfOk result (λ flat. TellsOnce flat.items) }
    ensures ros { IfOk result (λ flat. BeginsWithRos flat.items) }
    ensures selects { IfOk result (λ flat. SelectsParts flat.items) }
    ensures codes { IfOk result (λ flat. (new : View) → IsLaidOut flat.items 0 new → new.char_strings ≡ texts from.now.codes.now) }
    ensures lenient { IfOk result (λ flat. HasLenientFont from.now.font.now.bytes.now → HasLenientFont flat.items) }
    ensures memory { IfErr result (λ e. e ≡ errors.Refused causes.Memory) }
{
    let glyphs = number_glyphs(alloc, from.font, from.numbers, identifiers)?;
    match write_font(alloc, from.font, &glyphs, from.codes) {
        Ok(flat) => Ok(flat),
        Err(fault) => Err(of_memory(fault)),
    }
}

/// The SIDs or CIDs of glyphs that get new numbers.
fn list_of(
    alloc: Global,
    font: &FontView<'_>,
    set: &CharSetView<'_>,
    sources: &[Option<usize>],
    retain_gids: bool,
) -> Result<Option<Vec<StringID>>>
    requires set { IsCharSetOf set.now font.now.bytes.now font.now.dictionary (length (items_of font.now.char_strings)) }
    requires sources { AreSources retain_gids (length (items_of font.now.char_strings)) sources.now }
    requires there { AreGlyphs sources.now (length (items_of font.now.char_strings)) }
    ensures sources { IfOk result
        (λ identifiers. AreSourcesFor retain_gids set.now (length (items_of font.now.char_strings)) sources.now identifiers) }
    ensures refused { IfErr result (λ e. FontRefusedBy font.now.bytes.now (view_shown font.now) sources.now e) }
    ensures names { IfErr result (λ e. retain_gids ≡ true → NeedsNoName e) }
{
    if retain_gids {
        return Ok(None);
    }
    Ok(Some(identifiers_of(alloc, font, set, sources)?))
}

/// Makes a font of glyphs of another one. If glyphs keep their numbers, charset, encoding and strings are unchanged.
pub(crate) fn font_of(
    alloc: Global,
    font: &FontView<'_>,
    sources: &[Option<usize>],
    retain_gids: bool,
) -> Result<Vec<u8>>
    requires read { IsRead font.now }
    requires low { AreLow font.now.bytes.now }
    requires few { length sources.now < 2 ^ 16 }
    requires sources { AreSources retain_gids (length (items_of font.now.char_strings)) sources.now }
    ensures font { IfOk result (λ flat. (new : View) × IsLaidOut flat.items 0 new
        × IsFontBy retain_gids sources.now font.now.bytes.now (view_shown font.now) flat.items new) }
    ensures whole { IfOk result (λ flat. IsWholeFont flat.items) }
    ensures once { IfOk result (λ flat. TellsOnce flat.items) }
    ensures ros { IfOk result (λ flat. BeginsWithRos flat.items) }
    ensures selects { IfOk result (λ flat. SelectsParts flat.items) }
    ensures short { IfOk result (λ flat. HasShortCodes flat.items) }
    ensures small { IfOk result (λ flat. (new : View) → IsLaidOut flat.items 0 new →
        IsLarge font.now.bytes.now (view_shown font.now) new.char_strings → ⊥) }
    ensures lenient { IfOk result (λ flat. HasLenientFont font.now.bytes.now → HasLenientFont flat.items) }
    ensures refused { IfErr result (λ e. FontRefusedBy font.now.bytes.now (view_shown font.now) sources.now e) }
    ensures names { IfErr result (λ e. retain_gids ≡ true → NeedsNoName e) }
{
    let set = font.char_set()?;
    let encoding = font.encoding()?;
    let numbers = numbers_of(alloc, font, sources)?;
    let codes = codes_of(alloc, font, sources, &numbers)?;
    if let Some(glyph) = long_glyph(sources, &codes) {
        return Err(Error::LongGlyph(glyph));
    }
    if is_large(font, &codes) {
        return Err(Error::TooLarge);
    }
    let listed = list_of(alloc, font, &set, sources, retain_gids)?;
    let from = Making {
        font,
        set: &set,
        encoding: &encoding,
        sources,
        numbers: &numbers,
        codes: &codes,
        retain_gids,
    };
    put_together(alloc, &from, &listed)
}
