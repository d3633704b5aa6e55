//! Charsets, encodings and FDSelect of the new font (Technical Note 5176, sections 12, 13 and 19).
ghost use Rattle.std.specs.Prelude.{◌≡◌, ◌≢◌, ◌⊎◌, ◌↔◌, ◌++◌, ◌-◌, ◌<◌, ℕ, IfErr, IfOk, IsSome, OnOk, Some, length, option_map, slice_index_or};
ghost use Rattle.std.specs.Bool.{OnFalse, OnTrue};
ghost use Rattle.postscript_base.specs.Index.Lent.{items_of};
ghost use Rattle.postscript_base.specs.declared.error.Error.TheVariants as causes;
ghost use Rattle.postscript_view.specs.CharSets.{IsCharSetOf};
ghost use Rattle.postscript_view.specs.Naming.{Names};
ghost use Rattle.postscript_view.specs.Sizes.{IsKeyed};
ghost use Rattle.postscript_view.specs.Value.{view_shown};
ghost use Rattle.postscript_write.specs.LaidOut.{SelectsExactly};
ghost use Rattle.postscript_write.specs.Glyphs.{AreGlyphs};
ghost use Rattle.postscript_write.specs.Identified.{AreIdentified, AreRenewed};
ghost use Rattle.postscript_write.specs.Firsts.{AreFirsts};
ghost use Rattle.postscript_write.specs.Numbered.{AreStringsFor, IsCharSetFor, IsEncodingFor, IsSelectFor, IsSelectText, items_if};
ghost use Rattle.postscript_write.specs.Own.{IsOwnCharSet, IsOwnEncoding};
ghost use Rattle.postscript_write.specs.RefusedGlyphs.{HasEncoding, HasSet};
ghost use Rattle.postscript_write.specs.Refusals.{FontRefusedBy};
ghost use Rattle.postscript_write.specs.Selected.{HaveSame, listed_text, range_text, ranges_text};
ghost use Rattle.postscript_write.specs.declared.error.Error.TheVariants as errors;

use crate::char_sets::set_of_list;
use crate::error::{Error, Result, of_memory};
use crate::layout::{Glyphs, own_char_set, own_encoding};
use crate::number::put_number;
use crate::strings::Strings;
use postscript_base::compact1::StringID;
use postscript_view::{CharSetView, FontView};
use std::alloc::Global;

/// A copy of bytes, if there are any.
fn copy_bytes(alloc: Global, bytes: Option<&[u8]>) -> Result<Option<Vec<u8>>>
    ensures copied { IfOk result (λ copy. items_if copy ≡ option_map (λ lent. lent.now) bytes.entry) }
    ensures memory { IfErr result (λ e. e ≡ errors.Refused causes.Memory) }
{
    match bytes {
        Some(bytes) => {
            let mut copy = Vec::new(alloc);
            copy.extend_from_slice(bytes)?;
            Ok(Some(copy))
        }
        None => Ok(None),
    }
}

/// The custom encoding of the font, if it has one.
fn encoding_of(alloc: Global, font: &FontView<'_>) -> Result<Option<Vec<u8>>>
    requires { HasEncoding font.now.bytes.now (view_shown font.now) }
    ensures own { IfOk result (λ own. IsOwnEncoding font.now.bytes.now font.now.dictionary (items_if own)) }
    ensures memory { IfErr result (λ e. e ≡ errors.Refused causes.Memory) }
{
    match own_encoding(font.bytes, &font.dictionary) {
        Ok(own) => copy_bytes(alloc, own),
        Err(fault) => Err(of_memory(fault)),
    }
}

/// The custom charset of the font, if it has one.
fn char_set_of(alloc: Global, font: &FontView<'_>) -> Result<Option<Vec<u8>>>
    requires { HasSet font.now.bytes.now (view_shown font.now) }
    ensures own { IfOk result
        (λ own. IsOwnCharSet font.now.bytes.now font.now.dictionary (length (items_of font.now.char_strings)) (items_if own)) }
    ensures memory { IfErr result (λ e. e ≡ errors.Refused causes.Memory) }
{
    match own_char_set(font.bytes, &font.dictionary, font.char_strings.len()) {
        Ok(own) => copy_bytes(alloc, own),
        Err(fault) => Err(of_memory(fault)),
    }
}

/// The SID or CID of a source glyph. For an empty glyph it is 0, for `.notdef`.
fn identifier_of(set: &CharSetView<'_>, source: Option<usize>) -> Result<u16>
    ensures named { IfOk result (λ identifier. (glyph : ℕ) → source ≡ Some glyph → Names set.now glyph identifier) }
    ensures low { IfOk result (λ identifier. identifier < 65536) }
    ensures refused { IfErr result (λ e. (glyph : ℕ) × (source ≡ Some glyph) × (e ≡ errors.MissingName glyph)
        × ((identifier : ℕ) → Names set.now glyph identifier → ⊥)) }
{
    let Some(glyph) = source else {
        return Ok(0);
    };
    match set.identifier(glyph) {
        Some(identifier) => Ok(identifier),
        None => Err(Error::MissingName(glyph)),
    }
}

/// The SIDs or CIDs of the source glyphs, without the first one.
pub(crate) fn identifiers_of(
    alloc: Global,
    font: &FontView<'_>,
    set: &CharSetView<'_>,
    sources: &[Option<usize>],
) -> Result<Vec<StringID>>
    requires set { IsCharSetOf set.now font.now.bytes.now font.now.dictionary (length (items_of font.now.char_strings)) }
    requires renewed { AreRenewed sources.now }
    requires there { AreGlyphs sources.now (length (items_of font.now.char_strings)) }
    ensures identified { IfOk result (λ identifiers. AreIdentified set.now sources.now identifiers.items) }
    ensures refused { IfErr result (λ e. FontRefusedBy font.now.bytes.now (view_shown font.now) sources.now e) }
{
    let mut identifiers = Vec::new(alloc);
    for i in 1..sources.len() {
        let identifier = match identifier_of(set, sources[i]) {
            Ok(identifier) => identifier,
            Err(e) => return Err(e),
        };
        identifiers.push(identifier)?;
    }
    Ok(identifiers)
}

/// The strings of the new font: only the needed ones if glyphs have names and get new numbers, otherwise all.
fn strings_of(
    alloc: Global,
    font: &FontView<'_>,
    identifiers: &Option<Vec<StringID>>,
) -> Result<Strings>
    ensures strings { IfOk result (λ strings. AreStringsFor font.now identifiers.now strings) }
    ensures memory { IfErr result (λ e. e ≡ errors.Refused causes.Memory) }
{
    let Some(identifiers) = identifiers else {
        return Ok(Strings::every(alloc, font)?);
    };
    if font.is_cid_keyed() {
        return Ok(Strings::every(alloc, font)?);
    }
    Ok(Strings::collect(alloc, font, identifiers)?)
}

/// Whether a glyph begins a range of FDSelect: it is the first one, or the glyph before it has another number.
fn begins(numbers: &[usize], i: usize) -> bool
    requires { i < length numbers.now }
    ensures other { OnTrue result ((i ≡ 0) ⊎ (slice_index_or numbers.now i 0 ≢ slice_index_or numbers.now (i - 1) 0)) }
    ensures same { OnFalse result ((0 < i) × (slice_index_or numbers.now i 0 ≡ slice_index_or numbers.now (i - 1) 0)) }
{
    i == 0 || numbers[i] != numbers[i - 1]
}

/// The glyphs that begin ranges with equal numbers.
fn firsts_of(alloc: Global, numbers: &[usize]) -> Result<Vec<usize>>
    ensures firsts { IfOk result (λ firsts. AreFirsts (HaveSame numbers.now) firsts.items (length numbers.now)) }
    ensures memory { IfErr result (λ e. e ≡ errors.Refused causes.Memory) }
{
    let mut firsts = Vec::new(alloc);
    for i in 0..numbers.len() {
        if begins(numbers, i) {
            firsts.push(i)?;
        }
    }
    Ok(firsts)
}

/// FDSelect of format 0.
fn put_bytes(out: &mut Vec<u8>, numbers: &[usize]) -> Result<()>
    ensures text { OnOk result (out.new.items ≡ out.old.items ++ listed_text numbers.now) }
    ensures memory { IfErr result (λ e. e ≡ errors.Refused causes.Memory) }
{
    put_number(out, 1, 0)?;
    for i in 0..numbers.len() {
        put_number(out, 1, numbers[i])?;
    }
    Ok(())
}

/// A range of FDSelect of format 3: its first glyph and its number.
fn put_range(out: &mut Vec<u8>, numbers: &[usize], first: usize) -> Result<()>
    requires { first < length numbers.now }
    ensures text { OnOk result (out.new.items ≡ out.old.items ++ range_text numbers.now first) }
    ensures memory { IfErr result (λ e. e ≡ errors.Refused causes.Memory) }
{
    put_number(out, 2, first)?;
    put_number(out, 1, numbers[first])?;
    Ok(())
}

/// FDSelect of format 3 with the ranges that begin at these glyphs.
fn put_ranges(out: &mut Vec<u8>, numbers: &[usize], firsts: &[usize]) -> Result<()>
    requires { AreFirsts (HaveSame numbers.now) firsts.now (length numbers.now) }
    ensures text { OnOk result (out.new.items ≡ out.old.items ++ ranges_text numbers.now firsts.now) }
    ensures memory { IfErr result (λ e. e ≡ errors.Refused causes.Memory) }
{
    put_number(out, 1, 3)?;
    put_number(out, 2, firsts.len())?;
    for r in 0..firsts.len() {
        put_range(out, numbers, firsts[r])?;
    }
    put_number(out, 2, numbers.len())?;
    Ok(())
}

/// FDSelect with these numbers of Font DICTs, in the shorter format.
fn select(alloc: Global, numbers: &[usize]) -> Result<Vec<u8>>
    ensures selects { IfOk result (λ text. IsSelectText numbers.now text.items) }
    ensures memory { IfErr result (λ e. e ≡ errors.Refused causes.Memory) }
{
    let mut out = Vec::new(alloc);
    let firsts = firsts_of(alloc, numbers)?;
    if firsts.len().saturating_mul(3).saturating_add(4) < numbers.len() {
        put_ranges(&mut out, numbers, &firsts)?;
        return Ok(out);
    }
    put_bytes(&mut out, numbers)?;
    Ok(out)
}

/// FDSelect of a CID-keyed font with these numbers of Font DICTs. `None` for any other font.
fn select_of(alloc: Global, font: &FontView<'_>, numbers: &[usize]) -> Result<Option<Vec<u8>>>
    ensures keyed { IfOk result (λ select. IsSome select ↔ IsKeyed font.now.dictionary) }
    ensures selects { IfOk result (λ select. IsSelectFor numbers.now select) }
    ensures memory { IfErr result (λ e. e ≡ errors.Refused causes.Memory) }
{
    if !font.is_cid_keyed() {
        return Ok(None);
    }
    Ok(Some(select(alloc, numbers)?))
}

/// The data of glyphs apart from their charstrings. Without a list of SIDs or CIDs, charset, encoding and strings are
/// unchanged. Otherwise the standard encoding replaces a custom one.
pub(crate) fn number_glyphs(
    alloc: Global,
    font: &FontView<'_>,
    numbers: &[usize],
    identifiers: &Option<Vec<StringID>>,
) -> Result<Glyphs>
    requires set { HasSet font.now.bytes.now (view_shown font.now) }
    requires encoding { HasEncoding font.now.bytes.now (view_shown font.now) }
    ensures selects { IfOk result (λ glyphs. SelectsExactly font.now glyphs) }
    ensures select { IfOk result (λ glyphs. IsSelectFor numbers.now glyphs.select) }
    ensures strings { IfOk result (λ glyphs. AreStringsFor font.now identifiers.now glyphs.strings) }
    ensures char_set { IfOk result (λ glyphs. IsCharSetFor font.now identifiers.now glyphs) }
    ensures encoding { IfOk result (λ glyphs. IsEncodingFor font.now identifiers.now glyphs) }
    ensures memory { IfErr result (λ e. e ≡ errors.Refused causes.Memory) }
{
    let select = select_of(alloc, font, numbers)?;
    let encoding = encoding_of(alloc, font)?;
    let strings = strings_of(alloc, font, identifiers)?;
    if let Some(identifiers) = identifiers {
        return Ok(Glyphs {
            char_set: Some(set_of_list(alloc, identifiers, &strings)?),
            standard: encoding.is_some(),
            encoding: None,
            select,
            strings,
        });
    }
    Ok(Glyphs {
        char_set: char_set_of(alloc, font)?,
        encoding,
        standard: false,
        select,
        strings,
    })
}
