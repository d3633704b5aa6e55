//! The layout of a `CFF ` table (Technical Note 5176, "CFF Data Layout", "CID-keyed Fonts").
ghost use Rattle.std.specs.Prelude.{◌≡◌, ◌-◌, ◌+◌, ◌<◌, ◌≤◌, ◌^◌, ◌++◌, ℕ, List, Option, [], ◌∷◌, IfErr, IfOk, length};
ghost use Rattle.std.specs.List.{concat, range_with_len};
ghost use Rattle.postscript_base.specs.Compact1.Decimal.{Decimal};
ghost use Rattle.postscript_cff2.specs.Shown.{view_shown};
ghost use Rattle.postscript_instance.specs.Encoded.{AreLow, HasFontDict, HasRoom, HaveFontDicts, IsKeyedBytes, IsNamedBytes, IsSelectText, IsSetText, font_dicts, keyed_places as the_keyed_places, keyed_text, named_places as the_named_places, named_text};
ghost use Rattle.postscript_instance.specs.Hints.{AreHintsAt};
ghost use Rattle.postscript_instance.specs.Refusals.{IsMemory};
ghost use Rattle.postscript_instance.specs.Whole.{AreOfFont, adobe, identity};
ghost use Rattle.postscript_type2.specs.Program.Routines.{texts};
ghost use Rattle.postscript_write.specs.ArrangedText.{tables_text};
ghost use Rattle.postscript_write.specs.Index.{FitsIndex, index_text};

use crate::error::Result;
use crate::indices::{put_escaped, put_index, put_operation, put_private, put_single};
use crate::naming::{Identifiers, Range, in_list, in_ranges};
use crate::privates::{private_bytes, private_of};
use postscript_cff2::Font;
use postscript_variable_font::Place;
use std::alloc::Global;

/// The offsets of the parts of a table. A font that is not CID-keyed has neither FDSelect nor Font DICTs.
#[derive(Clone, Copy)]
struct Places {
    char_set: usize,
    select: usize,
    char_strings: usize,
    private: usize,
    array: usize,
}

impl Places {
    /// The offsets before they are known.
    const NONE: Places = Places {
        char_set: 0,
        select: 0,
        char_strings: 0,
        private: 0,
        array: 0,
    };
}

/// The Top DICT of a CID-keyed font. Its first two strings, Adobe and Identity, are its registry and its ordering.
fn keyed_dictionary(alloc: Global, matrix: &[u8], glyphs: usize, places: Places) -> Result<Vec<u8>>
    requires glyphs { glyphs < 2 ^ 31 }
    requires places { AreLow places }
    ensures text { IfOk result (λ top. top.items ≡ keyed_text matrix.now glyphs places) }
    ensures memory { IfErr result (λ e. IsMemory e) }
{
    let mut top = Vec::new(alloc);
    top.extend_from_slice(&[0x1c, 0x01, 0x87, 0x1c, 0x01, 0x88, 0x8b, 0x0c, 0x1e])?;
    top.extend_from_slice(matrix)?;
    put_escaped(&mut top, glyphs, 0x22)?;
    put_operation(&mut top, places.char_set, 0x0f)?;
    put_escaped(&mut top, places.select, 0x25)?;
    put_operation(&mut top, places.char_strings, 0x11)?;
    put_escaped(&mut top, places.array, 0x24)?;
    Ok(top)
}

/// The Top DICT of a font with glyph names and a Private DICT of this size.
fn named_dictionary(alloc: Global, matrix: &[u8], size: usize, places: Places) -> Result<Vec<u8>>
    requires size { size < 2 ^ 31 }
    requires places { AreLow places }
    ensures text { IfOk result (λ top. top.items ≡ named_text matrix.now size places) }
    ensures memory { IfErr result (λ e. IsMemory e) }
{
    let mut top = Vec::new(alloc);
    top.extend_from_slice(matrix)?;
    put_operation(&mut top, places.char_set, 0x0f)?;
    put_operation(&mut top, places.char_strings, 0x11)?;
    put_private(&mut top, size, places.private)?;
    Ok(top)
}

/// The charset of a CID-keyed font in which CIDs are glyph numbers.
fn keyed_set(alloc: Global, glyphs: usize) -> Result<Vec<u8>>
    requires { glyphs < 2 ^ 16 }
    ensures set { IfOk result (λ set. IsSetText (range_with_len 1 (glyphs - 1)) set.items) }
    ensures memory { IfErr result (λ e. IsMemory e) }
{
    if glyphs < 2 {
        return in_list(alloc, &[]);
    }
    in_ranges(
        alloc,
        &[Range {
            first: 1,
            left: (glyphs - 2) as u16,
        }],
    )
}

/// The number of the Font DICT of a glyph.
fn number_of(font: &Font<'_>, glyph: usize) -> u8
    requires few { length (view_shown font.now).font_dictionaries ≤ 256 }
    requires has { (number : ℕ) × HasFontDict font.now glyph number }
    ensures { HasFontDict font.now glyph result }
{
    font.number(glyph).unwrap() as u8
}

/// FDSelect, with the Font DICT of each glyph.
fn select(alloc: Global, font: &Font<'_>, glyphs: usize) -> Result<Vec<u8>>
    requires few { length (view_shown font.now).font_dictionaries ≤ 256 }
    requires have { HaveFontDicts font.now glyphs }
    ensures select { IfOk result (λ text. IsSelectText font.now glyphs text.items) }
    ensures memory { IfErr result (λ e. IsMemory e) }
{
    let mut select = Vec::new(alloc);
    select.push(0)?;
    for glyph in 0..glyphs {
        select.push(number_of(font, glyph))?;
    }
    Ok(select)
}

/// The Private DICT of each Font DICT.
pub(crate) fn privates_of(alloc: Global, font: &Font<'_>, place: &Place) -> Result<Vec<Vec<u8>>>
    ensures are { IfOk result (λ privates. AreOfFont font.now (texts privates.items)) }
    ensures hints { IfOk result (λ privates. AreHintsAt font.now place.now (texts privates.items) (length (texts privates.items))) }
    ensures memory { IfErr result (λ e. IsMemory e) }
{
    let mut privates = Vec::new(alloc);
    for number in 0..font.font_dictionaries.len() {
        let source = private_bytes(font, number);
        privates.push(private_of(alloc, source, place)?)?;
    }
    Ok(privates)
}

/// Font DICTs for consecutive Private DICTs from an offset on.
fn dictionaries(alloc: Global, privates: &[Vec<u8>], place: usize) -> Result<Vec<Vec<u8>>>
    requires { place + length (concat (texts privates.now)) < 2 ^ 31 }
    ensures are { IfOk result (λ all. texts all.items ≡ font_dicts (texts privates.now) place) }
    ensures memory { IfErr result (λ e. IsMemory e) }
{
    let mut all = Vec::new(alloc);
    let mut offset = place;
    for private in privates {
        let mut dictionary = Vec::new(alloc);
        put_private(&mut dictionary, private.len(), offset)?;
        all.push(dictionary)?;
        offset += private.len();
    }
    Ok(all)
}

/// Private DICTs one after the other.
fn join_privates(alloc: Global, privates: &[Vec<u8>]) -> Result<Vec<u8>>
    ensures text { IfOk result (λ out. out.items ≡ concat (texts privates.now)) }
    ensures memory { IfErr result (λ e. IsMemory e) }
{
    let mut out = Vec::new(alloc);
    for private in privates {
        out.extend_from_slice(private)?;
    }
    Ok(out)
}

/// The INDEX of the charstrings.
fn char_strings_of(alloc: Global, codes: &[Vec<u8>]) -> Result<Vec<u8>>
    requires { FitsIndex (texts codes.now) }
    ensures text { IfOk result (λ out. out.items ≡ index_text (texts codes.now)) }
    ensures memory { IfErr result (λ e. IsMemory e) }
{
    let mut out = Vec::new(alloc);
    put_index(&mut out, codes)?;
    Ok(out)
}

/// The strings Adobe and Identity.
fn keyed_strings(alloc: Global) -> Result<Vec<Vec<u8>>>
    ensures are { IfOk result (λ strings. texts strings.items ≡ adobe ∷ identity ∷ []) }
    ensures memory { IfErr result (λ e. IsMemory e) }
{
    let mut strings = Vec::new(alloc);
    strings.push(Vec::from_slice(alloc, b"Adobe")?)?;
    strings.push(Vec::from_slice(alloc, b"Identity")?)?;
    Ok(strings)
}

/// The header, the name, the Top DICT, the strings, and an INDEX without subroutines.
fn head(alloc: Global, name: &[u8], top: &[u8], strings: &[Vec<u8>]) -> Result<Vec<u8>>
    requires name { FitsIndex (name.now ∷ []) }
    requires top { FitsIndex (top.now ∷ []) }
    requires strings { FitsIndex (texts strings.now) }
    ensures text { IfOk result (λ out. out.items ≡ tables_text (name.now ∷ []) top.now (texts strings.now)) }
    ensures memory { IfErr result (λ e. IsMemory e) }
{
    let mut out = Vec::new(alloc);
    out.extend_from_slice(&[1, 0, 4, 4])?;
    put_single(alloc, &mut out, name)?;
    put_single(alloc, &mut out, top)?;
    put_index(&mut out, strings)?;
    put_index(&mut out, &[])?;
    Ok(out)
}

/// The head of a CID-keyed font.
fn keyed_head(
    alloc: Global,
    name: &[u8],
    matrix: &[u8],
    glyphs: usize,
    places: Places,
) -> Result<Vec<u8>>
    requires glyphs { glyphs < 2 ^ 16 }
    requires places { AreLow places }
    requires small { length name.now + length matrix.now < 2000000000 }
    ensures text { IfOk result (λ out. out.items ≡ tables_text (name.now ∷ []) (keyed_text matrix.now glyphs places) (adobe ∷ identity ∷ [])) }
    ensures memory { IfErr result (λ e. IsMemory e) }
{
    let strings = keyed_strings(alloc)?;
    let top = keyed_dictionary(alloc, matrix, glyphs, places)?;
    head(alloc, name, &top, &strings)
}

/// The head of a font with glyph names.
fn named_head(
    alloc: Global,
    name: &[u8],
    matrix: &[u8],
    strings: &[Vec<u8>],
    size: usize,
    places: Places,
) -> Result<Vec<u8>>
    requires places { AreLow places }
    requires few { length strings.now < 2 ^ 16 }
    requires small { length name.now + length (concat (texts strings.now)) + length matrix.now + size < 2000000000 }
    ensures text { IfOk result (λ out. out.items ≡ tables_text (name.now ∷ []) (named_text matrix.now size places) (texts strings.now)) }
    ensures memory { IfErr result (λ e. IsMemory e) }
{
    let top = named_dictionary(alloc, matrix, size, places)?;
    head(alloc, name, &top, strings)
}

/// The offsets of the parts of a CID-keyed table after its head.
fn keyed_places(
    start: usize,
    set: &[u8],
    select: &[u8],
    char_strings: &[u8],
    private: &[u8],
) -> Places
    requires { start + length set.now + length select.now + length char_strings.now + length private.now < 2 ^ 31 }
    ensures { result ≡ the_keyed_places start set.now select.now char_strings.now private.now }
{
    let select_place = start + set.len();
    let strings_place = select_place + select.len();
    let private_place = strings_place + char_strings.len();
    Places {
        char_set: start,
        select: select_place,
        char_strings: strings_place,
        private: private_place,
        array: private_place + private.len(),
    }
}

/// The offsets of the parts of a table with glyph names after its head.
fn named_places(start: usize, set: &[u8], char_strings: &[u8]) -> Places
    requires { start + length set.now + length char_strings.now < 2 ^ 31 }
    ensures { result ≡ the_named_places start set.now char_strings.now }
{
    let strings_place = start + set.len();
    Places {
        char_set: start,
        select: 0,
        char_strings: strings_place,
        private: strings_place + char_strings.len(),
        array: 0,
    }
}

/// The table of a CID-keyed font.
pub(crate) fn laid_out_by_numbers(
    alloc: Global,
    font: &Font<'_>,
    name: &[u8],
    matrix: &[u8],
    codes: &[Vec<u8>],
    privates: &[Vec<u8>],
) -> Result<Vec<u8>>
    requires room { HasRoom name.now matrix.now codes.now privates.now }
    requires parts { length privates.now ≡ length (view_shown font.now).font_dictionaries }
    requires have { HaveFontDicts font.now (length codes.now) }
    ensures bytes { IfOk result (λ out. IsKeyedBytes font.now name.now matrix.now codes.now privates.now out.items) }
    ensures memory { IfErr result (λ e. IsMemory e) }
{
    let set = keyed_set(alloc, codes.len())?;
    let select = select(alloc, font, codes.len())?;
    let char_strings = char_strings_of(alloc, codes)?;
    let private = join_privates(alloc, privates)?;
    let start = keyed_head(alloc, name, matrix, codes.len(), Places::NONE)?.len();
    let places = keyed_places(start, &set, &select, &char_strings, &private);
    let array = dictionaries(alloc, privates, places.private)?;
    let mut out = keyed_head(alloc, name, matrix, codes.len(), places)?;
    out.extend_from_slice(&set)?;
    out.extend_from_slice(&select)?;
    out.extend_from_slice(&char_strings)?;
    out.extend_from_slice(&private)?;
    put_index(&mut out, &array)?;
    Ok(out)
}

/// The table of a font with glyph names, of which these are the SIDs and the strings.
pub(crate) fn laid_out_by_names(
    alloc: Global,
    name: &[u8],
    matrix: &[u8],
    identifiers: &Identifiers,
    codes: &[Vec<u8>],
    private: &[u8],
) -> Result<Vec<u8>>
    requires few_codes { length codes.now < 2 ^ 16 }
    requires few_strings { length identifiers.now.strings.items < 2 ^ 16 }
    requires counted { length identifiers.now.numbers.items ≡ length codes.now }
    requires small { length name.now + length (concat (texts identifiers.now.strings.items)) + length (concat (texts codes.now))
        + length private.now + length matrix.now < 2000000000 }
    ensures bytes { IfOk result (λ out. IsNamedBytes name.now matrix.now identifiers.now codes.now private.now out.items) }
    ensures memory { IfErr result (λ e. IsMemory e) }
{
    let set = identifiers.char_set(alloc)?;
    let char_strings = char_strings_of(alloc, codes)?;
    let strings = &identifiers.strings;
    let size = private.len();
    let start = named_head(alloc, name, matrix, strings, size, Places::NONE)?.len();
    let places = named_places(start, &set, &char_strings);
    let mut out = named_head(alloc, name, matrix, strings, size, places)?;
    out.extend_from_slice(&set)?;
    out.extend_from_slice(&char_strings)?;
    out.extend_from_slice(private)?;
    Ok(out)
}
