//! Fonts without subroutines, and subsets.
ghost use Rattle.std.specs.Prelude.{◌≡◌, ◌⊎◌, ◌<◌, ◌^◌, [], true, false, Err, length, IfOk, IfErr, OnOk};
ghost use Rattle.postscript_base.specs.Index.Lent.{items_of};
ghost use Rattle.postscript_base.specs.Tape.Outcome.{Got};
ghost use Rattle.postscript_view.specs.Layout.{IsLaidOut};
ghost use Rattle.postscript_view.specs.Order.{fonts as the_fonts};
ghost use Rattle.postscript_view.specs.Contents.{View};
ghost use Rattle.postscript_view.specs.Value.{view_shown};
ghost use Rattle.postscript_write.specs.Components.{AreKept, IsSubset};
ghost use Rattle.postscript_write.specs.Costs.{KeepsWithin, StopsIn};
ghost use Rattle.postscript_write.specs.Drawings.{DrawsKept, KeepsDrawings};
ghost use Rattle.postscript_write.specs.Kept.{HasAllBy, HasAllInPlace, HasAllKept};
ghost use Rattle.postscript_write.specs.Making.{IsCutFont, IsFontBy, IsKeptFont};
ghost use Rattle.postscript_write.specs.Once.{BeginsWithRos, TellsOnce};
ghost use Rattle.postscript_write.specs.Readings.{HasLenientFont};
ghost use Rattle.postscript_write.specs.Refusals.{HasOtherFonts, IsChoiceRefusedBy, IsRefusedBy, IsSubsetRefusedBy, NeedsNoName};
ghost use Rattle.postscript_write.specs.Room.{IsRead};
ghost use Rattle.postscript_write.specs.SameGlyphs.{GlyphsKept, KeepsGlyphs};
ghost use Rattle.postscript_write.specs.Selected.{AreLow, SelectsParts};
ghost use Rattle.postscript_write.specs.Sizes.{HasShortCodes, IsSmall};
ghost use Rattle.postscript_write.specs.Sources.{AreThere, IsWritten, choice_by, chosen as the_chosen, every as the_every, keeping as the_keeping};
ghost use Rattle.postscript_write.specs.Steps.{IsNotOpened};
ghost use Rattle.postscript_write.specs.Whole.{IsWholeFont};
ghost use Rattle.postscript_write.specs.declared.error.Error.TheVariants as errors;

use crate::closure::closed_over;
use crate::error::{Error, Result};
use crate::sources::{every, kept_of, sources_by};
use crate::whole::font_of;
use postscript_view::FontView;
use std::alloc::Global;

/// The only font of a font set.
fn only_font<'l>(alloc: Global, bytes: &'l [u8]) -> Result<FontView<'l>>
    ensures is { IfOk result (λ font. IsLaidOut bytes.now 0 (view_shown font)) }
    ensures bytes { IfOk result (λ font. font.bytes.now ≡ bytes.now) }
    ensures read { IfOk result (λ font. IsRead font) }
    ensures low { IfOk result (λ font. AreLow font.bytes.now) }
    ensures few { IfOk result (λ font. length (items_of font.char_strings) < 2 ^ 16) }
    ensures one { OnOk result (the_fonts bytes.now 0 ≡ Got 1 0) }
    ensures refused { IfErr result (λ e. IsNotOpened bytes.now e) }
    ensures several { HasOtherFonts bytes.now → result ≡ Err errors.SeveralFonts }
{
    if FontView::fonts(bytes)? != 1 {
        return Err(Error::SeveralFonts);
    }
    let font = FontView::read_font(alloc, bytes, 0)?;
    Ok(font)
}

/// Writes the font at the beginning of the bytes again, desubroutinized (no calls).
///
/// Each glyph draws the same outline, also with any other subroutines, and keeps its advance width, its name or CID,
/// and its codes. Names, strings and DICTs keep their content, apart from offsets. If `FontSet::read_lenient` reads the
/// font, it also reads the new one.
///
/// # Errors
///
/// - `Glyph`: the charstring of a glyph fails. The error has the first such glyph and the cause.
/// - `Refused`: the font, its charset or its encoding is malformed, or out of memory.
/// - `MissingPart`: FDSelect gives a glyph no Font DICT. The error has the first such glyph.
/// - `LongGlyph`: a charstring has more than 65,535 bytes without calls. The error has the first such glyph.
/// - `SeveralFonts`: the font set does not have exactly one font.
/// - `TooLarge`: the new charstrings, the names, the strings, and four times the input have 2,000,000,000 bytes or more
///   together.
pub fn flat_font(alloc: Global, bytes: &[u8]) -> Result<Vec<u8>>
    // Each glyph is drawn with the same segments and width as before, or not at all as before.
    ensures drawn { IfOk result (λ flat. KeepsDrawings the_every bytes.now flat.items) }
    // Each glyph has its old code without calls, its advance width, and its name or CID.
    ensures same { IfOk result (λ flat. KeepsGlyphs the_every bytes.now flat.items) }
    // The new font has the old glyphs under their numbers and no subroutines, and is well formed.
    ensures written { IfOk result (λ flat. IsWritten IsKeptFont the_every bytes.now flat.items) }
    // No bytes are outside the parts of the font, and a Private DICT has no operator twice.
    ensures whole { IfOk result (λ flat. IsWholeFont flat.items) }
    // No operator occurs twice in the Top DICT or in a Font DICT.
    ensures once { IfOk result (λ flat. TellsOnce flat.items) }
    // If the Top DICT has `ROS`, it is the first operator.
    ensures ros { IfOk result (λ flat. BeginsWithRos flat.items) }
    // In a CID-keyed font, FDSelect gives each glyph a Font DICT that the font has.
    ensures selects { IfOk result (λ flat. SelectsParts flat.items) }
    // No charstring of the new font has more than 65,535 bytes.
    ensures short { IfOk result (λ flat. HasShortCodes flat.items) }
    // The sizes stay below the limit of `TooLarge`.
    ensures small { IfOk result (λ flat. IsSmall bytes.now flat.items) }
    // If the lenient reading accepts the old font, it accepts the new one.
    ensures lenient { IfOk result (λ flat. HasLenientFont bytes.now → HasLenientFont flat.items) }
    // A success means that the font set has exactly one font.
    ensures one { OnOk result (the_fonts bytes.now 0 ≡ Got 1 0) }
    // With another number of fonts the error is `SeveralFonts`, whatever else is wrong.
    ensures several { HasOtherFonts bytes.now → result ≡ Err errors.SeveralFonts }
    // An error is justified by the font set, the font or the first bad glyph, or it is `Memory`.
    ensures refused { IfErr result (λ e. IsRefusedBy the_every bytes.now e) }
    // The error is not `MissingName`: glyphs that keep their numbers need no name.
    ensures names { IfErr result NeedsNoName }
{
    let font = only_font(alloc, bytes)?;
    let sources = every(alloc, font.char_strings.len())?;
    font_of(alloc, &font, &sources, true)
}

/// A font with only some glyphs of another one, and the glyphs that it is made of.
#[derive(Drop)]
pub struct FontSubset {
    /// The font.
    pub font: Vec<u8>,
    /// The glyphs of the old font that are kept, as [`kept_glyphs`] returns them.
    pub kept: Vec<usize>,
}

/// Returns the glyphs that [`subset`] and [`subset_keeping`] keep, in ascending order.
///
/// They are `.notdef`, the glyphs in `named`, and the components of each kept `seac` glyph (a glyph whose `endchar` has
/// four operands). The first one is glyph 0 in the font that [`subset`] writes, the second one is glyph 1, and so on.
///
/// # Errors
///
/// - `NoGlyphs`: `named` is empty.
/// - `MissingGlyph`: the font has no glyph with this number.
/// - `Refused`: the font or its charset is malformed, or out of memory.
/// - `SeveralFonts`: the font set does not have exactly one font.
pub fn kept_glyphs(alloc: Global, bytes: &[u8], named: &[usize]) -> Result<Vec<usize>>
    // The list has `.notdef`, the named glyphs and all components of listed ones, ascending.
    ensures kept { IfOk result (λ kept. AreKept named.now bytes.now kept.items) }
    // A success means that the font set has exactly one font.
    ensures one { OnOk result (the_fonts bytes.now 0 ≡ Got 1 0) }
    // With named glyphs and another number of fonts the error is `SeveralFonts`.
    ensures several { 0 < length named.now → HasOtherFonts bytes.now → result ≡ Err errors.SeveralFonts }
    // An error is justified by the list, the font set or the font, or it is `Memory`.
    ensures refused { IfErr result (λ e. IsChoiceRefusedBy named.now bytes.now e) }
    // A success means that the font has all named glyphs.
    ensures there { OnOk result ((font : View) → IsLaidOut bytes.now 0 font → AreThere named.now (length font.char_strings)) }
    // Without named glyphs the error is `NoGlyphs`.
    ensures none { named.now ≡ [] → result ≡ Err errors.NoGlyphs }
{
    kept_glyphs_within(alloc, bytes, named, None)
}

/// Returns the glyphs of [`kept_glyphs`], within a limit if there is one.
///
/// The runs of the glyphs share the limit. [`postscript_type2::Program::step_within`] describes the cost of a run. The
/// search for the components of `seac` glyphs by their names is not counted: each of the 256 codes is looked up once at
/// most.
///
/// # Errors
///
/// - The errors of [`kept_glyphs`].
/// - `TooLong`: the runs of the kept glyphs cost more than the limit.
/// - `Glyph`: there is a limit, and the charstring of a kept glyph fails. The error has such a glyph and the cause.
pub fn kept_glyphs_within(
    alloc: Global,
    bytes: &[u8],
    named: &[usize],
    limit: Option<u64>,
) -> Result<Vec<usize>>
    // The list has `.notdef`, the named glyphs and all components of listed ones, ascending.
    ensures kept { IfOk result (λ kept. AreKept named.now bytes.now kept.items) }
    // In some order, the run of each kept glyph ends within what is left of the limit.
    ensures within { OnOk result (KeepsWithin limit named.now bytes.now) }
    // A success means that the font set has exactly one font.
    ensures one { OnOk result (the_fonts bytes.now 0 ≡ Got 1 0) }
    // With named glyphs and another number of fonts the error is `SeveralFonts`.
    ensures several { 0 < length named.now → HasOtherFonts bytes.now → result ≡ Err errors.SeveralFonts }
    // The list, the font set, the font, the limit or a glyph justifies an error, or it is `Memory`.
    ensures refused { IfErr result (λ e. IsChoiceRefusedBy named.now bytes.now e ⊎ StopsIn bytes.now named.now limit e) }
    // A success means that the font has all named glyphs.
    ensures there { OnOk result ((font : View) → IsLaidOut bytes.now 0 font → AreThere named.now (length font.char_strings)) }
    // Without named glyphs the error is `NoGlyphs`.
    ensures none { named.now ≡ [] → result ≡ Err errors.NoGlyphs }
{
    if named.len() == 0 {
        return Err(Error::NoGlyphs);
    }
    let font = only_font(alloc, bytes)?;
    let closed = closed_over(alloc, &font, named, limit)?;
    kept_of(alloc, &closed, font.char_strings.len())
}

/// Makes a subset. `retain_gids` is set if glyphs keep their numbers.
fn subset_by(
    alloc: Global,
    bytes: &[u8],
    named: &[usize],
    retain_gids: bool,
    limit: Option<u64>,
) -> Result<FontSubset>
    ensures written { IfOk result (λ subset. IsSubset (IsFontBy retain_gids) (choice_by retain_gids) named.now bytes.now subset.font.items) }
    ensures kept { IfOk result (λ subset. AreKept named.now bytes.now subset.kept.items) }
    ensures within { OnOk result (KeepsWithin limit named.now bytes.now) }
    ensures whole { IfOk result (λ subset. IsWholeFont subset.font.items) }
    ensures once { IfOk result (λ subset. TellsOnce subset.font.items) }
    ensures ros { IfOk result (λ subset. BeginsWithRos subset.font.items) }
    ensures selects { IfOk result (λ subset. SelectsParts subset.font.items) }
    ensures short { IfOk result (λ subset. HasShortCodes subset.font.items) }
    ensures small { IfOk result (λ subset. IsSmall bytes.now subset.font.items) }
    ensures lenient { IfOk result (λ subset. HasLenientFont bytes.now → HasLenientFont subset.font.items) }
    ensures one { OnOk result (the_fonts bytes.now 0 ≡ Got 1 0) }
    ensures several { 0 < length named.now → HasOtherFonts bytes.now → result ≡ Err errors.SeveralFonts }
    ensures refused { IfErr result (λ e. IsSubsetRefusedBy named.now (choice_by retain_gids) bytes.now e ⊎ StopsIn bytes.now named.now limit e) }
    ensures names { IfErr result (λ e. retain_gids ≡ true → NeedsNoName e) }
    ensures there { OnOk result ((font : View) → IsLaidOut bytes.now 0 font → AreThere named.now (length font.char_strings)) }
    ensures none { named.now ≡ [] → result ≡ Err errors.NoGlyphs }
{
    if named.len() == 0 {
        return Err(Error::NoGlyphs);
    }
    let font = only_font(alloc, bytes)?;
    let closed = closed_over(alloc, &font, named, limit)?;
    let kept = kept_of(alloc, &closed, font.char_strings.len())?;
    let sources = sources_by(alloc, &closed, font.char_strings.len(), retain_gids)?;
    let flat = font_of(alloc, &font, &sources, retain_gids)?;
    Ok(FontSubset { font: flat, kept })
}

/// Writes the font at the beginning of the bytes with only some glyphs, desubroutinized.
///
/// The glyphs are the ones of [`kept_glyphs`]: `.notdef`, the glyphs in `named`, and the components of each kept `seac`
/// glyph (Technical Note 5177, Appendix C). They are in ascending order. The order of `named` and repeated numbers do
/// not matter.
///
/// Each glyph is drawn as before, with its components, its advance width, and its name or CID. A component that the
/// font lacks is not kept, and such a glyph still cannot be drawn. Names and DICTs keep their content, apart from
/// offsets. A custom encoding is replaced by the standard encoding.
///
/// Only strings of a kept glyph or of an operator of the Top DICT are written, and they get new SIDs. A CID-keyed font
/// keeps all strings (Technical Note 5176, sections 9, 10 and 13). If `FontSet::read_lenient` reads the font, it also
/// reads the new one.
///
/// # Errors
///
/// - `NoGlyphs`: `named` is empty.
/// - `MissingGlyph`: the font has no glyph with this number.
/// - `MissingName`: the charset has no SID or CID for a kept glyph. The error has the first such glyph.
/// - The errors of [`flat_font`], but only for the kept glyphs.
pub fn subset(alloc: Global, bytes: &[u8], named: &[usize]) -> Result<Vec<u8>>
    // Each kept glyph is drawn with the same segments and width as before.
    ensures drawn { IfOk result (λ flat. DrawsKept the_chosen named.now bytes.now flat.items) }
    // Each kept glyph has its old code without calls, its advance width, and its name or CID.
    ensures same { IfOk result (λ flat. GlyphsKept the_chosen named.now bytes.now flat.items) }
    // The new font is well formed and has exactly the kept glyphs, in ascending order.
    ensures written { IfOk result (λ flat. IsSubset IsCutFont the_chosen named.now bytes.now flat.items) }
    // Glyph `i` of the new font is the glyph at index `i` in the list of `kept_glyphs`.
    ensures kept { IfOk result (λ flat. HasAllKept named.now bytes.now flat.items) }
    // No bytes are outside the parts of the font, and a Private DICT has no operator twice.
    ensures whole { IfOk result (λ flat. IsWholeFont flat.items) }
    // No operator occurs twice in the Top DICT or in a Font DICT.
    ensures once { IfOk result (λ flat. TellsOnce flat.items) }
    // If the Top DICT has `ROS`, it is the first operator.
    ensures ros { IfOk result (λ flat. BeginsWithRos flat.items) }
    // In a CID-keyed font, FDSelect gives each glyph a Font DICT that the font has.
    ensures selects { IfOk result (λ flat. SelectsParts flat.items) }
    // No charstring of the new font has more than 65,535 bytes.
    ensures short { IfOk result (λ flat. HasShortCodes flat.items) }
    // The sizes stay below the limit of `TooLarge`.
    ensures small { IfOk result (λ flat. IsSmall bytes.now flat.items) }
    // If the lenient reading accepts the old font, it accepts the new one.
    ensures lenient { IfOk result (λ flat. HasLenientFont bytes.now → HasLenientFont flat.items) }
    // A success means that the font set has exactly one font.
    ensures one { OnOk result (the_fonts bytes.now 0 ≡ Got 1 0) }
    // With named glyphs and another number of fonts the error is `SeveralFonts`.
    ensures several { 0 < length named.now → HasOtherFonts bytes.now → result ≡ Err errors.SeveralFonts }
    // An error is justified by the list, the font or the first bad kept glyph, or is `Memory`.
    ensures refused { IfErr result (λ e. IsSubsetRefusedBy named.now the_chosen bytes.now e) }
    // A success means that the font has all named glyphs.
    ensures there { OnOk result ((font : View) → IsLaidOut bytes.now 0 font → AreThere named.now (length font.char_strings)) }
    // Without named glyphs the error is `NoGlyphs`.
    ensures none { named.now ≡ [] → result ≡ Err errors.NoGlyphs }
{
    match subset_within(alloc, bytes, named, false, None) {
        Ok(subset) => Ok(subset.font),
        Err(error) => Err(error),
    }
}

/// Writes the same glyphs as [`subset`], but each keeps its number.
///
/// All other glyphs are empty (`endchar`), and keep their names or CIDs. The encoding and the strings are unchanged.
///
/// # Errors
///
/// - `NoGlyphs`: `named` is empty.
/// - `MissingGlyph`: the font has no glyph with this number.
/// - The errors of [`flat_font`], but only for the kept glyphs.
pub fn subset_keeping(alloc: Global, bytes: &[u8], named: &[usize]) -> Result<Vec<u8>>
    // Each kept glyph is drawn with the same segments and width as before.
    ensures drawn { IfOk result (λ flat. DrawsKept the_keeping named.now bytes.now flat.items) }
    // Each kept glyph has its old code without calls, its advance width, and its name or CID.
    ensures same { IfOk result (λ flat. GlyphsKept the_keeping named.now bytes.now flat.items) }
    // The new font is well formed and has all glyph numbers: kept glyphs, and empty ones.
    ensures written { IfOk result (λ flat. IsSubset IsKeptFont the_keeping named.now bytes.now flat.items) }
    // Each glyph in the list of `kept_glyphs` is the same as before, with its old number.
    ensures kept { IfOk result (λ flat. HasAllInPlace named.now bytes.now flat.items) }
    // No bytes are outside the parts of the font, and a Private DICT has no operator twice.
    ensures whole { IfOk result (λ flat. IsWholeFont flat.items) }
    // No operator occurs twice in the Top DICT or in a Font DICT.
    ensures once { IfOk result (λ flat. TellsOnce flat.items) }
    // If the Top DICT has `ROS`, it is the first operator.
    ensures ros { IfOk result (λ flat. BeginsWithRos flat.items) }
    // In a CID-keyed font, FDSelect gives each glyph a Font DICT that the font has.
    ensures selects { IfOk result (λ flat. SelectsParts flat.items) }
    // No charstring of the new font has more than 65,535 bytes.
    ensures short { IfOk result (λ flat. HasShortCodes flat.items) }
    // The sizes stay below the limit of `TooLarge`.
    ensures small { IfOk result (λ flat. IsSmall bytes.now flat.items) }
    // If the lenient reading accepts the old font, it accepts the new one.
    ensures lenient { IfOk result (λ flat. HasLenientFont bytes.now → HasLenientFont flat.items) }
    // A success means that the font set has exactly one font.
    ensures one { OnOk result (the_fonts bytes.now 0 ≡ Got 1 0) }
    // With named glyphs and another number of fonts the error is `SeveralFonts`.
    ensures several { 0 < length named.now → HasOtherFonts bytes.now → result ≡ Err errors.SeveralFonts }
    // An error is justified by the list, the font or the first bad kept glyph, or is `Memory`.
    ensures refused { IfErr result (λ e. IsSubsetRefusedBy named.now the_keeping bytes.now e) }
    // The error is not `MissingName`: glyphs that keep their numbers need no name.
    ensures names { IfErr result NeedsNoName }
    // A success means that the font has all named glyphs.
    ensures there { OnOk result ((font : View) → IsLaidOut bytes.now 0 font → AreThere named.now (length font.char_strings)) }
    // Without named glyphs the error is `NoGlyphs`.
    ensures none { named.now ≡ [] → result ≡ Err errors.NoGlyphs }
{
    match subset_within(alloc, bytes, named, true, None) {
        Ok(subset) => Ok(subset.font),
        Err(error) => Err(error),
    }
}

/// Writes the font of [`subset`], or of [`subset_keeping`] if `retain_gids` is set, within a limit if there is one. Returns
/// the kept glyphs too.
///
/// The runs of the kept glyphs share the limit, as in [`kept_glyphs_within`]. Each glyph is run once more to write it.
///
/// # Errors
///
/// - The errors of [`subset`] or [`subset_keeping`].
/// - `TooLong`: the runs of the kept glyphs cost more than the limit.
/// - `Glyph`: there is a limit, and the charstring of a kept glyph fails. The error has such a glyph and the cause.
pub fn subset_within(
    alloc: Global,
    bytes: &[u8],
    named: &[usize],
    retain_gids: bool,
    limit: Option<u64>,
) -> Result<FontSubset>
    // Each kept glyph is drawn with the same segments and width as before.
    ensures drawn { IfOk result (λ subset. DrawsKept (choice_by retain_gids) named.now bytes.now subset.font.items) }
    // Each kept glyph has its old code without calls, its advance width, and its name or CID.
    ensures same { IfOk result (λ subset. GlyphsKept (choice_by retain_gids) named.now bytes.now subset.font.items) }
    // The new font is well formed. It has exactly the kept glyphs, or all glyph numbers.
    ensures written { IfOk result (λ subset. IsSubset (IsFontBy retain_gids) (choice_by retain_gids) named.now bytes.now subset.font.items) }
    // Each glyph of `kept_glyphs` is in the font, at its index, or under its old number.
    ensures all { IfOk result (λ subset. HasAllBy retain_gids named.now bytes.now subset.font.items) }
    // The list has `.notdef`, the named glyphs and all components of listed ones, ascending.
    ensures kept { IfOk result (λ subset. AreKept named.now bytes.now subset.kept.items) }
    // In some order, the run of each kept glyph ends within what is left of the limit.
    ensures within { OnOk result (KeepsWithin limit named.now bytes.now) }
    // No bytes are outside the parts of the font, and a Private DICT has no operator twice.
    ensures whole { IfOk result (λ subset. IsWholeFont subset.font.items) }
    // No operator occurs twice in the Top DICT or in a Font DICT.
    ensures once { IfOk result (λ subset. TellsOnce subset.font.items) }
    // If the Top DICT has `ROS`, it is the first operator.
    ensures ros { IfOk result (λ subset. BeginsWithRos subset.font.items) }
    // In a CID-keyed font, FDSelect gives each glyph a Font DICT that the font has.
    ensures selects { IfOk result (λ subset. SelectsParts subset.font.items) }
    // No charstring of the new font has more than 65,535 bytes.
    ensures short { IfOk result (λ subset. HasShortCodes subset.font.items) }
    // The sizes stay below the limit of `TooLarge`.
    ensures small { IfOk result (λ subset. IsSmall bytes.now subset.font.items) }
    // If the lenient reading accepts the old font, it accepts the new one.
    ensures lenient { IfOk result (λ subset. HasLenientFont bytes.now → HasLenientFont subset.font.items) }
    // A success means that the font set has exactly one font.
    ensures one { OnOk result (the_fonts bytes.now 0 ≡ Got 1 0) }
    // With named glyphs and another number of fonts the error is `SeveralFonts`.
    ensures several { 0 < length named.now → HasOtherFonts bytes.now → result ≡ Err errors.SeveralFonts }
    // The list, the font, a bad kept glyph or the limit justifies an error, or it is `Memory`.
    ensures refused { IfErr result (λ e. IsSubsetRefusedBy named.now (choice_by retain_gids) bytes.now e ⊎ StopsIn bytes.now named.now limit e) }
    // The error is not `MissingName` if glyphs keep their numbers.
    ensures names { IfErr result (λ e. retain_gids ≡ true → NeedsNoName e) }
    // A success means that the font has all named glyphs.
    ensures there { OnOk result ((font : View) → IsLaidOut bytes.now 0 font → AreThere named.now (length font.char_strings)) }
    // Without named glyphs the error is `NoGlyphs`.
    ensures none { named.now ≡ [] → result ≡ Err errors.NoGlyphs }
{
    subset_by(alloc, bytes, named, retain_gids, limit)
}
