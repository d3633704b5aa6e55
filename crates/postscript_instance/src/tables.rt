//! The `CFF ` table at a location.
ghost use Rattle.std.specs.Prelude.{◌⊎◌, length, IfErr, IfOk, OnOk};
ghost use Rattle.postscript_cff2.specs.Shown.{view_shown as varying_shown};
ghost use Rattle.postscript_instance.specs.Advances.{AreAdvancesAt};
ghost use Rattle.postscript_instance.specs.Encoded.{HaveFontDicts, IsFontOf};
ghost use Rattle.postscript_instance.specs.Glyphs.{AreCodes, DoesIn, HasNoRoom, IsCounted, IsMatrixIn, IsMiscounted, IsStaticGlyph, LacksCode, LacksTable, LacksWidths, NoCodeIn, NoRoundedTable, NoStaticGlyph, NoTable};
ghost use Rattle.postscript_instance.specs.Placed.{IsPlaceIn, LacksPlace};
ghost use Rattle.postscript_instance.specs.Refusals.{IsMemory};
ghost use Rattle.postscript_instance.specs.Rooms.{IsTooLarge};
ghost use Rattle.postscript_instance.specs.Tables.{IsRoundedTableOf, IsTable, IsTableAt, IsTableOf};
ghost use Rattle.postscript_instance.specs.Whole.{AreOfFont, IsWhole};
ghost use Rattle.postscript_type2.specs.Program.Routines.{texts};

use crate::advances::AdvancesAt;
use crate::error::{Error, Result};
use crate::layout::{laid_out_by_names, laid_out_by_numbers, privates_of};
use crate::matrix::matrix_text;
use crate::naming::{Identifiers, Naming};
use crate::rooms::is_too_large;
use crate::statics::charstring;
use crate::whole::rounded_glyph;
use postscript_base::Error as Cause;
use postscript_cff2::Font;
use postscript_type2::Operand;
use postscript_variable_font::{Error as PlaceError, Place, charstring as varying};
use std::alloc::Global;

/// Writes the Type 2 charstring of a glyph of a variable font at a location, with a width, as
/// [`charstring`](crate::charstring) does.
///
/// # Errors
///
/// - `NoGlyph`: there is no such glyph, or its Font DICT is missing or malformed.
/// - The errors of [`charstring`](crate::charstring).
pub fn glyph(
    alloc: Global,
    font: &Font<'_>,
    glyph: usize,
    place: &Place,
    width: Option<Operand>,
) -> Result<Vec<u8>>
    // The code has the operations of the glyph's charstring at the location, and the width.
    ensures written { IfOk result (λ code. IsStaticGlyph font.now glyph place.now width code.items) }
    // An error is justified: the glyph has no charstring, or `charstring` fails for it.
    ensures refused { IfErr result (λ e. NoStaticGlyph font.now glyph place.now width e) }
{
    match varying(font, glyph, place) {
        Some(varied) => charstring(alloc, varied, width),
        None => Err(Error::NoGlyph(glyph)),
    }
}

/// The form of numbers: exact 16.16 numbers, or whole units.
#[derive(Clone, Copy)]
enum Numbers {
    Exact,
    Whole,
}

/// The charstring of a glyph with a width, in this form.
fn code_of(
    alloc: Global,
    font: &Font<'_>,
    number: usize,
    place: &Place,
    width: Operand,
    numbers: Numbers,
) -> Result<Vec<u8>>
    ensures written { IfOk result (λ code. DoesIn numbers font.now place.now number width code.items) }
    ensures refused { IfErr result (λ e. NoCodeIn numbers font.now place.now number width e) }
{
    match numbers {
        Numbers::Exact => glyph(alloc, font, number, place, Some(width)),
        Numbers::Whole => rounded_glyph(alloc, font, number, place, Some(width)),
    }
}

/// The charstrings of the glyphs with these widths, in this form.
fn codes_of(
    alloc: Global,
    font: &Font<'_>,
    place: &Place,
    widths: &[Operand],
    numbers: Numbers,
) -> Result<Vec<Vec<u8>>>
    ensures are { IfOk result (λ codes. AreCodes (DoesIn numbers font.now place.now) widths.now (length widths.now) codes.items) }
    ensures refused { IfErr result (λ e. LacksCode numbers font.now place.now widths.now e) }
{
    let mut codes = Vec::with_capacity(alloc, widths.len())?;
    for number in 0..widths.len() {
        codes.push(code_of(alloc, font, number, place, widths[number], numbers)?)?;
    }
    Ok(codes)
}

/// Checks that there are no names, or one for each glyph of a font with one Font DICT. The errors are `OtherNames` and
/// `NotOneDictionary`.
fn check_names(font: &Font<'_>, naming: &Naming<'_>) -> Result<()>
    ensures counted { OnOk result (IsCounted font.now naming.now (length (varying_shown font.now).char_strings)) }
    ensures refused { IfErr result (λ e. IsMiscounted font.now naming.now e) }
{
    let Some(names) = naming.glyphs else {
        return Ok(());
    };
    if names.len() != font.char_strings.len() {
        return Err(Error::OtherNames);
    }
    if font.font_dictionaries.len() != 1 {
        return Err(Error::NotOneDictionary);
    }
    Ok(())
}

/// The advance widths of all glyphs, if the names have the right number. The errors are those of `counted` and
/// `AdvancesAt::operands`.
fn widths_of(
    alloc: Global,
    font: &Font<'_>,
    naming: &Naming<'_>,
    advances: &AdvancesAt<'_>,
) -> Result<Vec<Operand>>
    ensures are { IfOk result (λ widths. AreAdvancesAt advances.now (length (varying_shown font.now).char_strings) widths.items) }
    ensures counted { OnOk result (IsCounted font.now naming.now (length (varying_shown font.now).char_strings)) }
    ensures refused { IfErr result (λ e. LacksWidths font.now naming.now advances.now e) }
{
    check_names(font, naming)?;
    advances.operands(alloc, font.char_strings.len())
}

/// The table with these charstrings and Private DICTs, and this FontMatrix.
fn laid_out(
    alloc: Global,
    font: &Font<'_>,
    naming: &Naming<'_>,
    codes: &[Vec<u8>],
    privates: &[Vec<u8>],
    matrix: &[u8],
) -> Result<Vec<u8>>
    requires counted { IsCounted font.now naming.now (length codes.now) }
    requires room { IsTooLarge font.now naming.now codes.now privates.now matrix.now → ⊥ }
    requires parts { AreOfFont font.now (texts privates.now) }
    requires have { HaveFontDicts font.now (length codes.now) }
    requires matrix { IsMatrixIn font.now matrix.now }
    ensures font { IfOk result (λ out. IsFontOf font.now naming.now (texts codes.now) out.items) }
    ensures whole { IfOk result (λ out. IsWhole font.now naming.now (texts codes.now) (texts privates.now) out.items) }
    ensures memory { IfErr result (λ e. IsMemory e) }
{
    match naming.glyphs {
        Some(names) => {
            let identifiers = Identifiers::of_names(alloc, names)?;
            laid_out_by_names(
                alloc,
                naming.font,
                matrix,
                &identifiers,
                codes,
                &privates[0],
            )
        }
        None => laid_out_by_numbers(alloc, font, naming.font, matrix, codes, privates),
    }
}

/// The table at a location with these widths, in this form. The errors are those of `glyph` or `rounded_glyph`,
/// `TooLarge`.
fn table_of(
    alloc: Global,
    font: &Font<'_>,
    place: &Place,
    naming: &Naming<'_>,
    widths: &[Operand],
    numbers: Numbers,
) -> Result<Vec<u8>>
    requires { IsCounted font.now naming.now (length widths.now) }
    ensures written { IfOk result (λ bytes. IsTable (DoesIn numbers font.now place.now) font.now place.now naming.now widths.now bytes.items) }
    ensures refused { IfErr result (λ e. LacksCode numbers font.now place.now widths.now e
        ⊎ HasNoRoom numbers font.now naming.now place.now widths.now e) }
{
    let codes = codes_of(alloc, font, place, widths, numbers)?;
    let privates = privates_of(alloc, font, place)?;
    let matrix = matrix_text(alloc, font)?;
    if is_too_large(font, naming, &codes, &privates, &matrix) {
        return Err(Error::TooLarge);
    }
    let bytes = laid_out(alloc, font, naming, &codes, &privates, &matrix)?;
    Ok(bytes)
}

/// The location with normalized coordinates. The errors are `NoData` and `Font` with `Memory`.
fn place_of(alloc: Global, font: &Font<'_>, coordinates: &[i16]) -> Result<Place>
    ensures is { IfOk result (λ place. IsPlaceIn font.now.store coordinates.now place) }
    ensures refused { IfErr result (λ e. LacksPlace font.now.store e) }
{
    match font.store {
        Some(store) => match Place::of(alloc, Some(&store), coordinates) {
            Ok(place) => Ok(place),
            Err(PlaceError::MissingData(number)) => Err(Error::NoData(number)),
            Err(PlaceError::Memory) => Err(Error::Font(Cause::Memory)),
        },
        None => Ok(Place {
            tables: Vec::new(alloc),
        }),
    }
}

/// The table at a location, in this form.
fn table_at(
    alloc: Global,
    font: &Font<'_>,
    naming: &Naming<'_>,
    advances: &AdvancesAt<'_>,
    numbers: Numbers,
) -> Result<Vec<u8>>
    ensures written { IfOk result (λ bytes. IsTableAt (DoesIn numbers) font.now naming.now advances.now bytes.items) }
    ensures refused { IfErr result (λ e. LacksTable numbers font.now naming.now advances.now e) }
{
    let widths = widths_of(alloc, font, naming, advances)?;
    let place = place_of(alloc, font, advances.coordinates)?;
    match table_of(alloc, font, &place, naming, &widths, numbers) {
        Ok(bytes) => Ok(bytes),
        Err(e) => Err(e),
    }
}

/// Writes the `CFF ` table of a variable font at the location of `advances`, with these names.
///
/// The charstring of each glyph is as from [`glyph`]. Its width is the advance width of the glyph at the location, and
/// nominalWidthX is 0. The font has the FontMatrix of the `CFF2` table, and no subroutines.
///
/// If glyphs have names, the charset and the strings contain them, apart from the first, which is `.notdef`. Otherwise
/// the font is CID-keyed (ROS Adobe, Identity, 0). Then its CIDs are the glyph numbers, and it has the Font DICTs of
/// the `CFF2` table.
///
/// The Private DICTs have the hints of the CFF2 ones, as zones and stem widths. Blended hints are rounded to the
/// nearest whole unit, and up if it is halfway. In zones and lists of widths each edge is rounded. A hint is left out
/// if it blends reals, or if a number or an edge does not fit into 16 bits. Reals of hints are cut off after 18
/// significant digits, and so are those of a FontMatrix that cannot be read otherwise. An operator whose numbers still
/// cannot be read is left out.
///
/// The clauses cover all parts of the table, one after the other, up to the last byte. These are the header, the name,
/// the operations of the Top DICT and the Font DICTs, the strings, the charset, FDSelect, the charstrings, and the
/// Private DICTs with their hints.
///
/// # Errors
///
/// - `OtherNames`: the number of names is not the number of glyphs.
/// - `NotOneDictionary`: there are names, but not exactly one Font DICT.
/// - `NoData`: item variation data are missing or truncated. The first such number is given.
/// - The errors of [`AdvancesAt::operands`].
/// - The errors of [`glyph`], for the first glyph that fails.
/// - `TooLarge`: there are more than 65,535 glyphs, more than 64,609 names, or more than 256 Font DICTs without names.
///   The same error is returned if charstrings, Private DICTs, names and FontMatrix have 2,000,000,000 bytes or more
///   together.
pub fn table(
    alloc: Global,
    font: &Font<'_>,
    naming: &Naming<'_>,
    advances: &AdvancesAt<'_>,
) -> Result<Vec<u8>>
    // The bytes are a font with the glyphs at the location, and nothing else.
    ensures written { IfOk result (λ bytes. IsTableOf font.now naming.now advances.now bytes.items) }
    // An error has a justified cause in the input, or it is `Memory`.
    ensures refused { IfErr result (λ e. NoTable font.now naming.now advances.now e) }
{
    table_at(alloc, font, naming, advances, Numbers::Exact)
}

/// Writes the table as [`table`] does, with the charstrings of [`rounded_glyph`](crate::rounded_glyph): each point is
/// rounded to whole units.
///
/// # Errors
///
/// - The errors of [`table`].
/// - The errors of [`rounded_glyph`](crate::rounded_glyph).
pub fn rounded_table(
    alloc: Global,
    font: &Font<'_>,
    naming: &Naming<'_>,
    advances: &AdvancesAt<'_>,
) -> Result<Vec<u8>>
    // The table is a font as for `table`, but with glyphs in whole units.
    ensures written { IfOk result (λ bytes. IsRoundedTableOf font.now naming.now advances.now bytes.items) }
    // An error has a justified cause in the input, or it is `Memory`.
    ensures refused { IfErr result (λ e. NoRoundedTable font.now naming.now advances.now e) }
{
    table_at(alloc, font, naming, advances, Numbers::Whole)
}
