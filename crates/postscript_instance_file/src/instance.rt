//! Static fonts with outlines in a `CFF ` table.
ghost use Rattle.std.specs.Prelude.{◌≡◌, ◌⊎◌, ◌<◌, ◌≤◌, IfErr, IfOk, IfSome, length, slice_get};
ghost use Rattle.postscript_instance_file.specs.Glyphs.{HaveWidths, IsGlyphBy, NamesUnwritten, NoGlyphBy};
ghost use Rattle.postscript_instance_file.specs.Instances.{HaveFont, IsFileOf, IsFileWith, IsFontAt, IsInstanceFile, IsStaticFont, IsTableBy};
ghost use Rattle.postscript_instance_file.specs.Refusals.{IsUnmade, IsUnmadeBy, IsUnwritten, LacksTableBy, NoFileOf, NoFileWith, NoInstanceFile, NoInstanceFileWithin, NoTables};
ghost use Rattle.postscript_instance_file.specs.declared.error.Error.TheVariants as errors;
ghost use Rattle.postscript_instance_file.specs.declared.face.VariableFace.{VariableFace as Face};
ghost use Rattle.postscript_sfnt_write.specs.Files.{IsSoundFile};

use crate::drawn::{Budget, Drawn};
use crate::error::{Error, GlyphError};
use crate::face::VariableFace;
use crate::glyph_names::{Kept, names_of};
use crate::location::Location;
use crate::made::{Made, Unmade};
use crate::style::Style;
use crate::{kept, metrics, positions};
use postscript_cff2::Font;
use postscript_instance::{
    AdvancesAt, Error as Unwritten, Naming, glyph, rounded_glyph, rounded_table, table,
};
use postscript_sfnt_write::{Table, file_of};
use postscript_type2::Operand;
use postscript_variable_font::Place;
use postscript_variation::Setting;
use std::alloc::{AllocError, Global};

/// How often a glyph is run: it is drawn, measured, encoded and written, and its bytes are read back.
pub const RUNS: u64 = 5;

/// The tag of the `CFF ` table.
const CFF: u32 = 0x43464620;

/// Watches the drawing of the glyphs, for instance to show the progress.
pub trait Watch {
    /// Is called before a glyph is drawn.
    fn at_glyph(&mut self, gid: u16);
}

/// Watches nothing.
#[derive(Clone, Copy)]
pub struct Unwatched;

impl Watch for Unwatched {
    fn at_glyph(&mut self, _gid: u16) {}
}

/// A static font.
#[derive(Drop)]
pub struct StaticFont {
    /// The file.
    pub file: Vec<u8>,
    /// Why the glyph names are dropped, if they are. The font is then CID-keyed.
    pub lost_names: Option<&'static str>,
}

/// Returns the charstring of a glyph at a location. Each point is rounded to whole units if `is_rounded` is set.
fn glyph_by(
    alloc: Global,
    font: &Font<'_>,
    number: usize,
    place: &Place,
    width: Option<Operand>,
    is_rounded: bool,
) -> Result<Vec<u8>, Unwritten>
    ensures written { IfOk result (λ code. IsGlyphBy is_rounded font.now number place.now width code.items) }
    ensures why { IfErr result (λ e. NoGlyphBy is_rounded font.now number place.now width e) }
{
    if is_rounded {
        rounded_glyph(alloc, font, number, place, width)
    } else {
        glyph(alloc, font, number, place, width)
    }
}

/// Returns the advance of a glyph, as the width of a charstring.
fn width_of(drawn: &Drawn, glyph: usize) -> Option<Operand>
    ensures { result ≡ slice_get drawn.now.widths.items glyph }
{
    drawn.widths.get(glyph).copied()
}

/// Returns the error of the first glyph that cannot be written.
fn first_fault(
    alloc: Global,
    face: &VariableFace<'_>,
    location: &Location,
    drawn: &Drawn,
    is_rounded: bool,
) -> Option<Error>
    requires { HaveWidths face.now location.now drawn.now.widths.items }
    ensures { IfSome result (λ e. NamesUnwritten is_rounded face.now location.now e) }
{
    for i in 0..drawn.widths.len() {
        let Ok(gid) = u16::try_from(i) else {
            return None;
        };
        let width = width_of(drawn, i);
        let written = glyph_by(alloc, &face.font, i, &location.place, width, is_rounded);
        if let Err(error) = written {
            return Some(Error::Glyph(gid, GlyphError::Unwritten(error)));
        }
    }
    None
}

/// Returns the error of a table that is not written, with the glyph if it is about one.
fn error_of(
    alloc: Global,
    face: &VariableFace<'_>,
    location: &Location,
    drawn: &Drawn,
    is_rounded: bool,
    error: Unwritten,
) -> Error
    requires { HaveWidths face.now location.now drawn.now.widths.items }
    ensures { NamesUnwritten is_rounded face.now location.now result ⊎ (result ≡ errors.Table error) }
{
    match error {
        Unwritten::TooManyOperands | Unwritten::NoMove | Unwritten::TooFar => match first_fault(
            alloc, face, location, drawn, is_rounded,
        ) {
            Some(of_glyph) => of_glyph,
            None => Error::Table(error),
        },
        error => Error::Table(error),
    }
}

/// Returns a `CFF ` table with the glyphs at a location. Each point is rounded to whole units if `is_rounded` is set.
fn table_by(
    alloc: Global,
    font: &Font<'_>,
    naming: &Naming<'_>,
    advances: &AdvancesAt<'_>,
    is_rounded: bool,
) -> Result<Vec<u8>, Unwritten>
    ensures written { IfOk result (λ table. IsTableBy is_rounded font.now naming.now advances.now table.items) }
    ensures why { IfErr result (λ e. LacksTableBy is_rounded font.now naming.now advances.now e) }
{
    if is_rounded {
        rounded_table(alloc, font, naming, advances)
    } else {
        table(alloc, font, naming, advances)
    }
}

/// Returns the `CFF ` table of an instance, with glyph names if they are kept.
fn font_of(
    alloc: Global,
    face: &VariableFace<'_>,
    location: &Location,
    drawn: &Drawn,
    style: &Style,
    names: &Kept<'_>,
    is_rounded: bool,
) -> Result<Vec<u8>, Error>
    requires { HaveWidths face.now location.now drawn.now.widths.items }
    ensures written { IfOk result (λ font. IsFontAt is_rounded face.now location.now font.items) }
    ensures why { IfErr result (λ e. IsUnwritten is_rounded face.now location.now e) }
{
    let naming = Naming {
        font: style.postscript.as_str().as_bytes(),
        glyphs: names.names(),
    };
    let advances = face.advances_at(&location.coordinates);
    match table_by(alloc, &face.font, &naming, &advances, is_rounded) {
        Ok(font) => Ok(font),
        Err(error) => Err(error_of(alloc, face, location, drawn, is_rounded, error)),
    }
}

/// Returns the error of a table that is not made.
fn error_of_table(unmade: Unmade) -> Error
    ensures { (face : Face) → IsUnmadeBy face unmade → NoTables face result }
{
    match unmade {
        Unmade::Memory => Error::Memory,
        Unmade::Names => Error::Names,
        Unmade::Cut => Error::Write(postscript_sfnt_write::Error::Cut),
    }
}

/// Returns all tables that are made for an instance, apart from the `CFF ` table.
fn made_of(
    alloc: Global,
    face: &VariableFace<'_>,
    location: &Location,
    drawn: &Drawn,
    style: &Style,
) -> Result<Made, Error>
    ensures { IfErr result (λ e. NoTables face.now e) }
{
    let metrics = metrics::metric_variations(&face.file)?;
    let mut made = Made::new(alloc);
    if let Err(unmade) = metrics::put(&mut made, alloc, face, location, drawn, style, metrics) {
        return Err(error_of_table(unmade));
    }
    positions::put(&mut made, alloc, face, location)?;
    Ok(made)
}

/// Returns a `CFF ` table, the made tables and the copied ones.
fn all_tables<'t>(
    alloc: Global,
    face: &VariableFace<'t>,
    font: &'t [u8],
    made: &'t Made,
) -> Result<Vec<Table<'t>>, AllocError>
    ensures have { IfOk result (λ tables. HaveFont tables.items font.now) }
{
    let mut tables = made.tables(alloc)?;
    kept::put(&mut tables, &face.file)?;
    tables.push(Table {
        tag: CFF,
        bytes: font,
    })?;
    Ok(tables)
}

/// Returns a file of tables, sorted by their tags.
fn file_with(alloc: Global, tables: &[Table<'_>]) -> Result<Vec<u8>, Error>
    ensures file { IfOk result (λ file. IsFileOf tables.now file.items) }
    ensures sound { IfOk result (λ file. 0 < length tables.now → IsSoundFile file.items) }
    ensures why { IfErr result (λ e. NoFileOf tables.now e) }
{
    let mut sorted = Vec::from_slice(alloc, tables)?;
    sorted.sort_by_key(|table: &Table<'_>| table.tag)?;
    let file = file_of(alloc, sorted.as_slice())?;
    Ok(file)
}

/// Returns the file of a `CFF ` table, the made tables and the copied ones.
fn write_file(
    alloc: Global,
    face: &VariableFace<'_>,
    font: &[u8],
    made: &Made,
) -> Result<Vec<u8>, Error>
    ensures written { IfOk result (λ file. IsFileWith font.now file.items) }
    ensures sound { IfOk result (λ file. IsSoundFile file.items) }
    ensures why { IfErr result (λ e. NoFileWith font.now e) }
{
    let tables = all_tables(alloc, face, font, made)?;
    let file = file_with(alloc, tables.as_slice())?;
    Ok(file)
}

/// Returns the static font of an instance with measured glyphs and a style.
fn font_in_style(
    alloc: Global,
    face: &VariableFace<'_>,
    location: &Location,
    drawn: &Drawn,
    style: &Style,
    is_rounded: bool,
) -> Result<StaticFont, Error>
    requires { HaveWidths face.now location.now drawn.now.widths.items }
    ensures written { IfOk result (λ made. IsStaticFont is_rounded face.now location.now made.file.items) }
    ensures sound { IfOk result (λ made. IsSoundFile made.file.items) }
    ensures why { IfErr result (λ e. IsUnwritten is_rounded face.now location.now e) }
{
    let names = names_of(alloc, face)?;
    let font = font_of(alloc, face, location, drawn, style, &names, is_rounded)?;
    let made = made_of(alloc, face, location, drawn, style)?;
    let file = write_file(alloc, face, &font, &made)?;
    Ok(StaticFont {
        file,
        lost_names: names.lost(),
    })
}

/// Writes the static font of a location. Each point is rounded to whole units if `is_rounded` is set.
///
/// A glyph may cost `limit` units, and all glyphs together `*left` units, which is reduced by the cost. A unit is one of
/// `draw_glyph` of `postscript_variable_font`. Each glyph is run [`RUNS`] times, and the cost is counted once. A glyph
/// may cost a fortieth of `limit`, since all its operations are kept in memory, and draw one segment for each 50 units.
///
/// # Errors
///
/// - `Glyph`: the first glyph whose advance is not from 0 to 32767, or else the first one that is not drawn within the
///   limits, or else the first one whose charstring is not written ([`GlyphError`]).
/// - `Variations`: the `MVAR` table is malformed.
/// - `Table`: the `CFF ` table is not written.
/// - `Names`: the `name` table has no space for the names of the instance.
/// - `Write`: the file would be too large, or the `hhea` table has fewer than 36 bytes (`Cut`).
/// - `Memory`: out of memory.
pub fn static_font<W: Watch>(
    alloc: Global,
    face: &VariableFace<'_>,
    location: &Location,
    is_rounded: bool,
    limit: u64,
    left: &mut u64,
    watch: &mut W,
) -> Result<StaticFont, Error>
    // The file opens with exactly its tables. Its `CFF ` table has the glyphs at the location.
    ensures written { IfOk result (λ made. IsStaticFont is_rounded face.now location.now made.file.items) }
    // Tags ascend, records and checksums are right, and only zeros are between tables.
    ensures sound { IfOk result (λ made. IsSoundFile made.file.items) }
    // The limit of all glyphs never grows.
    ensures spends { left.new ≤ left.old }
    // An error names the first glyph that is refused, and why, or a table that is not made.
    ensures why { IfErr result (λ e. IsUnmade is_rounded limit left.old face.now location.now e) }
{
    let mut budget = Budget { limit, left: *left };
    let drawn = Drawn::draw_all(alloc, face, location, &mut budget, is_rounded, watch);
    *left = budget.left;
    let drawn = drawn?;
    let style = Style::of(alloc, face, location)?;
    let made = font_in_style(alloc, face, location, &drawn, &style, is_rounded)?;
    Ok(made)
}

/// Writes one instance of a variable font of a file as a static font file with a `CFF ` table.
///
/// The instance has the given user coordinates, and the defaults for all other axes. Each point is rounded to whole units
/// if `is_rounded` is set. The glyphs may cost as much as in [`static_font`].
///
/// # Errors
///
/// - The errors of [`VariableFace::read`], [`Location::of`] and [`static_font`].
pub fn instance_file(
    alloc: Global,
    file: &[u8],
    number: usize,
    settings: Vec<Setting>,
    is_rounded: bool,
    limit: u64,
    left: &mut u64,
) -> Result<StaticFont, Error>
    // The file is a static font of the face at the location of the settings.
    ensures written { IfOk result (λ made. IsInstanceFile is_rounded file.now number settings.items made.file.items) }
    // Tags ascend, records and checksums are right, and only zeros are between tables.
    ensures sound { IfOk result (λ made. IsSoundFile made.file.items) }
    // The limit of all glyphs never grows.
    ensures spends { left.new ≤ left.old }
    // An error is justified as those of the three calls, within some limits.
    ensures why { IfErr result (λ e. NoInstanceFile is_rounded file.now number settings.items e) }
    // These are the given limits.
    ensures within { IfErr result (λ e. NoInstanceFileWithin limit left.old is_rounded file.now number settings.items e) }
{
    let face = VariableFace::read(file, number)?;
    let location = Location::of(alloc, &face, settings, None)?;
    let made = static_font(
        alloc,
        &face,
        &location,
        is_rounded,
        limit,
        left,
        &mut Unwatched,
    )?;
    Ok(made)
}
