//! Variable fonts of files: fonts with outlines in a `CFF2` table.
ghost use Rattle.std.specs.Prelude.{◌≡◌, IfErr, IfOk, IfSome, MatchOption};
ghost use Rattle.postscript_base.specs.Numbers.{big_endian};
ghost use Rattle.postscript_instance_file.specs.Faces.{AreNames, HasAdvances, IsFoundFace, IsNamed, IsRead, IsUnnamed, IsVariableFace, avar_tag, cff2_tag, fvar_tag, hvar_tag};
ghost use Rattle.postscript_instance_file.specs.Refusals.{IsNeeded, IsNotVariable, IsUnopened, IsUnread};
ghost use Rattle.postscript_instance_file.specs.Weights.{IsLight};
ghost use Rattle.postscript_instance_file.specs.declared.error.Error.TheVariants as errors;
ghost use Rattle.postscript_sfnt.specs.Lent.{IsTableOf};
ghost use Rattle.postscript_variation.specs.LentAdvances.{AreAdvancesOf};
ghost use Rattle.postscript_variation.specs.LentAxes.{AreAxesOf};
ghost use Rattle.postscript_variation.specs.LentMaps.{AreMapsOf};
ghost use Rattle.postscript_variation.specs.declared.error.Error.{Error as TableError};

use crate::error::{Error, Result};
use crate::weight::heavy_table;
use postscript_cff2::Font;
use postscript_instance::AdvancesAt;
use postscript_sfnt::{Advances, FontFile, Name, Names, glyphs};
use postscript_variation::{AdvanceVariations, Axes, Maps};

/// A font of a file, with a `CFF2` table.
#[derive(Clone, Copy)]
pub struct VariableFace<'l> {
    /// The face in its file.
    pub file: FontFile<'l>,
    /// The font in the `CFF2` table.
    pub font: Font<'l>,
    /// The number of glyphs in the `maxp` table.
    pub glyphs: u16,
    /// The default advance widths, in the `hmtx` table.
    pub advances: Advances<'l>,
    /// The names in the `name` table.
    pub names: Option<Names<'l>>,
    /// The axes in the `fvar` table. Without it the font has no axes.
    pub axes: Option<Axes<'l>>,
    /// The maps of coordinates in the `avar` table.
    pub maps: Option<Maps<'l>>,
    /// The variations of advance widths in the `HVAR` table.
    pub variations: Option<AdvanceVariations<'l>>,
}

/// Returns a table of variations that was read, or its error.
pub(crate) fn read_as<T>(name: &'static str, read: postscript_variation::Result<T>) -> Result<T>
    ensures value { IfOk result (λ value. read ≡ Ok value) }
    ensures why { IfErr result (λ e. (cause : TableError) × (read ≡ Err cause) × (e ≡ errors.Variations name.entry cause)) }
{
    match read {
        Ok(read) => Ok(read),
        Err(error) => Err(Error::Variations(name, error)),
    }
}

/// Returns a required table.
fn required_table<'l>(file: &FontFile<'l>, tag: [u8; 4], name: &'static str) -> Result<&'l [u8]>
    requires { IsNeeded name.now (big_endian tag) }
    ensures found { IfOk result (λ table. IsTableOf file.now (big_endian tag) table.now) }
    ensures why { IfErr result (λ e. IsUnopened file.now e) }
{
    match file.table(tag) {
        Some(table) => Ok(table),
        None => Err(Error::NoTable(name)),
    }
}

/// Returns the advance widths of a face.
fn advances_of<'l>(file: &FontFile<'l>) -> Result<Advances<'l>>
    ensures found { IfOk result (λ advances. HasAdvances file.now advances) }
    ensures why { IfErr result (λ e. IsUnopened file.now e) }
{
    let hhea = required_table(file, *b"hhea", "hhea")?;
    let hmtx = required_table(file, *b"hmtx", "hmtx")?;
    match Advances::read(hhea, hmtx) {
        Some(advances) => Ok(advances),
        None => Err(Error::Cut("hmtx")),
    }
}

/// Returns the number of glyphs of a face.
fn glyphs_of(file: &FontFile<'_>) -> Result<u16>
    ensures { IfErr result (λ e. IsUnopened file.now e) }
{
    match glyphs(required_table(file, *b"maxp", "maxp")?) {
        Some(glyphs) => Ok(glyphs),
        None => Err(Error::Cut("maxp")),
    }
}

/// Returns the axes of a face, if it has them.
fn axes_of<'l>(file: &FontFile<'l>) -> Result<Option<Axes<'l>>>
    ensures found { IfOk result (λ axes. IsRead file.now fvar_tag AreAxesOf axes) }
    ensures why { IfErr result (λ e. IsUnopened file.now e) }
{
    match file.table(*b"fvar") {
        Some(fvar) => Ok(Some(read_as("fvar", Axes::read(fvar))?)),
        None => Ok(None),
    }
}

/// Returns the maps of coordinates of a face, if it has them.
fn maps_of<'l>(file: &FontFile<'l>) -> Result<Option<Maps<'l>>>
    ensures found { IfOk result (λ maps. IsRead file.now avar_tag AreMapsOf maps) }
    ensures why { IfErr result (λ e. IsUnopened file.now e) }
{
    match file.table(*b"avar") {
        Some(avar) => Ok(Some(read_as("avar", Maps::read(avar))?)),
        None => Ok(None),
    }
}

/// Returns the variations of advance widths of a face, if it has them.
fn variations_of<'l>(file: &FontFile<'l>) -> Result<Option<AdvanceVariations<'l>>>
    ensures found { IfOk result (λ variations. IsRead file.now hvar_tag AreAdvancesOf variations) }
    ensures why { IfErr result (λ e. IsUnopened file.now e) }
{
    match file.table(*b"HVAR") {
        Some(hvar) => Ok(Some(read_as("HVAR", AdvanceVariations::read(hvar))?)),
        None => Ok(None),
    }
}

/// Returns the names of a face, if it has a `name` table that can be read.
fn names_of<'l>(file: &FontFile<'l>) -> Option<Names<'l>>
    ensures { AreNames file.now result }
{
    match file.table(*b"name") {
        Some(names) => Names::read(names),
        None => None,
    }
}

/// Returns the `CFF2` table of a face that has no `CFF ` table.
fn cff2_of<'l>(file: &FontFile<'l>) -> Option<&'l [u8]>
    ensures { MatchOption result (IsNotVariable file.now) (λ cff2. IsTableOf file.now cff2_tag cff2.now) }
{
    match file.table(*b"CFF ") {
        Some(_) => None,
        None => file.table(*b"CFF2"),
    }
}

impl<'l> VariableFace<'l> {
    /// Opens a face of a file. Faces are numbered from 0.
    ///
    /// # Errors
    ///
    /// - `File`: the file is malformed, or it has too few faces.
    /// - `NotVariable`: the face has no `CFF2` table, or it has a `CFF ` table too.
    /// - The errors of [`VariableFace::open`].
    pub fn read(bytes: &'l [u8], number: usize) -> Result<VariableFace<'l>>
        // The font of the face of this number, with what its own tables say.
        ensures found { IfOk result (λ face. IsFoundFace bytes.now number face) }
        // No table of this face makes more work than the limits.
        ensures light { IfOk result (λ face. IsLight face) }
        // An error is justified by the file, or by a table as those of `open`.
        ensures why { IfErr result (λ e. IsUnread bytes.now number e) }
    {
        let file = FontFile::read(bytes, number)?;
        match VariableFace::open(&file)? {
            Some(face) => Ok(face),
            None => Err(Error::NotVariable),
        }
    }

    /// Opens a face. Returns `None` if it has no `CFF2` table, or if it has a `CFF ` table too.
    ///
    /// # Errors
    ///
    /// - `NoTable` or `Cut`: the `hhea`, `hmtx` or `maxp` table is missing or truncated.
    /// - `Variations`: the `fvar`, `avar` or `HVAR` table is malformed.
    /// - `Font`: the `CFF2` table is malformed.
    /// - `Heavy`: a table makes more work than the limits in `weight.rt` (`specs/Weights.antt`).
    pub fn open(file: &FontFile<'l>) -> Result<Option<VariableFace<'l>>>
        // The font of this face, with what its own tables say.
        ensures found { IfOk result (λ found. IfSome found (λ face. IsVariableFace file.now face)) }
        // No table of this face makes more work than the limits.
        ensures light { IfOk result (λ found. IfSome found (λ face. IsLight face)) }
        // Without a font the face has no `CFF2` table, or it has a `CFF ` table too.
        ensures none { IfOk result (λ found. MatchOption found (IsNotVariable file.now) (λ _. Unit {0})) }
        // An error is justified by a table that is missing, malformed, or heavier than the limits.
        ensures why { IfErr result (λ e. IsUnopened file.now e) }
    {
        let Some(cff2) = cff2_of(file) else {
            return Ok(None);
        };
        let face = VariableFace {
            file: *file,
            axes: axes_of(file)?,
            maps: maps_of(file)?,
            variations: variations_of(file)?,
            glyphs: glyphs_of(file)?,
            advances: advances_of(file)?,
            names: names_of(file),
            font: Font::read(cff2)?,
        };
        match heavy_table(&face) {
            Some(name) => Err(Error::Heavy(name)),
            None => Ok(Some(face)),
        }
    }

    /// Returns the name with an ID, as [`Names::get`](postscript_sfnt::Names::get) does. Returns `None` if there is none.
    pub fn name(&self, identifier: u16) -> Option<Name<'l>>
        // The text with this identifier in the names of the face, or `None` if there is none.
        ensures { MatchOption result (IsUnnamed self.now.names identifier) (λ name. IsNamed self.now.names identifier name) }
    {
        match &self.names {
            Some(names) => names.get(identifier),
            None => None,
        }
    }

    /// Returns the advance widths at a location.
    pub fn advances_at<'m>(&'m self, coordinates: &'m [i16]) -> AdvancesAt<'m>
        // The default advance widths are those of the face.
        ensures default { result.default ≡ self.now.advances }
        // The variations are those of the face.
        ensures variations { result.variations ≡ self.now.variations }
        // The coordinates are the given ones.
        ensures coordinates { result.coordinates.now ≡ coordinates.now }
    {
        AdvancesAt {
            default: self.advances,
            variations: self.variations,
            coordinates,
        }
    }
}
