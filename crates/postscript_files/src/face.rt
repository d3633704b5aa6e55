//! Faces with a `CFF ` table.
ghost use Rattle.std.specs.Prelude.{◌≡◌, ℕ, IfOk, IfErr, MatchResult};
ghost use Rattle.postscript_base.specs.Numbers.{big_endian};
ghost use Rattle.postscript_sfnt.specs.Lent.{AreAdvancesOf, HasNoTable, IsTableOf};
ghost use Rattle.postscript_sfnt.specs.Metrics.{HasAdvances};
ghost use Rattle.postscript_files.specs.Faces.{HasNoMap, IsBestMap, IsFaceIn, NoFaceIn};
ghost use Rattle.postscript_files.specs.declared.error.Error.TheVariants as errors;

use crate::error::{Error, Result};
use postscript_sfnt::{Advances, CharacterMap, FontFile};

/// A face with its `CFF ` table, its best character map, its advance widths and the tables that these come from.
#[derive(Clone, Copy)]
pub struct Face<'l> {
    /// The face in its file.
    pub file: FontFile<'l>,
    /// The `CFF ` table.
    pub cff: &'l [u8],
    /// The `cmap` table.
    pub cmap: &'l [u8],
    /// The best subtable of `cmap`.
    pub map: CharacterMap<'l>,
    /// The `hhea` table.
    pub hhea: &'l [u8],
    /// The `hmtx` table.
    pub hmtx: &'l [u8],
    /// The advance widths in `hmtx`.
    pub advances: Advances<'l>,
    /// The `maxp` table.
    pub maxp: &'l [u8],
}

/// Returns a required table.
pub(crate) fn required_table<'l>(file: &FontFile<'l>, tag: [u8; 4]) -> Result<&'l [u8]>
    ensures { MatchResult result
        (λ table. IsTableOf file.now (big_endian tag) table.now)
        (λ e. (e ≡ errors.MissingTable (big_endian tag)) × HasNoTable file.now (big_endian tag)) }
{
    match file.table(tag) {
        Some(table) => Ok(table),
        None => Err(Error::MissingTable(u32::from_be_bytes(tag))),
    }
}

/// Returns the best character map of a `cmap` table.
fn best_map(cmap: &[u8]) -> Result<CharacterMap<'_>>
    ensures { MatchResult result (λ map. IsBestMap cmap.now map) (λ e. (e ≡ errors.NoMap) × HasNoMap cmap.now) }
{
    match CharacterMap::read(cmap) {
        Some(map) => Ok(map),
        None => Err(Error::NoMap),
    }
}

/// Returns the advance widths of two tables.
fn advances_of<'l>(hhea: &[u8], hmtx: &'l [u8]) -> Result<Advances<'l>>
    ensures { MatchResult result
        (λ advances. AreAdvancesOf hhea.now hmtx.now advances)
        (λ e. (e ≡ errors.NoAdvances) × ((count : ℕ) → HasAdvances hhea.now hmtx.now count → ⊥)) }
{
    match Advances::read(hhea, hmtx) {
        Some(advances) => Ok(advances),
        None => Err(Error::NoAdvances),
    }
}

impl<'l> Face<'l> {
    /// Opens a face of a file. Faces are numbered from 0.
    ///
    /// # Errors
    ///
    /// - `File`: the file is malformed, or it has too few faces.
    /// - `MissingTable`: the face has no `CFF `, `cmap`, `hhea`, `hmtx` or `maxp` table.
    /// - `NoMap`: `cmap` has no Unicode subtable, or the best one is truncated or has another format than 4, 6 or 12.
    /// - `NoAdvances`: `hhea` counts no advance widths, or `hmtx` has fewer.
    pub fn open(bytes: &'l [u8], number: usize) -> Result<Face<'l>>
        // The face is the one of this number, with its own tables, best map and advance widths.
        ensures found { IfOk result (λ face. IsFaceIn bytes.now number face) }
        // The file, a missing table, the character maps or the advances justify an error.
        ensures why { IfErr result (λ e. NoFaceIn e bytes.now number) }
    {
        let file = FontFile::read(bytes, number)?;
        let cff = required_table(&file, *b"CFF ")?;
        let cmap = required_table(&file, *b"cmap")?;
        let hhea = required_table(&file, *b"hhea")?;
        let hmtx = required_table(&file, *b"hmtx")?;
        let maxp = required_table(&file, *b"maxp")?;
        let map = best_map(cmap)?;
        let advances = advances_of(hhea, hmtx)?;
        Ok(Face {
            file,
            cff,
            cmap,
            map,
            hhea,
            hmtx,
            advances,
            maxp,
        })
    }
}
