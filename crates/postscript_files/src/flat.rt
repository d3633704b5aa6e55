//! Files of a face without subroutines.
ghost use Rattle.std.specs.Prelude.{◌≡◌, ◌≢◌, ℕ, ◌<◌, List, length, OnOk, IfOk, IfErr, IsTrue, ◌↔◌, ◌⊎◌, ◌≤◌, drop};
ghost use Rattle.std.specs.List.{sum_by};
ghost use Rattle.postscript_sfnt.specs.Lent.{IsTableOf, tables_of, tag_of};
ghost use Rattle.postscript_write.specs.declared.error.Error.{Error as Refusal};
ghost use Rattle.postscript_files.specs.Flats.{IsFlatFont, IsFlatOf, IsFlatRefusedBy, NoFlatOf, StayingHaveMore};
ghost use Rattle.postscript_sfnt_write.specs.declared.file.Table.{Table as Table_};
ghost use Rattle.postscript_files.specs.Others.{AreListedTo, AreOthers, Has, IsFileWith, IsUnwritten};
ghost use Rattle.postscript_files.specs.declared.error.Error.TheVariants as errors;

use crate::error::{Error, Result};
use crate::face::required_table;
use crate::tables::{file_with, table_of};
use postscript_sfnt::FontFile;
use postscript_sfnt_write::Table;
use postscript_write::flat_font;
use std::alloc::Global;

/// The tag of the table that is written again.
const CFF: u32 = 0x43464620;

/// The tag of the digital signature, which would not be valid for the new file.
const DSIG: u32 = 0x44534947;

/// Returns true if there is a table with the tag.
fn has(tables: &[Table<'_>], tag: u32) -> bool
    ensures { IsTrue result ↔ Has tables.now tag }
{
    for table in tables {
        if table.tag == tag {
            return true;
        }
    }
    false
}

/// Adds a table of a face, if it stays and is not in the list yet.
fn put_other<'t>(
    tables: &mut Vec<Table<'t>>,
    file: &FontFile<'t>,
    font: &[u8],
    tag: u32,
) -> Result<()>
    requires { AreOthers file.now font.now tables.old.items }
    ensures others { OnOk result (AreOthers file.now font.now tables.new.items) }
    ensures kept { OnOk result ((t : ℕ) → Has tables.old.items t → Has tables.new.items t) }
    ensures there { OnOk result ((tag ≢ 0x44534947) → (table : List ℕ) → IsTableOf file.now tag table → Has tables.new.items tag) }
    ensures memory { IfErr result (λ e. e ≡ errors.Memory) }
{
    if tag != DSIG && !has(tables.as_slice(), tag) {
        if let Some(bytes) = table_of(file, tag) {
            tables.push(Table { tag, bytes })?;
        }
    }
    Ok(())
}

/// Returns the tag of a record of a face.
fn tag_at(file: &FontFile<'_>, i: usize) -> u32
    requires { i < tables_of file.now }
    ensures { result ≡ tag_of file.now i }
{
    match file.tag(i) {
        Some(tag) => tag,
        None => DSIG,
    }
}

/// Adds the first table of each tag of a face, without its signature.
fn put_others<'t>(tables: &mut Vec<Table<'t>>, file: &FontFile<'t>, font: &[u8]) -> Result<()>
    requires { AreOthers file.now font.now tables.old.items }
    ensures others { OnOk result (AreOthers file.now font.now tables.new.items) }
    ensures listed { OnOk result (AreListedTo file.now (tables_of file.now) tables.new.items) }
    ensures memory { IfErr result (λ e. e ≡ errors.Memory) }
{
    for i in 0..file.tables() {
        put_other(tables, file, font, tag_at(file, i))?;
    }
    Ok(())
}

/// Returns the number of bytes of all tables but the first.
fn size(tables: &[Table<'_>]) -> usize
    ensures { result ≤ sum_by (λ (t : Table_). length t.bytes.now) (drop 1 tables.now) }
{
    let mut sum = 0usize;
    for i in 1..tables.len() {
        sum = sum.saturating_add(tables[i].bytes.len());
    }
    sum
}

/// Returns a `CFF ` table without subroutines.
fn font_of(alloc: Global, cff: &[u8]) -> Result<Vec<u8>>
    ensures font { IfOk result (λ font. IsFlatFont cff.now font.items) }
    ensures refused { IfErr result (λ e. (fault : Refusal) × (e ≡ errors.Font fault) × IsFlatRefusedBy cff.now fault) }
{
    match flat_font(alloc, cff) {
        Ok(font) => Ok(font),
        Err(error) => Err(Error::Font(error)),
    }
}

/// Returns the tables of a face with another `CFF ` table, or an error if they overlap.
fn others_of<'t>(
    alloc: Global,
    most: usize,
    face: &FontFile<'t>,
    font: &'t [u8],
) -> Result<Vec<Table<'t>>>
    ensures others { IfOk result (λ tables. AreOthers face.now font.now tables.items) }
    ensures listed { IfOk result (λ tables. AreListedTo face.now (tables_of face.now) tables.items) }
    ensures refused { IfErr result (λ e. (e ≡ errors.Memory) ⊎ ((e ≡ errors.Overlap) × StayingHaveMore face.now most)) }
{
    let mut tables = Vec::new(alloc);
    tables.push(Table {
        tag: CFF,
        bytes: font,
    })?;
    put_others(&mut tables, face, font)?;
    if size(&tables) > most {
        return Err(Error::Overlap);
    }
    Ok(tables)
}

/// Returns the file of a face with another `CFF ` table.
fn with_font(alloc: Global, most: usize, face: &FontFile<'_>, font: &[u8]) -> Result<Vec<u8>>
    ensures file { IfOk result (λ file. IsFileWith face.now font.now file.items) }
    ensures refused { IfErr result (λ e. IsUnwritten face.now most font.now e) }
{
    let tables = others_of(alloc, most, face, font)?;
    file_with(alloc, &tables)
}

/// Writes a file with one face of a file, desubroutinized.
///
/// The `CFF ` table is written by `postscript_write::flat_font`. All other tables are copied, but not a digital signature
/// (`DSIG`). Only `checkSumAdjustment` in `head` is computed again.
///
/// # Errors
///
/// - `File`: the file is malformed, or it has too few faces.
/// - `MissingTable`: the face has no `CFF ` table.
/// - `Font`: the `CFF ` table or one of its glyphs is malformed.
/// - `Overlap`: the tables of the face have more bytes together than the file.
/// - `TooLarge`: the new file would have 4,096 tables or more, or 2^32 bytes or more.
/// - `Memory`: out of memory.
pub fn flat_file(alloc: Global, file: &[u8], number: usize) -> Result<Vec<u8>>
    // The new file is sound, with one face: the font without calls, and copies of all other tables.
    ensures flat { IfOk result (λ flat. IsFlatOf file.now number flat.items) }
    // An error is justified by the file, the missing table, the font, or the size of the tables.
    ensures refused { IfErr result (λ e. NoFlatOf file.now number e) }
{
    let face = FontFile::read(file, number)?;
    let cff = required_table(&face, *b"CFF ")?;
    let font = font_of(alloc, cff)?;
    with_font(alloc, file.len(), &face, &font)
}
