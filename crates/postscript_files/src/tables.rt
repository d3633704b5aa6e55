//! Files of tables.
ghost use Rattle.std.specs.Prelude.{◌≡◌, ℕ, ◌<◌, ◌≤◌, length, IfOk, IfErr, IfSome, IfNone, MatchOption};
ghost use Rattle.postscript_sfnt.specs.Lent.{HasNoTable, IsTableOf};
ghost use Rattle.postscript_files.specs.Copies.{HasNeighbours, IsFileOf, NoFileOf, NoNeighbours, tagged};
ghost use Rattle.postscript_files.specs.Refused.{IsTooMuch};
ghost use Rattle.postscript_sfnt_write.specs.Files.{AreLent, IsSoundFile, Opens};
ghost use Rattle.postscript_sfnt_write.specs.Tables.{TagsRise, size_of};
ghost use Rattle.postscript_files.specs.declared.error.Error.TheVariants as errors;

use crate::error::{Error, Result};
use postscript_sfnt::FontFile;
use postscript_sfnt_write::{Table, file_of};
use std::alloc::Global;

/// Returns the table with a tag, if the face has one.
pub(crate) fn table_of<'t>(file: &FontFile<'t>, tag: u32) -> Option<&'t [u8]>
    ensures { MatchOption result (HasNoTable file.now tag) (λ table. IsTableOf file.now tag table.now) }
{
    file.table(tag.to_be_bytes())
}

/// Returns the first tag that two neighbours have.
fn twice(tables: &[Table<'_>]) -> Option<u32>
    ensures found { IfSome result (λ tag. HasNeighbours tables.now tag) }
    ensures none { IfNone result (NoNeighbours tables.now) }
{
    for i in 1..tables.len() {
        if tables[i].tag == tables[i - 1].tag {
            return Some(tables[i].tag);
        }
    }
    None
}

/// Writes a file of tables whose tags are in ascending order.
fn write_sorted(alloc: Global, tables: &[Table<'_>]) -> Result<Vec<u8>>
    requires { TagsRise tables.now }
    ensures opens { IfOk result (λ file. Opens file.items (length tables.now)) }
    ensures lent { IfOk result (λ file. AreLent file.items tables.now) }
    ensures size { IfOk result (λ file. length file.items ≡ size_of tables.now) }
    ensures sound { IfOk result (λ file. 0 < length tables.now → IsSoundFile file.items) }
    ensures refused { IfErr result (λ e. IsTooMuch e tables.now) }
{
    match file_of(alloc, tables) {
        Ok(file) => Ok(file),
        Err(postscript_sfnt_write::Error::TooManyTables) => Err(Error::TooLarge),
        Err(postscript_sfnt_write::Error::TooLarge) => Err(Error::TooLarge),
        Err(_) => Err(Error::Memory),
    }
}

/// Writes a file of tables, sorted by their tags.
pub(crate) fn file_with(alloc: Global, tables: &[Table<'_>]) -> Result<Vec<u8>>
    ensures file { IfOk result (λ file. IsFileOf tables.now file.items) }
    ensures refused { IfErr result (λ e. NoFileOf e tables.now) }
    ensures once { IfErr result (λ e. e ≡ errors.TooLarge → (tag : ℕ) → tagged tables.now tag ≤ 1) }
{
    let mut sorted = Vec::from_slice(alloc, tables)?;
    sorted.sort_by_key(|table: &Table<'_>| table.tag)?;
    match twice(sorted.as_slice()) {
        Some(tag) => Err(Error::SameTag(tag)),
        None => write_sorted(alloc, sorted.as_slice()),
    }
}
