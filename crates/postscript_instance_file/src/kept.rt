//! The tables that a static font copies.
use crate::values::word;
use postscript_base::index::number::number_within;
use postscript_sfnt::FontFile;
use postscript_sfnt_write::Table;
use std::alloc::AllocError;

/// The condition for copying a table.
#[derive(Clone, Copy)]
enum Where {
    Always,
    /// The table has no offset of a variation store: its minor version is lower, or the offset at this position is 0.
    Still(u16, usize),
    /// The same, and `GDEF` has no variation store for the device tables.
    StillByDevices(u16, usize),
    /// Its major version is 0.
    First,
    /// There is no `VVAR` table.
    Upright,
}

/// The tables that are copied, with their conditions.
const SAME: [([u8; 4], Where); 15] = [
    (*b"BASE", Where::Still(1, 8)),
    (*b"COLR", Where::First),
    (*b"CPAL", Where::Always),
    (*b"GDEF", Where::Still(3, 14)),
    (*b"GPOS", Where::StillByDevices(1, 10)),
    (*b"GSUB", Where::Still(1, 10)),
    (*b"JSTF", Where::StillByDevices(1, 0)),
    (*b"MATH", Where::StillByDevices(1, 0)),
    (*b"SVG ", Where::Always),
    (*b"VORG", Where::Upright),
    (*b"cmap", Where::Always),
    (*b"gasp", Where::Always),
    (*b"kern", Where::Always),
    (*b"meta", Where::Always),
    (*b"vmtx", Where::Upright),
];

/// Returns whether a table has no variation store: its offset is at `place`, from a minor version on.
fn is_still(table: &[u8], minor: u16, place: usize) -> bool {
    word(table, 2) < minor || number_within(table, place, 4).unwrap_or(1) == 0
}

/// Returns whether `GDEF` has no variation store.
fn has_no_store(file: &FontFile<'_>) -> bool {
    match file.table(*b"GDEF") {
        Some(table) => is_still(table, 3, 14),
        None => true,
    }
}

/// Returns a table if it is copied.
fn copied_table<'l>(file: &FontFile<'l>, tag: [u8; 4], condition: Where) -> Option<&'l [u8]> {
    let table = file.table(tag)?;
    let stays = match condition {
        Where::Always => true,
        Where::Still(minor, place) => is_still(table, minor, place),
        Where::StillByDevices(minor, place) => {
            is_still(table, minor, place) && has_no_store(file)
        }
        Where::First => word(table, 0) == 0,
        Where::Upright => file.table(*b"VVAR").is_none(),
    };
    if stays { Some(table) } else { None }
}

/// Adds the tables that are copied.
pub(crate) fn put<'l>(tables: &mut Vec<Table<'l>>, file: &FontFile<'l>) -> Result<(), AllocError> {
    for (tag, condition) in &SAME {
        if let Some(bytes) = copied_table(file, *tag, *condition) {
            let tag = u32::from_be_bytes(*tag);
            tables.push(Table { tag, bytes })?;
        }
    }
    Ok(())
}
