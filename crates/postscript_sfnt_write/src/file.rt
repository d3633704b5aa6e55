//! Writes OpenType files (ISO/IEC 14496-22, 4.5).
ghost use Rattle.std.specs.Prelude.{◌≡◌, ℕ, ◌+◌, ◌*◌, ◌%◌, ◌^◌, ◌<◌, ◌++◌, length, true, IsTrue, ◌↔◌, OnOk, IfOk, IfErr};
ghost use Rattle.postscript_sfnt_write.specs.Checksum.{checksum as the_checksum};
ghost use Rattle.postscript_sfnt_write.specs.Files.{AreLent, AreListed, ArePacked, CanStand, IsAdjusted, IsSearched, IsSoundFile, Opens, Refuses};
ghost use Rattle.postscript_sfnt_write.specs.Layout.{IsSelector, IsWritten, checksums, header_text, record_text, records_text, table_text, tables_text, zeros as the_zeros};
ghost use Rattle.postscript_sfnt_write.specs.Tables.{AreTagged, TagsRise, adjusts as the_adjusts, in_file, room_of as the_room_of, size_of};

use crate::checksums::checksum;
use crate::error::{Error, Result};
use crate::numbers::{put_uint16, put_uint32};
use std::alloc::{AllocError, Global};

/// The version of a file with a `CFF ` table.
const OTTO: u32 = 0x4f54544f;

/// The checksum of a whole file.
const WHOLE: u32 = 0xb1b0afba;

/// The tag of the `head` table.
const HEAD: u32 = 0x68656164;

/// The maximum size of a file in bytes.
const MOST: usize = 0xffff_ffff;

/// A table of a file. Its tag is the big-endian number of its four characters.
#[derive(Clone, Copy)]
pub struct Table<'t> {
    pub tag: u32,
    pub bytes: &'t [u8],
}

/// Whether the table contains the checksum adjustment of the file.
fn adjusts(table: &Table<'_>) -> bool
    ensures { result ≡ the_adjusts table.now }
{
    table.tag == HEAD && table.bytes.len() > 11
}

/// The size of a table with its padding.
fn room_of(size: usize) -> usize
    requires { size < 2 ^ 32 }
    ensures { result ≡ the_room_of size }
{
    (size + 3) / 4 * 4
}

/// Whether tags are in strictly ascending order.
fn rise(tables: &[Table<'_>]) -> bool
    ensures { IsTrue result ↔ TagsRise tables.now }
{
    for i in 1..tables.len() {
        if tables[i].tag <= tables[i - 1].tag {
            return false;
        }
    }
    true
}

/// Whether a file with these tables has fewer than 2^32 bytes.
fn fits(tables: &[Table<'_>]) -> bool
    requires { length tables.now < 4096 }
    ensures { IsTrue result ↔ (size_of tables.now < 2 ^ 32) }
{
    let mut size = 12 + tables.len() * 16;
    for table in tables {
        if table.bytes.len() > MOST {
            return false;
        }
        size += room_of(table.bytes.len());
        if size > MOST {
            return false;
        }
    }
    true
}

/// The padding after a table of a given size.
fn zeros(size: usize) -> &'static [u8]
    ensures { result.now ≡ the_zeros size }
{
    match size % 4 {
        1 => &[0, 0, 0],
        2 => &[0, 0],
        3 => &[0],
        _ => &[],
    }
}

/// The checksum of a table, with 0 as the checksum adjustment.
fn table_checksum(table: &Table<'_>) -> u32
    ensures { result ≡ the_checksum (in_file 0 table.now) }
{
    if adjusts(table) {
        checksum(&table.bytes[..8]).wrapping_add(checksum(&table.bytes[12..]))
    } else {
        checksum(table.bytes)
    }
}

/// Appends the header of a file with a given number of tables.
#[tactic(auto, unfolding(crate::specs::Layout::header_text))]
fn put_header(out: &mut Vec<u8>, count: u16, selector: u32) -> std::result::Result<(), AllocError>
    requires counted { count < 4096 }
    requires selected { 2 ^ selector * 16 < 2 ^ 16 }
    requires small { selector < 16 }
    ensures { OnOk result (out.new.items ≡ out.old.items ++ header_text count selector) }
{
    let range = (1u16 << selector) * 16;
    put_uint32(out, OTTO)?;
    put_uint16(out, count)?;
    put_uint16(out, range)?;
    put_uint16(out, selector as u16)?;
    put_uint16(out, (count * 16).saturating_sub(range))
}

/// Appends the record of a table at an offset, and returns its checksum.
#[tactic(auto, unfolding(crate::specs::Layout::record_text))]
fn put_record(
    out: &mut Vec<u8>,
    table: &Table<'_>,
    place: u32,
) -> std::result::Result<u32, AllocError>
    requires { length table.now.bytes.now < 2 ^ 32 }
    ensures text { OnOk result (out.new.items ≡ out.old.items ++ record_text place table.now) }
    ensures sum { IfOk result (λ sum. sum ≡ the_checksum (in_file 0 table.now)) }
    ensures tagged { table.now.tag < 2 ^ 32 }
{
    let sum = table_checksum(table);
    put_uint32(out, table.tag)?;
    put_uint32(out, sum)?;
    put_uint32(out, place)?;
    put_uint32(out, table.bytes.len() as u32)?;
    Ok(sum)
}

/// Appends the records of tables that follow the records, and returns the sum of their checksums.
fn put_records(out: &mut Vec<u8>, tables: &[Table<'_>]) -> std::result::Result<u32, AllocError>
    requires counted { length tables.now < 4096 }
    requires fits { size_of tables.now < 2 ^ 32 }
    ensures text { OnOk result (out.new.items ≡ out.old.items ++ records_text (12 + length tables.now * 16) tables.now) }
    ensures sum { IfOk result (λ sum. sum ≡ checksums tables.now % 2 ^ 32) }
    ensures tagged { OnOk result (AreTagged tables.now) }
{
    let mut place = 12 + tables.len() * 16;
    let mut sum = 0u32;
    for table in tables {
        sum = sum.wrapping_add(put_record(out, table, place as u32)?);
        place += room_of(table.bytes.len());
    }
    Ok(sum)
}

/// Appends a table with this checksum adjustment, and its padding.
#[tactic(auto, unfolding(crate::specs::Layout::table_text))]
fn put_table(
    out: &mut Vec<u8>,
    table: &Table<'_>,
    adjustment: u32,
) -> std::result::Result<(), AllocError>
    ensures { OnOk result (out.new.items ≡ out.old.items ++ table_text adjustment table.now) }
{
    if adjusts(table) {
        out.extend_from_slice(&table.bytes[..8])?;
        put_uint32(out, adjustment)?;
        out.extend_from_slice(&table.bytes[12..])?;
    } else {
        out.extend_from_slice(table.bytes)?;
    }
    out.extend_from_slice(zeros(table.bytes.len()))
}

/// Appends tables.
fn put_tables(
    out: &mut Vec<u8>,
    tables: &[Table<'_>],
    adjustment: u32,
) -> std::result::Result<(), AllocError>
    ensures { OnOk result (out.new.items ≡ out.old.items ++ tables_text adjustment tables.now) }
{
    for table in tables {
        put_table(out, table, adjustment)?;
    }
    Ok(())
}

/// The logarithm of the greatest power of two up to a number, or 0 for 0.
fn selector_of(count: u16) -> u32
    requires { count < 4096 }
    ensures { IsSelector count result }
{
    match count.checked_ilog2() {
        Some(selector) => selector,
        None => 0,
    }
}

/// Writes a file of tables.
fn write_tables(alloc: Global, tables: &[Table<'_>]) -> std::result::Result<Vec<u8>, AllocError>
    requires counted { length tables.now < 4096 }
    requires fits { size_of tables.now < 2 ^ 32 }
    ensures { IfOk result (λ file. IsWritten tables.now file.items) }
{
    let mut file = Vec::new(alloc);
    let count = tables.len() as u16;
    put_header(&mut file, count, selector_of(count))?;
    let sums = put_records(&mut file, tables)?;
    let adjustment = WHOLE
        .wrapping_sub(checksum(file.as_slice()))
        .wrapping_sub(sums);
    put_tables(&mut file, tables, adjustment)?;
    Ok(file)
}

/// Writes a font file with these tables, whose tags must be in strictly ascending order.
///
/// The tables follow the directory, each at a multiple of four bytes. In the `head` table the bytes 8 to 11
/// are replaced by the `checkSumAdjustment` of the file. The version is `OTTO`.
///
/// # Errors
///
/// - `TagsDoNotRise`: the tags are not in strictly ascending order.
/// - `TooManyTables`: there are 4,096 tables or more.
/// - `TooLarge`: the file would have 2^32 bytes or more.
/// - `Memory`: out of memory.
pub fn file_of(alloc: Global, tables: &[Table<'_>]) -> Result<Vec<u8>>
    // The file has one face of version `OTTO`, and its directory counts exactly the given tables.
    ensures opens { IfOk result (λ file. Opens file.items (length tables.now)) }
    // Record `i` of the directory has the tag, the checksum and the length of table `i`.
    ensures listed { IfOk result (λ file. AreListed file.items tables.now) }
    // The face that is read from the file has exactly these tables in order, byte for byte.
    ensures lent { IfOk result (λ file. AreLent file.items tables.now) }
    // Tables are at multiples of four, in order, without gaps apart from zeros as padding.
    ensures packed { IfOk result (λ file. ArePacked file.items (length tables.now)) }
    // The header has the right `searchRange`, `entrySelector` and `rangeShift` if tables exist.
    ensures searched { 0 < length tables.now → IfOk result (λ file. IsSearched file.items (length tables.now)) }
    // With a `head` table of 12 bytes or more, the checksum of the whole file is 0xB1B0AFBA.
    ensures adjusted { IfOk result (λ file. IsAdjusted file.items tables.now) }
    // The size is the sum of the header, the records and the padded tables.
    ensures size { IfOk result (λ file. length file.items ≡ size_of tables.now) }
    // Records, checksums, offsets and search fields are right, and tags ascend, if tables exist.
    ensures sound { IfOk result (λ file. 0 < length tables.now → IsSoundFile file.items) }
    // A success means ascending tags, fewer than 4,096 tables and fewer than 2^32 bytes.
    ensures stand { OnOk result (CanStand tables.now) }
    // An error is justified by the tags, the number of tables or the size, or it is `Memory`.
    ensures refused { IfErr result (λ e. Refuses e tables.now) }
{
    if !rise(tables) {
        return Err(Error::TagsDoNotRise);
    }
    if tables.len() > 4095 {
        return Err(Error::TooManyTables);
    }
    if !fits(tables) {
        return Err(Error::TooLarge);
    }
    let file = write_tables(alloc, tables)?;
    Ok(file)
}
