//! Writes subtables of format 14.
ghost use Rattle.std.specs.Prelude.{◌≡◌, ℕ, ◌+◌, ◌*◌, ◌^◌, ◌<◌, ◌≤◌, ◌++◌, length, flat_map, sum_by, [], IfErr, IfOk, OnErr, OnOk};
ghost use Rattle.postscript_sequences.specs.Text.{defaults_text, head_text, mapped_text, mapping_text, range_text, row_text, uint16 as the_uint16, uint24 as the_uint24, uint32 as the_uint32};
ghost use Rattle.postscript_sequences.specs.Rows.{AreRowsOf, IsPlaced, IsPut, IsWritten, WriteFails};
ghost use Rattle.postscript_sequences.specs.Sizes.{size_of, table_size, tables_size};
ghost use Rattle.postscript_sequences.specs.declared.error.Error.TheVariants as errors;

use crate::error::{Error, Result};
use crate::parts::Part;
use std::alloc::{AllocError, Global};

/// A record: a variation selector, and the offsets of its two tables.
#[derive(Clone, Copy)]
pub(crate) struct Row {
    selector: u32,
    defaults: u32,
    mapped: u32,
}

/// Adds a number of two bytes.
#[tactic(auto, unfolding(crate::specs::Text::uint16))]
fn put16(out: &mut Vec<u8>, number: u16) -> std::result::Result<(), AllocError>
    ensures { OnOk result (out.new.items ≡ out.old.items ++ the_uint16 number) }
{
    out.extend_from_slice(&number.to_be_bytes())
}

/// Adds a number of three bytes.
#[tactic(auto, unfolding(crate::specs::Text::uint24))]
fn put24(out: &mut Vec<u8>, number: u32) -> std::result::Result<(), AllocError>
    ensures { OnOk result (out.new.items ≡ out.old.items ++ the_uint24 number) }
{
    out.extend_from_slice(&number.to_be_bytes()[1..])
}

/// Adds a number of four bytes.
#[tactic(auto, unfolding(crate::specs::Text::uint32))]
fn put32(out: &mut Vec<u8>, number: u32) -> std::result::Result<(), AllocError>
    ensures { OnOk result (out.new.items ≡ out.old.items ++ the_uint32 number) }
{
    out.extend_from_slice(&number.to_be_bytes())
}

/// Converts a length or an offset to four bytes.
fn long_of(number: usize) -> Result<u32>
    ensures value { IfOk result (λ long. (long ≡ number) × (long < 2 ^ 32)) }
    ensures large { OnErr result (2 ^ 32 ≤ number) }
    ensures why { IfErr result (λ e. e ≡ errors.TooLarge) }
{
    match u32::try_from(number) {
        Ok(long) => Ok(long),
        Err(_) => Err(Error::TooLarge),
    }
}

/// Adds the ranges of characters, with one character each.
fn put_ranges(out: &mut Vec<u8>, chars: &[u32]) -> std::result::Result<(), AllocError>
    ensures { OnOk result (out.new.items ≡ out.old.items ++ flat_map range_text chars.now) }
{
    for char in chars {
        put24(out, *char)?;
        out.push(0)?;
    }
    Ok(())
}

/// Adds mappings.
fn put_mappings(out: &mut Vec<u8>, mapped: &[(u32, u16)]) -> std::result::Result<(), AllocError>
    ensures { OnOk result (out.new.items ≡ out.old.items ++ flat_map mapping_text mapped.now) }
{
    for (char, glyph) in mapped {
        put24(out, *char)?;
        put16(out, *glyph)?;
    }
    Ok(())
}

/// Adds the Default UVS table of some characters, if there are any. Returns its offset, or 0.
fn put_defaults(out: &mut Vec<u8>, base: usize, chars: &[u32]) -> Result<u32>
    requires base { 0 < base }
    requires low { base < 2 ^ 48 }
    ensures placed { IfOk result (λ offset. IsPlaced base chars.now (defaults_text chars.now) out.old.items out.new.items offset) }
    ensures size { OnOk result (length out.new.items ≡ length out.old.items + table_size 4 chars.now) }
    ensures large { IfErr result (λ e. e ≡ errors.TooLarge → 2 ^ 32 ≤ base + length out.old.items + table_size 4 chars.now) }
    ensures why { IfErr result (λ e. WriteFails e) }
{
    if chars.is_empty() {
        return Ok(0);
    }
    let offset = long_of(base + out.len())?;
    put32(out, long_of(chars.len())?)?;
    put_ranges(out, chars)?;
    Ok(offset)
}

/// Adds the Non-Default UVS table of some mappings, if there are any. Returns its offset, or 0.
fn put_mapped(out: &mut Vec<u8>, base: usize, mapped: &[(u32, u16)]) -> Result<u32>
    requires base { 0 < base }
    requires low { base < 2 ^ 48 }
    ensures placed { IfOk result (λ offset. IsPlaced base mapped.now (mapped_text mapped.now) out.old.items out.new.items offset) }
    ensures size { OnOk result (length out.new.items ≡ length out.old.items + table_size 5 mapped.now) }
    ensures large { IfErr result (λ e. e ≡ errors.TooLarge → 2 ^ 32 ≤ base + length out.old.items + table_size 5 mapped.now) }
    ensures why { IfErr result (λ e. WriteFails e) }
{
    if mapped.is_empty() {
        return Ok(0);
    }
    let offset = long_of(base + out.len())?;
    put32(out, long_of(mapped.len())?)?;
    put_mappings(out, mapped)?;
    Ok(offset)
}

/// Adds the tables of a part, and returns its record.
fn put_part(out: &mut Vec<u8>, base: usize, part: &Part) -> Result<Row>
    requires base { 0 < base }
    requires low { base < 2 ^ 48 }
    ensures row { IfOk result (λ row. IsPut base part.now out.old.items out.new.items row) }
    ensures size { OnOk result (length out.new.items ≡ length out.old.items + tables_size part.now) }
    ensures large { IfErr result (λ e. e ≡ errors.TooLarge → 2 ^ 32 ≤ base + length out.old.items + tables_size part.now) }
    ensures why { IfErr result (λ e. WriteFails e) }
{
    let defaults = put_defaults(out, base, &part.defaults)?;
    let mapped = put_mapped(out, base, &part.mapped)?;
    Ok(Row {
        selector: part.selector,
        defaults,
        mapped,
    })
}

/// Adds the tables of parts to an empty list, and returns their records.
fn put_parts(alloc: Global, tables: &mut Vec<u8>, base: usize, parts: &[Part]) -> Result<Vec<Row>>
    requires base { 0 < base }
    requires low { base < 2 ^ 48 }
    requires none { tables.old.items ≡ [] }
    ensures rows { IfOk result (λ rows. AreRowsOf base parts.now rows.items tables.new.items) }
    ensures size { OnOk result (length tables.new.items ≡ sum_by tables_size parts.now) }
    ensures large { IfErr result (λ e. e ≡ errors.TooLarge → 2 ^ 32 ≤ base + sum_by tables_size parts.now) }
    ensures why { IfErr result (λ e. WriteFails e) }
{
    let mut rows = Vec::new(alloc);
    for part in parts {
        let row = put_part(tables, base, part)?;
        rows.push(row)?;
    }
    Ok(rows)
}

/// Adds the header.
fn put_head(out: &mut Vec<u8>, size: u32, count: u32) -> std::result::Result<(), AllocError>
    ensures { OnOk result (out.new.items ≡ out.old.items ++ head_text size count) }
{
    put16(out, 14)?;
    put32(out, size)?;
    put32(out, count)?;
    Ok(())
}

/// Adds records.
fn put_rows(out: &mut Vec<u8>, rows: &[Row]) -> std::result::Result<(), AllocError>
    ensures { OnOk result (out.new.items ≡ out.old.items ++ flat_map row_text rows.now) }
{
    for row in rows {
        put24(out, row.selector)?;
        put32(out, row.defaults)?;
        put32(out, row.mapped)?;
    }
    Ok(())
}

/// Returns a subtable with the sequences of parts.
pub(crate) fn write_subtable(alloc: Global, parts: &[Part]) -> Result<Vec<u8>>
    ensures written { IfOk result (λ table. IsWritten parts.now table.items) }
    ensures large { IfErr result (λ e. e ≡ errors.TooLarge → 2 ^ 32 ≤ size_of parts.now) }
    ensures why { IfErr result (λ e. WriteFails e) }
{
    let count = long_of(parts.len())?;
    let base = 10 + count as usize * 11;
    let mut tables = Vec::new(alloc);
    let rows = put_parts(alloc, &mut tables, base, parts)?;
    let end = base.saturating_add(tables.len());
    let size = long_of(end)?;
    let mut out = Vec::new(alloc);
    put_head(&mut out, size, count)?;
    put_rows(&mut out, &rows)?;
    out.extend_from_slice(&tables)?;
    Ok(out)
}
