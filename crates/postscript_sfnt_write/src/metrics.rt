//! Writes metrics (ISO/IEC 14496-22, `hhea`, `hmtx`, `maxp` and `post`).
ghost use Rattle.std.specs.Prelude.{◌≡◌, ℕ, ◌+◌, ◌*◌, ◌<◌, ◌≤◌, ◌++◌, length, take, drop, replicate, OnOk, IfOk, IfErr};
ghost use Rattle.postscript_base.specs.Index.{number_at as the_number};
ghost use Rattle.postscript_sfnt.specs.Metrics.{IsGlyphs, IsWord};
ghost use Rattle.postscript_sfnt_write.specs.Layout.{MetricsFit, MetricFits, metric_text, metrics_text};
ghost use Rattle.postscript_sfnt_write.specs.Metrics.{CanBeRead, IsCutBelow, KeepsBut, TellsAdvances, TellsBearings};
ghost use Rattle.postscript_sfnt_write.specs.Numbers.{uint16 as the_uint16};

use crate::error::{Error, Result};
use crate::numbers::{put_uint16, put_uint32};
use std::alloc::{AllocError, Global};

/// The advance width and the left side bearing of a glyph, in font units.
#[derive(Clone, Copy, Debug, Drop, PartialEq, Eq)]
pub struct Metric {
    pub advance: u16,
    pub bearing: i16,
}

/// Appends a metric.
#[tactic(auto, unfolding(crate::specs::Layout::metric_text))]
fn put_metric(out: &mut Vec<u8>, metric: Metric) -> std::result::Result<(), AllocError>
    ensures text { OnOk result (out.new.items ≡ out.old.items ++ metric_text metric) }
    ensures fits { MetricFits metric }
{
    put_uint16(out, metric.advance)?;
    put_uint16(out, metric.bearing.cast_unsigned())
}

/// Writes an `hmtx` table with an advance width for each glyph.
///
/// # Errors
///
/// - `AllocError`: out of memory.
pub fn hmtx(alloc: Global, metrics: &[Metric]) -> std::result::Result<Vec<u8>, AllocError>
    // The table has four bytes for each glyph.
    ensures size { IfOk result (λ table. length table.items ≡ length metrics.now * 4) }
    // It can be read with an `hhea` table that counts at least one metric and at most these.
    ensures read { IfOk result (λ table. CanBeRead table.items metrics.now) }
    // With it, the advance width of each counted glyph is the given one.
    ensures advances { IfOk result (λ table. TellsAdvances table.items metrics.now) }
    // The left side bearing of each glyph follows its advance width.
    ensures bearings { IfOk result (λ table. TellsBearings table.items metrics.now) }
{
    let table = put_metrics(alloc, metrics)?;
    Ok(table)
}

/// Writes metrics one after the other.
fn put_metrics(alloc: Global, metrics: &[Metric]) -> std::result::Result<Vec<u8>, AllocError>
    ensures text { IfOk result (λ table. table.items ≡ metrics_text metrics.now) }
    ensures fit { OnOk result (MetricsFit metrics.now) }
{
    let mut table = Vec::new(alloc);
    for metric in metrics {
        put_metric(&mut table, *metric)?;
    }
    Ok(table)
}

/// Replaces the number of two bytes at an offset.
fn with_number(
    alloc: Global,
    table: &[u8],
    place: usize,
    number: u16,
) -> std::result::Result<Vec<u8>, AllocError>
    requires { place + 2 ≤ length table.now }
    ensures { IfOk result (λ new. new.items ≡ take place table.now ++ (the_uint16 number ++ drop (place + 2) table.now)) }
{
    let mut new = Vec::new(alloc);
    new.extend_from_slice(&table[..place])?;
    put_uint16(&mut new, number)?;
    new.extend_from_slice(&table[place + 2..])?;
    Ok(new)
}

/// Returns an `hhea` table with another number of metrics in `hmtx`, and otherwise unchanged.
///
/// # Errors
///
/// - `Cut`: the table has fewer than 36 bytes.
/// - `Memory`: out of memory.
pub fn with_number_of_metrics(alloc: Global, hhea: &[u8], metrics: u16) -> Result<Vec<u8>>
    // The new table has this number of metrics.
    ensures told { IfOk result (λ new. IsWord new.items 34 metrics) }
    // The length and all other bytes are unchanged.
    ensures kept { IfOk result (λ new. KeepsBut 34 hhea.now new.items) }
    // The only errors are `Memory`, and `Cut` for a table of fewer than 36 bytes.
    ensures refused { IfErr result (λ e. IsCutBelow 36 hhea.now e) }
{
    if hhea.len() < 36 {
        return Err(Error::Cut);
    }
    let new = with_number(alloc, hhea, 34, metrics)?;
    Ok(new)
}

/// Returns a `maxp` table with another number of glyphs, and otherwise unchanged.
///
/// # Errors
///
/// - `Cut`: the table has fewer than 6 bytes.
/// - `Memory`: out of memory.
pub fn with_number_of_glyphs(alloc: Global, maxp: &[u8], glyphs: u16) -> Result<Vec<u8>>
    // The new table has this number of glyphs.
    ensures told { IfOk result (λ new. IsGlyphs new.items glyphs) }
    // The length and all other bytes are unchanged.
    ensures kept { IfOk result (λ new. KeepsBut 4 maxp.now new.items) }
    // The only errors are `Memory`, and `Cut` for a table of fewer than 6 bytes.
    ensures refused { IfErr result (λ e. IsCutBelow 6 maxp.now e) }
{
    if maxp.len() < 6 {
        return Err(Error::Cut);
    }
    let new = with_number(alloc, maxp, 4, glyphs)?;
    Ok(new)
}

/// Returns the first 32 bytes of a `post` table as version 3.0, which has no glyph names. Only the version is changed.
///
/// # Errors
///
/// - `Cut`: the table has fewer than 32 bytes.
/// - `Memory`: out of memory.
pub fn without_names(alloc: Global, post: &[u8]) -> Result<Vec<u8>>
    // The version of the new table is 3.0.
    ensures version { IfOk result (λ new. the_number new.items 0 4 ≡ 0x00030000) }
    // After the version the new table has the bytes of the old one up to offset 32.
    ensures kept { IfOk result (λ new. drop 4 new.items ≡ drop 4 (take 32 post.now)) }
    // The only errors are `Memory`, and `Cut` for a table of fewer than 32 bytes.
    ensures refused { IfErr result (λ e. IsCutBelow 32 post.now e) }
{
    if post.len() < 32 {
        return Err(Error::Cut);
    }
    let mut new = Vec::new(alloc);
    put_uint32(&mut new, 0x00030000)?;
    new.extend_from_slice(&post[4..32])?;
    Ok(new)
}
