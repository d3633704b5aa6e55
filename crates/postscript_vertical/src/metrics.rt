//! The `vhea` and the `vmtx` table of the kept glyphs.
ghost use Rattle.std.specs.Prelude.{◌≡◌, ◌<◌, ◌≤◌, [], length, IfErr, IfOk};
ghost use Rattle.postscript_vertical.specs.Metrics.{AreMetricsOf, HaveMetrics, IsHeader, KeepsMetrics, advance_of as the_advance, bearing_at as the_offset, bearing_of as the_bearing, metrics_in as the_metrics};
ghost use Rattle.postscript_vertical.specs.Refusals.{RefusesMetrics};
ghost use Rattle.postscript_vertical.specs.declared.error.Error.TheVariants as errors;

use crate::error::{Error, Result};
use crate::numbers::{put_pair, put_word, word};
use std::alloc::Global;

/// Returns the advance height of a glyph.
fn advance_of(vmtx: &[u8], metrics: usize, glyph: usize) -> u16
    requires some { 0 < metrics }
    requires few { metrics < 65536 }
    ensures { result ≡ the_advance vmtx.now metrics glyph }
{
    word(vmtx, glyph.min(metrics - 1) * 4) as u16
}

/// Returns the offset of the top side bearing of a glyph.
fn bearing_at(metrics: usize, glyph: usize) -> usize
    requires few { metrics < 65536 }
    requires glyph { glyph < 65536 }
    ensures exact { result ≡ the_offset metrics glyph }
    ensures small { result < 1048576 }
{
    if glyph < metrics {
        glyph * 4 + 2
    } else {
        (glyph + metrics) * 2
    }
}

/// Returns the top side bearing of a glyph, or 0 if it is truncated.
fn bearing_of(vmtx: &[u8], metrics: usize, glyph: usize) -> u16
    requires few { metrics < 65536 }
    requires glyph { glyph < 65536 }
    ensures { result ≡ the_bearing vmtx.now metrics glyph }
{
    let offset = bearing_at(metrics, glyph);
    if vmtx.len() < offset + 2 {
        0
    } else {
        word(vmtx, offset) as u16
    }
}

/// Writes a `vmtx` table with the metrics of the origins.
fn metrics_of(alloc: Global, vmtx: &[u8], metrics: usize, origins: &[u16]) -> Result<Vec<u8>>
    requires some { 0 < metrics }
    requires few { metrics < 65536 }
    ensures exact { IfOk result (λ new. AreMetricsOf vmtx.now metrics origins.now new.items) }
    ensures memory { IfErr result (λ e. e ≡ errors.Memory) }
{
    let mut new = Vec::new(alloc);
    for origin in origins {
        let glyph = *origin as usize;
        let advance = advance_of(vmtx, metrics, glyph);
        put_pair(&mut new, advance, bearing_of(vmtx, metrics, glyph))?;
    }
    Ok(new)
}

/// Returns a `vhea` table with another number of metrics.
fn with_metrics(alloc: Global, vhea: &[u8], metrics: u16) -> Result<Vec<u8>>
    requires { 36 ≤ length vhea.now }
    ensures exact { IfOk result (λ new. IsHeader vhea.now metrics new.items) }
    ensures memory { IfErr result (λ e. e ≡ errors.Memory) }
{
    let mut new = Vec::new(alloc);
    new.extend_from_slice(&vhea[0..34])?;
    put_word(&mut new, metrics)?;
    new.extend_from_slice(&vhea[36..])?;
    Ok(new)
}

/// Returns the number of metrics of tables that can be read.
fn metrics_in(vhea: &[u8], vmtx: &[u8]) -> Result<usize>
    ensures exact { IfOk result (λ metrics. HaveMetrics vhea.now vmtx.now) }
    ensures number { IfOk result (λ metrics. metrics ≡ the_metrics vhea.now) }
    ensures few { IfOk result (λ metrics. metrics < 65536) }
    ensures why { IfErr result (λ e. RefusesMetrics e vhea.now vmtx.now []) }
{
    if vhea.len() < 36 {
        return Err(Error::TruncatedHeader);
    }
    let metrics = word(vhea, 34);
    if metrics == 0 {
        return Err(Error::NoMetrics);
    }
    if vmtx.len() < metrics * 4 {
        return Err(Error::TruncatedMetrics);
    }
    Ok(metrics)
}

/// Returns the `vhea` and the `vmtx` table of the kept glyphs.
///
/// `origins` has the old numbers of the glyphs. The new number of a glyph is its index there. The new `vhea` table is the
/// old one, apart from its number of metrics. In the new `vmtx` table each glyph has the advance height and the top side
/// bearing that its origin has in the old one. A bearing past the end of the old table is 0.
///
/// # Errors
///
/// - `Memory`: out of memory.
/// - `TooManyGlyphs`: there are more than 65,535 glyphs.
/// - `TruncatedHeader`: `vhea` has fewer than 36 bytes.
/// - `NoMetrics`: `vhea` counts no metrics.
/// - `TruncatedMetrics`: `vmtx` ends before the last of the metrics that `vhea` counts.
pub fn kept_metrics(
    alloc: Global,
    vhea: &[u8],
    vmtx: &[u8],
    origins: &[u16],
) -> Result<(Vec<u8>, Vec<u8>)>
    // Each new glyph has the advance height and bearing of its origin. The rest is unchanged.
    ensures kept { IfOk result (λ new. KeepsMetrics vhea.now vmtx.now origins.now new.0.items new.1.items) }
    // There are at most 65,535 glyphs.
    ensures few { IfOk result (λ new. length origins.now < 65536) }
    // An error has its cause.
    ensures why { IfErr result (λ e. RefusesMetrics e vhea.now vmtx.now origins.now) }
{
    if origins.len() > 65535 {
        return Err(Error::TooManyGlyphs);
    }
    let metrics = metrics_in(vhea, vmtx)?;
    let new_vhea = with_metrics(alloc, vhea, origins.len() as u16)?;
    let new_vmtx = metrics_of(alloc, vmtx, metrics, origins)?;
    Ok((new_vhea, new_vmtx))
}
