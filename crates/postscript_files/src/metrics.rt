//! The metrics of glyphs.
ghost use Rattle.std.specs.Prelude.{◌≡◌, ℕ, ◌+◌, ◌*◌, ◌<◌, ◌≤◌, length, map, IfOk, IfErr};
ghost use Rattle.postscript_base.specs.Index.{number_at as the_number};
ghost use Rattle.postscript_files.specs.Measures.{bearing_in, bearing_place, metric_in};
ghost use Rattle.postscript_files.specs.Origins.{AreSmall};
ghost use Rattle.postscript_files.specs.declared.error.Error.TheVariants as errors;

use crate::error::Result;
use postscript_base::index::number::{number_at, number_within};
use postscript_sfnt::Advances;
use postscript_sfnt_write::Metric;
use std::alloc::Global;

/// Returns the offset of a left side bearing in an `hmtx` table with this number of advances.
fn place_of(advances: usize, glyph: usize) -> usize
    requires advances { advances < 65536 }
    requires glyph { glyph < 65536 }
    ensures place { result ≡ bearing_place advances glyph }
    ensures small { result < 1048576 }
{
    if glyph < advances {
        glyph * 4 + 2
    } else {
        (glyph + advances) * 2
    }
}

/// Returns the left side bearing of a glyph, or 0 if it is truncated.
fn bearing(hmtx: &[u8], advances: usize, glyph: usize) -> i16
    requires advances { advances < 65536 }
    requires glyph { glyph < 65536 }
    ensures { result ≡ bearing_in hmtx.now advances glyph }
{
    let place = place_of(advances, glyph);
    if hmtx.len() < place + 2 {
        return 0;
    }
    (number_at(hmtx, place, 2) as u16).cast_signed()
}

/// Returns the metrics of a glyph.
fn metric(advances: &Advances<'_>, hmtx: &[u8], count: usize, glyph: usize) -> Metric
    requires count { count < 65536 }
    requires glyph { glyph < 65536 }
    ensures { result ≡ metric_in advances.now hmtx.now count glyph }
{
    Metric {
        advance: advances.of(glyph as u16),
        bearing: bearing(hmtx, count, glyph),
    }
}

/// Returns the number of advances in an `hhea` table, or 0 if it is truncated.
fn advances_told(hhea: &[u8]) -> usize
    ensures small { result < 65536 }
    ensures told { 36 ≤ length hhea.now → result ≡ the_number hhea.now 34 2 }
{
    if hhea.len() < 36 {
        return 0;
    }
    number_at(hhea, 34, 2)
}

/// Returns the metrics of the new glyphs, given the number of old advances.
fn metrics_of(
    alloc: Global,
    advances: &Advances<'_>,
    hmtx: &[u8],
    count: usize,
    origins: &[usize],
) -> Result<Vec<Metric>>
    requires count { count < 65536 }
    requires small { AreSmall origins.now }
    ensures metrics { IfOk result (λ metrics. metrics.items ≡ map (metric_in advances.now hmtx.now count) origins.now) }
    ensures memory { IfErr result (λ e. e ≡ errors.Memory) }
{
    let mut metrics = Vec::new(alloc);
    for glyph in origins {
        metrics.push(metric(advances, hmtx, count, *glyph))?;
    }
    Ok(metrics)
}

/// Returns the metrics of the new glyphs, which are those of their origins.
pub(crate) fn metrics(
    alloc: Global,
    hhea: &[u8],
    hmtx: &[u8],
    advances: &Advances<'_>,
    origins: &[usize],
) -> Result<Vec<Metric>>
    requires room { 36 ≤ length hhea.now }
    requires small { AreSmall origins.now }
    ensures metrics { IfOk result (λ metrics. metrics.items ≡ map (metric_in advances.now hmtx.now (the_number hhea.now 34 2)) origins.now) }
    ensures memory { IfErr result (λ e. e ≡ errors.Memory) }
{
    let count = advances_told(hhea);
    metrics_of(alloc, advances, hmtx, count, origins)
}
