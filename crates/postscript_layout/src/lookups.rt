//! Lookups, their subtables and the glyphs that they cover.
ghost use Rattle.std.specs.Prelude.{◌≡◌, ℕ, ◌⊎◌, ◌+◌, ◌-◌, ◌*◌, ◌^◌, ◌<◌, OnOk, IfErr, ◌≤◌};
ghost use Rattle.postscript_layout.specs.Numbers.{word as the_word};
ghost use Rattle.postscript_layout.specs.Substitutions.{ByIndex, ByLookup, BySubtable, Substitutes, SubstitutesGlyph, coverage_of as the_coverage, part_of as the_part, offset_of, type_of};
ghost use Rattle.postscript_layout.specs.Steps.{Below, Follows, in_range};
ghost use Rattle.postscript_layout.specs.Costs.{IsShort, coverage_cost, glyph_cost, index_cost, lookup_cost, lookups_cost, part_cost, range_cost, subtable_cost, total};

use crate::error::Result;
use crate::glyph_set::{GlyphSet, pay};
use crate::numbers::{long, word};
use crate::substitutions::{follow_glyph, part_of};

/// Returns the offset of the coverage table of a subtable.
fn coverage_of(gsub: &[u8], subtable: usize) -> usize
    requires near { subtable < 2 ^ 33 }
    ensures exact { result ≡ the_coverage gsub.now subtable }
    ensures near { result < 2 ^ 34 }
{
    subtable + word(gsub, subtable + 2)
}

/// Applies a subtable to the glyphs of a coverage table with a list of glyphs (format 1).
fn follow_list(
    gsub: &[u8],
    kind: usize,
    subtable: usize,
    coverage: usize,
    set: &mut GlyphSet,
    limit: &mut u64,
) -> Result<()>
    requires near { subtable < 2 ^ 33 }
    requires offset { coverage < 2 ^ 34 }
    ensures done { OnOk result (Follows
        (Below (λ i. SubstitutesGlyph gsub.now kind subtable i (the_word gsub.now (coverage + 4 + i * 2))) (the_word gsub.now (coverage + 2)))
        set.old set.new) }
    ensures spends { limit.new ≤ limit.old }
    ensures within { OnOk result (limit.old ≤ limit.new + (total (λ i. glyph_cost gsub.now kind subtable i) (the_word gsub.now (coverage + 2)))) }
    ensures why { IfErr result (λ e. IsShort (total (λ i. glyph_cost gsub.now kind subtable i) (the_word gsub.now (coverage + 2))) limit.old limit.new e) }
{
    let count = word(gsub, coverage + 2);
    for i in 0..count {
        let glyph = word(gsub, coverage + 4 + i * 2);
        follow_glyph(gsub, kind, subtable, i, glyph, set, limit)?;
    }
    Ok(())
}

/// Applies a subtable to the glyphs of a range.
fn follow_range(
    gsub: &[u8],
    kind: usize,
    subtable: usize,
    range: usize,
    set: &mut GlyphSet,
    limit: &mut u64,
) -> Result<()>
    requires near { subtable < 2 ^ 33 }
    requires offset { range < 2 ^ 35 }
    ensures done { OnOk result (Follows (in_range gsub.now kind subtable range) set.old set.new) }
    ensures spends { limit.new ≤ limit.old }
    ensures within { OnOk result (limit.old ≤ limit.new + (total (λ n. glyph_cost gsub.now kind subtable (the_word gsub.now (range + 4) + n)) (the_word gsub.now (range + 2) + 1 - the_word gsub.now range))) }
    ensures why { IfErr result (λ e. IsShort (total (λ n. glyph_cost gsub.now kind subtable (the_word gsub.now (range + 4) + n)) (the_word gsub.now (range + 2) + 1 - the_word gsub.now range)) limit.old limit.new e) }
{
    let first = word(gsub, range);
    let end = word(gsub, range + 2) + 1;
    let start = word(gsub, range + 4);
    let count = end.saturating_sub(first);
    for n in 0..count {
        follow_glyph(gsub, kind, subtable, start + n, first + n, set, limit)?;
    }
    Ok(())
}

/// Applies a subtable to the glyphs of a coverage table with ranges (format 2).
fn follow_ranges(
    gsub: &[u8],
    kind: usize,
    subtable: usize,
    coverage: usize,
    set: &mut GlyphSet,
    limit: &mut u64,
) -> Result<()>
    requires near { subtable < 2 ^ 33 }
    requires offset { coverage < 2 ^ 34 }
    ensures done { OnOk result (Follows
        (Below (λ r. in_range gsub.now kind subtable (coverage + 4 + r * 6)) (the_word gsub.now (coverage + 2)))
        set.old set.new) }
    ensures spends { limit.new ≤ limit.old }
    ensures within { OnOk result (limit.old ≤ limit.new + (total (λ r. range_cost gsub.now kind subtable (coverage + 4 + r * 6)) (the_word gsub.now (coverage + 2)))) }
    ensures why { IfErr result (λ e. IsShort (total (λ r. range_cost gsub.now kind subtable (coverage + 4 + r * 6)) (the_word gsub.now (coverage + 2))) limit.old limit.new e) }
{
    let count = word(gsub, coverage + 2);
    for r in 0..count {
        pay(limit)?;
        follow_range(gsub, kind, subtable, coverage + 4 + r * 6, set, limit)?;
    }
    Ok(())
}

/// Applies a subtable of a type with substitutions, by its coverage table.
fn follow_covered(
    gsub: &[u8],
    kind: usize,
    subtable: usize,
    set: &mut GlyphSet,
    limit: &mut u64,
) -> Result<()>
    requires near { subtable < 2 ^ 33 }
    ensures done { OnOk result (Follows (BySubtable gsub.now kind subtable) set.old set.new) }
    ensures spends { limit.new ≤ limit.old }
    ensures within { OnOk result (limit.old ≤ limit.new + (coverage_cost gsub.now kind subtable (the_coverage gsub.now subtable))) }
    ensures why { IfErr result (λ e. IsShort (coverage_cost gsub.now kind subtable (the_coverage gsub.now subtable)) limit.old limit.new e) }
{
    let coverage = coverage_of(gsub, subtable);
    match word(gsub, coverage) {
        1 => {
            follow_list(gsub, kind, subtable, coverage, set, limit)?;
            Ok(())
        }
        2 => {
            follow_ranges(gsub, kind, subtable, coverage, set, limit)?;
            Ok(())
        }
        _ => Ok(()),
    }
}

/// Applies a subtable. Contextual subtables (types 5 and 6) only name other lookups.
fn follow_subtable(
    gsub: &[u8],
    kind: usize,
    subtable: usize,
    set: &mut GlyphSet,
    limit: &mut u64,
) -> Result<()>
    requires near { subtable < 2 ^ 33 }
    ensures done { OnOk result (Follows (BySubtable gsub.now kind subtable) set.old set.new) }
    ensures spends { limit.new ≤ limit.old }
    ensures within { OnOk result (limit.old ≤ limit.new + (subtable_cost gsub.now kind subtable)) }
    ensures why { IfErr result (λ e. IsShort (subtable_cost gsub.now kind subtable) limit.old limit.new e) }
{
    match kind {
        1 | 2 | 3 | 4 | 8 => {
            follow_covered(gsub, kind, subtable, set, limit)?;
            Ok(())
        }
        _ => Ok(()),
    }
}

/// Applies a subtable, or the subtable that an extension names.
fn follow_part(
    gsub: &[u8],
    kind: usize,
    subtable: usize,
    set: &mut GlyphSet,
    limit: &mut u64,
) -> Result<()>
    requires near { subtable < 2 ^ 32 }
    ensures done { OnOk result (Follows (BySubtable gsub.now (type_of gsub.now kind subtable) (offset_of gsub.now kind subtable)) set.old set.new) }
    ensures spends { limit.new ≤ limit.old }
    ensures within { OnOk result (limit.old ≤ limit.new + (part_cost gsub.now kind subtable)) }
    ensures why { IfErr result (λ e. IsShort (part_cost gsub.now kind subtable) limit.old limit.new e) }
{
    if kind == 7 {
        let named = word(gsub, subtable + 2);
        let offset = subtable + long(gsub, subtable + 4);
        follow_subtable(gsub, named, offset, set, limit)?;
        Ok(())
    } else {
        follow_subtable(gsub, kind, subtable, set, limit)?;
        Ok(())
    }
}

/// Applies a lookup.
fn follow_lookup(gsub: &[u8], lookup: usize, set: &mut GlyphSet, limit: &mut u64) -> Result<()>
    requires near { lookup < 2 ^ 31 }
    ensures done { OnOk result (Follows (ByLookup gsub.now lookup) set.old set.new) }
    ensures spends { limit.new ≤ limit.old }
    ensures within { OnOk result (limit.old ≤ limit.new + (lookup_cost gsub.now lookup)) }
    ensures why { IfErr result (λ e. IsShort (lookup_cost gsub.now lookup) limit.old limit.new e) }
{
    let kind = word(gsub, lookup);
    let count = word(gsub, lookup + 4);
    for j in 0..count {
        pay(limit)?;
        let subtable = part_of(gsub, lookup, lookup + 6, j);
        follow_part(gsub, kind, subtable, set, limit)?;
    }
    Ok(())
}

/// Applies the lookup with an index in the lookup list, if there is one.
fn follow_index(gsub: &[u8], i: usize, set: &mut GlyphSet, limit: &mut u64) -> Result<()>
    requires few { i < 65536 }
    ensures done { OnOk result (Follows (ByIndex gsub.now i) set.old set.new) }
    ensures spends { limit.new ≤ limit.old }
    ensures within { OnOk result (limit.old ≤ limit.new + (index_cost gsub.now i)) }
    ensures why { IfErr result (λ e. IsShort (index_cost gsub.now i) limit.old limit.new e) }
{
    let list = word(gsub, 8);
    if i >= word(gsub, list) {
        return Ok(());
    }
    let lookup = part_of(gsub, list, list + 2, i);
    follow_lookup(gsub, lookup, set, limit)?;
    Ok(())
}

/// Applies the chosen lookups in order.
pub(crate) fn follow_each(
    gsub: &[u8],
    lookups: &[u16],
    set: &mut GlyphSet,
    limit: &mut u64,
) -> Result<()>
    ensures done { OnOk result (Follows (Substitutes gsub.now lookups.now) set.old set.new) }
    ensures spends { limit.new ≤ limit.old }
    ensures within { OnOk result (limit.old ≤ limit.new + (lookups_cost gsub.now lookups.now)) }
    ensures why { IfErr result (λ e. IsShort (lookups_cost gsub.now lookups.now) limit.old limit.new e) }
{
    for k in 0..lookups.len() {
        pay(limit)?;
        follow_index(gsub, lookups[k] as usize, set, limit)?;
    }
    Ok(())
}
