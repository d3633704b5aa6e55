//! Whether contexts can apply to the kept glyphs.
ghost use Rattle.std.specs.Prelude.{◌≡◌, ◌⊎◌, ◌+◌, ◌*◌, ◌^◌, ◌<◌, ◌≤◌, ◌&&◌, length, IfErr, IfOk};
ghost use Rattle.postscript_layout_write.specs.Contexts.{context_by, sets_at};
ghost use Rattle.postscript_layout_write.specs.Coverages.{IsNear};
ghost use Rattle.postscript_layout_write.specs.Labels.{AreFew, having_at, listed_context};
ghost use Rattle.postscript_layout_write.specs.Refusals.{IsUsedUp};
ghost use Rattle.postscript_layout_write.specs.Sequences.{all_some, can_apply};
ghost use Rattle.postscript_layout_write.specs.declared.error.Error.TheVariants as errors;

use crate::contexts::{Parts, Source, both, is_some_glyph};
use crate::coverages::covered_of;
use crate::error::Result;
use crate::labels::{Labels, with_label};
use crate::limit::pay;
use crate::numbers::word;
use std::alloc::Global;

/// Whether each coverage table of an array of offsets has a kept glyph.
fn all_covered(
    alloc: Global,
    source: &Source<'_>,
    subtable: usize,
    array: usize,
    count: usize,
    limit: &mut u64,
) -> Result<bool>
    requires subtable { subtable < 2 ^ 33 }
    requires array { array < 2 ^ 35 }
    requires count { count < 65536 }
    requires few { length source.now.kept.now ≤ 65536 }
    ensures exact { IfOk result (λ all. all ≡ all_some (sets_at source.now.gsub.now source.now.kept.now subtable array count)) }
    ensures spends { limit.new ≤ limit.old }
    ensures why { IfErr result (λ e. (e ≡ errors.Memory) ⊎ IsUsedUp limit.new e) }
{
    let mut all = true;
    for p in 0..count {
        let coverage = subtable + word(source.gsub, array + p * 2);
        let glyphs = covered_of(alloc, source.gsub, coverage, source.kept, limit)?;
        all = both(all, is_some_glyph(&glyphs));
    }
    Ok(all)
}

/// Whether the context of a subtable of format 3 can apply.
pub(crate) fn context_applies(
    alloc: Global,
    source: &Source<'_>,
    subtable: usize,
    parts: Parts,
    limit: &mut u64,
) -> Result<bool>
    requires subtable { subtable < 2 ^ 33 }
    requires near { IsNear parts }
    requires few { length source.now.kept.now ≤ 65536 }
    ensures exact { IfOk result (λ applies. applies ≡ can_apply (context_by source.now.gsub.now source.now.kept.now subtable parts)) }
    ensures spends { limit.new ≤ limit.old }
    ensures why { IfErr result (λ e. (e ≡ errors.Memory) ⊎ IsUsedUp limit.new e) }
{
    let before = all_covered(
        alloc,
        source,
        subtable,
        parts.before_at,
        parts.before,
        limit,
    )?;
    let input = all_covered(alloc, source, subtable, parts.input_at, parts.input, limit)?;
    let after = all_covered(alloc, source, subtable, parts.after_at, parts.after, limit)?;
    Ok(both(both(before, input), after))
}

/// Whether there is a glyph for each number of an array, which has it as its label.
fn all_labelled(
    alloc: Global,
    gsub: &[u8],
    labels: &[Option<usize>],
    array: usize,
    count: usize,
    limit: &mut u64,
) -> Result<bool>
    requires array { array < 2 ^ 35 }
    requires count { count < 65536 }
    requires few { length labels.now ≤ 65536 }
    ensures exact { IfOk result (λ all. all ≡ all_some (having_at gsub.now labels.now array count)) }
    ensures spends { limit.new ≤ limit.old }
    ensures why { IfErr result (λ e. (e ≡ errors.Memory) ⊎ IsUsedUp limit.new e) }
{
    let mut all = true;
    for p in 0..count {
        pay(limit)?;
        let number = word(gsub, array + p * 2);
        let glyphs = with_label(alloc, labels, number, limit)?;
        all = both(all, is_some_glyph(&glyphs));
    }
    Ok(all)
}

/// Whether the context of a rule can apply, whose first glyphs are given.
pub(crate) fn rule_applies(
    alloc: Global,
    gsub: &[u8],
    labels: &Labels,
    start: &[u16],
    parts: Parts,
    limit: &mut u64,
) -> Result<bool>
    requires near { IsNear parts }
    requires few { AreFew labels.now }
    ensures exact { IfOk result (λ applies. applies ≡ can_apply (listed_context gsub.now labels.now start.now parts)) }
    ensures spends { limit.new ≤ limit.old }
    ensures why { IfErr result (λ e. (e ≡ errors.Memory) ⊎ IsUsedUp limit.new e) }
{
    let before = all_labelled(
        alloc,
        gsub,
        &labels.before,
        parts.before_at,
        parts.before,
        limit,
    )?;
    let input = all_labelled(
        alloc,
        gsub,
        &labels.input,
        parts.input_at,
        parts.input,
        limit,
    )?;
    let after = all_labelled(
        alloc,
        gsub,
        &labels.after,
        parts.after_at,
        parts.after,
        limit,
    )?;
    Ok(both(both(before, both(is_some_glyph(start), input)), after))
}
