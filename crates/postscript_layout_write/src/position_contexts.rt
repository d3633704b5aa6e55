//! Contexts of positions (types 7 and 8), which are written as chained contexts by sets of glyphs (format 3).
ghost use Rattle.std.specs.Prelude.{◌≡◌, ◌^◌, ◌<◌, ◌≤◌, length, IfErr, IfOk, OnOk, false};
ghost use Rattle.postscript_layout_write.specs.Coverages.{AddsChained, HaveContexts};
ghost use Rattle.postscript_layout_write.specs.Flags.{has_contexts as the_having, set_of};
ghost use Rattle.postscript_layout_write.specs.Holds.{Holds};
ghost use Rattle.postscript_layout_write.specs.Marks.{type_at};
ghost use Rattle.postscript_layout_write.specs.PositionContexts.{all_have_formats as the_formats, contexts_by, is_context as the_context, is_contextual as the_contextual, same_type as the_same};
ghost use Rattle.postscript_layout_write.specs.Positions.{keeps_contexts as the_keeps};
ghost use Rattle.postscript_layout_write.specs.Refusals.{Fails, IsUsedUp};
ghost use Rattle.postscript_layout_write.specs.Scopes.{mark_set_text};

use crate::contexts::{Contexts, Source, has_format, put_chained};
use crate::error::Result;
use crate::limit::pay;
use crate::numbers::word;
use crate::scope::put_set;
use crate::typed::{has_no_pairs, subtable_at, type_of};
use std::alloc::Global;

/// Whether lookups of a type have contexts.
pub(crate) fn is_context(kind: usize) -> bool
    ensures { result ≡ the_context kind }
{
    kind == 7 || kind == 8
}

/// Returns the type of substitutions with the same tables.
pub(crate) fn same_type(kind: usize) -> usize
    ensures { result ≡ the_same kind }
{
    if kind == 7 { 5 } else { 6 }
}

/// Whether all subtables of a lookup of a type have a format from 1 to 3.
fn all_have_formats(gpos: &[u8], lookup: usize, kind: usize, limit: &mut u64) -> Result<bool>
    requires near { lookup < 2 ^ 31 }
    ensures exact { IfOk result (λ all. all ≡ the_formats gpos.now lookup kind) }
    ensures spends { limit.new ≤ limit.old }
    ensures why { IfErr result (λ e. IsUsedUp limit.new e) }
{
    let count = word(gpos, lookup + 4);
    for j in 0..count {
        pay(limit)?;
        if !has_format(gpos, subtable_at(gpos, lookup, kind, j)) {
            return Ok(false);
        }
    }
    Ok(true)
}

/// Whether a lookup has contexts, all of them of formats from 1 to 3.
pub(crate) fn is_contextual(gpos: &[u8], lookup: usize, limit: &mut u64) -> Result<bool>
    requires near { lookup < 2 ^ 31 }
    ensures exact { IfOk result (λ is. is ≡ the_contextual gpos.now lookup) }
    ensures spends { limit.new ≤ limit.old }
    ensures why { IfErr result (λ e. IsUsedUp limit.new e) }
{
    let kind = type_of(gpos, lookup);
    if is_context(kind) {
        let all = all_have_formats(gpos, lookup, kind, limit)?;
        Ok(all)
    } else {
        Ok(false)
    }
}

/// Whether a lookup keeps its contexts: all of its subtables have contexts, it uses no classes or sets of marks, and it has
/// no pairs.
pub(crate) fn keeps_contexts(gpos: &[u8], lookup: usize, limit: &mut u64) -> Result<bool>
    requires near { lookup < 2 ^ 31 }
    ensures exact { IfOk result (λ keeps. keeps ≡ the_keeps gpos.now lookup) }
    ensures spends { limit.new ≤ limit.old }
    ensures why { IfErr result (λ e. IsUsedUp limit.new e) }
{
    let contextual = is_contextual(gpos, lookup, limit)?;
    if contextual && word(gpos, lookup + 2) < 16 {
        let none = has_no_pairs(gpos, lookup, limit)?;
        Ok(none)
    } else {
        Ok(false)
    }
}

/// Whether a lookup has contexts only, and no pairs.
pub(crate) fn has_contexts(gpos: &[u8], lookup: usize, limit: &mut u64) -> Result<bool>
    requires near { lookup < 2 ^ 31 }
    ensures exact { IfOk result (λ has. has ≡ the_having gpos.now lookup) }
    ensures spends { limit.new ≤ limit.old }
    ensures why { IfErr result (λ e. IsUsedUp limit.new e) }
{
    let contextual = is_contextual(gpos, lookup, limit)?;
    if contextual {
        let none = has_no_pairs(gpos, lookup, limit)?;
        Ok(none)
    } else {
        Ok(false)
    }
}

/// Collects the contexts of a lookup that can apply to kept glyphs, after its set of marks, if its new flag uses one.
fn contexts_of(
    alloc: Global,
    source: &Source<'_>,
    lookup: usize,
    kind: usize,
    flag: usize,
    limit: &mut u64,
) -> Result<Contexts>
    requires near { lookup < 2 ^ 31 }
    requires few { length source.now.kept.now < 65536 }
    ensures exact { IfOk result (λ contexts. HaveContexts false (contexts_by source.now.gsub.now source.now.kept.now lookup kind) contexts.offsets.items contexts.bytes.items) }
    ensures begins { IfOk result (λ contexts. Holds (mark_set_text flag (set_of source.now.gsub.now lookup)) contexts.bytes.items 0) }
    ensures set { OnOk result (set_of source.now.gsub.now lookup < 65536) }
    ensures spends { limit.new ≤ limit.old }
    ensures why { IfErr result (λ e. Fails limit.new e) }
{
    let mut contexts = Contexts {
        offsets: Vec::new(alloc),
        bytes: Vec::new(alloc),
    };
    put_set(&mut contexts.bytes, source.gsub, lookup, flag)?;
    let count = word(source.gsub, lookup + 4);
    for j in 0..count {
        pay(limit)?;
        if let Some(subtable) = subtable_at(source.gsub, lookup, kind, j) {
            contexts.add(alloc, source, same_type(kind), subtable, limit)?;
        }
    }
    Ok(contexts)
}

/// Appends a lookup with its contexts, as chained contexts by sets of glyphs.
pub(crate) fn put_contexts(
    alloc: Global,
    out: &mut Vec<u8>,
    gpos: &[u8],
    lookup: usize,
    flag: usize,
    kept: &[u16],
    limit: &mut u64,
) -> Result<()>
    requires near { lookup < 2 ^ 31 }
    requires few { length kept.now < 65536 }
    requires small { flag < 65536 }
    ensures done { OnOk result (AddsChained false 8 flag (set_of gpos.now lookup) (contexts_by gpos.now kept.now lookup (type_at gpos.now lookup)) out.old.items out.new.items) }
    ensures spends { limit.new ≤ limit.old }
    ensures why { IfErr result (λ e. Fails limit.new e) }
{
    let source = Source { gsub: gpos, kept };
    let contexts = contexts_of(alloc, &source, lookup, type_of(gpos, lookup), flag, limit)?;
    put_chained(out, 8, flag as u16, &contexts)?;
    Ok(())
}
