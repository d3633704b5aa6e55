//! Contexts of substitutions (types 5 and 6) and of positions (types 7 and 8), which are written as chained contexts of sets
//! of glyphs (format 3).
ghost use Rattle.std.specs.Prelude.{◌≡◌, ◌⊎◌, ◌+◌, ◌*◌, ◌^◌, ◌<◌, ◌≤◌, ◌++◌, ◌&&◌, [], ◌∷◌, ℕ, Some, true, length, IfErr, IfOk, IfSome, OnOk, false};
ghost use Rattle.std.specs.List.{All};
ghost use Rattle.postscript_layout.specs.Numbers.{word as the_word, words as the_words};
ghost use Rattle.postscript_layout_write.specs.Contexts.{all_have_formats as the_formats, chained_parts as the_chained, context_by, context_of, contexts_at, contexts_in, has_format as the_format, is_contextual as the_contextual, parts_of as the_parts, plain_parts as the_plain, sets_at};
ghost use Rattle.postscript_layout_write.specs.Coverages.{base_of as the_base, AddsContexts, AddsSets, HasCoverage, HaveContexts, IsMade, IsNear, IsPart, PutsChained, PutsContext, chained_text, context_text, counted_text};
ghost use Rattle.postscript_layout_write.specs.Flags.{set_of};
ghost use Rattle.postscript_layout_write.specs.Holds.{Holds};
ghost use Rattle.postscript_layout_write.specs.Refusals.{Fails};
ghost use Rattle.postscript_layout_write.specs.RuleSets.{Begins};
ghost use Rattle.postscript_layout_write.specs.Scopes.{mark_set_text};
ghost use Rattle.postscript_layout_write.specs.Sequences.{Context, if_applies, is_some_glyph as the_some_glyph};
ghost use Rattle.postscript_layout_write.specs.Sets.{AreOffsets};
ghost use Rattle.postscript_layout_write.specs.declared.error.Error.TheVariants as errors;

use crate::coverages::covered_of;
use crate::error::{Error, Result};
use crate::limit::pay;
use crate::numbers::{put_uint16, word};
use crate::rules::{part_at, read_glyphs, type_of};
use crate::scope::put_set;
use crate::subtables::{Sets, put_coverage, put_glyphs, put_offsets};
use std::alloc::Global;

/// The offsets and the lengths of the arrays of a context: three arrays of offsets of coverage tables, and actions.
#[derive(Clone, Copy)]
pub(crate) struct Parts {
    pub(crate) before_at: usize,
    pub(crate) before: usize,
    pub(crate) input_at: usize,
    pub(crate) input: usize,
    pub(crate) after_at: usize,
    pub(crate) after: usize,
    pub(crate) actions_at: usize,
    pub(crate) actions: usize,
}

/// Returns the parts of a chained context.
fn chained_parts(gsub: &[u8], subtable: usize) -> Parts
    requires near { subtable < 2 ^ 33 }
    ensures exact { result ≡ the_chained gsub.now subtable }
    ensures near { IsNear result }
{
    let before = word(gsub, subtable + 2);
    let second = subtable + 4 + before * 2;
    let input = word(gsub, second);
    let third = second + 2 + input * 2;
    let after = word(gsub, third);
    let fourth = third + 2 + after * 2;
    Parts {
        before_at: subtable + 4,
        before,
        input_at: second + 2,
        input,
        after_at: third + 2,
        after,
        actions_at: fourth + 2,
        actions: word(gsub, fourth),
    }
}

/// Returns the parts of a context that is not chained.
fn plain_parts(gsub: &[u8], subtable: usize) -> Parts
    requires near { subtable < 2 ^ 33 }
    ensures exact { result ≡ the_plain gsub.now subtable }
    ensures near { IsNear result }
{
    let input = word(gsub, subtable + 2);
    Parts {
        before_at: 0,
        before: 0,
        input_at: subtable + 6,
        input,
        after_at: 0,
        after: 0,
        actions_at: subtable + 6 + input * 2,
        actions: word(gsub, subtable + 4),
    }
}

/// Returns the parts of a subtable of type 5 or 6.
pub(crate) fn parts_of(gsub: &[u8], kind: usize, subtable: usize) -> Parts
    requires near { subtable < 2 ^ 33 }
    ensures exact { result ≡ the_parts gsub.now kind subtable }
    ensures near { IsNear result }
{
    if kind == 5 {
        plain_parts(gsub, subtable)
    } else {
        chained_parts(gsub, subtable)
    }
}

/// Whether a subtable has a format from 1 to 3.
pub(crate) fn has_format(gsub: &[u8], subtable: Option<usize>) -> bool
    requires near { IfSome subtable (λ at. at < 2 ^ 33) }
    ensures { result ≡ the_format gsub.now subtable }
{
    match subtable {
        Some(subtable) => 0 < word(gsub, subtable) && word(gsub, subtable) < 4,
        None => false,
    }
}

/// Whether all subtables of a lookup have a format from 1 to 3.
fn all_have_formats(gsub: &[u8], lookup: usize, kind: usize) -> bool
    requires near { lookup < 2 ^ 31 }
    ensures { result ≡ the_formats gsub.now lookup kind (the_word gsub.now (lookup + 4)) }
{
    let count = word(gsub, lookup + 4);
    let mut all = true;
    for j in 0..count {
        let part = part_at(gsub, lookup, kind, j);
        all = all && has_format(gsub, part);
    }
    all
}

/// Whether a lookup has contexts, all of them of formats from 1 to 3.
pub(crate) fn is_contextual(gsub: &[u8], lookup: usize) -> bool
    requires near { lookup < 2 ^ 31 }
    ensures { result ≡ the_contextual gsub.now lookup }
{
    let kind = type_of(gsub, lookup);
    (kind == 5 || kind == 6) && all_have_formats(gsub, lookup, kind)
}

/// The coverage tables of the positions of a part of a context: their offsets, and whether each has a glyph.
#[derive(Drop)]
pub(crate) struct Part {
    pub(crate) offsets: Vec<usize>,
    pub(crate) all_some: bool,
}

/// Whether a set has a glyph.
pub(crate) fn is_some_glyph(glyphs: &[u16]) -> bool
    ensures { result ≡ the_some_glyph glyphs.now }
{
    !glyphs.is_empty()
}

/// Whether both are true.
pub(crate) fn both(first: bool, second: bool) -> bool
    ensures { result ≡ (first && second) }
{
    first && second
}

/// Adds a coverage table, and returns its offset.
fn add_coverage(alloc: Global, glyphs: &[u16], sets: &mut Sets) -> Result<usize>
    ensures placed { IfOk result (λ offset. HasCoverage glyphs.now sets.new.bytes.items offset) }
    ensures more { OnOk result (Begins sets.old.bytes.items sets.new.bytes.items) }
    ensures why { IfErr result (λ e. (e ≡ errors.Memory) ⊎ (e ≡ errors.TooLarge)) }
{
    if glyphs.len() > 16380 {
        return Err(Error::TooLarge);
    }
    let mut text = Vec::new(alloc);
    put_coverage(&mut text, glyphs)?;
    let offset = sets.place(&text)?;
    sets.offsets.push(offset)?;
    Ok(offset)
}

/// The table that is read, and the kept glyphs.
#[derive(Clone, Copy)]
pub(crate) struct Source<'t> {
    pub(crate) gsub: &'t [u8],
    pub(crate) kept: &'t [u16],
}

impl Part {
    /// Returns a part without positions.
    pub(crate) fn new(alloc: Global) -> Part
        ensures offsets { result.offsets.items ≡ [] }
        ensures some { result.all_some ≡ true }
    {
        Part {
            offsets: Vec::new(alloc),
            all_some: true,
        }
    }

    /// Adds the coverage table of a position.
    pub(crate) fn add(&mut self, alloc: Global, glyphs: &[u16], tables: &mut Sets) -> Result<()>
        ensures added { OnOk result (AddsSets (glyphs.now ∷ []) self.old tables.old.bytes.items self.new tables.new.bytes.items) }
        ensures why { IfErr result (λ e. (e ≡ errors.Memory) ⊎ (e ≡ errors.TooLarge)) }
    {
        self.all_some = both(self.all_some, is_some_glyph(glyphs));
        let offset = add_coverage(alloc, glyphs, tables)?;
        self.offsets.push(offset)?;
        Ok(())
    }
}

/// Returns the coverage tables of an array of offsets, with the kept glyphs only.
pub(crate) fn part_of(
    alloc: Global,
    source: &Source<'_>,
    subtable: usize,
    array: usize,
    count: usize,
    tables: &mut Sets,
    limit: &mut u64,
) -> Result<Part>
    requires subtable { subtable < 2 ^ 33 }
    requires array { array < 2 ^ 35 }
    requires count { count < 65536 }
    requires few { length source.now.kept.now < 65536 }
    ensures part { IfOk result (λ part. IsPart (sets_at source.now.gsub.now source.now.kept.now subtable array count) part tables.new.bytes.items) }
    ensures more { OnOk result (Begins tables.old.bytes.items tables.new.bytes.items) }
    ensures spends { limit.new ≤ limit.old }
    ensures why { IfErr result (λ e. Fails limit.new e) }
{
    let mut part = Part::new(alloc);
    for p in 0..count {
        let coverage = subtable + word(source.gsub, array + p * 2);
        let glyphs = covered_of(alloc, source.gsub, coverage, source.kept, limit)?;
        part.add(alloc, &glyphs, tables)?;
    }
    Ok(part)
}

/// Appends offsets after their number.
#[tactic(auto, unfolding(crate::specs::Coverages::counted_text))]
pub(crate) fn put_counted(out: &mut Vec<u8>, base: usize, offsets: &[usize]) -> Result<()>
    requires near { base < 65536 }
    requires few { length offsets.now < 65536 }
    ensures text { OnOk result (out.new.items ≡ out.old.items ++ counted_text base offsets.now) }
    ensures fit { OnOk result (AreOffsets base offsets.now) }
    ensures why { IfErr result (λ e. (e ≡ errors.Memory) ⊎ (e ≡ errors.TooLarge)) }
{
    put_uint16(out, offsets.len() as u16)?;
    put_offsets(out, base, offsets)
}

/// The most items of an array of a context. The offset of what follows more items would exceed 16 bits.
const MOST: usize = 32762;

/// The coverage tables and the actions of a context.
#[derive(Drop)]
pub(crate) struct Made {
    pub(crate) before: Part,
    pub(crate) input: Part,
    pub(crate) after: Part,
    pub(crate) actions: Vec<u16>,
    pub(crate) tables: Sets,
}

/// Returns the offset of the first coverage table of a chained context, if it fits into two bytes.
pub(crate) fn base_of(made: &Made) -> Option<usize>
    ensures exact { IfSome result (λ base. base ≡ the_base made.now.before.offsets.items made.now.input.offsets.items made.now.after.offsets.items made.now.actions.items) }
    ensures near { IfSome result (λ base. base < 65536) }
{
    let before = made.before.offsets.len();
    let input = made.input.offsets.len();
    let after = made.after.offsets.len();
    let actions = made.actions.len();
    if before > MOST || input > MOST || after > MOST || actions > MOST {
        return None;
    }
    let base = 10 + (before + input + after + actions) * 2;
    if base > 65535 { None } else { Some(base) }
}

/// Appends a chained context with `count` actions.
#[tactic(auto, unfolding(crate::specs::Coverages::context_text))]
pub(crate) fn put_context(out: &mut Vec<u8>, made: &Made, count: usize) -> Result<()>
    requires count { length made.now.actions.items ≡ count * 2 }
    ensures done { OnOk result (PutsContext made.now count out.old.items out.new.items) }
    ensures why { IfErr result (λ e. (e ≡ errors.Memory) ⊎ (e ≡ errors.TooLarge)) }
{
    let Some(base) = base_of(made) else {
        return Err(Error::TooLarge);
    };
    put_uint16(out, 3)?;
    put_counted(out, base, &made.before.offsets)?;
    put_counted(out, base, &made.input.offsets)?;
    put_counted(out, base, &made.after.offsets)?;
    put_uint16(out, count as u16)?;
    put_glyphs(out, &made.actions)?;
    out.extend_from_slice(&made.tables.bytes)?;
    Ok(())
}

/// Returns the actions of a context.
pub(crate) fn actions_of(
    alloc: Global,
    gsub: &[u8],
    parts: Parts,
    limit: &mut u64,
) -> Result<Vec<u16>>
    requires near { IsNear parts }
    ensures exact { IfOk result (λ actions. actions.items ≡ the_words gsub.now parts.actions_at (parts.actions * 2)) }
    ensures small { IfOk result (λ actions. All (λ number. number < 65536) actions.items) }
    ensures spends { limit.new ≤ limit.old }
    ensures why { IfErr result (λ e. Fails limit.new e) }
{
    if parts.actions > 32767 {
        return Err(Error::TooLarge);
    }
    let mut actions = Vec::new(alloc);
    read_glyphs(
        &mut actions,
        gsub,
        parts.actions_at,
        parts.actions * 2,
        limit,
    )?;
    Ok(actions)
}

/// Makes the context of a subtable, with the kept glyphs only.
pub(crate) fn made_of(
    alloc: Global,
    source: &Source<'_>,
    subtable: usize,
    parts: Parts,
    limit: &mut u64,
) -> Result<Made>
    requires subtable { subtable < 2 ^ 33 }
    requires near { IsNear parts }
    requires few { length source.now.kept.now < 65536 }
    ensures exact { IfOk result (λ made. IsMade (context_by source.now.gsub.now source.now.kept.now subtable parts) made) }
    ensures spends { limit.new ≤ limit.old }
    ensures why { IfErr result (λ e. Fails limit.new e) }
{
    let mut tables = Sets::new(alloc);
    let before = part_of(
        alloc,
        source,
        subtable,
        parts.before_at,
        parts.before,
        &mut tables,
        limit,
    )?;
    let input = part_of(
        alloc,
        source,
        subtable,
        parts.input_at,
        parts.input,
        &mut tables,
        limit,
    )?;
    let after = part_of(
        alloc,
        source,
        subtable,
        parts.after_at,
        parts.after,
        &mut tables,
        limit,
    )?;
    let actions = actions_of(alloc, source.gsub, parts, limit)?;
    Ok(Made {
        before,
        input,
        after,
        actions,
        tables,
    })
}

/// Whether each set of a context has a glyph.
pub(crate) fn can_apply(made: &Made) -> bool
    ensures { result ≡ ((made.now.before.all_some && made.now.input.all_some) && made.now.after.all_some) }
{
    both(
        both(made.before.all_some, made.input.all_some),
        made.after.all_some,
    )
}

/// Contexts as they are written: the offset of each, and the bytes.
#[derive(Drop)]
pub(crate) struct Contexts {
    pub(crate) offsets: Vec<usize>,
    pub(crate) bytes: Vec<u8>,
}

impl Contexts {
    /// Adds a context with `count` actions, if it can apply.
    pub(crate) fn add_made(&mut self, made: &Made, count: usize) -> Result<()>
        requires count { length made.now.actions.items ≡ count * 2 }
        ensures added { OnOk result ((context : Context) → IsMade context made.now → AddsContexts false (if_applies context) self.old self.new) }
        ensures why { IfErr result (λ e. (e ≡ errors.Memory) ⊎ (e ≡ errors.TooLarge)) }
    {
        if !can_apply(made) {
            return Ok(());
        }
        let offset = self.bytes.len();
        if offset > 65535 {
            return Err(Error::TooLarge);
        }
        put_context(&mut self.bytes, made, count)?;
        self.offsets.push(offset)?;
        Ok(())
    }

    /// Adds the context of a subtable of format 3, if it can apply to kept glyphs.
    fn add_covered(
        &mut self,
        alloc: Global,
        source: &Source<'_>,
        kind: usize,
        subtable: usize,
        limit: &mut u64,
    ) -> Result<()>
        requires subtable { subtable < 2 ^ 33 }
        requires few { length source.now.kept.now < 65536 }
        ensures added { OnOk result (AddsContexts false (if_applies (context_of source.now.gsub.now source.now.kept.now kind subtable)) self.old self.new) }
        ensures spends { limit.new ≤ limit.old }
        ensures why { IfErr result (λ e. Fails limit.new e) }
    {
        let parts = parts_of(source.gsub, kind, subtable);
        let made = made_of(alloc, source, subtable, parts, limit)?;
        self.add_made(&made, parts.actions)?;
        Ok(())
    }

    /// Adds the contexts of a subtable that can apply to kept glyphs.
    pub(crate) fn add(
        &mut self,
        alloc: Global,
        source: &Source<'_>,
        kind: usize,
        subtable: usize,
        limit: &mut u64,
    ) -> Result<()>
        requires subtable { subtable < 2 ^ 33 }
        requires few { length source.now.kept.now < 65536 }
        ensures added { OnOk result (AddsContexts false (contexts_in source.now.gsub.now source.now.kept.now kind (Some subtable)) self.old self.new) }
        ensures spends { limit.new ≤ limit.old }
        ensures why { IfErr result (λ e. Fails limit.new e) }
    {
        if word(source.gsub, subtable) == 3 {
            self.add_covered(alloc, source, kind, subtable, limit)?;
            return Ok(());
        }
        self.add_by_rules(alloc, source, kind, subtable, limit)?;
        Ok(())
    }
}

/// Collects the contexts of a lookup that can apply to kept glyphs, after its set of marks, if its new flag uses one.
pub(crate) fn contexts_of(
    alloc: Global,
    source: &Source<'_>,
    lookup: usize,
    kind: usize,
    flag: usize,
    limit: &mut u64,
) -> Result<Contexts>
    requires near { lookup < 2 ^ 31 }
    requires few { length source.now.kept.now < 65536 }
    ensures exact { IfOk result (λ contexts. HaveContexts false (contexts_at source.now.gsub.now source.now.kept.now lookup kind) contexts.offsets.items contexts.bytes.items) }
    ensures begins { IfOk result (λ contexts. Holds (mark_set_text flag (set_of source.now.gsub.now lookup)) contexts.bytes.items 0) }
    ensures set { OnOk result (set_of source.now.gsub.now lookup < 65536) }
    ensures spends { limit.new ≤ limit.old }
    ensures why { IfErr result (λ e. Fails limit.new e) }
{
    let mut contexts = Contexts {
        offsets: Vec::new(alloc),
        bytes: Vec::new(alloc),
    };
    put_set(&mut contexts.bytes, source.gsub, lookup, flag)?;
    let count = word(source.gsub, lookup + 4);
    for j in 0..count {
        pay(limit)?;
        if let Some(subtable) = part_at(source.gsub, lookup, kind, j) {
            contexts.add(alloc, source, kind, subtable, limit)?;
        }
    }
    Ok(contexts)
}

/// Appends a lookup of chained contexts, of a type.
#[tactic(auto, unfolding(crate::specs::Coverages::chained_text))]
pub(crate) fn put_chained(
    out: &mut Vec<u8>,
    kind: u16,
    flag: u16,
    contexts: &Contexts,
) -> Result<()>
    ensures done { OnOk result (PutsChained kind flag contexts.now.offsets.items contexts.now.bytes.items out.old.items out.new.items) }
    ensures why { IfErr result (λ e. (e ≡ errors.Memory) ⊎ (e ≡ errors.TooLarge)) }
{
    let count = contexts.offsets.len();
    if count > 32764 {
        return Err(Error::TooLarge);
    }
    put_uint16(out, kind)?;
    put_uint16(out, flag)?;
    put_uint16(out, count as u16)?;
    put_offsets(out, 6 + count * 2, &contexts.offsets)?;
    out.extend_from_slice(&contexts.bytes)?;
    Ok(())
}
