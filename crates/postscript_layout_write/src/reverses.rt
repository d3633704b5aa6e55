//! Reverse chaining substitutions (type 8).
ghost use Rattle.std.specs.Prelude.{◌≡◌, ◌⊎◌, ◌+◌, ◌*◌, ◌^◌, ◌<◌, ◌≤◌, ◌++◌, [], ◌∷◌, Some, true, is_some, length, slice_index, IfErr, IfOk, IfSome, OnOk, if◌then◌else◌};
ghost use Rattle.postscript_layout_write.specs.Coverages.{AddsContexts, HaveContexts, IsMade, PutsReverse, reverse_base as the_base, reverse_text};
ghost use Rattle.postscript_layout_write.specs.Flags.{set_of};
ghost use Rattle.postscript_layout_write.specs.Holds.{Holds};
ghost use Rattle.postscript_layout_write.specs.Refusals.{Fails, IsUsedUp};
ghost use Rattle.postscript_layout_write.specs.Renumbering.{AreNumbers};
ghost use Rattle.postscript_layout_write.specs.Reverses.{ahead_at as the_ahead, if_some, number_of as the_number, reverse_of, reverses_at, reverses_in, substitute_at as the_substitute, substitute_of as the_substitute_of, substituted, substitutes};
ghost use Rattle.postscript_layout_write.specs.RuleSets.{Begins};
ghost use Rattle.postscript_layout_write.specs.Scopes.{mark_set_text};
ghost use Rattle.postscript_layout_write.specs.Sequences.{Context, if_applies};
ghost use Rattle.postscript_layout_write.specs.declared.error.Error.TheVariants as errors;

use crate::contexts::{Contexts, Made, Part, Source, base_of, can_apply, part_of, put_counted};
use crate::error::{Error, Result};
use crate::limit::pay;
use crate::numbers::{put_uint16, word};
use crate::ranges::coverage_index;
use crate::rules::part_at;
use crate::scope::put_set;
use crate::subtables::{Sets, put_glyphs, put_offsets};
use std::alloc::Global;

/// Glyphs, and the substitute of each.
#[derive(Drop)]
struct Substitutes {
    glyphs: Vec<u16>,
    others: Vec<u16>,
}

impl Substitutes {
    /// Adds a glyph, if it has a substitute.
    fn add(&mut self, glyph: usize, other: Option<usize>) -> Result<()>
        requires small { glyph < 65536 }
        requires other { IfSome other (λ n. n < 65536) }
        ensures glyphs { OnOk result (self.new.glyphs.items ≡ self.old.glyphs.items ++ (if is_some other then glyph ∷ [] else [])) }
        ensures others { OnOk result (self.new.others.items ≡ self.old.others.items ++ if_some other) }
        ensures memory { IfErr result (λ e. e ≡ errors.Memory) }
    {
        if let Some(other) = other {
            self.glyphs.push(glyph as u16)?;
            self.others.push(other as u16)?;
        }
        Ok(())
    }
}

/// Returns the offset of the number of lookahead tables.
fn ahead_at(gsub: &[u8], subtable: usize) -> usize
    requires near { subtable < 2 ^ 33 }
    ensures exact { result ≡ the_ahead gsub.now subtable }
    ensures near { result < 2 ^ 34 }
{
    subtable + 6 + word(gsub, subtable + 4) * 2
}

/// Returns the substitute of the glyph with a coverage index.
fn substitute_at(gsub: &[u8], subtable: usize, index: Option<usize>) -> Option<usize>
    requires near { subtable < 2 ^ 33 }
    requires few { IfSome index (λ i. i < 2 ^ 17) }
    ensures exact { result ≡ the_substitute gsub.now subtable index }
    ensures small { IfSome result (λ other. other < 65536) }
{
    let ahead = ahead_at(gsub, subtable);
    let list = ahead + 2 + word(gsub, ahead) * 2;
    match index {
        Some(i) => {
            if i < word(gsub, list) {
                Some(word(gsub, list + 2 + i * 2))
            } else {
                None
            }
        }
        None => None,
    }
}

/// Returns the substitute of a glyph.
fn substitute_of(
    gsub: &[u8],
    subtable: usize,
    glyph: usize,
    limit: &mut u64,
) -> Result<Option<usize>>
    requires near { subtable < 2 ^ 33 }
    requires glyph { glyph < 65536 }
    ensures exact { IfOk result (λ other. other ≡ the_substitute_of gsub.now subtable glyph) }
    ensures small { IfOk result (λ other. IfSome other (λ n. n < 65536)) }
    ensures spends { limit.new ≤ limit.old }
    ensures why { IfErr result (λ e. IsUsedUp limit.new e) }
{
    let coverage = subtable + word(gsub, subtable + 2);
    let index = coverage_index(gsub, coverage, glyph, limit)?;
    Ok(substitute_at(gsub, subtable, index))
}

/// Returns the new number of a glyph, if there is one and it is kept.
fn number_of(kept: &[u16], numbers: &[Option<usize>], glyph: Option<usize>) -> Option<usize>
    requires small { length kept.now < 65536 }
    requires exact { AreNumbers kept.now numbers.now }
    requires glyph { IfSome glyph (λ n. n < 65536) }
    ensures exact { result ≡ the_number kept.now glyph }
    ensures small { IfSome result (λ n. n < 65536) }
{
    let _ = kept;
    match glyph {
        Some(glyph) => numbers[glyph],
        None => None,
    }
}

/// Returns the kept glyphs with kept substitutes, and their substitutes, under new numbers.
fn substitutes_of(
    alloc: Global,
    source: &Source<'_>,
    numbers: &[Option<usize>],
    subtable: usize,
    limit: &mut u64,
) -> Result<Substitutes>
    requires near { subtable < 2 ^ 33 }
    requires few { length source.now.kept.now < 65536 }
    requires exact { AreNumbers source.now.kept.now numbers.now }
    ensures glyphs { IfOk result (λ found. found.glyphs.items ≡ substituted source.now.gsub.now source.now.kept.now subtable) }
    ensures others { IfOk result (λ found. found.others.items ≡ substitutes source.now.gsub.now source.now.kept.now subtable) }
    ensures spends { limit.new ≤ limit.old }
    ensures why { IfErr result (λ e. (e ≡ errors.Memory) ⊎ IsUsedUp limit.new e) }
{
    let mut found = Substitutes {
        glyphs: Vec::new(alloc),
        others: Vec::new(alloc),
    };
    for k in 0..source.kept.len() {
        pay(limit)?;
        let other = substitute_of(source.gsub, subtable, source.kept[k] as usize, limit)?;
        found.add(k, number_of(source.kept, numbers, other))?;
    }
    Ok(found)
}

/// Makes the context of a subtable, with the kept glyphs only.
fn made_of(
    alloc: Global,
    source: &Source<'_>,
    numbers: &[Option<usize>],
    subtable: usize,
    limit: &mut u64,
) -> Result<Made>
    requires near { subtable < 2 ^ 33 }
    requires few { length source.now.kept.now < 65536 }
    requires exact { AreNumbers source.now.kept.now numbers.now }
    ensures exact { IfOk result (λ made. IsMade (reverse_of source.now.gsub.now source.now.kept.now subtable) made) }
    ensures spends { limit.new ≤ limit.old }
    ensures why { IfErr result (λ e. Fails limit.new e) }
{
    let found = substitutes_of(alloc, source, numbers, subtable, limit)?;
    let mut tables = Sets::new(alloc);
    let mut input = Part::new(alloc);
    input.add(alloc, &found.glyphs, &mut tables)?;
    let ahead = ahead_at(source.gsub, subtable);
    let before = part_of(
        alloc,
        source,
        subtable,
        subtable + 6,
        word(source.gsub, subtable + 4),
        &mut tables,
        limit,
    )?;
    let after = part_of(
        alloc,
        source,
        subtable,
        ahead + 2,
        word(source.gsub, ahead),
        &mut tables,
        limit,
    )?;
    Ok(Made {
        before,
        input,
        after,
        actions: found.others,
        tables,
    })
}

/// Returns the offset of the first coverage table of a subtable, if it fits into two bytes.
fn reverse_base(made: &Made) -> Option<usize>
    requires one { length made.now.input.offsets.items ≡ 1 }
    ensures exact { IfSome result (λ base. base ≡ the_base made.now.before.offsets.items made.now.after.offsets.items made.now.actions.items) }
    ensures near { IfSome result (λ base. base < 65536) }
{
    match base_of(made) {
        Some(base) => Some(base - 2),
        None => None,
    }
}

/// Appends a subtable.
#[tactic(auto, unfolding(crate::specs::Coverages::reverse_text))]
fn put_reverse(out: &mut Vec<u8>, made: &Made) -> Result<()>
    requires one { length made.now.input.offsets.items ≡ 1 }
    ensures done { OnOk result (PutsReverse made.now out.old.items out.new.items) }
    ensures why { IfErr result (λ e. (e ≡ errors.Memory) ⊎ (e ≡ errors.TooLarge)) }
{
    let Some(base) = reverse_base(made) else {
        return Err(Error::TooLarge);
    };
    put_uint16(out, 1)?;
    put_offsets(out, base, &made.input.offsets)?;
    put_counted(out, base, &made.before.offsets)?;
    put_counted(out, base, &made.after.offsets)?;
    put_uint16(out, made.actions.len() as u16)?;
    put_glyphs(out, &made.actions)?;
    out.extend_from_slice(&made.tables.bytes)?;
    Ok(())
}

impl Contexts {
    /// Adds the context of a subtable, if it can apply.
    fn add_made_reverse(&mut self, made: &Made) -> Result<()>
        requires one { length made.now.input.offsets.items ≡ 1 }
        ensures added { OnOk result ((context : Context) → IsMade context made.now → AddsContexts true (if_applies context) self.old self.new) }
        ensures why { IfErr result (λ e. (e ≡ errors.Memory) ⊎ (e ≡ errors.TooLarge)) }
    {
        if !can_apply(made) {
            return Ok(());
        }
        let offset = self.bytes.len();
        if offset > 65535 {
            return Err(Error::TooLarge);
        }
        put_reverse(&mut self.bytes, made)?;
        self.offsets.push(offset)?;
        Ok(())
    }

    /// Adds the context of a subtable, if it has format 1 and can apply to kept glyphs.
    fn add_reverse(
        &mut self,
        alloc: Global,
        source: &Source<'_>,
        numbers: &[Option<usize>],
        subtable: usize,
        limit: &mut u64,
    ) -> Result<()>
        requires near { subtable < 2 ^ 33 }
        requires few { length source.now.kept.now < 65536 }
        requires exact { AreNumbers source.now.kept.now numbers.now }
        ensures added { OnOk result (AddsContexts true (reverses_in source.now.gsub.now source.now.kept.now (Some subtable)) self.old self.new) }
        ensures spends { limit.new ≤ limit.old }
        ensures why { IfErr result (λ e. Fails limit.new e) }
    {
        if word(source.gsub, subtable) != 1 {
            return Ok(());
        }
        let made = made_of(alloc, source, numbers, subtable, limit)?;
        self.add_made_reverse(&made)?;
        Ok(())
    }
}

/// Collects the reverse chaining subtables of a lookup that can apply to kept glyphs, after its set of marks, if its new flag
/// uses one.
pub(crate) fn reverses_of(
    alloc: Global,
    source: &Source<'_>,
    numbers: &[Option<usize>],
    lookup: usize,
    flag: usize,
    limit: &mut u64,
) -> Result<Contexts>
    requires near { lookup < 2 ^ 31 }
    requires few { length source.now.kept.now < 65536 }
    requires exact { AreNumbers source.now.kept.now numbers.now }
    ensures exact { IfOk result (λ contexts. HaveContexts true (reverses_at source.now.gsub.now source.now.kept.now lookup) contexts.offsets.items contexts.bytes.items) }
    ensures begins { IfOk result (λ contexts. Holds (mark_set_text flag (set_of source.now.gsub.now lookup)) contexts.bytes.items 0) }
    ensures set { OnOk result (set_of source.now.gsub.now lookup < 65536) }
    ensures spends { limit.new ≤ limit.old }
    ensures why { IfErr result (λ e. Fails limit.new e) }
{
    let mut contexts = Contexts {
        offsets: Vec::new(alloc),
        bytes: Vec::new(alloc),
    };
    put_set(&mut contexts.bytes, source.gsub, lookup, flag)?;
    let count = word(source.gsub, lookup + 4);
    for j in 0..count {
        pay(limit)?;
        if let Some(subtable) = part_at(source.gsub, lookup, 8, j) {
            contexts.add_reverse(alloc, source, numbers, subtable, limit)?;
        }
    }
    Ok(contexts)
}
