//! Contexts by glyphs and by classes (formats 1 and 2 of types 5 and 6). Each rule is a context of sets of glyphs.
ghost use Rattle.std.specs.Prelude.{◌≡◌, ◌⊎◌, ◌+◌, ◌*◌, ◌^◌, ◌<◌, ◌≤◌, length, IfErr, IfOk, IfSome, OnOk, false};
ghost use Rattle.postscript_layout.specs.Numbers.{word as the_word};
ghost use Rattle.postscript_layout_write.specs.ContextRules.{by_rules, chained_rule as the_chained, plain_rule as the_plain, rule_of as the_rule, rule_parts as the_parts, rules_in, set_of as the_set, sets_of as the_sets};
ghost use Rattle.postscript_layout_write.specs.Coverages.{AddsContexts, AddsSets, IsMade, IsNear};
ghost use Rattle.postscript_layout_write.specs.Labels.{AreFew, AreLabels, having_at, listed_below, listed_context};
ghost use Rattle.postscript_layout_write.specs.Refusals.{Fails};
ghost use Rattle.postscript_layout_write.specs.Sequences.{if_applies};

use crate::contexts::{Contexts, Made, Part, Parts, Source, actions_of, is_some_glyph};
use crate::error::Result;
use crate::labels::{Labels, labels_of, with_label};
use crate::limit::pay;
use crate::numbers::word;
use crate::subtables::Sets;
use std::alloc::Global;

/// Returns the parts of a rule that is not chained.
fn plain_rule(gsub: &[u8], rule: usize) -> Parts
    requires near { rule < 2 ^ 34 }
    ensures exact { result ≡ the_plain gsub.now rule }
    ensures near { IsNear result }
{
    let input = word(gsub, rule).saturating_sub(1);
    Parts {
        before_at: 0,
        before: 0,
        input_at: rule + 4,
        input,
        after_at: 0,
        after: 0,
        actions_at: rule + 4 + input * 2,
        actions: word(gsub, rule + 2),
    }
}

/// Returns the parts of a chained rule.
fn chained_rule(gsub: &[u8], rule: usize) -> Parts
    requires near { rule < 2 ^ 34 }
    ensures exact { result ≡ the_chained gsub.now rule }
    ensures near { IsNear result }
{
    let before = word(gsub, rule);
    let second = rule + 2 + before * 2;
    let input = word(gsub, second).saturating_sub(1);
    let third = second + 2 + input * 2;
    let after = word(gsub, third);
    let fourth = third + 2 + after * 2;
    Parts {
        before_at: rule + 2,
        before,
        input_at: second + 2,
        input,
        after_at: third + 2,
        after,
        actions_at: fourth + 2,
        actions: word(gsub, fourth),
    }
}

/// Returns the parts of a rule of type 5 or 6.
pub(crate) fn rule_parts(gsub: &[u8], kind: usize, rule: usize) -> Parts
    requires near { rule < 2 ^ 34 }
    ensures exact { result ≡ the_parts gsub.now kind rule }
    ensures near { IsNear result }
{
    if kind == 5 {
        plain_rule(gsub, rule)
    } else {
        chained_rule(gsub, rule)
    }
}

/// Returns the offset of the number of sets of rules of a subtable.
pub(crate) fn sets_of(gsub: &[u8], kind: usize, subtable: usize) -> usize
    requires near { subtable < 2 ^ 33 }
    ensures exact { result ≡ the_sets gsub.now kind subtable }
    ensures near { result < 2 ^ 33 + 16 }
{
    if word(gsub, subtable) == 1 {
        subtable + 4
    } else if kind == 5 {
        subtable + 6
    } else {
        subtable + 10
    }
}

/// Returns the offset of a set of rules, unless it is missing.
pub(crate) fn set_of(gsub: &[u8], kind: usize, subtable: usize, i: usize) -> Option<usize>
    requires near { subtable < 2 ^ 33 }
    requires few { i < 65536 }
    ensures exact { result ≡ the_set gsub.now kind subtable i }
    ensures near { IfSome result (λ set. set < 2 ^ 33 + 65536) }
{
    let offset = word(gsub, sets_of(gsub, kind, subtable) + 2 + i * 2);
    if offset == 0 {
        None
    } else {
        Some(subtable + offset)
    }
}

/// Returns the offset of a rule of a set.
pub(crate) fn rule_of(gsub: &[u8], set: usize, r: usize) -> usize
    requires near { set < 2 ^ 33 + 65536 }
    requires few { r < 65536 }
    ensures exact { result ≡ the_rule gsub.now set r }
    ensures near { result < 2 ^ 34 }
{
    set + word(gsub, set + 2 + r * 2)
}

impl Part {
    /// Adds a coverage table for each number of an array, with the glyphs that have this label.
    fn add_labelled(
        &mut self,
        alloc: Global,
        gsub: &[u8],
        labels: &[Option<usize>],
        array: usize,
        count: usize,
        tables: &mut Sets,
        limit: &mut u64,
    ) -> Result<()>
        requires array { array < 2 ^ 35 }
        requires count { count < 65536 }
        requires few { length labels.now ≤ 65536 }
        ensures added { OnOk result (AddsSets (having_at gsub.now labels.now array count) self.old tables.old.bytes.items self.new tables.new.bytes.items) }
        ensures spends { limit.new ≤ limit.old }
        ensures why { IfErr result (λ e. Fails limit.new e) }
    {
        for p in 0..count {
            pay(limit)?;
            let number = word(gsub, array + p * 2);
            let glyphs = with_label(alloc, labels, number, limit)?;
            self.add(alloc, &glyphs, tables)?;
        }
        Ok(())
    }
}

/// Makes the context of a rule, whose first glyphs are given.
fn made_of(
    alloc: Global,
    gsub: &[u8],
    labels: &Labels,
    start: &[u16],
    parts: Parts,
    limit: &mut u64,
) -> Result<Made>
    requires near { IsNear parts }
    requires few { AreFew labels.now }
    ensures exact { IfOk result (λ made. IsMade (listed_context gsub.now labels.now start.now parts) made) }
    ensures spends { limit.new ≤ limit.old }
    ensures why { IfErr result (λ e. Fails limit.new e) }
{
    let mut tables = Sets::new(alloc);
    let mut before = Part::new(alloc);
    before.add_labelled(
        alloc,
        gsub,
        &labels.before,
        parts.before_at,
        parts.before,
        &mut tables,
        limit,
    )?;
    let mut input = Part::new(alloc);
    input.add(alloc, start, &mut tables)?;
    input.add_labelled(
        alloc,
        gsub,
        &labels.input,
        parts.input_at,
        parts.input,
        &mut tables,
        limit,
    )?;
    let mut after = Part::new(alloc);
    after.add_labelled(
        alloc,
        gsub,
        &labels.after,
        parts.after_at,
        parts.after,
        &mut tables,
        limit,
    )?;
    let actions = actions_of(alloc, gsub, parts, limit)?;
    Ok(Made {
        before,
        input,
        after,
        actions,
        tables,
    })
}

impl Contexts {
    /// Adds the context of a rule, if it can apply.
    fn add_rule(
        &mut self,
        alloc: Global,
        gsub: &[u8],
        labels: &Labels,
        start: &[u16],
        parts: Parts,
        limit: &mut u64,
    ) -> Result<()>
        requires near { IsNear parts }
        requires few { AreFew labels.now }
        ensures added { OnOk result (AddsContexts false (if_applies (listed_context gsub.now labels.now start.now parts)) self.old self.new) }
        ensures spends { limit.new ≤ limit.old }
        ensures why { IfErr result (λ e. Fails limit.new e) }
    {
        let made = made_of(alloc, gsub, labels, start, parts, limit)?;
        self.add_made(&made, parts.actions)?;
        Ok(())
    }

    /// Adds the contexts of a set of rules that can apply.
    fn add_set(
        &mut self,
        alloc: Global,
        gsub: &[u8],
        kind: usize,
        labels: &Labels,
        start: &[u16],
        set: usize,
        limit: &mut u64,
    ) -> Result<()>
        requires near { set < 2 ^ 33 + 65536 }
        requires few { AreFew labels.now }
        ensures added { OnOk result (AddsContexts false (listed_below gsub.now kind labels.now start.now set (the_word gsub.now set)) self.old self.new) }
        ensures spends { limit.new ≤ limit.old }
        ensures why { IfErr result (λ e. Fails limit.new e) }
    {
        let count = word(gsub, set);
        for r in 0..count {
            pay(limit)?;
            let parts = rule_parts(gsub, kind, rule_of(gsub, set, r));
            self.add_rule(alloc, gsub, labels, start, parts, limit)?;
        }
        Ok(())
    }

    /// Adds the contexts of set `i` of rules that can apply.
    fn add_start(
        &mut self,
        alloc: Global,
        source: &Source<'_>,
        kind: usize,
        subtable: usize,
        labels: &Labels,
        i: usize,
        limit: &mut u64,
    ) -> Result<()>
        requires near { subtable < 2 ^ 33 }
        requires few { i < 65536 }
        requires exact { AreLabels source.now.gsub.now source.now.kept.now kind subtable labels.now }
        ensures added { OnOk result (AddsContexts false (rules_in source.now.gsub.now source.now.kept.now kind subtable i (the_set source.now.gsub.now kind subtable i)) self.old self.new) }
        ensures spends { limit.new ≤ limit.old }
        ensures why { IfErr result (λ e. Fails limit.new e) }
    {
        let Some(set) = set_of(source.gsub, kind, subtable, i) else {
            return Ok(());
        };
        let start = with_label(alloc, &labels.start, i, limit)?;
        if !is_some_glyph(&start) {
            return Ok(());
        }
        self.add_set(alloc, source.gsub, kind, labels, &start, set, limit)?;
        Ok(())
    }

    /// Adds the contexts of the rules of a subtable that can apply to kept glyphs.
    pub(crate) fn add_by_rules(
        &mut self,
        alloc: Global,
        source: &Source<'_>,
        kind: usize,
        subtable: usize,
        limit: &mut u64,
    ) -> Result<()>
        requires near { subtable < 2 ^ 33 }
        requires few { length source.now.kept.now < 65536 }
        ensures added { OnOk result (AddsContexts false (by_rules source.now.gsub.now source.now.kept.now kind subtable) self.old self.new) }
        ensures spends { limit.new ≤ limit.old }
        ensures why { IfErr result (λ e. Fails limit.new e) }
    {
        let labels = labels_of(alloc, source.gsub, kind, subtable, source.kept, limit)?;
        let count = word(source.gsub, sets_of(source.gsub, kind, subtable));
        for i in 0..count {
            pay(limit)?;
            self.add_start(alloc, source, kind, subtable, &labels, i, limit)?;
        }
        Ok(())
    }
}
