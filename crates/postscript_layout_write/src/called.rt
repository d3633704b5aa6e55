//! The lookups that contexts apply.
ghost use Rattle.std.specs.Prelude.{◌≡◌, ◌≢◌, ◌⊎◌, ◌+◌, ◌*◌, ◌^◌, ◌<◌, ◌≤◌, ℕ, [], Some, false, length, slice_index_or, IfErr, IfOk, IfSome, OnOk};
ghost use Rattle.std.specs.List.{AllPairs, Contains};
ghost use Rattle.postscript_layout.specs.Numbers.{word as the_word};
ghost use Rattle.postscript_layout_write.specs.Calls.{AppliesTo, Calls, CallsAt, CallsBy, CallsIn, CallsInSet, IsNamedBy};
ghost use Rattle.postscript_layout_write.specs.ContextRules.{set_of as the_set};
ghost use Rattle.postscript_layout_write.specs.Coverages.{IsNear};
ghost use Rattle.postscript_layout_write.specs.Labels.{AreFew, AreLabels};
ghost use Rattle.postscript_layout_write.specs.Reaching.{AddsOnly, AreFollowed, AreNoted, ListedCalls};
ghost use Rattle.postscript_layout_write.specs.Refusals.{IsUsedUp};
ghost use Rattle.postscript_layout_write.specs.Sequences.{Context, can_apply};
ghost use Rattle.postscript_layout_write.specs.declared.error.Error.TheVariants as errors;

use crate::applying::{context_applies, rule_applies};
use crate::context_rules::{rule_of, rule_parts, set_of, sets_of};
use crate::contexts::{Parts, Source, is_contextual, parts_of};
use crate::coverages::unset_marks;
use crate::error::Result;
use crate::labels::{Labels, labels_of, with_label};
use crate::limit::{pay, pay_all};
use crate::numbers::word;
use crate::rules::{part_at, type_of};
use std::alloc::Global;

/// Lookups, each once, and a mark for each of them.
#[derive(Drop)]
pub(crate) struct Lookups {
    marks: Vec<bool>,
    pub(crate) lookups: Vec<u16>,
    ghost many: { length marks.items ≡ 65536 },
    ghost noted: { AreNoted marks.items lookups.items },
    ghost once: { AllPairs (λ x y. x ≢ y) lookups.items },
}

impl Lookups {
    /// Returns no lookups.
    pub(crate) fn new(alloc: Global) -> Result<Lookups>
        ensures none { IfOk result (λ found. found.lookups.items ≡ []) }
        ensures memory { IfErr result (λ e. e ≡ errors.Memory) }
    {
        let marks = unset_marks(alloc, 65536)?;
        Ok(Lookups {
            marks,
            lookups: Vec::new(alloc),
        })
    }

    /// Adds a lookup, unless it is there.
    fn add(&mut self, lookup: usize) -> Result<()>
        requires { lookup < 65536 }
        ensures added { OnOk result (AddsOnly (λ m. m ≡ lookup) self.old.lookups.items self.new.lookups.items) }
        ensures memory { IfErr result (λ e. e ≡ errors.Memory) }
    {
        if !self.marks[lookup] {
            self.lookups.push(lookup as u16)?;
            self.marks[lookup] = true;
        }
        Ok(())
    }

    /// Adds lookups.
    pub(crate) fn add_all(&mut self, lookups: &[u16], limit: &mut u64) -> Result<()>
        ensures added { OnOk result (AddsOnly (λ m. Contains lookups.now m) self.old.lookups.items self.new.lookups.items) }
        ensures spends { limit.new ≤ limit.old }
        ensures why { IfErr result (λ e. (e ≡ errors.Memory) ⊎ IsUsedUp limit.new e) }
    {
        for lookup in lookups {
            pay(limit)?;
            self.add(*lookup as usize)?;
        }
        Ok(())
    }

    /// Adds the lookups of the actions of a context.
    fn add_named(&mut self, gsub: &[u8], parts: Parts, limit: &mut u64) -> Result<()>
        requires near { IsNear parts }
        ensures added { OnOk result (AddsOnly (λ m. (r : ℕ) × IsNamedBy gsub.now parts r m) self.old.lookups.items self.new.lookups.items) }
        ensures spends { limit.new ≤ limit.old }
        ensures why { IfErr result (λ e. (e ≡ errors.Memory) ⊎ IsUsedUp limit.new e) }
    {
        for r in 0..parts.actions {
            pay(limit)?;
            self.add(word(gsub, parts.actions_at + r * 4 + 2))?;
        }
        Ok(())
    }

    /// Adds the lookups that a context calls, if it can apply.
    fn add_context(
        &mut self,
        gsub: &[u8],
        parts: Parts,
        applies: bool,
        limit: &mut u64,
    ) -> Result<()>
        requires near { IsNear parts }
        ensures added { OnOk result ((context : Context) → applies ≡ can_apply context → AddsOnly (AppliesTo gsub.now context parts) self.old.lookups.items self.new.lookups.items) }
        ensures spends { limit.new ≤ limit.old }
        ensures why { IfErr result (λ e. (e ≡ errors.Memory) ⊎ IsUsedUp limit.new e) }
    {
        if applies {
            self.add_named(gsub, parts, limit)?;
        }
        Ok(())
    }

    /// Adds the lookups that the rules of a set call, whose first glyphs are given.
    fn add_rules(
        &mut self,
        alloc: Global,
        gsub: &[u8],
        kind: usize,
        labels: &Labels,
        start: &[u16],
        set: usize,
        limit: &mut u64,
    ) -> Result<()>
        requires near { set < 2 ^ 33 + 65536 }
        requires few { AreFew labels.now }
        ensures added { OnOk result (AddsOnly (ListedCalls gsub.now kind labels.now start.now set (the_word gsub.now set)) self.old.lookups.items self.new.lookups.items) }
        ensures spends { limit.new ≤ limit.old }
        ensures why { IfErr result (λ e. (e ≡ errors.Memory) ⊎ IsUsedUp limit.new e) }
    {
        let count = word(gsub, set);
        for k in 0..count {
            pay(limit)?;
            let parts = rule_parts(gsub, kind, rule_of(gsub, set, k));
            let applies = rule_applies(alloc, gsub, labels, start, parts, limit)?;
            self.add_context(gsub, parts, applies, limit)?;
        }
        Ok(())
    }

    /// Adds the lookups that set `i` of rules calls.
    fn add_set(
        &mut self,
        alloc: Global,
        source: &Source<'_>,
        kind: usize,
        subtable: usize,
        labels: &Labels,
        i: usize,
        limit: &mut u64,
    ) -> Result<()>
        requires near { subtable < 2 ^ 33 }
        requires few { i < 65536 }
        requires exact { AreLabels source.now.gsub.now source.now.kept.now kind subtable labels.now }
        ensures added { OnOk result (AddsOnly (CallsInSet source.now.gsub.now source.now.kept.now kind subtable i (the_set source.now.gsub.now kind subtable i)) self.old.lookups.items self.new.lookups.items) }
        ensures spends { limit.new ≤ limit.old }
        ensures why { IfErr result (λ e. (e ≡ errors.Memory) ⊎ IsUsedUp limit.new e) }
    {
        let Some(set) = set_of(source.gsub, kind, subtable, i) else {
            return Ok(());
        };
        let start = with_label(alloc, &labels.start, i, limit)?;
        self.add_rules(alloc, source.gsub, kind, labels, &start, set, limit)?;
        Ok(())
    }

    /// Adds the lookups that the sets of rules of a subtable call.
    fn add_sets(
        &mut self,
        alloc: Global,
        source: &Source<'_>,
        kind: usize,
        subtable: usize,
        limit: &mut u64,
    ) -> Result<()>
        requires near { subtable < 2 ^ 33 }
        requires few { length source.now.kept.now ≤ 65536 }
        ensures added { OnOk result (AddsOnly (CallsBy source.now.gsub.now source.now.kept.now kind subtable false) self.old.lookups.items self.new.lookups.items) }
        ensures spends { limit.new ≤ limit.old }
        ensures why { IfErr result (λ e. (e ≡ errors.Memory) ⊎ IsUsedUp limit.new e) }
    {
        let labels = labels_of(alloc, source.gsub, kind, subtable, source.kept, limit)?;
        let count = word(source.gsub, sets_of(source.gsub, kind, subtable));
        for i in 0..count {
            pay(limit)?;
            self.add_set(alloc, source, kind, subtable, &labels, i, limit)?;
        }
        Ok(())
    }

    /// Adds the lookups that a subtable at an offset calls.
    fn add_subtable(
        &mut self,
        alloc: Global,
        source: &Source<'_>,
        kind: usize,
        subtable: usize,
        limit: &mut u64,
    ) -> Result<()>
        requires near { subtable < 2 ^ 33 }
        requires few { length source.now.kept.now ≤ 65536 }
        ensures added { OnOk result (AddsOnly (CallsIn source.now.gsub.now source.now.kept.now kind (Some subtable)) self.old.lookups.items self.new.lookups.items) }
        ensures spends { limit.new ≤ limit.old }
        ensures why { IfErr result (λ e. (e ≡ errors.Memory) ⊎ IsUsedUp limit.new e) }
    {
        if word(source.gsub, subtable) == 3 {
            let parts = parts_of(source.gsub, kind, subtable);
            let applies = context_applies(alloc, source, subtable, parts, limit)?;
            self.add_context(source.gsub, parts, applies, limit)?;
            return Ok(());
        }
        self.add_sets(alloc, source, kind, subtable, limit)?;
        Ok(())
    }

    /// Adds the lookups that a subtable calls.
    fn add_part(
        &mut self,
        alloc: Global,
        source: &Source<'_>,
        kind: usize,
        part: Option<usize>,
        limit: &mut u64,
    ) -> Result<()>
        requires near { IfSome part (λ at. at < 2 ^ 33) }
        requires few { length source.now.kept.now ≤ 65536 }
        ensures added { OnOk result (AddsOnly (CallsIn source.now.gsub.now source.now.kept.now kind part) self.old.lookups.items self.new.lookups.items) }
        ensures spends { limit.new ≤ limit.old }
        ensures why { IfErr result (λ e. (e ≡ errors.Memory) ⊎ IsUsedUp limit.new e) }
    {
        if let Some(subtable) = part {
            self.add_subtable(alloc, source, kind, subtable, limit)?;
        }
        Ok(())
    }

    /// Adds the lookups that a lookup of contexts calls.
    fn add_contexts(
        &mut self,
        alloc: Global,
        source: &Source<'_>,
        lookup: usize,
        limit: &mut u64,
    ) -> Result<()>
        requires near { lookup < 2 ^ 31 }
        requires few { length source.now.kept.now ≤ 65536 }
        ensures added { OnOk result (AddsOnly (λ m. (j : ℕ) × CallsAt source.now.gsub.now source.now.kept.now lookup j m) self.old.lookups.items self.new.lookups.items) }
        ensures spends { limit.new ≤ limit.old }
        ensures why { IfErr result (λ e. (e ≡ errors.Memory) ⊎ IsUsedUp limit.new e) }
    {
        let kind = type_of(source.gsub, lookup);
        let count = word(source.gsub, lookup + 4);
        for j in 0..count {
            pay(limit)?;
            let part = part_at(source.gsub, lookup, kind, j);
            self.add_part(alloc, source, kind, part, limit)?;
        }
        Ok(())
    }

    /// Adds the lookups that lookup `i` calls, in contexts that can apply to the kept glyphs.
    fn follow(
        &mut self,
        alloc: Global,
        source: &Source<'_>,
        i: usize,
        limit: &mut u64,
    ) -> Result<()>
        requires small { i < 65536 }
        requires few { length source.now.kept.now ≤ 65536 }
        ensures added { OnOk result (AddsOnly (Calls source.now.gsub.now source.now.kept.now i) self.old.lookups.items self.new.lookups.items) }
        ensures spends { limit.new ≤ limit.old }
        ensures why { IfErr result (λ e. (e ≡ errors.Memory) ⊎ IsUsedUp limit.new e) }
    {
        let gsub = source.gsub;
        let list = word(gsub, 8);
        if i >= word(gsub, list) {
            return Ok(());
        }
        let lookup = list + word(gsub, list + 2 + i * 2);
        pay_all(limit, word(gsub, lookup + 4))?;
        if is_contextual(gsub, lookup) {
            self.add_contexts(alloc, source, lookup, limit)?;
        }
        Ok(())
    }

    /// Adds the lookups that the lookups call, directly or by others, in contexts that can apply to the kept glyphs.
    pub(crate) fn follow_all(
        &mut self,
        alloc: Global,
        source: &Source<'_>,
        limit: &mut u64,
    ) -> Result<()>
        requires few { length source.now.kept.now ≤ 65536 }
        ensures followed { OnOk result (AreFollowed source.now.gsub.now source.now.kept.now self.old.lookups.items self.new.lookups.items) }
        ensures spends { limit.new ≤ limit.old }
        ensures why { IfErr result (λ e. (e ≡ errors.Memory) ⊎ IsUsedUp limit.new e) }
    {
        let mut k = 0;
        while k < self.lookups.len() {
            pay(limit)?;
            let i = self.lookups[k] as usize;
            self.follow(alloc, source, i, limit)?;
            k += 1;
        }
        Ok(())
    }
}
