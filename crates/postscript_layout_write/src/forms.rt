//! Collects the pairs of a lookup as subtables: each with listed pairs of one form, or one by classes of glyphs.
ghost use Rattle.std.specs.Prelude.{◌≡◌, ◌⊎◌, ◌^◌, ◌<◌, ◌≤◌, length, IfErr, IfOk, OnOk};
ghost use Rattle.postscript_layout_write.specs.ClassPairs.{AreRowsIfOpen, HasPairs};
ghost use Rattle.postscript_layout_write.specs.Forms.{AddsForm, AddsForms, AddsSubtable, AreForms, Completes, HasSubtables, MakesRoom};
ghost use Rattle.postscript_layout_write.specs.Refusals.{Fails};
ghost use Rattle.postscript_layout_write.specs.Scopes.{new_pair};
ghost use Rattle.postscript_layout_write.specs.declared.error.Error.TheVariants as errors;

use crate::class_pairs::{add_first, class_subtable};
use crate::entries::{Entry, Form, entries_of};
use crate::error::Result;
use crate::limit::pay;
use crate::lines::Lines;
use crate::scope::Scope;
use crate::subtables::{Sets, put_subtable};
use std::alloc::Global;

/// Subtables one after the other, and their offsets.
#[derive(Drop)]
pub(crate) struct Subtables {
    pub(crate) offsets: Vec<usize>,
    pub(crate) bytes: Vec<u8>,
}

/// The pairs of a lookup: subtables, and the sets of each form that are not in a subtable yet.
#[derive(Drop)]
pub(crate) struct Forms {
    pub(crate) subtables: Subtables,
    pub(crate) advance: Sets,
    pub(crate) first: Sets,
    pub(crate) both: Sets,
}

impl Subtables {
    /// Appends a subtable, if there are sets.
    fn add_subtable(&mut self, form: Form, sets: &Sets) -> Result<()>
        ensures done { OnOk result (AddsSubtable form sets.now self.old self.new) }
        ensures why { IfErr result (λ e. (e ≡ errors.Memory) ⊎ (e ≡ errors.TooLarge)) }
    {
        if sets.firsts.is_empty() {
            return Ok(());
        }
        self.offsets.push(self.bytes.len())?;
        put_subtable(&mut self.bytes, form, sets)?;
        Ok(())
    }

    /// Appends a subtable and begins new sets, if another set might have an offset of more than two bytes.
    fn make_room(&mut self, alloc: Global, form: Form, sets: &mut Sets) -> Result<()>
        ensures done { OnOk result (MakesRoom form sets.old sets.new self.old self.new) }
        ensures why { IfErr result (λ e. (e ≡ errors.Memory) ⊎ (e ≡ errors.TooLarge)) }
    {
        if sets.has_room() {
            return Ok(());
        }
        self.add_subtable(form, sets)?;
        *sets = Sets::new(alloc);
        Ok(())
    }

    /// Adds the set of a first glyph, if some pairs have the form.
    fn add(
        &mut self,
        alloc: Global,
        form: Form,
        sets: &mut Sets,
        first: u16,
        entries: &[Entry],
    ) -> Result<()>
        requires few { length entries.now < 65536 }
        ensures done { OnOk result (AddsForm form first entries.now sets.old sets.new self.old self.new) }
        ensures why { IfErr result (λ e. (e ≡ errors.Memory) ⊎ (e ≡ errors.TooLarge)) }
    {
        self.make_room(alloc, form, sets)?;
        sets.add(alloc, form, first, entries)?;
        Ok(())
    }
}

impl Forms {
    /// Adds the pairs of a first glyph.
    fn add(&mut self, alloc: Global, first: u16, entries: &[Entry]) -> Result<()>
        requires few { length entries.now < 65536 }
        ensures done { OnOk result (AddsForms first entries.now self.old self.new) }
        ensures why { IfErr result (λ e. (e ≡ errors.Memory) ⊎ (e ≡ errors.TooLarge)) }
    {
        let subtables = &mut self.subtables;
        subtables.add(alloc, Form::Advance, &mut self.advance, first, entries)?;
        subtables.add(alloc, Form::First, &mut self.first, first, entries)?;
        subtables.add(alloc, Form::Both, &mut self.both, first, entries)?;
        Ok(())
    }

    /// Appends a subtable for each form whose sets are not in a subtable yet.
    fn complete(&mut self) -> Result<()>
        ensures done { OnOk result (Completes self.old self.new) }
        ensures why { IfErr result (λ e. (e ≡ errors.Memory) ⊎ (e ≡ errors.TooLarge)) }
    {
        let subtables = &mut self.subtables;
        subtables.add_subtable(Form::Advance, &self.advance)?;
        subtables.add_subtable(Form::First, &self.first)?;
        subtables.add_subtable(Form::Both, &self.both)?;
        Ok(())
    }
}

/// The pairs of a lookup: as they are listed, and as rows of advances.
#[derive(Drop)]
struct Pairs {
    listed: Subtables,
    rows: Lines,
}

/// Collects the pairs of a lookup.
fn pairs_of(
    alloc: Global,
    gpos: &[u8],
    lookup: usize,
    scope: Scope,
    kept: &[u16],
    limit: &mut u64,
) -> Result<Pairs>
    requires near { lookup < 2 ^ 31 }
    requires few { length kept.now < 65536 }
    ensures listed { IfOk result (λ pairs. HasSubtables (new_pair scope gpos.now kept.now lookup) pairs.listed.offsets.items pairs.listed.bytes.items) }
    ensures rows { IfOk result (λ pairs. AreRowsIfOpen (new_pair scope gpos.now kept.now lookup) (length kept.now) (length kept.now) pairs.rows) }
    ensures spends { limit.new ≤ limit.old }
    ensures why { IfErr result (λ e. Fails limit.new e) }
{
    let mut forms = Forms {
        subtables: Subtables {
            offsets: Vec::new(alloc),
            bytes: Vec::new(alloc),
        },
        advance: Sets::new(alloc),
        first: Sets::new(alloc),
        both: Sets::new(alloc),
    };
    let mut rows = Lines::new(alloc, kept.len())?;
    for k in 0..kept.len() {
        pay(limit)?;
        let entries = entries_of(alloc, gpos, lookup, scope, kept[k] as usize, kept, limit)?;
        forms.add(alloc, k as u16, &entries)?;
        add_first(alloc, &mut rows, &entries)?;
    }
    forms.complete()?;
    Ok(Pairs {
        listed: forms.subtables,
        rows,
    })
}

/// Returns the pairs of a lookup, listed one by one, or by classes of glyphs if that takes fewer bytes.
pub(crate) fn subtables_of(
    alloc: Global,
    gpos: &[u8],
    lookup: usize,
    scope: Scope,
    kept: &[u16],
    limit: &mut u64,
) -> Result<Subtables>
    requires near { lookup < 2 ^ 31 }
    requires few { length kept.now < 65536 }
    ensures exact { IfOk result (λ subtables. HasPairs (new_pair scope gpos.now kept.now lookup) subtables.offsets.items subtables.bytes.items) }
    ensures spends { limit.new ≤ limit.old }
    ensures why { IfErr result (λ e. Fails limit.new e) }
{
    let pairs = pairs_of(alloc, gpos, lookup, scope, kept, limit)?;
    match class_subtable(alloc, &pairs.rows, pairs.listed.bytes.len())? {
        Some(bytes) => {
            let mut offsets = Vec::new(alloc);
            offsets.push(0)?;
            Ok(Subtables { offsets, bytes })
        }
        None => Ok(pairs.listed),
    }
}
