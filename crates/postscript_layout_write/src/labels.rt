//! Labels of glyphs, by which rules name them, in contexts by glyphs and by classes (formats 1 and 2 of types 5 and 6).
ghost use Rattle.std.specs.Prelude.{◌≡◌, ◌⊎◌, ◌^◌, ◌<◌, ◌≤◌, length, IfErr, IfOk};
ghost use Rattle.postscript_layout.specs.Substitutions.{coverage_of};
ghost use Rattle.postscript_layout_write.specs.ContextRules.{class_by as the_class, input_field as the_field, is_label as the_label, label_of as the_label_of, number_of as the_number, start_of as the_start};
ghost use Rattle.postscript_layout_write.specs.Labels.{AreLabels, AreRoleLabels, having};
ghost use Rattle.postscript_layout_write.specs.Ranges.{coverage_index as the_index};
ghost use Rattle.postscript_layout_write.specs.Refusals.{IsUsedUp};
ghost use Rattle.postscript_layout_write.specs.declared.error.Error.TheVariants as errors;

use crate::error::Result;
use crate::limit::{pay, pay_all};
use crate::numbers::word;
use crate::ranges::{class_of, coverage_index};
use std::alloc::Global;

/// The use of a label: it selects a set of rules, or it is compared with the numbers of a rule before, from, or after a
/// position.
#[derive(Clone, Copy, Debug, Drop, PartialEq, Eq)]
pub(crate) enum Role {
    Start,
    Before,
    Input,
    After,
}

/// Returns the class of a glyph by a class definition table. Without a table, each glyph is in class 0.
fn class_by(
    gsub: &[u8],
    subtable: usize,
    offset: usize,
    glyph: usize,
    limit: &mut u64,
) -> Result<usize>
    requires near { subtable < 2 ^ 33 }
    requires small { offset < 65536 }
    ensures exact { IfOk result (λ class. class ≡ the_class gsub.now subtable offset glyph) }
    ensures spends { limit.new ≤ limit.old }
    ensures why { IfErr result (λ e. IsUsedUp limit.new e) }
{
    if offset == 0 {
        return Ok(0);
    }
    let class = class_of(gsub, subtable + offset, glyph, limit)?;
    Ok(class)
}

/// Returns the number of a glyph in a rule: the glyph (format 1), or its class (format 2).
fn number_of(
    gsub: &[u8],
    subtable: usize,
    field: usize,
    glyph: usize,
    limit: &mut u64,
) -> Result<usize>
    requires near { subtable < 2 ^ 33 }
    requires field { field < 16 }
    ensures exact { IfOk result (λ number. number ≡ the_number gsub.now subtable field glyph) }
    ensures spends { limit.new ≤ limit.old }
    ensures why { IfErr result (λ e. IsUsedUp limit.new e) }
{
    if word(gsub, subtable) == 1 {
        return Ok(glyph);
    }
    let offset = word(gsub, subtable + field);
    let class = class_by(gsub, subtable, offset, glyph, limit)?;
    Ok(class)
}

/// Returns the field with the offset of the class definition table for the input.
fn input_field(kind: usize) -> usize
    ensures exact { result ≡ the_field kind }
    ensures small { result < 16 }
{
    if kind == 5 { 4 } else { 6 }
}

/// Returns the index of the set of rules for a glyph with coverage index `i`.
fn start_at(
    gsub: &[u8],
    kind: usize,
    subtable: usize,
    i: usize,
    glyph: usize,
    limit: &mut u64,
) -> Result<usize>
    requires near { subtable < 2 ^ 33 }
    ensures exact { IfOk result (λ start. Some start ≡ the_start gsub.now kind subtable (Some i) glyph) }
    ensures spends { limit.new ≤ limit.old }
    ensures why { IfErr result (λ e. IsUsedUp limit.new e) }
{
    if word(gsub, subtable) == 1 {
        return Ok(i);
    }
    let number = number_of(gsub, subtable, input_field(kind), glyph, limit)?;
    Ok(number)
}

/// Returns the index of the set of rules that begin with a glyph.
fn start_of(
    gsub: &[u8],
    kind: usize,
    subtable: usize,
    glyph: usize,
    limit: &mut u64,
) -> Result<Option<usize>>
    requires near { subtable < 2 ^ 33 }
    requires glyph { glyph < 65536 }
    ensures exact { IfOk result (λ start. start ≡ the_start gsub.now kind subtable (the_index gsub.now (coverage_of gsub.now subtable) glyph) glyph) }
    ensures spends { limit.new ≤ limit.old }
    ensures why { IfErr result (λ e. IsUsedUp limit.new e) }
{
    let coverage = subtable + word(gsub, subtable + 2);
    match coverage_index(gsub, coverage, glyph, limit)? {
        Some(i) => {
            let start = start_at(gsub, kind, subtable, i, glyph, limit)?;
            Ok(Some(start))
        }
        None => Ok(None),
    }
}

/// Returns the label of a glyph.
fn label_of(
    gsub: &[u8],
    kind: usize,
    subtable: usize,
    role: Role,
    glyph: usize,
    limit: &mut u64,
) -> Result<Option<usize>>
    requires near { subtable < 2 ^ 33 }
    requires glyph { glyph < 65536 }
    ensures exact { IfOk result (λ label. label ≡ the_label_of gsub.now kind subtable role glyph) }
    ensures spends { limit.new ≤ limit.old }
    ensures why { IfErr result (λ e. IsUsedUp limit.new e) }
{
    let field = match role {
        Role::Start => {
            let start = start_of(gsub, kind, subtable, glyph, limit)?;
            return Ok(start);
        }
        Role::Before => 4,
        Role::Input => input_field(kind),
        Role::After => 8,
    };
    let number = number_of(gsub, subtable, field, glyph, limit)?;
    Ok(Some(number))
}

/// Returns the labels of the kept glyphs in a role.
fn role_labels(
    alloc: Global,
    gsub: &[u8],
    kind: usize,
    subtable: usize,
    role: Role,
    kept: &[u16],
    limit: &mut u64,
) -> Result<Vec<Option<usize>>>
    requires near { subtable < 2 ^ 33 }
    requires few { length kept.now ≤ 65536 }
    ensures exact { IfOk result (λ labels. AreRoleLabels gsub.now kept.now kind subtable role labels.items) }
    ensures spends { limit.new ≤ limit.old }
    ensures why { IfErr result (λ e. (e ≡ errors.Memory) ⊎ IsUsedUp limit.new e) }
{
    let mut labels = Vec::new(alloc);
    for k in 0..kept.len() {
        pay(limit)?;
        let label = label_of(gsub, kind, subtable, role, kept[k] as usize, limit)?;
        labels.push(label)?;
    }
    Ok(labels)
}

/// The labels of the kept glyphs in each role.
#[derive(Drop)]
pub(crate) struct Labels {
    pub(crate) start: Vec<Option<usize>>,
    pub(crate) before: Vec<Option<usize>>,
    pub(crate) input: Vec<Option<usize>>,
    pub(crate) after: Vec<Option<usize>>,
}

/// Returns the labels of the kept glyphs in each role.
pub(crate) fn labels_of(
    alloc: Global,
    gsub: &[u8],
    kind: usize,
    subtable: usize,
    kept: &[u16],
    limit: &mut u64,
) -> Result<Labels>
    requires near { subtable < 2 ^ 33 }
    requires few { length kept.now ≤ 65536 }
    ensures exact { IfOk result (λ labels. AreLabels gsub.now kept.now kind subtable labels) }
    ensures spends { limit.new ≤ limit.old }
    ensures why { IfErr result (λ e. (e ≡ errors.Memory) ⊎ IsUsedUp limit.new e) }
{
    let start = role_labels(alloc, gsub, kind, subtable, Role::Start, kept, limit)?;
    let before = role_labels(alloc, gsub, kind, subtable, Role::Before, kept, limit)?;
    let input = role_labels(alloc, gsub, kind, subtable, Role::Input, kept, limit)?;
    let after = role_labels(alloc, gsub, kind, subtable, Role::After, kept, limit)?;
    Ok(Labels {
        start,
        before,
        input,
        after,
    })
}

/// Whether a label is a number.
fn is_label(label: Option<usize>, number: usize) -> bool
    ensures { result ≡ the_label label number }
{
    match label {
        Some(label) => label == number,
        None => false,
    }
}

/// Returns the new numbers of the glyphs with a label.
pub(crate) fn with_label(
    alloc: Global,
    labels: &[Option<usize>],
    number: usize,
    limit: &mut u64,
) -> Result<Vec<u16>>
    requires few { length labels.now ≤ 65536 }
    ensures exact { IfOk result (λ set. set.items ≡ having labels.now number) }
    ensures spends { limit.new ≤ limit.old }
    ensures why { IfErr result (λ e. (e ≡ errors.Memory) ⊎ IsUsedUp limit.new e) }
{
    pay_all(limit, labels.len())?;
    let mut numbers = Vec::new(alloc);
    for k in 0..labels.len() {
        if is_label(labels[k], number) {
            numbers.push(k as u16)?;
        }
    }
    Ok(numbers)
}
