//! The rules of a lookup of substitutions for a first glyph, under new numbers.
ghost use Rattle.std.specs.Prelude.{◌≡◌, ◌⊎◌, ◌+◌, ◌^◌, ◌<◌, ◌≤◌, ◌++◌, [], ◌∷◌, length, is_some, IfErr, IfOk, IfSome, OnOk};
ghost use Rattle.std.specs.List.{All};
ghost use Rattle.postscript_layout.specs.Numbers.{word as the_word, words as the_words};
ghost use Rattle.postscript_layout.specs.Substitutions.{glyphs_of};
ghost use Rattle.postscript_layout_write.specs.Refusals.{IsUsedUp};
ghost use Rattle.postscript_layout_write.specs.Renumbering.{AreNumbers, kept_rules};
ghost use Rattle.postscript_layout_write.specs.RuleSets.{lists};
ghost use Rattle.postscript_layout_write.specs.Rules.{all_rules as the_all, first_rules as the_first, ligature_rule, ligature_rules, or_none, part_at as the_part, rules_by, rules_in, rules_of_type, set_at as the_set, single_of as the_single, type_at};
ghost use Rattle.postscript_layout_write.specs.declared.error.Error.TheVariants as errors;

use crate::error::Result;
use crate::limit::pay;
use crate::numbers::{long, word};
use crate::ranges::coverage_index;
use crate::renumbering::renumber;
use std::alloc::Global;

/// Returns the type of a lookup. An extension has the type of its first subtable.
pub(crate) fn type_of(gsub: &[u8], lookup: usize) -> usize
    requires near { lookup < 2 ^ 31 }
    ensures exact { result ≡ type_at gsub.now lookup }
    ensures small { result < 65536 }
{
    let kind = word(gsub, lookup);
    if kind == 7 {
        word(gsub, lookup + word(gsub, lookup + 6) + 2)
    } else {
        kind
    }
}

/// Returns the offset of subtable `j` of a lookup, or of the subtable that its extension names, if that has a type.
pub(crate) fn part_at(gsub: &[u8], lookup: usize, kind: usize, j: usize) -> Option<usize>
    requires near { lookup < 2 ^ 31 }
    requires few { j < 65536 }
    ensures exact { result ≡ the_part gsub.now lookup kind j }
    ensures near { IfSome result (λ at. at < 2 ^ 33) }
{
    let part = lookup + word(gsub, lookup + 6 + j * 2);
    if word(gsub, lookup) == kind {
        Some(part)
    } else if word(gsub, lookup) == 7 && word(gsub, part + 2) == kind {
        Some(part + long(gsub, part + 4))
    } else {
        None
    }
}

/// Returns the glyph that a subtable of type 1 puts in the place of a glyph with coverage index `i`.
fn single_of(gsub: &[u8], subtable: usize, i: usize, glyph: usize) -> Option<usize>
    requires near { subtable < 2 ^ 33 }
    requires few { i < 2 ^ 17 }
    requires glyph { glyph < 65536 }
    ensures exact { result ≡ the_single gsub.now subtable i glyph }
    ensures small { IfSome result (λ other. other < 65536) }
{
    match word(gsub, subtable) {
        1 => Some((glyph + word(gsub, subtable + 4)) % 65536),
        2 => {
            if i < word(gsub, subtable + 4) {
                Some(word(gsub, subtable + 6 + i * 2))
            } else {
                None
            }
        }
        _ => None,
    }
}

/// Returns the offset of the sequence, the set of alternates or the set of ligatures for coverage index `i`.
fn set_at(gsub: &[u8], subtable: usize, i: usize) -> Option<usize>
    requires near { subtable < 2 ^ 33 }
    requires few { i < 2 ^ 17 }
    ensures exact { result ≡ the_set gsub.now subtable i }
    ensures near { IfSome result (λ at. at < 2 ^ 34) }
{
    if word(gsub, subtable) == 1 && i < word(gsub, subtable + 4) {
        Some(subtable + word(gsub, subtable + 6 + i * 2))
    } else {
        None
    }
}

/// Appends an array of glyphs.
pub(crate) fn read_glyphs(
    out: &mut Vec<u16>,
    gsub: &[u8],
    offset: usize,
    count: usize,
    limit: &mut u64,
) -> Result<()>
    requires near { offset < 2 ^ 35 }
    requires few { count < 65536 }
    ensures exact { OnOk result (out.new.items ≡ out.old.items ++ the_words gsub.now offset count) }
    ensures small { OnOk result (All (λ number. number < 65536) (the_words gsub.now offset count)) }
    ensures spends { limit.new ≤ limit.old }
    ensures why { IfErr result (λ e. (e ≡ errors.Memory) ⊎ IsUsedUp limit.new e) }
{
    for k in 0..count {
        pay(limit)?;
        let glyph = word(gsub, offset + k * 2);
        out.push(glyph as u16)?;
    }
    Ok(())
}

/// Appends a rule under new numbers, if all of its glyphs are kept.
fn add_rule(
    alloc: Global,
    kept: &[u16],
    numbers: &[Option<usize>],
    rule: &[u16],
    rules: &mut Vec<Vec<u16>>,
) -> Result<()>
    requires small { length kept.now < 65536 }
    requires exact { AreNumbers kept.now numbers.now }
    ensures added { OnOk result (lists rules.new.items ≡ lists rules.old.items ++ kept_rules kept.now (rule.now ∷ [])) }
    ensures memory { IfErr result (λ e. e ≡ errors.Memory) }
{
    if let Some(new) = renumber(alloc, kept, numbers, rule)? {
        rules.push(new)?;
    }
    Ok(())
}

/// Appends the rule of a sequence or of a set of alternates.
fn add_several(
    alloc: Global,
    gsub: &[u8],
    set: usize,
    kept: &[u16],
    numbers: &[Option<usize>],
    rules: &mut Vec<Vec<u16>>,
    limit: &mut u64,
) -> Result<()>
    requires near { set < 2 ^ 34 }
    requires small { length kept.now < 65536 }
    requires exact { AreNumbers kept.now numbers.now }
    ensures added { OnOk result (lists rules.new.items ≡ lists rules.old.items ++ kept_rules kept.now (glyphs_of gsub.now set ∷ [])) }
    ensures spends { limit.new ≤ limit.old }
    ensures why { IfErr result (λ e. (e ≡ errors.Memory) ⊎ IsUsedUp limit.new e) }
{
    let mut rule = Vec::new(alloc);
    let count = word(gsub, set);
    read_glyphs(&mut rule, gsub, set + 2, count, limit)?;
    add_rule(alloc, kept, numbers, &rule, rules)?;
    Ok(())
}

/// Appends the rule of a ligature.
fn add_ligature(
    alloc: Global,
    gsub: &[u8],
    ligature: usize,
    kept: &[u16],
    numbers: &[Option<usize>],
    rules: &mut Vec<Vec<u16>>,
    limit: &mut u64,
) -> Result<()>
    requires near { ligature < 2 ^ 34 + 2 ^ 16 }
    requires small { length kept.now < 65536 }
    requires exact { AreNumbers kept.now numbers.now }
    ensures added { OnOk result (lists rules.new.items ≡ lists rules.old.items ++ kept_rules kept.now (ligature_rule gsub.now ligature ∷ [])) }
    ensures spends { limit.new ≤ limit.old }
    ensures why { IfErr result (λ e. (e ≡ errors.Memory) ⊎ IsUsedUp limit.new e) }
{
    let mut rule = Vec::new(alloc);
    rule.push(word(gsub, ligature) as u16)?;
    let count = word(gsub, ligature + 2).saturating_sub(1);
    read_glyphs(&mut rule, gsub, ligature + 4, count, limit)?;
    add_rule(alloc, kept, numbers, &rule, rules)?;
    Ok(())
}

/// Appends the rules of a set of ligatures.
fn add_ligatures(
    alloc: Global,
    gsub: &[u8],
    set: usize,
    kept: &[u16],
    numbers: &[Option<usize>],
    rules: &mut Vec<Vec<u16>>,
    limit: &mut u64,
) -> Result<()>
    requires near { set < 2 ^ 34 }
    requires small { length kept.now < 65536 }
    requires exact { AreNumbers kept.now numbers.now }
    ensures added { OnOk result (lists rules.new.items ≡ lists rules.old.items ++ kept_rules kept.now (ligature_rules gsub.now set (the_word gsub.now set))) }
    ensures spends { limit.new ≤ limit.old }
    ensures why { IfErr result (λ e. (e ≡ errors.Memory) ⊎ IsUsedUp limit.new e) }
{
    let count = word(gsub, set);
    for k in 0..count {
        pay(limit)?;
        let ligature = set + word(gsub, set + 2 + k * 2);
        add_ligature(alloc, gsub, ligature, kept, numbers, rules, limit)?;
    }
    Ok(())
}

/// Appends the rules of a subtable for a glyph with coverage index `i`, and returns whether it has an entry for the glyph.
fn add_covered(
    alloc: Global,
    gsub: &[u8],
    kind: usize,
    subtable: usize,
    i: usize,
    glyph: usize,
    kept: &[u16],
    numbers: &[Option<usize>],
    rules: &mut Vec<Vec<u16>>,
    limit: &mut u64,
) -> Result<bool>
    requires near { subtable < 2 ^ 33 }
    requires few { i < 2 ^ 17 }
    requires glyph { glyph < 65536 }
    requires small { length kept.now < 65536 }
    requires exact { AreNumbers kept.now numbers.now }
    ensures added { OnOk result (lists rules.new.items ≡ lists rules.old.items ++ kept_rules kept.now (or_none (rules_by gsub.now kind subtable i glyph))) }
    ensures there { IfOk result (λ there. there ≡ is_some (rules_by gsub.now kind subtable i glyph)) }
    ensures spends { limit.new ≤ limit.old }
    ensures why { IfErr result (λ e. (e ≡ errors.Memory) ⊎ IsUsedUp limit.new e) }
{
    if kind == 1 {
        return match single_of(gsub, subtable, i, glyph) {
            Some(result) => {
                add_rule(alloc, kept, numbers, &[result as u16], rules)?;
                Ok(true)
            }
            None => Ok(false),
        };
    }
    match set_at(gsub, subtable, i) {
        Some(set) => {
            if kind == 4 {
                add_ligatures(alloc, gsub, set, kept, numbers, rules, limit)?;
            } else {
                add_several(alloc, gsub, set, kept, numbers, rules, limit)?;
            }
            Ok(true)
        }
        None => Ok(false),
    }
}

/// Appends the rules of subtable `j` of a lookup for a glyph, and returns whether it has an entry for the glyph.
fn add_part(
    alloc: Global,
    gsub: &[u8],
    lookup: usize,
    kind: usize,
    j: usize,
    glyph: usize,
    kept: &[u16],
    numbers: &[Option<usize>],
    rules: &mut Vec<Vec<u16>>,
    limit: &mut u64,
) -> Result<bool>
    requires near { lookup < 2 ^ 31 }
    requires few { j < 65536 }
    requires glyph { glyph < 65536 }
    requires small { length kept.now < 65536 }
    requires exact { AreNumbers kept.now numbers.now }
    ensures added { OnOk result (lists rules.new.items ≡ lists rules.old.items ++ kept_rules kept.now (or_none (rules_in gsub.now kind (the_part gsub.now lookup kind j) glyph))) }
    ensures there { IfOk result (λ there. there ≡ is_some (rules_in gsub.now kind (the_part gsub.now lookup kind j) glyph)) }
    ensures spends { limit.new ≤ limit.old }
    ensures why { IfErr result (λ e. (e ≡ errors.Memory) ⊎ IsUsedUp limit.new e) }
{
    match part_at(gsub, lookup, kind, j) {
        Some(subtable) => {
            let coverage = subtable + word(gsub, subtable + 2);
            match coverage_index(gsub, coverage, glyph, limit)? {
                Some(i) => {
                    let found = add_covered(
                        alloc, gsub, kind, subtable, i, glyph, kept, numbers, rules, limit,
                    )?;
                    Ok(found)
                }
                None => Ok(false),
            }
        }
        None => Ok(false),
    }
}

/// Returns the rules of the first subtable that has an entry for a glyph.
fn first_rules(
    alloc: Global,
    gsub: &[u8],
    lookup: usize,
    kind: usize,
    glyph: usize,
    kept: &[u16],
    numbers: &[Option<usize>],
    limit: &mut u64,
) -> Result<Vec<Vec<u16>>>
    requires near { lookup < 2 ^ 31 }
    requires glyph { glyph < 65536 }
    requires small { length kept.now < 65536 }
    requires exact { AreNumbers kept.now numbers.now }
    ensures exact { IfOk result (λ rules. lists rules.items ≡ kept_rules kept.now (the_first gsub.now lookup kind glyph)) }
    ensures spends { limit.new ≤ limit.old }
    ensures why { IfErr result (λ e. (e ≡ errors.Memory) ⊎ IsUsedUp limit.new e) }
{
    let mut rules = Vec::new(alloc);
    let count = word(gsub, lookup + 4);
    for j in 0..count {
        pay(limit)?;
        if add_part(
            alloc, gsub, lookup, kind, j, glyph, kept, numbers, &mut rules, limit,
        )? {
            return Ok(rules);
        }
    }
    Ok(rules)
}

/// Returns the rules of all subtables for a glyph.
fn all_rules(
    alloc: Global,
    gsub: &[u8],
    lookup: usize,
    kind: usize,
    glyph: usize,
    kept: &[u16],
    numbers: &[Option<usize>],
    limit: &mut u64,
) -> Result<Vec<Vec<u16>>>
    requires near { lookup < 2 ^ 31 }
    requires glyph { glyph < 65536 }
    requires small { length kept.now < 65536 }
    requires exact { AreNumbers kept.now numbers.now }
    ensures exact { IfOk result (λ rules. lists rules.items ≡ kept_rules kept.now (the_all gsub.now lookup kind glyph (the_word gsub.now (lookup + 4)))) }
    ensures spends { limit.new ≤ limit.old }
    ensures why { IfErr result (λ e. (e ≡ errors.Memory) ⊎ IsUsedUp limit.new e) }
{
    let mut rules = Vec::new(alloc);
    let count = word(gsub, lookup + 4);
    for j in 0..count {
        pay(limit)?;
        add_part(
            alloc, gsub, lookup, kind, j, glyph, kept, numbers, &mut rules, limit,
        )?;
    }
    Ok(rules)
}

/// Returns the rules of a lookup of a type from 1 to 4 for a glyph, under new numbers, if their glyphs are kept.
pub(crate) fn new_rules(
    alloc: Global,
    gsub: &[u8],
    lookup: usize,
    kind: usize,
    glyph: usize,
    kept: &[u16],
    numbers: &[Option<usize>],
    limit: &mut u64,
) -> Result<Vec<Vec<u16>>>
    requires near { lookup < 2 ^ 31 }
    requires glyph { glyph < 65536 }
    requires small { length kept.now < 65536 }
    requires exact { AreNumbers kept.now numbers.now }
    ensures exact { IfOk result (λ rules. lists rules.items ≡ kept_rules kept.now (rules_of_type gsub.now lookup kind glyph)) }
    ensures spends { limit.new ≤ limit.old }
    ensures why { IfErr result (λ e. (e ≡ errors.Memory) ⊎ IsUsedUp limit.new e) }
{
    if kind == 4 {
        let rules = all_rules(alloc, gsub, lookup, kind, glyph, kept, numbers, limit)?;
        Ok(rules)
    } else {
        let rules = first_rules(alloc, gsub, lookup, kind, glyph, kept, numbers, limit)?;
        Ok(rules)
    }
}
