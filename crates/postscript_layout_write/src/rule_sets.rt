//! Subtables of substitutions as they are written.
ghost use Rattle.std.specs.Prelude.{◌≡◌, ◌⊎◌, ◌+◌, ◌*◌, ◌<◌, ◌≤◌, ◌++◌, [], ◌∷◌, true, length, IfErr, IfOk, OnOk};
ghost use Rattle.std.specs.List.{All};
ghost use Rattle.postscript_layout_write.specs.RuleSets.{AddsRules, AreOfType, Begins, HasRules, IsLigature, IsShort, PlacesFit, base_of, format_of, lists, ligature_set_text, ligature_text, ligatures_text, places_text, rules_text, several_text};
ghost use Rattle.postscript_layout_write.specs.Sets.{AreOffsets};
ghost use Rattle.postscript_layout_write.specs.declared.error.Error.TheVariants as errors;

use crate::error::{Error, Result};
use crate::numbers::put_uint16;
use crate::subtables::{Sets, put_coverage, put_glyphs, put_offsets};
use std::alloc::Global;

/// Appends a sequence or a set of alternates.
#[tactic(auto, unfolding(crate::specs::RuleSets::several_text))]
fn put_several(out: &mut Vec<u8>, rule: &[u16]) -> Result<()>
    requires few { length rule.now < 65536 }
    ensures text { OnOk result (out.new.items ≡ out.old.items ++ several_text rule.now) }
    ensures memory { IfErr result (λ e. e ≡ errors.Memory) }
{
    put_uint16(out, rule.len() as u16)?;
    put_glyphs(out, rule)?;
    Ok(())
}

/// Appends a ligature.
fn put_ligature(out: &mut Vec<u8>, rule: &[u16]) -> Result<()>
    requires some { 0 < length rule.now }
    requires short { length rule.now < 65536 }
    ensures text { OnOk result (out.new.items ≡ out.old.items ++ ligature_text rule.now) }
    ensures memory { IfErr result (λ e. e ≡ errors.Memory) }
{
    put_uint16(out, rule[0])?;
    put_uint16(out, rule.len() as u16)?;
    put_glyphs(out, &rule[1..])?;
    Ok(())
}

/// Appends the offsets of ligatures that begin at an offset.
fn put_places(out: &mut Vec<u8>, start: usize, rules: &[Vec<u16>]) -> Result<()>
    requires short { All IsShort (lists rules.now) }
    ensures text { OnOk result (out.new.items ≡ out.old.items ++ places_text start (lists rules.now)) }
    ensures fit { OnOk result (PlacesFit start (lists rules.now)) }
    ensures why { IfErr result (λ e. (e ≡ errors.Memory) ⊎ (e ≡ errors.TooLarge)) }
{
    let mut at = start;
    for rule in rules {
        if at > 65535 {
            return Err(Error::TooLarge);
        }
        put_uint16(out, at as u16)?;
        at += 2 + rule.len() * 2;
    }
    Ok(())
}

/// Appends ligatures.
fn put_each(out: &mut Vec<u8>, rules: &[Vec<u16>]) -> Result<()>
    requires rules { All IsLigature (lists rules.now) }
    requires short { All IsShort (lists rules.now) }
    ensures text { OnOk result (out.new.items ≡ out.old.items ++ ligatures_text (lists rules.now)) }
    ensures memory { IfErr result (λ e. e ≡ errors.Memory) }
{
    for rule in rules {
        put_ligature(out, rule)?;
    }
    Ok(())
}

/// Appends a set of ligatures.
#[tactic(auto, unfolding(crate::specs::RuleSets::ligature_set_text))]
fn put_ligatures(out: &mut Vec<u8>, rules: &[Vec<u16>]) -> Result<()>
    requires rules { All IsLigature (lists rules.now) }
    requires short { All IsShort (lists rules.now) }
    ensures text { OnOk result (out.new.items ≡ out.old.items ++ ligature_set_text (lists rules.now)) }
    ensures fit { OnOk result (PlacesFit (2 + length (lists rules.now) * 2) (lists rules.now)) }
    ensures few { OnOk result (length (lists rules.now) < 32767) }
    ensures why { IfErr result (λ e. (e ≡ errors.Memory) ⊎ (e ≡ errors.TooLarge)) }
{
    let count = rules.len();
    if count > 32766 {
        return Err(Error::TooLarge);
    }
    put_uint16(out, count as u16)?;
    put_places(out, 2 + count * 2, rules)?;
    put_each(out, rules)?;
    Ok(())
}

/// Whether the length of each rule fits into two bytes.
fn are_short(rules: &[Vec<u16>]) -> bool
    ensures { result ≡ true → All IsShort (lists rules.now) }
{
    for rule in rules {
        if rule.len() > 65535 {
            return false;
        }
    }
    true
}

impl Sets {
    /// Returns the glyph of a single substitution, or the offset of a sequence, a set of alternates or a set of ligatures.
    fn place_rules(&mut self, alloc: Global, kind: usize, rules: &[Vec<u16>]) -> Result<usize>
        requires rules { AreOfType kind (lists rules.now) }
        requires some { 0 < length rules.now }
        requires short { All IsShort (lists rules.now) }
        ensures placed { IfOk result (λ number. HasRules kind (lists rules.now) self.new.bytes.items number) }
        ensures more { OnOk result (Begins self.old.bytes.items self.new.bytes.items) }
        ensures firsts { OnOk result (self.new.firsts.items ≡ self.old.firsts.items) }
        ensures offsets { OnOk result (self.new.offsets.items ≡ self.old.offsets.items) }
        ensures why { IfErr result (λ e. (e ≡ errors.Memory) ⊎ (e ≡ errors.TooLarge)) }
    {
        let rule = &rules[0];
        if kind == 1 {
            return Ok(rule[0] as usize);
        }
        let mut text = Vec::new(alloc);
        if kind == 4 {
            put_ligatures(&mut text, rules)?;
        } else {
            put_several(&mut text, rule)?;
        }
        let offset = self.place(&text)?;
        Ok(offset)
    }

    /// Adds the rules of a first glyph, if there are some.
    pub(crate) fn add_rules(
        &mut self,
        alloc: Global,
        kind: usize,
        first: u16,
        rules: &[Vec<u16>],
    ) -> Result<()>
        requires { (lists rules.now ≡ []) ⊎ AreOfType kind (lists rules.now) }
        ensures done { OnOk result (AddsRules kind first (lists rules.now) self.old.firsts.items self.old.offsets.items self.old.bytes.items self.new.firsts.items self.new.offsets.items self.new.bytes.items) }
        ensures why { IfErr result (λ e. (e ≡ errors.Memory) ⊎ (e ≡ errors.TooLarge)) }
    {
        if rules.is_empty() {
            return Ok(());
        }
        if !are_short(rules) {
            return Err(Error::TooLarge);
        }
        let number = self.place_rules(alloc, kind, rules)?;
        self.firsts.push(first)?;
        self.offsets.push(number)?;
        Ok(())
    }
}

/// Appends a subtable of a type from 1 to 4.
#[tactic(auto, unfolding(crate::specs::RuleSets::rules_text))]
pub(crate) fn put_rules(out: &mut Vec<u8>, kind: usize, sets: &Sets) -> Result<()>
    ensures text { OnOk result (out.new.items ≡ out.old.items ++ rules_text kind sets.now.firsts.items sets.now.offsets.items sets.now.bytes.items) }
    ensures fit { OnOk result (AreOffsets (base_of kind (length sets.now.firsts.items)) sets.now.offsets.items) }
    ensures few { OnOk result (length sets.now.firsts.items ≤ 16380) }
    ensures why { IfErr result (λ e. (e ≡ errors.Memory) ⊎ (e ≡ errors.TooLarge)) }
{
    let count = sets.firsts.len();
    if count > 16380 {
        return Err(Error::TooLarge);
    }
    put_uint16(out, if kind == 1 { 2 } else { 1 })?;
    put_uint16(out, 6 + count as u16 * 2)?;
    put_uint16(out, count as u16)?;
    put_offsets(
        out,
        if kind == 1 { 0 } else { 10 + count * 4 },
        &sets.offsets,
    )?;
    put_coverage(out, &sets.firsts)?;
    out.extend_from_slice(&sets.bytes)?;
    Ok(())
}
