//! The list of ligature carets of a `GDEF` table.
ghost use Rattle.std.specs.Prelude.{◌≡◌, ◌⊎◌, ◌+◌, ◌*◌, ◌/◌, ◌^◌, ◌<◌, ◌≤◌, ◌++◌, [], length, IfErr, IfOk, IfSome, OnOk};
ghost use Rattle.postscript_layout_write.specs.CaretLists.{AddsValues, AreCarets, AreWords, IsCaretList, caret_list_text, kept_carets, ligature_numbers, values_of as the_values};
ghost use Rattle.postscript_layout_write.specs.Carets.{caret_at, carets_covered, carets_in, carets_of};
ghost use Rattle.postscript_layout_write.specs.Refusals.{Fails, IsUsedUp};
ghost use Rattle.postscript_layout_write.specs.Sets.{AreOffsets};
ghost use Rattle.postscript_layout_write.specs.declared.error.Error.TheVariants as errors;

use crate::error::{Error, Result};
use crate::limit::pay;
use crate::numbers::{put_uint16, word};
use crate::ranges::coverage_index;
use crate::subtables::{Sets, put_coverage, put_glyphs, put_offsets};
use std::alloc::Global;

/// Appends the value of a caret: its format, and its number. Values of unknown formats are dropped.
fn push_value(values: &mut Vec<u16>, gdef: &[u8], value: usize) -> Result<()>
    requires near { value < 2 ^ 37 }
    ensures exact { OnOk result (values.new.items ≡ values.old.items ++ the_values (caret_at gdef.now value)) }
    ensures small { OnOk result (AreWords (the_values (caret_at gdef.now value))) }
    ensures memory { IfErr result (λ e. e ≡ errors.Memory) }
{
    let format = word(gdef, value);
    let number = word(gdef, value + 2) as u16;
    if format == 1 {
        values.extend_from_slice(&[1, number])?;
    } else if format == 3 {
        values.extend_from_slice(&[1, number])?;
    } else if format == 2 {
        values.extend_from_slice(&[2, number])?;
    }
    Ok(())
}

/// Collects the values of the carets of a LigGlyph table.
fn values_in(alloc: Global, gdef: &[u8], ligature: usize, limit: &mut u64) -> Result<Vec<u16>>
    requires near { ligature < 2 ^ 36 }
    ensures exact { IfOk result (λ values. values.items ≡ the_values (carets_in gdef.now ligature)) }
    ensures small { IfOk result (λ values. AreWords values.items) }
    ensures spends { limit.new ≤ limit.old }
    ensures why { IfErr result (λ e. (e ≡ errors.Memory) ⊎ IsUsedUp limit.new e) }
{
    let mut values = Vec::new(alloc);
    for i in 0..word(gdef, ligature) {
        pay(limit)?;
        let value = ligature + word(gdef, ligature + 2 + i * 2);
        push_value(&mut values, gdef, value)?;
    }
    Ok(values)
}

/// Collects the values of the carets of the glyph with a coverage index in a caret list.
fn values_covered(
    alloc: Global,
    gdef: &[u8],
    list: usize,
    index: Option<usize>,
    limit: &mut u64,
) -> Result<Vec<u16>>
    requires near { list < 65536 }
    requires few { IfSome index (λ i. i < 2 ^ 17) }
    ensures exact { IfOk result (λ values. values.items ≡ the_values (carets_covered gdef.now list index)) }
    ensures small { IfOk result (λ values. AreWords values.items) }
    ensures spends { limit.new ≤ limit.old }
    ensures why { IfErr result (λ e. (e ≡ errors.Memory) ⊎ IsUsedUp limit.new e) }
{
    match index {
        Some(i) => {
            if i < word(gdef, list + 2) {
                values_in(alloc, gdef, list + word(gdef, list + 4 + i * 2), limit)
            } else {
                Ok(Vec::new(alloc))
            }
        }
        None => Ok(Vec::new(alloc)),
    }
}

/// Collects the values of the carets of a glyph.
fn values_of(alloc: Global, gdef: &[u8], glyph: usize, limit: &mut u64) -> Result<Vec<u16>>
    requires { glyph < 65536 }
    ensures exact { IfOk result (λ values. values.items ≡ the_values (carets_of gdef.now glyph)) }
    ensures small { IfOk result (λ values. AreWords values.items) }
    ensures spends { limit.new ≤ limit.old }
    ensures why { IfErr result (λ e. (e ≡ errors.Memory) ⊎ IsUsedUp limit.new e) }
{
    let list = word(gdef, 8);
    if list == 0 {
        return Ok(Vec::new(alloc));
    }
    let index = coverage_index(gdef, list + word(gdef, list), glyph, limit)?;
    let values = values_covered(alloc, gdef, list, index, limit)?;
    Ok(values)
}

/// Returns the numbers of a LigGlyph table: the number of its values, their offsets, and the values.
fn numbers_of(alloc: Global, values: &[u16]) -> Result<Vec<u16>>
    ensures exact { IfOk result (λ numbers. numbers.items ≡ ligature_numbers (length values.now / 2) values.now) }
    ensures few { OnOk result (length values.now / 2 ≤ 10922) }
    ensures why { IfErr result (λ e. (e ≡ errors.Memory) ⊎ (e ≡ errors.TooLarge)) }
{
    let count = values.len() / 2;
    if count > 10922 {
        return Err(Error::TooLarge);
    }
    let mut numbers = Vec::new(alloc);
    numbers.push(count as u16)?;
    for i in 0..count {
        numbers.push((2 + count * 2 + i * 4) as u16)?;
    }
    numbers.extend_from_slice(values)?;
    Ok(numbers)
}

/// Adds the LigGlyph table of a glyph, if it has carets.
fn add(carets: &mut Sets, alloc: Global, glyph: u16, values: &[u16]) -> Result<()>
    ensures done { OnOk result (AddsValues glyph values.now carets.old.firsts.items carets.old.offsets.items carets.old.bytes.items carets.new.firsts.items carets.new.offsets.items carets.new.bytes.items) }
    ensures why { IfErr result (λ e. (e ≡ errors.Memory) ⊎ (e ≡ errors.TooLarge)) }
{
    if values.is_empty() {
        return Ok(());
    }
    let numbers = numbers_of(alloc, values)?;
    let mut text = Vec::new(alloc);
    put_glyphs(&mut text, &numbers)?;
    let offset = carets.place(&text)?;
    carets.firsts.push(glyph)?;
    carets.offsets.push(offset)?;
    Ok(())
}

/// Collects the LigGlyph tables of the kept glyphs that have carets.
fn tables_of(alloc: Global, gdef: &[u8], kept: &[u16], limit: &mut u64) -> Result<Sets>
    requires few { length kept.now < 65536 }
    ensures exact { IfOk result (λ carets. AreCarets (kept_carets gdef.now kept.now) (length kept.now) carets.firsts.items carets.offsets.items carets.bytes.items) }
    ensures spends { limit.new ≤ limit.old }
    ensures why { IfErr result (λ e. Fails limit.new e) }
{
    let mut carets = Sets::new(alloc);
    for k in 0..kept.len() {
        pay(limit)?;
        let values = values_of(alloc, gdef, kept[k] as usize, limit)?;
        add(&mut carets, alloc, k as u16, &values)?;
    }
    Ok(carets)
}

/// Appends a caret list.
#[tactic(auto, unfolding(crate::specs::CaretLists::caret_list_text))]
fn put_list(out: &mut Vec<u8>, carets: &Sets) -> Result<()>
    ensures text { OnOk result (out.new.items ≡ out.old.items ++ caret_list_text carets.now.firsts.items carets.now.offsets.items carets.now.bytes.items) }
    ensures fit { OnOk result (AreOffsets (8 + length carets.now.firsts.items * 4) carets.now.offsets.items) }
    ensures few { OnOk result (length carets.now.firsts.items ≤ 16380) }
    ensures why { IfErr result (λ e. (e ≡ errors.Memory) ⊎ (e ≡ errors.TooLarge)) }
{
    let count = carets.firsts.len();
    if count > 16380 {
        return Err(Error::TooLarge);
    }
    put_uint16(out, 4 + count as u16 * 2)?;
    put_uint16(out, count as u16)?;
    put_offsets(out, 8 + count * 4, &carets.offsets)?;
    put_coverage(out, &carets.firsts)?;
    out.extend_from_slice(&carets.bytes)?;
    Ok(())
}

/// Returns the caret list of the kept glyphs. It has no bytes if they have no carets.
pub(crate) fn caret_list(
    alloc: Global,
    gdef: &[u8],
    kept: &[u16],
    limit: &mut u64,
) -> Result<Vec<u8>>
    requires few { length kept.now < 65536 }
    ensures exact { IfOk result (λ list. IsCaretList (kept_carets gdef.now kept.now) (length kept.now) list.items) }
    ensures spends { limit.new ≤ limit.old }
    ensures why { IfErr result (λ e. Fails limit.new e) }
{
    let carets = tables_of(alloc, gdef, kept, limit)?;
    let mut list = Vec::new(alloc);
    if carets.firsts.is_empty() {
        return Ok(list);
    }
    put_list(&mut list, &carets)?;
    Ok(list)
}
