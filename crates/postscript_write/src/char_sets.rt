//! Charsets with new SIDs or CIDs (Technical Note 5176, section 13).
ghost use Rattle.std.specs.Prelude.{◌≡◌, ◌++◌, ◌+◌, ◌<◌, IfErr, IfOk, OnOk, Some, length, slice_index_or};
ghost use Rattle.std.specs.Bool.{OnFalse};
ghost use Rattle.postscript_base.specs.declared.error.Error.TheVariants as causes;
ghost use Rattle.postscript_write.specs.Firsts.{AreFirsts};
ghost use Rattle.postscript_write.specs.Numbered.{IsSetFor};
ghost use Rattle.postscript_write.specs.Renumbered.{new_identifiers};
ghost use Rattle.postscript_write.specs.SetTexts.{Continue, IsNext, NamesAll, names_text, span_text, spans_text};
ghost use Rattle.postscript_write.specs.declared.error.Error.TheVariants as errors;

use crate::error::Result;
use crate::number::put_number;
use crate::strings::Strings;
use postscript_base::compact1::StringID;
use std::alloc::Global;

/// The new SIDs or CIDs.
fn new_identifiers(alloc: Global, identifiers: &[StringID], strings: &Strings) -> Result<Vec<usize>>
    ensures new { IfOk result (λ new. new.items ≡ new_identifiers strings.now identifiers.now) }
    ensures memory { IfErr result (λ e. e ≡ errors.Refused causes.Memory) }
{
    let mut new = Vec::new(alloc);
    for i in 0..identifiers.len() {
        new.push(strings.identifier(usize::from(identifiers[i])))?;
    }
    Ok(new)
}

/// A charset of format 0.
fn put_names(out: &mut Vec<u8>, identifiers: &[usize]) -> Result<()>
    ensures text { OnOk result (out.new.items ≡ out.old.items ++ names_text identifiers.now) }
    ensures memory { IfErr result (λ e. e ≡ errors.Refused causes.Memory) }
{
    put_number(out, 1, 0)?;
    for i in 0..identifiers.len() {
        put_number(out, 2, identifiers[i])?;
    }
    Ok(())
}

/// Whether a glyph begins a range of a charset: its SID does not continue the range before it, or that range is full.
fn begins_span(identifiers: &[usize], firsts: &[usize], i: usize) -> bool
    requires { i < length identifiers.now }
    ensures { OnFalse result (IsNext identifiers.now firsts.now i) }
{
    if i == 0 || identifiers[i] == 0 || firsts.is_empty() {
        return true;
    }
    let first = firsts[firsts.len() - 1];
    identifiers[i] - 1 != identifiers[i - 1] || i.saturating_sub(first) > 255
}

/// The glyphs that begin the ranges of a charset.
fn spans_of(alloc: Global, identifiers: &[usize]) -> Result<Vec<usize>>
    ensures firsts { IfOk result (λ firsts. AreFirsts (Continue identifiers.now) firsts.items (length identifiers.now)) }
    ensures memory { IfErr result (λ e. e ≡ errors.Refused causes.Memory) }
{
    let mut firsts = Vec::new(alloc);
    for i in 0..identifiers.len() {
        if begins_span(identifiers, &firsts, i) {
            firsts.push(i)?;
        }
    }
    Ok(firsts)
}

/// The glyph after range `r`.
fn behind_span(identifiers: &[usize], firsts: &[usize], r: usize) -> usize
    requires { r < length firsts.now }
    ensures { result ≡ slice_index_or firsts.now (r + 1) (length identifiers.now) }
{
    match firsts.get(r + 1) {
        Some(next) => *next,
        None => identifiers.len(),
    }
}

/// A range of a charset of format 1.
fn put_span(out: &mut Vec<u8>, identifiers: &[usize], firsts: &[usize], r: usize) -> Result<()>
    requires firsts { AreFirsts (Continue identifiers.now) firsts.now (length identifiers.now) }
    requires there { r < length firsts.now }
    ensures text { OnOk result (out.new.items ≡ out.old.items ++ span_text identifiers.now firsts.now r) }
    ensures memory { IfErr result (λ e. e ≡ errors.Refused causes.Memory) }
{
    let first = firsts[r];
    put_number(out, 2, identifiers[first])?;
    put_number(out, 1, behind_span(identifiers, firsts, r) - first - 1)?;
    Ok(())
}

/// A charset of format 1 with the ranges that begin at these glyphs.
fn put_spans(out: &mut Vec<u8>, identifiers: &[usize], firsts: &[usize]) -> Result<()>
    requires { AreFirsts (Continue identifiers.now) firsts.now (length identifiers.now) }
    ensures text { OnOk result (out.new.items ≡ out.old.items ++ spans_text identifiers.now firsts.now) }
    ensures memory { IfErr result (λ e. e ≡ errors.Refused causes.Memory) }
{
    put_number(out, 1, 1)?;
    for r in 0..firsts.len() {
        put_span(out, identifiers, firsts, r)?;
    }
    Ok(())
}

/// A charset with these SIDs or CIDs, in the shorter of the formats 0 and 1.
fn names(alloc: Global, identifiers: &[usize]) -> Result<Vec<u8>>
    ensures names { IfOk result (λ text. NamesAll text.items identifiers.now) }
    ensures memory { IfErr result (λ e. e ≡ errors.Refused causes.Memory) }
{
    let mut out = Vec::new(alloc);
    let firsts = spans_of(alloc, identifiers)?;
    if firsts.len().saturating_mul(3) < identifiers.len().saturating_mul(2) {
        put_spans(&mut out, identifiers, &firsts)?;
        return Ok(out);
    }
    put_names(&mut out, identifiers)?;
    Ok(out)
}

/// A charset with the new SIDs or CIDs.
pub(crate) fn set_of_list(
    alloc: Global,
    identifiers: &[StringID],
    strings: &Strings,
) -> Result<Vec<u8>>
    ensures text { IfOk result (λ out. IsSetFor strings.now identifiers.now (Some out.items)) }
    ensures memory { IfErr result (λ e. e ≡ errors.Refused causes.Memory) }
{
    let new = new_identifiers(alloc, identifiers, strings)?;
    names(alloc, &new)
}
