//! The chosen lookups that are left out.
ghost use Rattle.std.specs.Prelude.{◌≡◌, ◌^◌, ◌<◌, IfErr, IfOk};
ghost use Rattle.postscript_layout_write.specs.Leaving.{can_keep as the_keeping, flagged_left_below, is_left as the_left, left_below, left_by};
ghost use Rattle.postscript_layout_write.specs.Pairs.{lookups_of};
ghost use Rattle.postscript_layout_write.specs.declared.error.Error.TheVariants as errors;

use crate::contexts::is_contextual;
use crate::error::Result;
use crate::numbers::word;
use crate::rules::type_of;
use crate::substituting::{is_chosen, is_kept, takes_flag};
use std::alloc::Global;

/// Whether a lookup has a type and a flag with which rules or contexts are kept.
fn can_keep(whole: bool, gsub: &[u8], lookup: usize) -> bool
    requires { lookup < 2 ^ 31 }
    ensures { result ≡ the_keeping whole gsub.now lookup }
{
    let kind = type_of(gsub, lookup);
    (is_kept(kind) || is_contextual(gsub, lookup) || kind == 8)
        && takes_flag(whole, word(gsub, lookup + 2))
}

/// Whether a lookup is chosen and has subtables, but no rules or contexts of it are kept.
fn is_left(whole: bool, gsub: &[u8], lookup: usize, lookups: &[u16], i: usize) -> bool
    requires { lookup < 2 ^ 31 }
    ensures { result ≡ the_left whole gsub.now lookups.now i lookup }
{
    word(gsub, lookup + 4) > 0 && !can_keep(whole, gsub, lookup) && is_chosen(lookups, i)
}

/// Returns the chosen lookups that are left out, with or without whole flags.
fn left_of(alloc: Global, whole: bool, gsub: &[u8], lookups: &[u16]) -> Result<Vec<u16>>
    ensures exact { IfOk result (λ left. left.items ≡ left_by whole gsub.now lookups.now (lookups_of gsub.now)) }
    ensures memory { IfErr result (λ e. e ≡ errors.Memory) }
{
    let mut left = Vec::new(alloc);
    let list = word(gsub, 8);
    let count = word(gsub, list);
    for i in 0..count {
        let lookup = list + word(gsub, list + 2 + i * 2);
        if is_left(whole, gsub, lookup, lookups, i) {
            left.push(i as u16)?;
        }
    }
    Ok(left)
}

/// Returns the chosen lookups that have subtables, but get none from `substitutions`, because of their type, the format of
/// their subtables or their flag.
///
/// # Errors
///
/// `Memory`: out of memory.
pub fn left_out(alloc: Global, gsub: &[u8], lookups: &[u16]) -> Result<Vec<u16>>
    // Exactly these lookups are left out.
    ensures exact { IfOk result (λ left. left.items ≡ left_below gsub.now lookups.now (lookups_of gsub.now)) }
    // The only error is `Memory`.
    ensures memory { IfErr result (λ e. e ≡ errors.Memory) }
{
    let left = left_of(alloc, false, gsub, lookups)?;
    Ok(left)
}

/// Returns the chosen lookups that have subtables, but get none from `flagged_substitutions`, because of their type or the
/// format of their subtables.
///
/// # Errors
///
/// `Memory`: out of memory.
pub fn flagged_left_out(alloc: Global, gsub: &[u8], lookups: &[u16]) -> Result<Vec<u16>>
    // Exactly these lookups are left out.
    ensures exact { IfOk result (λ left. left.items ≡ flagged_left_below gsub.now lookups.now (lookups_of gsub.now)) }
    // The only error is `Memory`.
    ensures memory { IfErr result (λ e. e ≡ errors.Memory) }
{
    let left = left_of(alloc, true, gsub, lookups)?;
    Ok(left)
}
