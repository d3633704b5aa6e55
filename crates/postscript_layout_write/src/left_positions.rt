//! The lookups of positions that are left out.
ghost use Rattle.std.specs.Prelude.{◌≡◌, ◌⊎◌, ◌^◌, ◌<◌, ◌≤◌, IfErr, IfOk};
ghost use Rattle.postscript_layout_write.specs.LeftPositions.{has_positions as the_having, is_left as the_left, left_below, left_by, left_with_flags_below};
ghost use Rattle.postscript_layout_write.specs.Pairs.{lookups_of};
ghost use Rattle.postscript_layout_write.specs.Refusals.{IsUsedUp};
ghost use Rattle.postscript_layout_write.specs.declared.error.Error.TheVariants as errors;

use crate::error::Result;
use crate::limit::pay;
use crate::numbers::word;
use crate::position_contexts::is_contextual;
use crate::scope::{Scope, leaves_out};
use crate::typed::{has_no_pairs, is_kept_type, type_of};
use std::alloc::Global;

/// Whether a lookup has positions that are kept.
fn has_positions(gpos: &[u8], lookup: usize, limit: &mut u64) -> Result<bool>
    requires near { lookup < 2 ^ 31 }
    ensures exact { IfOk result (λ has. has ≡ the_having gpos.now lookup) }
    ensures spends { limit.new ≤ limit.old }
    ensures why { IfErr result (λ e. IsUsedUp limit.new e) }
{
    let contextual = is_contextual(gpos, lookup, limit)?;
    if is_kept_type(type_of(gpos, lookup)) || contextual {
        Ok(true)
    } else {
        let none = has_no_pairs(gpos, lookup, limit)?;
        Ok(!none)
    }
}

/// Whether a lookup has subtables, but they are not kept.
fn is_left(gpos: &[u8], scope: Scope, lookup: usize, limit: &mut u64) -> Result<bool>
    requires near { lookup < 2 ^ 31 }
    ensures exact { IfOk result (λ left. left ≡ the_left scope gpos.now lookup) }
    ensures spends { limit.new ≤ limit.old }
    ensures why { IfErr result (λ e. IsUsedUp limit.new e) }
{
    let flagged = leaves_out(scope, word(gpos, lookup + 2));
    let has = has_positions(gpos, lookup, limit)?;
    Ok(word(gpos, lookup + 4) > 0 && (flagged || !has))
}

/// Returns the lookups that are left out.
fn left_by(alloc: Global, gpos: &[u8], scope: Scope, limit: &mut u64) -> Result<Vec<u16>>
    ensures exact { IfOk result (λ left. left.items ≡ left_by scope gpos.now (lookups_of gpos.now)) }
    ensures spends { limit.new ≤ limit.old }
    ensures why { IfErr result (λ e. (e ≡ errors.Memory) ⊎ IsUsedUp limit.new e) }
{
    let mut left = Vec::new(alloc);
    let list = word(gpos, 8);
    let count = word(gpos, list);
    for i in 0..count {
        pay(limit)?;
        let lookup = list + word(gpos, list + 2 + i * 2);
        let is_left = is_left(gpos, scope, lookup, limit)?;
        if is_left {
            left.push(i as u16)?;
        }
    }
    Ok(left)
}

/// Returns the lookups that have subtables, but get none from `positions`, because of their type, the format of their
/// subtables or their flag.
///
/// One unit of the limit is paid for each lookup, and at most two for each subtable.
///
/// # Errors
///
/// - `TooLong`: the lookups cost more than the limit.
/// - `Memory`: out of memory.
pub fn positions_left_out(alloc: Global, gpos: &[u8], limit: &mut u64) -> Result<Vec<u16>>
    // Exactly these lookups are left out.
    ensures exact { IfOk result (λ left. left.items ≡ left_below gpos.now (lookups_of gpos.now)) }
    // The limit never grows.
    ensures spends { limit.new ≤ limit.old }
    // The only errors are `Memory`, and `TooLong` with nothing left of the limit.
    ensures why { IfErr result (λ e. (e ≡ errors.Memory) ⊎ IsUsedUp limit.new e) }
{
    let left = left_by(alloc, gpos, Scope::Marks, limit)?;
    Ok(left)
}

/// Returns the lookups that have subtables, but get none from `flagged_positions`, because of their type or the
/// format of their subtables.
///
/// One unit of the limit is paid for each lookup, and at most two for each subtable.
///
/// # Errors
///
/// - `TooLong`: the lookups cost more than the limit.
/// - `Memory`: out of memory.
pub fn flagged_positions_left_out(alloc: Global, gpos: &[u8], limit: &mut u64) -> Result<Vec<u16>>
    // Exactly these lookups are left out.
    ensures exact { IfOk result (λ left. left.items ≡ left_with_flags_below gpos.now (lookups_of gpos.now)) }
    // The limit never grows.
    ensures spends { limit.new ≤ limit.old }
    // The only errors are `Memory`, and `TooLong` with nothing left of the limit.
    ensures why { IfErr result (λ e. (e ≡ errors.Memory) ⊎ IsUsedUp limit.new e) }
{
    let left = left_by(alloc, gpos, Scope::Flags, limit)?;
    Ok(left)
}
