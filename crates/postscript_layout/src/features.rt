//! The lookups that features name.
ghost use Rattle.std.specs.Prelude.{◌≡◌, ◌≢◌, ◌⊎◌, ℕ, ◌+◌, ◌^◌, ◌<◌, ◌≤◌, true, false, Err, IfErr, IfOk, OnOk};
ghost use Rattle.std.specs.List.{Contains};
ghost use Rattle.std.specs.List.Sorted.{IsStrictlyIncreasing};
ghost use Rattle.postscript_layout.specs.Costs.{IsShort, features_cost};
ghost use Rattle.postscript_layout.specs.Features.{AreNamed, IsNamed, Names, feature_at as the_feature};
ghost use Rattle.postscript_layout.specs.Numbers.{word as the_word};
ghost use Rattle.postscript_layout.specs.Refusals.{IsUsedUp};
ghost use Rattle.postscript_layout.specs.Steps.{Gathers};
ghost use Rattle.postscript_layout.specs.Substitutions.{every_lookup};
ghost use Rattle.postscript_layout.specs.declared.error.Error.TheVariants as errors;

use crate::closing::listed;
use crate::error::Result;
use crate::glyph_set::{GlyphSet, pay};
use crate::numbers::{long, word};
use std::alloc::Global;

/// Returns whether a list has a tag.
fn has_tag(tags: &[u32], tag: usize) -> bool
    ensures yes { result ≡ true → Contains tags.now tag }
    ensures no { result ≡ false → Contains tags.now tag → ⊥ }
{
    for one in tags {
        if *one as usize == tag {
            return true;
        }
    }
    false
}

/// Adds the lookups of feature `i`, if it has one of the tags.
fn put_feature(
    table: &[u8],
    tags: &[u32],
    i: usize,
    set: &mut GlyphSet,
    limit: &mut u64,
) -> Result<()>
    requires few { i < 65536 }
    ensures done { OnOk result (Gathers (λ lookup. Names table.now tags.now lookup i) set.old set.new) }
    ensures spends { limit.new ≤ limit.old }
    ensures within { OnOk result (limit.old ≤ limit.new + the_word table.now (the_feature table.now i + 2)) }
    ensures why { IfErr result (λ e. IsShort (the_word table.now (the_feature table.now i + 2)) limit.old limit.new e) }
{
    let list = word(table, 6);
    let record = list + 2 + i * 6;
    if !has_tag(tags, long(table, record)) {
        return Ok(());
    }
    let feature = list + word(table, record + 4);
    let count = word(table, feature + 2);
    set.hold_words(table, feature + 4, count, limit)?;
    Ok(())
}

/// Adds the lookups of all features with one of the tags.
fn put_features(table: &[u8], tags: &[u32], set: &mut GlyphSet, limit: &mut u64) -> Result<()>
    ensures done { OnOk result (Gathers (IsNamed table.now tags.now) set.old set.new) }
    ensures spends { limit.new ≤ limit.old }
    ensures why { IfErr result (λ e. IsShort (features_cost table.now) limit.old limit.new e) }
{
    let count = word(table, word(table, 6));
    for i in 0..count {
        pay(limit)?;
        put_feature(table, tags, i, set, limit)?;
    }
    Ok(())
}

/// Returns the lookups of a `GSUB` or `GPOS` table that features with one of the given tags name, in ascending order. A
/// tag is a number of four bytes. All records of the feature list count, also required features, whatever script or
/// language selects them. Feature variations do not count. An index that the lookup list does not have is in the list
/// too, if a feature names it.
///
/// It costs one unit for each feature, and for a feature with one of the tags one for each of its lookup indices.
///
/// # Errors
///
/// - `TooLong`: the feature list costs more than the limit.
/// - `Memory`: memory could not be allocated.
pub fn feature_lookups(
    alloc: Global,
    table: &[u8],
    tags: &[u32],
    limit: &mut u64,
) -> Result<Vec<u16>>
    // The list has each lookup that a feature with one of the tags names, and no others.
    ensures exact { IfOk result (λ lookups. AreNamed table.now tags.now lookups.items) }
    // The list is strictly ascending.
    ensures rises { IfOk result (λ lookups. IsStrictlyIncreasing lookups.items) }
    // The limit never grows.
    ensures spends { limit.new ≤ limit.old }
    // An error is `Memory`, or `TooLong` with nothing left of the limit.
    ensures why { IfErr result (λ e. (e ≡ errors.Memory) ⊎ IsUsedUp limit.new e) }
    // If the limit pays for all features and their lookup indices, the error is never `TooLong`.
    ensures suffices { features_cost table.now ≤ limit.old → result ≢ Err errors.TooLong }
{
    let mut set = GlyphSet::new(alloc)?;
    put_features(table, tags, &mut set, limit)?;
    let lookups = listed(alloc, &set.marks)?;
    Ok(lookups)
}

/// Returns the indices of all lookups of a `GSUB` or `GPOS` table, in ascending order.
///
/// # Errors
///
/// - `Memory`: memory could not be allocated.
pub fn all_lookups(alloc: Global, table: &[u8]) -> Result<Vec<u16>>
    // The list has the numbers from 0 to the number of lookups minus 1.
    ensures exact { IfOk result (λ lookups. lookups.items ≡ every_lookup table.now) }
    // The only error is `Memory`.
    ensures memory { IfErr result (λ e. e ≡ errors.Memory) }
{
    let count = word(table, word(table, 8));
    let mut lookups = Vec::new(alloc);
    for i in 0..count {
        lookups.push(i as u16)?;
    }
    Ok(lookups)
}
