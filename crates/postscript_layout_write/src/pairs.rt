//! Pairs of a subtable (OpenType, "Lookup type 2 subtable: pair adjustment positioning").
ghost use Rattle.std.specs.Prelude.{◌≡◌, ◌+◌, ◌*◌, ◌^◌, ◌<◌, ◌≤◌, IfErr, IfOk, IfSome, Some};
ghost use Rattle.postscript_layout.specs.Numbers.{word as the_word};
ghost use Rattle.postscript_layout_write.specs.Pairs.{adjustment_of as the_adjustment, class_pair as the_class_pair, listed_pair as the_listed_pair, record_of as the_record};
ghost use Rattle.postscript_layout_write.specs.Ranges.{class_of as the_class};
ghost use Rattle.postscript_layout_write.specs.Refusals.{IsUsedUp};

use crate::error::Result;
use crate::limit::pay;
use crate::numbers::word;
use crate::ranges::class_of;
use crate::values::{Adjustment, adjustment_at, size_of};

/// Returns the offset of the value records of the first pair of a set with a second glyph.
fn listed_pair(
    gpos: &[u8],
    set: usize,
    size: usize,
    second: usize,
    limit: &mut u64,
) -> Result<Option<usize>>
    requires near { set < 2 ^ 34 }
    requires small { size ≤ 66 }
    ensures exact { IfOk result (λ found. found ≡ the_listed_pair gpos.now set size second) }
    ensures near { IfOk result (λ found. IfSome found (λ at. at < 2 ^ 39)) }
    ensures spends { limit.new ≤ limit.old }
    ensures why { IfErr result (λ e. IsUsedUp limit.new e) }
{
    let count = word(gpos, set);
    for r in 0..count {
        pay(limit)?;
        let record = set + 2 + r * size;
        if word(gpos, record) == second {
            return Ok(Some(record + 2));
        }
    }
    Ok(None)
}

/// Returns the offset of the value records of a pair by the classes of its glyphs.
fn class_pair(
    gpos: &[u8],
    subtable: usize,
    size: usize,
    first: usize,
    second: usize,
    limit: &mut u64,
) -> Result<Option<usize>>
    requires near { subtable < 2 ^ 34 }
    requires small { size ≤ 64 }
    ensures exact { IfOk result (λ found. found ≡ the_class_pair gpos.now subtable size (the_class gpos.now (subtable + the_word gpos.now (subtable + 8)) first) (the_class gpos.now (subtable + the_word gpos.now (subtable + 10)) second)) }
    ensures near { IfOk result (λ found. IfSome found (λ at. at < 2 ^ 39)) }
    ensures spends { limit.new ≤ limit.old }
    ensures why { IfErr result (λ e. IsUsedUp limit.new e) }
{
    let row = class_of(gpos, subtable + word(gpos, subtable + 8), first, limit)?;
    let column = class_of(gpos, subtable + word(gpos, subtable + 10), second, limit)?;
    let columns = word(gpos, subtable + 14);
    if row < word(gpos, subtable + 12) && column < columns {
        Ok(Some(subtable + 16 + (row * columns + column) * size))
    } else {
        Ok(None)
    }
}

/// Returns the offset of the value records of a pair whose first glyph has coverage index `i`.
fn record_of(
    gpos: &[u8],
    subtable: usize,
    i: usize,
    first: usize,
    second: usize,
    limit: &mut u64,
) -> Result<Option<usize>>
    requires near { subtable < 2 ^ 33 }
    ensures exact { IfOk result (λ found. found ≡ the_record gpos.now subtable i first second) }
    ensures near { IfOk result (λ found. IfSome found (λ at. at < 2 ^ 39)) }
    ensures spends { limit.new ≤ limit.old }
    ensures why { IfErr result (λ e. IsUsedUp limit.new e) }
{
    let size = size_of(word(gpos, subtable + 4)) + size_of(word(gpos, subtable + 6));
    match word(gpos, subtable) {
        1 => {
            if i < word(gpos, subtable + 8) {
                let set = subtable + word(gpos, subtable + 10 + i * 2);
                let record = listed_pair(gpos, set, 2 + size, second, limit)?;
                Ok(record)
            } else {
                Ok(None)
            }
        }
        2 => {
            let record = class_pair(gpos, subtable, size, first, second, limit)?;
            Ok(record)
        }
        _ => Ok(None),
    }
}

/// Returns the adjustment of a pair whose first glyph has coverage index `i`, if the subtable applies to the pair.
pub(crate) fn adjustment_of(
    gpos: &[u8],
    subtable: usize,
    i: usize,
    first: usize,
    second: usize,
    limit: &mut u64,
) -> Result<Option<Adjustment>>
    requires near { subtable < 2 ^ 33 }
    ensures exact { IfOk result (λ adjustment. adjustment ≡ the_adjustment gpos.now subtable (Some i) first second) }
    ensures spends { limit.new ≤ limit.old }
    ensures why { IfErr result (λ e. IsUsedUp limit.new e) }
{
    match record_of(gpos, subtable, i, first, second, limit)? {
        Some(record) => {
            let format1 = word(gpos, subtable + 4);
            let format2 = word(gpos, subtable + 6);
            Ok(Some(adjustment_at(gpos, record, format1, format2)))
        }
        None => Ok(None),
    }
}
