//! Coverage tables and class definition tables (OpenType, "Common Table Formats").
ghost use Rattle.std.specs.Prelude.{◌≡◌, ◌+◌, ◌*◌, ◌==◌, ◌^◌, ◌<◌, ◌≤◌, None, Some, IfErr, IfOk, IfSome, if◌then◌else◌};
ghost use Rattle.postscript_layout.specs.Numbers.{word as the_word};
ghost use Rattle.postscript_layout_write.specs.First.{first_some};
ghost use Rattle.postscript_layout_write.specs.Ranges.{class_of as the_class, coverage_index as the_index, listed_class as the_listed_class, range_of as the_range};
ghost use Rattle.postscript_layout_write.specs.Refusals.{IsUsedUp};

use crate::error::Result;
use crate::limit::pay;
use crate::numbers::word;

/// Returns the offset of the first range that has a glyph. From offset 2 on a table has the number of its ranges, and the
/// ranges of six bytes.
fn range_of(table: &[u8], ranges: usize, glyph: usize, limit: &mut u64) -> Result<Option<usize>>
    requires near { ranges < 2 ^ 36 }
    ensures exact { IfOk result (λ range. range ≡ the_range table.now ranges glyph) }
    ensures near { IfOk result (λ range. IfSome range (λ at. at < ranges + 2 ^ 20)) }
    ensures spends { limit.new ≤ limit.old }
    ensures why { IfErr result (λ e. IsUsedUp limit.new e) }
{
    let count = word(table, ranges + 2);
    for r in 0..count {
        pay(limit)?;
        let range = ranges + 4 + r * 6;
        if word(table, range) <= glyph && glyph <= word(table, range + 2) {
            return Ok(Some(range));
        }
    }
    Ok(None)
}

/// Returns the first index of a glyph in a coverage table with a list of glyphs (format 1).
fn list_index(table: &[u8], coverage: usize, glyph: usize, limit: &mut u64) -> Result<Option<usize>>
    requires near { coverage < 2 ^ 36 }
    ensures exact { IfOk result (λ index. index ≡ first_some (λ i. if the_word table.now (coverage + 4 + i * 2) == glyph then Some i else None) (the_word table.now (coverage + 2))) }
    ensures small { IfOk result (λ index. IfSome index (λ i. i < 2 ^ 17)) }
    ensures spends { limit.new ≤ limit.old }
    ensures why { IfErr result (λ e. IsUsedUp limit.new e) }
{
    let count = word(table, coverage + 2);
    for i in 0..count {
        pay(limit)?;
        if word(table, coverage + 4 + i * 2) == glyph {
            return Ok(Some(i));
        }
    }
    Ok(None)
}

/// Returns the index of a glyph in a coverage table.
pub(crate) fn coverage_index(
    table: &[u8],
    coverage: usize,
    glyph: usize,
    limit: &mut u64,
) -> Result<Option<usize>>
    requires near { coverage < 2 ^ 36 }
    requires glyph { glyph < 65536 }
    ensures exact { IfOk result (λ index. index ≡ the_index table.now coverage glyph) }
    ensures small { IfOk result (λ index. IfSome index (λ i. i < 2 ^ 17)) }
    ensures spends { limit.new ≤ limit.old }
    ensures why { IfErr result (λ e. IsUsedUp limit.new e) }
{
    match word(table, coverage) {
        1 => {
            let index = list_index(table, coverage, glyph, limit)?;
            Ok(index)
        }
        2 => match range_of(table, coverage, glyph, limit)? {
            Some(range) => {
                let after = glyph.saturating_sub(word(table, range));
                Ok(Some(word(table, range + 4) + after))
            }
            None => Ok(None),
        },
        _ => Ok(None),
    }
}

/// Returns the class of a glyph in a class definition table with a list of classes (format 1).
fn listed_class(table: &[u8], classes: usize, glyph: usize) -> usize
    requires near { classes < 2 ^ 36 }
    ensures exact { result ≡ the_listed_class table.now classes glyph }
    ensures small { result < 65536 }
{
    let first = word(table, classes + 2);
    if first <= glyph && glyph < first + word(table, classes + 4) {
        word(table, classes + 6 + (glyph - first) * 2)
    } else {
        0
    }
}

/// Returns the class of a glyph in a class definition table.
pub(crate) fn class_of(table: &[u8], classes: usize, glyph: usize, limit: &mut u64) -> Result<usize>
    requires near { classes < 2 ^ 36 }
    ensures exact { IfOk result (λ class. class ≡ the_class table.now classes glyph) }
    ensures small { IfOk result (λ class. class < 65536) }
    ensures spends { limit.new ≤ limit.old }
    ensures why { IfErr result (λ e. IsUsedUp limit.new e) }
{
    match word(table, classes) {
        1 => Ok(listed_class(table, classes, glyph)),
        2 => match range_of(table, classes, glyph, limit)? {
            Some(range) => Ok(word(table, range + 4)),
            None => Ok(0),
        },
        _ => Ok(0),
    }
}
