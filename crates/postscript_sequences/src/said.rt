//! What a record says of characters, in ascending order.
ghost use Rattle.std.specs.Prelude.{◌≡◌, ℕ, ◌+◌, ◌^◌, ◌<◌, ◌≤◌, IfErr, IfOk, OnOk};
ghost use Rattle.postscript_sequences.specs.Refusals.{Fails};
ghost use Rattle.postscript_sequences.specs.Said.{IsBehind, Tells};
ghost use Rattle.postscript_sequences.specs.Tables.{default_at, mappings_of, other_at, ranges_of};
ghost use Rattle.postscript_sequences.specs.declared.error.Error.TheVariants as errors;

use crate::arrays::{default_table, glyph_of, is_in_range, mapping_from, other_table, range_from};
use crate::error::Result;
use crate::numbers::pay;
use crate::sequences::Sequence;

/// A position in the two tables of a record.
#[derive(Clone, Copy)]
pub(crate) struct Cursor {
    pub(crate) range: usize,
    pub(crate) mapping: usize,
}

/// Returns what a record says of a character, from a position on. The position moves to the character.
pub(crate) fn look_up(table: &[u8], i: usize, cursor: &mut Cursor, char: usize) -> Option<Sequence>
    requires small { i < 2 ^ 32 }
    requires behind { IsBehind table.now i cursor.old char }
    ensures behind { IsBehind table.now i cursor.new char }
    ensures range { cursor.old.range ≤ cursor.new.range }
    ensures mapping { cursor.old.mapping ≤ cursor.new.mapping }
    ensures tells { Tells table.now i char result }
{
    let ranges = default_table(table, i);
    let mappings = other_table(table, i);
    cursor.range = range_from(table, ranges, cursor.range, char);
    cursor.mapping = mapping_from(table, mappings, cursor.mapping, char);
    if is_in_range(table, ranges, cursor.range, char) {
        return Some(Sequence::Default);
    }
    match glyph_of(table, mappings, cursor.mapping, char) {
        Some(glyph) => Some(Sequence::Glyph(glyph)),
        None => None,
    }
}

/// The same within a limit. It costs a unit, and another one for each range and mapping that is passed.
pub(crate) fn look_up_within(
    table: &[u8],
    i: usize,
    cursor: &mut Cursor,
    char: usize,
    limit: &mut u64,
) -> Result<Option<Sequence>>
    requires small { i < 2 ^ 32 }
    requires behind { IsBehind table.now i cursor.old char }
    ensures behind { OnOk result (IsBehind table.now i cursor.new char) }
    ensures tells { IfOk result (λ sequence. Tells table.now i char sequence) }
    ensures spends { limit.new ≤ limit.old }
    ensures exact { OnOk result (limit.old + cursor.old.range + cursor.old.mapping ≡ limit.new + 1 + cursor.new.range + cursor.new.mapping) }
    ensures lacking { IfErr result (λ e. e ≡ errors.TooLong → limit.old + cursor.old.range + cursor.old.mapping
        < 1 + ranges_of table.now (default_at table.now i) + mappings_of table.now (other_at table.now i)) }
    ensures why { IfErr result (λ e. Fails limit.new e) }
{
    pay(limit, 1)?;
    let before = *cursor;
    let sequence = look_up(table, i, cursor, char);
    pay(limit, cursor.range - before.range)?;
    pay(limit, cursor.mapping - before.mapping)?;
    Ok(sequence)
}
