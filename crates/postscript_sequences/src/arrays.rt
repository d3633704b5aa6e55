//! The arrays of a subtable: records, ranges and mappings.
ghost use Rattle.std.specs.Prelude.{◌≡◌, ℕ, ◌+◌, ◌*◌, ◌^◌, ◌<◌, ◌≤◌, MatchBool, MatchOption};
ghost use Rattle.postscript_sequences.specs.Tables.{records_of, selector_at, default_at, other_at, ranges_of, first_at, last_at, mappings_of, char_at, glyph_at};
ghost use Rattle.postscript_sequences.specs.Said.{IsBelow, IsPlace};
ghost use Rattle.postscript_sequences.specs.Units.{record_units};
ghost use Rattle.postscript_sequences.specs.Sequences.{IsMapping, IsRange, IsRecord};

use crate::numbers::number;

/// Returns the number of records.
#[tactic(auto, unfolding(crate::specs::Tables::records_of))]
pub(crate) fn records(table: &[u8]) -> usize
    ensures exact { result ≡ records_of table.now }
    ensures small { result < 2 ^ 32 }
{
    number(table, 6, 4).min(table.len().saturating_sub(10) / 11)
}

/// Returns the variation selector of a record.
pub(crate) fn selector(table: &[u8], i: usize) -> usize
    requires { i < 2 ^ 32 }
    ensures exact { result ≡ selector_at table.now i }
    ensures small { result < 2 ^ 24 }
{
    number(table, 10 + i * 11, 3)
}

/// Returns the offset of the Default UVS table of a record.
pub(crate) fn default_table(table: &[u8], i: usize) -> usize
    requires { i < 2 ^ 32 }
    ensures exact { result ≡ default_at table.now i }
    ensures small { result < 2 ^ 32 }
{
    number(table, 10 + i * 11 + 3, 4)
}

/// Returns the offset of the Non-Default UVS table of a record.
pub(crate) fn other_table(table: &[u8], i: usize) -> usize
    requires { i < 2 ^ 32 }
    ensures exact { result ≡ other_at table.now i }
    ensures small { result < 2 ^ 32 }
{
    number(table, 10 + i * 11 + 7, 4)
}

/// Returns the number of ranges of a Default UVS table.
#[tactic(auto, unfolding(crate::specs::Tables::ranges_of))]
fn ranges(table: &[u8], offset: usize) -> usize
    requires { offset < 2 ^ 32 }
    ensures exact { result ≡ ranges_of table.now offset }
    ensures small { result < 2 ^ 32 }
{
    if offset == 0 {
        return 0;
    }
    number(table, offset, 4).min(table.len().saturating_sub(offset + 4) / 4)
}

/// Returns the number of mappings of a Non-Default UVS table.
#[tactic(auto, unfolding(crate::specs::Tables::mappings_of))]
fn mappings(table: &[u8], offset: usize) -> usize
    requires { offset < 2 ^ 32 }
    ensures exact { result ≡ mappings_of table.now offset }
    ensures small { result < 2 ^ 32 }
{
    if offset == 0 {
        return 0;
    }
    number(table, offset, 4).min(table.len().saturating_sub(offset + 4) / 5)
}

/// Returns the units that a record costs at most for this number of characters.
pub(crate) fn units(table: &[u8], i: usize, chars: usize) -> u64
    requires small { i < 2 ^ 32 }
    requires few { chars < 2 ^ 63 }
    ensures { result ≡ record_units table.now chars i }
{
    let ranges = ranges(table, default_table(table, i));
    let mappings = mappings(table, other_table(table, i));
    (1 + chars + ranges + mappings) as u64
}

/// Returns the first character of a range.
fn first(table: &[u8], offset: usize, k: usize) -> usize
    requires offset { offset < 2 ^ 32 }
    requires listed { k < 2 ^ 32 }
    ensures exact { result ≡ first_at table.now offset k }
    ensures small { result < 2 ^ 24 }
{
    number(table, offset + 4 + k * 4, 3)
}

/// Returns the last character of a range.
fn last(table: &[u8], offset: usize, k: usize) -> usize
    requires offset { offset < 2 ^ 32 }
    requires listed { k < 2 ^ 32 }
    ensures { result ≡ last_at table.now offset k }
{
    first(table, offset, k) + number(table, offset + 4 + k * 4 + 3, 1)
}

/// Returns the character of a mapping.
fn mapped_char(table: &[u8], offset: usize, k: usize) -> usize
    requires offset { offset < 2 ^ 32 }
    requires listed { k < 2 ^ 32 }
    ensures exact { result ≡ char_at table.now offset k }
    ensures small { result < 2 ^ 24 }
{
    number(table, offset + 4 + k * 5, 3)
}

/// Returns the glyph of a mapping.
fn glyph(table: &[u8], offset: usize, k: usize) -> u16
    requires offset { offset < 2 ^ 32 }
    requires listed { k < 2 ^ 32 }
    ensures { result ≡ glyph_at table.now offset k }
{
    number(table, offset + 4 + k * 5 + 3, 2) as u16
}

/// Returns the index of the first range, from an index on, that does not end before a character.
pub(crate) fn range_from(table: &[u8], offset: usize, from: usize, char: usize) -> usize
    requires offset { offset < 2 ^ 32 }
    requires below { IsBelow (last_at table.now offset) (ranges_of table.now offset) char from }
    ensures onward { from ≤ result }
    ensures place { IsPlace (last_at table.now offset) (ranges_of table.now offset) char result }
{
    let count = ranges(table, offset);
    for k in from..count {
        if last(table, offset, k) >= char {
            return k;
        }
    }
    count
}

/// Returns the index of the first mapping, from an index on, whose character is not lower.
pub(crate) fn mapping_from(table: &[u8], offset: usize, from: usize, char: usize) -> usize
    requires offset { offset < 2 ^ 32 }
    requires below { IsBelow (char_at table.now offset) (mappings_of table.now offset) char from }
    ensures onward { from ≤ result }
    ensures place { IsPlace (char_at table.now offset) (mappings_of table.now offset) char result }
{
    let count = mappings(table, offset);
    for k in from..count {
        if mapped_char(table, offset, k) >= char {
            return k;
        }
    }
    count
}

/// Returns whether the range at the place of a character contains it.
pub(crate) fn is_in_range(table: &[u8], offset: usize, k: usize, char: usize) -> bool
    requires offset { offset < 2 ^ 32 }
    requires place { IsPlace (last_at table.now offset) (ranges_of table.now offset) char k }
    ensures { MatchBool result (IsRange table.now offset char k) ((j : ℕ) → IsRange table.now offset char j → ⊥) }
{
    char < 0x1000000 && k < ranges(table, offset) && first(table, offset, k) <= char
}

/// Returns the glyph of the mapping at the place of a character, if it is the mapping of that character.
pub(crate) fn glyph_of(table: &[u8], offset: usize, k: usize, char: usize) -> Option<u16>
    requires offset { offset < 2 ^ 32 }
    requires place { IsPlace (char_at table.now offset) (mappings_of table.now offset) char k }
    ensures { MatchOption result
        ((j : ℕ) → IsMapping table.now offset char j → ⊥)
        (λ glyph. IsMapping table.now offset char k × (glyph_at table.now offset k ≡ glyph)) }
{
    if k < mappings(table, offset) && mapped_char(table, offset, k) == char {
        Some(glyph(table, offset, k))
    } else {
        None
    }
}

/// Returns the record of a variation selector, by linear search.
pub(crate) fn record_of(table: &[u8], wanted: usize) -> Option<usize>
    ensures { MatchOption result
        ((i : ℕ) → IsRecord table.now wanted i → ⊥)
        (λ i. IsRecord table.now wanted i × (i < 2 ^ 32)) }
{
    for i in 0..records(table) {
        let selector = selector(table, i);
        if selector >= wanted {
            return if selector == wanted { Some(i) } else { None };
        }
    }
    None
}
