//! Value records (OpenType, "GPOS - Glyph Positioning Table", "Value record").
ghost use Rattle.std.specs.Prelude.{◌≡◌, ◌+◌, ◌*◌, ◌^◌, ◌<◌, ◌≤◌};
ghost use Rattle.postscript_layout_write.specs.Values.{adjustment_at as the_adjustment, size_of as the_size, value as the_value, values_at as the_values, values_below as the_number};

use crate::numbers::word;

/// The adjustment of a glyph. A negative number `n` is `n` + 65536.
#[derive(Clone, Copy, Debug, Drop, PartialEq, Eq)]
pub(crate) struct Values {
    pub(crate) x_placement: u16,
    pub(crate) y_placement: u16,
    pub(crate) x_advance: u16,
    pub(crate) y_advance: u16,
}

/// The adjustment of a pair of glyphs. After a pair with an adjustment of its second glyph, the next pair begins with the
/// glyph after the second one.
#[derive(Clone, Copy, Debug, Drop, PartialEq, Eq)]
pub(crate) struct Adjustment {
    pub(crate) first: Values,
    pub(crate) second: Option<Values>,
}

/// The adjustment of a glyph that stays where it is.
pub(crate) const ZERO: Values = Values {
    x_placement: 0,
    y_placement: 0,
    x_advance: 0,
    y_advance: 0,
};

/// Returns the number of values whose bits in a format are below bit `k`.
fn values_below(format: usize, k: usize) -> usize
    requires { k < 20 }
    ensures exact { result ≡ the_number format k }
    ensures few { result ≤ k }
{
    let mut rest = format;
    let mut count = 0;
    for _i in 0..k {
        count += rest % 2;
        rest /= 2;
    }
    count
}

/// Returns the size of a value record in bytes.
pub(crate) fn size_of(format: usize) -> usize
    ensures exact { result ≡ the_size format }
    ensures few { result ≤ 32 }
{
    values_below(format, 16) * 2
}

/// Returns the value of bit `k` in a record, or 0 if the format does not have it.
fn value(table: &[u8], at: usize, format: usize, k: usize) -> u16
    requires near { at < 2 ^ 39 + 64 }
    requires few { k < 4 }
    ensures { result ≡ the_value table.now at format k }
{
    let before = values_below(format, k);
    if before < values_below(format, k + 1) {
        word(table, at + before * 2) as u16
    } else {
        0
    }
}

/// Returns the four numbers of a value record.
pub(crate) fn values_at(table: &[u8], at: usize, format: usize) -> Values
    requires near { at < 2 ^ 39 + 64 }
    ensures { result ≡ the_values table.now at format }
{
    Values {
        x_placement: value(table, at, format, 0),
        y_placement: value(table, at, format, 1),
        x_advance: value(table, at, format, 2),
        y_advance: value(table, at, format, 3),
    }
}

/// Returns the adjustment of a pair, from its two value records.
pub(crate) fn adjustment_at(table: &[u8], at: usize, format1: usize, format2: usize) -> Adjustment
    requires near { at < 2 ^ 39 }
    ensures { result ≡ the_adjustment table.now at format1 format2 }
{
    let first = values_at(table, at, format1);
    if format2 == 0 {
        Adjustment {
            first,
            second: None,
        }
    } else {
        let second = values_at(table, at + size_of(format1), format2);
        Adjustment {
            first,
            second: Some(second),
        }
    }
}
