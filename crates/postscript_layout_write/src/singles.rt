//! Single adjustments (OpenType, "Lookup type 1 subtable: single adjustment positioning").
ghost use Rattle.std.specs.Prelude.{◌≡◌, ◌^◌, ◌<◌, IfSome};
ghost use Rattle.postscript_layout_write.specs.Singles.{record_of as the_record, values_by};

use crate::numbers::word;
use crate::values::{Values, size_of, values_at};

/// Returns the offset of the value record of the glyph with coverage index `i`.
fn record_of(gpos: &[u8], subtable: usize, i: usize) -> Option<usize>
    requires near { subtable < 2 ^ 34 }
    requires few { i < 2 ^ 17 }
    ensures exact { result ≡ the_record gpos.now subtable i }
    ensures near { IfSome result (λ at. at < 2 ^ 39) }
{
    match word(gpos, subtable) {
        1 => Some(subtable + 6),
        2 => {
            if i < word(gpos, subtable + 6) {
                Some(subtable + 8 + i * size_of(word(gpos, subtable + 4)))
            } else {
                None
            }
        }
        _ => None,
    }
}

/// Returns the adjustment of the glyph with coverage index `i`.
pub(crate) fn values_in(gpos: &[u8], subtable: usize, i: usize) -> Option<Values>
    requires near { subtable < 2 ^ 34 }
    requires few { i < 2 ^ 17 }
    ensures { result ≡ values_by gpos.now subtable (the_record gpos.now subtable i) }
{
    match record_of(gpos, subtable, i) {
        Some(record) => Some(values_at(gpos, record, word(gpos, subtable + 4))),
        None => None,
    }
}
