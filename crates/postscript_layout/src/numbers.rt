//! Numbers at an offset of a layout table. Numbers past the end of the table are 0.
ghost use Rattle.std.specs.Prelude.{◌≡◌, ◌+◌, ◌^◌, ◌<◌, ◌≤◌, length};
ghost use Rattle.postscript_layout.specs.Numbers.{word as the_word, long as the_long};

use postscript_base::index::number::number_at;

/// Returns the number of two bytes at an offset, or 0 if the table ends before it.
pub fn word(table: &[u8], offset: usize) -> usize
    requires { offset < 2 ^ 40 }
    // The number at the offset, or 0 if the table ends before it.
    ensures exact { result ≡ the_word table.now offset }
    // It is below 2^16.
    ensures small { result < 65536 }
{
    if table.len() < offset + 2 {
        0
    } else {
        number_at(table, offset, 2)
    }
}

/// Returns the number of four bytes at an offset, or 0 if the table ends before it.
pub fn long(table: &[u8], offset: usize) -> usize
    requires { offset < 2 ^ 40 }
    // The number at the offset, or 0 if the table ends before it.
    ensures exact { result ≡ the_long table.now offset }
    // It is below 2^32.
    ensures small { result < 4294967296 }
{
    if table.len() < offset + 4 {
        0
    } else {
        number_at(table, offset, 4)
    }
}
