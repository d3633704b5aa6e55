//! The smallest parts of a font.
use crate::checks::{Wanted, holds, holds_at, read};
use crate::common::code_of;
use postscript::Tape;
use postscript::compact1::{Header, Offset};
use std::alloc::Global;
use std::io::Cursor;

const TEN: [u8; 10] = [0x01, 0x02, 0x03, 0x04, 0x05, 0x06, 0x07, 0x08, 0x09, 0x0a];

/// An offset in ten bytes, the size of a stored offset there, its value or the code of the error, and the next offset.
type Row = (u64, u8, Wanted<u32>, u64);

#[rattlefmt::skip]
const OFFSETS: &[Row] = &[
    (0, 1, Ok(0x01), 1), (1, 2, Ok(0x0203), 3), (3, 3, Ok(0x04_0506), 6), (6, 4, Ok(0x0708_090a), 10),
    // Another size is an error before a byte is read, even at the end of the tape.
    (0, 0, Err(5), 0), (0, 5, Err(5), 0), (0, 255, Err(5), 0),
    (10, 0, Err(5), 10), (10, 5, Err(5), 10), (10, 255, Err(5), 10),
];

/// Whether an offset is read as a row wants.
fn is_row(alloc: Global, row: &Row) -> bool {
    let mut tape = Cursor::new(TEN.as_slice());
    tape.set_position(row.0);
    let is_so = match (Tape::take_given::<Offset>(&mut tape, alloc, row.1), row.2) {
        (Ok(offset), Ok(wanted)) => offset == Offset(wanted),
        (Err(e), Err(code)) => e.code() == code,
        _ => false,
    };
    is_so && tape.position() == row.3
}

#[test]
fn offsets(rt: HostRuntime) {
    let alloc = rt.alloc();
    for (i, row) in OFFSETS.iter().enumerate() {
        holds_at(&rt, is_row(alloc, row), "row", i);
    }
    let cut = Cursor::new(&TEN[7..]).take_given::<Offset>(alloc, 4);
    holds(&rt, code_of(cut) == 1, "a cut offset");
}

#[test]
fn headers(rt: HostRuntime) {
    let alloc = rt.alloc();
    let bytes = [0x01, 0x00, 0x04, 0x02];
    let wanted = Header {
        major: 1,
        minor: 0,
        header_size: 4,
        offset_size: 2,
    };
    let header: Header = read(alloc, &bytes).expect(&rt, "a header");
    holds(&rt, header == wanted, "a header");
    for length in 0..4usize {
        let code = code_of(read::<Header>(alloc, &bytes[..length]));
        holds_at(&rt, code == 1, "a header cut to", length);
    }
}
