//! Reading from tapes of every kind.
use crate::checks::{Wanted, holds, holds_at, read_given};
use crate::common::code_of;
use crate::tapes::{Trouble, TroubledTape};
use postscript::compact1::char_set::Range1;
use postscript::tape::{Opaque, ReadSeek, bytes_at, fixed, read_chain, read_many};
use postscript::{Error, Result, Tape};
use std::alloc::Global;
use std::fs;
use std::fs::File;
use std::io::{BufReader, Cursor, ErrorKind};
use std::process::Abort;

const TWELVE: [u8; 12] = [1, 2, 3, 0xff, 5, 6, 7, 8, 9, 0x0a, 0x0b, 0x0c];

/// A value of each width.
type Each = (u8, u16, u32, [u8; 3], [u8; 2]);

/// Reads a value of each width.
fn read_each<T: Tape>(alloc: Global, tape: &mut T) -> Result<Each> {
    Ok((
        Tape::take(tape, alloc)?,
        Tape::take(tape, alloc)?,
        Tape::take(tape, alloc)?,
        Tape::take(tape, alloc)?,
        fixed(tape)?,
    ))
}

/// The offset of a tape.
fn place_of<R: Abort, T: Tape>(rt: &R, tape: &mut T) -> u64 {
    Tape::position(tape).expect(rt, "a place")
}

/// Whether a tape reads the twelve bytes, the high byte first, and no more.
fn reads_each<R: Abort, T: Tape>(rt: &R, alloc: Global, tape: &mut T) -> bool {
    let read = read_each(alloc, tape).expect(rt, "twelve bytes");
    read == (0x01, 0x0203, 0xff05_0607, [0x08, 0x09, 0x0a], [0x0b, 0x0c])
        && place_of(rt, tape) == 12
        && code_of(Tape::take::<u8>(tape, alloc)) == 1
}

/// An offset, the byte there, the number of the two bytes there, and the errors of peeks at two and at four bytes.
const PLACES: [(u64, u8, u16, u8, u8); 5] = [
    (11, 0x0c, 0, 1, 1),
    (0, 0x01, 0x0102, 0, 0),
    (3, 0xff, 0xff05, 0, 0),
    (10, 0x0b, 0x0b0c, 0, 1),
    (1, 0x02, 0x0203, 0, 0),
];

/// Whether peeks at a byte and at two bytes see these.
fn sees<R: Abort, T: Tape>(rt: &R, alloc: Global, tape: &mut T, byte: u8, number: u16) -> bool {
    let seen = tape.peek::<u8>(alloc).expect(rt, "a look");
    seen == byte && tape.peek::<u16>(alloc).unwrap_or(0) == number
}

/// Whether peeks at two and at four bytes fail so.
fn refuses<T: Tape>(alloc: Global, tape: &mut T, two: u8, four: u8) -> bool {
    code_of(tape.peek::<u16>(alloc)) == two && code_of(tape.peek::<u32>(alloc)) == four
}

/// Whether a tape moves to an offset.
fn arrives<R: Abort, T: Tape>(rt: &R, tape: &mut T, place: u64) -> bool {
    tape.jump(place).expect(rt, "a jump") == place && place_of(rt, tape) == place
}

/// Whether a tape reads a byte at this offset and moves past it.
fn takes<R: Abort, T: Tape>(rt: &R, alloc: Global, tape: &mut T, place: u64, byte: u8) -> bool {
    place_of(rt, tape) == place
        && Tape::take::<u8>(tape, alloc).expect(rt, "a byte") == byte
        && place_of(rt, tape) == place.saturating_add(1)
}

/// Reads the twelve bytes of a tape from its start. Numbers are big-endian, jumps arrive, and peeks do not move.
fn read_twelve<R: Abort, T: Tape>(rt: &R, alloc: Global, tape: &mut T, name: &str) {
    holds(rt, reads_each(rt, alloc, tape), name);
    for (place, byte, number, two, four) in PLACES {
        let is_so = arrives(rt, tape, place)
            && sees(rt, alloc, tape, byte, number)
            && refuses(alloc, tape, two, four)
            && takes(rt, alloc, tape, place, byte);
        holds_at(rt, is_so, name, place as usize);
    }
}

/// Reads a cursor over a vector.
fn read_owned<R: Abort>(rt: &R, alloc: Global) {
    let owned = Vec::from_slice(alloc, &TWELVE).expect(rt, "memory");
    read_twelve(rt, alloc, &mut Cursor::new(owned), "a cursor of a vector");
}

/// Reads a borrowed cursor about which contracts know only its bytes.
fn read_opaque<R: Abort>(rt: &R, alloc: Global) {
    let mut opaque = Opaque(Cursor::new(TWELVE.as_slice()));
    read_twelve(rt, alloc, &mut &mut opaque, "an opaque cursor");
}

/// Reads a cursor through a buffer.
fn read_buffered<R: Abort>(rt: &R, alloc: Global) {
    let buffered = BufReader::new(alloc, Cursor::new(TWELVE.as_slice()));
    let mut buffered = buffered.expect(rt, "memory");
    read_twelve(rt, alloc, &mut buffered, "a buffered cursor");
}

/// Reads tapes in spite of a trouble.
fn read_troubled<R: Abort>(rt: &R, alloc: Global, trouble: Trouble) {
    let mut tape = TroubledTape::new(&TWELVE, trouble);
    read_twelve(rt, alloc, &mut tape, "a troubled tape");
    let mut opaque = Opaque(TroubledTape::new(&TWELVE, trouble));
    read_twelve(rt, alloc, &mut opaque, "an opaque troubled tape");
    let buffered = BufReader::new(alloc, TroubledTape::new(&TWELVE, trouble));
    let mut buffered = buffered.expect(rt, "memory");
    read_twelve(rt, alloc, &mut buffered, "a buffered troubled tape");
}

/// A cursor moves past its end, but cannot read there.
fn go_past<R: Abort>(rt: &R, alloc: Global) {
    let mut tape = Cursor::new(TWELVE.as_slice());
    for place in [12, 13, u64::MAX] {
        let arrived = tape.jump(place).expect(rt, "a jump");
        holds(rt, arrived == place, "a place past the end");
        let code = code_of(Tape::take::<u8>(&mut tape, alloc));
        holds(rt, code == 1, "nothing past the end");
    }
}

#[test]
fn tapes(rt: HostRuntime) {
    let alloc = rt.alloc();
    read_twelve(&rt, alloc, &mut Cursor::new(TWELVE.as_slice()), "a cursor");
    read_owned(&rt, alloc);
    read_opaque(&rt, alloc);
    read_buffered(&rt, alloc);
    read_troubled(&rt, alloc, Trouble::Interrupted);
    read_troubled(&rt, alloc, Trouble::OneByte);
    go_past(&rt, alloc);
    fs::write(&rt, "twelve.bin", TWELVE.as_slice()).expect(&rt, "a file");
    let mut file = File::open(&rt, "twelve.bin").expect(&rt, "a file");
    read_twelve(&rt, alloc, &mut file, "a file");
    let file = File::open(&rt, "twelve.bin").expect(&rt, "a file");
    let mut buffered = BufReader::new(alloc, file).expect(&rt, "memory");
    read_twelve(&rt, alloc, &mut buffered, "a buffered file");
    fs::remove_file(&rt, "twelve.bin").expect(&rt, "a file");
}

/// A request to a tape.
enum Question {
    /// A value of each width. The result is the second.
    Each,
    /// A byte.
    Byte,
    /// A peek at two bytes.
    Look,
    /// A jump to the fourth byte.
    Jump,
}

/// The type as which a troubled tape is passed.
enum Wrapping {
    Bare,
    Opaque,
    Buffered,
}

const WRAPPINGS: &[(Wrapping, &str)] = &[
    (Wrapping::Bare, "bare"),
    (Wrapping::Opaque, "opaque"),
    (Wrapping::Buffered, "buffered"),
];

/// Sends a request to a tape.
fn send_request<T: Tape>(alloc: Global, tape: &mut T, question: &Question) -> Result<u64> {
    match question {
        Question::Each => Ok(u64::from(read_each(alloc, tape)?.1)),
        Question::Byte => Ok(u64::from(Tape::take::<u8>(tape, alloc)?)),
        Question::Look => Ok(u64::from(tape.peek::<u16>(alloc)?)),
        Question::Jump => tape.jump(3),
    }
}

/// Sends a request to a troubled tape in a wrapping. The buffer holds one byte, so that nothing is read ahead.
fn send_in_wrapping<R: Abort>(
    rt: &R,
    alloc: Global,
    tape: &mut TroubledTape<'_>,
    wrapping: &Wrapping,
    question: &Question,
) -> Result<u64> {
    match wrapping {
        Wrapping::Bare => send_request(alloc, tape, question),
        Wrapping::Opaque => send_request(alloc, &mut Opaque(tape), question),
        Wrapping::Buffered => {
            let buffered = BufReader::with_capacity(alloc, 1, tape);
            send_request(alloc, &mut buffered.expect(rt, "memory"), question)
        }
    }
}

/// The code of the error, 0 for a fault that is not the tape's own.
fn number_of(refusal: Error) -> u8 {
    match refusal {
        Error::Io(fault) if fault.kind() != ErrorKind::PermissionDenied => 0,
        e => e.code(),
    }
}

/// The result of a request to a troubled tape in a wrapping, or the code of the error.
fn answer<R: Abort>(
    rt: &R,
    alloc: Global,
    tape: &mut TroubledTape<'_>,
    wrapping: &Wrapping,
    question: &Question,
) -> Wanted<u64> {
    match send_in_wrapping(rt, alloc, tape, wrapping, question) {
        Ok(number) => Ok(number),
        Err(refusal) => Err(number_of(refusal)),
    }
}

/// A request, its result, the offset after it, and the number of reads so far.
type Asked = (Question, Wanted<u64>, u64, u32);

/// The number of calls before the one that fails, and the requests.
#[rattlefmt::skip]
const FAILING: &[(u32, &[Asked])] = &[
    (0, &[(Question::Each, Err(2), 0, 1)]),
    (1, &[(Question::Each, Err(2), 1, 2)]),
    (2, &[(Question::Each, Err(2), 3, 3)]),
    (3, &[(Question::Each, Err(2), 7, 4)]),
    (4, &[(Question::Each, Err(2), 10, 5)]),
    (5, &[(Question::Each, Ok(0x0203), 12, 5), (Question::Jump, Err(2), 12, 5), (Question::Jump, Ok(3), 3, 5)]),
    // A peek that cannot get the offset reads nothing.
    (0, &[(Question::Look, Err(2), 0, 0), (Question::Look, Ok(0x0102), 0, 1)]),
    (1, &[(Question::Byte, Ok(1), 1, 1), (Question::Look, Err(2), 1, 1), (Question::Look, Ok(0x0203), 1, 2)]),
    // A peek whose reading fails moves back.
    (1, &[(Question::Look, Err(2), 0, 1), (Question::Look, Ok(0x0102), 0, 2)]),
    // A failed seek back is reported instead of the reading.
    (2, &[(Question::Look, Err(2), 2, 1)]),
];

/// Whether a troubled tape gives the wanted result, offset and number of reads.
fn is_answered<R: Abort>(
    rt: &R,
    alloc: Global,
    tape: &mut TroubledTape<'_>,
    wrapping: &Wrapping,
    asked: &Asked,
) -> bool {
    answer(rt, alloc, tape, wrapping, &asked.0) == asked.1
        && tape.place() == asked.2
        && tape.reads() == asked.3
}

/// Whether a tape that fails once gives the wanted result for each request.
fn is_failing<R: Abort>(rt: &R, alloc: Global, row: &(u32, &[Asked]), wrapping: &Wrapping) -> bool {
    let mut tape = TroubledTape::new(&TWELVE, Trouble::FailsAfter(row.0));
    let mut is_so = true;
    for asked in row.1 {
        is_so = is_so && is_answered(rt, alloc, &mut tape, wrapping, asked);
    }
    is_so && tape.failures() == 1
}

/// Missing bytes are the end of the tape, and no fault of it.
fn is_cut<R: Abort>(rt: &R, alloc: Global, length: usize, wrapping: &Wrapping) -> bool {
    let bytes = TWELVE.get(..length).unwrap_or(&[]);
    let mut tape = TroubledTape::new(bytes, Trouble::OneByte);
    answer(rt, alloc, &mut tape, wrapping, &Question::Each) == Err(1) && tape.failures() == 0
}

#[test]
fn failing_tapes(rt: HostRuntime) {
    let alloc = rt.alloc();
    for (wrapping, name) in WRAPPINGS {
        for (i, row) in FAILING.iter().enumerate() {
            holds_at(&rt, is_failing(&rt, alloc, row, wrapping), name, i);
        }
        for length in 0..12usize {
            holds_at(&rt, is_cut(&rt, alloc, length, wrapping), name, length);
        }
    }
}

/// Whether reading `count` bytes fails because some are missing.
fn are_wanting(alloc: Global, count: usize) -> bool {
    code_of(read_given::<Vec<u8>>(alloc, &[0x01, 0x02], count)) == 1
}

/// Reads lists of bytes.
fn check_bytes<R: Abort>(rt: &R, alloc: Global) {
    let mut tape = Cursor::new([0x01, 0x02].as_slice());
    let both = Tape::take_given::<Vec<u8>>(&mut tape, alloc, 2).expect(rt, "two bytes");
    holds(rt, both.as_slice() == [0x01, 0x02].as_slice(), "two bytes");
    let none = Tape::take_given::<Vec<u8>>(&mut tape, alloc, 0).expect(rt, "no bytes");
    holds(rt, none.is_empty(), "no bytes");
}

/// Reads a list that is longer than it grows at a time.
fn check_long<R: Abort>(rt: &R, alloc: Global) {
    let zeros = vec![in alloc; 0u8; 150_000].expect(rt, "memory");
    let mut tape = Cursor::new(zeros);
    let copied = Tape::take_given::<Vec<u8>>(&mut tape, alloc, 150_000);
    let copied = copied.expect(rt, "many bytes");
    holds(rt, copied.len() == 150_000, "many bytes");
    holds(rt, tape.position() == 150_000, "the place behind them");
}

/// Reads lists of numbers.
fn check_numbers<R: Abort>(rt: &R, alloc: Global) {
    let mut tape = Cursor::new(TWELVE.as_slice());
    let numbers = read_many::<u16, _>(alloc, &mut tape, 3).expect(rt, "numbers");
    let wanted = [0x0102, 0x03ff, 0x0506];
    holds(rt, numbers.as_slice() == wanted.as_slice(), "three numbers");
    let none = read_many::<u32, _>(alloc, &mut tape, 0);
    holds(rt, none.expect(rt, "no numbers").is_empty(), "no numbers");
    let code = code_of(read_many::<u16, _>(alloc, &mut tape, 4));
    holds(rt, code == 1, "a number too many");
}

/// Reads bytes at an offset, and ranges, each given the number of glyphs that the ones before it leave.
fn check_places<R: Abort>(rt: &R, alloc: Global) {
    let mut tape = Cursor::new([0, 7, 1, 0, 9, 0].as_slice());
    let ranges = read_chain::<Range1, _>(alloc, &mut tape, 3, 2);
    holds(rt, ranges.expect(rt, "ranges").len() == 2, "two ranges");
    let bytes = bytes_at(alloc, &mut tape, 3, 2).expect(rt, "bytes");
    let is_so = bytes.as_slice() == [0, 9].as_slice();
    holds(rt, is_so, "bytes at a place");
}

/// Whether a list that is too big for memory fails with `Memory`, and leaves the list and the offset of the tape
/// unchanged.
fn is_growth_refused<R: Abort>(rt: &R, alloc: Global) -> bool {
    let mut tape = TroubledTape::new(TWELVE.as_slice(), Trouble::OneByte);
    let mut bytes = Vec::from_array(alloc, [7u8]).expect(rt, "memory");
    let code = code_of(tape.read_onto(&mut bytes, usize::MAX));
    code == 3 && bytes.as_slice() == [7].as_slice() && tape.place() == 0
}

#[test]
fn lists(rt: HostRuntime) {
    let alloc = rt.alloc();
    check_bytes(&rt, alloc);
    check_long(&rt, alloc);
    check_numbers(&rt, alloc);
    check_places(&rt, alloc);
    for count in [3, 65_537, usize::MAX] {
        holds_at(&rt, are_wanting(alloc, count), "wanting bytes", count);
    }
    holds(&rt, is_growth_refused(&rt, alloc), "a list too long");
}
