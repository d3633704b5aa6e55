//! Sessions with faults and with waits. The stored run of `psfont`, its files `stdin` and `stdout`, shows the replies
//! to lines.
use crate::checks::holds_at;
use crate::common::code_of;
use psfont_session::{session, session_within};
use std::alloc::Global;
use std::cell::Cell;
use std::io;
use std::io::{BufRead, ErrorKind, Read, Write};

/// A reader of text that shows a few bytes at a time, fails once, and notes whether output waits to be flushed while it
/// is asked for more.
#[derive(Drop)]
struct Shown<'l> {
    text: &'l [u8],
    step: usize,
    shown: usize,
    looks_before_fault: usize,
    fault: Option<ErrorKind>,
    waits: &'l Cell<bool>,
    late: bool,
}

impl<'l> Shown<'l> {
    fn new(text: &'l [u8], step: usize, waits: &'l Cell<bool>) -> Self {
        Shown {
            text,
            step,
            shown: 0,
            looks_before_fault: 0,
            fault: None,
            waits,
            late: false,
        }
    }
}

impl Read for Shown<'_> {
    fn read(&mut self, buffer: &mut [u8]) -> io::Result<usize> {
        self.text.read(buffer)
    }
}

impl BufRead for Shown<'_> {
    fn fill_buf(&mut self) -> io::Result<&[u8]> {
        if self.looks_before_fault > 0 {
            self.looks_before_fault -= 1;
        } else if let Some(kind) = self.fault.take() {
            return Err(io::Error::from(kind));
        }
        if self.shown == 0 {
            self.late = self.late || self.waits.get();
            self.shown = self.step;
        }
        Ok(&self.text[..self.text.len().min(self.shown)])
    }

    fn consume(&mut self, amount: usize) {
        self.text.consume(amount);
        self.shown = self.shown.saturating_sub(amount);
    }
}

/// A writer that takes a number of bytes, and then fails.
#[derive(Drop)]
struct Full {
    taken: Vec<u8>,
    room: usize,
    kind: ErrorKind,
}

impl Write for Full {
    fn write(&mut self, bytes: &[u8]) -> io::Result<usize> {
        let count = bytes.len().min(self.room);
        if count == 0 && !bytes.is_empty() {
            return Err(io::Error::from(self.kind));
        }
        self.taken.extend_from_slice(&bytes[..count])?;
        self.room -= count;
        Ok(count)
    }

    fn flush(&mut self) -> io::Result<()> {
        Ok(())
    }
}

/// A writer that notes whether output waits to be flushed, and counts its flushes.
#[derive(Drop)]
struct Flushed<'l> {
    waits: &'l Cell<bool>,
    flushes: u32,
}

impl Write for Flushed<'_> {
    fn write(&mut self, bytes: &[u8]) -> io::Result<usize> {
        self.waits.set(true);
        Ok(bytes.len())
    }

    fn flush(&mut self) -> io::Result<()> {
        self.waits.set(false);
        self.flushes = self.flushes.saturating_add(1);
        Ok(())
    }
}

/// The replies of a session to a code and its run.
const OUTPUT: &str = "ok\nHLineTo 1\nend\nwidth none\n";

/// The reader's fault, and the number of reads before it. The session's error code, and the replies before.
///
/// Ten reads show the first line, three more the second, and the fourteenth the end.
#[rattlefmt::skip]
const FAULTS: &[(Option<ErrorKind>, usize, u8, &str)] = &[
    (None, 0, 0, OUTPUT),
    (Some(ErrorKind::Interrupted), 0, 0, OUTPUT),
    (Some(ErrorKind::Interrupted), 7, 0, OUTPUT),
    (Some(ErrorKind::Interrupted), 13, 0, OUTPUT),
    (Some(ErrorKind::PermissionDenied), 7, 2, ""),
    (Some(ErrorKind::OutOfMemory), 12, 2, "ok\n"),
    (Some(ErrorKind::UnexpectedEof), 12, 1, "ok\n"),
    (Some(ErrorKind::UnexpectedEof), 13, 1, "ok\n"),
];

/// Whether a session with a reader that fails ends as wanted.
fn is_ended(alloc: Global, row: &(Option<ErrorKind>, usize, u8, &str)) -> bool {
    let waits = Cell::new(false);
    let mut reader = Shown::new(b"code 8c06\nrun", 1, &waits);
    reader.fault = row.0;
    reader.looks_before_fault = row.1;
    let mut writer = Vec::new(alloc);
    let code = code_of(session(alloc, &mut reader, &mut writer));
    code == row.2 && writer.as_slice() == row.3.as_bytes()
}

#[test]
fn meets_faults_of_the_reader(rt: HostRuntime) {
    for (row, fault) in FAULTS.iter().enumerate() {
        holds_at(&rt, is_ended(rt.alloc(), fault), "row", row);
    }
}

/// Whether a session whose writer fails after a part of the output ends with this number.
fn is_full(alloc: Global, room: usize, kind: ErrorKind, wanted: u8) -> bool {
    let mut reader = b"code 8c06\nrun".as_slice();
    let mut writer = Full {
        taken: Vec::new(alloc),
        room,
        kind,
    };
    let code = code_of(session(alloc, &mut reader, &mut writer));
    code == wanted && OUTPUT.as_bytes().get(..room) == Some(writer.taken.as_slice())
}

#[test]
fn meets_faults_of_the_writer(rt: HostRuntime) {
    let alloc = rt.alloc();
    for room in 0..OUTPUT.len() {
        let stored = is_full(alloc, room, ErrorKind::StorageFull, 2);
        holds_at(&rt, stored, "no storage behind", room);
        let ended = is_full(alloc, room, ErrorKind::UnexpectedEof, 1);
        holds_at(&rt, ended, "an end behind", room);
    }
}

/// Whether a session whose reader shows a few bytes at a time flushes before it waits, and more than twice if this is
/// set.
fn is_flushed(alloc: Global, step: usize, is_often: bool) -> bool {
    let waits = Cell::new(false);
    let mut reader = Shown::new(b"code\nrun\nflat\nrun\n", step, &waits);
    let mut writer = Flushed {
        waits: &waits,
        flushes: 0,
    };
    let code = code_of(session(alloc, &mut reader, &mut writer));
    code == 0 && !reader.late && !waits.get() && (writer.flushes > 2) == is_often
}

#[test]
fn flushes_before_it_waits(rt: HostRuntime) {
    for step in [1, 5, 6, 17, 18, 99] {
        let is_so = is_flushed(rt.alloc(), step, step < 18);
        holds_at(&rt, is_so, "bytes at a time:", step);
    }
}

/// A limit, and the replies of a session within it to a code whose run costs two units, its run and its flattened code.
#[rattlefmt::skip]
const LIMITS: &[(u64, &str)] = &[
    (0, "ok\ntoo long: code 8c06 takes more than --limit 0\ntoo long: code 8c06 takes more than --limit 0\n"),
    (2, "ok\ntoo long: code 8c06 takes more than --limit 2\ntoo long: code 8c06 takes more than --limit 2\n"),
    (3, "ok\nHLineTo 1\nend\nwidth none\nflat 8c06\n"),
];

/// Whether a session within a limit replies so.
fn is_within(alloc: Global, limit: u64, wanted: &str) -> bool {
    let mut reader = b"code 8c06\nrun\nflat".as_slice();
    let mut writer = Vec::new(alloc);
    let code = code_of(session_within(alloc, limit, &mut reader, &mut writer));
    code == 0 && writer.as_slice() == wanted.as_bytes()
}

#[test]
fn keeps_to_a_limit(rt: HostRuntime) {
    for (row, (limit, wanted)) in LIMITS.iter().enumerate() {
        holds_at(&rt, is_within(rt.alloc(), *limit, wanted), "row", row);
    }
}
