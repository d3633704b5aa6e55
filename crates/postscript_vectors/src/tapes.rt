//! Tapes that misbehave.
use postscript::tape::ReadSeek;
use std::io;
use std::io::{Cursor, ErrorKind, Read, Seek, SeekFrom};

/// The ways in which a tape misbehaves.
#[derive(Clone, Copy)]
pub enum Trouble {
    /// A number of reads and seeks pass, and the next one fails with the kind `PermissionDenied`. Then it goes on.
    FailsAfter(u32),
    /// The first read fails with `Interrupted`.
    Interrupted,
    /// Each read gives one byte.
    OneByte,
    /// It reports the greatest offset of all, wherever it is sent.
    Far,
    /// It contains zeros without end, and reports the offset 0, wherever it is sent.
    Still,
}

/// A tape over bytes in memory that misbehaves, and counts its reads and its failures.
#[derive(Drop)]
pub struct TroubledTape<'l> {
    bytes: Cursor<&'l [u8]>,
    trouble: Option<Trouble>,
    reads: u32,
    failures: u32,
}

impl<'l> TroubledTape<'l> {
    pub fn new(bytes: &'l [u8], trouble: Trouble) -> Self {
        TroubledTape {
            bytes: Cursor::new(bytes),
            trouble: Some(trouble),
            reads: 0,
            failures: 0,
        }
    }

    /// The number of reads.
    pub fn reads(&self) -> u32 {
        self.reads
    }

    /// The number of calls that have failed with the kind `PermissionDenied`.
    pub fn failures(&self) -> u32 {
        self.failures
    }

    /// The offset of the tape, as the bytes themselves have it.
    pub fn place(&self) -> u64 {
        self.bytes.position()
    }

    /// Counts a read or a seek, which fails if it is its turn.
    fn count(&mut self) -> io::Result<()> {
        match self.trouble {
            Some(Trouble::FailsAfter(0)) => {
                self.trouble = None;
                self.failures = self.failures.saturating_add(1);
                Err(io::Error::from(ErrorKind::PermissionDenied))
            }
            Some(Trouble::FailsAfter(calls)) => {
                self.trouble = Some(Trouble::FailsAfter(calls - 1));
                Ok(())
            }
            _ => Ok(()),
        }
    }
}

impl<'l> Read for TroubledTape<'l> {
    fn read(&mut self, buf: &mut [u8]) -> io::Result<usize> {
        self.reads = self.reads.saturating_add(1);
        self.count()?;
        match self.trouble {
            Some(Trouble::Interrupted) => {
                self.trouble = None;
                Err(io::Error::from(ErrorKind::Interrupted))
            }
            Some(Trouble::OneByte) if buf.len() > 1 => self.bytes.read(&mut buf[..1]),
            Some(Trouble::Still) => {
                buf.fill(0);
                Ok(buf.len())
            }
            _ => self.bytes.read(buf),
        }
    }
}

impl<'l> Seek for TroubledTape<'l> {
    fn seek(&mut self, to: SeekFrom) -> io::Result<u64> {
        self.count()?;
        match self.trouble {
            Some(Trouble::Far) => Ok(u64::MAX),
            Some(Trouble::Still) => Ok(0),
            _ => self.bytes.seek(to),
        }
    }
}

impl<'l> ReadSeek for TroubledTape<'l> {
    fn read_full(&mut self, buf: &mut [u8]) -> io::Result<()> {
        self.read_exact(buf)
    }

    fn seek_to(&mut self, to: SeekFrom) -> io::Result<u64> {
        self.seek(to)
    }
}
