//! User-defined readers as tapes: one that is read safely, and one that is read exactly.
ghost use Rattle.std.specs.Prelude.{◌≡◌, ◌≢◌, ℕ, IfOk, IfErr};
ghost use Rattle.postscript_base.specs.Tape.Cursor.{cursor_state};
ghost use Rattle.postscript_compact1.specs.FontSet.Font.{Font};
ghost use Rattle.postscript_compact1.specs.FontSet.Layout.{IsFont};
ghost use Rattle.postscript_compact1.specs.FontSet.Value.{font_shown};

use postscript::compact1::FontSet;
use postscript::tape::ReadSeek;
use postscript::{Error, Result, Value};
use std::alloc::Global;
use std::io;
use std::io::{Cursor, Read, Seek, SeekFrom};

/// A reader that counts its reads. Contracts know nothing about it as a tape, so its two functions are one line each.
#[derive(Debug, Drop)]
pub struct Counted<R> {
    pub reader: R,
    pub reads: u64,
}

impl<R: Read + Seek> Read for Counted<R> {
    fn read(&mut self, buf: &mut [u8]) -> io::Result<usize> {
        self.reads = self.reads.saturating_add(1);
        self.reader.read(buf)
    }
}

impl<R: Read + Seek> Seek for Counted<R> {
    fn seek(&mut self, to: SeekFrom) -> io::Result<u64> {
        self.reader.seek(to)
    }
}

impl<R: Read + Seek> ReadSeek for Counted<R> {
    fn read_full(&mut self, buf: &mut [u8]) -> io::Result<()> {
        self.read_exact(buf)
    }

    fn seek_to(&mut self, to: SeekFrom) -> io::Result<u64> {
        self.seek(to)
    }
}

/// A file in memory. As a tape it has the bytes and the offset of its cursor, so it is read exactly.
#[derive(Drop)]
pub struct Held(pub Cursor<Vec<u8>>);

impl Read for Held {
    fn read(&mut self, buf: &mut [u8]) -> io::Result<usize> {
        self.0.read(buf)
    }
}

impl Seek for Held {
    fn seek(&mut self, to: SeekFrom) -> io::Result<u64> {
        self.0.seek(to)
    }
}

impl ReadSeek for Held {
    ghost use Rattle.std.specs.Prelude.{Some};
    ghost use Rattle.postscript_base.specs.Tape.Cursor.{cursor_state};

    ghost state = { λ held. cursor_state (λ bytes. Some bytes.items) held.0 };

    fn read_full(&mut self, buf: &mut [u8]) -> io::Result<()> {
        self.0.read_full(buf)
    }

    fn seek_to(&mut self, to: SeekFrom) -> io::Result<u64> {
        self.0.seek_to(to)
    }
}

/// Parses the font at the start of a file in memory. It succeeds exactly if there is one, apart from running out of
/// memory.
pub fn held_font(alloc: Global, bytes: Vec<u8>) -> Result<FontSet>
    ensures found { IfOk result (λ font. (next : ℕ) × IsFont bytes.items 0 (font_shown font) next) }
    ensures only { IfErr result (λ e. e ≢ Error.Memory → (font : Font) (next : ℕ) → IsFont bytes.items 0 font next → ⊥) }
{
    let mut held = Held(Cursor::new(bytes));
    FontSet::read(alloc, &mut held)
}
