//! A line-based session about charstrings and fonts, over any reader and writer, and a summary of the font in a file.
//! The program is `psfont`.
#![tactic(auto)]

ghost use Rattle.std.specs.Prelude.{◌≡◌, ℕ, List, Some, OnOk, [], ◌≤◌, ◌↔◌, ◌∷◌, map, string_bytes, IfOk, IsOk};
ghost use Rattle.postscript.specs.Error.{IsListed};
ghost use Rattle.std.specs.Io.KnownBytes.{Appends, Consumes, Keeps};
ghost use Rattle.postscript.specs.FontSet.Value.{font_shown};
ghost use Rattle.psfont_session.specs.Summary.{font_text};
ghost use Rattle.psfont_session.specs.Look.{Looked, Goes};
ghost use Rattle.psfont_session.specs.Session.{LineToldWithin, Session, SessionWithin};
ghost use Rattle.psfont_session.specs.Words.{AreKnown};

use postscript::compact1::FontSet;
use postscript::{Error, Result};
use std::alloc::Global;
use std::fs::File;
use std::io::{BufRead, BufReader, Write};
use std::rt::Files;

mod answer;
mod command;
mod lines;
mod routines;
mod summary;

use answer::answer_within;
use command::Manner;
use lines::{Piece, read_piece, without_return};
use routines::Routines;
use summary::{read_font, write_font};

/// Reads lines from a reader up to its end, and writes a reply to each.
///
/// A line ends at 0x0a, and one 0x0d just before it is dropped. The last line may lack its end. Empty lines are
/// skipped. An interrupted read is repeated, and after `u64::MAX` reads the input counts as ended. The writer is
/// flushed before each read that may wait, and at the end, even after a fault.
///
/// # Errors
///
/// - `UnexpectedEof`, `Io`: a read or a write failed.
/// - `Memory`: out of memory.
#[tactic(auto, using(crate::proofs::Hearing::flushed))]
pub fn session<R: BufRead, W: Write>(alloc: Global, reader: &mut R, writer: &mut W) -> Result<()>
    ensures told { OnOk result ((input : List ℕ) × Consumes (R.remaining reader.old) (R.remaining reader.new) input
        × Session input (W.contents writer.old) (W.contents writer.new)) }
    ensures listed { IsListed (1 ∷ 2 ∷ 3 ∷ []) result }
{
    let outcome = answer_lines(alloc, None, reader, writer);
    let flushed = writer.flush();
    outcome?;
    flushed?;
    Ok(())
}

/// Runs a session within a limit of `limit` units (see `Program::step_within`).
///
/// A line that asks for the run of a code, or for its flattened code, gets its usual reply only if the run ends or
/// fails within the limit. Otherwise the reply names the code, the limit, and the option of `psfont` that sets the
/// limit.
///
/// # Errors
///
/// - The errors of [`session`].
#[tactic(auto, using(crate::proofs::Hearing::flushed))]
pub fn session_within<R: BufRead, W: Write>(
    alloc: Global,
    limit: u64,
    reader: &mut R,
    writer: &mut W,
) -> Result<()>
    ensures told { OnOk result ((input : List ℕ) × Consumes (R.remaining reader.old) (R.remaining reader.new) input
        × SessionWithin (Some limit) input (W.contents writer.old) (W.contents writer.new)) }
    ensures listed { IsListed (1 ∷ 2 ∷ 3 ∷ []) result }
{
    let outcome = answer_lines(alloc, Some(limit), reader, writer);
    let flushed = writer.flush();
    outcome?;
    flushed?;
    Ok(())
}

/// Replies to each line, up to the end of the input.
fn answer_lines<R: BufRead, W: Write>(
    alloc: Global,
    limit: Option<u64>,
    reader: &mut R,
    writer: &mut W,
) -> Result<()>
    ensures told { OnOk result ((input : List ℕ) × Consumes (R.remaining reader.old) (R.remaining reader.new) input
        × SessionWithin limit input (W.contents writer.old) (W.contents writer.new)) }
    ensures listed { IsListed (1 ∷ 2 ∷ 3 ∷ []) result }
{
    let mut routines = Routines::new(alloc);
    let mut line = Vec::new(alloc);
    hear(alloc, limit, reader, &mut line, &mut routines, writer)?;
    tell_line(alloc, limit, line.as_slice(), &mut routines, writer)?;
    Ok(())
}

/// Reads up to the end of the input, and replies to each line that has its own end.
fn hear<R: BufRead, W: Write>(
    alloc: Global,
    limit: Option<u64>,
    reader: &mut R,
    line: &mut Vec<u8>,
    routines: &mut Routines,
    writer: &mut W,
) -> Result<()>
    ensures told { OnOk result (Goes limit
        (record { left = R.remaining reader.old; written = W.contents writer.old; loaded = routines.old; open_line = line.old.items })
        (record { left = R.remaining reader.new; written = W.contents writer.new; loaded = routines.new; open_line = line.new.items })) }
    ensures listed { IsListed (1 ∷ 2 ∷ 3 ∷ []) result }
{
    for _ in 0..u64::MAX {
        if look(alloc, limit, reader, line, routines, writer)? {
            return Ok(());
        }
    }
    Ok(())
}

/// Replies to a line.
fn tell_line<W: Write>(
    alloc: Global,
    limit: Option<u64>,
    line: &[u8],
    routines: &mut Routines,
    writer: &mut W,
) -> Result<()>
    ensures told { OnOk result (LineToldWithin limit line.now routines.old (W.contents writer.old) routines.new (W.contents writer.new)) }
    ensures listed { IsListed (1 ∷ 2 ∷ 3 ∷ []) result }
{
    answer_within(alloc, limit, line, routines, writer)?;
    Ok(())
}

/// Reads once, and replies to the line that ends there, if one does. Returns whether the input is at its end.
fn look<R: BufRead, W: Write>(
    alloc: Global,
    limit: Option<u64>,
    reader: &mut R,
    line: &mut Vec<u8>,
    routines: &mut Routines,
    writer: &mut W,
) -> Result<bool>
    ensures told { OnOk result (Looked limit
        (record { left = R.remaining reader.old; written = W.contents writer.old; loaded = routines.old; open_line = line.old.items })
        (record { left = R.remaining reader.new; written = W.contents writer.new; loaded = routines.new; open_line = line.new.items })) }
    ensures listed { IsListed (1 ∷ 2 ∷ 3 ∷ []) result }
{
    match read_piece(reader, line)? {
        Piece::Part => writer.flush()?,
        Piece::Line { more } => {
            let text = without_return(line.as_slice());
            tell_line(alloc, limit, text, routines, writer)?;
            line.clear();
            flush_before_waiting(more, writer)?;
        }
        Piece::End => return Ok(true),
    }
    Ok(false)
}

/// Flushes the writer, unless more of the input is available, in which case the next read does not wait.
#[tactic(auto, using(crate::proofs::Hearing::same))]
fn flush_before_waiting<W: Write>(more: bool, writer: &mut W) -> Result<()>
    ensures kept { Keeps (W.contents writer.old) (W.contents writer.new) }
    ensures listed { IsListed (1 ∷ 2 ∷ []) result }
{
    if !more {
        writer.flush()?;
    }
    Ok(())
}

/// Runs the program with the words after its name, and returns its exit status. Without words it runs a session with
/// the reader and the writer. `font PATH` and `lenient PATH` write a summary of the font in a file. A fault is reported
/// on `errors`. For any other words the usage is.
pub fn start<F: Files + AllocGlobal, R: BufRead, W: Write, E: Write>(
    files: &F,
    words: &[String],
    reader: &mut R,
    writer: &mut W,
    errors: &mut E,
) -> u8
    ensures status { result ≤ 2 }
    ensures usage { (result ≡ 2) ↔ (¬ (AreKnown (map string_bytes words.now))) }
    ensures answered { words.now ≡ [] → result ≡ 0 → (input : List ℕ) × Consumes (R.remaining reader.old) (R.remaining reader.new) input
        × Session input (W.contents writer.old) (W.contents writer.new) }
{
    match words {
        [] => status(session(files.alloc(), reader, writer), errors),
        [word, path] if word.as_str() == "font" => {
            status(
                show_file(files, Manner::Strict, path.as_str(), writer),
                errors,
            )
        }
        [word, path] if word.as_str() == "lenient" => {
            status(
                show_file(files, Manner::Lenient, path.as_str(), writer),
                errors,
            )
        }
        _ => usage(errors),
    }
}

/// Runs a session within a limit, and returns the exit status. A fault is reported on `errors`.
pub fn start_within<R: BufRead, W: Write, E: Write>(
    alloc: Global,
    limit: u64,
    reader: &mut R,
    writer: &mut W,
    errors: &mut E,
) -> u8
    ensures status { result ≤ 1 }
    ensures answered { result ≡ 0 → (input : List ℕ) × Consumes (R.remaining reader.old) (R.remaining reader.new) input
        × SessionWithin (Some limit) input (W.contents writer.old) (W.contents writer.new) }
{
    status(session_within(alloc, limit, reader, writer), errors)
}

/// Writes a summary of the font in a file.
///
/// # Errors
///
/// - `Io`: the file cannot be opened.
/// - The errors of `read_font` and of the writer.
fn show_file<F: Files + AllocGlobal, W: Write>(
    files: &F,
    manner: Manner,
    path: &str,
    writer: &mut W,
) -> Result<()>
    ensures told { OnOk result ((font : FontSet) × Appends (W.contents writer.old) (W.contents writer.new) (font_text (font_shown font))) }
    ensures listed { IsListed (1 ∷ 2 ∷ 3 ∷ 5 ∷ 6 ∷ 7 ∷ 8 ∷ 9 ∷ 10 ∷ 11 ∷ 12 ∷ 13 ∷ 14 ∷ 15 ∷ 16 ∷ []) result }
{
    let alloc = files.alloc();
    let mut tape = BufReader::new(alloc, File::open(files, path)?).map_err(|_| Error::Memory)?;
    show(&read_font(alloc, manner, &mut tape)?, writer)
}

/// Writes a summary of a font, and flushes the writer.
#[tactic(auto, using(crate::proofs::Writing::kept))]
fn show<W: Write>(font: &FontSet, writer: &mut W) -> Result<()>
    ensures told { OnOk result (Appends (W.contents writer.old) (W.contents writer.new) (font_text (font_shown font.now))) }
    ensures listed { IsListed (1 ∷ 2 ∷ []) result }
{
    write_font(font, writer)?;
    writer.flush()?;
    Ok(())
}

/// Returns the exit status of an outcome, and reports its fault.
pub fn status<E: Write>(outcome: Result<()>, errors: &mut E) -> u8
    ensures status { result ≤ 1 }
    ensures ended { (result ≡ 0) ↔ IsOk outcome }
{
    match outcome {
        Ok(()) => 0,
        Err(fault) => {
            let code = fault.code();
            let _ = writeln!(errors, "psfont: fault {code}");
            1
        }
    }
}

/// Writes the usage, and returns the exit status 2.
pub fn usage<E: Write>(errors: &mut E) -> u8
    ensures { result ≡ 2 }
{
    let _ = errors.write_all(b"usage: psfont [font PATH | lenient PATH]\n");
    2
}
