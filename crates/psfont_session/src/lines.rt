//! Lines of the input.
ghost use Rattle.std.specs.Prelude.{◌≡◌, ◌≢◌, ◌==◌, position, ℕ, List, [], ◌∷◌, ◌++◌, true, Ok, IfOk, OnErr};
ghost use Rattle.std.specs.Io.KnownBytes.{IsAtEnd};
ghost use Rattle.postscript.specs.Error.{IsListed};
ghost use Rattle.psfont_session.specs.declared.lines.Piece.TheVariants as Piece;
ghost use Rattle.psfont_session.specs.Piece.{GoesOn, Moves};

use postscript::Result;
use std::io::{BufRead, ErrorKind};

/// The result of one read.
pub enum Piece {
    /// More of the line, or nothing. The line goes on.
    Part,
    /// The rest of the line, and whether more of the input is available after it. If not, the next read may wait.
    Line { more: bool },
    /// The end of the input.
    End,
}

/// Reads once, and appends the available bytes up to the end of the line.
pub fn read_piece<R: BufRead>(reader: &mut R, line: &mut Vec<u8>) -> Result<Piece>
    ensures moved { IfOk result (λ piece. Moves piece (R.remaining reader.old) (R.remaining reader.new)
        line.old.items line.new.items) }
    ensures end { result ≡ Ok Piece.End → IsAtEnd (R.remaining reader.old) }
    ensures more { result ≡ Ok (Piece.Line true) → GoesOn (R.remaining reader.old) (R.remaining reader.new) }
    ensures same { OnErr result (line.new.items ≡ line.old.items) }
    ensures listed { IsListed (1 ∷ 2 ∷ 3 ∷ []) result }
{
    let shown = match reader.fill_buf() {
        Ok(shown) => shown,
        Err(fault) if fault.kind() == ErrorKind::Interrupted => return Ok(Piece::Part),
        Err(fault) => return Err(fault.into()),
    };
    if shown.is_empty() {
        return Ok(Piece::End);
    }
    match first_place(shown, b'\n') {
        Some(length) => {
            let more = length + 1 < shown.len();
            line.extend_from_slice(&shown[..length])?;
            reader.consume(length + 1);
            Ok(Piece::Line { more })
        }
        None => {
            let length = shown.len();
            line.extend_from_slice(shown)?;
            reader.consume(length);
            Ok(Piece::Part)
        }
    }
}

/// Removes the carriage return at the end of a line, if there is one.
pub fn without_return(line: &[u8]) -> &[u8]
    ensures dropped { (front : List ℕ) → line.now ≡ front ++ 13 ∷ [] → result.now ≡ front }
    ensures kept { ((front : List ℕ) → line.now ≢ front ++ 13 ∷ []) → result.now ≡ line.now }
{
    match line {
        [front @ .., b'\r'] => front,
        _ => line,
    }
}

/// Returns the index of the first occurrence of a byte, if there is one.
pub fn first_place(bytes: &[u8], sought: u8) -> Option<usize>
    ensures { result ≡ position (λ byte. byte == sought) bytes.now }
{
    bytes.iter().position(|byte| *byte == sought)
}
