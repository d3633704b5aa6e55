//! The replies to lines.
ghost use Rattle.std.specs.Prelude.{◌≡◌, List, [], ℕ, Ok, None, IsErr, IfOk, IfSome, ◌∷◌, ◌≢◌, OnOk, MatchBool, MatchResult, flat_map, codes};
ghost use Rattle.std.specs.Io.KnownBytes.{Appends, Keeps};
ghost use Rattle.hex.specs.Hex.{decode_of};
ghost use Rattle.postscript.specs.Error.{IsListed};
ghost use Rattle.psfont_session.specs.declared.command.Place.{Place};
ghost use Rattle.psfont_session.specs.Command.{name_of as command_name};
ghost use Rattle.psfont_session.specs.Line.{word_of, argument_of, IsBad};
ghost use Rattle.psfont_session.specs.Loaded.{put, Loads};
ghost use Rattle.psfont_session.specs.Texts.{operation_line, operand_text, fault_line, end_line, width_line, answers_text, flat_line, loaded_line};
ghost use Rattle.psfont_session.specs.Limit.{past_line};
ghost use Rattle.psfont_session.specs.Session.{AsksRun, LineTold, LineToldWithin};
ghost use Rattle.psfont_session.specs.Output.{RunTold, FlatTold, FontTold};
ghost use Rattle.psfont_session.specs.Manner.{reading_of};
ghost use Rattle.psfont_session.specs.declared.command.Command.TheVariants as commands;
ghost use Rattle.psfont_session.specs.declared.command.Manner.{Manner};
ghost use Rattle.postscript.specs.FontSet.Value.{font_shown};
ghost use Rattle.postscript.specs.Tape.Outcome.{Answers as Answered};
ghost use Rattle.postscript.specs.Program.RunAnswers.{operation_of};

use crate::command::{Command, Manner, Place, split};
use crate::routines::Routines;
use crate::summary::{read_font, write_font};
use hex::FromHexError;
use postscript::compact1::FontSet;
use postscript::type2::{Answers, Operand, Operation};
use postscript::{Error, Result};
use std::alloc::Global;
use std::io::{Cursor, Write};

/// Replies to a line. An empty line has no reply.
pub fn answer_line<W: Write>(
    alloc: Global,
    line: &[u8],
    routines: &mut Routines,
    writer: &mut W,
) -> Result<()>
    ensures puts { OnOk result ((place : Place) → (bytes : List ℕ) → Loads line.now place bytes
        → routines.new ≡ put place bytes routines.old) }
    ensures keeps { OnOk result (((place : Place) → (bytes : List ℕ) → Loads line.now place bytes → ⊥)
        → routines.new ≡ routines.old) }
    ensures loaded { OnOk result ((place : Place) → word_of line.now ≡ command_name (commands.Load place)
        → Appends (W.contents writer.old) (W.contents writer.new) (loaded_line (decode_of (argument_of line.now)))) }
    ensures ran { OnOk result (word_of line.now ≡ command_name commands.Run → argument_of line.now ≡ []
        → RunTold routines.old (W.contents writer.old) (W.contents writer.new)) }
    ensures flattened { OnOk result (word_of line.now ≡ command_name commands.Flat → argument_of line.now ≡ []
        → FlatTold routines.old (W.contents writer.old) (W.contents writer.new)) }
    ensures shown { OnOk result ((manner : Manner) → word_of line.now ≡ command_name (commands.Font manner)
        → FontTold manner (argument_of line.now) (W.contents writer.old) (W.contents writer.new)) }
    ensures bad { OnOk result (IsBad line.now → line.now ≢ []
        → Appends (W.contents writer.old) (W.contents writer.new) (codes "bad command\n")) }
    ensures silent { OnOk result (line.now ≡ [] → Keeps (W.contents writer.old) (W.contents writer.new)) }
    ensures listed { IsListed (1 ∷ 2 ∷ 3 ∷ []) result }
{
    if line.is_empty() {
        return Ok(());
    }
    let (word, argument) = split(line);
    match Command::named(word) {
        Some(Command::Load(place)) => load(alloc, place, argument, routines, writer)?,
        Some(Command::Run) if argument.is_empty() => run(alloc, routines, writer)?,
        Some(Command::Flat) if argument.is_empty() => flatten(alloc, routines, writer)?,
        Some(Command::Font(manner)) => font(alloc, manner, argument, writer)?,
        _ => writeln!(writer, "bad command")?,
    }
    Ok(())
}

/// Whether a line asks for a run of the code, or for its flattened code.
fn asks_run(line: &[u8]) -> bool
    ensures { MatchBool result (AsksRun line.now) (AsksRun line.now → ⊥) }
{
    let (word, argument) = split(line);
    match Command::named(word) {
        Some(Command::Run | Command::Flat) => argument.is_empty(),
        _ => false,
    }
}

/// Replies to a line as `answer_line` does. If there is a limit and a run exceeds it, the reply names the code, the
/// limit and the option instead.
pub fn answer_within<W: Write>(
    alloc: Global,
    limit: Option<u64>,
    line: &[u8],
    routines: &mut Routines,
    writer: &mut W,
) -> Result<()>
    ensures told { OnOk result (LineToldWithin limit line.now routines.old (W.contents writer.old) routines.new (W.contents writer.new)) }
    ensures listed { IsListed (1 ∷ 2 ∷ 3 ∷ []) result }
{
    let Some(limit) = limit else {
        return answer_all(alloc, line, routines, writer);
    };
    if !asks_run(line) {
        return answer_all(alloc, line, routines, writer);
    }
    match routines.fits(alloc, limit) {
        Ok(true) => answer_all(alloc, line, routines, writer),
        Ok(false) => write_past(alloc, limit, routines.code(), writer),
        Err(fault) => write_fault(&fault, writer),
    }
}

/// Replies to a line, without a limit.
fn answer_all<W: Write>(
    alloc: Global,
    line: &[u8],
    routines: &mut Routines,
    writer: &mut W,
) -> Result<()>
    ensures told { OnOk result (LineTold line.now routines.old (W.contents writer.old) routines.new (W.contents writer.new)) }
    ensures listed { IsListed (1 ∷ 2 ∷ 3 ∷ []) result }
{
    answer_line(alloc, line, routines, writer)?;
    Ok(())
}

/// Writes that the run of a code exceeds the limit.
fn write_past<W: Write>(alloc: Global, limit: u64, code: &[u8], writer: &mut W) -> Result<()>
    ensures told { OnOk result (Appends (W.contents writer.old) (W.contents writer.new) (past_line limit code.now)) }
    ensures listed { IsListed (1 ∷ 2 ∷ 3 ∷ []) result }
{
    let digits = hex::encode(alloc, code)?;
    writeln!(
        writer,
        "too long: code {digits} takes more than --limit {limit}"
    )?;
    Ok(())
}

/// Stores bytes, unless their digits are malformed.
fn load<W: Write>(
    alloc: Global,
    place: Place,
    digits: &[u8],
    routines: &mut Routines,
    writer: &mut W,
) -> Result<()>
    ensures listed { IsListed (1 ∷ 2 ∷ 3 ∷ []) result }
    ensures changed { OnOk result (MatchResult (decode_of digits.now)
        (λ bytes. routines.new ≡ put place bytes routines.old)
        (λ _. routines.new ≡ routines.old)) }
    ensures told { OnOk result (Appends (W.contents writer.old) (W.contents writer.new) (loaded_line (decode_of digits.now))) }
{
    match bytes_of(alloc, digits)? {
        Some(bytes) => {
            routines.load(place, bytes)?;
            writeln!(writer, "ok")?;
        }
        None => writeln!(writer, "bad hex")?,
    }
    Ok(())
}

/// Decodes hex digits, if they are well formed.
fn bytes_of(alloc: Global, digits: &[u8]) -> Result<Option<Vec<u8>>>
    ensures spelled { IfOk result (λ found. IfSome found (λ bytes. decode_of digits.now ≡ Ok bytes.items)) }
    ensures malformed { result ≡ Ok None → IsErr (decode_of digits.now) }
    ensures listed { IsListed (3 ∷ []) result }
{
    match hex::decode(alloc, digits) {
        Ok(bytes) => Ok(Some(bytes)),
        Err(FromHexError::OutOfMemory) => Err(Error::Memory),
        Err(_) => Ok(None),
    }
}

/// Runs the code, and writes the result.
fn run<W: Write>(alloc: Global, routines: &Routines, writer: &mut W) -> Result<()>
    ensures told { OnOk result (RunTold routines.now (W.contents writer.old) (W.contents writer.new)) }
    ensures listed { IsListed (1 ∷ 2 ∷ []) result }
{
    match routines.run(alloc) {
        Ok(answers) => write_answers(&answers, writer),
        Err(fault) => write_fault(&fault, writer),
    }
}

/// Writes the code without calls, as lower-case hex.
fn flatten<W: Write>(alloc: Global, routines: &Routines, writer: &mut W) -> Result<()>
    ensures told { OnOk result (FlatTold routines.now (W.contents writer.old) (W.contents writer.new)) }
    ensures listed { IsListed (1 ∷ 2 ∷ 3 ∷ []) result }
{
    match routines.flatten(alloc) {
        Ok(flat) => write_flat(alloc, flat.as_slice(), writer),
        Err(fault) => write_fault(&fault, writer),
    }
}

/// Writes `flat`, and the code after it as lower-case hex, if there is any.
fn write_flat<W: Write>(alloc: Global, flat: &[u8], writer: &mut W) -> Result<()>
    ensures told { OnOk result (Appends (W.contents writer.old) (W.contents writer.new) (flat_line flat.now)) }
    ensures listed { IsListed (1 ∷ 2 ∷ 3 ∷ []) result }
{
    if flat.is_empty() {
        writeln!(writer, "flat")?;
    } else {
        let digits = hex::encode(alloc, flat)?;
        writeln!(writer, "flat {digits}")?;
    }
    Ok(())
}

/// Reads a font from hex digits, and writes its summary.
fn font<W: Write>(alloc: Global, manner: Manner, digits: &[u8], writer: &mut W) -> Result<()>
    ensures told { OnOk result (FontTold manner digits.now (W.contents writer.old) (W.contents writer.new)) }
    ensures listed { IsListed (1 ∷ 2 ∷ 3 ∷ []) result }
{
    match bytes_of(alloc, digits)? {
        Some(bytes) => match font_of(alloc, manner, bytes) {
            Ok(font) => write_font(&font, writer)?,
            Err(fault) => write_fault(&fault, writer)?,
        },
        None => writeln!(writer, "bad hex")?,
    }
    Ok(())
}

/// Reads the font at the start of the bytes, strictly or leniently.
fn font_of(alloc: Global, manner: Manner, bytes: Vec<u8>) -> Result<FontSet>
    ensures exact { (next : ℕ) × Answered font_shown result next (reading_of manner bytes.items 0) }
{
    read_font(alloc, manner, &mut Cursor::new(bytes))
}

/// A line for each operation, for the end and for the width.
#[tactic(auto, using(crate::proofs::Writing::both, crate::proofs::Writing::none))]
fn write_answers<W: Write>(answers: &Answers, writer: &mut W) -> Result<()>
    ensures told { OnOk result (Appends (W.contents writer.old) (W.contents writer.new) (answers_text answers.now)) }
    ensures listed { IsListed (1 ∷ 2 ∷ []) result }
{
    write_operations(answers.operations.as_slice(), writer)?;
    write_end(&answers.fault, writer)?;
    write_width(answers.width, writer)
}

/// A line for each operation.
#[tactic(auto, using(crate::proofs::Writing::more, crate::proofs::Writing::none))]
fn write_operations<W: Write>(operations: &[Operation], writer: &mut W) -> Result<()>
    ensures told { OnOk result (Appends (W.contents writer.old) (W.contents writer.new)
        (flat_map (λ operation. operation_line (operation_of operation)) operations.now)) }
    ensures listed { IsListed (1 ∷ 2 ∷ []) result }
{
    for operation in operations {
        write_operation(operation, writer)?;
    }
    Ok(())
}

/// Writes a line for the end: the fault, if there is one.
fn write_end<W: Write>(fault: &Option<Error>, writer: &mut W) -> Result<()>
    ensures told { OnOk result (Appends (W.contents writer.old) (W.contents writer.new) (end_line fault.now)) }
    ensures listed { IsListed (1 ∷ 2 ∷ []) result }
{
    match fault {
        Some(fault) => write_fault(fault, writer)?,
        None => writeln!(writer, "end")?,
    }
    Ok(())
}

/// A line for the width.
fn write_width<W: Write>(width: Option<Operand>, writer: &mut W) -> Result<()>
    ensures told { OnOk result (Appends (W.contents writer.old) (W.contents writer.new) (width_line width)) }
    ensures listed { IsListed (1 ∷ 2 ∷ []) result }
{
    match width {
        Some(width) => writeln!(writer, "width {width}")?,
        None => writeln!(writer, "width none")?,
    }
    Ok(())
}

/// The operator's name, and each operand after a space.
#[tactic(auto, using(crate::proofs::Writing::both, crate::proofs::Writing::none))]
fn write_operation<W: Write>(operation: &Operation, writer: &mut W) -> Result<()>
    ensures told { OnOk result (Appends (W.contents writer.old) (W.contents writer.new) (operation_line (operation_of operation.now))) }
    ensures listed { IsListed (1 ∷ 2 ∷ []) result }
{
    let (operator, operands) = operation;
    writer.write_all(operator.name().as_bytes())?;
    write_operands(operands.as_slice(), writer)?;
    writer.write_all(b"\n")?;
    Ok(())
}

/// Each operand after a space.
#[tactic(auto, using(crate::proofs::Writing::more, crate::proofs::Writing::none))]
fn write_operands<W: Write>(operands: &[Operand], writer: &mut W) -> Result<()>
    ensures told { OnOk result (Appends (W.contents writer.old) (W.contents writer.new) (flat_map operand_text operands.now)) }
    ensures listed { IsListed (1 ∷ 2 ∷ []) result }
{
    for operand in operands {
        write!(writer, " {operand}")?;
    }
    Ok(())
}

/// The number of a fault.
pub fn write_fault<W: Write>(fault: &Error, writer: &mut W) -> Result<()>
    ensures told { OnOk result (Appends (W.contents writer.old) (W.contents writer.new) (fault_line fault.now)) }
    ensures listed { IsListed (1 ∷ 2 ∷ []) result }
{
    let code = fault.code();
    writeln!(writer, "fault {code}")?;
    Ok(())
}
