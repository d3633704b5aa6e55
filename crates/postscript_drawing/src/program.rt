//! Drawing of programs into sinks.
ghost use Rattle.std.specs.Prelude.{◌≡◌, ◌≢◌, ◌<◌, Err, IfOk, IfErr, OnErr, false, true};
ghost use Rattle.postscript_drawing.specs.DrawnProgram.{DrawsFront, DrawsOfFirst, DrawsProgram, IsProgramRefused, IsSpent};
ghost use Rattle.postscript_drawing.specs.Outcome.{OrFull};
ghost use Rattle.postscript_drawing.specs.declared.error.Error.TheVariants as errors;
ghost use Rattle.postscript_type2.specs.Program.Limit.{cost};
ghost use Rattle.postscript_type2.specs.Program.Programs.{ended_over};
ghost use Rattle.postscript_type2.specs.Program.Runs.{taken_by};

use crate::error::{Error, Result};
use crate::pen::Pen;
use postscript_outline::{Point, Sink};
use postscript_type2::{Operand, Program, Within};

/// A limit for a glyph of an untrusted font, in units of `Program::step_within`.
pub const LIMIT: u64 = 20_000_000;

/// Draws the rest of a program into a sink, with the origin of the glyph at a point. It gives the sink the segments in
/// order as the run produces them. It returns the width minus nominalWidthX, and leaves the program at its end. Memory
/// is allocated only for the program.
///
/// The limit bounds the time, and `limit` is set to the units left. `Program::step_within` describes how the run spends
/// it. A run that costs less than the limit is never stopped.
///
/// On an error the sink has received some first segments of the run, and none of a stroke that leaves the range.
///
/// # Errors
///
/// - `TooLong`: the limit is used up before the end.
/// - `Full`: the sink takes no more segments.
/// - `Font`: an error of `Program::next`, `Overflow` if a coordinate leaves the range, or `Memory`.
pub fn draw_program<S: Sink>(
    program: &mut Program<'_>,
    origin: Point,
    limit: &mut u64,
    sink: &mut S,
) -> Result<Option<Operand>>
    // On success the sink has received all segments, from `origin` on, and the width is the run's.
    ensures drawn { IfOk result (λ width. DrawsProgram S.after origin (S.state sink.old) (S.state sink.new) width program.old) }
    // The error gives a cause that holds (`IsProgramRefused`, specs/DrawnProgram.antt).
    ensures why { IfErr result (λ e. IsProgramRefused origin program.old limit.new e) }
    // On an error, if all coordinates stay in the range, the sink has received some first segments.
    ensures front { OnErr result (DrawsFront S.after origin (S.state sink.old) (S.state sink.new) program.old.answers) }
    // On an error it has received some first segments, and none of a stroke that leaves the range.
    ensures given { OnErr result (DrawsOfFirst S.after origin (S.state sink.old) (S.state sink.new) program.old.answers) }
    // On `Full` the run has one more segment, which the sink did not take (`OrFull`).
    ensures more { result ≡ Err errors.Full →
        DrawsOfFirst (OrFull S.after) origin (S.state sink.old, false) (S.state sink.new, true) program.old.answers }
    // On `Full` the sink is in a state in which it may be full (`refuses`).
    ensures full { result ≡ Err errors.Full → S.refuses (S.state sink.new) }
    // On success the program is at its end, with the operands that `endchar` took.
    ensures ended { IfOk result (λ width. program.new ≡ ended_over (taken_by program.old.end) width) }
    // The phrases that were run are paid from the limit, and on success all are.
    ensures spends { IsSpent limit.old program.old.trace limit.new result }
    // If the phrases left cost less than the limit, the error is not `TooLong`.
    ensures suffices { cost program.old.trace < limit.old → result ≢ Err errors.TooLong }
{
    let mut pen = Pen {
        at: origin,
        is_open: false,
    };
    loop {
        match program.step_within_for::<S>(limit)? {
            Within::Operation(operator, operands) => pen.draw_path(operator, operands, sink)?,
            Within::End => {
                pen.end(sink)?;
                return Ok(program.width());
            }
            Within::Paused => return Err(Error::TooLong),
        }
    }
}
