//! Drawing of charstrings.
ghost use Rattle.std.specs.Prelude.{◌≡◌, ◌≢◌, ◌<◌, Err, OnOk, OnErr, IfOk, IfErr, false, true};
ghost use Rattle.postscript_drawing.specs.DrawnProgram.{DrawsFront, DrawsOfFirst};
ghost use Rattle.postscript_drawing.specs.Outcome.{OrFull};
ghost use Rattle.postscript_drawing.specs.declared.error.Error.TheVariants as errors;
ghost use Rattle.postscript_variable.specs.Charstrings.{run_from};
ghost use Rattle.postscript_variable.specs.Limit.{cost};
ghost use Rattle.postscript_variable.specs.Programs.{begun, ended};
ghost use Rattle.postscript_variable_font.specs.Drawn.{IsOutlineOf, IsRefused, IsSpent, Gives, origin as the_origin};

use postscript_base::Error as Cause;
use postscript_drawing::{Error, Pen, Result};
use postscript_outline::{Point, Segment, Sink};
use postscript_type2::Within;
use postscript_variable::{Charstring, Program};
use std::alloc::Global;

/// The number of segments that memory is allocated for at the beginning: most glyphs have fewer.
const ROOM: usize = 64;

/// Draws the rest of a program into a sink, with the origin of the glyph at a point.
///
/// The sink is given the segments in the order of the run, as by `postscript_drawing::draw_program` for a Type 2
/// charstring. At the end an open contour is closed, and the program is at its end. Only the program allocates.
///
/// The run is within a limit of `*limit` units, which is reduced by its cost as in `Program::step_within`. A run that
/// costs less than the limit is never stopped.
///
/// # Errors
///
/// After an error the sink has the segments up to there.
///
/// - `TooLong`: the limit is used up before the end.
/// - `Full`: the sink accepts no further segment.
/// - `Font`: an error of `Program::step`, or `Overflow` if a coordinate is out of range.
pub fn draw_program<S: Sink>(
    program: &mut Program<'_>,
    origin: Point,
    limit: &mut u64,
    sink: &mut S,
) -> Result<()>
    // On success the sink was given exactly the segments of the operations, in order.
    ensures drawn { OnOk result (Gives S.after (S.state sink.old) (S.state sink.new) (IsOutlineOf origin program.old)) }
    // An error is justified: by memory, a full sink, a limit of 0, the run or a coordinate.
    ensures why { IfErr result (λ e. IsRefused origin program.old limit.new e) }
    // On an error, if all coordinates stay in the range, the sink was given some first segments.
    ensures front { OnErr result (DrawsFront S.after origin (S.state sink.old) (S.state sink.new) program.old.answers) }
    // On an error it was given some first segments, and none of a stroke that leaves the range.
    ensures given { OnErr result (DrawsOfFirst S.after origin (S.state sink.old) (S.state sink.new) program.old.answers) }
    // On `Full` the run has one more segment, which the sink did not accept (`OrFull`).
    ensures more { result ≡ Err errors.Full →
        DrawsOfFirst (OrFull S.after) origin (S.state sink.old, false) (S.state sink.new, true) program.old.answers }
    // The error `Full` means that the sink accepts no further segment.
    ensures full { result ≡ Err errors.Full → S.refuses (S.state sink.new) }
    // On success the program is at its end.
    ensures ended { OnOk result (program.new ≡ ended) }
    // The cost of everything that was read is subtracted, on success of the whole rest.
    ensures spends { IsSpent limit.old program.old.costs limit.new result }
    // If the rest of the run costs less than the limit, the error is not `TooLong`.
    ensures suffices { cost program.old.costs < limit.old → result ≢ Err errors.TooLong }
{
    let mut pen = Pen {
        at: origin,
        is_open: false,
    };
    loop {
        match program.step_within(limit)? {
            Within::Operation(operator, operands) => pen.draw_path(operator, operands, sink)?,
            Within::End => {
                pen.end(sink)?;
                return Ok(());
            }
            Within::Paused => return Err(Error::TooLong),
        }
    }
}

/// Draws the outline of a charstring into a sink, from the origin of the glyph, as [`draw_program`] does for a program.
///
/// Coordinates are 16.16 numbers in font units.
///
/// # Errors
///
/// After an error the sink has the first segments.
///
/// - The errors of [`draw_program`].
pub fn draw<S: Sink>(
    alloc: Global,
    charstring: Charstring<'_>,
    limit: &mut u64,
    sink: &mut S,
) -> Result<()>
    // On success the sink was given exactly the segments of the charstring, in order.
    ensures drawn { OnOk result
        (Gives S.after (S.state sink.old) (S.state sink.new) (IsOutlineOf the_origin (begun (run_from charstring.entry)))) }
    // An error is justified: by memory, a full sink, a limit of 0, the run or a coordinate.
    ensures why { IfErr result (λ e. IsRefused the_origin (begun (run_from charstring.entry)) limit.new e) }
    // On an error, if all coordinates stay in the range, the sink was given some first segments.
    ensures front { OnErr result (DrawsFront S.after the_origin (S.state sink.old) (S.state sink.new) (run_from charstring.entry).answers) }
    // On an error it was given some first segments, and none of a stroke that leaves the range.
    ensures given { OnErr result (DrawsOfFirst S.after the_origin (S.state sink.old) (S.state sink.new) (run_from charstring.entry).answers) }
    // On `Full` the run has one more segment, which the sink did not accept (`OrFull`).
    ensures more { result ≡ Err errors.Full →
        DrawsOfFirst (OrFull S.after) the_origin (S.state sink.old, false) (S.state sink.new, true) (run_from charstring.entry).answers }
    // The error `Full` means that the sink accepts no further segment.
    ensures full { result ≡ Err errors.Full → S.refuses (S.state sink.new) }
    // The cost of everything that was read is subtracted, on success of the whole run.
    ensures spends { IsSpent limit.old (run_from charstring.entry).costs limit.new result }
    // If the run costs less than the limit, the error is not `TooLong`.
    ensures suffices { cost (run_from charstring.entry).costs < limit.old → result ≢ Err errors.TooLong }
{
    let mut program = charstring.program(alloc);
    draw_program(&mut program, Point::ORIGIN, limit, sink)
}

/// Returns the segments of the outline of a charstring, as [`draw`] gives them.
///
/// # Errors
///
/// - The errors of [`draw`] apart from `Full`. If the list cannot grow, the error is `Font` with `Memory`.
pub fn outline_of(
    alloc: Global,
    charstring: Charstring<'_>,
    limit: &mut u64,
) -> Result<Vec<Segment>>
    // The list has exactly the segments of the charstring, in order.
    ensures drawn { IfOk result (λ segments. IsOutlineOf the_origin (begun (run_from charstring.entry)) segments.items) }
    // An error is justified: by memory, a limit of 0, the run or a coordinate.
    ensures why { IfErr result (λ e. IsRefused the_origin (begun (run_from charstring.entry)) limit.new e) }
    // The error is never `Full`.
    ensures memory { result ≢ Err errors.Full }
    // The cost of everything that was read is subtracted, on success of the whole run.
    ensures spends { IsSpent limit.old (run_from charstring.entry).costs limit.new result }
    // If the run costs less than the limit, the error is not `TooLong`.
    ensures suffices { cost (run_from charstring.entry).costs < limit.old → result ≢ Err errors.TooLong }
{
    let mut segments = Vec::with_capacity(alloc, ROOM)?;
    match draw(alloc, charstring, limit, &mut segments) {
        Ok(()) => Ok(segments),
        Err(Error::Full) => Err(Error::Font(Cause::Memory)),
        Err(e) => Err(e),
    }
}
