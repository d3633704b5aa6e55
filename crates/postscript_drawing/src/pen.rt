//! The pen, which turns strokes into segments.
ghost use Rattle.std.specs.Prelude.{◌≡◌, ◌∷◌, OnOk, OnErr, IfErr, [], length, take, false, true};
ghost use Rattle.postscript_base.specs.declared.error.Error.TheVariants as errors;
ghost use Rattle.postscript_base.specs.Error.{IsListed};
ghost use Rattle.postscript_drawing.specs.Applying.{applied};
ghost use Rattle.postscript_drawing.specs.Drawing.{drawing, held, blank, closed, closing, opening};
ghost use Rattle.postscript_drawing.specs.Outcome.{Draws, DrawsStrokes};
ghost use Rattle.postscript_drawing.specs.Operators.{strokes as the_strokes};
ghost use Rattle.postscript_outline.specs.Sinks.{Receives};

use crate::reach::{reach, reach_by_curve};
use crate::stroke::{Stroke, Vector};
use crate::undrawn::{Stroked, Undrawn};
use postscript_base::{Error, Result};
use postscript_outline::{Given, Point, Segment, Sink};
use postscript_type2::{Operand, Operator};

/// A pen: its current point, and whether a contour is open.
#[derive(Clone, Copy, Debug, PartialEq, Eq)]
pub struct Pen {
    pub at: Point,
    pub is_open: bool,
}

impl Pen {
    /// Creates a pen at the origin, without an open contour.
    pub fn new() -> Pen
        // The pen is at the origin, and no contour is open.
        ensures { held result [] ≡ blank }
    {
        Pen {
            at: Point::ORIGIN,
            is_open: false,
        }
    }

    /// Closes the contour, if one is open, by appending to a list of segments.
    ///
    /// # Errors
    ///
    /// - `Memory`: out of memory.
    pub fn close(&mut self, segments: &mut Vec<Segment>) -> Result<()>
        // On success an open contour is closed, and nothing else changes.
        ensures ok { OnOk result (held self.new segments.new.items ≡ closed (held self.old segments.old.items)) }
        // The only error is `Memory`, and it leaves pen and segments unchanged.
        ensures err { IfErr result (λ e. (e ≡ errors.Memory) × (held self.new segments.new.items ≡ held self.old segments.old.items)) }
        // The earlier segments stay at the front of the list.
        ensures kept { take (length segments.old.items) segments.new.items ≡ segments.old.items }
    {
        if self.is_open {
            segments.push(Segment::Close)?;
            self.is_open = false;
        }
        Ok(())
    }

    /// Closes the contour, if one is open, by giving a segment to a sink.
    ///
    /// # Errors
    ///
    /// - `Full`: the sink takes no more segments. Its state is unchanged.
    #[inline(always)]
    pub fn end<S: Sink>(&mut self, sink: &mut S) -> Given
        // On success the sink has received a `Close` if a contour was open, and nothing otherwise.
        ensures ended { OnOk result (Receives S.after (S.state sink.old) (closing self.old) (S.state sink.new)) }
        // On an error the state of the sink is unchanged.
        ensures full { OnErr result (S.state sink.new ≡ S.state sink.old) }
        // On an error the sink is in a state in which it may be full (`refuses`).
        ensures refuses { OnErr result (S.refuses (S.state sink.new)) }
        // An error occurs only if a contour was open.
        ensures open { OnErr result (self.old.is_open ≡ true) }
    {
        if self.is_open {
            sink.add(Segment::Close)?;
            self.is_open = false;
        }
        Ok(())
    }

    /// Begins a contour at the current point, if none is open.
    #[inline(always)]
    fn begin<S: Sink>(&mut self, sink: &mut S) -> Given
        ensures begun { OnOk result (Receives S.after (S.state sink.old) (opening self.old) (S.state sink.new)) }
        ensures full { OnErr result (S.state sink.new ≡ S.state sink.old) }
        ensures refuses { OnErr result (S.refuses (S.state sink.new)) }
        ensures stays { self.new.at ≡ self.old.at }
        ensures open { OnOk result (self.new.is_open ≡ true) }
        ensures closed { OnErr result (self.old.is_open ≡ false) }
    {
        if !self.is_open {
            sink.add(Segment::MoveTo(self.at))?;
            self.is_open = true;
        }
        Ok(())
    }

    /// Moves without drawing, and begins a contour there.
    #[inline(always)]
    pub(crate) fn move_by<S: Sink>(&mut self, by: Vector, sink: &mut S) -> Stroked
        ensures { DrawsStrokes S.after S.refuses (Stroke.Move by ∷ []) self.old (S.state sink.old) result self.new (S.state sink.new) }
    {
        let Some(at) = reach(self.at, by) else {
            return Err(Undrawn::Overflow);
        };
        self.end(sink)?;
        sink.add(Segment::MoveTo(at))?;
        self.at = at;
        self.is_open = true;
        Ok(())
    }

    /// Draws a line.
    #[inline(always)]
    pub(crate) fn line_by<S: Sink>(&mut self, by: Vector, sink: &mut S) -> Stroked
        ensures { DrawsStrokes S.after S.refuses (Stroke.Line by ∷ []) self.old (S.state sink.old) result self.new (S.state sink.new) }
    {
        let Some(at) = reach(self.at, by) else {
            return Err(Undrawn::Overflow);
        };
        self.begin(sink)?;
        sink.add(Segment::LineTo(at))?;
        self.at = at;
        Ok(())
    }

    /// Draws a curve.
    #[inline(always)]
    pub(crate) fn curve_by<S: Sink>(
        &mut self,
        a: Vector,
        b: Vector,
        c: Vector,
        sink: &mut S,
    ) -> Stroked
        ensures { DrawsStrokes S.after S.refuses (Stroke.Curve a b c ∷ []) self.old (S.state sink.old) result self.new (S.state sink.new) }
    {
        let Some((first, second, at)) = reach_by_curve(self.at, a, b, c) else {
            return Err(Undrawn::Overflow);
        };
        self.begin(sink)?;
        sink.add(Segment::CurveTo(first, second, at))?;
        self.at = at;
        Ok(())
    }

    /// Draws a stroke.
    pub(crate) fn draw<S: Sink>(&mut self, stroke: Stroke, sink: &mut S) -> Stroked
        ensures { DrawsStrokes S.after S.refuses (stroke ∷ []) self.old (S.state sink.old) result self.new (S.state sink.new) }
    {
        match stroke {
            Stroke::Move(by) => self.move_by(by, sink),
            Stroke::Line(by) => self.line_by(by, sink),
            Stroke::Curve(a, b, c) => self.curve_by(a, b, c, sink),
        }
    }

    /// Appends the segments that an operator draws with these operands. On an error, pen and segments are unchanged.
    ///
    /// # Errors
    ///
    /// - `MalformedOperands`: the operator takes another number of operands. No operation of a run has this fault
    ///   (`laws::runs_fit`).
    /// - `Overflow`: a coordinate leaves the range.
    /// - `Memory`: out of memory.
    pub fn apply(
        &mut self,
        operator: Operator,
        operands: &[Operand],
        segments: &mut Vec<Segment>,
    ) -> Result<()>
        // On an error pen and segments are unchanged.
        ensures unchanged { OnErr result (held self.new segments.new.items ≡ held self.old segments.old.items) }
        // Apart from `Memory`, the result is what `applied` computes (specs/Applying.antt).
        ensures exact { Draws (applied operator operands.now (held self.old segments.old.items)) result (held self.new segments.new.items) }
        // The only errors are `Memory`, `MalformedOperands` and `Overflow`.
        ensures listed { IsListed (3 ∷ 20 ∷ 26 ∷ []) result }
    {
        match operator.taken(operands.len()) {
            Some(taken) if taken == operands.len() => self.draw_operation(
                operator, operands, segments,
            ),
            _ => Err(Error::MalformedOperands),
        }
    }

    /// The same for operands that fit. Others are not rejected, and too few for another stroke draw nothing.
    fn draw_operation(
        &mut self,
        operator: Operator,
        operands: &[Operand],
        segments: &mut Vec<Segment>,
    ) -> Result<()>
        ensures exact { Draws (drawing (the_strokes operator operands.now) (held self.old segments.old.items)) result
            (held self.new segments.new.items) }
        ensures listed { IsListed (3 ∷ 26 ∷ []) result }
        ensures unchanged { OnErr result (held self.new segments.new.items ≡ held self.old segments.old.items) }
    {
        let before = *self;
        let len = segments.len();
        match self.draw_path(operator, operands, segments) {
            Ok(()) => Ok(()),
            Err(e) => {
                *self = before;
                segments.truncate(len);
                Err(Error::from(e))
            }
        }
    }
}
