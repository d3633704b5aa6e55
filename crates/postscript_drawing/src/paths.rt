//! Drawing of paths. Each pattern of operands has a method that draws them as it reads them (Technical Note 5177, "Path
//! Construction Operators"). A flex is drawn by its two strokes.
ghost use Rattle.std.specs.Prelude.{◌≡◌, true};
ghost use Rattle.postscript_drawing.specs.Outcome.{DrawsStrokes};
ghost use Rattle.postscript_drawing.specs.Operators.{is_flex, strokes as the_strokes};
ghost use Rattle.postscript_drawing.specs.Strokes.{move as the_move, move_along as the_move_along, lines as the_lines, lines_in_turn as the_lines_in_turn, curves as the_curves, curves_along as the_curves_along, curves_level as the_curves_level, curves_in_turn as the_curves_in_turn, curves_then_line as the_curves_then_line, lines_then_curve as the_lines_then_curve};

use crate::flex::flex_strokes;
use crate::operands::{
    curve, curve_along, curve_in_turn, first_aside, line_in_turn, vector, vector_of, wide,
};
use crate::pen::Pen;
use crate::stroke::Axis;
use crate::undrawn::Stroked;
use postscript_outline::Sink;
use postscript_type2::{Operand, Operator};

/// The first axis of an operator that draws along one axis, or along both in turn. One call then draws for both axes,
/// because a compiler inlines a function with one caller.
#[inline(always)]
fn first_axis(operator: Operator) -> Axis
    ensures hmove { operator ≡ Operator.HMoveTo → result ≡ Axis.Horizontal }
    ensures vmove { operator ≡ Operator.VMoveTo → result ≡ Axis.Vertical }
    ensures hline { operator ≡ Operator.HLineTo → result ≡ Axis.Horizontal }
    ensures vline { operator ≡ Operator.VLineTo → result ≡ Axis.Vertical }
    ensures hhcurve { operator ≡ Operator.HHCurveTo → result ≡ Axis.Horizontal }
    ensures vvcurve { operator ≡ Operator.VVCurveTo → result ≡ Axis.Vertical }
    ensures hvcurve { operator ≡ Operator.HVCurveTo → result ≡ Axis.Horizontal }
    ensures vhcurve { operator ≡ Operator.VHCurveTo → result ≡ Axis.Vertical }
{
    match operator {
        Operator::HMoveTo | Operator::HLineTo | Operator::HHCurveTo | Operator::HVCurveTo =>
            Axis::Horizontal,
        _ => Axis::Vertical,
    }
}

impl Pen {
    /// Draws an operator with its operands into a sink, from the current point. Each operation of a run, and then
    /// [`Pen::end`], draws the glyph of the run. Stems, masks and operators that do not draw give the sink nothing.
    /// Operands that are too few for another stroke draw nothing. No operation of a run has such operands
    /// (`laws::runs_fit`).
    ///
    /// On an error the sink has received some first segments, and none of a stroke that leaves the range.
    ///
    /// # Errors
    ///
    /// - `Undrawn::Overflow`: a coordinate leaves the range.
    /// - `Undrawn::Full`: the sink takes no more segments.
    #[inline(always)]
    pub fn draw_path<S: Sink>(
        &mut self,
        operator: Operator,
        operands: &[Operand],
        sink: &mut S,
    ) -> Stroked
        // The sink receives first segments of the strokes, and on success all (`DrawsStrokes`).
        ensures { DrawsStrokes S.after S.refuses (the_strokes operator operands.now) self.old (S.state sink.old) result self.new
            (S.state sink.new) }
    {
        match operator {
            Operator::RMoveTo => self.go(operands, sink),
            Operator::HMoveTo | Operator::VMoveTo => self.go_along(
                first_axis(operator),
                operands,
                sink,
            ),
            Operator::RLineTo => self.lines(operands, sink),
            Operator::HLineTo | Operator::VLineTo => self.lines_in_turn(
                first_axis(operator),
                operands,
                sink,
            ),
            Operator::RRCurveTo => self.curves(operands, sink),
            Operator::HHCurveTo | Operator::VVCurveTo => self.curves_level(
                first_axis(operator),
                operands,
                sink,
            ),
            Operator::HVCurveTo | Operator::VHCurveTo => self.curves_in_turn(
                first_axis(operator),
                operands,
                sink,
            ),
            Operator::RCurveLine => self.curves_then_line(operands, sink),
            Operator::RLineCurve => self.lines_then_curve(operands, sink),
            Operator::Flex | Operator::HFlex | Operator::HFlex1 | Operator::Flex1 => {
                let mut pen = *self;
                let drawn = pen.flexes(operator, operands, sink);
                *self = pen;
                drawn
            }
            // stems, masks, and operators that are in no operation of a run
            _ => Ok(()),
        }
    }

    /// Draws a flex. It stays a call, since few glyphs have one and strokes are large.
    #[inline(never)]
    fn flexes<S: Sink>(&mut self, operator: Operator, operands: &[Operand], sink: &mut S) -> Stroked
        ensures { is_flex operator ≡ true → DrawsStrokes S.after S.refuses (the_strokes operator operands.now) self.old
            (S.state sink.old) result self.new (S.state sink.new) }
    {
        let Some((first, second)) = flex_strokes(operator, operands) else {
            return Ok(());
        };
        self.draw(first, sink)?;
        self.draw(second, sink)
    }

    /// dx1 dy1
    fn go<S: Sink>(&mut self, operands: &[Operand], sink: &mut S) -> Stroked
        ensures { DrawsStrokes S.after S.refuses (the_move operands.now) self.old (S.state sink.old) result self.new (S.state sink.new) }
    {
        match operands {
            [dx1, dy1] => self.move_by(vector_of(*dx1, *dy1), sink),
            _ => Ok(()),
        }
    }

    /// d1
    fn go_along<S: Sink>(&mut self, axis: Axis, operands: &[Operand], sink: &mut S) -> Stroked
        ensures { DrawsStrokes S.after S.refuses (the_move_along axis operands.now) self.old (S.state sink.old) result self.new
            (S.state sink.new) }
    {
        match operands {
            [d1] => self.move_by(axis.along(wide(*d1)), sink),
            _ => Ok(()),
        }
    }

    /// {dxa dya}+
    #[inline(always)]
    fn lines<S: Sink>(&mut self, operands: &[Operand], sink: &mut S) -> Stroked
        ensures { DrawsStrokes S.after S.refuses (the_lines operands.now) self.old (S.state sink.old) result self.new (S.state sink.new) }
    {
        let mut ahead = operands;
        while let Some((a, rest)) = vector(ahead) {
            self.line_by(a, sink)?;
            ahead = rest;
        }
        Ok(())
    }

    /// {da}+: each round draws one line along each axis.
    #[inline(always)]
    fn lines_in_turn<S: Sink>(&mut self, first: Axis, operands: &[Operand], sink: &mut S) -> Stroked
        ensures { DrawsStrokes S.after S.refuses (the_lines_in_turn first operands.now) self.old (S.state sink.old) result self.new
            (S.state sink.new) }
    {
        let mut ahead = operands;
        while let Some((a, behind)) = line_in_turn(first, ahead) {
            self.line_by(a, sink)?;
            let Some((b, rest)) = line_in_turn(first.other(), behind) else {
                return Ok(());
            };
            self.line_by(b, sink)?;
            ahead = rest;
        }
        Ok(())
    }

    /// {dxa dya dxb dyb dxc dyc}+
    #[inline(always)]
    fn curves<S: Sink>(&mut self, operands: &[Operand], sink: &mut S) -> Stroked
        ensures { DrawsStrokes S.after S.refuses (the_curves operands.now) self.old (S.state sink.old) result self.new (S.state sink.new) }
    {
        let mut ahead = operands;
        while let Some(bend) = curve(ahead) {
            self.curve_by(bend.a, bend.b, bend.c, sink)?;
            ahead = bend.rest;
        }
        Ok(())
    }

    /// d1? {da dxb dyb dc}+
    fn curves_level<S: Sink>(&mut self, axis: Axis, operands: &[Operand], sink: &mut S) -> Stroked
        ensures { DrawsStrokes S.after S.refuses (the_curves_level axis operands.now) self.old (S.state sink.old) result self.new
            (S.state sink.new) }
    {
        let (first, rest) = first_aside(operands);
        self.curves_along(axis, first, rest, sink)
    }

    /// {da dxb dyb dc}+
    #[inline(always)]
    fn curves_along<S: Sink>(
        &mut self,
        axis: Axis,
        first: i64,
        operands: &[Operand],
        sink: &mut S,
    ) -> Stroked
        ensures { DrawsStrokes S.after S.refuses (the_curves_along axis first operands.now) self.old (S.state sink.old) result self.new
            (S.state sink.new) }
    {
        let mut off = first;
        let mut ahead = operands;
        while let Some(bend) = curve_along(axis, off, ahead) {
            self.curve_by(bend.a, bend.b, bend.c, sink)?;
            off = 0;
            ahead = bend.rest;
        }
        Ok(())
    }

    /// {da dxb dyb dc}+ de?: each round draws one curve that begins along each axis.
    #[inline(always)]
    fn curves_in_turn<S: Sink>(
        &mut self,
        first: Axis,
        operands: &[Operand],
        sink: &mut S,
    ) -> Stroked
        ensures { DrawsStrokes S.after S.refuses (the_curves_in_turn first operands.now) self.old (S.state sink.old) result self.new
            (S.state sink.new) }
    {
        let mut ahead = operands;
        while let Some(bend) = curve_in_turn(first, ahead) {
            self.curve_by(bend.a, bend.b, bend.c, sink)?;
            let Some(turned) = curve_in_turn(first.other(), bend.rest) else {
                return Ok(());
            };
            self.curve_by(turned.a, turned.b, turned.c, sink)?;
            ahead = turned.rest;
        }
        Ok(())
    }

    /// {dxa dya dxb dyb dxc dyc}+ dxd dyd
    fn curves_then_line<S: Sink>(&mut self, operands: &[Operand], sink: &mut S) -> Stroked
        ensures { DrawsStrokes S.after S.refuses (the_curves_then_line operands.now) self.old (S.state sink.old) result self.new
            (S.state sink.new) }
    {
        let (these, those) = operands.split_at(operands.len().saturating_sub(2));
        self.curves(these, sink)?;
        self.lines(those, sink)
    }

    /// {dxa dya}+ dxb dyb dxc dyc dxd dyd
    fn lines_then_curve<S: Sink>(&mut self, operands: &[Operand], sink: &mut S) -> Stroked
        ensures { DrawsStrokes S.after S.refuses (the_lines_then_curve operands.now) self.old (S.state sink.old) result self.new
            (S.state sink.new) }
    {
        let (these, those) = operands.split_at(operands.len().saturating_sub(6));
        self.lines(these, sink)?;
        self.curves(those, sink)
    }
}
