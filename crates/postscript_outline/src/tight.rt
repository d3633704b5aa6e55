//! The bounds of the curves of outlines.
ghost use Rattle.std.specs.Prelude.{◌≡◌, Some, pos};
ghost use Rattle.postscript_outline.specs.Points.{point};
ghost use Rattle.postscript_outline.specs.Tight.{IsTightBoundsOf, Surrounds, TakesIn, after, arc, arcs, arcs_of, both, no_bounds};

use crate::bounds::{Bounds, lower, upper};
use crate::curve::extent;
use crate::outline::Outline;
use crate::point::Point;
use crate::segment::Segment;

impl Outline {
    /// Returns the smallest rectangle around the lines and curves of the outline. Each side is the closest whole
    /// 65536th of a unit, or at most one 65536th further out. It touches ends and extrema of curves, and ignores
    /// control points. Returns `None` if there are no points.
    pub fn tight_bounds(&self) -> Option<Bounds>
        // Lines and curves are within, and some point is less than two 65536ths from each side.
        ensures { IsTightBoundsOf result (arcs (point (pos 0) (pos 0)) self.now.segments.items) }
    {
        let mut bounds = TightBounds::new();
        for segment in &self.segments {
            bounds = bounds.taking(*segment);
        }
        bounds.bounds
    }
}

/// The bounds of lines and curves that follow one another, and the current point of the pen. As a sink it begins with
/// [`TightBounds::new`]. Its bounds are as tight as those of [`Outline::tight_bounds`]
/// (`laws::tight_bounds_take_in_curves`).
#[derive(Clone, Copy, Debug, PartialEq, Eq)]
pub struct TightBounds {
    pub bounds: Option<Bounds>,
    pub at: Point,
}

impl TightBounds {
    /// Creates empty bounds, with the pen at the origin.
    pub fn new() -> TightBounds
        // There are no bounds, and the pen is at the origin.
        ensures { result ≡ no_bounds }
    {
        TightBounds {
            bounds: None,
            at: Point::ORIGIN,
        }
    }

    /// Returns the bounds extended by everything that one more segment draws.
    pub fn taking(self, segment: Segment) -> TightBounds
        // The result is extended by tight bounds of the segment, and the pen is at its end.
        ensures { TakesIn self segment result }
    {
        TightBounds {
            bounds: union_of(self.bounds, of_segment(self.at, segment)),
            at: end(self.at, segment),
        }
    }
}

/// The point of the pen after a segment that begins at `from`.
fn end(from: Point, segment: Segment) -> Point
    ensures { result ≡ after from segment }
{
    match segment {
        Segment::MoveTo(at) | Segment::LineTo(at) | Segment::CurveTo(_, _, at) => at,
        Segment::Close => from,
    }
}

/// The bounds of a segment that begins at `from`.
fn of_segment(from: Point, segment: Segment) -> Option<Bounds>
    ensures { IsTightBoundsOf result (arcs_of from segment) }
{
    match segment {
        Segment::MoveTo(at) => Some(of_curve(at, at, at, at)),
        Segment::LineTo(at) => Some(of_curve(from, from, at, at)),
        Segment::CurveTo(first, second, at) => Some(of_curve(from, first, second, at)),
        Segment::Close => None,
    }
}

/// The bounds of a curve.
fn of_curve(from: Point, first: Point, second: Point, to: Point) -> Bounds
    ensures { Surrounds result (arc from first second to) }
{
    let (left, right) = extent(from.x, first.x, second.x, to.x);
    let (bottom, top) = extent(from.y, first.y, second.y, to.y);
    Bounds {
        low: Point { x: left, y: bottom },
        high: Point { x: right, y: top },
    }
}

/// The bounds of both.
fn union_of(bounds: Option<Bounds>, more: Option<Bounds>) -> Option<Bounds>
    ensures { result ≡ both bounds more }
{
    match (bounds, more) {
        (Some(these), Some(those)) => Some(Bounds {
            low: lower(these.low, those.low),
            high: upper(these.high, those.high),
        }),
        (None, bounds) | (bounds, None) => bounds,
    }
}
