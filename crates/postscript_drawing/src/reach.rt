//! The end points of vectors.
ghost use Rattle.std.specs.Prelude.{◌≡◌, ◌+ℤ◌, Ok, Err, MatchOption};
ghost use Rattle.postscript_base.specs.Refusal.{overflow};
ghost use Rattle.postscript_drawing.specs.Drawing.{blank_at, drawn, reached};
ghost use Rattle.postscript_drawing.specs.declared.stroke.Stroke.TheVariants as strokes;
ghost use Rattle.postscript_type2.specs.Program.FixedPoint.{fit};

use crate::stroke::Vector;
use postscript_outline::Point;

/// The end point of a vector. `None` if a coordinate leaves the range.
#[inline(always)]
pub(crate) fn reach(from: Point, by: Vector) -> Option<Point>
    ensures { MatchOption result (reached from by ≡ Err overflow) (λ point. reached from by ≡ Ok point) }
{
    Some(Point {
        x: sum(from.x, by.dx)?,
        y: sum(from.y, by.dy)?,
    })
}

/// The control points and the end point of a curve given by vectors. `None` if a coordinate leaves the range.
#[inline(always)]
pub(crate) fn reach_by_curve(
    from: Point,
    a: Vector,
    b: Vector,
    c: Vector,
) -> Option<(Point, Point, Point)>
    ensures { MatchOption result (drawn (strokes.Curve a b c) (blank_at from) ≡ Err overflow)
        (λ p. (reached from a ≡ Ok p.0) × (reached p.0 b ≡ Ok p.1) × (reached p.1 c ≡ Ok p.2)) }
{
    let first = reach(from, a)?;
    let second = reach(first, b)?;
    Some((first, second, reach(second, c)?))
}

/// A coordinate moved by a distance, if it stays in the range.
#[inline(always)]
fn sum(from: i32, by: i64) -> Option<i32>
    ensures { MatchOption result (fit (from +ℤ by) ≡ Err overflow) (λ sum. fit (from +ℤ by) ≡ Ok sum) }
{
    let sum = i64::from(from).checked_add(by)?;
    i32::try_from(sum).ok()
}
