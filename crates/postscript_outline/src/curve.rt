//! Bézier curves along one axis.
ghost use Rattle.std.specs.Prelude.{◌≡◌, ◌+◌, ◌*◌, ◌^◌, ◌≤◌, ◌<◌, ◌↔◌, ◌-◌, ◌+ℤ◌, pos, IsTrue, min, max};
ghost use Rattle.postscript_outline.specs.Halves.{Spans, IsLevel, IsCurveWithin, IsBent, IsNearLevel, back as the_back, front as the_front, joined};
ghost use Rattle.postscript_outline.specs.Arcs.{Reaches};

/// The number of times a curve is halved at most. After that, each piece is within one unit of its ends.
const HALVINGS: u32 = 17;

/// A Bézier curve along one axis, given by the coordinates of its ends and of its control points.
#[derive(Clone, Copy)]
struct Curve {
    from: u128,
    first: u128,
    second: u128,
    to: u128,
}

/// The extent of a curve, in whole units.
#[derive(Clone, Copy)]
struct Span {
    low: u128,
    high: u128,
}

impl Span {
    /// The extent of both.
    fn with_span(self, other: Span) -> Span
        ensures { result ≡ joined self other }
    {
        Span {
            low: self.low.min(other.low),
            high: self.high.max(other.high),
        }
    }
}

impl Curve {
    /// The first half, in eighths.
    fn front(self) -> Curve
        requires { IsCurveWithin (2 ^ 83) self }
        ensures { result ≡ the_front self }
    {
        Curve {
            from: 8 * self.from,
            first: 4 * (self.from + self.first),
            second: 2 * (self.from + 2 * self.first + self.second),
            to: self.from + 3 * self.first + 3 * self.second + self.to,
        }
    }

    /// The second half, in eighths.
    fn back(self) -> Curve
        requires { IsCurveWithin (2 ^ 83) self }
        ensures { result ≡ the_back self }
    {
        Curve {
            from: self.from + 3 * self.first + 3 * self.second + self.to,
            first: 2 * (self.first + 2 * self.second + self.to),
            second: 4 * (self.second + self.to),
            to: 8 * self.to,
        }
    }

    /// Whether both control points lie between the ends.
    fn is_level(self) -> bool
        ensures { IsTrue result → IsLevel self }
    {
        let (low, high) = (self.from.min(self.to), self.from.max(self.to));
        low <= self.first && self.first <= high && low <= self.second && self.second <= high
    }

    /// The extent of its ends and control points, in units of `unit` parts.
    fn hull(self, unit: u128) -> Span
        requires some { 0 < unit }
        requires room { IsCurveWithin (2 ^ 84) self }
        requires near { IsNearLevel unit self }
        ensures { Spans result unit self }
    {
        let low = self.from.min(self.first).min(self.second).min(self.to);
        let high = self.from.max(self.first).max(self.second).max(self.to);
        Span {
            low: low / unit,
            high: high.div_ceil(unit),
        }
    }

    /// The extent of the curve in units of `unit` parts, after at most `halvings` halvings.
    fn span(self, unit: u128, halvings: u32) -> Span
        requires parts { unit * 8 ^ halvings ≡ 2 ^ 51 }
        requires room { IsCurveWithin (2 ^ 32 * unit) self }
        requires bent { IsBent (2 ^ halvings) (2 ^ 50) self }
        ensures { Spans result unit self }
    {
        if halvings == 0 || self.is_level() {
            return self.hull(unit);
        }
        let front = self.front().span(8 * unit, halvings - 1);
        let back = self.back().span(8 * unit, halvings - 1);
        front.with_span(back)
    }
}

/// The extent of a curve along an axis, in 16.16 format, from the coordinates of its ends and control points.
pub(crate) fn extent(from: i32, first: i32, second: i32, to: i32) -> (i32, i32)
    ensures { Reaches result.0 result.1 from first second to }
{
    let curve = Curve {
        from: distance_from_least(from),
        first: distance_from_least(first),
        second: distance_from_least(second),
        to: distance_from_least(to),
    };
    let Span { low, high } = curve.span(1, HALVINGS);
    (coordinate_at(low), coordinate_at(high))
}

/// The distance from the least coordinate.
fn distance_from_least(coordinate: i32) -> u128
    ensures is { coordinate +ℤ pos (2 ^ 31) ≡ pos result }
    ensures room { result ≤ 2 ^ 32 - 1 }
{
    (i64::from(coordinate) + 2_147_483_648) as u128
}

/// The coordinate at a distance from the least one.
fn coordinate_at(number: u128) -> i32
    requires { number ≤ 2 ^ 32 - 1 }
    ensures { result +ℤ pos (2 ^ 31) ≡ pos number }
{
    (number as i64 - 2_147_483_648) as i32
}
