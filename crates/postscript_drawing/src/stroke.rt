//! Strokes: moves, lines and curves, relative to the current point of the pen.
ghost use Rattle.std.specs.Prelude.{◌≡◌};
ghost use Rattle.postscript_drawing.specs.Strokes.{aside as the_aside, along as the_along, other as the_other};

/// A vector, in 16.16 format.
#[derive(Clone, Copy, Debug, PartialEq, Eq)]
pub struct Vector {
    pub dx: i64,
    pub dy: i64,
}

/// A coordinate axis.
#[derive(Clone, Copy, Debug, PartialEq, Eq)]
pub enum Axis {
    Horizontal,
    Vertical,
}

impl Axis {
    /// Returns the other axis.
    #[inline(always)]
    pub fn other(self) -> Axis
        // The result is the other axis.
        ensures { result ≡ the_other self }
    {
        match self {
            Axis::Horizontal => Axis::Vertical,
            Axis::Vertical => Axis::Horizontal,
        }
    }

    /// Returns the vector of `distance` along the axis and `off` along the other axis.
    #[inline(always)]
    pub fn aside(self, distance: i64, off: i64) -> Vector
        // The result is `distance` along the axis and `off` along the other one.
        ensures { result ≡ the_aside self distance off }
    {
        match self {
            Axis::Horizontal => Vector {
                dx: distance,
                dy: off,
            },
            Axis::Vertical => Vector {
                dx: off,
                dy: distance,
            },
        }
    }

    /// Returns the vector of `distance` along the axis.
    #[inline(always)]
    pub fn along(self, distance: i64) -> Vector
        // The result is `distance` along the axis.
        ensures { result ≡ the_along self distance }
    {
        self.aside(distance, 0)
    }
}

/// A stroke of the pen, from its current point. Each vector begins at the end of the one before it.
#[derive(Clone, Copy, Debug, PartialEq, Eq)]
pub enum Stroke {
    /// A move without drawing.
    Move(Vector),
    /// A straight line.
    Line(Vector),
    /// A Bézier curve: the vectors to its first control point, from there to its second, and from there to its end.
    Curve(Vector, Vector, Vector),
}
