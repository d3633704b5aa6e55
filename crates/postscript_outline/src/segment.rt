//! Segments of outlines.
use crate::point::Point;

/// A segment of an outline.
#[derive(Clone, Copy, Debug, PartialEq, Eq)]
pub enum Segment {
    /// The start of a contour.
    MoveTo(Point),
    /// A straight line to this point.
    LineTo(Point),
    /// A Bézier curve: its two control points, and its end.
    CurveTo(Point, Point, Point),
    /// The end of the contour, which goes back to its start.
    Close,
}
