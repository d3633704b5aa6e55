//! Growing bounds as two vectors.
ghost use Rattle.std.specs.Prelude.{◌≡◌, List, None, Option};
ghost use Rattle.postscript_c.specs.Corners.{AreCornersOf};
ghost use Rattle.postscript_outline.specs.Bounds.{IsBoundsOf, included, taking};
ghost use Rattle.postscript_outline.specs.declared.bounds.Bounds.{Bounds};
ghost use Rattle.postscript_outline.specs.declared.point.Point.{Point};

use postscript_outline::{Bounds, Point, Segment};
use std::simd::prelude::*;

/// The lower left and the upper right corner of bounds, each with adjacent coordinates. Before the first point the
/// lower one has the greatest coordinates and the upper one the least, so adding a point needs no test.
#[derive(Clone, Copy)]
pub(crate) struct Corners {
    low: i32x2,
    high: i32x2,
}

impl Corners {
    /// The corners without any point.
    #[inline(always)]
    pub(crate) fn new() -> Corners
        ensures { AreCornersOf None result }
    {
        Corners {
            low: i32x2::splat(i32::MAX),
            high: i32x2::splat(i32::MIN),
        }
    }

    /// With one more point.
    #[inline(always)]
    fn with_point(self, at: Point) -> Corners
        ensures { (bounds : Option Bounds) → AreCornersOf bounds self → AreCornersOf (included bounds at) result }
    {
        let lanes = i32x2::from_array([at.x, at.y]);
        Corners {
            low: self.low.simd_min(lanes),
            high: self.high.simd_max(lanes),
        }
    }

    /// With the points of one more segment, control points too.
    #[inline(always)]
    pub(crate) fn with_segment(self, segment: Segment) -> Corners
        ensures { (bounds : Option Bounds) → AreCornersOf bounds self → AreCornersOf (taking bounds segment) result }
    {
        match segment {
            Segment::MoveTo(at) | Segment::LineTo(at) => self.with_point(at),
            Segment::CurveTo(first, second, at) => {
                self.with_point(first).with_point(second).with_point(at)
            }
            Segment::Close => self,
        }
    }

    /// The bounds with these corners. `None` if there is no point.
    pub(crate) fn bounds(self) -> Option<Bounds>
        ensures { (bounds : Option Bounds) (points : List Point) → AreCornersOf bounds self → IsBoundsOf bounds points → result ≡ bounds }
    {
        let [left, bottom] = self.low.to_array();
        let [right, top] = self.high.to_array();
        if left > right {
            return None;
        }
        Some(Bounds {
            low: Point { x: left, y: bottom },
            high: Point { x: right, y: top },
        })
    }
}
