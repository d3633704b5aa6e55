//! Segments of glyphs in the form for C.
ghost use Rattle.std.specs.Prelude.{◌≡◌, ◌∷◌, ◌++◌, [], None, IfErr, IfOk, OnErr, OnOk, fold, map};
ghost use Rattle.postscript_base.specs.declared.error.Error.TheVariants as errors;
ghost use Rattle.postscript_c.specs.Corners.{AreCornersOf, AreCornersOf-prop};
ghost use Rattle.postscript_c.specs.Segments.{AreShown, AreShown-prop, meant};
ghost use Rattle.postscript_outline.specs.Bounds.{IsBoundsOf, points, taking};

use crate::corners::Corners;
use crate::fill::{PsfSegment, segment_for_c};
use postscript_base::Result;
use postscript_outline::laws::bounds_take_in_points;
use postscript_outline::{Bounds, Given, Segment, Sink};
use std::alloc::Global;

/// The number of segments that memory is allocated for at the beginning: nearly all glyphs have fewer.
const ROOM: usize = 128;

/// The segments of a glyph in the form for C, and the bounds of their points.
#[derive(Drop)]
pub(crate) struct Segments {
    pub(crate) segments: Vec<PsfSegment>,
    corners: Corners,
    ghost shown: { AreShown segments.items } by { AreShown-prop segments.items },
    ghost bounded: { AreCornersOf (fold taking None (map meant segments.items)) corners } by { AreCornersOf-prop _ corners },
}

impl Segments {
    /// No segments yet.
    pub(crate) fn new(alloc: Global) -> Result<Segments>
        ensures empty { IfOk result (λ sketch. sketch.segments.items ≡ []) }
        ensures memory { IfErr result (λ e. e ≡ errors.Memory) }
    {
        Ok(Segments {
            segments: Vec::with_capacity(alloc, ROOM)?,
            corners: Corners::new(),
        })
    }

    /// The bounds of the points, including control points. `None` if there is no point.
    pub(crate) fn bounds(&self) -> Option<Bounds>
        ensures { IsBoundsOf result (points (map meant self.now.segments.items)) }
    {
        bounds_take_in_points();
        self.corners.bounds()
    }
}

impl Sink for Segments {
    ghost use Rattle.std.specs.Prelude.{◌≡◌, ◌++◌, ◌∷◌, [], List, map};
    ghost use Rattle.postscript_c.specs.Segments.{meant};
    ghost use Rattle.postscript_outline.specs.declared.segment.Segment.{Segment};

    ghost State = { List Segment };

    ghost state = { λ sketch. map meant sketch.segments.items };

    ghost after = { λ old segment new. new ≡ old ++ segment ∷ [] };

    ghost refuses = { λ _. Unit {0} };

    #[inline(always)]
    fn add(&mut self, segment: Segment) -> Given {
        self.segments.push(segment_for_c(segment))?;
        self.corners = self.corners.with_segment(segment);
        Ok(())
    }
}

/// The same for a glyph at a location. It is a separate type so that drawing into `Segments` has one caller, and is
/// inlined.
#[derive(Drop)]
pub(crate) struct PlacedSegments {
    pub(crate) segments: Segments,
}

impl Sink for PlacedSegments {
    ghost use Rattle.std.specs.Prelude.{◌≡◌, ◌++◌, ◌∷◌, [], List, map};
    ghost use Rattle.postscript_c.specs.Segments.{meant};
    ghost use Rattle.postscript_outline.specs.declared.segment.Segment.{Segment};

    ghost State = { List Segment };

    ghost state = { λ sketch. map meant sketch.segments.segments.items };

    ghost after = { λ old segment new. new ≡ old ++ segment ∷ [] };

    ghost refuses = { λ _. Unit {0} };

    #[inline(always)]
    fn add(&mut self, segment: Segment) -> Given {
        self.segments.add(segment)
    }
}
