//! Marks before the ranges of a charset. A glyph is searched for from the last mark before it.
ghost use Rattle.std.specs.Prelude.{◌≡◌, ◌≤◌, ◌+◌, ◌*◌, ◌^◌, ◌<◌};

use postscript_base::index::number::number_at;

/// The greatest number of marks.
const MOST: usize = 64;

/// The number of glyphs covered before some ranges, which are evenly spaced.
#[derive(Clone, Copy)]
pub(crate) struct Marks {
    /// The ranges after the marks.
    places: [usize; MOST],
    covers: [usize; MOST],
    /// The number of marks.
    set: usize,
    ghost most: { set ≤ 64 },
}

impl Marks {
    ghost use Rattle.postscript_view.specs.CharSet.{covered as the_covered};
    ghost use Rattle.postscript_view.specs.Marks.{AreBefore, AreEvery, AreSpread};

    /// No marks.
    pub(crate) fn none() -> Marks
        ensures { result.set ≡ 0 }
    {
        Marks {
            places: [0; MOST],
            covers: [0; MOST],
            set: 0,
        }
    }

    /// Adds a mark before a range, if it is due, and returns the range before which the next one is due.
    #[tactic(auto, using(crate::proofs::Marking::marked_more))]
    fn mark(
        &mut self,
        ranges: &[u8],
        size: usize,
        place: usize,
        covered: usize,
        step: usize,
        next: usize,
    ) -> usize
        requires marked { AreBefore ranges.now size self.old }
        requires covered { covered ≡ the_covered ranges.now size place }
        requires spread { AreEvery step self.old next }
        requires reached { place ≤ next }
        requires room { place < 64 * step }
        requires small { place + step < 2 ^ 64 }
        ensures marked { AreBefore ranges.now size self.new }
        ensures spread { AreEvery step self.new result }
        ensures passed { place < result }
    {
        if place < next {
            return next;
        }
        let at = self.set;
        self.places[at] = place;
        self.covers[at] = covered;
        self.set = at + 1;
        place + step
    }

    /// The marks before ranges. Only one range for each glyph is of use.
    #[tactic(auto, using(crate::proofs::Covering::covered_more, crate::proofs::Covering::covered_none))]
    pub(crate) fn of_ranges(ranges: &[u8], size: usize, glyphs: usize) -> Marks
        requires low { 1 ≤ size }
        requires high { size ≤ 2 }
        ensures marked { AreBefore ranges.now size result }
        ensures spread { AreSpread ranges.now size glyphs result }
    {
        let count = (ranges.len() / (2 + size)).min(glyphs);
        let step = count / MOST + 1;
        let mut marks = Marks::none();
        let mut covered = 0usize;
        let mut next = 0;
        for r in 0..count {
            next = marks.mark(ranges, size, r, covered, step, next);
            match covered.checked_add(number_at(ranges, r * (2 + size) + 2, size) + 1) {
                Some(more) => covered = more,
                None => break,
            }
        }
        marks
    }

    /// The range of the last mark before a glyph, and the number of glyphs covered before it. It is the first range if
    /// there is no such mark.
    #[tactic(auto, using(crate::proofs::Covering::covered_none))]
    pub(crate) fn last_before(&self, ranges: &[u8], size: usize, glyph: usize) -> (usize, usize)
        requires { AreBefore ranges.now size self.now }
        ensures covered { result.1 ≡ the_covered ranges.now size result.0 }
        ensures there { result.1 ≤ glyph }
    {
        let mut place = 0;
        let mut covered = 0;
        for m in 0..self.set {
            if self.covers[m] <= glyph {
                place = self.places[m];
                covered = self.covers[m];
            }
        }
        (place, covered)
    }
}
