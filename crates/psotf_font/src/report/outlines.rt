//! Outlines in the short form (docs/report-format.md).
use super::short;
use postscript_outline::{Bounds, Outline, Point, Segment};
use psotf_output::sheet::Sheet;
use psotf_output::text::Text;
use std::alloc::Global;

/// The part of an outline that is written: a letter for each segment, and the difference of each point from the
/// previous one.
#[derive(Drop)]
struct Pen {
    at: Point,
    letters: Text,
    points: Text,
}

impl Pen {
    fn point(&mut self, to: Point) {
        let x = i64::from(to.x).saturating_sub(i64::from(self.at.x));
        let y = i64::from(to.y).saturating_sub(i64::from(self.at.y));
        short::put_bits(&mut self.points, x);
        short::put_bits(&mut self.points, y);
        self.at = to;
    }

    /// Adds a letter and points.
    fn put(&mut self, letter: char, points: &[Point]) {
        self.letters.push(letter);
        for point in points {
            self.point(*point);
        }
    }

    fn segment(&mut self, segment: Segment) {
        match segment {
            Segment::MoveTo(at) => self.put('M', &[at]),
            Segment::LineTo(at) => self.put('L', &[at]),
            Segment::CurveTo(first, second, at) => self.put('C', &[first, second, at]),
            Segment::Close => self.put('Z', &[]),
        }
    }
}

/// Writes an outline as two strings.
pub fn put(alloc: Global, sheet: &mut Sheet, outline: &Outline) {
    let mut pen = Pen {
        at: Point::ORIGIN,
        letters: Text::new(alloc),
        points: Text::new(alloc),
    };
    for segment in &outline.segments {
        pen.segment(*segment);
    }
    sheet.put(&pen.letters);
    sheet.put(&pen.points);
}

/// Adds the corners of bounds, if there are any.
fn put_corners(text: &mut Text, bounds: Option<Bounds>) {
    let Some(Bounds { low, high }) = bounds else {
        return;
    };
    for bits in [low.x, low.y, high.x, high.y] {
        short::put_bits(text, i64::from(bits));
    }
}

/// Writes the bounds of all points and of the curves as one string.
pub fn put_bounds(alloc: Global, sheet: &mut Sheet, outline: &Outline) {
    let mut text = Text::new(alloc);
    put_corners(&mut text, outline.bounds());
    put_corners(&mut text, outline.tight_bounds());
    sheet.put(&text);
}
