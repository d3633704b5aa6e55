//! A small font drawn at locations on its axis.
use crate::checks::{holds, holds_at};
use crate::small::TABLE;
use postscript_cff2::Font;
use postscript_drawing::Error;
use postscript_outline::{Point, Segment};
use postscript_variable_font::{Place, draw_glyph};

/// A point in whole units.
fn point(x: i16, y: i16) -> Point {
    Point {
        x: i32::from(x) * 65536,
        y: i32::from(y) * 65536,
    }
}

/// The second glyph is 100 10 -20 1 blend 50 rmoveto, with regions that rise from 0 to 1 and from 0 to -1. Then 10 20
/// rlineto and -30 hlineto follow. It takes 11 bytes, and 3 and 2 of its subroutines, and the blend has four operands
/// on the stack: 20 in all.
#[test]
fn a_glyph_at_places(rt: HostRuntime) {
    let font = Font::read(TABLE).expect(&rt, "the font");
    let rows: [(i16, [i16; 3]); 4] = [
        (0, [100, 110, 80]),
        (8192, [105, 115, 85]),
        (16384, [110, 120, 90]),
        (-4096, [95, 105, 75]),
    ];
    for (i, (coordinate, [a, b, c])) in rows.iter().enumerate() {
        let at = [*coordinate];
        let place = Place::of(rt.alloc(), font.store.as_ref(), &at).expect(&rt, "a place");
        let mut segments: Vec<Segment> = Vec::new(rt.alloc());
        let mut limit = 1000;
        let drawn = draw_glyph(rt.alloc(), &font, 1, &place, &mut limit, &mut segments);
        holds_at(&rt, drawn.is_ok(), "drawn", i);
        let wanted = [
            Segment::MoveTo(point(*a, 50)),
            Segment::LineTo(point(*b, 70)),
            Segment::LineTo(point(*c, 70)),
            Segment::Close,
        ];
        holds_at(&rt, segments.as_slice() == wanted.as_slice(), "segments", i);
        holds_at(&rt, limit == 980, "what is left", i);
    }
}

/// A limit that is too short, and a glyph that does not exist.
#[test]
fn glyphs_that_are_not_drawn(rt: HostRuntime) {
    let font = Font::read(TABLE).expect(&rt, "the font");
    let place = Place::of(rt.alloc(), font.store.as_ref(), &[0]).expect(&rt, "a place");
    let mut segments: Vec<Segment> = Vec::new(rt.alloc());
    let mut short = 20;
    let found = draw_glyph(rt.alloc(), &font, 1, &place, &mut short, &mut segments);
    holds(&rt, matches!(found, Err(Error::TooLong)), "too long");
    let mut limit = 1000;
    let found = draw_glyph(rt.alloc(), &font, 2, &place, &mut limit, &mut segments);
    let is_so = matches!(found, Err(Error::NoSuchGlyph(2)));
    holds(&rt, is_so, "no third glyph");
}
