//! `seac` glyphs: a font whose glyphs name others by their codes in the standard encoding.
use crate::checks::{bytes_of, holds, holds_at, is_text, put_shown};
use postscript::type2::{Operand, Program};
use postscript_drawing::{Error, LIMIT, draw_glyph, outline_of};
use postscript_outline::Segment;
use postscript_view::FontView;
use std::alloc::Global;
use std::process::Abort;

/// A font of thirteen glyphs: `.notdef`, `A`, `acute`, and from `C` on the glyphs of the rows.
const FONT: &str = "01000401 000101010250 000101010e 1c002a0f1c0043118b1c00b112 0000 \
    0001010108 c2a963ccf7560e 00 0022 007d 0024 0025 0026 0027 0028 0029 002a 002b 002c 002d \
    000d01 01020a161c2a303640484a4e535e 0e 959f15ef06bd070e 928c8d158e8f90919293080e a963ccf7560e \
    949016939305f75cf7c0ccf7560e 8b8bcef7560e 8b8bcdf7560e 8b8bff00418000f7560e 1c7fff8bccf7560e \
    201d 8c8d8e0e 8b8bcccd0e 90169393058c8d8e8f0c0e";

/// The glyphs: the path data and the width, or the error. Paths are as fontTools 4.38 draws them, if it draws the
/// glyph. The errors, the width of three operands and the last row follow the rules.
const ROWS: [&str; 13] = [
    "",
    "M10 20L110 20L110 70Z",
    "M1 2C4 6 9 12 16 20Z width 7",
    // The base, and then the accent, 30 to the right and 40 down.
    "M10 20L110 20L110 70ZM31 -38C34 -34 39 -28 46 -20Z",
    // Its own width and contour.
    "M5 0L13 8ZM10 20L110 20L110 70ZM201 302C204 306 209 312 216 320Z width 9",
    // The base is a `seac` glyph itself.
    "the glyph for code 67 is itself a seac glyph",
    // No glyph is called `B`.
    "no glyph has the name of code 66 in the standard encoding",
    // 65.5 is no code.
    "the base and the accent of a seac glyph are not character codes",
    // The accent is moved out of the range.
    "found an overflow",
    // The operands are in a subroutine, with a width beneath them.
    "M10 20L110 20L110 70ZM31 -38C34 -34 39 -28 46 -20Z width 55",
    // Three operands name nothing, and the one on top is the width.
    " width 3",
    // The accent is missing.
    "no glyph has the name of code 66 in the standard encoding",
    // No `endchar` ends it: `neg` has its byte at the end.
    "M5 0L13 8Z",
];

/// Describes a glyph.
fn describe_glyph<R: Abort>(rt: &R, alloc: Global, font: &FontView<'_>, glyph: usize) -> String {
    let mut text = String::new(alloc);
    let mut limit = LIMIT;
    match outline_of(alloc, font, glyph, &mut limit) {
        Ok(outline) => {
            put_shown(rt, &mut text, "", &outline);
            if let Some(width) = outline.width_difference {
                put_shown(rt, &mut text, " width ", &width);
            }
        }
        Err(e) => put_shown(rt, &mut text, "", &e),
    }
    text
}

#[test]
fn accented_glyphs(rt: HostRuntime) {
    let alloc = rt.alloc();
    let bytes = bytes_of(&rt, alloc, FONT);
    let font = FontView::read(alloc, bytes.as_slice()).expect(&rt, "a font");
    for (glyph, wanted) in ROWS.iter().enumerate() {
        let text = describe_glyph(&rt, alloc, &font, glyph);
        is_text(&rt, text.as_str(), wanted, "a glyph");
    }
    let text = describe_glyph(&rt, alloc, &font, 13);
    is_text(&rt, text.as_str(), "there is no glyph 13", "a glyph");
}

#[test]
fn an_accented_glyph_is_given_to_a_sink(rt: HostRuntime) {
    let alloc = rt.alloc();
    let bytes = bytes_of(&rt, alloc, FONT);
    let font = FontView::read(alloc, bytes.as_slice()).expect(&rt, "a font");
    let mut segments: Vec<Segment> = Vec::new(alloc);
    let mut limit = LIMIT;
    let width = draw_glyph(alloc, &font, 3, &mut limit, &mut segments).expect(&rt, "a glyph");
    let mut text = String::new(alloc);
    for segment in &segments {
        put_shown(&rt, &mut text, "", segment);
    }
    is_text(&rt, text.as_str(), ROWS[3], "the segments");
    is_text(
        &rt,
        if width.is_none() { "" } else { "a width" },
        "",
        "the width",
    );
}

/// Describes the `seac` glyph drawn within a limit: the path data, whether it was stopped, and the rest of the limit.
fn describe_within<R: Abort>(
    rt: &R,
    alloc: Global,
    font: &FontView<'_>,
    limit: u64,
) -> (String, bool, u64) {
    let mut left = limit;
    let mut segments: Vec<Segment> = Vec::new(alloc);
    let drawn = draw_glyph(alloc, font, 3, &mut left, &mut segments);
    let mut text = String::new(alloc);
    for segment in &segments {
        put_shown(rt, &mut text, "", segment);
    }
    (text, matches!(&drawn, Err(Error::TooLong)), left)
}

/// The glyph's code has 7 bytes, its base's 9 and its accent's 11, with an `endchar` each: 27 in all.
#[test]
fn an_accented_glyph_within_a_limit(rt: HostRuntime) {
    let alloc = rt.alloc();
    let bytes = bytes_of(&rt, alloc, FONT);
    let font = FontView::read(alloc, bytes.as_slice()).expect(&rt, "a font");
    for limit in 1..40 {
        let (text, is_stopped, left) = describe_within(&rt, alloc, &font, limit);
        if is_stopped {
            holds(&rt, left == 0, "nothing is left");
            holds(&rt, limit < 27, "a low limit");
        } else {
            is_text(&rt, text.as_str(), ROWS[3], "the segments");
            holds(&rt, limit > 16, "a high limit");
        }
    }
}

/// Codes, and the number of operands of their `endchar`: four, or none if there are three, the code is used up, or it
/// fails.
const ENDS: [(&str, usize); 5] = [
    ("a963ccf7560e", 4),
    ("90169393058b8bccf7560e", 4),
    ("8c8d8e0e", 0),
    ("8c8d8e8f", 0),
    ("8c8d8e8f00", 0),
];

/// The program at its end, or at its error.
fn at_end<'l>(alloc: Global, code: &'l [u8]) -> Program<'l> {
    let mut program = Program::new(alloc, code, &[], &[]);
    for _ in 0..code.len() {
        match program.step() {
            Ok(Some(_)) => {}
            Ok(None) | Err(_) => break,
        }
    }
    program
}

#[test]
fn operands_at_the_end(rt: HostRuntime) {
    let alloc = rt.alloc();
    for (i, (code, count)) in ENDS.iter().enumerate() {
        let bytes = bytes_of(&rt, alloc, code);
        let before = Program::new(alloc, bytes.as_slice(), &[], &[]);
        holds_at(&rt, before.operands_at_end().is_empty(), "before", i);
        let program = at_end(alloc, bytes.as_slice());
        holds_at(&rt, program.operands_at_end().len() == *count, "the end", i);
    }
    // a width lies beneath the four
    let bytes = bytes_of(&rt, alloc, "c2a963ccf7560e");
    let program = at_end(alloc, bytes.as_slice());
    let wanted = [30, -40, 65, 194];
    let operands = program.operands_at_end();
    let same = operands
        .iter()
        .map(|operand| operand.to_int())
        .eq(wanted.iter().map(|n| Some(*n)));
    holds(&rt, same, "the operands");
    holds(
        &rt,
        program.width() == Some(Operand::from_int(55)),
        "the width",
    );
}
