//! Outlines of glyphs, as path data.
use crate::checks::{bytes_of, holds, is_text};
use postscript::Result;
use postscript::type2::{Operand, Operator, Program, run};
use postscript_drawing::{Error, LIMIT, Pen, draw_program, outline_of_operations};
use postscript_outline::{Bounds, Full, Given, Outline, Point, Segment, Sink, TightBounds, give};
use std::alloc::Global;
use std::process::Abort;

/// A code in hex, with spaces, and the path that it draws: each operator that draws, with each form of its operands.
/// FontTools 4.38 draws the same paths.
const ROWS: &[(&str, &str)] = &[
    ("8c8d15 8e8f9091 05 0e", "M1 2L4 6L9 12Z"),
    (
        "8c16 8e06 8e8f06 8e8f9006 0e",
        "M1 0L4 0L7 0L7 4L10 4L10 8L15 8Z",
    ),
    (
        "8c04 8e07 8e8f07 8e8f9007 0e",
        "M0 1L0 4L0 7L4 7L4 10L8 10L8 15Z",
    ),
    (
        "8c8d15 8c8d8e8f9091929394959697 08 0e",
        "M1 2C2 4 5 8 10 14C17 22 26 32 37 44Z",
    ),
    (
        "8c8d15 8c8d8e8f1b 8c8d8e8f901b 0e",
        "M1 2C2 2 4 5 8 5C10 6 13 10 18 10Z",
    ),
    (
        "8c8d15 8c8d8e8f1a 8c8d8e8f901a 0e",
        "M1 2C1 3 3 6 3 10C4 12 7 16 7 21Z",
    ),
    (
        "8c8d15 8c8d8e8f1f 8c8d8e8f901f 8c8d8e8f909192931f 8c8d8e8f90919293941f 0e",
        "M1 2C2 2 4 5 4 9C5 9 7 12 12 16C13 16 15 19 15 23C15 28 21 35 29 35C30 35 32 38 32 42C32 47 38 54 46 63Z",
    ),
    (
        "8c8d15 8c8d8e8f1e 8c8d8e8f901e 8c8d8e8f909192931e 8c8d8e8f90919293941e 0e",
        "M1 2C1 3 3 6 7 6C7 7 9 10 13 15C13 16 15 19 19 19C24 19 30 26 30 34C30 35 32 38 36 38C41 38 47 45 56 53Z",
    ),
    ("8c8d15 8c8d8e8f9091929318 0e", "M1 2C2 4 5 8 10 14L17 22Z"),
    ("8c8d15 8c8d8e8f9091929319 0e", "M1 2L2 4C5 8 10 14 17 22Z"),
    (
        "8c8d15 8c8d8e8f9091929394959697980c23 0e",
        "M1 2C2 4 5 8 10 14C17 22 26 32 37 44Z",
    ),
    (
        "8c8d15 8c8d8e8f9091920c22 0e",
        "M1 2C2 2 4 5 8 5C13 5 19 2 26 2Z",
    ),
    (
        "8c8d15 8c8d8e8f90919293940c24 0e",
        "M1 2C2 4 5 8 10 8C16 8 23 16 32 2Z",
    ),
    (
        "8c8d15 8c8d8e8f909192939495960c25 0e",
        "M1 2C2 4 5 8 10 14C17 22 26 32 1 43Z",
    ),
    (
        "8c8d15 8d8c8f8e91909392959496 0c25 0e",
        "M1 2C3 3 7 6 13 11C21 18 31 27 42 2Z",
    ),
    ("8c8d15 8e06 8f16 9007 0e", "M1 2L4 2ZM8 2L8 7Z"),
    ("90 8c8d01 8e8f15 8e06 0e", "M3 4L6 4Z"),
    ("ff00018000 8b15 8b ff00008000 05 0e", "M1.5 0L1.5 0.5Z"),
];

/// A code and its path, as above: each operator that takes lists of operands, with one list and more of each form, and
/// with as many operands as the stack can have.
const COUNTS: &[(&str, &str)] = &[
    ("8c8d15 888f 05 0e", "M1 2L-2 6Z"),
    ("8c8d15 888f8990 05 0e", "M1 2L-2 6L-4 11Z"),
    ("8c8d15 888f89908a91 05 0e", "M1 2L-2 6L-4 11L-5 17Z"),
    (
        "8c8d15 888f89908a9194858c868d878e888f89908a9194858c868d878e888f89908a9194858c868d878e888f89908a9194858c 05 0e",
        "M1 2L-2 6L-4 11L-5 17L4 11L5 6L7 2L10 -1L14 -3L19 -4L25 5L19 6L14 8L10 11L7 15L5 20L4 26L13 20L14 15L16 11L19 8L23 6\
            L28 5L34 14L28 15Z",
    ),
    ("8c8d15 888f8990 06 0e", "M1 2L-2 2L-2 6L-4 6L-4 11Z"),
    (
        "8c8d15 888f89908a 06 0e",
        "M1 2L-2 2L-2 6L-4 6L-4 11L-5 11Z",
    ),
    (
        "8c8d15 888f89908a9194858c868d878e888f89908a9194858c868d878e888f89908a9194858c868d878e888f89908a919485 06 0e",
        "M1 2L-2 2L-2 6L-4 6L-4 11L-5 11L-5 17L4 17L4 11L5 11L5 6L7 6L7 2L10 2L10 -1L14 -1L14 -3L19 -3L19 -4L25 -4L25 5L19 5\
            L19 6L14 6L14 8L10 8L10 11L7 11L7 15L5 15L5 20L4 20L4 26L13 26L13 20L14 20L14 15L16 15L16 11L19 11L19 8L23 8L23 6\
            L28 6L28 5L34 5L34 14L28 14Z",
    ),
    (
        "8c8d15 888f89908a9194858c868d878e888f89908a9194858c868d878e888f89908a9194858c868d878e888f89908a9194858c 06 0e",
        "M1 2L-2 2L-2 6L-4 6L-4 11L-5 11L-5 17L4 17L4 11L5 11L5 6L7 6L7 2L10 2L10 -1L14 -1L14 -3L19 -3L19 -4L25 -4L25 5L19 5\
            L19 6L14 6L14 8L10 8L10 11L7 11L7 15L5 15L5 20L4 20L4 26L13 26L13 20L14 20L14 15L16 15L16 11L19 11L19 8L23 8L23 6\
            L28 6L28 5L34 5L34 14L28 14L28 15Z",
    ),
    ("8c8d15 888f8990 07 0e", "M1 2L1 -1L5 -1L5 -3L10 -3Z"),
    (
        "8c8d15 888f89908a 07 0e",
        "M1 2L1 -1L5 -1L5 -3L10 -3L10 -4Z",
    ),
    (
        "8c8d15 888f89908a9194858c868d878e888f89908a9194858c868d878e888f89908a9194858c868d878e888f89908a919485 07 0e",
        "M1 2L1 -1L5 -1L5 -3L10 -3L10 -4L16 -4L16 5L10 5L10 6L5 6L5 8L1 8L1 11L-2 11L-2 15L-4 15L-4 20L-5 20L-5 26L4 26L4 20\
            L5 20L5 15L7 15L7 11L10 11L10 8L14 8L14 6L19 6L19 5L25 5L25 14L19 14L19 15L14 15L14 17L10 17L10 20L7 20L7 24L5 24\
            L5 29L4 29L4 35L13 35L13 29Z",
    ),
    (
        "8c8d15 888f89908a9194858c868d878e888f89908a9194858c868d878e888f89908a9194858c868d878e888f89908a9194858c 07 0e",
        "M1 2L1 -1L5 -1L5 -3L10 -3L10 -4L16 -4L16 5L10 5L10 6L5 6L5 8L1 8L1 11L-2 11L-2 15L-4 15L-4 20L-5 20L-5 26L4 26L4 20\
            L5 20L5 15L7 15L7 11L10 11L10 8L14 8L14 6L19 6L19 5L25 5L25 14L19 14L19 15L14 15L14 17L10 17L10 20L7 20L7 24L5 24\
            L5 29L4 29L4 35L13 35L13 29L14 29Z",
    ),
    ("8c8d15 888f89908a91 08 0e", "M1 2C-2 6 -4 11 -5 17Z"),
    (
        "8c8d15 888f89908a9194858c868d878e888f89908a 08 0e",
        "M1 2C-2 6 -4 11 -5 17C4 11 5 6 7 2C10 -1 14 -3 19 -4Z",
    ),
    (
        "8c8d15 888f89908a9194858c868d878e888f89908a9194858c868d878e888f89908a9194858c868d878e888f89908a9194858c 08 0e",
        "M1 2C-2 6 -4 11 -5 17C4 11 5 6 7 2C10 -1 14 -3 19 -4C25 5 19 6 14 8C10 11 7 15 5 20C4 26 13 20 14 15C16 11 19 8 23 6\
            C28 5 34 14 28 15Z",
    ),
    (
        "8c8d15 888f89908a919485 1b 0e",
        "M1 2C-2 2 2 0 7 0C6 0 12 9 6 9Z",
    ),
    (
        "8c8d15 888f89908a9194858c 1b 0e",
        "M1 2C5 -1 3 4 2 4C8 4 17 -2 18 -2Z",
    ),
    (
        "8c8d15 888f89908a9194858c868d87 1b 0e",
        "M1 2C-2 2 2 0 7 0C6 0 12 9 6 9C7 9 2 11 -2 11Z",
    ),
    (
        "8c8d15 888f89908a9194858c868d878e888f89908a9194858c868d878e888f89908a9194858c868d878e888f89908a9194858c 1b 0e",
        "M1 2C-2 2 2 0 7 0C6 0 12 9 6 9C7 9 2 11 -2 11C1 11 -2 15 -4 15C1 15 0 21 9 21C3 21 4 16 6 16C2 16 5 13 9 13\
            C7 13 12 12 18 12C27 12 21 13 16 13C18 13 14 16 11 16C15 16 13 21 12 21C18 21 27 15 28 15Z",
    ),
    (
        "8c8d15 888f89908a919485 1a 0e",
        "M1 2C1 -1 5 -3 5 2C5 1 11 10 11 4Z",
    ),
    (
        "8c8d15 888f89908a9194858c 1a 0e",
        "M1 2C-2 6 -4 11 -4 10C-4 16 5 10 5 11Z",
    ),
    (
        "8c8d15 888f89908a9194858c868d87 1a 0e",
        "M1 2C1 -1 5 -3 5 2C5 1 11 10 11 4C11 5 6 7 6 3Z",
    ),
    (
        "8c8d15 888f89908a9194858c868d878e888f89908a9194858c868d878e888f89908a9194858c868d878e888f89908a9194858c 1a 0e",
        "M1 2C1 -1 5 -3 5 2C5 1 11 10 11 4C11 5 6 7 6 3C6 6 3 10 3 8C3 13 2 19 2 28C2 22 3 17 3 19C3 15 6 12 6 16\
            C6 14 11 13 11 19C11 28 5 29 5 24C5 26 1 29 1 26C1 30 -1 35 -1 34C-1 40 8 34 8 35Z",
    ),
    ("8c8d15 888f89908a 1f 0e", "M1 2C-2 2 2 0 1 5Z"),
    (
        "8c8d15 888f89908a9194858c868d87 1f 0e",
        "M1 2C-2 2 2 0 2 5C2 4 8 13 2 13C3 13 -2 15 -2 11Z",
    ),
    (
        "8c8d15 888f89908a9194858c868d878e 1f 0e",
        "M1 2C-2 2 2 0 2 5C2 4 8 13 2 13C3 13 -2 15 1 11Z",
    ),
    (
        "8c8d15 888f89908a9194858c868d878e888f89 1f 0e",
        "M1 2C-2 2 2 0 2 5C2 4 8 13 2 13C3 13 -2 15 -2 11C-2 14 -5 18 -7 18Z",
    ),
    (
        "8c8d15 888f89908a9194858c868d878e888f8990 1f 0e",
        "M1 2C-2 2 2 0 2 5C2 4 8 13 2 13C3 13 -2 15 -2 11C-2 14 -5 18 -7 23Z",
    ),
    (
        "8c8d15 888f89908a9194858c868d878e888f89908a9194858c868d878e888f89908a9194858c868d878e888f89908a91 1f 0e",
        "M1 2C-2 2 2 0 2 5C2 4 8 13 2 13C3 13 -2 15 -2 11C-2 14 -5 18 -7 18C-2 18 -3 24 -3 33C-3 27 -2 22 0 22C-4 22 -1 19 -1 23\
            C-1 21 4 20 10 20C19 20 13 21 13 16C13 18 9 21 6 21C10 21 8 26 14 25Z",
    ),
    (
        "8c8d15 888f89908a9194858c868d878e888f89908a9194858c868d878e888f89908a9194858c868d878e888f89908a9194858c 1f 0e",
        "M1 2C-2 2 2 0 2 5C2 4 8 13 2 13C3 13 -2 15 -2 11C-2 14 -5 18 -7 18C-2 18 -3 24 -3 33C-3 27 -2 22 0 22C-4 22 -1 19 -1 23\
            C-1 21 4 20 10 20C19 20 13 21 13 16C13 18 9 21 6 21C10 21 8 26 8 25C8 31 17 25 18 25Z",
    ),
    ("8c8d15 888f89908a 1e 0e", "M1 2C1 -1 5 -3 10 -4Z"),
    (
        "8c8d15 888f89908a9194858c868d87 1e 0e",
        "M1 2C1 -1 5 -3 10 -3C9 -3 15 6 15 0C15 1 10 3 6 3Z",
    ),
    (
        "8c8d15 888f89908a9194858c868d878e 1e 0e",
        "M1 2C1 -1 5 -3 10 -3C9 -3 15 6 15 0C15 1 10 3 6 6Z",
    ),
    (
        "8c8d15 888f89908a9194858c868d878e888f89 1e 0e",
        "M1 2C1 -1 5 -3 10 -3C9 -3 15 6 15 0C15 1 10 3 6 3C9 3 6 7 6 5Z",
    ),
    (
        "8c8d15 888f89908a9194858c868d878e888f8990 1e 0e",
        "M1 2C1 -1 5 -3 10 -3C9 -3 15 6 15 0C15 1 10 3 6 3C9 3 6 7 11 5Z",
    ),
    (
        "8c8d15 888f89908a9194858c868d878e888f89908a9194858c868d878e888f89908a9194858c868d878e888f89908a91 1e 0e",
        "M1 2C1 -1 5 -3 10 -3C9 -3 15 6 15 0C15 1 10 3 6 3C9 3 6 7 6 5C6 10 5 16 14 16C8 16 9 11 9 13C9 9 12 6 16 6\
            C14 6 19 5 19 11C19 20 13 21 8 21C10 21 6 24 6 21C6 25 4 30 3 36Z",
    ),
    (
        "8c8d15 888f89908a9194858c868d878e888f89908a9194858c868d878e888f89908a9194858c868d878e888f89908a9194858c 1e 0e",
        "M1 2C1 -1 5 -3 10 -3C9 -3 15 6 15 0C15 1 10 3 6 3C9 3 6 7 6 5C6 10 5 16 14 16C8 16 9 11 9 13C9 9 12 6 16 6\
            C14 6 19 5 19 11C19 20 13 21 8 21C10 21 6 24 6 21C6 25 4 30 3 30C9 30 18 24 18 25Z",
    ),
    (
        "8c8d15 888f89908a9194858c868d878e88 18 0e",
        "M1 2C-2 6 -4 11 -5 17C4 11 5 6 7 2L10 -1Z",
    ),
    (
        "8c8d15 888f89908a9194858c868d878e888f89908a9194 18 0e",
        "M1 2C-2 6 -4 11 -5 17C4 11 5 6 7 2C10 -1 14 -3 19 -4L25 5Z",
    ),
    (
        "8c8d15 888f89908a9194858c868d878e888f89908a9194858c868d878e888f89908a9194858c868d878e888f89908a 18 0e",
        "M1 2C-2 6 -4 11 -5 17C4 11 5 6 7 2C10 -1 14 -3 19 -4C25 5 19 6 14 8C10 11 7 15 5 20C4 26 13 20 14 15C16 11 19 8 23 6L28 5Z",
    ),
    (
        "8c8d15 888f89908a9194858c86 19 0e",
        "M1 2L-2 6L-4 11C-5 17 4 11 5 6Z",
    ),
    (
        "8c8d15 888f89908a9194858c868d87 19 0e",
        "M1 2L-2 6L-4 11L-5 17C4 11 5 6 7 2Z",
    ),
    (
        "8c8d15 888f89908a9194858c868d878e888f89908a9194858c868d878e888f89908a9194858c868d878e888f89908a9194858c 19 0e",
        "M1 2L-2 6L-4 11L-5 17L4 11L5 6L7 2L10 -1L14 -3L19 -4L25 5L19 6L14 8L10 11L7 15L5 20L4 26L13 20L14 15L16 11L19 8L23 6\
            C28 5 34 14 28 15Z",
    ),
];

/// Draws a code into a sink, from the origin.
fn draw_code<S: Sink>(
    alloc: Global,
    code: &[u8],
    sink: &mut S,
) -> postscript_drawing::Result<Option<Operand>> {
    let mut limit = LIMIT;
    let mut program = Program::new(alloc, code, &[], &[]);
    draw_program(&mut program, Point::ORIGIN, &mut limit, sink)
}

/// The outline of a code.
fn outline_of(alloc: Global, code: &[u8]) -> postscript_drawing::Result<Outline> {
    let mut segments = Vec::new(alloc);
    let width = draw_code(alloc, code, &mut segments)?;
    Ok(Outline {
        segments,
        width_difference: width,
    })
}

/// The code of an error of a run.
fn number_of(error: &Error) -> u8 {
    match error {
        Error::Font(cause) => cause.code(),
        _ => 0,
    }
}

/// The path of a code, or the code of its error.
fn path_of<R: Abort>(rt: &R, alloc: Global, digits: &str) -> String {
    let code = bytes_of(rt, alloc, digits);
    match outline_of(alloc, code.as_slice()) {
        Ok(outline) => outline.to_string(alloc).expect(rt, "memory"),
        Err(e) => number_of(&e).to_string(alloc).expect(rt, "memory"),
    }
}

#[test]
fn paths_of_each_operator(rt: HostRuntime) {
    let alloc = rt.alloc();
    for (digits, path) in ROWS {
        is_text(&rt, path_of(&rt, alloc, digits).as_str(), path, digits);
    }
}

#[test]
fn paths_of_each_count_of_operands(rt: HostRuntime) {
    let alloc = rt.alloc();
    for (digits, path) in COUNTS {
        is_text(&rt, path_of(&rt, alloc, digits).as_str(), path, digits);
    }
}

/// The corners of an outline's box, in units.
fn corners_of(outline: &Outline) -> Option<[i32; 4]> {
    let Bounds { low, high } = outline.bounds()?;
    Some([low.x / 65536, low.y / 65536, high.x / 65536, high.y / 65536])
}

#[test]
fn box_and_width_of_an_outline(rt: HostRuntime) {
    let alloc = rt.alloc();
    // A width of 5 is before the first stem.
    let code = bytes_of(&rt, alloc, "90 8c8d01 8e8f15 8e8f908b8d8e08 0e");
    let outline = outline_of(alloc, code.as_slice()).expect(&rt, "an outline");
    let width = outline.width_difference.and_then(|width| width.to_int());
    holds(&rt, width == Some(5), "the width");
    let corners = corners_of(&outline);
    holds(&rt, corners == Some([3, 4, 13, 11]), "the box");
}

/// A code in hex, and the left, lower, right and upper sides round its lines and curves, in 65536ths, rounded outwards.
/// They are the bounds that fontTools 4.38 gives: the extremes of curves, not their control points.
const TIGHT_ROWS: &[(&str, [i32; 4])] = &[
    // a curve up and back
    ("8b8b15 8bef ef8b 8b27 08 0e", [0, 0, 6553600, 4915200]),
    // one that leaves its ends to the left and to the right
    (
        "8b8b15 5995 f75c9f 27a9 08 0e",
        [-535294, 0, 5139063, 3932160],
    ),
    // a line, and a curve whose control points lie between its ends
    (
        "8c8d15 8e06 8c8d8e8f9091 08 0e",
        [65536, 131072, 851968, 917504],
    ),
    ("8c8d15 8e8f05 0e", [65536, 131072, 262144, 393216]),
    // coordinates with fractions
    (
        "8b8b15 ff00008000 ff00010000 ff0000c000 8b ff0000c000 fffffe8000 08 0e",
        [0, -32768, 131072, 45675],
    ),
];

/// The corners of the box round the lines and curves of a code.
fn tight_corners_of<R: Abort>(rt: &R, alloc: Global, digits: &str) -> Option<[i32; 4]> {
    let code = bytes_of(rt, alloc, digits);
    let outline = outline_of(alloc, code.as_slice()).expect(rt, "an outline");
    let Bounds { low, high } = outline.tight_bounds()?;
    Some([low.x, low.y, high.x, high.y])
}

/// The same of bounds that are given the segments.
fn tight_corners_given<R: Abort>(rt: &R, alloc: Global, digits: &str) -> Option<[i32; 4]> {
    let code = bytes_of(rt, alloc, digits);
    let outline = outline_of(alloc, code.as_slice()).expect(rt, "an outline");
    let mut tight = TightBounds::new();
    give(outline.segments.as_slice(), &mut tight).expect(rt, "bounds are never full");
    let Bounds { low, high } = tight.bounds?;
    Some([low.x, low.y, high.x, high.y])
}

#[test]
fn boxes_round_curves(rt: HostRuntime) {
    let alloc = rt.alloc();
    for (digits, corners) in TIGHT_ROWS {
        let found = tight_corners_of(&rt, alloc, digits);
        holds(&rt, found == Some(*corners), digits);
        let given = tight_corners_given(&rt, alloc, digits);
        holds(&rt, given == Some(*corners), digits);
    }
    let none = tight_corners_of(&rt, alloc, "0e");
    holds(&rt, none.is_none(), "nothing drawn");
    // The top at 12 units is at a third, which no halving meets. The box may go one 65536th further.
    let third = tight_corners_of(&rt, alloc, "8b8b15 8ba6 8b70 8b8b 08 0e");
    holds(
        &rt,
        third == Some([0, 0, 0, 786432]) || third == Some([0, 0, 0, 786433]),
        "a top at a third",
    );
}

#[test]
fn outlines_that_are_refused(rt: HostRuntime) {
    let alloc = rt.alloc();
    // A line past the greatest coordinate, and a run that fails after a line.
    let past = path_of(&rt, alloc, "1c7fff 16 1c7fff 06 0e");
    is_text(&rt, past.as_str(), "26", "a line too long");
    let fault = path_of(&rt, alloc, "8c8d15 8e06 0b");
    is_text(&rt, fault.as_str(), "23", "a return");
}

/// The path of one line after a move, drawn by a pen.
fn path_by_pen(alloc: Global) -> Result<String> {
    let mut pen = Pen::new();
    let mut segments = Vec::new(alloc);
    let one = [Operand::from_int(1), Operand::from_int(2)];
    pen.apply(Operator::RMoveTo, &one, &mut segments)?;
    pen.apply(Operator::RLineTo, &one, &mut segments)?;
    pen.close(&mut segments)?;
    let width = None;
    Ok(Outline {
        segments,
        width_difference: width,
    }
    .to_string(alloc)?)
}

#[test]
fn a_pen_of_ones_own(rt: HostRuntime) {
    let path = path_by_pen(rt.alloc()).expect(&rt, "a path");
    is_text(&rt, path.as_str(), "M1 2L2 4Z", "a pen");
}

/// The path of a code's operations, drawn all at once.
fn path_of_operations(alloc: Global, code: &[u8]) -> Result<String> {
    let answers = run(alloc, code, &[], &[])?;
    let outline = outline_of_operations(alloc, answers.operations.as_slice(), answers.width)?;
    Ok(outline.to_string(alloc)?)
}

/// The outline of one operation with one operand.
fn outline_of_one(alloc: Global, operator: Operator) -> Result<Outline> {
    let operands = vec![in alloc; Operand::from_int(1)]?;
    let operations = vec![in alloc; (operator, operands)]?;
    outline_of_operations(alloc, operations.as_slice(), None)
}

#[test]
fn outlines_of_operations(rt: HostRuntime) {
    let alloc = rt.alloc();
    let code = bytes_of(&rt, alloc, "8c8d15 8e06 8f16 9007 0e");
    let path = path_of_operations(alloc, code.as_slice()).expect(&rt, "a path");
    is_text(&rt, path.as_str(), "M1 2L4 2ZM8 2L8 7Z", "operations");
    holds(
        &rt,
        outline_of_one(alloc, Operator::HLineTo).is_ok(),
        "one operand that fits",
    );
    let misfit = outline_of_one(alloc, Operator::RLineTo);
    holds(
        &rt,
        misfit.is_err_and(|e| e.code() == 20),
        "one operand that does not fit",
    );
}

/// A sink that takes a number of segments, and then no other one.
#[derive(Drop)]
struct Few {
    left: u32,
    segments: Vec<Segment>,
}

impl Sink for Few {
    ghost use Rattle.std.specs.Prelude.{◌≡◌, ◌++◌, ◌∷◌, [], List};
    ghost use Rattle.postscript_outline.specs.declared.segment.Segment.{Segment};

    ghost State = { List Segment };

    ghost state = { λ few. few.segments.items };

    ghost after = { λ old segment new. new ≡ old ++ segment ∷ [] };

    ghost refuses = { λ _. Unit {0} };

    fn add(&mut self, segment: Segment) -> Given {
        match self.left.checked_sub(1) {
            Some(left) => {
                self.segments.push(segment)?;
                self.left = left;
                Ok(())
            }
            None => Err(Full),
        }
    }
}

#[test]
fn a_sink_of_ones_own(rt: HostRuntime) {
    let alloc = rt.alloc();
    let code = bytes_of(&rt, alloc, "90 8c8d15 8e06 8f16 9007 0e");
    let mut few = Few {
        left: 4,
        segments: Vec::new(alloc),
    };
    let refused = draw_code(alloc, code.as_slice(), &mut few);
    holds(
        &rt,
        matches!(&refused, Err(Error::Full)),
        "the sink's refusal",
    );
    let segments = few.segments;
    let told = Outline {
        segments,
        width_difference: None,
    }
    .to_string(alloc)
    .expect(&rt, "memory");
    is_text(
        &rt,
        told.as_str(),
        "M1 2L4 2ZM8 2",
        "the segments before it",
    );
}

/// The path that two programs draw into one list, and the width of the second.
fn path_of_two(
    alloc: Global,
    first: &[u8],
    second: &[u8],
) -> postscript_drawing::Result<(Vec<Segment>, Option<Operand>)> {
    let mut segments = Vec::new(alloc);
    draw_code(alloc, first, &mut segments)?;
    let width = draw_code(alloc, second, &mut segments)?;
    Ok((segments, width))
}

#[test]
fn programs_drawn_into_one_list(rt: HostRuntime) {
    let alloc = rt.alloc();
    let first = bytes_of(&rt, alloc, "8c8d15 8e06 0e");
    let second = bytes_of(&rt, alloc, "90 8f16 9007 0e");
    let both = path_of_two(alloc, first.as_slice(), second.as_slice());
    let (segments, width) = both.expect(&rt, "a path");
    let outline = Outline {
        segments,
        width_difference: width,
    };
    let path = outline.to_string(alloc).expect(&rt, "memory");
    is_text(&rt, path.as_str(), "M1 2L4 2ZM4 0L4 5Z", "both");
    let width = outline.width_difference.and_then(|width| width.to_int());
    holds(&rt, width == Some(5), "the width");
}

/// The last segment.
#[derive(Drop)]
struct Last {
    segment: Option<Segment>,
}

impl Sink for Last {
    ghost use Rattle.std.specs.Prelude.{◌≡◌, Option, Some};
    ghost use Rattle.postscript_outline.specs.declared.segment.Segment.{Segment};

    ghost State = { Option Segment };

    ghost state = { λ last. last.segment };

    ghost after = { λ _ segment new. new ≡ Some segment };

    ghost refuses = { λ _. ⊥ };

    fn add(&mut self, segment: Segment) -> Given {
        self.segment = Some(segment);
        Ok(())
    }
}

#[test]
fn a_sink_that_keeps_the_last(rt: HostRuntime) {
    let alloc = rt.alloc();
    let code = bytes_of(&rt, alloc, "90 8c8d15 8e06 8f16 9007 0e");
    let mut last = Last { segment: None };
    let width = draw_code(alloc, code.as_slice(), &mut last).expect(&rt, "a glyph");
    holds(&rt, last.segment == Some(Segment::Close), "the last one");
    let width = width.and_then(|width| width.to_int());
    holds(&rt, width == Some(5), "the width");
}

#[test]
fn a_box_with_no_list(rt: HostRuntime) {
    let alloc = rt.alloc();
    let code = bytes_of(&rt, alloc, "90 8c8d01 8e8f15 8e8f908b8d8e08 0e");
    let mut bounds: Option<Bounds> = None;
    draw_code(alloc, code.as_slice(), &mut bounds).expect(&rt, "an outline");
    let outline = outline_of(alloc, code.as_slice()).expect(&rt, "an outline");
    holds(&rt, bounds == outline.bounds(), "the box");
    let mut taken: Option<Bounds> = None;
    give(outline.segments.as_slice(), &mut taken).expect(&rt, "bounds are never full");
    holds(&rt, taken == bounds, "taken in from a list");
    let refusal = draw_code(alloc, b"\x8c\x8d\x15\x0b", &mut taken).err();
    holds(
        &rt,
        refusal.is_some_and(|e| number_of(&e) == 23),
        "a return",
    );
}

#[test]
fn a_list_and_its_box(rt: HostRuntime) {
    let alloc = rt.alloc();
    let code = bytes_of(&rt, alloc, "90 8c8d15 8e06 8f16 9007 0e");
    let list: (Vec<Segment>, Option<Bounds>) = (Vec::new(alloc), None);
    let mut all = (list, TightBounds::new());
    let width = draw_code(alloc, code.as_slice(), &mut all).expect(&rt, "a glyph");
    let ((segments, bounds), tight) = all;
    let outline = Outline {
        segments,
        width_difference: width,
    };
    let path = outline.to_string(alloc).expect(&rt, "memory");
    is_text(&rt, path.as_str(), "M1 2L4 2ZM8 2L8 7Z", "the list");
    holds(&rt, bounds == outline.bounds(), "its box");
    holds(&rt, tight.bounds == bounds, "of lines the same");
}

#[test]
fn a_path_with_no_list(rt: HostRuntime) {
    let alloc = rt.alloc();
    let first = bytes_of(&rt, alloc, "8c8d15 8e8f9091 05 0e");
    let second = bytes_of(&rt, alloc, "8c8d15 8c8d8e8f1b 8c8d8e8f901b 0e");
    let mut path = String::new(alloc);
    draw_code(alloc, first.as_slice(), &mut path).expect(&rt, "a glyph");
    draw_code(alloc, second.as_slice(), &mut path).expect(&rt, "a glyph");
    is_text(
        &rt,
        path.as_str(),
        "M1 2L4 6L9 12ZM1 2C2 2 4 5 8 5C10 6 13 10 18 10Z",
        "both paths",
    );
}

#[test]
fn a_program_that_is_stopped(rt: HostRuntime) {
    let alloc = rt.alloc();
    // A move of three bytes and a line of two. The last phrase begun may cost more than the rest of the limit.
    let code = bytes_of(&rt, alloc, "8c8d15 8e06 0e");
    let mut program = Program::new(alloc, code.as_slice(), &[], &[]);
    let mut limit = 3;
    let mut segments: Vec<Segment> = Vec::new(alloc);
    let stopped = draw_program(&mut program, Point::ORIGIN, &mut limit, &mut segments);
    holds(
        &rt,
        matches!(&stopped, Err(Error::TooLong)),
        "it is stopped",
    );
    holds(&rt, limit == 0 && segments.len() == 1, "behind the move");
}
