//! Rows of calls and returns.
use super::Row;

/// Calls and returns.
#[rattlefmt::skip]
pub(super) fn calls() -> &'static [Row] {
    &[
        ("200a8d160e", "8c160b", "HMoveTo 1 | HMoveTo 2 | end"),
        // The second subroutine is called by the first, and both return.
        ("200a8e160e", "210a8d160b 8c160b", "HMoveTo 1 | HMoveTo 2 | HMoveTo 3 | end"),
        // Operands pass into a subroutine and out of it.
        ("8e8c200a150e", "8d0b", "RMoveTo 1 2 | end | width 3"),
        ("8e8c8d200a0e", "150b", "RMoveTo 1 2 | end | width 3"),
        // A subroutine without bytes left ends the run.
        ("200a", "8c0b", "end"),
        ("200a8c8d150e", "8c16", "HMoveTo 1 | end"),
        ("200a8d16", "210a8d16 8c16", "HMoveTo 1 | end"),
        // `endchar` in a subroutine may leave bytes only in the outermost code.
        ("200aff", "0e", "end"),
        ("8e200a", "0e", "end | width 3"),
        ("200aff", "0e0b", "fault 24"),
        ("8e200a", "0e0b", "fault 24"),
        ("200a0e", "210a0b 0e", "fault 24"),
        ("200a0e", "210a 0e", "end"),
        // Ten nested calls, an eleventh, and one without end.
        ("200a", "210a 220a 230a 240a 250a 260a 270a 280a 290a 8c16", "HMoveTo 1 | end"),
        ("200a", "210a 220a 230a 240a 250a 260a 270a 280a 290a 2a0a 8c16", "fault 25"),
        ("200a", "210a 220a 230a 240a 250a 260a 270a 280a 290a 2a0a", "fault 22"),
        ("200a", "200a", "fault 25"),
        // Calls that return do not count towards the depth.
        ("200a200a200a200a200a200a200a200a200a200a200a0e", "0b", "end"),
        // No subroutine, no number, and no caller.
        ("8c0a", "", "fault 22"), ("200a", "", "fault 22"),
        ("210a", "8c16", "fault 22"),
        ("fb000a", "8c16", "fault 22"),
        ("201d", "8c16", "fault 22"),
        ("0a", "8c16", "fault 18"),
        ("1d", "8c16", "fault 18"),
        ("ff000080000a", "8c16", "fault 18"),
        ("0b", "", "fault 23"),
        ("8e8c8d150b", "", "RMoveTo 1 2 | fault 23 | width 3"),
        // A phrase does not go on in another routine.
        ("200a16", "8c", "fault 1"),
        // The mask is in the subroutine.
        ("8c8d8c8d200a0e", "13800b", "HintMask | end"),
        ("8c8d200a800e", "13", "fault 1"),
        // Stems are counted over all routines.
        ("200a14ff8c160e", "8c8d170b", "VStemHM 1 2 | CntrMask | HMoveTo 1 | end"),
    ]
}

/// A code, its global subroutines, its local ones, and the answers.
#[rattlefmt::skip]
pub(super) const GLOBAL_CALLS: &[(&str, &str, &str, &str)] = &[
    ("201d0e", "8c160b", "", "HMoveTo 1 | end"),
    ("200a", "8c160b", "", "fault 22"),
    // A global subroutine calls a local one, and a local one a global one.
    ("201d8e160e", "200a8d160b", "8c160b", "HMoveTo 1 | HMoveTo 2 | HMoveTo 3 | end"),
    ("200a8e160e", "8c160b", "201d8d160b", "HMoveTo 1 | HMoveTo 2 | HMoveTo 3 | end"),
    ("200a", "200a", "201d", "fault 25"),
    // What a global subroutine stores, a local one fetches.
    ("201d200a0e", "908b0c140b", "8b0c15160b", "HMoveTo 5 | end"),
];

/// Subroutines, of which the last one moves and the others are empty.
pub(super) const LONG_LISTS: &[(&str, usize, &str)] = &[
    // The bias is 107, then 1131 from 1240 on, then 32768 from 33900 on.
    ("1c046b0a", 1239, "HMoveTo 1 | end"),
    ("f7000a", 1240, "HMoveTo 1 | end"),
    ("1c7fff0a", 33899, "HMoveTo 1 | end"),
    ("1c046b0a", 33900, "HMoveTo 1 | end"),
    // An empty subroutine ends the run.
    ("200a8c16", 1240, "end"),
    ("f7010a", 1240, "fault 22"),
];
