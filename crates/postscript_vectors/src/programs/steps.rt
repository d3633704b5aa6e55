//! Rows of programs that are run step by step.

/// A code and its local subroutines in hex, and the result of each step, with the width after it, if there is one.
#[rattlefmt::skip]
pub(super) const STEPS: &[(&str, &str, &[&str])] = &[
    ("", "", &["end", "end", "end"]),
    ("8c160e", "", &["HMoveTo 1", "end"]),
    ("0e8c16", "", &["end", "end", "end"]),
    // The width comes with its operation.
    ("8e8c8d150e", "", &["RMoveTo 1 2, width 3", "end, width 3", "end, width 3"]),
    ("908b8c8d8e0e", "", &["end, width 5", "end, width 5"]),
    ("8e0e0b", "", &["end, width 3", "end, width 3"]),
    ("8c8d8e8f909192939495961f", "", &["HVCurveTo 3 4 5 6 7 8 9 10 11, width 2", "end, width 2"]),
    ("8e8c8d13808c16", "", &["HintMask, width 3", "HMoveTo 1, width 3", "end, width 3"]),
    // Each operation once, with only its own operands.
    ("8c8d158e8c8d15", "", &["RMoveTo 1 2", "RMoveTo 1 2", "end"]),
    ("8c068d07", "", &["HLineTo 1", "VLineTo 2", "end"]),
    ("8c8d0113ff0e", "", &["HStem 1 2", "HintMask", "end"]),
    ("200a8d160e", "8c160b", &["HMoveTo 1", "HMoveTo 2", "end"]),
    // A fault is reported once.
    ("8c168b0c0c", "", &["HMoveTo 1", "fault 17", "fault 30", "fault 30"]),
    ("200a", "200a", &["fault 25", "fault 30", "fault 30"]),
    ("8e8c8d13", "", &["fault 1", "fault 30", "fault 30"]),
    ("8e8c8d150b", "", &["RMoveTo 1 2, width 3", "fault 23, width 3", "fault 30, width 3"]),
];
