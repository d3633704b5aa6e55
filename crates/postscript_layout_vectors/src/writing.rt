//! Layout tables that are written for a subset, computed by hand from the specification. All numbers are of two bytes.
ghost use Rattle.std.specs.Prelude.{◌^◌, ◌<◌};

use postscript_layout_write::{
    Error, closure_with_called, flagged_left_out, flagged_positions, flagged_positions_left_out,
    flagged_substitutions, glyph_classes, glyph_definitions, kerning, left_out, positions,
    positions_left_out, substitutions,
};
use std::alloc::{AllocError, Global};
use std::process::Abort;

/// The lookup list of a table, and the lookup list of the new table for the glyphs 1, 5 and 6.
struct Row {
    what: &'static str,
    old: &'static [u16],
    new: &'static [u16],
}

/// The header, and a script list and a feature list without entries. The lookup list follows.
const HEAD: &[u16] = &[1, 0, 10, 12, 14, 0, 0];

const ROWS: &[Row] = &[
    Row {
        what: "format 1: 1 5 by -50, 1 6 by 20, 2 5 by -30",
        old: &[
            1, 4, 2, 0, 1, 8, 1, 14, 4, 0, 2, 22, 32, 1, 2, 1, 2, 2, 5, 65486, 6, 20, 1, 5, 65506,
        ],
        new: &[
            1, 4, 2, 0, 1, 8, 1, 12, 4, 0, 1, 18, 1, 1, 0, 2, 1, 65486, 2, 20,
        ],
    },
    Row {
        what: "format 2: 1 with class 0 by 7, with class 1, which is 5, by -9",
        old: &[
            1, 4, 2, 8, 1, 8, 2, 20, 4, 0, 26, 30, 1, 2, 7, 65527, 1, 1, 1, 2, 0, 1, 5, 1, 1,
        ],
        new: &[
            1, 4, 2, 8, 1, 8, 1, 12, 4, 0, 1, 18, 1, 1, 0, 3, 0, 7, 1, 65527, 2, 7,
        ],
    },
    Row {
        what: "classes first: 1 6 by 0, and not by 33 of the second subtable",
        old: &[
            1, 4, 2, 0, 2, 10, 48, 2, 20, 4, 0, 26, 30, 1, 2, 0, 65527, 1, 1, 1, 2, 0, 1, 5, 1, 1,
            1, 12, 4, 0, 1, 18, 1, 1, 1, 1, 6, 33,
        ],
        new: &[1, 4, 2, 0, 1, 8, 1, 12, 4, 0, 1, 18, 1, 1, 0, 1, 1, 65527],
    },
    Row {
        what: "a list first: 1 6 by 33, and 1 5 by -9 of the second subtable",
        old: &[
            1, 4, 2, 0, 2, 10, 34, 1, 12, 4, 0, 1, 18, 1, 1, 1, 1, 6, 33, 2, 20, 4, 0, 26, 30, 1,
            2, 0, 65527, 1, 1, 1, 2, 0, 1, 5, 1, 1,
        ],
        new: &[
            1, 4, 2, 0, 1, 8, 1, 12, 4, 0, 1, 18, 1, 1, 0, 2, 1, 65527, 2, 33,
        ],
    },
    Row {
        what: "an extension, with a coverage table of ranges: 5 1 by 3",
        old: &[
            1, 4, 9, 0, 1, 8, 1, 2, 0, 8, 1, 12, 4, 0, 1, 22, 2, 1, 5, 6, 0, 1, 1, 3,
        ],
        new: &[1, 4, 2, 0, 1, 8, 1, 12, 4, 0, 1, 18, 1, 1, 1, 1, 0, 3],
    },
    Row {
        what: "a placement: 1 5 by 2 to the right",
        old: &[1, 4, 2, 0, 1, 8, 1, 12, 5, 0, 1, 18, 1, 1, 1, 1, 5, 2, 9],
        new: &[
            1, 4, 2, 0, 1, 8, 1, 12, 15, 0, 1, 18, 1, 1, 0, 1, 1, 2, 0, 9, 0,
        ],
    },
    Row {
        what: "a second glyph: 1 5 by 9, and 5 by 2 to the right",
        old: &[1, 4, 2, 0, 1, 8, 1, 12, 4, 1, 1, 18, 1, 1, 1, 1, 5, 9, 2],
        new: &[
            1, 4, 2, 0, 1, 8, 1, 12, 15, 15, 1, 18, 1, 1, 0, 1, 1, 0, 0, 9, 0, 2, 0, 0, 0,
        ],
    },
    Row {
        what: "a set of marks: no pairs",
        old: &[1, 4, 2, 17, 1, 10, 0, 1, 12, 4, 0, 1, 18, 1, 1, 1, 1, 5, 9],
        new: &[1, 4, 2, 1, 0],
    },
    Row {
        what: "another type: no pairs",
        old: &[1, 4, 4, 8, 1, 8, 1, 12, 4, 0, 1, 18, 1, 1, 1, 1, 5, 9],
        new: &[1, 4, 2, 8, 0],
    },
    Row {
        what: "no lookups",
        old: &[0],
        new: &[0],
    },
];

const RULES: &[Row] = &[
    Row {
        what: "in reverse: 1 to 6 after 6 and before 5 or 6, and not 2 to 5 or 5 to 7",
        old: &[
            1, 4, 8, 0, 1, 8, 1, 20, 1, 30, 1, 38, 3, 6, 5, 7, 1, 3, 1, 2, 5, 1, 2, 2, 6, 2, 1, 4,
            6, 0,
        ],
        new: &[
            1, 4, 8, 0, 1, 8, 1, 16, 1, 22, 1, 28, 1, 2, 1, 1, 0, 1, 1, 2, 1, 2, 1, 2,
        ],
    },
    Row {
        what: "in reverse, in extensions: 6 to 5, and not 1 to 6 after 2",
        old: &[
            1, 4, 7, 0, 2, 10, 18, 1, 8, 0, 16, 1, 8, 0, 34, 1, 14, 1, 20, 0, 1, 6, 1, 1, 1, 1, 1,
            2, 1, 12, 0, 0, 1, 5, 1, 1, 6,
        ],
        new: &[1, 4, 8, 0, 1, 8, 1, 12, 0, 0, 1, 1, 1, 1, 2],
    },
    Row {
        what: "in reverse: not 1 to 7",
        old: &[1, 4, 8, 0, 1, 8, 1, 12, 0, 0, 1, 7, 1, 1, 1],
        new: &[1, 4, 8, 0, 0],
    },
    Row {
        what: "a delta: 1 to 5, and not 2 to 6",
        old: &[1, 4, 1, 0, 1, 8, 1, 6, 4, 1, 2, 1, 2],
        new: &[1, 4, 1, 0, 1, 8, 2, 8, 1, 1, 1, 1, 0],
    },
    Row {
        what: "a list: 1 to 6, and not 5 to 2",
        old: &[1, 4, 1, 8, 1, 8, 2, 10, 2, 6, 2, 1, 2, 1, 5],
        new: &[1, 4, 1, 8, 1, 8, 2, 8, 1, 2, 1, 1, 0],
    },
    Row {
        what: "sequences: 1 to 5 6, 5 to nothing, and not 6 to 2",
        old: &[
            1, 4, 2, 0, 1, 8, 1, 12, 3, 22, 28, 30, 1, 3, 1, 5, 6, 2, 5, 6, 0, 1, 2,
        ],
        new: &[1, 4, 2, 0, 1, 8, 1, 10, 2, 18, 24, 1, 2, 0, 1, 2, 1, 2, 0],
    },
    Row {
        what: "alternates: 5 to 1 or 6",
        old: &[1, 4, 3, 0, 1, 8, 1, 8, 1, 14, 1, 1, 5, 2, 1, 6],
        new: &[1, 4, 3, 0, 1, 8, 1, 8, 1, 14, 1, 1, 1, 2, 0, 2],
    },
    Row {
        what: "ligatures: 1 5 to 6, 1 6 6 to 1, and not 1 2 to 5",
        old: &[
            1, 4, 4, 0, 1, 8, 1, 8, 1, 14, 1, 1, 1, 3, 8, 14, 20, 6, 2, 5, 5, 2, 2, 1, 3, 6, 6,
        ],
        new: &[
            1, 4, 4, 0, 1, 8, 1, 8, 1, 14, 1, 1, 0, 2, 6, 12, 2, 2, 1, 0, 3, 2, 2,
        ],
    },
    Row {
        what: "an extension, with a coverage table of ranges: 5 6 to 1",
        old: &[
            1, 4, 7, 0, 1, 8, 1, 4, 0, 8, 1, 8, 1, 18, 2, 1, 5, 5, 0, 1, 4, 1, 2, 6,
        ],
        new: &[1, 4, 4, 0, 1, 8, 1, 8, 1, 14, 1, 1, 1, 1, 4, 0, 2, 2],
    },
    Row {
        what: "the first subtable counts: 1 to 2, which is not kept, and not to 5",
        old: &[
            1, 4, 1, 0, 2, 10, 24, 2, 8, 1, 2, 1, 1, 1, 2, 8, 1, 5, 1, 1, 1,
        ],
        new: &[1, 4, 1, 0, 0],
    },
    Row {
        what: "ligatures of both subtables: 1 5 to 6, then 1 6 to 5",
        old: &[
            1, 4, 4, 0, 2, 10, 34, 1, 8, 1, 14, 1, 1, 1, 1, 4, 6, 2, 5, 1, 8, 1, 14, 1, 1, 1, 1, 4,
            5, 2, 6,
        ],
        new: &[
            1, 4, 4, 0, 1, 8, 1, 8, 1, 14, 1, 1, 0, 2, 6, 12, 2, 2, 1, 1, 2, 2,
        ],
    },
    Row {
        what: "a set of marks: no rules",
        old: &[1, 4, 1, 16, 1, 8, 2, 8, 1, 5, 1, 1, 1],
        new: &[1, 4, 1, 0, 0],
    },
    Row {
        what: "a context by glyphs: 1, where lookup 0 is applied",
        old: &[1, 4, 5, 8, 1, 8, 1, 8, 1, 14, 1, 1, 1, 1, 4, 1, 1, 0, 0],
        new: &[1, 4, 6, 8, 1, 8, 3, 0, 1, 16, 0, 1, 0, 0, 1, 1, 0],
    },
    Row {
        what: "contexts by glyphs: 1 5, then 1 6 6, where lookup 2 is applied to the second; not 1 2, and not 2 5",
        old: &[
            1, 4, 5, 0, 1, 8, 1, 10, 2, 18, 50, 1, 2, 1, 2, 3, 8, 14, 20, 2, 0, 5, 2, 0, 2, 3, 1,
            6, 6, 1, 2, 1, 4, 2, 0, 5,
        ],
        new: &[
            1, 4, 6, 0, 2, 10, 36, 3, 0, 2, 14, 20, 0, 0, 1, 1, 0, 1, 1, 1, 3, 0, 3, 20, 26, 26, 0,
            1, 1, 2, 1, 1, 0, 1, 1, 2,
        ],
    },
    Row {
        what: "a chained context by glyphs: 5 after 1 and before 6, where lookup 0 is applied",
        old: &[
            1, 4, 6, 0, 1, 8, 1, 8, 1, 14, 1, 1, 5, 1, 4, 1, 1, 1, 1, 6, 1, 0, 0,
        ],
        new: &[
            1, 4, 6, 0, 1, 8, 3, 1, 20, 1, 26, 1, 32, 1, 0, 0, 1, 1, 0, 1, 1, 1, 1, 1, 2,
        ],
    },
    Row {
        what: "a context by classes: 5, which is class 1, and a glyph of class 0, where lookup 3 is applied to 5",
        old: &[
            1, 4, 5, 0, 1, 8, 2, 12, 20, 2, 0, 30, 1, 2, 1, 5, 2, 1, 5, 5, 1, 1, 4, 2, 1, 0, 0, 3,
        ],
        new: &[
            1, 4, 6, 0, 1, 8, 3, 0, 2, 18, 24, 0, 1, 0, 3, 1, 1, 1, 1, 2, 0, 2,
        ],
    },
    Row {
        what: "a chained context by classes, without classes before: 5 of class 1, which has 6 too, before 6",
        old: &[
            1, 4, 6, 0, 1, 8, 2, 16, 0, 22, 32, 2, 0, 42, 1, 1, 5, 1, 5, 2, 1, 1, 2, 1, 6, 6, 2, 1,
            4, 1, 0, 1, 1, 2, 0,
        ],
        new: &[
            1, 4, 6, 0, 1, 8, 3, 1, 16, 1, 26, 1, 32, 0, 1, 3, 0, 1, 2, 1, 1, 1, 1, 1, 2,
        ],
    },
    Row {
        what: "a context by classes: 5, and a glyph of class 2, which has none: no rules",
        old: &[
            1, 4, 5, 0, 1, 8, 2, 12, 20, 2, 0, 30, 1, 2, 1, 5, 2, 1, 5, 5, 1, 1, 4, 2, 1, 2, 0, 3,
        ],
        new: &[1, 4, 6, 0, 0],
    },
    Row {
        what: "a context of an unknown format: no rules",
        old: &[1, 4, 5, 8, 1, 8, 4, 8, 1, 14, 1, 1, 1, 1, 4, 1, 1, 0, 0],
        new: &[1, 4, 1, 8, 0],
    },
    Row {
        what: "a context: 1 or 2, then 5, where lookup 3 is applied to the second",
        old: &[1, 4, 5, 8, 1, 8, 3, 2, 1, 14, 22, 1, 3, 1, 2, 1, 2, 1, 1, 5],
        new: &[
            1, 4, 6, 8, 1, 8, 3, 0, 2, 18, 24, 0, 1, 1, 3, 1, 1, 0, 1, 1, 1,
        ],
    },
    Row {
        what: "a chained context: 5 after 1 and before 2 to 6, where lookup 0 is applied",
        old: &[
            1, 4, 6, 0, 1, 8, 3, 1, 20, 1, 26, 1, 32, 1, 0, 0, 1, 1, 1, 1, 1, 5, 2, 1, 2, 6, 0,
        ],
        new: &[
            1, 4, 6, 0, 1, 8, 3, 1, 20, 1, 26, 1, 32, 1, 0, 0, 1, 1, 0, 1, 1, 1, 1, 2, 1, 2,
        ],
    },
    Row {
        what: "a chained context of 5 after 2, which is not kept: no rules",
        old: &[
            1, 4, 6, 0, 1, 8, 3, 1, 18, 1, 24, 0, 1, 0, 0, 1, 1, 2, 1, 1, 5,
        ],
        new: &[1, 4, 6, 0, 0],
    },
];

/// Lookups with flags above 15, as they are with whole flags.
const WHOLE: &[Row] = &[
    Row {
        what: "set 3 of marks, in reverse: 1 to 5",
        old: &[1, 4, 8, 24, 1, 10, 3, 1, 12, 0, 0, 1, 5, 1, 1, 1],
        new: &[1, 4, 8, 24, 1, 10, 3, 1, 12, 0, 0, 1, 1, 1, 1, 0],
    },
    Row {
        what: "set 3 of marks: 1 to 5",
        old: &[1, 4, 1, 16, 1, 10, 3, 2, 8, 1, 5, 1, 1, 1],
        new: &[1, 4, 1, 16, 1, 10, 3, 2, 8, 1, 1, 1, 1, 0],
    },
    Row {
        what: "set 3 of marks, and a glyph that is not kept: no rules",
        old: &[1, 4, 1, 24, 1, 10, 3, 2, 8, 1, 5, 1, 1, 2],
        new: &[1, 4, 1, 24, 0, 3],
    },
    Row {
        what: "class 2 of marks: 1 to 5",
        old: &[1, 4, 1, 512, 1, 8, 2, 8, 1, 5, 1, 1, 1],
        new: &[1, 4, 1, 512, 1, 8, 2, 8, 1, 1, 1, 1, 0],
    },
    Row {
        what: "set 2 of marks, in a context: 1 or 2, then 5",
        old: &[
            1, 4, 5, 24, 1, 10, 2, 3, 2, 1, 14, 22, 1, 3, 1, 2, 1, 2, 1, 1, 5,
        ],
        new: &[
            1, 4, 6, 24, 1, 10, 2, 3, 0, 2, 18, 24, 0, 1, 1, 3, 1, 1, 0, 1, 1, 1,
        ],
    },
];

/// Marks, single adjustments, cursive attachment, and contexts.
const POSITIONS: &[Row] = &[
    Row {
        what: "an anchor that is NULL, and one of an unknown format: at the origin",
        old: &[
            1, 4, 4, 0, 1, 8, 1, 12, 20, 1, 26, 42, 1, 2, 5, 6, 1, 1, 1, 2, 0, 0, 0, 10, 4, 7, 8,
            1, 4, 1, 30, 40,
        ],
        new: &[
            1, 4, 4, 0, 1, 8, 1, 12, 20, 1, 26, 42, 1, 2, 1, 2, 1, 1, 0, 2, 0, 10, 0, 10, 1, 0, 0,
            1, 4, 1, 30, 40,
        ],
    },
    Row {
        what: "two subtables: no anchor in the first one, so that the second one counts; formats 2 and 3",
        old: &[
            1, 4, 6, 8, 2, 10, 60, 1, 12, 18, 1, 26, 38, 1, 1, 5, 1, 2, 1, 2, 1, 0, 6, 1, 1, 2, 2,
            0, 6, 1, 9, 9, 1, 12, 18, 1, 24, 38, 1, 1, 5, 1, 1, 1, 1, 0, 6, 2, 3, 4, 0, 1, 4, 3, 5,
            6, 0, 0,
        ],
        new: &[
            1, 4, 6, 8, 2, 10, 50, 1, 12, 18, 1, 24, 36, 1, 1, 1, 1, 1, 0, 1, 0, 6, 1, 1, 2, 1, 0,
            1, 12, 18, 1, 24, 36, 1, 1, 1, 1, 1, 0, 1, 0, 6, 1, 3, 4, 1, 4, 1, 5, 6,
        ],
    },
    Row {
        what: "a class that the subtable does not have, and a base past the end of the array",
        old: &[
            1, 4, 4, 0, 1, 8, 1, 12, 20, 1, 28, 44, 1, 2, 5, 6, 1, 2, 1, 5, 2, 1, 10, 0, 10, 1, 1,
            2, 1, 4, 1, 7, 8,
        ],
        new: &[
            1, 4, 4, 0, 1, 8, 1, 12, 20, 1, 26, 42, 1, 2, 1, 2, 1, 1, 0, 2, 1, 10, 0, 10, 1, 1, 2,
            1, 4, 1, 7, 8,
        ],
    },
    Row {
        what: "an extension",
        old: &[
            1, 4, 9, 0, 1, 8, 1, 4, 0, 8, 1, 12, 20, 1, 28, 44, 1, 2, 5, 6, 1, 2, 1, 5, 2, 1, 10,
            0, 10, 1, 1, 2, 1, 4, 1, 7, 8,
        ],
        new: &[
            1, 4, 4, 0, 1, 8, 1, 12, 20, 1, 26, 42, 1, 2, 1, 2, 1, 1, 0, 2, 1, 10, 0, 10, 1, 1, 2,
            1, 4, 1, 7, 8,
        ],
    },
    Row {
        what: "an extension with marks and pairs: only the pairs",
        old: &[
            1, 4, 9, 0, 2, 10, 18, 1, 4, 0, 16, 1, 2, 0, 62, 1, 12, 20, 1, 28, 44, 1, 2, 5, 6, 1,
            2, 1, 5, 2, 1, 10, 0, 10, 1, 1, 2, 1, 4, 1, 7, 8, 1, 12, 4, 0, 1, 18, 1, 1, 1, 1, 6,
            33,
        ],
        new: &[1, 4, 2, 0, 1, 8, 1, 12, 4, 0, 1, 18, 1, 1, 0, 1, 2, 33],
    },
    Row {
        what: "a set of marks: no marks",
        old: &[
            1, 4, 4, 16, 1, 10, 0, 1, 12, 20, 1, 28, 44, 1, 2, 5, 6, 1, 2, 1, 5, 2, 1, 10, 0, 10,
            1, 1, 2, 1, 4, 1, 7, 8,
        ],
        new: &[1, 4, 2, 0, 0],
    },
    Row {
        what: "no kept marks: no bases",
        old: &[
            1, 4, 4, 0, 1, 8, 1, 12, 18, 1, 24, 36, 1, 1, 7, 1, 1, 1, 1, 0, 6, 1, 1, 2, 1, 4, 1, 7,
            8,
        ],
        new: &[1, 4, 4, 0, 1, 8, 1, 12, 16, 1, 20, 22, 1, 0, 1, 0, 0, 0],
    },
    Row {
        what: "an unknown format: nothing",
        old: &[
            1, 4, 4, 0, 1, 8, 2, 12, 20, 1, 28, 44, 1, 2, 5, 6, 1, 2, 1, 5, 2, 1, 10, 0, 10, 1, 1,
            2, 1, 4, 1, 7, 8,
        ],
        new: &[1, 4, 4, 0, 1, 8, 1, 12, 16, 0, 20, 22, 1, 0, 1, 0, 0, 0],
    },
    Row {
        what: "a value for all: 1 and 5 by 3 up, and not 2",
        old: &[1, 4, 1, 0, 1, 8, 1, 8, 2, 3, 1, 3, 1, 2, 5],
        new: &[
            1, 4, 1, 0, 1, 8, 2, 24, 15, 2, 0, 3, 0, 0, 0, 3, 0, 0, 1, 2, 0, 1,
        ],
    },
    Row {
        what: "a list of values with device tables: 5 by 2 to the right, with its advance by -9",
        old: &[
            1, 4, 1, 8, 1, 8, 2, 20, 69, 2, 9, 9, 0, 2, 65527, 77, 1, 2, 2, 5,
        ],
        new: &[1, 4, 1, 8, 1, 8, 2, 16, 15, 1, 2, 0, 65527, 0, 1, 1, 1],
    },
    Row {
        what: "two subtables: 1 by 7, and 1 and 6 by 9",
        old: &[
            1, 4, 1, 0, 2, 10, 24, 1, 8, 4, 7, 1, 1, 1, 1, 8, 4, 9, 1, 2, 1, 6,
        ],
        new: &[
            1, 4, 1, 0, 2, 10, 32, 2, 16, 15, 1, 0, 0, 7, 0, 1, 1, 0, 2, 24, 15, 2, 0, 0, 9, 0, 0,
            0, 9, 0, 1, 2, 0, 2,
        ],
    },
    Row {
        what: "fewer values than glyphs: only 1",
        old: &[1, 4, 1, 0, 1, 8, 2, 10, 4, 1, 7, 1, 2, 1, 5],
        new: &[1, 4, 1, 0, 1, 8, 2, 16, 15, 1, 0, 0, 7, 0, 1, 1, 0],
    },
    Row {
        what: "an extension: 5 by 7",
        old: &[1, 4, 9, 0, 1, 8, 1, 1, 0, 8, 1, 8, 4, 7, 1, 1, 5],
        new: &[1, 4, 1, 0, 1, 8, 2, 16, 15, 1, 0, 0, 7, 0, 1, 1, 1],
    },
    Row {
        what: "values of an unknown format: nothing",
        old: &[1, 4, 1, 0, 1, 8, 3, 8, 4, 7, 1, 1, 1],
        new: &[1, 4, 1, 0, 1, 8, 2, 8, 15, 0, 1, 0],
    },
    Row {
        what: "from right to left, the exit of 1 and the entry of 5, and not 2",
        old: &[
            1, 4, 3, 1, 1, 8, 1, 18, 3, 0, 28, 28, 34, 34, 0, 1, 3, 1, 2, 5, 1, 10, 20, 1, 3, 65533,
        ],
        new: &[
            1, 4, 3, 1, 1, 8, 1, 26, 2, 0, 14, 20, 0, 1, 10, 20, 1, 3, 65533, 1, 2, 0, 1,
        ],
    },
    Row {
        what: "ends of an unknown format: nothing",
        old: &[1, 4, 3, 0, 1, 8, 2, 10, 1, 0, 10, 1, 1, 1, 10, 20],
        new: &[1, 4, 3, 0, 1, 8, 1, 6, 0, 1, 0],
    },
    Row {
        what: "a chained context: 5 after 1 or 2, and before 6",
        old: &[
            1, 4, 8, 0, 1, 8, 3, 1, 20, 1, 28, 1, 34, 1, 0, 3, 1, 2, 1, 2, 1, 1, 5, 1, 1, 6,
        ],
        new: &[
            1, 4, 8, 0, 1, 8, 3, 1, 20, 1, 26, 1, 32, 1, 0, 3, 1, 1, 0, 1, 1, 1, 1, 1, 2,
        ],
    },
    Row {
        what: "a context: 1, and 5 or 6",
        old: &[1, 4, 7, 8, 1, 8, 3, 2, 1, 14, 20, 1, 7, 1, 1, 1, 1, 2, 5, 6],
        new: &[
            1, 4, 8, 8, 1, 8, 3, 0, 2, 18, 24, 0, 1, 1, 7, 1, 1, 0, 1, 2, 1, 2,
        ],
    },
    Row {
        what: "a context in an extension: 5",
        old: &[
            1, 4, 9, 0, 1, 8, 1, 8, 0, 8, 3, 0, 1, 16, 0, 1, 0, 1, 1, 1, 5,
        ],
        new: &[1, 4, 8, 0, 1, 8, 3, 0, 1, 16, 0, 1, 0, 1, 1, 1, 1],
    },
    Row {
        what: "a context of a glyph that is not kept: none",
        old: &[1, 4, 8, 0, 1, 8, 3, 0, 1, 12, 0, 0, 1, 1, 2],
        new: &[1, 4, 8, 0, 0],
    },
    Row {
        what: "a context by glyphs: 1 before 5",
        old: &[1, 4, 7, 0, 1, 8, 1, 8, 1, 14, 1, 1, 1, 1, 4, 2, 1, 5, 0, 3],
        new: &[
            1, 4, 8, 0, 1, 8, 3, 0, 2, 18, 24, 0, 1, 0, 3, 1, 1, 0, 1, 1, 1,
        ],
    },
    Row {
        what: "a chained context by classes: 5 after 1",
        old: &[
            1, 4, 8, 0, 1, 8, 2, 16, 22, 30, 0, 2, 0, 38, 1, 1, 5, 1, 1, 1, 2, 1, 5, 1, 1, 1, 4, 1,
            2, 1, 0, 1, 0, 9,
        ],
        new: &[
            1, 4, 8, 0, 1, 8, 3, 1, 18, 1, 24, 0, 1, 0, 9, 1, 1, 0, 1, 1, 1,
        ],
    },
    Row {
        what: "contexts by sets and by glyphs without rules: the first",
        old: &[
            1, 4, 8, 0, 2, 10, 28, 3, 0, 1, 12, 0, 0, 1, 1, 5, 1, 6, 0, 1, 1, 5,
        ],
        new: &[1, 4, 8, 0, 1, 8, 3, 0, 1, 12, 0, 0, 1, 1, 1],
    },
    Row {
        what: "a context of an unknown format: nothing",
        old: &[1, 4, 8, 0, 1, 8, 4],
        new: &[1, 4, 2, 0, 0],
    },
];

/// A table that fontTools made of a feature file. Marks 3, 4 and 9 are attached on top and 5 below, to the bases 1, 2 and
/// 7, and to the two components of the ligature 6; 3 and 9 have marks on top of them.
const STACKED: &[u16] = &[
    1, 0, 10, 32, 60, 1, 17478, 19540, 8, 4, 0, 0, 65535, 2, 0, 1, 2, 28001, 29291, 14, 28011,
    28011, 22, 0, 2, 0, 1, 0, 1, 2, 3, 8, 70, 164, 4, 0, 1, 8, 1, 74, 12, 2, 92, 22, 1, 3, 1, 2, 7,
    3, 26, 14, 20, 0, 26, 0, 1, 310, 0, 1, 200, 650, 1, 300, 700, 5, 0, 1, 8, 1, 12, 24, 2, 30, 54,
    1, 4, 3, 4, 5, 9, 1, 1, 6, 4, 0, 108, 0, 114, 1, 18, 0, 120, 1, 90, 65516, 1, 4, 2, 10, 16, 22,
    0, 1, 150, 720, 1, 140, 0, 1, 420, 690, 6, 0, 1, 8, 1, 12, 22, 1, 30, 62, 1, 3, 3, 4, 9, 1, 2,
    3, 9, 3, 0, 14, 0, 20, 0, 26, 1, 100, 500, 1, 110, 510, 1, 120, 490, 2, 6, 12, 1, 105, 800, 1,
    125, 760,
];

/// The same table for the glyphs 0, 5, 6, 1, 9, 7, 3 and 8. FontTools reads the same anchors of these glyphs in both
/// tables, and HarfBuzz puts their marks at the same positions.
const LEFT: &[u16] = &[
    1, 0, 10, 32, 60, 1, 17478, 19540, 8, 4, 0, 0, 65535, 2, 0, 1, 2, 28001, 29291, 14, 28011,
    28011, 22, 0, 2, 0, 1, 0, 1, 2, 3, 8, 100, 200, 4, 0, 1, 8, 1, 12, 22, 2, 30, 62, 1, 3, 1, 4,
    6, 1, 2, 3, 5, 3, 1, 14, 0, 20, 0, 26, 1, 90, 65516, 1, 120, 490, 1, 100, 500, 2, 10, 16, 10,
    0, 1, 300, 700, 1, 310, 0, 5, 0, 1, 8, 1, 12, 22, 2, 28, 60, 1, 3, 1, 4, 6, 1, 1, 2, 3, 1, 14,
    0, 20, 0, 26, 1, 90, 65516, 1, 120, 490, 1, 100, 500, 1, 4, 2, 10, 16, 22, 0, 1, 150, 720, 1,
    140, 0, 1, 420, 690, 6, 0, 1, 8, 1, 12, 20, 1, 28, 50, 1, 2, 4, 6, 1, 2, 4, 6, 2, 0, 10, 0, 16,
    1, 120, 490, 1, 100, 500, 2, 6, 12, 1, 125, 760, 1, 105, 800,
];

/// A `GDEF` and a `GPOS` table that fontTools made of a feature file. A lookup of pairs skips marks but those of class 1, 3
/// and 9. Marks 3, 4 and 9 are stacked by a lookup with a set of these, and mark 5 by one with a set of its own.
const DEFINED: &[u16] = &[
    1, 2, 14, 0, 0, 38, 54, 1, 1, 9, 1, 1, 3, 3, 3, 2, 1, 1, 3, 2, 2, 3, 3, 1, 9, 9, 1, 1, 2, 0,
    12, 0, 22, 1, 3, 3, 4, 9, 1, 1, 5,
];

const FLAGGED: &[u16] = &[
    1, 0, 10, 34, 74, 1, 17478, 19540, 8, 4, 0, 0, 65535, 3, 0, 1, 2, 3, 27493, 29294, 20, 28001,
    29291, 26, 28011, 28011, 32, 0, 1, 0, 0, 1, 1, 0, 2, 2, 3, 4, 10, 40, 114, 204, 2, 256, 1, 8,
    1, 54, 4, 0, 1, 12, 2, 2, 65496, 7, 30, 4, 0, 1, 8, 1, 12, 24, 2, 30, 48, 1, 4, 3, 4, 5, 9, 1,
    1, 1, 4, 0, 90, 0, 96, 1, 160, 0, 102, 1, 6, 12, 1, 300, 700, 1, 310, 0, 6, 16, 1, 10, 0, 1,
    12, 22, 1, 30, 62, 1, 3, 3, 4, 9, 1, 2, 3, 9, 3, 0, 14, 0, 20, 0, 26, 1, 100, 500, 1, 110, 510,
    1, 120, 490, 2, 6, 12, 1, 105, 800, 1, 125, 760, 6, 16, 1, 10, 1, 1, 12, 12, 1, 18, 30, 1, 1,
    5, 1, 0, 6, 1, 90, 65516, 1, 4, 1, 95, 65236,
];

/// The same tables for the glyphs 0, 5, 2, 1, 9, 7 and 3. FontTools reads the same classes, sets, flags and anchors in both,
/// and HarfBuzz shapes eleven texts in the same way.
const NEW_DEFINED: &[u16] = &[
    1, 2, 14, 0, 0, 34, 54, 1, 0, 7, 0, 3, 1, 1, 3, 1, 3, 1, 0, 7, 0, 0, 0, 0, 1, 0, 1, 1, 2, 0,
    12, 0, 20, 1, 2, 4, 6, 1, 1, 1,
];

const NEW_FLAGGED: &[u16] = &[
    1, 0, 10, 34, 74, 1, 17478, 19540, 8, 4, 0, 0, 65535, 3, 0, 1, 2, 3, 27493, 29294, 20, 28001,
    29291, 26, 28011, 28011, 32, 0, 1, 0, 0, 1, 1, 0, 2, 2, 3, 4, 10, 46, 132, 210, 2, 256, 1, 8,
    1, 12, 4, 0, 1, 18, 1, 1, 3, 2, 2, 65496, 5, 30, 4, 0, 1, 8, 1, 12, 22, 2, 28, 60, 1, 3, 1, 4,
    6, 1, 1, 3, 3, 1, 14, 0, 20, 0, 26, 1, 90, 65516, 1, 120, 490, 1, 100, 500, 1, 6, 12, 1, 300,
    700, 1, 310, 0, 6, 16, 1, 10, 0, 1, 12, 20, 1, 28, 50, 1, 2, 4, 6, 1, 2, 4, 6, 2, 0, 10, 0, 16,
    1, 120, 490, 1, 100, 500, 2, 6, 12, 1, 125, 760, 1, 105, 800, 6, 16, 1, 10, 1, 1, 12, 18, 1,
    24, 36, 1, 1, 1, 1, 1, 1, 1, 0, 6, 1, 90, 65516, 1, 4, 1, 95, 65236,
];

/// Appends numbers of two bytes.
fn put(bytes: &mut Vec<u8>, words: &[u16]) -> Result<(), AllocError> {
    for word in words {
        for byte in &word.to_be_bytes() {
            bytes.push(*byte)?;
        }
    }
    Ok(())
}

/// Returns a table of two lists of numbers.
pub(crate) fn table(alloc: Global, first: &[u16], second: &[u16]) -> Result<Vec<u8>, AllocError> {
    let mut bytes = Vec::new(alloc);
    put(&mut bytes, first)?;
    put(&mut bytes, second)?;
    Ok(bytes)
}

#[test]
fn pairs(rt: HostRuntime) {
    for row in ROWS {
        let old = table(rt.alloc(), HEAD, row.old).expect(&rt, "memory");
        let new = table(rt.alloc(), HEAD, row.new).expect(&rt, "memory");
        let mut limit = 1000;
        let written = kerning(rt.alloc(), &old, &[1, 5, 6], &mut limit).expect(&rt, row.what);
        assert_eq!(rt; written.as_slice(), new.as_slice(), "{}", row.what);
    }
}

/// A script table that is after the lookup list stays there, and the new lookup list follows it.
#[test]
fn lists_after_the_lookups(rt: HostRuntime) {
    let old = [1, 0, 12, 10, 20, 0, 1, 0x6c61, 0x746e, 10, 0, 0, 0];
    let new = [1, 0, 12, 10, 26, 0, 1, 0x6c61, 0x746e, 10, 0, 0, 0];
    let old = table(rt.alloc(), &old, &[]).expect(&rt, "memory");
    let new = table(rt.alloc(), &new, &[0]).expect(&rt, "memory");
    let mut limit = 1000;
    let written = kerning(rt.alloc(), &old, &[1], &mut limit).expect(&rt, "a table");
    assert_eq!(rt; written.as_slice(), new.as_slice());
}

#[test]
fn errors(rt: HostRuntime) {
    let old = table(rt.alloc(), HEAD, ROWS[0].old).expect(&rt, "memory");
    let mut limit = 5;
    let long = kerning(rt.alloc(), &old, &[1, 5, 6], &mut limit);
    assert!(rt; long == Err(Error::TooLong) && limit == 0);
    let cut = table(rt.alloc(), &[1, 0, 10, 12, 14, 1], &[]).expect(&rt, "memory");
    let mut limit = 1000;
    let cut = kerning(rt.alloc(), &cut, &[1], &mut limit);
    assert!(rt; cut == Err(Error::ListsTooLong));
}

/// The glyphs 1 to 3 are bases, 5 is a mark, and 6 has the unknown class 9.
#[test]
fn classes(rt: HostRuntime) {
    let old = [1, 0, 12, 0, 0, 0, 2, 3, 1, 3, 1, 5, 5, 3, 6, 6, 9];
    let old = table(rt.alloc(), &old, &[]).expect(&rt, "memory");
    let new = [1, 0, 12, 0, 0, 0, 1, 0, 4, 1, 0, 3, 0];
    let new = table(rt.alloc(), &new, &[]).expect(&rt, "memory");
    let mut limit = 1000;
    let written = glyph_classes(rt.alloc(), &old, &[3, 4, 5, 6], &mut limit).expect(&rt, "classes");
    assert_eq!(rt; written.as_slice(), new.as_slice());
}

#[test]
fn rules(rt: HostRuntime) {
    for row in RULES {
        let old = table(rt.alloc(), HEAD, row.old).expect(&rt, "memory");
        let new = table(rt.alloc(), HEAD, row.new).expect(&rt, "memory");
        let mut limit = 10000;
        let written = substitutions(rt.alloc(), &old, &[0], &[1, 5, 6], &mut limit).expect(
            &rt, row.what,
        );
        assert_eq!(rt; written.as_slice(), new.as_slice(), "{}", row.what);
    }
}

#[test]
fn whole_flags(rt: HostRuntime) {
    for row in WHOLE {
        let old = table(rt.alloc(), HEAD, row.old).expect(&rt, "memory");
        let new = table(rt.alloc(), HEAD, row.new).expect(&rt, "memory");
        let mut limit = 10000;
        let written = flagged_substitutions(rt.alloc(), &old, &[0], &[1, 5, 6], &mut limit).expect(
            &rt, row.what,
        );
        assert_eq!(rt; written.as_slice(), new.as_slice(), "{}", row.what);
        let left = left_out(rt.alloc(), &old, &[0]).expect(&rt, row.what);
        assert_eq!(rt; left.as_slice(), &[0][..], "{}", row.what);
        let left = flagged_left_out(rt.alloc(), &old, &[0]).expect(&rt, row.what);
        assert!(rt; left.is_empty());
    }
}

/// Of two lookups, the second one is chosen. A lookup that is not chosen keeps its type and flag.
#[test]
fn chosen(rt: HostRuntime) {
    let lookups = [
        2, 6, 34, 3, 8, 1, 8, 1, 8, 1, 14, 1, 1, 5, 2, 1, 6, 1, 0, 1, 8, 2, 8, 1, 5, 1, 1, 1,
    ];
    let left = [2, 6, 12, 3, 8, 0, 1, 0, 1, 8, 2, 8, 1, 1, 1, 1, 0];
    let old = table(rt.alloc(), HEAD, &lookups).expect(&rt, "memory");
    let new = table(rt.alloc(), HEAD, &left).expect(&rt, "memory");
    let mut limit = 1000;
    let written = substitutions(rt.alloc(), &old, &[1, 1, 9], &[1, 5, 6], &mut limit).expect(
        &rt, "a table",
    );
    assert_eq!(rt; written.as_slice(), new.as_slice());
}

/// The context of lookup 0 applies lookup 2, and that of lookup 2 applies lookup 0. Lookup 1 is not called.
#[test]
fn called(rt: HostRuntime) {
    let lookups = [
        3, 8, 34, 40, 5, 0, 1, 8, 3, 1, 1, 12, 0, 2, 1, 1, 1, 1, 0, 0, 5, 0, 1, 8, 3, 1, 1, 12, 0,
        0, 1, 1, 5,
    ];
    // The same by glyphs in lookup 0, and by classes in lookup 2.
    let rules = [
        3, 8, 42, 48, 5, 0, 1, 8, 1, 8, 1, 14, 1, 1, 1, 1, 4, 1, 1, 0, 2, 1, 0, 0, 6, 0, 1, 8, 2,
        14, 0, 0, 0, 1, 20, 1, 1, 5, 1, 4, 0, 1, 0, 1, 0, 0,
    ];
    // Chosen lookups and given glyphs, and the lookups that are reached. No lookup makes other glyphs.
    let rows = [
        (0, &[1, 5][..], &[0, 2][..]),
        (0, &[1], &[0, 2]),
        (0, &[5], &[0]),
        (1, &[1, 5], &[1]),
        (2, &[1, 5], &[2, 0]),
        (2, &[5], &[2, 0]),
        (2, &[1], &[2]),
    ];
    for lookups in [&lookups[..], &rules[..]] {
        let gsub = table(rt.alloc(), HEAD, lookups).expect(&rt, "memory");
        for (given, glyphs, all) in rows {
            let mut limit = 50_000;
            let reached = closure_with_called(
                rt.alloc(),
                &gsub,
                &[given],
                glyphs,
                &mut limit,
            ).expect(&rt, "lookups");
            assert_eq!(rt; reached.lookups.as_slice(), all);
            assert_eq!(rt; reached.glyphs.as_slice(), glyphs);
        }
    }
    let gsub = table(rt.alloc(), HEAD, &lookups).expect(&rt, "memory");
    let mut limit = 3;
    let long = closure_with_called(rt.alloc(), &gsub, &[0], &[1], &mut limit);
    assert!(rt; long.err() == Some(Error::TooLong) && limit == 0);
}

#[test]
fn reached(rt: HostRuntime) {
    // Lookup 0 calls lookup 2 for glyph 5, lookup 1 substitutes 5 for 1, and lookup 2 substitutes 7 for 5.
    let lookups = [
        3, 8, 34, 54, 5, 0, 1, 8, 3, 1, 1, 12, 0, 2, 1, 1, 5, 1, 0, 1, 8, 1, 6, 4, 1, 1, 1, 1, 0,
        1, 8, 1, 6, 2, 1, 1, 5,
    ];
    let rows = [
        (&[0, 1][..], 1, &[0, 1, 2][..], &[1, 5, 7][..]),
        (&[0], 1, &[0], &[1]),
        (&[0], 5, &[0, 2], &[5, 7]),
        (&[1], 1, &[1], &[1, 5]),
        (&[1, 0], 2, &[1, 0], &[2]),
        (&[2], 5, &[2], &[5, 7]),
    ];
    let gsub = table(rt.alloc(), HEAD, &lookups).expect(&rt, "memory");
    for (chosen, glyph, all, made) in rows {
        let mut limit = 50_000;
        let reached = closure_with_called(rt.alloc(), &gsub, chosen, &[glyph], &mut limit).expect(
            &rt, "lookups",
        );
        assert_eq!(rt; reached.lookups.as_slice(), all);
        assert_eq!(rt; reached.glyphs.as_slice(), made);
    }
}

#[test]
fn positioned(rt: HostRuntime) {
    for row in POSITIONS {
        let old = table(rt.alloc(), HEAD, row.old).expect(&rt, "memory");
        let new = table(rt.alloc(), HEAD, row.new).expect(&rt, "memory");
        let mut limit = 10_000;
        let written = positions(rt.alloc(), &old, &[1, 5, 6], &mut limit).expect(&rt, row.what);
        assert_eq!(rt; written.as_slice(), new.as_slice(), "{}", row.what);
    }
}

#[test]
fn stacked(rt: HostRuntime) {
    let old = table(rt.alloc(), STACKED, &[]).expect(&rt, "memory");
    let new = table(rt.alloc(), LEFT, &[]).expect(&rt, "memory");
    let mut limit = 1000;
    let kept = [0, 5, 6, 1, 9, 7, 3, 8];
    let written = positions(rt.alloc(), &old, &kept, &mut limit).expect(&rt, "a table");
    assert_eq!(rt; written.as_slice(), new.as_slice());
    let mut limit = 20;
    let long = positions(rt.alloc(), &old, &kept, &mut limit);
    assert!(rt; long == Err(Error::TooLong) && limit == 0);
}

/// A lookup of marks with a set, a context of an unknown format, and pairs with a set are left out. A single adjustment and pairs
/// without subtables are not.
#[test]
fn left_positions(rt: HostRuntime) {
    let lookups = [
        5, 12, 20, 28, 36, 44, 1, 0, 1, 8, 4, 16, 1, 8, 7, 0, 1, 2, 2, 17, 1, 8, 2, 0, 0,
    ];
    let gpos = table(rt.alloc(), HEAD, &lookups).expect(&rt, "memory");
    let mut limit = 100;
    let left = positions_left_out(rt.alloc(), &gpos, &mut limit).expect(&rt, "lookups");
    assert_eq!(rt; left.as_slice(), &[1, 2, 3][..]);
    let left = flagged_positions_left_out(rt.alloc(), &gpos, &mut limit).expect(&rt, "lookups");
    assert_eq!(rt; left.as_slice(), &[2][..]);
    let mut limit = 4;
    let long = positions_left_out(rt.alloc(), &gpos, &mut limit);
    assert!(rt; long == Err(Error::TooLong) && limit == 0);
}

/// Lookups of pairs are the same as by `kerning`.
#[test]
fn pairs_and_marks(rt: HostRuntime) {
    for row in ROWS {
        if row.old.len() > 2 && row.old[2] != 4 {
            let old = table(rt.alloc(), HEAD, row.old).expect(&rt, "memory");
            let new = table(rt.alloc(), HEAD, row.new).expect(&rt, "memory");
            let mut limit = 1000;
            let written = positions(rt.alloc(), &old, &[1, 5, 6], &mut limit).expect(&rt, row.what);
            assert_eq!(rt; written.as_slice(), new.as_slice(), "{}", row.what);
        }
    }
}

#[test]
fn flags(rt: HostRuntime) {
    let kept = [0, 5, 2, 1, 9, 7, 3];
    let old = table(rt.alloc(), FLAGGED, &[]).expect(&rt, "memory");
    let new = table(rt.alloc(), NEW_FLAGGED, &[]).expect(&rt, "memory");
    let mut limit = 1000;
    let written = flagged_positions(rt.alloc(), &old, &kept, &mut limit).expect(&rt, "a table");
    assert_eq!(rt; written.as_slice(), new.as_slice());
    let old = table(rt.alloc(), DEFINED, &[]).expect(&rt, "memory");
    let new = table(rt.alloc(), NEW_DEFINED, &[]).expect(&rt, "memory");
    let mut limit = 1000;
    let written = glyph_definitions(rt.alloc(), &old, &kept, &mut limit).expect(&rt, "definitions");
    assert_eq!(rt; written.as_slice(), new.as_slice());
}

/// A table of version 1.0 has no sets, also if a number is at their offset. An offset of 0 is an empty set.
#[test]
fn definitions(rt: HostRuntime) {
    let old = [1, 0, 14, 0, 0, 0, 1, 1, 5, 1, 3];
    let new = [1, 2, 14, 0, 0, 24, 34, 1, 0, 2, 3, 0, 1, 0, 2, 0, 0, 1, 0];
    let old = table(rt.alloc(), &old, &[]).expect(&rt, "memory");
    let new = table(rt.alloc(), &new, &[]).expect(&rt, "memory");
    let mut limit = 1000;
    let written = glyph_definitions(rt.alloc(), &old, &[5, 6], &mut limit).expect(&rt, "a table");
    assert_eq!(rt; written.as_slice(), new.as_slice());
    let old = [1, 2, 0, 0, 0, 0, 14, 1, 2, 0, 0, 0, 12, 1, 1, 6];
    let new = [
        1, 2, 14, 0, 0, 24, 34, 1, 0, 2, 0, 0, 1, 0, 2, 0, 0, 1, 2, 0, 12, 0, 16, 1, 0, 1, 1, 1,
    ];
    let old = table(rt.alloc(), &old, &[]).expect(&rt, "memory");
    let new = table(rt.alloc(), &new, &[]).expect(&rt, "memory");
    let mut limit = 1000;
    let written = glyph_definitions(rt.alloc(), &old, &[5, 6], &mut limit).expect(&rt, "a table");
    assert_eq!(rt; written.as_slice(), new.as_slice());
}

/// Carets of the glyphs 5, 6 and 8. Glyph 8 has a coordinate with a device table, a value of format 7, and a contour point.
/// Glyph 9 has a table without carets.
const CARETS: &[u16] = &[
    1, 2, 0, 0, 14, 0, 0, 12, 4, 24, 38, 46, 68, 1, 4, 5, 6, 8, 9, 2, 6, 10, 1, 300, 1, 65436, 1,
    4, 1, 77, 3, 8, 14, 18, 3, 500, 6, 7, 1, 2, 12, 0,
];

/// The carets of the glyphs 0, 9, 8 and 5.
const NEW_CARETS: &[u16] = &[
    1, 2, 14, 0, 46, 28, 42, 1, 0, 4, 0, 0, 0, 0, 1, 0, 4, 0, 0, 0, 0, 1, 0, 8, 2, 16, 30, 1, 2, 2,
    3, 2, 6, 10, 1, 500, 2, 12, 2, 6, 10, 1, 300, 1, 65436,
];

/// Each kept glyph has its carets. The table has no caret list if no kept glyph has carets.
#[test]
fn carets(rt: HostRuntime) {
    let old = table(rt.alloc(), CARETS, &[]).expect(&rt, "memory");
    let new = table(rt.alloc(), NEW_CARETS, &[]).expect(&rt, "memory");
    let mut limit = 1000;
    let written = glyph_definitions(rt.alloc(), &old, &[0, 9, 8, 5], &mut limit);
    assert_eq!(rt; written.expect(&rt, "a table").as_slice(), new.as_slice());
    let new = [1, 2, 14, 0, 0, 24, 34, 1, 0, 2, 0, 0, 1, 0, 2, 0, 0, 1, 0];
    let new = table(rt.alloc(), &new, &[]).expect(&rt, "memory");
    let written = glyph_definitions(rt.alloc(), &old, &[0, 9], &mut limit);
    assert_eq!(rt; written.expect(&rt, "a table").as_slice(), new.as_slice());
    let mut limit = 28;
    let long = glyph_definitions(rt.alloc(), &old, &[0, 9, 8, 5], &mut limit);
    assert!(rt; long == Err(Error::TooLong) && limit == 0);
}

/// The number of glyphs of the large lookup.
const MANY: usize = 130;

/// Appends pairs of all glyphs by classes (format 2). Each glyph has a class of its own, and each pair has another number: a
/// placement (value format 1) or an advance (4).
fn put_classes(bytes: &mut Vec<u8>, format: u16) -> Result<(), AllocError> {
    put(bytes, &[2, 33_816, format, 0, 33_826, 33_826, 130, 130])?;
    for first in 0..MANY {
        for second in 0..MANY {
            put(bytes, &[(first * MANY + second + 1) as u16])?;
        }
    }
    put(bytes, &[2, 1, 0, 129, 0, 1, 0, 130])?;
    for class in 0..MANY {
        put(bytes, &[class as u16])?;
    }
    Ok(())
}

/// Returns a table with two lookups at two offsets: pairs of all glyphs at offset 6, and the pair of 5 and 7 by 33 after it.
fn large_table(alloc: Global, first: u16, second: u16, format: u16) -> Result<Vec<u8>, AllocError> {
    let mut bytes = table(alloc, HEAD, &[2, first, second, 2, 0, 1, 8])?;
    put_classes(&mut bytes, format)?;
    put(
        &mut bytes,
        &[2, 0, 1, 8, 1, 12, 4, 0, 1, 18, 1, 1, 5, 1, 7, 33],
    )?;
    Ok(bytes)
}

/// Returns the number of two bytes at an offset, or 0 past the end.
fn word(table: &[u8], offset: usize) -> usize
    requires { offset < 2 ^ 40 }
    ensures { result < 65536 }
{
    if offset + 1 < table.len() {
        table[offset] as usize * 256 + table[offset + 1] as usize
    } else {
        0
    }
}

/// Returns the first number of a pair with a second glyph in a set of pairs, which take a number of bytes each.
fn number_of(table: &[u8], set: usize, size: usize, second: usize) -> Option<usize>
    requires set { set < 2 ^ 36 }
    requires size { size < 16 }
{
    for k in 0..word(table, set) {
        if word(table, set + 2 + k * size) == second {
            return Some(word(table, set + 4 + k * size));
        }
    }
    None
}

/// Returns the first number of a pair in a subtable of format 1 with a list of first glyphs: the advance, or the first of
/// four numbers.
fn number_in(table: &[u8], subtable: usize, first: usize, second: usize) -> Option<usize>
    requires { subtable < 2 ^ 35 }
{
    let coverage = subtable + word(table, subtable + 2);
    let size = if word(table, subtable + 4) == 4 {
        4
    } else {
        10
    };
    for i in 0..word(table, coverage + 2) {
        if word(table, coverage + 4 + i * 2) == first {
            let set = subtable + word(table, subtable + 10 + i * 2);
            return number_of(table, set, size, second);
        }
    }
    None
}

/// Returns the offset of a subtable of the lookup at an offset, or of the subtable that its extension names.
fn subtable_at(table: &[u8], at: usize, j: usize) -> usize
    requires near { at < 2 ^ 20 }
    requires few { j < 65536 }
    ensures { result < 2 ^ 35 }
{
    let part = at + word(table, at + 6 + j * 2);
    if word(table, at) == 9 {
        part + word(table, part + 4) * 65536 + word(table, part + 6)
    } else {
        part
    }
}

/// Returns the first number of a pair by the first subtable of a lookup that applies. Extensions are followed.
fn number(table: &[u8], lookup: usize, first: usize, second: usize) -> usize
    requires { lookup < 65536 }
{
    let list = word(table, 8);
    let at = list + word(table, list + 2 + lookup * 2);
    for j in 0..word(table, at + 4) {
        if let Some(found) = number_in(table, subtable_at(table, at, j), first, second) {
            return found;
        }
    }
    0
}

/// Whether two lookups have the pairs of the large lookup and the one pair.
fn has_all(table: &[u8], large: usize, small: usize) -> bool
    requires large { large < 65536 }
    requires small { small < 65536 }
{
    for first in 0..MANY {
        for second in 0..MANY {
            let one = if first == 5 && second == 7 { 33 } else { 0 };
            if number(table, large, first, second) != first * MANY + second + 1
                || number(table, small, first, second) != one
            {
                return false;
            }
        }
    }
    true
}

/// Returns the numbers of all glyphs of the large lookup.
fn all_glyphs(alloc: Global) -> Result<Vec<u16>, AllocError> {
    let mut glyphs = Vec::new(alloc);
    for glyph in 0..MANY {
        glyphs.push(glyph as u16)?;
    }
    Ok(glyphs)
}

/// Pairs that take more than 64 kB are in extensions.
#[test]
fn large(rt: HostRuntime) {
    let kept = all_glyphs(rt.alloc()).expect(&rt, "memory");
    let old = large_table(rt.alloc(), 6, 34_106, 1).expect(&rt, "memory");
    let mut limit = 100_000_000;
    let new = kerning(rt.alloc(), &old, &kept, &mut limit).expect(&rt, "a table");
    assert!(rt; new.len() > 169_000 && has_all(&new, 0, 1));
    let mut limit = 100_000_000;
    let same = positions(rt.alloc(), &old, &kept, &mut limit).expect(&rt, "a table");
    assert!(rt; same == new);
}

/// A small lookup before the large one has extensions too.
#[test]
fn large_at_last(rt: HostRuntime) {
    let kept = all_glyphs(rt.alloc()).expect(&rt, "memory");
    let old = large_table(rt.alloc(), 34_106, 6, 1).expect(&rt, "memory");
    let mut limit = 100_000_000;
    let new = kerning(rt.alloc(), &old, &kept, &mut limit).expect(&rt, "a table");
    assert!(rt; new.len() > 169_000 && has_all(&new, 1, 0));
}

/// Returns the advance of a pair in a subtable of format 2 whose lists of classes begin with glyph 0.
fn advance_by_classes(table: &[u8], subtable: usize, first: usize, second: usize) -> usize
    requires subtable { subtable < 2 ^ 35 }
    requires first { first < 65536 }
    requires second { second < 65536 }
{
    let rows = subtable + word(table, subtable + 8);
    let columns = subtable + word(table, subtable + 10);
    let row = word(table, rows + 6 + first * 2);
    let column = word(table, columns + 6 + second * 2);
    word(
        table,
        subtable + 16 + (row * word(table, subtable + 14) + column) * 2,
    )
}

/// Whether a subtable of format 2 covers all glyphs and has their pairs.
fn has_all_by_classes(table: &[u8], subtable: usize) -> bool
    requires { subtable < 2 ^ 35 }
{
    let coverage = subtable + word(table, subtable + 2);
    for first in 0..MANY {
        if word(table, coverage + 4 + first * 2) != first {
            return false;
        }
        for second in 0..MANY {
            if advance_by_classes(table, subtable, first, second) != first * MANY + second + 1 {
                return false;
            }
        }
    }
    true
}

/// Pairs whose advances take fewer bytes by classes are written so.
#[test]
fn classed(rt: HostRuntime) {
    let kept = all_glyphs(rt.alloc()).expect(&rt, "memory");
    let old = large_table(rt.alloc(), 6, 34_106, 4).expect(&rt, "memory");
    let mut limit = 100_000_000;
    let new = kerning(rt.alloc(), &old, &kept, &mut limit).expect(&rt, "a table");
    let list = word(&new, 8);
    let subtable = subtable_at(&new, list + word(&new, list + 2), 0);
    assert!(rt; new.len() < 36_000 && word(&new, subtable) == 2);
    assert!(rt; has_all_by_classes(&new, subtable));
}

/// A large lookup and a small one for few glyphs are as small as others.
#[test]
fn large_for_few(rt: HostRuntime) {
    let old = large_table(rt.alloc(), 6, 34_106, 1).expect(&rt, "memory");
    let lookups = [
        2, 6, 80, 2, 0, 1, 8, 1, 14, 15, 0, 2, 22, 44, 1, 2, 0, 1, 2, 0, 656, 0, 0, 0, 1, 658, 0,
        0, 0, 2, 0, 916, 0, 0, 0, 1, 918, 0, 0, 0, 2, 0, 1, 8, 1, 12, 4, 0, 1, 18, 1, 1, 0, 1, 1,
        33,
    ];
    let new = table(rt.alloc(), HEAD, &lookups).expect(&rt, "memory");
    let mut limit = 100_000;
    let written = kerning(rt.alloc(), &old, &[5, 7], &mut limit).expect(&rt, "a table");
    assert_eq!(rt; written.as_slice(), new.as_slice());
}
