//! Layout tables with only some of their features, computed by hand from the specification.
use crate::writing::table;
use postscript_layout_write::{Error, with_features};

/// A table, and the table with only the features whose tags are given. All numbers are of two bytes.
struct Row {
    what: &'static str,
    tags: &'static [u32],
    old: &'static [u16],
    new: &'static [u16],
}

const ROWS: &[Row] = &[
    Row {
        what: "latn with default and TRK, kern, liga, smcp and ss01 with a name: liga and ss01",
        tags: &[0x6c696761, 0x73733031],
        old: &[
            1, 0, 10, 44, 100, 1, 0x6c61, 0x746e, 8, 10, 1, 0x5452, 0x4b20, 20, 0, 2, 2, 1, 0, 0,
            3, 0, 4, 0x6b65, 0x726e, 26, 0x6c69, 0x6761, 32, 0x736d, 0x6370, 40, 0x7373, 0x3031,
            44, 0, 1, 1, 0, 2, 0, 1, 0, 0, 6, 1, 0, 0, 257, 0, 0,
        ],
        new: &[
            1, 0, 10, 42, 74, 1, 0x6c61, 0x746e, 8, 10, 1, 0x5452, 0x4b20, 18, 0, 65535, 1, 0, 0,
            1, 0, 2, 0x6c69, 0x6761, 14, 0x7373, 0x3031, 22, 0, 2, 0, 1, 6, 1, 0, 0, 257, 0,
        ],
    },
    Row {
        what: "the same without features",
        tags: &[],
        old: &[
            1, 0, 10, 44, 100, 1, 0x6c61, 0x746e, 8, 10, 1, 0x5452, 0x4b20, 20, 0, 2, 2, 1, 0, 0,
            3, 0, 4, 0x6b65, 0x726e, 26, 0x6c69, 0x6761, 32, 0x736d, 0x6370, 40, 0x7373, 0x3031,
            44, 0, 1, 1, 0, 2, 0, 1, 0, 0, 6, 1, 0, 0, 257, 0, 0,
        ],
        new: &[
            1, 0, 10, 34, 36, 1, 0x6c61, 0x746e, 8, 10, 1, 0x5452, 0x4b20, 10, 0, 65535, 0, 0, 0,
        ],
    },
    Row {
        what: "DFLT without default, with ROM and TRK in one table, latn, and parameters of size and cv01",
        tags: &[0x63763031, 0x73697a65, 0x74657374],
        old: &[
            1, 0, 10, 64, 144, 2, 0x4446, 0x4c54, 14, 0x6c61, 0x746e, 44, 0, 2, 0x524f, 0x4d20, 16,
            0x5452, 0x4b20, 16, 7, 9, 4, 3, 0, 4, 1, 4, 0, 0, 3, 0, 4, 0x7369, 0x7a65, 26, 0x6376,
            0x3031, 40, 0x7465, 0x7374, 68, 0x7373, 0x3032, 74, 4, 0, 100, 0, 0, 0, 0, 8, 2, 5, 0,
            0, 256, 257, 258, 1, 259, 2, 0, 0xc500, 0x01c5, 4, 1, 2, 0, 1, 3, 1, 4, 2, 0, 0,
        ],
        new: &[
            1, 0, 10, 60, 128, 2, 0x4446, 0x4c54, 14, 0x6c61, 0x746e, 40, 0, 2, 0x524f, 0x4d20, 16,
            0x5452, 0x4b20, 16, 0, 65535, 2, 0, 1, 4, 0, 0, 65535, 0, 3, 0x7369, 0x7a65, 20,
            0x6376, 0x3031, 34, 0x7465, 0x7374, 62, 4, 0, 100, 0, 0, 0, 0, 8, 2, 5, 0, 0, 256, 257,
            258, 1, 259, 2, 0, 0xc500, 0x01c5, 0, 1, 2, 1, 4, 2, 0, 0,
        ],
    },
    Row {
        what: "two features kern with equal tables, which become one",
        tags: &[0x6b65726e],
        old: &[
            1, 0, 10, 12, 38, 0, 2, 0x6b65, 0x726e, 14, 0x6b65, 0x726e, 20, 0, 1, 0, 0, 1, 0, 0,
        ],
        new: &[
            1, 0, 10, 12, 32, 0, 2, 0x6b65, 0x726e, 14, 0x6b65, 0x726e, 14, 0, 1, 0, 0,
        ],
    },
    Row {
        what: "lists after the lookup list, and parameters past the end",
        tags: &[0x73733031],
        old: &[1, 0, 10, 14, 12, 0, 0, 1, 0x7373, 0x3031, 8, 4, 0],
        new: &[
            1, 0, 10, 12, 28, 0, 1, 0x7373, 0x3031, 8, 4, 0, 0, 0, 0, 1, 0x7373, 0x3031, 8, 4, 0,
        ],
    },
    Row {
        what: "no bytes",
        tags: &[0x6c696761],
        old: &[],
        new: &[1, 0, 10, 12, 14, 0, 0],
    },
];

#[test]
fn with_only(rt: HostRuntime) {
    for row in ROWS {
        let old = table(rt.alloc(), row.old, &[]).expect(&rt, "memory");
        let new = table(rt.alloc(), row.new, &[]).expect(&rt, "memory");
        let mut limit = 1000;
        let written = with_features(rt.alloc(), &old, row.tags, &mut limit).expect(&rt, row.what);
        assert_eq!(rt; written.as_slice(), new.as_slice(), "{}", row.what);
    }
}

/// A list of 65,535 scripts is too large, and four features cost more than 6 with two tags.
#[test]
fn refused(rt: HostRuntime) {
    let many = table(rt.alloc(), &[1, 0, 10, 0, 0, 65535], &[]).expect(&rt, "memory");
    let mut limit = 1000;
    let large = with_features(rt.alloc(), &many, &[], &mut limit);
    assert!(rt; large == Err(Error::TooLarge));
    let old = table(rt.alloc(), ROWS[0].old, &[]).expect(&rt, "memory");
    let mut limit = 6;
    let long = with_features(rt.alloc(), &old, ROWS[0].tags, &mut limit);
    assert!(rt; long == Err(Error::TooLong) && limit == 0);
}
