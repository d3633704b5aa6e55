//! Whether `GPOS` tables kern in each language, by hand from the specification.
use crate::writing::table;
use postscript_kern::{Error, each_language_kerns};

/// A table, and whether it kerns in each language. All numbers are of two bytes.
struct Row {
    what: &'static str,
    gpos: &'static [u16],
    kerns: bool,
}

const ROWS: &[Row] = &[
    Row {
        what: "latn with default and TRK, both with kern",
        gpos: &[
            1, 0, 10, 46, 0, 1, 0x6c61, 0x746e, 8, 10, 1, 0x5452, 0x4b20, 18, 0, 65535, 1, 0, 0,
            65535, 2, 1, 0, 2, 0x6b65, 0x726e, 0, 0x6d61, 0x726b, 0,
        ],
        kerns: true,
    },
    Row {
        what: "TRK with mark only",
        gpos: &[
            1, 0, 10, 46, 0, 1, 0x6c61, 0x746e, 8, 10, 1, 0x5452, 0x4b20, 18, 0, 65535, 1, 0, 0,
            65535, 2, 1, 1, 2, 0x6b65, 0x726e, 0, 0x6d61, 0x726b, 0,
        ],
        kerns: false,
    },
    Row {
        what: "default with mark, and with kern as its required feature",
        gpos: &[
            1, 0, 10, 30, 0, 1, 0x6c61, 0x746e, 8, 4, 0, 0, 0, 1, 1, 2, 0x6b65, 0x726e, 0, 0x6d61,
            0x726b, 0,
        ],
        kerns: false,
    },
    Row {
        what: "TRK with kern, and no default",
        gpos: &[
            1, 0, 10, 36, 0, 1, 0x6c61, 0x746e, 8, 0, 1, 0x5452, 0x4b20, 10, 0, 65535, 1, 0, 1,
            0x6b65, 0x726e, 0,
        ],
        kerns: false,
    },
    Row {
        what: "DFLT and grek over one script table",
        gpos: &[
            1, 0, 10, 36, 0, 2, 0x4446, 0x4c54, 14, 0x6772, 0x656b, 14, 4, 0, 0, 65535, 1, 0, 1,
            0x6b65, 0x726e, 0,
        ],
        kerns: true,
    },
    Row {
        what: "dflt with kern, and grek with no features",
        gpos: &[
            1, 0, 10, 46, 0, 2, 0x6466, 0x6c74, 14, 0x6772, 0x656b, 26, 4, 0, 0, 65535, 1, 0, 4, 0,
            0, 65535, 0, 1, 0x6b65, 0x726e, 0,
        ],
        kerns: false,
    },
    Row {
        what: "dflt with the second of two features",
        gpos: &[
            1, 0, 10, 30, 0, 1, 0x6466, 0x6c74, 8, 4, 0, 0, 65535, 1, 1, 2, 0x6d61, 0x726b, 0,
            0x6b65, 0x726e, 0,
        ],
        kerns: true,
    },
    Row {
        what: "a feature past the end of the feature list",
        gpos: &[
            1, 0, 10, 30, 0, 1, 0x6466, 0x6c74, 8, 4, 0, 0, 65535, 1, 1, 1, 0x6d61, 0x726b, 0,
            0x6b65, 0x726e, 0,
        ],
        kerns: false,
    },
    Row {
        what: "grek with kern, and no script for others",
        gpos: &[
            1, 0, 10, 30, 0, 1, 0x6772, 0x656b, 8, 4, 0, 0, 65535, 1, 0, 1, 0x6b65, 0x726e, 0,
        ],
        kerns: false,
    },
    Row {
        what: "no scripts",
        gpos: &[1, 0, 10, 12, 0, 0, 1, 0x6b65, 0x726e, 0],
        kerns: false,
    },
    Row {
        what: "no bytes",
        gpos: &[],
        kerns: false,
    },
];

#[test]
fn languages(rt: HostRuntime) {
    for row in ROWS {
        let gpos = table(rt.alloc(), row.gpos, &[]).expect(&rt, "memory");
        let mut limit = 100;
        let kerns = each_language_kerns(&gpos, &mut limit).expect(&rt, row.what);
        assert_eq!(rt; kerns, row.kerns, "{}", row.what);
    }
}

/// The first table costs two units for its script, two for its language systems, and three for their feature indices.
#[test]
fn limits(rt: HostRuntime) {
    let gpos = table(rt.alloc(), ROWS[0].gpos, &[]).expect(&rt, "memory");
    let mut limit = 7;
    let kerns = each_language_kerns(&gpos, &mut limit);
    assert!(rt; kerns == Ok(true) && limit == 0);
    let mut limit = 6;
    let kerns = each_language_kerns(&gpos, &mut limit);
    assert!(rt; kerns == Err(Error::TooLong) && limit == 0);
}
