//! Vertical metrics and vertical origins under new glyph numbers, as the specification defines them.
use crate::writing::table;
use postscript_vertical::{Error, kept_metrics, kept_origins};

/// The numbers of a `vhea` table before the number of metrics. All numbers are of two bytes.
const HEADER: &[u16] = &[
    1, 4096, 500, 65036, 0, 1000, 10, 65526, 980, 0, 1, 0, 0, 0, 0, 0, 0,
];

/// The tables of a font, and the `vmtx` table of some glyphs.
struct Row {
    what: &'static str,
    metrics: u16,
    old: &'static [u16],
    origins: &'static [u16],
    new: &'static [u16],
}

const ROWS: &[Row] = &[
    Row {
        what: "glyphs with advances of their own",
        metrics: 3,
        old: &[1000, 10, 900, 65526, 800, 30],
        origins: &[0, 2, 1],
        new: &[1000, 10, 800, 30, 900, 65526],
    },
    Row {
        what: "glyphs that have the last advance",
        metrics: 2,
        old: &[1000, 10, 900, 20, 30, 40, 50],
        origins: &[0, 4, 2, 1, 4],
        new: &[1000, 10, 900, 50, 900, 30, 900, 20, 900, 50],
    },
    Row {
        what: "a bearing past the end of the table",
        metrics: 1,
        old: &[1000, 10, 20],
        origins: &[2, 1, 65535],
        new: &[1000, 0, 1000, 20, 1000, 0],
    },
    Row {
        what: "no glyphs",
        metrics: 1,
        old: &[1000, 10],
        origins: &[],
        new: &[],
    },
];

#[test]
fn metrics(rt: HostRuntime) {
    for row in ROWS {
        let header = table(rt.alloc(), HEADER, &[row.metrics, 7]).expect(&rt, "memory");
        let old = table(rt.alloc(), row.old, &[]).expect(&rt, "memory");
        let count = row.origins.len() as u16;
        let new_header = table(rt.alloc(), HEADER, &[count, 7]).expect(&rt, "memory");
        let new = table(rt.alloc(), row.new, &[]).expect(&rt, "memory");
        let made = kept_metrics(rt.alloc(), &header, &old, row.origins).expect(&rt, row.what);
        assert_eq!(rt; made.0.as_slice(), new_header.as_slice(), "{}", row.what);
        assert_eq!(rt; made.1.as_slice(), new.as_slice(), "{}", row.what);
    }
}

/// Half a bearing at the end of a table is as no bearing.
#[test]
fn half_a_bearing(rt: HostRuntime) {
    let header = table(rt.alloc(), HEADER, &[1]).expect(&rt, "memory");
    let old = table(rt.alloc(), &[1000, 10, 20, 30], &[]).expect(&rt, "memory");
    assert!(rt; old.len() == 8);
    let made = kept_metrics(rt.alloc(), &header, &old[..7], &[1, 2]).expect(&rt, "metrics");
    let new = table(rt.alloc(), &[1000, 20, 1000, 0], &[]).expect(&rt, "memory");
    assert_eq!(rt; made.1.as_slice(), new.as_slice());
}

#[test]
fn refused_headers(rt: HostRuntime) {
    let header = table(rt.alloc(), HEADER, &[2]).expect(&rt, "memory");
    assert!(rt; header.len() == 36);
    let truncated = kept_metrics(rt.alloc(), &header[0..35], &[], &[0]);
    assert!(rt; truncated == Err(Error::TruncatedHeader));
    let none = table(rt.alloc(), HEADER, &[0]).expect(&rt, "memory");
    let empty = kept_metrics(rt.alloc(), &none, &[], &[0]);
    assert!(rt; empty == Err(Error::NoMetrics));
}

#[test]
fn refused_metrics(rt: HostRuntime) {
    let header = table(rt.alloc(), HEADER, &[2]).expect(&rt, "memory");
    let old = table(rt.alloc(), &[1000, 10, 900, 20], &[]).expect(&rt, "memory");
    assert!(rt; kept_metrics(rt.alloc(), &header, &old, &[0]).is_ok());
    assert!(rt; old.len() == 8);
    let short = kept_metrics(rt.alloc(), &header, &old[..7], &[0]);
    assert!(rt; short == Err(Error::TruncatedMetrics));
}

/// There may be 65,535 glyphs, but not 65,536.
#[test]
fn many(rt: HostRuntime) {
    let header = table(rt.alloc(), HEADER, &[1]).expect(&rt, "memory");
    let old = table(rt.alloc(), &[1000, 10], &[]).expect(&rt, "memory");
    let vorg = table(rt.alloc(), &[1, 0, 880, 1, 0, 900], &[]).expect(&rt, "memory");
    let mut glyphs = vec![in rt.alloc(); 0u16; 65535].expect(&rt, "memory");
    let made = kept_metrics(rt.alloc(), &header, &old, &glyphs).expect(&rt, "metrics");
    assert!(rt; made.1.len() == 262140);
    assert!(rt; made.0.len() == 36);
    assert_eq!(rt; &made.0[34..36], [255u8, 255].as_slice());
    let records = kept_origins(rt.alloc(), &vorg, &glyphs).expect(&rt, "records");
    assert!(rt; records.len() == 262148);
    assert_eq!(rt; &records[6..8], [255u8, 255].as_slice());
    glyphs.push(0).expect(&rt, "memory");
    assert!(rt; kept_metrics(rt.alloc(), &header, &old, &glyphs) == Err(Error::TooManyGlyphs));
    assert!(rt; kept_origins(rt.alloc(), &vorg, &glyphs) == Err(Error::TooManyGlyphs));
}

/// A `VORG` table, and that of some glyphs.
struct OriginsRow {
    what: &'static str,
    old: &'static [u16],
    origins: &'static [u16],
    new: &'static [u16],
}

const ORIGINS: &[OriginsRow] = &[
    OriginsRow {
        what: "records of kept glyphs and of another one",
        old: &[1, 0, 880, 3, 3, 900, 5, 700, 7, 65000],
        origins: &[0, 3, 6, 7],
        new: &[1, 0, 880, 2, 1, 900, 3, 65000],
    },
    OriginsRow {
        what: "no record of a kept glyph",
        old: &[1, 0, 65416, 2, 2, 900, 4, 800],
        origins: &[0, 3, 5],
        new: &[1, 0, 65416, 0],
    },
    OriginsRow {
        what: "a record with the default coordinate",
        old: &[1, 0, 880, 1, 0, 880],
        origins: &[0],
        new: &[1, 0, 880, 1, 0, 880],
    },
    OriginsRow {
        what: "glyphs in another order, and one twice",
        old: &[1, 0, 880, 2, 3, 900, 7, 800],
        origins: &[7, 3, 7],
        new: &[1, 0, 880, 3, 0, 800, 1, 900, 2, 800],
    },
    OriginsRow {
        what: "version 1.1, and bytes after the records",
        old: &[1, 1, 880, 1, 3, 900, 4, 800],
        origins: &[3, 4],
        new: &[1, 0, 880, 1, 0, 900],
    },
    OriginsRow {
        what: "five records",
        old: &[1, 0, 0, 5, 1, 11, 2, 12, 4, 14, 8, 18, 65535, 19],
        origins: &[1, 2, 3, 4, 8, 65535],
        new: &[1, 0, 0, 5, 0, 11, 1, 12, 3, 14, 4, 18, 5, 19],
    },
    OriginsRow {
        what: "no records",
        old: &[1, 0, 880, 0],
        origins: &[0, 1],
        new: &[1, 0, 880, 0],
    },
];

#[test]
fn origins(rt: HostRuntime) {
    for row in ORIGINS {
        let old = table(rt.alloc(), row.old, &[]).expect(&rt, "memory");
        let new = table(rt.alloc(), row.new, &[]).expect(&rt, "memory");
        let made = kept_origins(rt.alloc(), &old, row.origins).expect(&rt, row.what);
        assert_eq!(rt; made.as_slice(), new.as_slice(), "{}", row.what);
    }
}

#[test]
fn refused_origins(rt: HostRuntime) {
    let rows: &[(&[u16], Error)] = &[
        (&[1, 0, 880], Error::TruncatedOrigins),
        (&[1, 0, 880, 2, 3, 900, 7], Error::TruncatedOrigins),
        (&[2, 0, 880, 0], Error::UnknownVersion),
        (&[0, 1, 880, 0], Error::UnknownVersion),
        (&[1, 0, 880, 2, 7, 900, 3, 800], Error::NotAscending),
        (&[1, 0, 880, 2, 3, 900, 3, 800], Error::NotAscending),
    ];
    for (old, fault) in rows {
        let bytes = table(rt.alloc(), old, &[]).expect(&rt, "memory");
        assert!(rt; kept_origins(rt.alloc(), &bytes, &[3]) == Err(*fault));
    }
}
