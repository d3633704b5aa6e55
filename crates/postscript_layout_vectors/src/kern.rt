//! The pairs of `kern` tables under new glyph numbers, computed by hand from the specification.
use crate::writing::table;
use postscript_kern::{Error, kept_kerning};
use std::alloc::{AllocError, Global};

/// The kept glyphs: their new numbers are 0 to 3.
const KEPT: &[u16] = &[0, 3, 5, 9];

/// A table, and the table of the kept glyphs. All numbers are of two bytes.
struct Row {
    what: &'static str,
    old: &'static [u16],
    new: &'static [u16],
}

const ROWS: &[Row] = &[
    Row {
        what: "pairs 3 5, 3 7, 5 9 and 9 3: glyph 7 is not kept",
        old: &[
            0, 1, 0, 38, 1, 4, 24, 2, 0, 3, 5, 65516, 3, 7, 10, 5, 9, 30, 9, 3, 5,
        ],
        new: &[0, 1, 0, 32, 1, 3, 12, 1, 6, 1, 2, 65516, 2, 3, 30, 3, 1, 5],
    },
    Row {
        what: "pairs that are not in order, and one twice",
        old: &[0, 1, 0, 32, 1, 3, 12, 1, 6, 9, 3, 5, 3, 5, 7, 9, 3, 6],
        new: &[0, 1, 0, 26, 1, 2, 12, 1, 0, 1, 2, 7, 3, 1, 5],
    },
    Row {
        what: "a subtable of format 2 between two of format 0, the second with another coverage, and one without kept pairs",
        old: &[
            0, 4, 0, 20, 1, 1, 6, 0, 0, 3, 3, 1, 0, 10, 513, 0, 0, 0, 20, 1, 1, 6, 0, 0, 3, 4, 1,
            0, 20, 9, 1, 6, 0, 0, 5, 5, 2,
        ],
        new: &[
            0, 2, 0, 20, 1, 1, 6, 0, 0, 1, 1, 1, 0, 20, 9, 1, 6, 0, 0, 2, 2, 2,
        ],
    },
    Row {
        what: "pairs past the length of the subtable",
        old: &[0, 1, 0, 14, 1, 2, 12, 1, 0, 3, 5, 1, 5, 3, 2],
        new: &[0, 1, 0, 26, 1, 2, 12, 1, 0, 1, 2, 1, 2, 1, 2],
    },
    Row {
        what: "a truncated pair",
        old: &[0, 1, 0, 26, 1, 2, 12, 1, 0, 3, 5, 1, 5, 3],
        new: &[0, 1, 0, 20, 1, 1, 6, 0, 0, 1, 2, 1],
    },
    Row {
        what: "no kept pair",
        old: &[0, 1, 0, 20, 1, 1, 6, 0, 0, 3, 4, 1],
        new: &[],
    },
    Row {
        what: "version 1",
        old: &[1, 0, 0, 1, 0, 20, 1, 1, 6, 0, 0, 3, 5, 1],
        new: &[],
    },
    Row {
        what: "a truncated header",
        old: &[0, 1, 0, 20, 1, 1, 6, 0],
        new: &[],
    },
    Row {
        what: "no bytes",
        old: &[],
        new: &[],
    },
];

#[test]
fn kept(rt: HostRuntime) {
    for row in ROWS {
        let old = table(rt.alloc(), row.old, &[]).expect(&rt, "memory");
        let new = table(rt.alloc(), row.new, &[]).expect(&rt, "memory");
        let mut limit = 1000;
        match kept_kerning(rt.alloc(), &old, KEPT, &mut limit).expect(&rt, row.what) {
            Some(written) => assert_eq!(rt; written.as_slice(), new.as_slice(), "{}", row.what),
            None => assert!(rt; row.new.is_empty(), "{}", row.what),
        }
    }
}

/// Returns a table of one subtable with the first pairs of 105 glyphs, and these glyphs.
fn many(alloc: Global, count: u16) -> Result<(Vec<u8>, Vec<u16>), AllocError> {
    let mut pairs = Vec::new(alloc);
    let mut glyphs = Vec::new(alloc);
    for left in 0..105 {
        glyphs.push(left)?;
        for right in 0..105 {
            if left * 105 + right < count {
                pairs.extend_from_slice(&[left, right, 1])?;
            }
        }
    }
    let bytes = table(alloc, &[0, 1, 0, 14, 1, count, 0, 0, 0], &pairs)?;
    Ok((bytes, glyphs))
}

/// A subtable has at most 10,920 pairs.
#[test]
fn large(rt: HostRuntime) {
    let (most, glyphs) = many(rt.alloc(), 10920).expect(&rt, "memory");
    let mut limit = 20000;
    let written = kept_kerning(rt.alloc(), &most, &glyphs, &mut limit).expect(&rt, "10,920 pairs");
    let new = written.expect(&rt, "pairs");
    assert!(rt; new.len() == 65538 && limit == 20000 - 10921);
    let head = [0, 0, 255, 254, 0, 1, 42, 168, 192, 0, 0, 13, 63, 240];
    assert_eq!(rt; &new[4..18], head.as_slice());
    let (more, glyphs) = many(rt.alloc(), 10921).expect(&rt, "memory");
    let refused = kept_kerning(rt.alloc(), &more, &glyphs, &mut 20000);
    assert!(rt; refused == Err(Error::TooLarge));
}

/// Two subtables and a pair cost three units. Subtables that overlap use up the limit.
#[test]
fn long(rt: HostRuntime) {
    let two = table(
        rt.alloc(),
        &[0, 2, 0, 20, 1, 1, 6, 0, 0, 3, 3, 1, 0, 6, 513],
        &[],
    );
    let bytes = two.expect(&rt, "memory");
    let mut limit = 3;
    let written = kept_kerning(rt.alloc(), &bytes, KEPT, &mut limit);
    assert!(rt; written.is_ok() && limit == 0);
    let mut limit = 2;
    let refused = kept_kerning(rt.alloc(), &bytes, KEPT, &mut limit);
    assert!(rt; refused == Err(Error::TooLong) && limit == 0);
    let overlapping = table(
        rt.alloc(),
        &[0, 65535, 0, 0, 1, 65535, 0, 0, 0, 3, 5, 1],
        &[],
    );
    let bytes = overlapping.expect(&rt, "memory");
    let mut limit = 100;
    let refused = kept_kerning(rt.alloc(), &bytes, KEPT, &mut limit);
    assert!(rt; refused == Err(Error::TooLong) && limit == 0);
}
