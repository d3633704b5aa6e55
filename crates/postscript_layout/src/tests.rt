//! Closures and lookups that are computed by hand and by the subsetter of fontTools 4.38.
use crate::{Error, all_lookups, closure, closure_over, feature_lookups};
use std::alloc::{AllocError, Global};
use std::process::Abort;

/// A lookup list, the given glyphs and their closure.
struct Row {
    what: &'static str,
    lookups: &'static [u16],
    given: &'static [u16],
    closed: &'static [u16],
}

const ROWS: &[Row] = &[
    Row {
        what: "type 1, format 1: 1 and 3 become 6 and 8",
        lookups: &[1, 4, 1, 0, 1, 8, 1, 6, 5, 1, 2, 1, 3],
        given: &[1, 2],
        closed: &[1, 2, 6],
    },
    Row {
        what: "type 1, format 1: the delta 65534 is -2",
        lookups: &[1, 4, 1, 0, 1, 8, 1, 6, 65534, 1, 1, 7],
        given: &[7],
        closed: &[5, 7],
    },
    Row {
        what: "type 1, format 2, ranges 4-5 and 8: they become 10, 11, 12",
        lookups: &[
            1, 4, 1, 0, 1, 8, 2, 12, 3, 10, 11, 12, 2, 2, 4, 5, 0, 8, 8, 2,
        ],
        given: &[5, 8],
        closed: &[5, 8, 11, 12],
    },
    Row {
        what: "type 2: 1 becomes 2, 3, 2",
        lookups: &[1, 4, 2, 0, 1, 8, 1, 8, 1, 14, 1, 1, 1, 3, 2, 3, 2],
        given: &[1],
        closed: &[1, 2, 3],
    },
    Row {
        what: "type 3: 1 becomes 5 or 6, and 2 becomes 7",
        lookups: &[
            1, 4, 3, 0, 1, 8, 1, 10, 2, 18, 24, 1, 2, 1, 2, 2, 5, 6, 1, 7,
        ],
        given: &[2],
        closed: &[2, 7],
    },
    Row {
        what: "type 4: 1 and 2 become 20, and 1, 2 and 3 become 21",
        lookups: &[
            1, 4, 4, 0, 1, 8, 1, 8, 1, 14, 1, 1, 1, 2, 6, 14, 21, 3, 2, 3, 20, 2, 2,
        ],
        given: &[1, 2],
        closed: &[1, 2, 20],
    },
    Row {
        what: "type 4: the same table, from 1, 2 and 3",
        lookups: &[
            1, 4, 4, 0, 1, 8, 1, 8, 1, 14, 1, 1, 1, 2, 6, 14, 21, 3, 2, 3, 20, 2, 2,
        ],
        given: &[1, 2, 3],
        closed: &[1, 2, 3, 20, 21],
    },
    Row {
        what: "type 5, format 3: after 1, lookup 1 makes 9 of 2",
        lookups: &[
            2, 6, 40, 5, 0, 1, 8, 3, 2, 1, 14, 20, 1, 1, 1, 1, 1, 1, 1, 2, 1, 0, 1, 8, 1, 6, 7, 1,
            1, 2,
        ],
        given: &[1, 2],
        closed: &[1, 2, 9],
    },
    Row {
        what: "type 6, format 3: between 3 and 4, lookup 1 makes 9 of 1",
        lookups: &[
            2, 6, 52, 6, 0, 1, 8, 3, 1, 20, 1, 26, 1, 32, 1, 0, 1, 1, 1, 3, 1, 1, 1, 1, 1, 4, 1, 0,
            1, 8, 1, 6, 8, 1, 1, 1,
        ],
        given: &[1, 3, 4],
        closed: &[1, 3, 4, 9],
    },
    Row {
        what: "type 7: the extension of type 1 makes 9 of 2",
        lookups: &[1, 4, 7, 0, 1, 8, 1, 1, 0, 8, 1, 6, 7, 1, 1, 2],
        given: &[2],
        closed: &[2, 9],
    },
    Row {
        what: "type 8: between 3 and 4, 1 becomes 9",
        lookups: &[
            1, 4, 8, 0, 1, 8, 1, 16, 1, 22, 1, 28, 1, 9, 1, 1, 1, 1, 1, 3, 1, 1, 4,
        ],
        given: &[1, 3, 4],
        closed: &[1, 3, 4, 9],
    },
    Row {
        what: "two rounds: lookup 0 makes 10 of 9, and lookup 1 makes 9 of 1",
        lookups: &[
            2, 6, 26, 1, 0, 1, 8, 1, 6, 1, 1, 1, 9, 1, 0, 1, 8, 1, 6, 8, 1, 1, 1,
        ],
        given: &[1],
        closed: &[1, 9, 10],
    },
    Row {
        what: "a truncated coverage table: its second glyph is read as 0",
        lookups: &[1, 4, 1, 0, 1, 8, 1, 6, 5, 1, 2, 1],
        given: &[0],
        closed: &[0, 5],
    },
    Row {
        what: "no lookups, and glyphs out of order",
        lookups: &[0],
        given: &[3, 1, 3],
        closed: &[1, 3],
    },
];

/// Returns a `GSUB` table with a lookup list at offset 10, and without scripts and features.
fn table(alloc: Global, lookups: &[u16]) -> Result<Vec<u8>, AllocError> {
    let mut bytes = Vec::from_array(alloc, [0, 1, 0, 0, 0, 0, 0, 0, 0, 10])?;
    bytes.extend_from_slice(&bytes_of(alloc, lookups)?)?;
    Ok(bytes)
}

#[test]
fn closures(rt: HostRuntime) {
    for row in ROWS {
        let gsub = table(rt.alloc(), row.lookups).expect(&rt, "memory");
        let mut limit = 100;
        let closed = closure(rt.alloc(), &gsub, row.given, &mut limit).expect(&rt, row.what);
        assert_eq!(rt; closed.as_slice(), row.closed, "{}", row.what);
    }
}

/// A round costs five units: the round, the lookup, the subtable and two covered glyphs. The second round adds no glyph.
#[test]
fn limits(rt: HostRuntime) {
    let gsub = table(rt.alloc(), ROWS[0].lookups).expect(&rt, "memory");
    for (given, left, closed) in [(9, 0, None), (10, 0, Some(3)), (12, 2, Some(3))] {
        let mut limit = given;
        match closure(rt.alloc(), &gsub, &[1, 2], &mut limit) {
            Ok(glyphs) => assert_eq!(rt; Some(glyphs.len()), closed, "{given}"),
            Err(error) => {
                assert_eq!(rt; error, Error::TooLong, "{given}");
                assert_eq!(rt; closed, None, "{given}");
            }
        }
        assert_eq!(rt; limit, left, "{given}");
    }
}

/// A table with two lookups: lookup 0 makes 9 of 1, and lookup 1 makes 10 of 9.
const CHAIN: &[u16] = &[
    2, 6, 26, 1, 0, 1, 8, 1, 6, 8, 1, 1, 1, 1, 0, 1, 8, 1, 6, 1, 1, 1, 9,
];

/// Chosen lookups of `CHAIN`, and the closure of glyph 1 over them.
const CHOSEN: &[(&[u16], &[u16])] = &[
    (&[], &[1]),
    (&[0], &[1, 9]),
    (&[1], &[1]),
    (&[1, 0], &[1, 9, 10]),
    (&[0, 1, 2, 65535], &[1, 9, 10]),
];

#[test]
fn closures_over_chosen_lookups(rt: HostRuntime) {
    let gsub = table(rt.alloc(), CHAIN).expect(&rt, "memory");
    for (lookups, closed) in CHOSEN {
        let mut limit = 100;
        let found = closure_over(rt.alloc(), &gsub, lookups, &[1], &mut limit).expect(
            &rt, "closed",
        );
        assert_eq!(rt; found.as_slice(), *closed, "{lookups:?}");
    }
}

/// A feature list at offset 10, with `liga` for lookups 4 and 1, `smcp` for lookup 2 and `liga` for lookups 1 and 7, and
/// a lookup list with 3 lookups.
const FEATURES: &[u16] = &[
    1, 0, 0, 10, 52, 3, 0x6c69, 0x6761, 20, 0x736d, 0x6370, 28, 0x6c69, 0x6761, 34, 0, 2, 4, 1, 0,
    1, 2, 0, 2, 1, 7, 3, 0, 0, 0,
];

/// The tags `liga`, `smcp` and `kern`.
const LIGA: u32 = 0x6c696761;

const SMCP: u32 = 0x736d6370;

const KERN: u32 = 0x6b65726e;

/// Tags, and the lookups that `FEATURES` names for them, as fontTools 4.38 reads it.
const NAMED: &[(&[u32], &[u16])] = &[
    (&[], &[]),
    (&[KERN], &[]),
    (&[SMCP], &[2]),
    (&[LIGA], &[1, 4, 7]),
    (&[KERN, SMCP, LIGA], &[1, 2, 4, 7]),
];

/// Returns numbers of two bytes as bytes.
fn bytes_of(alloc: Global, words: &[u16]) -> Result<Vec<u8>, AllocError> {
    let mut bytes = Vec::new(alloc);
    for word in words {
        for byte in &word.to_be_bytes() {
            bytes.push(*byte)?;
        }
    }
    Ok(bytes)
}

#[test]
fn lookups_of_features(rt: HostRuntime) {
    let table = bytes_of(rt.alloc(), FEATURES).expect(&rt, "memory");
    for (tags, lookups) in NAMED {
        let mut limit = 8;
        let found = feature_lookups(rt.alloc(), &table, tags, &mut limit).expect(&rt, "found");
        assert_eq!(rt; found.as_slice(), *lookups, "{tags:?}");
    }
    let all = all_lookups(rt.alloc(), &table).expect(&rt, "memory");
    assert_eq!(rt; all.as_slice(), [0, 1, 2].as_slice());
}

/// Three features cost three units, and `liga` four more for its lookup indices.
#[test]
fn limits_of_features(rt: HostRuntime) {
    let table = bytes_of(rt.alloc(), FEATURES).expect(&rt, "memory");
    let mut limit = 7;
    assert_eq!(rt;
        feature_lookups(rt.alloc(), &table, &[LIGA], &mut limit).is_ok(),
        true
    );
    assert_eq!(rt; limit, 0);
    limit = 6;
    assert_eq!(rt;
        feature_lookups(rt.alloc(), &table, &[LIGA], &mut limit).is_ok(),
        false
    );
    assert_eq!(rt; limit, 0);
}
