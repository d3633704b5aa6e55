//! An INDEX in place, written by hand (Technical Note 5176, "INDEX Data"; OpenType 1.9, "CFF2", "INDEX Data").
use crate::checks::{bytes_of, is_text, put, put_shown};
use postscript::Result;
use postscript_base::index::IndexView;
use std::alloc::Global;
use std::process::Abort;

/// Bytes, and the results of `open` and of `read`. Each is the items (a dash for an empty one) and the offset after the
/// INDEX, or the code of the error.
type Row = (&'static str, &'static str, &'static str);

/// Counts of two bytes: no items, two, decreasing offsets, offsets that begin with 2, and sizes of 0 and of 5. Then the
/// end is in the items (with decreasing offsets), in the offsets, before the size, and in the count.
const ROWS: [Row; 11] = [
    ("00 00", "behind 2", "behind 2"),
    (
        "00 02 01 01 03 04 aa bb cc",
        "aabb cc behind 9",
        "aabb cc behind 9",
    ),
    (
        "00 02 01 01 04 03 aa bb cc",
        "aabbcc - behind 8",
        "refused 6",
    ),
    ("00 01 01 02 03 aa bb", "bb behind 7", "refused 6"),
    ("00 01 00 01 02 aa", "refused 5", "refused 5"),
    ("00 01 05 01 02 aa", "refused 5", "refused 5"),
    ("00 01 01 01 05 aa", "refused 1", "refused 1"),
    ("00 02 01 01 04 03 aa", "refused 1", "refused 1"),
    ("00 03 01 01 02", "refused 1", "refused 1"),
    ("00 01", "refused 1", "refused 1"),
    ("00", "refused 1", "refused 1"),
];

/// Counts of four bytes: no items, two, decreasing offsets, a size of 0, and an end in the items and in the count.
const WIDE_ROWS: [Row; 6] = [
    ("00 00 00 00", "behind 4", "behind 4"),
    (
        "00 00 00 02 01 01 03 04 aa bb cc",
        "aabb cc behind 11",
        "aabb cc behind 11",
    ),
    (
        "00 00 00 02 01 01 04 03 aa bb cc",
        "aabbcc - behind 10",
        "refused 6",
    ),
    ("00 00 00 01 00 01 02 aa", "refused 5", "refused 5"),
    ("00 00 00 01 01 01 05 aa", "refused 1", "refused 1"),
    ("00 00 02", "refused 1", "refused 1"),
];

/// Adds the items of an INDEX.
fn put_items<R: Abort>(rt: &R, alloc: Global, text: &mut String, items: &IndexView<'_>) {
    for item in items.iter() {
        let digits = hex::encode(alloc, item).expect(rt, "memory");
        put(
            rt,
            text,
            if item.len() == 0 {
                "-"
            } else {
                digits.as_str()
            },
        );
        put(rt, text, " ");
    }
}

/// Describes an INDEX.
fn describe_index<R: Abort>(
    rt: &R,
    alloc: Global,
    answer: Result<(IndexView<'_>, usize)>,
) -> String {
    let mut text = String::new(alloc);
    match answer {
        Ok((items, next)) => {
            put_items(rt, alloc, &mut text, &items);
            put_shown(rt, &mut text, "behind ", &next);
        }
        Err(e) => put_shown(rt, &mut text, "refused ", &e.code()),
    }
    text
}

#[test]
fn indices_in_place(rt: HostRuntime) {
    let alloc = rt.alloc();
    for (digits, opened, read) in ROWS {
        let bytes = bytes_of(&rt, alloc, digits);
        let found = describe_index(&rt, alloc, IndexView::open(&bytes, 0));
        is_text(&rt, found.as_str(), opened, digits);
        let found = describe_index(&rt, alloc, IndexView::read(&bytes, 0));
        is_text(&rt, found.as_str(), read, digits);
    }
}

#[test]
fn wide_indices_in_place(rt: HostRuntime) {
    let alloc = rt.alloc();
    for (digits, opened, read) in WIDE_ROWS {
        let bytes = bytes_of(&rt, alloc, digits);
        let found = describe_index(&rt, alloc, IndexView::open_wide(&bytes, 0));
        is_text(&rt, found.as_str(), opened, digits);
        let found = describe_index(&rt, alloc, IndexView::read_wide(&bytes, 0));
        is_text(&rt, found.as_str(), read, digits);
    }
}
