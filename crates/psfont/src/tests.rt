//! Parsing the option `--limit`.
use super::limit_of;
use std::alloc::Global;

/// Words with a comma between them, and their limit.
#[rattlefmt::skip]
const WORDS: &[(&str, Option<u64>)] = &[
    ("--limit,12", Some(12)),
    ("--limit,0", Some(0)),
    ("--limit,18446744073709551615", Some(18446744073709551615)),
    ("--limit,18446744073709551616", None),
    ("", None),
    ("--limit", None),
    ("--limit,", None),
    ("--limit,x", None),
    ("--limit,-1", None),
    ("--limit,1,2", None),
    ("--Limit,1", None),
    ("12,--limit", None),
];

/// Returns the limit in the words. It is also `None` if out of memory.
fn limit_in(alloc: Global, text: &str) -> Option<u64> {
    let mut words = Vec::new(alloc);
    for word in text.split(',') {
        words.push(word.to_string(alloc).ok()?).ok()?;
    }
    limit_of(&words)
}

#[test]
fn limits_are_named(rt: HostRuntime) {
    for (row, (text, limit)) in WORDS.iter().enumerate() {
        if limit_in(rt.alloc(), text) != *limit {
            panic!(rt; "at row {row}")
        }
    }
}
