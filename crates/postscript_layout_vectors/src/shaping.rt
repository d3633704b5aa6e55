//! The characters that a shaper may use. The rows follow from the data of Unicode.
use crate::checks::holds_at;
use postscript_shaping::shaped;

/// A text, the characters that a font maps, and the characters that a shaper may use, in ascending order.
struct Row {
    text: &'static [u32],
    mapped: &'static [u32],
    used: &'static [u32],
}

const ROWS: [Row; 13] = [
    // no text
    Row {
        text: &[],
        mapped: &[0x20, 0x41, 0x25cc],
        used: &[],
    },
    // a letter that is not mapped, and the space
    Row {
        text: &[0x42],
        mapped: &[0x20, 0x41, 0x25cc],
        used: &[0x20, 0x42],
    },
    // e with acute, and its parts
    Row {
        text: &[0xe9],
        mapped: &[0x41, 0x65, 0xe9, 0x301],
        used: &[0x65, 0xe9, 0x301],
    },
    // an acute accent can be composed with e, but not with B; it is drawn on the dotted circle
    Row {
        text: &[0x65, 0x301],
        mapped: &[0x42, 0xe9, 0xea, 0x25cc],
        used: &[0x65, 0xe9, 0x301, 0x25cc],
    },
    // superscript two modifies a syllable, and so it is drawn on the dotted circle in an Indic script; superscript one does not
    Row {
        text: &[0xb2],
        mapped: &[0xb2, 0x25cc],
        used: &[0xb2, 0x25cc],
    },
    Row {
        text: &[0xb1, 0xb4, 0xb9],
        mapped: &[0xb1, 0xb4, 0xb9, 0x25cc],
        used: &[0xb1, 0xb4, 0xb9],
    },
    // nothing is composed without an accent
    Row {
        text: &[0x41, 0x65],
        mapped: &[0xc1, 0xe9],
        used: &[0x41, 0x65],
    },
    // A with circumflex and acute is decomposed in two steps
    Row {
        text: &[0x1ea4],
        mapped: &[0xc1, 0xc2, 0x301],
        used: &[0xc1, 0xc2, 0x301, 0x1ea4],
    },
    // brackets beside Hebrew
    Row {
        text: &[0x28, 0x5d0],
        mapped: &[0x28, 0x29, 0x41, 0x5b],
        used: &[0x28, 0x29, 0x5b, 0x5d0],
    },
    // brackets alone
    Row {
        text: &[0x28],
        mapped: &[0x28, 0x29, 0x5b],
        used: &[0x28],
    },
    // the isolated form of the Arabic letter beh, and not that of teh
    Row {
        text: &[0x628],
        mapped: &[0xfe8f, 0xfe95],
        used: &[0x628, 0xfe8f],
    },
    // forms of yeh with hamza above, which has two parts, and not the isolated form of alef
    Row {
        text: &[0x626],
        mapped: &[0x627, 0x64a, 0xfe89, 0xfe8b, 0xfe8d],
        used: &[0x626, 0x64a, 0xfe89, 0xfe8b],
    },
    // the jamo of a Hangul syllable
    Row {
        text: &[0xac01],
        mapped: &[0x1100, 0x1161, 0x11a8, 0x11a9],
        used: &[0x1100, 0x1161, 0x11a8, 0xac01],
    },
];

#[test]
fn shaped_characters(rt: HostRuntime) {
    let mut at = 0usize;
    for row in &ROWS {
        let mut used = shaped(rt.alloc(), row.mapped, row.text).expect(&rt, "memory");
        used.sort().expect(&rt, "memory");
        used.dedup();
        holds_at(&rt, used.as_slice() == row.used, "characters", at);
        at = at.saturating_add(1);
    }
}
