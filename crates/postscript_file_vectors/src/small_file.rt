//! The tables of a small file, for tests of whole files, and the choice of characters for a subset.
use postscript_files::{Choice, Given};
use postscript_sfnt_write::{Mapping, cmap};
use postscript_vectors::common::decode_digits;
use std::alloc::Global;

/// The tags of its tables, as numbers of four bytes.
pub const CFF: u32 = 0x43464620;

pub const CMAP: u32 = 0x636d6170;

pub const HHEA: u32 = 0x68686561;

pub const HMTX: u32 = 0x686d7478;

pub const MAXP: u32 = 0x6d617870;

pub const NAME: u32 = 0x6e616d65;

/// A, grave and Agrave.
pub const CHARS: [(u32, u16); 3] = [(0x41, 1), (0x60, 2), (0xc0, 3)];

/// A `cmap` table with these characters and variation sequences: the default sequence of A and U+FE00, and sequences of grave
/// with U+FE00 (Agrave), U+FE01 (grave), U+FE02 (`.notdef`) and U+FE03 (A).
pub const VARIED: &str = "0000 0002 0000 0005 00000048 0003 000a 00000014 \
    000c0000 00000034 00000000 00000003 \
    00000041 00000041 00000001 00000060 00000060 00000002 000000c0 000000c0 00000003 \
    000e 00000062 00000004 00fe00 00000036 0000003e 00fe01 00000000 00000047 \
    00fe02 00000000 00000050 00fe03 00000000 00000059 00000001 000041 00 \
    00000001 000060 0003 00000001 000060 0002 00000001 000060 0000 00000001 000060 0001";

/// The advances 500, 600, 300 and 610, and the bearings 0, 10, -20 and 30.
pub const METRICS: &str = "01f40000 0258000a 012cffec 0262001e";

/// A font of `.notdef`, A, grave, and a `seac` glyph of both: `3 4 65 193 endchar`.
pub const ACCENTED: &str = "010004040001020001000246000102000100181d0000002e0f1d00000035 \
    111d000000021d000000591200000000000022007c00ab00040200010002000a00120018 \
    0e959515bd06bd070e9f9f15c706c7070e8e8fccf7550e9214";

/// Tables in the order of their tags, after `CFF ` and `cmap`. `hhea` and `maxp` end with the number of glyphs.
const TABLES: [(u32, &str); 4] = [
    (
        HHEA,
        "00010000 0000000000000000 0000000000000000 0000000000000000 000000000000 0004",
    ),
    (HMTX, METRICS),
    (MAXP, "00005000 0004"),
    (NAME, "0a0b0c0d0e"),
];

/// The tables of a file of four glyphs. The table with the tag `changed` has other bytes. None if the digits are no hex
/// digits, or if memory runs out.
pub fn tables_of(alloc: Global, changed: u32, digits: &str) -> Option<Vec<Given>> {
    let mut tables = Vec::new(alloc);
    push(&mut tables, CFF, decode_digits(alloc, ACCENTED)?)?;
    let map = if changed == CMAP {
        decode_digits(alloc, digits)
    } else {
        map_of(alloc)
    };
    push(&mut tables, CMAP, map?)?;
    for (tag, text) in TABLES {
        let bytes = decode_digits(alloc, if tag == changed { digits } else { text });
        push(&mut tables, tag, bytes?)?;
    }
    Some(tables)
}

/// The `cmap` table.
fn map_of(alloc: Global) -> Option<Vec<u8>> {
    let pairs = CHARS.map(|(char, glyph)| Mapping { char, glyph });
    cmap(alloc, &pairs).ok()
}

/// Adds a table.
fn push(tables: &mut Vec<Given>, tag: u32, bytes: Vec<u8>) -> Option<()> {
    tables.push(Given { tag, bytes }).ok()
}

/// The choice of characters, with copies of tables.
pub fn choice<'t>(chars: &'t [u32], retain_gids: bool, copied: &'t [u32]) -> Choice<'t> {
    Choice {
        chars,
        glyphs: &[],
        unmapped: &[],
        lenient: false,
        retain_gids,
        copied,
        given: &[],
        limit: None,
    }
}
