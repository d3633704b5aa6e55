//! Whole files written with layout tables and variation sequences.
use crate::checks::{bytes_of, holds_at};
use postscript_file_vectors::small_file::{CFF, CMAP, choice, tables_of};
use postscript_files::{Choice, Face};
use postscript_sequences::Sequence::{self, Glyph};
use postscript_sequences::Sequences;
use postscript_sfnt_write::{Table, file_of};
use postscript_subset::{Features, glyphs_with_layout, subset_with_layout};
use std::alloc::Global;
use std::process::Abort;

const GSUB: u32 = 0x47535542;

const LIGA: u32 = 0x6c696761;

/// A `cmap` table with A, grave and Agrave. The sequence of A and U+FE00 has the glyph of grave.
const VARIED: &str = "0000 0002 0000 0005 00000048 0003 000a 00000014 \
    000c0000 00000034 00000000 00000003 \
    00000041 00000041 00000001 00000060 00000060 00000002 000000c0 000000c0 00000003 \
    000e 0000001e 00000001 00fe00 00000000 00000015 00000001 000041 0002";

/// No scripts. The feature `liga` names lookup 0, which substitutes glyph 3 for glyph 2.
const RULES: &str = "00010000 000a 000c 001a 0000 \
    0001 6c696761 0008 0000 0001 0000 \
    0001 0004 0001 0000 0001 0008 0001 0006 0001 0001 0001 0002";

/// A file of the glyphs `.notdef`, A, grave and Agrave, with this `cmap` and this `GSUB` table.
fn file<R: Abort>(rt: &R, alloc: Global) -> Vec<u8> {
    let given = tables_of(alloc, CMAP, VARIED).expect(rt, "tables");
    let gsub = bytes_of(rt, alloc, RULES);
    let mut tables = Vec::new(alloc);
    for table in &given {
        let (tag, bytes) = (table.tag, table.bytes.as_slice());
        tables.push(Table { tag, bytes }).expect(rt, "memory");
        if tag == CFF {
            let (tag, bytes) = (GSUB, gsub.as_slice());
            tables.push(Table { tag, bytes }).expect(rt, "memory");
        }
    }
    file_of(alloc, tables.as_slice()).expect(rt, "a file")
}

/// Characters, whether glyphs keep their numbers, features, the glyphs that are kept, and the new sequence of A and U+FE00.
/// By hand: A brings grave by its sequence, and grave brings Agrave by `liga`. All features count if glyphs keep their
/// numbers.
const ROWS: &[(&[u32], bool, &[u32], &[usize], Option<Sequence>)] = &[
    (&[0x41], false, &[LIGA], &[0, 1, 2, 3], Some(Glyph(2))),
    (&[0x41], false, &[], &[0, 1, 2], Some(Glyph(2))),
    (&[0x41], true, &[], &[0, 1, 2, 3], Some(Glyph(2))),
    (&[0x60], false, &[], &[0, 2], None),
    (&[0x60], true, &[], &[0, 2, 3], None),
];

/// The glyphs that are kept, in ascending order.
fn glyphs<R: Abort>(
    rt: &R,
    alloc: Global,
    bytes: &[u8],
    asked: &Choice<'_>,
    features: Features<'_>,
) -> Vec<usize> {
    let face = Face::open(bytes, 0).expect(rt, "a face");
    let mut limit = 1000u64;
    let mut glyphs = glyphs_with_layout(alloc, &face, asked, features, &mut limit).expect(
        rt, "glyphs",
    );
    glyphs.sort().expect(rt, "memory");
    glyphs.dedup();
    glyphs
}

/// The new sequence of A and U+FE00.
fn sequence<R: Abort>(
    rt: &R,
    alloc: Global,
    bytes: &[u8],
    asked: &Choice<'_>,
    features: Features<'_>,
) -> Option<Sequence> {
    let mut limit = 1000u64;
    let new = subset_with_layout(alloc, bytes, 0, asked, features, &mut limit).expect(rt, "a file");
    let face = Face::open(new.file.as_slice(), 0).expect(rt, "a face");
    Sequences::find(face.cmap)?.get(0x41, 0xfe00)
}

#[test]
fn variation_sequences_keep_their_glyphs(rt: HostRuntime) {
    let alloc = rt.alloc();
    let bytes = file(&rt, alloc);
    for (row, (chars, retain_gids, tags, kept, wanted)) in ROWS.iter().enumerate() {
        let asked = choice(chars, *retain_gids, &[]);
        let found = glyphs(&rt, alloc, &bytes, &asked, Features::These(tags));
        holds_at(&rt, found.as_slice() == *kept, "glyphs in row", row);
        let found = sequence(&rt, alloc, &bytes, &asked, Features::These(tags));
        holds_at(&rt, found == *wanted, "sequence in row", row);
    }
}
