//! Whole files written with layout tables.
use crate::checks::{bytes_of, holds_at};
use postscript_file_vectors::small_file::{CFF, HMTX, choice, tables_of};
use postscript_files::Face;
use postscript_layout::closure;
use postscript_sfnt_write::{Table, file_of};
use postscript_subset::{Error, Features, Outcome, subset_with_layout};
use std::alloc::Global;
use std::process::Abort;

/// Tags, as numbers of four bytes.
const GPOS: u32 = 0x47504f53;

const GSUB: u32 = 0x47535542;

const KERN: u32 = 0x6b65726e;

const LIGA: u32 = 0x6c696761;

const SMCP: u32 = 0x736d6370;

/// No scripts. The feature `liga` names lookup 0, which substitutes glyph 0 for glyph 2. The feature `smcp` names lookup 1,
/// which substitutes glyph 1 for glyph 2.
const RULES: &str = "00010000 000a 000c 0026 0000 \
    0002 6c696761 000e 736d6370 0014 0000 0001 0000 0000 0001 0001 \
    0002 0006 001a 0001 0000 0001 0008 0001 0006 fffe 0001 0001 0002 \
    0001 0000 0001 0008 0001 0006 ffff 0001 0001 0002";

/// No scripts and no features. Lookup 0 moves the pair of glyphs 2 and 2 by -50.
const PAIRS: &str = "00010000 000a 000c 000e 0000 0000 \
    0001 0004 0002 0000 0001 0008 0001 000c 0004 0000 0001 0012 0001 0001 0002 0001 0002 ffce";

/// The same for the pair of glyphs 1 and 1.
const NEW_PAIRS: &str = "00010000 000a 000c 000e 0000 0000 \
    0001 0004 0002 0000 0001 0008 0001 000c 0004 0000 0001 0012 0001 0001 0001 0001 0001 ffce";

/// Adds a table.
fn put<'t, R: Abort>(rt: &R, tables: &mut Vec<Table<'t>>, tag: u32, bytes: &'t [u8]) {
    tables.push(Table { tag, bytes }).expect(rt, "memory");
}

/// A file of the glyphs `.notdef`, A, grave and Agrave, with a `GSUB` and a `GPOS` table, and with a `kern` table if it has
/// bytes.
fn file<R: Abort>(rt: &R, alloc: Global, positions: &str, pairs: &str) -> Vec<u8> {
    let given = tables_of(alloc, 0, "").expect(rt, "tables");
    let (gpos, gsub) = (bytes_of(rt, alloc, positions), bytes_of(rt, alloc, RULES));
    let kern = bytes_of(rt, alloc, pairs);
    let mut tables = Vec::new(alloc);
    for table in &given {
        put(rt, &mut tables, table.tag, table.bytes.as_slice());
        if table.tag == CFF {
            put(rt, &mut tables, GPOS, gpos.as_slice());
            put(rt, &mut tables, GSUB, gsub.as_slice());
        }
        if table.tag == HMTX && !kern.is_empty() {
            put(rt, &mut tables, KERN, kern.as_slice());
        }
    }
    file_of(alloc, tables.as_slice()).expect(rt, "a file")
}

/// Features, the number of new glyphs, the new glyph of grave, all that the new `GSUB` table makes of it, and the new `GPOS`
/// table. `liga` and `kern` keep `.notdef` and grave, and `smcp` adds A.
const ROWS: &[(&[u32], u16, u16, &[u16], &str)] = &[
    (&[LIGA, KERN], 2, 1, &[0, 1], NEW_PAIRS),
    (&[SMCP], 3, 2, &[1, 2], ""),
    (&[], 2, 1, &[1], ""),
];

#[test]
fn files_with_layout_tables(rt: HostRuntime) {
    let alloc = rt.alloc();
    let bytes = file(&rt, alloc, PAIRS, "");
    for (row, (tags, count, grave, made, pairs)) in ROWS.iter().enumerate() {
        let mut limit = 1000u64;
        let asked = choice(&[0x60], false, &[]);
        let features = Features::These(tags);
        let new = subset_with_layout(
            alloc,
            bytes.as_slice(),
            0,
            &asked,
            features,
            &mut limit,
        ).expect(&rt, "a file");
        let face = Face::open(new.file.as_slice(), 0).expect(&rt, "a face");
        holds_at(
            &rt,
            postscript_sfnt::glyphs(face.maxp) == Some(*count),
            "glyphs in row",
            row,
        );
        holds_at(&rt, face.map.glyph_of(0x60) == *grave, "grave in row", row);
        let gsub = face.file.table(*b"GSUB").unwrap_or(&[]);
        let glyphs = closure(alloc, gsub, &[*grave], &mut limit).expect(&rt, "glyphs");
        holds_at(&rt, glyphs.as_slice() == *made, "GSUB in row", row);
        let gpos = face.file.table(*b"GPOS").unwrap_or(&[]);
        let wanted = bytes_of(&rt, alloc, pairs);
        holds_at(&rt, gpos == wanted.as_slice(), "GPOS in row", row);
        holds_at(&rt, new.gdef == Outcome::Absent, "GDEF in row", row);
        holds_at(&rt, new.gsub == Outcome::Kept, "outcome in row", row);
    }
}

/// Lookup 0 of `PAIRS`, which the feature `kern` of the script latn names.
const KERNED: &str = "00010000 000a 001e 002c 0001 6c61746e 0008 0004 0000 0000 ffff 0001 0000 \
    0001 6b65726e 0008 0000 0001 0000 \
    0001 0004 0002 0000 0001 0008 0001 000c 0004 0000 0001 0012 0001 0001 0002 0001 0002 ffce";

/// The same with the script grek, which has no features.
const KERNED_IN_LATIN: &str = "00010000 000a 002e 003c 0002 6772656b 001a 6c61746e 000e \
    0004 0000 0000 ffff 0001 0000 0004 0000 0000 ffff 0000 0001 6b65726e 0008 0000 0001 0000 \
    0001 0004 0002 0000 0001 0008 0001 000c 0004 0000 0001 0012 0001 0001 0002 0001 0002 ffce";

/// A `kern` table that moves the pair of glyphs 2 and 2 by -20, and the same for glyphs 1 and 1.
const OLD_KERN: &str = "0000 0001 0000 0014 0001 0001 0006 0000 0000 0002 0002 ffec";

const NEW_KERN: &str = "0000 0001 0000 0014 0001 0001 0006 0000 0000 0001 0001 ffec";

/// A `GPOS` table, features, the outcome for `kern`, and the new `kern` table.
const KERN_ROWS: &[(&str, &[u32], Outcome, &str)] = &[
    (KERNED, &[LIGA, KERN], Outcome::NotChosen, ""),
    (KERNED_IN_LATIN, &[LIGA, KERN], Outcome::Kept, NEW_KERN),
    (PAIRS, &[KERN], Outcome::Kept, NEW_KERN),
    (KERNED_IN_LATIN, &[LIGA], Outcome::NotChosen, ""),
];

/// If `GPOS` kerns in each language, `kern` is left out.
#[test]
fn files_with_kern_tables(rt: HostRuntime) {
    let alloc = rt.alloc();
    for (row, (positions, tags, outcome, pairs)) in KERN_ROWS.iter().enumerate() {
        let bytes = file(&rt, alloc, positions, OLD_KERN);
        let mut limit = 1000u64;
        let asked = choice(&[0x60], false, &[]);
        let features = Features::These(tags);
        let new = subset_with_layout(
            alloc,
            bytes.as_slice(),
            0,
            &asked,
            features,
            &mut limit,
        ).expect(&rt, "a file");
        let face = Face::open(new.file.as_slice(), 0).expect(&rt, "a face");
        holds_at(&rt, new.kern == *outcome, "kern in row", row);
        let kern = face.file.table(*b"kern").unwrap_or(&[]);
        let wanted = bytes_of(&rt, alloc, pairs);
        holds_at(&rt, kern == wanted.as_slice(), "pairs in row", row);
    }
}

/// Glyphs keep their numbers, and the tables are copied. Both lookups count, so grave brings A.
#[test]
fn files_with_copied_layout_tables(rt: HostRuntime) {
    let alloc = rt.alloc();
    let bytes = file(&rt, alloc, PAIRS, "");
    let mut limit = 1000u64;
    let asked = choice(&[0x60], true, &[]);
    let new = subset_with_layout(
        alloc,
        bytes.as_slice(),
        0,
        &asked,
        Features::These(&[]),
        &mut limit,
    )
    .expect(&rt, "a file");
    let face = Face::open(new.file.as_slice(), 0).expect(&rt, "a face");
    let gsub = bytes_of(&rt, alloc, RULES);
    let found = face.file.table(*b"GSUB").unwrap_or(&[]);
    holds_at(&rt, found == gsub.as_slice(), "GSUB", 0);
    let gpos = bytes_of(&rt, alloc, PAIRS);
    let found = face.file.table(*b"GPOS").unwrap_or(&[]);
    holds_at(&rt, found == gpos.as_slice(), "GPOS", 0);
    holds_at(&rt, new.gpos == Outcome::Kept, "outcome", 0);
    holds_at(&rt, face.map.glyph_of(0x60) == 2, "grave", 0);
}

/// The error of a subset of grave and a glyph, with all features.
fn error_of(alloc: Global, bytes: &[u8], glyph: usize, limit: &mut u64) -> Option<Error> {
    let mut asked = choice(&[0x60], false, &[]);
    let glyphs = [glyph];
    asked.unmapped = &glyphs;
    subset_with_layout(alloc, bytes, 0, &asked, Features::All, limit).err()
}

/// A glyph number of 17 bits, no glyphs, and a limit that does not suffice.
#[test]
fn files_without_layout_tables(rt: HostRuntime) {
    let alloc = rt.alloc();
    let bytes = file(&rt, alloc, PAIRS, "");
    let mut limit = 1000u64;
    let error = error_of(alloc, bytes.as_slice(), 65536, &mut limit);
    holds_at(
        &rt,
        matches!(error, Some(Error::LargeGlyph(65536))),
        "glyph",
        0,
    );
    let nothing = choice(&[], false, &[]);
    let answer = subset_with_layout(
        alloc,
        bytes.as_slice(),
        0,
        &nothing,
        Features::All,
        &mut limit,
    );
    let error = answer.err();
    holds_at(
        &rt,
        matches!(
            error,
            Some(Error::File(postscript_files::Error::Font(postscript_write::Error::NoGlyphs)))
        ),
        "nothing",
        0,
    );
    limit = 1;
    let error = error_of(alloc, bytes.as_slice(), 2, &mut limit);
    holds_at(&rt, matches!(error, Some(Error::TooLong)), "limit", 0);
    holds_at(&rt, limit == 0, "rest of the limit", 0);
}
