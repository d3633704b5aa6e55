//! Whole files written with tables for vertical text.
use crate::checks::{bytes_of, holds_at};
use postscript_file_vectors::small_file::{CFF, choice, tables_of};
use postscript_files::Face;
use postscript_sfnt::FontFile;
use postscript_sfnt_write::{Table, file_of};
use postscript_subset::{Features, subset_with_layout};
use std::alloc::Global;
use std::process::Abort;

const VHEA: u32 = 0x76686561;

const VMTX: u32 = 0x766d7478;

const VORG: u32 = 0x564f5247;

/// A `vhea` table with two metrics, and one for two glyphs.
const HEADER: &str =
    "00011000 01f4 fe0c 0000 03e8 000a fff6 03d4 0000 0001 0000 0000000000000000 0000 0002";

/// The advance heights 1000 and 900, and the bearings 10, 20, -30 and 40.
const METRICS: &str = "03e8000a 03840014 ffe2 0028";

/// The metrics of glyphs 0 and 2.
const NEW_METRICS: &str = "03e8000a 0384ffe2";

/// The default 880, 900 for glyph 1, and -16 for glyph 2.
const ORIGINS: &str = "00010000 0370 0002 0001 0384 0002 fff0";

/// The default 880, and -16 for new glyph 1.
const NEW_ORIGINS: &str = "00010000 0370 0001 0001 fff0";

/// Records that are not in order.
const WRONG_ORIGINS: &str = "00010000 0370 0002 0002 fff0 0001 0384";

/// Adds a table, if it has bytes.
fn put<'t, R: Abort>(rt: &R, tables: &mut Vec<Table<'t>>, tag: u32, bytes: &'t [u8]) {
    if !bytes.is_empty() {
        tables.push(Table { tag, bytes }).expect(rt, "memory");
    }
}

/// `VORG`, `vhea` and `vmtx` tables, or no bytes for a missing one.
type Upright = (&'static str, &'static str, &'static str);

/// A file of the glyphs `.notdef`, A, grave and Agrave with these tables.
fn file<R: Abort>(rt: &R, alloc: Global, upright: Upright) -> Vec<u8> {
    let given = tables_of(alloc, 0, "").expect(rt, "tables");
    let vorg = bytes_of(rt, alloc, upright.0);
    let vhea = bytes_of(rt, alloc, upright.1);
    let vmtx = bytes_of(rt, alloc, upright.2);
    let mut tables = Vec::new(alloc);
    for table in &given {
        put(rt, &mut tables, table.tag, table.bytes.as_slice());
        if table.tag == CFF {
            put(rt, &mut tables, VORG, vorg.as_slice());
        }
    }
    put(rt, &mut tables, VHEA, vhea.as_slice());
    put(rt, &mut tables, VMTX, vmtx.as_slice());
    file_of(alloc, tables.as_slice()).expect(rt, "a file")
}

/// The old tables, and the new ones of `.notdef` and grave.
const ROWS: &[(Upright, Upright)] = &[
    (
        (ORIGINS, HEADER, METRICS),
        (NEW_ORIGINS, HEADER, NEW_METRICS),
    ),
    (("", HEADER, METRICS), ("", HEADER, NEW_METRICS)),
    ((ORIGINS, "", METRICS), (NEW_ORIGINS, "", "")),
    ((ORIGINS, HEADER, ""), (NEW_ORIGINS, "", "")),
    ((WRONG_ORIGINS, HEADER, "03e8000a 0384"), ("", "", "")),
    (("", "", ""), ("", "", "")),
];

/// Whether a file has these bytes as a table, or no such table if there are none.
fn has<R: Abort>(
    rt: &R,
    alloc: Global,
    file: &FontFile<'_>,
    tag: [u8; 4],
    digits: &'static str,
) -> bool {
    let bytes = bytes_of(rt, alloc, digits);
    match file.table(tag) {
        Some(table) => table == bytes.as_slice(),
        None => bytes.is_empty(),
    }
}

#[test]
fn files_with_tables_for_vertical_text(rt: HostRuntime) {
    let alloc = rt.alloc();
    let asked = choice(&[0x60], false, &[]);
    for (row, (old, new)) in ROWS.iter().enumerate() {
        let bytes = file(&rt, alloc, *old);
        let mut limit = 1000u64;
        let made = subset_with_layout(
            alloc,
            bytes.as_slice(),
            0,
            &asked,
            Features::These(&[]),
            &mut limit,
        )
        .expect(&rt, "a file");
        let face = Face::open(made.file.as_slice(), 0).expect(&rt, "a face");
        let found = &face.file;
        holds_at(
            &rt,
            has(&rt, alloc, found, *b"VORG", new.0),
            "VORG in row",
            row,
        );
        holds_at(
            &rt,
            has(&rt, alloc, found, *b"vhea", new.1),
            "vhea in row",
            row,
        );
        holds_at(
            &rt,
            has(&rt, alloc, found, *b"vmtx", new.2),
            "vmtx in row",
            row,
        );
    }
}
