//! The data of a page about the file and the font (docs/report-format.md).
use super::brought::{self, Feature};
use super::pages::{Pages, put_index};
use super::parts;
use crate::dictionaries::{self, Kind};
use crate::face::Face;
use crate::hints::Runs;
use crate::inspect;
use postscript_base::index::IndexView;
use postscript_sfnt::FontFile;
use psotf_output::sheet::Sheet;
use std::alloc::Global;

/// The columns of a glyph row.
const COLUMNS: [&str; 14] = [
    "name",
    "chars",
    "advance",
    "part",
    "width",
    "bounds",
    "cost",
    "flat",
    "inlined",
    "letters",
    "points",
    "operations",
    "code",
    "accent",
];

fn columns(sheet: &mut Sheet) {
    sheet.begin_list("columns");
    for column in &COLUMNS {
        sheet.string(column);
    }
    sheet.end_array();
}

/// Writes the tag, the offset and the size of each table.
pub fn tables(sheet: &mut Sheet, file: &FontFile<'_>) {
    sheet.begin_list("tables");
    for i in 0..file.tables() {
        let tag = file.tag(i).unwrap_or(0);
        if let Some((place, size)) = file.span(tag) {
            sheet.begin_array();
            sheet.bytes(&tag.to_be_bytes());
            sheet.u64(place as u64);
            sheet.u64(size as u64);
            sheet.end_array();
        }
    }
    sheet.end_array();
}

/// Writes the Font DICTs of a CID-keyed font.
fn font_dictionaries(sheet: &mut Sheet, face: &Face<'_>) {
    sheet.begin_list("font_dictionaries");
    for part in &face.font.parts {
        if let Some(dictionary) = &part.font_dictionary {
            dictionaries::write(sheet, &face.font, dictionary, Kind::CidTop);
        }
    }
    sheet.end_array();
}

/// Writes the codes of the encoding, each with its glyph.
fn codes(sheet: &mut Sheet, face: &Face<'_>) {
    sheet.begin_list("codes");
    if let (Ok(encoding), Some(set)) = (face.font.encoding(), &face.set) {
        for code in 0..=255u8 {
            if let Some(glyph) = face.font.glyph_of_code(&encoding, set, code) {
                sheet.numbers(&[u64::from(code), glyph as u64]);
            }
        }
    }
    sheet.end_array();
}

/// Writes the bytes of subroutines.
fn list(sheet: &mut Sheet, items: &IndexView<'_>) {
    sheet.begin_array();
    for item in items.iter() {
        sheet.hex(item);
    }
    sheet.end_array();
}

/// Writes the global subroutines, and the local ones of each Private DICT.
fn subroutines(sheet: &mut Sheet, face: &Face<'_>) {
    sheet.key("global");
    list(sheet, &face.font.global_subroutines);
    sheet.begin_list("local");
    for part in &face.font.parts {
        list(sheet, &part.subroutines);
    }
    sheet.end_array();
}

/// Writes the format of the block, the size of the file, the index of the font and the first glyph of the page.
pub fn begin(sheet: &mut Sheet, size: usize, face: u16, first: u16) {
    sheet.text("format", "psotf report 3");
    sheet.number("bytes", size as u64);
    sheet.number("face", u64::from(face));
    sheet.number("from", u64::from(first));
}

/// Writes the data about the file and the font, on the page that begins with `first`.
pub fn put(
    alloc: Global,
    sheet: &mut Sheet,
    face: &Face<'_>,
    pages: &Pages<'_>,
    first: u16,
    runs: &Runs,
    features: &[Feature],
) {
    sheet.begin_object();
    begin(sheet, face.source.bytes.len(), pages.face, first);
    pages.put(alloc, sheet);
    if pages.glyphs(pages.first).end < pages.end {
        put_index(alloc, sheet, &face.map);
    }
    columns(sheet);
    tables(sheet, &face.source.file);
    parts::put(sheet, face);
    sheet.key("font");
    inspect::put(alloc, sheet, face, runs);
    font_dictionaries(sheet, face);
    codes(sheet, face);
    brought::put(sheet, features);
    subroutines(sheet, face);
    sheet.end_object();
}
