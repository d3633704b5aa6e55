//! The scripts, features and lookups of the layout tables (OpenType 1.9, "OpenType Layout Common Table Formats").
use postscript_base::index::number::number_within;
use postscript_sfnt::FontFile;
use psotf_output::sheet::Sheet;
use psotf_output::text::Text;
use std::alloc::{AllocError, Global};

/// A layout table: its tag, and the names of its lookup types, from type 1.
#[derive(Clone, Copy)]
struct Kind {
    tag: [u8; 4],
    name: &'static str,
    types: [&'static str; 9],
}

/// The lookup type of extensions in `GSUB` and in `GPOS`.
const EXTENSIONS: [usize; 2] = [7, 9];

const KINDS: [Kind; 2] = [
    Kind {
        tag: *b"GSUB",
        name: "GSUB",
        types: [
            "single",
            "multiple",
            "alternate",
            "ligature",
            "context",
            "chained context",
            "extension",
            "reverse chained",
            "unknown",
        ],
    },
    Kind {
        tag: *b"GPOS",
        name: "GPOS",
        types: [
            "single",
            "pair",
            "cursive",
            "mark to base",
            "mark to ligature",
            "mark to mark",
            "context",
            "chained context",
            "extension",
        ],
    },
];

/// Returns the number of two bytes at an offset, or 0 past the end.
fn word(table: &[u8], offset: usize) -> usize {
    number_within(table, offset, 2).unwrap_or(0)
}

/// Returns the distinct tags of a list of records, in ascending order. The offset of the list is at `place`.
pub fn tags_of(alloc: Global, table: &[u8], place: usize) -> Result<Vec<u32>, AllocError> {
    let list = word(table, place);
    let mut tags = Vec::new(alloc);
    if list == 0 {
        return Ok(tags);
    }
    for i in 0..word(table, list).min(0xffff) {
        let record = list.saturating_add(2).saturating_add(i * 6);
        if let Ok(tag) = number_within(table, record, 4) {
            tags.push(tag as u32)?;
        }
    }
    tags.sort()?;
    tags.dedup();
    Ok(tags)
}

/// Returns the type of a lookup: that of its first subtable, if this is an extension.
fn type_of(table: &[u8], lookup: usize, extension: usize) -> usize {
    let found = word(table, lookup);
    if found != extension {
        return found;
    }
    let subtable = lookup.saturating_add(word(table, lookup.saturating_add(6)));
    word(table, subtable.saturating_add(2))
}

/// Returns how many lookups have a type.
fn count_of(table: &[u8], extension: usize, wanted: usize) -> u64 {
    let list = word(table, 8);
    let mut count = 0u64;
    if list == 0 {
        return count;
    }
    for i in 0..word(table, list).min(0xffff) {
        let place = list.saturating_add(2).saturating_add(i * 2);
        let lookup = list.saturating_add(word(table, place));
        if type_of(table, lookup, extension) == wanted {
            count = count.saturating_add(1);
        }
    }
    count
}

/// Writes the tags of a list of records as a list.
fn put_tags(alloc: Global, sheet: &mut Sheet, key: &str, table: &[u8], place: usize) {
    sheet.begin_list(key);
    match tags_of(alloc, table, place) {
        Ok(tags) => {
            for tag in &tags {
                sheet.bytes(&tag.to_be_bytes());
            }
        }
        Err(_) => sheet.fail(),
    }
    sheet.end_array();
}

/// Writes how many lookups have each type.
fn put_counts(sheet: &mut Sheet, kind: &Kind, table: &[u8], extension: usize) {
    sheet.begin_member("lookups");
    for i in 0..kind.types.len() {
        let count = count_of(table, extension, i + 1);
        if count > 0 {
            sheet.number(kind.types[i], count);
        }
    }
    sheet.end_object();
}

/// Writes a layout table as a member.
fn put_table(alloc: Global, sheet: &mut Sheet, kind: &Kind, table: &[u8], extension: usize) {
    sheet.begin_member(kind.name);
    put_tags(alloc, sheet, "scripts", table, 4);
    put_tags(alloc, sheet, "features", table, 6);
    put_counts(sheet, kind, table, extension);
    sheet.end_object();
}

/// Writes the layout tables of a font as a member.
pub fn put(alloc: Global, sheet: &mut Sheet, file: &FontFile<'_>) {
    sheet.begin_member("layout");
    for i in 0..KINDS.len() {
        if let Some(table) = file.table(KINDS[i].tag) {
            put_table(alloc, sheet, &KINDS[i], table, EXTENSIONS[i]);
        }
    }
    sheet.end_object();
}

/// Adds a line with the tags of a list of records.
fn tag_line(alloc: Global, lines: &mut Text, label: &str, table: &[u8], place: usize) {
    lines.push_str(label);
    match tags_of(alloc, table, place) {
        Ok(tags) => {
            for tag in &tags {
                lines.push(' ');
                lines.put_printable(alloc, &tag.to_be_bytes());
            }
        }
        Err(_) => lines.fail(),
    }
    lines.push('\n');
}

/// Adds a line with the number of lookups of each type.
fn count_line(lines: &mut Text, kind: &Kind, table: &[u8], extension: usize) {
    lines.push_str(" lookups:");
    for i in 0..kind.types.len() {
        let count = count_of(table, extension, i + 1);
        if count > 0 {
            lines.push(' ');
            lines.put_number(count);
            lines.push(' ');
            lines.push_str(kind.types[i]);
        }
    }
    lines.push('\n');
}

/// Adds the lines of a layout table.
fn table_lines(alloc: Global, lines: &mut Text, kind: &Kind, table: &[u8], extension: usize) {
    lines.push_str(kind.name);
    tag_line(alloc, lines, " scripts:", table, 4);
    lines.push_str(kind.name);
    tag_line(alloc, lines, " features:", table, 6);
    lines.push_str(kind.name);
    count_line(lines, kind, table, extension);
}

/// Adds the lines of the layout tables of a font.
pub fn put_lines(alloc: Global, lines: &mut Text, file: &FontFile<'_>) {
    for i in 0..KINDS.len() {
        if let Some(table) = file.table(KINDS[i].tag) {
            table_lines(alloc, lines, &KINDS[i], table, EXTENSIONS[i]);
        }
    }
}
