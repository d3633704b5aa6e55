//! The results of the strict and the lenient reader for a `CFF ` table.
use crate::refused::spot_by;
use postscript_base::Error;
use postscript_compact1::font_set::FontSet;
use postscript_view::FontView;
use psotf_output::rules::{Spot, rule_of};
use psotf_output::sheet::Sheet;
use psotf_output::text::Text;
use std::alloc::Global;
use std::io::Cursor;

/// The most bytes that both readers may read. Each reads the table at most once for each Top DICT.
const PASSED: u64 = 1_000_000_000;

/// Returns the number of Top DICTs, if it is too large for the readers.
fn too_many(cff: &[u8]) -> Option<u64> {
    let fonts = FontView::fonts(cff).unwrap_or(0) as u64;
    if fonts > 1 && fonts.saturating_mul(cff.len() as u64) > PASSED {
        Some(fonts)
    } else {
        None
    }
}

/// The error of a reader, and its part.
#[derive(Drop)]
struct Refused {
    error: Error,
    spot: Spot,
}

/// Returns the error of the strict or the lenient reader, if there is one. The font is not kept.
fn refusal_by(alloc: Global, cff: &[u8], is_strict: bool) -> Option<Refused> {
    let mut tape = Cursor::new(cff);
    let checked = if is_strict {
        FontSet::check(alloc, &mut tape)
    } else {
        FontSet::check_lenient(alloc, &mut tape)
    };
    let error = checked.err()?;
    let spot = spot_by(alloc, cff, &error, tape.position());
    Some(Refused { error, spot })
}

/// Returns the errors of the strict and the lenient reader. The lenient reader accepts each table that the strict
/// reader accepts, and is not run for it.
fn both(alloc: Global, cff: &[u8]) -> (Option<Refused>, Option<Refused>) {
    match refusal_by(alloc, cff, true) {
        None => (None, None),
        refused => (refused, refusal_by(alloc, cff, false)),
    }
}

/// Writes an error: its number, its message, the part, the offset or null, and the rule.
pub fn put_refusal(sheet: &mut Sheet, error: &Error, spot: &Spot) {
    sheet.begin_object();
    sheet.number("code", u64::from(error.code()));
    sheet.tell("message", error);
    sheet.text("part", spot.part);
    sheet.key("place");
    sheet.u64_or_null(spot.place);
    sheet.text("rule", rule_of(error.code()));
    sheet.end_object();
}

/// Writes the error of a reader, or null.
fn put_reading(sheet: &mut Sheet, key: &str, refused: &Option<Refused>) {
    sheet.key(key);
    match refused {
        None => sheet.null(),
        Some(Refused { error, spot }) => put_refusal(sheet, error, spot),
    }
}

/// Writes the error of each reader, or the number of Top DICTs if the readers are not run.
pub fn put(alloc: Global, sheet: &mut Sheet, cff: &[u8]) {
    if let Some(fonts) = too_many(cff) {
        return sheet.number("dictionaries_not_read", fonts);
    }
    let (strict, lenient) = both(alloc, cff);
    put_reading(sheet, "strict", &strict);
    put_reading(sheet, "lenient", &lenient);
}

/// Adds a line for the error of a reader.
fn put_line(lines: &mut Text, reading: &str, refused: &Option<Refused>) {
    if let Some(Refused { error, spot }) = refused {
        let code = error.code();
        lines.push_str("rejected by the ");
        lines.push_str(reading);
        lines.push_str(" reader: ");
        lines.write_fmt(spot);
        lines.push_str(": ");
        lines.write_fmt(error);
        lines.push_str(" (error ");
        lines.put_number(u64::from(code));
        lines.push_str("): ");
        lines.push_str(rule_of(code));
        lines.push('\n');
    }
}

/// Adds a line for each reader that rejects the table, or a line which says that the readers are not run.
pub fn put_lines(alloc: Global, lines: &mut Text, cff: &[u8]) {
    if let Some(fonts) = too_many(cff) {
        lines.push_str("not read strictly or leniently: it has ");
        lines.put_number(fonts);
        lines.push_str(" dictionaries\n");
        return;
    }
    let (strict, lenient) = both(alloc, cff);
    put_line(lines, "strict", &strict);
    put_line(lines, "lenient", &lenient);
}
