//! Pages about files with an invalid `CFF ` table.
use super::begin;
use psotf_font::face::{Source, refusal_of};
use psotf_font::readings;
use psotf_font::report::pages::Pages;
use psotf_font::report::{head, parts};
use psotf_output::failure::Failure;
use psotf_output::saving::save;
use psotf_output::sheet::Sheet;
use psotf_page::end;
use std::alloc::{AllocError, Global};

/// Writes the errors of the readers: of the in-place reader, and of those of the whole font.
fn put_readings(alloc: Global, sheet: &mut Sheet, cff: &[u8]) {
    sheet.begin_member("readings");
    sheet.key("in_place");
    match refusal_of(alloc, cff) {
        Some((spot, error)) => readings::put_refusal(sheet, &error, &spot),
        None => sheet.fail(),
    }
    readings::put(alloc, sheet, cff);
    sheet.end_object();
}

/// Writes the data of a file with an invalid table: its tables, and the first parts of the `CFF ` table, as far as they
/// are well formed.
fn put_head(alloc: Global, sheet: &mut Sheet, source: &Source<'_>, pages: &Pages<'_>) {
    let cff = source.file.table(*b"CFF ").unwrap_or(&[]);
    sheet.begin_object();
    head::begin(sheet, source.bytes.len(), pages.face, 0);
    pages.put(alloc, sheet);
    head::tables(sheet, &source.file);
    sheet.begin_list("parts");
    parts::first(sheet, cff);
    sheet.end_array();
    put_readings(alloc, sheet, cff);
    sheet.end_object();
}

/// Returns the page of a head, with no glyphs.
fn page_of(alloc: Global, head: &mut Sheet) -> Result<Vec<u8>, AllocError> {
    let mut page = Vec::new(alloc);
    begin(alloc, &mut page)?;
    head.end_in(&mut page)?;
    page.extend_from_slice(b",\n\"glyphs\":[]}\n")?;
    end(&mut page)?;
    Ok(page)
}

/// Writes a page that shows why a `CFF ` table is invalid, and the tables of the file. It writes nothing for any other
/// failure.
pub fn write_refused(
    rt: &HostRuntime,
    source: &Source<'_>,
    pages: &Pages<'_>,
    failure: &Failure,
) -> Result<(), Failure> {
    if !failure.is_of_table() {
        return Ok(());
    }
    let mut sheet = Sheet::new(rt.alloc());
    put_head(rt.alloc(), &mut sheet, source, pages);
    let page = page_of(rt.alloc(), &mut sheet)?;
    save(rt, pages.path, &page)
}
