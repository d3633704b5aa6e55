//! HTML pages about a font.
mod row;
mod unread;

use postscript_base::index::IndexView;
use psotf_font::characters::{Mapped, by_glyph};
use psotf_font::face::Face;
use psotf_font::hints::{Runs, run_all};
use psotf_font::report::brought::{Feature, features};
use psotf_font::report::head;
use psotf_font::report::pages::{PAGES, Pages};
use psotf_output::failure::Failure;
use psotf_output::limit::{Budget, OBJECT};
use psotf_output::progress::Progress;
use psotf_output::saving::NewFile;
use psotf_output::sheet::Sheet;
use psotf_output::stopped::Stopped;
use psotf_page::end;
use std::alloc::{AllocError, Global};
use std::ops::Range;
pub use unread::write_refused;

/// The most that a unit of a run costs. A glyph is drawn and written, searched for hints, checked, and measured twice
/// without calls.
pub const RUNS: u64 = OBJECT + 4;

/// Writes a piece of a page, and clears it.
fn take(rt: &HostRuntime, page: &mut Vec<u8>, file: &mut NewFile<'_>) -> Result<(), Failure> {
    file.put(rt, page.as_slice())?;
    page.clear();
    Ok(())
}

/// Writes the rows of glyphs to a page, one on each line, and the end of the block of JSON.
fn write_glyphs(
    rt: &HostRuntime,
    face: &Face<'_>,
    mapped: &[Mapped],
    gids: Range<u16>,
    budget: &mut Budget,
    stopped: &mut Stopped<'_>,
    file: &mut NewFile<'_>,
) -> Result<(), Failure> {
    let from = gids.start;
    let mut page = Vec::new(rt.alloc());
    let mut progress = Progress::new(rt, gids.end);
    let mut sheet = Sheet::new(rt.alloc());
    for gid in gids {
        progress.at_glyph(gid);
        if gid > from {
            page.extend_from_slice(b",\n")?;
        }
        row::put(rt.alloc(), &mut sheet, face, mapped, gid, budget, stopped)?;
        sheet.end_in(&mut page)?;
        take(rt, &mut page, file)?;
    }
    progress.end();
    file.put(rt, b"\n]}\n")
}

/// The data that all pages share.
#[derive(Clone, Copy)]
struct Common<'c, 'l> {
    face: &'c Face<'l>,
    pages: Pages<'c>,
    mapped: &'c [Mapped],
    runs: Runs,
    features: &'c [Feature],
}

/// Writes the block of JSON of a page (docs/report-format.md).
fn write_data(
    rt: &HostRuntime,
    common: &Common<'_, '_>,
    first: u16,
    budget: &mut Budget,
    stopped: &mut Stopped<'_>,
    file: &mut NewFile<'_>,
) -> Result<(), Failure> {
    let mut page = Vec::new(rt.alloc());
    let mut sheet = Sheet::new(rt.alloc());
    head::put(
        rt.alloc(),
        &mut sheet,
        common.face,
        &common.pages,
        first,
        &common.runs,
        common.features,
    );
    sheet.end_in(&mut page)?;
    page.extend_from_slice(b",\n\"glyphs\":[\n")?;
    take(rt, &mut page, file)?;
    let gids = common.pages.glyphs(first);
    write_glyphs(rt, common.face, common.mapped, gids, budget, stopped, file)
}

/// Adds the page up to the block of JSON, and the beginning of the block.
fn begin(alloc: Global, page: &mut Vec<u8>) -> Result<(), AllocError> {
    psotf_page::begin(alloc, page)?;
    page.extend_from_slice(b"{\"head\":")
}

/// Writes the page that begins with a glyph to a file.
fn write_all(
    rt: &HostRuntime,
    common: &Common<'_, '_>,
    first: u16,
    budget: &mut Budget,
    stopped: &mut Stopped<'_>,
    file: &mut NewFile<'_>,
) -> Result<(), Failure> {
    let mut page = Vec::new(rt.alloc());
    begin(rt.alloc(), &mut page)?;
    take(rt, &mut page, file)?;
    write_data(rt, common, first, budget, stopped, file)?;
    end(&mut page)?;
    take(rt, &mut page, file)
}

/// Writes the page that begins with a glyph.
fn write_page(
    rt: &HostRuntime,
    common: &Common<'_, '_>,
    first: u16,
    budget: &mut Budget,
    stopped: &mut Stopped<'_>,
) -> Result<(), Failure> {
    let path = common.pages.path_of(rt.alloc(), first)?;
    let mut file = NewFile::create(rt, path.as_str())?;
    let written = write_all(rt, common, first, budget, stopped, &mut file);
    file.end(rt, written)
}

fn write_pages(
    rt: &HostRuntime,
    common: &Common<'_, '_>,
    budget: &mut Budget,
    stopped: &mut Stopped<'_>,
) -> Result<(), Failure> {
    for page in 0..PAGES {
        if let Some(first) = common.pages.first_of(page) {
            write_page(rt, common, first, budget, stopped)?;
        }
    }
    Ok(())
}

/// The most local subroutines that a page lists. Subroutines shared by several Font DICTs are listed for each of them.
const MOST_LISTED: usize = 1_000_000;

/// The most bytes of subroutines that a page lists, if they are more than those of the `CFF ` table. They may overlap.
const MOST_BYTES: usize = 10_000_000;

/// Returns whether the Font DICTs have more local subroutines than a page lists.
fn lists_too_many(face: &Face<'_>) -> bool {
    let mut sum = 0usize;
    for part in &face.font.parts {
        sum = sum.saturating_add(part.subroutines.len());
    }
    sum > MOST_LISTED
}

/// Returns the length of all items in bytes.
fn len_of(items: &IndexView<'_>) -> usize {
    let mut sum = 0usize;
    for item in items.iter() {
        sum = sum.saturating_add(item.len());
    }
    sum
}

/// Returns whether the subroutines have more bytes than a page lists.
fn lists_too_much(face: &Face<'_>) -> bool {
    let mut sum = len_of(&face.font.global_subroutines);
    for part in &face.font.parts {
        sum = sum.saturating_add(len_of(&part.subroutines));
    }
    sum > face.cff.len().max(MOST_BYTES)
}

/// Writes pages about a font, which load nothing. Many glyphs take several pages. It fails first if the font has too
/// many local subroutines, and afterwards if glyphs cost more than the limit, with their number.
pub fn write(
    rt: &HostRuntime,
    face: &Face<'_>,
    pages: Pages<'_>,
    budget: &mut Budget,
) -> Result<(), Failure> {
    if lists_too_many(face) {
        return Err(Failure::dictionaries());
    }
    if lists_too_much(face) {
        return Err(Failure::subroutines());
    }
    let mut stopped = Stopped::new(rt);
    let mapped = by_glyph(rt.alloc(), &face.map)?;
    let features = features(rt.alloc(), face, mapped.as_slice(), budget)?;
    let common = Common {
        face,
        pages,
        mapped: mapped.as_slice(),
        runs: run_all(rt, face, budget, &mut stopped)?,
        features: features.as_slice(),
    };
    write_pages(rt, &common, budget, &mut stopped)?;
    stopped.end()
}
