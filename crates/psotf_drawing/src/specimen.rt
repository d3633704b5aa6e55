//! Glyphs in cells of one picture.
use crate::drawing::draw;
use crate::svg::SVG;
use postscript_outline::Outline;
use psotf_font::face::Face;
use psotf_output::failure::{Failure, Refusal};
use psotf_output::labels::Labels;
use psotf_output::limit::Budget;
use psotf_output::progress::Progress;
use psotf_output::saving::Output;
use psotf_output::stopped::Stopped;
use psotf_output::text::Text;
use std::alloc::{AllocError, Global};
use std::io::Write;
use std::ops::Range;

/// The number of cells in a row.
const COLUMNS: u64 = 16;

/// The width and height of a cell in pixels.
const PIXELS: u64 = 128;

/// Returns the size of labels in font units: 12 pixels. A cell of two ems has 128 pixels.
fn label_size(units: u64) -> u64 {
    units.saturating_mul(3) / 16
}

/// Returns the name of a glyph, or its CID.
fn name_of(alloc: Global, face: &Face<'_>, gid: u16) -> Result<String, AllocError> {
    match face.cid(gid) {
        Some(cid) => format!(in alloc; "cid{cid:05}"),
        None => String::from_utf8_lossy(alloc, face.name(gid).unwrap_or(&[])),
    }
}

/// Adds a text and a number.
fn put_behind(picture: &mut Text, text: &str, number: u64) {
    picture.push_str(text);
    picture.put_number(number);
}

/// Adds the outline of a glyph in its cell.
fn put_outline(picture: &mut Text, units: u64, outline: &Outline) {
    let (left, base) = (units / 4, units.saturating_add(units / 2));
    put_behind(picture, "<path transform=\"translate(", left);
    put_behind(picture, " ", base);
    picture.push_str(") scale(1 -1)\" d=\"");
    picture.write_fmt(outline);
    picture.push_str("\"/>");
}

/// Adds the number and the name of a glyph.
fn put_names(alloc: Global, face: &Face<'_>, gid: u16, labels: &mut Labels<'_>) {
    labels.number(u64::from(gid));
    match name_of(alloc, face, gid) {
        Ok(name) => labels.cut(name.as_str()),
        Err(_) => labels.picture.fail(),
    }
}

/// Adds the error of a glyph.
fn put_refusal(alloc: Global, refusal: &Refusal, labels: &mut Labels<'_>) {
    match format!(in alloc; "{refusal}") {
        Ok(why) => labels.put_wrapped(why.as_str()),
        Err(_) => labels.picture.fail(),
    }
}

/// Draws a glyph below its labels, or adds its error instead.
fn put_glyph(
    alloc: Global,
    face: &Face<'_>,
    gid: u16,
    budget: &mut Budget,
    labels: &mut Labels<'_>,
) -> Option<Refusal> {
    match draw(alloc, face, gid, budget) {
        Ok((_, outline)) => {
            put_outline(labels.picture, u64::from(face.units), &outline);
            None
        }
        Err(refusal) => {
            put_refusal(alloc, &refusal, labels);
            Some(refusal)
        }
    }
}

/// Draws a cell: the number and the name of a glyph, and its outline or its error.
fn put_cell(
    alloc: Global,
    face: &Face<'_>,
    gid: u16,
    cell: u64,
    budget: &mut Budget,
    picture: &mut Text,
) -> Option<Refusal> {
    let units = u64::from(face.units);
    let x = (cell % COLUMNS).saturating_mul(units).saturating_mul(2);
    let y = (cell / COLUMNS).saturating_mul(units).saturating_mul(2);
    put_behind(picture, "<g transform=\"translate(", x);
    put_behind(picture, " ", y);
    picture.push_str(")\">");
    let size = label_size(units);
    let mut labels = Labels {
        picture,
        size,
        y: size,
    };
    put_names(alloc, face, gid, &mut labels);
    let refusal = put_glyph(alloc, face, gid, budget, &mut labels);
    labels.picture.push_str("</g>\n");
    refusal
}

/// Writes the cells of glyphs. Glyphs that cost more than the limit are reported.
fn write_cells<W: Write>(
    rt: &HostRuntime,
    face: &Face<'_>,
    gids: Range<u16>,
    budget: &mut Budget,
    stopped: &mut Stopped<'_>,
    output: &mut Output<'_>,
    out: &mut W,
) -> Result<(), Failure> {
    let from = gids.start;
    let mut picture = Text::new(rt.alloc());
    let mut progress = Progress::new(rt, gids.end);
    for gid in gids {
        progress.at_glyph(gid);
        let cell = u64::from(gid.saturating_sub(from));
        match put_cell(rt.alloc(), face, gid, cell, budget, &mut picture) {
            Some(refusal) if refusal.is_by_limit() => stopped.add(gid, &refusal)?,
            _ => {}
        }
        output.take(rt, &mut picture, out)?;
    }
    progress.end();
    Ok(())
}

/// Adds the opening tag of a picture with `cells` cells.
fn put_opening(face: &Face<'_>, cells: u64, picture: &mut Text) {
    let units = u64::from(face.units);
    let rows = cells.saturating_add(COLUMNS - 1) / COLUMNS;
    let side = units.saturating_mul(2);
    let (width, height) = (side.saturating_mul(COLUMNS), side.saturating_mul(rows));
    let (wide, high) = (PIXELS.saturating_mul(COLUMNS), PIXELS.saturating_mul(rows));
    let size = label_size(units);
    picture.push_str("<svg xmlns=\"");
    picture.push_str(SVG);
    put_behind(picture, "\" width=\"", wide);
    put_behind(picture, "\" height=\"", high);
    put_behind(picture, "\" viewBox=\"0 0 ", width);
    put_behind(picture, " ", height);
    put_behind(picture, "\" font-family=\"monospace\" font-size=\"", size);
    picture.push_str("\">\n");
}

/// Writes the picture of glyphs, cell by cell.
fn write_picture<W: Write>(
    rt: &HostRuntime,
    face: &Face<'_>,
    gids: Range<u16>,
    budget: &mut Budget,
    stopped: &mut Stopped<'_>,
    output: &mut Output<'_>,
    out: &mut W,
) -> Result<(), Failure> {
    let mut opening = Text::new(rt.alloc());
    let cells = gids.end.saturating_sub(gids.start);
    put_opening(face, u64::from(cells), &mut opening);
    output.take(rt, &mut opening, out)?;
    write_cells(rt, face, gids, budget, stopped, output, out)?;
    output.put(rt, b"</svg>\n", out)
}

/// Writes the picture of glyphs to a file if there is a path, and otherwise to standard output, with errors in their
/// cells. Afterwards it fails if glyphs cost more than the limit, with their number.
pub fn write<W: Write>(
    rt: &HostRuntime,
    face: &Face<'_>,
    gids: Range<u16>,
    path: Option<&str>,
    budget: &mut Budget,
    out: &mut W,
) -> Result<(), Failure> {
    let mut stopped = Stopped::new(rt);
    let mut output = Output::open(rt, path)?;
    let written = write_picture(rt, face, gids, budget, &mut stopped, &mut output, out);
    output.end(rt, written)?;
    stopped.end()
}
