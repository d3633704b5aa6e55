//! What layout tables lose under new glyph numbers.
use crate::devices::has_devices;
use postscript_base::index::number::number_within;
use postscript_layout_write::{flagged_positions_left_out, positions_left_out};
use postscript_sfnt::FontFile;
use postscript_subset::{Outcome, Subset};
use psotf_output::failure::Failure;
use psotf_output::telling;
use psotf_output::text::Text;
use std::alloc::{AllocError, Global};

/// The limit of the search for dropped lookups of `GPOS`.
const SEARCH: u64 = 2_000_000;

/// Returns whether a table is in the subset.
fn is_kept(outcome: Outcome) -> bool {
    matches!(outcome, Outcome::Kept)
}

/// Returns the table of the font, if the subset has it too.
fn kept_table<'l>(font: &FontFile<'l>, tag: [u8; 4], outcome: Outcome) -> Option<&'l [u8]> {
    if is_kept(outcome) {
        font.table(tag)
    } else {
        None
    }
}

/// Returns whether a `GSUB` or `GPOS` table has feature variations.
fn has_variations(table: &[u8]) -> bool {
    let version = number_within(table, 0, 4).unwrap_or(0);
    version > 0x10000 && number_within(table, 10, 4).unwrap_or(0) != 0
}

/// Returns whether a `GDEF` table has attachment points.
fn has_points(gdef: &[u8]) -> bool {
    number_within(gdef, 6, 2).unwrap_or(0) != 0
}

/// Returns numbers as a text, with a space before each.
pub fn list_of(alloc: Global, numbers: &[u16]) -> Result<String, AllocError> {
    let mut text = Text::new(alloc);
    for number in numbers {
        text.push(' ');
        text.put_number(u64::from(*number));
    }
    text.end()
}

/// Reports lookups of `GPOS` that are left out.
fn tell_positions(rt: &HostRuntime, gpos: &[u8], marks: bool) -> Result<(), Failure> {
    let mut limit = SEARCH;
    let left = if marks {
        flagged_positions_left_out(rt.alloc(), gpos, &mut limit)
    } else {
        positions_left_out(rt.alloc(), gpos, &mut limit)
    };
    match left {
        Ok(left) if left.is_empty() => Ok(()),
        Ok(left) => {
            let list = list_of(rt.alloc(), &left)?;
            telling::tell(
                rt,
                format_args!(
                    "GPOS lookups dropped (unknown types, formats, classes or sets of marks):{list}"
                ),
            )
        }
        Err(error) => telling::tell(
            rt,
            format_args!("cannot tell which GPOS lookups are dropped: {error}"),
        ),
    }
}

/// Reports parts of a `GPOS` table that are lost.
fn tell_gpos(rt: &HostRuntime, gpos: &[u8], marks: bool) -> Result<(), Failure> {
    tell_positions(rt, gpos, marks)?;
    if has_devices(gpos) {
        telling::tell(rt, "device tables dropped from GPOS")?;
    }
    Ok(())
}

/// Reports that the feature variations of a table are lost, if it has some.
fn tell_variations(rt: &HostRuntime, name: &str, table: &[u8]) -> Result<(), Failure> {
    if has_variations(table) {
        telling::tell(rt, format_args!("feature variations dropped from {name}"))?;
    }
    Ok(())
}

/// Reports that the attachment points of a `GDEF` table are lost, if it has some.
fn tell_points(rt: &HostRuntime, gdef: &[u8]) -> Result<(), Failure> {
    if has_points(gdef) {
        telling::tell(rt, "attachment points dropped from GDEF")?;
    }
    Ok(())
}

/// The most glyphs of a font whose lookups may use classes and sets of marks.
const MARKED: usize = 16_377;

/// Returns whether lookups that use classes or sets of marks are kept: if `GDEF` is, and the subset has few glyphs.
fn has_marks(subset: &Subset, glyphs: usize) -> bool {
    is_kept(subset.gdef) && glyphs <= MARKED
}

/// Reports on standard error which parts of layout tables are lost under new glyph numbers. The subset has this number of
/// glyphs.
pub fn tell(
    rt: &HostRuntime,
    font: &FontFile<'_>,
    subset: &Subset,
    glyphs: usize,
) -> Result<(), Failure> {
    if let Some(gsub) = kept_table(font, *b"GSUB", subset.gsub) {
        tell_variations(rt, "GSUB", gsub)?;
    }
    if let Some(gpos) = kept_table(font, *b"GPOS", subset.gpos) {
        tell_variations(rt, "GPOS", gpos)?;
        tell_gpos(rt, gpos, has_marks(subset, glyphs))?;
    }
    if let Some(gdef) = kept_table(font, *b"GDEF", subset.gdef) {
        tell_points(rt, gdef)?;
    }
    Ok(())
}
