//! The layout tables of a subset.
use crate::dropped::list_of;
use crate::failures::{by_files, by_subset};
use crate::features::Features;
use postscript_files::{Choice, subset_file};
use postscript_subset::{Error, Outcome, Subset, glyphs_with_layout, subset_with_layout};
use psotf_font::face::Face;
use psotf_output::failure::Failure;
use psotf_output::limit::Budget;
use psotf_output::telling;
use std::alloc::{AllocError, Global};

/// Opens the font in the file again, as the library takes it.
fn open_face<'l>(face: &Face<'l>) -> Result<postscript_files::Face<'l>, Failure> {
    match postscript_files::Face::open(face.source.bytes, face.source.number) {
        Ok(opened) => Ok(opened),
        Err(error) => Err(by_files(error)),
    }
}

/// Returns the glyphs below a number.
fn glyphs_below(alloc: Global, glyphs: &[usize], count: usize) -> Result<Vec<usize>, AllocError> {
    let mut found = Vec::new(alloc);
    for glyph in glyphs {
        if *glyph < count {
            found.push(*glyph)?;
        }
    }
    Ok(found)
}

/// Returns the glyphs of variation sequences of the chosen characters, as far as the font has them.
pub fn sequence_glyphs(
    alloc: Global,
    face: &Face<'_>,
    choice: &Choice<'_>,
) -> Result<Vec<usize>, Failure> {
    match open_face(face)?.sequence_glyphs(alloc, choice) {
        Ok(glyphs) => Ok(glyphs_below(alloc, &glyphs, face.font.char_strings.len())?),
        Err(error) => Err(by_files(error)),
    }
}

/// Returns the chosen glyphs, the glyphs of variation sequences of the chosen characters, and all that substitutions can
/// make of these. It fails if the search costs more than the share of one glyph.
pub fn closed_glyphs(
    alloc: Global,
    face: &Face<'_>,
    choice: &Choice<'_>,
    features: &Features,
    budget: &mut Budget,
) -> Result<Vec<usize>, Failure> {
    let opened = open_face(face)?;
    let share = budget.share();
    let mut left = share;
    let found = glyphs_with_layout(alloc, &opened, choice, features.for_library(), &mut left);
    budget.spend(share.saturating_sub(left));
    match found {
        Ok(glyphs) => Ok(glyphs),
        Err(Error::TooLong) => Err(Failure::substitutions(&budget.stop(share))),
        Err(error) => Err(by_subset(error)),
    }
}

/// Returns the subset with layout tables, within the rest of the budget.
pub fn write_subset(
    alloc: Global,
    face: &Face<'_>,
    choice: &Choice<'_>,
    features: &Features,
    budget: &mut Budget,
) -> Result<Subset, Failure> {
    let (bytes, number) = (face.source.bytes, face.source.number);
    let mut left = budget.left;
    let written = subset_with_layout(
        alloc,
        bytes,
        number,
        choice,
        features.for_library(),
        &mut left,
    );
    budget.left = left;
    match written {
        Ok(subset) => Ok(subset),
        Err(Error::TooLong) => Err(Failure::substitutions(&budget.stop(0))),
        Err(error) => Err(by_subset(error)),
    }
}

/// Returns the subset without layout tables.
pub fn plain(alloc: Global, face: &Face<'_>, choice: &Choice<'_>) -> Result<Subset, Failure> {
    match subset_file(alloc, face.source.bytes, face.source.number, choice) {
        Ok(file) => Ok(Subset {
            file,
            gsub: Outcome::NotChosen,
            gpos: Outcome::NotChosen,
            gdef: Outcome::NotChosen,
            kern: Outcome::NotChosen,
            left_out: Vec::new(alloc),
        }),
        Err(error) => Err(by_files(error)),
    }
}

/// Reports on standard error why a table is lost, if it is.
fn tell_lost(rt: &HostRuntime, what: &str, outcome: Outcome) -> Result<(), Failure> {
    match outcome {
        Outcome::Lost(error) => telling::tell(rt, format_args!("{what} are lost: {error}")),
        _ => Ok(()),
    }
}

/// Reports on standard error why kerning or substitutions are lost, and which lookups are left out.
pub fn tell(rt: &HostRuntime, subset: &Subset) -> Result<(), Failure> {
    tell_lost(rt, "kerning and marks", subset.gpos)?;
    tell_lost(rt, "the pairs of the kern table", subset.kern)?;
    tell_lost(rt, "substitutions", subset.gsub)?;
    if subset.left_out.is_empty() {
        return Ok(());
    }
    let list = list_of(rt.alloc(), &subset.left_out)?;
    telling::tell(
        rt,
        format_args!("GSUB lookups dropped (unknown formats, classes or sets of marks):{list}"),
    )
}
