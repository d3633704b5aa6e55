//! The glyphs that features of the `GSUB` table bring, for a page.
use super::short;
use crate::characters::Mapped;
use crate::face::Face;
use crate::layouts::tags_of;
use postscript_layout::{Error as Unread, feature_lookups};
use postscript_layout_write::{Error as Unclosed, closure_with_called};
use psotf_output::failure::Failure;
use psotf_output::limit::{BYTE, Budget};
use psotf_output::sheet::Sheet;
use psotf_output::text::Text;
use std::alloc::{AllocError, Global};

/// The cost of a glyph of a closure, in units. It takes about two bytes of the page.
const GLYPH: u64 = 2 * BYTE;

/// A feature, and the glyphs that it brings.
#[derive(Drop)]
pub struct Feature {
    pub tag: u32,
    /// The glyphs that its lookups make of glyphs with a character, and that have none. Each is written as the difference to
    /// the one before it. `None` if the search costs too much.
    pub glyphs: Option<Text>,
}

/// Returns the glyphs of characters, each once, in ascending order.
fn glyphs_of(alloc: Global, mapped: &[Mapped]) -> Result<Vec<u16>, AllocError> {
    let mut glyphs = Vec::new(alloc);
    let mut last = None;
    for one in mapped {
        if last != Some(one.glyph) {
            glyphs.push(one.glyph)?;
            last = Some(one.glyph);
        }
    }
    Ok(glyphs)
}

/// Adds the glyphs that are not among sorted ones.
fn put_others(text: &mut Text, glyphs: &[u16], sorted: &[u16]) {
    let mut last = 0i64;
    for glyph in glyphs {
        if sorted.binary_search(glyph).is_err() {
            let number = i64::from(*glyph);
            short::put(text, number.saturating_sub(last));
            last = number;
        }
    }
}

/// Returns the glyphs that the lookups of a feature, and all lookups that their contexts call, make of others. Returns `None` if
/// this costs more than what is left.
fn made_by(
    alloc: Global,
    gsub: &[u8],
    tag: u32,
    from: &[u16],
    left: &mut u64,
) -> Result<Option<Vec<u16>>, Failure> {
    let lookups = match feature_lookups(alloc, gsub, &[tag], left) {
        Ok(lookups) => lookups,
        Err(Unread::TooLong) => return Ok(None),
        Err(Unread::Memory) => return Err(Failure::from(AllocError)),
    };
    match closure_with_called(alloc, gsub, &lookups, from, left) {
        Ok(reached) => Ok(Some(reached.glyphs)),
        Err(Unclosed::Memory) => Err(Failure::from(AllocError)),
        Err(_) => Ok(None),
    }
}

/// Returns a feature with the glyphs that it brings.
fn feature_of(
    alloc: Global,
    gsub: &[u8],
    tag: u32,
    from: &[u16],
    left: &mut u64,
) -> Result<Feature, Failure> {
    let Some(glyphs) = made_by(alloc, gsub, tag, from, left)? else {
        return Ok(Feature { tag, glyphs: None });
    };
    *left = left.saturating_sub((glyphs.len() as u64).saturating_mul(GLYPH));
    let mut text = Text::new(alloc);
    put_others(&mut text, &glyphs, from);
    Ok(Feature {
        tag,
        glyphs: Some(text),
    })
}

/// Returns the features of a `GSUB` table in ascending order of their tags. All searches together cost at most `left`.
fn all_of(
    alloc: Global,
    gsub: &[u8],
    from: &[u16],
    left: &mut u64,
) -> Result<Vec<Feature>, Failure> {
    let mut features = Vec::new(alloc);
    for tag in tags_of(alloc, gsub, 6)? {
        let feature = feature_of(alloc, gsub, tag, from, left)?;
        features.push(feature)?;
    }
    Ok(features)
}

/// Returns the features of the `GSUB` table of a font, with the glyphs that they bring. The search may cost as much as one
/// glyph may.
pub fn features(
    alloc: Global,
    face: &Face<'_>,
    mapped: &[Mapped],
    budget: &mut Budget,
) -> Result<Vec<Feature>, Failure> {
    let Some(gsub) = face.source.file.table(*b"GSUB") else {
        return Ok(Vec::new(alloc));
    };
    let from = glyphs_of(alloc, mapped)?;
    let share = budget.share();
    let mut left = share;
    let found = all_of(alloc, gsub, &from, &mut left);
    budget.spend(share.saturating_sub(left));
    found
}

/// Writes features as a list: of each its tag, and its glyphs or null.
pub fn put(sheet: &mut Sheet, features: &[Feature]) {
    sheet.begin_list("features");
    for feature in features {
        sheet.begin_array();
        sheet.bytes(&feature.tag.to_be_bytes());
        match &feature.glyphs {
            Some(glyphs) => sheet.put(glyphs),
            None => sheet.null(),
        }
        sheet.end_array();
    }
    sheet.end_array();
}
