//! A glyph or a line of text as a picture.
use crate::glyphs::Glyphs;
use postscript_outline::Outline;
use psotf_output::failure::Failure;
use psotf_output::limit::{BYTE, Budget};
use psotf_output::text::Text;
use std::alloc::Global;
use std::fmt::Display;

/// The namespace of SVG elements.
pub const SVG: &str = "http://www.w3.org/2000/svg";

/// Adds the path of a glyph at the position `x`.
fn put_path<N: Display + Drop>(picture: &mut Text, x: N, outline: &Outline) {
    picture.push_str("<path transform=\"translate(");
    picture.write_fmt(x);
    picture.push_str(" 0)\" d=\"");
    picture.write_fmt(outline);
    picture.push_str("\"/>\n");
}

/// Adds the path of a glyph at the position `x`. Returns its advance.
pub fn put<G: Glyphs>(
    alloc: Global,
    glyphs: &G,
    gid: u16,
    x: i64,
    budget: &mut Budget,
    picture: &mut Text,
) -> Result<i64, Failure> {
    if gid >= glyphs.count() {
        return Err(Failure::no_glyph(u32::from(gid)));
    }
    match glyphs.outline(alloc, gid, budget) {
        Ok(outline) => {
            let before = picture.as_str().len();
            put_path(picture, x, &outline);
            let bytes = picture.as_str().len().saturating_sub(before);
            budget.spend((bytes as u64).saturating_mul(BYTE));
            Ok(glyphs.advance(gid))
        }
        Err(refusal) => Err(Failure::glyph(gid, &refusal)),
    }
}

/// Adds the paths of a text. Returns its width.
pub fn put_text<G: Glyphs>(
    alloc: Global,
    glyphs: &G,
    text: &str,
    budget: &mut Budget,
    picture: &mut Text,
) -> Result<i64, Failure> {
    let Some(map) = glyphs.map() else {
        return Err(Failure::no_part("character map"));
    };
    let mut x = 0i64;
    for char in text.chars() {
        if picture.has_failed() {
            break;
        }
        let gid = map.glyph_of(u32::from(char));
        x = x.saturating_add(put(alloc, glyphs, gid, x, budget, picture)?);
    }
    Ok(x)
}

/// The end of a picture of paths on a line.
pub const CLOSING: &[u8] = b"</g>\n</svg>\n";

/// Returns the beginning of a picture of paths on a line, with `units` units per em.
pub fn picture_start(alloc: Global, units: u16, width: i64) -> Text {
    let units = u64::from(units);
    let height = units.saturating_mul(2);
    let mut text = Text::new(alloc);
    write!(
        text,
        "<svg xmlns=\"{SVG}\" viewBox=\"0 -{units} {width} {height}\">\n<g transform=\"scale(1 -1)\">\n"
    );
    text
}
