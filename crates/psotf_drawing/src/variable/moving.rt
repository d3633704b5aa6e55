//! Animated pictures of variable fonts.
use super::VariableFace;
use super::glyphs::{advance_of, count, outline_of};
use super::place::{Chosen, with_setting};
use crate::svg::{CLOSING, picture_start};
use postscript_outline::Outline;
use postscript_variation::{Axis, Setting};
use psotf_font::characters::{glyph_of, refuse_missing};
use psotf_output::failure::Failure;
use psotf_output::limit::{BYTE, Budget};
use psotf_output::saving::Output;
use psotf_output::text::Text;
use std::alloc::{AllocError, Global};
use std::io::Write;

/// The number of steps from an end of the axis to its default.
const STEPS: i64 = 4;

/// How often a path is in the picture: once in each direction, and once at the beginning.
const SHOWN: u64 = 3;

/// The duration of one movement to the other end and back, repeated forever.
const TIME: &str = "dur=\"8s\" repeatCount=\"indefinite\"";

/// Glyphs at a location: their paths, their positions and their total width.
#[derive(Drop)]
struct Frame {
    paths: Vec<String>,
    starts: Vec<i64>,
    width: i64,
}

/// Returns the value at a step from one value to another.
fn value_at_step(from: i32, to: i32, step: i64) -> i32 {
    let way = i64::from(to).saturating_sub(i64::from(from));
    let gone = way.saturating_mul(step) / STEPS;
    i32::try_from(i64::from(from).saturating_add(gone)).unwrap_or(to)
}

/// Returns the value of the axis at a stop from -STEPS to STEPS. It goes from the minimum over the default, at which
/// the variation may change direction, to the maximum. Returns `None` if the axis does not have the stop.
fn stop(axis: &Axis, number: i64) -> Option<i32> {
    if number >= STEPS {
        Some(axis.maximum)
    } else if number >= 0 {
        Some(value_at_step(axis.default, axis.maximum, number))
    } else if axis.minimum < axis.default {
        Some(value_at_step(axis.minimum, axis.default, number.saturating_add(STEPS)))
    } else {
        None
    }
}

/// Returns the glyph with a number, or the glyphs of a text.
fn glyphs_of(
    alloc: Global,
    face: &VariableFace<'_>,
    gid: Option<u16>,
    text: &str,
) -> Result<Vec<u16>, AllocError> {
    let mut gids = Vec::new(alloc);
    if let Some(gid) = gid {
        gids.push(gid)?;
        return Ok(gids);
    }
    for char in text.chars() {
        gids.push(glyph_of(&face.common.map, u32::from(char)))?;
    }
    Ok(gids)
}

/// Returns the first of the glyphs that the font does not have.
fn first_missing(face: &VariableFace<'_>, gids: &[u16]) -> Option<u16> {
    for gid in gids {
        if *gid >= count(face) {
            return Some(*gid);
        }
    }
    None
}

/// Returns the glyph with a number, or the glyphs of a text. It fails if the font does not have them.
pub fn chosen_glyphs(
    alloc: Global,
    face: &VariableFace<'_>,
    gid: Option<u16>,
    text: &str,
) -> Result<Vec<u16>, Failure> {
    if gid.is_none() {
        refuse_missing(alloc, &face.common.map, text)?;
    }
    let gids = glyphs_of(alloc, face, gid, text)?;
    match first_missing(face, &gids) {
        Some(gid) => Err(Failure::no_glyph(u32::from(gid))),
        None => Ok(gids),
    }
}

impl Frame {
    /// Adds a glyph to the right of the others.
    fn put(
        &mut self,
        alloc: Global,
        outline: &Outline,
        advance: i64,
        budget: &mut Budget,
    ) -> Result<(), AllocError> {
        let path = format!(in alloc; "{outline}")?;
        budget.spend((path.len() as u64).saturating_mul(BYTE * SHOWN));
        self.paths.push(path)?;
        self.starts.push(self.width)?;
        self.width = self.width.saturating_add(advance);
        Ok(())
    }

    /// Adds glyphs from left to right, at a location.
    fn put_all(
        &mut self,
        alloc: Global,
        face: &VariableFace<'_>,
        gids: &[u16],
        chosen: &Chosen,
        budget: &mut Budget,
    ) -> Result<(), Failure> {
        for gid in gids {
            match outline_of(alloc, face, *gid, chosen, budget) {
                Ok(outline) => {
                    let advance = advance_of(face, *gid, chosen);
                    self.put(alloc, &outline, advance, budget)?;
                }
                Err(refusal) => return Err(Failure::glyph(*gid, &refusal)),
            }
        }
        Ok(())
    }
}

/// Adds the glyphs at a value of the axis.
fn put_frame(
    alloc: Global,
    face: &VariableFace<'_>,
    along: Setting,
    gids: &[u16],
    chosen: &Chosen,
    budget: &mut Budget,
    frames: &mut Vec<Frame>,
) -> Result<(), Failure> {
    let place = with_setting(alloc, face, chosen, along)?;
    let mut frame = Frame {
        paths: Vec::new(alloc),
        starts: Vec::new(alloc),
        width: 0,
    };
    frame.put_all(alloc, face, gids, &place, budget)?;
    Ok(frames.push(frame)?)
}

/// Adds the glyphs at each stop of the axis.
fn put_frames(
    alloc: Global,
    face: &VariableFace<'_>,
    axis: &Axis,
    gids: &[u16],
    chosen: &Chosen,
    budget: &mut Budget,
    frames: &mut Vec<Frame>,
) -> Result<(), Failure> {
    for number in -STEPS..=STEPS {
        if let Some(value) = stop(axis, number) {
            let tag = axis.tag;
            let along = Setting { tag, value };
            put_frame(alloc, face, along, gids, chosen, budget, frames)?;
        }
    }
    Ok(())
}

/// Returns the number of frames shown in both directions.
fn frame_count(frames: &[Frame]) -> usize {
    frames.len().saturating_mul(2).saturating_sub(1)
}

/// Returns the frame that is shown with a number.
fn frame_at(frames: &[Frame], number: usize) -> Option<&Frame> {
    let last = frames.len().saturating_sub(1);
    if number <= last {
        frames.get(number)
    } else {
        frames.get(last.saturating_mul(2).saturating_sub(number))
    }
}

/// Returns the path of a glyph in the frame that is shown with a number.
fn path_at(frames: &[Frame], number: usize, glyph: usize) -> Option<&str> {
    let path = frame_at(frames, number)?.paths.get(glyph)?;
    Some(path.as_str())
}

/// Writes the element that animates the path of a glyph, and what `picture` has before it.
fn put_shapes<W: Write>(
    rt: &HostRuntime,
    picture: &mut Text,
    frames: &[Frame],
    glyph: usize,
    output: &mut Output<'_>,
    out: &mut W,
) -> Result<(), Failure> {
    picture.push_str("<animate attributeName=\"d\" ");
    picture.push_str(TIME);
    picture.push_str(" values=\"");
    let mut lead = "";
    for number in 0..frame_count(frames) {
        if let Some(path) = path_at(frames, number, glyph) {
            picture.push_str(lead);
            picture.push_str(path);
            lead = ";";
            output.take(rt, picture, out)?;
        }
    }
    picture.push_str("\"/>\n");
    Ok(())
}

/// Adds the element that animates the position of a glyph.
fn put_starts(picture: &mut Text, frames: &[Frame], glyph: usize) {
    picture.push_str("<animateTransform attributeName=\"transform\" type=\"translate\" ");
    picture.push_str(TIME);
    picture.push_str(" values=\"");
    let mut lead = "";
    for number in 0..frame_count(frames) {
        if let Some(frame) = frame_at(frames, number) {
            if let Some(start) = frame.starts.get(glyph) {
                picture.push_str(lead);
                picture.write_fmt(start);
                picture.push_str(" 0");
                lead = ";";
            }
        }
    }
    picture.push_str("\"/>\n");
}

/// Writes a glyph as an animated element. It begins with the first frame.
fn put_glyph<W: Write>(
    rt: &HostRuntime,
    picture: &mut Text,
    frames: &[Frame],
    glyph: usize,
    output: &mut Output<'_>,
    out: &mut W,
) -> Result<(), Failure> {
    let Some(first) = frames.first() else {
        return Ok(());
    };
    if let (Some(start), Some(path)) = (first.starts.get(glyph), first.paths.get(glyph)) {
        picture.push_str("<path transform=\"translate(");
        picture.write_fmt(start);
        picture.push_str(" 0)\" d=\"");
        picture.push_str(path.as_str());
        picture.push_str("\">\n");
        put_shapes(rt, picture, frames, glyph, output, out)?;
        put_starts(picture, frames, glyph);
        picture.push_str("</path>\n");
    }
    Ok(())
}

/// Returns the width of the widest frame.
fn width_of(frames: &[Frame]) -> i64 {
    let mut width = 0i64;
    for frame in frames {
        width = width.max(frame.width);
    }
    width
}

/// Writes the animated elements of `glyphs` glyphs.
fn write_picture<W: Write>(
    rt: &HostRuntime,
    units: u16,
    frames: &[Frame],
    glyphs: usize,
    output: &mut Output<'_>,
    out: &mut W,
) -> Result<(), Failure> {
    let mut picture = picture_start(rt.alloc(), units, width_of(frames));
    for glyph in 0..glyphs {
        put_glyph(rt, &mut picture, frames, glyph, output, out)?;
    }
    output.take(rt, &mut picture, out)?;
    output.put(rt, CLOSING, out)
}

/// Writes a picture of glyphs, animated along an axis and back, to a file if there is a path, and otherwise to standard
/// output. It draws all glyphs first.
pub fn write<W: Write>(
    rt: &HostRuntime,
    face: &VariableFace<'_>,
    axis: &Axis,
    gids: &[u16],
    chosen: &Chosen,
    path: Option<&str>,
    budget: &mut Budget,
    out: &mut W,
) -> Result<(), Failure> {
    let mut frames = Vec::new(rt.alloc());
    put_frames(rt.alloc(), face, axis, gids, chosen, budget, &mut frames)?;
    let mut output = Output::open(rt, path)?;
    let units = face.common.units;
    let written = write_picture(rt, units, &frames, gids.len(), &mut output, out);
    output.end(rt, written)
}
