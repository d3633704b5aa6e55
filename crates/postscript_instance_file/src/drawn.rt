//! The glyphs of an instance, drawn within the limit and measured.
ghost use Rattle.std.specs.Prelude.{◌≡◌, ◌⊎◌, ◌/◌, ◌≤◌, [], IfErr, IfOk, OnOk};
ghost use Rattle.postscript_instance.specs.Advances.{LacksRoom};
ghost use Rattle.postscript_instance_file.specs.Glyphs.{HasNoWidths, HaveWidths, IsPaid, IsUndrawnBy, NamesUndrawn, glyphs_in};
ghost use Rattle.postscript_instance_file.specs.Instances.{AreAdvancesAt};
ghost use Rattle.postscript_instance_file.specs.Refusals.{AreUndrawn};
ghost use Rattle.postscript_instance_file.specs.declared.error.Error.TheVariants as errors;
ghost use Rattle.postscript_instance_file.specs.declared.error.GlyphError.{GlyphError as Cause};

use crate::error::{Error, GlyphError};
use crate::face::VariableFace;
use crate::held::Held;
use crate::instance::Watch;
use crate::location::Location;
use postscript_drawing::Error as Undrawn;
use postscript_instance::{AdvancesAt, Error as Unwritten};
use postscript_outline::{Bounds, Outline, Point, Segment};
use postscript_sfnt_write::Metric;
use postscript_type2::Operand;
use postscript_variable_font::draw_glyph;
use std::alloc::Global;

/// The part of the limit that a glyph may cost here, since all its operations are kept in memory while it is written.
const HELD: u64 = 40;

/// The units of the limit for each segment that a glyph may keep. With a limit of 20,000,000 a glyph has at most 400,000
/// segments.
const ROOM: u64 = 50;

/// The work that glyphs may take, in units of a run.
#[derive(Clone, Copy)]
pub(crate) struct Budget {
    /// The most that a glyph may cost.
    pub(crate) limit: u64,
    /// The rest for all glyphs.
    pub(crate) left: u64,
}

/// A rectangle in whole font units.
#[derive(Clone, Copy)]
pub(crate) struct Frame {
    pub(crate) left: i64,
    pub(crate) bottom: i64,
    pub(crate) right: i64,
    pub(crate) top: i64,
}

impl Frame {
    /// The empty rectangle at the origin.
    pub(crate) const NONE: Frame = Frame {
        left: 0,
        bottom: 0,
        right: 0,
        top: 0,
    };

    /// Returns the smallest rectangle around bounds in 65536ths.
    fn round(bounds: Bounds) -> Frame {
        Frame {
            left: i64::from(bounds.low.x).div_euclid(65536),
            bottom: i64::from(bounds.low.y).div_euclid(65536),
            right: i64::from(bounds.high.x)
                .saturating_add(65535)
                .div_euclid(65536),
            top: i64::from(bounds.high.y)
                .saturating_add(65535)
                .div_euclid(65536),
        }
    }

    /// Returns the smallest rectangle around both.
    fn with(self, other: Frame) -> Frame {
        Frame {
            left: self.left.min(other.left),
            bottom: self.bottom.min(other.bottom),
            right: self.right.max(other.right),
            top: self.top.max(other.top),
        }
    }
}

/// The metrics of the glyphs of an instance.
#[derive(Drop)]
pub(crate) struct Drawn {
    /// The advance and the left side bearing of each glyph.
    pub(crate) metrics: Vec<Metric>,
    /// The advance of each glyph.
    pub(crate) widths: Vec<Operand>,
    /// The rectangle around all glyphs. `None` if no glyph has a contour.
    pub(crate) frame: Option<Frame>,
    /// The smallest right side bearing of glyphs with contours.
    pub(crate) least_right: i64,
}

/// Rounds 65536ths to whole units, halves up. A value whose result is out of range is returned unchanged, and is
/// rejected later.
fn nearest(bits: i32) -> i32 {
    let up = i64::from(bits) + 32768;
    i32::try_from(up - up.rem_euclid(65536)).unwrap_or(bits)
}

/// Rounds a point to whole units.
fn nearest_point(point: Point) -> Point {
    Point {
        x: nearest(point.x),
        y: nearest(point.y),
    }
}

/// Rounds the points of a segment to whole units.
fn nearest_segment(segment: Segment) -> Segment {
    match segment {
        Segment::MoveTo(at) => Segment::MoveTo(nearest_point(at)),
        Segment::LineTo(at) => Segment::LineTo(nearest_point(at)),
        Segment::CurveTo(first, second, at) => Segment::CurveTo(
            nearest_point(first),
            nearest_point(second),
            nearest_point(at),
        ),
        Segment::Close => Segment::Close,
    }
}

/// Draws a glyph into an empty list, within its share.
fn draw_into(
    alloc: Global,
    face: &VariableFace<'_>,
    gid: u16,
    location: &Location,
    budget: &mut Budget,
    held: &mut Held,
) -> Result<(), GlyphError>
    requires empty { held.old.segments.items ≡ [] }
    requires room { held.old.most ≡ budget.old.limit / ROOM }
    ensures limit { budget.new.limit ≡ budget.old.limit }
    ensures spends { budget.new.left ≤ budget.old.left }
    ensures pays { OnOk result (IsPaid face.now location.now gid budget.old.left budget.new.left) }
    ensures why { IfErr result (λ cause. IsUndrawnBy face.now location.now budget.old.limit budget.old.left gid cause) }
{
    let share = budget.limit.min(budget.left);
    let mut left = share;
    let glyph = usize::from(gid);
    let drawn = draw_glyph(alloc, &face.font, glyph, &location.place, &mut left, held);
    let taken = share.saturating_sub(left);
    budget.left = budget.left.saturating_sub(taken);
    let most = budget.limit / HELD;
    match drawn {
        Ok(()) if taken > most => Err(GlyphError::Held(most)),
        Ok(()) => Ok(()),
        Err(error) if held.stops(&error) => Err(GlyphError::Segments(held.most)),
        Err(Undrawn::Font(fault)) => Err(GlyphError::Run(fault)),
        Err(Undrawn::NoSuchGlyph(_)) => Err(GlyphError::NoPart),
        Err(Undrawn::TooLong) if share < budget.limit => Err(GlyphError::UsedUp),
        Err(Undrawn::TooLong) => Err(GlyphError::TooLong(budget.limit)),
        Err(error) => Err(GlyphError::Undrawn(error)),
    }
}

/// Returns the rectangle around a glyph, within its share. Returns `None` if it draws nothing.
fn frame_of(
    alloc: Global,
    face: &VariableFace<'_>,
    gid: u16,
    location: &Location,
    budget: &mut Budget,
    is_rounded: bool,
) -> Result<Option<Frame>, Error>
    ensures limit { budget.new.limit ≡ budget.old.limit }
    ensures spends { budget.new.left ≤ budget.old.left }
    ensures pays { OnOk result (IsPaid face.now location.now gid budget.old.left budget.new.left) }
    ensures why { IfErr result (λ e. (cause : Cause) × IsUndrawnBy face.now location.now budget.old.limit budget.old.left gid cause
        × (e ≡ errors.Glyph gid cause)) }
{
    let mut held = Held::new(alloc, budget.limit / ROOM);
    if let Err(error) = draw_into(alloc, face, gid, location, budget, &mut held) {
        return Err(Error::Glyph(gid, error));
    }
    let mut segments = held.segments;
    if is_rounded {
        for segment in &mut segments {
            *segment = nearest_segment(*segment);
        }
    }
    let outline = Outline {
        segments,
        width_difference: None,
    };
    Ok(outline.tight_bounds().map(Frame::round))
}

/// Returns the number of a glyph in 16 bits. Greater numbers are cut to the greatest one.
pub(crate) fn gid_of(glyph: usize) -> u16
    ensures { result ≤ glyph }
{
    if glyph < 65535 { glyph as u16 } else { 65535 }
}

/// Returns the error of advances that a charstring cannot hold.
fn unheld(
    face: &VariableFace<'_>,
    location: &Location,
    advances: &AdvancesAt<'_>,
    error: Unwritten,
) -> Error
    requires are { AreAdvancesAt face.now location.now.coordinates.items advances.now }
    requires lacks { LacksRoom advances.now (glyphs_in face.now) error }
    ensures { HasNoWidths face.now location.now result }
{
    match error {
        Unwritten::Advance(glyph) => match u16::try_from(glyph) {
            Ok(gid) => Error::Glyph(gid, GlyphError::Advance(advances.of(gid))),
            Err(_) => Error::Table(Unwritten::Advance(glyph)),
        },
        error => Error::Table(error),
    }
}

/// Returns the advances of all glyphs. It fails if a charstring cannot hold one.
fn widths_of(
    alloc: Global,
    face: &VariableFace<'_>,
    location: &Location,
) -> Result<Vec<Operand>, Error>
    ensures found { IfOk result (λ widths. HaveWidths face.now location.now widths.items) }
    ensures why { IfErr result (λ e. HasNoWidths face.now location.now e) }
{
    let advances = face.advances_at(&location.coordinates);
    match advances.operands(alloc, face.font.char_strings.len()) {
        Ok(widths) => Ok(widths),
        Err(error) => Err(unheld(face, location, &advances, error)),
    }
}

/// Converts an advance from 0 to 32767 to whole units.
fn whole(width: Operand) -> u16 {
    match width.to_int() {
        Some(width) => width.cast_unsigned(),
        None => 0,
    }
}

impl Drawn {
    fn put(&mut self, width: u16, frame: Option<Frame>) -> Result<(), Error>
        ensures kept { self.new.widths ≡ self.old.widths }
        ensures memory { IfErr result (λ e. e ≡ errors.Memory) }
    {
        let bearing = match frame {
            Some(frame) => frame.left.max(-32768).min(32767) as i16,
            None => 0,
        };
        self.metrics.push(Metric {
            advance: width,
            bearing,
        })?;
        if let Some(frame) = frame {
            let right = i64::from(width).saturating_sub(frame.right);
            self.least_right = self.least_right.min(right);
            self.frame = match self.frame {
                Some(other) => Some(frame.with(other)),
                None => Some(frame),
            };
        }
        Ok(())
    }

    /// Draws and measures `glyphs` glyphs. It fails at the first glyph that has an error or costs more than its share.
    fn put_each<W: Watch>(
        &mut self,
        alloc: Global,
        face: &VariableFace<'_>,
        location: &Location,
        budget: &mut Budget,
        glyphs: u16,
        is_rounded: bool,
        watch: &mut W,
    ) -> Result<(), Error>
        requires { glyphs ≤ glyphs_in face.now }
        ensures kept { self.new.widths ≡ self.old.widths }
        ensures spends { budget.new.left ≤ budget.old.left }
        ensures why { IfErr result (λ e. (e ≡ errors.Memory) ⊎ NamesUndrawn face.now location.now budget.old.limit budget.old.left e) }
    {
        for gid in 0..glyphs {
            watch.at_glyph(gid);
            let width = self
                .widths
                .get(usize::from(gid))
                .map_or(0, |width: &Operand| whole(*width));
            let frame = frame_of(alloc, face, gid, location, budget, is_rounded)?;
            self.put(width, frame)?;
        }
        Ok(())
    }

    /// Draws and measures each glyph at a location, with rounded points if `is_rounded` is true. It fails at the first
    /// glyph whose advance a charstring cannot hold, and then at the first glyph with an error.
    pub(crate) fn draw_all<W: Watch>(
        alloc: Global,
        face: &VariableFace<'_>,
        location: &Location,
        budget: &mut Budget,
        is_rounded: bool,
        watch: &mut W,
    ) -> Result<Drawn, Error>
        ensures widths { IfOk result (λ drawn. HaveWidths face.now location.now drawn.widths.items) }
        ensures spends { budget.new.left ≤ budget.old.left }
        ensures why { IfErr result (λ e. AreUndrawn budget.old.limit budget.old.left face.now location.now e) }
    {
        let glyphs = gid_of(face.font.char_strings.len());
        let mut drawn = Drawn {
            metrics: Vec::new(alloc),
            widths: widths_of(alloc, face, location)?,
            frame: None,
            least_right: 32767,
        };
        drawn.put_each(alloc, face, location, budget, glyphs, is_rounded, watch)?;
        Ok(drawn)
    }
}
