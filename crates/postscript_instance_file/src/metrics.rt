//! The tables of an instance that are made from those of the variable font.
ghost use Rattle.std.specs.Prelude.{◌≡◌, IfErr, IfOk, length};
ghost use Rattle.postscript_base.specs.Numbers.{big_endian};
ghost use Rattle.postscript_instance_file.specs.Faces.{IsTableOrNone};
ghost use Rattle.postscript_instance_file.specs.Refusals.{HasBadMetrics, IsUnmadeBy};
ghost use Rattle.postscript_instance_file.specs.declared.made.Unmade.TheVariants as reasons;

use crate::drawn::{Drawn, Frame};
use crate::error::Error;
use crate::face::{VariableFace, read_as};
use crate::location::Location;
use crate::made::{Made, Unmade};
use crate::records::names_of;
use crate::style::Style;
use crate::values::{Entry, HHEA, OS2, POST, VHEA, set_signed, set_unsigned, set_word, vary, word};
use postscript_sfnt::FontFile;
use postscript_sfnt_write::{
    Metric, hmtx, with_number_of_glyphs, with_number_of_metrics, without_names,
};
use postscript_variation::MetricVariations;
use std::alloc::{AllocError, Global};

/// A `maxp` table of version 0.5, for no glyphs.
const MAXP: [u8; 6] = [0, 0, 0x50, 0, 0, 0];

/// The lowest widths of the width classes from 2 on, in quarters of a percent.
const WIDTHS: [i64; 8] = [225, 275, 325, 375, 425, 475, 550, 700];

/// Returns the value of the axis with a tag, in 65536ths. Returns `None` if the font has no such axis.
fn value_along(face: &VariableFace<'_>, location: &Location, tag: [u8; 4]) -> Option<i64> {
    let axes = face.axes.as_ref()?;
    for i in 0..axes.len() {
        if let Some(axis) = axes.get(i) {
            if axis.tag == u32::from_be_bytes(tag) {
                return Some(i64::from(location.value(&axis)));
            }
        }
    }
    None
}

/// Returns the width class of a width in 65536ths of a percent.
fn width_class(width: i64) -> u16 {
    let mut class = 1u16;
    for least in &WIDTHS {
        if width.saturating_mul(4) >= least.saturating_mul(65536) {
            class = class.saturating_add(1);
        }
    }
    class
}

/// Returns the average of the advances that are not 0, rounded to the nearest unit. Returns 0 if all are 0.
fn average(metrics: &[Metric]) -> i64 {
    let mut sum = 0i64;
    let mut count = 0i64;
    for metric in metrics {
        if metric.advance > 0 {
            sum = sum.saturating_add(i64::from(metric.advance));
            count = count.saturating_add(1);
        }
    }
    sum.saturating_add(count / 2)
        .checked_div(count)
        .unwrap_or(0)
}

/// Returns the greatest advance.
fn widest(metrics: &[Metric]) -> u16 {
    let mut widest = 0u16;
    for metric in metrics {
        widest = widest.max(metric.advance);
    }
    widest
}

/// The sources of the tables of an instance.
#[derive(Clone, Copy)]
struct Maker<'m, 'l> {
    alloc: Global,
    face: &'m VariableFace<'l>,
    location: &'m Location,
    drawn: &'m Drawn,
    style: &'m Style,
    metrics: Option<MetricVariations<'l>>,
}

impl<'m, 'l> Maker<'m, 'l> {
    /// Returns a table of the variable font, or no bytes if there is none.
    fn old(&self, tag: [u8; 4]) -> &'l [u8]
        ensures { IsTableOrNone self.now.face.now.file (big_endian tag) result.now }
    {
        match self.face.file.table(tag) {
            Some(table) => table,
            None => &[],
        }
    }

    /// Returns a copy of a table with its varied numbers.
    fn vary_table(&self, table: &[u8], entries: &[Entry]) -> Result<Vec<u8>, AllocError>
        ensures { IfOk result (λ new. length new.items ≡ length table.now) }
    {
        let mut new = Vec::from_slice(self.alloc, table)?;
        vary(
            &mut new,
            entries,
            &self.metrics,
            self.location.coordinates.as_slice(),
        );
        Ok(new)
    }

    /// Returns the `head` table, with the bounding box and the bold and italic bits.
    fn head(&self) -> Result<Vec<u8>, AllocError> {
        let mut head = self.vary_table(self.old(*b"head"), &[])?;
        let frame = self.drawn.frame.unwrap_or(Frame::NONE);
        set_signed(&mut head, 36, frame.left);
        set_signed(&mut head, 38, frame.bottom);
        set_signed(&mut head, 40, frame.right);
        set_signed(&mut head, 42, frame.top);
        let others = word(&head, 44) & 0xfffc;
        set_word(&mut head, 44, others | self.style.bits(1, 2, 0));
        Ok(head)
    }

    /// Returns the number of glyphs.
    fn count(&self) -> u16 {
        u16::try_from(self.drawn.metrics.len()).unwrap_or(u16::MAX)
    }

    /// Returns the `hhea` table, with the extremes of the metrics.
    fn hhea(&self) -> Result<Vec<u8>, Unmade>
        ensures { IfErr result (λ e. IsUnmadeBy self.now.face.now e) }
    {
        let mut hhea = self.vary_table(self.old(*b"hhea"), &HHEA)?;
        let frame = self.drawn.frame.unwrap_or(Frame::NONE);
        set_word(&mut hhea, 10, widest(&self.drawn.metrics));
        set_signed(&mut hhea, 12, frame.left);
        set_signed(&mut hhea, 14, self.drawn.least_right);
        set_signed(&mut hhea, 16, frame.right);
        Ok(with_number_of_metrics(self.alloc, &hhea, self.count())?)
    }

    /// Returns the `OS/2` table, with the weight, the width, and the bold, italic and regular bits.
    fn os2(&self, old: &[u8]) -> Result<Vec<u8>, AllocError> {
        let mut table = self.vary_table(old, &OS2)?;
        if let Some(weight) = value_along(self.face, self.location, *b"wght") {
            let weight = weight.saturating_add(32768).div_euclid(65536);
            set_unsigned(&mut table, 4, weight.max(1).min(1000));
        }
        if let Some(width) = value_along(self.face, self.location, *b"wdth") {
            set_word(&mut table, 6, width_class(width));
        }
        if word(&table, 0) >= 3 {
            set_signed(&mut table, 2, average(&self.drawn.metrics));
        }
        let others = word(&table, 62) & 0xff9e;
        set_word(&mut table, 62, others | self.style.bits(0x20, 1, 0x40));
        Ok(table)
    }

    /// Returns the `post` table without glyph names, with the slant and the underline.
    fn post(&self) -> Result<Vec<u8>, Unmade>
        ensures { IfErr result (λ e. e ≡ reasons.Memory) }
    {
        let old = match self.old(*b"post") {
            old if old.len() >= 32 => old,
            _ => &[0; 32],
        };
        let mut post = self.vary_table(old, &POST)?;
        if let Some(slant) = value_along(self.face, self.location, *b"slnt") {
            let slant = slant.max(-90 * 65536).min(90 * 65536);
            set_signed(&mut post, 4, slant.div_euclid(65536));
            set_unsigned(&mut post, 6, slant.rem_euclid(65536));
        }
        Ok(without_names(self.alloc, &post)?)
    }

    /// Returns the `maxp` table, with the number of glyphs.
    fn maxp(&self) -> Result<Vec<u8>, Unmade>
        ensures { IfErr result (λ e. e ≡ reasons.Memory) }
    {
        Ok(with_number_of_glyphs(self.alloc, &MAXP, self.count())?)
    }

    /// Adds the tables that every font has.
    fn put_needed(&self, made: &mut Made) -> Result<(), Unmade>
        ensures { IfErr result (λ e. IsUnmadeBy self.now.face.now e) }
    {
        made.put(*b"head", self.head()?)?;
        made.put(*b"hhea", self.hhea()?)?;
        made.put(*b"hmtx", hmtx(self.alloc, &self.drawn.metrics)?)?;
        made.put(*b"maxp", self.maxp()?)?;
        made.put(*b"name", names_of(self.alloc, self.face, self.style)?)?;
        made.put(*b"post", self.post()?)?;
        Ok(())
    }

    /// Adds the optional tables.
    fn put_others(&self, made: &mut Made) -> Result<(), AllocError> {
        let file = self.face.file;
        if let Some(table) = file.table(*b"OS/2") {
            made.put(*b"OS/2", self.os2(table)?)?;
        }
        if let (Some(table), None) = (file.table(*b"vhea"), file.table(*b"VVAR")) {
            made.put(*b"vhea", self.vary_table(table, &VHEA)?)?;
        }
        Ok(())
    }
}

/// Returns the variations of the metrics of a face, if it has them.
pub(crate) fn metric_variations<'l>(
    file: &FontFile<'l>,
) -> Result<Option<MetricVariations<'l>>, Error>
    ensures { IfErr result (λ e. HasBadMetrics file.now e) }
{
    match file.table(*b"MVAR") {
        Some(mvar) => Ok(Some(read_as("MVAR", MetricVariations::read(mvar))?)),
        None => Ok(None),
    }
}

/// Adds the tables of an instance, except the outlines.
pub(crate) fn put<'l>(
    made: &mut Made,
    alloc: Global,
    face: &VariableFace<'l>,
    location: &Location,
    drawn: &Drawn,
    style: &Style,
    metrics: Option<MetricVariations<'l>>,
) -> Result<(), Unmade>
    ensures { IfErr result (λ e. IsUnmadeBy face.now e) }
{
    let maker = Maker {
        alloc,
        face,
        location,
        drawn,
        style,
        metrics,
    };
    maker.put_needed(made)?;
    maker.put_others(made)?;
    Ok(())
}
