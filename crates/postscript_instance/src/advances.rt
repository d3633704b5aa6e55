//! Advance widths at a location (OpenType 1.9, "hmtx - Horizontal Metrics Table", "HVAR - Horizontal Metrics Variations
//! Table").
ghost use Rattle.std.specs.Prelude.{◌≡◌, pos, ◌+ℤ◌, IfOk, IfErr};
ghost use Rattle.postscript_instance.specs.Advances.{AreAdvancesAt, HasNoOperand, IsAdded, IsAdvanceAt, IsOperand, LacksRoom};

use crate::error::{Error, Result};
use postscript_sfnt::Advances;
use postscript_type2::Operand;
use postscript_variation::{AdvanceVariations, in_whole};
use std::alloc::Global;

/// The advance widths of a face at a location: the default ones and their variations.
#[derive(Clone, Copy)]
pub struct AdvancesAt<'l> {
    /// The default advance widths, from the `hmtx` table.
    pub default: Advances<'l>,
    /// The variations, from the `HVAR` table. `None` if the face has none: then advance widths do not vary.
    pub variations: Option<AdvanceVariations<'l>>,
    /// The location: normalized coordinates in units of 2 ^ -14, one for each axis.
    pub coordinates: &'l [i16],
}

impl<'l> AdvancesAt<'l> {
    /// The variation of the advance width of a glyph.
    fn variation_of(&self, glyph: usize) -> i64
        ensures { IsAdded self.now.variations glyph self.now.coordinates.now result }
    {
        match self.variations {
            Some(variations) => match variations.variation(glyph, self.coordinates) {
                Some(total) => in_whole(total),
                None => 0,
            },
            None => 0,
        }
    }

    /// Returns the advance width of a glyph at the location, in font units.
    ///
    /// It is the default one plus the variation, rounded to the nearest unit, and up if it is halfway. A glyph without
    /// data in `HVAR` does not vary.
    pub fn of(&self, glyph: u16) -> i128
        // The result is the advance in `hmtx` plus the rounded variation of the glyph, if any.
        ensures { IsAdvanceAt self.now glyph result }
    {
        let added = self.variation_of(usize::from(glyph));
        i128::from(self.default.of(glyph)) + i128::from(added)
    }

    /// The advance width of a glyph as the width of a charstring.
    fn operand(&self, glyph: usize) -> Result<Operand>
        ensures is { IfOk result (λ operand. IsOperand self.now glyph operand) }
        ensures refused { IfErr result (λ e. HasNoOperand self.now glyph e) }
    {
        let Ok(number) = u16::try_from(glyph) else {
            return Err(Error::TooLarge);
        };
        let advance = self.of(number);
        match i16::try_from(advance) {
            Ok(width) if width >= 0 => Ok(Operand::from_int(width)),
            _ => Err(Error::Advance(glyph)),
        }
    }

    /// Returns the advance widths of the first `glyphs` glyphs, as widths of charstrings in 16.16 numbers.
    ///
    /// # Errors
    ///
    /// - `Advance`: an advance width is not from 0 to 32767. The first such glyph is given.
    /// - `TooLarge`: there are more than 65,536 glyphs.
    /// - `Font` with `Memory`: out of memory.
    pub fn operands(&self, alloc: Global, glyphs: usize) -> Result<Vec<Operand>>
        // The list has the advance width of each of these glyphs, times 65536.
        ensures are { IfOk result (λ operands. AreAdvancesAt self.now glyphs operands.items) }
        // An error is the first glyph with a wrong advance, `TooLarge` for the count, or `Memory`.
        ensures refused { IfErr result (λ e. LacksRoom self.now glyphs e) }
    {
        let mut operands = Vec::new(alloc);
        for glyph in 0..glyphs {
            operands.push(self.operand(glyph)?)?;
        }
        Ok(operands)
    }
}
