//! The glyphs of a subset, under their old numbers.
ghost use Rattle.std.specs.Prelude.{◌≡◌, IfOk, IfErr};
ghost use Rattle.postscript_files.specs.Origins.{AreAllNamed, AreFew, AreOriginsOf, AreSmall, HasGlyphs, IsUnopened, NoOriginsOf};
ghost use Rattle.postscript_files.specs.Subsets.{AreSequenceGlyphs};
ghost use Rattle.postscript_files.specs.declared.error.Error.TheVariants as errors;

use crate::choice::{Choice, glyphs_of_choice, kept_pairs};
use crate::error::{Error, Result};
use crate::face::Face;
use crate::sequences::sequence_glyphs;
use crate::subset::origins_of;
use postscript_view::FontView;
use std::alloc::Global;

impl Face<'_> {
    /// Returns the number of glyphs in the `CFF ` table.
    ///
    /// # Errors
    ///
    /// - `Font`: the `CFF ` table is malformed.
    /// - `Memory`: out of memory.
    pub fn number_of_glyphs(&self, alloc: Global) -> Result<usize>
        // The number is that of the charstrings.
        ensures counted { IfOk result (λ count. HasGlyphs self.now count) }
        // An error is `Memory`, or it is justified by the `CFF ` table.
        ensures refused { IfErr result (λ e. IsUnopened self.now.cff.now e) }
    {
        match FontView::read(alloc, self.cff) {
            Ok(font) => Ok(font.char_strings.len()),
            Err(error) => Err(Error::Font(postscript_write::Error::Refused(error))),
        }
    }

    /// Returns the glyphs that a subset is made for: the chosen ones, and those of kept characters. A glyph can be in the
    /// list more than once. A missing character is no error.
    ///
    /// # Errors
    ///
    /// - `Memory`: out of memory.
    pub fn named_glyphs(&self, alloc: Global, choice: &Choice<'_>) -> Result<Vec<usize>>
        // A glyph is in the list exactly if it is chosen, or if it is that of a kept character.
        ensures named { IfOk result (λ named. AreAllNamed choice.now self.now named.items) }
        // The only error is `Memory`.
        ensures memory { IfErr result (λ e. e ≡ errors.Memory) }
    {
        let pairs = kept_pairs(alloc, &self.map, choice)?;
        glyphs_of_choice(alloc, choice, &pairs)
    }

    /// Returns the glyphs of the variation sequences of all kept characters (`cmap` format 14), with any selector. A glyph can
    /// be in the list more than once. There are none if the sequences cost more than 20,000,000 units: for each selector
    /// one, and one for each kept character and for each range and mapping of the selector.
    ///
    /// [`Face::subset`] keeps a sequence only if its glyph is kept, so add these glyphs to `choice.unmapped`.
    ///
    /// # Errors
    ///
    /// - `Memory`: out of memory.
    pub fn sequence_glyphs(&self, alloc: Global, choice: &Choice<'_>) -> Result<Vec<usize>>
        // The list has exactly the glyphs of sequences of kept characters, if the limit suffices.
        ensures glyphs { IfOk result (λ glyphs. AreSequenceGlyphs choice.now self.now glyphs.items) }
        // Each is below 65,536.
        ensures small { IfOk result (λ glyphs. AreSmall glyphs.items) }
        // The only error is `Memory`.
        ensures memory { IfErr result (λ e. e ≡ errors.Memory) }
    {
        let pairs = kept_pairs(alloc, &self.map, choice)?;
        sequence_glyphs(alloc, self.cmap, &pairs)
    }

    /// Returns the origins of the glyphs of a subset: glyph `i` of the new face is the old glyph at index `i`.
    ///
    /// The list has `.notdef`, the glyphs of all kept characters, the chosen glyphs, and the components of `seac` glyphs among
    /// them, in ascending order. If `choice.retain_gids` is set, it has all glyphs of the face. A missing character is no
    /// error.
    ///
    /// # Errors
    ///
    /// - `Font`: the `CFF ` table is malformed, or a chosen glyph is missing, or no glyph is kept, or (`TooLong`) the runs of
    ///   the kept glyphs cost more than `choice.limit`. If there is a limit and glyphs get new numbers, it is an error that
    ///   the charstring of a kept glyph fails.
    /// - `Memory`: out of memory.
    pub fn origins(&self, alloc: Global, choice: &Choice<'_>) -> Result<Vec<usize>>
        // The old glyphs that the new glyphs are made of, in the order of the new numbers.
        ensures are { IfOk result (λ origins. AreOriginsOf choice.now self.now origins.items) }
        // There are fewer than 65,536, each below 65,536.
        ensures few { IfOk result (λ origins. AreFew origins.items) }
        // An error is `Memory`, or it is justified by the font or the chosen glyphs.
        ensures refused { IfErr result (λ e. NoOriginsOf choice.now self.now e) }
    {
        let pairs = kept_pairs(alloc, &self.map, choice)?;
        let named = glyphs_of_choice(alloc, choice, &pairs)?;
        let Choice {
            retain_gids,
            limit,
            ..
        } = *choice;
        origins_of(alloc, self.cff, &named, retain_gids, limit)
    }
}
