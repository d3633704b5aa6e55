//! `FDSelect` at a given offset.
ghost use Rattle.std.specs.Prelude.{◌≡◌, ℕ, IfSome, IfNone};
ghost use Rattle.postscript_view.specs.Select.{Selects};
ghost use Rattle.postscript_view.specs.Selecting.{SelectStandsAt, stands_prop};

use crate::select::Select;

/// The `FDSelect` of a CID-keyed font, which gives each glyph its Font DICT (Technical Note 5176, section 19).
/// `FontView` uses the `FDSelect` named by its Top DICT. This one is at an offset chosen by the caller.
#[derive(Clone, Copy)]
pub struct FdSelect<'l> {
    /// The bytes, which begin with the font.
    pub bytes: &'l [u8],
    /// The offset of `FDSelect` in these bytes.
    pub place: usize,
    /// The number of glyphs of the font.
    pub glyphs: usize,
    select: Select<'l>,
    ghost stands: { SelectStandsAt select bytes.now place glyphs } by { stands_prop select bytes.now place glyphs },
}

impl<'l> FdSelect<'l> {
    /// Opens the `FDSelect` at an offset of the bytes, for a font of `glyphs` glyphs. It may be truncated, have a
    /// format other than 0 and 3, or have ranges whose first glyphs decrease. In these cases it gives no glyph a Font
    /// DICT.
    pub fn at(bytes: &'l [u8], place: usize, glyphs: usize) -> FdSelect<'l>
        // The result keeps the bytes.
        ensures bytes { result.bytes.now ≡ bytes.now }
        // The result keeps the offset.
        ensures place { result.place ≡ place }
        // The result keeps the number of glyphs.
        ensures glyphs { result.glyphs ≡ glyphs }
    {
        FdSelect {
            bytes,
            place,
            glyphs,
            select: Select::own(bytes, place, glyphs),
        }
    }

    /// Returns the number of the Font DICT of a glyph, counted from 0. In format 0 it is the byte of the glyph, in
    /// format 3 the one of its range. Returns `None` if the glyph has none, or if the font has no such glyph, even if a
    /// range goes on past the last one. The caller must check that the font has this Font DICT.
    pub fn part_of(&self, glyph: usize) -> Option<usize>
        // If `Some`, there is such a glyph, and `FDSelect` gives it the Font DICT of this number.
        ensures found { IfSome result (λ fd. Selects self.now.bytes.now self.now.place self.now.glyphs glyph fd) }
        // If `None`, there is no such glyph, or `FDSelect` gives it no Font DICT.
        ensures none { IfNone result ((fd : ℕ) → Selects self.now.bytes.now self.now.place self.now.glyphs glyph fd → ⊥) }
    {
        self.select.part_of(glyph)
    }
}
