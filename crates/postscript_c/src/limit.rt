//! The runs of all glyphs of a font within a limit.
ghost use Rattle.std.specs.Prelude.{◌≡◌, ℕ, pos};
ghost use Rattle.postscript_view.specs.Fitting.{AllFit};
ghost use Rattle.postscript_c.specs.Fitting.{FirstFits, TellsFits, TellsFitsIn};

use crate::status::TOO_LONG;
use crate::told::status;
use postscript_view::FontView;
use std::alloc::Global;

/// Reports whether the glyphs of an open font fit a limit.
fn tell_fits_in(alloc: Global, font: &FontView<'_>, limit: &mut u64) -> i32
    ensures fits { result ≡ pos 0 → AllFit font.now limit.old }
    ensures told { TellsFitsIn font.now limit.old result limit.new }
{
    match font.fits(alloc, limit) {
        Ok(true) => 0,
        Ok(false) => TOO_LONG,
        Err(e) => status(&e),
    }
}

/// Reports whether the glyphs of the font at the beginning of the bytes fit a limit.
pub(crate) fn tell_fits(alloc: Global, bytes: &[u8], limit: &mut u64) -> i32
    ensures fits { result ≡ pos 0 → FirstFits bytes.now limit.old }
    ensures told { TellsFits bytes.now limit.old result limit.new }
{
    match FontView::read_font(alloc, bytes, 0) {
        Ok(font) => tell_fits_in(alloc, &font, limit),
        Err(e) => status(&e),
    }
}

/// The same, without the rest of the limit.
pub(crate) fn tell_fits_at_once(alloc: Global, bytes: &[u8], limit: u64) -> i32
    ensures fits { result ≡ pos 0 → FirstFits bytes.now limit }
    ensures told { (left : ℕ) × TellsFits bytes.now limit result left }
{
    let mut left = limit;
    tell_fits(alloc, bytes, &mut left)
}

/// The result for a glyph within the limit of its font.
#[derive(Drop)]
pub(crate) enum Kept<T> {
    /// The result of its run.
    Told(T),
    /// There is no such glyph.
    NoGlyph,
    /// Its run exceeds the limit.
    TooLong,
}
