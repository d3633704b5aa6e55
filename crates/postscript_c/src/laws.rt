//! Laws of the definitions. The functions do nothing: their clauses are the laws.
ghost use Rattle.postscript_c.specs.Located.{KeepsLocations};
ghost use Rattle.postscript_c.specs.SameDrawings.{DrawsInPlace};
ghost use Rattle.postscript_c.specs.SameParts.{KeepsParts, TellsParts};

/// States that the parts for C are the parts of the font that `FontView::read` returns for the same bytes.
///
/// This is true for any font from `psf_font_open`, with any limit. A glyph has the same part number in both. Its part
/// has the same widths, and the same local subroutines unless their offset is 0. If `FontView::part_of` returns `None`,
/// C has no part.
pub fn tells_parts()
    // What C has of a glyph's part agrees with the font in place, apart from parts at offset 0.
    ensures law { TellsParts }
{}

/// States that both have the same parts and programs if no DICT of the font has the offset 0, which C takes for
/// absence.
///
/// C has a part for each glyph with a number from `FontView::part_of`, and the program from `FontView::program`. It has
/// no part for any other glyph. Then the status is 31 if there is no such glyph, 42 if there is one, and 3 if memory
/// runs out.
pub fn keeps_parts()
    // Without an offset of 0 in its DICTs, C has exactly the parts and programs of the font.
    ensures law { KeepsParts }
{}

/// States that C then draws the segments and the width that `postscript_drawing::draw_glyph` draws, for a `seac` glyph
/// with its base and its accent.
pub fn draws_in_place()
    // Without an offset of 0 in its DICTs, C draws what `draw_glyph` draws, with its width.
    ensures law { DrawsInPlace }
{}

/// States that `psf_location_outline` draws from the scalars of a location what `psf_variable_outline` draws there.
///
/// This is true for the `CFF2` table of the face, within the same limit.
pub fn keeps_locations()
    // From the scalars of a location, a glyph has the outline or the error of the location.
    ensures law { KeepsLocations }
{}
