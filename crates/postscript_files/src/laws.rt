//! Laws of faces and subsets. The functions do nothing: their clauses are the laws.
ghost use Rattle.postscript_files.specs.Made.{KeptAreTheSame};
ghost use Rattle.postscript_files.specs.Readings.{ReadingsAgree};

/// States that each glyph that `kept_glyphs` returns is drawn like the glyph at its index in the font that `subset`
/// writes, and has the same name and advance width.
pub fn kept_are_the_same()
    // Glyph `i` of the new font is drawn and named as kept glyph `i`, and has its advance width.
    ensures law { KeptAreTheSame }
{}

/// States that two readings of one face have the same tables, characters and advance widths. So what a contract says of one of
/// them holds for the other.
pub fn readings_agree()
    // Two readings of a face have the same tables, glyphs of characters, and advances.
    ensures law { ReadingsAgree }
{}
