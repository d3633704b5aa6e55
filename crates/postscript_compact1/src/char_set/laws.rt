//! Laws about reading charsets.
ghost use Rattle.postscript_base.specs.Tape.At.{NeedsBytes};
ghost use Rattle.postscript_compact1.specs.CharSetLaw.{ReadsCharSets};
ghost use Rattle.postscript_compact1.specs.CharSets.{char_set, char_set_0, char_set_1, char_set_2};

/// States how a charset is read. It does nothing at run time.
///
/// A charset is read exactly if the bytes are one: the format byte, and SIDs or ranges for each glyph except the first.
/// It fails exactly for one of six causes (`NoCharSet`).
///
/// `CharSet0`, `CharSet1` and `CharSet2`, read directly, also fail exactly for one of theirs (`NoCharSet0`,
/// `NoCharSet1`, `NoCharSet2`). The format byte is truncated or wrong, there are no glyphs, an SID or a range is
/// truncated, or a range covers more glyphs than are left.
#[tactic(auto, using(crate::proofs::CharSetRefused::reads_char_sets))]
pub fn reads_char_sets()
    // A charset is read exactly if the bytes are one, and every error has its cause.
    ensures law { ReadsCharSets }
{}

/// States that reading a charset past the end fails, for any format or a given one. Callers of `read_given_at` need it.
/// It does nothing at run time.
#[tactic(auto, using(crate::proofs::CharSetIs::char_set_needs, crate::proofs::CharSetIs::char_set_0_needs, crate::proofs::CharSetIs::char_set_of_needs))]
pub fn char_sets_need_bytes(glyphs: usize)
    // Reading a charset past the end fails with `UnexpectedEof`.
    ensures any { NeedsBytes (char_set glyphs) }
    // Reading a charset of format 0 past the end fails with `UnexpectedEof`.
    ensures format_0 { NeedsBytes (char_set_0 glyphs) }
    // Reading a charset of format 1 past the end fails with `UnexpectedEof`.
    ensures format_1 { NeedsBytes (char_set_1 glyphs) }
    // Reading a charset of format 2 past the end fails with `UnexpectedEof`.
    ensures format_2 { NeedsBytes (char_set_2 glyphs) }
{
    let _ = glyphs;
}
