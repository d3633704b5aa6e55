//! Laws about reading an INDEX, its dictionaries and its texts.
ghost use Rattle.std.specs.Prelude.{pos};
ghost use Rattle.postscript_base.specs.Tape.At.{NeedsBytes};
ghost use Rattle.postscript_base.specs.Tape.Onward.{TakesBytes};
ghost use Rattle.postscript_compact1.specs.Index.{index};
ghost use Rattle.postscript_compact1.specs.IndexLaw.{ReadsIndices};
ghost use Rattle.postscript_compact1.specs.ItemsLaw.{ReadsItems};
ghost use Rattle.postscript_compact1.specs.Kinds.{char_strings};
ghost use Rattle.postscript_compact1.specs.TextsLaw.{AgreesWithStd, KeepsUtf8};

use postscript_base::compact1::laws::reads_dictionaries;

/// States how an INDEX is read. It does nothing at run time.
///
/// An INDEX is read exactly if the bytes at the offset are one: a count, the offset size, offsets that begin with 1 and
/// increase, and the slices between them. For callers of `read_at` and `read_to_end` it also states that reading takes
/// at least one byte, stays within the bytes, and fails past the end.
#[tactic(auto, using(crate::proofs::IndexRefused::reads_indices, crate::proofs::IndexIs::char_strings_need))]
pub fn reads_indices()
    // An INDEX is read exactly if the bytes are one, and every error has its cause.
    ensures law { ReadsIndices }
    // Reading an INDEX takes at least one byte and stays within the bytes.
    ensures takes { TakesBytes index }
    // Reading an INDEX past the end fails with `UnexpectedEof`.
    ensures needs { NeedsBytes index }
    // Reading charstrings of type 2 past the end fails with `UnexpectedEof`.
    ensures char_strings { NeedsBytes (char_strings (pos 2)) }
{}

/// States how the items of an INDEX are read as dictionaries. It does nothing at run time.
///
/// The result is the dictionaries that the items contain, or the error of the first item that is none.
#[tactic(auto, using(crate::proofs::ItemsAre::reads_items))]
pub fn reads_items()
    // Items are read as the dictionaries that they are. The first bad one decides the error.
    ensures law { ReadsItems }
{
    reads_dictionaries();
}

/// States how bytes become text. It does nothing at run time.
///
/// Valid UTF-8 is its own text. The text of any bytes is the one that `String::from_utf8_lossy` makes.
#[tactic(auto, using(crate::proofs::TextsAre::keeps_utf8, crate::proofs::TextsAre::agrees_with_std))]
pub fn reads_texts()
    // Bytes that are valid UTF-8 are their own text.
    ensures law { KeepsUtf8 }
    // The text of any bytes is the one that `String::from_utf8_lossy` makes.
    ensures same { AgreesWithStd }
{}
