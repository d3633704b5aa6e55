//! Laws about reading fonts.
ghost use Rattle.postscript_compact1.specs.FontSet.Causes.{RefusesLayout};
ghost use Rattle.postscript_compact1.specs.FontSet.Layout.{ReadsLayout, ReadsLeniently};

use postscript_base::compact1::laws::reads_dictionaries;

/// States that a font is read exactly if there is one at the offset, and that there is at most one. It does nothing at
/// run time.
pub fn reads_layout()
    // A font is read exactly if one is laid out at the offset, and there is at most one.
    ensures law { ReadsLayout }
{
    reads_dictionaries();
}

/// States the same for lenient reading. It does nothing at run time.
///
/// A font that may lack Private DICTs and local subroutines is read leniently exactly if there is one at the offset,
/// and there is at most one. A font that lacks neither is also such a font.
pub fn reads_leniently()
    // A lenient font is read exactly if one is laid out there. A strict font is also a lenient one.
    ensures law { ReadsLeniently }
{
    reads_dictionaries();
}

/// States when reading a font fails, apart from running out of memory. It does nothing at run time.
///
/// A font fails with an error exactly if the first step of the layout that fails has that cause (`NoFont`, or
/// `NoLenientFont` for lenient reading). The steps are the header, the names, the Top DICTs, the strings and the global
/// subroutines. For each Top DICT the encoding, the charstrings, the charset, the Private DICT and the local
/// subroutines follow.
pub fn refuses_layout()
    // Reading fails with an error exactly if the first failing step of the layout has that cause.
    ensures law { RefusesLayout }
{
    reads_dictionaries();
}
