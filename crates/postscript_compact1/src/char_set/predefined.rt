//! The predefined charsets.
ghost use Rattle.std.specs.Prelude.{◌≡◌, IsTrue};
ghost use Rattle.std.specs.Option.{option_copied};
ghost use Rattle.postscript_compact1.specs.CharSets.Predefined.{are_runs, identifier_of, name_in_runs};

use crate::standard_strings::get_standard_string;
use postscript_base::compact1::{GlyphID, StringID};

/// A range of SIDs: the first and the last.
pub type Run = (StringID, StringID);

/// The ranges of ISOAdobe (Technical Note 5176, Appendix C).
pub const ISO_ADOBE: [Run; 1] = [(1, 228)];

/// The ranges of Expert.
#[rattlefmt::skip]
pub const EXPERT: [Run; 17] = [
    (1, 1), (229, 238), (13, 15), (99, 99), (239, 248), (27, 28), (249, 266), (109, 110),
    (267, 318), (158, 158), (155, 155), (163, 163), (319, 326), (150, 150), (164, 164), (169, 169),
    (327, 378),
];

/// The ranges of ExpertSubset.
#[rattlefmt::skip]
pub const EXPERT_SUBSET: [Run; 23] = [
    (1, 1), (231, 232), (235, 238), (13, 15), (99, 99), (239, 248), (27, 28), (249, 251),
    (253, 266), (109, 110), (267, 270), (272, 272), (300, 302), (305, 305), (314, 315), (158, 158),
    (155, 155), (163, 163), (320, 326), (150, 150), (164, 164), (169, 169), (327, 346),
];

/// Returns the name of a glyph, by ranges of SIDs.
pub fn name(runs: &[Run], gid: GlyphID) -> Option<&'static str>
    requires { IsTrue (are_runs runs.now) }
    ensures { option_copied result ≡ name_in_runs runs.now gid }
{
    get_standard_string(identifier(runs, gid)?)
}

/// Returns the SID of a glyph, by ranges in the order of the glyphs from glyph 1.
#[tactic(auto, using(crate::proofs::GlyphRuns::sought_first), unfolding(crate::specs::CharSets::Predefined::identifier_of))]
pub fn identifier(runs: &[Run], gid: GlyphID) -> Option<StringID>
    requires { IsTrue (are_runs runs.now) }
    ensures { result ≡ identifier_of runs.now gid }
{
    let mut place = gid.checked_sub(1)?;
    for (first, last) in runs {
        let length = last - first + 1;
        if place < length {
            return Some(first + place);
        }
        place -= length;
    }
    None
}
