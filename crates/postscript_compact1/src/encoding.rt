//! The predefined encodings.
ghost use Rattle.std.specs.Prelude.{◌≡◌, ◌<◌, IfSome, IsTrue};
ghost use Rattle.postscript_compact1.specs.Computed.Encodings.{identifier_of, in_runs, runs_of, are_standard, name_of};

use postscript_base::compact1::{GlyphID, StringID};

/// A range of codes: the first code, the last code, and the SID of the first. Consecutive codes have consecutive SIDs.
type Run = (u16, u16, StringID);

/// The ranges of the standard encoding.
#[rattlefmt::skip]
const STANDARD: [Run; 14] = [
    (32, 126, 1), (161, 175, 96), (177, 180, 111), (182, 189, 115), (191, 191, 123),
    (193, 200, 124), (202, 203, 132), (205, 208, 134), (225, 225, 138), (227, 227, 139),
    (232, 235, 140), (241, 241, 144), (245, 245, 145), (248, 251, 146),
];

/// The ranges of the expert encoding.
#[rattlefmt::skip]
const EXPERT: [Run; 31] = [
    (32, 32, 1), (33, 34, 229), (36, 43, 231), (44, 46, 13), (47, 47, 99), (48, 57, 239),
    (58, 59, 27), (60, 63, 249), (65, 69, 253), (73, 73, 258), (76, 79, 259), (82, 84, 263),
    (86, 86, 266), (87, 88, 109), (89, 91, 267), (93, 126, 270), (161, 163, 304), (166, 170, 307),
    (172, 172, 312), (175, 175, 313), (178, 179, 314), (182, 184, 316), (188, 188, 158),
    (189, 189, 155), (190, 190, 163), (191, 197, 319), (200, 200, 326), (201, 201, 150),
    (202, 202, 164), (203, 203, 169), (204, 255, 327),
];

/// A predefined encoding (Technical Note 5176, Appendix B).
#[derive(Clone, Copy, Debug, PartialEq, Eq)]
pub enum Encoding {
    /// The standard encoding.
    Standard,
    /// The expert encoding.
    Expert,
}

impl Encoding {
    /// Returns the SID of the glyph name for a character code (Technical Note 5176, Appendix B). The parameter is the
    /// code.
    ///
    /// The SID is 0, for `.notdef`, if the encoding does not list the code. It is `None` for a code above 255. An SID
    /// is below 391, so `get_standard_string` returns its string.
    ///
    /// ```rust
    /// pub fn name_of_code(alloc: Global, font: &FontSet, code: u16) -> Result<Option<String>> {
    ///     match Encoding::Standard.get(code) {
    ///         Some(sid) => font.strings.get(alloc, sid),
    ///         None => Ok(None),
    ///     }
    /// }
    /// ```
    #[tactic(auto, unfolding(crate::specs::Computed::Encodings::identifier_of))]
    pub fn get(&self, gid: GlyphID) -> Option<StringID>
        // The SID is one of a standard string.
        ensures standard { IfSome result (λ sid. sid < 391) }
        // The result is exactly what `identifier_of` computes (specs/Computed/Encodings.antt).
        ensures exact { result ≡ identifier_of self.now gid }
    {
        if gid > 255 {
            return None;
        }
        Some(match self {
            Encoding::Standard => in_runs(&STANDARD, gid),
            Encoding::Expert => in_runs(&EXPERT, gid),
        })
    }

    /// Returns the name of the variant, `Standard` or `Expert`.
    pub fn name(&self) -> &'static str
        // The result is the name of the variant.
        ensures { result.now ≡ name_of self.now }
    {
        match self {
            Encoding::Standard => "Standard",
            Encoding::Expert => "Expert",
        }
    }
}

/// Looks up the SID of a code in ranges.
fn in_runs(runs: &[Run], code: u16) -> StringID
    requires { IsTrue (are_standard runs.now) }
    ensures exact { result ≡ in_runs runs.now code }
    ensures standard { result < 391 }
{
    for run in runs {
        if run.0 <= code && code <= run.1 {
            return run.2 + (code - run.0);
        }
    }
    0
}
