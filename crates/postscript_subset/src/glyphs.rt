//! The glyphs that a file with layout tables keeps.
ghost use Rattle.std.specs.Prelude.{◌≡◌, ◌≤◌, IfOk, IfErr};
ghost use Rattle.postscript_subset.specs.Subsets.{AreMade, NoneAreMade, features_by};

use crate::closing::{close, glyphs_below};
use crate::error::Result;
use crate::features::Features;
use crate::subset::gsub_in;
use postscript_files::{Choice, Face};
use std::alloc::Global;

/// Returns the features that count: all of them if glyphs keep their numbers.
fn counted_features<'t>(retain_gids: bool, features: Features<'t>) -> Features<'t>
    ensures { result ≡ features_by retain_gids features.entry }
{
    if retain_gids { Features::All } else { features }
}

/// Returns the glyphs that [`crate::subset_with_layout`] keeps, apart from components of `seac` glyphs: the named ones,
/// the glyphs of the variation sequences of kept characters, `.notdef`, and all glyphs of the face that the chosen lookups can make of
/// these.
///
/// The search is paid from `limit`, as in `subset_with_layout`. So a caller can first check how much these glyphs cost.
///
/// # Errors
///
/// - `TooLong`: the search costs more than the limit.
/// - `LargeGlyph`: a chosen glyph has a number above 65,535.
/// - `File`: the `CFF ` table is malformed, or memory runs out.
pub fn glyphs_with_layout(
    alloc: Global,
    face: &Face<'_>,
    choice: &Choice<'_>,
    features: Features<'_>,
    limit: &mut u64,
) -> Result<Vec<usize>>
    // The glyphs that the features can make of named glyphs and of those of variation sequences.
    ensures made { IfOk result (λ glyphs. AreMade choice.now features.entry face.now glyphs.items) }
    // The limit never grows.
    ensures spends { limit.new ≤ limit.old }
    // An error is justified by the limit, the choice or the face.
    ensures why { IfErr result (λ e. NoneAreMade choice.now face.now limit.new e) }
{
    let features = counted_features(choice.retain_gids, features);
    let gsub = gsub_in(&face.file);
    let closed = close(alloc, face, choice, &features, gsub, limit)?;
    let count = face.number_of_glyphs(alloc)?;
    let glyphs = glyphs_below(alloc, &closed.glyphs, count)?;
    Ok(glyphs)
}
