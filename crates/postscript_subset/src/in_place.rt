//! Files whose glyphs keep their numbers, with copied layout tables.
ghost use Rattle.std.specs.Prelude.{◌≡◌, ◌++◌, ◌≤◌, true, length, IfOk, IfErr};
ghost use Rattle.postscript_base.specs.Numbers.{big_endian};
ghost use Rattle.postscript_files.specs.declared.error.Error.TheVariants as causes;
ghost use Rattle.postscript_subset.specs.Layers.{IsCopiedAs};
ghost use Rattle.postscript_subset.specs.Planning.{IsPlaced, NoCutFace};
ghost use Rattle.postscript_subset.specs.Subsets.{copied_by};
ghost use Rattle.postscript_subset.specs.declared.error.Error.TheVariants as errors;

use crate::closing::{close, with_further_glyphs};
use crate::error::Result;
use crate::features::Features;
use crate::layers::Outcome;
use crate::subset::{GDEF, GPOS, GSUB, Subset, gsub_in};
use postscript_files::{Choice, Face};
use postscript_sfnt::FontFile;
use std::alloc::Global;

/// Returns the outcome for a table that is copied.
fn copied_as(file: &FontFile<'_>, tag: [u8; 4]) -> Outcome
    ensures { IsCopiedAs result file.now (big_endian tag) }
{
    match file.table(tag) {
        Some(_) => Outcome::Kept,
        None => Outcome::Absent,
    }
}

/// Adds the tags of the layout tables.
fn with_layout(alloc: Global, tags: &[u32]) -> Result<Vec<u32>>
    ensures tags { IfOk result (λ all. all.items ≡ tags.now ++ copied_by true) }
    ensures memory { IfErr result (λ e. e ≡ errors.File causes.Memory) }
{
    let mut all = Vec::from_slice(alloc, tags)?;
    all.extend_from_slice(&[GDEF, GPOS, GSUB])?;
    Ok(all)
}

/// Writes the subset of a face whose glyphs keep their numbers, with copies of the layout tables.
pub(crate) fn cut_in_place(
    alloc: Global,
    face: &Face<'_>,
    choice: &Choice<'_>,
    features: &Features<'_>,
    limit: &mut u64,
) -> Result<Subset>
    requires room { 36 ≤ length face.now.hhea.now }
    requires retain { choice.now.retain_gids ≡ true }
    ensures subset { IfOk result (λ subset. IsPlaced choice.now features.now face.now subset) }
    ensures spends { limit.new ≤ limit.old }
    ensures why { IfErr result (λ e. NoCutFace choice.now features.now face.now limit.new e) }
{
    let gsub = gsub_in(&face.file);
    let closed = close(alloc, face, choice, &Features::All, gsub, limit)?;
    let unmapped = with_further_glyphs(alloc, face, choice, &closed.glyphs)?;
    let copied = with_layout(alloc, choice.copied)?;
    let by = Choice {
        unmapped: &unmapped,
        copied: &copied,
        ..*choice
    };
    let file = face.subset(alloc, &by)?;
    Ok(Subset {
        file,
        gsub: copied_as(&face.file, *b"GSUB"),
        gpos: copied_as(&face.file, *b"GPOS"),
        gdef: copied_as(&face.file, *b"GDEF"),
        kern: Outcome::NotChosen,
        left_out: Vec::new(alloc),
    })
}
