//! Files with only some characters, with layout tables.
ghost use Rattle.std.specs.Prelude.{◌≡◌, ◌++◌, ◌≤◌, true, false, length, map, IfOk, IfErr, OnOk};
ghost use Rattle.postscript_files.specs.Origins.{AreOriginsOf};
ghost use Rattle.postscript_files.specs.declared.error.Error.TheVariants as causes;
ghost use Rattle.postscript_layout_write.specs.Leaving.{left_by};
ghost use Rattle.postscript_layout_write.specs.Pairs.{lookups_of};
ghost use Rattle.postscript_subset.specs.Closing.{IsTableOrNone};
ghost use Rattle.postscript_subset.specs.Layers.{gsub_tag, table_if};
ghost use Rattle.postscript_subset.specs.Planning.{IsCutBy, IsCutFace, IsFinished, IsUnfinished, NoCutBy, NoCutFace, NoOriginsBy};
ghost use Rattle.postscript_subset.specs.Subsets.{IsCutInPlace, IsCutWithLayout, NoCutWithLayout, left_in, shown};
ghost use Rattle.postscript_subset.specs.Layering.{tables_of};
ghost use Rattle.postscript_subset.specs.declared.error.Error.TheVariants as errors;

use crate::closing::{close, narrow, with_further_glyphs};
use crate::error::{Error, Result};
use crate::features::Features;
use crate::in_place::cut_in_place;
use crate::layers::{Layer, Layers, Outcome, has_marks, layers_of};
use postscript_files::{Choice, Face, Given};
use postscript_layout_write::{flagged_left_out, left_out};
use postscript_sfnt::FontFile;
use std::alloc::Global;

/// The tags of the layout tables.
pub(crate) const GDEF: u32 = 0x47444546;

pub(crate) const GPOS: u32 = 0x47504f53;

pub(crate) const GSUB: u32 = 0x47535542;

const KERN: u32 = 0x6b65726e;

/// A file with layout tables.
#[derive(Drop)]
pub struct Subset {
    /// The file.
    pub file: Vec<u8>,
    /// The outcome for `GSUB`.
    pub gsub: Outcome,
    /// The outcome for `GPOS`.
    pub gpos: Outcome,
    /// The outcome for `GDEF`.
    pub gdef: Outcome,
    /// The outcome for `kern`. It is `NotChosen` if glyphs keep their numbers: `copied` may have this table then.
    pub kern: Outcome,
    /// The chosen lookups that the new `GSUB` table does not keep. There are none if there is no such table.
    pub left_out: Vec<u16>,
}

/// Returns the `GSUB` table of a face, or no bytes if it has none.
pub(crate) fn gsub_in<'l>(file: &FontFile<'l>) -> &'l [u8]
    ensures { IsTableOrNone file.now gsub_tag result.now }
{
    match file.table(*b"GSUB") {
        Some(gsub) => gsub,
        None => &[],
    }
}

/// Returns the chosen lookups that a `GSUB` table with or without classes and sets of marks does not keep.
fn left_with(
    alloc: Global,
    gsub: &[u8],
    lookups: &[u16],
    marks: bool,
) -> postscript_layout_write::Result<Vec<u16>>
    ensures left { IfOk result (λ left. left.items ≡ left_by marks gsub.now lookups.now (lookups_of gsub.now)) }
{
    if marks {
        flagged_left_out(alloc, gsub, lookups)
    } else {
        left_out(alloc, gsub, lookups)
    }
}

/// Returns the chosen lookups that a new `GSUB` table does not keep.
fn left_of(
    alloc: Global,
    gsub: &[u8],
    lookups: &[u16],
    outcome: Outcome,
    marks: bool,
) -> Result<Vec<u16>>
    ensures left { IfOk result (λ left. left.items ≡ left_in outcome marks gsub.now lookups.now) }
    ensures memory { IfErr result (λ e. e ≡ errors.File causes.Memory) }
{
    match outcome {
        Outcome::Kept => match left_with(alloc, gsub, lookups, marks) {
            Ok(left) => Ok(left),
            Err(_) => Err(Error::File(postscript_files::Error::Memory)),
        },
        _ => Ok(Vec::new(alloc)),
    }
}

/// Returns the origins of a subset, in 16 bits.
fn origins_of(alloc: Global, face: &Face<'_>, by: &Choice<'_>) -> Result<Vec<u16>>
    ensures origins { IfOk result (λ origins. AreOriginsOf by.now face.now origins.items) }
    ensures why { IfErr result (λ e. NoOriginsBy by.now face.now e) }
{
    let origins = face.origins(alloc, by)?;
    match narrow(alloc, &origins) {
        Ok(origins) => Ok(origins),
        // Each origin is below 65,536.
        Err(_) => Err(Error::File(postscript_files::Error::Memory)),
    }
}

/// Returns a table that is given, with the same tag and bytes.
fn copy(alloc: Global, table: &Given) -> Result<Given>
    ensures same { IfOk result (λ copy. shown copy ≡ shown table.now) }
    ensures memory { IfErr result (λ e. e ≡ errors.File causes.Memory) }
{
    Ok(Given {
        tag: table.tag,
        bytes: Vec::from_slice(alloc, table.bytes.as_slice())?,
    })
}

/// Returns tables that are given, with the same tags and bytes.
fn copies(alloc: Global, given: &[Given]) -> Result<Vec<Given>>
    ensures same { IfOk result (λ copies. map shown copies.items ≡ map shown given.now) }
    ensures memory { IfErr result (λ e. e ≡ errors.File causes.Memory) }
{
    let mut copies = Vec::new(alloc);
    for table in given {
        copies.push(copy(alloc, table)?)?;
    }
    Ok(copies)
}

/// Adds a layout table, if it is kept.
fn put(given: &mut Vec<Given>, tag: u32, layer: Layer) -> Result<()>
    ensures put { OnOk result (map shown given.new.items ≡ map shown given.old.items ++ table_if layer.outcome tag layer.table.items) }
    ensures memory { IfErr result (λ e. e ≡ errors.File causes.Memory) }
{
    if let Outcome::Kept = layer.outcome {
        given.push(Given {
            tag,
            bytes: layer.table,
        })?;
    }
    Ok(())
}

/// Adds the layout tables that are kept, and the tables for vertical text.
fn put_all(given: &mut Vec<Given>, layers: Layers) -> Result<()>
    ensures put { OnOk result (map shown given.new.items ≡ map shown given.old.items ++ tables_of layers) }
    ensures memory { IfErr result (λ e. e ≡ errors.File causes.Memory) }
{
    let Layers {
        gdef,
        gsub,
        gpos,
        kern,
        mut vertical,
    } = layers;
    put(given, GDEF, gdef)?;
    put(given, GSUB, gsub)?;
    put(given, GPOS, gpos)?;
    put(given, KERN, kern)?;
    given.append(&mut vertical)?;
    Ok(())
}

/// Writes the subset of a choice, with these layout tables in addition.
fn finish(alloc: Global, face: &Face<'_>, by: &Choice<'_>, layers: Layers) -> Result<Vec<u8>>
    ensures file { IfOk result (λ file. IsFinished by.now face.now layers file.items) }
    ensures why { IfErr result (λ e. IsUnfinished by.now face.now layers e) }
{
    let mut given = copies(alloc, by.given)?;
    put_all(&mut given, layers)?;
    let with = Choice {
        given: &given,
        ..*by
    };
    Ok(face.subset(alloc, &with)?)
}

/// Writes the subset of a choice, with layout tables for its glyphs.
fn write(
    alloc: Global,
    face: &Face<'_>,
    by: &Choice<'_>,
    features: &Features<'_>,
    gsub: &[u8],
    lookups: &[u16],
    limit: &mut u64,
) -> Result<Subset>
    ensures subset { IfOk result (λ subset. IsCutBy by.now features.now face.now gsub.now lookups.now limit.new subset) }
    ensures spends { limit.new ≤ limit.old }
    ensures why { IfErr result (λ e. NoCutBy by.now face.now e) }
{
    let origins = origins_of(alloc, face, by)?;
    let layers = layers_of(alloc, &face.file, features, lookups, &origins, limit)?;
    let marks = has_marks(&origins, layers.gdef.outcome);
    let left_out = left_of(alloc, gsub, lookups, layers.gsub.outcome, marks)?;
    let (gsub, gpos, gdef, kern) = (
        layers.gsub.outcome,
        layers.gpos.outcome,
        layers.gdef.outcome,
        layers.kern.outcome,
    );
    let file = finish(alloc, face, by, layers)?;
    Ok(Subset {
        file,
        gsub,
        gpos,
        gdef,
        kern,
        left_out,
    })
}

/// Writes the subset of a face, with layout tables.
fn cut(
    alloc: Global,
    face: &Face<'_>,
    choice: &Choice<'_>,
    features: &Features<'_>,
    limit: &mut u64,
) -> Result<Subset>
    requires room { 36 ≤ length face.now.hhea.now }
    requires anew { choice.now.retain_gids ≡ false }
    ensures subset { IfOk result (λ subset. IsCutFace choice.now features.now face.now limit.new subset) }
    ensures spends { limit.new ≤ limit.old }
    ensures why { IfErr result (λ e. NoCutFace choice.now features.now face.now limit.new e) }
{
    let gsub = gsub_in(&face.file);
    let closed = close(alloc, face, choice, features, gsub, limit)?;
    let unmapped = with_further_glyphs(alloc, face, choice, &closed.glyphs)?;
    let by = Choice {
        unmapped: &unmapped,
        ..*choice
    };
    write(alloc, face, &by, features, gsub, &closed.lookups, limit)
}

/// Writes a file with only some characters and glyphs of a face, as [`postscript_files::subset_file`] does, and with layout
/// tables for its glyphs.
///
/// The lookups of the features in `GSUB` are chosen. The subset keeps the glyphs of `subset_file`, the glyphs of variation
/// sequences of kept characters ([`Face::sequence_glyphs`]), and all glyphs of the face that the chosen lookups can make of
/// these. So it has these sequences too. It has these tables in addition, under the new glyph numbers:
///
/// - `GDEF`, with the glyph classes, if the face has classes;
/// - `GSUB`, with the chosen features and lookups, if the face has this table;
/// - `GPOS`, with the chosen features and all its positions, if the face has this table and `kern`, `mark`, `mkmk` or `curs` is
///   among the features;
/// - `kern`, with the pairs of the new glyphs, if `kern` is among the features, the face has such pairs, and the new `GPOS`
///   table does not kern in each language;
/// - `vhea` and `vmtx`, if the face has both and `postscript_vertical::kept_metrics` does not refuse them;
/// - `VORG`, if the face has it and `postscript_vertical::kept_origins` does not refuse it.
///
/// If `choice.retain_gids` is set, glyphs keep their numbers. All lookups of `GSUB` are then chosen, and `GDEF`, `GSUB` and `GPOS`
/// are copied as far as the face has them. `kern` is copied only if `choice.copied` has it.
///
/// `GPOS` kerns in each language if it has a script `DFLT`, `dflt` or `latn`, and all language systems of all scripts have a
/// feature `kern`, as `postscript_kern::each_language_kerns` finds out.
///
/// If `choice.given` or `choice.copied` has one of these tables too, the error is `SameTag`.
///
/// The search for lookups and glyphs and the tables are paid from `limit`, as in `postscript_layout`,
/// `postscript_layout_write` and `postscript_kern`. If the limit does not suffice for a table, the table is lost, and the file is written.
///
/// # Errors
///
/// - `TooLong`: the search for lookups and glyphs costs more than the limit.
/// - `LargeGlyph`: a chosen glyph has a number above 65,535.
/// - `File`: as for `subset_file`, which includes that no glyph is chosen.
pub fn subset_with_layout(
    alloc: Global,
    file: &[u8],
    number: usize,
    choice: &Choice<'_>,
    features: Features<'_>,
    limit: &mut u64,
) -> Result<Subset>
    // The file is a subset of the face, has its layout tables, and keeps the glyphs of shaped text.
    ensures subset { choice.now.retain_gids ≡ false → IfOk result (λ subset. IsCutWithLayout choice.now features.entry file.now number limit.new subset) }
    // If glyphs keep their numbers, layout tables are copied, with all glyphs of shaped text.
    ensures in_place { choice.now.retain_gids ≡ true → IfOk result (λ subset. IsCutInPlace choice.now features.entry file.now number subset) }
    // The limit never grows.
    ensures spends { limit.new ≤ limit.old }
    // An error is justified by the choice, the limit, the file or the face.
    ensures why { IfErr result (λ e. NoCutWithLayout choice.now features.entry file.now number limit.new e) }
{
    let face = Face::open(file, number)?;
    if choice.retain_gids {
        cut_in_place(alloc, &face, choice, &features, limit)
    } else {
        cut(alloc, &face, choice, &features, limit)
    }
}
