//! Layout tables under new glyph numbers.
ghost use Rattle.std.specs.Prelude.{◌≡◌, ◌↔◌, ◌≤◌, ℕ, [], List, IfOk, IfErr, IsTrue};
ghost use Rattle.postscript_kern.specs.Refusals.{IsUsedUp, Refuses as RefusesKern};
ghost use Rattle.postscript_layout.specs.Numbers.{word};
ghost use Rattle.postscript_files.specs.declared.error.Error.TheVariants as causes;
ghost use Rattle.postscript_layout_write.specs.Refusals.{Fails, Refuses};
ghost use Rattle.postscript_layout_write.specs.Substituting.{KeepsRules};
ghost use Rattle.postscript_subset.specs.Layers.{HasChosen, IsGdef, IsGpos, IsGsub, IsKern, IsKerned, KeepsGlyphs, KeepsPlaces, OfWhole, RefusesGlyphs, RefusesPairs, are_few, have_marks};
ghost use Rattle.postscript_subset.specs.Layering.{AreLayers, ArePairs, IsLayer};
ghost use Rattle.postscript_subset.specs.declared.error.Error.TheVariants as errors;
ghost use Rattle.postscript_subset.specs.declared.layers.Outcome.TheVariants as outcomes;

use crate::error::{Error, Result};
use crate::features::Features;
use crate::vertical::vertical_of;
use postscript_base::index::number::number_at;
use postscript_files::Given;
use postscript_kern::{Error as KernFault, each_language_kerns, kept_kerning};
use postscript_layout_write::{
    Error as Fault, flagged_positions, flagged_substitutions, glyph_classes, glyph_definitions,
    positions, substitutions, with_features,
};
use postscript_sfnt::FontFile;
use std::alloc::Global;

/// The outcome for a layout table.
#[derive(Clone, Copy, Debug, Drop, PartialEq, Eq)]
pub enum Outcome {
    /// The face has no such table, no glyph classes in its `GDEF` table, or no pairs of glyphs of the subset in its `kern`
    /// table.
    Absent,
    /// The face has a `GPOS` table, but none of `kern`, `mark`, `mkmk` and `curs` is among the features. Or it has a `kern`
    /// table, but `kern` is not among the features, the new `GPOS` table kerns in each language, or glyphs keep their
    /// numbers.
    NotChosen,
    /// The new file has the table.
    Kept,
    /// The table is not written, for this reason. If `GDEF` is lost, `GSUB` and `GPOS` are lost for the same reason.
    Lost(Fault),
}

/// A layout table that is written, or no bytes.
#[derive(Drop)]
pub(crate) struct Layer {
    pub(crate) outcome: Outcome,
    pub(crate) table: Vec<u8>,
}

/// The layout tables of a subset, and its tables for vertical text.
#[derive(Drop)]
pub(crate) struct Layers {
    pub(crate) gdef: Layer,
    pub(crate) gsub: Layer,
    pub(crate) gpos: Layer,
    pub(crate) kern: Layer,
    /// The tables for vertical text.
    pub(crate) vertical: Vec<Given>,
}

/// Returns an outcome without a table.
fn empty_layer(alloc: Global, outcome: Outcome) -> Layer
    ensures outcome { result.outcome ≡ outcome }
    ensures none { result.table.items ≡ [] }
{
    Layer {
        outcome,
        table: Vec::new(alloc),
    }
}

/// Returns a table that is written, or the reason why it is not. Memory is an error.
fn layer_of(alloc: Global, written: std::result::Result<Vec<u8>, Fault>) -> Result<Layer>
    ensures layer { IfOk result (λ layer. IsLayer written layer) }
    ensures memory { IfErr result (λ e. e ≡ errors.File causes.Memory) }
{
    match written {
        Ok(table) => Ok(Layer {
            outcome: Outcome::Kept,
            table,
        }),
        Err(Fault::Memory) => Err(Error::File(postscript_files::Error::Memory)),
        Err(fault) => Ok(empty_layer(alloc, Outcome::Lost(fault))),
    }
}

/// Returns the offset of the glyph classes in a `GDEF` table, or 0 if it has none.
fn classes_at(gdef: &[u8]) -> usize
    ensures { result ≡ word gdef.now 4 }
{
    if gdef.len() < 6 {
        0
    } else {
        number_at(gdef, 4, 2)
    }
}

/// The most glyphs of a `GDEF` table with classes and sets of marks.
const MOST: usize = 16377;

/// Writes a `GDEF` table with the classes of the origins, and with classes and sets of marks if there are few origins.
fn definitions_of(
    alloc: Global,
    gdef: &[u8],
    origins: &[u16],
    limit: &mut u64,
) -> std::result::Result<Vec<u8>, Fault>
    ensures kept { IfOk result (λ new. KeepsGlyphs (are_few origins.now) gdef.now origins.now new.items) }
    ensures spends { limit.new ≤ limit.old }
    ensures why { IfErr result (λ e. RefusesGlyphs (are_few origins.now) e origins.now limit.new) }
{
    if origins.len() > MOST {
        glyph_classes(alloc, gdef, origins, limit)
    } else {
        glyph_definitions(alloc, gdef, origins, limit)
    }
}

/// Returns whether the new `GDEF` table has classes and sets of marks.
pub(crate) fn has_marks(origins: &[u16], gdef: Outcome) -> bool
    ensures { result ≡ have_marks origins.now gdef }
{
    match gdef {
        Outcome::Kept => origins.len() <= MOST,
        _ => false,
    }
}

/// Returns a table with only the chosen features.
fn with_chosen_features(
    alloc: Global,
    features: &Features<'_>,
    whole: Vec<u8>,
    limit: &mut u64,
) -> std::result::Result<Vec<u8>, Fault>
    ensures chosen { IfOk result (λ new. HasChosen features.now whole.items new.items) }
    ensures spends { limit.new ≤ limit.old }
    ensures why { IfErr result (λ e. Fails limit.new e) }
{
    match features {
        Features::All => Ok(whole),
        Features::These(tags) => with_features(alloc, &whole, tags, limit),
    }
}

/// Writes a `GPOS` table for the origins. Lookups that use classes or sets of marks are kept if the new `GDEF` table has
/// these.
fn positions_of(
    alloc: Global,
    gpos: &[u8],
    origins: &[u16],
    gdef: Outcome,
    limit: &mut u64,
) -> std::result::Result<Vec<u8>, Fault>
    ensures kept { IfOk result (λ new. KeepsPlaces (have_marks origins.now gdef) gpos.now origins.now new.items) }
    ensures spends { limit.new ≤ limit.old }
    ensures why { IfErr result (λ e. Refuses e gpos.now limit.new) }
{
    if has_marks(origins, gdef) {
        flagged_positions(alloc, gpos, origins, limit)
    } else {
        positions(alloc, gpos, origins, limit)
    }
}

/// Writes a `GSUB` table for the origins. Lookups that use classes or sets of marks are kept if the new `GDEF` table has
/// these.
fn substitutions_of(
    alloc: Global,
    gsub: &[u8],
    lookups: &[u16],
    origins: &[u16],
    gdef: Outcome,
    limit: &mut u64,
) -> std::result::Result<Vec<u8>, Fault>
    ensures kept { IfOk result (λ new. KeepsRules (have_marks origins.now gdef) gsub.now lookups.now origins.now new.items) }
    ensures spends { limit.new ≤ limit.old }
    ensures why { IfErr result (λ e. Refuses e gsub.now limit.new) }
{
    if has_marks(origins, gdef) {
        flagged_substitutions(alloc, gsub, lookups, origins, limit)
    } else {
        substitutions(alloc, gsub, lookups, origins, limit)
    }
}

/// Writes a `GPOS` table for the origins, with only the chosen features.
fn chosen_positions(
    alloc: Global,
    gpos: &[u8],
    features: &Features<'_>,
    origins: &[u16],
    gdef: Outcome,
    limit: &mut u64,
) -> std::result::Result<Vec<u8>, Fault>
    ensures kept { IfOk result (λ new. OfWhole features.now new.items (KeepsPlaces (have_marks origins.now gdef) gpos.now origins.now)) }
    ensures spends { limit.new ≤ limit.old }
    ensures why { IfErr result (λ e. Refuses e gpos.now limit.new) }
{
    let whole = positions_of(alloc, gpos, origins, gdef, limit)?;
    with_chosen_features(alloc, features, whole, limit)
}

/// Writes a `GSUB` table for the origins, with only the chosen features.
fn chosen_substitutions(
    alloc: Global,
    gsub: &[u8],
    features: &Features<'_>,
    lookups: &[u16],
    origins: &[u16],
    gdef: Outcome,
    limit: &mut u64,
) -> std::result::Result<Vec<u8>, Fault>
    ensures kept { IfOk result (λ new. OfWhole features.now new.items (KeepsRules (have_marks origins.now gdef) gsub.now lookups.now origins.now)) }
    ensures spends { limit.new ≤ limit.old }
    ensures why { IfErr result (λ e. Refuses e gsub.now limit.new) }
{
    let whole = substitutions_of(alloc, gsub, lookups, origins, gdef, limit)?;
    with_chosen_features(alloc, features, whole, limit)
}

/// Returns the `GDEF` table with the classes of the origins.
fn gdef_of(alloc: Global, file: &FontFile<'_>, origins: &[u16], limit: &mut u64) -> Result<Layer>
    ensures gdef { IfOk result (λ gdef. IsGdef gdef.outcome file.now origins.now limit.new gdef.table.items) }
    ensures spends { limit.new ≤ limit.old }
    ensures memory { IfErr result (λ e. e ≡ errors.File causes.Memory) }
{
    match file.table(*b"GDEF") {
        None => Ok(empty_layer(alloc, Outcome::Absent)),
        Some(gdef) => {
            if classes_at(gdef) > 0 {
                layer_of(alloc, definitions_of(alloc, gdef, origins, limit))
            } else {
                Ok(empty_layer(alloc, Outcome::Absent))
            }
        }
    }
}

/// Returns the `GSUB` table with the chosen features, and with the rules of the lookups for the origins.
fn gsub_of(
    alloc: Global,
    file: &FontFile<'_>,
    features: &Features<'_>,
    lookups: &[u16],
    origins: &[u16],
    gdef: Outcome,
    limit: &mut u64,
) -> Result<Layer>
    ensures gsub { IfOk result (λ gsub. IsGsub gsub.outcome file.now features.now lookups.now origins.now gdef limit.new gsub.table.items) }
    ensures spends { limit.new ≤ limit.old }
    ensures memory { IfErr result (λ e. e ≡ errors.File causes.Memory) }
{
    match file.table(*b"GSUB") {
        None => Ok(empty_layer(alloc, Outcome::Absent)),
        Some(gsub) => match gdef {
            Outcome::Lost(fault) => Ok(empty_layer(alloc, Outcome::Lost(fault))),
            _ => layer_of(
                alloc,
                chosen_substitutions(alloc, gsub, features, lookups, origins, gdef, limit),
            ),
        },
    }
}

/// Returns the `GPOS` table with the pairs and the marks of the origins, if a feature with these is chosen.
fn gpos_of(
    alloc: Global,
    file: &FontFile<'_>,
    features: &Features<'_>,
    origins: &[u16],
    gdef: Outcome,
    limit: &mut u64,
) -> Result<Layer>
    ensures gpos { IfOk result (λ gpos. IsGpos gpos.outcome file.now features.now origins.now gdef limit.new gpos.table.items) }
    ensures spends { limit.new ≤ limit.old }
    ensures memory { IfErr result (λ e. e ≡ errors.File causes.Memory) }
{
    match file.table(*b"GPOS") {
        None => Ok(empty_layer(alloc, Outcome::Absent)),
        Some(gpos) => {
            if !features.has_positions() {
                return Ok(empty_layer(alloc, Outcome::NotChosen));
            }
            match gdef {
                Outcome::Lost(fault) => Ok(empty_layer(alloc, Outcome::Lost(fault))),
                _ => layer_of(
                    alloc,
                    chosen_positions(alloc, gpos, features, origins, gdef, limit),
                ),
            }
        }
    }
}

/// Converts an error of a `kern` table. Memory is an error of the call.
fn kern_fault(fault: KernFault) -> Result<Fault>
    ensures fault { IfOk result (λ e. (old origins : List ℕ) (left : ℕ) → RefusesKern fault old origins left → RefusesPairs e old origins left) }
    ensures memory { IfErr result (λ e. e ≡ errors.File causes.Memory) }
{
    match fault {
        KernFault::Memory => Err(Error::File(postscript_files::Error::Memory)),
        KernFault::TooLong => Ok(Fault::TooLong),
        KernFault::TooLarge => Ok(Fault::TooLarge),
    }
}

/// Returns whether there is a new `GPOS` table, and it kerns in each language.
fn is_kerned(gpos: &Layer, limit: &mut u64) -> postscript_kern::Result<bool>
    ensures exact { IfOk result (λ kerned. IsTrue kerned ↔ IsKerned gpos.now.outcome gpos.now.table.items) }
    ensures spends { limit.new ≤ limit.old }
    ensures why { IfErr result (λ e. IsUsedUp limit.new e) }
{
    match gpos.outcome {
        Outcome::Kept => each_language_kerns(gpos.table.as_slice(), limit),
        _ => Ok(false),
    }
}

/// Returns a `kern` table with the pairs of the origins.
fn pairs_of(alloc: Global, kern: &[u8], origins: &[u16], limit: &mut u64) -> Result<Layer>
    ensures pairs { IfOk result (λ pairs. ArePairs pairs.outcome kern.now origins.now limit.new pairs.table.items) }
    ensures spends { limit.new ≤ limit.old }
    ensures memory { IfErr result (λ e. e ≡ errors.File causes.Memory) }
{
    match kept_kerning(alloc, kern, origins, limit) {
        Ok(Some(table)) => Ok(Layer {
            outcome: Outcome::Kept,
            table,
        }),
        Ok(None) => Ok(empty_layer(alloc, Outcome::Absent)),
        Err(fault) => Ok(empty_layer(alloc, Outcome::Lost(kern_fault(fault)?))),
    }
}

/// Returns the `kern` table with the pairs of the origins, if `kern` is among the features and the new `GPOS` table does not
/// kern in each language.
fn kern_of(
    alloc: Global,
    file: &FontFile<'_>,
    features: &Features<'_>,
    origins: &[u16],
    gpos: &Layer,
    limit: &mut u64,
) -> Result<Layer>
    ensures kern { IfOk result (λ kern. IsKern kern.outcome file.now features.now origins.now gpos.now.outcome gpos.now.table.items limit.new kern.table.items) }
    ensures spends { limit.new ≤ limit.old }
    ensures memory { IfErr result (λ e. e ≡ errors.File causes.Memory) }
{
    let Some(kern) = file.table(*b"kern") else {
        return Ok(empty_layer(alloc, Outcome::Absent));
    };
    if !features.has_kerning() {
        return Ok(empty_layer(alloc, Outcome::NotChosen));
    }
    match is_kerned(gpos, limit) {
        Ok(true) => Ok(empty_layer(alloc, Outcome::NotChosen)),
        Ok(false) => pairs_of(alloc, kern, origins, limit),
        Err(_) => Ok(empty_layer(alloc, Outcome::Lost(Fault::TooLong))),
    }
}

/// Returns the layout tables and the tables for vertical text of the origins.
pub(crate) fn layers_of(
    alloc: Global,
    file: &FontFile<'_>,
    features: &Features<'_>,
    lookups: &[u16],
    origins: &[u16],
    limit: &mut u64,
) -> Result<Layers>
    ensures layers { IfOk result (λ layers. AreLayers file.now features.now lookups.now origins.now limit.new layers) }
    ensures spends { limit.new ≤ limit.old }
    ensures memory { IfErr result (λ e. e ≡ errors.File causes.Memory) }
{
    let gdef = gdef_of(alloc, file, origins, limit)?;
    let gsub = gsub_of(alloc, file, features, lookups, origins, gdef.outcome, limit)?;
    let gpos = gpos_of(alloc, file, features, origins, gdef.outcome, limit)?;
    let kern = kern_of(alloc, file, features, origins, &gpos, limit)?;
    let vertical = vertical_of(alloc, file, origins)?;
    Ok(Layers {
        gdef,
        gsub,
        gpos,
        kern,
        vertical,
    })
}
