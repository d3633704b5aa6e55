//! The amount of work that the tables of a variable font make, computed beforehand.
ghost use Rattle.std.specs.Prelude.{◌≡◌, ℕ, ◌+◌, ◌*◌, ◌-◌, ◌^◌, ◌<◌, ◌≤◌, IsFalse, IsTrue, MatchOption, length, min, ◌↔◌};
ghost use Rattle.postscript_instance_file.specs.Weights.{HasLongDictionary, HasManyDeltas, HasManyScalars, HasNarrowData, HasWideData, IsHeavy, IsLight, UseInAll, UseRegions, axes_in, instances_in, private_size};
ghost use Rattle.postscript_variation.specs.Lent.{table_count};

use crate::face::VariableFace;
use postscript_base::index::number::number_within;
use postscript_cff2::Dictionary;
use postscript_cff2::layout::PRIVATE;
use postscript_variation::{Axes, Store};

/// The most axes, and the most named instances, of a font.
const MOST: usize = 4_000;

/// The most scalars at a location: one for each region that item variation data use, even if the data overlap.
const SCALARS: u64 = 5_000_000;

/// The most steps for the scalars of a location, or for all advances: one for each axis of each region. It also limits
/// the bytes of DICTs that are read for all glyphs.
const STEPS: u64 = 100_000_000;

/// Returns whether this many times so much work takes too many steps.
fn exceeds(work: u64, times: u64) -> bool
    ensures { IsTrue result ↔ (STEPS < work * times) }
{
    work.saturating_mul(times) > STEPS
}

/// Returns the number of regions that item variation data use.
fn regions_in(store: &Store<'_>, number: usize) -> u64
    ensures { UseRegions store.now number result }
{
    match store.table(number) {
        Some(data) => data.len() as u64,
        None => 0,
    }
}

/// Returns the number of regions that all item variation data use. Greater numbers are cut to the greatest one.
fn all_regions(store: &Store<'_>) -> u64
    ensures { (total : ℕ) × UseInAll store.now (table_count store.now) total × (result ≡ min total (2 ^ 64 - 1)) }
{
    let mut sum = 0u64;
    for number in 0..store.len() {
        sum = sum.saturating_add(regions_in(store, number));
    }
    sum
}

/// Returns whether item variation data use so many regions that this number of sums takes too many steps.
fn has_wide_data(store: &Store<'_>, sums: u64) -> bool
    ensures wide { IsTrue result → HasWideData store.now sums }
    ensures narrow { IsFalse result → HasNarrowData store.now sums }
{
    for number in 0..store.len() {
        if exceeds(regions_in(store, number), sums) {
            return true;
        }
    }
    false
}

/// Returns the size of the Private DICT of a Font DICT.
fn size_of_private(face: &VariableFace<'_>, dictionary: &[u8]) -> u64
    ensures { result ≡ private_size face.now.font.bytes.now dictionary.now }
{
    let named = Dictionary { bytes: dictionary }.offset(PRIVATE);
    named.unwrap_or(0).min(face.font.bytes.len()) as u64
}

/// Returns whether a Font DICT and its Private DICT have too many bytes to be read for each glyph.
fn is_too_long(face: &VariableFace<'_>, dictionary: &[u8]) -> bool
    ensures { IsTrue result ↔ (STEPS < (private_size face.now.font.bytes.now dictionary.now + length dictionary.now) * face.now.glyphs) }
{
    let size = size_of_private(face, dictionary).saturating_add(dictionary.len() as u64);
    exceeds(size, u64::from(face.glyphs))
}

/// Returns whether the DICTs that are read for the glyphs have too many bytes.
fn reads_too_much(face: &VariableFace<'_>) -> bool
    ensures { IsTrue result ↔ HasLongDictionary face.now }
{
    for number in 0..face.font.font_dictionaries.len() {
        if let Some(dictionary) = face.font.font_dictionaries.get(number) {
            if is_too_long(face, dictionary) {
                return true;
            }
        }
    }
    false
}

/// Returns whether a location has too many scalars, or takes too many steps.
fn varies_too_much(store: &Option<Store<'_>>, axes: usize) -> bool
    requires { axes ≤ MOST }
    ensures { IsTrue result ↔ HasManyScalars store.now axes }
{
    match store {
        Some(store) => {
            let sum = all_regions(store);
            sum > SCALARS || exceeds(sum, axes as u64 + 1)
        }
        None => false,
    }
}

/// Returns the number of sums with the deltas of all advances: one for each glyph, and one for each axis of it.
fn sums_of(axes: usize, glyphs: u16) -> u64
    requires { axes ≤ MOST }
    ensures { result ≡ (axes + 1) * glyphs }
{
    (axes as u64 + 1) * u64::from(glyphs)
}

/// Returns whether the variations of all advances take too many steps.
fn advances_too_much(face: &VariableFace<'_>, axes: usize) -> bool
    requires are { axes ≡ axes_in face.now.axes }
    requires few { axes ≤ MOST }
    ensures { IsTrue result ↔ HasManyDeltas face.now }
{
    if face.variations.is_none() {
        return false;
    }
    let Some(hvar) = face.file.table(*b"HVAR") else {
        return false;
    };
    let Ok(place) = number_within(hvar, 4, 4) else {
        return false;
    };
    match Store::read(hvar, place) {
        Ok(store) => has_wide_data(&store, sums_of(axes, face.glyphs)),
        Err(_) => false,
    }
}

/// Returns the number of axes.
fn axes_of(axes: &Option<Axes<'_>>) -> usize
    ensures { result ≡ axes_in axes.now }
{
    match axes {
        Some(axes) => axes.len(),
        None => 0,
    }
}

/// Returns the number of named instances.
fn instances_of(axes: &Option<Axes<'_>>) -> usize
    ensures { result ≡ instances_in axes.now }
{
    match axes {
        Some(axes) => axes.instances(),
        None => 0,
    }
}

/// Returns the first table that is too expensive to process. Returns `None` if there is none.
pub(crate) fn heavy_table(face: &VariableFace<'_>) -> Option<&'static str>
    ensures { MatchOption result (IsLight face.now) (λ name. IsHeavy face.now name.now) }
{
    let axes = axes_of(&face.axes);
    if axes > MOST || instances_of(&face.axes) > MOST {
        Some("fvar")
    } else if reads_too_much(face) || varies_too_much(&face.font.store, axes) {
        Some("CFF2")
    } else if advances_too_much(face, axes) {
        Some("HVAR")
    } else {
        None
    }
}
