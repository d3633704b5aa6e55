//! Locations in the design space, by a user coordinate for each axis.
ghost use Rattle.std.specs.Prelude.{◌≡◌, ◌⊎◌, ◌<◌, ◌≤ℤ◌, pos, negsuc, length, slice_get, IfErr, IfOk};
ghost use Rattle.postscript_c.specs.Placed.{AreAlong, AreCoordinatesAt, AreNormalized, HasBadMaps, HasMaps, IsUnplaced, axes_in, coordinate_of, maps_code, unplaced_code, value_along as the_value_along};
ghost use Rattle.postscript_c.specs.declared.place.Unplaced.TheVariants as unplaced;
ghost use Rattle.postscript_variation.specs.Coordinates.{mapped_with};
ghost use Rattle.postscript_variation.specs.LentAxes.{axis_count};
ghost use Rattle.postscript_variation.specs.Normalized.{normalized, shortened as the_shortened};

use crate::axes::{axes_of, axes_status};
use crate::status::{MEMORY, TOO_MANY_COORDINATES};
use postscript_sfnt::FontFile;
use postscript_variation::{Axes, Axis, Error, Maps};
use std::alloc::{AllocError, Global};

/// The reason why user coordinates are invalid.
#[derive(Drop)]
pub(crate) enum Unplaced {
    /// The `fvar` table is malformed.
    BadAxes(Error),
    /// The `avar` table is malformed.
    BadMaps(Error),
    /// There are more values than axes.
    TooMany,
    /// Out of memory.
    Memory,
}

/// The status of an error of the `avar` table.
fn maps_status(e: Error) -> i32
    ensures { result ≡ pos (maps_code e) }
{
    match e {
        Error::Cut => 56,
        Error::UnknownFormat => 57,
    }
}

/// The status of an error.
pub(crate) fn unplaced_status(e: &Unplaced) -> i32
    ensures { result ≡ pos (unplaced_code e.now) }
{
    match e {
        Unplaced::BadAxes(cause) => axes_status(*cause),
        Unplaced::BadMaps(cause) => maps_status(*cause),
        Unplaced::TooMany => TOO_MANY_COORDINATES,
        Unplaced::Memory => MEMORY,
    }
}

/// The segment maps of a face. `None` if it has no `avar` table.
fn maps_of<'l>(file: &FontFile<'l>) -> postscript_variation::Result<Option<Maps<'l>>>
    ensures found { IfOk result (λ maps. HasMaps file.now maps) }
    ensures why { IfErr result (λ e. HasBadMaps file.now e) }
{
    match file.table(*b"avar") {
        Some(avar) => match Maps::read(avar) {
            Ok(maps) => Ok(Some(maps)),
            Err(e) => Err(e),
        },
        None => Ok(None),
    }
}

/// The value for an axis.
pub(crate) fn value_at(values: &[i32], axis: usize) -> Option<i32>
    ensures { result ≡ slice_get values.now axis }
{
    values.get(axis).copied()
}

/// The value along an axis: the given one, or its default.
pub(crate) fn value_along(axis: &Axis, value: Option<i32>) -> i32
    ensures { result ≡ the_value_along axis.now value }
{
    match value {
        Some(value) => value,
        None => axis.default,
    }
}

/// Applies `avar`, if there is one, to a normalized coordinate.
fn map_coordinate(maps: Option<Maps<'_>>, axis: usize, at: i32) -> i32
    ensures exact { result ≡ mapped_with maps.entry axis at }
    ensures least { negsuc 131071 ≤ℤ at → negsuc 131071 ≤ℤ result }
    ensures most { at ≤ℤ pos 131068 → result ≤ℤ pos 131068 }
{
    match maps {
        Some(maps) => maps.mapped(axis, at),
        None => at,
    }
}

/// Converts units of 2 ^ -16 to units of 2 ^ -14.
fn to_f2dot14(at: i32) -> i16
    requires least { negsuc 131071 ≤ℤ at }
    requires most { at ≤ℤ pos 131068 }
    ensures { result ≡ the_shortened at }
{
    (at + 2).div_euclid(4) as i16
}

/// The normalized coordinate of a value along an axis.
fn coordinate_on(found: &Axis, axis: usize, maps: Option<Maps<'_>>, value: i32) -> i16
    ensures { result ≡ the_shortened
        (mapped_with maps.entry axis (normalized found.now.minimum found.now.default found.now.maximum value)) }
{
    to_f2dot14(map_coordinate(maps, axis, found.normalized(value)))
}

/// The normalized coordinate along an axis.
fn coordinate(axes: &Axes<'_>, maps: Option<Maps<'_>>, values: &[i32], axis: usize) -> i16
    requires { axis < axis_count axes.now }
    ensures { result ≡ coordinate_of axes.now maps.entry values.now axis }
{
    let Some(found) = axes.get(axis) else {
        return 0;
    };
    let value = value_along(&found, value_at(values, axis));
    coordinate_on(&found, axis, maps, value)
}

/// The normalized coordinates along all axes.
#[tactic(auto, using(crate::proofs::Placing::no_axes, crate::proofs::Placing::one_axis))]
fn coordinates_along(
    alloc: Global,
    axes: &Axes<'_>,
    maps: Option<Maps<'_>>,
    values: &[i32],
) -> Result<Vec<i16>, AllocError>
    ensures { IfOk result (λ all. AreAlong axes.now maps.entry values.now (axis_count axes.now) all.items) }
{
    let count = axes.len();
    let mut all = Vec::with_capacity(alloc, count)?;
    for axis in 0..count {
        all.push(coordinate(axes, maps, values, axis))?;
    }
    Ok(all)
}

/// The normalized coordinates along the axes, if there are any.
fn all_normalized(
    alloc: Global,
    axes: Option<Axes<'_>>,
    maps: Option<Maps<'_>>,
    values: &[i32],
) -> Result<Vec<i16>, Unplaced>
    ensures found { IfOk result (λ all. AreNormalized axes.entry maps.entry values.now all.items) }
    ensures why { IfErr result (λ e. (e ≡ unplaced.Memory) ⊎ ((e ≡ unplaced.TooMany) × (axes_in axes.entry < length values.now))) }
{
    match axes {
        Some(axes) => {
            if axes.len() < values.len() {
                return Err(Unplaced::TooMany);
            }
            match coordinates_along(alloc, &axes, maps, values) {
                Ok(all) => Ok(all),
                Err(_) => Err(Unplaced::Memory),
            }
        }
        None => {
            if !values.is_empty() {
                return Err(Unplaced::TooMany);
            }
            Ok(Vec::new(alloc))
        }
    }
}

/// The normalized coordinates of user coordinates of a face.
pub(crate) fn coordinates_at(
    alloc: Global,
    file: &FontFile<'_>,
    values: &[i32],
) -> Result<Vec<i16>, Unplaced>
    ensures found { IfOk result (λ all. AreCoordinatesAt file.now values.now all.items) }
    ensures why { IfErr result (λ e. IsUnplaced file.now values.now e) }
{
    match axes_of(file) {
        Ok(axes) => match maps_of(file) {
            Ok(maps) => all_normalized(alloc, axes, maps, values),
            Err(e) => Err(Unplaced::BadMaps(e)),
        },
        Err(e) => Err(Unplaced::BadAxes(e)),
    }
}
