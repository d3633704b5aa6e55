//! Locations in the design space.
ghost use Rattle.std.specs.Prelude.{◌≡◌, IfErr, IfOk};
ghost use Rattle.postscript_instance_file.specs.Faces.{AreNormalized, IsAt, value_along};
ghost use Rattle.postscript_instance_file.specs.Refusals.{IsUnplaced, NoPlaceIn};
ghost use Rattle.postscript_instance_file.specs.declared.error.Error.TheVariants as errors;

use crate::error::Result;
use crate::face::VariableFace;
use postscript_variable_font::Place;
use postscript_variation::{Axis, Setting, value_of};
use std::alloc::Global;

/// A location of a variable font.
#[derive(Drop)]
pub struct Location {
    /// The scalars of the item variation store of the `CFF2` table.
    pub place: Place,
    /// The normalized coordinates, one for each axis.
    pub coordinates: Vec<i16>,
    /// The user coordinates that were given.
    pub settings: Vec<Setting>,
    /// The named instance that was chosen, if one was.
    pub instance: Option<usize>,
}

/// Returns the normalized coordinates of user coordinates, one for each axis.
fn normalized_coordinates(
    alloc: Global,
    face: &VariableFace<'_>,
    settings: &[Setting],
) -> Result<Vec<i16>>
    ensures found { IfOk result (λ all. AreNormalized face.now.axes face.now.maps settings.now all.items) }
    ensures memory { IfErr result (λ e. e ≡ errors.Memory) }
{
    let mut coordinates: Vec<i16> = Vec::new(alloc);
    if let Some(axes) = &face.axes {
        coordinates.resize(axes.len(), 0)?;
        axes.normalize(face.maps, settings, &mut coordinates);
    }
    Ok(coordinates)
}

/// Returns the scalars of a face at normalized coordinates.
fn scalars(
    alloc: Global,
    face: &VariableFace<'_>,
    coordinates: &[i16],
) -> postscript_variable_font::Result<Place>
    ensures { IfErr result (λ e. NoPlaceIn face.now.font.store e) }
{
    match &face.font.store {
        Some(store) => Place::of(alloc, Some(store), coordinates),
        None => Place::of(alloc, None, coordinates),
    }
}

impl Location {
    /// Returns the location with these user coordinates. All other axes have their defaults.
    ///
    /// The static font gets the name of `instance`. If that is `None`, it gets the name of the first instance at the
    /// location.
    ///
    /// # Errors
    ///
    /// - `Place`: the item variation store is malformed.
    /// - `Memory`: out of memory.
    pub fn of(
        alloc: Global,
        face: &VariableFace<'_>,
        settings: Vec<Setting>,
        instance: Option<usize>,
    ) -> Result<Location>
        // The coordinates are those of the settings, normalized.
        ensures at { IfOk result (λ location. IsAt face.now settings.items location) }
        // The location keeps the settings.
        ensures settings { IfOk result (λ location. location.settings ≡ settings) }
        // It keeps the chosen instance.
        ensures instance { IfOk result (λ location. location.instance ≡ instance) }
        // An error is `Memory`, or the item variation store of the font lacks data.
        ensures why { IfErr result (λ e. IsUnplaced face.now e) }
    {
        let coordinates = normalized_coordinates(alloc, face, settings.as_slice())?;
        let place = scalars(alloc, face, coordinates.as_slice())?;
        Ok(Location {
            place,
            coordinates,
            settings,
            instance,
        })
    }

    /// Returns the value of an axis in 65536ths: the last one that was given with its tag, or the default. It is clamped
    /// to the axis.
    pub fn value(&self, axis: &Axis) -> i32
        // The last value that was given with the tag of the axis, or its default, clamped to it.
        ensures { result ≡ value_along axis.now self.now.settings.items }
    {
        let asked = value_of(self.settings.as_slice(), axis);
        asked.max(axis.minimum).min(axis.maximum)
    }
}
