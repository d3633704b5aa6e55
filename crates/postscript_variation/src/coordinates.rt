//! Normalized coordinates along all axes (OpenType 1.9, "OpenType Font Variations Overview", "Coordinate scales and
//! normalization").
ghost use Rattle.std.specs.Prelude.{◌≡◌, ℕ, ◌<◌, ◌≤◌, pos, negsuc, ◌≤ℤ◌, length, slice_get};
ghost use Rattle.postscript_variation.specs.Asked.{asked, chosen as the_chosen};
ghost use Rattle.postscript_variation.specs.Coordinates.{coordinate_by, mapped_with};

use crate::axes::{Axes, Axis};
use crate::maps::Maps;
use crate::normalize::to_f2dot14;

/// A user coordinate for the axes with a tag, as wght=700.
#[derive(Clone, Copy, Debug, Drop, PartialEq, Eq)]
pub struct Setting {
    /// The big-endian number of the four characters of the tag.
    pub tag: u32,
    /// The user coordinate, in units of 2 ^ -16.
    pub value: i32,
}

/// The value of a setting if it has the tag, otherwise `value`.
fn setting_or(settings: &[Setting], k: usize, tag: u32, value: i32) -> i32
    ensures { result ≡ the_chosen (slice_get settings.now k) tag value }
{
    match settings.get(k) {
        Some(setting) => {
            if setting.tag == tag {
                setting.value
            } else {
                value
            }
        }
        None => value,
    }
}

/// Returns the user coordinate along an axis, in units of 2 ^ -16: the last setting with its tag, or its default.
#[tactic(auto, using(crate::proofs::Asking::by_one_more))]
pub fn value_of(settings: &[Setting], axis: &Axis) -> i32
    // The value of the last setting with the tag of the axis, or its default.
    ensures { result ≡ asked settings.now axis.now.tag axis.now.default }
{
    let mut value = axis.default;
    for k in 0..settings.len() {
        value = setting_or(settings, k, axis.tag, value);
    }
    value
}

/// Applies `avar`, if there is one, to a normalized coordinate.
fn map_coordinate(maps: Option<Maps<'_>>, axis: usize, at: i32) -> i32
    ensures exact { result ≡ mapped_with maps.entry axis at }
    ensures least { negsuc 131071 ≤ℤ at → negsuc 131071 ≤ℤ result }
    ensures most { at ≤ℤ pos 131068 → result ≤ℤ pos 131068 }
{
    match maps {
        Some(maps) => maps.mapped(axis, at),
        None => at,
    }
}

/// The normalized coordinate along an axis, in units of 2 ^ -14.
fn coordinate_of(found: &Axis, axis: usize, maps: Option<Maps<'_>>, settings: &[Setting]) -> i16
    ensures { result ≡ coordinate_by found.now axis maps.entry settings.now }
{
    to_f2dot14(map_coordinate(maps, axis, found.normalized(value_of(settings, found))))
}

impl<'l> Axes<'l> {
    ghost use Rattle.postscript_variation.specs.Coordinates.{AreCoordinates, coordinate_along};

    /// Returns the normalized coordinate along an axis, in units of 2 ^ -14, after `avar` if there is one.
    ///
    /// The user coordinate is the last setting with the tag of the axis, or its default. Returns 0 if there is no such
    /// axis.
    #[tactic(auto, using(crate::proofs::Asking::along))]
    pub fn normalized(&self, axis: usize, maps: Option<Maps<'_>>, settings: &[Setting]) -> i16
        // The result is exactly what `coordinate_along` computes (specs/Coordinates.antt).
        ensures { result ≡ coordinate_along self.now maps.entry settings.now axis }
    {
        match self.get(axis) {
            Some(found) => coordinate_of(&found, axis, maps, settings),
            None => 0,
        }
    }

    /// Fills a list with the normalized coordinates along the axes, in their order. Entries after the last axis are set
    /// to 0.
    #[tactic(auto, using(crate::proofs::Asking::one_more))]
    pub fn normalize(&self, maps: Option<Maps<'_>>, settings: &[Setting], coordinates: &mut [i16])
        // The length of the list is unchanged.
        ensures len { length coordinates.new ≡ length coordinates.old }
        // Each entry is what `coordinate_along` computes for the axis with its index.
        ensures exact { AreCoordinates self.now maps.entry settings.now coordinates.new (length coordinates.new) }
    {
        for axis in 0..coordinates.len() {
            coordinates[axis] = self.normalized(axis, maps, settings);
        }
    }
}
