//! Locations in the design space, from arguments.
use super::VariableFace;
use super::fixed::fixed_of;
use postscript_text::text_of;
use postscript_variation::{Axes, Axis, Setting};
use psotf_output::failure::Failure;
use psotf_output::telling::tell;
use std::alloc::{AllocError, Global};

/// A location that the arguments chose.
pub use postscript_instance_file::Location as Chosen;

/// The message for a malformed list of axis values.
const NO_SETTINGS: &str = "--variations takes a list of tags and numbers, e.g. wght=650,opsz=12";

/// Parses a tag of one to four bytes, padded with spaces.
fn tag_of(word: &str) -> Option<u32> {
    if word.is_empty() || word.len() > 4 {
        return None;
    }
    let mut tag = 0u32;
    for i in 0..4usize {
        let byte = word.as_bytes().get(i).copied().unwrap_or(b' ');
        tag = tag.wrapping_mul(256).wrapping_add(u32::from(byte));
    }
    Some(tag)
}

/// Returns the first axis with a tag.
fn axis_of(axes: &Axes<'_>, tag: u32) -> Option<Axis> {
    for i in 0..axes.len() {
        if let Some(axis) = axes.get(i) {
            if axis.tag == tag {
                return Some(axis);
            }
        }
    }
    None
}

/// Returns the axis of a font with a tag.
pub fn axis_named(alloc: Global, face: &VariableFace<'_>, name: &str) -> Result<Axis, Failure> {
    let axes = axes_of(face)?;
    if let Some(tag) = tag_of(name) {
        if let Some(axis) = axis_of(axes, tag) {
            return Ok(axis);
        }
    }
    Err(Failure::no_axis(String::from_str(alloc, name)?))
}

/// Returns the axes of a font.
fn axes_of<'f, 'l>(face: &'f VariableFace<'l>) -> Result<&'f Axes<'l>, Failure> {
    match &face.opened.axes {
        Some(axes) => Ok(axes),
        None => Err(Failure::no_table("fvar")),
    }
}

/// Parses an axis value such as wght=650. A value outside the axis is reported on standard error.
fn setting_of(rt: &HostRuntime, axes: &Axes<'_>, word: &str) -> Result<Setting, Failure> {
    let Some((name, number)) = word.split_once('=') else {
        return Err(Failure::usage(NO_SETTINGS));
    };
    let (Some(tag), Some(value)) = (tag_of(name), fixed_of(number)) else {
        return Err(Failure::usage(NO_SETTINGS));
    };
    let Some(axis) = axis_of(axes, tag) else {
        return Err(Failure::no_axis(String::from_str(rt.alloc(), name)?));
    };
    if value < axis.minimum || value > axis.maximum {
        tell(
            rt,
            format_args!("{name}={number} is outside the axis and is clamped"),
        )?;
    }
    Ok(Setting { tag, value })
}

/// Parses a list of axis values.
fn settings_of(rt: &HostRuntime, axes: &Axes<'_>, list: &str) -> Result<Vec<Setting>, Failure> {
    let mut settings = Vec::new(rt.alloc());
    for word in list.split(',') {
        settings.push(setting_of(rt, axes, word)?)?;
    }
    Ok(settings)
}

/// Returns the number of the first instance with a name.
fn instance_of(
    alloc: Global,
    face: &VariableFace<'_>,
    axes: &Axes<'_>,
    name: &str,
) -> Result<usize, Failure> {
    for i in 0..axes.instances() {
        if let Some(instance) = axes.instance(i) {
            if text_of(alloc, face.opened.name(instance.name))?.as_str() == name {
                return Ok(i);
            }
        }
    }
    Err(Failure::no_instance(String::from_str(alloc, name)?))
}

/// Returns the axis values of an instance.
fn settings_of_instance(
    alloc: Global,
    axes: &Axes<'_>,
    instance: usize,
) -> Result<Vec<Setting>, AllocError> {
    let mut settings = Vec::new(alloc);
    for i in 0..axes.len() {
        if let (Some(axis), Some(value)) = (axes.get(i), axes.coordinate(instance, i)) {
            settings.push(Setting {
                tag: axis.tag,
                value,
            })?;
        }
    }
    Ok(settings)
}

/// Returns the axis values of a named instance and its number, or those of a list, or none.
fn chosen_settings(
    rt: &HostRuntime,
    face: &VariableFace<'_>,
    instance: Option<&str>,
    variations: Option<&str>,
) -> Result<(Vec<Setting>, Option<usize>), Failure> {
    if let Some(name) = instance {
        let axes = axes_of(face)?;
        let instance = instance_of(rt.alloc(), face, axes, name)?;
        let settings = settings_of_instance(rt.alloc(), axes, instance)?;
        return Ok((settings, Some(instance)));
    }
    match variations {
        Some(list) => Ok((settings_of(rt, axes_of(face)?, list)?, None)),
        None => Ok((Vec::new(rt.alloc()), None)),
    }
}

/// Returns the location of axis values, which may be those of an instance.
fn location_of(
    alloc: Global,
    face: &VariableFace<'_>,
    settings: Vec<Setting>,
    instance: Option<usize>,
) -> Result<Chosen, Failure> {
    match Chosen::of(alloc, &face.opened, settings, instance) {
        Ok(chosen) => Ok(chosen),
        Err(error) => Err(Failure::other(error)),
    }
}

/// Returns the location of a named instance, or of a list of axis values. Without both, it is the default instance.
pub fn chosen_location(
    rt: &HostRuntime,
    face: &VariableFace<'_>,
    instance: Option<&str>,
    variations: Option<&str>,
) -> Result<Chosen, Failure> {
    let (settings, instance) = chosen_settings(rt, face, instance, variations)?;
    location_of(rt.alloc(), face, settings, instance)
}

/// Returns the same location with another value of one axis.
pub fn with_setting(
    alloc: Global,
    face: &VariableFace<'_>,
    from: &Chosen,
    along: Setting,
) -> Result<Chosen, Failure> {
    let mut settings = Vec::new(alloc);
    for setting in &from.settings {
        settings.push(*setting)?;
    }
    settings.push(along)?;
    location_of(alloc, face, settings, None)
}
