//! The axes of variable fonts.
ghost use Rattle.std.specs.Prelude.{◌≡◌, pos, IfErr, IfOk};
ghost use Rattle.postscript_c.specs.Axes.{HasAxes, HasBadAxes, TellsAxis, TellsAxisIn, TellsAxisOf, axes_code, axis_told, shown as the_shown};

use crate::files::file_status;
use crate::status::{NO_AXIS, NO_TABLE};
use postscript_sfnt::FontFile;
use postscript_variation::{Axes, Axis, Error, Result};

/// A design axis of a variable font. Its values are user coordinates, as 16.16 numbers.
#[repr(C)]
#[derive(Clone, Copy)]
pub struct PsfAxis {
    /// The big-endian number of its four characters.
    pub tag: u32,
    pub minimum: i32,
    pub default_value: i32,
    pub maximum: i32,
    /// 1 if user interfaces should not show it, otherwise 0.
    pub is_hidden: u32,
    /// The identifier of its name in the `name` table.
    pub name: u32,
}

/// An axis in the form for C.
fn axis_for_c(axis: &Axis) -> PsfAxis
    ensures { result ≡ the_shown axis.now }
{
    PsfAxis {
        tag: axis.tag,
        minimum: axis.minimum,
        default_value: axis.default,
        maximum: axis.maximum,
        is_hidden: u32::from(axis.flags % 2),
        name: u32::from(axis.name),
    }
}

/// The axes and instances of a face. `None` if it has no `fvar` table.
pub(crate) fn axes_of<'l>(file: &FontFile<'l>) -> Result<Option<Axes<'l>>>
    ensures found { IfOk result (λ axes. HasAxes file.now axes) }
    ensures why { IfErr result (λ e. HasBadAxes file.now e) }
{
    match file.table(*b"fvar") {
        Some(fvar) => match Axes::read(fvar) {
            Ok(axes) => Ok(Some(axes)),
            Err(e) => Err(e),
        },
        None => Ok(None),
    }
}

/// The status of an error of the `fvar` table.
pub(crate) fn axes_status(e: Error) -> i32
    ensures { result ≡ pos (axes_code e) }
{
    match e {
        Error::Cut => 54,
        Error::UnknownFormat => 55,
    }
}

/// Stores an axis and the number of axes.
fn tell_axis_in(axes: &Axes<'_>, i: usize, axis: &mut PsfAxis, count: &mut usize) -> i32
    ensures { TellsAxisIn axes.now i result (axis_told axis.old count.old) (axis_told axis.new count.new) }
{
    *count = axes.len();
    match axes.get(i) {
        Some(found) => {
            *axis = axis_for_c(&found);
            0
        }
        None => NO_AXIS,
    }
}

/// Stores an axis of a face.
fn tell_axis_of(file: &FontFile<'_>, i: usize, axis: &mut PsfAxis, count: &mut usize) -> i32
    ensures { TellsAxisOf file.now i result (axis_told axis.old count.old) (axis_told axis.new count.new) }
{
    match axes_of(file) {
        Ok(Some(axes)) => tell_axis_in(&axes, i, axis, count),
        Ok(None) => NO_TABLE,
        Err(e) => axes_status(e),
    }
}

/// Stores an axis of a face of a file.
pub(crate) fn tell_axis(
    bytes: &[u8],
    face: usize,
    i: usize,
    axis: &mut PsfAxis,
    count: &mut usize,
) -> i32
    ensures { TellsAxis bytes.now face i result (axis_told axis.old count.old) (axis_told axis.new count.new) }
{
    match FontFile::read(bytes, face) {
        Ok(file) => tell_axis_of(&file, i, axis, count),
        Err(e) => file_status(e),
    }
}
