//! Named instances of variable fonts.
ghost use Rattle.std.specs.Prelude.{◌≡◌, ◌<◌, IfOk};
ghost use Rattle.postscript_c.specs.Instances.{AreCoordinatesOf, TellsInstance, TellsInstanceIn, TellsInstanceOf, instance_room, name_or_none as the_name_or_none, shown as the_shown};
ghost use Rattle.postscript_variation.specs.LentAxes.{axis_count, instance_count};

use crate::axes::{axes_of, axes_status};
use crate::files::file_status;
use crate::status::{MEMORY, NO_INSTANCE, NO_TABLE};
use crate::texts::hand_over;
use postscript_sfnt::FontFile;
use postscript_variation::{Axes, Instance};
use std::alloc::{AllocError, Global};

/// A named instance of a variable font without its coordinates.
#[repr(C)]
#[derive(Clone, Copy)]
pub struct PsfInstance {
    /// The identifier of its name in the `name` table.
    pub name: u32,
    pub flags: u32,
    /// The identifier of its PostScript name, or -1 if it has none.
    pub postscript_name: i32,
}

/// The identifier of a PostScript name, or -1.
fn name_or_none(name: Option<u16>) -> i32
    ensures { result ≡ the_name_or_none name }
{
    match name {
        Some(65535) => -1,
        Some(name) => i32::from(name),
        None => -1,
    }
}

/// An instance in the form for C.
fn instance_for_c(instance: &Instance) -> PsfInstance
    ensures { result ≡ the_shown instance.now }
{
    PsfInstance {
        name: u32::from(instance.name),
        flags: u32::from(instance.flags),
        postscript_name: name_or_none(instance.postscript_name),
    }
}

/// The user coordinates of an instance, in the order of the axes.
#[tactic(auto, using(crate::proofs::Instancing::no_axes, crate::proofs::Instancing::one_axis))]
fn coordinates_of(alloc: Global, axes: &Axes<'_>, i: usize) -> Result<Vec<i32>, AllocError>
    requires { i < instance_count axes.now }
    ensures { IfOk result (λ all. AreCoordinatesOf axes.now i (axis_count axes.now) all.items) }
{
    let count = axes.len();
    let mut all = Vec::with_capacity(alloc, count)?;
    for axis in 0..count {
        if let Some(at) = axes.coordinate(i, axis) {
            all.push(at)?;
        }
    }
    Ok(all)
}

/// Stores an instance and its coordinates.
fn tell_instance_in(
    alloc: Global,
    axes: &Axes<'_>,
    i: usize,
    instance: &mut PsfInstance,
    room: &mut [i32],
    count: &mut usize,
) -> i32
    ensures { TellsInstanceIn axes.now i result (instance_room instance.old room.old count.old)
        (instance_room instance.new room.new count.new) }
{
    let Some(found) = axes.instance(i) else {
        return NO_INSTANCE;
    };
    match coordinates_of(alloc, axes, i) {
        Ok(all) => {
            *instance = instance_for_c(&found);
            hand_over(&all, room, count)
        }
        Err(_) => MEMORY,
    }
}

/// Stores an instance of a face.
fn tell_instance_of(
    alloc: Global,
    file: &FontFile<'_>,
    i: usize,
    instance: &mut PsfInstance,
    room: &mut [i32],
    count: &mut usize,
) -> i32
    ensures { TellsInstanceOf file.now i result (instance_room instance.old room.old count.old)
        (instance_room instance.new room.new count.new) }
{
    match axes_of(file) {
        Ok(Some(axes)) => tell_instance_in(alloc, &axes, i, instance, room, count),
        Ok(None) => NO_TABLE,
        Err(e) => axes_status(e),
    }
}

/// Stores an instance of a face of a file.
pub(crate) fn tell_instance(
    alloc: Global,
    bytes: &[u8],
    face: usize,
    i: usize,
    instance: &mut PsfInstance,
    room: &mut [i32],
    count: &mut usize,
) -> i32
    ensures { TellsInstance bytes.now face i result (instance_room instance.old room.old count.old)
        (instance_room instance.new room.new count.new) }
{
    match FontFile::read(bytes, face) {
        Ok(file) => tell_instance_of(alloc, &file, i, instance, room, count),
        Err(e) => file_status(e),
    }
}
