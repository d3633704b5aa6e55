//! New font files of locations of variable fonts.
ghost use Rattle.std.specs.Prelude.{◌≡◌, ◌⊎◌, ◌<◌, length, pos, IfErr, IfOk};
ghost use Rattle.postscript_c.specs.Placed.{IsUnplaced, axes_in};
ghost use Rattle.postscript_c.specs.Statics.{AreSettings, AreSettingsAlong, AreSettingsIn, AreSettingsOf, IsStaticOf, IsWrittenAt, TellsStatic, TellsStaticOf, file_written_code, glyph_cause as the_glyph_cause, glyph_code, made_code, no_static_code, no_static_refusal as the_no_static_refusal, place_code, setting_of, static_code, static_refusal as the_static_refusal, tag_of as the_tag_of, variations_code};
ghost use Rattle.postscript_c.specs.Texts.{lent};
ghost use Rattle.postscript_c.specs.declared.place.Unplaced.TheVariants as unplaced;
ghost use Rattle.postscript_sfnt.specs.Lent.{IsFaceOf};
ghost use Rattle.postscript_variation.specs.LentAxes.{axis_count};

use crate::axes::axes_of;
use crate::files::file_status;
use crate::place::{Unplaced, unplaced_status, value_along, value_at};
use crate::status::{
    CUT_TABLE, MEMORY, NO_DATA, NO_GLYPH, NO_PART, NO_TABLE, NOT_VARIABLE, OUT_OF_RANGE, OVERFLOW,
    REFUSED_GLYPH, SAME_TAG, TOO_LARGE, TOO_LONG, UNKNOWN_TABLE, UNSUPPORTED,
};
use crate::texts::hand_over;
use crate::told::{status, undrawn_status};
use crate::varied::table_status;
use crate::written::{PsfRefusal, is_set, refusal_with};
use postscript_base::index::number::number_at;
use postscript_instance::Error as CodeError;
use postscript_instance_file::{Error, GlyphError, StaticFont, instance_file};
use postscript_sfnt::{Error as FileError, FontFile};
use postscript_sfnt_write::Error as WriteError;
use postscript_variable_font::Error as PlaceError;
use postscript_variation::{Axes, Error as TableError, Setting};
use std::alloc::{AllocError, Global};

/// The part of the limit that a glyph may cost.
const GLYPHS: u64 = 20;

/// The reason why no file of a location is written.
#[derive(Drop)]
pub(crate) enum NoStatic {
    /// The file has no such face.
    NoFace(FileError),
    /// The user coordinates are invalid.
    NoPlace(Unplaced),
    /// The file is not written.
    Unwritten(Error),
}

/// The setting of an axis: the value with its index, or its default.
fn setting(axes: &Axes<'_>, values: &[i32], axis: usize) -> Setting
    requires { axis < axis_count axes.now }
    ensures { result ≡ setting_of axes.now values.now axis }
{
    let Some(found) = axes.get(axis) else {
        return Setting { tag: 0, value: 0 };
    };
    let value = value_along(&found, value_at(values, axis));
    Setting {
        tag: found.tag,
        value,
    }
}

/// The settings of all axes.
#[tactic(auto, using(crate::proofs::Setting::no_settings, crate::proofs::Setting::one_setting))]
fn settings_along(
    alloc: Global,
    axes: &Axes<'_>,
    values: &[i32],
) -> Result<Vec<Setting>, AllocError>
    ensures { IfOk result (λ all. AreSettingsAlong axes.now values.now (axis_count axes.now) all.items) }
{
    let count = axes.len();
    let mut all = Vec::with_capacity(alloc, count)?;
    for axis in 0..count {
        all.push(setting(axes, values, axis))?;
    }
    Ok(all)
}

/// The settings of the axes, if there are any.
fn all_settings(
    alloc: Global,
    axes: Option<Axes<'_>>,
    values: &[i32],
) -> Result<Vec<Setting>, Unplaced>
    ensures found { IfOk result (λ all. AreSettings axes.entry values.now all.items) }
    ensures why { IfErr result (λ e. (e ≡ unplaced.Memory) ⊎ ((e ≡ unplaced.TooMany) × (axes_in axes.entry < length values.now))) }
{
    match axes {
        Some(axes) => {
            if axes.len() < values.len() {
                return Err(Unplaced::TooMany);
            }
            match settings_along(alloc, &axes, values) {
                Ok(all) => Ok(all),
                Err(_) => Err(Unplaced::Memory),
            }
        }
        None => {
            if !values.is_empty() {
                return Err(Unplaced::TooMany);
            }
            Ok(Vec::new(alloc))
        }
    }
}

/// The settings of user coordinates of a face.
fn settings_of(alloc: Global, file: &FontFile<'_>, values: &[i32]) -> Result<Vec<Setting>, Unplaced>
    ensures found { IfOk result (λ all. AreSettingsOf file.now values.now all.items) }
    ensures why { IfErr result (λ e. IsUnplaced file.now values.now e) }
{
    match axes_of(file) {
        Ok(axes) => all_settings(alloc, axes, values),
        Err(e) => Err(Unplaced::BadAxes(e)),
    }
}

/// The file of a face at the location of some settings.
fn write_static(
    alloc: Global,
    bytes: &[u8],
    face: usize,
    settings: Vec<Setting>,
    rounded: u32,
    limit: u64,
) -> Result<StaticFont, Error>
    ensures { IsWrittenAt bytes.now face settings.items rounded limit result }
{
    let mut left = limit;
    let whole = is_set(rounded);
    instance_file(
        alloc,
        bytes,
        face,
        settings,
        whole,
        limit / GLYPHS,
        &mut left,
    )
}

/// The same for the settings of user coordinates.
fn static_with(
    alloc: Global,
    bytes: &[u8],
    face: usize,
    values: &[i32],
    settings: Vec<Setting>,
    rounded: u32,
    limit: u64,
) -> Result<StaticFont, NoStatic>
    requires { AreSettingsIn bytes.now face values.now settings.items }
    ensures { IsStaticOf bytes.now face values.now rounded limit result }
{
    match write_static(alloc, bytes, face, settings, rounded, limit) {
        Ok(made) => Ok(made),
        Err(e) => Err(NoStatic::Unwritten(e)),
    }
}

/// The same for user coordinates of a face.
fn static_at(
    alloc: Global,
    bytes: &[u8],
    face: usize,
    file: &FontFile<'_>,
    values: &[i32],
    rounded: u32,
    limit: u64,
) -> Result<StaticFont, NoStatic>
    requires { IsFaceOf bytes.now face file.now }
    ensures { IsStaticOf bytes.now face values.now rounded limit result }
{
    match settings_of(alloc, file, values) {
        Ok(settings) => static_with(alloc, bytes, face, values, settings, rounded, limit),
        Err(e) => Err(NoStatic::NoPlace(e)),
    }
}

/// The same for a face of a file.
fn static_of(
    alloc: Global,
    bytes: &[u8],
    face: usize,
    values: &[i32],
    rounded: u32,
    limit: u64,
) -> Result<StaticFont, NoStatic>
    ensures { IsStaticOf bytes.now face values.now rounded limit result }
{
    match FontFile::read(bytes, face) {
        Ok(file) => static_at(alloc, bytes, face, &file, values, rounded, limit),
        Err(e) => Err(NoStatic::NoFace(e)),
    }
}

/// The tag that a name spells.
fn tag_of(name: &str) -> usize
    ensures { result ≡ the_tag_of name.now }
{
    let bytes = name.as_bytes();
    if bytes.len() < 4 {
        0
    } else {
        number_at(bytes, 0, 4)
    }
}

/// The status of an error of a charstring or of a `CFF ` table.
fn made_status(e: &CodeError) -> i32
    ensures { result ≡ pos (made_code e.now) }
{
    match e {
        CodeError::Font(cause) => status(cause),
        CodeError::TooManyOperands | CodeError::NoMove => UNSUPPORTED,
        CodeError::OtherNames | CodeError::NotOneDictionary => UNSUPPORTED,
        CodeError::TooFar => OVERFLOW,
        CodeError::NoGlyph(_) => NO_GLYPH,
        CodeError::NoData(_) => NO_DATA,
        CodeError::Advance(_) => OUT_OF_RANGE,
        CodeError::TooLarge => TOO_LARGE,
    }
}

/// The status of an error of a glyph.
fn glyph_status(e: &GlyphError) -> i32
    ensures { result ≡ pos (glyph_code e.now) }
{
    match e {
        GlyphError::NoPart => NO_PART,
        GlyphError::TooLong(_) | GlyphError::Held(_) => TOO_LONG,
        GlyphError::Segments(_) | GlyphError::UsedUp => TOO_LONG,
        GlyphError::Advance(_) | GlyphError::Run(_) => REFUSED_GLYPH,
        GlyphError::Undrawn(_) | GlyphError::Unwritten(_) => REFUSED_GLYPH,
    }
}

/// The status of the cause, with `REFUSED_GLYPH`.
fn glyph_cause(e: &GlyphError) -> i32
    ensures { result ≡ the_glyph_cause e.now }
{
    match e {
        GlyphError::Advance(_) => OUT_OF_RANGE,
        GlyphError::Run(cause) => status(cause),
        GlyphError::Undrawn(cause) => undrawn_status(cause),
        GlyphError::Unwritten(cause) => made_status(cause),
        GlyphError::NoPart | GlyphError::UsedUp => 0,
        GlyphError::TooLong(_) | GlyphError::Held(_) | GlyphError::Segments(_) => 0,
    }
}

/// The status of an error of a table of variations.
fn variations_status(e: TableError) -> i32
    ensures { result ≡ pos (variations_code e) }
{
    match e {
        TableError::Cut => CUT_TABLE,
        TableError::UnknownFormat => UNKNOWN_TABLE,
    }
}

/// The status of an error of a location.
fn place_status(e: &PlaceError) -> i32
    ensures { result ≡ pos (place_code e.now) }
{
    match e {
        PlaceError::Memory => MEMORY,
        PlaceError::MissingData(_) => NO_DATA,
    }
}

/// The status of an error of a file that is written.
fn file_written_status(e: WriteError) -> i32
    ensures { result ≡ pos (file_written_code e) }
{
    match e {
        WriteError::Memory => MEMORY,
        WriteError::Cut => CUT_TABLE,
        WriteError::CharactersDoNotRise | WriteError::TagsDoNotRise => SAME_TAG,
        WriteError::TooManyTables | WriteError::TooLarge => TOO_LARGE,
    }
}

/// The status of an error.
fn static_status(e: &Error) -> i32
    ensures { result ≡ pos (static_code e.now) }
{
    match e {
        Error::Memory => MEMORY,
        Error::File(fault) => file_status(*fault),
        Error::NotVariable => NOT_VARIABLE,
        Error::NoTable(_) => NO_TABLE,
        Error::Cut(_) => CUT_TABLE,
        Error::Variations(_, fault) => variations_status(*fault),
        Error::Font(fault) => table_status(*fault),
        Error::Place(fault) => place_status(fault),
        Error::Heavy(_) => TOO_LONG,
        Error::Glyph(_, fault) => glyph_status(fault),
        Error::Table(fault) => made_status(fault),
        Error::Names => TOO_LARGE,
        Error::Write(fault) => file_written_status(*fault),
    }
}

/// The tag or the glyph of an error, and the status of its cause.
fn static_refusal(e: &Error) -> PsfRefusal
    ensures { result ≡ the_static_refusal e.now }
{
    match e {
        Error::NoTable(name) | Error::Cut(name) | Error::Variations(name, _) => {
            refusal_with(tag_of(*name), 0)
        }
        Error::Glyph(gid, fault) => refusal_with(usize::from(*gid), glyph_cause(fault)),
        _ => refusal_with(0, 0),
    }
}

/// The status of an error.
fn no_static_status(e: &NoStatic) -> i32
    ensures { result ≡ pos (no_static_code e.now) }
{
    match e {
        NoStatic::NoFace(fault) => file_status(*fault),
        NoStatic::NoPlace(fault) => unplaced_status(fault),
        NoStatic::Unwritten(fault) => static_status(fault),
    }
}

/// The details of an error.
fn no_static_refusal(e: &NoStatic) -> PsfRefusal
    ensures { result ≡ the_no_static_refusal e.now }
{
    match e {
        NoStatic::Unwritten(fault) => static_refusal(fault),
        _ => refusal_with(0, 0),
    }
}

/// Stores a file. Returns 0, `NO_ROOM`, or the status of the error.
fn tell_static(
    answer: &Result<StaticFont, NoStatic>,
    room: &mut [u8],
    count: &mut usize,
    refusal: &mut PsfRefusal,
) -> i32
    ensures { TellsStatic answer.now result (lent room.old count.old) (lent room.new count.new) refusal.old refusal.new }
{
    match answer {
        Ok(made) => hand_over(&made.file, room, count),
        Err(e) => {
            *refusal = no_static_refusal(e);
            no_static_status(e)
        }
    }
}

/// Stores the file of a face at a location. Returns 0, `NO_ROOM`, or the status of the error.
pub(crate) fn tell_static_of(
    alloc: Global,
    bytes: &[u8],
    face: usize,
    values: &[i32],
    rounded: u32,
    limit: u64,
    room: &mut [u8],
    count: &mut usize,
    refusal: &mut PsfRefusal,
) -> i32
    ensures { TellsStaticOf bytes.now face values.now rounded limit result (lent room.old count.old)
        (lent room.new count.new) refusal.old refusal.new }
{
    let answer = static_of(alloc, bytes, face, values, rounded, limit);
    tell_static(&answer, room, count, refusal)
}
