//! Glyphs of variable fonts, drawn at a location.
ghost use Rattle.std.specs.Prelude.{◌≡◌, [], pos, Some, IfErr, IfOk};
ghost use Rattle.postscript_c.specs.VariedShown.{segments_of, segments_shown};
ghost use Rattle.postscript_c.specs.Varied.{HasFont, HasNoFont, HasNoPlaceIn, IsDrawnWithin, IsPlaceAt, IsPlaceIn, IsVaried, NamesNoPlace};
ghost use Rattle.postscript_c.specs.VariedTold.{HandsOutline, TellsAnswer, TellsVariedOf, outline_room, table_code, unvaried_code};

use crate::costs::is_within;
use crate::fill::{PsfSegment, fill};
use crate::place::{Unplaced, coordinates_at, unplaced_status};
use crate::segments::{PlacedSegments, Segments};
use crate::status::{NO_DATA, NO_ROOM, NO_TABLE, TOO_LONG};
use crate::tight::PsfBounds;
use crate::told::undrawn_status;
use postscript_cff2::{Error as TableError, Font};
use postscript_drawing::Error as DrawingError;
use postscript_sfnt::FontFile;
use postscript_variable_font::{Error as PlaceError, Place, draw_glyph};
use postscript_variation::Store;
use std::alloc::Global;

/// The reason why a glyph is not drawn.
#[derive(Drop)]
pub(crate) enum Unvaried {
    /// The face has no `CFF2` table.
    NoTable,
    /// The `CFF2` table is malformed.
    BadTable(TableError),
    /// The user coordinates are invalid.
    NoPlace(Unplaced),
    /// The item variation data with this number are missing or truncated.
    NoData(usize),
    /// The scalars of the location cost more than the limit.
    FarPlace,
    /// Drawing the glyph fails.
    Undrawn(DrawingError),
}

/// The status of an error of the `CFF2` table.
pub(crate) fn table_status(e: TableError) -> i32
    ensures { result ≡ pos (table_code e) }
{
    match e {
        TableError::Header => 61,
        TableError::Version => 62,
        TableError::Dictionary(_) => 63,
        TableError::Subroutines(_) => 64,
        TableError::Offset(_) => 65,
        TableError::Index(_, _) => 66,
        TableError::Select(_) => 67,
        TableError::Store(_) => 68,
    }
}

/// The status of an error.
pub(crate) fn unvaried_status(e: &Unvaried) -> i32
    ensures { result ≡ pos (unvaried_code e.now) }
{
    match e {
        Unvaried::NoTable => NO_TABLE,
        Unvaried::BadTable(cause) => table_status(*cause),
        Unvaried::NoPlace(cause) => unplaced_status(cause),
        Unvaried::NoData(_) => NO_DATA,
        Unvaried::FarPlace => TOO_LONG,
        Unvaried::Undrawn(cause) => undrawn_status(cause),
    }
}

/// The font of a face.
pub(crate) fn font_of<'l>(file: &FontFile<'l>) -> Result<Font<'l>, Unvaried>
    ensures found { IfOk result (λ font. HasFont file.now font) }
    ensures why { IfErr result (λ e. HasNoFont file.now e) }
{
    match file.table(*b"CFF2") {
        Some(table) => match Font::read(table) {
            Ok(font) => Ok(font),
            Err(e) => Err(Unvaried::BadTable(e)),
        },
        None => Err(Unvaried::NoTable),
    }
}

/// The location at normalized coordinates, if its scalars cost no more than a limit.
fn place_in(
    alloc: Global,
    store: &Store<'_>,
    coordinates: &[i16],
    limit: u64,
) -> Result<Place, Unvaried>
    ensures found { IfOk result (λ place. IsPlaceIn limit (Some store.now) coordinates.now place) }
    ensures why { IfErr result (λ e. HasNoPlaceIn limit store.now e) }
{
    match is_within(store, limit) {
        Ok(true) => match Place::of(alloc, Some(store), coordinates) {
            Ok(place) => Ok(place),
            Err(PlaceError::MissingData(number)) => Err(Unvaried::NoData(number)),
            Err(PlaceError::Memory) => Err(Unvaried::NoPlace(Unplaced::Memory)),
        },
        Ok(false) => Err(Unvaried::FarPlace),
        Err(number) => Err(Unvaried::NoData(number)),
    }
}

/// The location at user coordinates.
#[tactic(auto, using(crate::proofs::Varying::none_in))]
pub(crate) fn place_at(
    alloc: Global,
    file: &FontFile<'_>,
    font: &Font<'_>,
    values: &[i32],
    limit: u64,
) -> Result<Place, Unvaried>
    ensures found { IfOk result (λ place. IsPlaceAt limit file.now font.now values.now place) }
    ensures why { IfErr result (λ e. NamesNoPlace limit file.now font.now values.now e) }
{
    match coordinates_at(alloc, file, values) {
        Ok(coordinates) => match font.store {
            Some(store) => place_in(alloc, &store, &coordinates, limit),
            None => Ok(Place {
                tables: Vec::new(alloc),
            }),
        },
        Err(e) => Err(Unvaried::NoPlace(e)),
    }
}

/// Draws a glyph of a font at a location into an empty list, within a limit.
pub(crate) fn draw_within(
    alloc: Global,
    font: &Font<'_>,
    glyph: usize,
    place: &Place,
    limit: u64,
    sketch: Segments,
) -> Result<Segments, DrawingError>
    requires { sketch.segments.items ≡ [] }
    ensures { IsDrawnWithin limit font.now glyph place.now (segments_shown result) }
{
    let mut drawn = PlacedSegments { segments: sketch };
    let mut left = limit;
    match draw_glyph(alloc, font, glyph, place, &mut left, &mut drawn) {
        Ok(()) => Ok(drawn.segments),
        Err(e) => Err(e),
    }
}

/// Draws a glyph of a face at user coordinates.
#[tactic(auto, using(crate::proofs::Varying::no_font, crate::proofs::Varying::no_place))]
fn draw_varied(
    alloc: Global,
    file: &FontFile<'_>,
    values: &[i32],
    glyph: usize,
    limit: u64,
) -> Result<Segments, Unvaried>
    ensures { IsVaried file.now values.now glyph limit (segments_shown result) }
{
    let font = font_of(file)?;
    let place = place_at(alloc, file, &font, values, limit)?;
    let Ok(sketch) = Segments::new(alloc) else {
        return Err(Unvaried::NoPlace(Unplaced::Memory));
    };
    match draw_within(alloc, &font, glyph, &place, limit, sketch) {
        Ok(drawn) => Ok(drawn),
        Err(e) => Err(Unvaried::Undrawn(e)),
    }
}

/// Stores an outline. Returns 0 or `NO_ROOM`.
pub(crate) fn hand(
    sketch: &Segments,
    segments: &mut [PsfSegment],
    count: &mut usize,
    bounds: &mut PsfBounds,
) -> i32
    ensures { HandsOutline (segments_of sketch.now) result (outline_room segments.old count.old bounds.old)
        (outline_room segments.new count.new bounds.new) }
{
    let drawn = &sketch.segments;
    *count = drawn.len();
    *bounds = PsfBounds::from_bounds(sketch.bounds());
    if segments.len() < drawn.len() {
        return NO_ROOM;
    }
    fill(drawn, segments);
    0
}

/// Stores a result.
fn tell_answer(
    answer: &Result<Segments, Unvaried>,
    segments: &mut [PsfSegment],
    count: &mut usize,
    bounds: &mut PsfBounds,
) -> i32
    ensures { TellsAnswer (segments_shown answer.now) result (outline_room segments.old count.old bounds.old)
        (outline_room segments.new count.new bounds.new) }
{
    match answer {
        Ok(sketch) => hand(sketch, segments, count, bounds),
        Err(e) => unvaried_status(e),
    }
}

/// Stores the outline of a glyph of a face at user coordinates.
pub(crate) fn tell_varied_of(
    alloc: Global,
    file: &FontFile<'_>,
    values: &[i32],
    glyph: usize,
    limit: u64,
    segments: &mut [PsfSegment],
    count: &mut usize,
    bounds: &mut PsfBounds,
) -> i32
    ensures { TellsVariedOf file.now values.now glyph limit result (outline_room segments.old count.old bounds.old)
        (outline_room segments.new count.new bounds.new) }
{
    let answer = draw_varied(alloc, file, values, glyph, limit);
    tell_answer(&answer, segments, count, bounds)
}
