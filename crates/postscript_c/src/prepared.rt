//! Locations that are computed once for all glyphs of a face, as the scalars of their regions.
ghost use Rattle.std.specs.Prelude.{◌≡◌, List, ℕ, pos, IfErr, IfOk};
ghost use Rattle.postscript_c.specs.Located.{AreLent, AreScalarsAt, HasNoScalarsAt, HasNoTables, IsLent, IsLocated, IsNotLent, all_scalars};
ghost use Rattle.postscript_c.specs.LocatedTold.{TellsLocated, TellsOutcome, TellsScalars, TellsScalarsOf, unlocated_code};
ghost use Rattle.postscript_c.specs.Texts.{lent};
ghost use Rattle.postscript_c.specs.VariedShown.{segments_shown};
ghost use Rattle.postscript_c.specs.VariedTold.{outline_room};
ghost use Rattle.postscript_c.specs.declared.prepared.Unlocated.TheVariants as causes;
ghost use Rattle.postscript_variation.specs.Lent.{table_count};

use crate::files::file_status;
use crate::fill::PsfSegment;
use crate::place::Unplaced;
use crate::segments::Segments;
use crate::status::{MEMORY, NO_DATA};
use crate::texts::hand_over;
use crate::tight::PsfBounds;
use crate::told::undrawn_status;
use crate::varied::{
    Unvaried, draw_within, font_of, hand, place_at, table_status, unvaried_status,
};
use postscript_cff2::{Error as TableError, Font};
use postscript_drawing::Error as DrawingError;
use postscript_sfnt::FontFile;
use postscript_variable_font::Place;
use postscript_variation::Store;
use std::alloc::{AllocError, AllocFailed, Global};

/// The reason why a glyph is not drawn from scalars.
#[derive(Drop)]
pub(crate) enum Unlocated {
    /// The `CFF2` table is malformed.
    BadTable(TableError),
    /// The item variation data with this number are missing or truncated.
    NoData(usize),
    /// There are fewer scalars than the item variation data have regions.
    TooFew,
    /// Out of memory.
    Memory,
    /// Drawing the glyph fails.
    Undrawn(DrawingError),
}

impl From<AllocError> for Unlocated {
    ghost from_gives = { λ _ e. e ≡ causes.Memory };

    fn from(_fault: AllocError) -> Unlocated {
        Unlocated::Memory
    }
}

impl<T: Drop> From<AllocFailed<T>> for Unlocated {
    ghost from_gives = { λ _ e. e ≡ causes.Memory };

    fn from(_fault: AllocFailed<T>) -> Unlocated {
        Unlocated::Memory
    }
}

/// The status of an error.
fn unlocated_status(e: &Unlocated) -> i32
    ensures { result ≡ pos (unlocated_code e.now) }
{
    match e {
        Unlocated::BadTable(cause) => table_status(*cause),
        Unlocated::NoData(_) | Unlocated::TooFew => NO_DATA,
        Unlocated::Memory => MEMORY,
        Unlocated::Undrawn(cause) => undrawn_status(cause),
    }
}

/// The scalars of all item variation data of a location, one list after the other.
#[tactic(auto, using(crate::proofs::Locating::one_more))]
fn all_of(alloc: Global, place: &Place) -> Result<Vec<u32>, AllocError>
    ensures { IfOk result (λ all. all.items ≡ all_scalars place.now.tables.items) }
{
    let mut all = Vec::new(alloc);
    for number in 0..place.tables.len() {
        all.extend_from_slice(&place.tables[number])?;
    }
    Ok(all)
}

/// The scalars of a face at user coordinates.
fn scalars_at(
    alloc: Global,
    file: &FontFile<'_>,
    values: &[i32],
    limit: u64,
) -> Result<Vec<u32>, Unvaried>
    ensures found { IfOk result (λ all. AreScalarsAt limit file.now values.now all.items) }
    ensures why { IfErr result (λ e. HasNoScalarsAt limit file.now values.now e) }
{
    let font = font_of(file)?;
    let place = place_at(alloc, file, &font, values, limit)?;
    match all_of(alloc, &place) {
        Ok(all) => Ok(all),
        Err(_) => Err(Unvaried::NoPlace(Unplaced::Memory)),
    }
}

/// Stores the scalars of a face at user coordinates.
fn tell_scalars_of(
    alloc: Global,
    file: &FontFile<'_>,
    values: &[i32],
    limit: u64,
    room: &mut [u32],
    count: &mut usize,
) -> i32
    ensures { TellsScalarsOf file.now values.now limit result (lent room.old count.old) (lent room.new count.new) }
{
    match scalars_at(alloc, file, values, limit) {
        Ok(all) => hand_over(&all, room, count),
        Err(e) => unvaried_status(&e),
    }
}

/// The same for a face of a file.
pub(crate) fn tell_scalars(
    alloc: Global,
    bytes: &[u8],
    face: usize,
    values: &[i32],
    limit: u64,
    room: &mut [u32],
    count: &mut usize,
) -> i32
    ensures { TellsScalars bytes.now face values.now limit result (lent room.old count.old) (lent room.new count.new) }
{
    match FontFile::read(bytes, face) {
        Ok(file) => tell_scalars_of(alloc, &file, values, limit, room, count),
        Err(e) => file_status(e),
    }
}

/// The first scalars, as a list for each item variation data of a store.
#[tactic(auto, using(crate::proofs::Locating::no_tables, crate::proofs::Locating::one_table, crate::proofs::Locating::lacking))]
fn tables_of(alloc: Global, store: &Store<'_>, scalars: &[u32]) -> Result<Vec<Vec<u32>>, Unlocated>
    ensures found { IfOk result (λ tables. (rest : List ℕ) × AreLent store.now scalars.now (table_count store.now) tables.items rest) }
    ensures why { IfErr result (λ e. HasNoTables store.now scalars.now e) }
{
    let count = store.len();
    let mut tables = Vec::with_capacity(alloc, count)?;
    let mut rest = scalars;
    for number in 0..count {
        let Some(table) = store.table(number) else {
            return Err(Unlocated::NoData(number));
        };
        if rest.len() < table.len() {
            return Err(Unlocated::TooFew);
        }
        let (own, behind) = rest.split_at(table.len());
        tables.push(Vec::from_slice(alloc, own)?)?;
        rest = behind;
    }
    Ok(tables)
}

/// The location of a font that has these scalars.
#[tactic(auto, using(crate::proofs::Locating::none_in))]
fn place_of(alloc: Global, font: &Font<'_>, scalars: &[u32]) -> Result<Place, Unlocated>
    ensures found { IfOk result (λ place. IsLent font.now.store scalars.now place) }
    ensures why { IfErr result (λ e. IsNotLent font.now.store scalars.now e) }
{
    match font.store {
        Some(store) => match tables_of(alloc, &store, scalars) {
            Ok(tables) => Ok(Place { tables }),
            Err(e) => Err(e),
        },
        None => Ok(Place {
            tables: Vec::new(alloc),
        }),
    }
}

/// Draws a glyph of the font in a `CFF2` table at the location with these scalars.
#[tactic(auto, using(crate::proofs::Locating::no_location, crate::proofs::Locating::drawn_so, crate::proofs::Locating::undrawn_so))]
fn draw_at_location(
    alloc: Global,
    table: &[u8],
    scalars: &[u32],
    glyph: usize,
    limit: u64,
) -> Result<Segments, Unlocated>
    ensures { IsLocated table.now scalars.now glyph limit (segments_shown result) }
{
    let font = match Font::read(table) {
        Ok(font) => font,
        Err(e) => return Err(Unlocated::BadTable(e)),
    };
    let place = place_of(alloc, &font, scalars)?;
    let Ok(sketch) = Segments::new(alloc) else {
        return Err(Unlocated::Memory);
    };
    match draw_within(alloc, &font, glyph, &place, limit, sketch) {
        Ok(drawn) => Ok(drawn),
        Err(e) => Err(Unlocated::Undrawn(e)),
    }
}

/// Stores a result.
fn tell_outcome(
    answer: &Result<Segments, Unlocated>,
    segments: &mut [PsfSegment],
    count: &mut usize,
    bounds: &mut PsfBounds,
) -> i32
    ensures { TellsOutcome (segments_shown answer.now) result (outline_room segments.old count.old bounds.old)
        (outline_room segments.new count.new bounds.new) }
{
    match answer {
        Ok(sketch) => hand(sketch, segments, count, bounds),
        Err(e) => unlocated_status(e),
    }
}

/// Stores the outline of a glyph at the location with these scalars.
pub(crate) fn tell_located(
    alloc: Global,
    table: &[u8],
    scalars: &[u32],
    glyph: usize,
    limit: u64,
    segments: &mut [PsfSegment],
    count: &mut usize,
    bounds: &mut PsfBounds,
) -> i32
    ensures { TellsLocated table.now scalars.now glyph limit result (outline_room segments.old count.old bounds.old)
        (outline_room segments.new count.new bounds.new) }
{
    let answer = draw_at_location(alloc, table, scalars, glyph, limit);
    tell_outcome(&answer, segments, count, bounds)
}
