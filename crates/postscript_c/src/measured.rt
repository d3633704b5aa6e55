//! Advance widths of variable fonts at a location.
ghost use Rattle.std.specs.Prelude.{◌≡◌, pos, ◌+ℤ◌, IfErr, IfOk};
ghost use Rattle.std.specs.Int.{saturate_signed, w64};
ghost use Rattle.postscript_sfnt.specs.Lent.{advance_in};
ghost use Rattle.postscript_c.specs.Measured.{HasAdvances, HasBadVariations, HasSteps, HasVariations, IsAdded, IsMeasured, LacksAdvances, TellsAdvance, TellsMeasured, TellsMeasuredOf, unmeasured_code, variations_code};

use crate::files::file_status;
use crate::place::{Unplaced, coordinates_at, unplaced_status};
use crate::status::{NO_ADVANCES, NO_GLYPH, NO_TABLE, TOO_LONG};
use postscript_sfnt::{Advances, FontFile};
use postscript_variation::{AdvanceVariations, Error, in_whole};
use std::alloc::Global;

/// The reason why there is no advance width.
#[derive(Drop)]
pub(crate) enum Unmeasured {
    /// There is no glyph with this number.
    NoGlyph,
    /// The face has no `hhea` or no `hmtx` table.
    NoTable,
    /// These tables have no advance widths.
    NoAdvances,
    /// The user coordinates are invalid.
    NoPlace(Unplaced),
    /// The `HVAR` table is malformed.
    BadVariations(Error),
    /// The variation takes more steps than the limit.
    TooLong,
}

/// The status of an error of the `HVAR` table.
fn variations_status(e: Error) -> i32
    ensures { result ≡ pos (variations_code e) }
{
    match e {
        Error::Cut => 58,
        Error::UnknownFormat => 59,
    }
}

/// The status of an error.
fn unmeasured_status(e: &Unmeasured) -> i32
    ensures { result ≡ pos (unmeasured_code e.now) }
{
    match e {
        Unmeasured::NoGlyph => NO_GLYPH,
        Unmeasured::NoTable => NO_TABLE,
        Unmeasured::NoAdvances => NO_ADVANCES,
        Unmeasured::NoPlace(cause) => unplaced_status(cause),
        Unmeasured::BadVariations(cause) => variations_status(*cause),
        Unmeasured::TooLong => TOO_LONG,
    }
}

/// The default advance widths of a face.
fn advances_of<'l>(file: &FontFile<'l>) -> Result<Advances<'l>, Unmeasured>
    ensures found { IfOk result (λ advances. HasAdvances file.now advances) }
    ensures why { IfErr result (λ e. LacksAdvances file.now e) }
{
    let Some(header) = file.table(*b"hhea") else {
        return Err(Unmeasured::NoTable);
    };
    let Some(metrics) = file.table(*b"hmtx") else {
        return Err(Unmeasured::NoTable);
    };
    match Advances::read(header, metrics) {
        Some(advances) => Ok(advances),
        None => Err(Unmeasured::NoAdvances),
    }
}

/// The variations of the advance widths of a face. `None` if it has no `HVAR` table.
fn variations_of<'l>(
    file: &FontFile<'l>,
) -> postscript_variation::Result<Option<AdvanceVariations<'l>>>
    ensures found { IfOk result (λ variations. HasVariations file.now variations) }
    ensures why { IfErr result (λ e. HasBadVariations file.now e) }
{
    match file.table(*b"HVAR") {
        Some(hvar) => match AdvanceVariations::read(hvar) {
            Ok(variations) => Ok(Some(variations)),
            Err(e) => Err(e),
        },
        None => Ok(None),
    }
}

/// The number of steps of the variation of the advance width of a glyph.
fn steps_of(variations: Option<AdvanceVariations<'_>>, glyph: usize) -> u64
    ensures { HasSteps variations.entry glyph result }
{
    match variations {
        Some(variations) => variations.steps(glyph),
        None => 0,
    }
}

/// The variation of the advance width of a glyph at normalized coordinates.
fn advance_variation(
    variations: Option<AdvanceVariations<'_>>,
    glyph: usize,
    coordinates: &[i16],
) -> i64
    ensures { IsAdded variations.entry glyph coordinates.now result }
{
    match variations {
        Some(variations) => match variations.variation(glyph, coordinates) {
            Some(total) => in_whole(total),
            None => 0,
        },
        None => 0,
    }
}

/// The advance width of a glyph with its variation.
fn sum(advances: &Advances<'_>, glyph: u16, more: i64) -> i64
    ensures { result ≡ saturate_signed w64 (pos (advance_in advances.now glyph) +ℤ more) }
{
    i64::from(advances.of(glyph)).saturating_add(more)
}

/// The advance width of a glyph of a face at user coordinates, within a limit.
fn measure_advance(
    alloc: Global,
    file: &FontFile<'_>,
    values: &[i32],
    glyph: usize,
    limit: u64,
) -> Result<i64, Unmeasured>
    ensures { IsMeasured file.now values.now glyph limit result }
{
    let Ok(number) = u16::try_from(glyph) else {
        return Err(Unmeasured::NoGlyph);
    };
    let advances = advances_of(file)?;
    match coordinates_at(alloc, file, values) {
        Ok(coordinates) => match variations_of(file) {
            Ok(variations) => {
                if limit < steps_of(variations, glyph) {
                    return Err(Unmeasured::TooLong);
                }
                let more = advance_variation(variations, glyph, &coordinates);
                Ok(sum(&advances, number, more))
            }
            Err(e) => Err(Unmeasured::BadVariations(e)),
        },
        Err(e) => Err(Unmeasured::NoPlace(e)),
    }
}

/// Stores a result.
fn tell_advance(answer: &Result<i64, Unmeasured>, advance: &mut i64) -> i32
    ensures { TellsAdvance answer.now result advance.old advance.new }
{
    match answer {
        Ok(found) => {
            *advance = *found;
            0
        }
        Err(e) => unmeasured_status(e),
    }
}

/// Stores the advance width of a glyph of a face at user coordinates, within a limit.
fn tell_measured_of(
    alloc: Global,
    file: &FontFile<'_>,
    values: &[i32],
    glyph: usize,
    limit: u64,
    advance: &mut i64,
) -> i32
    ensures { TellsMeasuredOf file.now values.now glyph limit result advance.old advance.new }
{
    let answer = measure_advance(alloc, file, values, glyph, limit);
    tell_advance(&answer, advance)
}

/// The same for a face of a file.
pub(crate) fn tell_measured(
    alloc: Global,
    bytes: &[u8],
    face: usize,
    values: &[i32],
    glyph: usize,
    limit: u64,
    advance: &mut i64,
) -> i32
    ensures { TellsMeasured bytes.now face values.now glyph limit result advance.old advance.new }
{
    match FontFile::read(bytes, face) {
        Ok(file) => tell_measured_of(alloc, &file, values, glyph, limit, advance),
        Err(e) => file_status(e),
    }
}
