//! Locations in the design space.
ghost use Rattle.std.specs.Prelude.{◌≡◌, IfOk, IfErr};
ghost use Rattle.postscript_variable_font.specs.Places.{AreScalars, AreTables, NoPlace, IsPlaceOf, NoPlaceOf};
ghost use Rattle.postscript_variation.specs.Lent.{delta_count, table_count};
ghost use Rattle.postscript_variable_font.specs.declared.error.Error.TheVariants as errors;

use crate::error::{Error, Result};
use postscript_variation::{Data, Store};
use std::alloc::Global;

/// A location in the design space of a font.
///
/// It has the scalars of all regions of all item variation data of the font, in units of 1 / 65536. One location serves
/// all glyphs.
#[derive(Drop)]
pub struct Place {
    /// The scalars of each item variation data.
    pub tables: Vec<Vec<u32>>,
}

/// The scalars of item variation data, one for each region index.
#[tactic(auto, using(crate::proofs::Scalars::no_scalars, crate::proofs::Scalars::one_scalar))]
fn scalars(alloc: Global, table: &Data<'_>, coordinates: &[i16]) -> Result<Vec<u32>>
    ensures found { IfOk result (λ scalars. AreScalars table.now coordinates.now (delta_count table.now) scalars.items) }
    ensures memory { IfErr result (λ e. e ≡ errors.Memory) }
{
    let count = table.len();
    let mut scalars = Vec::with_capacity(alloc, count)?;
    for j in 0..count {
        if let Some(scalar) = table.scalar(j, coordinates) {
            scalars.push(scalar)?;
        }
    }
    Ok(scalars)
}

/// The scalars of each item variation data of a store.
#[tactic(auto, using(crate::proofs::Scalars::no_tables, crate::proofs::Scalars::one_table, crate::proofs::Scalars::lacking))]
fn tables(alloc: Global, store: &Store<'_>, coordinates: &[i16]) -> Result<Vec<Vec<u32>>>
    ensures found { IfOk result (λ tables. AreTables store.now coordinates.now (table_count store.now) tables.items) }
    ensures why { IfErr result (λ e. NoPlace store.now e) }
{
    let count = store.len();
    let mut tables = Vec::with_capacity(alloc, count)?;
    for number in 0..count {
        let Some(table) = store.table(number) else {
            return Err(Error::MissingData(number));
        };
        tables.push(scalars(alloc, &table, coordinates)?)?;
    }
    Ok(tables)
}

impl Place {
    /// Computes the location with these normalized coordinates, in units of 2 ^ -14, one for each axis.
    ///
    /// Missing coordinates count as 0, the default. Without a variation store the location has no scalars.
    ///
    /// # Errors
    ///
    /// - `MissingData`: item variation data of the store are missing or truncated. The first such number is given.
    /// - `Memory`: out of memory.
    pub fn of(alloc: Global, store: Option<&Store<'_>>, coordinates: &[i16]) -> Result<Place>
        // The location has the scalars of all item variation data of the store, if there is one.
        ensures found { IfOk result (λ place. IsPlaceOf store.entry coordinates.now place) }
        // An error is `Memory` or the first missing data. Without a store there is no error.
        ensures why { IfErr result (λ e. NoPlaceOf store.entry e) }
    {
        match store {
            Some(store) => Ok(Place {
                tables: tables(alloc, store, coordinates)?,
            }),
            None => Ok(Place {
                tables: Vec::new(alloc),
            }),
        }
    }
}
