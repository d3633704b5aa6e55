//! Lists of records, which are a tag and an offset each, and the tables at the offsets.
ghost use Rattle.std.specs.Prelude.{◌≡◌, ◌⊎◌, ◌+◌, ◌/◌, ◌%◌, ◌<◌, ◌++◌, ◌∷◌, [], IfErr, IfOk, OnOk};
ghost use Rattle.postscript_layout_write.specs.Records.{AddsRecord, records_text};
ghost use Rattle.postscript_layout_write.specs.declared.error.Error.TheVariants as errors;

use crate::error::{Error, Result};
use crate::subtables::{Sets, put_glyphs};
use std::alloc::{AllocError, Global};

/// The records of a list, as three numbers each, and the tables that they name, by offsets. Equal tables are shared.
#[derive(Drop)]
pub(crate) struct Records {
    pub(crate) numbers: Vec<u16>,
    pub(crate) tables: Sets,
}

/// Adds a record with a tag. Its table is at a place after `base`.
fn push_record(numbers: &mut Vec<u16>, tag: usize, base: usize, place: usize) -> Result<()>
    requires tag { tag < 4294967296 }
    ensures text { OnOk result (numbers.new.items ≡ numbers.old.items ++ (tag / 65536 ∷ tag % 65536 ∷ (base + place) ∷ [])) }
    ensures small { OnOk result (base + place < 65536) }
    ensures why { IfErr result (λ e. (e ≡ errors.Memory) ⊎ (e ≡ errors.TooLarge)) }
{
    if base > 65535 || place > 65535 - base {
        return Err(Error::TooLarge);
    }
    numbers.extend_from_slice(&[
        (tag / 65536) as u16,
        (tag % 65536) as u16,
        (base + place) as u16,
    ])?;
    Ok(())
}

impl Records {
    /// Returns no records, and one table.
    pub(crate) fn new(alloc: Global, table: &[u8]) -> Result<Records>
        ensures numbers { IfOk result (λ records. records.numbers.items ≡ []) }
        ensures bytes { IfOk result (λ records. records.tables.bytes.items ≡ table.now) }
        ensures memory { IfErr result (λ e. e ≡ errors.Memory) }
    {
        let mut tables = Sets::new(alloc);
        tables.bytes.extend_from_slice(table)?;
        tables.offsets.push(0)?;
        Ok(Records {
            numbers: Vec::new(alloc),
            tables,
        })
    }

    /// Adds a record with a tag and a table. Its offset is counted from `base` bytes before the first table.
    pub(crate) fn add(&mut self, tag: usize, base: usize, table: &[u8]) -> Result<()>
        requires { tag < 4294967296 }
        ensures added { OnOk result (AddsRecord tag base table.now self.old.numbers.items self.old.tables.bytes.items self.new.numbers.items self.new.tables.bytes.items) }
        ensures why { IfErr result (λ e. (e ≡ errors.Memory) ⊎ (e ≡ errors.TooLarge)) }
    {
        let place = self.tables.place(table)?;
        push_record(&mut self.numbers, tag, base, place)?;
        self.tables.offsets.push(place)?;
        Ok(())
    }
}

/// Appends a list: its first numbers, its records, and their tables.
#[tactic(auto, unfolding(crate::specs::Records::records_text))]
pub(crate) fn put_records(
    out: &mut Vec<u8>,
    head: &[u16],
    records: &Records,
) -> std::result::Result<(), AllocError>
    ensures { OnOk result (out.new.items ≡ out.old.items ++ records_text head.now records.now.numbers.items records.now.tables.bytes.items) }
{
    put_glyphs(out, head)?;
    put_glyphs(out, &records.numbers)?;
    out.extend_from_slice(&records.tables.bytes)
}
