//! Tables for vertical text under new glyph numbers.
ghost use Rattle.std.specs.Prelude.{◌≡◌, ◌≢◌, map, IfErr, IfOk, OnOk};
ghost use Rattle.postscript_files.specs.declared.error.Error.TheVariants as causes;
ghost use Rattle.postscript_subset.specs.Subsets.{shown};
ghost use Rattle.postscript_subset.specs.Vertical.{AreMetricsOf, AreNewMetrics, AreNewOrigins, AreVertical, IsVorgOf};
ghost use Rattle.postscript_subset.specs.declared.error.Error.TheVariants as errors;
ghost use Rattle.postscript_vertical.specs.declared.error.Error.TheVariants as faults;

use crate::error::{Error, Result};
use postscript_files::Given;
use postscript_sfnt::FontFile;
use postscript_vertical::{Error as Fault, kept_metrics, kept_origins};
use std::alloc::Global;

const VHEA: u32 = 0x76686561;

const VMTX: u32 = 0x766d7478;

const VORG: u32 = 0x564f5247;

/// Returns an error if memory ran out, but not if a table is refused.
fn unless_memory(fault: Fault) -> Result<()>
    ensures refused { OnOk result (fault ≢ faults.Memory) }
    ensures memory { IfErr result (λ e. e ≡ errors.File causes.Memory) }
{
    match fault {
        Fault::Memory => Err(Error::File(postscript_files::Error::Memory)),
        _ => Ok(()),
    }
}

/// Returns the new `vhea` and `vmtx` tables of old ones, or none if these are refused.
fn metrics_of(alloc: Global, vhea: &[u8], vmtx: &[u8], origins: &[u16]) -> Result<Vec<Given>>
    ensures tables { IfOk result (λ tables. AreNewMetrics vhea.now vmtx.now origins.now (map shown tables.items)) }
    ensures memory { IfErr result (λ e. e ≡ errors.File causes.Memory) }
{
    let mut tables = Vec::new(alloc);
    match kept_metrics(alloc, vhea, vmtx, origins) {
        Ok((new_vhea, new_vmtx)) => {
            tables.push(Given {
                tag: VHEA,
                bytes: new_vhea,
            })?;
            tables.push(Given {
                tag: VMTX,
                bytes: new_vmtx,
            })?;
            Ok(tables)
        }
        Err(fault) => {
            unless_memory(fault)?;
            Ok(tables)
        }
    }
}

/// Returns the new `VORG` table of an old one, or none if it is refused.
fn vorg_of(alloc: Global, vorg: &[u8], origins: &[u16]) -> Result<Vec<Given>>
    ensures tables { IfOk result (λ tables. AreNewOrigins vorg.now origins.now (map shown tables.items)) }
    ensures memory { IfErr result (λ e. e ≡ errors.File causes.Memory) }
{
    let mut tables = Vec::new(alloc);
    match kept_origins(alloc, vorg, origins) {
        Ok(bytes) => {
            tables.push(Given { tag: VORG, bytes })?;
            Ok(tables)
        }
        Err(fault) => {
            unless_memory(fault)?;
            Ok(tables)
        }
    }
}

/// Returns the new `vhea` and `vmtx` tables of a face, or none if it lacks one of them.
fn metrics_in(alloc: Global, file: &FontFile<'_>, origins: &[u16]) -> Result<Vec<Given>>
    ensures tables { IfOk result (λ tables. AreMetricsOf file.now origins.now (map shown tables.items)) }
    ensures memory { IfErr result (λ e. e ≡ errors.File causes.Memory) }
{
    match (file.table(*b"vhea"), file.table(*b"vmtx")) {
        (Some(vhea), Some(vmtx)) => {
            let tables = metrics_of(alloc, vhea, vmtx, origins)?;
            Ok(tables)
        }
        _ => Ok(Vec::new(alloc)),
    }
}

/// Returns the new `VORG` table of a face, or none if it has none.
fn vorg_in(alloc: Global, file: &FontFile<'_>, origins: &[u16]) -> Result<Vec<Given>>
    ensures tables { IfOk result (λ tables. IsVorgOf file.now origins.now (map shown tables.items)) }
    ensures memory { IfErr result (λ e. e ≡ errors.File causes.Memory) }
{
    match file.table(*b"VORG") {
        Some(vorg) => {
            let tables = vorg_of(alloc, vorg, origins)?;
            Ok(tables)
        }
        None => Ok(Vec::new(alloc)),
    }
}

/// Returns the tables for vertical text of the origins.
pub(crate) fn vertical_of(alloc: Global, file: &FontFile<'_>, origins: &[u16]) -> Result<Vec<Given>>
    ensures tables { IfOk result (λ tables. AreVertical file.now origins.now (map shown tables.items)) }
    ensures memory { IfErr result (λ e. e ≡ errors.File causes.Memory) }
{
    let mut tables = metrics_in(alloc, file, origins)?;
    let mut more = vorg_in(alloc, file, origins)?;
    tables.append(&mut more)?;
    Ok(tables)
}
