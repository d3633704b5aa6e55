//! The `name` tables of new font files.
ghost use Rattle.std.specs.Prelude.{◌≡◌, ◌≢◌, ◌∷◌, [], IfErr, IfOk};
ghost use Rattle.postscript_c.specs.ShortNames.{AreNames, IsGivenShort, IsLicence, IsShort, NeedsNames, name_tag};
ghost use Rattle.postscript_files.specs.declared.choice.Given.{Given as TheGiven};
ghost use Rattle.postscript_files.specs.declared.error.Error.TheVariants as errors;

use postscript_files::{Given, Result};
use postscript_sfnt::FontFile;
use postscript_text::names::trimmed;
use std::alloc::Global;

/// The tag of the table.
const NAME: u32 = 0x6e616d65;

/// Returns the short `name` table, or a copy of the table.
fn short_of(alloc: Global, table: &[u8], licence: bool) -> Result<Vec<u8>>
    ensures short { IfOk result (λ new. IsShort table.now licence new.items) }
    ensures memory { IfErr result (λ e. e ≡ errors.Memory) }
{
    if let Some(names) = trimmed(alloc, table, licence)? {
        return Ok(names);
    }
    Ok(Vec::from_slice(alloc, table)?)
}

/// Returns a table with the tag `name`.
fn given_with(alloc: Global, bytes: Vec<u8>) -> Result<Vec<Given>>
    ensures one { IfOk result (λ given. (table : TheGiven) × (given.items ≡ table ∷ [])
        × (table.tag ≡ name_tag) × (table.bytes.items ≡ bytes.items)) }
    ensures memory { IfErr result (λ e. e ≡ errors.Memory) }
{
    let mut given = Vec::new(alloc);
    given.push(Given { tag: NAME, bytes })?;
    Ok(given)
}

/// Returns whether the names about the licence are asked for.
fn is_licence(names: u32) -> bool
    requires { names ≢ 0 }
    ensures { IsLicence names result }
{
    names > 1
}

/// Returns the short `name` table that is asked for, with its tag.
fn given_by(alloc: Global, table: &[u8], names: u32) -> Result<Vec<Given>>
    requires { names ≢ 0 }
    ensures short { IfOk result (λ given. IsGivenShort table.now names given.items) }
    ensures memory { IfErr result (λ e. e ≡ errors.Memory) }
{
    let short = short_of(alloc, table, is_licence(names))?;
    given_with(alloc, short)
}

/// Returns the tables that are given to a new file: the short `name` table of the face, if it is asked for and the face has one.
pub(crate) fn given_names(
    alloc: Global,
    bytes: &[u8],
    face: usize,
    names: u32,
) -> Result<Vec<Given>>
    ensures names { IfOk result (λ given. AreNames names bytes.now face given.items) }
    ensures memory { IfErr result (λ e. (e ≡ errors.Memory) × NeedsNames names bytes.now face) }
{
    if names == 0 {
        return Ok(Vec::new(alloc));
    }
    let Ok(file) = FontFile::read(bytes, face) else {
        return Ok(Vec::new(alloc));
    };
    let Some(table) = file.table(*b"name") else {
        return Ok(Vec::new(alloc));
    };
    given_by(alloc, table, names)
}
