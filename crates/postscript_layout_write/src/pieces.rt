//! Writes a lookup of pair adjustments. Small subtables follow the lookup. Large ones follow all lookups, and the lookup has
//! extensions.
ghost use Rattle.std.specs.Prelude.{◌≡◌, ◌⊎◌, ◌+◌, ◌*◌, ◌^◌, ◌<◌, ◌≤◌, ◌++◌, length, IfErr, IfOk, OnOk};
ghost use Rattle.postscript_layout_write.specs.Flags.{set_of};
ghost use Rattle.postscript_layout_write.specs.Pieces.{AreExtensions, AreLong, IsFarPiece, IsNearPiece, IsPiece, LookupFits, extension_text, extensions_text, lookup_text, set_size as the_size, uint32 as the_uint32};
ghost use Rattle.postscript_layout_write.specs.declared.error.Error.TheVariants as errors;

use crate::error::{Error, Result};
use crate::forms::Subtables;
use crate::numbers::put_uint16;
use crate::scope::{put_set, uses_set};
use crate::substituting::put_head;
use crate::subtables::put_offsets;
use std::alloc::{AllocError, Global};

/// The bytes of a lookup, and the bytes of its subtables that follow all lookups.
#[derive(Drop)]
pub(crate) struct Piece {
    pub(crate) lookup: Vec<u8>,
    pub(crate) subtables: Vec<u8>,
}

/// The number of bytes that the subtables of a lookup may take, if they follow it.
const NEAR: usize = 8192;

/// The distance up to which small subtables follow their lookup.
const FAR: usize = 32768;

/// Returns the number of bytes that the set of marks takes.
fn set_size(flag: u16) -> usize
    ensures exact { result ≡ the_size flag }
    ensures small { result ≤ 2 }
{
    if uses_set(flag as usize) { 2 } else { 0 }
}

/// Appends a lookup without its subtables.
#[tactic(auto, unfolding(crate::specs::Pieces::lookup_text))]
fn put_lookup(
    out: &mut Vec<u8>,
    gpos: &[u8],
    lookup: usize,
    kind: u16,
    flag: u16,
    offsets: &[usize],
) -> Result<()>
    requires near { lookup < 2 ^ 31 }
    ensures text { OnOk result (out.new.items ≡ out.old.items ++ lookup_text kind flag (set_of gpos.now lookup) offsets.now) }
    ensures fits { OnOk result (LookupFits flag (set_of gpos.now lookup) offsets.now) }
    ensures why { IfErr result (λ e. (e ≡ errors.Memory) ⊎ (e ≡ errors.TooLarge)) }
{
    let count = offsets.len();
    if count > 6000 {
        return Err(Error::TooLarge);
    }
    put_head(out, kind, flag, count as u16)?;
    put_offsets(out, 6 + count * 2 + set_size(flag), offsets)?;
    put_set(out, gpos, lookup, flag as usize)?;
    Ok(())
}

/// Appends a number of four bytes.
#[tactic(auto, unfolding(crate::specs::Pieces::uint32))]
fn put_uint32(out: &mut Vec<u8>, number: u32) -> std::result::Result<(), AllocError>
    ensures { OnOk result (out.new.items ≡ out.old.items ++ the_uint32 number) }
{
    out.extend_from_slice(&number.to_be_bytes())
}

/// Appends an extension with the distance of its subtable.
#[tactic(auto, unfolding(crate::specs::Pieces::extension_text))]
fn put_extension(out: &mut Vec<u8>, distance: u32) -> std::result::Result<(), AllocError>
    ensures { OnOk result (out.new.items ≡ out.old.items ++ extension_text distance) }
{
    put_uint16(out, 1)?;
    put_uint16(out, 2)?;
    put_uint32(out, distance)
}

/// Returns the offsets of extensions, counted from the first one.
fn extensions_of(alloc: Global, count: usize) -> Result<Vec<usize>>
    requires few { count ≤ 6000 }
    ensures exact { IfOk result (λ offsets. AreExtensions count offsets.items) }
    ensures memory { IfErr result (λ e. e ≡ errors.Memory) }
{
    let mut offsets = Vec::new(alloc);
    for k in 0..count {
        offsets.push(k * 8)?;
    }
    Ok(offsets)
}

/// Appends extensions for subtables at offsets that are counted from a distance after the last extension.
fn put_extensions(out: &mut Vec<u8>, distance: usize, offsets: &[usize]) -> Result<()>
    requires near { distance < 2 ^ 33 }
    requires few { length offsets.now ≤ 6000 }
    ensures text { OnOk result (out.new.items ≡ out.old.items ++ extensions_text distance offsets.now) }
    ensures long { OnOk result (AreLong (length offsets.now * 8 + distance) offsets.now) }
    ensures why { IfErr result (λ e. (e ≡ errors.Memory) ⊎ (e ≡ errors.TooLarge)) }
{
    let count = offsets.len();
    let base = count * 8 + distance;
    for k in 0..count {
        let offset = offsets[k];
        if base > 4294967295 || offset > 4294967295 - base {
            return Err(Error::TooLarge);
        }
        put_extension(out, ((count - k) * 8 + distance + offset) as u32)?;
    }
    Ok(())
}

/// Returns a lookup whose subtables follow it.
fn near_piece(
    alloc: Global,
    gpos: &[u8],
    lookup: usize,
    flag: u16,
    subtables: &Subtables,
) -> Result<Piece>
    requires near { lookup < 2 ^ 31 }
    ensures made { IfOk result (λ piece. IsNearPiece flag (set_of gpos.now lookup) subtables.now piece) }
    ensures why { IfErr result (λ e. (e ≡ errors.Memory) ⊎ (e ≡ errors.TooLarge)) }
{
    let mut bytes = Vec::new(alloc);
    put_lookup(&mut bytes, gpos, lookup, 2, flag, &subtables.offsets)?;
    bytes.extend_from_slice(&subtables.bytes)?;
    Ok(Piece {
        lookup: bytes,
        subtables: Vec::new(alloc),
    })
}

/// Returns a lookup with extensions, whose subtables begin at a distance after it.
fn far_piece(
    alloc: Global,
    gpos: &[u8],
    lookup: usize,
    flag: u16,
    subtables: &Subtables,
    distance: usize,
) -> Result<Piece>
    requires near { lookup < 2 ^ 31 }
    requires distance { distance < 2 ^ 33 }
    requires some { 0 < length subtables.now.offsets.items }
    ensures made { IfOk result (λ piece. IsFarPiece flag (set_of gpos.now lookup) distance subtables.now piece) }
    ensures why { IfErr result (λ e. (e ≡ errors.Memory) ⊎ (e ≡ errors.TooLarge)) }
{
    let count = subtables.offsets.len();
    if count > 6000 {
        return Err(Error::TooLarge);
    }
    let extensions = extensions_of(alloc, count)?;
    let mut bytes = Vec::new(alloc);
    put_lookup(&mut bytes, gpos, lookup, 9, flag, &extensions)?;
    put_extensions(&mut bytes, distance, &subtables.offsets)?;
    let mut behind = Vec::new(alloc);
    behind.extend_from_slice(&subtables.bytes)?;
    Ok(Piece {
        lookup: bytes,
        subtables: behind,
    })
}

/// Returns a lookup of pair adjustments. Its subtables follow it if they are small and not much follows it, or else they
/// begin at a distance after it.
pub(crate) fn pairs_piece(
    alloc: Global,
    gpos: &[u8],
    lookup: usize,
    flag: u16,
    subtables: &Subtables,
    distance: usize,
) -> Result<Piece>
    requires near { lookup < 2 ^ 31 }
    requires distance { distance < 2 ^ 33 }
    ensures made { IfOk result (λ piece. IsPiece flag (set_of gpos.now lookup) distance subtables.now piece) }
    ensures why { IfErr result (λ e. (e ≡ errors.Memory) ⊎ (e ≡ errors.TooLarge)) }
{
    let large = subtables.bytes.len() > NEAR || distance > FAR;
    if large && !subtables.offsets.is_empty() {
        far_piece(alloc, gpos, lookup, flag, subtables, distance)
    } else {
        near_piece(alloc, gpos, lookup, flag, subtables)
    }
}
