//! Writes a `GPOS` table with adjustments of pairs and of single glyphs, cursive attachment, marks, and contexts.
ghost use Rattle.std.specs.Prelude.{◌≡◌, ◌⊎◌, ◌%◌, ◌^◌, ◌+◌, ◌<◌, ◌≤◌, ◌&&◌, ◌++◌, ◌∷◌, [], true, false, length, slice_range, IfErr, IfOk, IfSome, OnOk};
ghost use Rattle.postscript_layout_write.specs.Coverages.{AddsChained};
ghost use Rattle.postscript_layout_write.specs.Flags.{KeepsFlaggedPositions, set_of};
ghost use Rattle.postscript_layout_write.specs.Kerning.{KeepsKerning};
ghost use Rattle.postscript_layout_write.specs.Lookups.{AreStarts, HasLast, IsAway, IsPut, Joins, Keeps, MakesPosition, PutsList};
ghost use Rattle.postscript_layout_write.specs.Marks.{type_at};
ghost use Rattle.postscript_layout_write.specs.Pairs.{lookups_of};
ghost use Rattle.postscript_layout_write.specs.PositionContexts.{contexts_by};
ghost use Rattle.postscript_layout_write.specs.Positions.{KeepsPositions};
ghost use Rattle.postscript_layout_write.specs.Refusals.{Fails, IsUsedUp, Refuses};
ghost use Rattle.postscript_layout_write.specs.Scopes.{takes_contexts as the_contexts, takes_type as the_taking};
ghost use Rattle.postscript_layout_write.specs.Text.{front_text};
ghost use Rattle.postscript_layout_write.specs.Typed.{AddsTyped};
ghost use Rattle.postscript_layout_write.specs.declared.error.Error.TheVariants as errors;

use crate::error::{Error, Result};
use crate::forms::subtables_of;
use crate::limit::pay;
use crate::numbers::{put_uint16, word};
use crate::pieces::{Piece, pairs_piece};
use crate::position_contexts::{has_contexts, keeps_contexts, put_contexts};
use crate::scope::{Scope, new_flag};
use crate::script_lists::lists_end;
use crate::subtables::{SHARED, is_at, put_offsets};
use crate::typed::{has_kept_type, keeps_type, put_typed};
use std::alloc::{AllocError, Global};

/// The last lookups of a table, and the subtables that follow all lookups. The distances are those from the beginning of
/// each lookup to the end of the lookups, the last lookup first.
#[derive(Drop)]
pub(crate) struct Last {
    distances: Vec<usize>,
    lookups: Vec<u8>,
    subtables: Vec<u8>,
}

impl Last {
    /// Returns the number of bytes.
    fn size(&self) -> Result<usize>
        ensures exact { IfOk result (λ size. size ≡ length self.now.lookups.items + length self.now.subtables.items) }
        ensures small { IfOk result (λ size. size < 2 ^ 33) }
        ensures why { IfErr result (λ e. e ≡ errors.TooLarge) }
    {
        let size = self.lookups.len();
        if size > 65535 || self.subtables.len() > 4294967295 {
            return Err(Error::TooLarge);
        }
        Ok(size + self.subtables.len())
    }

    /// Returns the distance of one of the last lookups that begins with a text.
    fn find(&self, text: &[u8]) -> Option<usize>
        ensures { IfSome result (λ distance. IsAway text.now distance self.now.lookups.items) }
    {
        let size = self.lookups.len();
        let count = self.distances.len();
        for k in count.saturating_sub(SHARED)..count {
            let distance = self.distances[k];
            if distance <= size && is_at(&self.lookups, text, size - distance) {
                return Some(distance);
            }
        }
        None
    }

    /// Puts a lookup before the others.
    fn put(&mut self, alloc: Global, piece: &Piece) -> Result<()>
        ensures put { OnOk result (IsPut piece.now.lookup.items piece.now.subtables.items self.old self.new) }
        ensures memory { IfErr result (λ e. e ≡ errors.Memory) }
    {
        let mut lookups = Vec::new(alloc);
        lookups.extend_from_slice(&piece.lookup)?;
        lookups.extend_from_slice(&self.lookups)?;
        self.distances.push(lookups.len())?;
        self.lookups = lookups;
        self.subtables.extend_from_slice(&piece.subtables)?;
        Ok(())
    }

    /// Adds a lookup. If it has the same bytes as one of the last lookups, that one is shared.
    fn add(&mut self, alloc: Global, piece: &Piece) -> Result<()>
        ensures added { OnOk result (Joins piece.now.lookup.items piece.now.subtables.items self.old self.new) }
        ensures memory { IfErr result (λ e. e ≡ errors.Memory) }
    {
        if piece.subtables.is_empty() {
            if let Some(distance) = self.find(&piece.lookup) {
                self.distances.push(distance)?;
                return Ok(());
            }
        }
        self.put(alloc, piece)?;
        Ok(())
    }
}

/// Whether a lookup is written with its type and a subtable for each old one.
fn takes_type(gpos: &[u8], lookup: usize, scope: Scope, limit: &mut u64) -> Result<bool>
    requires near { lookup < 2 ^ 31 }
    ensures exact { IfOk result (λ takes. takes ≡ the_taking scope gpos.now lookup) }
    ensures spends { limit.new ≤ limit.old }
    ensures why { IfErr result (λ e. IsUsedUp limit.new e) }
{
    match scope {
        Scope::Pairs => Ok(false),
        Scope::Marks => {
            let takes = keeps_type(gpos, lookup, limit)?;
            Ok(takes)
        }
        Scope::Flags => {
            let takes = has_kept_type(gpos, lookup, limit)?;
            Ok(takes)
        }
    }
}

/// Whether a lookup is written with its contexts.
fn takes_contexts(gpos: &[u8], lookup: usize, scope: Scope, limit: &mut u64) -> Result<bool>
    requires near { lookup < 2 ^ 31 }
    ensures exact { IfOk result (λ takes. takes ≡ the_contexts scope gpos.now lookup) }
    ensures spends { limit.new ≤ limit.old }
    ensures why { IfErr result (λ e. IsUsedUp limit.new e) }
{
    match scope {
        Scope::Pairs => Ok(false),
        Scope::Marks => {
            let takes = keeps_contexts(gpos, lookup, limit)?;
            Ok(takes)
        }
        Scope::Flags => {
            let takes = has_contexts(gpos, lookup, limit)?;
            Ok(takes)
        }
    }
}

/// Returns a lookup with its type.
fn typed_piece(
    alloc: Global,
    gpos: &[u8],
    lookup: usize,
    flag: usize,
    kept: &[u16],
    limit: &mut u64,
) -> Result<Piece>
    requires near { lookup < 2 ^ 31 }
    requires few { length kept.now < 65536 }
    requires small { flag < 65536 }
    ensures done { IfOk result (λ piece. AddsTyped gpos.now kept.now lookup flag [] piece.lookup.items) }
    ensures spends { limit.new ≤ limit.old }
    ensures why { IfErr result (λ e. Fails limit.new e) }
{
    let mut bytes = Vec::new(alloc);
    put_typed(alloc, &mut bytes, gpos, lookup, flag, kept, limit)?;
    Ok(Piece {
        lookup: bytes,
        subtables: Vec::new(alloc),
    })
}

/// Returns a lookup with its contexts.
fn contexts_piece(
    alloc: Global,
    gpos: &[u8],
    lookup: usize,
    flag: usize,
    kept: &[u16],
    limit: &mut u64,
) -> Result<Piece>
    requires near { lookup < 2 ^ 31 }
    requires few { length kept.now < 65536 }
    requires small { flag < 65536 }
    ensures done { IfOk result (λ piece. AddsChained false 8 flag (set_of gpos.now lookup) (contexts_by gpos.now kept.now lookup (type_at gpos.now lookup)) [] piece.lookup.items) }
    ensures spends { limit.new ≤ limit.old }
    ensures why { IfErr result (λ e. Fails limit.new e) }
{
    let mut bytes = Vec::new(alloc);
    put_contexts(alloc, &mut bytes, gpos, lookup, flag, kept, limit)?;
    Ok(Piece {
        lookup: bytes,
        subtables: Vec::new(alloc),
    })
}

/// Returns a lookup: one with its contexts, or one with its type, if all of its subtables are kept, or else one of pair
/// adjustments. Subtables that follow all lookups begin at a distance after it.
fn piece_of(
    alloc: Global,
    gpos: &[u8],
    lookup: usize,
    scope: Scope,
    kept: &[u16],
    distance: usize,
    limit: &mut u64,
) -> Result<Piece>
    requires near { lookup < 2 ^ 31 }
    requires few { length kept.now < 65536 }
    requires distance { distance < 2 ^ 33 }
    ensures done { IfOk result (λ piece. MakesPosition scope gpos.now kept.now lookup distance piece.lookup.items piece.subtables.items) }
    ensures spends { limit.new ≤ limit.old }
    ensures why { IfErr result (λ e. Fails limit.new e) }
{
    let typed = takes_type(gpos, lookup, scope, limit)?;
    let contextual = takes_contexts(gpos, lookup, scope, limit)?;
    let flag = new_flag(scope, word(gpos, lookup + 2));
    if typed {
        let piece = typed_piece(alloc, gpos, lookup, flag, kept, limit)?;
        return Ok(piece);
    }
    if contextual {
        let piece = contexts_piece(alloc, gpos, lookup, flag, kept, limit)?;
        return Ok(piece);
    }
    let subtables = subtables_of(alloc, gpos, lookup, scope, kept, limit)?;
    let piece = pairs_piece(alloc, gpos, lookup, flag as u16, &subtables, distance)?;
    Ok(piece)
}

/// Collects the lookups of a table, from the last one to the first.
fn last_of(alloc: Global, gpos: &[u8], scope: Scope, kept: &[u16], limit: &mut u64) -> Result<Last>
    requires few { length kept.now < 65536 }
    ensures exact { IfOk result (λ last. HasLast scope gpos.now kept.now (lookups_of gpos.now) last.distances.items last.lookups.items last.subtables.items) }
    ensures spends { limit.new ≤ limit.old }
    ensures why { IfErr result (λ e. Fails limit.new e) }
{
    let mut last = Last {
        distances: Vec::new(alloc),
        lookups: Vec::new(alloc),
        subtables: Vec::new(alloc),
    };
    let list = word(gpos, 8);
    let count = word(gpos, list);
    for k in 0..count {
        pay(limit)?;
        let lookup = list + word(gpos, list + 2 + (count - 1 - k) * 2);
        let size = last.size()?;
        let piece = piece_of(alloc, gpos, lookup, scope, kept, size, limit)?;
        last.add(alloc, &piece)?;
    }
    Ok(last)
}

/// Returns the offsets of lookups, by their distances to the end, the last lookup first.
fn starts_of(alloc: Global, size: usize, distances: &[usize]) -> Result<Vec<usize>>
    ensures exact { IfOk result (λ offsets. AreStarts size distances.now offsets.items) }
    ensures memory { IfErr result (λ e. e ≡ errors.Memory) }
{
    let mut offsets = Vec::new(alloc);
    let count = distances.len();
    for i in 0..count {
        offsets.push(size.saturating_sub(distances[count - 1 - i]))?;
    }
    Ok(offsets)
}

/// Appends a lookup list.
#[tactic(auto, unfolding(crate::specs::Text::list_text))]
fn put_list(
    alloc: Global,
    out: &mut Vec<u8>,
    gpos: &[u8],
    scope: Scope,
    kept: &[u16],
    limit: &mut u64,
) -> Result<()>
    requires few { length kept.now < 65536 }
    ensures done { OnOk result (PutsList scope gpos.now kept.now out.old.items out.new.items) }
    ensures spends { limit.new ≤ limit.old }
    ensures why { IfErr result (λ e. Fails limit.new e) }
{
    let last = last_of(alloc, gpos, scope, kept, limit)?;
    let offsets = starts_of(alloc, last.lookups.len(), &last.distances)?;
    let count = offsets.len();
    if count > 32766 {
        return Err(Error::TooLarge);
    }
    put_uint16(out, count as u16)?;
    put_offsets(out, 2 + count * 2, &offsets)?;
    out.extend_from_slice(&last.lookups)?;
    out.extend_from_slice(&last.subtables)?;
    Ok(())
}

/// Appends the header and the lists of a table up to an offset, as the offset of the lookup list.
#[tactic(auto, unfolding(crate::specs::Text::front_text))]
pub(crate) fn put_front(
    out: &mut Vec<u8>,
    gpos: &[u8],
    end: usize,
) -> std::result::Result<(), AllocError>
    requires least { 10 ≤ end }
    requires small { end < 65536 }
    requires within { end ≤ length gpos.now }
    ensures { OnOk result (out.new.items ≡ out.old.items ++ front_text gpos.now end) }
{
    put_uint16(out, 1)?;
    put_uint16(out, 0)?;
    out.extend_from_slice(&gpos[4..8])?;
    put_uint16(out, end as u16)?;
    out.extend_from_slice(&gpos[10..end])
}

/// Returns a `GPOS` table with the positions of the kept glyphs that are in a scope.
fn write_table(
    alloc: Global,
    gpos: &[u8],
    scope: Scope,
    kept: &[u16],
    limit: &mut u64,
) -> Result<Vec<u8>>
    ensures kept { IfOk result (λ new. Keeps scope gpos.now kept.now new.items) }
    ensures spends { limit.new ≤ limit.old }
    ensures why { IfErr result (λ e. Refuses e gpos.now limit.new) }
{
    if kept.len() > 65535 {
        return Err(Error::TooLarge);
    }
    let end = lists_end(gpos, limit)?;
    if end > 65535 || end > gpos.len() {
        return Err(Error::ListsTooLong);
    }
    let mut out = Vec::new(alloc);
    put_front(&mut out, gpos, end)?;
    put_list(alloc, &mut out, gpos, scope, kept, limit)?;
    Ok(out)
}

/// Returns a `GPOS` table with the pair adjustments of the kept glyphs.
///
/// `kept` has the old numbers of the glyphs. The new number of a glyph is its index there. The new table has version 1.0,
/// the script list and the feature list of the old one, and as many lookups in the same order. Lookups of pair
/// adjustments, also by extensions, keep the pairs of kept glyphs: by classes of both glyphs (format 2) if only advances of
/// first glyphs are adjusted and this takes fewer bytes, or else one by one. If they take more than 8 kB, or if 32 kB
/// follow, the lookup has extensions, and its subtables follow all lookups. All other lookups have no subtables.
///
/// One unit of the limit is paid for each language system, script, feature and lookup, and for each kept glyph in each
/// lookup. One more is paid for each subtable, covered glyph, range, pair and second glyph that is looked at.
///
/// # Errors
///
/// - `ListsTooLong`: the script list and the feature list, with the tables that they name, do not end within the table,
///   or within its first 65,535 bytes.
/// - `TooLarge`: an offset or a count would exceed 16 bits, or the distance of an extension 32 bits.
/// - `TooLong`: the table costs more than the limit.
/// - `Memory`: out of memory.
pub fn kerning(alloc: Global, gpos: &[u8], kept: &[u16], limit: &mut u64) -> Result<Vec<u8>>
    // Each lookup adjusts the kept glyphs as before, for the same scripts and features.
    ensures kept { IfOk result (λ new. KeepsKerning gpos.now kept.now new.items) }
    // The limit never grows.
    ensures spends { limit.new ≤ limit.old }
    // `TooLong` leaves nothing of the limit. With `ListsTooLong`, the lists do not end in time.
    ensures why { IfErr result (λ e. Refuses e gpos.now limit.new) }
{
    let new = write_table(alloc, gpos, Scope::Pairs, kept, limit)?;
    Ok(new)
}

/// Returns a `GPOS` table with the adjustments, the cursive attachment, the marks and the contexts of the kept glyphs.
///
/// `kept` has the old numbers of the glyphs. The new number of a glyph is its index there. The new table has version 1.0,
/// the script list and the feature list of the old one, and as many lookups in the same order. Lookups of pair
/// adjustments are kept as by `kerning`. A lookup of single adjustments (type 1), of cursive attachment (type 3), or of
/// marks on bases, on ligatures or on other marks (types 4 to 6) keeps its type, also by extensions. It has a subtable for
/// each old one. A lookup of contexts (types 7 and 8) whose subtables all have format 1, 2 or 3 keeps the contexts
/// whose sets of glyphs all have kept glyphs. It is written as a lookup of type 8, with contexts by sets of glyphs (format
/// 3). All other lookups have no subtables, and neither has a lookup with a flag above bit 3.
///
/// Units of the limit are paid as by `kerning`. One unit is paid for each kept glyph in a subtable of single adjustments or
/// of cursive attachment, and two in a subtable of marks. One is paid for each subtable, each class of marks of a base or
/// of a component, and each covered glyph and range that is looked at. In contexts, 1,000 are paid for each coverage table.
///
/// # Errors
///
/// - `ListsTooLong`: the script list and the feature list, with the tables that they name, do not end within the table,
///   or within its first 65,535 bytes.
/// - `TooLarge`: an offset or a count would exceed 16 bits, or the distance of an extension 32 bits.
/// - `TooLong`: the table costs more than the limit.
/// - `Memory`: out of memory.
pub fn positions(alloc: Global, gpos: &[u8], kept: &[u16], limit: &mut u64) -> Result<Vec<u8>>
    // Each lookup positions kept glyphs as before, in the same contexts, scripts and features.
    ensures kept { IfOk result (λ new. KeepsPositions gpos.now kept.now new.items) }
    // The limit never grows.
    ensures spends { limit.new ≤ limit.old }
    // `TooLong` leaves nothing of the limit. With `ListsTooLong`, the lists do not end in time.
    ensures why { IfErr result (λ e. Refuses e gpos.now limit.new) }
{
    let new = write_table(alloc, gpos, Scope::Marks, kept, limit)?;
    Ok(new)
}

/// Returns a `GPOS` table with the adjustments, the cursive attachment, the marks and the contexts of the kept glyphs, also
/// in lookups that use classes or sets of marks.
///
/// The table is as by `positions`, but each lookup has its whole flag, and the index of its set of marks, if it uses one.
/// So the new font needs a `GDEF` table with the same classes and sets of marks.
///
/// Units of the limit are paid as by `positions`.
///
/// # Errors
///
/// - `ListsTooLong`: the script list and the feature list, with the tables that they name, do not end within the table,
///   or within its first 65,535 bytes.
/// - `TooLarge`: an offset or a count would exceed 16 bits, or the distance of an extension 32 bits.
/// - `TooLong`: the table costs more than the limit.
/// - `Memory`: out of memory.
pub fn flagged_positions(
    alloc: Global,
    gpos: &[u8],
    kept: &[u16],
    limit: &mut u64,
) -> Result<Vec<u8>>
    // Each lookup has its flag, and positions the kept glyphs as before, in the same contexts.
    ensures kept { IfOk result (λ new. KeepsFlaggedPositions gpos.now kept.now new.items) }
    // The limit never grows.
    ensures spends { limit.new ≤ limit.old }
    // `TooLong` leaves nothing of the limit. With `ListsTooLong`, the lists do not end in time.
    ensures why { IfErr result (λ e. Refuses e gpos.now limit.new) }
{
    let new = write_table(alloc, gpos, Scope::Flags, kept, limit)?;
    Ok(new)
}
