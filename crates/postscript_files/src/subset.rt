//! Files with only some glyphs of a face.
ghost use Rattle.std.specs.Prelude.{◌≡◌, ℕ, ◌+◌, ◌*◌, ◌<◌, ◌≤◌, List, [], true, false, length, IfOk, IfErr, OnOk, ◌∷◌, ◌⊎◌};
ghost use Rattle.std.specs.List.{range_with_len};
ghost use Rattle.postscript_sfnt.specs.Lent.{HasNoTable, IsTableOf};
ghost use Rattle.postscript_sfnt.specs.Metrics.{IsGlyphs, IsWord};
ghost use Rattle.postscript_sfnt_write.specs.Mappings.{CharsRise};
ghost use Rattle.postscript_sfnt_write.specs.Metrics.{KeepsBut};
ghost use Rattle.postscript_write.specs.Components.{AreKept};
ghost use Rattle.postscript_write.specs.Costs.{KeepsWithin, StopsIn};
ghost use Rattle.postscript_write.specs.Refusals.{IsChoiceRefusedBy};
ghost use Rattle.postscript_write.specs.declared.error.Error.{Error as Refusal};
ghost use Rattle.postscript_files.specs.Copies.{IsListed};
ghost use Rattle.postscript_files.specs.Listed.{Adds, AreCopiedTo, AreGivenTo, AreMade, CountsCopied, CountsGiven, IsFileOfParts, IsUnmade, NoFileOfParts, Puts};
ghost use Rattle.postscript_files.specs.Made.{AreBytes, HasNoOrigins, IsCutFile, IsHmtxOf, IsMade, IsMapOf, IsPlainMap, IsPostOf};
ghost use Rattle.postscript_files.specs.Origins.{AreFew, AreOrigins, AreSmall, IsCutRefusedBy, IsUnopened};
ghost use Rattle.postscript_files.specs.Renumbered.{ArePlaced};
ghost use Rattle.postscript_files.specs.Subsets.{IsCopied, IsGivenTag, IsSubsetFile, IsSubsetFont, IsSubsetOf, NoSubsetBy, NoSubsetFrom, NoSubsetOf};
ghost use Rattle.postscript_files.specs.declared.error.Error.TheVariants as errors;

use crate::choice::{Choice, Given, glyphs_of_choice, kept_pairs, refuse_missing};
use crate::error::{Error, Result};
use crate::face::Face;
use crate::metrics::metrics;
use crate::numbers::{numbers_of, spread, with_new_numbers};
use crate::sequences::with_kept;
use crate::tables::{file_with, table_of};
use postscript_sfnt::FontFile;
use postscript_sfnt_write::{
    Mapping, Table, cmap, hmtx, with_number_of_glyphs, with_number_of_metrics, without_names,
};
use postscript_view::FontView;
use postscript_write::{FontSubset, kept_glyphs_within, subset_within};
use std::alloc::Global;

/// A `post` table without information.
const NO_POST: [u8; 32] = [0; 32];

/// Writes a font with only these glyphs, and returns the glyphs that it is made of. `retain_gids` is set if they keep
/// their numbers.
fn cut_of(
    alloc: Global,
    cff: &[u8],
    named: &[usize],
    retain_gids: bool,
    limit: Option<u64>,
) -> Result<FontSubset>
    ensures font { IfOk result (λ cut. IsSubsetFont retain_gids named.now cff.now cut.font.items) }
    ensures kept { IfOk result (λ cut. AreKept named.now cff.now cut.kept.items) }
    ensures within { OnOk result (KeepsWithin limit named.now cff.now) }
    ensures refused { IfErr result (λ e. (fault : Refusal) × (e ≡ errors.Font fault) × IsCutRefusedBy limit retain_gids named.now cff.now fault) }
{
    match subset_within(alloc, cff, named, retain_gids, limit) {
        Ok(cut) => Ok(cut),
        Err(error) => Err(Error::Font(error)),
    }
}

/// Returns all glyphs of a font, in their order.
fn every(alloc: Global, cff: &[u8]) -> Result<Vec<usize>>
    ensures all { IfOk result (λ origins. AreOrigins true [] cff.now origins.items) }
    ensures refused { IfErr result (λ e. IsUnopened cff.now e) }
{
    match FontView::read(alloc, cff) {
        Ok(font) => up_to(alloc, font.char_strings.len()),
        Err(error) => Err(Error::Font(postscript_write::Error::Refused(error))),
    }
}

/// Returns the numbers below a limit.
fn up_to(alloc: Global, count: usize) -> Result<Vec<usize>>
    ensures all { IfOk result (λ all. all.items ≡ range_with_len 0 count) }
    ensures memory { IfErr result (λ e. e ≡ errors.Memory) }
{
    let mut all = Vec::new(alloc);
    for glyph in 0..count {
        all.push(glyph)?;
    }
    Ok(all)
}

/// Returns the origin of each new glyph: the old glyph that it is made of.
pub(crate) fn origins_of(
    alloc: Global,
    cff: &[u8],
    named: &[usize],
    retain_gids: bool,
    limit: Option<u64>,
) -> Result<Vec<usize>>
    ensures are { IfOk result (λ origins. AreOrigins retain_gids named.now cff.now origins.items) }
    ensures few { IfOk result (λ origins. AreFew origins.items) }
    ensures refused { IfErr result (λ e. HasNoOrigins limit retain_gids named.now cff.now e) }
{
    are_bytes(cff);
    if retain_gids {
        every(alloc, cff)
    } else {
        kept_glyphs_of(alloc, cff, named, limit)
    }
}

/// Returns the origins of the glyphs of a subset that is written. `kept` are the glyphs that it is made of.
fn origins_by(
    alloc: Global,
    cff: &[u8],
    named: &[usize],
    kept: &[usize],
    retain_gids: bool,
) -> Result<Vec<usize>>
    requires kept { AreKept named.now cff.now kept.now }
    ensures are { IfOk result (λ origins. AreOrigins retain_gids named.now cff.now origins.items) }
    ensures few { IfOk result (λ origins. AreFew origins.items) }
    ensures refused { IfErr result (λ e. IsUnopened cff.now e) }
{
    are_bytes(cff);
    if retain_gids {
        every(alloc, cff)
    } else {
        let copy = Vec::from_slice(alloc, kept)?;
        Ok(copy)
    }
}

/// Returns the kept glyphs, each at its new number, with `.notdef` between them. `count` is the number of new glyphs.
fn glyphs_in_order(
    alloc: Global,
    kept: Vec<usize>,
    count: usize,
    retain_gids: bool,
) -> Result<Vec<usize>>
    ensures placed { IfOk result (λ glyphs. ArePlaced retain_gids kept.items count glyphs.items) }
    ensures memory { IfErr result (λ e. e ≡ errors.Memory) }
{
    if retain_gids {
        spread(alloc, &kept, count)
    } else {
        Ok(kept)
    }
}

/// Returns the glyphs that are kept.
fn kept_glyphs_of(
    alloc: Global,
    cff: &[u8],
    named: &[usize],
    limit: Option<u64>,
) -> Result<Vec<usize>>
    ensures are { IfOk result (λ origins. AreOrigins false named.now cff.now origins.items) }
    ensures refused { IfErr result (λ e. (fault : Refusal) × (e ≡ errors.Font fault)
        × (IsChoiceRefusedBy named.now cff.now fault ⊎ StopsIn cff.now named.now limit fault)) }
{
    match kept_glyphs_within(alloc, cff, named, limit) {
        Ok(kept) => Ok(kept),
        Err(error) => Err(Error::Font(error)),
    }
}

/// The tables that are made, apart from `CFF `.
#[derive(Drop)]
struct Made {
    cmap: Vec<u8>,
    hhea: Vec<u8>,
    hmtx: Vec<u8>,
    maxp: Vec<u8>,
    post: Vec<u8>,
}

/// States that the items of a slice of bytes are below 256. It does nothing.
fn are_bytes(_bytes: &[u8])
    ensures { AreBytes _bytes.now }
{}

/// Writes the `cmap` table of characters, with the new numbers of their glyphs, and without variation sequences.
fn plain_map_of(alloc: Global, pairs: &[Mapping], origins: &[usize]) -> Result<Vec<u8>>
    requires few { AreFew origins.now }
    ensures map { IfOk result (λ cmap. IsPlainMap pairs.now origins.now cmap.items) }
    ensures memory { IfErr result (λ e. e ≡ errors.Memory) }
{
    let numbers = numbers_of(alloc, origins)?;
    let all = with_new_numbers(alloc, pairs, &numbers)?;
    match cmap(alloc, &all) {
        Ok(cmap) => Ok(cmap),
        // The characters are in ascending order, and there are at most 1,114,112.
        Err(_) => Err(Error::Memory),
    }
}

/// Writes the `cmap` table of characters, with the new numbers of their glyphs, and with the variation sequences of these
/// characters in the old table, as far as their glyphs are in `placed`.
fn map_of(
    alloc: Global,
    old: &[u8],
    pairs: &[Mapping],
    origins: &[usize],
    placed: &[usize],
) -> Result<Vec<u8>>
    requires rise { CharsRise pairs.now }
    requires few { AreFew origins.now }
    requires low { AreFew placed.now }
    ensures map { IfOk result (λ cmap. IsMapOf old.now pairs.now origins.now placed.now cmap.items) }
    ensures bytes { IfOk result (λ cmap. AreBytes cmap.items) }
    ensures memory { IfErr result (λ e. e ≡ errors.Memory) }
{
    let plain = plain_map_of(alloc, pairs, origins)?;
    let cmap = with_kept(alloc, old, pairs, placed, plain)?;
    are_bytes(cmap.as_slice());
    Ok(cmap)
}

/// Writes the `hmtx` table, with the metrics of these glyphs.
fn hmtx_of(alloc: Global, face: &Face<'_>, glyphs: &[usize]) -> Result<Vec<u8>>
    requires room { 36 ≤ length face.now.hhea.now }
    requires small { AreSmall glyphs.now }
    ensures hmtx { IfOk result (λ hmtx. IsHmtxOf face.now glyphs.now hmtx.items) }
    ensures memory { IfErr result (λ e. e ≡ errors.Memory) }
{
    let metrics = metrics(alloc, face.hhea, face.hmtx, &face.advances, glyphs)?;
    Ok(hmtx(alloc, &metrics)?)
}

/// Writes the `hhea` table with this number of metrics.
fn hhea_of(alloc: Global, hhea: &[u8], count: u16) -> Result<Vec<u8>>
    requires { 36 ≤ length hhea.now }
    ensures told { IfOk result (λ new. IsWord new.items 34 count) }
    ensures kept { IfOk result (λ new. KeepsBut 34 hhea.now new.items) }
    ensures memory { IfErr result (λ e. e ≡ errors.Memory) }
{
    match with_number_of_metrics(alloc, hhea, count) {
        Ok(hhea) => Ok(hhea),
        // The table has 36 bytes, so `Cut` is impossible.
        Err(_) => Err(Error::Memory),
    }
}

/// Writes the `maxp` table with this number of glyphs.
fn maxp_of(alloc: Global, maxp: &[u8], count: u16) -> Result<Vec<u8>>
    ensures told { IfOk result (λ new. IsGlyphs new.items count) }
    ensures kept { IfOk result (λ new. KeepsBut 4 maxp.now new.items) }
    ensures refused { IfErr result (λ e. (e ≡ errors.Memory) ⊎ ((e ≡ errors.Cut) × (length maxp.now < 6))) }
{
    match with_number_of_glyphs(alloc, maxp, count) {
        Ok(maxp) => Ok(maxp),
        Err(postscript_sfnt_write::Error::Cut) => Err(Error::Cut),
        Err(_) => Err(Error::Memory),
    }
}

/// Writes a `post` table without names. Its other values are those of the face, or 0.
#[tactic(auto, using(crate::proofs::Few::post_size))]
fn post_of(alloc: Global, file: &FontFile<'_>) -> Result<Vec<u8>>
    ensures post { IfOk result (λ post. IsPostOf file.now post.items) }
    ensures size { IfOk result (λ post. length post.items ≡ 32) }
    ensures memory { IfErr result (λ e. e ≡ errors.Memory) }
{
    let post = match file.table(*b"post") {
        Some(post) if post.len() >= 32 => post,
        _ => &NO_POST,
    };
    match without_names(alloc, post) {
        Ok(post) => Ok(post),
        // The table has 32 bytes, so `Cut` is impossible.
        Err(_) => Err(Error::Memory),
    }
}

/// Makes the tables for characters and origins. `placed` has the kept glyphs at their new numbers, and otherwise `.notdef`.
fn made_of(
    alloc: Global,
    face: &Face<'_>,
    pairs: &[Mapping],
    origins: &[usize],
    placed: &[usize],
) -> Result<Made>
    requires room { 36 ≤ length face.now.hhea.now }
    requires rise { CharsRise pairs.now }
    requires few { AreFew origins.now }
    requires low { AreFew placed.now }
    ensures made { IfOk result (λ made. IsMade face.now pairs.now origins.now placed.now made) }
    ensures refused { IfErr result (λ e. IsUnmade face.now e) }
{
    let cmap = map_of(alloc, face.cmap, pairs, origins, placed)?;
    let hmtx = hmtx_of(alloc, face, placed)?;
    let count = origins.len() as u16;
    Ok(Made {
        cmap,
        hhea: hhea_of(alloc, face.hhea, count)?,
        hmtx,
        maxp: maxp_of(alloc, face.maxp, count)?,
        post: post_of(alloc, &face.file)?,
    })
}

/// Adds a table.
fn put<'t>(tables: &mut Vec<Table<'t>>, tag: u32, bytes: &'t [u8]) -> Result<()>
    ensures put { OnOk result (Puts tables.old.items tag bytes.now tables.new.items) }
    ensures memory { IfErr result (λ e. e ≡ errors.Memory) }
{
    tables.push(Table { tag, bytes })?;
    Ok(())
}

/// Adds the table with a tag, if a face has it.
fn put_copy<'t>(tables: &mut Vec<Table<'t>>, file: &FontFile<'t>, tag: u32) -> Result<()>
    ensures adds { OnOk result (Adds tables.old.items (λ t. (t ≡ tag) × (HasNoTable file.now t → ⊥)) tables.new.items) }
    ensures there { OnOk result ((table : List ℕ) → IsTableOf file.now tag table → IsListed tables.new.items tag table) }
    ensures counts { OnOk result (CountsCopied file.now (tag ∷ []) tables.old.items tables.new.items) }
    ensures memory { IfErr result (λ e. e ≡ errors.Memory) }
{
    if let Some(bytes) = table_of(file, tag) {
        put(tables, tag, bytes)?;
    }
    Ok(())
}

/// Adds the tables with these tags, as far as a face has them.
fn put_copied<'t>(tables: &mut Vec<Table<'t>>, file: &FontFile<'t>, tags: &[u32]) -> Result<()>
    ensures adds { OnOk result (Adds tables.old.items (IsCopied file.now tags.now) tables.new.items) }
    ensures there { OnOk result (AreCopiedTo file.now tags.now (length tags.now) tables.new.items) }
    ensures counts { OnOk result (CountsCopied file.now tags.now tables.old.items tables.new.items) }
    ensures memory { IfErr result (λ e. e ≡ errors.Memory) }
{
    for tag in tags {
        put_copy(tables, file, *tag)?;
    }
    Ok(())
}

/// Adds tables of the caller's own.
fn put_given<'t>(tables: &mut Vec<Table<'t>>, given: &'t [Given]) -> Result<()>
    ensures adds { OnOk result (Adds tables.old.items (IsGivenTag given.now) tables.new.items) }
    ensures there { OnOk result (AreGivenTo given.now (length given.now) tables.new.items) }
    ensures counts { OnOk result (CountsGiven given.now tables.old.items tables.new.items) }
    ensures memory { IfErr result (λ e. e ≡ errors.Memory) }
{
    for table in given {
        put(tables, table.tag, table.bytes.as_slice())?;
    }
    Ok(())
}

/// Returns the tables that are made.
fn made_tables<'t>(alloc: Global, cff: &'t [u8], made: &'t Made) -> Result<Vec<Table<'t>>>
    ensures made { IfOk result (λ tables. AreMade cff.now made.now tables.items) }
    ensures memory { IfErr result (λ e. e ≡ errors.Memory) }
{
    let mut tables = Vec::new(alloc);
    put(&mut tables, CFF, cff)?;
    put(&mut tables, CMAP, made.cmap.as_slice())?;
    put(&mut tables, HHEA, made.hhea.as_slice())?;
    put(&mut tables, HMTX, made.hmtx.as_slice())?;
    put(&mut tables, MAXP, made.maxp.as_slice())?;
    put(&mut tables, POST, made.post.as_slice())?;
    Ok(tables)
}

/// Writes the file of the tables that are made, given and copied.
fn write_file(
    alloc: Global,
    face: &Face<'_>,
    choice: &Choice<'_>,
    cff: &[u8],
    made: &Made,
) -> Result<Vec<u8>>
    ensures file { IfOk result (λ file. IsFileOfParts choice.now face.now.file cff.now made.now file.items) }
    ensures refused { IfErr result (λ e. NoFileOfParts choice.now face.now.file cff.now made.now e) }
{
    let mut tables = made_tables(alloc, cff, made)?;
    put_given(&mut tables, choice.given)?;
    put_copied(&mut tables, &face.file, choice.copied)?;
    file_with(alloc, &tables)
}

/// The tags of the tables that are made.
const CFF: u32 = 0x43464620;

const CMAP: u32 = 0x636d6170;

const HHEA: u32 = 0x68686561;

const HMTX: u32 = 0x686d7478;

const MAXP: u32 = 0x6d617870;

const POST: u32 = 0x706f7374;

/// Writes the subset of a face.
fn subset_of(alloc: Global, face: &Face<'_>, choice: &Choice<'_>) -> Result<Vec<u8>>
    requires { 36 ≤ length face.now.hhea.now }
    ensures subset { IfOk result (λ file. IsCutFile choice.now face.now file.items) }
    ensures refused { IfErr result (λ e. NoSubsetFrom choice.now face.now e) }
{
    let pairs = kept_pairs(alloc, &face.map, choice)?;
    let named = glyphs_of_choice(alloc, choice, &pairs)?;
    let cut = cut_of(alloc, face.cff, &named, choice.retain_gids, choice.limit)?;
    let FontSubset { font, kept } = cut;
    let origins = origins_by(alloc, face.cff, &named, &kept, choice.retain_gids)?;
    let placed = glyphs_in_order(alloc, kept, origins.len(), choice.retain_gids)?;
    let made = made_of(alloc, face, &pairs, &origins, &placed)?;
    write_file(alloc, face, choice, &font, &made)
}

/// Writes a file with only some characters and glyphs of a face, desubroutinized.
///
/// A character is kept if it is in `choice.chars` or if its glyph is in `choice.glyphs`, and if the face has a glyph for it.
/// The glyphs of the new file are `.notdef`, the glyphs of all kept characters, the glyphs in `choice.glyphs` and in
/// `choice.unmapped`, and the components of `seac` glyphs among them. Each is drawn, named and measured as before. The glyphs are in their old order.
/// If `choice.retain_gids` is set, empty glyphs with the metrics of `.notdef` are between them.
///
/// The variation sequences of kept characters are kept too, if their glyphs are. There are none if they cost more than
/// 20,000,000 units ([`Face::sequence_glyphs`]).
///
/// The new file has the tables `CFF `, `cmap`, `hhea`, `hmtx`, `maxp` and `post` (without glyph names), copies of the tables
/// in `choice.copied`, and the tables in `choice.given`. There are no other tables, and so no kerning and no ligatures
/// unless they are given.
///
/// # Errors
///
/// - `File`, `MissingTable`, `NoMap`, `NoAdvances`: as for [`Face::open`].
/// - `MissingCharacter`: the face has no glyph for a character, and `choice.lenient` is not set. The error has the first one.
/// - `Font`: the `CFF ` table is malformed, or one of the kept glyphs is, or no glyph is kept, or (`TooLong`) the runs of
///   the kept glyphs cost more than `choice.limit`. If there is a limit, a glyph that fails need not be the first one.
/// - `Cut`: the `maxp` table is truncated.
/// - `SameTag`: two tables of the new file have this tag.
/// - `TooLarge`: the new file would have 4,096 tables or more, or 2^32 bytes or more.
/// - `Memory`: out of memory.
pub fn subset_file(
    alloc: Global,
    file: &[u8],
    number: usize,
    choice: &Choice<'_>,
) -> Result<Vec<u8>>
    // The new file is sound and opens, and has exactly the kept characters, glyphs and tables.
    ensures subset { IfOk result (λ new. IsSubsetOf choice.now file.now number new.items) }
    // The file, the face, a character, the font, a repeated tag or the sizes justify the error.
    ensures refused { IfErr result (λ e. NoSubsetOf choice.now file.now number e) }
{
    let face = Face::open(file, number)?;
    face.subset(alloc, choice)
}

impl Face<'_> {
    /// Writes a file with only some characters and glyphs of this face, as [`subset_file`] does.
    ///
    /// # Errors
    ///
    /// As for [`subset_file`], and `NoAdvances` if the `hhea` table is truncated. That of an opened face never is.
    pub fn subset(&self, alloc: Global, choice: &Choice<'_>) -> Result<Vec<u8>>
        // The new file is sound and opens, and has exactly the kept characters, glyphs and tables.
        ensures subset { IfOk result (λ new. IsSubsetFile choice.now self.now new.items) }
        // A character, the font, a truncated table, a repeated tag or the sizes justify the error.
        ensures refused { IfErr result (λ e. NoSubsetBy choice.now self.now e) }
    {
        if self.hhea.len() < 36 {
            return Err(Error::NoAdvances);
        }
        if !choice.lenient {
            refuse_missing(&self.map, choice.chars)?;
        }
        subset_of(alloc, self, choice)
    }
}
