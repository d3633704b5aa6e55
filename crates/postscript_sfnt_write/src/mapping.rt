//! Writes character maps (ISO/IEC 14496-22, 5.2.1).
ghost use Rattle.std.specs.Prelude.{◌≡◌, ℕ, ◌+◌, ◌*◌, ◌^◌, ◌<◌, ◌≤◌, [], ◌∷◌, ◌++◌, List, length, IsTrue, ◌↔◌, OnOk, IfOk, IfErr, IfNone, IfSome};
ghost use Rattle.postscript_sfnt_write.specs.Mappings.{AreTold, AreToldIn4, CharsRise, FitFormat4, HasFormat4, HasOnlyFormat4, IsReadable, RefusesMap, in_segments, low as the_low};
ghost use Rattle.postscript_sfnt_write.specs.Headers.{HaveHeaders, IsLogarithm};
ghost use Rattle.postscript_sfnt_write.specs.Records.{AllAscend, HasRecords};
ghost use Rattle.postscript_sfnt_write.specs.Sequences.{AreClosed};
ghost use Rattle.postscript_sfnt_write.specs.Grouping.{MappingsFit, AreBelow, MappingFits, GroupFits, GroupsFit, IsLarge, IsSmall, encoding_text, end, format12_text, goes_on as the_goes_on, group_of as the_group_of, group_text, grouped, groups as the_groups, groups_text, head4_text, large_text, row_number, row_text, rows_text};
ghost use Rattle.postscript_sfnt_write.specs.declared.mapping.Mapping.{Mapping};

use crate::error::{Error, Result};
use crate::numbers::{put_uint16, put_uint32};
use std::alloc::{AllocError, Global};

/// The maximum number of mappings in a table.
const MOST: usize = 357_913_939;

/// The maximum number of segments that a subtable of format 4 is written with.
const SEGMENTS: usize = 8001;

/// A character and its glyph.
#[derive(Clone, Copy, Debug, Drop, PartialEq, Eq)]
pub struct Mapping {
    pub char: u32,
    pub glyph: u16,
}

/// Consecutive characters with consecutive glyphs (SequentialMapGroup).
#[derive(Clone, Copy, Debug, Drop, PartialEq, Eq)]
struct Group {
    start: u32,
    end: u32,
    glyph: u16,
}

/// The character of the last segment, without a glyph.
const END: Mapping = Mapping {
    char: 0xffff,
    glyph: 0,
};

/// The arrays of format 4.
#[derive(Clone, Copy, Debug, Drop, PartialEq, Eq)]
enum Row {
    End,
    Start,
    Delta,
    Offset,
}

impl Row {
    /// The number of a group in the array.
    fn number(self, group: &Group) -> u16
        ensures { result ≡ row_number self group.now }
    {
        match self {
            Row::End => (group.end % 65536) as u16,
            Row::Start => (group.start % 65536) as u16,
            Row::Delta => ((group.glyph as u32 + 65536 - group.start % 65536) % 65536) as u16,
            Row::Offset => 0,
        }
    }
}

/// Whether characters are in strictly ascending order.
fn chars_rise(mappings: &[Mapping]) -> bool
    ensures { IsTrue result ↔ CharsRise mappings.now }
{
    for i in 1..mappings.len() {
        if mappings[i].char <= mappings[i - 1].char {
            return false;
        }
    }
    true
}

/// Whether the character and its glyph continue the group.
fn goes_on(group: &Group, mapping: &Mapping) -> bool
    ensures exact { result ≡ the_goes_on group.now mapping.now }
    ensures fits { MappingFits mapping.now }
{
    mapping.char as u64 == group.end as u64 + 1
        && mapping.glyph as u64 + group.start as u64 == group.glyph as u64 + mapping.char as u64
}

/// A group of one character.
fn group_of(mapping: Mapping) -> Group
    ensures exact { result ≡ the_group_of mapping }
    ensures fits { MappingFits mapping }
{
    Group {
        start: mapping.char,
        end: mapping.char,
        glyph: mapping.glyph,
    }
}

/// The open group after a character: the group before it, extended, or a new one.
#[tactic(auto, unfolding(crate::specs::Grouping::grouped))]
fn next_group(
    groups: &mut Vec<Group>,
    group: Group,
    mapping: &Mapping,
) -> std::result::Result<Group, AllocError>
    ensures exact { IfOk result (λ next. (rest : List Mapping) →
        groups.new.items ++ grouped next rest ≡ groups.old.items ++ grouped group (mapping.now ∷ rest)) }
    ensures fits { MappingFits mapping.now }
{
    if goes_on(&group, mapping) {
        return Ok(Group {
            start: group.start,
            end: mapping.char,
            glyph: group.glyph,
        });
    }
    groups.push(group)?;
    Ok(group_of(*mapping))
}

/// The groups of the characters after an open group.
fn groups_from(
    alloc: Global,
    first: Group,
    mappings: &[Mapping],
) -> std::result::Result<Vec<Group>, AllocError>
    ensures exact { IfOk result (λ groups. groups.items ≡ grouped first mappings.now) }
    ensures few { IfOk result (λ groups. length groups.items ≤ length mappings.now + 1) }
    ensures fit { OnOk result (MappingsFit mappings.now) }
{
    let mut groups = Vec::new(alloc);
    let mut group = first;
    for mapping in mappings {
        group = next_group(&mut groups, group, mapping)?;
    }
    groups.push(group)?;
    Ok(groups)
}

/// The groups of characters.
#[tactic(auto, unfolding(crate::specs::Grouping::groups))]
fn groups(alloc: Global, mappings: &[Mapping]) -> std::result::Result<Vec<Group>, AllocError>
    ensures exact { IfOk result (λ groups. groups.items ≡ the_groups mappings.now) }
    ensures few { IfOk result (λ groups. length groups.items ≤ length mappings.now) }
    ensures fit { OnOk result (MappingsFit mappings.now) }
{
    match mappings {
        [] => Ok(Vec::new(alloc)),
        [first, rest @ ..] => groups_from(alloc, group_of(*first), rest),
    }
}

/// Appends a group.
#[tactic(auto, unfolding(crate::specs::Grouping::group_text))]
fn put_group(out: &mut Vec<u8>, group: Group) -> std::result::Result<(), AllocError>
    ensures text { OnOk result (out.new.items ≡ out.old.items ++ group_text group) }
    ensures fits { GroupFits group }
{
    put_uint32(out, group.start)?;
    put_uint32(out, group.end)?;
    put_uint32(out, group.glyph as u32)
}

/// Appends groups.
fn put_groups(out: &mut Vec<u8>, groups: &[Group]) -> std::result::Result<(), AllocError>
    ensures text { OnOk result (out.new.items ≡ out.old.items ++ groups_text groups.now) }
    ensures fit { OnOk result (GroupsFit groups.now) }
{
    for group in groups {
        put_group(out, *group)?;
    }
    Ok(())
}

/// Appends a subtable of format 12.
#[tactic(auto, unfolding(crate::specs::Grouping::format12_text))]
fn put_format12(out: &mut Vec<u8>, groups: &[Group]) -> std::result::Result<(), AllocError>
    requires { 16 + length groups.now * 12 < 2 ^ 32 }
    ensures text { OnOk result (out.new.items ≡ out.old.items ++ format12_text groups.now) }
    ensures fit { OnOk result (GroupsFit groups.now) }
{
    put_uint16(out, 12)?;
    put_uint16(out, 0)?;
    put_uint32(out, 16 + groups.len() as u32 * 12)?;
    put_uint32(out, 0)?;
    put_uint32(out, groups.len() as u32)?;
    put_groups(out, groups)
}

/// Appends an array of format 4.
fn put_row(out: &mut Vec<u8>, row: Row, groups: &[Group]) -> std::result::Result<(), AllocError>
    ensures { OnOk result (out.new.items ≡ out.old.items ++ row_text row groups.now) }
{
    for group in groups {
        put_uint16(out, row.number(group))?;
    }
    Ok(())
}

/// Appends the arrays of format 4.
#[tactic(auto, unfolding(crate::specs::Grouping::rows_text))]
fn put_rows(out: &mut Vec<u8>, groups: &[Group]) -> std::result::Result<(), AllocError>
    ensures { OnOk result (out.new.items ≡ out.old.items ++ rows_text groups.now) }
{
    put_row(out, Row::End, groups)?;
    put_uint16(out, 0)?;
    put_row(out, Row::Start, groups)?;
    put_row(out, Row::Delta, groups)?;
    put_row(out, Row::Offset, groups)
}

/// Appends the header of a subtable of format 4 with a given number of segments.
#[tactic(auto, unfolding(crate::specs::Grouping::head4_text))]
fn put_head4(out: &mut Vec<u8>, count: u16, selector: u32) -> std::result::Result<(), AllocError>
    requires counted { count < 8002 }
    requires selected { 2 ^ selector ≤ count }
    requires small { selector < 16 }
    ensures { OnOk result (out.new.items ≡ out.old.items ++ head4_text count selector) }
{
    let range = (1u16 << selector) * 2;
    put_uint16(out, 4)?;
    put_uint16(out, 16 + count * 8)?;
    put_uint16(out, 0)?;
    put_uint16(out, count * 2)?;
    put_uint16(out, range)?;
    put_uint16(out, selector as u16)?;
    put_uint16(out, count * 2 - range)
}

/// Appends a subtable of format 4.
fn put_format4(out: &mut Vec<u8>, groups: &[Group]) -> std::result::Result<(), AllocError>
    requires some { 0 < length groups.now }
    requires most { length groups.now < 8002 }
    ensures { OnOk result ((selector : ℕ) × IsLogarithm (length groups.now) selector × (selector < 16)
        × (out.new.items ≡ out.old.items ++ (head4_text (length groups.now) selector ++ rows_text groups.now))) }
{
    let count = groups.len() as u16;
    let selector = count.ilog2();
    put_head4(out, count, selector)?;
    put_rows(out, groups)
}

/// Appends an encoding record with the offset of its subtable.
#[tactic(auto, unfolding(crate::specs::Grouping::encoding_text))]
pub(crate) fn put_encoding(
    out: &mut Vec<u8>,
    platform: u16,
    encoding: u16,
    place: u32,
) -> std::result::Result<(), AllocError>
    ensures { OnOk result (out.new.items ≡ out.old.items ++ encoding_text platform encoding place) }
{
    put_uint16(out, platform)?;
    put_uint16(out, encoding)?;
    put_uint32(out, place)
}

/// Adds the last segment's character to characters below U+FFFF.
fn with_end(alloc: Global, mappings: &[Mapping]) -> std::result::Result<Vec<Mapping>, AllocError>
    ensures { IfOk result (λ all. all.items ≡ mappings.now ++ end ∷ []) }
{
    let mut all = Vec::from_slice(alloc, mappings)?;
    all.push(END)?;
    Ok(all)
}

/// The segments of characters below U+FFFF.
#[tactic(auto, using(crate::proofs::Groups::some_groups, crate::proofs::Groups::few_segments))]
fn segments(alloc: Global, mappings: &[Mapping]) -> std::result::Result<Vec<Group>, AllocError>
    ensures exact { IfOk result (λ segments. segments.items ≡ the_groups (mappings.now ++ end ∷ [])) }
    ensures some { IfOk result (λ segments. 0 < length segments.items) }
    ensures few { IfOk result (λ segments. length segments.items ≤ length mappings.now + 1) }
    ensures fit { OnOk result (MappingsFit (mappings.now ++ end ∷ [])) }
{
    let all = with_end(alloc, mappings)?;
    groups(alloc, all.as_slice())
}

/// Writes a `cmap` table with one subtable of format 4.
#[tactic(auto, unfolding(crate::specs::Grouping::small_text))]
fn small(alloc: Global, segments: &[Group]) -> std::result::Result<Vec<u8>, AllocError>
    requires some { 0 < length segments.now }
    requires most { length segments.now < 8002 }
    ensures { IfOk result (λ table. IsSmall table.items segments.now) }
{
    let mut table = Vec::new(alloc);
    put_uint16(&mut table, 0)?;
    put_uint16(&mut table, 2)?;
    put_encoding(&mut table, 0, 3, 20)?;
    put_encoding(&mut table, 3, 1, 20)?;
    put_format4(&mut table, segments)?;
    Ok(table)
}

/// The characters below U+FFFF.
fn low(alloc: Global, mappings: &[Mapping]) -> std::result::Result<Vec<Mapping>, AllocError>
    ensures { IfOk result (λ low. low.items ≡ the_low mappings.now) }
{
    mappings
        .iter()
        .filter(|mapping| mapping.char < END.char)
        .copied()
        .collect(alloc)
}

/// The segments of the characters below U+FFFF, or only the last segment if there are too many.
fn low_segments(alloc: Global, mappings: &[Mapping]) -> std::result::Result<Vec<Group>, AllocError>
    ensures exact { IfOk result (λ segments. segments.items ≡ the_groups (in_segments mappings.now ++ end ∷ [])) }
    ensures fit { OnOk result (MappingsFit (in_segments mappings.now ++ end ∷ [])) }
    ensures some { IfOk result (λ segments. 0 < length segments.items) }
    ensures most { IfOk result (λ segments. length segments.items < 8002) }
{
    let below = low(alloc, mappings)?;
    let low = segments(alloc, &below)?;
    if low.len() <= SEGMENTS {
        return Ok(low);
    }
    let last = segments(alloc, &[])?;
    Ok(last)
}

/// The encoding records of a subtable of format 4 and of one of format 12 after it.
#[tactic(auto, unfolding(crate::specs::Grouping::large_text))]
fn large_head(alloc: Global, behind: u32) -> std::result::Result<Vec<u8>, AllocError>
    ensures { IfOk result (λ table. table.items ≡ large_text behind) }
{
    let mut table = Vec::new(alloc);
    put_uint16(&mut table, 0)?;
    put_uint16(&mut table, 4)?;
    put_encoding(&mut table, 0, 3, 36)?;
    put_encoding(&mut table, 0, 4, behind)?;
    put_encoding(&mut table, 3, 1, 36)?;
    put_encoding(&mut table, 3, 10, behind)?;
    Ok(table)
}

/// Writes a `cmap` table with a subtable of format 4, for characters below U+FFFF, and one of format 12.
fn large(alloc: Global, low: &[Group], all: &[Group]) -> std::result::Result<Vec<u8>, AllocError>
    requires some { 0 < length low.now }
    requires most { length low.now < 8002 }
    requires room { 16 + length all.now * 12 < 2 ^ 32 }
    ensures text { IfOk result (λ table. IsLarge table.items low.now all.now) }
    ensures fit { OnOk result (GroupsFit all.now) }
{
    let mut table = large_head(alloc, 52 + low.len() as u32 * 8)?;
    put_format4(&mut table, low)?;
    put_format12(&mut table, all)?;
    Ok(table)
}

/// Whether ascending characters are all below U+FFFF.
fn are_below(mappings: &[Mapping]) -> bool
    requires { CharsRise mappings.now }
    ensures { IsTrue result ↔ AreBelow mappings.now }
{
    mappings.is_empty() || mappings[mappings.len() - 1].char < 0xffff
}

/// Writes a table of both formats.
fn of_both(alloc: Global, mappings: &[Mapping]) -> std::result::Result<Vec<u8>, AllocError>
    requires rise { CharsRise mappings.now }
    requires room { 16 + length mappings.now * 12 < 2 ^ 32 }
    ensures read { IfOk result (λ cmap. IsReadable cmap.items) }
    ensures told { IfOk result (λ cmap. AreTold cmap.items mappings.now) }
    ensures headers { IfOk result (λ cmap. HaveHeaders cmap.items) }
    ensures format4 { IfOk result (λ cmap. HasFormat4 cmap.items) }
    ensures told_in_4 { IfOk result (λ cmap. AreToldIn4 cmap.items (in_segments mappings.now)) }
    ensures records { IfOk result (λ cmap. HasRecords cmap.items) }
    ensures ascend { IfOk result (λ cmap. AllAscend cmap.items) }
    ensures closed { IfOk result (λ cmap. AreClosed cmap.items) }
    ensures size { IfOk result (λ cmap. length cmap.items ≤ 64076 + length mappings.now * 12) }
{
    let low = low_segments(alloc, mappings)?;
    let all = groups(alloc, mappings)?;
    let table = large(alloc, low.as_slice(), all.as_slice())?;
    Ok(table)
}

/// Writes a table of segments.
#[tactic(auto, using(crate::proofs::Groups::some_groups))]
fn of_segments(
    alloc: Global,
    segments: &[Group],
    mappings: &[Mapping],
) -> std::result::Result<Vec<u8>, AllocError>
    requires rise { CharsRise mappings.now }
    requires below { AreBelow mappings.now }
    requires exact { segments.now ≡ the_groups (mappings.now ++ end ∷ []) }
    requires most { length segments.now < 8002 }
    requires fit { MappingsFit (mappings.now ++ end ∷ []) }
    ensures read { IfOk result (λ cmap. IsReadable cmap.items) }
    ensures told { IfOk result (λ cmap. AreTold cmap.items mappings.now) }
    ensures headers { IfOk result (λ cmap. HaveHeaders cmap.items) }
    ensures format4 { IfOk result (λ cmap. HasFormat4 cmap.items) }
    ensures told_in_4 { IfOk result (λ cmap. AreToldIn4 cmap.items (in_segments mappings.now)) }
    ensures only { IfOk result (λ cmap. HasOnlyFormat4 cmap.items) }
    ensures records { IfOk result (λ cmap. HasRecords cmap.items) }
    ensures ascend { IfOk result (λ cmap. AllAscend cmap.items) }
    ensures closed { IfOk result (λ cmap. AreClosed cmap.items) }
    ensures size { IfOk result (λ cmap. length cmap.items ≤ 64076 + length mappings.now * 12) }
{
    let table = small(alloc, segments)?;
    Ok(table)
}

/// The segments of characters, if a subtable of format 4 has room for them.
fn fitting_segments(
    alloc: Global,
    mappings: &[Mapping],
) -> std::result::Result<Option<Vec<Group>>, AllocError>
    requires { CharsRise mappings.now }
    ensures fit { IfOk result (λ found. IfSome found (λ segments. AreBelow mappings.now
        × (segments.items ≡ the_groups (mappings.now ++ end ∷ [])) × (length segments.items < 8002)
        × MappingsFit (mappings.now ++ end ∷ []))) }
    ensures none { IfOk result (λ found. IfNone found (FitFormat4 mappings.now → ⊥)) }
{
    if !are_below(mappings) {
        return Ok(None);
    }
    let segments = segments(alloc, mappings)?;
    if segments.len() > SEGMENTS {
        return Ok(None);
    }
    Ok(Some(segments))
}

/// Writes a `cmap` table of characters in strictly ascending order, each with its glyph. Glyph 0 means no glyph.
///
/// The subtable has format 4 if all characters are below U+FFFF and form at most 8,000 segments. Otherwise the table
/// has subtables of formats 4 and 12. The one of format 4 has the characters below U+FFFF, or none if these form more
/// than 8,000 segments.
///
/// # Errors
///
/// - `CharactersDoNotRise`: the characters are not in strictly ascending order.
/// - `TooLarge`: with a group for each character the format 12 subtable would have 2^32 bytes or more.
/// - `Memory`: out of memory.
pub fn cmap(alloc: Global, mappings: &[Mapping]) -> Result<Vec<u8>>
    // A reader finds a supported subtable in the table, and the subtable is whole.
    ensures read { IfOk result (λ cmap. IsReadable cmap.items) }
    // That subtable maps each character to its given glyph, and all others to 0.
    ensures told { IfOk result (λ cmap. AreTold cmap.items mappings.now) }
    // Each subtable has its length, the language 0 and, in format 4, its search fields.
    ensures headers { IfOk result (λ cmap. HaveHeaders cmap.items) }
    // There is a subtable of format 4, for the first plane of Unicode on Windows.
    ensures format4 { IfOk result (λ cmap. HasFormat4 cmap.items) }
    // It maps exactly the characters below U+FFFF, or none if these form over 8,000 segments.
    ensures told_in_4 { IfOk result (λ cmap. AreToldIn4 cmap.items (in_segments mappings.now)) }
    // If format 4 has room for all characters (`FitFormat4`), each subtable has this format.
    ensures only { IfOk result (λ cmap. FitFormat4 mappings.now → HasOnlyFormat4 cmap.items) }
    // The encoding records are (0, 3) and (3, 1), perhaps with (0, 4) and (3, 10), in order.
    ensures records { IfOk result (λ cmap. HasRecords cmap.items) }
    // In each subtable the segments or groups ascend and do not overlap. Format 4 ends with U+FFFF.
    ensures ascend { IfOk result (λ cmap. AllAscend cmap.items) }
    // Each subtable is whole, and lists no glyphs outside of the table.
    ensures closed { IfOk result (λ cmap. AreClosed cmap.items) }
    // The table has at most 64,076 bytes, and 12 for each character.
    ensures size { IfOk result (λ cmap. length cmap.items ≤ 64076 + length mappings.now * 12) }
    // A success means that the characters are in strictly ascending order.
    ensures rise { OnOk result (CharsRise mappings.now) }
    // An error is justified by the order or the number of characters, or it is `Memory`.
    ensures refused { IfErr result (λ e. RefusesMap e mappings.now) }
{
    if !chars_rise(mappings) {
        return Err(Error::CharactersDoNotRise);
    }
    if mappings.len() > MOST {
        return Err(Error::TooLarge);
    }
    match fitting_segments(alloc, mappings)? {
        Some(segments) => Ok(of_segments(alloc, segments.as_slice(), mappings)?),
        None => Ok(of_both(alloc, mappings)?),
    }
}
