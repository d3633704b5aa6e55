//! `name` tables (ISO/IEC 14496-22).
ghost use Rattle.std.specs.Prelude.{◌≡◌, ◌+◌, ◌<◌, ◌∷◌, ◌++◌, ◌⊎◌, ◌↔◌, ℕ, [], List, IfNone, IfOk, IfSome, IsTrue, MatchBool, MatchOption, OnOk, flat_map, length, min};
ghost use Rattle.postscript_sfnt.specs.NameTable.{HasRecords, name_rank, name_rank_at, names_of, table_of};
ghost use Rattle.postscript_text.specs.NameTables.{AreChosen, HaveNoSpace, Holds, IsChosen, IsNameTable, IsRecordAt, field_of, row, start_of, word as the_word, word_at};
ghost use Rattle.postscript_text.specs.Places.{HasNoPlace, HasPlace, IsPlaced};
ghost use Rattle.postscript_text.specs.Repetitions.{Differs, Repeats, SaysSomethingElse, SaysTheSame};
ghost use Rattle.postscript_text.specs.declared.names.Record.{Record as TheRecord};

use postscript_base::index::number::number_within;
use postscript_sfnt::{Name, Names};
use std::alloc::{AllocError, Global};

/// The names that systems and browsers read: family, style, unique and full name, version, PostScript name, the
/// typographic and the WWS family and style, and the variations prefix.
const READ: [usize; 11] = [1, 2, 3, 4, 5, 6, 16, 17, 21, 22, 25];

/// Copyright, trademark, licence and licence URL.
const LICENCE: [usize; 4] = [0, 7, 13, 14];

/// The most records of a table that is processed.
pub const MOST: usize = 1000;

/// The Windows language number of US English.
const ENGLISH: usize = 0x409;

/// A record of the table, and its text.
#[derive(Clone, Copy)]
pub struct Record<'l> {
    pub platform: usize,
    pub encoding: usize,
    pub language: usize,
    pub identifier: usize,
    /// The offset of the text in the original. Texts with equal offsets are written once.
    pub start: usize,
    pub text: &'l [u8],
}

/// Converts to two bytes. Greater numbers become 65535.
fn word_of(number: usize) -> u16
    ensures { result ≡ min number 65535 }
{
    u16::try_from(number).unwrap_or(u16::MAX)
}

/// Adds numbers of two bytes each. Greater numbers become 65535.
fn put_words(out: &mut Vec<u8>, numbers: &[usize]) -> Result<(), AllocError>
    ensures { OnOk result (out.new.items ≡ out.old.items ++ flat_map the_word numbers.now) }
{
    for number in numbers {
        out.extend_from_slice(&word_of(*number).to_be_bytes())?;
    }
    Ok(())
}

/// Returns a number of two bytes, or 0 if the table ends before it.
fn word(table: &[u8], place: usize) -> usize
    ensures small { result < 65536 }
    ensures value { result ≡ word_at table.now place }
{
    number_within(table, place, 2).unwrap_or(0)
}

/// Returns a two-byte field of a record.
fn field(table: &[u8], i: usize, field: usize) -> usize
    requires { field < 6 }
    ensures small { result < 65536 }
    ensures value { result ≡ field_of table.now i field }
{
    let place = i
        .saturating_mul(12)
        .saturating_add(6)
        .saturating_add(field * 2);
    word(table, place)
}

/// Returns a record. Returns `None` if its text is truncated.
pub fn record_at(table: &[u8], i: usize) -> Option<Record<'_>>
    // The record with its text, or `None` exactly if the table ends before the text does.
    ensures { MatchOption result
        (length table.now < start_of table.now i + field_of table.now i 4)
        (λ entry. IsRecordAt table.now i entry) }
{
    let start = word(table, 4) + field(table, i, 5);
    let text = table.get(start..start + field(table, i, 4))?;
    Some(Record {
        platform: field(table, i, 0),
        encoding: field(table, i, 1),
        language: field(table, i, 2),
        identifier: field(table, i, 3),
        start,
        text,
    })
}

/// Returns whether two names have the same characters.
fn says_the_same(one: Name<'_>, other: Name<'_>) -> bool
    ensures { MatchBool result
        (SaysTheSame one.entry other.entry)
        (SaysSomethingElse one.entry other.entry) }
{
    let mut others = other.chars();
    for char in one.chars() {
        if others.next() != Some(char) {
            return false;
        }
    }
    others.next().is_none()
}

/// Returns whether a record is one of Windows in US English, with a text in UTF-16.
fn is_in_english(table: &[u8], i: usize) -> bool
    ensures { IsTrue result
        ↔ (name_rank (field_of table.now i 0) (field_of table.now i 1) (field_of table.now i 2) ≡ 4) }
{
    let encoding = field(table, i, 1);
    field(table, i, 0) == 3
        && (encoding == 0 || encoding == 1 || encoding == 10)
        && field(table, i, 2) == ENGLISH
}

/// Returns whether there is such a record for a name ID, with its whole text.
fn is_of_windows(table: &[u8], count: usize, identifier: usize) -> bool
    requires room { HasRecords table.now }
    requires all { count ≡ names_of table.now }
    ensures { MatchBool result
        ((i : ℕ) × (i < count) × (name_rank_at table.now identifier i ≡ 4))
        ((i : ℕ) → i < count → name_rank_at table.now identifier i < 4) }
{
    for i in 0..count {
        if is_in_english(table, i)
            && field(table, i, 3) == identifier
            && record_at(table, i).is_some()
        {
            return true;
        }
    }
    false
}

/// Returns whether a Unicode record, or a Mac Roman record, only repeats the text of a better one.
fn is_told_twice(names: &Names<'_>, table: &[u8], count: usize, entry: &Record<'_>) -> bool
    requires same { table_of names.now ≡ table.now }
    requires room { HasRecords table.now }
    requires all { count ≡ names_of table.now }
    requires small { entry.now.identifier < 65536 }
    ensures { MatchBool result (Repeats table.now entry.now) (Differs table.now entry.now) }
{
    let Some(best) = names.get(word_of(entry.identifier)) else {
        return false;
    };
    match (entry.platform, entry.encoding, best) {
        (0, _, Name::Utf16(_)) => {
            is_of_windows(table, count, entry.identifier)
                && says_the_same(Name::Utf16(entry.text), best)
        }
        (1, 0, Name::Utf16(_)) => says_the_same(Name::MacRoman(entry.text), best),
        _ => false,
    }
}

/// A new `name` table: its records, and their texts.
#[derive(Drop)]
pub struct NameTable {
    records: Vec<u8>,
    texts: Vec<u8>,
    /// The old offset, the length and the new offset of each text.
    places: Vec<(usize, usize, usize)>,
}

impl NameTable {
    /// Returns a table without records.
    pub fn new(alloc: Global) -> NameTable
        // The table has no records.
        ensures { Holds result [] }
    {
        NameTable {
            records: Vec::new(alloc),
            texts: Vec::new(alloc),
            places: Vec::new(alloc),
        }
    }

    /// Returns the new offset of a text. Returns `None` if the table does not have it.
    fn place_found(&self, entry: &Record<'_>) -> Option<usize>
        ensures { MatchOption result (HasNoPlace self.now entry.now) (λ place. HasPlace self.now entry.now place) }
    {
        for (start, size, place) in &self.places {
            if *start == entry.start && *size == entry.text.len() {
                return Some(*place);
            }
        }
        None
    }

    /// Returns the new offset of a text, and adds the text if it is new.
    fn place_of(&mut self, entry: &Record<'_>) -> Result<usize, AllocError>
        ensures { IfOk result (λ place. IsPlaced self.old entry.now place self.new) }
    {
        if let Some(place) = self.place_found(entry) {
            return Ok(place);
        }
        let place = self.texts.len();
        self.texts.extend_from_slice(entry.text)?;
        self.places.push((entry.start, entry.text.len(), place))?;
        Ok(place)
    }

    /// Adds a record. Its text is added if no earlier record has one with the same offset and length.
    pub fn put(&mut self, entry: &Record<'_>) -> Result<(), AllocError>
        // The record is the last one of the new table.
        ensures { (records : List TheRecord) → Holds self.old records → OnOk result (Holds self.new (records ++ entry.now ∷ [])) }
    {
        let place = self.place_of(entry)?;
        let row = [
            entry.platform,
            entry.encoding,
            entry.language,
            entry.identifier,
            entry.text.len(),
            place,
        ];
        put_words(&mut self.records, &row)?;
        Ok(())
    }

    /// Returns the table. Returns `None` if an offset exceeds two bytes.
    pub fn table(&self, alloc: Global) -> Result<Option<Vec<u8>>, AllocError>
        // The `name` table of the records, or `None` exactly if it has no space for them.
        ensures { (records : List TheRecord) → Holds self.now records →
            IfOk result (λ made. MatchOption made (HaveNoSpace records) (λ table. IsNameTable records table.items)) }
    {
        let begin = self.records.len().saturating_add(6);
        if begin > 65535 || self.texts.len() > 65535 {
            return Ok(None);
        }
        let mut table = Vec::new(alloc);
        put_words(&mut table, &[0, self.records.len() / 12, begin])?;
        table.extend_from_slice(&self.records)?;
        table.extend_from_slice(&self.texts)?;
        Ok(Some(table))
    }
}

/// Returns whether a subset keeps a record: a name that is read, or one of the licence if `licence` is true, in a
/// language with a number.
fn is_kept(entry: &Record<'_>, licence: bool) -> bool
    ensures { IsTrue result ↔ IsChosen licence entry.now }
{
    if entry.language >= 0x8000 {
        return false;
    }
    READ.contains(&entry.identifier) || (licence && LICENCE.contains(&entry.identifier))
}

/// Returns the table with the records that a subset keeps, in their order. Records that only repeat a better one are
/// dropped. Returns `None` if the table has another format, more than [`MOST`] records, or texts that need too much space.
pub fn trimmed(alloc: Global, table: &[u8], licence: bool) -> Result<Option<Vec<u8>>, AllocError>
    // The table has the chosen records in order, except those that only repeat a better one.
    ensures has { IfOk result (λ made. IfSome made (λ new. (records : List TheRecord)
        × AreChosen table.now licence (word_at table.now 2) records × IsNameTable records new.items)) }
    // Without a table the old one has too few bytes or too many records, or there is no space.
    ensures none { IfOk result (λ made. IfNone made ((HasRecords table.now → ⊥) ⊎ (1000 < word_at table.now 2)
        ⊎ ((records : List TheRecord) × AreChosen table.now licence (word_at table.now 2) records × HaveNoSpace records))) }
{
    let count = word(table, 2);
    let (Some(names), true) = (Names::read(table), count <= MOST) else {
        return Ok(None);
    };
    let mut kept = NameTable::new(alloc);
    for i in 0..count {
        if let Some(record) = record_at(table, i) {
            if is_kept(&record, licence) && !is_told_twice(&names, table, count, &record) {
                kept.put(&record)?;
            }
        }
    }
    kept.table(alloc)
}
