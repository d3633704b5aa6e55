//! The `name` table.
ghost use Rattle.std.specs.Prelude.{◌≡◌, ℕ, ◌+◌, ◌*◌, ◌<◌, ◌≤◌, length, MatchOption};
ghost use Rattle.postscript_base.specs.Index.{number_at as the_number};

mod chars;
mod roman;
mod utf16;

pub use chars::NameChars;
use postscript_base::index::number::number_at;

/// A text of the `name` table, borrowed from it.
#[derive(Clone, Copy)]
pub enum Name<'l> {
    /// Big-endian UTF-16.
    Utf16(&'l [u8]),
    /// Mac OS Roman.
    MacRoman(&'l [u8]),
}

impl<'l> Name<'l> {
    ghost use Rattle.postscript_sfnt.specs.NameChars.{name_left};

    /// Iterates over the characters in order.
    pub fn chars(&self) -> NameChars<'l>
        // The iterator begins with the whole text.
        ensures { name_left result ≡ self.now }
    {
        NameChars { name: *self }
    }
}

/// The records of the `name` table.
#[derive(Clone, Copy)]
pub struct Names<'l> {
    table: &'l [u8],
    count: usize,
    ghost counted: { count ≡ the_number table.now 2 2 },
    ghost most: { count < 65536 },
    ghost room: { 6 + count * 12 ≤ length table.now },
}

impl<'l> Names<'l> {
    ghost use Rattle.postscript_sfnt.specs.NameTable.{HasRecords, HasNoName, IsName, IsEither, IsTextAt, names_of, table_of, field_at, name_rank, name_rank_at, text_start, text_end};
    ghost use Rattle.postscript_sfnt.specs.Choice.{IsBest};

    /// Reads the records of a `name` table. Returns `None` if they extend past its end.
    pub fn read(name: &'l [u8]) -> Option<Names<'l>>
        // `None` exactly if the records extend past the end, otherwise the records of this table.
        ensures { MatchOption result (HasRecords name.now → ⊥) (λ names. HasRecords name.now × (table_of names ≡ name.now)) }
    {
        if name.len() < 6 {
            return None;
        }
        let count = number_at(name, 2, 2);
        if name.len() < 6 + count * 12 {
            return None;
        }
        Some(Names { table: name, count })
    }

    /// Returns the family name: the typographic family (name 16), or the family (name 1) if there is none.
    pub fn family(&self) -> Option<Name<'l>>
        // Name 16, or name 1 if there is no name 16, or `None` if the table has neither.
        ensures { MatchOption result
            (HasNoName (table_of self.now) 16 × HasNoName (table_of self.now) 1)
            (λ name. IsEither (table_of self.now) 16 1 name) }
    {
        match self.get(16) {
            Some(name) => Some(name),
            None => self.get(1),
        }
    }

    /// Returns the style name: the typographic subfamily (name 17), or the subfamily (name 2) if there is none.
    pub fn style(&self) -> Option<Name<'l>>
        // Name 17, or name 2 if there is no name 17, or `None` if the table has neither.
        ensures { MatchOption result
            (HasNoName (table_of self.now) 17 × HasNoName (table_of self.now) 2)
            (λ name. IsEither (table_of self.now) 17 2 name) }
    {
        match self.get(17) {
            Some(name) => Some(name),
            None => self.get(2),
        }
    }

    /// Returns the text with a name identifier.
    ///
    /// The first choice is Windows in US English, then Unicode, Windows in any other language, and Macintosh Roman. The
    /// first record of each kind counts. Records with a truncated text are skipped.
    pub fn get(&self, identifier: u16) -> Option<Name<'l>>
        // The text in the first record of the highest rank, or `None` if no record has a rank.
        ensures { MatchOption result
            (HasNoName (table_of self.now) identifier)
            (λ name. IsName (table_of self.now) identifier name) }
    {
        let i = self.best(identifier as usize)?;
        Some(self.text(i))
    }

    /// A field of a record.
    fn field(&self, i: usize, field: usize) -> usize
        requires listed { i < self.now.count }
        requires known { field < 6 }
        ensures exact { result ≡ field_at self.now.table.now i field }
        ensures small { result < 65536 }
    {
        number_at(self.table, 6 + i * 12 + field * 2, 2)
    }

    /// The offset of the text of a record, and the offset after it.
    fn span(&self, i: usize) -> (usize, usize)
        requires listed { i < self.now.count }
        ensures start { result.0 ≡ text_start self.now.table.now i }
        ensures end { result.1 ≡ text_end self.now.table.now i }
    {
        let start = number_at(self.table, 4, 2) + self.field(i, 5);
        (start, start + self.field(i, 4))
    }

    /// The rank of a record.
    fn rank(&self, i: usize, identifier: usize) -> usize
        requires listed { i < self.now.count }
        ensures { result ≡ name_rank_at self.now.table.now identifier i }
    {
        if self.field(i, 3) != identifier || self.span(i).1 > self.table.len() {
            return 0;
        }
        Names::rank_of(self.field(i, 0), self.field(i, 1), self.field(i, 2))
    }

    /// The best record of an identifier.
    fn best(&self, identifier: usize) -> Option<usize>
        ensures { MatchOption result
            (HasNoName self.now.table.now identifier)
            (λ i. IsBest (name_rank_at self.now.table.now identifier) (names_of self.now.table.now) i) }
    {
        let mut best = 0;
        let mut high = 0;
        for i in 0..self.count {
            let rank = self.rank(i, identifier);
            if rank > high {
                best = i;
                high = rank;
            }
        }
        if high == 0 { None } else { Some(best) }
    }

    /// The text of a record.
    fn text(&self, i: usize) -> Name<'l>
        requires listed { i < self.now.count }
        requires within { text_end self.now.table.now i ≤ length self.now.table.now }
        ensures { IsTextAt self.now.table.now i result }
    {
        let (start, end) = self.span(i);
        let text = &self.table[start..end];
        if self.field(i, 0) == 1 {
            Name::MacRoman(text)
        } else {
            Name::Utf16(text)
        }
    }

    /// The rank of a platform, an encoding and a language, 0 for unsupported ones.
    fn rank_of(platform: usize, encoding: usize, language: usize) -> usize
        ensures { result ≡ name_rank platform encoding language }
    {
        match (platform, encoding) {
            (3, 0 | 1 | 10) => if language == 0x409 { 4 } else { 2 },
            (0, _) => 3,
            (1, 0) => 1,
            _ => 0,
        }
    }
}
