//! The `post` table.
ghost use Rattle.std.specs.Prelude.{◌≡◌, ℕ, List, ◌+◌, ◌*◌, ◌<◌, ◌≤◌, length, slice_get, IfOk, MatchOption};
ghost use Rattle.postscript_base.specs.Index.{number_at as the_number};
ghost use Rattle.postscript_sfnt.specs.GlyphNames.{AreStrings, HasGlyphName, HasNames, HasNumberedName, IsString, count_of, start_of};

mod macintosh;

use macintosh::macintosh_name;
use postscript_base::index::number::number_at;
use std::alloc::{AllocError, Global};

/// The glyph names in a `post` table of version 2.0. They are borrowed from it: only the list of its strings is
/// allocated.
#[derive(Drop)]
pub struct GlyphNames<'l> {
    table: &'l [u8],
    count: usize,
    strings: Vec<&'l [u8]>,
    ghost version: { HasNames table.now },
    ghost counted: { count ≡ count_of table.now },
    ghost strung: { AreStrings table.now strings.items },
}

/// The string at an offset, after its length byte. `None` if it is truncated.
fn string_at(table: &[u8], place: usize) -> Option<&[u8]>
    requires { place ≤ length table.now }
    ensures is { MatchOption result (length table.now < place + 1 + the_number table.now place 1)
        (λ text. IsString table.now place text.now) }
    ensures size { MatchOption result (Unit {0}) (λ text. length text.now ≡ the_number table.now place 1) }
{
    if place == table.len() {
        return None;
    }
    let size = number_at(table, place, 1);
    if table.len() - place - 1 < size {
        return None;
    }
    Some(&table[place + 1..place + 1 + size])
}

/// All strings from the first one on, up to the first truncated one.
fn strings_from<'l>(
    alloc: Global,
    table: &'l [u8],
    first: usize,
) -> Result<Vec<&'l [u8]>, AllocError>
    requires first { first ≡ start_of table.now 0 }
    requires room { first ≤ length table.now }
    ensures { IfOk result (λ strings. AreStrings table.now strings.items) }
{
    let mut strings: Vec<&'l [u8]> = Vec::new(alloc);
    let mut place = first;
    while let Some(text) = string_at(table, place) {
        strings.push(text)?;
        place += 1 + text.len();
    }
    Ok(strings)
}

/// The string with an index.
fn string_in<'l>(strings: &[&'l [u8]], number: usize) -> Option<&'l [u8]>
    ensures { result ≡ slice_get strings.now number }
{
    if number < strings.len() {
        Some(strings[number])
    } else {
        None
    }
}

impl<'l> GlyphNames<'l> {
    ghost use Rattle.postscript_sfnt.specs.Lent.{post_of};

    /// Reads the glyph names of a `post` table.
    ///
    /// Returns `Ok(None)` if its version is not 2.0, or if the name indices of its glyphs extend past its end.
    ///
    /// # Errors
    ///
    /// - `AllocError`: out of memory.
    pub fn read(alloc: Global, post: &'l [u8]) -> Result<Option<GlyphNames<'l>>, AllocError>
        // `Ok(None)` if the version is not 2.0 or the indices do not fit, otherwise these names.
        ensures { IfOk result (λ read. MatchOption read (HasNames post.now → ⊥) (λ names. HasNames post.now × (post_of names ≡ post.now))) }
    {
        if post.len() < 34 || number_at(post, 0, 4) != 0x0002_0000 {
            return Ok(None);
        }
        let count = number_at(post, 32, 2);
        if post.len() - 34 < count * 2 {
            return Ok(None);
        }
        let strings = strings_from(alloc, post, 34 + count * 2)?;
        Ok(Some(GlyphNames {
            table: post,
            count,
            strings,
        }))
    }

    /// The name with an index. `None` if there is no such string, or if it is truncated.
    fn name_at(&self, number: usize) -> Option<&'l [u8]>
        ensures { MatchOption result
            ((name : List ℕ) → HasNumberedName (post_of self.now) number name → ⊥)
            (λ name. HasNumberedName (post_of self.now) number name.now) }
    {
        if number >= 258 {
            return string_in(&self.strings, number - 258);
        }
        match macintosh_name(number) {
            Some(name) => Some(name.as_bytes()),
            None => None,
        }
    }

    /// Returns the name of a glyph. Returns `None` if the table has no index for it, or if its string is truncated.
    pub fn get(&self, glyph: usize) -> Option<&'l [u8]>
        // The standard name or the string with the glyph's index, or `None` if it has neither.
        ensures { MatchOption result
            ((name : List ℕ) → HasGlyphName (post_of self.now) glyph name → ⊥)
            (λ name. HasGlyphName (post_of self.now) glyph name.now) }
    {
        if glyph >= self.count {
            return None;
        }
        self.name_at(number_at(self.table, 34 + glyph * 2, 2))
    }
}
