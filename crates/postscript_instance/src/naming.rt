//! The names of a font and its glyphs.
ghost use Rattle.std.specs.Prelude.{All, ◌≡◌, ◌↔◌, ◌+◌, ◌<◌, ◌≤◌, ◌++◌, ℕ, List, [], ◌∷◌, Some, IfErr, IfNone, IfOk, IfSome, IsTrue, OnOk, drop, length};
ghost use Rattle.std.specs.List.{concat};
ghost use Rattle.postscript_compact1.specs.StandardStrings.{standard_string};
ghost use Rattle.postscript_instance.specs.Encoded.{AreIdentified, IsOneMore, IsRange, IsSetText, spread};
ghost use Rattle.postscript_instance.specs.Refusals.{IsMemory};
ghost use Rattle.postscript_instance.specs.Rooms.{names_size};
ghost use Rattle.postscript_instance.specs.Whole.{AreCustom};
ghost use Rattle.postscript_type2.specs.Program.Routines.{texts};
ghost use Rattle.std.specs.Borrow.{Bor};

use crate::error::Result;
use crate::indices::put_short;
use postscript_compact1::index::get_standard_string;
use std::alloc::Global;

/// The number of standard strings (Technical Note 5176, Appendix A).
const STANDARD: u16 = 391;

/// The names of a font and its glyphs.
#[derive(Clone, Copy)]
pub struct Naming<'m> {
    /// The name of the font.
    pub font: &'m [u8],
    /// The names of the glyphs, one for each, beginning with `.notdef`. `None` if glyphs have no names: then their
    /// numbers are their CIDs.
    pub glyphs: Option<&'m [&'m [u8]]>,
}

/// SIDs of names, and the custom strings (Technical Note 5176, "String INDEX").
#[derive(Drop)]
pub(crate) struct Identifiers {
    pub numbers: Vec<u16>,
    pub strings: Vec<Vec<u8>>,
}

/// Whether the standard string with this SID is a name.
fn is_standard(number: u16, name: &[u8]) -> bool
    ensures { IsTrue result ↔ standard_string number ≡ Some name.now }
{
    match get_standard_string(number) {
        Some(string) => string.as_bytes() == name,
        None => false,
    }
}

/// The SID of a standard string.
fn standard(name: &[u8]) -> Option<u16>
    ensures some { IfSome result (λ number. standard_string number ≡ Some name.now) }
    ensures low { IfSome result (λ number. number < 391) }
    ensures none { IfNone result ((number : ℕ) → number < 391 → standard_string number ≡ Some name.now → ⊥) }
{
    for number in 0..STANDARD {
        if is_standard(number, name) {
            return Some(number);
        }
    }
    None
}

/// Consecutive SIDs.
#[derive(Clone, Copy)]
pub(crate) struct Range {
    pub(crate) first: u16,
    /// The number of SIDs after the first.
    pub(crate) left: u16,
}

impl Range {
    /// The range with one more number, if that is the next one.
    fn longer(self, number: u16) -> Option<Range>
        ensures { IfSome result (λ range. (range.first ≡ self.first) × (range.left ≡ self.left + 1)
            × (self.first + self.left + 1 ≡ number)) }
    {
        if usize::from(self.first) + usize::from(self.left) + 1 == usize::from(number) {
            return Some(Range {
                first: self.first,
                left: self.left + 1,
            });
        }
        None
    }
}

/// Adds a range of one number.
fn put_new(ranges: &mut Vec<Range>, number: u16) -> Result<()>
    ensures spread { OnOk result (spread ranges.new.items ≡ spread ranges.old.items ++ number ∷ []) }
    ensures small { OnOk result (All IsRange ranges.old.items → All IsRange ranges.new.items) }
    ensures memory { IfErr result (λ e. IsMemory e) }
{
    ranges.push(Range {
        first: number,
        left: 0,
    })?;
    Ok(())
}

/// Adds a range with a number after it: in the range, or in one of its own.
fn put_after(ranges: &mut Vec<Range>, last: Range, number: u16) -> Result<()>
    ensures spread { OnOk result (spread ranges.new.items ≡ spread (ranges.old.items ++ last ∷ []) ++ number ∷ []) }
    ensures small { OnOk result (All IsRange (ranges.old.items ++ last ∷ []) → All IsRange ranges.new.items) }
    ensures memory { IfErr result (λ e. IsMemory e) }
{
    if let Some(longer) = last.longer(number) {
        ranges.push(longer)?;
        return Ok(());
    }
    ranges.push(last)?;
    put_new(ranges, number)
}

/// Adds a number to ranges: to the last one, or in a range of its own.
fn put_number(ranges: &mut Vec<Range>, number: u16) -> Result<()>
    ensures spread { OnOk result (spread ranges.new.items ≡ spread ranges.old.items ++ number ∷ []) }
    ensures small { OnOk result (All IsRange ranges.old.items → All IsRange ranges.new.items) }
    ensures memory { IfErr result (λ e. IsMemory e) }
{
    match ranges.pop() {
        Some(last) => put_after(ranges, last, number),
        None => put_new(ranges, number),
    }
}

/// A charset of format 0.
pub(crate) fn in_list(alloc: Global, numbers: &[u16]) -> Result<Vec<u8>>
    ensures set { IfOk result (λ set. IsSetText numbers.now set.items) }
    ensures memory { IfErr result (λ e. IsMemory e) }
{
    let mut set = Vec::new(alloc);
    set.push(0)?;
    for number in numbers {
        put_short(&mut set, *number)?;
    }
    Ok(set)
}

/// A charset of format 2.
pub(crate) fn in_ranges(alloc: Global, ranges: &[Range]) -> Result<Vec<u8>>
    requires { All IsRange ranges.now }
    ensures set { IfOk result (λ set. IsSetText (spread ranges.now) set.items) }
    ensures memory { IfErr result (λ e. IsMemory e) }
{
    let mut set = Vec::new(alloc);
    set.push(2)?;
    for range in ranges {
        put_short(&mut set, range.first)?;
        put_short(&mut set, range.left)?;
    }
    Ok(set)
}

/// The numbers after the first.
fn after_first(numbers: &[u16]) -> &[u16]
    ensures { result.now ≡ drop 1 numbers.now }
{
    match numbers {
        [_first, others @ ..] => others,
        [] => &[],
    }
}

impl Identifiers {
    /// Adds a name.
    fn put(&mut self, alloc: Global, name: &[u8]) -> Result<()>
        requires { length self.old.strings.items < 64609 }
        ensures more { OnOk result ((names : List (Bor (List ℕ))) (bor : Bor (List ℕ)) → bor.now ≡ name.now →
            AreCustom names (texts self.old.strings.items) → AreCustom (names ++ bor ∷ []) (texts self.new.strings.items)) }
        ensures identified { OnOk result ((names : List (Bor (List ℕ))) (bor : Bor (List ℕ)) → bor.now ≡ name.now →
            AreIdentified names (texts self.old.strings.items) self.old.numbers.items →
            AreIdentified (names ++ bor ∷ []) (texts self.new.strings.items) self.new.numbers.items) }
        ensures size { OnOk result (IsOneMore (texts self.old.strings.items) name.now (texts self.new.strings.items)) }
        ensures memory { IfErr result (λ e. IsMemory e) }
    {
        if let Some(number) = standard(name) {
            self.numbers.push(number)?;
            return Ok(());
        }
        let place = self.strings.len() as u16;
        self.strings.push(Vec::from_slice(alloc, name)?)?;
        self.numbers.push(STANDARD + place)?;
        Ok(())
    }

    /// The SIDs of names.
    pub(crate) fn of_names(alloc: Global, names: &[&[u8]]) -> Result<Identifiers>
        requires { length names.now ≤ 64609 }
        ensures are { IfOk result (λ identifiers. AreCustom names.now (texts identifiers.strings.items)) }
        ensures identified { IfOk result (λ identifiers.
            AreIdentified names.now (texts identifiers.strings.items) identifiers.numbers.items) }
        ensures few { IfOk result (λ identifiers. length identifiers.strings.items ≤ length names.now) }
        ensures small { IfOk result (λ identifiers. length (concat (texts identifiers.strings.items)) ≤ names_size names.now) }
        ensures memory { IfErr result (λ e. IsMemory e) }
    {
        let mut identifiers = Identifiers {
            numbers: Vec::new(alloc),
            strings: Vec::new(alloc),
        };
        for i in 0..names.len() {
            identifiers.put(alloc, names[i])?;
        }
        Ok(identifiers)
    }

    /// The SIDs of all glyphs but the first, in ranges.
    fn ranges(&self, alloc: Global) -> Result<Vec<Range>>
        ensures spread { IfOk result (λ ranges. spread ranges.items ≡ drop 1 self.now.numbers.items) }
        ensures small { IfOk result (λ ranges. All IsRange ranges.items) }
        ensures memory { IfErr result (λ e. IsMemory e) }
    {
        let mut ranges = Vec::new(alloc);
        for i in 1..self.numbers.len() {
            put_number(&mut ranges, self.numbers[i])?;
        }
        Ok(ranges)
    }

    /// A charset with the SIDs of all glyphs but the first. It has format 2, with ranges, if this is shorter than
    /// format 0 (Technical Note 5176, "Charsets").
    pub(crate) fn char_set(&self, alloc: Global) -> Result<Vec<u8>>
        ensures set { IfOk result (λ set. IsSetText (drop 1 self.now.numbers.items) set.items) }
        ensures memory { IfErr result (λ e. IsMemory e) }
    {
        let ranges = self.ranges(alloc)?;
        if ranges.len().saturating_mul(2) < self.numbers.len().saturating_sub(1) {
            return in_ranges(alloc, &ranges);
        }
        in_list(alloc, after_first(&self.numbers))
    }
}
