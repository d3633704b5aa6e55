//! Fonts (Technical Note 5176).
ghost use Rattle.std.specs.Prelude.{◌≡◌, ◌≢◌, ℕ, [], ◌∷◌, IfOk, IfErr, OnOk};
ghost use Rattle.postscript_base.specs.Error.{IsListed};
ghost use Rattle.postscript_base.specs.Tape.{Reads, IsHonest};
ghost use Rattle.postscript_base.specs.Tape.Outcome.{Got, after};
ghost use Rattle.postscript_base.specs.declared.error.Error.TheVariants as errors;
ghost use Rattle.postscript_compact1.specs.FontSet.Font.{Font, font_of, tables_in, parts_in};
ghost use Rattle.postscript_compact1.specs.FontSet.Causes.{NoFont, NoLenientFont};
ghost use Rattle.postscript_compact1.specs.FontSet.Layout.{IsFont, IsLenientFont};
ghost use Rattle.postscript_compact1.specs.Computed.Order.{font, font_by, lenient_font};
ghost use Rattle.postscript_compact1.specs.Private.Passed.{passed_font};
ghost use Rattle.postscript_compact1.specs.FontSet.Value.{font_shown, tables_shown, parts_shown};

pub mod laws;
mod manner;
pub mod operands;
mod parts;
mod tables;

use crate::char_set::CharSet;
use crate::encoding::Encoding;
use crate::index::{CharStrings, Strings, Subroutines};
use manner::Manner;
use parts::{Parts, pass_parts, read_parts};
use postscript_base::compact1::laws::reads_dictionaries;
use postscript_base::compact1::{Header, Operations};
use postscript_base::{Result, Tape, Value};
use std::alloc::Global;
use tables::{Tables, read_behind};

/// A font set: the contents of a file in the Compact Font Format (Technical Note 5176).
///
/// After reading from an honest tape, there is one encoding, charset, CharStrings INDEX, local dictionary and list of
/// local subroutines for each global dictionary, in the same order. Item `g` of the charstrings belongs to glyph `g`.
///
/// In a CID-keyed font (chapter 18) the global dictionary has the operator `ROS`: `get(Operator::ROS)` is `Some(..)`.
/// Its Private DICTs and local subroutines belong to the Font DICTs in its `FDArray`, and `FDSelect` assigns one to
/// each glyph. A `FontSet` does not contain these two. Running a charstring that calls local subroutines therefore
/// fails or gives a wrong result.
#[derive(Drop)]
pub struct FontSet {
    /// The header.
    pub header: Header,
    /// The names of the fonts.
    pub names: Vec<String>,
    /// The strings after the standard ones.
    pub strings: Strings,
    /// The encoding for each Top DICT.
    pub encodings: Vec<Encoding>,
    /// The charset for each Top DICT.
    pub char_sets: Vec<CharSet>,
    /// The charstrings for each Top DICT.
    pub char_strings: Vec<CharStrings>,
    /// The Top DICTs of the fonts.
    pub global_dictionaries: Vec<Operations>,
    /// The global subroutines, which all charstrings share.
    pub global_subroutines: Subroutines,
    /// The Private DICT for each Top DICT.
    pub local_dictionaries: Vec<Operations>,
    /// The local subroutines for each Top DICT.
    pub local_subroutines: Vec<Subroutines>,
}

impl FontSet {
    /// Returns a copy of the font with equal fields. It allocates as the `clone` of each field does, and for the lists
    /// of dictionaries, charstrings, charsets and subroutines.
    ///
    /// # Errors
    ///
    /// - `Memory`: out of memory.
    pub fn clone(&self) -> Result<Self>
        // Every field of the copy is equal.
        ensures equal { IfOk result (λ font. font_shown font ≡ font_shown self.now) }
        // The only error is `Memory`.
        ensures listed { IsListed (3 ∷ []) result }
    {
        let tables = self.tables()?;
        Ok(of_parts(self.header, tables, self.parts()?))
    }

    /// Returns a copy of the tables.
    fn tables(&self) -> Result<Tables>
        ensures equal { IfOk result (λ tables. tables_shown tables ≡ tables_in (font_shown self.now)) }
        ensures listed { IsListed (3 ∷ []) result }
    {
        Ok(Tables {
            names: self.names.clone()?,
            dictionaries: self.global_dictionaries.clone()?,
            strings: self.strings.clone()?,
            subroutines: self.global_subroutines.clone()?,
        })
    }

    /// Returns a copy of the parts.
    fn parts(&self) -> Result<Parts>
        ensures equal { IfOk result (λ parts. parts_shown parts ≡ parts_in (font_shown self.now)) }
        ensures listed { IsListed (3 ∷ []) result }
    {
        Ok(Parts {
            encodings: self.encodings.clone()?,
            char_sets: self.char_sets.clone()?,
            char_strings: self.char_strings.clone()?,
            local_dictionaries: self.local_dictionaries.clone()?,
            local_subroutines: self.local_subroutines.clone()?,
        })
    }

    /// Reads a lenient font: one that may lack Private DICTs and local subroutines.
    ///
    /// If `Private` has fewer than two operands, the Private DICT is empty. If `Subrs` has no operand, there are no
    /// local subroutines. On an honest tape it succeeds exactly if there is such a font at the current offset, apart
    /// from running out of memory. The layout leaves open the offset at which the font ends.
    ///
    /// Most CID-keyed fonts can be read only so, since their Top DICT has no `Private`. Their glyphs then have no local
    /// subroutines (see [`FontSet`]).
    ///
    /// # Errors
    ///
    /// - The errors of reading a `FontSet`, but operands of `Private` or `Subrs` may be missing. If one is there and is
    ///   not an integer in the range of `i32`, it is `MalformedOperation`.
    ///
    /// ```rust
    /// pub fn lenient_font_of(alloc: Global, bytes: &[u8]) -> Result<FontSet> {
    ///     let mut tape = Cursor::new(bytes);
    ///     FontSet::read_lenient(alloc, &mut tape)
    /// }
    /// ```
    pub fn read_lenient<T: Tape>(alloc: Global, tape: &mut T) -> Result<FontSet>
        // On an honest tape the result is a lenient font at the offset (`IsLenientFont`).
        ensures found { IsHonest (T.state tape.old) →
            IfOk result (λ f. IsLenientFont (T.state tape.old).bytes (T.state tape.old).place (font_shown f)) }
        // On an honest tape it fails only if there is no lenient font there, or memory runs out.
        ensures only { IsHonest (T.state tape.old) →
            IfErr result (λ e. e ≢ errors.Memory → (f : Font) → IsLenientFont (T.state tape.old).bytes (T.state tape.old).place f → ⊥) }
        // On an honest tape an error other than `Memory` has its cause there (`NoLenientFont`).
        ensures why { IsHonest (T.state tape.old) →
            IfErr result (λ e. e ≢ errors.Memory → NoLenientFont e (T.state tape.old).bytes (T.state tape.old).place) }
        // An honest tape gives exactly what `lenient_font` gives, unless memory runs out.
        ensures exact { Reads font_shown (T.state tape.old) result (T.state tape.new) lenient_font }
        // The only errors are those with the codes 1 to 3 and 5 to 16 (`Error::code`).
        ensures listed { IsListed (1 ∷ 2 ∷ 3 ∷ 5 ∷ 6 ∷ 7 ∷ 8 ∷ 9 ∷ 10 ∷ 11 ∷ 12 ∷ 13 ∷ 14 ∷ 15 ∷ 16 ∷ []) result }
    {
        reads_dictionaries();
        read_font(alloc, tape, Manner::Lenient)
    }

    /// Checks whether there is a font at the current offset that `read` accepts (Technical Note 5176, "CFF Data
    /// Layout"). Offsets count from the current offset of the tape.
    ///
    /// The charstrings are not read, since their last offset gives their size. Only their offsets take memory while
    /// they are checked, four bytes for each glyph. Other parts of a Top DICT are dropped before the next one is read,
    /// and names, strings and global subroutines at the end. A tape that fails within the charstrings is not noticed,
    /// but an honest tape does not fail there.
    ///
    /// On an honest tape it succeeds exactly if there is a font (`specs/FontSet/Layout.antt`), apart from running out
    /// of memory. The tape is then where `read` leaves it.
    ///
    /// # Errors
    ///
    /// - The errors of reading a `FontSet`, found in the same order. `Memory` occurs in fewer cases.
    ///
    /// ```rust
    /// pub fn is_font(alloc: Global, bytes: &[u8]) -> bool {
    ///     FontSet::check(alloc, &mut Cursor::new(bytes)).is_ok()
    /// }
    /// ```
    pub fn check<T: Tape>(alloc: Global, tape: &mut T) -> Result<()>
        // On an honest tape success means that a font is laid out from the old to the new offset.
        ensures found { IsHonest (T.state tape.old) →
            OnOk result ((f : Font) × IsFont (T.state tape.old).bytes (T.state tape.old).place f (T.state tape.new).place) }
        // On an honest tape it fails only if there is no font there, or memory runs out.
        ensures only { IsHonest (T.state tape.old) →
            IfErr result (λ e. e ≢ errors.Memory → (f : Font) (next : ℕ) →
            IsFont (T.state tape.old).bytes (T.state tape.old).place f next → ⊥) }
        // On an honest tape an error other than `Memory` has its cause there (`NoFont`).
        ensures why { IsHonest (T.state tape.old) →
            IfErr result (λ e. e ≢ errors.Memory → NoFont e (T.state tape.old).bytes (T.state tape.old).place) }
        // On an honest tape it gives what `font` gives, without the value, unless memory runs out.
        ensures exact { Reads (λ _. tt {0}) (T.state tape.old) result (T.state tape.new)
            (λ bytes place. after (font bytes place) (λ _ next. Got tt next)) }
        // The only errors are those with the codes 1 to 3 and 5 to 16 (`Error::code`).
        ensures listed { IsListed (1 ∷ 2 ∷ 3 ∷ 5 ∷ 6 ∷ 7 ∷ 8 ∷ 9 ∷ 10 ∷ 11 ∷ 12 ∷ 13 ∷ 14 ∷ 15 ∷ 16 ∷ []) result }
    {
        reads_dictionaries();
        pass_font(alloc, tape, Manner::Strict)
    }

    /// Checks whether there is a font at the current offset that `read_lenient` accepts. It works as [`FontSet::check`]
    /// does, and does not read the charstrings.
    ///
    /// On an honest tape it succeeds exactly if there is a font that may lack Private DICTs and local subroutines,
    /// apart from running out of memory.
    ///
    /// # Errors
    ///
    /// - The errors of `read_lenient`, found in the same order. `Memory` occurs in fewer cases.
    ///
    /// ```rust
    /// pub fn lenient_refusal(alloc: Global, bytes: &[u8]) -> Option<Error> {
    ///     FontSet::check_lenient(alloc, &mut Cursor::new(bytes)).err()
    /// }
    /// ```
    pub fn check_lenient<T: Tape>(alloc: Global, tape: &mut T) -> Result<()>
        // On an honest tape success means that there is a lenient font at the offset.
        ensures found { IsHonest (T.state tape.old) →
            OnOk result ((f : Font) × IsLenientFont (T.state tape.old).bytes (T.state tape.old).place f) }
        // On an honest tape it fails only if there is no lenient font there, or memory runs out.
        ensures only { IsHonest (T.state tape.old) →
            IfErr result (λ e. e ≢ errors.Memory → (f : Font) → IsLenientFont (T.state tape.old).bytes (T.state tape.old).place f → ⊥) }
        // On an honest tape an error other than `Memory` has its cause there (`NoLenientFont`).
        ensures why { IsHonest (T.state tape.old) →
            IfErr result (λ e. e ≢ errors.Memory → NoLenientFont e (T.state tape.old).bytes (T.state tape.old).place) }
        // On an honest tape it gives what `lenient_font` gives, without the value, or `Memory`.
        ensures exact { Reads (λ _. tt {0}) (T.state tape.old) result (T.state tape.new)
            (λ bytes place. after (lenient_font bytes place) (λ _ next. Got tt next)) }
        // The only errors are those with the codes 1 to 3 and 5 to 16 (`Error::code`).
        ensures listed { IsListed (1 ∷ 2 ∷ 3 ∷ 5 ∷ 6 ∷ 7 ∷ 8 ∷ 9 ∷ 10 ∷ 11 ∷ 12 ∷ 13 ∷ 14 ∷ 15 ∷ 16 ∷ []) result }
    {
        reads_dictionaries();
        pass_font(alloc, tape, Manner::Lenient)
    }
}

/// Reads the font at the current offset of the tape, from which offsets count (Technical Note 5176, "CFF Data Layout").
/// The version in the header is not checked.
///
/// On an honest tape it succeeds exactly if there is a font (`specs/FontSet/Layout.antt`), apart from running out of
/// memory. The tape is then after the local subroutines of the last Top DICT, or after the global subroutines if there
/// is no Top DICT.
///
/// # Errors
///
/// The steps are checked in this order. Each can also fail with `Io` or `Memory`.
///
/// - The header: `UnexpectedEof`, or `OutOfRangeOffset` if the offset after it does not fit in 64 bits.
/// - The names, the Top DICTs, the strings and the global subroutines: the errors of reading an `Index`. After the
///   INDEX of Top DICTs, the errors of `Dictionaries::into`.
///
/// These steps follow for each Top DICT:
///
/// - The encoding: `Unsupported` with `Part::CustomEncoding` if it is not 0 or 1.
/// - The charstrings: `OutOfRangeOffset`, `UnknownCharStringFormat` if the type is not 2, and the errors of an `Index`.
/// - The charset: `OutOfRangeOffset`, and the errors of a `CharSet`.
/// - The Private DICT: `OutOfRangeOffset` (also for a negative size or offset), `UnexpectedEof`, and the errors of
///   `Dictionaries::into`.
/// - The local subroutines, whose offset counts from the Private DICT: `OutOfRangeOffset`, and the errors of an
///   `Index`.
///
/// In each of these steps `MissingOperation` and `MalformedOperation` come first. They contain the operator that is
/// missing or has too few operands, or has an operand that is not an integer in the range of `i32`. An offset past the
/// end is `UnexpectedEof` or `Io`.
impl Value for FontSet {
    ghost use Rattle.std.specs.Prelude.{◌≢◌, ℕ, [], ◌∷◌, map, refl, IfOk, IfErr};
    ghost use Rattle.postscript_base.specs.Error.{IsListed};
    ghost use Rattle.postscript_base.specs.Tape.{Reads, IsHonest};
    ghost use Rattle.postscript_base.specs.declared.error.Error.TheVariants as errors;
    ghost use Rattle.postscript_compact1.specs.FontSet.Font.{Font};
    ghost use Rattle.postscript_compact1.specs.FontSet.Causes.{NoFont};
    ghost use Rattle.postscript_compact1.specs.FontSet.Layout.{IsFont};
    ghost use Rattle.postscript_compact1.specs.Computed.Order.{font};
    ghost use Rattle.postscript_compact1.specs.FontSet.Value.{font_shown};

    ghost Shown = { Font };

    ghost view = { font_shown };

    ghost views = { map font_shown };

    ghost views_each = { λ _. refl };

    ghost reading = { font };

    ghost refusals = { 1 ∷ 2 ∷ 3 ∷ 5 ∷ 6 ∷ 7 ∷ 8 ∷ 9 ∷ 10 ∷ 11 ∷ 12 ∷ 13 ∷ 14 ∷ 15 ∷ 16 ∷ [] };

    /// Reads the font. A caller's proof also gets the clauses `found`, `only` and `why`: a font is read exactly if
    /// there is one.
    ///
    /// ```rust
    /// pub fn font_of(alloc: Global, bytes: &[u8]) -> Result<FontSet> {
    ///     let mut tape = Cursor::new(bytes);
    ///     FontSet::read(alloc, &mut tape)
    /// }
    /// ```
    ///
    /// ```rust
    /// pub fn font_behind(alloc: Global, bytes: &[u8], place: u64) -> Result<FontSet> {
    ///     let mut tape = Cursor::new(bytes);
    ///     tape.jump(place)?;
    ///     tape.take::<FontSet>(alloc)
    /// }
    /// ```
    fn read<T: Tape>(alloc: Global, tape: &mut T) -> Result<FontSet>
        // On an honest tape the result is exactly what `font` gives, unless memory runs out.
        ensures exact { Reads font_shown (T.state tape.old) result (T.state tape.new) font }
        // The only errors are those with the codes 1 to 3 and 5 to 16 (`Error::code`).
        ensures listed { IsListed (1 ∷ 2 ∷ 3 ∷ 5 ∷ 6 ∷ 7 ∷ 8 ∷ 9 ∷ 10 ∷ 11 ∷ 12 ∷ 13 ∷ 14 ∷ 15 ∷ 16 ∷ []) result }
        // On an honest tape the result is a font laid out from the old to the new offset.
        ensures found { IsHonest (T.state tape.old) →
            IfOk result (λ f. IsFont (T.state tape.old).bytes (T.state tape.old).place (font_shown f) (T.state tape.new).place) }
        // On an honest tape it fails only if there is no font there, or memory runs out.
        ensures only { IsHonest (T.state tape.old) →
            IfErr result (λ e. e ≢ errors.Memory → (f : Font) (next : ℕ) →
            IsFont (T.state tape.old).bytes (T.state tape.old).place f next → ⊥) }
        // On an honest tape an error other than `Memory` has its cause there (`NoFont`).
        ensures why { IsHonest (T.state tape.old) →
            IfErr result (λ e. e ≢ errors.Memory → NoFont e (T.state tape.old).bytes (T.state tape.old).place) }
    {
        reads_dictionaries();
        read_font(alloc, tape, Manner::Strict)
    }
}

/// Reads a font in a manner.
#[tactic(auto, using(crate::proofs::Outcomes::refused_after), unfolding(crate::specs::Computed::Order::font_by))]
fn read_font<T: Tape>(alloc: Global, tape: &mut T, manner: Manner) -> Result<FontSet>
    ensures exact { Reads font_shown (T.state tape.old) result (T.state tape.new) (font_by manner) }
    ensures listed { IsListed (1 ∷ 2 ∷ 3 ∷ 5 ∷ 6 ∷ 7 ∷ 8 ∷ 9 ∷ 10 ∷ 11 ∷ 12 ∷ 13 ∷ 14 ∷ 15 ∷ 16 ∷ []) result }
{
    let start = tape.position()?;
    let header = Header::read(alloc, tape)?;
    let tables = read_behind(alloc, tape, start, header)?;
    let parts = read_parts(alloc, tape, manner, start, &tables.dictionaries)?;
    Ok(of_parts(header, tables, parts))
}

/// Skips a font: reads it as `read_font` does, but keeps nothing.
#[tactic(auto, using(crate::proofs::Outcomes::refused_after), unfolding(crate::specs::Private::Passed::passed_font))]
fn pass_font<T: Tape>(alloc: Global, tape: &mut T, manner: Manner) -> Result<()>
    ensures exact { Reads (λ _. tt) (T.state tape.old) result (T.state tape.new) (passed_font manner) }
    ensures listed { IsListed (1 ∷ 2 ∷ 3 ∷ 5 ∷ 6 ∷ 7 ∷ 8 ∷ 9 ∷ 10 ∷ 11 ∷ 12 ∷ 13 ∷ 14 ∷ 15 ∷ 16 ∷ []) result }
{
    let start = tape.position()?;
    let header = Header::read(alloc, tape)?;
    let tables = read_behind(alloc, tape, start, header)?;
    pass_parts(alloc, tape, manner, start, &tables.dictionaries)
}

/// Builds a font from its header, its tables and its parts.
fn of_parts(header: Header, tables: Tables, parts: Parts) -> FontSet
    ensures { font_shown result ≡ font_of header (tables_shown tables) (parts_shown parts) }
{
    FontSet {
        header,
        names: tables.names,
        strings: tables.strings,
        encodings: parts.encodings,
        char_sets: parts.char_sets,
        char_strings: parts.char_strings,
        global_dictionaries: tables.dictionaries,
        global_subroutines: tables.subroutines,
        local_dictionaries: parts.local_dictionaries,
        local_subroutines: parts.local_subroutines,
    }
}
