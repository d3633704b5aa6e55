//! Reading fonts, and summaries of them in lines.
ghost use Rattle.std.specs.Prelude.{[], ◌∷◌, ◌++◌, map, flat_map, codes, string_bytes, OnOk};
ghost use Rattle.std.specs.Io.KnownBytes.{Appends};
ghost use Rattle.postscript.specs.Error.{IsListed};
ghost use Rattle.postscript.specs.Tape.{Reads};
ghost use Rattle.postscript.specs.FontSet.Value.{font_shown};
ghost use Rattle.psfont_session.specs.Manner.{reading_of};
ghost use Rattle.psfont_session.specs.Summary.{header_line, field_text, names_text, name_line, shown_byte, sets_text, counts_text, line_at, lines_below, count_line, tables_text, dictionaries_text, font_text};

use crate::command::Manner;
use postscript::compact1::{CharSet, Encoding, FontSet, Header};
use postscript::{Result, Tape, Value};
use std::alloc::Global;
use std::io::Write;

/// Reads a font, strictly or leniently.
pub fn read_font<T: Tape>(alloc: Global, manner: Manner, tape: &mut T) -> Result<FontSet>
    ensures exact { Reads font_shown (T.state tape.old) result (T.state tape.new) (reading_of manner) }
    ensures listed { IsListed (1 ∷ 2 ∷ 3 ∷ 5 ∷ 6 ∷ 7 ∷ 8 ∷ 9 ∷ 10 ∷ 11 ∷ 12 ∷ 13 ∷ 14 ∷ 15 ∷ 16 ∷ []) result }
{
    match manner {
        Manner::Strict => FontSet::read(alloc, tape),
        Manner::Lenient => FontSet::read_lenient(alloc, tape),
    }
}

/// Writes the header, the names with their count, the counts of strings and global subroutines, and a line for each
/// dictionary.
#[tactic(auto, using(crate::proofs::Writing::both))]
pub fn write_font<W: Write>(font: &FontSet, writer: &mut W) -> Result<()>
    ensures told { OnOk result (Appends (W.contents writer.old) (W.contents writer.new) (font_text (font_shown font.now))) }
    ensures listed { IsListed (1 ∷ 2 ∷ []) result }
{
    write_front(font, writer)?;
    write_tables(font, writer)?;
    write_dictionaries(font, writer)?;
    writeln!(writer, "end")?;
    Ok(())
}

/// The header, and the names.
#[tactic(auto, using(crate::proofs::Writing::both))]
fn write_front<W: Write>(font: &FontSet, writer: &mut W) -> Result<()>
    ensures told { OnOk result (Appends (W.contents writer.old) (W.contents writer.new)
        (header_line font.now.header ++ names_text (map string_bytes font.now.names.items))) }
    ensures listed { IsListed (1 ∷ 2 ∷ []) result }
{
    write_header(font.header, writer)?;
    write_names(font.names.as_slice(), writer)
}

/// Writes the counts of strings and global subroutines.
#[tactic(auto, using(crate::proofs::Writing::both))]
fn write_tables<W: Write>(font: &FontSet, writer: &mut W) -> Result<()>
    ensures told { OnOk result (Appends (W.contents writer.old) (W.contents writer.new) (tables_text (font_shown font.now))) }
    ensures listed { IsListed (1 ∷ 2 ∷ []) result }
{
    let strings = font.strings.len();
    let globals = font.global_subroutines.len();
    writeln!(writer, "strings {strings}")?;
    writeln!(writer, "globals {globals}")?;
    Ok(())
}

/// The header's four fields.
#[tactic(auto, using(crate::proofs::Writing::both, crate::proofs::Writing::none))]
fn write_header<W: Write>(header: Header, writer: &mut W) -> Result<()>
    ensures told { OnOk result (Appends (W.contents writer.old) (W.contents writer.new) (header_line header)) }
    ensures listed { IsListed (1 ∷ 2 ∷ []) result }
{
    writer.write_all(b"header")?;
    let fields = [
        header.major,
        header.minor,
        header.header_size,
        header.offset_size,
    ];
    write_fields(&fields, writer)?;
    writer.write_all(b"\n")?;
    Ok(())
}

/// Each field after a space.
#[tactic(auto, using(crate::proofs::Writing::more, crate::proofs::Writing::none))]
fn write_fields<W: Write>(fields: &[u8], writer: &mut W) -> Result<()>
    ensures told { OnOk result (Appends (W.contents writer.old) (W.contents writer.new) (flat_map field_text fields.now)) }
    ensures listed { IsListed (1 ∷ 2 ∷ []) result }
{
    for field in fields {
        write!(writer, " {field}")?;
    }
    Ok(())
}

/// Writes the count of names, and each name.
#[tactic(auto, using(crate::proofs::Writing::both))]
fn write_names<W: Write>(names: &[String], writer: &mut W) -> Result<()>
    ensures told { OnOk result (Appends (W.contents writer.old) (W.contents writer.new)
        (names_text (map string_bytes names.now))) }
    ensures listed { IsListed (1 ∷ 2 ∷ []) result }
{
    let count = names.len();
    writeln!(writer, "names {count}")?;
    write_each_name(names, writer)
}

/// A line for each name.
#[tactic(auto, using(crate::proofs::Writing::more_of, crate::proofs::Writing::none))]
fn write_each_name<W: Write>(names: &[String], writer: &mut W) -> Result<()>
    ensures told { OnOk result (Appends (W.contents writer.old) (W.contents writer.new)
        (flat_map name_line (map string_bytes names.now))) }
    ensures listed { IsListed (1 ∷ 2 ∷ []) result }
{
    for name in names {
        write_name(name.as_bytes(), writer)?;
    }
    Ok(())
}

/// A name, with `?` for each control character of ASCII.
#[tactic(auto, using(crate::proofs::Writing::both, crate::proofs::Writing::none))]
fn write_name<W: Write>(name: &[u8], writer: &mut W) -> Result<()>
    ensures told { OnOk result (Appends (W.contents writer.old) (W.contents writer.new) (name_line name.now)) }
    ensures listed { IsListed (1 ∷ 2 ∷ []) result }
{
    writer.write_all(b"name ")?;
    write_shown(name, writer)?;
    writer.write_all(b"\n")?;
    Ok(())
}

/// Bytes of UTF-8, with `?` for each control character of ASCII.
#[tactic(auto, using(crate::proofs::Writing::more, crate::proofs::Writing::none))]
fn write_shown<W: Write>(text: &[u8], writer: &mut W) -> Result<()>
    ensures told { OnOk result (Appends (W.contents writer.old) (W.contents writer.new) (flat_map shown_byte text.now)) }
    ensures listed { IsListed (1 ∷ 2 ∷ []) result }
{
    for byte in text {
        let shown = if byte.is_ascii_control() { b'?' } else { *byte };
        writer.write_all(&[shown])?;
    }
    Ok(())
}

/// Writes the count of dictionaries, and a line for each.
fn write_dictionaries<W: Write>(font: &FontSet, writer: &mut W) -> Result<()>
    ensures told { OnOk result (Appends (W.contents writer.old) (W.contents writer.new) (dictionaries_text (font_shown font.now))) }
    ensures listed { IsListed (1 ∷ 2 ∷ []) result }
{
    write_counted(font, font.global_dictionaries.len(), writer)
}

/// Writes a count of dictionaries, and a line for each.
#[tactic(auto, using(crate::proofs::Writing::both))]
fn write_counted<W: Write>(font: &FontSet, count: usize, writer: &mut W) -> Result<()>
    ensures told { OnOk result (Appends (W.contents writer.old) (W.contents writer.new)
        (count_line (codes "dictionaries ") count ++ lines_below (font_shown font.now) count)) }
    ensures listed { IsListed (1 ∷ 2 ∷ []) result }
{
    writeln!(writer, "dictionaries {count}")?;
    write_lines(font, count, writer)
}

/// Writes a line for each dictionary below `count`.
#[tactic(auto, using(crate::proofs::Writing::both, crate::proofs::Writing::none), unfolding(crate::specs::Summary::lines_below))]
fn write_lines<W: Write>(font: &FontSet, count: usize, writer: &mut W) -> Result<()>
    ensures told { OnOk result (Appends (W.contents writer.old) (W.contents writer.new) (lines_below (font_shown font.now) count)) }
    ensures listed { IsListed (1 ∷ 2 ∷ []) result }
{
    for number in 0..count {
        write_dictionary(font, number, writer)?;
    }
    Ok(())
}

/// Writes the names of a dictionary's encoding and charset, and the counts of its glyphs and local subroutines.
#[tactic(auto, using(crate::proofs::Writing::none))]
fn write_dictionary<W: Write>(font: &FontSet, number: usize, writer: &mut W) -> Result<()>
    ensures told { OnOk result (Appends (W.contents writer.old) (W.contents writer.new) (line_at (font_shown font.now) number)) }
    ensures listed { IsListed (1 ∷ 2 ∷ []) result }
{
    let (Some(encoding), Some(char_set)) = (font.encodings.get(number), font.char_sets.get(number))
    else {
        return Ok(());
    };
    let (Some(codes), Some(local)) = (
        font.char_strings.get(number),
        font.local_subroutines.get(number),
    ) else {
        return Ok(());
    };
    write_line(*encoding, char_set, codes.len(), local.len(), writer)
}

/// A dictionary's line.
#[tactic(auto, using(crate::proofs::Writing::both))]
fn write_line<W: Write>(
    encoding: Encoding,
    char_set: &CharSet,
    glyphs: usize,
    locals: usize,
    writer: &mut W,
) -> Result<()>
    ensures told { OnOk result (Appends (W.contents writer.old) (W.contents writer.new)
        (sets_text encoding char_set.now ++ counts_text glyphs locals)) }
    ensures listed { IsListed (1 ∷ 2 ∷ []) result }
{
    write_sets(encoding, char_set, writer)?;
    write_counts(glyphs, locals, writer)
}

/// The first half of a dictionary's line.
fn write_sets<W: Write>(encoding: Encoding, char_set: &CharSet, writer: &mut W) -> Result<()>
    ensures told { OnOk result (Appends (W.contents writer.old) (W.contents writer.new) (sets_text encoding char_set.now)) }
    ensures listed { IsListed (1 ∷ 2 ∷ []) result }
{
    let (encoding, char_set) = (encoding.name(), char_set.name());
    write!(writer, "font {encoding} {char_set}")?;
    Ok(())
}

/// The second half of a dictionary's line.
fn write_counts<W: Write>(glyphs: usize, locals: usize, writer: &mut W) -> Result<()>
    ensures told { OnOk result (Appends (W.contents writer.old) (W.contents writer.new) (counts_text glyphs locals)) }
    ensures listed { IsListed (1 ∷ 2 ∷ []) result }
{
    writeln!(writer, " glyphs {glyphs} locals {locals}")?;
    Ok(())
}
