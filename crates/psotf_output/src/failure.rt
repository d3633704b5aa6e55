//! Errors of commands, and their messages.
use crate::limit::GLYPHS;
use crate::rules::{Spot, rule_of};
use std::alloc::{AllocError, AllocFailed, Global};
use std::fmt::{Display, InlineText};
use std::{fmt, io};

/// The capacity of a message in bytes. Only a name at the end of a message can exceed it.
const ROOM: usize = 512;

/// A message. The text is stored instead of the error, since each function that passes an error on has its parts in its
/// proof.
pub type Words = InlineText<{ ROOM }>;

/// The end of the message for a glyph of too many operations.
const HELD: &str = " units, a fortieth of --limit (instance keeps all operations in memory)";

/// The end of the message for a glyph of a report that has too many operations.
const KEPT: &str = " units, a tenth of --limit (report keeps all operations of a glyph in memory)";

/// The end of the message for a font of too many operations.
const WRITTEN: &str =
    " units, which follow from --limit and the size of the table (they are kept in memory)";

/// The end of the message for a glyph of too many segments.
const SEGMENTS: &str = " segments, one for each 50 units of --limit";

/// Why a glyph cannot be drawn or written.
#[derive(Drop)]
pub enum Refusal {
    /// It has no Font DICT.
    NoPart,
    /// It costs more than this many units.
    TooLong(u64),
    /// It costs more than this many units, a fortieth of the limit.
    Held(u64),
    /// It costs more than this many units, a tenth of the limit.
    Kept(u64),
    /// It and the glyphs before it, which are written to a font, cost more than this many units.
    Written(u64),
    /// It draws more than this many segments.
    Segments(u64),
    /// The command would cost more than this many units.
    UsedUp(u64),
    /// The message of another library's error.
    Told(Words),
}

/// Writes the message for a command that used up its budget.
fn put_used_up<W: fmt::Write>(f: &mut fmt::Formatter<W>, units: u64) -> fmt::Result {
    write!(
        f,
        "the command would cost more than {units} units ({GLYPHS} times --limit)"
    )
}

impl fmt::Display for Refusal {
    fn fmt<W: fmt::Write>(&self, f: &mut fmt::Formatter<W>) -> fmt::Result {
        let (before, number, behind) = match self {
            Refusal::NoPart => return f.write_str("it has no Font DICT in FDSelect"),
            Refusal::TooLong(units) => ("it costs more than ", *units, " units (--limit)"),
            Refusal::Held(units) => ("it costs more than ", *units, HELD),
            Refusal::Kept(units) => ("it costs more than ", *units, KEPT),
            Refusal::Written(units) => ("the glyphs up to it cost more than ", *units, WRITTEN),
            Refusal::Segments(most) => ("it draws more than ", *most, SEGMENTS),
            Refusal::UsedUp(units) => return put_used_up(f, *units),
            Refusal::Told(words) => return f.write_str(words.as_str()),
        };
        write!(f, "{before}{number}{behind}")
    }
}

impl Refusal {
    /// Returns the error of a run.
    pub fn run(error: postscript_base::Error) -> Refusal {
        let code = error.code();
        let rule = rule_of(code);
        Refusal::Told(Words::of(format_args!("{error} (error {code}): {rule}")))
    }

    /// Returns the error of a `seac` glyph whose operands name no base and accent.
    pub fn accent<D: Display + Drop>(error: D) -> Refusal {
        Refusal::Told(Words::of(format_args!(
            "{error}: endchar with four operands names a base and an accent (Technical Note 5177, Appendix C)"
        )))
    }

    /// Returns another library's error of a glyph.
    pub fn other<D: Display + Drop>(error: D) -> Refusal {
        Refusal::Told(Words::of(error))
    }

    /// Returns whether a greater limit may succeed.
    pub fn is_by_limit(&self) -> bool {
        match self {
            Refusal::TooLong(_) | Refusal::Held(_) | Refusal::Kept(_) => true,
            Refusal::Written(_) | Refusal::Segments(_) | Refusal::UsedUp(_) => true,
            _ => false,
        }
    }
}

/// The kind of a failure.
#[derive(Clone, Copy, PartialEq, Eq)]
enum Kind {
    /// Nobody reads the output pipe.
    ClosedPipe,
    /// The arguments are wrong.
    Usage,
    /// The `CFF ` table is invalid.
    Table,
    Other,
}

/// Why a command fails.
#[derive(Drop)]
pub struct Failure {
    words: Words,
    /// The end of the message: a name from the command line, or a text that may exceed the capacity.
    name: Option<String>,
    kind: Kind,
}

impl fmt::Display for Failure {
    fn fmt<W: fmt::Write>(&self, f: &mut fmt::Formatter<W>) -> fmt::Result {
        f.write_str(self.words.as_str())?;
        match &self.name {
            Some(name) => f.write_str(name.as_str()),
            None => Ok(()),
        }
    }
}

impl Failure {
    /// Returns a failure of a kind with a message.
    fn with_message<D: Display + Drop>(kind: Kind, what: D) -> Failure {
        Failure {
            words: Words::of(what),
            name: None,
            kind,
        }
    }

    /// Returns a failure with a message.
    pub fn other<D: Display + Drop>(what: D) -> Failure {
        Failure::with_message(Kind::Other, what)
    }

    /// Returns a failure of a part.
    pub fn of_part<D: Display + Drop>(part: &str, what: D) -> Failure {
        Failure::other(format_args!("{part}: {what}"))
    }

    /// Returns a failure whose message has a name in it.
    fn around_name(before: &str, name: &str, behind: &str) -> Failure {
        Failure::other(format_args!("{before}{name}{behind}"))
    }

    /// Returns a failure of a kind whose message ends with a name.
    fn with_name(kind: Kind, words: &str, name: String) -> Failure {
        Failure {
            words: Words::of(words),
            name: Some(name),
            kind,
        }
    }

    /// Returns whether nobody reads the output pipe.
    pub fn is_closed_pipe(&self) -> bool {
        self.kind == Kind::ClosedPipe
    }

    /// Returns whether the `CFF ` table is invalid.
    pub fn is_of_table(&self) -> bool {
        self.kind == Kind::Table
    }

    /// Returns the exit status.
    pub fn status(&self) -> u8 {
        if self.kind == Kind::Usage { 2 } else { 1 }
    }

    /// The arguments are wrong.
    pub fn usage(what: &'static str) -> Failure {
        Failure::with_message(Kind::Usage, what)
    }

    /// A glyph has an error.
    pub fn glyph(gid: u16, refusal: &Refusal) -> Failure {
        Failure::other(format_args!("glyph {gid}: {refusal}"))
    }

    /// `count` glyphs have errors.
    pub fn of_glyphs(count: u64) -> Failure {
        Failure::other(format_args!("glyphs with errors: {count}"))
    }

    /// `count` files have errors.
    pub fn files(count: u64) -> Failure {
        Failure::other(format_args!("files with errors: {count}"))
    }

    /// A file cannot be written.
    pub fn of_saving(alloc: Global, path: &str, error: io::Error) -> Failure {
        match format!(in alloc; "cannot write {path}: {error}") {
            Ok(text) => Failure::with_name(Kind::Other, "", text),
            Err(fault) => Failure::from(fault),
        }
    }
}

/// Errors of a file or a table.
impl Failure {
    /// A part of the `CFF ` table is invalid.
    pub fn of_table(spot: Spot, error: postscript_base::Error) -> Failure {
        let code = error.code();
        let rule = rule_of(code);
        Failure::with_message(
            Kind::Table,
            format_args!("the CFF table, {spot}: {error} (error {code}): {rule}"),
        )
    }

    /// The search for substitutions in the `GSUB` table is too expensive.
    pub fn substitutions(refusal: &Refusal) -> Failure {
        Failure::other(format_args!("the GSUB table: {refusal}; --drop-layout does without it"))
    }

    /// A required table is missing.
    pub fn no_table(table: &'static str) -> Failure {
        Failure::around_name("there is no ", table, " table, or it is truncated")
    }

    /// The required table with this tag is missing.
    pub fn no_table_of(tag: u32) -> Failure {
        let [first, second, third, last] = tag.to_be_bytes();
        Failure::other(format_args!(
            "there is no {}{}{}{} table",
            char::from(first),
            char::from(second),
            char::from(third),
            char::from(last),
        ))
    }

    /// A table is truncated.
    pub fn cut(table: &'static str) -> Failure {
        Failure::around_name("the ", table, " table is truncated")
    }

    /// The DICTs are too long, or many of them overlap.
    pub fn dictionaries() -> Failure {
        Failure::other("together the DICTs have too many bytes")
    }

    /// Many subroutines overlap.
    pub fn subroutines() -> Failure {
        Failure::other("together the subroutines have too many bytes")
    }

    /// The file with the verdicts is missing.
    pub fn no_proof() -> Failure {
        Failure::other("there is no PROOF.txt; it comes with the packages and the archive")
    }

    /// The file is of another kind.
    pub fn other_kind(kind: &'static str) -> Failure {
        Failure::of_part(kind, "psotf reads OpenType files with a CFF or CFF2 table")
    }
}

/// Requests for parts that the font does not have.
impl Failure {
    /// The font has no such part.
    pub fn no_part(part: &'static str) -> Failure {
        Failure::around_name("the font has no ", part, "")
    }

    /// The font has no glyph with this number.
    pub fn no_glyph(gid: u32) -> Failure {
        Failure::other(format_args!("the font has no glyph {gid}"))
    }

    /// The list of glyphs is empty.
    pub fn no_glyphs() -> Failure {
        Failure::other("no glyphs are chosen")
    }

    /// The font has no glyph for a character.
    pub fn no_char(char: u32) -> Failure {
        Failure::other(format_args!("the font has no glyph for the character U+{char:04X}"))
    }

    /// The font has no glyph for some characters. The text has a space before each of them.
    pub fn no_chars(chars: String) -> Failure {
        Failure::with_name(Kind::Other, "the font has no glyph for:", chars)
    }

    /// The font has no axis with this tag.
    pub fn no_axis(tag: String) -> Failure {
        Failure::with_name(Kind::Usage, "the font has no axis ", tag)
    }

    /// The font has no instance with this name.
    pub fn no_instance(name: String) -> Failure {
        Failure::with_name(Kind::Usage, "the font has no instance ", name)
    }

    /// The font is not a variable font.
    pub fn no_places() -> Failure {
        Failure::other(
            "not a variable font: its outlines are in CFF, and instance needs a CFF2 table",
        )
    }
}

impl From<io::Error> for Failure {
    fn from(error: io::Error) -> Failure {
        let kind = if error.kind() == io::ErrorKind::BrokenPipe {
            Kind::ClosedPipe
        } else {
            Kind::Other
        };
        Failure::with_message(kind, error)
    }
}

impl From<AllocError> for Failure {
    fn from(_fault: AllocError) -> Failure {
        Failure::other("out of memory")
    }
}

impl<T: Drop> From<AllocFailed<T>> for Failure {
    fn from(_fault: AllocFailed<T>) -> Failure {
        Failure::other("out of memory")
    }
}

impl From<postscript_sfnt::Error> for Failure {
    fn from(error: postscript_sfnt::Error) -> Failure {
        Failure::of_part("cannot open the font", error)
    }
}

impl From<postscript_base::Error> for Failure {
    fn from(error: postscript_base::Error) -> Failure {
        let code = error.code();
        Failure::other(format_args!("the CFF table: {error} (error {code})"))
    }
}
