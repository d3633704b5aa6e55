//! The command `instance`: static fonts with outlines in a `CFF ` table.
use crate::variable::chosen_by;
use clap::ArgMatches;
pub use postscript_instance_file::RUNS;
use postscript_instance_file::{Error, GlyphError, StaticFont, Watch, static_font};
use postscript_sfnt::FontFile;
use psotf_drawing::variable::VariableFace;
use psotf_font::leaving::tags;
use psotf_output::failure::{Failure, Refusal};
use psotf_output::limit::{Budget, instance_room};
use psotf_output::progress::Progress;
use psotf_output::text::Text;
use psotf_output::{saving, telling};
use std::alloc::{AllocError, Global};
use std::io::Write;

/// The tags of the tables about variations, and of the digital signature.
const GONE: [[u8; 4]; 9] = [
    *b"CFF2", *b"DSIG", *b"HVAR", *b"MVAR", *b"STAT", *b"VVAR", *b"avar", *b"cvar", *b"fvar",
];

/// Tags of tables, and the features that are lost with them.
const LOST: [([u8; 4], &str); 5] = [
    (*b"GPOS", "kerning and mark positions"),
    (*b"GSUB", "ligatures and other substitutions"),
    (*b"GDEF", "glyph classes"),
    (*b"vmtx", "vertical metrics"),
    (*b"COLR", "colours"),
];

/// The progress of an instance.
#[derive(Clone, Copy)]
struct Shown<'r> {
    progress: Progress<'r>,
}

impl<'r> Watch for Shown<'r> {
    fn at_glyph(&mut self, gid: u16) {
        self.progress.at_glyph(gid);
    }
}

/// Returns the error of a glyph that is not written.
fn refusal_of(error: GlyphError, budget: &mut Budget) -> Refusal {
    match error {
        GlyphError::NoPart => Refusal::NoPart,
        GlyphError::TooLong(limit) => Refusal::TooLong(limit),
        GlyphError::Held(most) => Refusal::Held(most),
        GlyphError::Segments(most) => Refusal::Segments(most),
        GlyphError::UsedUp if budget.room < budget.left / budget.weight => Refusal::Written(
            budget.room,
        ),
        GlyphError::UsedUp => budget.stop(0),
        GlyphError::Run(fault) => Refusal::run(fault),
        GlyphError::Undrawn(fault) => Refusal::accent(fault),
        error => Refusal::other(error),
    }
}

/// Returns the failure of an instance that is not written.
fn failure_of(error: Error, budget: &mut Budget) -> Failure {
    match error {
        Error::Glyph(gid, error) => Failure::glyph(gid, &refusal_of(error, budget)),
        error => Failure::other(error),
    }
}

/// Returns the static font of the instance in the arguments, with rounded points if `is_rounded` is true. It fails if a
/// glyph costs more than the limit.
fn make_font(
    rt: &HostRuntime,
    face: &VariableFace<'_>,
    words: &ArgMatches<'_>,
    budget: &mut Budget,
    is_rounded: bool,
) -> Result<StaticFont, Failure> {
    let location = chosen_by(rt, face, words)?;
    let mut shown = Shown {
        progress: Progress::new(rt, face.common.glyphs),
    };
    budget.room = instance_room(budget.limit, face.opened.font.bytes.len() as u64);
    let mut left = budget.room.min(budget.left / budget.weight);
    let (alloc, opened, limit) = (rt.alloc(), &face.opened, budget.limit);
    let made = static_font(
        alloc, opened, &location, is_rounded, limit, &mut left, &mut shown,
    );
    shown.progress.end();
    match made {
        Ok(made) => Ok(made),
        Err(error) => Err(failure_of(error, budget)),
    }
}

/// Returns the features that are lost with the dropped tables.
fn lost(alloc: Global, old: &FontFile<'_>, new: &FontFile<'_>) -> Result<String, AllocError> {
    let mut text = Text::new(alloc);
    for (tag, what) in &LOST {
        if old.table(*tag).is_some() && new.table(*tag).is_none() {
            text.push_str(if text.is_empty() {
                "; lost with them: "
            } else {
                ", "
            });
            text.push_str(what);
        }
    }
    text.end()
}

/// Reports on standard error, in one line, the tables and the features that a static font does not have.
fn tell_tables(rt: &HostRuntime, old: &FontFile<'_>, instance: &[u8]) -> Result<(), Failure> {
    let new = FontFile::read(instance, 0)?;
    let tags = tags(rt.alloc(), old, &new, &GONE)?;
    if tags.is_empty() {
        return Ok(());
    }
    let lost = lost(rt.alloc(), old, &new)?;
    telling::tell(rt, format_args!("tables dropped:{tags}{lost}"))
}

/// Reports dropped glyph names and dropped tables, one line for each.
fn tell(rt: &HostRuntime, face: &VariableFace<'_>, made: &StaticFont) -> Result<(), Failure> {
    if let Some(why) = made.lost_names {
        telling::tell(
            rt,
            format_args!("glyph names dropped (the font becomes CID-keyed): {why}"),
        )?;
    }
    tell_tables(rt, &face.opened.file, &made.file)
}

/// Returns the static font of the instance in the arguments, as input of another command. If `tells` is true, it
/// reports what is dropped.
pub fn file_at(
    rt: &HostRuntime,
    face: &VariableFace<'_>,
    words: &ArgMatches<'_>,
    budget: &mut Budget,
    tells: bool,
) -> Result<Vec<u8>, Failure> {
    let made = make_font(rt, face, words, budget, false)?;
    if tells {
        tell(rt, face, &made)?;
    }
    Ok(made.file)
}

/// Writes the static font of the instance in the arguments. Without `--quiet` it reports what is dropped.
pub fn write<W: Write>(
    rt: &HostRuntime,
    face: &VariableFace<'_>,
    words: &ArgMatches<'_>,
    budget: &mut Budget,
    out: &mut W,
) -> Result<(), Failure> {
    let made = make_font(rt, face, words, budget, words.get_flag("round"))?;
    if !words.get_flag("quiet") {
        tell(rt, face, &made)?;
    }
    saving::put(rt, words.get_str("out"), &made.file, out)
}
