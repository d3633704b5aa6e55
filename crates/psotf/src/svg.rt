//! The command `svg`: a glyph or a line of text as a picture.
use clap::ArgMatches;
use postscript_sfnt::CharacterMap;
use psotf_drawing::glyphs::Glyphs;
use psotf_drawing::svg::{CLOSING, picture_start, put, put_text};
use psotf_font::characters::missing_characters;
use psotf_output::failure::Failure;
use psotf_output::limit::Budget;
use psotf_output::saving::Output;
use psotf_output::telling::tell;
use psotf_output::text::Text;
use std::alloc::AllocError;
use std::io::Write;

/// Fails if a text has characters without a glyph. With `--missing draw` they are reported on standard error and drawn
/// as `.notdef`.
fn see_missing(
    rt: &HostRuntime,
    map: &Option<CharacterMap<'_>>,
    words: &ArgMatches<'_>,
    text: &str,
) -> Result<(), Failure> {
    let missing = missing_characters(rt.alloc(), map, text)?;
    if !missing.is_empty() {
        match words.get_str("missing") {
            Some("draw") => tell(rt, format_args!("the font has no glyph for:{missing}"))?,
            Some(_) => return Err(Failure::usage("--missing takes the word draw")),
            None => return Err(Failure::no_chars(missing)),
        }
    }
    Ok(())
}

/// Adds the path of the chosen glyph, or the paths of the text. Returns the width.
fn put_named<G: Glyphs>(
    rt: &HostRuntime,
    glyphs: &G,
    words: &ArgMatches<'_>,
    budget: &mut Budget,
    picture: &mut Text,
) -> Result<i64, Failure> {
    if let Some(gid) = words.get_one::<u16>("gid") {
        return put(rt.alloc(), glyphs, gid, 0, budget, picture);
    }
    let text = words.get_str("text").unwrap_or("");
    see_missing(rt, glyphs.map(), words, text)?;
    put_text(rt.alloc(), glyphs, text, budget, picture)
}

/// Writes the picture of paths.
fn write_picture<W: Write>(
    rt: &HostRuntime,
    units: u16,
    width: i64,
    paths: &mut Text,
    output: &mut Output<'_>,
    out: &mut W,
) -> Result<(), Failure> {
    output.take(rt, &mut picture_start(rt.alloc(), units, width), out)?;
    output.take(rt, paths, out)?;
    output.put(rt, CLOSING, out)
}

/// Writes a picture of the chosen glyph or text.
pub fn write<G: Glyphs, W: Write>(
    rt: &HostRuntime,
    glyphs: &G,
    words: &ArgMatches<'_>,
    budget: &mut Budget,
    out: &mut W,
) -> Result<(), Failure> {
    let mut paths = Text::new(rt.alloc());
    let width = put_named(rt, glyphs, words, budget, &mut paths)?;
    if paths.has_failed() {
        return Err(Failure::from(AllocError));
    }
    let mut output = Output::open(rt, words.get_str("out"))?;
    let written = write_picture(rt, glyphs.units(), width, &mut paths, &mut output, out);
    output.end(rt, written)
}
