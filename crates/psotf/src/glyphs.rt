//! The command `glyph`.
use clap::ArgMatches;
use psotf_drawing::glyphs::{self, Glyphs};
use psotf_output::failure::Failure;
use psotf_output::limit::Budget;
use std::io::Write;
use std::ops::Range;

/// Returns the character in the arguments.
fn char_of(words: &ArgMatches<'_>) -> Result<u32, Failure> {
    let mut chars = words.get_str("char").unwrap_or("").chars();
    match (chars.next(), chars.next()) {
        (Some(char), None) => Ok(u32::from(char)),
        _ => Err(Failure::usage("--char takes one character")),
    }
}

/// Returns the glyph that the arguments select.
fn chosen_glyph<G: Glyphs>(glyphs: &G, words: &ArgMatches<'_>) -> Result<u16, Failure> {
    if let Some(gid) = words.get_one::<u16>("gid") {
        return Ok(gid);
    }
    if let Some(name) = words.get_str("name") {
        return glyphs.of_name(name);
    }
    let char = char_of(words)?;
    let Some(map) = glyphs.map() else {
        return Err(Failure::no_part("character map"));
    };
    match map.glyph_of(char) {
        0 => Err(Failure::no_part("glyph for this character")),
        gid => Ok(gid),
    }
}

/// Returns the range of glyphs that the arguments select.
fn chosen_range<G: Glyphs>(glyphs: &G, words: &ArgMatches<'_>) -> Result<Range<u16>, Failure> {
    let count = glyphs.count();
    if words.get_flag("all") {
        return Ok(0..count);
    }
    let gid = chosen_glyph(glyphs, words)?;
    if gid >= count {
        return Err(Failure::no_glyph(u32::from(gid)));
    }
    Ok(gid..gid.saturating_add(1))
}

/// Prints the glyphs that the arguments select.
pub fn write<G: Glyphs, W: Write>(
    rt: &HostRuntime,
    glyphs: &G,
    words: &ArgMatches<'_>,
    budget: &mut Budget,
    out: &mut W,
) -> Result<(), Failure> {
    let gids = chosen_range(glyphs, words)?;
    match glyphs::write(rt, glyphs, gids, words.get_flag("json"), budget, out)? {
        0 => Ok(()),
        refused => Err(Failure::of_glyphs(refused)),
    }
}
