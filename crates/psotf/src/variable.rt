//! Subcommands for variable fonts.
use crate::{glyphs, instance, svg};
use clap::ArgMatches;
use psotf_drawing::variable::glyphs::Placed;
use psotf_drawing::variable::place::{Chosen, axis_named, chosen_location};
use psotf_drawing::variable::{VariableFace, holds, moving};
use psotf_output::failure::Failure;
use psotf_output::limit::Budget;
use std::io::Write;

/// Returns the location that the arguments select. Without them, it is the default instance.
pub fn chosen_by(
    rt: &HostRuntime,
    face: &VariableFace<'_>,
    words: &ArgMatches<'_>,
) -> Result<Chosen, Failure> {
    chosen_location(
        rt,
        face,
        words.get_str("instance"),
        words.get_str("variations"),
    )
}

/// Prints the chosen glyphs at the chosen location.
fn write_glyphs<W: Write>(
    rt: &HostRuntime,
    face: &VariableFace<'_>,
    words: &ArgMatches<'_>,
    budget: &mut Budget,
    out: &mut W,
) -> Result<(), Failure> {
    let chosen = chosen_by(rt, face, words)?;
    let placed = Placed {
        face,
        chosen: &chosen,
    };
    glyphs::write(rt, &placed, words, budget, out)
}

/// Writes a picture of the chosen glyph or text, animated along an axis and back.
fn write_moving<W: Write>(
    rt: &HostRuntime,
    face: &VariableFace<'_>,
    name: &str,
    words: &ArgMatches<'_>,
    budget: &mut Budget,
    out: &mut W,
) -> Result<(), Failure> {
    let alloc = rt.alloc();
    let (gid, text) = (words.get_one::<u16>("gid"), words.get_str("text"));
    let axis = axis_named(alloc, face, name)?;
    let gids = moving::chosen_glyphs(alloc, face, gid, text.unwrap_or(""))?;
    let chosen = chosen_by(rt, face, words)?;
    let path = words.get_str("out");
    moving::write(rt, face, &axis, &gids, &chosen, path, budget, out)
}

/// Writes a picture of the chosen glyph or text, at the chosen location.
fn write_picture<W: Write>(
    rt: &HostRuntime,
    face: &VariableFace<'_>,
    words: &ArgMatches<'_>,
    budget: &mut Budget,
    out: &mut W,
) -> Result<(), Failure> {
    if let Some(axis) = words.get_str("animate") {
        return write_moving(rt, face, axis, words, budget, out);
    }
    let chosen = chosen_by(rt, face, words)?;
    let placed = Placed {
        face,
        chosen: &chosen,
    };
    svg::write(rt, &placed, words, budget, out)
}

/// Returns whether the arguments select an instance or an axis.
fn names_place(words: &ArgMatches<'_>) -> bool {
    words.get_str("variations").is_some()
        || words.get_str("instance").is_some()
        || words.get_str("animate").is_some()
}

/// Fails for `instance`, and for arguments that select an instance or an axis. It is called for fonts that are not
/// variable.
pub fn refuse(name: &str, words: &ArgMatches<'_>) -> Result<(), Failure> {
    if name == "instance" {
        return Err(Failure::no_places());
    }
    if names_place(words) {
        return Err(Failure::usage(
            "--variations, --instance and --animate need a variable font with a CFF2 table",
        ));
    }
    Ok(())
}

/// Returns whether a subcommand reads a variable font directly.
pub fn is_asked(name: &str) -> bool {
    matches!(name, "inspect" | "glyph" | "svg" | "instance")
}

/// Runs a subcommand that reads a variable font directly.
pub fn write<W: Write>(
    rt: &HostRuntime,
    face: &VariableFace<'_>,
    name: &str,
    words: &ArgMatches<'_>,
    budget: &mut Budget,
    out: &mut W,
) -> Result<(), Failure> {
    match name {
        "inspect" => holds::write(rt.alloc(), face, words.get_flag("json"), out),
        "glyph" => write_glyphs(rt, face, words, budget, out),
        "svg" => write_picture(rt, face, words, budget, out),
        _ => instance::write(rt, face, words, budget, out),
    }
}
