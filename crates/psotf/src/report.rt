//! The command `report`: HTML pages about a font.
use crate::ranges::gids_of;
use clap::ArgMatches;
use psotf_drawing::report;
use psotf_font::face::{Face, Source};
use psotf_font::report::pages::Pages;
use psotf_output::failure::Failure;
use psotf_output::limit::Budget;
use std::ops::Range;

/// Returns the path of the first page.
fn path_of<'w>(words: &'w ArgMatches<'_>) -> &'w str {
    match words.get_str("out") {
        Some(path) => path,
        None => "report.html",
    }
}

/// Returns the pages of glyphs, at the path in the arguments.
fn pages_of<'w>(words: &'w ArgMatches<'_>, gids: Range<u16>) -> Pages<'w> {
    Pages {
        path: path_of(words),
        face: words.get_one::<u16>("face").unwrap_or(0),
        first: gids.start,
        end: gids.end,
    }
}

/// Writes pages about a font and the glyphs that the arguments select.
pub fn write(
    rt: &HostRuntime,
    face: &Face<'_>,
    words: &ArgMatches<'_>,
    budget: &mut Budget,
) -> Result<(), Failure> {
    report::write(rt, face, pages_of(words, gids_of(face, words)), budget)
}

/// Writes a page that shows why a `CFF ` table is invalid. It writes nothing for any other failure.
pub fn write_refused(
    rt: &HostRuntime,
    source: &Source<'_>,
    words: &ArgMatches<'_>,
    failure: &Failure,
) -> Result<(), Failure> {
    report::write_refused(rt, source, &pages_of(words, 0..0), failure)
}
