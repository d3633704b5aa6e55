//! Ranges of glyphs.
use clap::ArgMatches;
use psotf_font::face::{Face, count};
use std::ops::Range;

/// Returns the glyphs from `--from` on, at most `--count` of them.
pub fn gids_of(face: &Face<'_>, words: &ArgMatches<'_>) -> Range<u16> {
    let from = words.get_one::<u16>("from").unwrap_or(0);
    let most = words.get_one::<u16>("count").unwrap_or(65535);
    from..count(face).min(from.saturating_add(most))
}
