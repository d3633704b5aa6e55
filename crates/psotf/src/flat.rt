//! The command `flat`: fonts with desubroutinized (no calls) charstrings.
use crate::failures::by_files;
use clap::ArgMatches;
use postscript_files::flat_file;
use psotf_font::asking::ask_all;
use psotf_font::face::Face;
use psotf_output::failure::Failure;
use psotf_output::limit::{Budget, flat_room};
use psotf_output::saving;
use std::alloc::Global;
use std::io::Write;

/// How often a glyph is run: it is checked and written, and its bytes are copied.
pub const RUNS: u64 = 3;

/// Returns the file of the font without subroutines.
fn file_of(alloc: Global, face: &Face<'_>) -> Result<Vec<u8>, Failure> {
    match flat_file(alloc, face.source.bytes, face.source.number) {
        Ok(file) => Ok(file),
        Err(error) => Err(by_files(error)),
    }
}

/// Writes the font with charstrings that call no subroutines. It fails if a glyph costs more than the limit.
pub fn write<W: Write>(
    rt: &HostRuntime,
    face: &Face<'_>,
    words: &ArgMatches<'_>,
    budget: &mut Budget,
    out: &mut W,
) -> Result<(), Failure> {
    budget.room = flat_room(budget.limit, face.cff.len() as u64);
    ask_all(rt.alloc(), &face.font, budget)?;
    let file = file_of(rt.alloc(), face)?;
    saving::put(rt, words.get_str("out"), &file, out)
}
