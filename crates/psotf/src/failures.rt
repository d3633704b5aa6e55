//! Failures of the libraries that write font files.
use psotf_output::failure::Failure;

/// The message for a subset whose glyphs cost too much.
const LONG: &str =
    "the kept glyphs cost more than the limit, which follows from --limit and the size of the table";

/// Returns the failure of a font file that is not written.
pub fn by_files(error: postscript_files::Error) -> Failure {
    match error {
        postscript_files::Error::File(error) => Failure::from(error),
        postscript_files::Error::Font(postscript_write::Error::TooLong) => Failure::other(LONG),
        postscript_files::Error::Font(error) => Failure::of_part(
            "cannot write the CFF table",
            error,
        ),
        postscript_files::Error::MissingCharacter(char) => Failure::no_char(char),
        postscript_files::Error::MissingTable(tag) => Failure::no_table_of(tag),
        error => Failure::of_part("cannot write the font file", error),
    }
}

/// Returns the failure of a subset that is not written.
pub fn by_subset(error: postscript_subset::Error) -> Failure {
    match error {
        postscript_subset::Error::File(error) => by_files(error),
        error => Failure::of_part("cannot write the font file", error),
    }
}
