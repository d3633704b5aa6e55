//! Commands on several files: a row for each file, in their order, also if it has an error.
use crate::{answer, bytes_of};
use clap::ArgMatches;
use psotf_output::failure::Failure;
use psotf_output::progress::Progress;
use psotf_output::sheet::Sheet;
use psotf_output::telling;
use std::alloc::{AllocError, Global};
use std::io::{Read, Write};

/// The paths of a command.
#[derive(Drop)]
pub struct Paths {
    paths: Vec<String>,
}

impl Paths {
    /// Returns no paths.
    fn new(alloc: Global) -> Paths {
        Paths {
            paths: Vec::new(alloc),
        }
    }

    /// Adds the paths of the arguments.
    fn put_words(&mut self, alloc: Global, words: &ArgMatches<'_>) -> Result<(), AllocError> {
        for path in words.get_strs("FILE").unwrap_or(&[]) {
            self.paths.push(String::from_str(alloc, path)?)?;
        }
        Ok(())
    }

    /// Adds each line of a list that is not empty.
    fn put_lines(&mut self, alloc: Global, list: &[u8]) -> Result<(), AllocError> {
        for line in list.split(|byte| *byte == b'\n') {
            if !line.is_empty() {
                self.paths.push(String::from_utf8_lossy(alloc, line)?)?;
            }
        }
        Ok(())
    }

    /// Returns the paths of the arguments, and of the file that lists more of them.
    pub fn read(rt: &HostRuntime, words: &ArgMatches<'_>) -> Result<Paths, Failure> {
        let mut paths = Paths::new(rt.alloc());
        paths.put_words(rt.alloc(), words)?;
        if let Some(list) = words.get_str("files-from") {
            let list = list_of(rt, list)?;
            paths.put_lines(rt.alloc(), &list)?;
        }
        Ok(paths)
    }
}

/// Returns whether the arguments choose several files, or a list of files.
pub fn is_chosen(words: &ArgMatches<'_>) -> bool {
    words.contains_id("files-from") || words.get_strs("FILE").unwrap_or(&[]).len() > 1
}

/// Returns the bytes of standard input.
fn input(rt: &HostRuntime) -> Result<Vec<u8>, Failure> {
    let mut bytes = Vec::new(rt.alloc());
    rt.stdin().read_to_end(&mut bytes)?;
    Ok(bytes)
}

/// Returns the bytes of a list of paths, or of standard input if its name is a hyphen.
fn list_of(rt: &HostRuntime, path: &str) -> Result<Vec<u8>, Failure> {
    match path {
        "-" => input(rt),
        _ => bytes_of(rt, path),
    }
}

/// Returns a JSON object with the path and the error, without its closing brace and its line end.
fn object_start(alloc: Global, path: &str, failure: Option<&Failure>) -> Result<Vec<u8>, Failure> {
    let mut sheet = Sheet::new(alloc);
    sheet.begin_object();
    sheet.text("file", path);
    if let Some(failure) = failure {
        sheet.tell("error", failure);
    }
    sheet.end_object();
    let mut row = Vec::new(alloc);
    sheet.end(&mut row)?;
    row.truncate(row.len().saturating_sub(2));
    Ok(row)
}

/// Returns the row of a file: its path, its error if it has one, and the members of the object that was printed, if one
/// was.
fn row(
    alloc: Global,
    path: &str,
    failure: Option<&Failure>,
    printed: &[u8],
) -> Result<Vec<u8>, Failure> {
    let mut row = object_start(alloc, path, failure)?;
    match printed.strip_prefix(b"{") {
        Some(members) => {
            row.push(b',')?;
            row.extend_from_slice(members)?;
        }
        None => row.extend_from_slice(b"}\n")?,
    }
    Ok(row)
}

/// Prints the row of a file, or its path and what was printed.
fn put<W: Write>(
    rt: &HostRuntime,
    words: &ArgMatches<'_>,
    path: &str,
    failure: Option<&Failure>,
    printed: &[u8],
    out: &mut W,
) -> Result<(), Failure> {
    if words.get_flag("json") {
        let row = row(rt.alloc(), path, failure, printed)?;
        return telling::put(out, &row);
    }
    telling::put(out, path.as_bytes())?;
    telling::put(out, b":\n")?;
    telling::put(out, printed)
}

/// Runs the command for a file and prints its row, and its error on standard error. Returns whether it succeeds.
fn write_one<W: Write>(
    rt: &HostRuntime,
    name: &str,
    words: &ArgMatches<'_>,
    path: &str,
    out: &mut W,
) -> Result<bool, Failure> {
    let mut printed = Vec::new(rt.alloc());
    let failure = answer(rt, name, words, path, &mut printed).err();
    put(rt, words, path, failure.as_ref(), &printed, out)?;
    match failure {
        Some(failure) => {
            telling::tell(rt, format_args!("{path}: {failure}"))?;
            Ok(false)
        }
        None => Ok(true),
    }
}

/// Runs a command for each file, and prints a row for each. Afterwards it fails with the number of files that have errors,
/// if there are any.
pub fn write<W: Write>(
    rt: &HostRuntime,
    name: &str,
    words: &ArgMatches<'_>,
    out: &mut W,
) -> Result<(), Failure> {
    let paths = Paths::read(rt, words)?.paths;
    let mut progress = Progress::of_files(rt, paths.len() as u64);
    let mut refused = 0u64;
    let mut number = 0u64;
    for path in &paths {
        number = number.saturating_add(1);
        progress.show(number);
        if !write_one(rt, name, words, path.as_str(), out)? {
            refused = refused.saturating_add(1);
        }
    }
    progress.end();
    telling::flush(out)?;
    match refused {
        0 => Ok(()),
        count => Err(Failure::files(count)),
    }
}
