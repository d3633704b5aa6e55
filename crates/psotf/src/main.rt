//! A command-line program for OpenType fonts. It inspects and draws glyphs, and writes fonts without subroutines, fonts
//! with only some glyphs, and static instances.
#![tactic(auto)]

ghost use Rattle.std.specs.Prelude.{◌<◌};

mod choice;
mod commands;
mod devices;
mod dropped;
mod failures;
mod features;
mod flat;
mod glyphs;
mod instance;
mod layout;
mod many;
mod proof;
mod ranges;
mod report;
mod subset;
mod svg;
mod variable;

use clap::ArgMatches;
use commands::psotf;
use postscript_drawing::LIMIT;
use psotf_drawing::specimen;
use psotf_drawing::variable::VariableFace;
use psotf_font::face::{Face, Source, source_of};
use psotf_font::inspect;
use psotf_output::failure::Failure;
use psotf_output::limit::{Budget, HELD, OBJECT, PATH};
use psotf_output::telling;
use ranges::gids_of;
use std::fs::File;
use std::io::{BufWriter, Read, Write};
use std::process::ExitCode;
use std::{env, io};

/// Returns how many units of the budget one unit of a run may cost in a subcommand.
fn weight_of(name: &str, words: &ArgMatches<'_>) -> u64
    ensures { 0 < result }
{
    match name {
        "inspect" => 1,
        "flat" => flat::RUNS,
        "subset" => subset::RUNS,
        "report" => psotf_drawing::report::RUNS,
        "instance" => instance::RUNS,
        "glyph" if words.get_flag("json") => OBJECT,
        _ => PATH,
    }
}

/// Returns the budget of a subcommand.
fn budget_of(name: &str, words: &ArgMatches<'_>) -> Budget {
    let limit = words.get_one::<u64>("limit").unwrap_or(LIMIT);
    let mut budget = Budget::new(limit, weight_of(name, words));
    if name == "report" {
        budget.kept = limit / HELD;
    }
    budget
}

/// The largest capacity that is reserved at once.
const MOST: u64 = 1 << 30;

/// Returns the capacity to reserve for a file: its size and one byte more for the read at the end, or 1 if the size is
/// unknown.
fn room_for(file: &File) -> usize {
    match file.metadata() {
        Ok(metadata) => (metadata.len().min(MOST) as usize).saturating_add(1),
        Err(_) => 1,
    }
}

/// Reads a file. It reserves memory once, since a buffer that grows takes up to three times as much.
fn bytes_of(rt: &HostRuntime, path: &str) -> Result<Vec<u8>, Failure> {
    let mut file = File::open(rt, path)?;
    let mut bytes = Vec::with_capacity(rt.alloc(), room_for(&file))?;
    file.read_to_end(&mut bytes)?;
    Ok(bytes)
}

/// Opens the font that the arguments select of a file, and runs the subcommand.
fn answer<W: Write>(
    rt: &HostRuntime,
    name: &str,
    words: &ArgMatches<'_>,
    path: &str,
    out: &mut W,
) -> Result<(), Failure> {
    let number = words.get_one::<u16>("face").unwrap_or(0);
    let bytes = bytes_of(rt, path)?;
    let source = source_of(bytes.as_slice(), number)?;
    let mut budget = budget_of(name, words);
    let told = match VariableFace::open(&source.file)? {
        Some(face) => of_variable(rt, &face, name, words, &mut budget, out),
        None => of_static(rt, source, name, words, &mut budget, out),
    };
    telling::flush(out)?;
    told
}

/// Runs a subcommand for a variable font. Subcommands that need a `CFF ` table run on the static font of the chosen
/// instance.
fn of_variable<W: Write>(
    rt: &HostRuntime,
    face: &VariableFace<'_>,
    name: &str,
    words: &ArgMatches<'_>,
    budget: &mut Budget,
    out: &mut W,
) -> Result<(), Failure> {
    if variable::is_asked(name) {
        return variable::write(rt, face, name, words, budget, out);
    }
    let mut making = Budget::new(budget.limit, instance::RUNS);
    let tells = matches!(name, "flat" | "subset") && !words.get_flag("quiet");
    let bytes = instance::file_at(rt, face, words, &mut making, tells)?;
    let source = source_of(bytes.as_slice(), 0)?;
    of_face(rt, source, name, words, budget, out)
}

/// Runs a subcommand for any other font, which has no instances.
fn of_static<W: Write>(
    rt: &HostRuntime,
    source: Source<'_>,
    name: &str,
    words: &ArgMatches<'_>,
    budget: &mut Budget,
    out: &mut W,
) -> Result<(), Failure> {
    variable::refuse(name, words)?;
    of_face(rt, source, name, words, budget, out)
}

/// Runs a subcommand for a CFF font. If its table is invalid, `report` writes a page that shows the error.
fn of_face<W: Write>(
    rt: &HostRuntime,
    source: Source<'_>,
    name: &str,
    words: &ArgMatches<'_>,
    budget: &mut Budget,
    out: &mut W,
) -> Result<(), Failure> {
    match Face::open(rt.alloc(), source) {
        Ok(face) => write(rt, &face, name, words, budget, out),
        Err(failure) => {
            if name == "report" {
                report::write_refused(rt, &source, words, &failure)?;
            }
            Err(failure)
        }
    }
}

/// Runs a subcommand for a valid CFF font.
fn write<W: Write>(
    rt: &HostRuntime,
    face: &Face<'_>,
    name: &str,
    words: &ArgMatches<'_>,
    budget: &mut Budget,
    out: &mut W,
) -> Result<(), Failure> {
    match name {
        "inspect" => inspect::write(rt, face, words.get_flag("json"), budget, out),
        "glyph" => glyphs::write(rt, face, words, budget, out),
        "svg" => svg::write(rt, face, words, budget, out),
        "flat" => flat::write(rt, face, words, budget, out),
        "subset" => subset::write(rt, face, words, budget, out),
        "report" => report::write(rt, face, words, budget),
        _ => specimen::write(
            rt,
            face,
            gids_of(face, words),
            words.get_str("out"),
            budget,
            out,
        ),
    }
}

/// Prints a failure, and returns the exit status: 1, or 2 for wrong arguments. A closed pipe is no failure.
fn report_failure(rt: &HostRuntime, path: &str, failure: &Failure) -> io::Result<ExitCode> {
    if failure.is_closed_pipe() {
        return Ok(ExitCode::SUCCESS);
    }
    eprintln!(rt; "psotf: {path}: {failure}")?;
    Ok(ExitCode::from(failure.status()))
}

/// Runs a subcommand for a file, prints its failure, and returns the exit status.
fn start(rt: &HostRuntime, name: &str, words: &ArgMatches<'_>) -> io::Result<ExitCode> {
    let mut out = BufWriter::new(rt.alloc(), io::writer(rt))?;
    let path = words.get_str("FILE").unwrap_or("");
    match answer(rt, name, words, path, &mut out) {
        Ok(()) => Ok(ExitCode::SUCCESS),
        Err(failure) => report_failure(rt, path, &failure),
    }
}

/// Runs a subcommand for several files, prints how many have errors, and returns the exit status.
fn start_many(rt: &HostRuntime, name: &str, words: &ArgMatches<'_>) -> io::Result<ExitCode> {
    let mut out = BufWriter::new(rt.alloc(), io::writer(rt))?;
    match many::write(rt, name, words, &mut out) {
        Ok(()) => Ok(ExitCode::SUCCESS),
        Err(failure) => report_failure(rt, name, &failure),
    }
}

/// Runs `proof`, prints its failure, and returns the exit status.
fn start_proof(rt: &HostRuntime) -> io::Result<ExitCode> {
    let mut out = BufWriter::new(rt.alloc(), io::writer(rt))?;
    match proof::write(rt, &mut out) {
        Ok(()) => Ok(ExitCode::SUCCESS),
        Err(failure) => report_failure(rt, "proof", &failure),
    }
}

/// Returns whether an argument names a file rather than a subcommand.
fn names_file(word: &str) -> bool {
    !word.starts_with('-') && (word.contains('.') || word.contains('/'))
}

/// Returns the arguments of the program.
fn words_of(rt: &HostRuntime) -> anyhow::Result<Vec<String>> {
    Ok(env::args(rt)?.collect(rt.alloc())?)
}

/// Inserts `inspect` if the only argument is a file.
fn complete(rt: &HostRuntime, words: &mut Vec<String>) -> anyhow::Result<()> {
    if words.len() == 2 && names_file(words[1].as_str()) {
        words.insert(1, String::from_str(rt.alloc(), "inspect")?)?;
    }
    Ok(())
}

/// Prints help, or the error of wrong arguments. A closed pipe is no failure.
fn told_by(rt: &HostRuntime, error: &clap::Error) -> io::Result<ExitCode> {
    match error.print(rt) {
        Ok(()) => Ok(ExitCode::from(error.exit_code() as u8)),
        Err(fault) if fault.kind() == io::ErrorKind::BrokenPipe => {
            Ok(ExitCode::from(error.exit_code() as u8))
        }
        Err(fault) => Err(fault),
    }
}

/// Runs the subcommand of parsed arguments.
fn answer_to(rt: &HostRuntime, matches: &ArgMatches<'_>) -> io::Result<ExitCode> {
    match matches.subcommand() {
        Some(("proof", _)) => start_proof(rt),
        Some((name, words)) if many::is_chosen(words) => start_many(rt, name, words),
        Some((name, words)) => start(rt, name, words),
        None => Ok(ExitCode::from(2)),
    }
}

/// Parses the arguments and runs the subcommand.
fn run_words(rt: &HostRuntime, words: &[String]) -> io::Result<ExitCode> {
    match psotf(rt.alloc(), words)?.try_get_matches_from(words) {
        Ok(matches) => answer_to(rt, &matches),
        Err(error) => told_by(rt, &error),
    }
}

fn main(rt: HostRuntime) -> anyhow::Result<ExitCode> {
    let mut words = words_of(&rt)?;
    complete(&rt, &mut words)?;
    Ok(run_words(&rt, words.as_slice())?)
}
