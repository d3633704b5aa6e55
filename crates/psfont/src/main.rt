//! A line-based session about charstrings and fonts, and a summary of the font in a file.
#![tactic(auto)]

ghost use Rattle.std.specs.Prelude.{◌≡◌, ◌≤◌, [], ◌↔◌, ◌∷◌, map, string_bytes, IfOk};
ghost use Rattle.postscript.specs.Error.{IsListed};
ghost use Rattle.psfont_session.specs.Words.{AreKnown};

use postscript::{Error, Result};
use psfont_session::{start, start_within, status, usage};
use std::env::Env;
use std::io::{BufReader, BufWriter, ErrorKind, Input, Write};
use std::process::ExitCode;
use std::rt::Files;
use std::{env, io};

#[cfg(test)]
mod tests;

/// Runs `start` on the standard input and output.
fn start_here<R: Input + Print + Files + AllocGlobal, E: Write>(
    rt: &R,
    words: &[String],
    errors: &mut E,
) -> Result<u8>
    ensures usage { IfOk result (λ status. (status ≡ 2) ↔ (¬ (AreKnown (map string_bytes words.now)))) }
    ensures listed { IsListed (3 ∷ []) result }
{
    let alloc = rt.alloc();
    let mut reader = BufReader::new(alloc, rt.reader()).map_err(|_| Error::Memory)?;
    let mut writer = BufWriter::new(alloc, io::writer(rt)).map_err(|_| Error::Memory)?;
    Ok(start(rt, words, &mut reader, &mut writer, errors))
}

/// Runs a session within a limit on the standard input and output.
fn within_here<R: Input + Print + AllocGlobal, E: Write>(
    rt: &R,
    limit: u64,
    errors: &mut E,
) -> Result<u8>
    ensures status { IfOk result (λ status. status ≤ 1) }
    ensures listed { IsListed (3 ∷ []) result }
{
    let alloc = rt.alloc();
    let mut reader = BufReader::new(alloc, rt.reader()).map_err(|_| Error::Memory)?;
    let mut writer = BufWriter::new(alloc, io::writer(rt)).map_err(|_| Error::Memory)?;
    Ok(start_within(alloc, limit, &mut reader, &mut writer, errors))
}

/// Returns the limit if the words are `--limit` and a number.
fn limit_of(words: &[String]) -> Option<u64> {
    match words {
        [option, number] if option.as_str() == "--limit" => number.as_str().parse::<u64>().ok(),
        _ => None,
    }
}

/// Runs a session within a limit if the words ask for it, and `start` otherwise.
fn run_session<R: Input + Print + Files + AllocGlobal, E: Write>(
    rt: &R,
    words: &[String],
    errors: &mut E,
) -> Result<u8>
    ensures listed { IsListed (3 ∷ []) result }
{
    match limit_of(words) {
        Some(limit) => within_here(rt, limit, errors),
        None => start_here(rt, words, errors),
    }
}

/// Returns the words after the program's name.
fn words_of<R: Env + AllocGlobal>(rt: &R) -> io::Result<Vec<String>> {
    Ok(env::args(rt)?.skip(1).collect(rt.alloc())?)
}

fn main(rt: HostRuntime) -> ExitCode {
    let stderr = rt.stderr();
    let mut errors = io::writer(&stderr);
    ExitCode::from(match words_of(&rt) {
        Ok(words) => match run_session(&rt, words.as_slice(), &mut errors) {
            Ok(ended) => ended,
            Err(fault) => status(Err(fault), &mut errors),
        },
        Err(fault) if fault.kind() == ErrorKind::OutOfMemory => {
            status(Err(Error::Memory), &mut errors)
        }
        Err(_) => usage(&mut errors),
    })
}
