//! The commands in the lines of a session.
ghost use Rattle.std.specs.Prelude.{◌≡◌, Some, IfSome};
ghost use Rattle.psfont_session.specs.Line.{word_of, argument_of};

use crate::lines::first_place;

/// A command.
#[derive(Clone, Copy)]
pub enum Command {
    /// Store bytes, given in hex.
    Load(Place),
    /// Run the code.
    Run,
    /// Write the code without calls.
    Flat,
    /// Read a font, given in hex.
    Font(Manner),
}

/// The destination of bytes.
#[derive(Clone, Copy)]
pub enum Place {
    /// The code.
    Code,
    /// The end of the global subroutines.
    Global,
    /// The end of the local subroutines.
    Local,
}

/// The parts that a font must have.
#[derive(Clone, Copy)]
pub enum Manner {
    /// It needs Private DICTs and local subroutines.
    Strict,
    /// It may lack these.
    Lenient,
}

impl Command {
    ghost use Rattle.psfont_session.specs.Command.{name_of};
    ghost use Rattle.psfont_session.specs.declared.command.Command.{Command};

    /// The command that a word names.
    pub fn named(word: &[u8]) -> Option<Command>
        ensures sound { IfSome result (λ command. word.now ≡ name_of command) }
        ensures complete { (command : Command) → word.now ≡ name_of command → result ≡ Some command }
    {
        match word {
            b"code" => Some(Command::Load(Place::Code)),
            b"global" => Some(Command::Load(Place::Global)),
            b"local" => Some(Command::Load(Place::Local)),
            b"run" => Some(Command::Run),
            b"flat" => Some(Command::Flat),
            b"font" => Some(Command::Font(Manner::Strict)),
            b"lenient" => Some(Command::Font(Manner::Lenient)),
            _ => None,
        }
    }
}

/// Splits a line into the word before its first space, and the argument after it.
pub fn split(line: &[u8]) -> (&[u8], &[u8])
    ensures word { result.0.now ≡ word_of line.now }
    ensures argument { result.1.now ≡ argument_of line.now }
{
    match first_place(line, b' ') {
        Some(place) => (&line[..place], &line[place + 1..]),
        None => (line, &[]),
    }
}
