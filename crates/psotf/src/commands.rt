//! The arguments of the program.
use clap::{Arg, ArgAction, ArgGroup, Command, value_parser};
use std::alloc::{AllocError, Global};

/// Examples in the help.
const EXAMPLES: &str = "Examples:
  psotf inspect Font.otf --json
  find fonts -name '*.otf' | psotf inspect --files-from - --json
  psotf glyph Font.otf --char A
  psotf glyph Fonts.ttc --face 2 --all --json
  psotf svg Font.otf --text Hello -o hello.svg
  psotf svg Variable.otf --text Hello --variations wght=650 -o hello.svg
  psotf svg Variable.otf --text Hello --animate wght -o moving.svg
  psotf sheet Font.otf --count 256 -o sheet.svg
  psotf report Font.otf -o report.html
  psotf flat Font.otf -o Flat.otf
  psotf subset Font.otf --text Hello -o Hello.otf
  psotf instance Variable.otf --instance Bold -o Bold.otf
  psotf subset Font.otf --unicodes 20-7e,U+20AC --retain-gids -o Small.otf";

/// The help of `proof`, which takes no font.
const PROOF: &str = "Print how this program was proved: commit, toolchain, verdicts";

/// An argument of a subcommand.
#[derive(Clone, Copy)]
enum Word {
    /// An input file: its name and its help.
    File(&'static str, &'static str),
    /// Input files, which another option can list: their name, that option and the help.
    Files(&'static str, &'static str, &'static str),
    /// An option without a value: its name and its help.
    Flag(&'static str, &'static str),
    /// An option with a text: its name, the name of the value and the help.
    Text(&'static str, &'static str, &'static str),
    /// An option with a number: its name and its help.
    Number(&'static str, &'static str),
    /// An option with a number: its name, its default and its help.
    Given(&'static str, &'static str, &'static str),
    /// An option with a number of units: its name and its help.
    Units(&'static str, &'static str),
    /// The output file: whether it is required, and the help.
    Out(bool, &'static str),
}

/// A subcommand. Its arguments follow those of the font and of the instance. Exactly one of `one_of`, which is a group
/// with the name `group`, is required.
struct Subcommand {
    name: &'static str,
    about: &'static str,
    group: &'static str,
    one_of: &'static [&'static str],
    place: Place,
    words: &'static [Word],
}

/// Whether a subcommand takes an instance of a variable font.
#[derive(Clone, Copy)]
enum Place {
    /// It does not.
    None,
    /// An instance is optional.
    Any,
    /// An instance is required.
    One,
}

/// The file of a subcommand.
const FILE: &[Word] = &[Word::File("FILE", "OpenType file or collection")];

/// The files of a subcommand that takes several.
const FILES: &[Word] = &[
    Word::Files("FILE", "files-from", "OpenType files or collections"),
    Word::Text(
        "files-from",
        "PATH",
        "Read more file names from this file, one a line (- is standard input)",
    ),
];

/// The arguments of all subcommands: the font and the limit.
const FACE: &[Word] = &[
    Word::Given("face", "0", "Select a font of a collection, counted from 0"),
    Word::Units(
        "limit",
        "How much work one glyph may cost, in units of about one byte of charstring (default 20000000); a whole command may cost 20 times as much, with a variable font up to 40 times. It also limits memory",
    ),
];

/// The arguments for an optional instance.
const PLACE: &[Word] = &[
    Word::Text(
        "variations",
        "LIST",
        "Axis values of a variable font, e.g. wght=650,opsz=12 (default: the default instance)",
    ),
    Word::Text(
        "instance",
        "NAME",
        "Select a named instance of a variable font",
    ),
];

/// The arguments for a required instance.
const ONE_PLACE: &[Word] = &[
    Word::Text("variations", "LIST", "Axis values, e.g. wght=650,opsz=12"),
    Word::Text("instance", "NAME", "Select a named instance"),
];

const SUBCOMMANDS: &[Subcommand] = &[
    Subcommand {
        name: "inspect",
        about: "Show what a font contains",
        group: "",
        one_of: &[],
        place: Place::None,
        words: &[Word::Flag("json", "Write JSON")],
    },
    Subcommand {
        name: "glyph",
        about: "Print glyphs: names, characters, advances, outlines",
        group: "which",
        one_of: &["gid", "char", "name", "all"],
        place: Place::Any,
        words: &[
            Word::Number("gid", "Print the glyph with this number"),
            Word::Text("char", "C", "Print the glyph for this character"),
            Word::Text("name", "NAME", "Print the glyph with this name"),
            Word::Flag("all", "Print all glyphs"),
            Word::Flag("json", "Write JSON"),
        ],
    },
    Subcommand {
        name: "svg",
        about: "Draw a glyph or a line of text as SVG",
        group: "what",
        one_of: &["text", "gid"],
        place: Place::Any,
        words: &[
            Word::Text("text", "TEXT", "Draw a line of text"),
            Word::Number("gid", "Draw the glyph with this number"),
            Word::Text(
                "missing",
                "draw",
                "With the word draw: draw characters that have no glyph as .notdef",
            ),
            Word::Text(
                "animate",
                "AXIS",
                "Animate a variable font along this axis and back, e.g. wght",
            ),
            Word::Out(false, "Write to this file (default: standard output)"),
        ],
    },
    Subcommand {
        name: "sheet",
        about: "Draw all glyphs, each in a cell with its number and name, as SVG",
        group: "",
        one_of: &[],
        place: Place::Any,
        words: &[
            Word::Given("from", "0", "Begin with this glyph"),
            Word::Given("count", "65535", "Write at most N glyphs"),
            Word::Out(false, "Write to this file (default: standard output)"),
        ],
    },
    Subcommand {
        name: "report",
        about: "Write an HTML report: the font, its glyphs and each operation of them",
        group: "",
        one_of: &[],
        place: Place::Any,
        words: &[
            Word::Given("from", "0", "Begin with this glyph"),
            Word::Given("count", "65535", "Write at most N glyphs"),
            Word::Out(
                true,
                "Write to this file; more than 10000 glyphs make more pages next to it",
            ),
        ],
    },
    Subcommand {
        name: "flat",
        about: "Write the font with charstrings that call no subroutines",
        group: "",
        one_of: &[],
        place: Place::Any,
        words: &[Word::Out(true, "Write to this file")],
    },
    Subcommand {
        name: "instance",
        about: "Write one instance of a variable font as a static font with a CFF table",
        group: "place",
        one_of: &["variations", "instance"],
        place: Place::One,
        words: &[
            Word::Flag("round", "Round every point to the nearest whole unit"),
            Word::Flag("quiet", "Do not report what is dropped"),
            Word::Out(true, "Write to this file"),
        ],
    },
    Subcommand {
        name: "subset",
        about: "Write a font with only some glyphs, their kerning, marks and ligatures",
        group: "kept",
        one_of: &["text", "gids", "glyphs", "unicodes"],
        place: Place::Any,
        words: &[
            Word::Text(
                "text",
                "TEXT",
                "Keep the glyphs for the characters of this text",
            ),
            Word::Text(
                "gids",
                "LIST",
                "Keep the glyphs with these numbers, e.g. 1,7-12, and their characters",
            ),
            Word::Text(
                "glyphs",
                "LIST",
                "Keep the glyphs with these names, e.g. A,a.sc, and their characters",
            ),
            Word::Text(
                "unicodes",
                "LIST",
                "Keep the glyphs for these characters, e.g. 41,U+42,61-7a",
            ),
            Word::Flag(
                "retain-gids",
                "Keep glyph numbers, with empty glyphs in between, and the layout tables with all glyphs that they substitute",
            ),
            Word::Text(
                "layout-features",
                "LIST",
                "With new glyph numbers: keep these layout features, e.g. liga,kern, or * for all (default: those of hb-subset)",
            ),
            Word::Flag(
                "drop-layout",
                "Drop the layout tables (kerning, marks, ligatures; with --retain-gids also vertical metrics)",
            ),
            Word::Flag(
                "exact",
                "Do not add characters that a shaper may use (see the manual)",
            ),
            Word::Flag(
                "keep-names",
                "Keep copyright, trademark and licence in the name table too",
            ),
            Word::Flag("quiet", "Do not report what is dropped or added"),
            Word::Out(true, "Write to this file"),
        ],
    },
];

/// Converts to an argument of clap.
fn arg<'a>(alloc: Global, word: &Word) -> Result<Arg<'a>, AllocError> {
    match *word {
        Word::Files(name, list, help) => several(alloc, name, list, help),
        other => Ok(single(alloc, &other)),
    }
}

/// Returns an argument with several values, which is required unless another one is there.
fn several<'a>(
    alloc: Global,
    name: &'a str,
    unless: &'a str,
    help: &'a str,
) -> Result<Arg<'a>, AllocError> {
    let arg = plain(alloc, name, help).num_args(1..);
    arg.required_unless_present(unless)
}

/// Converts an argument with at most one value.
fn single<'a>(alloc: Global, word: &Word) -> Arg<'a> {
    match *word {
        Word::File(name, help) => plain(alloc, name, help).required(true),
        Word::Files(name, _, help) => plain(alloc, name, help),
        Word::Flag(name, help) => long_option(alloc, name, help).action(ArgAction::SetTrue),
        Word::Text(name, value, help) => long_option(alloc, name, help).value_name(value),
        Word::Number(name, help) => number(alloc, name, help),
        Word::Given(name, value, help) => number(alloc, name, help).default_value(value),
        Word::Units(name, help) => long_option(alloc, name, help)
            .value_name("N")
            .value_parser(value_parser!(u64)),
        Word::Out(is_required, help) => plain(alloc, "out", help)
            .short('o')
            .value_name("OUT")
            .required(is_required),
    }
}

/// Returns an argument with a name and a help text.
fn plain<'a>(alloc: Global, name: &'a str, help: &'a str) -> Arg<'a> {
    Arg::new(alloc, name).help(help)
}

/// Returns an option with two hyphens.
fn long_option<'a>(alloc: Global, name: &'a str, help: &'a str) -> Arg<'a> {
    plain(alloc, name, help).long(name)
}

/// Returns an option with a number.
fn number<'a>(alloc: Global, name: &'a str, help: &'a str) -> Arg<'a> {
    long_option(alloc, name, help)
        .value_name("N")
        .value_parser(value_parser!(u16))
}

/// Adds a value to a list. Without memory the value is dropped.
fn put<T: Drop>(list: &mut Vec<T>, value: T) -> Result<(), AllocError> {
    match list.push(value) {
        Ok(()) => Ok(()),
        Err(_) => Err(AllocError),
    }
}

fn put_words<'a>(alloc: Global, args: &mut Vec<Arg<'a>>, words: &[Word]) -> Result<(), AllocError> {
    for word in words {
        put(args, arg(alloc, word)?)?;
    }
    Ok(())
}

/// Returns the arguments that select an instance.
fn words_of(place: Place) -> &'static [Word] {
    match place {
        Place::None => &[],
        Place::Any => PLACE,
        Place::One => ONE_PLACE,
    }
}

/// Returns the arguments that select files.
fn files_of(name: &str) -> &'static [Word] {
    match name {
        "inspect" => FILES,
        _ => FILE,
    }
}

/// Adds all arguments of a subcommand.
fn put_all<'a>(alloc: Global, args: &mut Vec<Arg<'a>>, one: &Subcommand) -> Result<(), AllocError> {
    put_words(alloc, args, files_of(one.name))?;
    put_words(alloc, args, FACE)?;
    put_words(alloc, args, words_of(one.place))?;
    put_words(alloc, args, one.words)
}

/// Returns a subcommand without its arguments, and with its group.
fn without_words<'a>(alloc: Global, one: &Subcommand) -> Result<Command<'a>, AllocError> {
    let command = Command::new(alloc, one.name).about(one.about);
    if one.one_of.is_empty() {
        return Ok(command);
    }
    let group = ArgGroup::new(alloc, one.group).required(true);
    command.group(group.args(one.one_of)?)
}

/// Returns whether the program's arguments name a subcommand.
fn is_named(words: &[String], name: &str) -> bool {
    words.iter().any(|word| word.as_str() == name)
}

/// Converts to a command of clap. It has its arguments only if the program's arguments name it.
fn command_of<'a>(
    alloc: Global,
    words: &[String],
    one: &Subcommand,
) -> Result<Command<'a>, AllocError> {
    if !is_named(words, one.name) {
        return Ok(Command::new(alloc, one.name).about(one.about));
    }
    let mut args = Vec::new(alloc);
    put_all(alloc, &mut args, one)?;
    without_words(alloc, one)?.args(args)
}

fn put_command<'a>(
    alloc: Global,
    commands: &mut Vec<Command<'a>>,
    words: &[String],
    one: &Subcommand,
) -> Result<(), AllocError> {
    let command = command_of(alloc, words, one)?;
    put(commands, command)
}

/// Returns all subcommands.
fn commands<'a>(alloc: Global, words: &[String]) -> Result<Vec<Command<'a>>, AllocError> {
    let mut commands = Vec::new(alloc);
    for one in SUBCOMMANDS {
        put_command(alloc, &mut commands, words, one)?;
    }
    put(&mut commands, Command::new(alloc, "proof").about(PROOF))?;
    Ok(commands)
}

/// Returns the program's command without its subcommands.
fn without_subcommands<'a>(alloc: Global) -> Command<'a> {
    Command::new(alloc, "psotf")
        .version("0.3.0")
        .about("Inspect, draw and write OpenType fonts with CFF or CFF2 outlines")
        .after_help(EXAMPLES)
        .subcommand_required(true)
        .arg_required_else_help(true)
}

/// Returns the program's command for these arguments. To save time, subcommands that they do not name have none of their
/// own arguments.
pub fn psotf<'a>(alloc: Global, words: &[String]) -> Result<Command<'a>, AllocError> {
    let commands = commands(alloc, words)?;
    without_subcommands(alloc).subcommands(commands)
}
