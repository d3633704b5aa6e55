//! The results of `psfont` by the words after its name.
use crate::checks::holds;
use psfont_session::start;
use std::alloc::{AllocGlobal, Global};
use std::fs;
use std::fs::Files;
use std::io::BufWriter;
use std::process::Abort;

const USAGE: &str = "usage: psfont [font PATH | lenient PATH]\n";

/// A font of the name A with one glyph. After the header and the names come the Top DICT (`CharStrings` at 24, `Private`
/// of 2 bytes at 30), no strings and no global subroutines. Then come the charstrings and the Private DICT (`Subrs` 2
/// after it). There are no local subroutines.
const FONT: &[u8] = &[
    1, 0, 4, 1, 0, 1, 1, 1, 2, 0x41, 0, 1, 1, 1, 6, 0xa3, 0x11, 0x8d, 0xa9, 0x12, 0, 0, 0, 0, 0, 1,
    1, 1, 2, 0x0e, 0x8d, 0x13, 0, 0,
];

/// The same, but its Private DICT names no local subroutines.
const NO_LOCALS: &[u8] = &[
    1, 0, 4, 1, 0, 1, 1, 1, 2, 0x41, 0, 1, 1, 1, 6, 0xa3, 0x11, 0x8d, 0xa9, 0x12, 0, 0, 0, 0, 0, 1,
    1, 1, 2, 0x0e, 0x8d, 0x14, 0, 0,
];

/// The output for the first, and for the second if it is read leniently.
const ONE_GLYPH: &str =
    "header 1 0 4 1\nnames 1\nname A\nstrings 0\nglobals 0\ndictionaries 1\nfont Standard ISOAdobe glyphs 1 locals 0\nend\n";

/// A font with no names and no dictionaries.
const NO_NAMES: &[u8] = &[0, 0, 0, 0, 0, 0, 0, 0];

/// The output for it.
const NOTHING: &str = "header 0 0 0 0\nnames 0\nstrings 0\nglobals 0\ndictionaries 0\nend\n";

/// Names with offsets of 5 bytes.
const LONG_OFFSETS: &[u8] = &[1, 0, 4, 1, 0, 1, 0, 5];

/// The input of a start: its words, the bytes of the file font.cff, and the standard input.
type Given = (&'static [&'static str], &'static [u8], &'static [u8]);

/// The outcome: the status, the output, and the error output.
type Outcome = (u8, &'static str, &'static str);

#[rattlefmt::skip]
const STARTS: &[(&str, Given, Outcome)] = &[
    ("no words, no input", (&[], b"", b""), (0, "", "")),
    ("no words", (&[], b"", b"code\nfont"), (0, "ok\nfault 1\n", "")),
    ("no code", (&[], b"", b"run\nflat\ncode \nrun"), (0, "end\nwidth none\nflat\nok\nend\nwidth none\n", "")),
    ("no line end", (&[], b"", b"\n\r\n\ncode 8C06\n\nrun"), (0, "ok\nHLineTo 1\nend\nwidth none\n", "")),
    ("a return", (&[], b"", b"run\r"), (0, "bad command\n", "")),
    ("returns", (&[], b"", b"run\r\r\n\r\r\n\r"), (0, "bad command\nbad command\nbad command\n", "")),
    ("font missing", (&["font", "missing"], b"", b"run"), (1, "", "psfont: fault 2\n")),
    ("lenient missing", (&["lenient", "missing"], b"", b"run"), (1, "", "psfont: fault 2\n")),
    ("font", (&["font"], b"", b"run"), (2, "", USAGE)),
    ("lenient", (&["lenient"], b"", b"run"), (2, "", USAGE)),
    ("run x", (&["run", "x"], b"", b"run"), (2, "", USAGE)),
    ("run", (&["run"], b"", b"run"), (2, "", USAGE)),
    ("font x y", (&["font", "x", "y"], b"", b"run"), (2, "", USAGE)),
    ("lenient x y", (&["lenient", "x", "y"], b"", b"run"), (2, "", USAGE)),
    ("one glyph", (&["font", "font.cff"], FONT, b"run"), (0, ONE_GLYPH, "")),
    ("no names", (&["font", "font.cff"], NO_NAMES, b"run"), (0, NOTHING, "")),
    ("cut short", (&["font", "font.cff"], &[0, 0, 0, 0, 0, 0, 0], b"run"), (1, "", "psfont: fault 1\n")),
    ("no bytes", (&["font", "font.cff"], b"", b"run"), (1, "", "psfont: fault 1\n")),
    ("long offsets", (&["font", "font.cff"], LONG_OFFSETS, b"run"), (1, "", "psfont: fault 5\n")),
    ("long offsets, lenient", (&["lenient", "font.cff"], LONG_OFFSETS, b"run"), (1, "", "psfont: fault 5\n")),
    ("no locals", (&["font", "font.cff"], NO_LOCALS, b"run"), (1, "", "psfont: fault 14\n")),
    ("no locals, lenient", (&["lenient", "font.cff"], NO_LOCALS, b"run"), (0, ONE_GLYPH, "")),
];

/// Words as texts.
fn texts<R: Abort>(rt: &R, alloc: Global, words: &[&str]) -> Vec<String> {
    let mut texts = Vec::new(alloc);
    for word in words {
        let text = String::from_str(alloc, word).expect(rt, "memory");
        texts.push(text).expect(rt, "memory");
    }
    texts
}

/// Whether the start with this input has this outcome. Output that is not flushed does not count as printed.
fn comes_to<R: Files + AllocGlobal + Abort>(rt: &R, given: &Given, outcome: &Outcome) -> bool {
    let alloc = rt.alloc();
    let words = texts(rt, alloc, given.0);
    let mut reader = given.2;
    let writer = BufWriter::new(alloc, Vec::new(alloc));
    let mut writer = writer.expect(rt, "memory");
    let mut errors = Vec::new(alloc);
    let status = start(rt, words.as_slice(), &mut reader, &mut writer, &mut errors);
    status == outcome.0
        && writer.get_ref().as_slice() == outcome.1.as_bytes()
        && errors.as_slice() == outcome.2.as_bytes()
}

#[test]
fn starts_by_its_words(rt: HostRuntime) {
    for (what, given, outcome) in STARTS {
        fs::write(&rt, "font.cff", given.1).expect(&rt, "a file");
        holds(&rt, comes_to(&rt, given, outcome), what);
    }
    fs::remove_file(&rt, "font.cff").expect(&rt, "a file");
}
