//! The command `inspect`.
use crate::characters::count;
use crate::dictionaries::{self, Kind};
use crate::face::{Face, family_and_style};
use crate::hints::{Runs, run_all};
use crate::{layouts, readings};
use postscript_base::compact1::Operator;
use postscript_sfnt::Name;
use postscript_view::Identifiers;
use psotf_output::failure::Failure;
use psotf_output::limit::Budget;
use psotf_output::sheet::Sheet;
use psotf_output::stopped::Stopped;
use psotf_output::text::{Text, end_in};
use std::alloc::Global;
use std::io::Write;

/// Returns the version string (name 5).
fn version<'l>(face: &Face<'l>) -> Option<Name<'l>> {
    match &face.names {
        Some(names) => names.get(5),
        None => None,
    }
}

/// Returns the name of a predefined encoding, or `custom`.
fn encoding(face: &Face<'_>) -> &'static str {
    match face.font.dictionary.get_single(Operator::Encoding) {
        Some(offset) => match offset.to_i32() {
            Some(0) => "Standard",
            Some(1) => "Expert",
            _ => "custom",
        },
        None => "Standard",
    }
}

/// Returns the name of a predefined charset, or `custom`. Returns `None` if the charset is invalid.
fn char_set(face: &Face<'_>) -> Option<&'static str> {
    match &face.set {
        Some(set) => Some(name_of(&set.identifiers)),
        None => None,
    }
}

/// Returns the name of a predefined charset, or `custom`.
fn name_of(identifiers: &Identifiers<'_>) -> &'static str {
    match identifiers {
        Identifiers::ISOAdobe => "ISOAdobe",
        Identifiers::Expert => "Expert",
        Identifiers::ExpertSubset => "ExpertSubset",
        _ => "custom",
    }
}

/// Returns the kind of the Top DICT.
fn top(face: &Face<'_>) -> Kind {
    if face.font.is_cid_keyed() {
        Kind::CidTop
    } else {
        Kind::Top
    }
}

/// Writes the Private DICTs, and the number of local subroutines of each.
fn parts(sheet: &mut Sheet, face: &Face<'_>) {
    sheet.begin_list("local_subroutines");
    for part in &face.font.parts {
        sheet.u64(part.subroutines.len() as u64);
    }
    sheet.end_array();
    if face.font.is_cid_keyed() {
        privates(sheet, face);
    } else if let Some(part) = face.font.parts.get(0) {
        sheet.key("private");
        dictionaries::write(sheet, &face.font, &part.dictionary, Kind::Private);
    }
}

/// Writes the Private DICTs as a list.
fn privates(sheet: &mut Sheet, face: &Face<'_>) {
    sheet.begin_list("privates");
    for part in &face.font.parts {
        dictionaries::write(sheet, &face.font, &part.dictionary, Kind::Private);
    }
    sheet.end_array();
}

/// Returns the number of Font DICTs of a CID-keyed font, and 0 for any other font.
fn dictionary_count(face: &Face<'_>) -> u64 {
    if face.font.is_cid_keyed() {
        face.font.parts.len() as u64
    } else {
        0
    }
}

/// Writes the counts of the `CFF ` table.
fn counts(sheet: &mut Sheet, face: &Face<'_>, runs: &Runs) {
    sheet.number("fds", dictionary_count(face));
    sheet.number("glyphs", face.font.char_strings.len() as u64);
    sheet.number("hinted", runs.hinted);
    sheet.number("costliest", u64::from(runs.costliest));
    sheet.number("cost", runs.cost);
    sheet.number("strings", face.font.strings.len() as u64);
    let globals = face.font.global_subroutines.len();
    sheet.number("global_subroutines", globals as u64);
}

/// Writes the font name, the encoding and the charset.
fn keys(sheet: &mut Sheet, face: &Face<'_>) {
    sheet.key("name");
    sheet.bytes_or_null(face.font.names.get(0));
    sheet.flag("is_cid", face.font.is_cid_keyed());
    sheet.text("encoding", encoding(face));
    sheet.key("char_set");
    match char_set(face) {
        Some(name) => sheet.string(name),
        None => sheet.null(),
    }
}

/// Writes the contents of the `CFF ` table.
fn font(alloc: Global, sheet: &mut Sheet, face: &Face<'_>, runs: &Runs) {
    sheet.begin_member("cff");
    keys(sheet, face);
    counts(sheet, face, runs);
    sheet.key("top");
    dictionaries::write(sheet, &face.font, &face.font.dictionary, top(face));
    parts(sheet, face);
    readings::put(alloc, sheet, face.cff);
    sheet.end_object();
}

/// Writes names and counts of the font.
fn head(alloc: Global, sheet: &mut Sheet, face: &Face<'_>) {
    let (family, style) = family_and_style(&face.names);
    sheet.name("family", family);
    sheet.name("style", style);
    sheet.name("version", version(face));
    sheet.number("faces", face.faces as u64);
    sheet.number("units_per_em", u64::from(face.units));
    sheet.number("glyphs", u64::from(face.glyphs));
    let characters = sheet.found(count(alloc, &face.map));
    sheet.number("characters", characters);
}

/// Writes the font as a JSON object.
pub fn put(alloc: Global, sheet: &mut Sheet, face: &Face<'_>, runs: &Runs) {
    sheet.begin_object();
    head(alloc, sheet, face);
    layouts::put(alloc, sheet, &face.source.file);
    font(alloc, sheet, face, runs);
    sheet.end_object();
}

/// Prints the font as a JSON object.
fn object<W: Write>(
    alloc: Global,
    face: &Face<'_>,
    runs: &Runs,
    out: &mut W,
) -> Result<(), Failure> {
    let mut sheet = Sheet::new(alloc);
    put(alloc, &mut sheet, face, runs);
    sheet.end(out)
}

/// Adds the lines of the names.
fn name_lines(alloc: Global, lines: &mut Text, face: &Face<'_>) {
    let (family, style) = family_and_style(&face.names);
    lines.put_named("family", family);
    lines.put_named("style", style);
    lines.put_named("version", version(face));
    lines.push_str("name: ");
    lines.put_made(String::from_utf8_lossy(alloc, face.font.names.get(0).unwrap_or(&[])));
    lines.push('\n');
}

/// Adds the lines of the counts.
fn count_lines(lines: &mut Text, face: &Face<'_>, runs: &Runs, characters: u64) {
    lines.put_count("faces", face.faces as u64);
    lines.put_count("units per em", u64::from(face.units));
    lines.put_count("glyphs", u64::from(face.glyphs));
    lines.put_count("glyphs with hints", runs.hinted);
    lines.put_count("most expensive glyph", u64::from(runs.costliest));
    lines.put_count("its cost in units", runs.cost);
    lines.put_count("characters", characters);
}

/// Adds the lines of the `CFF ` table that occur once.
fn font_lines(alloc: Global, lines: &mut Text, face: &Face<'_>) {
    if face.font.is_cid_keyed() {
        let fds = face.font.parts.len();
        lines.put_count("CID-keyed, Font DICTs", fds as u64);
    }
    lines.put_word("encoding", encoding(face));
    lines.put_word("charset", char_set(face).unwrap_or("invalid"));
    let globals = face.font.global_subroutines.len();
    lines.put_count("global subroutines", globals as u64);
    let (font, kind) = (&face.font, top(face));
    dictionaries::list(alloc, lines, font, "top", &font.dictionary, kind);
}

/// Adds the lines of each Private DICT and its subroutines.
fn part_lines(alloc: Global, lines: &mut Text, face: &Face<'_>) {
    for part in &face.font.parts {
        lines.put_count("local subroutines", part.subroutines.len() as u64);
        dictionaries::list(
            alloc,
            lines,
            &face.font,
            "private",
            &part.dictionary,
            Kind::Private,
        );
    }
}

/// Prints the font as lines.
fn lines<W: Write>(
    alloc: Global,
    face: &Face<'_>,
    runs: &Runs,
    out: &mut W,
) -> Result<(), Failure> {
    let mut lines = Text::new(alloc);
    name_lines(alloc, &mut lines, face);
    let characters = lines.found(count(alloc, &face.map));
    count_lines(&mut lines, face, runs, characters);
    layouts::put_lines(alloc, &mut lines, &face.source.file);
    font_lines(alloc, &mut lines, face);
    part_lines(alloc, &mut lines, face);
    readings::put_lines(alloc, &mut lines, face.cff);
    end_in(&mut lines, out)
}

/// Prints the contents of a font. Afterwards it fails if glyphs cost more than the limit, with the number of these
/// glyphs.
pub fn write<W: Write>(
    rt: &HostRuntime,
    face: &Face<'_>,
    as_json: bool,
    budget: &mut Budget,
    out: &mut W,
) -> Result<(), Failure> {
    let mut stopped = Stopped::new(rt);
    let runs = run_all(rt, face, budget, &mut stopped)?;
    if as_json {
        object(rt.alloc(), face, &runs, out)?;
    } else {
        lines(rt.alloc(), face, &runs, out)?;
    }
    stopped.end()
}
