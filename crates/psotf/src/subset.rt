//! The command `subset`: fonts with only some glyphs.
use crate::choice::Choice;
use crate::features::Features;
use crate::{dropped, layout};
use clap::ArgMatches;
use postscript_files::Given;
use postscript_sfnt::FontFile;
use postscript_subset::Subset;
use postscript_text::names::trimmed;
use psotf_font::along::Kept;
use psotf_font::face::Face;
use psotf_font::leaving;
use psotf_output::failure::Failure;
use psotf_output::limit::{Budget, flat_room};
use psotf_output::text::Text;
use psotf_output::{saving, telling};
use std::alloc::{AllocError, Global};
use std::io::Write;

/// How often a glyph is run: it is searched twice for components and written, its bytes are copied, and it is run once more if
/// components are reported.
pub const RUNS: u64 = 5;

/// The tables that are copied into each subset.
const SAME: [[u8; 4]; 2] = [*b"OS/2", *b"head"];

/// The further tables that are copied if glyphs keep their numbers. They name glyphs by number, or have values for all
/// glyphs.
const NUMBERED: [[u8; 4]; 5] = [*b"BASE", *b"VORG", *b"kern", *b"vhea", *b"vmtx"];

/// Returns whether the subset has layout tables.
fn keeps_layout(words: &ArgMatches<'_>) -> bool {
    !words.get_flag("drop-layout")
}

/// Adds tags as numbers.
fn put_tags(numbers: &mut Vec<u32>, tags: &[[u8; 4]]) -> Result<(), AllocError> {
    for tag in tags {
        numbers.push(u32::from_be_bytes(*tag))?;
    }
    Ok(())
}

/// Returns the tags of the tables that are copied, apart from `GDEF`, `GPOS` and `GSUB`.
fn copied_tags(alloc: Global, words: &ArgMatches<'_>) -> Result<Vec<u32>, AllocError> {
    let mut tags = Vec::new(alloc);
    put_tags(&mut tags, &SAME)?;
    if words.get_flag("retain-gids") && keeps_layout(words) {
        put_tags(&mut tags, &NUMBERED)?;
    }
    Ok(tags)
}

/// Returns the trimmed `name` table, or a copy if it has another format.
fn names_of(alloc: Global, table: &[u8], licence: bool) -> Result<Vec<u8>, AllocError> {
    match trimmed(alloc, table, licence)? {
        Some(names) => Ok(names),
        None => Vec::from_slice(alloc, table),
    }
}

/// Returns the `name` table, if the font has it.
fn given_tables(alloc: Global, face: &Face<'_>, licence: bool) -> Result<Vec<Given>, AllocError> {
    let mut given = Vec::new(alloc);
    if let Some(table) = face.source.file.table(*b"name") {
        let bytes = names_of(alloc, table, licence)?;
        let tag = u32::from_be_bytes(*b"name");
        given.push(Given { tag, bytes })?;
    }
    Ok(given)
}

/// Returns the choice as the library takes it.
fn library_choice<'t>(
    choice: &'t Choice,
    words: &ArgMatches<'_>,
    copied: &'t [u32],
    given: &'t [Given],
    limit: u64,
) -> postscript_files::Choice<'t> {
    postscript_files::Choice {
        chars: &choice.chars,
        glyphs: &choice.glyphs,
        unmapped: &choice.varied,
        lenient: true,
        retain_gids: words.get_flag("retain-gids"),
        copied,
        given,
        limit: Some(limit),
    }
}

/// Returns the number of glyphs in the `maxp` table of a file.
fn glyphs_in(file: &[u8]) -> usize {
    let Ok(file) = FontFile::read(file, 0) else {
        return 0;
    };
    match file.table(*b"maxp") {
        Some([_, _, _, _, high, low, ..]) => usize::from(u16::from_be_bytes([*high, *low])),
        _ => 0,
    }
}

/// The limit of a glyph when components are searched to report them.
const SEARCH: u64 = 1_000_000;

/// Reports the components that were added, as far as a search within a limit finds them.
fn tell_components(rt: &HostRuntime, face: &Face<'_>, named: &[usize]) -> Result<(), Failure> {
    let mut budget = Budget::new(SEARCH, 1);
    budget.room = u64::MAX;
    let mut kept = Kept::new(rt.alloc());
    let _ = kept.ask(rt.alloc(), &face.font, named, &mut budget);
    kept.tell(rt)
}

/// Reports the added components, the lost parts of layout tables and the dropped tables.
fn tell(
    rt: &HostRuntime,
    face: &Face<'_>,
    words: &ArgMatches<'_>,
    named: &[usize],
    subset: &Subset,
) -> Result<(), Failure> {
    let glyphs = glyphs_in(&subset.file);
    let retained = words.get_flag("retain-gids");
    if retained || glyphs > named.len() {
        tell_components(rt, face, named)?;
    }
    layout::tell(rt, subset)?;
    if !retained {
        dropped::tell(rt, &face.source.file, subset, glyphs)?;
    }
    leaving::tell(rt, &face.source.file, &subset.file)
}

/// Reports the number of glyphs that are added to `chosen` ones, except with `--quiet`.
fn tell_added(
    rt: &HostRuntime,
    words: &ArgMatches<'_>,
    named: usize,
    chosen: usize,
) -> Result<(), Failure> {
    let added = named.saturating_sub(chosen);
    if added == 0 || words.get_flag("quiet") {
        return Ok(());
    }
    telling::tell(rt, format_args!("glyphs added for shaping: {added}"))
}

/// The most characters that a message lists.
const LISTED: usize = 12;

/// Returns characters as a text, with a space before each.
fn chars_of(alloc: Global, chars: &[u32]) -> Result<String, AllocError> {
    let mut text = Text::new(alloc);
    for char in chars.iter().take(LISTED) {
        text.push(' ');
        text.put_character(*char);
    }
    if chars.len() > LISTED {
        text.push_str(" ..");
    }
    text.end()
}

/// Reports the characters that an exact subset does not have, although a shaper may use them.
fn tell_exact(rt: &HostRuntime, face: &Face<'_>, choice: &Choice) -> Result<(), Failure> {
    let left = choice.not_shaped(rt.alloc(), face)?;
    if left.is_empty() {
        return Ok(());
    }
    let list = chars_of(rt.alloc(), &left)?;
    telling::tell(
        rt,
        format_args!(
            "text may look different, since --exact leaves out characters that a shaper may use:{list}"
        ),
    )
}

/// Adds the characters that a shaper may use in addition, if the subset has layout tables. With `--exact` it only reports
/// them, except with `--quiet`.
fn put_shaped(
    rt: &HostRuntime,
    face: &Face<'_>,
    words: &ArgMatches<'_>,
    choice: &mut Choice,
) -> Result<(), Failure> {
    if !keeps_layout(words) {
        return Ok(());
    }
    if !words.get_flag("exact") {
        return Ok(choice.put_shaped(rt.alloc(), face)?);
    }
    if !words.get_flag("quiet") {
        tell_exact(rt, face, choice)?;
    }
    Ok(())
}

/// Adds the glyphs of variation sequences of the characters.
fn put_sequences(
    alloc: Global,
    face: &Face<'_>,
    words: &ArgMatches<'_>,
    choice: &mut Choice,
) -> Result<(), Failure> {
    let asked = library_choice(choice, words, &[], &[], 0);
    choice.varied = layout::sequence_glyphs(alloc, face, &asked)?;
    Ok(())
}

/// Adds the glyphs of variation sequences of the characters, and all that substitutions can make of these and of the chosen
/// ones.
fn put_layout(
    alloc: Global,
    face: &Face<'_>,
    words: &ArgMatches<'_>,
    features: &Features,
    choice: &mut Choice,
    budget: &mut Budget,
) -> Result<(), Failure> {
    let asked = library_choice(choice, words, &[], &[], budget.limit);
    choice.added = layout::closed_glyphs(alloc, face, &asked, features, budget)?;
    Ok(())
}

/// Returns the limit of the runs of all kept glyphs, and spends it: at most half of the budget.
fn limit_of(face: &Face<'_>, budget: &mut Budget) -> u64 {
    budget.room = flat_room(budget.limit, face.cff.len() as u64);
    let limit = budget.room.min(budget.left / budget.weight / 2);
    budget.spend_whole(limit);
    limit
}

/// Returns the subset of the chosen characters and glyphs.
fn subset_of(
    alloc: Global,
    face: &Face<'_>,
    words: &ArgMatches<'_>,
    features: &Features,
    choice: &Choice,
    budget: &mut Budget,
) -> Result<Subset, Failure> {
    let copied = copied_tags(alloc, words)?;
    let given = given_tables(alloc, face, words.get_flag("keep-names"))?;
    let limit = limit_of(face, budget);
    let asked = library_choice(choice, words, &copied, &given, limit);
    if keeps_layout(words) {
        layout::write_subset(alloc, face, &asked, features, budget)
    } else {
        layout::plain(alloc, face, &asked)
    }
}

/// Writes the file of the chosen glyphs and their components. It fails if all of these together, or the search for
/// substitutions, cost more than the limit. Without `--quiet` it reports added glyphs and dropped tables.
pub fn write<W: Write>(
    rt: &HostRuntime,
    face: &Face<'_>,
    words: &ArgMatches<'_>,
    budget: &mut Budget,
    out: &mut W,
) -> Result<(), Failure> {
    let mut choice = Choice::read(rt.alloc(), face, words)?;
    let features = Features::read(rt.alloc(), words)?;
    let chosen = choice.all_glyphs(rt.alloc(), face)?.len();
    put_shaped(rt, face, words, &mut choice)?;
    if keeps_layout(words) {
        put_layout(rt.alloc(), face, words, &features, &mut choice, budget)?;
    } else {
        put_sequences(rt.alloc(), face, words, &mut choice)?;
    }
    let named = choice.all_glyphs(rt.alloc(), face)?;
    tell_added(rt, words, named.len(), chosen)?;
    let subset = subset_of(rt.alloc(), face, words, &features, &choice, budget)?;
    if !words.get_flag("quiet") {
        tell(rt, face, words, &named, &subset)?;
    }
    saving::put(rt, words.get_str("out"), &subset.file, out)
}
