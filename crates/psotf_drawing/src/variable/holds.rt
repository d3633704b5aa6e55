//! The command `inspect` for variable fonts.
use super::VariableFace;
use postscript_text::decimal::put_bits;
use postscript_variation::{Axes, Axis};
use psotf_font::characters::count;
use psotf_font::face::family_and_style;
use psotf_font::layouts;
use psotf_output::failure::Failure;
use psotf_output::sheet::{Sheet, put_name};
use psotf_output::text::{Text, end_in};
use std::alloc::Global;
use std::io::Write;

/// Returns the counts of a font, with their keys.
fn counts(face: &VariableFace<'_>, characters: u64) -> [(&'static str, u64); 7] {
    let data = match &face.opened.font.store {
        Some(store) => store.len(),
        None => 0,
    };
    [
        ("units_per_em", u64::from(face.common.units)),
        ("glyphs", u64::from(face.common.glyphs)),
        ("characters", characters),
        ("char_strings", face.opened.font.char_strings.len() as u64),
        (
            "global_subroutines",
            face.opened.font.global_subroutines.len() as u64,
        ),
        (
            "font_dictionaries",
            face.opened.font.font_dictionaries.len() as u64,
        ),
        ("variation_data", data as u64),
    ]
}

/// Writes an axis as an object.
fn axis(sheet: &mut Sheet, face: &VariableFace<'_>, axis: &Axis) {
    sheet.begin_object();
    sheet.key("tag");
    sheet.bytes(&axis.tag.to_be_bytes());
    sheet.name("name", face.opened.name(axis.name));
    sheet.key("min");
    sheet.bits(i64::from(axis.minimum));
    sheet.key("default");
    sheet.bits(i64::from(axis.default));
    sheet.key("max");
    sheet.bits(i64::from(axis.maximum));
    sheet.flag("hidden", axis.flags % 2 == 1);
    sheet.end_object();
}

/// Writes an instance as an object, with its name and its coordinates.
fn instance(sheet: &mut Sheet, face: &VariableFace<'_>, axes: &Axes<'_>, i: usize) {
    let Some(instance) = axes.instance(i) else {
        return;
    };
    sheet.begin_object();
    sheet.name("name", face.opened.name(instance.name));
    sheet.begin_list("coordinates");
    for axis in 0..axes.len() {
        sheet.bits(i64::from(axes.coordinate(i, axis).unwrap_or(0)));
    }
    sheet.end_array();
    sheet.end_object();
}

fn axes(sheet: &mut Sheet, face: &VariableFace<'_>) {
    sheet.begin_list("axes");
    if let Some(axes) = &face.opened.axes {
        for i in 0..axes.len() {
            if let Some(found) = axes.get(i) {
                axis(sheet, face, &found);
            }
        }
    }
    sheet.end_array();
}

fn instances(sheet: &mut Sheet, face: &VariableFace<'_>) {
    sheet.begin_list("instances");
    if let Some(axes) = &face.opened.axes {
        for i in 0..axes.instances() {
            instance(sheet, face, axes, i);
        }
    }
    sheet.end_array();
}

/// Writes the font as a JSON object.
fn put(alloc: Global, sheet: &mut Sheet, face: &VariableFace<'_>) {
    sheet.begin_object();
    let (family, style) = family_and_style(&face.common.names);
    sheet.name("family", family);
    sheet.name("style", style);
    let characters = sheet.found(count(alloc, &face.common.map));
    for (key, count) in &counts(face, characters) {
        sheet.number(*key, *count);
    }
    layouts::put(alloc, sheet, &face.opened.file);
    axes(sheet, face);
    instances(sheet, face);
    sheet.end_object();
}

/// Prints the font as a JSON object.
fn object<W: Write>(alloc: Global, face: &VariableFace<'_>, out: &mut W) -> Result<(), Failure> {
    let mut sheet = Sheet::new(alloc);
    put(alloc, &mut sheet, face);
    sheet.end(out)
}

/// Adds a text and a value in 65536ths.
fn put_value(lines: &mut Text, words: &str, bits: i32) {
    lines.push_str(words);
    put_bits(lines, i64::from(bits));
}

/// Adds the line of an axis: its range and its default.
fn axis_line(alloc: Global, lines: &mut Text, face: &VariableFace<'_>, axis: &Axis) {
    lines.push_str("axis ");
    lines.put_made(String::from_utf8_lossy(alloc, &axis.tag.to_be_bytes()));
    lines.push_str(": ");
    put_name(lines, face.opened.name(axis.name));
    put_value(lines, ", ", axis.minimum);
    put_value(lines, " to ", axis.maximum);
    put_value(lines, ", default ", axis.default);
    lines.push_str(if axis.flags % 2 == 1 {
        ", hidden\n"
    } else {
        "\n"
    });
}

/// Adds the line of an instance.
fn instance_line(lines: &mut Text, face: &VariableFace<'_>, axes: &Axes<'_>, i: usize) {
    let Some(instance) = axes.instance(i) else {
        return;
    };
    lines.push_str("instance ");
    put_name(lines, face.opened.name(instance.name));
    lines.push(':');
    for axis in 0..axes.len() {
        put_value(lines, " ", axes.coordinate(i, axis).unwrap_or(0));
    }
    lines.push('\n');
}

/// Adds the lines of the names and the counts.
fn head_lines(alloc: Global, lines: &mut Text, face: &VariableFace<'_>) {
    let (family, style) = family_and_style(&face.common.names);
    lines.put_named("family", family);
    lines.put_named("style", style);
    lines.push_str("a variable font: its outlines are in a CFF2 table\n");
    let characters = lines.found(count(alloc, &face.common.map));
    for (key, count) in &counts(face, characters) {
        lines.put_count(key, *count);
    }
}

/// Adds a line for each axis.
fn axis_lines(alloc: Global, lines: &mut Text, face: &VariableFace<'_>, axes: &Axes<'_>) {
    for i in 0..axes.len() {
        if let Some(axis) = axes.get(i) {
            axis_line(alloc, lines, face, &axis);
        }
    }
}

/// Adds a line for each instance.
fn instance_lines(lines: &mut Text, face: &VariableFace<'_>, axes: &Axes<'_>) {
    for i in 0..axes.instances() {
        instance_line(lines, face, axes, i);
    }
}

/// Prints the font as lines.
fn lines<W: Write>(alloc: Global, face: &VariableFace<'_>, out: &mut W) -> Result<(), Failure> {
    let mut lines = Text::new(alloc);
    head_lines(alloc, &mut lines, face);
    layouts::put_lines(alloc, &mut lines, &face.opened.file);
    if let Some(axes) = &face.opened.axes {
        axis_lines(alloc, &mut lines, face, axes);
        instance_lines(&mut lines, face, axes);
    }
    end_in(&mut lines, out)
}

/// Prints the contents of a variable font.
pub fn write<W: Write>(
    alloc: Global,
    face: &VariableFace<'_>,
    as_json: bool,
    out: &mut W,
) -> Result<(), Failure> {
    if as_json {
        object(alloc, face, out)
    } else {
        lines(alloc, face, out)
    }
}
