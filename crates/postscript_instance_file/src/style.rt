//! The names of an instance (ISO/IEC 14496-22, and Adobe's Technical Note 5902).
use crate::face::VariableFace;
use crate::location::Location;
use crate::values::word;
use postscript_sfnt::Name;
use postscript_text::Text;
use postscript_text::decimal::put_bits;
use postscript_variation::{Axes, Axis};
use std::alloc::{AllocError, Global};

/// The most characters of a PostScript name.
const MOST: usize = 63;

/// The family and the style of an instance.
#[derive(Drop)]
pub(crate) struct Style {
    /// The typographic family.
    pub(crate) family: Text,
    /// The style without its slope: `Regular`, `Bold` or another one.
    pub(crate) weight: Text,
    pub(crate) is_italic: bool,
    pub(crate) postscript: Text,
}

/// Returns a style without its slope, and whether it is italic.
fn split(style: &str) -> (&str, bool) {
    let (weight, is_italic) = match style.strip_suffix("Italic") {
        Some(rest) => (rest.trim_end(), true),
        None => (style, false),
    };
    if weight.is_empty() {
        ("Regular", is_italic)
    } else {
        (weight, is_italic)
    }
}

/// Adds an ASCII letter or digit, or with `with_signs` also a hyphen, point or underscore. It adds nothing to a name of
/// the maximum length.
fn put_letter(name: &mut Text, char: char, with_signs: bool) {
    let is_sign = char == '-' || char == '.' || char == '_';
    let is_plain = char.is_ascii_alphanumeric() || (with_signs && is_sign);
    if is_plain && name.as_str().len() < MOST {
        name.push(char);
    }
}

/// Adds such characters of a text.
fn put_letters(name: &mut Text, text: &str, with_signs: bool) {
    for char in text.chars() {
        put_letter(name, char, with_signs);
    }
}

/// Adds such characters of a name of the font, if there is one.
fn put_told(name: &mut Text, told: Option<Name<'_>>, with_signs: bool) {
    if let Some(told) = told {
        for char in told.chars() {
            put_letter(name, char, with_signs);
        }
    }
}

/// Adds the prefix of PostScript names: the variations prefix (name 25), or the family.
fn put_prefix(name: &mut Text, face: &VariableFace<'_>, family: &str) {
    put_told(name, face.name(25), false);
    if name.is_empty() {
        put_letters(name, family, false);
    }
    if name.is_empty() {
        name.push_str("Font");
    }
}

/// Returns whether a location is that of an instance.
fn is_at(axes: &Axes<'_>, location: &Location, instance: usize) -> bool {
    for i in 0..axes.len() {
        if let Some(axis) = axes.get(i) {
            if axes.coordinate(instance, i) != Some(location.value(&axis)) {
                return false;
            }
        }
    }
    true
}

/// Returns the instance in the arguments, or the first one at the location.
fn instance_at(axes: &Axes<'_>, location: &Location) -> Option<usize> {
    if location.instance.is_some() {
        return location.instance;
    }
    for i in 0..axes.instances() {
        if is_at(axes, location, i) {
            return Some(i);
        }
    }
    None
}

/// Adds the value of an axis, such as 650wght.
fn put_value(text: &mut Text, axis: &Axis, value: i32) {
    put_bits(text, i64::from(value));
    for byte in axis.tag.to_be_bytes() {
        if byte.is_ascii_graphic() {
            text.push(byte as char);
        }
    }
}

/// Adds the values of the axes that differ from their defaults, separated by a character.
fn put_values(text: &mut Text, axes: &Axes<'_>, location: &Location, between: char) {
    let mut is_first = true;
    for i in 0..axes.len() {
        if let Some(axis) = axes.get(i) {
            let value = location.value(&axis);
            if value != axis.default {
                if !is_first {
                    text.push(between);
                }
                put_value(text, &axis, value);
                is_first = false;
            }
        }
    }
}

/// Returns the family of a font.
fn family_of(alloc: Global, face: &VariableFace<'_>) -> Text {
    let mut family = Text::new(alloc);
    if let Some(names) = &face.names {
        family.put_name(names.family());
    }
    family
}

/// Returns the style of a font.
fn own(alloc: Global, face: &VariableFace<'_>) -> Text {
    let mut own = Text::new(alloc);
    if let Some(names) = &face.names {
        own.put_name(names.style());
    }
    own
}

/// Returns whether a font is marked as italic.
fn is_italic(face: &VariableFace<'_>) -> bool {
    match face.file.table(*b"OS/2") {
        Some(table) => word(table, 62) & 1 == 1,
        None => false,
    }
}

impl Style {
    /// Takes the style from a name. Without a PostScript name, it makes one from the family and the style.
    fn call(&mut self, face: &VariableFace<'_>, name: &Text) {
        let (weight, is_italic) = split(name.as_str());
        self.weight.push_str(weight);
        self.is_italic = is_italic;
        if self.postscript.is_empty() {
            put_prefix(&mut self.postscript, face, self.family.as_str());
            self.postscript.push('-');
            put_letters(&mut self.postscript, name.as_str(), false);
        }
        if name.has_failed() {
            self.weight.fail();
        }
    }

    /// Takes the name and the PostScript name of an instance.
    fn call_instance(
        &mut self,
        alloc: Global,
        face: &VariableFace<'_>,
        axes: &Axes<'_>,
        instance: usize,
    ) {
        let (identifier, postscript) = match axes.instance(instance) {
            Some(instance) => (instance.name, instance.postscript_name),
            None => (0, None),
        };
        if let Some(postscript) = postscript {
            put_told(&mut self.postscript, face.name(postscript), true);
        }
        let mut name = Text::new(alloc);
        name.put_name(face.name(identifier));
        self.call(face, &name);
    }

    /// Takes names from the axis values, for a location without an instance.
    fn call_between(
        &mut self,
        alloc: Global,
        face: &VariableFace<'_>,
        axes: &Axes<'_>,
        location: &Location,
    ) {
        put_values(&mut self.weight, axes, location, ' ');
        if self.weight.is_empty() {
            return self.call(face, &own(alloc, face));
        }
        self.is_italic = is_italic(face);
        put_prefix(&mut self.postscript, face, self.family.as_str());
        self.postscript.push('_');
        let mut values = Text::new(alloc);
        put_values(&mut values, axes, location, '_');
        put_letters(&mut self.postscript, values.as_str(), true);
        if values.has_failed() {
            self.postscript.fail();
        }
    }

    /// Takes the names of a location. They are those of its instance, if there is one, or are made from the axis values
    /// that differ from their defaults, such as 650wght. If all have their defaults, they are those of the font.
    fn call_place(&mut self, alloc: Global, face: &VariableFace<'_>, location: &Location) {
        let Some(axes) = &face.axes else {
            return self.call(face, &own(alloc, face));
        };
        match instance_at(axes, location) {
            Some(instance) => self.call_instance(alloc, face, axes, instance),
            None => self.call_between(alloc, face, axes, location),
        }
    }

    /// Returns the style of a location.
    pub(crate) fn of(
        alloc: Global,
        face: &VariableFace<'_>,
        location: &Location,
    ) -> Result<Style, AllocError> {
        let mut style = Style {
            family: family_of(alloc, face),
            weight: Text::new(alloc),
            is_italic: false,
            postscript: Text::new(alloc),
        };
        style.call_place(alloc, face, location);
        if style.has_failed() {
            Err(AllocError)
        } else {
            Ok(style)
        }
    }

    fn has_failed(&self) -> bool {
        self.family.has_failed() || self.weight.has_failed() || self.postscript.has_failed()
    }

    /// Returns whether the style is one of the four that a family links: regular, bold, italic and bold italic.
    pub(crate) fn is_linked(&self) -> bool {
        self.weight.as_str() == "Regular" || self.is_bold()
    }

    /// Returns whether the style is bold.
    fn is_bold(&self) -> bool {
        self.weight.as_str() == "Bold"
    }

    /// Returns the name among the four styles that a family links.
    pub(crate) fn linked_name(&self) -> &'static str {
        match (self.is_bold(), self.is_italic) {
            (true, true) => "Bold Italic",
            (true, false) => "Bold",
            (false, true) => "Italic",
            (false, false) => "Regular",
        }
    }

    /// Returns the whole style name, such as `Light Italic`.
    pub(crate) fn full(&self, alloc: Global) -> Result<String, AllocError> {
        if self.is_linked() {
            return String::from_str(alloc, self.linked_name());
        }
        let mut text = String::from_str(alloc, self.weight.as_str())?;
        if self.is_italic {
            text.push_str(" Italic")?;
        }
        Ok(text)
    }

    /// Returns the bits for a style that is bold, for one that is italic, and for one that is neither.
    pub(crate) fn bits(&self, bold: u16, italic: u16, neither: u16) -> u16 {
        let of_bold = if self.is_bold() { bold } else { 0 };
        let of_italic = if self.is_italic { italic } else { 0 };
        if self.is_bold() || self.is_italic {
            of_bold | of_italic
        } else {
            neither
        }
    }
}
