//! The tables of a font that a new file does not have.
use postscript_sfnt::FontFile;
use psotf_output::failure::Failure;
use psotf_output::telling;
use psotf_output::text::Text;
use std::alloc::{AllocError, Global};

/// Adds a space and a tag. Bytes that are not printable ASCII are replaced by `?`.
fn put_tag(text: &mut Text, tag: &[u8; 4]) {
    text.push(' ');
    for byte in tag {
        text.push(if byte.is_ascii_graphic() || *byte == b' ' {
            *byte as char
        } else {
            '?'
        });
    }
}

/// Returns the tags of the dropped tables, with a space before each, except some tags.
pub fn tags(
    alloc: Global,
    old: &FontFile<'_>,
    new: &FontFile<'_>,
    except: &[[u8; 4]],
) -> Result<String, AllocError> {
    let mut text = Text::new(alloc);
    for i in 0..old.tables() {
        let tag = old.tag(i).unwrap_or(0).to_be_bytes();
        if new.table(tag).is_none() && !except.contains(&tag) {
            put_tag(&mut text, &tag);
        }
    }
    text.end()
}

/// Returns whether a font has kerning.
fn has_kerning(file: &FontFile<'_>) -> bool {
    file.table(*b"GPOS").is_some() || file.table(*b"kern").is_some()
}

/// Returns the end of the message: the features that are lost.
fn lost(old: &FontFile<'_>, new: &FontFile<'_>) -> &'static str {
    let kerning = has_kerning(old) && !has_kerning(new);
    let ligatures = old.table(*b"GSUB").is_some() && new.table(*b"GSUB").is_none();
    match (kerning, ligatures) {
        (true, true) => "; kerning and ligatures are lost",
        (true, false) => "; kerning is lost",
        (false, true) => "; ligatures are lost",
        (false, false) => "",
    }
}

/// Reports on standard error, in one line, the tables and the features of a font that its subset does not have.
pub fn tell(rt: &HostRuntime, old: &FontFile<'_>, subset: &[u8]) -> Result<(), Failure> {
    let new = FontFile::read(subset, 0)?;
    let tags = tags(rt.alloc(), old, &new, &[])?;
    if tags.is_empty() {
        return Ok(());
    }
    telling::tell(rt, format_args!("tables dropped:{tags}{}", lost(old, &new)))
}
