//! The `name` table of an instance (ISO/IEC 14496-22).
ghost use Rattle.std.specs.Prelude.{◌≡◌, ◌⊎◌, ◌++◌, ◌∷◌, [], List, IfErr, IfOk, IsTrue, OnOk, ◌↔◌, map, min};
ghost use Rattle.std.specs.List.{Contains};
ghost use Rattle.postscript_instance_file.specs.Faces.{IsTableOrNone, name_tag};
ghost use Rattle.postscript_instance_file.specs.Names.{AreKept, AreNew, HasLongNames, IsInEnglish, IsKept, NamesAxis, NamesInstance};
ghost use Rattle.postscript_instance_file.specs.declared.made.Unmade.TheVariants as reasons;
ghost use Rattle.postscript_instance_file.specs.declared.records.Text.{Text as TheText};
ghost use Rattle.postscript_text.specs.NameTables.{HaveNoSpace, Holds, word_at};
ghost use Rattle.postscript_text.specs.declared.names.Record.{Record as TheRecord};

use crate::face::VariableFace;
use crate::made::Unmade;
use crate::style::Style;
use postscript_base::index::number::number_within;
use postscript_text::names::{MOST, NameTable, Record, record_at};
use postscript_text::text_of;
use postscript_variation::Axes;
use std::alloc::{AllocError, Global};

/// The IDs of names that are written or become invalid. They are the family, the style, the unique name, the full name
/// and the PostScript name. They are also the typographic family and style, the names for Macintosh and CIDs, the WWS
/// names, and the variations prefix.
const ANEW: [usize; 12] = [1, 2, 3, 4, 6, 16, 17, 18, 20, 21, 22, 25];

/// The first ID of a name that is specific to the font.
const OWN: usize = 256;

/// A text to write, in UTF-16, and its ID.
#[derive(Drop)]
struct Text {
    identifier: usize,
    bytes: Vec<u8>,
}

/// Returns whether an axis has the name with an ID.
fn names_axis(axes: &Axes<'_>, identifier: usize) -> bool
    ensures { IsTrue result ↔ NamesAxis axes.now identifier }
{
    for i in 0..axes.len() {
        if let Some(axis) = axes.get(i) {
            if usize::from(axis.name) == identifier {
                return true;
            }
        }
    }
    false
}

/// Returns whether an instance has the name with an ID.
fn names_instance(axes: &Axes<'_>, identifier: usize) -> bool
    ensures { IsTrue result ↔ NamesInstance axes.now identifier }
{
    for i in 0..axes.instances() {
        if let Some(instance) = axes.instance(i) {
            let postscript = usize::from(instance.postscript_name.unwrap_or(0));
            if usize::from(instance.name) == identifier || postscript == identifier {
                return true;
            }
        }
    }
    false
}

/// Returns whether a record is kept. Records with names that are written, with names of axes or instances, or with a
/// language tag are dropped.
fn stays(face: &VariableFace<'_>, entry: &Record<'_>) -> bool
    ensures { IsTrue result ↔ IsKept face.now.axes entry.now }
{
    if entry.language >= 0x8000 || ANEW.contains(&entry.identifier) {
        return false;
    }
    let identifier = entry.identifier;
    match &face.axes {
        Some(axes) if identifier >= OWN => {
            !names_axis(axes, identifier) && !names_instance(axes, identifier)
        }
        _ => true,
    }
}

/// Returns the version number in the `name` table.
fn version(alloc: Global, face: &VariableFace<'_>) -> Result<String, AllocError> {
    let text = text_of(alloc, face.name(5))?;
    let number = text
        .as_str()
        .strip_prefix("Version ")
        .unwrap_or(text.as_str());
    String::from_str(alloc, number)
}

/// The name IDs of a style that a family links.
const LINKED: [usize; 5] = [1, 2, 3, 4, 6];

const NOT_LINKED: [usize; 7] = [1, 2, 3, 4, 6, 16, 17];

/// Returns the family name of a style in a family of four linked styles.
fn linked_family(alloc: Global, style: &Style) -> Result<String, AllocError> {
    let family = style.family.as_str();
    let weight = style.weight.as_str();
    if style.is_linked() {
        String::from_str(alloc, family)
    } else {
        format!(in alloc; "{family} {weight}")
    }
}

fn unique(alloc: Global, face: &VariableFace<'_>, style: &Style) -> Result<String, AllocError> {
    let postscript = style.postscript.as_str();
    let version = version(alloc, face)?;
    format!(in alloc; "{version};{postscript}")
}

fn full(alloc: Global, style: &Style) -> Result<String, AllocError> {
    let family = style.family.as_str();
    let full = style.full(alloc)?;
    format!(in alloc; "{family} {full}")
}

/// Returns the text of a name ID.
fn text_by(
    alloc: Global,
    face: &VariableFace<'_>,
    style: &Style,
    identifier: usize,
) -> Result<String, AllocError> {
    match identifier {
        1 => linked_family(alloc, style),
        2 => String::from_str(alloc, style.linked_name()),
        3 => unique(alloc, face, style),
        4 => full(alloc, style),
        6 => String::from_str(alloc, style.postscript.as_str()),
        16 => String::from_str(alloc, style.family.as_str()),
        _ => style.full(alloc),
    }
}

/// Returns a text in UTF-16, big-endian.
fn utf16(alloc: Global, text: &str) -> Result<Vec<u8>, AllocError> {
    let mut bytes = Vec::new(alloc);
    for unit in text.encode_utf16() {
        bytes.extend_from_slice(&unit.to_be_bytes())?;
    }
    Ok(bytes)
}

/// Adds the text of a name ID.
fn put_text(
    texts: &mut Vec<Text>,
    alloc: Global,
    face: &VariableFace<'_>,
    style: &Style,
    identifier: usize,
) -> Result<(), AllocError>
    ensures { OnOk result ((text : TheText) × (texts.new.items ≡ texts.old.items ++ text ∷ []) × (text.identifier ≡ identifier)) }
{
    let text = text_by(alloc, face, style, identifier)?;
    let bytes = utf16(alloc, text.as_str())?;
    texts.push(Text { identifier, bytes })?;
    Ok(())
}

/// Adds the texts of name IDs.
fn put_each(
    texts: &mut Vec<Text>,
    alloc: Global,
    face: &VariableFace<'_>,
    style: &Style,
    identifiers: &[usize],
) -> Result<(), AllocError>
    requires { texts.old.items ≡ [] }
    ensures { OnOk result (map (λ (text : TheText). text.identifier) texts.new.items ≡ identifiers.now) }
{
    for identifier in identifiers {
        put_text(texts, alloc, face, style, *identifier)?;
    }
    Ok(())
}

/// Returns the texts of a style.
fn texts_of(alloc: Global, face: &VariableFace<'_>, style: &Style) -> Result<Vec<Text>, AllocError>
    ensures { IfOk result (λ texts. AreNew (map (λ (text : TheText). text.identifier) texts.items)) }
{
    let mut texts = Vec::new(alloc);
    if style.is_linked() {
        put_each(&mut texts, alloc, face, style, &LINKED)?;
    } else {
        put_each(&mut texts, alloc, face, style, &NOT_LINKED)?;
    }
    Ok(texts)
}

/// Returns the sort key of a record.
fn order(record: &Record<'_>) -> u64 {
    let mut order = 0u64;
    for number in [
        record.platform,
        record.encoding,
        record.language,
        record.identifier,
    ] {
        order = order.wrapping_mul(65536).wrapping_add(number as u64);
    }
    order
}

/// Adds the records that are kept.
fn put_old<'l>(
    records: &mut Vec<Record<'l>>,
    face: &VariableFace<'_>,
    table: &'l [u8],
) -> Result<(), AllocError>
    requires { records.old.items ≡ [] }
    ensures { OnOk result (AreKept face.now.axes table.now (min (word_at table.now 2) 1000) records.new.items) }
{
    let count = number_within(table, 2, 2).unwrap_or(0).min(MOST);
    for i in 0..count {
        if let Some(record) = record_at(table, i) {
            if stays(face, &record) {
                records.push(record)?;
            }
        }
    }
    Ok(())
}

/// Adds the records of new texts. `start` is an offset past the old texts.
fn put_new<'l>(
    records: &mut Vec<Record<'l>>,
    texts: &'l [Text],
    start: usize,
) -> Result<(), AllocError>
    ensures { OnOk result ((new : List TheRecord) × (records.new.items ≡ records.old.items ++ new)
        × (map (λ (entry : TheRecord). entry.identifier) new ≡ map (λ (text : TheText). text.identifier) texts.now)
        × ((entry : TheRecord) → Contains new entry → IsInEnglish entry)) }
{
    let mut place = start;
    for text in texts {
        records.push(Record {
            platform: 3,
            encoding: 1,
            language: 0x409,
            identifier: text.identifier,
            start: place,
            text: text.bytes.as_slice(),
        })?;
        place = place.saturating_add(1);
    }
    Ok(())
}

/// Adds records to a new table.
fn keep(kept: &mut NameTable, records: &[Record<'_>]) -> Result<(), AllocError>
    requires { Holds kept.old [] }
    ensures { OnOk result (Holds kept.new records.now) }
{
    for record in records {
        kept.put(record)?;
    }
    Ok(())
}

/// Returns the table of records, in their order.
fn table_of(alloc: Global, records: &[Record<'_>]) -> Result<Vec<u8>, Unmade>
    ensures { IfErr result (λ e. (e ≡ reasons.Memory) ⊎ ((e ≡ reasons.Names) × HaveNoSpace records.now)) }
{
    let mut kept = NameTable::new(alloc);
    keep(&mut kept, records)?;
    match kept.table(alloc)? {
        Some(table) => Ok(table),
        None => Err(Unmade::Names),
    }
}

/// Returns the `name` table of a face, or no bytes if it has none.
fn old_table<'l>(face: &VariableFace<'l>) -> &'l [u8]
    ensures { IsTableOrNone face.now.file name_tag result.now }
{
    match face.file.table(*b"name") {
        Some(table) => table,
        None => &[],
    }
}

/// Returns the `name` table of a style: its names in US English for Windows, and the names that are kept.
pub(crate) fn names_of(
    alloc: Global,
    face: &VariableFace<'_>,
    style: &Style,
) -> Result<Vec<u8>, Unmade>
    ensures { IfErr result (λ e. (e ≡ reasons.Memory) ⊎ ((e ≡ reasons.Names) × HasLongNames face.now)) }
{
    let table = old_table(face);
    let texts = texts_of(alloc, face, style)?;
    let mut records = Vec::new(alloc);
    put_old(&mut records, face, table)?;
    put_new(&mut records, &texts, table.len())?;
    records.sort_by_key(|record: &Record<'_>| order(record))?;
    table_of(alloc, &records)
}
