//! Subtables of pairs that are listed one by one (format 1), with pairs of one form.
ghost use Rattle.std.specs.Prelude.{◌≡◌, ◌⊎◌, ◌+◌, ◌*◌, ◌<◌, ◌≤◌, ◌++◌, [], length, true, false, Some, IfErr, IfOk, IfSome, OnOk};
ghost use Rattle.std.specs.List.{All};
ghost use Rattle.postscript_layout_write.specs.Entries.{form_of as the_form};
ghost use Rattle.postscript_layout_write.specs.Holds.{Holds};
ghost use Rattle.postscript_layout_write.specs.Sets.{Adds, AreOffsets, Places};
ghost use Rattle.postscript_layout_write.specs.Text.{AdjustmentFits, AreOfForm, EntryFits, ValuesFit, adjustment_text, array_text, coverage_text, entry_text, formats_text, head_text, offsets_text, set_text, subtable_text, values_text};
ghost use Rattle.postscript_layout_write.specs.declared.error.Error.TheVariants as errors;

use crate::entries::{Entry, Form, form_of};
use crate::error::{Error, Result};
use crate::numbers::put_uint16;
use crate::values::{Values, ZERO};
use std::alloc::{AllocError, Global};

/// The sets of pairs of one form: the first glyphs, the offset of the set of each, and the bytes of the sets.
#[derive(Drop)]
pub(crate) struct Sets {
    pub(crate) firsts: Vec<u16>,
    pub(crate) offsets: Vec<usize>,
    pub(crate) bytes: Vec<u8>,
}

/// The number of texts that a new text is compared with. An equal one is shared.
pub(crate) const SHARED: usize = 64;

/// Appends the four numbers of a value record.
#[tactic(auto, unfolding(crate::specs::Text::values_text))]
fn put_values(out: &mut Vec<u8>, values: &Values) -> std::result::Result<(), AllocError>
    ensures text { OnOk result (out.new.items ≡ out.old.items ++ values_text values.now) }
    ensures fits { OnOk result (ValuesFit values.now) }
{
    put_uint16(out, values.x_placement)?;
    put_uint16(out, values.y_placement)?;
    put_uint16(out, values.x_advance)?;
    put_uint16(out, values.y_advance)
}

/// Whether a pair has a form.
pub(crate) fn has_form(form: Form, entry: &Entry) -> bool
    ensures yes { result ≡ true → the_form entry.now.adjustment ≡ Some form }
    ensures no { result ≡ false → the_form entry.now.adjustment ≡ Some form → ⊥ }
{
    match form_of(&entry.adjustment) {
        Some(found) => found == form,
        None => false,
    }
}

/// Appends the value records of a pair.
#[tactic(auto, unfolding(crate::specs::Text::adjustment_text))]
fn put_adjustment(
    out: &mut Vec<u8>,
    form: Form,
    entry: &Entry,
) -> std::result::Result<(), AllocError>
    ensures text { OnOk result (out.new.items ≡ out.old.items ++ adjustment_text form entry.now.adjustment) }
    ensures fits { OnOk result (AdjustmentFits form entry.now.adjustment) }
{
    let adjustment = &entry.adjustment;
    match form {
        Form::Advance => put_uint16(out, adjustment.first.x_advance),
        Form::First => put_values(out, &adjustment.first),
        Form::Both => {
            put_values(out, &adjustment.first)?;
            put_values(out, &adjustment.second.unwrap_or(ZERO))
        }
    }
}

/// Appends an entry of a set.
#[tactic(auto, unfolding(crate::specs::Text::entry_text))]
fn put_entry(out: &mut Vec<u8>, form: Form, entry: &Entry) -> std::result::Result<(), AllocError>
    ensures text { OnOk result (out.new.items ≡ out.old.items ++ entry_text form entry.now) }
    ensures fits { OnOk result (EntryFits form entry.now) }
{
    put_uint16(out, entry.second)?;
    put_adjustment(out, form, entry)
}

/// Appends a set of pairs.
#[tactic(auto, unfolding(crate::specs::Text::set_text))]
fn put_set(out: &mut Vec<u8>, form: Form, entries: &[Entry]) -> std::result::Result<(), AllocError>
    requires few { length entries.now < 65536 }
    ensures text { OnOk result (out.new.items ≡ out.old.items ++ set_text form entries.now) }
    ensures fit { OnOk result (All (EntryFits form) entries.now) }
{
    put_uint16(out, entries.len() as u16)?;
    for entry in entries {
        put_entry(out, form, entry)?;
    }
    Ok(())
}

/// Returns the pairs of a form.
fn of_form(alloc: Global, form: Form, entries: &[Entry]) -> Result<Vec<Entry>>
    ensures exact { IfOk result (λ found. AreOfForm form entries.now found.items) }
    ensures memory { IfErr result (λ e. e ≡ errors.Memory) }
{
    let mut found = Vec::new(alloc);
    for entry in entries {
        if has_form(form, entry) {
            found.push(*entry)?;
        }
    }
    Ok(found)
}

/// Returns the bytes of a set of pairs.
fn set_of(alloc: Global, form: Form, entries: &[Entry]) -> Result<Vec<u8>>
    requires few { length entries.now < 65536 }
    ensures text { IfOk result (λ text. text.items ≡ set_text form entries.now) }
    ensures fit { OnOk result (All (EntryFits form) entries.now) }
    ensures memory { IfErr result (λ e. e ≡ errors.Memory) }
{
    let mut text = Vec::new(alloc);
    put_set(&mut text, form, entries)?;
    Ok(text)
}

/// Returns whether a text is at an offset.
pub(crate) fn is_at(bytes: &[u8], text: &[u8], offset: usize) -> bool
    ensures { result ≡ true → Holds text.now bytes.now offset }
{
    if offset > bytes.len() || text.len() > bytes.len() - offset {
        return false;
    }
    let part = &bytes[offset..offset + text.len()];
    part == text
}

impl Sets {
    /// Returns no sets.
    pub(crate) fn new(alloc: Global) -> Sets
        ensures firsts { result.firsts.items ≡ [] }
        ensures offsets { result.offsets.items ≡ [] }
        ensures bytes { result.bytes.items ≡ [] }
    {
        Sets {
            firsts: Vec::new(alloc),
            offsets: Vec::new(alloc),
            bytes: Vec::new(alloc),
        }
    }

    /// Returns the offset of one of the last sets that begins with a text.
    fn find(&self, text: &[u8]) -> Option<usize>
        ensures { IfSome result (λ offset. Holds text.now self.now.bytes.items offset) }
    {
        let count = self.offsets.len();
        for k in count.saturating_sub(SHARED)..count {
            let offset = self.offsets[k];
            if is_at(&self.bytes, text, offset) {
                return Some(offset);
            }
        }
        None
    }

    /// Returns the offset of a set with a text. It is appended, unless one of the last sets has the same text.
    /// Sets that take more than 65,535 bytes are too large.
    pub(crate) fn place(&mut self, text: &[u8]) -> Result<usize>
        ensures placed { IfOk result (λ offset. Places text.now self.old.bytes.items self.new.bytes.items offset) }
        ensures firsts { OnOk result (self.new.firsts.items ≡ self.old.firsts.items) }
        ensures offsets { OnOk result (self.new.offsets.items ≡ self.old.offsets.items) }
        ensures why { IfErr result (λ e. (e ≡ errors.Memory) ⊎ (e ≡ errors.TooLarge)) }
    {
        if let Some(offset) = self.find(text) {
            return Ok(offset);
        }
        let offset = self.bytes.len();
        if offset > 65535 {
            return Err(Error::TooLarge);
        }
        self.bytes.extend_from_slice(text)?;
        Ok(offset)
    }

    /// Whether the offset of another set fits into two bytes.
    pub(crate) fn has_room(&self) -> bool
        ensures { result ≡ true → 18 + length self.now.firsts.items * 4 + length self.now.bytes.items < 65536 }
    {
        let count = self.firsts.len();
        let size = self.bytes.len();
        count < 16380 && size < 65536 && 18 + count * 4 + size < 65536
    }

    /// Adds the set of a first glyph, if some pairs have the form.
    pub(crate) fn add(
        &mut self,
        alloc: Global,
        form: Form,
        first: u16,
        entries: &[Entry],
    ) -> Result<()>
        requires few { length entries.now < 65536 }
        ensures done { OnOk result (Adds form first entries.now self.old self.new) }
        ensures why { IfErr result (λ e. (e ≡ errors.Memory) ⊎ (e ≡ errors.TooLarge)) }
    {
        let found = of_form(alloc, form, entries)?;
        if found.is_empty() {
            return Ok(());
        }
        let text = set_of(alloc, form, &found)?;
        let offset = self.place(&text)?;
        self.firsts.push(first)?;
        self.offsets.push(offset)?;
        Ok(())
    }
}

/// Appends offsets that are counted from `base`.
#[tactic(auto, unfolding(crate::specs::Text::array_text))]
pub(crate) fn put_offsets(out: &mut Vec<u8>, base: usize, offsets: &[usize]) -> Result<()>
    requires { base < 65536 }
    ensures text { OnOk result (out.new.items ≡ out.old.items ++ offsets_text base offsets.now) }
    ensures fit { OnOk result (AreOffsets base offsets.now) }
    ensures why { IfErr result (λ e. (e ≡ errors.Memory) ⊎ (e ≡ errors.TooLarge)) }
{
    for offset in offsets {
        if *offset > 65535 - base {
            return Err(Error::TooLarge);
        }
        put_uint16(out, (base + *offset) as u16)?;
    }
    Ok(())
}

/// Appends numbers of two bytes.
#[tactic(auto, unfolding(crate::specs::Text::array_text))]
pub(crate) fn put_glyphs(out: &mut Vec<u8>, glyphs: &[u16]) -> std::result::Result<(), AllocError>
    ensures text { OnOk result (out.new.items ≡ out.old.items ++ array_text glyphs.now) }
{
    for glyph in glyphs {
        put_uint16(out, *glyph)?;
    }
    Ok(())
}

/// Appends the value formats of a form.
#[tactic(auto, unfolding(crate::specs::Text::formats_text))]
fn put_formats(out: &mut Vec<u8>, form: Form) -> std::result::Result<(), AllocError>
    ensures text { OnOk result (out.new.items ≡ out.old.items ++ formats_text form) }
{
    match form {
        Form::Advance => {
            put_uint16(out, 4)?;
            put_uint16(out, 0)
        }
        Form::First => {
            put_uint16(out, 15)?;
            put_uint16(out, 0)
        }
        Form::Both => {
            put_uint16(out, 15)?;
            put_uint16(out, 15)
        }
    }
}

/// Appends the header of a subtable with a number of sets.
#[tactic(auto, unfolding(crate::specs::Text::head_text))]
fn put_head(out: &mut Vec<u8>, form: Form, count: u16) -> std::result::Result<(), AllocError>
    requires { count ≤ 16380 }
    ensures { OnOk result (out.new.items ≡ out.old.items ++ head_text form count) }
{
    put_uint16(out, 1)?;
    put_uint16(out, 10 + count * 2)?;
    put_formats(out, form)?;
    put_uint16(out, count)
}

/// Appends a coverage table with a list of glyphs.
#[tactic(auto, unfolding(crate::specs::Text::coverage_text))]
pub(crate) fn put_coverage(out: &mut Vec<u8>, glyphs: &[u16]) -> std::result::Result<(), AllocError>
    requires { length glyphs.now ≤ 16380 }
    ensures { OnOk result (out.new.items ≡ out.old.items ++ coverage_text glyphs.now) }
{
    put_uint16(out, 1)?;
    put_uint16(out, glyphs.len() as u16)?;
    put_glyphs(out, glyphs)
}

/// Appends a subtable.
#[tactic(auto, unfolding(crate::specs::Text::subtable_text))]
pub(crate) fn put_subtable(out: &mut Vec<u8>, form: Form, sets: &Sets) -> Result<()>
    ensures text { OnOk result (out.new.items ≡ out.old.items ++ subtable_text form sets.now.firsts.items sets.now.offsets.items sets.now.bytes.items) }
    ensures fit { OnOk result (AreOffsets (14 + length sets.now.firsts.items * 4) sets.now.offsets.items) }
    ensures few { OnOk result (length sets.now.firsts.items ≤ 16380) }
    ensures why { IfErr result (λ e. (e ≡ errors.Memory) ⊎ (e ≡ errors.TooLarge)) }
{
    let count = sets.firsts.len();
    if count > 16380 {
        return Err(Error::TooLarge);
    }
    put_head(out, form, count as u16)?;
    put_offsets(out, 14 + count * 4, &sets.offsets)?;
    put_coverage(out, &sets.firsts)?;
    out.extend_from_slice(&sets.bytes)?;
    Ok(())
}
