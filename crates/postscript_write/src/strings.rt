//! The strings of the new font, and their SIDs (Technical Note 5176, sections 9 and 10).
ghost use Rattle.std.specs.Prelude.{◌≡◌, ◌++◌, ◌+◌, ◌<◌, ◌⊎◌, ℕ, [], ◌∷◌, Some, None, IfOk, IfErr, OnOk, length, slice_set};
ghost use Rattle.std.specs.List.{filter_map};
ghost use Rattle.postscript_base.specs.Index.Lent.{items_of};
ghost use Rattle.postscript_base.specs.declared.error.Error.TheVariants as errors;
ghost use Rattle.postscript_type2.specs.Program.Routines.{texts};
ghost use Rattle.postscript_write.specs.NewStrings.{AreAdded, AreNamed, AreRenumbered, HasNew};
ghost use Rattle.postscript_write.specs.Parts.{naming};
ghost use Rattle.postscript_write.specs.Renumbered.{new_identifier};
ghost use Rattle.postscript_write.specs.Strings.{identifier_in as the_identifier};

use crate::layout::copy_items;
use crate::naming::{SID_OPERATORS, identifier_in};
use postscript_base::Result;
use postscript_base::compact1::{Operations, StringID};
use postscript_base::index::IndexView;
use postscript_view::FontView;
use std::alloc::Global;

/// Strings in the order of their SIDs.
#[derive(Drop)]
pub(crate) struct Strings {
    /// The strings.
    pub(crate) texts: Vec<Vec<u8>>,
    /// The new SID of each old string that is written. Empty if strings keep their SIDs.
    renumbered: Vec<Option<usize>>,
}

impl Strings {
    /// No strings, prepared for the strings of a font.
    fn none(alloc: Global, own: &IndexView<'_>) -> Result<Strings>
        ensures renumbered { IfOk result
            (λ strings. AreRenumbered (items_of own.now) (texts strings.texts.items) strings.renumbered.items) }
        ensures none { IfOk result (λ strings. (number : ℕ) → HasNew strings.renumbered.items number → ⊥) }
        ensures memory { IfErr result (λ e. e ≡ errors.Memory) }
    {
        Ok(Strings {
            texts: Vec::new(alloc),
            renumbered: vec![in alloc; None; own.len()]?,
        })
    }

    /// Appends a string under a new SID.
    fn push(&mut self, alloc: Global, number: usize, text: &[u8]) -> Result<()>
        requires { number < length self.now.renumbered.items }
        ensures texts { OnOk result (texts self.new.texts.items ≡ texts self.old.texts.items ++ text.now ∷ []) }
        ensures renumbered { OnOk result (self.new.renumbered.items
            ≡ slice_set self.old.renumbered.items number (Some (391 + length (texts self.old.texts.items)))) }
        ensures memory { IfErr result (λ e. e ≡ errors.Memory) }
    {
        let new = 391 + self.texts.len();
        let mut copy = Vec::new(alloc);
        copy.extend_from_slice(text)?;
        self.texts.push(copy)?;
        self.renumbered[number] = Some(new);
        Ok(())
    }

    /// All strings of a font with their SIDs.
    pub(crate) fn every(alloc: Global, font: &FontView<'_>) -> Result<Strings>
        ensures texts { IfOk result (λ strings. texts strings.texts.items ≡ items_of font.now.strings) }
        ensures stay { IfOk result (λ strings. strings.renumbered.items ≡ []) }
        ensures memory { IfErr result (λ e. e ≡ errors.Memory) }
    {
        Ok(Strings {
            texts: copy_items(alloc, &font.strings)?,
            renumbered: Vec::new(alloc),
        })
    }

    /// The strings of operators of the Top DICT, then the strings with the given SIDs, each once.
    pub(crate) fn collect(
        alloc: Global,
        font: &FontView<'_>,
        identifiers: &[StringID],
    ) -> Result<Strings>
        ensures renumbered { IfOk result
            (λ strings. AreRenumbered (items_of font.now.strings) (texts strings.texts.items) strings.renumbered.items) }
        ensures named { IfOk result (λ strings. AreNamed font.now.dictionary identifiers.now strings.renumbered.items) }
        ensures memory { IfErr result (λ e. e ≡ errors.Memory) }
    {
        let named = sids_of(alloc, &font.dictionary)?;
        let mut strings = Strings::none(alloc, &font.strings)?;
        strings.add_all(alloc, &font.strings, &named)?;
        strings.add_all(alloc, &font.strings, identifiers)?;
        Ok(strings)
    }

    /// Adds the strings with the given SIDs.
    fn add_all(
        &mut self,
        alloc: Global,
        own: &IndexView<'_>,
        identifiers: &[StringID],
    ) -> Result<()>
        requires { AreRenumbered (items_of own.now) (texts self.now.texts.items) self.now.renumbered.items }
        ensures renumbered { OnOk result (AreRenumbered (items_of own.now) (texts self.new.texts.items) self.new.renumbered.items) }
        ensures added { OnOk result
            (AreAdded self.old.renumbered.items identifiers.now (length identifiers.now) self.new.renumbered.items) }
        ensures memory { IfErr result (λ e. e ≡ errors.Memory) }
    {
        for i in 0..identifiers.len() {
            self.add(alloc, own, usize::from(identifiers[i]))?;
        }
        Ok(())
    }

    /// Adds the string with an SID, if it is a custom string that is not yet added.
    fn add(&mut self, alloc: Global, own: &IndexView<'_>, identifier: usize) -> Result<()>
        requires { AreRenumbered (items_of own.now) (texts self.now.texts.items) self.now.renumbered.items }
        ensures renumbered { OnOk result (AreRenumbered (items_of own.now) (texts self.new.texts.items) self.new.renumbered.items) }
        ensures named { OnOk result ((number : ℕ) → identifier ≡ 391 + number → number < length self.new.renumbered.items →
            HasNew self.new.renumbered.items number) }
        ensures kept { OnOk result ((number : ℕ) → HasNew self.old.renumbered.items number → HasNew self.new.renumbered.items number) }
        ensures only { OnOk result ((number : ℕ) → HasNew self.new.renumbered.items number →
            HasNew self.old.renumbered.items number ⊎ (identifier ≡ 391 + number)) }
        ensures memory { IfErr result (λ e. e ≡ errors.Memory) }
    {
        if identifier < 391 || identifier - 391 >= self.renumbered.len() {
            return Ok(());
        }
        if self.renumbered[identifier - 391].is_some() {
            return Ok(());
        }
        self.push(alloc, identifier - 391, own.item(identifier - 391))?;
        Ok(())
    }

    /// The new SID of an old one. Standard strings keep theirs.
    pub(crate) fn identifier(&self, old: usize) -> usize
        ensures { result ≡ new_identifier self.now old }
    {
        if old < 391 || old - 391 >= self.renumbered.len() {
            return old;
        }
        match self.renumbered[old - 391] {
            Some(new) => new,
            None => old,
        }
    }
}

/// The SIDs of operators of a DICT.
fn sids_of(alloc: Global, dictionary: &Operations) -> Result<Vec<StringID>>
    ensures named { IfOk result (λ identifiers. identifiers.items ≡ filter_map (the_identifier dictionary.now) naming) }
    ensures memory { IfErr result (λ e. e ≡ errors.Memory) }
{
    let mut identifiers = Vec::new(alloc);
    for operator in &SID_OPERATORS {
        if let Some(identifier) = identifier_in(dictionary, *operator) {
            identifiers.push(identifier)?;
        }
    }
    Ok(identifiers)
}
