//! Writes a `GSUB` table.
ghost use Rattle.std.specs.Prelude.{◌≡◌, ◌⊎◌, ◌^◌, ◌<◌, ◌≤◌, ◌++◌, [], length, IfErr, IfOk, OnOk, if◌then◌else◌};
ghost use Rattle.postscript_layout_write.specs.Flags.{set_of};
ghost use Rattle.postscript_layout_write.specs.Pairs.{lookups_of};
ghost use Rattle.postscript_layout_write.specs.Refusals.{Fails, Refuses};
ghost use Rattle.postscript_layout_write.specs.Renumbering.{AreNumbers};
ghost use Rattle.postscript_layout_write.specs.RuleLookups.{HasRuleLookups, PutsContexts, PutsNext, PutsOwnRules, PutsReverses, PutsRuleList, new_type as the_type};
ghost use Rattle.postscript_layout_write.specs.RuleSets.{AreRuleSets, AreSmall, PutsRules, bare_text, rule_front_text, rule_head_text, subtable_offset as the_offset};
ghost use Rattle.postscript_layout_write.specs.Rules.{is_kept as the_kept, type_at};
ghost use Rattle.postscript_layout_write.specs.Substituting.{KeepsFlaggedSubstitutions, KeepsRules, KeepsSubstitutions, is_chosen as the_chosen, is_taken as the_taken, keeps as the_keeps, keeps_contexts as the_keeps_contexts, keeps_reverses as the_keeps_reverses, new_flag as the_flag, rules_at, takes_flag as the_taking};
ghost use Rattle.postscript_layout_write.specs.declared.error.Error.TheVariants as errors;

use crate::contexts::{Source, contexts_of, is_contextual, put_chained};
use crate::error::{Error, Result};
use crate::limit::{pay, pay_all};
use crate::numbers::{put_uint16, word};
use crate::positioning::put_front;
use crate::renumbering::new_numbers;
use crate::reverses::reverses_of;
use crate::rule_sets::put_rules;
use crate::rules::{new_rules, type_of};
use crate::scope::{put_set, uses_set};
use crate::script_lists::lists_end;
use crate::subtables::{Sets, put_offsets};
use std::alloc::{AllocError, Global};

/// Collects the rules of a lookup.
fn sets_of(
    alloc: Global,
    gsub: &[u8],
    lookup: usize,
    kind: usize,
    kept: &[u16],
    numbers: &[Option<usize>],
    limit: &mut u64,
) -> Result<Sets>
    requires near { lookup < 2 ^ 31 }
    requires kind { kind ≡ type_at gsub.now lookup }
    requires small { length kept.now < 65536 }
    requires exact { AreNumbers kept.now numbers.now }
    ensures exact { IfOk result (λ sets. AreRuleSets kind (rules_at gsub.now kept.now lookup) (length kept.now) sets.firsts.items sets.offsets.items sets.bytes.items) }
    ensures spends { limit.new ≤ limit.old }
    ensures why { IfErr result (λ e. Fails limit.new e) }
{
    let mut sets = Sets::new(alloc);
    for k in 0..kept.len() {
        pay(limit)?;
        let rules = new_rules(
            alloc,
            gsub,
            lookup,
            kind,
            kept[k] as usize,
            kept,
            numbers,
            limit,
        )?;
        sets.add_rules(alloc, kind, k as u16, &rules)?;
    }
    Ok(sets)
}

/// Whether the type of a lookup is kept.
pub(crate) fn is_kept(kind: usize) -> bool
    ensures { result ≡ the_kept kind }
{
    0 < kind && kind < 5
}

/// Returns the type that is written for a lookup: its own, if that is kept, or else 1.
fn new_type(gsub: &[u8], lookup: usize) -> usize
    requires near { lookup < 2 ^ 31 }
    ensures exact { result ≡ the_type gsub.now lookup }
    ensures small { result < 65536 }
{
    let kind = type_of(gsub, lookup);
    if is_kept(kind) { kind } else { 1 }
}

/// Whether a lookup is chosen.
pub(crate) fn is_chosen(lookups: &[u16], i: usize) -> bool
    ensures { result ≡ the_chosen lookups.now i }
{
    for lookup in lookups {
        if *lookup as usize == i {
            return true;
        }
    }
    false
}

/// Whether lookups with a flag are kept. A flag above 15 selects classes or sets of marks.
pub(crate) fn takes_flag(whole: bool, flag: usize) -> bool
    ensures { result ≡ the_taking whole flag }
{
    whole || flag < 16
}

/// Returns the flag that is written: the whole flag, or its lowest four bits.
fn new_flag(whole: bool, flag: usize) -> usize
    requires { flag < 65536 }
    ensures exact { result ≡ the_flag whole flag }
    ensures small { result < 65536 }
{
    if whole { flag } else { flag % 16 }
}

/// Whether a lookup is taken: it is chosen, and lookups with its flag are kept.
fn is_taken(whole: bool, gsub: &[u8], lookup: usize, lookups: &[u16], i: usize) -> bool
    requires near { lookup < 2 ^ 31 }
    ensures { result ≡ the_taken whole gsub.now lookups.now i lookup }
{
    takes_flag(whole, word(gsub, lookup + 2)) && is_chosen(lookups, i)
}

/// Whether a lookup keeps its rules: its type is kept, and it is taken.
fn keeps(whole: bool, gsub: &[u8], lookup: usize, lookups: &[u16], i: usize) -> bool
    requires near { lookup < 2 ^ 31 }
    ensures { result ≡ the_keeps whole gsub.now lookups.now i lookup }
{
    is_kept(type_of(gsub, lookup)) && is_taken(whole, gsub, lookup, lookups, i)
}

/// Collects the rules of a lookup that keeps them.
fn kept_sets(
    alloc: Global,
    whole: bool,
    gsub: &[u8],
    lookup: usize,
    lookups: &[u16],
    i: usize,
    kept: &[u16],
    numbers: &[Option<usize>],
    limit: &mut u64,
) -> Result<Sets>
    requires near { lookup < 2 ^ 31 }
    requires small { length kept.now < 65536 }
    requires exact { AreNumbers kept.now numbers.now }
    ensures exact { IfOk result (λ sets. AreRuleSets (the_type gsub.now lookup) (λ x. if the_keeps whole gsub.now lookups.now i lookup then rules_at gsub.now kept.now lookup x else []) (length kept.now) sets.firsts.items sets.offsets.items sets.bytes.items) }
    ensures spends { limit.new ≤ limit.old }
    ensures why { IfErr result (λ e. Fails limit.new e) }
{
    if keeps(whole, gsub, lookup, lookups, i) {
        let kind = type_of(gsub, lookup);
        let sets = sets_of(alloc, gsub, lookup, kind, kept, numbers, limit)?;
        Ok(sets)
    } else {
        Ok(Sets::new(alloc))
    }
}

/// Appends the header of a lookup.
#[tactic(auto, unfolding(crate::specs::RuleSets::rule_head_text))]
pub(crate) fn put_head(
    out: &mut Vec<u8>,
    kind: u16,
    flag: u16,
    count: u16,
) -> std::result::Result<(), AllocError>
    ensures text { OnOk result (out.new.items ≡ out.old.items ++ rule_head_text kind flag count) }
    ensures kind { OnOk result (kind < 65536) }
    ensures flag { OnOk result (flag < 65536) }
{
    put_uint16(out, kind)?;
    put_uint16(out, flag)?;
    put_uint16(out, count)
}

/// Returns the offset of the subtable of a lookup with one subtable: after the set of marks, if the flag uses one.
fn subtable_offset(flag: usize) -> u16
    ensures { result ≡ the_offset flag }
{
    if uses_set(flag) { 10 } else { 8 }
}

/// Appends the header of a lookup with no subtables, and its set of marks.
#[tactic(auto, unfolding(crate::specs::RuleSets::bare_text))]
fn put_bare(
    out: &mut Vec<u8>,
    gsub: &[u8],
    lookup: usize,
    kind: u16,
    flag: u16,
) -> std::result::Result<(), AllocError>
    requires near { lookup < 2 ^ 31 }
    ensures text { OnOk result (out.new.items ≡ out.old.items ++ bare_text kind flag (set_of gsub.now lookup)) }
    ensures small { OnOk result (AreSmall kind flag (set_of gsub.now lookup)) }
{
    put_head(out, kind, flag, 0)?;
    put_set(out, gsub, lookup, flag as usize)
}

/// Appends the header of a lookup with one subtable, and its set of marks.
#[tactic(auto, unfolding(crate::specs::RuleSets::rule_front_text))]
fn put_begin(
    out: &mut Vec<u8>,
    gsub: &[u8],
    lookup: usize,
    kind: u16,
    flag: u16,
) -> std::result::Result<(), AllocError>
    requires near { lookup < 2 ^ 31 }
    ensures text { OnOk result (out.new.items ≡ out.old.items ++ rule_front_text kind flag (set_of gsub.now lookup)) }
    ensures small { OnOk result (AreSmall kind flag (set_of gsub.now lookup)) }
{
    put_head(out, kind, flag, 1)?;
    put_uint16(out, subtable_offset(flag as usize))?;
    put_set(out, gsub, lookup, flag as usize)
}

/// Appends a lookup with one subtable, or with none if there are no rules.
fn put_lookup(
    out: &mut Vec<u8>,
    gsub: &[u8],
    lookup: usize,
    kind: u16,
    flag: u16,
    sets: &Sets,
) -> Result<()>
    requires near { lookup < 2 ^ 31 }
    ensures done { OnOk result (PutsRules kind flag (set_of gsub.now lookup) sets.now.firsts.items sets.now.offsets.items sets.now.bytes.items out.old.items out.new.items) }
    ensures why { IfErr result (λ e. (e ≡ errors.Memory) ⊎ (e ≡ errors.TooLarge)) }
{
    if sets.firsts.is_empty() {
        put_bare(out, gsub, lookup, kind, flag)?;
        return Ok(());
    }
    put_begin(out, gsub, lookup, kind, flag)?;
    put_rules(out, kind as usize, sets)?;
    Ok(())
}

/// Whether a lookup keeps its contexts: all of its subtables have contexts, and it is taken.
fn keeps_contexts(whole: bool, gsub: &[u8], lookup: usize, lookups: &[u16], i: usize) -> bool
    requires near { lookup < 2 ^ 31 }
    ensures { result ≡ the_keeps_contexts whole gsub.now lookups.now i lookup }
{
    is_contextual(gsub, lookup) && is_taken(whole, gsub, lookup, lookups, i)
}

/// Appends a lookup with its contexts.
fn put_contexts(
    alloc: Global,
    bytes: &mut Vec<u8>,
    whole: bool,
    gsub: &[u8],
    lookup: usize,
    kept: &[u16],
    limit: &mut u64,
) -> Result<()>
    requires near { lookup < 2 ^ 31 }
    requires small { length kept.now < 65536 }
    ensures done { OnOk result (PutsContexts whole gsub.now kept.now lookup bytes.old.items bytes.new.items) }
    ensures spends { limit.new ≤ limit.old }
    ensures why { IfErr result (λ e. Fails limit.new e) }
{
    let source = Source { gsub, kept };
    let flag = new_flag(whole, word(gsub, lookup + 2));
    let contexts = contexts_of(alloc, &source, lookup, type_of(gsub, lookup), flag, limit)?;
    put_chained(bytes, 6, flag as u16, &contexts)?;
    Ok(())
}

/// Whether a lookup keeps its reverse chaining subtables: it has that type, and it is taken.
fn keeps_reverses(whole: bool, gsub: &[u8], lookup: usize, lookups: &[u16], i: usize) -> bool
    requires near { lookup < 2 ^ 31 }
    ensures { result ≡ the_keeps_reverses whole gsub.now lookups.now i lookup }
{
    type_of(gsub, lookup) == 8 && is_taken(whole, gsub, lookup, lookups, i)
}

/// Appends a lookup with its reverse chaining subtables.
fn put_reverses(
    alloc: Global,
    bytes: &mut Vec<u8>,
    whole: bool,
    gsub: &[u8],
    lookup: usize,
    kept: &[u16],
    numbers: &[Option<usize>],
    limit: &mut u64,
) -> Result<()>
    requires near { lookup < 2 ^ 31 }
    requires small { length kept.now < 65536 }
    requires exact { AreNumbers kept.now numbers.now }
    ensures done { OnOk result (PutsReverses whole gsub.now kept.now lookup bytes.old.items bytes.new.items) }
    ensures spends { limit.new ≤ limit.old }
    ensures why { IfErr result (λ e. Fails limit.new e) }
{
    let source = Source { gsub, kept };
    let flag = new_flag(whole, word(gsub, lookup + 2));
    let contexts = reverses_of(alloc, &source, numbers, lookup, flag, limit)?;
    put_chained(bytes, 8, flag as u16, &contexts)?;
    Ok(())
}

/// Appends a lookup with its rules.
fn put_own_rules(
    alloc: Global,
    bytes: &mut Vec<u8>,
    whole: bool,
    gsub: &[u8],
    lookup: usize,
    lookups: &[u16],
    i: usize,
    kept: &[u16],
    numbers: &[Option<usize>],
    limit: &mut u64,
) -> Result<()>
    requires near { lookup < 2 ^ 31 }
    requires small { length kept.now < 65536 }
    requires exact { AreNumbers kept.now numbers.now }
    ensures done { OnOk result (PutsOwnRules whole gsub.now lookups.now kept.now lookup i bytes.old.items bytes.new.items) }
    ensures spends { limit.new ≤ limit.old }
    ensures why { IfErr result (λ e. Fails limit.new e) }
{
    let sets = kept_sets(alloc, whole, gsub, lookup, lookups, i, kept, numbers, limit)?;
    let kind = new_type(gsub, lookup);
    let flag = new_flag(whole, word(gsub, lookup + 2));
    put_lookup(bytes, gsub, lookup, kind as u16, flag as u16, &sets)?;
    Ok(())
}

/// Appends a lookup.
fn put_next(
    alloc: Global,
    bytes: &mut Vec<u8>,
    whole: bool,
    gsub: &[u8],
    lookup: usize,
    lookups: &[u16],
    i: usize,
    kept: &[u16],
    numbers: &[Option<usize>],
    limit: &mut u64,
) -> Result<()>
    requires near { lookup < 2 ^ 31 }
    requires small { length kept.now < 65536 }
    requires exact { AreNumbers kept.now numbers.now }
    ensures done { OnOk result (PutsNext whole gsub.now lookups.now kept.now lookup i bytes.old.items bytes.new.items) }
    ensures spends { limit.new ≤ limit.old }
    ensures why { IfErr result (λ e. Fails limit.new e) }
{
    pay_all(limit, word(gsub, lookup + 4))?;
    if keeps_contexts(whole, gsub, lookup, lookups, i) {
        put_contexts(alloc, bytes, whole, gsub, lookup, kept, limit)?;
    } else if keeps_reverses(whole, gsub, lookup, lookups, i) {
        put_reverses(alloc, bytes, whole, gsub, lookup, kept, numbers, limit)?;
    } else {
        put_own_rules(
            alloc, bytes, whole, gsub, lookup, lookups, i, kept, numbers, limit,
        )?;
    }
    Ok(())
}

/// Places the lookups of a table one after the other. Lookups with the same bytes can have the same offset.
fn place_each(
    alloc: Global,
    placed: &mut Sets,
    whole: bool,
    gsub: &[u8],
    lookups: &[u16],
    kept: &[u16],
    numbers: &[Option<usize>],
    limit: &mut u64,
) -> Result<()>
    requires offsets { placed.old.offsets.items ≡ [] }
    requires small { length kept.now < 65536 }
    requires exact { AreNumbers kept.now numbers.now }
    ensures done { OnOk result (HasRuleLookups whole gsub.now lookups.now kept.now (lookups_of gsub.now) placed.new.offsets.items placed.new.bytes.items) }
    ensures spends { limit.new ≤ limit.old }
    ensures why { IfErr result (λ e. Fails limit.new e) }
{
    let list = word(gsub, 8);
    let count = word(gsub, list);
    for i in 0..count {
        pay(limit)?;
        pay_all(limit, lookups.len())?;
        let lookup = list + word(gsub, list + 2 + i * 2);
        let mut text = Vec::new(alloc);
        put_next(
            alloc, &mut text, whole, gsub, lookup, lookups, i, kept, numbers, limit,
        )?;
        let offset = placed.place(&text)?;
        placed.offsets.push(offset)?;
    }
    Ok(())
}

/// Appends a lookup list.
#[tactic(auto, unfolding(crate::specs::Text::list_text))]
fn put_list(
    alloc: Global,
    out: &mut Vec<u8>,
    whole: bool,
    gsub: &[u8],
    lookups: &[u16],
    kept: &[u16],
    limit: &mut u64,
) -> Result<()>
    requires small { length kept.now < 65536 }
    ensures done { OnOk result (PutsRuleList whole gsub.now lookups.now kept.now out.old.items out.new.items) }
    ensures spends { limit.new ≤ limit.old }
    ensures why { IfErr result (λ e. Fails limit.new e) }
{
    let numbers = new_numbers(alloc, kept)?;
    let mut placed = Sets::new(alloc);
    place_each(
        alloc,
        &mut placed,
        whole,
        gsub,
        lookups,
        kept,
        &numbers,
        limit,
    )?;
    let count = placed.offsets.len();
    if count > 32766 {
        return Err(Error::TooLarge);
    }
    put_uint16(out, count as u16)?;
    put_offsets(out, 2 + count * 2, &placed.offsets)?;
    out.extend_from_slice(&placed.bytes)?;
    Ok(())
}

/// Returns a `GSUB` table with the rules and the contexts of chosen lookups, with or without whole flags.
fn write_table(
    alloc: Global,
    whole: bool,
    gsub: &[u8],
    lookups: &[u16],
    kept: &[u16],
    limit: &mut u64,
) -> Result<Vec<u8>>
    ensures kept { IfOk result (λ new. KeepsRules whole gsub.now lookups.now kept.now new.items) }
    ensures spends { limit.new ≤ limit.old }
    ensures why { IfErr result (λ e. Refuses e gsub.now limit.new) }
{
    if kept.len() > 65535 {
        return Err(Error::TooLarge);
    }
    let end = lists_end(gsub, limit)?;
    if end > 65535 || end > gsub.len() {
        return Err(Error::ListsTooLong);
    }
    let mut out = Vec::new(alloc);
    put_front(&mut out, gsub, end)?;
    put_list(alloc, &mut out, whole, gsub, lookups, kept, limit)?;
    Ok(out)
}

/// Returns a `GSUB` table with the substitutions of chosen lookups for the kept glyphs.
///
/// `kept` has the old numbers of the glyphs. The new number of a glyph is its first index there. `lookups` has the indices
/// of the chosen lookups, in any order. The new table has version 1.0, the script list and the feature list of the old one,
/// and as many lookups in the same order. A chosen lookup of type 1 to 4, also by extensions, keeps the rules whose glyphs
/// are all kept: single, multiple, alternate and ligature substitutions. A chosen lookup of type 5 or 6 whose subtables all
/// have format 1, 2 or 3 keeps the contexts whose sets of glyphs all have kept glyphs. It is written as a lookup of type 6,
/// with contexts by sets of glyphs (format 3). A chosen lookup of type 8 keeps the subtables whose sets of glyphs all have
/// kept glyphs. A glyph of the input is kept only with its substitute. All other lookups have no subtables, and neither has
/// a lookup with a flag above bit 3.
///
/// One unit of the limit is paid for each language system, script, feature and lookup, and for each chosen lookup with which
/// a lookup is compared. One more is paid for each kept glyph in each lookup that is kept, and for each subtable, covered
/// glyph, range, ligature and glyph of a rule that is looked at. In contexts, 1,000 are paid for each coverage table. In
/// contexts by glyphs and by classes, one is paid for each set of rules and each rule. Four are paid for each kept glyph in
/// a subtable, and one for each kept glyph in a set of rules and in a position. In reverse chaining, one is paid for each
/// kept glyph in a subtable.
///
/// # Errors
///
/// - `ListsTooLong`: the script list and the feature list, with the tables that they name, do not end within the table,
///   or within its first 65,535 bytes.
/// - `TooLarge`: an offset or a count would exceed 16 bits.
/// - `TooLong`: the table costs more than the limit.
/// - `Memory`: out of memory.
pub fn substitutions(
    alloc: Global,
    gsub: &[u8],
    lookups: &[u16],
    kept: &[u16],
    limit: &mut u64,
) -> Result<Vec<u8>>
    // Each chosen lookup substitutes kept glyphs in the same contexts, scripts and features.
    ensures kept { IfOk result (λ new. KeepsSubstitutions gsub.now lookups.now kept.now new.items) }
    // The limit never grows.
    ensures spends { limit.new ≤ limit.old }
    // `TooLong` leaves nothing of the limit. With `ListsTooLong`, the lists do not end in time.
    ensures why { IfErr result (λ e. Refuses e gsub.now limit.new) }
{
    let new = write_table(alloc, false, gsub, lookups, kept, limit)?;
    Ok(new)
}

/// Returns a `GSUB` table with the substitutions of chosen lookups for the kept glyphs, also of lookups that use classes or
/// sets of marks.
///
/// The table is as by `substitutions`, but lookups with any flag are kept. Each lookup has its whole flag, and the index of
/// its set of marks, if it uses one. So the new font needs a `GDEF` table with the same classes and sets of marks
/// ([`glyph_definitions`](crate::glyph_definitions)).
///
/// Units of the limit are paid as by `substitutions`.
///
/// # Errors
///
/// - `ListsTooLong`: the script list and the feature list, with the tables that they name, do not end within the table,
///   or within its first 65,535 bytes.
/// - `TooLarge`: an offset or a count would exceed 16 bits.
/// - `TooLong`: the table costs more than the limit.
/// - `Memory`: out of memory.
pub fn flagged_substitutions(
    alloc: Global,
    gsub: &[u8],
    lookups: &[u16],
    kept: &[u16],
    limit: &mut u64,
) -> Result<Vec<u8>>
    // Each chosen lookup has its flag, and substitutes kept glyphs in the same contexts.
    ensures kept { IfOk result (λ new. KeepsFlaggedSubstitutions gsub.now lookups.now kept.now new.items) }
    // The limit never grows.
    ensures spends { limit.new ≤ limit.old }
    // `TooLong` leaves nothing of the limit. With `ListsTooLong`, the lists do not end in time.
    ensures why { IfErr result (λ e. Refuses e gsub.now limit.new) }
{
    let new = write_table(alloc, true, gsub, lookups, kept, limit)?;
    Ok(new)
}
