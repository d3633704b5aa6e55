//! The substitutions of a subtable for one covered glyph.
ghost use Rattle.std.specs.Prelude.{◌≡◌, ◌⊎◌, ◌+◌, ◌-◌, ◌*◌, ◌^◌, ◌<◌, [], ◌∷◌, true, false, OnOk, IfErr, ◌≤◌};
ghost use Rattle.postscript_layout.specs.Numbers.{word as the_word, words as the_words};
ghost use Rattle.postscript_layout.specs.Substitutions.{SubstitutesGlyph, part_of as the_part, reverse_offset as the_reverse_offset};
ghost use Rattle.postscript_layout.specs.Steps.{Below, Follows, IsHeld, Makes, joins};
ghost use Rattle.postscript_layout.specs.Costs.{IsShort, glyph_cost, ligature_cost, substitutes_cost, total};

use crate::error::Result;
use crate::glyph_set::{GlyphSet, pay};
use crate::numbers::word;

/// Returns the offset of part `i` of those that an array of offsets lists.
pub(crate) fn part_of(gsub: &[u8], from: usize, offsets: usize, i: usize) -> usize
    requires from { from < 2 ^ 35 }
    requires offsets { offsets < 2 ^ 35 }
    requires few { i < 262144 }
    ensures exact { result ≡ the_part gsub.now from offsets i }
    ensures near { result < from + 65536 }
{
    from + word(gsub, offsets + i * 2)
}

/// Substitutes one glyph for another.
fn give(set: &mut GlyphSet, glyph: usize, other: usize)
    requires held { IsHeld set.old glyph }
    requires other { other < 65536 }
    ensures { Follows (Makes (glyph ∷ []) (other ∷ [])) set.old set.new }
{
    let _ = glyph;
    set.hold(other);
}

/// Substitutes the glyphs of a sequence or a set of alternates for a glyph.
fn give_several(
    gsub: &[u8],
    offset: usize,
    glyph: usize,
    set: &mut GlyphSet,
    limit: &mut u64,
) -> Result<()>
    requires near { offset < 2 ^ 35 }
    requires held { IsHeld set.old glyph }
    ensures done { OnOk result (Follows (Makes (glyph ∷ []) (the_words gsub.now (offset + 2) (the_word gsub.now offset))) set.old set.new) }
    ensures spends { limit.new ≤ limit.old }
    ensures within { OnOk result (limit.old ≤ limit.new + (the_word gsub.now offset)) }
    ensures why { IfErr result (λ e. IsShort (the_word gsub.now offset) limit.old limit.new e) }
{
    let _ = glyph;
    let count = word(gsub, offset);
    set.hold_words(gsub, offset + 2, count, limit)?;
    Ok(())
}

/// Substitutes a ligature, if the set has its components.
fn join(gsub: &[u8], offset: usize, glyph: usize, set: &mut GlyphSet, limit: &mut u64) -> Result<()>
    requires near { offset < 2 ^ 35 }
    requires held { IsHeld set.old glyph }
    ensures done { OnOk result (Follows (joins gsub.now glyph offset) set.old set.new) }
    ensures spends { limit.new ≤ limit.old }
    ensures within { OnOk result (limit.old ≤ limit.new + (the_word gsub.now (offset + 2) - 1)) }
    ensures why { IfErr result (λ e. IsShort (the_word gsub.now (offset + 2) - 1) limit.old limit.new e) }
{
    let _ = glyph;
    let components = word(gsub, offset + 2).saturating_sub(1);
    let all = set.holds_words(gsub, offset + 4, components, limit)?;
    if !all {
        return Ok(());
    }
    let ligature = word(gsub, offset);
    set.hold(ligature);
    Ok(())
}

/// Substitutes each ligature of a set.
fn join_each(
    gsub: &[u8],
    offset: usize,
    glyph: usize,
    set: &mut GlyphSet,
    limit: &mut u64,
) -> Result<()>
    requires near { offset < 2 ^ 34 }
    requires held { IsHeld set.old glyph }
    ensures done { OnOk result (Follows (Below (λ k. joins gsub.now glyph (the_part gsub.now offset (offset + 2) k)) (the_word gsub.now offset)) set.old set.new) }
    ensures spends { limit.new ≤ limit.old }
    ensures within { OnOk result (limit.old ≤ limit.new + (total (λ k. ligature_cost gsub.now (the_part gsub.now offset (offset + 2) k)) (the_word gsub.now offset))) }
    ensures why { IfErr result (λ e. IsShort (total (λ k. ligature_cost gsub.now (the_part gsub.now offset (offset + 2) k)) (the_word gsub.now offset)) limit.old limit.new e) }
{
    let count = word(gsub, offset);
    for k in 0..count {
        pay(limit)?;
        let ligature = part_of(gsub, offset, offset + 2, k);
        join(gsub, ligature, glyph, set, limit)?;
    }
    Ok(())
}

/// Applies a subtable of type 1, single.
fn follow_single(gsub: &[u8], subtable: usize, i: usize, glyph: usize, set: &mut GlyphSet)
    requires near { subtable < 2 ^ 34 }
    requires few { i < 131072 }
    requires glyph { glyph < 65536 }
    requires held { IsHeld set.old glyph }
    ensures { Follows (SubstitutesGlyph gsub.now 1 subtable i glyph) set.old set.new }
{
    match word(gsub, subtable) {
        1 => give(set, glyph, (glyph + word(gsub, subtable + 4)) % 65536),
        2 => {
            if i < word(gsub, subtable + 4) {
                give(set, glyph, word(gsub, subtable + 6 + i * 2));
            }
        }
        _ => {}
    }
}

/// Returns whether a subtable has format 1 and a set for coverage index `i`.
fn has_offset(gsub: &[u8], subtable: usize, i: usize) -> bool
    requires near { subtable < 2 ^ 34 }
    ensures yes { result ≡ true → (the_word gsub.now subtable ≡ 1) × (i < the_word gsub.now (subtable + 4)) }
    ensures no { result ≡ false → the_word gsub.now subtable ≡ 1 → i < the_word gsub.now (subtable + 4) → ⊥ }
{
    word(gsub, subtable) == 1 && i < word(gsub, subtable + 4)
}

/// Applies a subtable of type 2 or 3, multiple or alternate.
fn follow_several(
    gsub: &[u8],
    kind: usize,
    subtable: usize,
    i: usize,
    glyph: usize,
    set: &mut GlyphSet,
    limit: &mut u64,
) -> Result<()>
    requires kind { (kind ≡ 2) ⊎ (kind ≡ 3) }
    requires near { subtable < 2 ^ 34 }
    requires few { i < 131072 }
    requires held { IsHeld set.old glyph }
    ensures done { OnOk result (Follows (SubstitutesGlyph gsub.now kind subtable i glyph) set.old set.new) }
    ensures spends { limit.new ≤ limit.old }
    ensures within { OnOk result (limit.old ≤ limit.new + (substitutes_cost gsub.now kind subtable i)) }
    ensures why { IfErr result (λ e. IsShort (substitutes_cost gsub.now kind subtable i) limit.old limit.new e) }
{
    let _ = kind;
    if !has_offset(gsub, subtable, i) {
        return Ok(());
    }
    let offset = part_of(gsub, subtable, subtable + 6, i);
    give_several(gsub, offset, glyph, set, limit)?;
    Ok(())
}

/// Applies a subtable of type 4, ligature.
fn follow_ligatures(
    gsub: &[u8],
    subtable: usize,
    i: usize,
    glyph: usize,
    set: &mut GlyphSet,
    limit: &mut u64,
) -> Result<()>
    requires near { subtable < 2 ^ 33 }
    requires few { i < 131072 }
    requires held { IsHeld set.old glyph }
    ensures done { OnOk result (Follows (SubstitutesGlyph gsub.now 4 subtable i glyph) set.old set.new) }
    ensures spends { limit.new ≤ limit.old }
    ensures within { OnOk result (limit.old ≤ limit.new + (substitutes_cost gsub.now 4 subtable i)) }
    ensures why { IfErr result (λ e. IsShort (substitutes_cost gsub.now 4 subtable i) limit.old limit.new e) }
{
    if !has_offset(gsub, subtable, i) {
        return Ok(());
    }
    let offset = part_of(gsub, subtable, subtable + 6, i);
    join_each(gsub, offset, glyph, set, limit)?;
    Ok(())
}

/// Returns the offset of the number of substitutes of a reverse chaining subtable.
fn reverse_offset(gsub: &[u8], subtable: usize) -> usize
    requires near { subtable < 2 ^ 34 }
    ensures exact { result ≡ the_reverse_offset gsub.now subtable }
    ensures near { result < subtable + 524288 }
{
    let ahead = subtable + 6 + word(gsub, subtable + 4) * 2;
    ahead + 2 + word(gsub, ahead) * 2
}

/// Applies a subtable of type 8, reverse chaining single.
fn follow_reverse(gsub: &[u8], subtable: usize, i: usize, glyph: usize, set: &mut GlyphSet)
    requires near { subtable < 2 ^ 34 }
    requires few { i < 131072 }
    requires held { IsHeld set.old glyph }
    ensures { Follows (SubstitutesGlyph gsub.now 8 subtable i glyph) set.old set.new }
{
    let offset = reverse_offset(gsub, subtable);
    if word(gsub, subtable) == 1 && i < word(gsub, offset) {
        give(set, glyph, word(gsub, offset + 2 + i * 2));
    }
}

/// Applies a subtable of any type to a glyph of the set.
fn follow_held(
    gsub: &[u8],
    kind: usize,
    subtable: usize,
    i: usize,
    glyph: usize,
    set: &mut GlyphSet,
    limit: &mut u64,
) -> Result<()>
    requires near { subtable < 2 ^ 33 }
    requires few { i < 131072 }
    requires glyph { glyph < 65536 }
    requires held { IsHeld set.old glyph }
    ensures done { OnOk result (Follows (SubstitutesGlyph gsub.now kind subtable i glyph) set.old set.new) }
    ensures spends { limit.new ≤ limit.old }
    ensures within { OnOk result (limit.old ≤ limit.new + (substitutes_cost gsub.now kind subtable i)) }
    ensures why { IfErr result (λ e. IsShort (substitutes_cost gsub.now kind subtable i) limit.old limit.new e) }
{
    match kind {
        1 => {
            follow_single(gsub, subtable, i, glyph, set);
            Ok(())
        }
        2 | 3 => {
            follow_several(gsub, kind, subtable, i, glyph, set, limit)?;
            Ok(())
        }
        4 => {
            follow_ligatures(gsub, subtable, i, glyph, set, limit)?;
            Ok(())
        }
        8 => {
            follow_reverse(gsub, subtable, i, glyph, set);
            Ok(())
        }
        _ => Ok(()),
    }
}

/// Applies a subtable of any type to a covered glyph. It pays one unit, also if the set does not have the glyph.
pub(crate) fn follow_glyph(
    gsub: &[u8],
    kind: usize,
    subtable: usize,
    i: usize,
    glyph: usize,
    set: &mut GlyphSet,
    limit: &mut u64,
) -> Result<()>
    requires near { subtable < 2 ^ 33 }
    requires few { i < 131072 }
    requires glyph { glyph < 65536 }
    ensures done { OnOk result (Follows (SubstitutesGlyph gsub.now kind subtable i glyph) set.old set.new) }
    ensures spends { limit.new ≤ limit.old }
    ensures within { OnOk result (limit.old ≤ limit.new + (glyph_cost gsub.now kind subtable i)) }
    ensures why { IfErr result (λ e. IsShort (glyph_cost gsub.now kind subtable i) limit.old limit.new e) }
{
    pay(limit)?;
    if !set.holds(glyph) {
        return Ok(());
    }
    follow_held(gsub, kind, subtable, i, glyph, set, limit)?;
    Ok(())
}
