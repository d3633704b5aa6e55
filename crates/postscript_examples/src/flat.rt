//! Flattened glyphs, which need no subroutines.
ghost use Rattle.std.specs.Prelude.{◌≡◌, ◌⊎◌, [], None, Some, map, slice_get, IfOk, IfErr, IsOkAnd, OnOk};
ghost use Rattle.postscript_base.specs.RefusalOf.{refusal_of};
ghost use Rattle.postscript_compact1.specs.Index.{Index};
ghost use Rattle.postscript_compact1.specs.FontSet.Value.{font_shown};
ghost use Rattle.postscript_type2.specs.Program.Routines.{Lists, subroutines, texts};
ghost use Rattle.postscript_examples.specs.Glyphs.{drawn_by, refused_by, first_refused_by, lists, HasGlyphs};

use postscript::compact1::FontSet;
use postscript::type2::Program;
use postscript::{Error, Result};
use std::alloc::Global;

/// Returns the code of a glyph without calls. With any subroutines, and with none, it draws the same.
pub fn flat(alloc: Global, code: &[u8], global: &[Vec<u8>], local: &[Vec<u8>]) -> Result<Vec<u8>>
    ensures same { IfOk result (λ flat. (other : Lists) →
        drawn_by other flat.items ≡ drawn_by (subroutines global.now local.now) code.now) }
    ensures alone { IfOk result (λ flat. drawn_by (subroutines [] []) flat.items ≡ drawn_by (subroutines global.now local.now) code.now) }
    ensures faultless { OnOk result (refused_by (subroutines global.now local.now) code.now ≡ None) }
    ensures refused { IfErr result
        (λ e. (e ≡ Error.Memory) ⊎ (refused_by (subroutines global.now local.now) code.now ≡ Some (refusal_of e))) }
{
    Program::flatten(alloc, code, global, local)
}

/// Returns the codes of several glyphs without calls. The subroutines of the font can then be dropped.
pub fn each_flat(
    alloc: Global,
    codes: &[Vec<u8>],
    global: &[Vec<u8>],
    local: &[Vec<u8>],
) -> Result<Vec<Vec<u8>>>
    ensures same { IfOk result (λ flat. map (λ code. drawn_by (subroutines [] []) code.items) flat.items ≡ map
        (λ code. drawn_by (subroutines global.now local.now) code.items) codes.now) }
    ensures faultless { OnOk result (first_refused_by (subroutines global.now local.now) (texts codes.now) ≡ None) }
    ensures refused { IfErr result
        (λ e. (e ≡ Error.Memory) ⊎ (first_refused_by (subroutines global.now local.now) (texts codes.now) ≡ Some (refusal_of e))) }
{
    let mut flat_codes = Vec::new(alloc);
    for code in codes {
        flat_codes.push(flat(alloc, code, global, local)?)?;
    }
    Ok(flat_codes)
}

/// Returns the glyphs of one of a font's dictionaries, counted from 0, as codes without calls. The list is empty if
/// there is no such dictionary.
pub fn flat_glyphs_of(alloc: Global, font: &FontSet, dictionary: usize) -> Result<Vec<Vec<u8>>>
    ensures same { (codes local : Index) → HasGlyphs (font_shown font.now) dictionary codes local →
        IfOk result (λ flat. map (λ code. drawn_by (subroutines [] []) code.items) flat.items
        ≡ map (drawn_by (lists (font_shown font.now).global_subroutines local)) codes.items) }
    ensures faultless { (codes local : Index) → HasGlyphs (font_shown font.now) dictionary codes local →
        OnOk result (first_refused_by (lists (font_shown font.now).global_subroutines local) codes.items ≡ None) }
    ensures refused { (codes local : Index) → HasGlyphs (font_shown font.now) dictionary codes local →
        IfErr result (λ e. (e ≡ Error.Memory)
        ⊎ (first_refused_by (lists (font_shown font.now).global_subroutines local) codes.items ≡ Some (refusal_of e))) }
    ensures absent { (slice_get (font_shown font.now).char_strings dictionary ≡ None)
        ⊎ (slice_get (font_shown font.now).local_subroutines dictionary ≡ None) →
        IsOkAnd result (λ flat. flat.items ≡ []) }
{
    let (Some(codes), Some(local)) = (
        font.char_strings.get(dictionary),
        font.local_subroutines.get(dictionary),
    ) else {
        return Ok(Vec::new(alloc));
    };
    each_flat(
        alloc,
        codes.data(),
        font.global_subroutines.data(),
        local.data(),
    )
}
