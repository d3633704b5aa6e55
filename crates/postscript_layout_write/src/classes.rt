//! Writes a `GDEF` table with glyph classes.
ghost use Rattle.std.specs.Prelude.{◌≡◌, ◌⊎◌, ◌+◌, ◌<◌, ◌≤◌, ◌++◌, length, IfErr, IfOk, OnOk};
ghost use Rattle.postscript_layout_write.specs.Classes.{AreClasses, KeepsClasses, glyph_class as the_class, RefusesClasses};
ghost use Rattle.postscript_layout_write.specs.Refusals.{IsUsedUp};
ghost use Rattle.postscript_layout_write.specs.Text.{array_text};
ghost use Rattle.postscript_layout_write.specs.declared.error.Error.TheVariants as errors;

use crate::error::{Error, Result};
use crate::limit::pay;
use crate::numbers::word;
use crate::ranges::class_of;
use crate::subtables::put_glyphs;
use std::alloc::Global;

/// Returns the class of a glyph in a `GDEF` table: 1 to 4, or 0 for none.
fn glyph_class(gdef: &[u8], glyph: usize, limit: &mut u64) -> Result<usize>
    requires { glyph < 65536 }
    ensures exact { IfOk result (λ class. class ≡ the_class gdef.now glyph) }
    ensures small { IfOk result (λ class. class < 5) }
    ensures spends { limit.new ≤ limit.old }
    ensures why { IfErr result (λ e. IsUsedUp limit.new e) }
{
    let classes = word(gdef, 4);
    if classes == 0 {
        return Ok(0);
    }
    let class = class_of(gdef, classes, glyph, limit)?;
    if class > 4 { Ok(0) } else { Ok(class) }
}

/// Collects the classes of the kept glyphs.
pub(crate) fn classes_of(
    alloc: Global,
    gdef: &[u8],
    kept: &[u16],
    limit: &mut u64,
) -> Result<Vec<u16>>
    ensures exact { IfOk result (λ classes. AreClasses gdef.now kept.now classes.items) }
    ensures spends { limit.new ≤ limit.old }
    ensures why { IfErr result (λ e. (e ≡ errors.Memory) ⊎ IsUsedUp limit.new e) }
{
    let mut classes = Vec::new(alloc);
    for k in 0..kept.len() {
        pay(limit)?;
        let class = glyph_class(gdef, kept[k] as usize, limit)?;
        classes.push(class as u16)?;
    }
    Ok(classes)
}

/// Returns a `GDEF` table with the classes of the kept glyphs.
///
/// `kept` has the old numbers of the glyphs. The new number of a glyph is its index there. The new table has version 1.0
/// and glyph classes (base, ligature, mark, component) only.
///
/// One unit of the limit is paid for each kept glyph, and for each range that is looked at.
///
/// # Errors
///
/// - `TooLarge`: there are more than 65,535 glyphs.
/// - `TooLong`: the table costs more than the limit.
/// - `Memory`: out of memory.
#[tactic(auto, unfolding(crate::specs::Text::array_text))]
pub fn glyph_classes(alloc: Global, gdef: &[u8], kept: &[u16], limit: &mut u64) -> Result<Vec<u8>>
    // Each kept glyph has its class, and no other glyph has one.
    ensures kept { IfOk result (λ new. KeepsClasses gdef.now kept.now new.items) }
    // The limit never grows.
    ensures spends { limit.new ≤ limit.old }
    // `TooLong` leaves nothing of the limit. `TooLarge` means more than 65,535 glyphs.
    ensures why { IfErr result (λ e. RefusesClasses e kept.now limit.new) }
    // More than 65,535 glyphs are refused.
    ensures few { OnOk result (length kept.now < 65536) }
{
    if kept.len() > 65535 {
        return Err(Error::TooLarge);
    }
    let classes = classes_of(alloc, gdef, kept, limit)?;
    let mut out = Vec::new(alloc);
    put_glyphs(&mut out, &[1, 0, 12, 0, 0, 0, 1, 0, kept.len() as u16])?;
    put_glyphs(&mut out, &classes)?;
    Ok(out)
}
