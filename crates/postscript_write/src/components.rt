//! The components of `seac` glyphs, which are kept with them (Technical Note 5177, Appendix C).
ghost use Rattle.std.specs.Prelude.{◌≡◌, ◌⊎◌, ◌++◌, ℕ, List, [], Option, Some, None, IfOk, IfErr, OnOk, MatchOption, option_to_list};
ghost use Rattle.std.specs.Bool.{OnTrue, OnFalse};
ghost use Rattle.postscript_drawing.specs.Accents.{IsAccent, run_by};
ghost use Rattle.postscript_drawing.specs.declared.accent.Accent.{Accent as AnAccent};
ghost use Rattle.postscript_base.specs.RefusalOf.{refusal_of};
ghost use Rattle.postscript_base.specs.declared.error.Error.TheVariants as causes;
ghost use Rattle.postscript_type2.specs.Program.Limit.{Spends};
ghost use Rattle.postscript_type2.specs.Program.Programs.{told_at_end};
ghost use Rattle.postscript_type2.specs.Program.Runs.{Phrase, fault_of, taken_by};
ghost use Rattle.postscript_view.specs.declared.font.FontView.{FontView};
ghost use Rattle.postscript_write.specs.Components.{AreComponentsOf, AreKnown, IsFound, IsSaid, IsSaidOf, IsUntold};
ghost use Rattle.postscript_write.specs.Stepping.{IsPaid, Leaves, StopsAt, StopsRun};
ghost use Rattle.postscript_write.specs.declared.error.Error.TheVariants as errors;

use crate::error::{Error, Result};
use postscript_base::Error as Cause;
use postscript_drawing::{Accent, Error as Undrawn, component_of};
use postscript_type2::laws::limit_is_cost;
use postscript_type2::{Operand, Program, Within};
use postscript_view::{FontView, Glyph};
use std::alloc::Global;

/// Runs a program to its end.
fn run_to_end(program: &mut Program<'_>) -> postscript_base::Result<()>
    ensures taken { OnOk result (told_at_end program.new ≡ taken_by program.old.end) }
    ensures refused { IfErr result (λ e. (e ≡ causes.Memory) ⊎ (fault_of program.old.end ≡ Some (refusal_of e))) }
{
    loop {
        match program.step()? {
            Some(_operation) => {}
            None => return Ok(()),
        }
    }
}

/// Runs a program to its end within a limit. Returns whether the limit suffices.
fn run_within(program: &mut Program<'_>, limit: &mut u64) -> postscript_base::Result<bool>
    ensures taken { IfOk result (λ ended. OnTrue ended (told_at_end program.new ≡ taken_by program.old.end)) }
    ensures paid { IfOk result (λ ended. OnTrue ended (Spends limit.old program.old.trace limit.new [])) }
    ensures faultless { IfOk result (λ ended. OnTrue ended (fault_of program.old.end ≡ None)) }
    ensures used_up { IfOk result (λ ended. OnFalse ended ((rest : List Phrase) × Spends limit.old program.old.trace 0 rest)) }
    ensures refused { IfErr result (λ e. (e ≡ causes.Memory) ⊎ (fault_of program.old.end ≡ Some (refusal_of e))) }
{
    loop {
        match program.step_within(limit) {
            Ok(Within::Operation(..)) => {}
            Ok(Within::End) => return Ok(true),
            Ok(Within::Paused) => return Ok(false),
            Err(e) => return Err(e),
        }
    }
}

/// The codes of base and accent in the operands of `endchar`, if it has them.
fn named_by(operands: &[Operand]) -> Option<Accent>
    ensures { MatchOption result ((accent : AnAccent) → IsAccent operands.now accent → ⊥) (λ accent. IsAccent operands.now accent) }
{
    match Accent::named_by(operands) {
        Ok(found) => found,
        Err(_) => None,
    }
}

/// The codes of base and accent of a `seac` glyph, by its run within a limit.
fn said_within(
    alloc: Global,
    glyph: &Glyph<'_, '_>,
    number: usize,
    limit: &mut u64,
) -> Result<Option<Accent>>
    ensures said { IfOk result (λ found. IsSaid found (run_by glyph.now)) }
    ensures paid { OnOk result (IsPaid (run_by glyph.now) limit.old limit.new) }
    ensures stops { IfErr result (λ e. StopsRun (run_by glyph.now) number limit.old e) }
{
    let mut program = glyph.program(alloc);
    match run_within(&mut program, limit) {
        Ok(true) => Ok(named_by(program.operands_at_end())),
        Ok(false) => Err(Error::TooLong),
        Err(Cause::Memory) => Err(Error::Refused(Cause::Memory)),
        Err(cause) => Err(Error::Glyph(number, cause)),
    }
}

/// The codes of base and accent of a `seac` glyph, by its run. A run that fails gives none: its error is reported when
/// its charstring is written.
fn said_by(alloc: Global, glyph: &Glyph<'_, '_>) -> Result<Option<Accent>>
    ensures said { IfOk result (λ found. IsSaid found (run_by glyph.now)) }
    ensures memory { IfErr result (λ e. e ≡ errors.Refused causes.Memory) }
{
    let mut program = glyph.program(alloc);
    match run_to_end(&mut program) {
        Ok(()) => Ok(named_by(program.operands_at_end())),
        Err(Cause::Memory) => Err(Error::Refused(Cause::Memory)),
        Err(_) => Ok(None),
    }
}

/// The codes of base and accent of a glyph, if it is a `seac` glyph.
fn accent_of(
    alloc: Global,
    font: &FontView<'_>,
    glyph: usize,
    limit: &mut Option<u64>,
) -> Result<Option<Accent>>
    ensures said { IfOk result (λ found. IsSaidOf font.now glyph found) }
    ensures leaves { OnOk result (Leaves font.now limit.old glyph limit.new) }
    ensures stops { IfErr result (λ e. StopsAt font.now glyph limit.old e) }
{
    limit_is_cost();
    match font.glyph(glyph) {
        None => Ok(None),
        Some(found) => match limit {
            Some(left) => said_within(alloc, &found, glyph, left),
            None => said_by(alloc, &found),
        },
    }
}

/// The glyph with a code, if the font has one, by a search through all names.
fn look_up(font: &FontView<'_>, code: u8) -> Result<Option<usize>>
    ensures found { IfOk result (λ found. IsFound font.now code found) }
    ensures untold { IfErr result (λ e. IsUntold font.now e) }
{
    match component_of(font, code) {
        Ok(glyph) => Ok(Some(glyph)),
        Err(Undrawn::Font(cause)) => Err(Error::Refused(cause)),
        Err(Undrawn::NoAccents) => Ok(None),
        Err(Undrawn::MissingComponent(_)) => Ok(None),
        Err(Undrawn::Full) => Ok(None),
        Err(Undrawn::TooLong) => Ok(None),
        Err(Undrawn::NoCode) => Ok(None),
        Err(Undrawn::NoSuchGlyph(_)) => Ok(None),
        Err(Undrawn::NestedAccent(_)) => Ok(None),
    }
}

/// A list of codes without any result.
pub(crate) fn none_known(alloc: Global) -> Result<Vec<Option<Option<usize>>>>
    ensures known { IfOk result (λ known. (font : FontView) → AreKnown font known.items) }
    ensures memory { IfErr result (λ e. e ≡ errors.Refused causes.Memory) }
{
    Ok(vec![in alloc; None; 256]?)
}

/// The glyph with a code, if the font has one. Each code is searched once.
fn found_by(
    font: &FontView<'_>,
    code: u8,
    known: &mut Vec<Option<Option<usize>>>,
) -> Result<Option<usize>>
    requires known { AreKnown font.now known.old.items }
    ensures known { OnOk result (AreKnown font.now known.new.items) }
    ensures found { IfOk result (λ found. IsFound font.now code found) }
    ensures untold { IfErr result (λ e. IsUntold font.now e) }
{
    let place = usize::from(code);
    if let Some(found) = known[place] {
        return Ok(found);
    }
    let found = look_up(font, code)?;
    known[place] = Some(found);
    Ok(found)
}

/// Appends a glyph, if there is one.
fn push_some(components: &mut Vec<usize>, found: Option<usize>) -> Result<()>
    ensures pushed { OnOk result (components.new.items ≡ components.old.items ++ option_to_list found) }
    ensures memory { IfErr result (λ e. e ≡ errors.Refused causes.Memory) }
{
    if let Some(glyph) = found {
        components.push(glyph)?;
    }
    Ok(())
}

/// Appends the base and the accent, if the font has them.
fn push_both(
    font: &FontView<'_>,
    accent: &Accent,
    known: &mut Vec<Option<Option<usize>>>,
    components: &mut Vec<usize>,
) -> Result<()>
    requires known { AreKnown font.now known.old.items }
    ensures known { OnOk result (AreKnown font.now known.new.items) }
    ensures pushed { OnOk result ((base above : Option ℕ) × IsFound font.now accent.now.base base × IsFound font.now accent.now.accent above
        × (components.new.items ≡ components.old.items ++ (option_to_list base ++ option_to_list above))) }
    ensures untold { IfErr result (λ e. IsUntold font.now e) }
{
    let base = found_by(font, accent.base, known)?;
    let above = found_by(font, accent.accent, known)?;
    push_some(components, base)?;
    push_some(components, above)
}

/// Appends the components of a glyph that the font has.
pub(crate) fn push_components(
    alloc: Global,
    font: &FontView<'_>,
    glyph: usize,
    known: &mut Vec<Option<Option<usize>>>,
    components: &mut Vec<usize>,
    limit: &mut Option<u64>,
) -> Result<()>
    requires known { AreKnown font.now known.old.items }
    ensures known { OnOk result (AreKnown font.now known.new.items) }
    ensures pushed { OnOk result ((added : List ℕ) × AreComponentsOf font.now glyph added
        × (components.new.items ≡ components.old.items ++ added)) }
    ensures leaves { OnOk result (Leaves font.now limit.old glyph limit.new) }
    ensures stops { IfErr result (λ e. IsUntold font.now e ⊎ StopsAt font.now glyph limit.old e) }
{
    let said = accent_of(alloc, font, glyph, limit)?;
    match said {
        Some(accent) => push_both(font, &accent, known, components),
        None => Ok(()),
    }
}
