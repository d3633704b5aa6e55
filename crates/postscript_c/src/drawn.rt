//! Draws glyphs into sinks, `seac` glyphs with their components. The functions are inlined into their callers: a call
//! would first clear the memory of its program, and copy its result.
ghost use Rattle.std.specs.Prelude.{◌⊎◌, Some, option_map, IfOk, IfErr, MatchOption, OnOk};
ghost use Rattle.postscript_c.specs.Drawn.{ArePaid, DrawsWhole, HasNone, HasNoneIn, IsCodeRefused, IsDrawnIn, IsDrawnOver, IsNamedRefused, IsSpentOnNamed, IsUndrawnOver, IsWholeRefused, AreNamed};
ghost use Rattle.postscript_drawing.specs.DrawnProgram.{IsWanting};
ghost use Rattle.postscript_drawing.specs.Drawn.{Takes};

use crate::font::PsfFont;
use crate::glyph::{index_at, program_over};
use crate::part::PsfPart;
use postscript_drawing::{Accent, Result, draw_components, draw_program};
use postscript_outline::{Point, Sink};
use postscript_type2::{Operand, Program};
use postscript_view::FontView;
use std::alloc::Global;

/// Draws a base and an accent. It is not inlined, since few glyphs have them and an open font is large.
#[inline(never)]
fn draw_both<S: Sink>(
    alloc: Global,
    bytes: &[u8],
    accent: Accent,
    limit: &mut u64,
    sink: &mut S,
) -> Result<()>
    ensures drawn { OnOk result (Takes S.after (S.state sink.old) (S.state sink.new) (AreNamed bytes.now (Some accent))) }
    ensures paid { OnOk result (ArePaid bytes.now (Some accent) limit.old limit.new) }
    ensures why { IfErr result (λ e. (IsWanting limit.new e × IsSpentOnNamed bytes.now limit.old limit.new)
        ⊎ IsNamedRefused bytes.now (Some accent) e) }
{
    let font = FontView::read_font(alloc, bytes, 0)?;
    draw_components(alloc, &font, &accent, limit, sink)
}

/// Draws the base and the accent of a glyph, if it has them.
#[inline(always)]
fn draw_named<S: Sink>(
    alloc: Global,
    bytes: &[u8],
    accent: Option<Accent>,
    limit: &mut u64,
    sink: &mut S,
) -> Result<()>
    ensures drawn { OnOk result (Takes S.after (S.state sink.old) (S.state sink.new) (AreNamed bytes.now accent)) }
    ensures paid { OnOk result (ArePaid bytes.now accent limit.old limit.new) }
    ensures why { IfErr result (λ e. (IsWanting limit.new e × IsSpentOnNamed bytes.now limit.old limit.new)
        ⊎ IsNamedRefused bytes.now accent e) }
{
    match accent {
        Some(accent) => draw_both(alloc, bytes, accent, limit, sink),
        None => Ok(()),
    }
}

/// Draws a program, and then the components of its glyph, within a limit.
#[inline(always)]
fn draw_whole<S: Sink>(
    alloc: Global,
    bytes: &[u8],
    program: &mut Program<'_>,
    limit: u64,
    sink: &mut S,
) -> Result<Option<Operand>>
    ensures drawn { IfOk result
        (λ width. Takes S.after (S.state sink.old) (S.state sink.new)
        (λ segments. DrawsWhole limit bytes.now program.old segments width)) }
    ensures why { IfErr result (λ e. IsWholeRefused limit bytes.now program.old e) }
{
    let mut left = limit;
    let width = draw_program(program, Point::ORIGIN, &mut left, sink)?;
    let accent = Accent::named_by(program.operands_at_end())?;
    draw_named(alloc, bytes, accent, &mut left, sink)?;
    Ok(width)
}

/// Draws a charstring with subroutines at two offsets. `None` if there is no charstring.
#[tactic(auto, unfolding(crate::specs::Glyphs::program_of))]
#[inline(always)]
fn draw_code<S: Sink>(
    alloc: Global,
    bytes: &[u8],
    code: Option<&[u8]>,
    global: u64,
    local: u64,
    limit: u64,
    sink: &mut S,
) -> Result<Option<Option<Operand>>>
    ensures drawn { IfOk result (λ found. MatchOption found (HasNoneIn bytes.now (option_map (λ code. code.now) code.entry) global local)
        (λ width. Takes S.after (S.state sink.old) (S.state sink.new)
        (λ segments. IsDrawnIn limit bytes.now (option_map (λ code. code.now) code.entry) global local segments width))) }
    ensures why { IfErr result (λ e. IsCodeRefused limit bytes.now (option_map (λ code. code.now) code.entry) global local e) }
{
    let Some(code) = code else {
        return Ok(None);
    };
    let globals = index_at(bytes, global)?;
    let locals = index_at(bytes, local)?;
    let mut program = program_over(alloc, code, globals, locals);
    let width = draw_whole(alloc, bytes, &mut program, limit, sink)?;
    Ok(Some(width))
}

/// Draws a glyph of a font for C, with this part. `None` if there is no such glyph.
#[tactic(auto, unfolding(crate::specs::Glyphs::program_at))]
#[inline(always)]
pub(crate) fn draw_over<S: Sink>(
    alloc: Global,
    bytes: &[u8],
    font: &PsfFont,
    part: &PsfPart,
    glyph: usize,
    sink: &mut S,
) -> Result<Option<Option<Operand>>>
    ensures drawn { IfOk result (λ found. MatchOption found (HasNone bytes.now font.now part.now glyph)
        (λ width. Takes S.after (S.state sink.old) (S.state sink.new)
        (λ segments. IsDrawnOver bytes.now font.now part.now glyph segments width))) }
    ensures why { IfErr result (λ e. IsUndrawnOver bytes.now font.now part.now glyph e) }
{
    let codes = index_at(bytes, font.char_strings)?;
    draw_code(
        alloc,
        bytes,
        codes.get(glyph),
        font.global_subroutines,
        part.local_subroutines,
        font.limit,
        sink,
    )
}
