//! Drawing of glyphs, with the components of `seac` glyphs.
ghost use Rattle.std.specs.Prelude.{◌≡◌, ◌≢◌, ◌⊎◌, ◌<◌, Err, List, [], IfOk, IfErr, OnErr, OnOk, false, true};
ghost use Rattle.postscript_base.specs.declared.error.Error.TheVariants as causes;
ghost use Rattle.postscript_drawing.specs.Accents.{IsTold, run_by};
ghost use Rattle.postscript_drawing.specs.DrawnProgram.{DrawsOfFirst, IsUndrawn, IsWanting};
ghost use Rattle.postscript_drawing.specs.Drawn.{DrawsAt, DrawsComponent, DrawsComponents, DrawsGlyph, HasOwn, IsDrawnAs, Takes};
ghost use Rattle.postscript_drawing.specs.Given.{GivesComponent, GivesComponents, GivesGlyph, GivesOwn};
ghost use Rattle.postscript_drawing.specs.Outcome.{OrFull};
ghost use Rattle.postscript_drawing.specs.Refused.{AreRefused, IsComponentRefused, IsGlyphRefused, IsUndrawnGlyph, IsUnread};
ghost use Rattle.postscript_drawing.specs.Spending.{PaysCode, PaysComponents, PaysDrawing, PaysOwn, SpendsOnCode, SpendsOnComponents, SpendsOnGlyph, SpendsOnOwn, SpendsOnRuns, SufficesFor, SufficesForCode, SufficesForComponents, SufficesForOwn};
ghost use Rattle.postscript_drawing.specs.declared.error.Error.TheVariants as errors;
ghost use Rattle.postscript_outline.specs.Points.{point};
ghost use Rattle.postscript_type2.specs.Program.Limit.{cost, Spends};
ghost use Rattle.postscript_type2.specs.Program.Runs.{Phrase, width_of};

use crate::accent::Accent;
use crate::component::component_of;
use crate::error::{Error, Result};
use crate::program::draw_program;
use postscript_base::Error as Cause;
use postscript_outline::{Outline, Point, Sink};
use postscript_type2::Operand;
use postscript_type2::laws::runs_end_so;
use postscript_view::{FontView, Glyph};
use std::alloc::Global;

/// The number of segments for which memory is allocated at first. Most glyphs have fewer.
const ROOM: usize = 32;

/// Returns the outline of a glyph of a font: the segments that [`draw_glyph`] draws, and the width minus nominalWidthX.
/// They are in 16.16 format, in the units of the font.
///
/// # Errors
///
/// - The errors of [`draw_glyph`] except `Full`. If the list of segments runs out of memory, the error is `Font` with
///   `Memory`.
pub fn outline_of(
    alloc: Global,
    font: &FontView<'_>,
    glyph: usize,
    limit: &mut u64,
) -> Result<Outline>
    // On success the outline has the segments of the glyph and its components, and the width.
    ensures found { IfOk result (λ outline. IsDrawnAs font.now glyph outline.segments.items outline.width_difference) }
    // The error gives a cause that holds (`IsUndrawnGlyph`, specs/Refused.antt).
    ensures why { IfErr result (λ e. IsUndrawnGlyph font.now glyph limit.new e) }
    // The error is never `Full`.
    ensures memory { result ≢ Err errors.Full }
    // On success all phrases of the glyph and its components are paid from the limit.
    ensures paid { OnOk result (PaysDrawing font.now glyph limit.old limit.new) }
    // Only phrases of the runs of at most three glyphs are paid from the limit.
    ensures spends { SpendsOnRuns font.now 3 limit.old limit.new }
    // The limit pays only for the runs of the glyph and of the components that it names.
    ensures named { SpendsOnGlyph font.now glyph limit.old limit.new }
    // If the runs of the glyph and its components cost less than the limit, it is never `TooLong`.
    ensures suffices { SufficesFor font.now glyph limit.old → result ≢ Err errors.TooLong }
{
    match outline_or_full(alloc, font, glyph, limit) {
        Err(Error::Full) => Err(Error::Font(Cause::Memory)),
        answer => answer,
    }
}

/// The same, but it fails with `Full` if the list of segments runs out of memory.
fn outline_or_full(
    alloc: Global,
    font: &FontView<'_>,
    glyph: usize,
    limit: &mut u64,
) -> Result<Outline>
    ensures found { IfOk result (λ outline. IsDrawnAs font.now glyph outline.segments.items outline.width_difference) }
    ensures why { IfErr result (λ e. IsUndrawnGlyph font.now glyph limit.new e) }
    ensures paid { OnOk result (PaysDrawing font.now glyph limit.old limit.new) }
    ensures spends { SpendsOnRuns font.now 3 limit.old limit.new }
    ensures named { SpendsOnGlyph font.now glyph limit.old limit.new }
    ensures suffices { SufficesFor font.now glyph limit.old → result ≢ Err errors.TooLong }
{
    let mut segments = Vec::with_capacity(alloc, ROOM)?;
    let width = draw_glyph(alloc, font, glyph, limit, &mut segments)?;
    Ok(Outline {
        segments,
        width_difference: width,
    })
}

/// Draws a glyph into a sink, and returns the width minus nominalWidthX of its own run. The sink receives the segments
/// in order as the run produces them. For a `seac` glyph (Technical Note 5177, Appendix C) these are its own segments,
/// then the base's, and then the accent's, moved as the operands say.
///
/// The runs of the glyph, of its base and of its accent share the limit, and `limit` is set to the units left.
/// `Program::step_within` describes how they spend it. On success all of them are paid for. If they together cost less
/// than the limit, the error is never `TooLong`.
///
/// On an error the sink has received some first segments: none, some of the glyph's own run, or all of these and some
/// of its components (`specs/Given.antt`). It has received none of a stroke that leaves the range.
///
/// # Errors
///
/// - `NoSuchGlyph`: there is no such glyph.
/// - `NoCode`: as for [`Accent::named_by`].
/// - `NoAccents`, `MissingComponent`: as for [`component_of`], for the base or the accent.
/// - `NestedAccent`: the base or the accent is itself a `seac` glyph.
/// - `TooLong`: the limit is used up before the end.
/// - `Full`: the sink takes no more segments.
/// - `Font`: the error of a run or of the charset, `Overflow` if a coordinate leaves the range, or `Memory`.
pub fn draw_glyph<S: Sink>(
    alloc: Global,
    font: &FontView<'_>,
    glyph: usize,
    limit: &mut u64,
    sink: &mut S,
) -> Result<Option<Operand>>
    // On success the sink has received all segments, with components, and the width is the run's.
    ensures drawn { IfOk result (λ width. DrawsGlyph S.after (S.state sink.old) (S.state sink.new) font.now glyph width) }
    // The error gives a cause that holds (`IsUndrawnGlyph`, specs/Refused.antt).
    ensures why { IfErr result (λ e. IsUndrawnGlyph font.now glyph limit.new e) }
    // On an error the sink has received some first segments, and none of a stroke out of range.
    ensures front { OnErr result (GivesGlyph S.after (S.state sink.old) (S.state sink.new) font.now glyph) }
    // On `Full` the glyph has one more segment, which the sink did not take (`OrFull`).
    ensures more { result ≡ Err errors.Full →
        GivesGlyph (OrFull S.after) (S.state sink.old, false) (S.state sink.new, true) font.now glyph }
    // On `Full` the sink is in a state in which it may be full (`refuses`).
    ensures full { result ≡ Err errors.Full → S.refuses (S.state sink.new) }
    // On success all phrases of the glyph and its components are paid from the limit.
    ensures paid { OnOk result (PaysDrawing font.now glyph limit.old limit.new) }
    // Only phrases of the runs of at most three glyphs are paid from the limit.
    ensures spends { SpendsOnRuns font.now 3 limit.old limit.new }
    // The limit pays only for the runs of the glyph and of the components that it names.
    ensures named { SpendsOnGlyph font.now glyph limit.old limit.new }
    // If the runs of the glyph and its components cost less than the limit, it is never `TooLong`.
    ensures suffices { SufficesFor font.now glyph limit.old → result ≢ Err errors.TooLong }
{
    let Own { width, accent } = draw_own(alloc, font, glyph, Point::ORIGIN, limit, sink)?;
    match accent {
        None => Ok(width),
        Some(accent) => {
            draw_components(alloc, font, &accent, limit, sink)?;
            Ok(width)
        }
    }
}

/// The origin of the accent.
fn place_of(accent: &Accent) -> Point
    ensures { result ≡ point accent.now.dx accent.now.dy }
{
    Point {
        x: accent.dx.bits(),
        y: accent.dy.bits(),
    }
}

/// The results of the run of a glyph, apart from its segments: the width, and the operands of a `seac` glyph.
#[derive(Drop)]
struct Own {
    width: Option<Operand>,
    accent: Option<Accent>,
}

/// Draws a glyph of a font from a point, without components.
fn draw_own<S: Sink>(
    alloc: Global,
    font: &FontView<'_>,
    glyph: usize,
    origin: Point,
    limit: &mut u64,
    sink: &mut S,
) -> Result<Own>
    ensures own { IfOk result
        (λ own. Takes S.after (S.state sink.old) (S.state sink.new)
        (λ segments. HasOwn font.now glyph origin segments own.width own.accent)) }
    ensures paid { IfOk result (λ own. PaysOwn font.now glyph own.accent limit.old limit.new) }
    ensures spends { SpendsOnRuns font.now 1 limit.old limit.new }
    ensures named { SpendsOnOwn font.now glyph limit.old limit.new }
    ensures suffices { SufficesForOwn font.now glyph limit.old → result ≢ Err errors.TooLong }
    ensures why { IfErr result (λ e. IsWanting limit.new e ⊎ IsGlyphRefused font.now glyph origin e) }
    ensures front { OnErr result (GivesOwn S.after origin (S.state sink.old) (S.state sink.new) font.now glyph) }
    ensures more { result ≡ Err errors.Full →
        GivesOwn (OrFull S.after) origin (S.state sink.old, false) (S.state sink.new, true) font.now glyph }
    ensures full { result ≡ Err errors.Full → S.refuses (S.state sink.new) }
{
    match font.glyph(glyph) {
        Some(found) => draw_run(alloc, &found, origin, limit, sink),
        None => Err(Error::NoSuchGlyph(glyph)),
    }
}

/// Draws the run of a glyph from a point, and interprets the operands that its `endchar` took.
fn draw_run<S: Sink>(
    alloc: Global,
    glyph: &Glyph<'_, '_>,
    origin: Point,
    limit: &mut u64,
    sink: &mut S,
) -> Result<Own>
    ensures drawn { IfOk result (λ own. Takes S.after (S.state sink.old) (S.state sink.new) (DrawsAt origin (run_by glyph.now))) }
    ensures width { IfOk result (λ own. own.width ≡ width_of (run_by glyph.now)) }
    ensures told { IfOk result (λ own. IsTold own.accent (run_by glyph.now)) }
    ensures paid { OnOk result (Spends limit.old (run_by glyph.now).trace limit.new []) }
    ensures spends { (rest : List Phrase) × Spends limit.old (run_by glyph.now).trace limit.new rest }
    ensures suffices { cost (run_by glyph.now).trace < limit.old → result ≢ Err errors.TooLong }
    ensures why { IfErr result (λ e. IsWanting limit.new e ⊎ IsUndrawn origin e (run_by glyph.now).answers (run_by glyph.now).end
        ⊎ IsUnread e (run_by glyph.now)) }
    ensures given { OnErr result (DrawsOfFirst S.after origin (S.state sink.old) (S.state sink.new) (run_by glyph.now).answers) }
    ensures more { result ≡ Err errors.Full →
        DrawsOfFirst (OrFull S.after) origin (S.state sink.old, false) (S.state sink.new, true) (run_by glyph.now).answers }
    ensures full { result ≡ Err errors.Full → S.refuses (S.state sink.new) }
{
    runs_end_so();
    let mut program = glyph.program(alloc);
    let width = draw_program(&mut program, origin, limit, sink)?;
    let accent = Accent::named_by(program.operands_at_end())?;
    Ok(Own { width, accent })
}

/// Draws the components of a `seac` glyph into a sink: the segments of the base, and then those of the accent, moved as
/// the operands say. Their runs share the limit.
///
/// # Errors
///
/// - The errors of [`draw_glyph`] for the base or the accent. If both have errors, it is the base's.
pub fn draw_components<S: Sink>(
    alloc: Global,
    font: &FontView<'_>,
    accent: &Accent,
    limit: &mut u64,
    sink: &mut S,
) -> Result<()>
    // On success the sink has received the segments of the base, and then of the accent.
    ensures drawn { OnOk result (Takes S.after (S.state sink.old) (S.state sink.new) (DrawsComponents font.now accent.now)) }
    // On success all phrases of the base and of the accent are paid from the limit.
    ensures paid { OnOk result (PaysComponents font.now accent.now limit.old limit.new) }
    // Only phrases of the runs of at most two glyphs are paid from the limit.
    ensures spends { SpendsOnRuns font.now 2 limit.old limit.new }
    // The limit pays only for the runs of the glyphs with the codes of the base and of the accent.
    ensures named { SpendsOnComponents font.now accent.now limit.old limit.new }
    // If the runs of base and accent cost less than the limit, it is never `TooLong`.
    ensures suffices { SufficesForComponents font.now accent.now limit.old → result ≢ Err errors.TooLong }
    // The error gives a cause that holds (`IsWanting`, or `AreRefused` in specs/Refused.antt).
    ensures why { IfErr result (λ e. IsWanting limit.new e ⊎ AreRefused font.now accent.now e) }
    // On an error the sink has received some first segments, and none of a stroke out of range.
    ensures front { OnErr result (GivesComponents S.after (S.state sink.old) (S.state sink.new) font.now accent.now) }
    // On `Full` the components have one more segment, which the sink did not take (`OrFull`).
    ensures more { result ≡ Err errors.Full →
        GivesComponents (OrFull S.after) (S.state sink.old, false) (S.state sink.new, true) font.now accent.now }
    // On `Full` the sink is in a state in which it may be full (`refuses`).
    ensures full { result ≡ Err errors.Full → S.refuses (S.state sink.new) }
{
    draw_component(alloc, font, accent.base, Point::ORIGIN, limit, sink)?;
    draw_component(alloc, font, accent.accent, place_of(accent), limit, sink)
}

/// Draws the glyph with a code from a point. It must not be a `seac` glyph.
fn draw_component<S: Sink>(
    alloc: Global,
    font: &FontView<'_>,
    code: u8,
    origin: Point,
    limit: &mut u64,
    sink: &mut S,
) -> Result<()>
    ensures drawn { OnOk result (Takes S.after (S.state sink.old) (S.state sink.new) (DrawsComponent font.now code origin)) }
    ensures paid { OnOk result (PaysCode font.now code limit.old limit.new) }
    ensures spends { SpendsOnRuns font.now 1 limit.old limit.new }
    ensures named { SpendsOnCode font.now code limit.old limit.new }
    ensures suffices { SufficesForCode font.now code limit.old → result ≢ Err errors.TooLong }
    ensures why { IfErr result (λ e. IsWanting limit.new e ⊎ IsComponentRefused font.now code origin e) }
    ensures front { OnErr result (GivesComponent S.after origin (S.state sink.old) (S.state sink.new) font.now code) }
    ensures more { result ≡ Err errors.Full →
        GivesComponent (OrFull S.after) origin (S.state sink.old, false) (S.state sink.new, true) font.now code }
    ensures full { result ≡ Err errors.Full → S.refuses (S.state sink.new) }
{
    let glyph = component_of(font, code)?;
    let own = draw_own(alloc, font, glyph, origin, limit, sink)?;
    match own.accent {
        None => Ok(()),
        Some(_) => Err(Error::NestedAccent(code)),
    }
}
