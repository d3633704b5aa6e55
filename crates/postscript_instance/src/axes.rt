//! The axis of each operand (Technical Note 5177, "Path Construction Operators").
ghost use Rattle.std.specs.Prelude.{◌≡◌, ◌<◌, ◌∷◌, ◌++◌, length, true, MatchOption, OnOk, IfOk, IfErr};
ghost use Rattle.postscript_base.specs.declared.error.Error.TheVariants as causes;
ghost use Rattle.postscript_drawing.specs.Operators.{is_flex, strokes as the_strokes};
ghost use Rattle.postscript_instance.specs.Axes.{so_far, in_turn as the_in_turn, bows as the_bows, level as the_level, vector_steps, stroke_steps, coordinates as the_coordinates, steps_of as the_steps_of};
ghost use Rattle.postscript_instance.specs.declared.error.Error.TheVariants as errors;

use crate::error::Result;
use postscript_drawing::{Axis, Stroke, Vector, flex_strokes};
use postscript_type2::{Operand, Operator};
use std::alloc::Global;

/// A distance along an axis, as a 16.16 number.
#[derive(Clone, Copy)]
pub(crate) struct Step {
    pub axis: Axis,
    pub distance: i64,
}

/// The step of an operand along an axis.
pub(crate) fn step_along(axis: Axis, operand: Operand) -> Step
    ensures { result ≡ so_far axis operand }
{
    Step {
        axis,
        distance: i64::from(operand.bits()),
    }
}

/// Appends operands along alternating axes.
fn put_in_turn(out: &mut Vec<Step>, axis: Axis, operands: &[Operand]) -> Result<()>
    ensures ok { OnOk result (out.new.items ≡ out.old.items ++ the_in_turn axis operands.now) }
    ensures err { IfErr result (λ e. e ≡ errors.Font causes.Memory) }
{
    let mut axis = axis;
    for operand in operands {
        out.push(step_along(axis, *operand))?;
        axis = axis.other();
    }
    Ok(())
}

/// The four operands of a curve, and the operands after them.
#[derive(Clone, Copy)]
struct CurveOperands<'o> {
    begin: Operand,
    dx: Operand,
    dy: Operand,
    end: Operand,
    rest: &'o [Operand],
}

/// The four operands of a curve, if there are four.
fn four(operands: &[Operand]) -> Option<CurveOperands<'_>>
    ensures { MatchOption result (length operands.now < 4) (λ v. operands.now ≡ v.begin ∷ v.dx ∷ v.dy ∷ v.end ∷ v.rest.now) }
{
    match operands {
        [begin, dx, dy, end, rest @ ..] => Some(CurveOperands {
            begin: *begin,
            dx: *dx,
            dy: *dy,
            end: *end,
            rest,
        }),
        _ => None,
    }
}

/// Appends the operands of curves that begin and end along alternating axes: da dxb dyb dc. A single operand after them
/// goes along the other axis at the end.
fn put_bows(out: &mut Vec<Step>, begin: Axis, end: Axis, operands: &[Operand]) -> Result<()>
    ensures ok { OnOk result (out.new.items ≡ out.old.items ++ the_bows begin end operands.now) }
    ensures err { IfErr result (λ e. e ≡ errors.Font causes.Memory) }
{
    let mut begin = begin;
    let mut end = end;
    let mut ahead = operands;
    while let Some(bow) = four(ahead) {
        out.extend_from_slice(&[
            step_along(begin, bow.begin),
            step_along(Axis::Horizontal, bow.dx),
            step_along(Axis::Vertical, bow.dy),
            step_along(end, bow.end),
        ])?;
        (begin, end) = (end, begin);
        ahead = bow.rest;
    }
    if let [de] = ahead {
        out.push(step_along(end, *de))?;
    }
    Ok(())
}

/// Appends the operands of curves that begin and end along one axis. If their number is odd, the first goes along the
/// other axis.
fn put_level(out: &mut Vec<Step>, axis: Axis, operands: &[Operand]) -> Result<()>
    ensures ok { OnOk result (out.new.items ≡ out.old.items ++ the_level axis operands.now) }
    ensures err { IfErr result (λ e. e ≡ errors.Font causes.Memory) }
{
    match operands {
        [first, rest @ ..] if rest.len() % 2 == 0 => {
            out.push(step_along(axis.other(), *first))?;
            put_bows(out, axis, axis, rest)
        }
        _ => put_bows(out, axis, axis, operands),
    }
}

/// Appends both coordinates of a vector.
fn put_vector(out: &mut Vec<Step>, vector: Vector) -> Result<()>
    ensures ok { OnOk result (out.new.items ≡ out.old.items ++ vector_steps vector) }
    ensures err { IfErr result (λ e. e ≡ errors.Font causes.Memory) }
{
    out.push(Step {
        axis: Axis::Horizontal,
        distance: vector.dx,
    })?;
    out.push(Step {
        axis: Axis::Vertical,
        distance: vector.dy,
    })?;
    Ok(())
}

/// Appends all coordinates of a stroke.
fn put_stroke(out: &mut Vec<Step>, stroke: Stroke) -> Result<()>
    ensures ok { OnOk result (out.new.items ≡ out.old.items ++ stroke_steps stroke) }
    ensures err { IfErr result (λ e. e ≡ errors.Font causes.Memory) }
{
    match stroke {
        Stroke::Move(v) | Stroke::Line(v) => put_vector(out, v),
        Stroke::Curve(a, b, c) => {
            put_vector(out, a)?;
            put_vector(out, b)?;
            put_vector(out, c)
        }
    }
}

/// Appends all coordinates of a flex.
fn put_flex(out: &mut Vec<Step>, operator: Operator, operands: &[Operand]) -> Result<()>
    ensures ok { is_flex operator ≡ true → OnOk result (out.new.items ≡ out.old.items ++ the_coordinates (the_strokes operator operands.now)) }
    ensures err { IfErr result (λ e. e ≡ errors.Font causes.Memory) }
{
    if let Some((first, second)) = flex_strokes(operator, operands) {
        put_stroke(out, first)?;
        put_stroke(out, second)?;
    }
    Ok(())
}

/// The operands of an operator, each along its axis, or all coordinates of a flex. Hints have no steps. The only error
/// is `Font` with `Memory`.
pub(crate) fn steps_of(alloc: Global, operator: Operator, operands: &[Operand]) -> Result<Vec<Step>>
    ensures ok { IfOk result (λ steps. steps.items ≡ the_steps_of operator operands.now) }
    ensures err { IfErr result (λ e. e ≡ errors.Font causes.Memory) }
{
    let mut steps = Vec::new(alloc);
    let out = &mut steps;
    match operator {
        Operator::HStem | Operator::VStem | Operator::HStemHM | Operator::VStemHM => {}
        Operator::HintMask | Operator::CntrMask => {}
        Operator::VMoveTo | Operator::VLineTo => put_in_turn(out, Axis::Vertical, operands)?,
        Operator::HHCurveTo => put_level(out, Axis::Horizontal, operands)?,
        Operator::VVCurveTo => put_level(out, Axis::Vertical, operands)?,
        Operator::HVCurveTo => put_bows(out, Axis::Horizontal, Axis::Vertical, operands)?,
        Operator::VHCurveTo => put_bows(out, Axis::Vertical, Axis::Horizontal, operands)?,
        Operator::HFlex | Operator::Flex | Operator::HFlex1 | Operator::Flex1 => {
            put_flex(out, operator, operands)?
        }
        _ => put_in_turn(out, Axis::Horizontal, operands)?,
    }
    Ok(steps)
}
