//! Rounding to whole units.
ghost use Rattle.std.specs.Prelude.{◌≡◌, pos, ◌+ℤ◌, ◌-ℤ◌, MatchOption, IfOk, IfErr, OnOk};
ghost use Rattle.postscript_base.specs.declared.error.Error.TheVariants as causes;
ghost use Rattle.postscript_instance.specs.Axes.{at, moved, rounded_steps, behind_steps, AreSteps};
ghost use Rattle.postscript_instance.specs.Far.{AreEdges, IsStep};
ghost use Rattle.postscript_instance.specs.Private.{IsFar, rounded_edges};
ghost use Rattle.postscript_instance.specs.Nearest.{nearest as the_nearest, rounded};
ghost use Rattle.postscript_type2.specs.Program.StackRules.{IsHeld};

use crate::axes::{Step, step_along};
use crate::error::{Error, Result};
use postscript_drawing::Axis;
use postscript_outline::Point;
use postscript_type2::Operand;
use std::alloc::Global;

/// The whole unit nearest to a 16.16 number, and the upper one if it is halfway. `None` if it is out of range.
fn nearest(bits: i32) -> Option<i32>
    ensures { MatchOption result (¬ IsHeld (the_nearest bits)) (λ units. (units ≡ the_nearest bits) × IsHeld (the_nearest bits)) }
{
    let up = i64::from(bits) + 32768;
    i32::try_from(up - up.rem_euclid(65536)).ok()
}

/// The coordinate at a distance from another one. `None` if it is out of range.
fn place(from: i32, distance: i64) -> Option<i32>
    ensures { MatchOption result (¬ IsHeld (from +ℤ distance)) (λ place. (place ≡ from +ℤ distance) × IsHeld (from +ℤ distance)) }
{
    let place = i64::from(from).checked_add(distance)?;
    i32::try_from(place).ok()
}

/// The distance between two coordinates. `None` if it is out of range.
fn way(from: i32, to: i32) -> Option<i32>
    ensures { MatchOption result (¬ IsHeld (to -ℤ from)) (λ way. (way ≡ to -ℤ from) × IsHeld (to -ℤ from)) }
{
    i32::try_from(i64::from(to) - i64::from(from)).ok()
}

/// The rounded distance between a coordinate and the one at a distance, and that coordinate. `None` if something is out
/// of range.
fn rounded_step(from: i32, distance: i64) -> Option<(Operand, i32)>
    ensures { MatchOption result (¬ IsStep from distance)
        (λ r. (r.0 ≡ rounded from distance) × (r.1 ≡ from +ℤ distance) × IsStep from distance) }
{
    let start = nearest(from)?;
    let to = place(from, distance)?;
    let end = nearest(to)?;
    let way = way(start, end)?;
    Some((Operand::from_bits(way), to))
}

/// A step in whole units, and the point after it. `None` if something is out of range.
fn round_step(from: Point, step: Step) -> Option<(Operand, Point)>
    ensures { let here = at step.axis from in
        MatchOption result (¬ IsStep here step.distance)
        (λ r. (r.0 ≡ rounded here step.distance) × (r.1 ≡ moved step.axis from step.distance) × IsStep here step.distance) }
{
    match step.axis {
        Axis::Horizontal => {
            let (way, x) = rounded_step(from.x, step.distance)?;
            Some((way, Point { x, y: from.y }))
        }
        Axis::Vertical => {
            let (way, y) = rounded_step(from.y, step.distance)?;
            Some((way, Point { x: from.x, y }))
        }
    }
}

/// Steps in whole units from a point on, and the point after them. The errors are `TooFar` and `Font` with `Memory`.
pub(crate) fn round_steps(
    alloc: Global,
    from: Point,
    steps: &[Step],
) -> Result<(Vec<Operand>, Point)>
    ensures ok { IfOk result (λ r. (r.0.items ≡ rounded_steps from steps.now) × (r.1 ≡ behind_steps from steps.now)) }
    ensures near { OnOk result (AreSteps from steps.now) }
    ensures far { IfErr result (λ e. IsFar (¬ AreSteps from steps.now) e) }
{
    let mut operands = Vec::with_capacity(alloc, steps.len())?;
    let mut place = from;
    for step in steps {
        let Some((operand, to)) = round_step(place, *step) else {
            return Err(Error::TooFar);
        };
        operands.push(operand)?;
        place = to;
    }
    Ok((operands, place))
}

/// The edges of stems in whole units. Each operand is the distance from the edge before, or from 0. The errors are
/// `TooFar` and `Font` with `Memory`.
pub(crate) fn edges(alloc: Global, operands: &[Operand]) -> Result<Vec<Operand>>
    ensures ok { IfOk result (λ edges. edges.items ≡ rounded_edges (pos 0) operands.now) }
    ensures near { OnOk result (AreEdges (pos 0) operands.now) }
    ensures far { IfErr result (λ e. IsFar (¬ AreEdges (pos 0) operands.now) e) }
{
    let mut edges = Vec::with_capacity(alloc, operands.len())?;
    // one axis is as good as the other
    let mut place = Point::ORIGIN;
    for operand in operands {
        let Some((edge, to)) = round_step(place, step_along(Axis::Horizontal, *operand)) else {
            return Err(Error::TooFar);
        };
        edges.push(edge)?;
        place = to;
    }
    Ok(edges)
}
