//! Operands at the front of a list, and the first strokes of lists.
ghost use Rattle.std.specs.Prelude.{◌≡◌, ◌≤◌, ◌<◌, ◌^◌, [], ◌∷◌, length, pos, MatchOption, unsigned_abs};
ghost use Rattle.postscript_drawing.specs.Strokes.{alone as the_alone, by as the_by, other as the_other, lines_in_turn as the_lines_in_turn, curves as the_curves, curves_along as the_curves_along, curves_level as the_curves_level, curves_in_turn as the_curves_in_turn};
ghost use Rattle.postscript_drawing.specs.declared.stroke.Stroke.TheVariants as strokes;

use crate::stroke::{Axis, Vector};
use postscript_type2::Operand;

/// The bits, in a type that can hold sums.
#[inline(always)]
pub(crate) fn wide(operand: Operand) -> i64
    ensures value { result ≡ operand }
    ensures room { unsigned_abs result ≤ 2 ^ 31 }
{
    i64::from(operand.bits())
}

/// A vector of two operands.
#[inline(always)]
pub(crate) fn vector_of(dx: Operand, dy: Operand) -> Vector
    ensures { result ≡ the_by dx dy }
{
    Vector {
        dx: wide(dx),
        dy: wide(dy),
    }
}

/// The operand if it is the only one, and zero otherwise.
#[inline(always)]
pub(crate) fn alone(operands: &[Operand]) -> i64
    ensures { result ≡ the_alone operands.now }
{
    match operands {
        [d] => wide(*d),
        _ => 0,
    }
}

/// One operand, and the rest.
#[inline(always)]
pub(crate) fn one(operands: &[Operand]) -> Option<(i64, &[Operand])>
    ensures { MatchOption result (length operands.now < 1) (λ v. operands.now ≡ v.0 ∷ v.1.now) }
{
    match operands {
        [d, rest @ ..] => Some((wide(*d), rest)),
        [] => None,
    }
}

/// A vector, and the rest of the operands.
#[inline(always)]
pub(crate) fn vector(operands: &[Operand]) -> Option<(Vector, &[Operand])>
    ensures { MatchOption result (length operands.now < 2) (λ v. operands.now ≡ v.0.dx ∷ v.0.dy ∷ v.1.now) }
{
    match operands {
        [dx, dy, rest @ ..] => Some((vector_of(*dx, *dy), rest)),
        _ => None,
    }
}

/// The distance along an axis at the start of a curve, its middle vector, the distance along an axis at its end, and
/// the rest of the operands.
#[derive(Clone, Copy)]
pub(crate) struct CurveOperands<'o> {
    pub begin: i64,
    pub middle: Vector,
    pub end: i64,
    pub rest: &'o [Operand],
}

/// The operands of a curve that begins and ends along axes, and the rest.
#[inline(always)]
pub(crate) fn curve_operands(operands: &[Operand]) -> Option<CurveOperands<'_>>
    ensures { MatchOption result (length operands.now < 4) (λ v. operands.now ≡ v.begin ∷ v.middle.dx ∷ v.middle.dy ∷ v.end ∷ v.rest.now) }
{
    match operands {
        [begin, dx, dy, end, rest @ ..] => Some(CurveOperands {
            begin: wide(*begin),
            middle: vector_of(*dx, *dy),
            end: wide(*end),
            rest,
        }),
        _ => None,
    }
}

/// d1?: the first operand and the rest, if the number of operands is odd. Otherwise zero, and all of them.
#[inline(always)]
pub(crate) fn first_aside(operands: &[Operand]) -> (i64, &[Operand])
    ensures { (axis : Axis) → the_curves_level axis operands.now ≡ the_curves_along axis result.0 result.1.now }
{
    match operands {
        [d1, rest @ ..] if rest.len() % 2 == 0 => (wide(*d1), rest),
        _ => (0, operands),
    }
}

/// The three vectors of a curve, and the operands after it.
#[derive(Clone, Copy)]
pub(crate) struct CurveVectors<'o> {
    pub a: Vector,
    pub b: Vector,
    pub c: Vector,
    pub rest: &'o [Operand],
}

/// dxa dya dxb dyb dxc dyc
#[inline(always)]
pub(crate) fn curve(operands: &[Operand]) -> Option<CurveVectors<'_>>
    ensures { MatchOption result (the_curves operands.now ≡ [])
        (λ v. the_curves operands.now ≡ strokes.Curve v.a v.b v.c ∷ the_curves v.rest.now) }
{
    // one test of the length instead of three
    if operands.len() < 6 {
        return None;
    }
    let (a, rest) = vector(operands)?;
    let (b, rest) = vector(rest)?;
    let (c, rest) = vector(rest)?;
    Some(CurveVectors { a, b, c, rest })
}

/// da
#[inline(always)]
pub(crate) fn line_in_turn(axis: Axis, operands: &[Operand]) -> Option<(Vector, &[Operand])>
    ensures { MatchOption result (the_lines_in_turn axis operands.now ≡ [])
        (λ r. the_lines_in_turn axis operands.now ≡ strokes.Line r.0 ∷ the_lines_in_turn (the_other axis) r.1.now) }
{
    let (d, rest) = one(operands)?;
    Some((axis.along(d), rest))
}

/// da dxb dyb dc
#[inline(always)]
pub(crate) fn curve_along(axis: Axis, first: i64, operands: &[Operand]) -> Option<CurveVectors<'_>>
    ensures { MatchOption result (the_curves_along axis first operands.now ≡ [])
        (λ v. the_curves_along axis first operands.now ≡ strokes.Curve v.a v.b v.c ∷ the_curves_along axis (pos 0) v.rest.now) }
{
    let bow = curve_operands(operands)?;
    Some(CurveVectors {
        a: axis.aside(bow.begin, first),
        b: bow.middle,
        c: axis.along(bow.end),
        rest: bow.rest,
    })
}

/// da dxb dyb dc de?
#[inline(always)]
pub(crate) fn curve_in_turn(axis: Axis, operands: &[Operand]) -> Option<CurveVectors<'_>>
    ensures { MatchOption result (the_curves_in_turn axis operands.now ≡ [])
        (λ v. the_curves_in_turn axis operands.now ≡ strokes.Curve v.a v.b v.c ∷ the_curves_in_turn (the_other axis) v.rest.now) }
{
    let bow = curve_operands(operands)?;
    let a = axis.along(bow.begin);
    let c = axis.other().aside(bow.end, alone(bow.rest));
    Some(CurveVectors {
        a,
        b: bow.middle,
        c,
        rest: bow.rest,
    })
}
