//! Flexes: two curves in one operation.
ghost use Rattle.std.specs.Prelude.{◌≡◌, ◌+◌, ◌^◌, ◌≤◌, ◌+ℤ◌, None, false, true, pos, neg_ℤ, unsigned_abs};
ghost use Rattle.postscript_drawing.specs.Operators.{AreTwo, is_flex, strokes as the_strokes};
ghost use Rattle.postscript_drawing.specs.Strokes.{along as the_along, by as the_by, back as the_back, flex as the_flex, hflex as the_hflex, hflex1 as the_hflex1, flex1 as the_flex1};

use crate::operands::{vector_of, wide};
use crate::stroke::{Axis, Stroke, Vector};
use postscript_type2::{Operand, Operator};

/// Returns the two strokes of a flex. `None` if the operator is not a flex, or takes another number of operands.
pub fn flex_strokes(operator: Operator, operands: &[Operand]) -> Option<(Stroke, Stroke)>
    // If the operator is a flex, these are its strokes, and `None` means that it has none.
    ensures flex { is_flex operator ≡ true → AreTwo (the_strokes operator operands.now) result }
    // If the operator is not a flex, the result is `None`.
    ensures other { is_flex operator ≡ false → result ≡ None }
{
    match operator {
        Operator::Flex => flex(operands),
        Operator::HFlex => hflex(operands),
        Operator::HFlex1 => hflex1(operands),
        Operator::Flex1 => flex1(operands),
        _ => None,
    }
}

/// dx1 dy1 dx2 dy2 dx3 dy3 dx4 dy4 dx5 dy5 dx6 dy6 fd
fn flex(operands: &[Operand]) -> Option<(Stroke, Stroke)>
    ensures { AreTwo (the_flex operands.now) result }
{
    match operands {
        [
            dx1,
            dy1,
            dx2,
            dy2,
            dx3,
            dy3,
            dx4,
            dy4,
            dx5,
            dy5,
            dx6,
            dy6,
            _fd,
        ] => Some((
            Stroke::Curve(
                vector_of(*dx1, *dy1),
                vector_of(*dx2, *dy2),
                vector_of(*dx3, *dy3),
            ),
            Stroke::Curve(
                vector_of(*dx4, *dy4),
                vector_of(*dx5, *dy5),
                vector_of(*dx6, *dy6),
            ),
        )),
        _ => None,
    }
}

/// dx1 dx2 dy2 dx3 dx4 dx5 dx6
fn hflex(operands: &[Operand]) -> Option<(Stroke, Stroke)>
    ensures { AreTwo (the_hflex operands.now) result }
{
    match operands {
        [dx1, dx2, dy2, dx3, dx4, dx5, dx6] => Some((
            Stroke::Curve(level(*dx1), vector_of(*dx2, *dy2), level(*dx3)),
            Stroke::Curve(level(*dx4), vector_back(*dx5, wide(*dy2)), level(*dx6)),
        )),
        _ => None,
    }
}

/// A vector with the opposite of `dy`.
fn vector_back(dx: Operand, dy: i64) -> Vector
    requires { unsigned_abs dy ≤ 2 ^ 34 }
    ensures { result ≡ the_by dx (neg_ℤ dy) }
{
    Vector {
        dx: wide(dx),
        dy: -dy,
    }
}

/// A horizontal vector.
fn level(dx: Operand) -> Vector
    ensures { result ≡ the_along Axis.Horizontal dx }
{
    Axis::Horizontal.along(wide(dx))
}

/// dx1 dy1 dx2 dy2 dx3 dx4 dx5 dy5 dx6
fn hflex1(operands: &[Operand]) -> Option<(Stroke, Stroke)>
    ensures { AreTwo (the_hflex1 operands.now) result }
{
    match operands {
        [dx1, dy1, dx2, dy2, dx3, dx4, dx5, dy5, dx6] => Some((
            Stroke::Curve(vector_of(*dx1, *dy1), vector_of(*dx2, *dy2), level(*dx3)),
            Stroke::Curve(
                level(*dx4),
                vector_of(*dx5, *dy5),
                vector_back(*dx6, sum_of_three(*dy1, *dy2, *dy5)),
            ),
        )),
        _ => None,
    }
}

/// The sum, with bounds that allow more terms.
fn plus(a: i64, b: Operand) -> i64
    requires { unsigned_abs a ≤ 2 ^ 34 }
    ensures value { result ≡ a +ℤ b }
    ensures room { unsigned_abs result ≤ unsigned_abs a + 2 ^ 31 }
{
    a + wide(b)
}

/// The sum of three.
fn sum_of_three(a: Operand, b: Operand, c: Operand) -> i64
    ensures value { result ≡ a +ℤ b +ℤ c }
    ensures room { unsigned_abs result ≤ 2 ^ 33 }
{
    plus(plus(wide(a), b), c)
}

/// The sum of five.
fn sum_of_five(a: Operand, b: Operand, c: Operand, d: Operand, e: Operand) -> i64
    ensures value { result ≡ a +ℤ b +ℤ c +ℤ d +ℤ e }
    ensures room { unsigned_abs result ≤ 2 ^ 34 }
{
    plus(plus(sum_of_three(a, b, c), d), e)
}

/// The last vector of a `flex1`, after others with this sum.
fn back(dx: i64, dy: i64, d6: Operand) -> Vector
    requires dx_room { unsigned_abs dx ≤ 2 ^ 34 }
    requires dy_room { unsigned_abs dy ≤ 2 ^ 34 }
    ensures { result ≡ the_back dx dy d6 }
{
    if dx.unsigned_abs() > dy.unsigned_abs() {
        vector_back(d6, dy)
    } else {
        Vector {
            dx: -dx,
            dy: wide(d6),
        }
    }
}

/// dx1 dy1 dx2 dy2 dx3 dy3 dx4 dy4 dx5 dy5 d6
fn flex1(operands: &[Operand]) -> Option<(Stroke, Stroke)>
    ensures { AreTwo (the_flex1 operands.now) result }
{
    match operands {
        [dx1, dy1, dx2, dy2, dx3, dy3, dx4, dy4, dx5, dy5, d6] => {
            let dx = sum_of_five(*dx1, *dx2, *dx3, *dx4, *dx5);
            let dy = sum_of_five(*dy1, *dy2, *dy3, *dy4, *dy5);
            Some((
                Stroke::Curve(
                    vector_of(*dx1, *dy1),
                    vector_of(*dx2, *dy2),
                    vector_of(*dx3, *dy3),
                ),
                Stroke::Curve(
                    vector_of(*dx4, *dy4),
                    vector_of(*dx5, *dy5),
                    back(dx, dy, *d6),
                ),
            ))
        }
        _ => None,
    }
}
