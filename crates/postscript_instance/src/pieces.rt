//! Path operators in pieces that fit on the stack (Technical Note 5177, "Path Construction Operators").
ghost use Rattle.std.specs.Prelude.{◌≡◌, ◌<◌, ◌≤◌, length, MatchOption};
ghost use Rattle.postscript_variable.specs.Told.{said_of};
ghost use Rattle.postscript_instance.specs.Cuts.{said_by, is_cut as may_be_cut, first_operator as the_first_operator, first_count as the_first_count, front_of, rest_of, IsTooLong, IsWhole};

use postscript_type2::{Operand, Operator};
use postscript_variable::Saying;

/// The maximum number of operands on the stack (Technical Note 5177, Appendix B, "Type 2 Charstring Implementation
/// Limits").
pub(crate) const OPERANDS: usize = 48;

/// An operation, or a piece of it.
#[derive(Clone, Copy)]
pub(crate) struct Piece<'l> {
    pub operator: Operator,
    pub stems: &'l [Operand],
    pub operands: &'l [Operand],
    pub mask: &'l [u8],
}

/// Whether an operator can be split.
pub(crate) fn is_cut(operator: Operator) -> bool
    ensures { result ≡ may_be_cut operator }
{
    matches!(
        operator,
        Operator::RLineTo
            | Operator::HLineTo
            | Operator::VLineTo
            | Operator::RRCurveTo
            | Operator::RCurveLine
            | Operator::RLineCurve
            | Operator::VVCurveTo
            | Operator::HHCurveTo
            | Operator::VHCurveTo
            | Operator::HVCurveTo
    )
}

/// The operator of the first piece.
fn first_operator(operator: Operator) -> Operator
    ensures { result ≡ the_first_operator operator }
{
    match operator {
        Operator::RCurveLine => Operator::RRCurveTo,
        Operator::RLineCurve => Operator::RLineTo,
        _ => operator,
    }
}

/// The number of operands of the first piece, out of `count`. It has whole strokes, and leaves the rest along the same
/// axis if axes alternate. The final line after curves, or curve after lines, is in the rest.
fn first_count(operator: Operator, count: usize) -> usize
    ensures exact { result ≡ the_first_count operator count }
    ensures some { 0 < result }
    ensures few { result ≤ 48 }
{
    match operator {
        // Curves of four operands, and the operand before the first if there is one.
        Operator::HHCurveTo | Operator::VVCurveTo => 44 + count % 2,
        // Ten curves of four operands.
        Operator::HVCurveTo | Operator::VHCurveTo => 40,
        // Seven curves of six operands, or 21 lines.
        Operator::RCurveLine | Operator::RLineCurve => 42,
        _ => 48,
    }
}

impl<'l> Piece<'l> {
    /// A whole operation.
    pub(crate) fn whole_operation(saying: &'l Saying<'_>) -> Piece<'l>
        ensures { said_by result ≡ said_of saying.now }
    {
        Piece {
            operator: saying.operator,
            stems: &saying.stems,
            operands: &saying.operands,
            mask: saying.mask,
        }
    }

    /// The first piece and the rest, if the operands do not fit on the stack.
    pub(crate) fn cut(self) -> Option<(Piece<'l>, Piece<'l>)>
        ensures cut { let x = said_by self.entry in
            MatchOption result (IsWhole x) (λ r. IsTooLong x × (said_by r.0 ≡ front_of x) × (said_by r.1 ≡ rest_of x)) }
        ensures shorter { MatchOption result (Unit {0}) (λ r. length r.1.operands.now < length self.entry.operands.now) }
    {
        if !is_cut(self.operator) || self.operands.len() <= OPERANDS {
            return None;
        }
        let count = first_count(self.operator, self.operands.len());
        let (front, rest) = self.operands.split_at(count);
        let first = Piece {
            operator: first_operator(self.operator),
            stems: self.stems,
            operands: front,
            mask: &[],
        };
        let behind = Piece {
            operator: self.operator,
            stems: &[],
            operands: rest,
            mask: self.mask,
        };
        Some((first, behind))
    }
}
