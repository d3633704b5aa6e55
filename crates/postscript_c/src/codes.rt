//! Operators by their codes (Technical Note 5177, Appendix A).
ghost use Rattle.std.specs.Prelude.{◌≡◌, Some};
ghost use Rattle.postscript_type2.specs.Operation.Operators.{operator_of};

use postscript_type2::Operator;

/// The code of an operator. The code of two bytes is 0x0c00 plus the second byte.
pub(crate) fn code_of(operator: Operator) -> u32
    ensures { operator_of result ≡ Some operator }
{
    match operator {
        Operator::HStem => 0x01,
        Operator::VStem => 0x03,
        Operator::VMoveTo => 0x04,
        Operator::RLineTo => 0x05,
        Operator::HLineTo => 0x06,
        Operator::VLineTo => 0x07,
        Operator::RRCurveTo => 0x08,
        Operator::CallSubr => 0x0a,
        Operator::Return => 0x0b,
        Operator::EndChar => 0x0e,
        Operator::HStemHM => 0x12,
        Operator::HintMask => 0x13,
        Operator::CntrMask => 0x14,
        Operator::RMoveTo => 0x15,
        Operator::HMoveTo => 0x16,
        Operator::VStemHM => 0x17,
        Operator::RCurveLine => 0x18,
        Operator::RLineCurve => 0x19,
        Operator::VVCurveTo => 0x1a,
        Operator::HHCurveTo => 0x1b,
        Operator::CallGSubr => 0x1d,
        Operator::VHCurveTo => 0x1e,
        Operator::HVCurveTo => 0x1f,
        Operator::And => 0x0c03,
        Operator::Or => 0x0c04,
        Operator::Not => 0x0c05,
        Operator::Abs => 0x0c09,
        Operator::Add => 0x0c0a,
        Operator::Sub => 0x0c0b,
        Operator::Div => 0x0c0c,
        Operator::Neg => 0x0c0e,
        Operator::Eq => 0x0c0f,
        Operator::Drop => 0x0c12,
        Operator::Put => 0x0c14,
        Operator::Get => 0x0c15,
        Operator::IfElse => 0x0c16,
        Operator::Random => 0x0c17,
        Operator::Mul => 0x0c18,
        Operator::Sqrt => 0x0c1a,
        Operator::Dup => 0x0c1b,
        Operator::Exch => 0x0c1c,
        Operator::Index => 0x0c1d,
        Operator::Roll => 0x0c1e,
        Operator::HFlex => 0x0c22,
        Operator::Flex => 0x0c23,
        Operator::HFlex1 => 0x0c24,
        Operator::Flex1 => 0x0c25,
    }
}
