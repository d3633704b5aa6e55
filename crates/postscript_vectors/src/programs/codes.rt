//! Rows of numbers, operators and operands.
use crate::checks::Wanted;

/// Bytes in hex, and the number's bits or the fault.
#[rattlefmt::skip]
pub(super) const NUMBERS: &[(&str, Wanted<i32>)] = &[
    ("ff0001045a", Ok(66650)), ("ffffff0000", Ok(-65536)), ("ff7fffffff", Ok(2147483647)),
    ("ff80000000", Ok(-2147483648)), ("8b", Ok(0)), ("20", Ok(-7012352)), ("f6", Ok(7012352)),
    ("f700", Ok(7077888)), ("faff", Ok(74121216)), ("fb00", Ok(-7077888)), ("feff", Ok(-74121216)),
    ("1c0100", Ok(16777216)), ("1cffff", Ok(-65536)), ("1d", Err(7)), ("1e", Err(7)), ("00", Err(7)),
    ("1f", Err(7)), ("", Err(1)), ("1c00", Err(1)), ("fb", Err(1)), ("ff000000", Err(1)),
];

/// The codes, and the names of their operators.
#[rattlefmt::skip]
pub(super) const OPERATORS: &[(u16, &str)] = &[
    (0x01, "HStem"), (0x03, "VStem"), (0x04, "VMoveTo"), (0x05, "RLineTo"), (0x06, "HLineTo"),
    (0x07, "VLineTo"), (0x08, "RRCurveTo"), (0x0a, "CallSubr"), (0x0b, "Return"), (0x0e, "EndChar"),
    (0x12, "HStemHM"), (0x13, "HintMask"), (0x14, "CntrMask"), (0x15, "RMoveTo"), (0x16, "HMoveTo"),
    (0x17, "VStemHM"), (0x18, "RCurveLine"), (0x19, "RLineCurve"), (0x1a, "VVCurveTo"), (0x1b, "HHCurveTo"),
    (0x1d, "CallGSubr"), (0x1e, "VHCurveTo"), (0x1f, "HVCurveTo"), (0x0c03, "And"), (0x0c04, "Or"),
    (0x0c05, "Not"), (0x0c09, "Abs"), (0x0c0a, "Add"), (0x0c0b, "Sub"), (0x0c0c, "Div"), (0x0c0e, "Neg"),
    (0x0c0f, "Eq"), (0x0c12, "Drop"), (0x0c14, "Put"), (0x0c15, "Get"), (0x0c16, "IfElse"),
    (0x0c17, "Random"), (0x0c18, "Mul"), (0x0c1a, "Sqrt"), (0x0c1b, "Dup"), (0x0c1c, "Exch"),
    (0x0c1d, "Index"), (0x0c1e, "Roll"), (0x0c22, "HFlex"), (0x0c23, "Flex"), (0x0c24, "HFlex1"),
    (0x0c25, "Flex1"),
];

/// An operator's code, the number of operands, and the number that it takes.
#[rattlefmt::skip]
pub(super) const LENGTHS: &[(u16, usize, Option<usize>)] = &[
    (0x1f, 11, Some(9)), (0x1f, 3, None), (0x18, 13, Some(8)), (0x19, 13, Some(12)), (0x13, 5, Some(0)),
    (0x0e, 5, None), (0x05, 1, None), (0x08, usize::MAX, Some(usize::MAX - 3)),
];

/// Bits, the whole number, and the text.
#[rattlefmt::skip]
pub(super) const OPERANDS: &[(i32, Option<i16>, &str)] = &[
    (0, Some(0), "0"), (65536, Some(1), "1"), (-65536, Some(-1), "-1"), (2147418112, Some(32767), "32767"),
    (-2147483648, Some(-32768), "-32768"), (1, None, "1/65536"), (-1, None, "-1/65536"),
    (32768, None, "32768/65536"), (65537, None, "65537/65536"), (2147483647, None, "2147483647/65536"),
];
