//! Rows of paths, widths, numbers, stems and masks.
use super::Row;

/// Paths, widths and numbers.
#[rattlefmt::skip]
pub(super) fn numbers() -> &'static [Row] {
    &[
        ("", "", "end"),
        ("0e", "", "end"),
        ("8e8c8d150e", "", "RMoveTo 1 2 | end | width 3"),
        ("8c8d158e0e8c", "", "RMoveTo 1 2 | end"),
        ("8c8d158e8c8d15", "", "RMoveTo 1 2 | RMoveTo 1 2 | end"),
        ("8e8c8d15908f0e", "", "RMoveTo 1 2 | end | width 3"),
        ("8d8c16", "", "HMoveTo 1 | end | width 2"),
        ("8d8c04", "", "VMoveTo 1 | end | width 2"),
        ("8c8d8e05", "", "RLineTo 2 3 | end | width 1"),
        ("8c8d8e8f05", "", "RLineTo 1 2 3 4 | end"),
        ("8c068d07", "", "HLineTo 1 | VLineTo 2 | end"),
        ("8c8d8e06", "", "HLineTo 1 2 3 | end"),
        ("8c8d8e8f07", "", "VLineTo 1 2 3 4 | end"),
        // Before the end: none, or the four of a `seac` glyph, beneath the width.
        ("8e0e", "", "end | width 3"),
        ("8c8d8e0e", "", "end | width 3"),
        ("8c8d8e8f0e", "", "end"),
        ("908b8c8d8e0e", "", "end | width 5"),
        ("8c8d8e8f90910e", "", "end | width 2"),
        // Nothing is run after the end.
        ("0e8c16", "", "end"),
        // Too few operands.
        ("06", "", "fault 20"), ("07", "", "fault 20"), ("04", "", "fault 20"), ("16", "", "fault 20"),
        ("8c15", "", "fault 20"), ("8c05", "", "fault 20"),
        ("8e8c8d1506", "", "RMoveTo 1 2 | fault 20 | width 3"),
        // Each form of a number, and where it changes.
        ("20f6f700fafffb00feff06", "", "HLineTo -107 107 108 1131 -108 -1131 | end"),
        ("1c80001c7fff1cffff06", "", "HLineTo -32768 32767 -1 | end"),
        ("ff00010000ffffff0000ff8000000006", "", "HLineTo 1 -1 -32768 | end"),
        ("ff00008000ffffffffffff7fffffff06", "", "HLineTo 32768/65536 -1/65536 2147483647/65536 | end"),
        // A truncated number, numbers without an operator, and a truncated operator.
        ("1c", "", "fault 1"), ("1c00", "", "fault 1"), ("f7", "", "fault 1"), ("fe", "", "fault 1"),
        ("ff000000", "", "fault 1"), ("8c8d", "", "fault 1"), ("8c0c", "", "fault 1"),
        ("8e8c8d158c", "", "RMoveTo 1 2 | fault 1 | width 3"),
        // Codes of no operator.
        ("00", "", "fault 9"), ("8c02", "", "fault 9"), ("09", "", "fault 9"), ("0d", "", "fault 9"),
        ("11", "", "fault 9"), ("0c00", "", "fault 9"), ("0c26", "", "fault 9"), ("0cff", "", "fault 9"),
        ("8c8d1500", "", "RMoveTo 1 2 | fault 9"),
        // The operator that is not supported.
        ("0c17", "", "fault 16"),
    ]
}

/// The other operators that draw.
#[rattlefmt::skip]
pub(super) fn paths() -> &'static [Row] {
    &[
        ("8c8d8e8f909108", "", "RRCurveTo 1 2 3 4 5 6 | end"),
        ("8c8d8e8f9091929394959608", "", "RRCurveTo 6 7 8 9 10 11 | end | width 5"),
        ("8c8d8e8f909192939495969708", "", "RRCurveTo 1 2 3 4 5 6 7 8 9 10 11 12 | end"),
        ("8c8d8e8f9008", "", "fault 20"),
        // Curves that begin or end along an axis: four operands each, and perhaps one more.
        ("8c8d8e8f1b", "", "HHCurveTo 1 2 3 4 | end"),
        ("8c8d8e8f901b", "", "HHCurveTo 1 2 3 4 5 | end"),
        ("8c8d8e8f90911b", "", "HHCurveTo 2 3 4 5 6 | end | width 1"),
        ("8c8d8e8f9091921a", "", "VVCurveTo 3 4 5 6 7 | end | width 2"),
        ("8c8d8e8f909192931a", "", "VVCurveTo 1 2 3 4 5 6 7 8 | end"),
        ("8c8d8e8f90919293941e", "", "VHCurveTo 1 2 3 4 5 6 7 8 9 | end"),
        ("8c8d8e8f9091929394951e", "", "VHCurveTo 2 3 4 5 6 7 8 9 10 | end | width 1"),
        ("8c8d8e8f909192939495961f", "", "HVCurveTo 3 4 5 6 7 8 9 10 11 | end | width 2"),
        ("8c8d8e8f1f", "", "HVCurveTo 1 2 3 4 | end"),
        ("8c8d8e1a", "", "fault 20"), ("8c8d8e1b", "", "fault 20"), ("8c8d8e1e", "", "fault 20"),
        ("8c8d8e1f", "", "fault 20"), ("1e", "", "fault 20"),
        // Curves, then a line.
        ("8c8d8e8f9091929318", "", "RCurveLine 1 2 3 4 5 6 7 8 | end"),
        ("8c8d8e8f90919293949596979818", "", "RCurveLine 6 7 8 9 10 11 12 13 | end | width 5"),
        ("8c8d8e8f9091929394959697989918", "", "RCurveLine 1 2 3 4 5 6 7 8 9 10 11 12 13 14 | end"),
        ("8c8d18", "", "fault 20"), ("8c8d8e8f90919218", "", "fault 20"),
        // Lines, then a curve.
        ("8c8d8e8f909192939419", "", "RLineCurve 2 3 4 5 6 7 8 9 | end | width 1"),
        ("8c8d8e8f90919293949519", "", "RLineCurve 1 2 3 4 5 6 7 8 9 10 | end"),
        ("8c8d8e8f90919219", "", "fault 20"),
        // Flexes.
        ("8c8d8e8f909192939495969798990c23", "", "Flex 2 3 4 5 6 7 8 9 10 11 12 13 14 | end | width 1"),
        ("8c8d8e8f90919293949596970c23", "", "fault 20"),
        ("8c8d8e8f909192939495960c25", "", "Flex1 1 2 3 4 5 6 7 8 9 10 11 | end"),
        ("8c8d8e8f9091929394950c25", "", "fault 20"),
        ("8c8d8e8f909192930c22", "", "HFlex 2 3 4 5 6 7 8 | end | width 1"),
        ("8c8d8e8f90910c22", "", "fault 20"),
        ("8c8d8e8f9091929394950c24", "", "HFlex1 2 3 4 5 6 7 8 9 10 | end | width 1"),
        ("8c8d8e8f909192930c24", "", "fault 20"),
    ]
}

/// Stems, in pairs, and masks.
#[rattlefmt::skip]
pub(super) fn hints() -> &'static [Row] {
    &[
        ("8c8d8e01", "", "HStem 2 3 | end | width 1"),
        ("8c8d8e8f9003", "", "VStem 2 3 4 5 | end | width 1"),
        ("8c8d128e8f17", "", "HStemHM 1 2 | VStemHM 3 4 | end"),
        ("01", "", "fault 20"), ("8c03", "", "fault 20"), ("12", "", "fault 20"), ("8c17", "", "fault 20"),
        ("8c168e8c8d01", "", "HMoveTo 1 | HStem 1 2 | end"),
        // A mask without stems has no bytes.
        ("130e", "", "HintMask | end"),
        ("148c16", "", "CntrMask | HMoveTo 1 | end"),
        // Operands before a mask are stems.
        ("8e8c8d13800e", "", "HintMask | end | width 3"),
        ("8e8c8d13", "", "fault 1"),
        ("8e8c8d8e8f14800e", "", "CntrMask | end | width 3"),
        ("8e138c16", "", "HintMask | HMoveTo 1 | end | width 3"),
        ("8c8d0113ff0e", "", "HStem 1 2 | HintMask | end"),
        ("8c8d8e8f128c8d8e8f13f08c16", "", "HStemHM 1 2 3 4 | HintMask | HMoveTo 1 | end"),
        ("8c8d018e8c8d13c08c16", "", "HStem 1 2 | HintMask | HMoveTo 1 | end"),
        // The bytes of a mask are no operators.
        ("8c8d130e8c16", "", "HintMask | HMoveTo 1 | end"),
        // Eight stems have one byte of mask, and nine have two.
        (
            "8b8b8b8b8b8b8b8b8b8b8b8b8b8b8b8b1714ff8c16",
            "",
            "VStemHM 0 0 0 0 0 0 0 0 0 0 0 0 0 0 0 0 | CntrMask | HMoveTo 1 | end",
        ),
        ("8b8b8b8b8b8b8b8b8b8b8b8b8b8b8b8b8b8b1714ff0e", "", "VStemHM 0 0 0 0 0 0 0 0 0 0 0 0 0 0 0 0 0 0 | CntrMask | end"),
        ("8b8b8b8b8b8b8b8b8b8b8b8b8b8b8b8b8b8b1714ff", "", "VStemHM 0 0 0 0 0 0 0 0 0 0 0 0 0 0 0 0 0 0 | fault 1"),
        (
            "8b8b8b8b8b8b8b8b8b8b8b8b8b8b8b8b8b8b1714ff8c16",
            "",
            "VStemHM 0 0 0 0 0 0 0 0 0 0 0 0 0 0 0 0 0 0 | CntrMask | fault 20",
        ),
    ]
}
