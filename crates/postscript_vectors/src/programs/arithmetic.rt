//! Rows of arithmetic, and of the operators that only work on the stack.
use super::Row;

/// Arithmetic and truth.
#[rattlefmt::skip]
pub(super) fn arithmetic() -> &'static [Row] {
    &[
        ("8a0c0916", "", "HMoveTo 1 | end"),
        ("ff800000000c09", "", "fault 26"),
        ("8c8d0c0a16", "", "HMoveTo 3 | end"),
        ("1c7fff8c0c0a16", "", "fault 26"),
        ("8c8d0c0b16", "", "HMoveTo -1 | end"),
        ("1c80008c0c0b16", "", "fault 26"), ("ff800000000c0e", "", "fault 26"),
        ("8c0c0e16", "", "HMoveTo -1 | end"),
        // Division rounds towards zero.
        ("908d0c0c16", "", "HMoveTo 163840/65536 | end"),
        ("8c8e0c0c16", "", "HMoveTo 21845/65536 | end"),
        ("8a8e0c0c16", "", "HMoveTo -21845/65536 | end"),
        ("8c880c0c16", "", "HMoveTo -21845/65536 | end"),
        ("8c8b0c0c", "", "fault 27"), ("8b8b0c0c", "", "fault 27"), ("1c80008a0c0c", "", "fault 26"),
        ("1c7fffff000080000c0c", "", "fault 26"),
        // Multiplication rounds towards zero too.
        ("8d8e0c1816", "", "HMoveTo 6 | end"),
        ("ff00008000ff000080000c1816", "", "HMoveTo 16384/65536 | end"),
        ("ffffffffffff000080000c1816", "", "HMoveTo 0 | end"),
        ("1c7fff8d0c18", "", "fault 26"),
        ("8f0c1a16", "", "HMoveTo 2 | end"),
        ("8b0c1a16", "", "HMoveTo 0 | end"),
        ("8d0c1a16", "", "HMoveTo 92681/65536 | end"),
        ("ff000000010c1a16", "", "HMoveTo 256/65536 | end"),
        ("8a0c1a", "", "fault 28"),
        // Any number except zero is true.
        ("8c8d0c0316", "", "HMoveTo 1 | end"),
        ("8b8c0c0316", "", "HMoveTo 0 | end"),
        ("8b8c0c0416", "", "HMoveTo 1 | end"),
        ("8b8b0c0416", "", "HMoveTo 0 | end"),
        ("8b0c0516", "", "HMoveTo 1 | end"),
        ("ff000000010c0516", "", "HMoveTo 0 | end"),
        ("8c8c0c0f16", "", "HMoveTo 1 | end"),
        ("8cff000100000c0f16", "", "HMoveTo 1 | end"),
        ("8c8d0c0f16", "", "HMoveTo 0 | end"),
        // The first if the third is at most the fourth, and the second otherwise.
        ("8c8d8e8e0c1616", "", "HMoveTo 1 | end"),
        ("8c8d8a8b0c1616", "", "HMoveTo 1 | end"),
        ("8c8d8f8e0c1616", "", "HMoveTo 2 | end"),
    ]
}

/// The operators that only work on the stack, the operators of both tables with too few operands, and some around a
/// width.
#[rattlefmt::skip]
pub(super) fn stack() -> &'static [Row] {
    &[
        ("8c8d0c1216", "", "HMoveTo 1 | end"),
        ("8c8d0c1c06", "", "HLineTo 2 1 | end"),
        ("8d0c1b06", "", "HLineTo 2 2 | end"),
        ("8c8d8e8b0c1d06", "", "HLineTo 1 2 3 3 | end"),
        ("8c8d8e8d0c1d06", "", "HLineTo 1 2 3 1 | end"),
        ("8c8d8a0c1d06", "", "HLineTo 1 2 2 | end"),
        ("8c8d8e8e8c0c1e06", "", "HLineTo 3 1 2 | end"),
        ("8c8d8e8e8a0c1e06", "", "HLineTo 2 3 1 | end"),
        ("8c8d8e8e8f0c1e06", "", "HLineTo 3 1 2 | end"),
        ("8c8d8e8f8d8c0c1e06", "", "HLineTo 1 2 4 3 | end"),
        ("8c8d8d1c7fff0c1e06", "", "HLineTo 2 1 | end"),
        ("8c8d8d1c80000c1e06", "", "HLineTo 1 2 | end"),
        ("8c8b8a0c1e16", "", "HMoveTo 1 | end"),
        // Too few operands.
        ("0c09", "", "fault 17"), ("0c0e", "", "fault 17"), ("0c1a", "", "fault 17"), ("0c05", "", "fault 17"),
        ("0c12", "", "fault 17"), ("8c0c0a", "", "fault 17"), ("8c0c0b", "", "fault 17"),
        ("8b0c0c", "", "fault 17"),
        ("8c168b0c0c", "", "HMoveTo 1 | fault 17"),
        ("8c0c18", "", "fault 17"), ("8c0c03", "", "fault 17"), ("8c0c04", "", "fault 17"),
        ("8c0c0f", "", "fault 17"), ("8c0c1c", "", "fault 17"), ("8c8d8e0c16", "", "fault 17"),
        ("0c1b", "", "fault 19"), ("0c1d", "", "fault 18"), ("ff000080000c1d", "", "fault 18"),
        ("8c0c1d", "", "fault 19"), ("8a0c1d", "", "fault 19"), ("8c8d8e8e0c1d", "", "fault 19"),
        ("0c1e", "", "fault 18"), ("8c0c1e", "", "fault 18"), ("8c8cff000080000c1e", "", "fault 18"),
        ("8cff000080008c0c1e", "", "fault 18"), ("8c8a8c0c1e", "", "fault 21"), ("8c8d8c0c1e", "", "fault 19"),
        // Operators of this kind settle no width, and a computed number may be called.
        ("8e8c8c0c0a16", "", "HMoveTo 2 | end | width 3"),
        ("8e8c8b0c0c", "", "fault 27"),
        ("208b0c0a0a0e", "8c160b", "HMoveTo 1 | end"),
    ]
}
