//! A small font at locations on its axis.
use crate::checks::{holds, holds_at};
use crate::small::TABLE;
use postscript_cff2::Font;
use postscript_type2::{Operand, Operator};
use postscript_variable_font::{Place, charstring};

/// Whether an operation has this operator and number of operands, and these integers as the first and the last.
fn is(
    found: Option<(Operator, &[Operand])>,
    operator: Operator,
    first: i16,
    last: i16,
    count: usize,
) -> bool {
    match found {
        Some((told, operands)) => {
            told == operator
                && operands.len() == count
                && operands.first() == Some(&Operand::from_int(first))
                && operands.last() == Some(&Operand::from_int(last))
        }
        None => false,
    }
}

/// The second glyph is 100 10 -20 1 blend 50 rmoveto, with regions that rise from 0 to 1 and from 0 to -1. Then a line
/// in the global subroutine follows, and one in the local.
#[test]
fn a_glyph_at_places(rt: HostRuntime) {
    let font = Font::read(TABLE).expect(&rt, "the font");
    let rows = [
        (0, 100),
        (8192, 105),
        (16384, 110),
        (-4096, 95),
        (-16384, 80),
    ];
    for (i, (coordinate, x)) in rows.iter().enumerate() {
        let at = [*coordinate];
        let place = Place::of(rt.alloc(), font.store.as_ref(), &at).expect(&rt, "a place");
        let glyph = charstring(&font, 1, &place).expect(&rt, "a glyph");
        let mut program = glyph.program(rt.alloc());
        let wanted = [
            (Operator::RMoveTo, *x, 50, 2),
            (Operator::RLineTo, 10, 20, 2),
            (Operator::HLineTo, -30, -30, 1),
        ];
        for (operator, first, last, count) in wanted {
            let found = program.step().expect(&rt, "an operation");
            holds_at(
                &rt,
                is(found, operator, first, last, count),
                "an operation",
                i,
            );
        }
        let end = program.step().expect(&rt, "the end");
        holds_at(&rt, end.is_none(), "the end", i);
    }
}

#[test]
fn no_third_glyph(rt: HostRuntime) {
    let font = Font::read(TABLE).expect(&rt, "the font");
    let place = Place::of(rt.alloc(), font.store.as_ref(), &[0]).expect(&rt, "a place");
    holds(
        &rt,
        charstring(&font, 2, &place).is_none(),
        "no third glyph",
    );
}
