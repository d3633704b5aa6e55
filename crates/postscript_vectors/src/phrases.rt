//! Operations with their phrases and their masks.
use crate::checks::{bytes_of, holds};
use crate::programs::routines_of;
use postscript::type2::{Operand, Program, Told};
use std::alloc::Global;
use std::process::Abort;

/// A phrase and its mask in hex, and the operands of the stems that the mask implies, in 16.16 bits.
type Spelled = (&'static str, &'static str, &'static [i32]);

/// A code and its local subroutines in hex, and how each operation is spelled and hinted.
#[rattlefmt::skip]
const PHRASES: &[(&str, &str, &[Spelled])] = &[
    ("8c8d150e", "", &[("8c8d15", "", &[])]),
    ("8c8d0113ff0e", "", &[("8c8d01", "", &[]), ("13ff", "ff", &[])]),
    // The operands of a mask are stems: four in all, and so the mask has one byte.
    ("8c8d8e8f128c8d8e8f13f08c16", "", &[("8c8d8e8f12", "", &[]), ("8c8d8e8f13f0", "f0", &[65_536, 131_072, 196_608, 262_144]),
        ("8c16", "", &[])]),
    // The width is beneath them, once.
    ("8b8c8d13808c16", "", &[("8b8c8d1380", "80", &[65_536, 131_072]), ("8c16", "", &[])]),
    // Operands that were calculated, or are before a call, are given too.
    ("8c8d8e0c0a200a", "14c0", &[("14c0", "c0", &[65_536, 327_680])]),
    // Nine stems: two bytes, of which each would be an operator.
    ("8c8c8c8c8c8c8c8c8c8c8c8c8c8c8c8c8c8c12130c16140e050e", "",
        &[("8c8c8c8c8c8c8c8c8c8c8c8c8c8c8c8c8c8c12", "", &[]), ("130c16", "0c16", &[]), ("140e05", "0e05", &[])]),
    // A number of each form before the operator, and one whose bytes would be operators.
    ("1c0e0ef70efb0eff000e000e130e0e", "", &[("1c0e0ef70efb0eff000e000e130e", "0e", &[235_798_528, 7_995_392, -7_995_392, 917_518])]),
    // Bytes before a call, and calculations, are no part of the phrase.
    ("8c200a8d160e", "160b", &[("16", "", &[]), ("8d16", "", &[])]),
    ("8c8d0c0a160e", "", &[("16", "", &[])]),
    // An operator of two bytes.
    ("8c8d8e8f9091920c220e", "", &[("8c8d8e8f9091920c22", "", &[])]),
];

/// Whether operands have these bits.
fn are(operands: &[Operand], bits: &[i32]) -> bool {
    if operands.len() != bits.len() {
        return false;
    }
    for i in 0..bits.len() {
        if operands[i].bits() != bits[i] {
            return false;
        }
    }
    true
}

/// Whether the next operation is spelled and hinted so.
fn is_told<R: Abort>(rt: &R, alloc: Global, program: &mut Program<'_>, spelled: &Spelled) -> bool {
    let phrase = bytes_of(rt, alloc, spelled.0);
    let mask = bytes_of(rt, alloc, spelled.1);
    match program.tell_within(&mut 100) {
        Ok(Told::Operation(_, _, hints, told)) => {
            let is_hinted = hints.mask == mask.as_slice() && are(hints.stems, spelled.2);
            is_hinted && told == phrase.as_slice()
        }
        _ => false,
    }
}

/// Whether no operation is given if nothing is left of the limit.
fn is_paused(program: &mut Program<'_>) -> bool {
    matches!(program.tell_within(&mut 0), Ok(Told::Paused))
}

#[test]
fn phrases_and_masks(rt: HostRuntime) {
    let alloc = rt.alloc();
    for row in PHRASES {
        let bytes = bytes_of(&rt, alloc, row.0);
        let local = routines_of(&rt, alloc, row.1);
        let mut program = Program::new(alloc, bytes.as_slice(), &[], local.as_slice());
        for spelled in row.2 {
            holds(&rt, is_paused(&mut program), row.0);
            holds(&rt, is_told(&rt, alloc, &mut program, spelled), row.0);
        }
        let is_over = matches!(program.tell_within(&mut 100), Ok(Told::End));
        holds(&rt, is_over, row.0);
    }
}
