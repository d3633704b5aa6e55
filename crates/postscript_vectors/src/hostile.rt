//! Hostile fonts and tapes.
use crate::checks::{bytes_of, holds, read, with_changed_byte};
use crate::common::code_of;
use crate::fonts::{FONT, OF_FONT, describe_font, told_on};
use crate::tapes::{Trouble, TroubledTape};
use postscript::Tape;
use postscript::compact1::FontSet;
use std::alloc::Global;
use std::process::Abort;

/// Whether an outcome with this code is possible for a font: a font, the end of the tape, or a cause in the font.
fn is_of_a_font(code: u8) -> bool {
    matches!(code, 0 | 1 | 5..=16)
}

/// Reads the smallest font with each value at one offset.
fn check_values<R: Abort>(rt: &R, alloc: Global, place: usize) {
    for value in 0..=255u8 {
        let bytes = with_changed_byte(rt, alloc, FONT, place, value);
        if !is_of_a_font(code_of(read::<FontSet>(alloc, bytes.as_slice()))) {
            panic!(rt; "at {place} with {value}")
        }
    }
}

#[test]
fn fonts_with_a_byte_changed(rt: HostRuntime) {
    let alloc = rt.alloc();
    for place in 0..bytes_of(&rt, alloc, FONT).len() {
        check_values(&rt, alloc, place);
    }
}

/// Whether both readings of a font on a troubled tape report this.
fn is_told<R: Abort>(rt: &R, alloc: Global, bytes: &[u8], trouble: Trouble, wanted: &str) -> bool {
    let strictly = told_on(rt, alloc, &mut TroubledTape::new(bytes, trouble));
    let found = FontSet::read_lenient(alloc, &mut TroubledTape::new(bytes, trouble));
    let leniently = describe_font(rt, alloc, &found);
    strictly.as_str() == wanted && leniently.as_str() == wanted
}

/// Reads three zeros of a tape of zeros whose offset is always 0.
fn check_still<R: Abort>(rt: &R, alloc: Global) {
    let mut still = TroubledTape::new(&[], Trouble::Still);
    let number = Tape::take::<u32>(&mut still, alloc);
    holds(rt, number.expect(rt, "a number") == 0, "a number of zeros");
    let zeros = Tape::take_given::<Vec<u8>>(&mut still, alloc, 3).expect(rt, "zeros");
    holds(rt, zeros.as_slice() == [0, 0, 0].as_slice(), "zeros");
}

#[test]
fn fonts_on_strange_tapes(rt: HostRuntime) {
    let alloc = rt.alloc();
    let font = bytes_of(&rt, alloc, FONT);
    let interrupted = is_told(&rt, alloc, font.as_slice(), Trouble::Interrupted, OF_FONT);
    holds(&rt, interrupted, "interrupted");
    // The lists follow the header, and no offset is left there.
    let header = [0x01, 0x00, 0x04, 0x01];
    let far = is_told(&rt, alloc, &header, Trouble::Far, "fault 15");
    holds(&rt, far, "no place is left");
    check_still(&rt, alloc);
    let zeros = "header 0 0 0 0|strings 0|globals 0";
    let still = is_told(&rt, alloc, &[], Trouble::Still, zeros);
    holds(&rt, still, "a font of zeros");
}
