//! Recipes over a whole file.
use crate::checks::{bytes_of, holds, is_text};
use postscript_examples::files::{
    Placed, advance_of, cut_to, flat, glyph_names, line_of, outline_of, refusal_of,
};
use postscript_sfnt::FontFile;
use std::alloc::Global;
use std::process::Abort;

/// An OpenType file of two glyphs, `.notdef` and `A`, made by hand. FontTools 4.38 draws `A` as the path below, with an
/// advance of 600 by its charstring and by the `hmtx` table.
const FILE: &str =
    "4f54544f000700400002003043464620e024abe00000007c00000050636d6170000c0074000000cc0000002c \
    68656164616a43a1000000f8000000366868656102efff080000013000000024686d7478044c006400000154 \
    000000086d617870000250000000015c000000066e616d65029d0a8d00000164000000360100040100010101 \
    0e536d616c6c2d526567756c617200010101141d000000320f1d0000003511911d0000004a12000000000000 \
    220002010102100e9fef8b15f82406f95007fc24060ef88814f8d81500000001000300010000000c00040020 \
    000000040004000100000041ffff00000041ffffffc00001000000000001000000000000000000005f0f3cf5 \
    000003e8000000000000000000000000000000000064000001f402bc00000008000200000000000000010000 \
    02eeff060000000000000000000000000000000000000000000000000000000201f400000258006400005000 \
    0002000000000002001e0003000104090001000a00000003000104090002000e000a0053006d0061006c006c \
    0052006500670075006c006100720000";

/// The names of the glyphs, one after the other.
fn names_of<R: Abort>(rt: &R, alloc: Global, cff: &[u8]) -> String {
    let mut text = String::new(alloc);
    for name in &glyph_names(alloc, cff).expect(rt, "names") {
        let name = str::from_utf8(name.unwrap_or(b"none")).expect(rt, "a name");
        write!(text, "{name} ").expect(rt, "memory");
    }
    text
}

#[test]
fn a_glyph_of_a_file(rt: HostRuntime) {
    let alloc = rt.alloc();
    let bytes = bytes_of(&rt, alloc, FILE);
    let file = FontFile::read(bytes.as_slice(), 0).expect(&rt, "a file");
    let outline = outline_of(alloc, &file, 'A').expect(&rt, "an outline");
    let path = outline.to_string(alloc).expect(&rt, "memory");
    is_text(
        &rt,
        path.as_str(),
        "M100 0L500 0L500 700L100 700Z",
        "the path",
    );
    holds(&rt, outline_of(alloc, &file, 'B').is_err(), "no glyph");
    let line = line_of(alloc, &file, "AA").expect(&rt, "a line");
    let wanted = [Placed { glyph: 1, x: 0 }, Placed { glyph: 1, x: 600 }];
    holds(&rt, line.as_slice() == wanted.as_slice(), "the line");
}

#[test]
fn a_font_of_a_file(rt: HostRuntime) {
    let alloc = rt.alloc();
    let bytes = bytes_of(&rt, alloc, FILE);
    let file = FontFile::read(bytes.as_slice(), 0).expect(&rt, "a file");
    let cff = file.table(*b"CFF ").expect(&rt, "a table");
    is_text(
        &rt,
        names_of(&rt, alloc, cff).as_str(),
        ".notdef A ",
        "the names",
    );
    let advance = advance_of(alloc, cff, 1).expect(&rt, "an advance");
    holds(&rt, advance.in_bits() == Some(600 * 65536), "the advance");
    let whole = flat(alloc, cff).expect(&rt, "a flat font");
    is_text(
        &rt,
        names_of(&rt, alloc, whole.as_slice()).as_str(),
        ".notdef A ",
        "the flat font",
    );
    let cut = cut_to(alloc, &file, "AA").expect(&rt, "a subset");
    is_text(
        &rt,
        names_of(&rt, alloc, cut.as_slice()).as_str(),
        ".notdef A ",
        "the subset",
    );
}

#[test]
fn why_a_font_is_refused(rt: HostRuntime) {
    let alloc = rt.alloc();
    let refusal = refusal_of(alloc, &[1, 0]).expect(&rt, "memory");
    let text = refusal.expect(&rt, "a refusal");
    is_text(
        &rt,
        text.as_str(),
        "failed to fill whole buffer",
        "a header that is cut",
    );
}
