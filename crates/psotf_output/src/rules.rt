//! The parts of a `CFF ` table that have errors, and the rules that they break.
use std::fmt;

/// A part of a `CFF ` table, and its offset in bytes. The offset is `None` if the part is only an operand of a DICT.
#[derive(Clone, Copy)]
pub struct Spot {
    pub part: &'static str,
    pub place: Option<u64>,
}

impl fmt::Display for Spot {
    fn fmt<W: fmt::Write>(&self, f: &mut fmt::Formatter<W>) -> fmt::Result {
        match self.place {
            Some(place) => write!(f, "{} at byte {place}", self.part),
            None => f.write_str(self.part),
        }
    }
}

/// Returns the rule that an error breaks, with the section of Adobe's Technical Notes.
pub fn rule_of(code: u8) -> &'static str {
    match code {
        1 =>
            "this part has to end within the table (Technical Note 5176, section 2), and the file may be truncated",
        5 => "the offset size of an INDEX is 1 to 4 (Technical Note 5176, section 5)",
        6 =>
            "the offsets of an INDEX begin with 1 and never decrease, and a strict reading allows no empty items (Technical Note 5176, section 5)",
        7 =>
            "a number begins with a byte from 28 to 30 or 32 to 254, and a real has a last digit (Technical Note 5176, section 4)",
        8 =>
            "a real has up to 18 significant digits, and an exponent from -1000 to 1000 (a limit of this library)",
        9 =>
            "DICT operators are listed in Technical Note 5176, Tables 9, 10 and 23, charstring operators in 5177, Appendix A",
        10 =>
            "a charset has an entry for each glyph except the first, and no more (Technical Note 5176, section 13)",
        11 => "the format of a charset is 0, 1 or 2 (Technical Note 5176, section 13)",
        12 => "CharstringType is 2 (Technical Note 5176, Table 9)",
        13 => "offsets and sizes are whole numbers (Technical Note 5176, Tables 9 and 23)",
        14 => "the operator and its operands are required (Technical Note 5176, Tables 9 and 23)",
        15 => "offsets and sizes are not negative (Technical Note 5176, section 3)",
        16 =>
            "custom encodings and the operator random are not supported (a limit of this library)",
        17 | 18 | 19 | 20 | 21 =>
            "an operator takes its operands from the stack (Technical Note 5177, sections 4.1 to 4.6)",
        22 =>
            "a subroutine number plus the bias is an index of the INDEX (Technical Note 5177, section 4.7)",
        23 => "return ends a subroutine only (Technical Note 5177, section 4.7)",
        24 => "no bytes follow endchar (Technical Note 5177, section 4.2)",
        25 => "at most ten calls are nested (Technical Note 5177, Appendix B)",
        26 => "numbers and coordinates have 16.16 bits (Technical Note 5177, section 3.2)",
        27 => "the divisor of div is not zero (Technical Note 5177, section 4.4)",
        28 => "the operand of sqrt is not negative (Technical Note 5177, section 4.4)",
        _ => "docs/errors.md explains the number",
    }
}
