//! The operators of charstrings, and their operands.
ghost use Rattle.std.specs.Prelude.{◌≡◌, ◌≤◌, ℕ, ℤ, Some, IfSome};
ghost use Rattle.std.specs.Option.{ok_or};
ghost use Rattle.postscript_base.specs.declared.error.Error.TheVariants as errors;
ghost use Rattle.postscript_type2.specs.Operation.Kinds.{taken as the_taken};
ghost use Rattle.postscript_type2.specs.Private.Suffixes.{longest};
ghost use Rattle.postscript_type2.specs.Number.{whole, to_int};
ghost use Rattle.postscript_type2.specs.Operation.Operators.{operator_of, name_of};
ghost use Rattle.postscript_type2.specs.Private.Texts.{text};

use postscript_base::{Error, Result};
use std::fmt;
use std::marker::Model;

/// An operand: a 16.16 number, whose bits `b` represent `b / 65536`.
#[derive(Clone, Copy, Debug, PartialEq, Eq, PartialOrd, Ord)]
pub struct Operand {
    bits: i32,
}

impl Model for Operand {
    ghost Value = { ℤ };

    ghost view = { λ operand. operand.bits };

    ghost inverse = { λ bits. record { bits = bits } };
}

impl Operand {
    /// Returns the operand with these 16.16 bits.
    ///
    /// ```rust
    /// pub fn one_and_a_half() -> Operand {
    ///     Operand::from_bits(98_304)
    /// }
    /// ```
    pub fn from_bits(bits: i32) -> Operand
        // The bits of the result are `bits`.
        ensures { result ≡ bits }
    {
        Operand { bits }
    }

    /// Returns the 16.16 bits, which are 65536 times the number.
    pub fn bits(&self) -> i32
        // The result is the bits of the operand.
        ensures { result ≡ self.now }
    {
        self.bits
    }

    /// Returns the operand of a whole number.
    pub fn from_int(number: i16) -> Operand
        // The bits of the result are 65536 times `number`.
        ensures { result ≡ whole number }
    {
        Operand {
            bits: i32::from(number) * 65536,
        }
    }

    /// Returns the number if it is whole, and `None` otherwise.
    ///
    /// ```rust
    /// pub fn one_more(operand: &Operand) -> Option<Operand> {
    ///     let number = operand.to_int()?;
    ///     Some(Operand::from_int(number.checked_add(1)?))
    /// }
    /// ```
    pub fn to_int(&self) -> Option<i16>
        // The result is the bits divided by 65536, or `None` if they are no multiple of it.
        ensures { result ≡ to_int self.now }
    {
        if self.bits % 65536 == 0 {
            Some((self.bits / 65536) as i16)
        } else {
            None
        }
    }
}

/// Writes a whole number as `3`, and any other as its bits followed by `/65536`, such as `98304/65536`.
impl fmt::Display for Operand {
    ghost output = { λ operand. Some (text operand) };

    fn fmt<W: fmt::Write>(&self, f: &mut fmt::Formatter<W>) -> fmt::Result {
        match self.to_int() {
            Some(number) => write!(f, "{number}"),
            None => {
                let bits = self.bits;
                write!(f, "{bits}/65536")
            }
        }
    }
}

/// An operation of a glyph: an operator that draws, declares stems or is a mask, with the operands it takes, the lowest
/// first. A width beneath them is not included. A mask has no operands. Its bytes and the stems it implies (Technical
/// Note 5177, "Hint Operators") are given by `Program::tell_within` only.
pub type Operation = (Operator, Vec<Operand>);

/// Operations in the order of the run.
pub type Operations = Vec<Operation>;

/// An operator, with its operands before its name and its code after it (Technical Note 5177, Appendix A).
#[derive(Clone, Copy, Debug, PartialEq, Eq)]
pub enum Operator {
    /// y dy {dya dyb}* hstem (1)
    HStem,
    /// x dx {dxa dxb}* vstem (3)
    VStem,
    /// dy1 vmoveto (4)
    VMoveTo,
    /// {dxa dya}+ rlineto (5)
    RLineTo,
    /// dx1 {dya dxb}* hlineto (6), {dxa dyb}+ hlineto (6)
    HLineTo,
    /// dy1 {dxa dyb}* vlineto (7), {dya dxb}+ vlineto (7)
    VLineTo,
    /// {dxa dya dxb dyb dxc dyc}+ rrcurveto (8)
    RRCurveTo,
    /// subr# callsubr (10)
    CallSubr,
    /// return (11)
    Return,
    /// endchar (14)
    EndChar,
    /// y dy {dya dyb}* hstemhm (18)
    HStemHM,
    /// hintmask (19 and its mask)
    HintMask,
    /// cntrmask (20 and its mask)
    CntrMask,
    /// dx1 dy1 rmoveto (21)
    RMoveTo,
    /// dx1 hmoveto (22)
    HMoveTo,
    /// x dx {dxa dxb}* vstemhm (23)
    VStemHM,
    /// {dxa dya dxb dyb dxc dyc}+ dxd dyd rcurveline (24)
    RCurveLine,
    /// {dxa dya}+ dxb dyb dxc dyc dxd dyd rlinecurve (25)
    RLineCurve,
    /// dx1? {dya dxb dyb dyc}+ vvcurveto (26)
    VVCurveTo,
    /// dy1? {dxa dxb dyb dxc}+ hhcurveto (27)
    HHCurveTo,
    /// globalsubr# callgsubr (29)
    CallGSubr,
    /// dy1 dx2 dy2 dx3 {dxa dxb dyb dyc dyd dxe dye dxf}* dyf? vhcurveto (30),
    /// {dya dxb dyb dxc dxd dxe dye dyf}+ dxf? vhcurveto (30)
    VHCurveTo,
    /// dx1 dx2 dy2 dy3 {dya dxb dyb dxc dxd dxe dye dyf}* dxf? hvcurveto (31),
    /// {dxa dxb dyb dyc dyd dxe dye dxf}+ dyf? hvcurveto (31)
    HVCurveTo,
    /// num1 num2 and (12 3) 1_or_0
    And,
    /// num1 num2 or (12 4) 1_or_0
    Or,
    /// num1 not (12 5) 1_or_0
    Not,
    /// num abs (12 9) num2
    Abs,
    /// num1 num2 add (12 10) sum
    Add,
    /// num1 num2 sub (12 11) difference
    Sub,
    /// num1 num2 div (12 12) quotient
    Div,
    /// num neg (12 14) num2
    Neg,
    /// num1 num2 eq (12 15) 1_or_0
    Eq,
    /// num drop (12 18)
    Drop,
    /// val i put (12 20)
    Put,
    /// i get (12 21) val
    Get,
    /// s1 s2 v1 v2 ifelse (12 22) s1_or_s2
    IfElse,
    /// random (12 23) num2
    Random,
    /// num1 num2 mul (12 24) product
    Mul,
    /// num sqrt (12 26) num2
    Sqrt,
    /// any dup (12 27) any any
    Dup,
    /// num1 num2 exch (12 28) num2 num1
    Exch,
    /// numX .. num0 i index (12 29) numX .. num0 numi
    Index,
    /// num(N-1) .. num0 N J roll (12 30) num((J-1) mod N) .. num0 num(N-1) .. num(J mod N)
    Roll,
    /// dx1 dx2 dy2 dx3 dx4 dx5 dx6 hflex (12 34)
    HFlex,
    /// dx1 dy1 dx2 dy2 dx3 dy3 dx4 dy4 dx5 dy5 dx6 dy6 fd flex (12 35)
    Flex,
    /// dx1 dy1 dx2 dy2 dx3 dx4 dx5 dy5 dx6 hflex1 (12 36)
    HFlex1,
    /// dx1 dy1 dx2 dy2 dx3 dy3 dx4 dy4 dx5 dy5 d6 flex1 (12 37)
    Flex1,
}

impl Operator {
    /// Returns the operator with a code (Technical Note 5177, Appendix A). A code of two bytes is 0x0c00 plus the
    /// second byte.
    ///
    /// # Errors
    ///
    /// - `UnknownOperator`: no operator has the code.
    pub fn from(code: u16) -> Result<Self>
        // The result is the operator that `operator_of` lists for `code`, or `UnknownOperator`.
        ensures { result ≡ ok_or (operator_of code) errors.UnknownOperator }
    {
        Operator::of(code).ok_or(Error::UnknownOperator)
    }

    /// The operator with a code, if there is one.
    #[inline(always)]
    pub(crate) fn of(code: u16) -> Option<Self>
        ensures { result ≡ operator_of code }
    {
        Some(match code {
            0x01 => Operator::HStem,
            0x03 => Operator::VStem,
            0x04 => Operator::VMoveTo,
            0x05 => Operator::RLineTo,
            0x06 => Operator::HLineTo,
            0x07 => Operator::VLineTo,
            0x08 => Operator::RRCurveTo,
            0x0a => Operator::CallSubr,
            0x0b => Operator::Return,
            0x0e => Operator::EndChar,
            0x12 => Operator::HStemHM,
            0x13 => Operator::HintMask,
            0x14 => Operator::CntrMask,
            0x15 => Operator::RMoveTo,
            0x16 => Operator::HMoveTo,
            0x17 => Operator::VStemHM,
            0x18 => Operator::RCurveLine,
            0x19 => Operator::RLineCurve,
            0x1a => Operator::VVCurveTo,
            0x1b => Operator::HHCurveTo,
            0x1d => Operator::CallGSubr,
            0x1e => Operator::VHCurveTo,
            0x1f => Operator::HVCurveTo,
            0x0c03 => Operator::And,
            0x0c04 => Operator::Or,
            0x0c05 => Operator::Not,
            0x0c09 => Operator::Abs,
            0x0c0a => Operator::Add,
            0x0c0b => Operator::Sub,
            0x0c0c => Operator::Div,
            0x0c0e => Operator::Neg,
            0x0c0f => Operator::Eq,
            0x0c12 => Operator::Drop,
            0x0c14 => Operator::Put,
            0x0c15 => Operator::Get,
            0x0c16 => Operator::IfElse,
            0x0c17 => Operator::Random,
            0x0c18 => Operator::Mul,
            0x0c1a => Operator::Sqrt,
            0x0c1b => Operator::Dup,
            0x0c1c => Operator::Exch,
            0x0c1d => Operator::Index,
            0x0c1e => Operator::Roll,
            0x0c22 => Operator::HFlex,
            0x0c23 => Operator::Flex,
            0x0c24 => Operator::HFlex1,
            0x0c25 => Operator::Flex1,
            _ => return None,
        })
    }

    /// Returns the name of the variant, such as `RMoveTo`.
    pub fn name(&self) -> &'static str
        // The result is the name of the variant.
        ensures { result.now ≡ name_of self.now }
    {
        match self {
            Operator::HStem => "HStem",
            Operator::VStem => "VStem",
            Operator::VMoveTo => "VMoveTo",
            Operator::RLineTo => "RLineTo",
            Operator::HLineTo => "HLineTo",
            Operator::VLineTo => "VLineTo",
            Operator::RRCurveTo => "RRCurveTo",
            Operator::CallSubr => "CallSubr",
            Operator::Return => "Return",
            Operator::EndChar => "EndChar",
            Operator::HStemHM => "HStemHM",
            Operator::HintMask => "HintMask",
            Operator::CntrMask => "CntrMask",
            Operator::RMoveTo => "RMoveTo",
            Operator::HMoveTo => "HMoveTo",
            Operator::VStemHM => "VStemHM",
            Operator::RCurveLine => "RCurveLine",
            Operator::RLineCurve => "RLineCurve",
            Operator::VVCurveTo => "VVCurveTo",
            Operator::HHCurveTo => "HHCurveTo",
            Operator::CallGSubr => "CallGSubr",
            Operator::VHCurveTo => "VHCurveTo",
            Operator::HVCurveTo => "HVCurveTo",
            Operator::And => "And",
            Operator::Or => "Or",
            Operator::Not => "Not",
            Operator::Abs => "Abs",
            Operator::Add => "Add",
            Operator::Sub => "Sub",
            Operator::Div => "Div",
            Operator::Neg => "Neg",
            Operator::Eq => "Eq",
            Operator::Drop => "Drop",
            Operator::Put => "Put",
            Operator::Get => "Get",
            Operator::IfElse => "IfElse",
            Operator::Random => "Random",
            Operator::Mul => "Mul",
            Operator::Sqrt => "Sqrt",
            Operator::Dup => "Dup",
            Operator::Exch => "Exch",
            Operator::Index => "Index",
            Operator::Roll => "Roll",
            Operator::HFlex => "HFlex",
            Operator::Flex => "Flex",
            Operator::HFlex1 => "HFlex1",
            Operator::Flex1 => "Flex1",
        }
    }

    /// Returns how many of `length` operands on the stack the operator takes. This is the greatest number up to
    /// `length` that it allows (Technical Note 5177, "Path Construction Operators", "Hint Operators"). Returns `None`
    /// if there is no such number. For `EndChar`, and for operators that do not clear the stack, the result is always
    /// `None`.
    #[inline(always)]
    pub fn taken(&self, length: usize) -> Option<usize>
        // The result is the greatest number up to `length` that the operator allows, if any.
        ensures value { result ≡ the_taken self.now length }
        // The result is at most `length`.
        ensures room { IfSome result (λ n. n ≤ length) }
    {
        let Some(lengths) = self.lengths() else {
            return None;
        };
        lengths.greatest(length)
    }

    /// The row of the operator in `LENGTHS`.
    #[inline(always)]
    fn lengths(&self) -> Option<Lengths>
        ensures { (n : ℕ) → the_taken self.now n ≡ longest result n }
    {
        LENGTHS[*self as usize]
    }
}

/// The numbers of operands that an operator takes: `least` plus any multiple of `step`, or only `least` if `step` is 0.
/// Up to `spare` more are allowed with each.
#[derive(Clone, Copy)]
struct Lengths {
    least: usize,
    step: usize,
    spare: usize,
}

impl Lengths {
    /// The greatest up to `length`, if there is one.
    #[inline(always)]
    fn greatest(self, length: usize) -> Option<usize>
        ensures value { result ≡ longest (Some self) length }
        ensures room { IfSome result (λ n. n ≤ length) }
    {
        if length < self.least {
            return None;
        }
        let more = length - self.least;
        let past = if self.step == 0 {
            more
        } else {
            more % self.step
        };
        Some(length - past.saturating_sub(self.spare))
    }
}

const ZERO: Option<Lengths> = Some(Lengths {
    least: 0,
    step: 0,
    spare: 0,
});

const ONE: Option<Lengths> = Some(Lengths {
    least: 1,
    step: 0,
    spare: 0,
});

const TWO: Option<Lengths> = Some(Lengths {
    least: 2,
    step: 0,
    spare: 0,
});

const SEVEN: Option<Lengths> = Some(Lengths {
    least: 7,
    step: 0,
    spare: 0,
});

const NINE: Option<Lengths> = Some(Lengths {
    least: 9,
    step: 0,
    spare: 0,
});

const ELEVEN: Option<Lengths> = Some(Lengths {
    least: 11,
    step: 0,
    spare: 0,
});

const THIRTEEN: Option<Lengths> = Some(Lengths {
    least: 13,
    step: 0,
    spare: 0,
});

const SOME: Option<Lengths> = Some(Lengths {
    least: 1,
    step: 1,
    spare: 0,
});

const PAIRS: Option<Lengths> = Some(Lengths {
    least: 2,
    step: 2,
    spare: 0,
});

const SIXES: Option<Lengths> = Some(Lengths {
    least: 6,
    step: 6,
    spare: 0,
});

const SIXES_AND_TWO: Option<Lengths> = Some(Lengths {
    least: 8,
    step: 6,
    spare: 0,
});

const PAIRS_AND_SIX: Option<Lengths> = Some(Lengths {
    least: 8,
    step: 2,
    spare: 0,
});

const FOURS: Option<Lengths> = Some(Lengths {
    least: 4,
    step: 4,
    spare: 1,
});

/// The lengths of each operator, in the order of `Operator`.
static LENGTHS: [Option<Lengths>; 47] = [
    PAIRS, // HStem
    PAIRS, // VStem
    ONE, // VMoveTo
    PAIRS, // RLineTo
    SOME, // HLineTo
    SOME, // VLineTo
    SIXES, // RRCurveTo
    None, // CallSubr
    None, // Return
    None, // EndChar
    PAIRS, // HStemHM
    ZERO, // HintMask
    ZERO, // CntrMask
    TWO, // RMoveTo
    ONE, // HMoveTo
    PAIRS, // VStemHM
    SIXES_AND_TWO, // RCurveLine
    PAIRS_AND_SIX, // RLineCurve
    FOURS, // VVCurveTo
    FOURS, // HHCurveTo
    None, // CallGSubr
    FOURS, // VHCurveTo
    FOURS, // HVCurveTo
    None, // And
    None, // Or
    None, // Not
    None, // Abs
    None, // Add
    None, // Sub
    None, // Div
    None, // Neg
    None, // Eq
    None, // Drop
    None, // Put
    None, // Get
    None, // IfElse
    None, // Random
    None, // Mul
    None, // Sqrt
    None, // Dup
    None, // Exch
    None, // Index
    None, // Roll
    SEVEN, // HFlex
    THIRTEEN, // Flex
    NINE, // HFlex1
    ELEVEN, // Flex1
];
