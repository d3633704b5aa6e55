//! The operators of dictionaries.
ghost use Rattle.std.specs.Prelude.{◌≡◌};
ghost use Rattle.std.specs.Option.{ok_or};
ghost use Rattle.postscript_base.specs.declared.error.Error.TheVariants as errors;
ghost use Rattle.postscript_base.specs.Compact1.Defaults.{default_of};
ghost use Rattle.postscript_base.specs.Compact1.Operators.{operator_of};
ghost use Rattle.postscript_base.specs.Compact1.OperatorNames.{name_of};

use super::{Operand, Operands};
use crate::{Error, Result};

/// An operator of a dictionary (Technical Note 5176, Tables 9, 10 and 23).
#[derive(Clone, Copy, Debug, PartialEq, Eq, Hash)]
pub enum Operator {
    Version,
    Notice,
    FullName,
    FamilyName,
    Weight,
    FontBBox,
    BlueValues,
    OtherBlues,
    FamilyBlues,
    FamilyOtherBlues,
    StdHW,
    StdVW,
    UniqueID,
    XUID,
    CharSet,
    Encoding,
    CharStrings,
    Private,
    Subrs,
    DefaultWidthX,
    NominalWidthX,
    Copyright,
    IsFixedPitch,
    ItalicAngle,
    UnderlinePosition,
    UnderlineThickness,
    PaintType,
    CharStringType,
    FontMatrix,
    StrokeWidth,
    BlueScale,
    BlueShift,
    BlueFuzz,
    StemSnapH,
    StemSnapV,
    ForceBold,
    LanguageGroup,
    ExpansionFactor,
    InitialRandomSeed,
    SyntheticBase,
    PostScript,
    BaseFontName,
    BaseFontBlend,
    ROS,
    CIDFontVersion,
    CIDFontRevision,
    CIDFontType,
    CIDCount,
    UIDBase,
    FDArray,
    FDSelect,
    FontName,
}

impl Operator {
    /// Returns the operator with a code (Technical Note 5176, Tables 9, 10 and 23). The code of a two-byte operator is
    /// 0x0c00 plus the second byte.
    ///
    /// # Errors
    ///
    /// - `UnknownOperator`: no operator has the code.
    #[inline(always)]
    #[tactic(auto, unfolding(crate::specs::Compact1::Operators::operator_of))]
    pub fn from(code: u16) -> Result<Self>
        // The result is the operator with this code, or `UnknownOperator` if there is none.
        ensures { result ≡ ok_or (operator_of code) errors.UnknownOperator }
    {
        Ok(match code {
            0x00 => Operator::Version,
            0x01 => Operator::Notice,
            0x02 => Operator::FullName,
            0x03 => Operator::FamilyName,
            0x04 => Operator::Weight,
            0x05 => Operator::FontBBox,
            0x06 => Operator::BlueValues,
            0x07 => Operator::OtherBlues,
            0x08 => Operator::FamilyBlues,
            0x09 => Operator::FamilyOtherBlues,
            0x0a => Operator::StdHW,
            0x0b => Operator::StdVW,
            0x0d => Operator::UniqueID,
            0x0e => Operator::XUID,
            0x0f => Operator::CharSet,
            0x10 => Operator::Encoding,
            0x11 => Operator::CharStrings,
            0x12 => Operator::Private,
            0x13 => Operator::Subrs,
            0x14 => Operator::DefaultWidthX,
            0x15 => Operator::NominalWidthX,
            0x0c00 => Operator::Copyright,
            0x0c01 => Operator::IsFixedPitch,
            0x0c02 => Operator::ItalicAngle,
            0x0c03 => Operator::UnderlinePosition,
            0x0c04 => Operator::UnderlineThickness,
            0x0c05 => Operator::PaintType,
            0x0c06 => Operator::CharStringType,
            0x0c07 => Operator::FontMatrix,
            0x0c08 => Operator::StrokeWidth,
            0x0c09 => Operator::BlueScale,
            0x0c0a => Operator::BlueShift,
            0x0c0b => Operator::BlueFuzz,
            0x0c0c => Operator::StemSnapH,
            0x0c0d => Operator::StemSnapV,
            0x0c0e => Operator::ForceBold,
            0x0c11 => Operator::LanguageGroup,
            0x0c12 => Operator::ExpansionFactor,
            0x0c13 => Operator::InitialRandomSeed,
            0x0c14 => Operator::SyntheticBase,
            0x0c15 => Operator::PostScript,
            0x0c16 => Operator::BaseFontName,
            0x0c17 => Operator::BaseFontBlend,
            0x0c1e => Operator::ROS,
            0x0c1f => Operator::CIDFontVersion,
            0x0c20 => Operator::CIDFontRevision,
            0x0c21 => Operator::CIDFontType,
            0x0c22 => Operator::CIDCount,
            0x0c23 => Operator::UIDBase,
            0x0c24 => Operator::FDArray,
            0x0c25 => Operator::FDSelect,
            0x0c26 => Operator::FontName,
            _ => return Err(Error::UnknownOperator),
        })
    }

    /// Returns the default operands of the operator (Technical Note 5176, Tables 9, 10 and 23). It is `None` if the
    /// tables give no default.
    pub fn default(&self) -> Option<Operands<'static>>
        // The result is the default operands of `default_of` (specs/Compact1/Defaults.antt).
        ensures { result ≡ default_of self.now }
    {
        Some(match self {
            Operator::FontBBox => Operands::four([Operand::zero(); 4]),
            Operator::CharSet
            | Operator::Encoding
            | Operator::DefaultWidthX
            | Operator::NominalWidthX
            | Operator::IsFixedPitch
            | Operator::ItalicAngle
            | Operator::PaintType
            | Operator::StrokeWidth
            | Operator::ForceBold
            | Operator::LanguageGroup
            | Operator::InitialRandomSeed
            | Operator::CIDFontVersion
            | Operator::CIDFontRevision
            | Operator::CIDFontType => Operands::one(0, 0),
            Operator::UnderlinePosition => Operands::one(-1, 2),
            Operator::UnderlineThickness => Operands::one(5, 1),
            Operator::CharStringType => Operands::one(2, 0),
            Operator::FontMatrix => {
                let zero = Operand::zero();
                let small = Operand::literal(1, -3);
                Operands::six([small, zero, zero, small, zero, zero])
            }
            Operator::BlueScale => Operands::one(39625, -6),
            Operator::BlueShift => Operands::one(7, 0),
            Operator::BlueFuzz => Operands::one(1, 0),
            Operator::ExpansionFactor => Operands::one(6, -2),
            Operator::CIDCount => Operands::one(872, 1),
            _ => return None,
        })
    }

    /// Returns the name of the variant, such as `BlueScale`.
    pub fn name(&self) -> &'static str
        // The result is the name of the variant.
        ensures { result.now ≡ name_of self.now }
    {
        match self {
            Operator::Version => "Version",
            Operator::Notice => "Notice",
            Operator::FullName => "FullName",
            Operator::FamilyName => "FamilyName",
            Operator::Weight => "Weight",
            Operator::FontBBox => "FontBBox",
            Operator::BlueValues => "BlueValues",
            Operator::OtherBlues => "OtherBlues",
            Operator::FamilyBlues => "FamilyBlues",
            Operator::FamilyOtherBlues => "FamilyOtherBlues",
            Operator::StdHW => "StdHW",
            Operator::StdVW => "StdVW",
            Operator::UniqueID => "UniqueID",
            Operator::XUID => "XUID",
            Operator::CharSet => "CharSet",
            Operator::Encoding => "Encoding",
            Operator::CharStrings => "CharStrings",
            Operator::Private => "Private",
            Operator::Subrs => "Subrs",
            Operator::DefaultWidthX => "DefaultWidthX",
            Operator::NominalWidthX => "NominalWidthX",
            Operator::Copyright => "Copyright",
            Operator::IsFixedPitch => "IsFixedPitch",
            Operator::ItalicAngle => "ItalicAngle",
            Operator::UnderlinePosition => "UnderlinePosition",
            Operator::UnderlineThickness => "UnderlineThickness",
            Operator::PaintType => "PaintType",
            Operator::CharStringType => "CharStringType",
            Operator::FontMatrix => "FontMatrix",
            Operator::StrokeWidth => "StrokeWidth",
            Operator::BlueScale => "BlueScale",
            Operator::BlueShift => "BlueShift",
            Operator::BlueFuzz => "BlueFuzz",
            Operator::StemSnapH => "StemSnapH",
            Operator::StemSnapV => "StemSnapV",
            Operator::ForceBold => "ForceBold",
            Operator::LanguageGroup => "LanguageGroup",
            Operator::ExpansionFactor => "ExpansionFactor",
            Operator::InitialRandomSeed => "InitialRandomSeed",
            Operator::SyntheticBase => "SyntheticBase",
            Operator::PostScript => "PostScript",
            Operator::BaseFontName => "BaseFontName",
            Operator::BaseFontBlend => "BaseFontBlend",
            Operator::ROS => "ROS",
            Operator::CIDFontVersion => "CIDFontVersion",
            Operator::CIDFontRevision => "CIDFontRevision",
            Operator::CIDFontType => "CIDFontType",
            Operator::CIDCount => "CIDCount",
            Operator::UIDBase => "UIDBase",
            Operator::FDArray => "FDArray",
            Operator::FDSelect => "FDSelect",
            Operator::FontName => "FontName",
        }
    }
}
