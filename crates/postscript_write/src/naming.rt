//! Operators with an SID (Technical Note 5176, section 9).
ghost use Rattle.std.specs.Prelude.{◌≡◌};
ghost use Rattle.postscript_write.specs.Strings.{identifier_in as the_identifier};

use postscript_base::compact1::{Operations, Operator, StringID};

/// The operators of a Top DICT with an SID (Technical Note 5176, section 9, operands of kind SID).
pub(crate) const SID_OPERATORS: [Operator; 9] = [
    Operator::Version,
    Operator::Notice,
    Operator::Copyright,
    Operator::FullName,
    Operator::FamilyName,
    Operator::Weight,
    Operator::PostScript,
    Operator::BaseFontName,
    Operator::FontName,
];

/// The SID of an operator: its first operand, if it is a number of two bytes.
#[tactic(auto, unfolding(crate::specs::Strings::identifier_in))]
pub(crate) fn identifier_in(dictionary: &Operations, operator: Operator) -> Option<StringID>
    ensures { result ≡ the_identifier dictionary.now operator }
{
    let number = dictionary.get_single(operator)?.to_i32()?;
    if number < 0 || number > 0xffff {
        return None;
    }
    Some(number as u16)
}
