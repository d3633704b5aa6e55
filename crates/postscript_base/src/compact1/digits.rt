//! The operand spelled by the digits of a real.
ghost use Rattle.std.specs.Prelude.{◌≡◌, ℕ, pos, ◌+◌, ◌*◌, ◌^◌, ◌<◌, ◌≤◌, length, min, IfSome, IfNone, ◌++◌};
ghost use Rattle.std.specs.Int.RustNames.{unsigned_abs};
ghost use Rattle.postscript_base.specs.Compact1.Decimal.{AreEqual, Decimal, HasOperand, IsDigits, digits_number, operand_of, real_value, signed};

use super::operand::{Operand, of_digits};
use super::significant::{Significant, push_all};

/// More digits than any text can have cannot bring an exponent of this size back into the range of operands.
const FAR: u128 = 1_180_591_620_717_411_303_424;

/// Returns the number that the digits spell, capped at `FAR` or a little above it.
fn up_to_far(digits: &[u8]) -> u128
    requires { IsDigits digits.now }
    ensures near { result < 2 ^ 80 }
    ensures value { min result (2 ^ 70) ≡ min (digits_number digits.now) (2 ^ 70) }
{
    let mut size = 0u128;
    for digit in digits {
        if size < FAR {
            size = 10 * size + u128::from(*digit);
        }
    }
    size
}

/// Applies a sign to a number.
fn with_sign(negative: bool, size: u128) -> i128
    requires { size < 2 ^ 80 }
    ensures value { result ≡ signed negative size }
    ensures size { unsigned_abs result ≡ size }
{
    if negative {
        -(size as i128)
    } else {
        size as i128
    }
}

/// Returns the operand of a real from the digits before the point, after the point, and in the exponent.
pub(crate) fn of_real(
    negative: bool,
    whole: &[u8],
    fraction: &[u8],
    down: bool,
    exponent: &[u8],
) -> Option<Operand>
    requires whole { IsDigits whole.now }
    requires fraction { IsDigits fraction.now }
    requires exponent { IsDigits exponent.now }
    requires room { length whole.now + length fraction.now < 2 ^ 64 }
    ensures exact { let v = real_value negative whole.now fraction.now down exponent.now in result ≡ operand_of v.mantissa v.exponent }
    ensures some { IfSome result (λ o. AreEqual o (real_value negative whole.now fraction.now down exponent.now)) }
    ensures operand { IfSome result HasOperand }
    ensures none { IfNone result ((d : Decimal) → HasOperand d →
        AreEqual d (real_value negative whole.now fraction.now down exponent.now) → ⊥) }
{
    let front = push_all(Significant::new(), whole);
    let kept = push_all(front, fraction);
    if kept.is_long {
        return None;
    }
    if kept.mantissa == 0 {
        return Some(Operand::zero());
    }
    let places = i128::from(kept.zeros) - fraction.len() as i128;
    let far = up_to_far(exponent);
    let shift = with_sign(down, far);
    let scale = places + shift;
    of_digits(negative, u128::from(kept.mantissa), scale)
}
