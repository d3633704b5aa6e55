//! The operands of dictionaries.
ghost use Rattle.std.specs.Prelude.{◌≡◌, ◌≢◌, ℤ, pos, negsuc, ℕ, ◌-◌, ◌*◌, ◌^◌, ◌%◌, ◌<◌, ◌≤◌, ◌≤ℤ◌, IfSome, IfNone, Some};
ghost use Rattle.std.specs.Int.RustNames.{unsigned_abs};
ghost use Rattle.postscript_base.specs.Compact1.Defaults.{decimal};
ghost use Rattle.postscript_base.specs.Compact1.Decimal.{canonical, Decimal, HasOperand, IsOf32Bits, IsOperand, IsSameValue, operand_of, scaled, printed, signed, to_i32 as the_i32};

use std::fmt;
use std::marker::Model;

/// A decimal number, `mantissa * 10^exponent`. Each value has only one form: the mantissa has at most eighteen digits
/// and does not end in 0, and the exponent is from -1000 to 1000. Zero is `(0, 0)`.
#[derive(Clone, Copy, Debug, Eq, Hash)]
pub struct Operand {
    mantissa: i64,
    exponent: i32,
}

impl Model for Operand {
    ghost use Rattle.postscript_base.specs.Compact1.Decimal.{Decimal, IsOperand};

    ghost Value = { Decimal };

    ghost view = { λ o. record { mantissa = o.mantissa; exponent = o.exponent } };

    ghost invariant = { λ o. IsOperand o.mantissa o.exponent };

    ghost inverse = { λ d. record { mantissa = d.mantissa; exponent = d.exponent } };
}

impl Operand {
    /// Returns the operand of `mantissa * 10^exponent`. Zeros at the end of the mantissa move into the exponent.
    ///
    /// It returns `None` if the value has no operand: more than eighteen digits remain, or the exponent is then not
    /// from -1000 to 1000.
    ///
    /// ```rust
    /// pub fn minus_twelve_and_a_half() -> Option<(i64, i32)> {
    ///     let operand = Operand::new(-1250, -2)?;
    ///     Some((operand.mantissa(), operand.exponent()))
    /// }
    /// ```
    pub fn new(mantissa: i128, exponent: i32) -> Option<Operand>
        // If it is `Some`, the operand is in its one form and has this value.
        ensures some { IfSome result (λ o. HasOperand o × IsSameValue o.mantissa o.exponent mantissa exponent) }
        // If it is `None`, no operand has this value.
        ensures none { IfNone result ((m e : ℤ) → IsOperand m e → IsSameValue m e mantissa exponent → ⊥) }
        // The result is exactly what `operand_of` computes (specs/Compact1/Decimal.antt).
        ensures exact { result ≡ operand_of mantissa exponent }
    {
        if mantissa == 0 {
            return Some(Operand::zero());
        }
        let (digits, zeros) = stripped(mantissa.unsigned_abs());
        of_digits(
            mantissa < 0,
            digits,
            i128::from(exponent) + i128::from(zeros),
        )
    }

    /// Returns the operand 0.
    pub(crate) fn zero() -> Operand
        ensures value { (result.mantissa ≡ pos 0) × (result.exponent ≡ pos 0) }
    {
        Operand {
            mantissa: 0,
            exponent: 0,
        }
    }

    /// Returns the operand with these fields, which must already be in its one form.
    pub(crate) fn literal(mantissa: i64, exponent: i32) -> Operand
        requires { IsOperand mantissa exponent }
        ensures { result ≡ decimal mantissa exponent }
    {
        Operand { mantissa, exponent }
    }

    /// Returns the operand of an integer.
    pub(crate) fn from_i32(number: i32) -> Operand
        ensures { result ≡ canonical number (pos 0) }
    {
        Operand::new(i128::from(number), 0).unwrap()
    }

    /// Returns the mantissa: 0, or a number of at most eighteen digits that does not end in 0.
    pub fn mantissa(&self) -> i64
        // The operand is in its one form: mantissa and exponent are in range, without a last 0.
        ensures operand { HasOperand self.now }
        // The result is the mantissa of the operand.
        ensures value { result ≡ self.now.mantissa }
    {
        self.mantissa
    }

    /// Returns the exponent of ten, from -1000 to 1000. It is 0 if the mantissa is 0.
    pub fn exponent(&self) -> i32
        // The result is the exponent of the operand.
        ensures { result ≡ self.now.exponent }
    {
        self.exponent
    }

    /// Returns the value if it is an integer in the range of `i32`, and `None` otherwise.
    ///
    /// ```rust
    /// pub fn a_thousand() -> Option<i32> {
    ///     let operand = Operand::new(1, 3)?;
    ///     operand.to_i32()
    /// }
    /// ```
    pub fn to_i32(&self) -> Option<i32>
        // If it is `Some`, the integer has the value of the operand.
        ensures some { IfSome result (λ v. IsSameValue self.now.mantissa self.now.exponent v (pos 0)) }
        // If it is `None`, no `i32` has the value of the operand.
        ensures none { IfNone result ((v : ℤ) → negsuc (2 ^ 31 - 1) ≤ℤ v → v ≤ℤ pos (2 ^ 31 - 1) →
            IsSameValue self.now.mantissa self.now.exponent v (pos 0) → ⊥) }
        // The result is exactly what `to_i32` computes (specs/Compact1/Decimal.antt).
        ensures exact { result ≡ the_i32 self.now }
    {
        let (mantissa, exponent) = (self.mantissa(), self.exponent());
        if exponent < 0 || exponent > 9 {
            return None;
        }
        in_32_bits(raised(mantissa, exponent))
    }
}

/// Compares operands. They are equal exactly if their values are, and then they are the same operand.
impl PartialEq for Operand {
    ghost use Rattle.std.specs.Prelude.{◌≡◌, ◌↔◌, ◌&&◌, IsTrue};
    ghost use Rattle.std.specs.Cmp.{and_per, on_per, partial_equiv_from_equiv, int_eq_equiv};
    ghost use Rattle.std.specs.Ordering.{eq_of_both, int_eq, on};
    ghost use Rattle.postscript_base.specs.Compact1.Decimal.{AreEqual};

    ghost eq = { eq_of_both (on (λ o. o.mantissa) int_eq) (on (λ o. o.exponent) int_eq) };

    ghost laws = { and_per (on_per (λ o. o.mantissa) (partial_equiv_from_equiv int_eq_equiv)) (on_per
        (λ o. o.exponent) (partial_equiv_from_equiv int_eq_equiv)) };

    fn eq(&self, other: &Operand) -> bool
        // The result is true exactly if both the mantissas and the exponents are equal.
        ensures exact { result ≡ (int_eq self.now.mantissa other.now.mantissa && int_eq self.now.exponent other.now.exponent) }
        // The result is true exactly if the values are equal.
        ensures equal { IsTrue result ↔ AreEqual self.now other.now }
        // Equal operands are the same operand.
        ensures one_operand { IsTrue result → self.now ≡ other.now }
    {
        self.mantissa() == other.mantissa() && self.exponent() == other.exponent()
    }
}

/// Returns a mantissa times a power of ten.
fn raised(mantissa: i64, exponent: i32) -> i128
    requires low { pos 0 ≤ℤ exponent }
    requires high { exponent ≤ℤ pos 9 }
    ensures { result ≡ scaled mantissa (unsigned_abs exponent) }
{
    i128::from(mantissa) * i128::from(10u32.pow(exponent as u32))
}

/// Returns a number if it is in the range of `i32`.
fn in_32_bits(value: i128) -> Option<i32>
    ensures some { IfSome result (λ v. (v ≡ value) × IsOf32Bits v) }
    ensures none { IfNone result (IsOf32Bits value → ⊥) }
{
    i32::try_from(value).ok()
}

/// Writes the mantissa if the exponent is 0, and otherwise the mantissa, `e` and the exponent, as in `-125e-1`.
impl fmt::Display for Operand {
    ghost output = { λ operand. Some (printed operand) };

    fn fmt<W: fmt::Write>(&self, f: &mut fmt::Formatter<W>) -> fmt::Result {
        let (mantissa, exponent) = (self.mantissa, self.exponent);
        if exponent == 0 {
            write!(f, "{mantissa}")
        } else {
            write!(f, "{mantissa}e{exponent}")
        }
    }
}

/// Returns a number without its trailing zeros, and their count.
fn stripped(number: u128) -> (u128, u32)
    requires { 0 < number }
    ensures whole { number ≡ result.0 * 10 ^ result.1 }
    ensures no_last_zero { result.0 % 10 ≢ 0 }
    ensures few { result.1 < 39 }
{
    match u64::try_from(number) {
        Ok(short) => {
            let (rest, zeros) = stripped_short(short);
            (u128::from(rest), zeros)
        }
        Err(_) => stripped_long(number),
    }
}

/// As `stripped`, for 64 bits, since 128-bit division is slow.
fn stripped_short(number: u64) -> (u64, u32)
    requires { 0 < number }
    ensures whole { number ≡ result.0 * 10 ^ result.1 }
    ensures no_last_zero { result.0 % 10 ≢ 0 }
    ensures few { result.1 < 39 }
{
    let mut short = number;
    let mut zeros = 0u32;
    while short % 10 == 0 {
        short /= 10;
        zeros += 1;
    }
    (short, zeros)
}

/// As `stripped`, for any number.
fn stripped_long(number: u128) -> (u128, u32)
    requires { 0 < number }
    ensures whole { number ≡ result.0 * 10 ^ result.1 }
    ensures no_last_zero { result.0 % 10 ≢ 0 }
    ensures few { result.1 < 39 }
{
    let mut rest = number;
    let mut zeros = 0u32;
    while rest % 10 == 0 {
        rest /= 10;
        zeros += 1;
    }
    (rest, zeros)
}

/// Returns the operand of digits that do not end in 0, and an exponent.
pub(crate) fn of_digits(negative: bool, digits: u128, exponent: i128) -> Option<Operand>
    requires { digits % 10 ≢ 0 }
    ensures some { IfSome result (λ o. (o.mantissa ≡ signed negative digits) × (o.exponent ≡ exponent)) }
    ensures operand { IfSome result HasOperand }
    ensures none { IfNone result (IsOperand (signed negative digits) exponent → ⊥) }
{
    if digits >= 1_000_000_000_000_000_000 || exponent < -1000 || exponent > 1000 {
        return None;
    }
    let size = digits as i64;
    Some(Operand {
        mantissa: if negative { -size } else { size },
        exponent: exponent as i32,
    })
}
