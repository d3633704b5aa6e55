//! The significant digits of a number.
ghost use Rattle.std.specs.Prelude.{◌≡◌, ◌≢◌, ℕ, ◌+◌, ◌*◌, ◌^◌, ◌%◌, ◌<◌, ◌≤◌, length, List, ◌++◌};
ghost use Rattle.postscript_base.specs.Compact1.Decimal.{IsDigits, digits_number};
ghost use Rattle.postscript_base.specs.Private.Significant.{Keeps};

/// The least number of nineteen digits.
const LONG: u128 = 1_000_000_000_000_000_000;

/// The significant digits read so far, at most eighteen, and the number of zeros after them.
#[derive(Clone, Copy)]
pub(crate) struct Significant {
    pub(crate) is_long: bool,
    pub(crate) mantissa: u64,
    pub(crate) zeros: u64,
}

impl Significant {
    /// Starts without digits.
    pub(crate) fn new() -> Self
        ensures keeps { Keeps result.is_long result.mantissa result.zeros 0 }
        ensures none { result.zeros ≡ 0 }
    {
        Significant {
            is_long: false,
            mantissa: 0,
            zeros: 0,
        }
    }

    /// Appends a digit.
    pub(crate) fn push(self, digit: u8) -> Self
        requires digit { digit < 10 }
        requires room { self.zeros + 1 < 2 ^ 64 }
        ensures keeps { (n : ℕ) → Keeps self.is_long self.mantissa self.zeros n →
            Keeps result.is_long result.mantissa result.zeros (10 * n + digit) }
        ensures zeros { result.zeros ≤ self.zeros + 1 }
    {
        if self.is_long {
            return self;
        }
        if digit == 0 {
            let zeros = if self.mantissa == 0 {
                0
            } else {
                self.zeros + 1
            };
            return Significant { zeros, ..self };
        }
        if self.zeros < 18 {
            let mantissa = u128::from(self.mantissa) * 10u128.pow(self.zeros as u32 + 1)
                + u128::from(digit);
            if mantissa < LONG {
                return Significant {
                    is_long: false,
                    mantissa: mantissa as u64,
                    zeros: 0,
                };
            }
        }
        Significant {
            is_long: true,
            mantissa: 0,
            zeros: 0,
        }
    }
}

/// Appends all digits.
pub(crate) fn push_all(mut kept: Significant, digits: &[u8]) -> Significant
    requires digits { IsDigits digits.now }
    requires room { kept.zeros + length digits.now < 2 ^ 64 }
    ensures keeps { (front : List ℕ) → Keeps kept.is_long kept.mantissa kept.zeros (digits_number front) →
        Keeps result.is_long result.mantissa result.zeros (digits_number (front ++ digits.now)) }
    ensures zeros { result.zeros ≤ kept.zeros + length digits.now }
{
    for digit in digits {
        kept = kept.push(*digit);
    }
    kept
}
