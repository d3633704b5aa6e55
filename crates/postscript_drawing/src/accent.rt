//! The four operands of the `endchar` of a `seac` glyph.
ghost use Rattle.std.specs.Prelude.{◌≡◌, ◌≢◌, ℕ, length, IfOk, IfErr, MatchOption};
ghost use Rattle.postscript_drawing.specs.declared.error.Error.TheVariants as errors;
ghost use Rattle.postscript_drawing.specs.Accents.{HasNoCodes, IsAccent, IsCode};

use crate::error::{Error, Result};
use postscript_type2::Operand;

/// The operands of a `seac` glyph, `adx ady bchar achar endchar` (Technical Note 5177, Appendix C).
#[derive(Clone, Copy, Debug, PartialEq, Eq)]
pub struct Accent {
    /// The offset of the accent to the right, in 16.16 format.
    pub dx: Operand,
    /// The upward offset of the accent, in 16.16 format.
    pub dy: Operand,
    /// The code of the base in the standard encoding.
    pub base: u8,
    /// The code of the accent in the standard encoding.
    pub accent: u8,
}

impl Accent {
    /// Interprets the operands that `endchar` took (`Program::operands_at_end`). Returns `None` unless there are four.
    ///
    /// # Errors
    ///
    /// - `NoCode`: one of the last two is not a whole number from 0 to 255.
    #[inline(always)]
    pub fn named_by(operands: &[Operand]) -> Result<Option<Accent>>
        // `Some` has the values of the four operands. `None` means that there are not four.
        ensures told { IfOk result (λ found. MatchOption found (length operands.now ≢ 4) (λ accent. IsAccent operands.now accent)) }
        // The error is `NoCode`, and there are four operands whose last two are not both codes.
        ensures why { IfErr result (λ e. (e ≡ errors.NoCode) × HasNoCodes operands.now) }
    {
        match operands {
            [dx, dy, base, accent] => Ok(Some(Accent {
                dx: *dx,
                dy: *dy,
                base: code_of(*base)?,
                accent: code_of(*accent)?,
            })),
            _ => Ok(None),
        }
    }
}

/// An operand as a code.
fn code_of(operand: Operand) -> Result<u8>
    ensures found { IfOk result (λ code. IsCode operand code) }
    ensures none { IfErr result (λ e. (e ≡ errors.NoCode) × ((code : ℕ) → IsCode operand code → ⊥)) }
{
    let Some(number) = operand.to_int() else {
        return Err(Error::NoCode);
    };
    match u8::try_from(number) {
        Ok(code) => Ok(code),
        Err(_) => Err(Error::NoCode),
    }
}
