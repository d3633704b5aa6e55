//! Blended values (OpenType 1.9, "CFF2 CharString Format", "Variation Data Operators": blend). The private functions of
//! `postscript_variable` do the same on the stack of a charstring.
ghost use Rattle.std.specs.Prelude.{◌≡◌, ◌≤◌, ◌<◌, ◌^◌, ◌+ℤ◌, ℤ, MatchOption, length, unsigned_abs};
ghost use Rattle.postscript_variable.specs.Blending.{scaled as the_scaled, sum_of, value as the_value};

use postscript_type2::Operand;

/// A delta times the scalar of its region, rounded to the nearest number, and away from zero if it is halfway.
fn scale_delta(delta: i32, scalar: u32) -> i64
    ensures value { result ≡ the_scaled delta scalar }
    ensures room { unsigned_abs result < 2 ^ 48 }
{
    let size = (u64::from(delta.unsigned_abs()) * u64::from(scalar) + 32768) / 65536;
    let size = size as i64;
    if delta < 0 { -size } else { size }
}

/// A default and the sum of its scaled deltas.
fn total(default: Operand, deltas: &[Operand], scalars: &[u32]) -> i128
    requires { length deltas.now ≡ length scalars.now }
    ensures { result ≡ default +ℤ sum_of deltas.now scalars.now }
{
    let mut sum = i128::from(default.bits());
    for i in 0..scalars.len() {
        sum += i128::from(scale_delta(deltas[i].bits(), scalars[i]));
    }
    sum
}

/// The blended value of a default, if it fits into 32 bits.
pub(crate) fn blended_number(
    default: Operand,
    deltas: &[Operand],
    scalars: &[u32],
) -> Option<Operand>
    requires { length deltas.now ≡ length scalars.now }
    ensures { MatchOption result ((x : ℤ) → the_value default deltas.now scalars.now ≡ Ok x → ⊥)
        (λ x. the_value default deltas.now scalars.now ≡ Ok x) }
{
    match i32::try_from(total(default, deltas, scalars)) {
        Ok(bits) => Some(Operand::from_bits(bits)),
        Err(_) => None,
    }
}
