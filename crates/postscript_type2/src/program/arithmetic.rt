//! Arithmetic over the bits of operands.
ghost use Rattle.std.specs.Prelude.{◌≡◌, ◌≢◌, ◌*ℤ◌, ◌≤◌, ◌<◌, ◌^◌, pos, unsigned_abs};
ghost use Rattle.postscript_type2.specs.Program.FixedPoint.{fit as the_fit, absolute_value as the_absolute_value, opposite as the_opposite, sum as the_sum, difference as the_difference, product as the_product, quotient as the_quotient, cut as the_cut, whole_root as the_whole_root, root as the_root, truth as the_truth, is_true as the_is_true, both as the_both, either as the_either, denial as the_denial, same_bits as the_same_bits};
ghost use Rattle.postscript_type2.specs.Private.Performing.{Gives};

use crate::operation::Operand;
use crate::refused::{Refused, Result};

/// The operand with these bits, if they fit in 32 bits.
fn fit(bits: i64) -> Result<Operand>
    ensures { Gives (the_fit bits) result }
{
    match i32::try_from(bits) {
        Ok(bits) => Ok(Operand::from_bits(bits)),
        Err(_) => Err(Refused::Overflow),
    }
}

/// The bits, in a type that can hold sums and products.
fn wide(a: Operand) -> i64
    ensures value { result ≡ a }
    ensures room { unsigned_abs result ≤ 2 ^ 31 }
{
    i64::from(a.bits())
}

pub(crate) fn absolute_value(a: Operand) -> Result<Operand>
    ensures { Gives (the_absolute_value a) result }
{
    fit(wide(a).abs())
}

pub(crate) fn opposite(a: Operand) -> Result<Operand>
    ensures { Gives (the_opposite a) result }
{
    fit(-wide(a))
}

pub(crate) fn sum(a: Operand, b: Operand) -> Result<Operand>
    ensures { Gives (the_sum a b) result }
{
    fit(wide(a) + wide(b))
}

pub(crate) fn difference(a: Operand, b: Operand) -> Result<Operand>
    ensures { Gives (the_difference a b) result }
{
    fit(wide(a) - wide(b))
}

/// The quotient, rounded towards zero.
fn cut(x: i64, y: i64) -> i64
    requires room { unsigned_abs x ≤ 2 ^ 62 }
    requires divides { y ≢ pos 0 }
    ensures { result ≡ the_cut x y }
{
    x / y
}

/// The product of the bits.
fn times(a: Operand, b: Operand) -> i64
    ensures value { result ≡ a *ℤ b }
    ensures room { unsigned_abs result ≤ 2 ^ 62 }
{
    wide(a) * wide(b)
}

pub(crate) fn product(a: Operand, b: Operand) -> Result<Operand>
    ensures { Gives (the_product a b) result }
{
    fit(cut(times(a, b), 65536))
}

pub(crate) fn quotient(a: Operand, b: Operand) -> Result<Operand>
    ensures { Gives (the_quotient a b) result }
{
    if b.bits() == 0 {
        return Err(Refused::ZeroDivisor);
    }
    fit(cut(times(a, Operand::from_bits(65536)), wide(b)))
}

/// The greatest number whose square is at most n.
#[tactic(auto, using(crate::proofs::Roots::root_of_bits))]
fn whole_root(n: u64) -> i32
    requires { n < 2 ^ 48 }
    ensures { result ≡ pos (the_whole_root n) }
{
    n.isqrt() as i32
}

pub(crate) fn root(a: Operand) -> Result<Operand>
    ensures { Gives (the_root a) result }
{
    if a.bits() < 0 {
        return Err(Refused::NegativeRoot);
    }
    let root = whole_root(u64::from(a.bits().unsigned_abs()) * 65536);
    Ok(Operand::from_bits(root))
}

/// The result of a test: one or zero.
fn truth(answer: bool) -> Operand
    ensures { result ≡ the_truth answer }
{
    if answer {
        Operand::from_int(1)
    } else {
        Operand::from_int(0)
    }
}

fn is_true(a: Operand) -> bool
    ensures { result ≡ the_is_true a }
{
    a.bits() != 0
}

pub(crate) fn both(a: Operand, b: Operand) -> Result<Operand>
    ensures { Gives (the_both a b) result }
{
    Ok(truth(is_true(a) && is_true(b)))
}

pub(crate) fn either(a: Operand, b: Operand) -> Result<Operand>
    ensures { Gives (the_either a b) result }
{
    Ok(truth(is_true(a) || is_true(b)))
}

pub(crate) fn denial(a: Operand) -> Result<Operand>
    ensures { Gives (the_denial a) result }
{
    Ok(truth(!is_true(a)))
}

pub(crate) fn same_bits(a: Operand, b: Operand) -> Result<Operand>
    ensures { Gives (the_same_bits a b) result }
{
    Ok(truth(a.bits() == b.bits()))
}
