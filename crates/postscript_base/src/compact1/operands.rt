//! Operands of an operator, borrowed from a dictionary or constant.
ghost use Rattle.std.specs.Prelude.{◌≡◌, [], ◌∷◌, length};
ghost use Rattle.postscript_base.specs.Compact1.Decimal.{IsOperand};
ghost use Rattle.postscript_base.specs.Compact1.Defaults.{decimal};

use super::Operand;
use std::marker::Model;
use std::ops::DerefSlice;
use std::slice::Iter;

/// The operands of an operator: borrowed from a dictionary, or the constant defaults of the operator. Neither needs an
/// allocator.
#[derive(Debug, Drop)]
pub struct Operands<'a> {
    kind: Kind<'a>,
}

#[derive(Debug, Drop)]
enum Kind<'a> {
    Lent(&'a [Operand]),
    One([Operand; 1]),
    Four([Operand; 4]),
    Six([Operand; 6]),
}

impl<'a> Model for Operands<'a> {
    ghost use Rattle.std.specs.Prelude.{List};
    ghost use Rattle.postscript_base.specs.Compact1.Decimal.{Decimal};
    ghost use Rattle.postscript_base.specs.Compact1.Dictionary.{decimals_code};

    ghost Value = { List Decimal };

    ghost coded = { decimals_code };

    ghost use Rattle.postscript_base.specs.Private.Operands.{items};

    ghost view = { λ operands. items operands.kind };
}

impl<'a> Operands<'a> {
    /// Returns borrowed operands.
    pub(super) fn lent(operands: &'a [Operand]) -> Operands<'a>
        ensures { result ≡ operands.now }
    {
        Operands {
            kind: Kind::Lent(operands),
        }
    }

    /// Returns one constant operand.
    pub(super) fn one(mantissa: i64, exponent: i32) -> Operands<'a>
        requires { IsOperand mantissa exponent }
        ensures { result ≡ decimal mantissa exponent ∷ [] }
    {
        Operands {
            kind: Kind::One([Operand::literal(mantissa, exponent)]),
        }
    }

    /// Returns four constant operands.
    pub(super) fn four(operands: [Operand; 4]) -> Operands<'a>
        ensures { result ≡ operands }
    {
        Operands {
            kind: Kind::Four(operands),
        }
    }

    /// Returns six constant operands.
    pub(super) fn six(operands: [Operand; 6]) -> Operands<'a>
        ensures { result ≡ operands }
    {
        Operands {
            kind: Kind::Six(operands),
        }
    }

    /// Returns the operands as a slice, in the order in which they are written.
    pub fn as_slice(&self) -> &[Operand]
        // The slice has the operands in order.
        ensures { result.now ≡ self.now }
    {
        match &self.kind {
            Kind::Lent(operands) => operands,
            Kind::One(operands) => operands,
            Kind::Four(operands) => operands,
            Kind::Six(operands) => operands,
        }
    }

    /// Returns the number of operands.
    pub fn len(&self) -> usize
        // The result is the number of operands.
        ensures { result ≡ length self.now }
    {
        self.as_slice().len()
    }

    /// Iterates over the operands in order, by reference.
    pub fn iter(&self) -> Iter<'_, Operand>
        // The iterator yields all operands in order.
        ensures { result.rest.now ≡ self.now }
    {
        self.as_slice().iter()
    }
}

/// Dereferences to a slice, so that operands can be indexed and iterated over.
impl<'a> DerefSlice for Operands<'a> {
    type Elem = Operand;

    ghost deref_gives = { λ operands slice. slice ≡ operands };

    fn deref(&self) -> &[Operand]
        // The slice has the operands in order.
        ensures value { result.now ≡ self.now }
    {
        self.as_slice()
    }
}
