//! The errors of drawing strokes. They are small types, whereas an error may hold an I/O error of a tape.
ghost use Rattle.std.specs.Prelude.{◌≡◌};
ghost use Rattle.postscript_drawing.specs.Undrawn.{cause_of};
ghost use Rattle.postscript_drawing.specs.declared.undrawn.Undrawn.TheVariants as cases;

use postscript_base::Error;
use postscript_outline::Full;

/// An error of drawing strokes: a coordinate leaves the range, or the sink takes no more segments.
#[derive(Clone, Copy, Debug, PartialEq, Eq)]
pub enum Undrawn {
    Overflow,
    Full,
}

/// The result of drawing strokes.
pub type Stroked = std::result::Result<(), Undrawn>;

impl From<Full> for Undrawn {
    ghost from_gives = { λ _ undrawn. undrawn ≡ cases.Full };

    fn from(_full: Full) -> Undrawn {
        Undrawn::Full
    }
}

impl From<Undrawn> for Error {
    ghost from_gives = { λ undrawn error. error ≡ cause_of undrawn };

    fn from(undrawn: Undrawn) -> Error {
        match undrawn {
            Undrawn::Overflow => Error::Overflow,
            Undrawn::Full => Error::Memory,
        }
    }
}
