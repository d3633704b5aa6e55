//! The parts that a font may lack.
ghost use Rattle.std.specs.Prelude.{◌≡◌};
ghost use Rattle.postscript_compact1.specs.FontSet.Operands.{goes_without as the_reading_goes_without};

/// The manner of reading a font: strict or lenient.
#[derive(Clone, Copy)]
pub(super) enum Manner {
    /// Each Top DICT needs a Private DICT, and this one needs local subroutines.
    Strict,
    /// Either may be missing.
    Lenient,
}

impl Manner {
    /// Returns whether operands are missing and need not be there.
    pub(super) fn goes_without<T>(self, operands: &Option<T>) -> bool
        ensures { result ≡ the_reading_goes_without self operands.now }
    {
        match self {
            Manner::Strict => false,
            Manner::Lenient => operands.is_none(),
        }
    }
}
