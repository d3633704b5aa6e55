//! Laws of the definitions. The functions do nothing: their clauses are the laws.
ghost use Rattle.postscript_variable_font.specs.Fitting.{RunsFit};
ghost use Rattle.postscript_variable_font.specs.Nearness.{BlendsAreNear, ExactSumsAre};
ghost use Rattle.postscript_variable_font.specs.OneRun.{HasOneRun};

/// States that the charstring of a glyph at a location has only one run.
pub fn one_run()
    // Two charstrings of the same glyph at the same location have the same run.
    ensures { HasOneRun }
{}

/// States that a blended value is close to the exact interpolated one (`specs/Nearness.antt`).
///
/// With `n` regions it is at most `n / 2` units of 1 / 65536 away. It may be half a unit more for each 65536 of a delta
/// and each fraction among the axis scalars of its region. There is always an exact value.
pub fn blends_are_near()
    // The sum of the deltas is within the given number of half units of the exact sum.
    ensures near { BlendsAreNear }
    // There is an exact sum for any deltas with the scalars of a location.
    ensures exact { ExactSumsAre }
{}

/// States that each operation of a run has a number of operands that its operator takes.
pub fn runs_fit()
    // Each operation of a run has a number of operands that its operator takes.
    ensures { RunsFit }
{}
