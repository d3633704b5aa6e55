//! Laws of the definitions. The functions do nothing: their clauses are the laws.
ghost use Rattle.postscript_instance.specs.Laws.{NearestIsNearest, NumbersAreShortest, OperationsStay, OutlinesStay, RoundedOutlines};

/// States that numbers are written in their shortest encoding.
pub fn numbers_are_shortest()
    // The bytes written for a number of 32 bits encode it, and no shorter bytes do.
    ensures { NumbersAreShortest }
{}

/// States that a static charstring (`specs/Statics.antt`) has the operations and the width of the CFF2 charstring.
///
/// A path operator with more than 48 operands is split into pieces that draw the same strokes (`specs/Pieces.antt`).
pub fn operations_stay()
    // The run has the same operations, apart from pieces, and ends by `endchar` with the width.
    ensures { OperationsStay }
{}

/// States that a static charstring draws exactly the segments of the CFF2 charstring, or fails likewise, from any
/// origin.
pub fn outlines_stay()
    // From any origin, both runs draw the same segments or fail with the same error.
    ensures { OutlinesStay }
{}

/// States that rounding gives a nearest whole unit (`specs/Nearest.antt`), and the upper one if it is halfway.
pub fn nearest_is_nearest()
    // The result is whole, at most half a unit above, and less than half a unit below.
    ensures { NearestIsNearest }
{}

/// States that a charstring in whole units (`specs/Rounded.antt`) draws the segments of the CFF2 charstring, with each
/// point rounded.
///
/// So a contour that ends at its start still does.
pub fn rounded_outlines()
    // If the run draws segments, the rounded one draws them in order with each point rounded.
    ensures { RoundedOutlines }
{}
