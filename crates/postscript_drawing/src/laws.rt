//! Laws of the definitions. Each function does nothing: its contract is the theorem.
ghost use Rattle.postscript_drawing.specs.Drawn.{DrawsContours};
ghost use Rattle.postscript_drawing.specs.Fitting.{RunsFit};
ghost use Rattle.postscript_drawing.specs.Flat.{FlatTextDrawsTheSame, InlinedTextDrawsTheSame};
ghost use Rattle.postscript_drawing.specs.Using.{StrokesUseOperands};

use postscript_type2::laws::{flat_text_keeps_meaning, inlined_text_keeps_meaning};

/// States that each operation of a run has a number of operands that its operator takes. So `Pen::apply` never fails
/// with `MalformedOperands` for one.
pub fn runs_fit()
    // Each operation of a run has a number of operands that its operator takes.
    ensures { RunsFit }
{}

/// States that flat code draws the same glyph. If `Program::flatten` returns code, that code has the segments and the
/// width of the charstring, over any subroutines or none.
pub fn flat_text_draws_the_same()
    // Over any subroutines, flat text of a run without a fault has the same outline and width.
    ensures { FlatTextDrawsTheSame }
{
    flat_text_keeps_meaning();
}

/// States that desubroutinized (inlined) code draws the same glyph. If `Program::inlined` returns code, that code has
/// the segments and the width of the charstring, over any subroutines or none.
pub fn inlined_text_draws_the_same()
    // Over any subroutines, inlined text of a run without a fault has the same outline and width.
    ensures { InlinedTextDrawsTheSame }
{
    inlined_text_keeps_meaning();
}

/// States that strokes use all operands that fit: a different operand makes a different stroke. The only exception is
/// the depth of a `flex`, which draws nothing.
pub fn strokes_use_operands()
    // If an operator draws equal strokes, its operands are equal, except the depth of a `flex`.
    ensures { StrokesUseOperands }
{}

/// States that a glyph, with its components, is drawn as contours, each from a `MoveTo` to a `Close`.
pub fn drawings_are_contours()
    // The segments of a glyph, with its components, are contours.
    ensures { DrawsContours }
{}
