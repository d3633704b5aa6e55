//! Outlines of lists of operations.
ghost use Rattle.std.specs.Prelude.{◌≡◌, ◌⊎◌, ◌∷◌, [], IfOk, OnOk, MatchResult};
ghost use Rattle.postscript_base.specs.declared.error.Error.TheVariants as errors;
ghost use Rattle.postscript_base.specs.Error.{IsListed};
ghost use Rattle.postscript_base.specs.RefusalOf.{refusal_of};
ghost use Rattle.postscript_outline.specs.Contours.{AreContours};
ghost use Rattle.postscript_drawing.specs.Fitting.{AllFit};
ghost use Rattle.postscript_drawing.specs.Operations.{OutlinesApplied, answers_of, outline_applied, run_telling};
ghost use Rattle.postscript_drawing.specs.Outline.{Outlines};

use crate::pen::Pen;
use postscript_base::Result;
use postscript_outline::Outline;
use postscript_type2::{Operand, Operation};
use std::alloc::Global;

/// Returns the outline that operations draw, one after another from the origin. It has the given width, which is the
/// width minus nominalWidthX. It is the outline of a run with these operations and this width. An open contour is
/// closed at the end.
///
/// # Errors
///
/// - `MalformedOperands`: the operator of an operation takes another number of operands.
/// - `Overflow`: a coordinate leaves the range.
/// - `Memory`: out of memory.
pub fn outline_of_operations(
    alloc: Global,
    operations: &[Operation],
    width: Option<Operand>,
) -> Result<Outline>
    // On success it is the outline of a run with these operations and this width.
    ensures drawn { IfOk result (λ outline. Outlines outline (run_telling operations.now width)) }
    // On success each operation has a number of operands that its operator takes.
    ensures fit { OnOk result (AllFit (answers_of width operations.now)) }
    // On success the segments are contours, each from a `MoveTo` to a `Close`.
    ensures contours { IfOk result (λ outline. AreContours outline.segments.items) }
    // Apart from `Memory`, the result is what `outline_applied` computes (specs/Operations.antt).
    ensures exact { let run = run_telling operations.now width in
        MatchResult result (λ outline. OutlinesApplied outline run)
        (λ e. (e ≡ errors.Memory) ⊎ (outline_applied run ≡ Err (refusal_of e))) }
    // The only errors are `Memory`, `MalformedOperands` and `Overflow`.
    ensures listed { IsListed (3 ∷ 20 ∷ 26 ∷ []) result }
{
    outline_by_pen(alloc, operations, width)
}

/// The same, by applying the operations with a pen.
fn outline_by_pen(
    alloc: Global,
    operations: &[Operation],
    width: Option<Operand>,
) -> Result<Outline>
    ensures exact { let run = run_telling operations.now width in
        MatchResult result (λ outline. OutlinesApplied outline run)
        (λ e. (e ≡ errors.Memory) ⊎ (outline_applied run ≡ Err (refusal_of e))) }
    ensures listed { IsListed (3 ∷ 20 ∷ 26 ∷ []) result }
{
    let mut pen = Pen::new();
    let mut segments = Vec::new(alloc);
    for operation in operations {
        pen.apply(operation.0, operation.1.as_slice(), &mut segments)?;
    }
    pen.close(&mut segments)?;
    Ok(Outline {
        segments,
        width_difference: width,
    })
}
