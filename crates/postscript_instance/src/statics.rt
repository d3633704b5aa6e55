//! Type 2 charstrings of CFF2 charstrings.
ghost use Rattle.std.specs.Prelude.{◌≡◌, length, IfOk, IfErr};
ghost use Rattle.postscript_instance.specs.Refusals.{NotWritten};
ghost use Rattle.postscript_instance.specs.Statics.{IsStaticOf};

use crate::error::Result;
use crate::texts::write_charstring;
use postscript_type2::Operand;
use postscript_variable::Charstring;
use std::alloc::Global;

/// Writes a Type 2 charstring that does the same as a blended CFF2 charstring.
///
/// Its run has the same operators with the same operands as 16.16 numbers, the same stems and the same masks. It ends
/// with `endchar` and has no calls. A path operator with more operands than the 48 of a Type 2 stack is split into
/// several, which draw the same strokes.
///
/// `width` is the advance width minus nominalWidthX, as a 16.16 number. Without a width the glyph has defaultWidthX
/// (Technical Note 5177, "Type 2 Charstring Organization"). A whole number has its shortest encoding, any other number
/// its 16.16 bits after the byte ff.
///
/// # Errors
///
/// - `Font`: an error of the run, as `postscript_variable::Program::step` returns it, or `Memory`.
/// - `TooManyOperands`: a stem operator or a mask has more than 48 numbers before it, including the width.
/// - `NoMove`: a width is given, but the first operator is a line or a curve.
pub fn charstring(
    alloc: Global,
    charstring: Charstring<'_>,
    width: Option<Operand>,
) -> Result<Vec<u8>>
    // The code has the operations of the CFF2 charstring, the width and no calls.
    ensures written { IfOk result (λ code. IsStaticOf charstring.entry width code.items) }
    // An error is justified by the run, its operators or the width, or is `Memory`.
    ensures refused { IfErr result (λ e. NotWritten charstring.entry width e) }
{
    let sayings = charstring.sayings(alloc)?;
    let code = write_charstring(alloc, width, &sayings)?;
    Ok(code)
}
