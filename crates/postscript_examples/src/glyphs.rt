//! Interpreting charstrings.
ghost use Rattle.std.specs.Prelude.{◌≡◌, ◌⊎◌, None, Some, map, IfOk, IfErr, OnOk};
ghost use Rattle.postscript_base.specs.RefusalOf.{refusal_of};
ghost use Rattle.postscript_type2.specs.Program.Evaluation.{run_of};
ghost use Rattle.postscript_type2.specs.Program.Routines.{subroutines, texts};
ghost use Rattle.postscript_examples.specs.Glyphs.{drawn, drawn_by, refused_by, first_refused_by};
ghost use Rattle.postscript_examples.specs.Passing.{Passes, operator_in};

use postscript::type2::{self, Operand, Operations, Operator, Program};
use postscript::{Error, Result};
use std::alloc::Global;

/// The operations of a glyph, and the width minus nominalWidthX, if the charstring gives one.
pub type Glyph = (Operations, Option<Operand>);

/// Returns the operations of a glyph, and the width minus nominalWidthX, if the charstring gives one.
pub fn glyph(alloc: Global, code: &[u8], global: &[Vec<u8>], local: &[Vec<u8>]) -> Result<Glyph>
    ensures drawn { IfOk result (λ glyph. drawn glyph ≡ drawn_by (subroutines global.now local.now) code.now) }
    ensures faultless { OnOk result (refused_by (subroutines global.now local.now) code.now ≡ None) }
    ensures refused { IfErr result
        (λ e. (e ≡ Error.Memory) ⊎ (refused_by (subroutines global.now local.now) code.now ≡ Some (refusal_of e))) }
{
    let answers = type2::run(alloc, code, global, local)?;
    match answers.fault {
        None => Ok((answers.operations, answers.width)),
        Some(fault) => Err(fault),
    }
}

/// Does the same as [`glyph`] for each code. The first run that fails gives the error of the call.
pub fn each_glyph(
    alloc: Global,
    codes: &[Vec<u8>],
    global: &[Vec<u8>],
    local: &[Vec<u8>],
) -> Result<Vec<Glyph>>
    ensures drawn { IfOk result
        (λ glyphs. map drawn glyphs.items ≡ map (λ code. drawn_by (subroutines global.now local.now) code.items) codes.now) }
    ensures faultless { OnOk result (first_refused_by (subroutines global.now local.now) (texts codes.now) ≡ None) }
    ensures refused { IfErr result
        (λ e. (e ≡ Error.Memory) ⊎ (first_refused_by (subroutines global.now local.now) (texts codes.now) ≡ Some (refusal_of e))) }
{
    let mut glyphs = Vec::new(alloc);
    for code in codes {
        glyphs.push(glyph(alloc, code, global, local)?)?;
    }
    Ok(glyphs)
}

/// Counts the operands of a glyph's operations, one operation at a time. It also returns the width minus nominalWidthX.
pub fn operand_count(
    alloc: Global,
    code: &[u8],
    global: &[Vec<u8>],
    local: &[Vec<u8>],
) -> Result<(u64, Option<Operand>)> {
    let mut program = Program::new(alloc, code, global, local);
    let mut count = 0u64;
    for _ in 0..u64::MAX {
        let Some((_operator, operands)) = program.step()? else {
            break;
        };
        count = count.saturating_add(operands.len() as u64);
    }
    Ok((count, program.width()))
}

/// Moves past the next operation, and returns its operator and its number of operands.
pub fn pass(program: &mut Program<'_>) -> Result<Option<(Operator, usize)>>
    ensures { Passes program.old result program.new }
{
    match program.step()? {
        Some((operator, operands)) => Ok(Some((operator, operands.len()))),
        None => Ok(None),
    }
}

/// Returns the operators of a glyph.
pub fn operators(
    alloc: Global,
    code: &[u8],
    global: &[Vec<u8>],
    local: &[Vec<u8>],
) -> Result<Vec<Operator>>
    ensures { IfOk result (λ told. told.items ≡ map operator_in (run_of (subroutines global.now local.now) code.now).answers) }
{
    let mut program = Program::new(alloc, code, global, local);
    let mut operators = Vec::new(alloc);
    while let Some((operator, _operands)) = program.step()? {
        operators.push(operator)?;
    }
    Ok(operators)
}
