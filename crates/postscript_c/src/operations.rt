//! Operations of glyphs in the form for C.
ghost use Rattle.std.specs.Prelude.{◌≡◌, ◌++◌, map, pos, OnOk, IfOk, IfErr, IfSome};
ghost use Rattle.postscript_base.specs.declared.error.Error.TheVariants as errors;
ghost use Rattle.postscript_c.specs.Fitting.{IfKept, ReadsWithin, RunsWithin};
ghost use Rattle.postscript_c.specs.Listing.{HandsOperations, IsInside, TellsOperationsBy, rooms};
ghost use Rattle.postscript_c.specs.Operations.{listed, listed_at, shown};

use crate::codes::code_of;
use crate::font::PsfFont;
use crate::glyph::program;
use crate::limit::Kept;
use crate::part::PsfPart;
use crate::status::{NO_GLYPH, NO_ROOM, TOO_LONG};
use crate::texts::copy;
use crate::told::status;
use postscript_base::Result;
use postscript_type2::{Operand, Program, Told};
use std::alloc::Global;

/// An operation of a glyph: its operator, and the range of its operands in the list of all operands.
///
/// After its operands are the operands of the stems that a mask implies, and then the bytes of the mask, each as a
/// number (Technical Note 5177, "Hint Operators").
#[repr(C)]
#[derive(Clone, Copy)]
pub struct PsfOperation {
    /// The index of its first operand.
    pub first: u64,
    /// The number of its operands.
    pub count: u64,
    /// The number of operands of implied stems after them.
    pub stems: u64,
    /// The number of mask bytes after these.
    pub mask: u64,
    /// The code of its operator. The code of two bytes is 0x0c00 plus the second byte.
    pub operator: u32,
}

/// The operations of a glyph, and the operands and hints of all of them.
#[derive(Drop)]
pub(crate) struct Listed {
    pub(crate) rows: Vec<PsfOperation>,
    pub(crate) operands: Vec<i32>,
}

/// Appends operands.
fn put(all: &mut Vec<i32>, operands: &[Operand]) -> Result<()>
    ensures added { OnOk result (all.new.items ≡ all.old.items ++ operands.now) }
    ensures memory { IfErr result (λ e. e ≡ errors.Memory) }
{
    for i in 0..operands.len() {
        all.push(operands[i].bits())?;
    }
    Ok(())
}

/// Appends the bytes of a mask.
fn put_mask(all: &mut Vec<i32>, mask: &[u8]) -> Result<()>
    ensures added { OnOk result (all.new.items ≡ all.old.items ++ map pos mask.now) }
    ensures memory { IfErr result (λ e. e ≡ errors.Memory) }
{
    for i in 0..mask.len() {
        all.push(i32::from(mask[i]))?;
    }
    Ok(())
}

/// All operations of a program, if its run is within the limit.
fn list(alloc: Global, program: &mut Program<'_>, limit: &mut u64) -> Result<Option<Listed>>
    ensures within { RunsWithin shown listed program.old limit.old result limit.new }
    ensures inside { IfOk result (λ listed. IfSome listed IsInside) }
{
    let mut rows = Vec::new(alloc);
    let mut operands = Vec::new(alloc);
    loop {
        match program.tell_within(limit)? {
            Told::Operation(operator, taken, hints, _) => {
                rows.push(PsfOperation {
                    first: operands.len() as u64,
                    count: taken.len() as u64,
                    stems: hints.stems.len() as u64,
                    mask: hints.mask.len() as u64,
                    operator: code_of(operator),
                })?;
                put(&mut operands, taken)?;
                put(&mut operands, hints.stems)?;
                put_mask(&mut operands, hints.mask)?;
            }
            Told::End => return Ok(Some(Listed { rows, operands })),
            Told::Paused => return Ok(None),
        }
    }
}

/// The operations of a glyph by its part, if its run is within the limit of the font.
fn operations_of(
    alloc: Global,
    bytes: &[u8],
    font: &PsfFont,
    part: &PsfPart,
    glyph: usize,
) -> Result<Kept<Listed>>
    ensures within { ReadsWithin shown bytes.now font.now part.now glyph (listed_at font.now part.now glyph) result }
    ensures inside { IfOk result (IfKept IsInside) }
{
    let Some(mut program) = program(alloc, bytes, font, part, glyph)? else {
        return Ok(Kept::NoGlyph);
    };
    let mut limit = font.limit;
    match list(alloc, &mut program, &mut limit)? {
        Some(listed) => Ok(Kept::Told(listed)),
        None => Ok(Kept::TooLong),
    }
}

/// Stores operations. Returns 0 or `NO_ROOM`.
fn hand(
    listed: &Listed,
    operations: &mut [PsfOperation],
    count: &mut usize,
    operands: &mut [i32],
    operand_count: &mut usize,
) -> i32
    requires inside { IsInside listed.now }
    ensures { HandsOperations listed.now result (rooms operations.old count.old operands.old operand_count.old)
        (rooms operations.new count.new operands.new operand_count.new) }
{
    *count = listed.rows.len();
    *operand_count = listed.operands.len();
    if operations.len() < listed.rows.len() || operands.len() < listed.operands.len() {
        return NO_ROOM;
    }
    copy(&listed.rows, operations);
    copy(&listed.operands, operands);
    0
}

/// Stores the operations of a glyph by its part, if its run is within the limit of the font.
pub(crate) fn tell_operations_by(
    alloc: Global,
    bytes: &[u8],
    font: &PsfFont,
    part: &PsfPart,
    glyph: usize,
    operations: &mut [PsfOperation],
    count: &mut usize,
    operands: &mut [i32],
    operand_count: &mut usize,
) -> i32
    ensures { TellsOperationsBy bytes.now font.now part.now glyph result (rooms operations.old count.old operands.old operand_count.old)
        (rooms operations.new count.new operands.new operand_count.new) }
{
    match operations_of(alloc, bytes, font, part, glyph) {
        Ok(Kept::Told(listed)) => hand(&listed, operations, count, operands, operand_count),
        Ok(Kept::NoGlyph) => NO_GLYPH,
        Ok(Kept::TooLong) => TOO_LONG,
        Err(e) => status(&e),
    }
}
