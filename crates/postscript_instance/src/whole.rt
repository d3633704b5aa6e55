//! Type 2 charstrings in whole units.
ghost use Rattle.std.specs.Prelude.{◌≡◌, ◌++◌, map, IfOk, OnOk, IfErr};
ghost use Rattle.postscript_base.specs.declared.error.Error.TheVariants as causes;
ghost use Rattle.postscript_instance.specs.Axes.{is_hint as hints, steps_of as the_steps_of, behind_steps, IsNear, LeadsTooFar};
ghost use Rattle.postscript_instance.specs.Far.{NotRounded};
ghost use Rattle.postscript_instance.specs.declared.error.Error.TheVariants as errors;
ghost use Rattle.postscript_instance.specs.Glyphs.{IsRoundedGlyph, NoRoundedGlyph};
ghost use Rattle.postscript_instance.specs.Private.{in_units, all_in_units, AreNear, IsFar};
ghost use Rattle.postscript_instance.specs.Rounded.{depth_of, rounded_operator as the_rounded_operator, origin, IsRoundedOf};
ghost use Rattle.postscript_variable.specs.Told.{said_of};

use crate::axes::steps_of;
use crate::error::{Error, Result};
use crate::rounding::{edges, round_steps};
use crate::texts::write_charstring;
use postscript_cff2::Font;
use postscript_outline::Point;
use postscript_type2::{Operand, Operator};
use postscript_variable::{Charstring, Saying};
use postscript_variable_font::{Place, charstring as varying};
use std::alloc::Global;

/// Whether the operands of an operator are edges of stems, or it is a mask.
fn is_hint(operator: Operator) -> bool
    ensures { result ≡ hints operator }
{
    matches!(
        operator,
        Operator::HStem
            | Operator::VStem
            | Operator::HStemHM
            | Operator::VStemHM
            | Operator::HintMask
            | Operator::CntrMask
    )
}

/// Replaces a special flex operator by `flex`.
fn rounded_operator(operator: Operator) -> Operator
    ensures { result ≡ the_rounded_operator operator }
{
    match operator {
        Operator::HFlex | Operator::HFlex1 | Operator::Flex1 => Operator::Flex,
        _ => operator,
    }
}

/// Appends the depth of a flex, which is 50 if the operator has none.
fn put_depth(out: &mut Vec<Operand>, operator: Operator, operands: &[Operand]) -> Result<()>
    ensures ok { OnOk result (out.new.items ≡ out.old.items ++ depth_of operator operands.now) }
    ensures err { IfErr result (λ e. e ≡ errors.Font causes.Memory) }
{
    match operator {
        Operator::Flex => {
            let (_, depth) = operands.split_at(operands.len().min(12));
            out.extend_from_slice(depth)?
        }
        Operator::HFlex | Operator::HFlex1 | Operator::Flex1 => out.push(Operand::from_int(50))?,
        _ => {}
    }
    Ok(())
}

/// An operation in whole units from a point, and the point after it.
fn in_whole_units<'l>(
    alloc: Global,
    place: Point,
    saying: &Saying<'l>,
) -> Result<(Saying<'l>, Point)>
    ensures ok { let x = said_of saying.now in
        IfOk result (λ r. (said_of r.0 ≡ in_units place x) × (r.1 ≡ behind_steps place (the_steps_of x.operator x.operands))) }
    ensures near { OnOk result (IsNear place (said_of saying.now)) }
    ensures far { IfErr result (λ e. IsFar (¬ IsNear place (said_of saying.now)) e) }
{
    let steps = steps_of(alloc, saying.operator, &saying.operands)?;
    let (mut operands, behind) = round_steps(alloc, place, &steps)?;
    if is_hint(saying.operator) {
        operands = edges(alloc, &saying.operands)?;
    } else {
        put_depth(&mut operands, saying.operator, &saying.operands)?;
    }
    let rounded = Saying {
        operator: rounded_operator(saying.operator),
        stems: edges(alloc, &saying.stems)?,
        operands,
        mask: saying.mask,
    };
    Ok((rounded, behind))
}

/// All operations in whole units from the origin.
fn all_in_whole_units<'l>(alloc: Global, sayings: &[Saying<'l>]) -> Result<Vec<Saying<'l>>>
    ensures ok { IfOk result (λ whole. map said_of whole.items ≡ all_in_units origin (map said_of sayings.now)) }
    ensures near { OnOk result (AreNear origin (map said_of sayings.now)) }
    ensures far { IfErr result (λ e. IsFar (LeadsTooFar origin (map said_of sayings.now)) e) }
{
    let mut whole = Vec::with_capacity(alloc, sayings.len())?;
    let mut place = Point::ORIGIN;
    for saying in sayings {
        let (rounded, behind) = in_whole_units(alloc, place, saying)?;
        whole.push(rounded)?;
        place = behind;
    }
    Ok(whole)
}

/// Writes a Type 2 charstring that draws the outline of a blended CFF2 charstring in whole units.
///
/// Each point is rounded to the nearest whole unit, and up if it is halfway. Since points and not operands are rounded,
/// errors do not add up. The segments are the same, each point moves by at most half a unit along each axis, and a
/// contour that ends at its start still does.
///
/// The edges of stems are rounded likewise, for each operator and for the stems that a mask implies. The first edge of
/// an operator counts from 0, and each other one from the one before. All numbers are whole, except a width, as a 16.16
/// number, and the depth of a flex, which are unchanged.
///
/// Operators, masks and the rest are as [`charstring`](crate::charstring) writes them, except `hflex`, `hflex1` and
/// `flex1`, which become `flex` with a depth of 50.
///
/// # Errors
///
/// - The errors of [`charstring`](crate::charstring).
/// - `TooFar`: a point or an edge, as it is or rounded, does not fit into 16.16 bits, or the rounded distance to it
///   does not.
pub fn rounded(alloc: Global, charstring: Charstring<'_>, width: Option<Operand>) -> Result<Vec<u8>>
    // The code draws in whole units what the CFF2 charstring draws, with this width and no calls.
    ensures written { IfOk result (λ code. IsRoundedOf charstring.entry width code.items) }
    // An error is justified by the run, its operators, the width or the range, or is `Memory`.
    ensures refused { IfErr result (λ e. NotRounded charstring.entry width e) }
{
    let sayings = charstring.sayings(alloc)?;
    let whole = all_in_whole_units(alloc, &sayings)?;
    let code = write_charstring(alloc, width, &whole)?;
    Ok(code)
}

/// Writes the Type 2 charstring of a glyph of a variable font at a location in whole units, with a width, as
/// [`rounded`] does.
///
/// # Errors
///
/// - `NoGlyph`: there is no such glyph, or its Font DICT is missing or malformed.
/// - The errors of [`rounded`].
pub fn rounded_glyph(
    alloc: Global,
    font: &Font<'_>,
    glyph: usize,
    place: &Place,
    width: Option<Operand>,
) -> Result<Vec<u8>>
    // The code draws in whole units what the glyph's charstring draws at the location.
    ensures written { IfOk result (λ code. IsRoundedGlyph font.now glyph place.now width code.items) }
    // An error is justified: the glyph has no charstring, or `rounded` fails for it.
    ensures refused { IfErr result (λ e. NoRoundedGlyph font.now glyph place.now width e) }
{
    match varying(font, glyph, place) {
        Some(varied) => rounded(alloc, varied, width),
        None => Err(Error::NoGlyph(glyph)),
    }
}
