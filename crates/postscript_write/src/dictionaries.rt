//! Writes DICT data (Technical Note 5176, "DICT Data").
ghost use Rattle.std.specs.Prelude.{All, ◌≡◌, ◌↔◌, ◌≢◌, ◌⊎◌, IsTrue, None, ◌≤◌, ◌<◌, ◌+◌, ◌*◌, ◌^◌, ◌++◌, List, [], ◌∷◌, length, IfErr, IfOk, IfSome, OnOk, ℕ, map};
ghost use Rattle.std.specs.List.{Contains};
ghost use Rattle.postscript_base.specs.Tape.Outcome.{Got, RefusedAs};
ghost use Rattle.postscript_base.specs.Compact1.Decimal.{Decimal};
ghost use Rattle.postscript_base.specs.Compact1.Dictionary.{Dictionary};
ghost use Rattle.postscript_base.specs.Compact1.DictionaryLaw.{IsDictionary, OperationsAt, UnfinishedAt};
ghost use Rattle.postscript_base.specs.Compact1.Operation.{Operation, operation};
ghost use Rattle.postscript_base.specs.declared.compact1.operator.Operator.TheVariants.{ROS};
ghost use Rattle.postscript_base.specs.declared.error.Error.TheVariants as errors;
ghost use Rattle.postscript_write.specs.Parts.{IsAmong};
ghost use Rattle.postscript_write.specs.Dictionaries.{integer_text, integers_text, operands_of, AreHeld, IsCode, IsEscaped, IsHeld, IsPlaced, IsWritable, escaped, operation_of, short};
ghost use Rattle.postscript_write.specs.DictionarySizes.{HasSize, operation_size, operator_size, place_size, places_size};
ghost use Rattle.postscript_write.specs.LeftOut.{AreTold, IsLeftOut, IsLeftText, IsWithout};
ghost use Rattle.postscript_write.specs.Once.{IsMoved, KeepsOrder, TellsRosFirst};

use crate::number::put_number;
use postscript_base::compact1::{Operation, Operator};
use postscript_base::{Error, Result, Value};
use std::alloc::Global;
use std::io::Cursor;

/// The operator of the next operation. `None` if it is truncated.
fn next_operator(alloc: Global, tape: &mut Cursor<&[u8]>) -> Result<Option<Operator>>
    ensures found { IfOk result (λ found. IfSome found (λ operator. (operands : List Decimal)
        × (operation tape.old.inner.now tape.old.pos ≡ Got (operator, operands) tape.new.pos))) }
    ensures onward { IfOk result (λ found. IfSome found
        (λ _. (tape.old.pos < tape.new.pos) × (tape.new.pos ≤ length tape.old.inner.now))) }
    ensures cut { IfOk result (λ found. found ≡ None → UnfinishedAt tape.old.inner.now tape.old.pos) }
    ensures ends { IfOk result (λ found. found ≡ None → (o : Operation) (next : ℕ) →
        operation tape.old.inner.now tape.old.pos ≡ Got o next → ⊥) }
    ensures kept { OnOk result (tape.new.inner.now ≡ tape.old.inner.now) }
    ensures refused { IfErr result (λ e. e ≢ errors.Memory →
        RefusedAs e (operation tape.old.inner.now tape.old.pos) × (e ≢ errors.UnexpectedEof)) }
{
    match Operation::read(alloc, tape) {
        Ok((operator, _operands)) => Ok(Some(operator)),
        Err(Error::UnexpectedEof) => Ok(None),
        Err(error) => Err(error),
    }
}

/// Appends an integer of five bytes.
fn put_integer(out: &mut Vec<u8>, number: usize) -> Result<()>
    ensures ok { OnOk result (out.new.items ≡ out.old.items ++ integer_text number) }
    ensures sized { OnOk result (length out.new.items ≡ length out.old.items + 5) }
    ensures held { OnOk result (number < 2 ^ 31) }
    ensures refused { IfErr result (λ e. e ≢ errors.Memory → 2 ^ 31 ≤ number) }
{
    if number > 0x7fff_ffff {
        return Err(Error::OutOfRangeOffset);
    }
    put_number(out, 1, 0x1d)?;
    put_number(out, 4, number)?;
    Ok(())
}

/// Appends integers.
fn put_integers(out: &mut Vec<u8>, numbers: &[usize]) -> Result<()>
    ensures ok { OnOk result (out.new.items ≡ out.old.items ++ integers_text numbers.now) }
    ensures sized { OnOk result (length out.new.items ≡ length out.old.items + 5 * length numbers.now) }
    ensures held { OnOk result (AreHeld numbers.now) }
    ensures refused { IfErr result (λ e. e ≢ errors.Memory → AreHeld numbers.now → ⊥) }
{
    for number in numbers {
        put_integer(out, *number)?;
    }
    Ok(())
}

/// The code of an operator of one byte with an offset or an SID.
#[tactic(auto, unfolding(postscript_base::specs::Compact1::Operators::operator_of))]
fn code_of(operator: Operator) -> Option<u8>
    ensures code { IfSome result (λ code. IsCode code operator) }
    ensures size { IfSome result (λ _. operator_size operator ≡ 1) }
    ensures writable { IfSome result (λ _. IsWritable operator) }
    ensures none { result ≡ None → IsAmong operator short → ⊥ }
{
    match operator {
        Operator::Version => Some(0x00),
        Operator::Notice => Some(0x01),
        Operator::FullName => Some(0x02),
        Operator::FamilyName => Some(0x03),
        Operator::Weight => Some(0x04),
        Operator::CharSet => Some(0x0f),
        Operator::Encoding => Some(0x10),
        Operator::CharStrings => Some(0x11),
        Operator::Private => Some(0x12),
        Operator::Subrs => Some(0x13),
        _ => None,
    }
}

/// The second byte of an operator of two bytes with an offset or an SID.
#[tactic(auto, unfolding(postscript_base::specs::Compact1::Operators::operator_of))]
fn second_of(operator: Operator) -> Option<u8>
    ensures code { IfSome result (λ second. IsEscaped second operator) }
    ensures size { IfSome result (λ _. operator_size operator ≡ 2) }
    ensures writable { IfSome result (λ _. IsWritable operator) }
    ensures none { result ≡ None → IsAmong operator escaped → ⊥ }
{
    match operator {
        Operator::Copyright => Some(0x00),
        Operator::PostScript => Some(0x15),
        Operator::BaseFontName => Some(0x16),
        Operator::FDArray => Some(0x24),
        Operator::FDSelect => Some(0x25),
        Operator::FontName => Some(0x26),
        _ => None,
    }
}

/// Appends an operation with an operator of one byte.
fn put_short(out: &mut Vec<u8>, numbers: &[usize], operator: Operator, code: u8) -> Result<()>
    requires { IsCode code operator }
    ensures sized { OnOk result (length out.new.items ≡ length out.old.items + (5 * length numbers.now + 1)) }
    ensures held { OnOk result (AreHeld numbers.now) }
    ensures refused { IfErr result (λ e. e ≢ errors.Memory → AreHeld numbers.now → ⊥) }
    ensures one_more { OnOk result ((operations : List Operation) → OperationsAt out.old.items 0 operations (length out.old.items) →
        OperationsAt out.new.items 0 (operations ++ (operator, operands_of numbers.now) ∷ []) (length out.new.items)) }
{
    put_integers(out, numbers)?;
    put_number(out, 1, usize::from(code))?;
    Ok(())
}

/// Appends an operation with an operator of two bytes.
fn put_escaped(out: &mut Vec<u8>, numbers: &[usize], operator: Operator, second: u8) -> Result<()>
    requires { IsEscaped second operator }
    ensures sized { OnOk result (length out.new.items ≡ length out.old.items + (5 * length numbers.now + 2)) }
    ensures held { OnOk result (AreHeld numbers.now) }
    ensures refused { IfErr result (λ e. e ≢ errors.Memory → AreHeld numbers.now → ⊥) }
    ensures one_more { OnOk result ((operations : List Operation) → OperationsAt out.old.items 0 operations (length out.old.items) →
        OperationsAt out.new.items 0 (operations ++ (operator, operands_of numbers.now) ∷ []) (length out.new.items)) }
{
    put_integers(out, numbers)?;
    put_number(out, 1, 0x0c)?;
    put_number(out, 1, usize::from(second))?;
    Ok(())
}

/// Appends an operation to operations: integers, and an operator with an offset or an SID.
///
/// # Errors
///
/// - `MissingOperation`: the operator is not such an operator.
/// - `OutOfRangeOffset`: a number has more than 31 bits.
/// - `Memory`: out of memory.
pub fn put_operation(out: &mut Vec<u8>, numbers: &[usize], operator: Operator) -> Result<()>
    ensures refused { IfErr result (λ e. e ≢ errors.Memory → IsWritable operator → AreHeld numbers.now → ⊥) }
    ensures sized { OnOk result (length out.new.items ≡ length out.old.items + operation_size numbers.now operator) }
    ensures writable { OnOk result (IsWritable operator) }
    ensures held { OnOk result (AreHeld numbers.now) }
    ensures one_more { OnOk result ((operations : List Operation) → OperationsAt out.old.items 0 operations (length out.old.items) →
        OperationsAt out.new.items 0 (operations ++ (operator, operands_of numbers.now) ∷ []) (length out.new.items)) }
{
    match (code_of(operator), second_of(operator)) {
        (Some(code), _) => put_short(out, numbers, operator, code),
        (None, Some(second)) => put_escaped(out, numbers, operator, second),
        (None, None) => Err(Error::MissingOperation(operator)),
    }
}

/// An operator of a DICT with an offset or an SID, and with a size if it has one.
#[derive(Clone, Copy)]
pub(crate) struct Place {
    pub(crate) operator: Operator,
    pub(crate) size: Option<usize>,
    pub(crate) offset: usize,
}

/// Appends the operation of an offset.
fn put_place(out: &mut Vec<u8>, place: &Place) -> Result<()>
    ensures refused { IfErr result (λ e. e ≢ errors.Memory → IsHeld place.now → ⊥) }
    ensures sized { OnOk result (length out.new.items ≡ length out.old.items + place_size place.now) }
    ensures held { OnOk result (IsHeld place.now) }
    ensures one_more { OnOk result ((operations : List Operation) → OperationsAt out.old.items 0 operations (length out.old.items) →
        OperationsAt out.new.items 0 (operations ++ operation_of place.now ∷ []) (length out.new.items)) }
{
    match place.size {
        Some(size) => put_operation(out, &[size, place.offset], place.operator),
        None => put_operation(out, &[place.offset], place.operator),
    }
}

/// Appends the operations of offsets to operations.
fn put_places(out: &mut Vec<u8>, places: &[Place]) -> Result<()>
    ensures refused { IfErr result (λ e. e ≢ errors.Memory → All IsHeld places.now → ⊥) }
    ensures sized { OnOk result (length out.new.items ≡ length out.old.items + places_size places.now) }
    ensures held { OnOk result (All IsHeld places.now) }
    ensures more { OnOk result ((operations : List Operation) → OperationsAt out.old.items 0 operations (length out.old.items) →
        OperationsAt out.new.items 0 (operations ++ map operation_of places.now) (length out.new.items)) }
{
    for place in places {
        put_place(out, place)?;
    }
    Ok(())
}

/// Whether an operator is in a list.
fn is_among(operator: Operator, operators: &[Operator]) -> bool
    ensures { IsTrue result ↔ Contains operators.now operator }
{
    for i in 0..operators.len() {
        if operators[i] == operator {
            return true;
        }
    }
    false
}

/// The operators of the whole operations of a DICT.
fn told_in(alloc: Global, text: &[u8]) -> Result<Vec<Operator>>
    ensures told { IfOk result (λ told. AreTold text.now told.items) }
    ensures refused { IfErr result (λ e. e ≢ errors.Memory → (dictionary : Dictionary) → IsDictionary text.now 0 dictionary → ⊥) }
{
    let mut told = Vec::new(alloc);
    let mut tape = Cursor::new(text);
    'operations: while let Some(operator) = next_operator(alloc, &mut tape)? {
        told.push(operator)?;
    }
    Ok(told)
}

/// Appends an operation unless its operator is in one of two lists.
fn put_unless(
    out: &mut Vec<u8>,
    operation: &[u8],
    operator: Operator,
    left_out: &[Operator],
    later: &[Operator],
) -> Result<()>
    ensures either { OnOk result ((IsLeftOut left_out.now later.now operator × (out.new.items ≡ out.old.items))
        ⊎ ((IsLeftOut left_out.now later.now operator → ⊥) × (out.new.items ≡ out.old.items ++ operation.now))) }
    ensures memory { IfErr result (λ e. e ≡ errors.Memory) }
{
    if !is_among(operator, left_out) && !is_among(operator, later) {
        out.extend_from_slice(operation)?;
    }
    Ok(())
}

/// The whole operations of a DICT as they are encoded, without some operators. If an operator occurs several times, only
/// its last operation counts, so only that one is kept.
pub(crate) fn operations_without(
    alloc: Global,
    text: &[u8],
    left_out: &[Operator],
) -> Result<Vec<u8>>
    ensures left { IfOk result (λ out. IsWithout text.now left_out.now out.items) }
    ensures text { IfOk result (λ out. IsLeftText text.now left_out.now 0 out.items) }
    ensures refused { IfErr result (λ e. e ≢ errors.Memory → (dictionary : Dictionary) → IsDictionary text.now 0 dictionary → ⊥) }
{
    let told = told_in(alloc, text)?;
    let mut out = Vec::new(alloc);
    let mut tape = Cursor::new(text);
    let mut place = 0usize;
    let mut count = 0usize;
    'operations: while let Some(operator) = next_operator(alloc, &mut tape)? {
        let next = tape.position() as usize;
        count += 1;
        put_unless(
            &mut out,
            &text[place..next],
            operator,
            left_out,
            &told[count..],
        )?;
        place = next;
    }
    Ok(out)
}

/// All operators but `ROS`.
const NOT_ROS: [Operator; 51] = [
    Operator::Version,
    Operator::Notice,
    Operator::FullName,
    Operator::FamilyName,
    Operator::Weight,
    Operator::FontBBox,
    Operator::BlueValues,
    Operator::OtherBlues,
    Operator::FamilyBlues,
    Operator::FamilyOtherBlues,
    Operator::StdHW,
    Operator::StdVW,
    Operator::UniqueID,
    Operator::XUID,
    Operator::CharSet,
    Operator::Encoding,
    Operator::CharStrings,
    Operator::Private,
    Operator::Subrs,
    Operator::DefaultWidthX,
    Operator::NominalWidthX,
    Operator::Copyright,
    Operator::IsFixedPitch,
    Operator::ItalicAngle,
    Operator::UnderlinePosition,
    Operator::UnderlineThickness,
    Operator::PaintType,
    Operator::CharStringType,
    Operator::FontMatrix,
    Operator::StrokeWidth,
    Operator::BlueScale,
    Operator::BlueShift,
    Operator::BlueFuzz,
    Operator::StemSnapH,
    Operator::StemSnapV,
    Operator::ForceBold,
    Operator::LanguageGroup,
    Operator::ExpansionFactor,
    Operator::InitialRandomSeed,
    Operator::SyntheticBase,
    Operator::PostScript,
    Operator::BaseFontName,
    Operator::BaseFontBlend,
    Operator::CIDFontVersion,
    Operator::CIDFontRevision,
    Operator::CIDFontType,
    Operator::CIDCount,
    Operator::UIDBase,
    Operator::FDArray,
    Operator::FDSelect,
    Operator::FontName,
];

/// The whole operations of a DICT as they are encoded, `ROS` first, and without the other operators of a list
/// (Technical Note 5176, section 18: `ROS` is the first operator of a CID-keyed font).
pub(crate) fn ros_first(alloc: Global, text: &[u8], left_out: &[Operator]) -> Result<Vec<u8>>
    requires { Contains left_out.now ROS }
    ensures moved { IfOk result (λ out. (old : Dictionary) → IsDictionary text.now 0 old →
        (new : Dictionary) × IsDictionary out.items 0 new × IsMoved left_out.now old new) }
    ensures order { IfOk result (λ out. TellsRosFirst out.items) }
    ensures within { IfOk result (λ out. length out.items ≤ length text.now) }
    ensures refused { IfErr result (λ e. e ≢ errors.Memory → (dictionary : Dictionary) → IsDictionary text.now 0 dictionary → ⊥) }
{
    let mut out = operations_without(alloc, text, &NOT_ROS)?;
    let rest = operations_without(alloc, text, left_out)?;
    out.extend_from_slice(&rest)?;
    Ok(out)
}

/// The bytes of whole operations, followed by the operations of offsets.
fn followed_by(rest: Vec<u8>, places: &[Place]) -> Result<Vec<u8>>
    ensures refused { IfErr result (λ e. e ≢ errors.Memory → All IsHeld places.now → ⊥) }
    ensures sized { IfOk result (λ out. length out.items ≡ length rest.items + places_size places.now) }
    ensures held { OnOk result (All IsHeld places.now) }
    ensures more { IfOk result (λ out. (operations : List Operation) → OperationsAt rest.items 0 operations (length rest.items) →
        OperationsAt out.items 0 (operations ++ map operation_of places.now) (length out.items)) }
{
    let mut out = rest;
    put_places(&mut out, places)?;
    Ok(out)
}

/// The operators of offsets.
fn operators_of(alloc: Global, places: &[Place]) -> Result<Vec<Operator>>
    ensures are { IfOk result (λ operators. operators.items ≡ map (λ place. place.operator) places.now) }
    ensures memory { IfErr result (λ e. e ≡ errors.Memory) }
{
    let mut operators = Vec::new(alloc);
    for place in places {
        operators.push(place.operator)?;
    }
    Ok(operators)
}

/// A DICT with new offsets instead of the old ones of the same operators.
pub(crate) fn with_places(alloc: Global, text: &[u8], places: &[Place]) -> Result<Vec<u8>>
    ensures placed { IfOk result (λ out. (old : Dictionary) → IsDictionary text.now 0 old →
        (new : Dictionary) × IsDictionary out.items 0 new × IsPlaced old places.now new) }
    ensures sized { IfOk result (λ out. HasSize text.now places.now (length out.items)) }
    ensures held { OnOk result (All IsHeld places.now) }
    ensures order { IfOk result (λ out. KeepsOrder text.now places.now out.items) }
    ensures refused { IfErr result (λ e. e ≢ errors.Memory → All IsHeld places.now → (old : Dictionary) →
        IsDictionary text.now 0 old → ⊥) }
{
    let operators = operators_of(alloc, places)?;
    let rest = operations_without(alloc, text, &operators)?;
    followed_by(rest, places)
}
