//! Private DICTs at a location: zones and stem widths for hinting (Technical Note 5176, "Private DICT Data"; OpenType
//! 1.9, "CFF2", "Private DICT Data").
ghost use Rattle.std.specs.Prelude.{◌≡◌, ◌↔◌, ◌⊎◌, ◌+◌, ◌-◌, ◌*◌, ◌++◌, ◌<◌, ◌≤◌, [], ◌∷◌, ℕ, List, pos, suc, IfErr, IfOk, IfSome, IsTrue, MatchOption, OnOk, length, option_map};
ghost use Rattle.std.specs.List.{Contains, flat_map, list_all, slice_range};
ghost use Rattle.postscript_cff2.specs.Tokens.{operand_size as the_size};
ghost use Rattle.postscript_instance.specs.Encoded.{HasHints, shown};
ghost use Rattle.postscript_instance.specs.Far.{AreEdges};
ghost use Rattle.postscript_instance.specs.Hints.{Acts, AreOperands, HintsAt, IsHintAt, IsHintOperation, IsPrivateAt, IsSource, all_bits as the_bits, bits_of, blend as the_blend, blended as the_blended, blended_each as each_blended, chosen as the_chosen, is_encoded as the_encoded, is_hint_operator, natural as the_natural, operand_at as the_operand, scalars_in, text_of};
ghost use Rattle.postscript_instance.specs.Numbers.{numbers_text};
ghost use Rattle.postscript_instance.specs.Private.{rounded_edges};
ghost use Rattle.postscript_instance.specs.Refusals.{IsMemory};
ghost use Rattle.postscript_instance.specs.Whole.{IsPrivate};

use crate::blending::blended_number;
use crate::error::{Error, Result};
use crate::numbers::put_numbers;
use crate::parts::operation_in;
use crate::pieces::OPERANDS;
use crate::reals::put_real;
use crate::rounding::edges;
use postscript_base::Error as Cause;
use postscript_base::compact1::Operator;
use postscript_base::index::number::number_at;
use postscript_cff2::{Dictionary, Font, PrivateDict, integer_at, operand_size, operator_size};
use postscript_type2::Operand;
use postscript_variable_font::Place;
use std::alloc::Global;

/// The operators vsindex and blend.
const VS_INDEX: u8 = 22;

const BLEND: u8 = 23;

/// `defaultWidthX` and `nominalWidthX` are 0.
const NO_WIDTHS: [u8; 4] = [0x8b, 0x14, 0x8b, 0x15];

/// An operand of a DICT.
#[derive(Clone, Copy)]
enum Number {
    /// A whole number, with the offsets of its first byte and after its last byte.
    Whole(i32, usize, usize),
    /// A real, with the same offsets.
    Real(usize, usize),
    /// A blended number, by its 16.16 bits.
    Blended(i32),
    /// Anything else.
    Unknown,
}

impl Number {
    /// The 16.16 number of a blended operand, or of a whole number of 16 bits.
    fn bits(self) -> Option<Operand>
        ensures { result ≡ bits_of self }
    {
        match self {
            Number::Whole(number, _, _) => Some(Operand::from_int(i16::try_from(number).ok()?)),
            Number::Blended(bits) => Some(Operand::from_bits(bits)),
            Number::Real(_, _) | Number::Unknown => None,
        }
    }

    /// Whether the number is in the DICT as it is.
    fn is_encoded(self) -> bool
        ensures { result ≡ the_encoded self }
    {
        matches!(self, Number::Whole(_, _, _) | Number::Real(_, _))
    }

    /// Appends the bytes of a number, with at most 18 significant digits in a real.
    fn put(self, alloc: Global, out: &mut Vec<u8>, bytes: &[u8]) -> Result<()>
        ensures text { OnOk result (out.new.items ≡ out.old.items ++ text_of bytes.now self) }
        ensures memory { IfErr result (λ e. IsMemory e) }
    {
        match self {
            Number::Whole(_, from, to) => out.extend_from_slice(bytes_between(bytes, from, to))?,
            Number::Real(from, to) => put_real(alloc, out, bytes_between(bytes, from, to))?,
            Number::Blended(_) | Number::Unknown => {}
        }
        Ok(())
    }
}

/// The bytes from one offset to another, up to the end.
pub(crate) fn bytes_between(bytes: &[u8], from: usize, to: usize) -> &[u8]
    ensures { result.now ≡ slice_range bytes.now from to }
{
    let end = to.min(bytes.len());
    if from < end { &bytes[from..end] } else { &[] }
}

/// The operand at an offset, and the offset after it.
#[tactic(auto, unfolding(postscript_cff2::specs::Tokens::integer_at))]
fn operand_at(bytes: &[u8], place: usize) -> (Number, usize)
    requires { place < length bytes.now }
    ensures number { result.0 ≡ the_operand bytes.now place }
    ensures next { result.1 ≡ place + the_size bytes.now place }
    ensures after { place < result.1 }
{
    let end = place + operand_size(bytes, place);
    match integer_at(bytes, place, bytes.len()) {
        Some(number) => (Number::Whole(number, place, end), end),
        None => {
            if number_at(bytes, place, 1) == 30 {
                (Number::Real(place, end), end)
            } else {
                (Number::Unknown, end)
            }
        }
    }
}

/// The operators of hints.
const HINTS: [Operator; 13] = [
    Operator::BlueValues,
    Operator::OtherBlues,
    Operator::FamilyBlues,
    Operator::FamilyOtherBlues,
    Operator::StdHW,
    Operator::StdVW,
    Operator::BlueScale,
    Operator::BlueShift,
    Operator::BlueFuzz,
    Operator::StemSnapH,
    Operator::StemSnapV,
    Operator::LanguageGroup,
    Operator::ExpansionFactor,
];

/// Whether an operator is in a list.
pub(crate) fn is_among(operator: Operator, operators: &[Operator]) -> bool
    ensures { IsTrue result ↔ Contains operators.now operator }
{
    for i in 0..operators.len() {
        if operators[i] == operator {
            return true;
        }
    }
    false
}

/// Whether a text is an operation of a hint.
fn is_hint_operation(alloc: Global, text: &[u8]) -> Result<bool>
    ensures is { IfOk result (λ is. IsTrue is ↔ IsHintOperation text.now) }
    ensures memory { IfErr result (λ e. IsMemory e) }
{
    match operation_in(alloc, text)? {
        Some((operator, _operands)) => Ok(is_among(operator, &HINTS)),
        None => Ok(false),
    }
}

/// Appends a text if it is an operation of a hint.
fn put_operation(alloc: Global, out: &mut Vec<u8>, text: &[u8]) -> Result<()>
    ensures more { OnOk result ((IsHintOperation text.now × (out.new.items ≡ out.old.items ++ text.now))
        ⊎ ((IsHintOperation text.now → ⊥) × (out.new.items ≡ out.old.items))) }
    ensures hints { OnOk result (HasHints out.old.items → HasHints out.new.items) }
    ensures memory { IfErr result (λ e. IsMemory e) }
{
    if !is_hint_operation(alloc, text)? {
        return Ok(());
    }
    out.extend_from_slice(text)?;
    Ok(())
}

/// Whether all operands are in the DICT as they are.
fn are_encoded(numbers: &[Number]) -> bool
    ensures { result ≡ list_all the_encoded numbers.now }
{
    numbers.iter().all(|number| number.is_encoded())
}

/// The operands as they are in the DICT, with at most 18 significant digits in each real.
fn encode_operands(alloc: Global, bytes: &[u8], numbers: &[Number]) -> Result<Vec<u8>>
    ensures text { IfOk result (λ text. text.items ≡ flat_map (text_of bytes.now) numbers.now) }
    ensures memory { IfErr result (λ e. IsMemory e) }
{
    let mut text = Vec::new(alloc);
    for number in numbers {
        number.put(alloc, &mut text, bytes)?;
    }
    Ok(text)
}

/// The 16.16 numbers of all operands, if each has one.
fn all_bits(alloc: Global, numbers: &[Number]) -> Result<Option<Vec<Operand>>>
    ensures bits { IfOk result (λ found. option_map (λ bits. bits.items) found ≡ the_bits numbers.now) }
    ensures counted { IfOk result (λ found. IfSome found (λ bits. length bits.items ≡ length numbers.now)) }
    ensures memory { IfErr result (λ e. IsMemory e) }
{
    let mut all = Vec::new(alloc);
    for number in numbers {
        let Some(bits) = number.bits() else {
            return Ok(None);
        };
        all.push(bits)?;
    }
    Ok(Some(all))
}

/// Edges by the distances between them, rounded to whole numbers. `None` if one is out of range.
fn edges_text(alloc: Global, bits: &[Operand]) -> Result<Option<Vec<u8>>>
    ensures text { IfOk result (λ found. MatchOption found (AreEdges (pos 0) bits.now → ⊥)
        (λ text. AreEdges (pos 0) bits.now × (text.items ≡ numbers_text (rounded_edges (pos 0) bits.now)))) }
    ensures memory { IfErr result (λ e. IsMemory e) }
{
    match edges(alloc, bits) {
        Ok(edges) => {
            let mut text = Vec::new(alloc);
            put_numbers(&mut text, &edges)?;
            Ok(Some(text))
        }
        Err(Error::TooFar) => Ok(None),
        Err(_) => Err(Error::Font(Cause::Memory)),
    }
}

/// The operands of a hint, unless one is unknown.
fn operands_of(alloc: Global, bytes: &[u8], numbers: &[Number]) -> Result<Option<Vec<u8>>>
    ensures are { IfOk result (λ found. MatchOption found ((text : List ℕ) → AreOperands bytes.now numbers.now text → ⊥)
        (λ text. AreOperands bytes.now numbers.now text.items)) }
    ensures memory { IfErr result (λ e. IsMemory e) }
{
    if are_encoded(numbers) {
        let text = encode_operands(alloc, bytes, numbers)?;
        return Ok(Some(text));
    }
    match all_bits(alloc, numbers)? {
        Some(bits) => {
            let text = edges_text(alloc, &bits)?;
            Ok(text)
        }
        None => Ok(None),
    }
}

/// Appends the operation of a hint. It is left out if it has no operands or too many, if one is unknown, or if it cannot
/// be read: then the operator has its default.
fn put_hint(
    alloc: Global,
    out: &mut Vec<u8>,
    bytes: &[u8],
    numbers: &[Number],
    operator: &[u8],
) -> Result<()>
    ensures more { OnOk result ((text : List ℕ) × IsHintAt bytes.now operator.now numbers.now text
        × (out.new.items ≡ out.old.items ++ text)) }
    ensures hints { OnOk result (HasHints out.old.items → HasHints out.new.items) }
    ensures memory { IfErr result (λ e. IsMemory e) }
{
    if numbers.len() == 0 {
        return Ok(());
    }
    if numbers.len() > OPERANDS {
        return Ok(());
    }
    let Some(operands) = operands_of(alloc, bytes, numbers)? else {
        return Ok(());
    };
    let mut text = operands;
    text.extend_from_slice(operator)?;
    put_operation(alloc, out, &text)?;
    Ok(())
}

/// A default with its deltas, each times the scalar of its region.
fn blend_number(
    alloc: Global,
    default: Number,
    deltas: &[Number],
    scalars: &[u32],
) -> Result<Number>
    requires { length deltas.now ≡ length scalars.now }
    ensures number { IfOk result (λ number. number ≡ the_blended default deltas.now scalars.now) }
    ensures memory { IfErr result (λ e. IsMemory e) }
{
    let Some(default) = default.bits() else {
        return Ok(Number::Unknown);
    };
    let Some(deltas) = all_bits(alloc, deltas)? else {
        return Ok(Number::Unknown);
    };
    match blended_number(default, &deltas, scalars) {
        Some(value) => Ok(Number::Blended(value.bits())),
        None => Ok(Number::Unknown),
    }
}

/// Defaults with their deltas.
fn blended_each(
    alloc: Global,
    defaults: &[Number],
    deltas: &[Number],
    scalars: &[u32],
) -> Result<Vec<Number>>
    requires { length deltas.now ≡ length defaults.now * length scalars.now }
    ensures are { IfOk result (λ numbers. numbers.items ≡ each_blended defaults.now deltas.now scalars.now) }
    ensures memory { IfErr result (λ e. IsMemory e) }
{
    let mut numbers = Vec::new(alloc);
    let mut rest = deltas;
    for default in defaults {
        let (mine, behind) = rest.split_at(scalars.len());
        numbers.push(blend_number(alloc, *default, mine, scalars)?)?;
        rest = behind;
    }
    Ok(numbers)
}

/// The scalars of item variation data. There are none if there are no such data.
fn scalars_of(tables: &[Vec<u32>], index: usize) -> &[u32]
    ensures { result.now ≡ scalars_in tables.now index }
{
    match tables.get(index) {
        Some(scalars) => scalars,
        None => &[],
    }
}

/// The number of defaults of `blend`.
fn natural(number: Option<Number>) -> usize
    ensures { result ≡ the_natural number }
{
    match number {
        Some(Number::Whole(count, _, _)) => usize::try_from(count).unwrap_or(0),
        _ => 0,
    }
}

/// The number of operands before `count` defaults and their deltas, if there are as many.
fn base_of(operands: usize, count: usize, regions: usize) -> Option<usize>
    ensures { MatchOption result (operands < count * suc regions)
        (λ base. (count * suc regions ≤ operands) × (base ≡ operands - count * suc regions)) }
{
    let deltas = count.checked_mul(regions)?;
    operands.checked_sub(deltas.checked_add(count)?)
}

/// Blends the defaults before the last operand, which is their number.
fn blend(alloc: Global, numbers: &mut Vec<Number>, scalars: &[u32]) -> Result<()>
    ensures blended { OnOk result (numbers.new.items ≡ the_blend numbers.old.items scalars.now) }
    ensures memory { IfErr result (λ e. IsMemory e) }
{
    let count = natural(numbers.pop());
    let Some(base) = base_of(numbers.len(), count, scalars.len()) else {
        numbers.truncate(0);
        return Ok(());
    };
    let (defaults, deltas) = numbers[base..].split_at(count);
    let blended = blended_each(alloc, defaults, deltas, scalars)?;
    numbers.truncate(base);
    numbers.extend_from_slice(&blended)?;
    Ok(())
}

/// The item variation data that `vsindex` chooses.
fn chosen_data(index: usize, numbers: &[Number]) -> usize
    ensures { result ≡ the_chosen index numbers.now }
{
    match numbers {
        [Number::Whole(index, _, _), ..] => usize::try_from(*index).unwrap_or(usize::MAX),
        _ => index,
    }
}

/// Whether an operator has one byte, which is this.
fn is_operator(operator: &[u8], code: u8) -> bool
    ensures { IsTrue result ↔ operator.now ≡ code ∷ [] }
{
    operator == [code].as_slice()
}

/// A CFF2 Private DICT at a location while it is read: the item variation data in use, the operands, and the hints so
/// far.
#[derive(Drop)]
struct State {
    index: usize,
    numbers: Vec<Number>,
    out: Vec<u8>,
}

/// Runs an operator.
fn act(
    alloc: Global,
    tables: &[Vec<u32>],
    bytes: &[u8],
    state: &mut State,
    operator: &[u8],
) -> Result<()>
    ensures acts { OnOk result ((text : List ℕ) × Acts tables.now bytes.now operator.now (shown state.old) text (shown state.new)
        × (state.new.out.items ≡ state.old.out.items ++ text)) }
    ensures hints { OnOk result (HasHints state.old.out.items → HasHints state.new.out.items) }
    ensures memory { IfErr result (λ e. IsMemory e) }
{
    if is_operator(operator, BLEND) {
        blend(alloc, &mut state.numbers, scalars_of(tables, state.index))?;
        return Ok(());
    }
    if is_operator(operator, VS_INDEX) {
        state.index = chosen_data(state.index, &state.numbers);
        state.numbers.truncate(0);
        return Ok(());
    }
    if is_hint(operator) {
        put_hint(alloc, &mut state.out, bytes, &state.numbers, operator)?;
        state.numbers.truncate(0);
        return Ok(());
    }
    state.numbers.truncate(0);
    Ok(())
}

/// The hints of a CFF2 Private DICT, to its end, or to a truncated operator.
fn hints_of(alloc: Global, tables: &[Vec<u32>], bytes: &[u8]) -> Result<Vec<u8>>
    ensures at { IfOk result (λ out. HintsAt tables.now bytes.now 0 (record { index = 0; numbers = [] }) out.items) }
    ensures hints { IfOk result (λ out. HasHints out.items) }
    ensures memory { IfErr result (λ e. IsMemory e) }
{
    let mut state = State {
        index: 0,
        numbers: Vec::new(alloc),
        out: Vec::new(alloc),
    };
    let mut place = 0usize;
    while place < bytes.len() {
        let first = number_at(bytes, place, 1);
        if first < 28 {
            let end = place + operator_size(first);
            if end > bytes.len() {
                return Ok(state.out);
            }
            act(alloc, tables, bytes, &mut state, &bytes[place..end])?;
            place = end;
        } else {
            let (number, end) = operand_at(bytes, place);
            state.numbers.push(number)?;
            place = end;
        }
    }
    Ok(state.out)
}

/// Whether an operator is a hint.
fn is_hint(operator: &[u8]) -> bool
    ensures { result ≡ is_hint_operator operator.now }
{
    matches!(operator, [6..=11] | [12, 9..=13] | [12, 17..=18])
}

/// The CFF2 Private DICT of a Font DICT, or no bytes if there is none.
pub(crate) fn private_bytes<'l>(font: &Font<'l>, number: usize) -> &'l [u8]
    ensures { IsSource font.now number result.now }
{
    let Some(bytes) = font.font_dictionaries.get(number) else {
        return &[];
    };
    match PrivateDict::read(font.bytes, &Dictionary { bytes }) {
        Some(part) => part.private_dictionary.bytes,
        None => &[],
    }
}

/// The CFF Private DICT of a CFF2 one at a location.
pub(crate) fn private_of(alloc: Global, source: &[u8], place: &Place) -> Result<Vec<u8>>
    ensures is { IfOk result (λ text. IsPrivate text.items) }
    ensures at { IfOk result (λ text. IsPrivateAt place.now.tables.items source.now text.items) }
    ensures memory { IfErr result (λ e. IsMemory e) }
{
    let mut text = hints_of(alloc, &place.tables, source)?;
    text.extend_from_slice(&NO_WIDTHS)?;
    Ok(text)
}
