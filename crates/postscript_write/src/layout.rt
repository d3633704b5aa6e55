//! The parts of a font and their offsets (Technical Note 5176, "CFF Data Layout").
ghost use Rattle.std.specs.Prelude.{◌≡◌, ◌≢◌, Some, None, map, option_map, ◌≤◌, ◌<◌, ◌+◌, ◌^◌, ◌++◌, ℕ, pos, List, [], ◌∷◌, IsSome, length, All, Option, IfErr, IfOk, OnOk};
ghost use Rattle.std.specs.Option.{unwrap_or};
ghost use Rattle.postscript_base.specs.Compact1.Defaults.{first_two_of, look};
ghost use Rattle.postscript_base.specs.Compact1.Dictionary.{Dictionary};
ghost use Rattle.postscript_base.specs.Compact1.DictionaryLaw.{IsDictionary};
ghost use Rattle.postscript_base.specs.declared.error.Error.TheVariants as errors;
ghost use Rattle.postscript_base.specs.declared.compact1.operator.Operator.TheVariants as operators;
ghost use Rattle.postscript_base.specs.Index.{number_at};
ghost use Rattle.postscript_base.specs.Index.Lent.{items_of};
ghost use Rattle.postscript_compact1.specs.FontSet.Parts.{HasFirst};
ghost use Rattle.postscript_type2.specs.Program.Routines.{texts};
ghost use Rattle.postscript_view.specs.Layout.{AreParts, AreTables, IsPart, NamesIndex};
ghost use Rattle.postscript_view.specs.Contents.{PrivateDict as Part, Tables};
ghost use Rattle.postscript_view.specs.CharSets.{IsCharSetOf};
ghost use Rattle.postscript_view.specs.Encodings.{IsEncodingOf};
ghost use Rattle.postscript_view.specs.Select.{offset_of};
ghost use Rattle.postscript_view.specs.Sizes.{IsKeyed, size_named};
ghost use Rattle.postscript_view.specs.Value.{parts_shown, view_shown};
ghost use Rattle.postscript_write.specs.ArrangedText.{AreSizedFor, AreTablesOf, IsPlacedText, NamePrivates, dictionaries_text, is_single, tables_text};
ghost use Rattle.postscript_write.specs.Dictionaries.{IsHeld};
ghost use Rattle.postscript_write.specs.DictionarySizes.{HasSize, places_size};
ghost use Rattle.postscript_write.specs.Index.{FitsIndex, index_text};
ghost use Rattle.postscript_view.specs.declared.char_set.CharSetView.{CharSetView as Set};
ghost use Rattle.postscript_view.specs.declared.encoding.EncodingView.{EncodingView as Encodings};
ghost use Rattle.postscript_write.specs.Once.{IsToldOnce, TellsRosFirst};
ghost use Rattle.postscript_write.specs.Own.{IsCutFrom, IsOwnCharSet, IsOwnEncoding};
ghost use Rattle.postscript_write.specs.Pieces.{named_places, piece_shown, pieces_of as the_pieces, pieces_text, piece_if, is_listed as listed, listed_set, ranges_set, place_of, standard_place, text_of};
ghost use Rattle.postscript_write.specs.Privates.{AreFontDictionaries, AreSized, AreOwnPrivates, IsFontDictionary, IsOwnPrivate, IsSomeDictionary, NoneIsNamed, place_of_private, private_text, privates_text};
ghost use Rattle.postscript_write.specs.Renumbered.{IsRenamed, IsUnnamed, all_renamed, renamed_if};
ghost use Rattle.postscript_write.specs.Room.{HasFew, HasRoom, IsRead, SelectsOnlyIfKeyed};
ghost use Rattle.postscript_write.specs.Strings.{identifier_in as the_identifier};
ghost use Rattle.postscript_write.specs.Written.{IsPut, IsPutTogether};

use crate::dictionaries::{Place, operations_without, ros_first, with_places};
use crate::indices::put_index;
use crate::naming::{SID_OPERATORS, identifier_in};
use crate::spans::{char_set_end, encoding_end};
use crate::strings::Strings;
use postscript_base::compact1::{Operations, Operator};
use postscript_base::index::IndexView;
use postscript_base::index::number::number_within;
use postscript_base::{Error, Result};
use postscript_compact1::font_set::operands::bounds;
use postscript_view::tables::slice_at;
use postscript_view::{FontView, PrivateDict};
use std::alloc::Global;

/// A copy of the items.
pub(crate) fn copy_items(alloc: Global, items: &IndexView<'_>) -> Result<Vec<Vec<u8>>>
    ensures items { IfOk result (λ all. texts all.items ≡ items_of items.now) }
    ensures memory { IfErr result (λ e. e ≡ errors.Memory) }
{
    let mut all = Vec::new(alloc);
    for i in 0..items.len() {
        let mut copy = Vec::new(alloc);
        copy.extend_from_slice(items.item(i))?;
        all.push(copy)?;
    }
    Ok(all)
}

/// The first operand of an operator as an offset.
#[tactic(auto, unfolding(postscript_view::specs::Select::offset_of))]
fn place_of(dictionary: &Operations, operator: Operator) -> Result<usize>
    ensures first { IfOk result (λ place. HasFirst dictionary.now operator (pos place)) }
    ensures refused { IfErr result (λ e. (place : ℕ) → HasFirst dictionary.now operator (pos place) → ⊥) }
    ensures offset { IfOk result (λ place. offset_of dictionary.now operator ≡ Some place) }
    ensures none { IfErr result (λ e. offset_of dictionary.now operator ≡ None) }
{
    let operand = dictionary
        .get_single(operator)
        .ok_or(Error::MissingOperation(operator))?;
    let number = operand.to_i32().ok_or(Error::MalformedOperation(operator))?;
    usize::try_from(number).map_err(|_| Error::OutOfRangeOffset)
}

/// The bytes of the first DICT.
fn first_dictionary(bytes: &[u8]) -> Result<&[u8]>
    ensures is { IfOk result (λ item. (tables : Tables) → AreTables bytes.now (number_at bytes.now 2 1) 0 tables →
        IsDictionary item.now 0 tables.dictionary) }
    ensures within { IfOk result (λ item. length item.now ≤ length bytes.now) }
    ensures refused { IfErr result (λ e. (tables : Tables) → 3 ≤ length bytes.now →
        AreTables bytes.now (number_at bytes.now 2 1) 0 tables → ⊥) }
{
    let start = number_within(bytes, 2, 1)?;
    let (_names, next) = IndexView::open(bytes, start)?;
    let (dictionaries, _next) = IndexView::open(bytes, next)?;
    match dictionaries.get(0) {
        Some(item) => Ok(item),
        None => Err(Error::UnexpectedEof),
    }
}

/// The bytes from one offset to another, if they are there.
fn bytes_to(bytes: &[u8], from: usize, to: Option<usize>) -> Result<&[u8]>
    ensures cut { IfOk result (λ cut. (next : ℕ) × (to ≡ Some next) × IsCutFrom bytes.now from next cut.now) }
    ensures refused { IfErr result (λ e. (next : ℕ) → to ≡ Some next → from ≤ next → next ≤ length bytes.now → ⊥) }
{
    match to {
        Some(to) if from <= to && to <= bytes.len() => Ok(&bytes[from..to]),
        _ => Err(Error::UnexpectedEof),
    }
}

/// The custom charset of a font, if it has one.
pub(crate) fn own_char_set<'l>(
    bytes: &'l [u8],
    dictionary: &Operations,
    glyphs: usize,
) -> Result<Option<&'l [u8]>>
    ensures own { IfOk result (λ own. IsOwnCharSet bytes.now dictionary.now glyphs (option_map (λ own. own.now) own)) }
    ensures refused { IfErr result (λ e. (set : Set) → IsCharSetOf set bytes.now dictionary.now glyphs → ⊥) }
{
    let place = place_of(dictionary, Operator::CharSet)?;
    if place < 3 {
        return Ok(None);
    }
    let own = bytes_to(bytes, place, char_set_end(bytes, place, glyphs))?;
    Ok(Some(own))
}

/// The custom encoding of a font, if it has one.
pub(crate) fn own_encoding<'l>(bytes: &'l [u8], dictionary: &Operations) -> Result<Option<&'l [u8]>>
    ensures own { IfOk result (λ own. IsOwnEncoding bytes.now dictionary.now (option_map (λ own. own.now) own)) }
    ensures refused { IfErr result (λ e. (encoding : Encodings) → IsEncodingOf encoding bytes.now dictionary.now → ⊥) }
{
    let place = place_of(dictionary, Operator::Encoding)?;
    if place < 2 {
        return Ok(None);
    }
    let own = bytes_to(bytes, place, encoding_end(bytes, place))?;
    Ok(Some(own))
}

/// A Private DICT of the new font, without subroutines.
#[derive(Drop)]
struct Private {
    text: Vec<u8>,
}

/// The Private DICT of a DICT, if it has one.
fn own_private(alloc: Global, bytes: &[u8], dictionary: &Operations) -> Result<Option<Private>>
    ensures own { IfOk result (λ private. (font : Option Dictionary) (part : Part) →
        IsPart bytes.now dictionary.now font part → IsOwnPrivate part private) }
    ensures named { IfOk result (λ private. private ≡ None → first_two_of (look dictionary.now operators.Private) ≡ None) }
    ensures sized { IfOk result (λ private.
        length (private_text private) ≤ size_named (first_two_of (look dictionary.now operators.Private))) }
    ensures within { IfOk result (λ private. length (private_text private) ≤ length bytes.now) }
    ensures refused { IfErr result (λ e. e ≢ errors.Memory → (font : Option Dictionary) (part : Part) →
        IsPart bytes.now dictionary.now font part → ⊥) }
{
    if dictionary.get_double(Operator::Private).is_none() {
        return Ok(None);
    }
    let (size, _offset, place) = bounds(0, dictionary)?;
    let source = slice_at(bytes, place, size)?;
    let text = operations_without(alloc, source, &[Operator::Subrs])?;
    Ok(Some(Private { text }))
}

/// The DICT that has the Private DICT of a part: its Font DICT, or the Top DICT.
fn naming_dictionary<'d>(part: &'d PrivateDict<'_>, font: &'d Operations) -> &'d Operations
    ensures { result.now ≡ unwrap_or part.now.font_dictionary font.now }
{
    match &part.font_dictionary {
        Some(own) => own,
        None => font,
    }
}

/// The Private DICTs of a font. In a CID-keyed font they have at most 20,000,000 bytes (`HoldFew`), otherwise no more
/// than the font.
fn own_privates(alloc: Global, font: &FontView<'_>) -> Result<Vec<Option<Private>>>
    ensures own { IfOk result (λ privates. AreParts font.now.bytes.now font.now.dictionary (parts_shown font.now.parts.items) →
        AreOwnPrivates (parts_shown font.now.parts.items) privates.items) }
    ensures named { IfOk result (λ privates.
        NoneIsNamed font.now.dictionary (parts_shown font.now.parts.items) privates.items) }
    ensures few { IfOk result (λ privates. IsRead font.now →
        length (privates_text privates.items) ≤ length font.now.bytes.now + 20000000) }
    ensures refused { IfErr result (λ e. e ≢ errors.Memory →
        AreParts font.now.bytes.now font.now.dictionary (parts_shown font.now.parts.items) → ⊥) }
{
    let mut privates = Vec::new(alloc);
    for i in 0..font.parts.len() {
        let dictionary = naming_dictionary(&font.parts[i], &font.dictionary);
        let private = own_private(alloc, font.bytes, dictionary)?;
        privates.push(private)?;
    }
    Ok(privates)
}

/// The data of the glyphs apart from their charstrings.
#[derive(Drop)]
pub(crate) struct Glyphs {
    /// The charset, unless it is predefined.
    pub(crate) char_set: Option<Vec<u8>>,
    /// The encoding, unless it is predefined.
    pub(crate) encoding: Option<Vec<u8>>,
    /// Whether the standard encoding replaces a custom one.
    pub(crate) standard: bool,
    /// FDSelect of a CID-keyed font.
    pub(crate) select: Option<Vec<u8>>,
    /// The strings.
    pub(crate) strings: Strings,
}

/// A piece of the new font: its bytes, and the operator with its offset.
#[derive(Drop)]
struct Piece<'p> {
    operator: Operator,
    /// Whether the Top DICT has its offset.
    named: bool,
    /// Whether its size is before its offset.
    counted: bool,
    text: &'p [u8],
}

/// The bytes, if there are any.
fn text_in(bytes: &Option<Vec<u8>>) -> &[u8]
    ensures { result.now ≡ text_of bytes.now }
{
    match bytes {
        Some(bytes) => bytes,
        None => &[],
    }
}

/// The piece of an operator, with an offset in the Top DICT if there are bytes.
fn piece_of(operator: Operator, bytes: &Option<Vec<u8>>) -> Piece<'_>
    ensures { piece_shown result ≡ piece_if operator bytes.now }
{
    Piece {
        operator,
        named: bytes.is_some(),
        counted: false,
        text: text_in(bytes),
    }
}

/// A piece without bytes and without an offset in the Top DICT.
fn no_piece<'p>(operator: Operator) -> Piece<'p>
    ensures { piece_shown result ≡ piece_if operator None }
{
    Piece {
        operator,
        named: false,
        counted: false,
        text: &[],
    }
}

/// Whether a charset is of format 0.
fn is_listed(char_set: &[u8]) -> bool
    ensures { result ≡ listed char_set.now }
{
    match char_set {
        [format, ..] => *format == 0,
        [] => false,
    }
}

/// The piece of a charset of format 0. It is empty if the charset is predefined or of another format.
fn listed_piece(char_set: &Option<Vec<u8>>) -> Piece<'_>
    ensures { piece_shown result ≡ piece_if operators.CharSet (listed_set char_set.now) }
{
    if is_listed(text_in(char_set)) {
        piece_of(Operator::CharSet, char_set)
    } else {
        no_piece(Operator::CharSet)
    }
}

/// The piece of a charset of ranges. It is empty if the charset is predefined or of format 0.
fn ranges_piece(char_set: &Option<Vec<u8>>) -> Piece<'_>
    ensures { piece_shown result ≡ piece_if operators.CharSet (ranges_set char_set.now) }
{
    if is_listed(text_in(char_set)) {
        no_piece(Operator::CharSet)
    } else {
        piece_of(Operator::CharSet, char_set)
    }
}

/// The pieces after the tables: encoding, FDSelect, a charset of format 0, charstrings, Private DICTs, the Font DICTs of
/// a CID-keyed font, and a charset of ranges. Ranges are last since ranges that cover too few glyphs end with the font.
/// A charset of format 0 is not, since HarfBuzz 6.0.0 reads two bytes past it.
fn pieces_of<'p>(
    glyphs: &'p Glyphs,
    char_strings: &'p [u8],
    single: bool,
    privates: &'p [u8],
    dictionaries: &'p [u8],
) -> [Piece<'p>; 7]
    ensures { map piece_shown result ≡ the_pieces glyphs.now char_strings.now single privates.now dictionaries.now }
{
    [
        piece_of(Operator::Encoding, &glyphs.encoding),
        piece_of(Operator::FDSelect, &glyphs.select),
        listed_piece(&glyphs.char_set),
        Piece {
            operator: Operator::CharStrings,
            named: true,
            counted: false,
            text: char_strings,
        },
        Piece {
            operator: Operator::Private,
            named: single,
            counted: true,
            text: privates,
        },
        Piece {
            operator: Operator::FDArray,
            named: glyphs.select.is_some(),
            counted: false,
            text: dictionaries,
        },
        ranges_piece(&glyphs.char_set),
    ]
}

/// The size of a Private DICT, if there is one.
fn private_len(private: &Option<Private>) -> usize
    ensures { result ≡ length (private_text private.now) }
{
    match private {
        Some(private) => private.text.len(),
        None => 0,
    }
}

/// Whether the Top DICT has the only Private DICT. In a CID-keyed font the Font DICTs have them.
fn names_private(select: &Option<Vec<u8>>, privates: &[Option<Private>]) -> bool
    ensures { result ≡ is_single select.now privates.now }
{
    match (select, privates) {
        (None, [Some(_)]) => true,
        _ => false,
    }
}

/// Adds the offset of a piece, if the Top DICT has it.
fn place_piece(places: &mut Vec<Place>, piece: &Piece<'_>, offset: usize) -> Result<()>
    ensures placed { OnOk result (places.new.items ≡ places.old.items ++ place_of (piece_shown piece.now) offset) }
    ensures memory { IfErr result (λ e. e ≡ errors.Memory) }
{
    if piece.named {
        let size = if piece.counted {
            Some(piece.text.len())
        } else {
            None
        };
        places.push(Place {
            operator: piece.operator,
            size,
            offset,
        })?;
    }
    Ok(())
}

/// Adds the standard encoding, if it replaces a custom one.
fn place_standard(places: &mut Vec<Place>, standard: bool) -> Result<()>
    ensures placed { OnOk result (places.new.items ≡ places.old.items ++ standard_place standard) }
    ensures memory { IfErr result (λ e. e ≡ errors.Memory) }
{
    if standard {
        places.push(Place {
            operator: Operator::Encoding,
            size: None,
            offset: 0,
        })?;
    }
    Ok(())
}

/// The offsets in the Top DICT, if the pieces begin at an offset.
fn places_from(
    alloc: Global,
    standard: bool,
    pieces: &[Piece<'_>],
    start: usize,
) -> Result<Vec<Place>>
    ensures places { IfOk result (λ places. start + length (pieces_text (map piece_shown pieces.now)) < 2 ^ 64 →
        places.items ≡ named_places standard start (map piece_shown pieces.now)) }
    ensures memory { IfErr result (λ e. e ≡ errors.Memory) }
{
    let mut places = Vec::new(alloc);
    place_standard(&mut places, standard)?;
    let mut offset = start;
    for piece in pieces {
        place_piece(&mut places, piece, offset)?;
        offset = offset.saturating_add(piece.text.len());
    }
    Ok(places)
}

/// The offset of the Private DICTs, if the pieces begin at an offset.
fn private_place(glyphs: &Glyphs, char_strings: &[u8], start: usize) -> usize
    ensures { start + length (text_of glyphs.now.encoding) + length (text_of glyphs.now.select)
        + length (text_of (listed_set glyphs.now.char_set)) + length char_strings.now < 2 ^ 64 →
        result ≡ start + length (text_of glyphs.now.encoding) + length (text_of glyphs.now.select)
        + length (text_of (listed_set glyphs.now.char_set)) + length char_strings.now }
{
    start
        .saturating_add(text_in(&glyphs.encoding).len())
        .saturating_add(text_in(&glyphs.select).len())
        .saturating_add(listed_piece(&glyphs.char_set).text.len())
        .saturating_add(char_strings.len())
}

/// A Font DICT with its Private DICT at an offset.
fn font_dictionary(
    alloc: Global,
    text: &[u8],
    private: &Option<Private>,
    offset: usize,
) -> Result<Vec<u8>>
    ensures placed { IfOk result (λ out. (old : Dictionary) → IsDictionary text.now 0 old →
        IsFontDictionary old private.now offset out.items) }
    ensures sized { IfOk result (λ out. HasSize text.now (place_of_private private.now 0) (length out.items)) }
    ensures held { OnOk result (All IsHeld (place_of_private private.now offset)) }
    ensures once { IfOk result (λ out. IsToldOnce out.items) }
    ensures refused { IfErr result (λ e. e ≢ errors.Memory → All IsHeld (place_of_private private.now offset) → (old : Dictionary) →
        IsDictionary text.now 0 old → ⊥) }
{
    match private {
        Some(private) => with_places(
            alloc,
            text,
            &[Place {
                operator: Operator::Private,
                size: Some(private.text.len()),
                offset,
            }],
        ),
        None => with_places(alloc, text, &[]),
    }
}

/// Font DICTs with consecutive Private DICTs from an offset on.
fn placed_dictionaries(
    alloc: Global,
    sources: &IndexView<'_>,
    privates: &[Option<Private>],
    start: usize,
) -> Result<Vec<Vec<u8>>>
    ensures placed { IfOk result (λ out. start + length (privates_text privates.now) < 2 ^ 64 →
        AreFontDictionaries (items_of sources.now) privates.now start (texts out.items)) }
    ensures sized { IfOk result (λ out. AreSized (items_of sources.now) privates.now (texts out.items)) }
    ensures refused { IfErr result (λ e. e ≢ errors.Memory → All IsSomeDictionary (items_of sources.now) →
        length (items_of sources.now) ≤ length privates.now → start + length (privates_text privates.now) < 2 ^ 31 → ⊥) }
{
    let mut offset = start;
    let mut all = Vec::new(alloc);
    for i in 0..sources.len() {
        let private = privates.get(i).ok_or(Error::UnexpectedEof)?;
        all.push(font_dictionary(alloc, sources.item(i), private, offset)?)?;
        offset = offset.saturating_add(private_len(private));
    }
    Ok(all)
}

/// The Font DICTs of a CID-keyed font with consecutive Private DICTs from an offset on.
fn font_dictionaries(
    alloc: Global,
    font: &FontView<'_>,
    privates: &[Option<Private>],
    start: usize,
) -> Result<Vec<Vec<u8>>>
    ensures placed { IfOk result (λ out. (items : List (List ℕ)) →
        NamesIndex font.now.bytes.now font.now.dictionary operators.FDArray items →
        start + length (privates_text privates.now) < 2 ^ 64 → AreFontDictionaries items privates.now start (texts out.items)) }
    ensures sized { IfOk result (λ out. AreSizedFor font.now.bytes.now font.now.dictionary privates.now (texts out.items)) }
    ensures refused { IfErr result (λ e. e ≢ errors.Memory → IsKeyed font.now.dictionary →
        AreParts font.now.bytes.now font.now.dictionary (parts_shown font.now.parts.items) →
        AreOwnPrivates (parts_shown font.now.parts.items) privates.now → start + length (privates_text privates.now) < 2 ^ 31 → ⊥) }
{
    let place = place_of(&font.dictionary, Operator::FDArray)?;
    let (sources, _next) = IndexView::open(font.bytes, place)?;
    placed_dictionaries(alloc, &sources, privates, start)
}

/// Adds an operator with its new SID, if it has one.
fn place_renamed(
    places: &mut Vec<Place>,
    dictionary: &Operations,
    strings: &Strings,
    operator: Operator,
) -> Result<()>
    ensures placed { OnOk result (places.new.items ≡ places.old.items
        ++ renamed_if strings.now operator (the_identifier dictionary.now operator)) }
    ensures memory { IfErr result (λ e. e ≡ errors.Memory) }
{
    if let Some(old) = identifier_in(dictionary, operator) {
        let new = strings.identifier(usize::from(old));
        if new != usize::from(old) {
            places.push(Place {
                operator,
                size: None,
                offset: new,
            })?;
        }
    }
    Ok(())
}

/// The operators with new SIDs.
fn renamed_operators(
    alloc: Global,
    dictionary: &Operations,
    strings: &Strings,
) -> Result<Vec<Place>>
    ensures places { IfOk result (λ places. places.items ≡ all_renamed strings.now dictionary.now) }
    ensures memory { IfErr result (λ e. e ≡ errors.Memory) }
{
    let mut places = Vec::new(alloc);
    for operator in &SID_OPERATORS {
        place_renamed(&mut places, dictionary, strings, *operator)?;
    }
    Ok(places)
}

/// The Top DICT with `ROS` first. In a CID-keyed font an offset of a Private DICT is left out, since the Font DICTs have
/// them (section 18). In any other font offsets of Font DICTs and of FDSelect are left out, since it has none.
fn without_private(alloc: Global, font: &FontView<'_>, text: &[u8]) -> Result<Vec<u8>>
    ensures unnamed { IfOk result (λ out. IsDictionary text.now 0 font.now.dictionary →
        (kept : Dictionary) × IsDictionary out.items 0 kept × IsUnnamed font.now.dictionary kept) }
    ensures order { IfOk result (λ out. TellsRosFirst out.items) }
    ensures within { IfOk result (λ out. length out.items ≤ length text.now) }
    ensures refused { IfErr result (λ e. e ≢ errors.Memory → (dictionary : Dictionary) → IsDictionary text.now 0 dictionary → ⊥) }
{
    if font.is_cid_keyed() {
        return ros_first(alloc, text, &[Operator::ROS, Operator::Private]);
    }
    ros_first(
        alloc,
        text,
        &[Operator::ROS, Operator::FDArray, Operator::FDSelect],
    )
}

/// The Top DICT with new SIDs. In a CID-keyed font it has no Private DICT.
fn dictionary_with(alloc: Global, font: &FontView<'_>, strings: &Strings) -> Result<Vec<u8>>
    ensures renamed { IfOk result (λ out. AreTables font.now.bytes.now (number_at font.now.bytes.now 2 1) 0 (view_shown font.now).tables →
        (new : Dictionary) × IsDictionary out.items 0 new
        × IsRenamed font.now.dictionary (all_renamed strings.now font.now.dictionary) new) }
    ensures order { IfOk result (λ out. TellsRosFirst out.items) }
    ensures sized { IfOk result (λ out.
        length out.items ≤ length font.now.bytes.now + places_size (all_renamed strings.now font.now.dictionary)) }
    ensures refused { IfErr result (λ e. e ≢ errors.Memory → 3 ≤ length font.now.bytes.now →
        AreTables font.now.bytes.now (number_at font.now.bytes.now 2 1) 0 (view_shown font.now).tables →
        All IsHeld (all_renamed strings.now font.now.dictionary) → ⊥) }
{
    let places = renamed_operators(alloc, &font.dictionary, strings)?;
    let first = first_dictionary(font.bytes)?;
    let kept = without_private(alloc, font, first)?;
    with_places(alloc, &kept, &places)
}

/// Appends an INDEX with one DICT and its offsets.
fn put_dictionary(
    alloc: Global,
    out: &mut Vec<u8>,
    dictionary: &[u8],
    places: &[Place],
) -> Result<()>
    ensures text { OnOk result ((placed : List ℕ) × (out.new.items ≡ out.old.items ++ index_text (placed ∷ []))
        × IsPlacedText dictionary.now places.now placed) }
    ensures held { OnOk result (All IsHeld places.now) }
    ensures refused { IfErr result (λ e. e ≢ errors.Memory → All IsHeld places.now → IsSomeDictionary dictionary.now →
        length dictionary.now + places_size places.now < 2 ^ 31 → ⊥) }
{
    let mut dictionaries = Vec::new(alloc);
    dictionaries.push(with_places(alloc, dictionary, places)?)?;
    put_index(out, &dictionaries)?;
    Ok(())
}

/// Appends the tables: header, names, the Top DICT with offsets, strings, and an INDEX without subroutines.
fn put_tables(
    alloc: Global,
    out: &mut Vec<u8>,
    font: &FontView<'_>,
    dictionary: &[u8],
    strings: &[Vec<u8>],
    places: &[Place],
) -> Result<()>
    ensures text { OnOk result ((placed : List ℕ) × (out.new.items ≡ out.old.items
        ++ tables_text (items_of font.now.names) placed (texts strings.now))
        × IsPlacedText dictionary.now places.now placed) }
    ensures names_fit { OnOk result (FitsIndex (items_of font.now.names)) }
    ensures strings_fit { OnOk result (FitsIndex (texts strings.now)) }
    ensures held { OnOk result (All IsHeld places.now) }
    ensures refused { IfErr result (λ e. e ≢ errors.Memory → All IsHeld places.now → IsSomeDictionary dictionary.now →
        length dictionary.now + places_size places.now < 2 ^ 31 → FitsIndex (items_of font.now.names) → FitsIndex (texts strings.now) → ⊥) }
{
    let names = copy_items(alloc, &font.names)?;
    out.extend_from_slice(&[1, 0, 4, 4])?;
    put_index(out, &names)?;
    put_dictionary(alloc, out, dictionary, places)?;
    put_index(out, strings)?;
    put_index(out, &[])
}

/// The tables of a font with pieces from an offset on.
fn tables_of(
    alloc: Global,
    font: &FontView<'_>,
    dictionary: &[u8],
    glyphs: &Glyphs,
    pieces: &[Piece<'_>],
    start: usize,
) -> Result<Vec<u8>>
    ensures tables { IfOk result (λ out. AreTablesOf font.now dictionary.now glyphs.now (map piece_shown pieces.now) start out.items) }
    ensures refused { IfErr result (λ e. e ≢ errors.Memory → IsSomeDictionary dictionary.now →
        start + length (pieces_text (map piece_shown pieces.now)) < 2 ^ 64 →
        All IsHeld (named_places glyphs.now.standard start (map piece_shown pieces.now)) →
        length dictionary.now + places_size (named_places glyphs.now.standard start (map piece_shown pieces.now)) < 2 ^ 31 →
        FitsIndex (items_of font.now.names) → FitsIndex (texts glyphs.now.strings.texts.items) → ⊥) }
{
    let places = places_from(alloc, glyphs.standard, pieces, start)?;
    let mut out = Vec::new(alloc);
    let strings = &glyphs.strings.texts;
    put_tables(alloc, &mut out, font, dictionary, strings, &places)?;
    Ok(out)
}

/// Appends a Private DICT, if there is one.
fn put_private(out: &mut Vec<u8>, private: &Option<Private>) -> Result<()>
    ensures text { OnOk result (out.new.items ≡ out.old.items ++ private_text private.now) }
    ensures memory { IfErr result (λ e. e ≡ errors.Memory) }
{
    if let Some(private) = private {
        out.extend_from_slice(&private.text)?;
    }
    Ok(())
}

/// Private DICTs one after the other.
fn join_privates(alloc: Global, privates: &[Option<Private>]) -> Result<Vec<u8>>
    ensures text { IfOk result (λ out. out.items ≡ privates_text privates.now) }
    ensures memory { IfErr result (λ e. e ≡ errors.Memory) }
{
    let mut out = Vec::new(alloc);
    for private in privates {
        put_private(&mut out, private)?;
    }
    Ok(out)
}

/// The INDEX of the Font DICTs of a CID-keyed font, with consecutive Private DICTs from an offset on. In any other font
/// it is empty.
///
/// Its size does not depend on the offset. The old Font DICTs have at most 20,000,000 bytes (`HoldFew`). Each new one
/// has at most 15 more: its offset, and the offset and size of its Private DICT.
fn font_array(
    alloc: Global,
    font: &FontView<'_>,
    glyphs: &Glyphs,
    privates: &[Option<Private>],
    start: usize,
) -> Result<Vec<u8>>
    ensures text { IfOk result (λ out. (dictionaries : List (List ℕ))
        × (out.items ≡ dictionaries_text glyphs.now.select dictionaries)
        × (start + length (privates_text privates.now) < 2 ^ 64 →
        NamePrivates font.now.bytes.now font.now.dictionary glyphs.now.select privates.now start dictionaries)
        × (IsSome glyphs.now.select → AreSizedFor font.now.bytes.now font.now.dictionary privates.now dictionaries)
        × (IsSome glyphs.now.select → FitsIndex dictionaries)) }
    ensures few { IfOk result (λ out. IsRead font.now → SelectsOnlyIfKeyed font.now glyphs.now → length font.now.parts.items < 2 ^ 16 →
        length out.items ≤ 21000000) }
    ensures refused { IfErr result (λ e. e ≢ errors.Memory → IsRead font.now → SelectsOnlyIfKeyed font.now glyphs.now →
        length font.now.parts.items < 2 ^ 16 → AreOwnPrivates (parts_shown font.now.parts.items) privates.now →
        start + length (privates_text privates.now) < 2 ^ 31 → ⊥) }
{
    let mut out = Vec::new(alloc);
    if glyphs.select.is_none() {
        return Ok(out);
    }
    let dictionaries = font_dictionaries(alloc, font, privates, start)?;
    put_index(&mut out, &dictionaries)?;
    Ok(out)
}

/// Appends pieces.
fn put_pieces(out: &mut Vec<u8>, pieces: &[Piece<'_>]) -> Result<()>
    ensures text { OnOk result (out.new.items ≡ out.old.items ++ pieces_text (map piece_shown pieces.now)) }
    ensures memory { IfErr result (λ e. e ≡ errors.Memory) }
{
    for piece in pieces {
        out.extend_from_slice(piece.text)?;
    }
    Ok(())
}

/// A font of these charstrings and Private DICTs, with this Top DICT apart from offsets. The sizes of tables and Font
/// DICTs do not depend on offsets, so a draft gives the offsets.
fn put_together(
    alloc: Global,
    font: &FontView<'_>,
    glyphs: &Glyphs,
    char_strings: &[u8],
    privates: &[Option<Private>],
    dictionary: &[u8],
) -> Result<Vec<u8>>
    ensures put { IfOk result (λ out. IsPut font.now glyphs.now char_strings.now privates.now dictionary.now out.items) }
    ensures refused { IfErr result (λ e. e ≢ errors.Memory → IsRead font.now → SelectsOnlyIfKeyed font.now glyphs.now →
        (codes : List (List ℕ)) → HasRoom font.now glyphs.now codes →
        HasFew font.now codes char_strings.now (privates_text privates.now) →
        AreOwnPrivates (parts_shown font.now.parts.items) privates.now → IsSomeDictionary dictionary.now →
        length dictionary.now ≤ length font.now.bytes.now + places_size (all_renamed glyphs.now.strings font.now.dictionary) → ⊥) }
{
    let single = names_private(&glyphs.select, privates);
    let text = join_privates(alloc, privates)?;
    let draft = font_array(alloc, font, glyphs, privates, 0)?;
    let pieces = pieces_of(glyphs, char_strings, single, &text, &draft);
    let tables = tables_of(alloc, font, dictionary, glyphs, &pieces, 0)?;
    let start = tables.len();
    let place = private_place(glyphs, char_strings, start);
    let array = font_array(alloc, font, glyphs, privates, place)?;
    let pieces = pieces_of(glyphs, char_strings, single, &text, &array);
    let mut out = tables_of(alloc, font, dictionary, glyphs, &pieces, start)?;
    put_pieces(&mut out, &pieces)?;
    Ok(out)
}

/// A font with these charstrings and without subroutines.
pub(crate) fn write_font(
    alloc: Global,
    font: &FontView<'_>,
    glyphs: &Glyphs,
    codes: &[Vec<u8>],
) -> Result<Vec<u8>>
    ensures written { IfOk result (λ out. IsPutTogether font.now glyphs.now (texts codes.now) out.items) }
    ensures refused { IfErr result (λ e. e ≢ errors.Memory → IsRead font.now → SelectsOnlyIfKeyed font.now glyphs.now →
        HasRoom font.now glyphs.now (texts codes.now) → ⊥) }
{
    let mut char_strings = Vec::new(alloc);
    put_index(&mut char_strings, codes)?;
    let privates = own_privates(alloc, font)?;
    let dictionary = dictionary_with(alloc, font, &glyphs.strings)?;
    put_together(alloc, font, glyphs, &char_strings, &privates, &dictionary)
}
