//! The part of an invalid `CFF ` table that has the error.
use crate::weight::dictionary_of;
use postscript_base::Error;
use postscript_base::compact1::{Operations, Operator};
use postscript_base::index::IndexView;
use postscript_compact1::font_set::operands::{bounds, place_at};
use postscript_view::tables::{header_size, operations_of, slice_at};
use psotf_output::rules::Spot;
use std::alloc::Global;

fn spot_at(part: &'static str, place: u64) -> Spot {
    Spot {
        part,
        place: Some(place),
    }
}

/// Returns a part that a DICT should name.
fn spot_of_part(part: &'static str) -> Spot {
    Spot { part, place: None }
}

/// The INDEXes after the header, in their order.
const BEHIND_THE_HEADER: [&str; 4] = [
    "the Name INDEX",
    "the Top DICT INDEX",
    "the String INDEX",
    "the Global Subr INDEX",
];

/// Returns the part in which the in-place reader rejects a table.
pub fn spot_of(alloc: Global, cff: &[u8]) -> Spot {
    let Ok(size) = header_size(cff) else {
        return spot_at("the header", 0);
    };
    let mut place = size;
    for part in &BEHIND_THE_HEADER {
        match IndexView::open(cff, place) {
            Ok((_items, next)) => place = next,
            Err(_) => return spot_at(*part, place as u64),
        }
    }
    in_dictionary(alloc, cff, size)
}

/// Continues in the Top DICT INDEX. All INDEXes after the header are well formed.
fn in_dictionary(alloc: Global, cff: &[u8], start: usize) -> Spot {
    let Ok((_names, place)) = IndexView::open(cff, start) else {
        return spot_at("the Name INDEX", start as u64);
    };
    let Ok((dictionaries, _next)) = IndexView::open(cff, place) else {
        return spot_at("the Top DICT INDEX", place as u64);
    };
    let Some(item) = dictionaries.get(0) else {
        return spot_at("the Top DICT", place as u64);
    };
    match operations_of(alloc, item) {
        Ok(dictionary) => in_parts(alloc, cff, &dictionary),
        Err(_) => spot_at("the Top DICT", place as u64),
    }
}

/// Continues in the parts that the Top DICT names.
fn in_parts(alloc: Global, cff: &[u8], dictionary: &Operations) -> Spot {
    let Ok(place) = place_at(0, 0, dictionary, Operator::CharStrings) else {
        return spot_of_part("the operator CharStrings of the Top DICT");
    };
    if place > cff.len() as u64 || IndexView::open(cff, place as usize).is_err() {
        return spot_at("the CharStrings INDEX", place);
    }
    if dictionary.get(Operator::ROS).is_some() {
        return match place_at(0, 0, dictionary, Operator::FDArray) {
            Ok(place) => spot_at("the Font DICT INDEX", place),
            Err(_) => spot_of_part("the operator FDArray of the Top DICT"),
        };
    }
    let Ok((size, _offset, place)) = bounds(0, dictionary) else {
        return spot_of_part("the operator Private of the Top DICT");
    };
    match slice_at(cff, place, size) {
        Ok(text) => in_private(alloc, place, text),
        Err(_) => spot_at("the Private DICT", place),
    }
}

/// Continues in the Private DICT, whose bytes are within the table.
fn in_private(alloc: Global, place: u64, text: &[u8]) -> Spot {
    match operations_of(alloc, text) {
        Ok(_dictionary) => spot_at("the local subroutines of the Private DICT", place),
        Err(_) => spot_at("the Private DICT", place),
    }
}

/// The part that begins last, among those that begin at or before `place`.
#[derive(Clone, Copy)]
struct Last {
    place: u64,
    part: &'static str,
    start: u64,
}

impl Last {
    /// Records a part. Offsets below 4 are no parts: predefined charsets and encodings have such numbers.
    fn see(&mut self, part: &'static str, start: u64) {
        if start > 3 && self.start < start && start <= self.place {
            self.part = part;
            self.start = start;
        }
    }

    /// Records the INDEXes after the header, as far as they are well formed.
    fn see_indexes(&mut self, cff: &[u8]) {
        let mut place = header_size(cff).unwrap_or(0);
        for part in &BEHIND_THE_HEADER {
            self.see(*part, place as u64);
            let Ok((_items, next)) = IndexView::open(cff, place) else {
                break;
            };
            place = next;
        }
    }

    /// Records the part that an operator names.
    fn see_one(&mut self, part: &'static str, dictionary: &Operations, operator: Operator) {
        if let Ok(place) = place_at(0, 0, dictionary, operator) {
            self.see(part, place);
        }
    }

    /// Records the parts that a DICT names.
    fn see_named(&mut self, dictionary: &Operations) {
        self.see_one("the charset", dictionary, Operator::CharSet);
        self.see_one("the encoding", dictionary, Operator::Encoding);
        self.see_one("the CharStrings INDEX", dictionary, Operator::CharStrings);
        self.see_one("FDSelect", dictionary, Operator::FDSelect);
        self.see_one("the Font DICT INDEX", dictionary, Operator::FDArray);
    }

    /// Records the Private DICT that a DICT names, and its local subroutines.
    fn see_private(&mut self, alloc: Global, cff: &[u8], dictionary: &Operations) {
        let Ok((size, offset, place)) = bounds(0, dictionary) else {
            return;
        };
        self.see("the Private DICT", place);
        let Ok(text) = slice_at(cff, place, size) else {
            return;
        };
        if let Some(place) = subroutines_at(alloc, text, offset) {
            self.see("the Local Subr INDEX", place);
        }
    }
}

/// Returns the offset of the local subroutines of a Private DICT with these bytes.
fn subroutines_at(alloc: Global, text: &[u8], offset: u32) -> Option<u64> {
    let dictionary = operations_of(alloc, text).ok()?;
    place_at(0, offset, &dictionary, Operator::Subrs).ok()
}

/// Returns the known part of the first font that begins last before an offset.
fn part_at(alloc: Global, cff: &[u8], place: u64) -> &'static str {
    let mut last = Last {
        place,
        part: "the header",
        start: 0,
    };
    last.see_indexes(cff);
    if let Some(dictionary) = dictionary_of(alloc, cff) {
        last.see_named(&dictionary);
        last.see_private(alloc, cff, &dictionary);
    }
    last.part
}

/// Returns the DICT that an error is about, if it is about an operator or its operands.
fn dictionary_at(error: &Error) -> Option<&'static str> {
    match error {
        Error::MissingOperation(Operator::Subrs) | Error::MalformedOperation(Operator::Subrs) => {
            Some("the Private DICT")
        }
        Error::MissingOperation(_) | Error::MalformedOperation(_) => { Some("the Top DICT") }
        Error::UnknownCharStringFormat | Error::OutOfRangeOffset | Error::Unsupported(_) => {
            Some("the Top DICT")
        }
        _ => None,
    }
}

/// Returns the part in which a reader of the whole table failed. `place` is the position of the reader. It is a DICT if
/// the error is about an operator, and otherwise the part that begins last before `place`.
pub fn spot_by(alloc: Global, cff: &[u8], error: &Error, place: u64) -> Spot {
    match dictionary_at(error) {
        Some(part) => spot_of_part(part),
        None => spot_at(part_at(alloc, cff, place), place),
    }
}
