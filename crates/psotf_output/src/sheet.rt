//! Lines of JSON.
use crate::failure::Failure;
use crate::telling;
use crate::text::Text;
use json::{Writer, is_number};
use postscript_base::compact1;
use postscript_outline::{Bounds, Point, Segment};
use postscript_sfnt::Name;
use postscript_text::decimal;
use postscript_type2::Operand;
use std::alloc::{AllocError, Global};
use std::fmt::Display;
use std::io::Write;
use std::mem;

/// The most numbers and lists of a line that are kept while a list is printed.
const PIECE: u64 = 4_096;

/// The most letters of a name.
const LETTERS: usize = 1_000;

/// Adds a name. A long name is cut.
pub fn put_name(text: &mut Text, name: Option<Name<'_>>) {
    if let Some(name) = name {
        for (i, char) in name.chars().enumerate() {
            if i < LETTERS {
                text.push(char);
            }
        }
    }
}

/// A line of JSON, written token by token. After a failed allocation it takes no more tokens, and fails at its end.
#[derive(Drop)]
pub struct Sheet {
    alloc: Global,
    json: Writer<Global>,
    text: Text,
    failed: bool,
    /// The numbers and lists since a piece was printed.
    tokens: u64,
}

impl Sheet {
    /// Returns an empty line.
    pub fn new(alloc: Global) -> Sheet {
        Sheet {
            alloc,
            json: Writer::new(Vec::new(alloc)),
            text: Text::new(alloc),
            failed: false,
            tokens: 0,
        }
    }

    /// Begins an object.
    pub fn begin_object(&mut self) {
        if !self.failed {
            self.failed = self.json.begin_object().is_err();
        }
    }

    /// Ends an object.
    pub fn end_object(&mut self) {
        if !self.failed {
            self.failed = self.json.end_object().is_err();
        }
    }

    /// Begins a list.
    pub fn begin_array(&mut self) {
        self.tokens = self.tokens.saturating_add(1);
        if !self.failed {
            self.failed = self.json.begin_array().is_err();
        }
    }

    /// Ends a list.
    pub fn end_array(&mut self) {
        if !self.failed {
            self.failed = self.json.end_array().is_err();
        }
    }

    /// Writes the key of a member.
    pub fn key(&mut self, key: &str) {
        if !self.failed {
            self.failed = self.json.key(key).is_err();
        }
    }

    /// Writes a number.
    pub fn u64(&mut self, n: u64) {
        if !self.failed {
            self.failed = self.json.u64(n).is_err();
        }
    }

    /// Writes a number that may be negative.
    pub fn i64(&mut self, n: i64) {
        if !self.failed {
            self.failed = self.json.i64(n).is_err();
        }
    }

    /// Writes a string.
    pub fn string(&mut self, text: &str) {
        if !self.failed {
            self.failed = self.json.string(text).is_err();
        }
    }

    /// Writes null.
    pub fn null(&mut self) {
        if !self.failed {
            self.failed = self.json.null().is_err();
        }
    }

    /// Writes a number, or null.
    pub fn u64_or_null(&mut self, n: Option<u64>) {
        match n {
            Some(n) => self.u64(n),
            None => self.null(),
        }
    }

    /// Writes a member with a number.
    pub fn number(&mut self, key: &str, n: u64) {
        self.key(key);
        self.u64(n);
    }

    /// Writes a member with a string.
    pub fn text(&mut self, key: &str, text: &str) {
        self.key(key);
        self.string(text);
    }

    /// Writes a member with a Boolean value.
    pub fn flag(&mut self, key: &str, is_so: bool) {
        self.key(key);
        if !self.failed {
            self.failed = self.json.boolean(is_so).is_err();
        }
    }

    /// Writes a member with a value as a string.
    pub fn tell<T: Display>(&mut self, key: &str, value: &T) {
        self.key(key);
        self.put_display(value);
    }

    /// Writes a key, and begins a list.
    pub fn begin_list(&mut self, key: &str) {
        self.key(key);
        self.begin_array();
    }

    /// Writes a key, and begins an object.
    pub fn begin_member(&mut self, key: &str) {
        self.key(key);
        self.begin_object();
    }

    /// Writes a list of numbers.
    pub fn numbers(&mut self, numbers: &[u64]) {
        self.begin_array();
        for number in numbers {
            self.u64(*number);
        }
        self.end_array();
    }

    /// Writes a list of a string and two numbers.
    pub fn put_entry(&mut self, name: &str, first: u64, second: u64) {
        self.begin_array();
        self.string(name);
        self.u64(first);
        self.u64(second);
        self.end_array();
    }

    /// Writes a text that was built elsewhere.
    pub fn put(&mut self, text: &Text) {
        self.string(text.as_str());
        self.failed |= text.has_failed();
    }

    /// Writes the text that was built in `self.text`.
    fn put_own(&mut self) {
        if !self.failed {
            self.failed = self.json.string(self.text.as_str()).is_err();
        }
    }

    /// Writes a value as a string.
    pub fn put_display<T: Display>(&mut self, value: &T) {
        self.text.clear();
        self.text.write_fmt(value);
        self.put_own();
    }

    /// Writes the number that was built in `self.text`, or the text as a string if it is no JSON number.
    fn put_number(&mut self) {
        if self.failed {
            return;
        }
        let text = self.text.as_str();
        self.failed = if is_number(text) {
            self.json.number(text).is_err()
        } else {
            self.json.string(text).is_err()
        };
    }

    /// Writes a number in 65536ths as an exact decimal.
    pub fn bits(&mut self, bits: i64) {
        self.tokens = self.tokens.saturating_add(1);
        self.text.clear();
        decimal::put_bits(&mut self.text, bits);
        self.put_number();
    }

    /// Writes bytes as a string.
    pub fn bytes(&mut self, bytes: &[u8]) {
        self.text.clear();
        self.text
            .put_made(String::from_utf8_lossy(self.alloc, bytes));
        self.put_own();
    }

    /// Writes bytes as a string, or null.
    pub fn bytes_or_null(&mut self, bytes: Option<&[u8]>) {
        match bytes {
            Some(bytes) => self.bytes(bytes),
            None => self.null(),
        }
    }

    /// Writes bytes in hexadecimal.
    pub fn hex(&mut self, bytes: &[u8]) {
        self.text.clear();
        self.text.put_hex(bytes);
        self.put_own();
    }

    /// Writes a character as `U+` and its number.
    pub fn character(&mut self, char: u32) {
        self.text.clear();
        self.text.put_character(char);
        self.put_own();
    }

    /// Writes bytes as a string without control characters.
    pub fn printable(&mut self, bytes: &[u8]) {
        self.text.clear();
        self.text.put_printable(self.alloc, bytes);
        self.put_own();
    }

    /// Writes an operand of a DICT as a number.
    pub fn decimal(&mut self, operand: &compact1::Operand) {
        self.text.clear();
        decimal::put(&mut self.text, operand);
        self.put_number();
    }

    /// Writes an operation as a list of the operator's name and its operands.
    pub fn operation(&mut self, name: &str, operands: &[Operand]) {
        self.begin_array();
        self.string(name);
        for operand in operands {
            self.bits(i64::from(operand.bits()));
        }
        self.end_array();
    }

    /// Writes a member with a name of the font, or null.
    pub fn name(&mut self, key: &str, name: Option<Name<'_>>) {
        self.key(key);
        if name.is_none() {
            return self.null();
        }
        self.text.clear();
        put_name(&mut self.text, name);
        self.put_own();
    }

    /// Writes the coordinates of a point.
    fn point(&mut self, at: Point) {
        self.bits(i64::from(at.x));
        self.bits(i64::from(at.y));
    }

    /// Writes a member with bounds, as a list of four numbers, or null.
    pub fn bounds(&mut self, key: &str, bounds: Option<Bounds>) {
        self.key(key);
        let Some(Bounds { low, high }) = bounds else {
            return self.null();
        };
        self.begin_array();
        self.point(low);
        self.point(high);
        self.end_array();
    }

    /// Writes a list of a letter and coordinates.
    fn points(&mut self, letter: &str, points: &[Point]) {
        self.begin_array();
        self.string(letter);
        for point in points {
            self.point(*point);
        }
        self.end_array();
    }

    /// Writes a segment as a list of its letter and its coordinates.
    fn segment(&mut self, segment: Segment) {
        match segment {
            Segment::MoveTo(at) => self.points("M", &[at]),
            Segment::LineTo(at) => self.points("L", &[at]),
            Segment::CurveTo(first, second, at) => self.points("C", &[first, second, at]),
            Segment::Close => self.points("Z", &[]),
        }
    }

    /// Prints a member with a list of segments, piece by piece.
    pub fn segments<W: Write>(
        &mut self,
        key: &str,
        segments: &[Segment],
        out: &mut W,
    ) -> Result<(), Failure> {
        self.begin_list(key);
        for (i, segment) in segments.iter().enumerate() {
            if i > 0 {
                self.next_item(out)?;
            }
            self.segment(*segment);
        }
        self.end_array();
        Ok(())
    }

    /// Returns a number that took memory to find. After a failed allocation it is 0, and the line fails.
    pub fn found(&mut self, number: Result<u64, AllocError>) -> u64 {
        self.text.found(number)
    }

    /// Marks the line as failed.
    pub fn fail(&mut self) {
        self.failed = true;
    }

    /// Takes the bytes of the line, and leaves an empty line.
    fn take(&mut self) -> Result<Vec<u8>, AllocError> {
        if self.failed || self.text.has_failed() {
            return Err(AllocError);
        }
        let empty = Writer::new(Vec::new(self.alloc));
        Ok(mem::replace(&mut self.json, empty).into_inner())
    }

    /// Begins an empty line in the memory of another.
    fn begin_on(&mut self, line: Vec<u8>) {
        let mut bytes = line;
        bytes.clear();
        self.json = Writer::new(bytes);
    }

    /// Prints what the line has so far, if it is long. The next token is another item of a list.
    pub fn next_item<W: Write>(&mut self, out: &mut W) -> Result<(), Failure> {
        if self.tokens < PIECE {
            return Ok(());
        }
        self.tokens = 0;
        let mut line = self.take()?;
        line.push(b',')?;
        telling::put(out, &line)?;
        self.begin_on(line);
        Ok(())
    }

    /// Adds the line to a page, and begins another in the same memory. It escapes `<`, which could end the block of
    /// JSON.
    pub fn end_in(&mut self, page: &mut Vec<u8>) -> Result<(), AllocError> {
        let bytes = self.take()?;
        for byte in &bytes {
            if *byte == b'<' {
                page.extend_from_slice(b"\\u003c")?;
            } else {
                page.push(*byte)?;
            }
        }
        self.begin_on(bytes);
        Ok(())
    }

    /// Prints the line, and begins another in the same memory.
    pub fn end<W: Write>(&mut self, out: &mut W) -> Result<(), Failure> {
        let mut bytes = self.take()?;
        bytes.push(b'\n')?;
        telling::put(out, &bytes)?;
        self.begin_on(bytes);
        Ok(())
    }
}
