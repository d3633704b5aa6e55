//! Texts that are built piece by piece.
use postscript_sfnt::Name;
use std::alloc::{AllocError, Global};
use std::fmt::Display;

/// A text that is built piece by piece. After a failed allocation it takes nothing more, and fails at its end.
#[derive(Drop)]
pub struct Text {
    text: String,
    failed: bool,
}

impl Text {
    /// Returns an empty text.
    pub fn new(alloc: Global) -> Text {
        Text {
            text: String::new(alloc),
            failed: false,
        }
    }

    /// Removes all characters. A failure stays.
    pub fn clear(&mut self) {
        self.text.clear();
    }

    pub fn push(&mut self, char: char) {
        if !self.failed {
            self.failed = self.text.push(char).is_err();
        }
    }

    pub fn push_str(&mut self, text: &str) {
        if !self.failed {
            self.failed = self.text.push_str(text).is_err();
        }
    }

    /// Adds a value as text. `write!` and `writeln!` call this.
    pub fn write_fmt<D: Display + Drop>(&mut self, value: D) {
        if !self.failed {
            self.failed = self.text.write_fmt(value).is_err();
        }
    }

    pub fn put_number(&mut self, number: u64) {
        self.write_fmt(number);
    }

    /// Adds a line with a label and a number.
    pub fn put_count(&mut self, label: &str, count: u64) {
        self.push_str(label);
        self.push_str(": ");
        self.put_number(count);
        self.push('\n');
    }

    /// Adds a line with a label and a word.
    pub fn put_word(&mut self, label: &str, word: &str) {
        self.push_str(label);
        self.push_str(": ");
        self.push_str(word);
        self.push('\n');
    }

    /// Adds the characters of a name, if there is one.
    pub fn put_name(&mut self, name: Option<Name<'_>>) {
        if let Some(name) = name {
            for char in name.chars() {
                self.push(char);
            }
        }
    }

    /// Adds a line with a label and a name.
    pub fn put_named(&mut self, label: &str, name: Option<Name<'_>>) {
        self.push_str(label);
        self.push_str(": ");
        self.put_name(name);
        self.push('\n');
    }

    /// Adds a character as `U+` and its number.
    pub fn put_character(&mut self, char: u32) {
        write!(self, "U+{char:04X}");
    }

    /// Adds bytes in hexadecimal.
    pub fn put_hex(&mut self, bytes: &[u8]) {
        for byte in bytes {
            write!(self, "{byte:02x}");
        }
    }

    /// Adds a string that was allocated, or keeps that this failed.
    pub fn put_made(&mut self, made: Result<String, AllocError>) {
        match made {
            Ok(made) => self.push_str(made.as_str()),
            Err(_) => self.failed = true,
        }
    }

    /// Adds bytes as UTF-8. Invalid bytes become U+FFFD, and control characters become `?`.
    pub fn put_printable(&mut self, alloc: Global, bytes: &[u8]) {
        match String::from_utf8_lossy(alloc, bytes) {
            Ok(made) => {
                for char in made.as_str().chars() {
                    self.push(if char.is_control() { '?' } else { char });
                }
            }
            Err(_) => self.failed = true,
        }
    }

    /// Returns a number that took memory to find. After a failed allocation it is 0, and the text fails.
    pub fn found(&mut self, number: Result<u64, AllocError>) -> u64 {
        match number {
            Ok(number) => number,
            Err(_) => {
                self.failed = true;
                0
            }
        }
    }

    /// Marks the text as failed.
    pub fn fail(&mut self) {
        self.failed = true;
    }

    pub fn has_failed(&self) -> bool {
        self.failed
    }

    pub fn is_empty(&self) -> bool {
        self.text.is_empty()
    }

    pub fn as_str(&self) -> &str {
        self.text.as_str()
    }

    /// Returns the text.
    pub fn end(self) -> Result<String, AllocError> {
        if self.failed {
            return Err(AllocError);
        }
        Ok(self.text)
    }
}

/// Returns the characters of a name, or none.
pub fn text_of(alloc: Global, name: Option<Name<'_>>) -> Result<String, AllocError> {
    let mut text = Text::new(alloc);
    text.put_name(name);
    text.end()
}
