//! The characters of names.

use crate::names::Name;
use crate::names::roman::roman;
use crate::names::utf16::first_char;

/// An iterator over the characters of a name. It is made by [`Name::chars`].
#[derive(Drop)]
pub struct NameChars<'l> {
    pub(crate) name: Name<'l>,
}

impl<'l> Iterator for NameChars<'l> {
    type Item = char;

    ghost use Rattle.std.specs.Iterator.{at_most};
    ghost use Rattle.postscript_sfnt.specs.NameChars.{StepsName, bytes_left};

    ghost next_gives = { StepsName };

    ghost remaining = { λ left. at_most (bytes_left left) };

    /// Returns the next character, or `None` at the end. In UTF-16 a single byte at the end is ignored.
    fn next(&mut self) -> Option<char> {
        match self.name {
            Name::Utf16(bytes) => {
                if bytes.len() < 2 {
                    return None;
                }
                let (char, size) = first_char(bytes);
                self.name = Name::Utf16(&bytes[size..]);
                Some(char)
            }
            Name::MacRoman(bytes) => {
                if bytes.is_empty() {
                    return None;
                }
                self.name = Name::MacRoman(&bytes[1..]);
                Some(roman(bytes[0]))
            }
        }
    }
}
