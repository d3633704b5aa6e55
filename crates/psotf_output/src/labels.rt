//! Labels of cells, in a monospaced font.
use crate::text::Text;

/// The most letters of a line.
const LETTERS: usize = 17;

/// The lines of a cell, from top to bottom.
#[derive(Drop)]
pub struct Labels<'p> {
    pub picture: &'p mut Text,
    /// The height of a line.
    pub size: u64,
    /// The distance of the next line from the top of the cell.
    pub y: u64,
}

/// Adds a character of XML text. It escapes `<` and `&`, and replaces characters outside ASCII by `?`.
fn put_char(picture: &mut Text, char: char) {
    match char {
        '<' => picture.push_str("&lt;"),
        '&' => picture.push_str("&amp;"),
        ' '..='\u{7e}' => picture.push(char),
        _ => picture.push('?'),
    }
}

/// Adds a text as XML.
fn put_text(picture: &mut Text, text: &str) {
    for char in text.chars() {
        put_char(picture, char);
    }
}

impl<'p> Labels<'p> {
    fn begin(&mut self) {
        self.picture.push_str("<text y=\"");
        self.picture.put_number(self.y);
        self.picture.push_str("\">");
        self.y = self.y.saturating_add(self.size);
    }

    fn end(&mut self) {
        self.picture.push_str("</text>");
    }

    /// Adds a line with a number.
    pub fn number(&mut self, number: u64) {
        self.begin();
        self.picture.put_number(number);
        self.end();
    }

    /// Adds a line with a text, truncated if it is too long.
    pub fn cut(&mut self, text: &str) {
        self.begin();
        for (i, char) in text.chars().enumerate() {
            if i < LETTERS {
                put_char(self.picture, char);
            }
        }
        self.end();
    }

    /// Adds a text, wrapped at spaces.
    pub fn put_wrapped(&mut self, text: &str) {
        self.begin();
        let mut len = 0usize;
        for word in text.split(' ') {
            if len > 0 && len.saturating_add(word.len()) >= LETTERS {
                self.end();
                self.begin();
                len = 0;
            }
            if len > 0 {
                self.picture.push(' ');
                len = len.saturating_add(1);
            }
            put_text(self.picture, word);
            len = len.saturating_add(word.len());
        }
        self.end();
    }
}
