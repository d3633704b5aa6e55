//! The pages of a report: their glyphs and their names.
use super::short;
use postscript_sfnt::CharacterMap;
use psotf_output::sheet::Sheet;
use psotf_output::text::Text;
use std::alloc::{AllocError, Global};
use std::ops::Range;

/// The most glyphs of a page. A browser opens this number within a second or two.
pub const MOST: u16 = 10_000;

/// The most pages.
pub const PAGES: u16 = 7;

/// The pages of a report about a range of glyphs.
#[derive(Clone, Copy)]
pub struct Pages<'w> {
    /// The path of the first page.
    pub path: &'w str,
    /// The index of the font in the file.
    pub face: u16,
    pub first: u16,
    /// The number after the last glyph.
    pub end: u16,
}

impl<'w> Pages<'w> {
    /// Returns the glyphs of the page that begins with `first`.
    pub fn glyphs(&self, first: u16) -> Range<u16> {
        first..self.end.min(first.saturating_add(MOST))
    }

    /// Returns the first glyph of a page. Returns `None` if there are fewer pages. There is always one.
    pub fn first_of(&self, page: u16) -> Option<u16> {
        let first = self.first.saturating_add(page.saturating_mul(MOST));
        if page == 0 || first < self.end {
            Some(first)
        } else {
            None
        }
    }

    /// Returns the path of the page that begins with `first`. The first page has the path in the arguments, and the
    /// others are next to it.
    pub fn path_of(&self, alloc: Global, first: u16) -> Result<String, AllocError> {
        if first == self.first {
            return String::from_str(alloc, self.path);
        }
        let (stem, end) = match self.path.strip_suffix(".html") {
            Some(stem) => (stem, ".html"),
            None => (self.path, ""),
        };
        format!(in alloc; "{stem}-{first}{end}")
    }

    /// Writes the file name of a page, its first glyph and the number after its last.
    fn put_page(&self, alloc: Global, sheet: &mut Sheet, first: u16) {
        let end = self.glyphs(first).end;
        match self.path_of(alloc, first) {
            Ok(path) => sheet.put_entry(name_of(path.as_str()), u64::from(first), u64::from(end)),
            Err(_) => sheet.fail(),
        }
    }

    /// Writes the file name of each page, its first glyph and the number after its last.
    pub fn put(&self, alloc: Global, sheet: &mut Sheet) {
        sheet.begin_list("pages");
        for page in 0..PAGES {
            if let Some(first) = self.first_of(page) {
                self.put_page(alloc, sheet, first);
            }
        }
        sheet.end_array();
    }
}

/// Returns a file name without its folder.
fn name_of(path: &str) -> &str {
    match path.rsplit_once('/') {
        Some((_, name)) => name,
        None => path,
    }
}

/// Consecutive characters with consecutive glyphs.
#[derive(Clone, Copy)]
struct Run {
    char: u32,
    glyph: u16,
    count: u32,
}

impl Run {
    /// Returns whether a character continues the run.
    fn goes_on(&self, char: u32, glyph: u16) -> bool {
        let count = u64::from(self.count);
        u64::from(char) == u64::from(self.char).saturating_add(count)
            && u64::from(glyph) == u64::from(self.glyph).saturating_add(count)
    }

    /// Adds the run, if it is not empty: its first character, its first glyph and its length.
    fn put(&self, text: &mut Text) {
        if self.count > 0 {
            short::put(text, i64::from(self.char));
            short::put(text, i64::from(self.glyph));
            short::put(text, i64::from(self.count));
        }
    }
}

/// Writes the glyph of each character, as one string of runs.
pub fn put_index(alloc: Global, sheet: &mut Sheet, map: &Option<CharacterMap<'_>>) {
    let mut text = Text::new(alloc);
    if let Some(map) = map {
        put_runs(&mut text, map);
    }
    sheet.key("index");
    sheet.put(&text);
}

/// Adds the runs of a character map.
fn put_runs(text: &mut Text, map: &CharacterMap<'_>) {
    let mut run = Run {
        char: 0,
        glyph: 0,
        count: 0,
    };
    let mut from = 0u32;
    for _ in 0..0x110000u32 {
        let Some((char, glyph)) = map.next_char(from) else {
            break;
        };
        if !run.goes_on(char, glyph) {
            run.put(text);
            run = Run {
                char,
                glyph,
                count: 0,
            };
        }
        run.count = run.count.saturating_add(1);
        from = char.saturating_add(1);
    }
    run.put(text);
}
