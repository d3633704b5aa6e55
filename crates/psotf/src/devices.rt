//! Device tables of a `GPOS` table, which adjust positions at some sizes in pixels (OpenType 1.9, "Device and VariationIndex
//! Tables").
use postscript_base::index::number::number_within;

/// The most numbers that are read.
const MOST: u64 = 2_000_000;

/// The bits of a value format for device tables.
const DEVICES: usize = 0xf0;

/// The lookup type of extensions.
const EXTENSION: usize = 9;

/// A search in a table. After `left` numbers, all further ones are read as 0.
#[derive(Drop)]
struct Search<'t> {
    table: &'t [u8],
    left: u64,
}

impl Search<'_> {
    /// Returns whether another number may be read, and counts it.
    fn goes_on(&mut self) -> bool {
        if self.left == 0 {
            return false;
        }
        self.left -= 1;
        true
    }

    /// Returns the number of two bytes at an offset after a place, or 0 past the end.
    fn word(&mut self, place: usize, offset: usize) -> usize {
        if !self.goes_on() {
            return 0;
        }
        number_within(self.table, place.saturating_add(offset), 2).unwrap_or(0)
    }

    /// Returns the number of four bytes at an offset after a place, or 0 past the end.
    fn long(&mut self, place: usize, offset: usize) -> usize {
        if !self.goes_on() {
            return 0;
        }
        number_within(self.table, place.saturating_add(offset), 4).unwrap_or(0)
    }

    /// Returns the place to which the offset at a place points.
    fn target(&mut self, base: usize, offset: usize) -> usize {
        base.saturating_add(self.word(base, offset))
    }

    /// Returns whether an anchor has a device table.
    fn in_anchor(&mut self, anchor: usize) -> bool {
        self.word(anchor, 0) == 3 && (self.word(anchor, 6) != 0 || self.word(anchor, 8) != 0)
    }

    /// Returns whether one of some anchors has a device table. Their offsets begin after `skipped` bytes, one every `step`
    /// bytes.
    fn in_anchors(&mut self, base: usize, skipped: usize, step: usize, count: usize) -> bool {
        for i in 0..count.min(self.left as usize) {
            let offset = self.word(base, skipped.saturating_add(i.saturating_mul(step)));
            if offset != 0 && self.in_anchor(base.saturating_add(offset)) {
                return true;
            }
        }
        false
    }

    /// Returns whether an anchor of a mark has a device table.
    fn in_marks(&mut self, subtable: usize) -> bool {
        let marks = self.target(subtable, 8);
        let count = self.word(marks, 0);
        self.in_anchors(marks, 4, 4, count)
    }

    /// Returns whether an anchor of a list of bases, marks or components has a device table.
    fn in_rows(&mut self, rows: usize, classes: usize) -> bool {
        let count = self.word(rows, 0).saturating_mul(classes);
        self.in_anchors(rows, 2, 2, count)
    }

    /// Returns whether an anchor of a ligature has a device table.
    fn in_ligatures(&mut self, subtable: usize) -> bool {
        let list = self.target(subtable, 10);
        let classes = self.word(subtable, 6);
        for i in 0..self.word(list, 0).min(0xffff) {
            let rows = self.target(list, 2 + 2 * i);
            if self.in_rows(rows, classes) {
                return true;
            }
        }
        false
    }

    /// Returns whether an anchor of a base has a device table.
    fn in_bases(&mut self, subtable: usize) -> bool {
        let bases = self.target(subtable, 10);
        let classes = self.word(subtable, 6);
        self.in_rows(bases, classes)
    }

    /// Returns whether a cursive attachment has a device table.
    fn in_cursive(&mut self, subtable: usize) -> bool {
        let count = self.word(subtable, 4).saturating_mul(2);
        self.in_anchors(subtable, 6, 2, count)
    }

    /// Returns the type and the place of a subtable. An extension has those of the subtable that it names.
    fn resolved(&mut self, kind: usize, subtable: usize) -> (usize, usize) {
        if kind != EXTENSION {
            return (kind, subtable);
        }
        let kind = self.word(subtable, 2);
        let offset = self.long(subtable, 4);
        (kind, subtable.saturating_add(offset))
    }

    /// Returns whether a subtable of a type has device tables, or, for adjustments, values that may have some.
    fn in_subtable(&mut self, kind: usize, subtable: usize) -> bool {
        let (kind, subtable) = self.resolved(kind, subtable);
        match kind {
            1 => self.word(subtable, 4) & DEVICES != 0,
            2 => (self.word(subtable, 4) | self.word(subtable, 6)) & DEVICES != 0,
            3 => self.in_cursive(subtable),
            4 | 6 => self.in_marks(subtable) || self.in_bases(subtable),
            5 => self.in_marks(subtable) || self.in_ligatures(subtable),
            _ => false,
        }
    }

    /// Returns whether a lookup has device tables.
    fn in_lookup(&mut self, lookup: usize) -> bool {
        let kind = self.word(lookup, 0);
        for i in 0..self.word(lookup, 4).min(0xffff) {
            let subtable = self.target(lookup, 6 + 2 * i);
            if self.in_subtable(kind, subtable) {
                return true;
            }
        }
        false
    }
}

/// Returns whether a `GPOS` table has device tables, as far as a search of bounded length finds them.
pub fn has_devices(gpos: &[u8]) -> bool {
    let mut search = Search {
        table: gpos,
        left: MOST,
    };
    let list = search.target(0, 8);
    for i in 0..search.word(list, 0).min(0xffff) {
        let lookup = search.target(list, 2 + 2 * i);
        if search.in_lookup(lookup) {
            return true;
        }
    }
    false
}
