//! The `GDEF` and `GPOS` tables of an instance (OpenType 1.9). The delta of each number is added to the number, and the
//! offset of its device table becomes 0. The device table is removed. An anchor without device tables takes the shorter
//! format. If a part of `GPOS` is unknown, no bytes are removed.
use crate::face::VariableFace;
use crate::gaps::Gaps;
use crate::location::Location;
use crate::made::Made;
use crate::values::{set_signed, set_word, word};
use postscript_base::index::number::number_within;
use postscript_variation::{Store, in_whole};
use std::alloc::{AllocError, Global};

/// The most steps for one table.
const STEPS: u64 = 50_000_000;

/// The format of a device table with variations (VariationIndex).
const VARIATIONS: usize = 0x8000;

/// The bits of a value format: of a number, and of its device table.
const PARTS: [(u16, u16); 4] = [(0x01, 0x10), (0x02, 0x20), (0x04, 0x40), (0x08, 0x80)];

/// Returns the sum of two offsets.
fn add_offsets(place: usize, more: usize) -> usize {
    place.saturating_add(more)
}

/// Returns the offset after `count` two-byte numbers.
fn words(place: usize, count: usize) -> usize {
    place.saturating_add(count.saturating_mul(2))
}

/// Returns the offset of the offset field of a record with a tag, in a list that begins with a count.
fn record(list: usize, i: usize) -> usize {
    add_offsets(list, i.saturating_mul(6).saturating_add(6))
}

/// Returns the size of the fields of a value format before the field of a bit.
fn room(format: u16, bit: u16) -> usize {
    let mut room = 0usize;
    let mut other = 1u16;
    for _ in 0..8 {
        if other < bit && format & other != 0 {
            room = room.saturating_add(2);
        }
        other = other.saturating_mul(2);
    }
    room
}

/// A table whose numbers take their values at a location.
#[derive(Drop)]
struct Varied<'v> {
    bytes: Vec<u8>,
    gaps: Gaps,
    store: Store<'v>,
    coordinates: &'v [i16],
    /// The number of steps that are left.
    steps: u64,
    /// Whether a delta has no number to be added to, or there are too many steps.
    is_over: bool,
}

impl<'v> Varied<'v> {
    /// Returns a two-byte number, or 0 if the table is truncated.
    fn word(&self, place: usize) -> usize {
        number_within(&self.bytes, place, 2).unwrap_or(0)
    }

    /// Returns the offset of the table that is named at `place`. Returns `None` if there is none.
    fn table_at(&mut self, parent: usize, place: usize) -> Option<usize> {
        self.gaps.offset(parent, place);
        match self.word(place) {
            0 => None,
            offset => Some(add_offsets(parent, offset)),
        }
    }

    /// Takes steps.
    fn take(&mut self, steps: u64) {
        if self.steps < steps {
            self.is_over = true;
        }
        self.steps = self.steps.saturating_sub(steps);
    }

    /// Returns the offset of the table that is named at `place`, and takes a step. Returns `None` if there is none, or
    /// if there are too many steps.
    fn follow(&mut self, parent: usize, place: usize) -> Option<usize> {
        self.take(1);
        if self.is_over {
            return None;
        }
        self.table_at(parent, place)
    }

    /// Returns the delta of a device table, rounded to the nearest unit. Returns `None` if it has no variations.
    fn rounded_delta(&mut self, device: usize) -> Option<i64> {
        if self.word(add_offsets(device, 4)) != VARIATIONS {
            return None;
        }
        let (outer, inner) = (self.word(device), self.word(add_offsets(device, 2)));
        let regions = match self.store.table(outer) {
            Some(data) => data.len() as u64,
            None => 0,
        };
        self.take(regions.saturating_mul(self.coordinates.len() as u64));
        if self.is_over {
            return None;
        }
        match self.store.variation(outer, inner, self.coordinates) {
            Some(total) => Some(in_whole(total)),
            None => Some(0),
        }
    }

    /// Adds the delta of the device table that is named at `place` to a number.
    fn vary(&mut self, parent: usize, number: Option<usize>, place: usize) {
        self.take(1);
        let Some(device) = self.table_at(parent, place) else {
            return;
        };
        let Some(added) = self.rounded_delta(device) else {
            return;
        };
        match number {
            Some(number) => {
                let old = i64::from(word(&self.bytes, number).cast_signed());
                set_signed(&mut self.bytes, number, old.saturating_add(added));
            }
            None => if added != 0 {
                self.is_over = true;
            },
        }
        set_word(&mut self.bytes, place, 0);
        self.gaps.take_out(device, 6);
    }

    /// Processes a value record with a format.
    fn value(&mut self, parent: usize, place: usize, format: u16) {
        self.take(1);
        for (bit, device) in &PARTS {
            if format & *device != 0 {
                let number = if format & *bit != 0 {
                    Some(add_offsets(place, room(format, *bit)))
                } else {
                    None
                };
                self.vary(parent, number, add_offsets(place, room(format, *device)));
            }
        }
    }

    /// Processes an anchor of format 3, which becomes format 1 if it has no device tables left.
    fn anchor(&mut self, place: usize) {
        if self.word(place) != 3 {
            return;
        }
        self.vary(place, Some(add_offsets(place, 2)), add_offsets(place, 6));
        self.vary(place, Some(add_offsets(place, 4)), add_offsets(place, 8));
        if self.word(add_offsets(place, 6)) == 0 && self.word(add_offsets(place, 8)) == 0 {
            set_word(&mut self.bytes, place, 1);
            self.gaps.take_out(add_offsets(place, 6), 4);
        }
    }

    /// Processes a list of anchors.
    fn anchors(&mut self, parent: usize, place: usize, count: usize) {
        for i in 0..count {
            if self.is_over {
                return;
            }
            if let Some(anchor) = self.follow(parent, words(place, i)) {
                self.anchor(anchor);
            }
        }
    }

    /// Processes a list of pairs of value records with two formats. Each pair comes after `skip` bytes.
    fn values(
        &mut self,
        parent: usize,
        place: usize,
        count: usize,
        formats: [u16; 2],
        skip: usize,
    ) {
        let [first, second] = formats;
        let (left, right) = (room(first, 0x100), room(second, 0x100));
        let size = skip.saturating_add(left).saturating_add(right);
        for i in 0..count {
            if self.is_over {
                return;
            }
            let at = add_offsets(add_offsets(place, i.saturating_mul(size)), skip);
            self.value(parent, at, first);
            self.value(parent, add_offsets(at, left), second);
        }
    }

    /// Returns the value format at an offset.
    fn format(&self, place: usize) -> u16 {
        word(&self.bytes, place)
    }

    /// Processes a single adjustment.
    fn single(&mut self, table: usize) {
        let formats = [self.format(add_offsets(table, 4)), 0];
        match self.word(table) {
            1 => self.values(table, add_offsets(table, 6), 1, formats, 0),
            2 => {
                let count = self.word(add_offsets(table, 6));
                self.values(table, add_offsets(table, 8), count, formats, 0);
            }
            _ => self.gaps.keep_all(),
        }
    }

    /// Processes a pair adjustment.
    fn pairs(&mut self, table: usize) {
        let formats = [
            self.format(add_offsets(table, 4)),
            self.format(add_offsets(table, 6)),
        ];
        match self.word(table) {
            1 => self.pair_sets(table, formats),
            2 => self.pair_classes(table, formats),
            _ => self.gaps.keep_all(),
        }
    }

    /// Processes a pair adjustment by classes.
    fn pair_classes(&mut self, table: usize, formats: [u16; 2]) {
        self.gaps.offset(table, add_offsets(table, 8));
        self.gaps.offset(table, add_offsets(table, 10));
        let classes = self.word(add_offsets(table, 12));
        let count = classes.saturating_mul(self.word(add_offsets(table, 14)));
        self.values(table, add_offsets(table, 16), count, formats, 0);
    }

    /// Processes a pair adjustment by glyphs.
    fn pair_sets(&mut self, table: usize, formats: [u16; 2]) {
        for i in 0..self.word(add_offsets(table, 8)) {
            if let Some(set) = self.follow(table, words(add_offsets(table, 10), i)) {
                let count = self.word(set);
                self.values(set, add_offsets(set, 2), count, formats, 2);
            }
        }
    }

    /// Processes marks and their anchors.
    fn marks(&mut self, table: usize) {
        for i in 0..self.word(table) {
            if let Some(anchor) = self.follow(
                table,
                words(add_offsets(table, 4), i.saturating_mul(2)),
            ) {
                self.anchor(anchor);
            }
        }
    }

    /// Processes bases, or components of a ligature, with an anchor for each mark class.
    fn bases(&mut self, table: usize, classes: usize) {
        let count = classes.saturating_mul(self.word(table));
        self.anchors(table, add_offsets(table, 2), count);
    }

    /// Processes ligatures and their anchors.
    fn ligatures(&mut self, table: usize, classes: usize) {
        for i in 0..self.word(table) {
            if let Some(ligature) = self.follow(table, words(add_offsets(table, 2), i)) {
                self.bases(ligature, classes);
            }
        }
    }

    /// Processes an attachment of marks to glyphs.
    fn vary_attachments(&mut self, table: usize, to_ligatures: bool) {
        self.gaps.offset(table, add_offsets(table, 4));
        let classes = self.word(add_offsets(table, 6));
        if let Some(marks) = self.table_at(table, add_offsets(table, 8)) {
            self.marks(marks);
        }
        if let Some(others) = self.table_at(table, add_offsets(table, 10)) {
            if to_ligatures {
                self.ligatures(others, classes);
            } else {
                self.bases(others, classes);
            }
        }
    }

    /// Processes a subtable of a lookup that is not an extension.
    fn vary_subtable(&mut self, kind: usize, table: usize) {
        // The coverage table.
        self.gaps.offset(table, add_offsets(table, 2));
        match kind {
            1 => self.single(table),
            2 => self.pairs(table),
            3 => {
                let count = self.word(add_offsets(table, 4)).saturating_mul(2);
                self.anchors(table, add_offsets(table, 6), count);
            }
            4 | 6 => self.vary_attachments(table, false),
            5 => self.vary_attachments(table, true),
            _ => self.gaps.keep_all(),
        }
    }

    /// Processes a subtable of a lookup.
    fn subtable(&mut self, kind: usize, table: usize) {
        if kind != 9 {
            self.vary_subtable(kind, table);
            return;
        }
        let place = add_offsets(table, 4);
        self.gaps.long_offset(table, place);
        let offset = number_within(&self.bytes, place, 4).unwrap_or(0);
        self.vary_subtable(self.word(add_offsets(table, 2)), add_offsets(table, offset));
    }

    /// Processes a lookup.
    fn lookup(&mut self, table: usize) {
        let kind = self.word(table);
        for i in 0..self.word(add_offsets(table, 4)) {
            if let Some(subtable) = self.follow(table, words(add_offsets(table, 6), i)) {
                self.subtable(kind, subtable);
            }
        }
    }

    /// Records the scripts of a `GPOS` table, and their languages.
    fn scripts(&mut self) {
        let Some(list) = self.table_at(0, 4) else {
            return;
        };
        for i in 0..self.word(list) {
            if let Some(script) = self.follow(list, record(list, i)) {
                self.gaps.offset(script, script);
                self.languages(script);
            }
        }
    }

    /// Records the languages of a script, except the default one.
    fn languages(&mut self, script: usize) {
        for i in 0..self.word(add_offsets(script, 2)) {
            self.take(1);
            if self.is_over {
                return;
            }
            self.gaps.offset(script, record(add_offsets(script, 2), i));
        }
    }

    /// Records the features of a `GPOS` table.
    fn features(&mut self) {
        let Some(list) = self.table_at(0, 6) else {
            return;
        };
        for i in 0..self.word(list) {
            if let Some(feature) = self.follow(list, record(list, i)) {
                self.gaps.offset(feature, feature);
            }
        }
    }

    /// Processes the lookups of a `GPOS` table.
    fn lookups(&mut self) {
        let Some(list) = self.table_at(0, 8) else {
            return;
        };
        for i in 0..self.word(list) {
            if let Some(lookup) = self.follow(list, words(add_offsets(list, 2), i)) {
                self.lookup(lookup);
            }
        }
    }

    /// Processes the carets of a ligature.
    fn carets(&mut self, table: usize) {
        for i in 0..self.word(table) {
            if let Some(caret) = self.follow(table, words(add_offsets(table, 2), i)) {
                if self.word(caret) == 3 {
                    self.vary(caret, Some(add_offsets(caret, 2)), add_offsets(caret, 4));
                }
            }
        }
    }

    /// Returns the largest offset of a mark glyph set of a `GDEF` table, or 0 if there are none.
    fn last_set(&self) -> usize {
        let sets = self.word(12);
        let mut last = sets;
        if sets == 0 {
            return 0;
        }
        for i in 0..self.word(add_offsets(sets, 2)) {
            let place = words(add_offsets(sets, 4), i.saturating_mul(2));
            last = last.max(add_offsets(sets, number_within(&self.bytes, place, 4).unwrap_or(0)));
        }
        last
    }

    /// Removes the variation store of a `GDEF` table, if it comes after all other tables, and these are class lists and
    /// mark glyph sets. Otherwise no bytes are removed.
    fn take_store_out(&mut self) {
        let store = number_within(&self.bytes, 14, 4).unwrap_or(0);
        let last = self.word(4).max(self.word(10)).max(self.last_set());
        if self.word(6).max(self.word(8)) != 0 || store <= last {
            self.gaps.keep_all();
        } else {
            let size = self.bytes.len().saturating_sub(store);
            self.gaps.take_out(store, size);
        }
    }

    /// Processes the ligatures of a `GDEF` table, and removes the offset of its store.
    fn definitions(&mut self) {
        self.take_store_out();
        set_word(&mut self.bytes, 14, 0);
        set_word(&mut self.bytes, 16, 0);
        let Some(list) = self.table_at(0, 8) else {
            return;
        };
        for i in 0..self.word(add_offsets(list, 2)) {
            if let Some(ligature) = self.follow(list, words(add_offsets(list, 4), i)) {
                self.carets(ligature);
            }
        }
    }

    /// Returns the table, or `None` if it was not processed completely.
    fn end(self, alloc: Global) -> Result<Option<Vec<u8>>, AllocError> {
        if self.is_over {
            return Ok(None);
        }
        Ok(Some(self.gaps.close(alloc, self.bytes)?))
    }
}

/// Returns the variation store of a `GDEF` table. Returns `None` if there is none.
fn store_of(table: &[u8]) -> Option<Store<'_>> {
    if number_within(table, 2, 2).unwrap_or(0) < 3 {
        return None;
    }
    match number_within(table, 14, 4).unwrap_or(0) {
        0 => None,
        place => Store::read(table, place).ok(),
    }
}

/// Begins to process a table.
fn begin_table<'v>(
    alloc: Global,
    table: &[u8],
    store: Store<'v>,
    coordinates: &'v [i16],
) -> Result<Varied<'v>, AllocError> {
    Ok(Varied {
        bytes: Vec::from_slice(alloc, table)?,
        gaps: Gaps::new(alloc, table.len())?,
        store,
        coordinates,
        steps: STEPS,
        is_over: false,
    })
}

/// Returns the `GDEF` table of an instance. Returns `None` if it cannot be made.
fn gdef_of(
    alloc: Global,
    table: &[u8],
    store: Store<'_>,
    coordinates: &[i16],
) -> Result<Option<Vec<u8>>, AllocError> {
    let mut gdef = begin_table(alloc, table, store, coordinates)?;
    gdef.definitions();
    gdef.end(alloc)
}

/// Returns the `GPOS` table of an instance. Returns `None` if it cannot be made.
fn gpos_of(
    alloc: Global,
    table: &[u8],
    store: Store<'_>,
    coordinates: &[i16],
) -> Result<Option<Vec<u8>>, AllocError> {
    let mut gpos = begin_table(alloc, table, store, coordinates)?;
    gpos.scripts();
    gpos.features();
    gpos.lookups();
    gpos.end(alloc)
}

/// Adds the `GDEF` and `GPOS` tables, if `GDEF` has a variation store and they can be made. `GPOS` is not added if its
/// features vary.
pub(crate) fn put(
    made: &mut Made,
    alloc: Global,
    face: &VariableFace<'_>,
    location: &Location,
) -> Result<(), AllocError> {
    let table = face.file.table(*b"GDEF").unwrap_or(&[]);
    let Some(store) = store_of(table) else {
        return Ok(());
    };
    let coordinates = location.coordinates.as_slice();
    made.put_if(*b"GDEF", gdef_of(alloc, table, store, coordinates)?)?;
    let table = face.file.table(*b"GPOS").unwrap_or(&[]);
    let minor = number_within(table, 2, 2).unwrap_or(1);
    if minor == 0 || number_within(table, 10, 4).unwrap_or(1) == 0 {
        made.put_if(*b"GPOS", gpos_of(alloc, table, store, coordinates)?)?;
    }
    Ok(())
}
