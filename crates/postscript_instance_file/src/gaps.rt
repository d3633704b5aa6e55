//! Removal of bytes from a table, and adjustment of the offsets across them.
use crate::values::{set_word, word};
use std::alloc::{AllocError, Global};

/// The treatment of a byte of a table.
#[derive(Clone, Copy)]
enum Byte {
    Kept,
    Gone,
    /// A two-byte offset begins here. It counts from this base.
    Offset(u32),
    /// A four-byte offset.
    LongOffset(u32),
}

/// The treatment of all bytes of a table.
#[derive(Drop)]
pub(crate) struct Gaps {
    bytes: Vec<Byte>,
    /// Whether all offsets of the table are known.
    is_known: bool,
}

/// Returns the new offset of each byte, and of the end.
fn places_of(alloc: Global, bytes: &[Byte]) -> Result<Vec<u32>, AllocError> {
    let mut places = Vec::new(alloc);
    let mut place = 0u32;
    for byte in bytes {
        places.push(place)?;
        match byte {
            Byte::Gone => {}
            Byte::Kept | Byte::Offset(_) | Byte::LongOffset(_) => place = place.saturating_add(1),
        }
    }
    places.push(place)?;
    Ok(places)
}

/// Returns an offset from a base, adjusted to the new offsets. An offset out of the table is unchanged, and so is 0.
fn new_offset(places: &[u32], base: u32, offset: u32) -> u32 {
    let target = base.saturating_add(offset) as usize;
    match (places.get(base as usize), places.get(target)) {
        (Some(from), Some(to)) if offset != 0 => to.saturating_sub(*from),
        _ => offset,
    }
}

impl Gaps {
    /// Removes nothing from a table with `size` bytes.
    pub(crate) fn new(alloc: Global, size: usize) -> Result<Gaps, AllocError> {
        let mut bytes = Vec::new(alloc);
        bytes.resize(size, Byte::Kept)?;
        Ok(Gaps {
            bytes,
            is_known: true,
        })
    }

    /// Sets the treatment of a byte.
    fn set(&mut self, place: usize, what: Byte) {
        if let Some(byte) = self.bytes.get_mut(place) {
            *byte = what;
        }
    }

    /// Records a two-byte offset at `place`.
    pub(crate) fn offset(&mut self, base: usize, place: usize) {
        self.set(place, Byte::Offset(u32::try_from(base).unwrap_or(u32::MAX)));
    }

    /// Records a four-byte offset at `place`.
    pub(crate) fn long_offset(&mut self, base: usize, place: usize) {
        self.set(
            place,
            Byte::LongOffset(u32::try_from(base).unwrap_or(u32::MAX)),
        );
    }

    /// Removes `size` bytes.
    pub(crate) fn take_out(&mut self, place: usize, size: usize) {
        for i in 0..size {
            self.set(place.saturating_add(i), Byte::Gone);
        }
    }

    /// Keeps all bytes, since a part of the table has unknown offsets.
    pub(crate) fn keep_all(&mut self) {
        self.is_known = false;
    }

    /// Writes the adjusted offsets.
    fn lead_over(&self, table: &mut Vec<u8>, places: &[u32]) {
        for place in 0..self.bytes.len() {
            match self.bytes[place] {
                Byte::Kept | Byte::Gone => {}
                Byte::Offset(base) => {
                    let offset = new_offset(places, base, u32::from(word(table, place)));
                    set_word(table, place, u16::try_from(offset).unwrap_or(0));
                }
                Byte::LongOffset(base) => {
                    let high = u32::from(word(table, place));
                    let low = u32::from(word(table, place.saturating_add(2)));
                    let offset = new_offset(places, base, high * 65536 + low);
                    set_word(table, place, (offset / 65536) as u16);
                    set_word(table, place.saturating_add(2), (offset % 65536) as u16);
                }
            }
        }
    }

    /// Returns the table without the removed bytes.
    pub(crate) fn close(self, alloc: Global, mut table: Vec<u8>) -> Result<Vec<u8>, AllocError> {
        if !self.is_known {
            return Ok(table);
        }
        let places = places_of(alloc, &self.bytes)?;
        self.lead_over(&mut table, &places);
        let mut kept = Vec::new(alloc);
        for (what, byte) in self.bytes.iter().zip(table.iter()) {
            match what {
                Byte::Gone => {}
                Byte::Kept | Byte::Offset(_) | Byte::LongOffset(_) => kept.push(*byte)?,
            }
        }
        Ok(kept)
    }
}
