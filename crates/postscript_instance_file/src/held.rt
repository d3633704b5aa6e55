//! Segments that are kept in memory.
ghost use Rattle.std.specs.Prelude.{◌≡◌, ◌≤◌, ◌↔◌, [], length, IsTrue};
ghost use Rattle.postscript_drawing.specs.declared.error.Error.TheVariants as undrawn;

use postscript_drawing::Error as Undrawn;
use postscript_outline::{Full, Given, Segment, Sink};
use std::alloc::Global;

/// A list of segments with a greatest length.
#[derive(Drop)]
pub struct Held {
    /// The segments.
    pub segments: Vec<Segment>,
    /// The greatest length.
    pub most: u64,
}

impl Held {
    /// Returns an empty list with a greatest length.
    pub fn new(alloc: Global, most: u64) -> Held
        // The list is empty.
        ensures empty { result.segments.items ≡ [] }
        // Its greatest length is the given one.
        ensures most { result.most ≡ most }
    {
        Held {
            segments: Vec::new(alloc),
            most,
        }
    }

    /// Returns whether the list has its greatest length.
    fn is_full(&self) -> bool
        ensures { IsTrue result ↔ (self.now.most ≤ length self.now.segments.items) }
    {
        self.segments.len() as u64 >= self.most
    }

    /// Returns whether a glyph failed with this error since it has too many segments.
    pub fn stops(&self, error: &Undrawn) -> bool
        // `true` exactly if the error is `Full`, and the list has its greatest length.
        ensures { IsTrue result ↔ ((error.now ≡ undrawn.Full) × (self.now.most ≤ length self.now.segments.items)) }
    {
        match error {
            Undrawn::Full => self.is_full(),
            _ => false,
        }
    }
}

/// The list contains the segments that it has received, and keeps its greatest length.
impl Sink for Held {
    ghost use Rattle.std.specs.Prelude.{◌≡◌, ◌++◌, ◌∷◌, [], ℕ, List};
    ghost use Rattle.postscript_outline.specs.declared.segment.Segment.{Segment};

    ghost State = { List Segment × ℕ };

    ghost state = { λ held. (held.segments.items, held.most) };

    ghost after = { λ old segment new. (new.0 ≡ old.0 ++ segment ∷ []) × (new.1 ≡ old.1) };

    ghost refuses = { λ _. Unit {0} };

    #[inline(always)]
    fn add(&mut self, segment: Segment) -> Given {
        if self.is_full() {
            return Err(Full);
        }
        self.segments.push(segment)?;
        Ok(())
    }
}
