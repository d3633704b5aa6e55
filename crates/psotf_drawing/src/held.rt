//! Segments that are kept in memory.
use postscript_drawing::Error as Undrawn;
use postscript_instance_file::Held;
use psotf_output::failure::Refusal;
use psotf_output::limit::Budget;
use std::alloc::Global;

/// The units of the limit for each segment that a glyph may keep. With the default limit a glyph has at most 400,000
/// segments.
const ROOM: u64 = 50;

/// Returns an empty list for the segments of a glyph.
pub fn held_within(alloc: Global, budget: &Budget) -> Held {
    Held::new(alloc, budget.limit / ROOM)
}

/// Returns the error of a glyph with too many segments, or `None` for another error.
pub fn full_by(held: &Held, error: &Undrawn) -> Option<Refusal> {
    if held.stops(error) {
        Some(Refusal::Segments(held.most))
    } else {
        None
    }
}
