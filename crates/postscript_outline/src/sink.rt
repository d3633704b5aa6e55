//! Sinks, which receive the segments of outlines.
ghost use Rattle.std.specs.Prelude.{◌≡◌, ◌∷◌, ◌++◌, [], OnOk, OnErr};
ghost use Rattle.postscript_base.specs.declared.error.Error.TheVariants as errors;
ghost use Rattle.postscript_outline.specs.Sinks.{Receives, Took};

use crate::bounds::Bounds;
use crate::segment::Segment;
use crate::tight::TightBounds;
use postscript_base::Error;
use std::alloc::{AllocError, AllocFailed};

/// The error of a sink that takes no more segments: it is out of memory, or has a reason of its own, which it keeps.
#[derive(Clone, Copy, Debug, PartialEq, Eq)]
pub struct Full;

/// The result of giving a segment to a sink.
pub type Given = std::result::Result<(), Full>;

/// A receiver of the segments of outlines, one after another, such as a list, bounds or a text.
pub trait Sink {
    ghost use Rattle.postscript_outline.specs.declared.segment.Segment.{Segment};

    /// The type of its states.
    ghost State: { Type 0 };

    /// Its state.
    ghost state: { Self → State };

    /// The states that may follow a state after one more segment.
    ghost after: { State → Segment → State → Type 0 };

    /// The states in which it may be full. These are all states if it allocates memory.
    ghost refuses: { State → Type 0 };

    /// Receives one more segment.
    ///
    /// # Errors
    ///
    /// - `Full`: it takes no more segments. Its state is unchanged.
    fn add(&mut self, segment: Segment) -> Given
        // On success the new state may follow the old one after this segment (`after`).
        ensures taken { OnOk result (after (state self.old) segment (state self.new)) }
        // On an error the state is unchanged.
        ensures full { OnErr result (state self.new ≡ state self.old) }
        // An error occurs only in a state in which it may be full (`refuses`).
        ensures refuses { OnErr result (refuses (state self.old)) };
}

/// A sink that is never full.
pub trait Endless: Sink {
    /// Receives one more segment.
    fn take(&mut self, segment: Segment)
        // The new state may follow the old one after this segment (`after`).
        ensures { Self.after (Self.state self.old) segment (Self.state self.new) };
}

/// A list contains the segments that it has received.
impl Sink for Vec<Segment> {
    ghost use Rattle.std.specs.Prelude.{◌≡◌, ◌++◌, ◌∷◌, [], List};
    ghost use Rattle.postscript_outline.specs.declared.segment.Segment.{Segment};

    ghost State = { List Segment };

    ghost state = { λ segments. segments.items };

    ghost after = { λ old segment new. new ≡ old ++ segment ∷ [] };

    ghost refuses = { λ _. Unit {0} };

    #[inline(always)]
    fn add(&mut self, segment: Segment) -> Given {
        self.push(segment)?;
        Ok(())
    }
}

/// Bounds surround the points that they have received, including control points. They are never full.
impl Sink for Option<Bounds> {
    ghost use Rattle.std.specs.Prelude.{◌≡◌, Option};
    ghost use Rattle.postscript_outline.specs.Bounds.{taking};
    ghost use Rattle.postscript_outline.specs.declared.bounds.Bounds.{Bounds};

    ghost State = { Option Bounds };

    ghost state = { λ bounds. bounds };

    ghost after = { λ old segment new. new ≡ taking old segment };

    ghost refuses = { λ _. ⊥ };

    #[inline(always)]
    fn add(&mut self, segment: Segment) -> Given {
        Endless::take(self, segment);
        Ok(())
    }
}

impl Endless for Option<Bounds> {
    #[inline(always)]
    fn take(&mut self, segment: Segment) {
        *self = Bounds::taking(*self, segment);
    }
}

/// Tight bounds surround the lines and curves that they have received. They are never full.
impl Sink for TightBounds {
    ghost use Rattle.postscript_outline.specs.Tight.{TakesIn};
    ghost use Rattle.postscript_outline.specs.declared.tight.TightBounds.{TightBounds};

    ghost State = { TightBounds };

    ghost state = { λ bounds. bounds };

    ghost after = { TakesIn };

    ghost refuses = { λ _. ⊥ };

    #[inline(always)]
    fn add(&mut self, segment: Segment) -> Given {
        self.take(segment);
        Ok(())
    }
}

impl Endless for TightBounds {
    #[inline(always)]
    fn take(&mut self, segment: Segment) {
        *self = self.taking(segment);
    }
}

/// A pair of a sink and one that is never full, such as bounds. Each receives every segment.
impl<S: Sink, E: Endless> Sink for (S, E) {
    ghost use Rattle.postscript_outline.specs.declared.segment.Segment.{Segment};

    ghost State = { S.State × E.State };

    ghost state = { λ both. (S.state both.0, E.state both.1) };

    ghost after = { λ old segment new. S.after old.0 segment new.0 × E.after old.1 segment new.1 };

    ghost refuses = { λ both. S.refuses both.0 };

    #[inline(always)]
    fn add(&mut self, segment: Segment) -> Given {
        self.0.add(segment)?;
        self.1.take(segment);
        Ok(())
    }
}

/// A text contains the path data of the segments that it has received, after its earlier content.
impl Sink for String {
    ghost use Rattle.std.specs.Prelude.{◌≡◌, ◌++◌, ℕ, List, string_bytes};
    ghost use Rattle.postscript_outline.specs.Svg.{segment as path_data};

    ghost State = { List ℕ };

    ghost state = { λ text. string_bytes text };

    ghost after = { λ old segment new. new ≡ old ++ path_data segment };

    ghost refuses = { λ _. Unit {0} };

    fn add(&mut self, segment: Segment) -> Given {
        let text = segment.to_string(*self.allocator())?;
        self.push_str(text.as_str())?;
        Ok(())
    }
}

/// Gives segments to a sink, in order.
///
/// # Errors
///
/// - `Full`: the sink takes no more segments. It has received those before.
pub fn give<S: Sink>(segments: &[Segment], sink: &mut S) -> Given
    // On success the sink has received all segments in order.
    ensures given { OnOk result (Receives S.after (S.state sink.old) segments.now (S.state sink.new)) }
    // On an error the sink has received some first segments in order, and no others.
    ensures front { OnErr result (Took S.after (S.state sink.old) segments.now (S.state sink.new)) }
    // On an error the sink is in a state in which it may be full (`refuses`).
    ensures full { OnErr result (S.refuses (S.state sink.new)) }
{
    for segment in segments {
        sink.add(*segment)?;
    }
    Ok(())
}

impl From<AllocError> for Full {
    ghost from_gives = { λ _ full. full ≡ full };

    fn from(_fault: AllocError) -> Full {
        Full
    }
}

impl<T: Drop> From<AllocFailed<T>> for Full {
    ghost from_gives = { λ _ full. full ≡ full };

    fn from(_fault: AllocFailed<T>) -> Full {
        Full
    }
}

impl From<Full> for Error {
    ghost from_gives = { λ _ error. error ≡ errors.Memory };

    fn from(_full: Full) -> Error {
        Error::Memory
    }
}
