//! The budget of a command.
ghost use Rattle.std.specs.Prelude.{◌≡◌, ◌<◌, ◌≤◌, ◌+◌, ◌-◌, ◌*◌, ◌/◌, ◌^◌, min, max, MatchResult};
ghost use Rattle.psotf_output.specs.declared.failure.Refusal.TheVariants as refusals;

use crate::failure::Refusal;
use postscript_base::index::IndexView;
use postscript_view::{FontView, Glyph};

/// The budget of a command, in multiples of the limit of a glyph.
pub const GLYPHS: u64 = 20;

/// The cost of writing a segment, in units.
pub const SEGMENT: u64 = 8;

/// The cost of writing an operator or an operand, in units.
pub const OPERAND: u64 = 5;

/// The most that a unit of a run costs if segments are written. A unit draws at most one.
pub const PATH: u64 = 1 + SEGMENT;

/// The most that a unit of a run costs if operations are written too. A unit has at most one operator or operand.
pub const OBJECT: u64 = PATH + OPERAND;

/// The units of the budget for each byte of a picture, which is kept in memory until it is complete.
pub const BYTE: u64 = 10;

/// The part of the limit that a glyph may cost in a report, which keeps all its operations in memory.
pub const HELD: u64 = 10;

/// The budget of a command, in units of `Program::step_within`.
#[derive(Clone, Copy)]
pub struct Budget {
    /// The most that a glyph may cost.
    pub limit: u64,
    /// The rest of the command's budget.
    pub left: u64,
    /// The most that a unit of a run costs. Output made from the run costs units too.
    pub weight: u64,
    /// The most that a glyph may cost whose operations are kept in memory.
    pub kept: u64,
    /// The most units of glyphs that the command may write to a font. Their charstrings are kept in memory.
    pub room: u64,
    /// The units of the glyphs that it has run to write them.
    pub written: u64,

    ghost weighs: { 0 < weight },
}

/// The units of glyphs that may be written for each byte of the table that is read. In fonts with many subroutines a byte
/// costs about five units.
pub const COPIED: u64 = 8;

/// The part of the limit that an instance may write. Two commands may keep it: one that makes the instance, and another
/// that writes it.
pub const INSTANCE: u64 = 4;

/// Returns the most units of glyphs that `flat` and `subset` may write, of a table of `bytes` bytes.
pub fn flat_room(limit: u64, bytes: u64) -> u64
    // The result is the limit, or `COPIED` units for each byte if that is more, up to the greatest `u64`.
    ensures { result ≡ max limit (min (bytes * COPIED) (2 ^ 64 - 1)) }
{
    limit.max(bytes.saturating_mul(COPIED))
}

/// Returns the most units of glyphs that an instance may write, of a table of `bytes` bytes.
pub fn instance_room(limit: u64, bytes: u64) -> u64
    // The result is a quarter of the limit, or `COPIED` units for each byte if that is more.
    ensures { result ≡ max (limit / INSTANCE) (min (bytes * COPIED) (2 ^ 64 - 1)) }
{
    (limit / INSTANCE).max(bytes.saturating_mul(COPIED))
}

/// Returns the length of the longest item in bytes.
fn longest_of(items: &IndexView<'_>) -> u64 {
    let mut longest = 0u64;
    for item in items.iter() {
        longest = longest.max(item.len() as u64);
    }
    longest
}

/// Returns the length in bytes of the longest charstring or subroutine that a glyph may run.
fn longest_code(glyph: &Glyph<'_, '_>) -> u64 {
    let subroutines = longest_of(&glyph.global_subroutines).max(longest_of(
        &glyph.part.subroutines,
    ));
    subroutines.max(glyph.code.len() as u64)
}

impl Budget {
    /// Returns the budget of a command with a limit for each glyph. A unit of a run costs at most `weight` units.
    pub fn new(limit: u64, weight: u64) -> Budget
        requires weighs { 0 < weight }
        // The limit is `limit`.
        ensures limit { result.limit ≡ limit }
        // The budget is `limit * GLYPHS`, or the greatest `u64`.
        ensures left { result.left ≡ min (limit * GLYPHS) (2 ^ 64 - 1) }
        // The weight is `weight`.
        ensures weight { result.weight ≡ weight }
    {
        Budget {
            limit,
            left: limit.saturating_mul(GLYPHS),
            weight,
            kept: limit,
            room: 0,
            written: 0,
        }
    }

    /// Returns the share of the next glyph: the limit, or what is left if each unit costs the most.
    pub fn share(&self) -> u64
        // The share is the limit, or the rest divided by the weight if that is less.
        ensures { result ≡ min self.now.limit (self.now.left / self.now.weight) }
    {
        self.limit.min(self.left / self.weight)
    }

    /// Spends units, or all that is left.
    pub fn spend(&mut self, units: u64)
        // The rest decreases by `units`, to at least 0.
        ensures left { self.new.left ≡ self.old.left - units }
        // The limit is unchanged.
        ensures limit { self.new.limit ≡ self.old.limit }
    {
        self.left = self.left.saturating_sub(units);
    }

    /// Spends the most that these units of a run cost.
    pub fn spend_whole(&mut self, units: u64)
        // The rest decreases by `units` times the weight, to at least 0.
        ensures left { self.new.left ≡ self.old.left - units * self.old.weight }
        // The limit is unchanged.
        ensures limit { self.new.limit ≡ self.old.limit }
    {
        self.left = self.left.saturating_sub(units.saturating_mul(self.weight));
    }

    /// Counts the units of a glyph that the command writes to a font. It fails if all of them are more than the room.
    pub fn write(&mut self, units: u64) -> Result<(), Refusal>
        // The units are counted, up to the greatest `u64`.
        ensures counted { self.new.written ≡ min (self.old.written + units) (2 ^ 64 - 1) }
        // It fails exactly if the units that are counted are more than `room`, with that number.
        ensures exact { MatchResult result
            (λ _. self.new.written ≤ self.old.room)
            (λ e. (self.old.room < self.new.written) × (e ≡ refusals.Written self.old.room)) }
        // The rest and `room` are unchanged.
        ensures same { (self.new.left ≡ self.old.left) × (self.new.room ≡ self.old.room) }
        // The limit is unchanged.
        ensures limit { self.new.limit ≡ self.old.limit }
    {
        self.written = self.written.saturating_add(units);
        if self.written > self.room {
            Err(Refusal::Written(self.room))
        } else {
            Ok(())
        }
    }

    /// Fails if a glyph of this cost is not kept in memory.
    pub fn keep(&self, units: u64) -> Result<(), Refusal>
        // It fails exactly if the units are more than a glyph that is kept may cost, with that number.
        ensures exact { MatchResult result
            (λ _. units ≤ self.now.kept)
            (λ e. (self.now.kept < units) × (e ≡ refusals.Kept self.now.kept)) }
    {
        if units > self.kept {
            Err(Refusal::Kept(self.kept))
        } else {
            Ok(())
        }
    }

    /// Spends the cost of a glyph whose run fails, since the failing operator costs nothing itself. It is the length of
    /// the longest code in bytes, plus one unit for each subroutine that was measured to find it.
    pub fn refuse(&mut self, glyph: &Glyph<'_, '_>)
        // The limit is unchanged.
        ensures limit { self.new.limit ≡ self.old.limit }
    {
        let looked_at = (glyph.global_subroutines.len() as u64).saturating_add(
            glyph.part.subroutines.len() as u64,
        );
        self.spend_whole(longest_code(glyph).saturating_add(looked_at));
    }

    /// Spends the cost of the search for a base and an accent: one unit for each of the two and each glyph of the font.
    pub fn search(&mut self, font: &FontView<'_>)
        // The limit is unchanged.
        ensures limit { self.new.limit ≡ self.old.limit }
    {
        self.spend_whole((font.char_strings.len() as u64).saturating_mul(2));
    }

    /// Returns the error of a glyph that used up its share. If the share was less than the limit, nothing is left for
    /// later glyphs.
    pub fn stop(&mut self, share: u64) -> Refusal
        // If the share is at least the limit, the error is `TooLong`, and the budget is unchanged.
        ensures long { self.old.limit ≤ share → (result ≡ refusals.TooLong self.old.limit) × (self.new ≡ self.old) }
        // If the share is less than the limit, the error is `UsedUp` with the whole budget.
        ensures over { share < self.old.limit → result ≡ refusals.UsedUp (min (self.old.limit * GLYPHS) (2 ^ 64 - 1)) }
        // If the share is less than the limit, nothing is left.
        ensures none_left { share < self.old.limit → self.new.left ≡ 0 }
        // The limit is unchanged.
        ensures limit { self.new.limit ≡ self.old.limit }
    {
        if share < self.limit {
            self.left = 0;
            Refusal::UsedUp(self.limit.saturating_mul(GLYPHS))
        } else {
            Refusal::TooLong(self.limit)
        }
    }
}
