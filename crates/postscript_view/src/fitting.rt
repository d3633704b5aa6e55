//! Runs within a limit, and the cost of a failed run.
ghost use Rattle.std.specs.Prelude.{◌≡◌, ◌≢◌, ◌-◌, ◌+◌, max, length, IfOk, IfErr, MatchResult};
ghost use Rattle.postscript_base.specs.declared.error.Error.TheVariants as errors;
ghost use Rattle.postscript_base.specs.Index.Lent.{items_of};
ghost use Rattle.postscript_view.specs.Fitting.{Goes, longest};

use crate::font::Glyph;
use postscript_base::index::IndexView;
use postscript_base::{Error, Result};
use postscript_type2::{Program, Within};

/// The outcome of a run within a limit.
pub(crate) enum Outcome {
    /// It ends.
    Ended,
    /// It fails.
    Refused,
    /// The limit is used up first.
    UsedUp,
}

/// The outcome of a run that fails. There is none if memory runs out.
fn refused_by(e: Error) -> Result<Outcome>
    ensures { MatchResult result (λ outcome. (outcome ≡ Outcome.Refused) × (e ≢ errors.Memory)) (λ want. want ≡ errors.Memory) }
{
    match e {
        Error::Memory => Err(Error::Memory),
        _ => Ok(Outcome::Refused),
    }
}

/// Runs a program within a limit.
pub(crate) fn run_within(program: &mut Program<'_>, limit: &mut u64) -> Result<Outcome>
    ensures goes { IfOk result (λ outcome. Goes outcome program.old limit.old limit.new) }
    ensures refused { IfErr result (λ e. e ≡ errors.Memory) }
{
    loop {
        match program.step_within(limit) {
            Ok(Within::Operation(..)) => {}
            Ok(Within::End) => return Ok(Outcome::Ended),
            Ok(Within::Paused) => return Ok(Outcome::UsedUp),
            Err(e) => return refused_by(e),
        }
    }
}

/// The number of bytes of the longest item.
fn longest_of(items: &IndexView<'_>) -> usize
    ensures { result ≡ longest (items_of items.now) }
{
    let mut most = 0usize;
    for i in 0..items.len() {
        most = most.max(items.item(i).len());
    }
    most
}

/// Subtracts the cost of the failure of a glyph's run from the limit, or sets it to 0.
pub(crate) fn pay_refusal(glyph: &Glyph<'_, '_>, limit: &mut u64)
    ensures { let global = items_of glyph.now.global_subroutines in
        let local = items_of glyph.now.part.now.subroutines in
        limit.new ≡ limit.old - (max (length glyph.now.code.now) (max (longest global) (longest local)) + (length global + length local)) }
{
    let global = &glyph.global_subroutines;
    let local = &glyph.part.subroutines;
    let code = glyph
        .code
        .len()
        .max(longest_of(global).max(longest_of(local)));
    *limit = limit.saturating_sub(code as u64);
    *limit = limit.saturating_sub(global.len() as u64);
    *limit = limit.saturating_sub(local.len() as u64);
}
