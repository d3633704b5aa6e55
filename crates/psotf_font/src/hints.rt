//! Runs of all glyphs: how many have hints, and which one costs most.
use crate::face::{Face, count};
use postscript_base::Error;
use postscript_type2::{Operator, Program, Within};
use postscript_view::Glyph;
use psotf_output::failure::Failure;
use psotf_output::limit::Budget;
use psotf_output::progress::Progress;
use psotf_output::stopped::Stopped;
use std::alloc::Global;

/// Returns whether an operator declares stems or is a mask (Technical Note 5177, section 4.3).
fn is_hint(operator: Operator) -> bool {
    match operator {
        Operator::HStem | Operator::VStem | Operator::HStemHM | Operator::VStemHM => true,
        Operator::HintMask | Operator::CntrMask => true,
        _ => false,
    }
}

/// The runs of all glyphs of a font.
#[derive(Clone, Copy)]
pub struct Runs {
    /// The number of glyphs with a hint.
    pub hinted: u64,
    /// The most expensive glyph of those that end without an error.
    pub costliest: u16,
    /// Its cost in units, or 0 if no glyph ends.
    pub cost: u64,
}

impl Runs {
    /// Adds a glyph.
    fn add(&mut self, gid: u16, run: &Run) {
        if run.has_hint {
            self.hinted = self.hinted.saturating_add(1);
        }
        if run.cost > self.cost {
            self.costliest = gid;
            self.cost = run.cost;
        }
    }
}

/// The run of a glyph.
#[derive(Clone, Copy)]
struct Run {
    has_hint: bool,
    /// The cost in units, or 0 if it does not end or has an error.
    cost: u64,
}

/// The end of a run within its share.
#[derive(Clone, Copy, PartialEq, Eq)]
enum End {
    /// It ended without an error.
    Whole,
    /// It has an error.
    Refused,
    /// It used up its share.
    Stopped,
    /// It ran out of memory.
    NoMemory,
}

/// Runs the next operation. Returns `None` if the run goes on.
fn step(program: &mut Program<'_>, share: &mut u64, has_hint: &mut bool) -> Option<End> {
    match program.step_within(share) {
        Ok(Within::Operation(operator, _)) => {
            *has_hint = *has_hint || is_hint(operator);
            None
        }
        Ok(Within::End) => Some(End::Whole),
        Ok(Within::Paused) => Some(End::Stopped),
        Err(Error::Memory) => Some(End::NoMemory),
        Err(_) => Some(End::Refused),
    }
}

/// Runs a glyph to its end.
fn end_of(alloc: Global, glyph: &Glyph<'_, '_>, share: &mut u64, has_hint: &mut bool) -> End {
    let mut program = glyph.program(alloc);
    let mut end = None;
    for _ in 0..u64::MAX {
        end = step(&mut program, share, has_hint);
        if end.is_some() {
            break;
        }
    }
    end.unwrap_or(End::Stopped)
}

/// Returns the run of a glyph. If a run has an error, the operations before it count. If a glyph costs more than the limit,
/// this is reported, and the operations up to the limit count.
fn run_glyph(
    alloc: Global,
    gid: u16,
    glyph: &Glyph<'_, '_>,
    budget: &mut Budget,
    stopped: &mut Stopped<'_>,
) -> Result<Run, Failure> {
    let share = budget.share();
    let mut left = share;
    let mut has_hint = false;
    let end = end_of(alloc, glyph, &mut left, &mut has_hint);
    let spent = share.saturating_sub(left);
    budget.spend(spent);
    match end {
        End::NoMemory => return Err(Failure::from(Error::Memory)),
        End::Stopped => stopped.add(gid, &budget.stop(share))?,
        End::Refused => budget.refuse(glyph),
        End::Whole => (),
    }
    let cost = if end == End::Whole { spent } else { 0 };
    Ok(Run { has_hint, cost })
}

/// Runs all glyphs. Glyphs that cost more than the limit are reported.
pub fn run_all(
    rt: &HostRuntime,
    face: &Face<'_>,
    budget: &mut Budget,
    stopped: &mut Stopped<'_>,
) -> Result<Runs, Failure> {
    let mut runs = Runs {
        hinted: 0,
        costliest: 0,
        cost: 0,
    };
    let mut progress = Progress::new(rt, count(face));
    for gid in 0..count(face) {
        progress.at_glyph(gid);
        if let Some(glyph) = face.font.glyph(usize::from(gid)) {
            let run = run_glyph(rt.alloc(), gid, &glyph, budget, stopped)?;
            runs.add(gid, &run);
        }
    }
    progress.end();
    Ok(runs)
}
