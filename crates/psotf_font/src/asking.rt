//! Checks that glyphs are within the limit before they are written.
ghost use Rattle.std.specs.Prelude.{◌≡◌};

use postscript_drawing::Accent;
use postscript_type2::Program;
use postscript_view::FontView;
use psotf_output::failure::{Failure, Refusal};
use psotf_output::limit::Budget;
use std::alloc::Global;

/// The result of a program within its share.
#[derive(Clone, Copy)]
enum Answer {
    /// It ended, with the base and the accent of a `seac` glyph.
    End(Option<Accent>),
    /// It failed.
    Refused,
    /// It used up its share.
    Stopped,
}

/// Runs a program within a share, and leaves the rest of the share.
fn answer_of(program: &mut Program<'_>, share: &mut u64) -> Result<Answer, Failure> {
    if !program.fits(share)? {
        return Ok(Answer::Stopped);
    }
    if program.next().is_err() {
        return Ok(Answer::Refused);
    }
    let accent = Accent::named_by(program.operands_at_end());
    Ok(Answer::End(accent.unwrap_or(None)))
}

/// Returns the failure of a glyph.
fn failure_of(glyph: usize, refusal: &Refusal) -> Failure {
    Failure::glyph(u16::try_from(glyph).unwrap_or(u16::MAX), refusal)
}

/// Checks that a glyph, which is to be written, ends or fails within its share. Returns the base and the accent of a
/// `seac` glyph. It fails if the glyph costs more, or if too much is written with it.
pub fn ask(
    alloc: Global,
    font: &FontView<'_>,
    glyph: usize,
    budget: &mut Budget,
) -> Result<Option<Accent>, Failure>
    // The limit is unchanged.
    ensures limit { budget.new.limit ≡ budget.old.limit }
{
    let Some(found) = font.glyph(glyph) else {
        return Ok(None);
    };
    let share = budget.share();
    let mut left = share;
    let answer = answer_of(&mut found.program(alloc), &mut left)?;
    let taken = share.saturating_sub(left);
    budget.spend_whole(taken);
    if let Err(refusal) = budget.write(taken) {
        return Err(failure_of(glyph, &refusal));
    }
    match answer {
        Answer::End(accent) => Ok(accent),
        Answer::Refused => {
            budget.refuse(&found);
            Ok(None)
        }
        Answer::Stopped => {
            let refusal = budget.stop(share);
            Err(failure_of(glyph, &refusal))
        }
    }
}

/// Checks each glyph of a font.
pub fn ask_all(alloc: Global, font: &FontView<'_>, budget: &mut Budget) -> Result<(), Failure> {
    for glyph in 0..font.char_strings.len() {
        let _ = ask(alloc, font, glyph, budget)?;
    }
    Ok(())
}
