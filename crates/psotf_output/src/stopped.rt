//! Glyphs that cost more than the limit.
use crate::failure::{Failure, Refusal};
use crate::telling::tell;

/// The glyphs of a command that cost more than the limit. They are reported on standard error and counted.
#[derive(Clone, Copy)]
pub struct Stopped<'r> {
    rt: &'r HostRuntime,
    count: u64,
    /// Whether it is reported that the command's budget is used up.
    is_over: bool,
}

impl<'r> Stopped<'r> {
    /// Returns no glyphs.
    pub fn new(rt: &'r HostRuntime) -> Stopped<'r> {
        Stopped {
            rt,
            count: 0,
            is_over: false,
        }
    }

    /// Adds a glyph and reports it. All glyphs after the command's budget is used up share one line.
    pub fn add(&mut self, gid: u16, error: &Refusal) -> Result<(), Failure> {
        self.count = self.count.saturating_add(1);
        let others = match error {
            Refusal::UsedUp(_) if self.is_over => return Ok(()),
            Refusal::UsedUp(_) => {
                self.is_over = true;
                " and all later glyphs"
            }
            _ => "",
        };
        tell(self.rt, format_args!("glyph {gid}{others}: {error}"))
    }

    /// Fails with the number of glyphs, if there are any.
    pub fn end(self) -> Result<(), Failure> {
        match self.count {
            0 => Ok(()),
            count => Err(Failure::of_glyphs(count)),
        }
    }
}
