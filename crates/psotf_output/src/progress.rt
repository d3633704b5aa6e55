//! Progress messages.
use std::io::IsTerminal;
use std::time::Instant;

/// The progress of a loop over glyphs or files. It is shown once a second on standard error, if that is a terminal.
#[derive(Clone, Copy)]
pub struct Progress<'r> {
    rt: &'r HostRuntime,
    /// What is counted.
    what: &'static str,
    /// The number after the last glyph, or that of the last file.
    to: u64,
    /// The start. `None` if nothing is shown.
    since: Option<Instant>,
    /// The last second with a message.
    told: u64,
}

impl<'r> Progress<'r> {
    /// Begins to measure a loop.
    fn begin(rt: &'r HostRuntime, what: &'static str, to: u64) -> Progress<'r> {
        let since = if rt.stderr().is_terminal() {
            Instant::now(rt).ok()
        } else {
            None
        };
        Progress {
            rt,
            what,
            to,
            since,
            told: 0,
        }
    }

    /// Begins to measure a loop over glyphs.
    pub fn new(rt: &'r HostRuntime, to: u16) -> Progress<'r> {
        Progress::begin(rt, "glyph", u64::from(to))
    }

    /// Begins to measure a loop over files. It shows nothing if standard output is a terminal too.
    pub fn of_files(rt: &'r HostRuntime, to: u64) -> Progress<'r> {
        Progress::begin(rt, "file", to).unless_shown()
    }

    /// The same, but shows nothing if standard output is a terminal too, since the output shows the progress.
    pub fn of_answers(rt: &'r HostRuntime, to: u16) -> Progress<'r> {
        Progress::new(rt, to).unless_shown()
    }

    /// Shows nothing if standard output is a terminal.
    fn unless_shown(mut self) -> Progress<'r> {
        if self.rt.stdout().is_terminal() {
            self.since = None;
        }
        self
    }

    /// Shows the current glyph, at most once a second.
    pub fn at_glyph(&mut self, gid: u16) {
        self.show(u64::from(gid));
    }

    /// Shows the current number, at most once a second.
    pub fn show(&mut self, number: u64) {
        let Some(since) = self.since else {
            return;
        };
        let seconds = match since.elapsed(self.rt) {
            Ok(elapsed) => elapsed.as_secs(),
            Err(_) => 0,
        };
        if seconds > self.told {
            self.told = seconds;
            let (what, to) = (self.what, self.to);
            let _ = eprint!(self.rt; "{what} {number} of {to}\r");
        }
    }

    /// Clears the line.
    pub fn end(self) {
        if self.told > 0 {
            let _ = eprint!(self.rt; "\x1b[K");
        }
    }
}
