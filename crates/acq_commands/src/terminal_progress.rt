//! How far a run is, on a terminal.

use crate::progress::Progress;
use std::io::Write;
use std::time::{Clock, Duration, Instant};

/// How many events are done between two looks at the clock.
const STRIDE: usize = 1024;

/// A run that is over by then shows nothing, in milliseconds.
const FIRST_SHOWN: u64 = 2_000;

/// How long a line stands before the next, in milliseconds.
const EACH_SHOWN: u64 = 200;

/// Shows on a terminal how many events of how many are done, where a run takes more than two
/// seconds: one line that is written anew, and taken away at the end. Where there is no terminal
/// nothing is written.
#[derive(Drop)]
pub struct TerminalProgress<'a, C, W> {
    clock: &'a C,
    terminal: Option<W>,
    /// When the next line is due; `None` where the clock can't be read.
    due: Option<Instant>,
    events: usize,
    done: usize,
    is_shown: bool,
}

impl<'a, C: Clock, W: Write> TerminalProgress<'a, C, W> {
    /// The run begins now, by this clock.
    pub fn new(clock: &'a C, terminal: Option<W>) -> TerminalProgress<'a, C, W> {
        TerminalProgress {
            clock,
            terminal,
            due: after(clock, FIRST_SHOWN),
            events: 0,
            done: 0,
            is_shown: false,
        }
    }

    fn is_due(&self) -> bool {
        match (self.due, Instant::now(self.clock)) {
            (Some(due), Ok(now)) => now >= due,
            _ => false,
        }
    }
}

impl<C: Clock, W: Write> Progress for TerminalProgress<'_, C, W> {
    fn begin(&mut self, events: usize) {
        self.events = events;
        self.done = 0;
    }

    fn done(&mut self) {
        self.done = self.done.saturating_add(1);
        if self.done % STRIDE != 0 || !self.is_due() {
            return;
        }
        if let Some(terminal) = &mut self.terminal {
            // A terminal that takes nothing is no reason to stop the run.
            let _ = write!(terminal, "\r{} of {} events", self.done, self.events);
            self.is_shown = true;
        }
        self.due = after(self.clock, EACH_SHOWN);
    }

    fn end(&mut self) {
        if !self.is_shown {
            return;
        }
        if let Some(terminal) = &mut self.terminal {
            let _ = terminal.write_all(b"\r\x1b[K");
        }
        self.is_shown = false;
    }
}

/// The moment so many milliseconds from now, where the clock can be read.
fn after<C: Clock>(clock: &C, milliseconds: u64) -> Option<Instant> {
    let now = Instant::now(clock).ok()?;
    now.checked_add(Duration::from_millis(milliseconds))
}
