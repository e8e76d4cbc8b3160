//! What a host last said of itself.

use crate::asked_host::AskedHost;
use crate::no_answer::NoAnswer;
use acq_page::{HostSaid, Questions};
use std::alloc::{AllocError, Global};
use std::time::{Duration, Instant};

/// For how many seconds its figures are kept, and what it is asked beside them.
const FIGURES_KEPT: u64 = 1;

const SUMS_KEPT: u64 = 10;

/// What a host last said of itself, and when.
#[derive(Drop)]
pub(crate) struct LastSaid {
    said: HostSaid,
    figures_since: Option<Instant>,
    sums_since: Option<Instant>,
}

impl LastSaid {
    /// Nothing yet.
    pub(crate) fn new(alloc: Global) -> LastSaid {
        LastSaid {
            said: silence(alloc),
            figures_since: None,
            sums_since: None,
        }
    }

    pub(crate) fn said(&self) -> &HostSaid {
        &self.said
    }

    /// Whether the host is to be asked for its figures.
    pub(crate) fn is_old(&self, now: Instant) -> bool {
        is_over(FIGURES_KEPT, self.figures_since, now)
    }

    /// Asks the host for its figures, and seldom for more. A host that doesn't answer has said
    /// nothing.
    pub(crate) fn renew<H: AskedHost>(&mut self, alloc: Global, host: &H, now: Instant) {
        let asks_more = is_over(SUMS_KEPT, self.sums_since, now);
        if self.ask(alloc, host, asks_more).is_err() {
            self.said = silence(alloc);
            self.sums_since = None;
        } else if asks_more {
            self.sums_since = Some(now);
        }
    }

    /// They were asked for then.
    pub(crate) fn renewed(&mut self, now: Instant) {
        self.figures_since = Some(now);
    }

    fn ask<H: AskedHost>(
        &mut self,
        alloc: Global,
        host: &H,
        asks_more: bool,
    ) -> Result<(), NoAnswer> {
        let mut answers = host.ask(alloc, &[b"status".as_slice(), b"metrics"])?;
        self.said.metrics = answers.pop().flatten();
        self.said.status = answers.pop().flatten();
        let Some(status) = &self.said.status else {
            return Err(NoAnswer);
        };
        if asks_more {
            let questions = Questions::behind(alloc, status.as_slice())?;
            self.said.pending = pending_of(alloc, host, &questions)?;
            self.said.sums = sums_of(alloc, host, &questions)?;
        }
        Ok(())
    }
}

/// What a host says that says nothing.
fn silence(alloc: Global) -> HostSaid {
    HostSaid {
        status: None,
        metrics: None,
        pending: Vec::new(alloc),
        sums: None,
    }
}

/// What waits, of one day behind the other.
fn pending_of<H: AskedHost>(
    alloc: Global,
    host: &H,
    questions: &Questions,
) -> Result<Vec<u8>, NoAnswer> {
    let mut pending = Vec::new(alloc);
    for line in questions.pending.iter() {
        if let Some(text) = first_answer(alloc, host, line.as_slice())? {
            pending.extend_from_slice(text.as_slice())?;
        }
    }
    Ok(pending)
}

/// The sums, if the host knows how to tell them.
fn sums_of<H: AskedHost>(
    alloc: Global,
    host: &H,
    questions: &Questions,
) -> Result<Option<Vec<u8>>, NoAnswer> {
    match &questions.sums {
        Some(line) => first_answer(alloc, host, line.as_slice()),
        None => Ok(None),
    }
}

fn first_answer<H: AskedHost>(
    alloc: Global,
    host: &H,
    line: &[u8],
) -> Result<Option<Vec<u8>>, NoAnswer> {
    Ok(host.ask(alloc, &[line])?.pop().flatten())
}

/// Whether so many seconds are over since then.
fn is_over(seconds: u64, since: Option<Instant>, now: Instant) -> bool {
    match since {
        Some(since) => now.saturating_duration_since(since) >= Duration::from_secs(seconds),
        None => true,
    }
}
