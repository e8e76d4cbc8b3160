//! When a round began.

use std::cell::Cell;
use std::time::Instant;

/// When the round that is under way began, where the system tells the time. It is read once in a
/// round, and all connections see it.
#[derive(Drop)]
pub(crate) struct RoundTime {
    began: Cell<Option<Instant>>,
}

impl RoundTime {
    /// No round began yet.
    pub(crate) fn new() -> RoundTime {
        RoundTime {
            began: Cell::new(None),
        }
    }

    /// A round begins now.
    pub(crate) fn set(&self, now: Option<Instant>) {
        self.began.set(now);
    }

    /// When it began.
    pub(crate) fn get(&self) -> Option<Instant> {
        self.began.get()
    }
}
