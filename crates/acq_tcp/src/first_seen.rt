//! Since when a request has been seen waiting.

use acq_link::MemorySink;
use std::alloc::Global;
use std::time::Instant;

/// The request that waits the longest for its issuer's answer, and when it was first seen so.
#[derive(Drop)]
pub(crate) struct FirstSeen {
    /// What tells it from others that wait; empty where none waits.
    name: MemorySink,
    since: Option<Instant>,
}

impl FirstSeen {
    /// None was seen.
    pub(crate) fn nobody(alloc: Global) -> FirstSeen {
        FirstSeen {
            name: MemorySink::new(alloc),
            since: None,
        }
    }

    /// Now this one waits the longest, or none, which has no name.
    pub(crate) fn saw(&mut self, name: MemorySink, now: Option<Instant>) {
        if self.name.as_bytes() != name.as_bytes() {
            self.since = now;
            self.name = name;
        }
    }

    /// For how many whole seconds it has been seen waiting, if one waits.
    pub(crate) fn age(&self, now: Option<Instant>) -> Option<u64> {
        if self.name.as_bytes().is_empty() {
            return None;
        }
        match (self.since, now) {
            (Some(since), Some(now)) => Some(now.duration_since(since).as_secs()),
            _ => None,
        }
    }
}
