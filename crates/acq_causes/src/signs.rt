//! What is known of a run while it goes on.

use crate::lack::Lack;
use std::cell::Cell;

/// What is known of a run while it goes on.
#[derive(Drop)]
pub struct Signs {
    /// It listens, so that nothing may wait.
    pub listens: Cell<bool>,
    /// It has all that it needs, and serves connections.
    pub serves: Cell<bool>,
    /// How many bytes its log may have, once it has one.
    pub log: Cell<Option<u64>>,
    /// A host's answer was waited for too long.
    pub silent: Cell<bool>,
    /// What it couldn't have first.
    pub lack: Cell<Option<Lack>>,
}

impl Signs {
    /// Nothing yet.
    pub fn new() -> Signs {
        Signs {
            listens: Cell::new(false),
            serves: Cell::new(false),
            log: Cell::new(None),
            silent: Cell::new(false),
            lack: Cell::new(None),
        }
    }

    /// The book was opened: a host that lacks nothing else serves now.
    pub fn opened_book(&self) {
        if self.listens.get() && self.lack.get().is_none() {
            self.serves.set(true);
        }
    }

    /// This couldn't be had; what couldn't be had first is told.
    pub fn note(&self, lack: Lack) {
        if self.lack.get().is_none() {
            self.lack.set(Some(lack));
        }
    }
}
