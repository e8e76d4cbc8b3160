//! What was tried.

use std::fmt;

/// What runs did.
#[derive(Clone, Copy, Drop)]
pub struct Tried {
    pub connections: u64,
    /// The messages that were taken, and the answers that came later.
    pub acts: u64,
    /// Of these the answers.
    pub answers: u64,
    /// The groups that they were taken in.
    pub groups: u64,
    /// The runs that a fault of the book stopped.
    pub stopped: u64,
}

impl Tried {
    /// Nothing yet.
    pub fn nothing() -> Tried {
        Tried {
            connections: 0,
            acts: 0,
            answers: 0,
            groups: 0,
            stopped: 0,
        }
    }

    /// This and another run.
    pub fn with(&self, run: &Tried) -> Tried {
        Tried {
            connections: self.connections.wrapping_add(run.connections),
            acts: self.acts.wrapping_add(run.acts),
            answers: self.answers.wrapping_add(run.answers),
            groups: self.groups.wrapping_add(run.groups),
            stopped: self.stopped.wrapping_add(run.stopped),
        }
    }
}

impl fmt::Display for Tried {
    fn fmt<W: fmt::Write>(&self, f: &mut fmt::Formatter<W>) -> fmt::Result {
        let (connections, acts) = (self.connections, self.acts);
        let (answers, groups, stopped) = (self.answers, self.groups, self.stopped);
        write!(
            f,
            "{connections} connections, {acts} acts ({answers} late answers) in {groups} groups, \
             {stopped} stopped"
        )
    }
}
