//! When the open connections are looked at.

use crate::ending::Ending;
use crate::standing::Standing;
use crate::terminal_talk::TerminalPlace;
use crate::time_limits::{TimeLimits, between, deadline, earlier, has_come};
use std::time::{Duration, Instant};

/// When the open connections are looked at, each in turn, and what the last look found.
#[derive(Drop)]
pub(crate) struct Look {
    limits: TimeLimits,
    /// Before then none of them can have taken too long.
    next: Option<Instant>,
    /// Since when others have waited for a place without a break, if one waits.
    wanted: Option<Instant>,
    /// The one that makes room before the others, and how it stood.
    first: Option<(u64, Standing)>,
    /// The one that makes room in this look, unless it stands otherwise by now.
    leaves: Option<(u64, Standing)>,
}

impl Look {
    /// None was looked at yet.
    pub(crate) fn new(limits: TimeLimits) -> Look {
        Look {
            limits,
            next: None,
            wanted: None,
            first: None,
            leaves: None,
        }
    }

    /// One waits for a place now.
    pub(crate) fn one_waits(&mut self, now: Option<Instant>) {
        if self.wanted.is_none() {
            self.wanted = now;
        }
    }

    /// Nobody waits.
    pub(crate) fn nobody_waits(&mut self) {
        self.wanted = None;
        self.first = None;
    }

    /// Since when others have waited without a break.
    pub(crate) fn wanted(&self) -> Option<Instant> {
        self.wanted
    }

    /// Whether one of them may have taken too long by now.
    pub(crate) fn is_due(&self, now: Option<Instant>) -> bool {
        match self.next {
            Some(_) => has_come(self.next, now),
            None => self.limits.shortest().is_some(),
        }
    }

    /// How long it is until then; `None` is for ever.
    pub(crate) fn time_left(&self, now: Option<Instant>) -> Option<Duration> {
        match between(now, self.next) {
            Some(left) => Some(left),
            None => self.limits.shortest(),
        }
    }

    /// How long it is until one has to make room, where one may.
    pub(crate) fn room_left(&self, now: Option<Instant>) -> Option<Duration> {
        between(now, self.room_at())
    }

    /// When the first one has to make room for one that waits.
    fn room_at(&self) -> Option<Instant> {
        let (_, standing) = self.first?;
        standing.room_at(self.limits.idle, self.wanted)
    }

    /// Begins a look, in which one of them makes room if one waits and no place is free.
    pub(crate) fn begin(&mut self, now: Option<Instant>, wants_room: bool) {
        self.leaves = None;
        if wants_room && has_come(self.room_at(), now) {
            self.leaves = self.first;
        }
        self.first = None;
        // Whatever begins from now on can't take too long before then.
        self.next = deadline(self.limits.shortest(), now);
    }

    /// A place gets free without one that makes room.
    pub(crate) fn has_room(&mut self) {
        self.leaves = None;
    }

    /// Looks at a connection that is open, and returns what ends it, if something does: it has
    /// taken too long, or makes room.
    pub(crate) fn ends(
        &mut self,
        place: &TerminalPlace<'_>,
        now: Option<Instant>,
    ) -> Option<Ending> {
        let by = place.talk().deadline(self.limits);
        if !place.is_awake() && has_come(by, now) {
            self.leaves = None;
            return Some(Ending::Late);
        }
        let seen = (place.number(), place.talk().standing());
        if self.leaves == Some(seen) {
            self.leaves = None;
            return Some(Ending::MadeRoom);
        }
        self.saw(seen);
        self.next = earlier(self.next, by);
        None
    }

    /// One stands so.
    fn saw(&mut self, seen: (u64, Standing)) {
        let is_first = match &self.first {
            Some((_, first)) => seen.1.is_before(first),
            None => true,
        };
        if is_first {
            self.first = Some(seen);
        }
    }
}
