//! Counts of what was served.

use acq_front::Silence;
use acq_status::{ReplyCounts, ReplyDurations, UnansweredCounts};
use std::time::{Duration, Instant};

/// Counts of what a server has served since it began.
#[derive(Clone, Copy)]
pub(crate) struct ServingCounts {
    /// Connections of terminals that got a place.
    pub(crate) connections: u64,
    /// Messages of terminals to which replies were held to be written.
    pub(crate) events: u64,
    /// Lines of control connections that were answered.
    pub(crate) lines: u64,
    /// Messages of terminals that got no reply.
    pub(crate) unanswered: UnansweredCounts,
    /// Replies whose first bytes went out.
    pub(crate) replies: ReplyCounts,
    /// How long these took, where the times were known.
    pub(crate) durations: ReplyDurations,
    /// Connections of terminals that ended for a frame's fault: a bad length, an end inside a
    /// frame, or a frame that spells no message.
    pub(crate) refused_frames: u64,
    /// How many times a gateway asked for the rows behind more than the book has.
    pub(crate) rows_missing: u64,
    /// When a message of a terminal was last taken, where the time was known.
    pub(crate) last_event: Option<Instant>,
}

impl ServingCounts {
    /// Nothing was served yet.
    pub(crate) fn new() -> ServingCounts {
        ServingCounts {
            connections: 0,
            events: 0,
            lines: 0,
            unanswered: UnansweredCounts {
                unserved: 0,
                waiting: 0,
                late: 0,
            },
            replies: ReplyCounts::new(),
            durations: ReplyDurations::new(),
            refused_frames: 0,
            rows_missing: 0,
            last_event: None,
        }
    }

    /// One message of a terminal more was answered, at this time.
    pub(crate) fn answered(&mut self, now: Option<Instant>) {
        self.events = self.events.saturating_add(1);
        self.last_event = now;
    }

    /// One terminal more gets a reply, with this response code, so long behind its message.
    pub(crate) fn replied(&mut self, code: &[u8], total: Option<Duration>) {
        self.replies.count(code);
        if let Some(total) = total {
            self.durations.count(total);
        }
    }

    /// One message of a terminal more got no reply, at this time.
    pub(crate) fn left_unanswered(&mut self, why: Silence, now: Option<Instant>) {
        let count = match why {
            Silence::Unserved => &mut self.unanswered.unserved,
            Silence::Waiting => &mut self.unanswered.waiting,
            Silence::Late => &mut self.unanswered.late,
        };
        *count = count.saturating_add(1);
        self.last_event = now;
    }
}
