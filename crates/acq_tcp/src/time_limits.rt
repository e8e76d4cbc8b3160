//! How long connections may take.

use acq_faults::Patience;
use std::time::{Duration, Instant};

/// How long connections may take; `None` is for ever.
#[derive(Clone, Copy, Drop)]
pub(crate) struct TimeLimits {
    /// How long one may send nothing, or take nothing of a reply.
    pub(crate) idle: Option<Duration>,
    /// How long a frame may take, from its first byte to its last.
    pub(crate) frame: Option<Duration>,
    /// How long one may be there once the host was asked to end.
    pub(crate) stop: Option<Duration>,
    /// How long one may wait for its issuer's answer.
    pub(crate) answer: Option<Duration>,
}

impl TimeLimits {
    /// The limits that this patience sets.
    pub(crate) fn new(patience: Patience) -> TimeLimits {
        TimeLimits {
            idle: limit_of(patience.idle),
            frame: limit_of(patience.frame_within),
            stop: limit_of(patience.stop_within),
            answer: limit_of(patience.answer_within),
        }
    }

    /// Within how long a connection that moves now can't take too long.
    pub(crate) fn shortest(self) -> Option<Duration> {
        shorter(self.idle, self.frame)
    }
}

/// So many seconds; for 0 no limit.
fn limit_of(seconds: u64) -> Option<Duration> {
    (seconds > 0).then(|| Duration::from_secs(seconds))
}

/// How much of a limit is left of what began then. Where a time isn't known all of it is.
pub(crate) fn left_of(limit: Duration, began: Option<Instant>, now: Option<Instant>) -> Duration {
    match (began, now) {
        (Some(began), Some(now)) => limit.saturating_sub(now.duration_since(began)),
        _ => limit,
    }
}

/// The shorter of two times, of which none is for ever.
pub(crate) fn shorter(one: Option<Duration>, other: Option<Duration>) -> Option<Duration> {
    match (one, other) {
        (Some(one), Some(other)) => Some(one.min(other)),
        (one, None) => one,
        (None, other) => other,
    }
}

/// When so much time is over, from its beginning on, where both are known and it ends.
pub(crate) fn deadline(limit: Option<Duration>, began: Option<Instant>) -> Option<Instant> {
    began?.checked_add(limit?)
}

/// The earlier of two times that are known.
pub(crate) fn earlier(one: Option<Instant>, other: Option<Instant>) -> Option<Instant> {
    match (one, other) {
        (Some(one), Some(other)) if other < one => Some(other),
        (None, other) => other,
        (one, _) => one,
    }
}

/// Whether a time is known that isn't later than now.
pub(crate) fn has_come(then: Option<Instant>, now: Option<Instant>) -> bool {
    match (then, now) {
        (Some(then), Some(now)) => then <= now,
        _ => false,
    }
}

/// How much time lies between two times that are known.
pub(crate) fn between(then: Option<Instant>, now: Option<Instant>) -> Option<Duration> {
    Some(now?.duration_since(then?))
}
