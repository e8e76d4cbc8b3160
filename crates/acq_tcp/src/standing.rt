//! How a connection stands where another one waits for its place.

use crate::time_limits::{deadline, earlier};
use acq_reasons::Reason;
use std::time::{Duration, Instant};

/// For how many milliseconds one that came has its place, unless others have waited for as long.
const GRACE: u64 = 500;

/// How a connection stands where another one waits for its place. Those make room first over which
/// no message of an enrolled terminal was answered, the one that has been without the longest
/// first.
#[derive(Clone, Copy, PartialEq, Eq)]
pub(crate) struct Standing {
    /// Whether a message of an enrolled terminal was answered over it.
    has_sold: bool,
    /// When one last was, or else when it came.
    since: Option<Instant>,
}

impl Standing {
    /// It comes now.
    pub(crate) fn new(now: Option<Instant>) -> Standing {
        Standing {
            has_sold: false,
            since: now,
        }
    }

    /// A message of an enrolled terminal is answered over it now.
    pub(crate) fn sold(now: Option<Instant>) -> Standing {
        Standing {
            has_sold: true,
            since: now,
        }
    }

    /// When it may have to make room, if that may be: one that sold is left alone for as long as a
    /// connection may be silent, and another one for a moment, or until others have waited for as
    /// long, without a break since `wanted`.
    pub(crate) fn room_at(
        &self,
        idle: Option<Duration>,
        wanted: Option<Instant>,
    ) -> Option<Instant> {
        if self.has_sold {
            return deadline(idle, self.since);
        }
        let grace = Some(Duration::from_millis(GRACE));
        earlier(deadline(grace, self.since), deadline(grace, wanted))
    }

    /// Whether it makes room before another one.
    pub(crate) fn is_before(&self, other: &Standing) -> bool {
        if self.has_sold != other.has_sold {
            return other.has_sold;
        }
        match (self.since, other.since) {
            (Some(since), Some(others)) => since < others,
            _ => false,
        }
    }
}

/// Whether this frame of a reply, with this reason, answers a message of an enrolled terminal. Not
/// one of network management, for which nobody has to be enrolled, and none that was refused before
/// its terminal was looked up, or since there is no such terminal.
pub(crate) fn answers_terminal(frame: &[u8], reason: Option<Reason>) -> bool {
    let is_of_network = match frame {
        [_, _, _, class, ..] => *class == b'8',
        _ => true,
    };
    !is_of_network
        && !matches!(
            reason,
            Some(
                Reason::MissingElement(_)
                    | Reason::MissingCard
                    | Reason::Unverifiable(_)
                    | Reason::TrackWithoutCard
                    | Reason::TwoCards
                    | Reason::BadRemainder
                    | Reason::UnknownMerchant
                    | Reason::UnknownTerminal
            )
        )
}
