//! How a connection is parted with, whose frames had a fault, or whose host ends.

use crate::time_limits::left_of;
use acq_front::FrontFault;
use std::time::{Duration, Instant};

/// For how many seconds it is read on, and how many bytes at most.
const LONGEST: u64 = 1;

const MOST_BYTES: usize = 64 * 1024;

/// How many bytes are read at once.
pub(crate) const PIECE: usize = 4096;

/// A connection that is parted with: its replies are on their way, and what still comes is read and
/// thrown away for a while, since a close with unread bytes takes replies with it that are still on
/// their way.
#[derive(Clone, Copy, Drop)]
pub(crate) struct Parting {
    began: Option<Instant>,
    bytes_left: usize,
}

impl Parting {
    /// It begins now, where the time is known.
    pub(crate) fn new(now: Option<Instant>) -> Parting {
        Parting {
            began: now,
            bytes_left: MOST_BYTES,
        }
    }

    /// So many more bytes were read.
    pub(crate) fn took(&mut self, bytes: usize) {
        self.bytes_left = self.bytes_left.saturating_sub(bytes);
    }

    /// For how long it is read on.
    pub(crate) fn time_left(&self, now: Option<Instant>) -> Duration {
        if self.bytes_left == 0 {
            Duration::ZERO
        } else {
            left_of(Duration::from_secs(LONGEST), self.began, now)
        }
    }
}

/// Whether a connection ended with a fault of its frames, so that more of them may be on their way.
pub(crate) fn ends_in_bad_frame(ended: &Result<(), FrontFault>) -> bool {
    matches!(
        ended,
        Err(FrontFault::BadLength | FrontFault::Ended | FrontFault::Undecodable(_))
    )
}
