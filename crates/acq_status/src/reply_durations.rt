//! How long replies took.

ghost use Rattle.std.specs.Prelude.{◌≡◌, ◌<◌, [], get_or};
ghost use Rattle.acq_status.specs.Replies.{bounds, no_durations};

use std::time::Duration;

/// How many buckets have a bound.
pub(crate) const BUCKETS: usize = 10;

/// How long replies took, each from the last byte of its message to its own first one.
#[derive(Clone, Copy)]
pub struct ReplyDurations {
    /// How many took no longer than the bound of each bucket.
    pub(crate) within: [u64; BUCKETS],
    /// How many there were.
    pub(crate) replies: u64,
    /// How long all of them took.
    pub(crate) microseconds: u64,
}

impl ReplyDurations {
    /// None yet.
    pub fn new() -> ReplyDurations
        ensures { result ≡ no_durations }
    {
        ReplyDurations {
            within: [0; BUCKETS],
            replies: 0,
            microseconds: 0,
        }
    }

    /// One reply more, which took so long.
    pub fn count(&mut self, duration: Duration) {
        let microseconds = u64::try_from(duration.as_micros()).unwrap_or(u64::MAX);
        for place in 0..BUCKETS {
            if microseconds <= bound_of(place).1 {
                self.within[place] = self.within[place].saturating_add(1);
            }
        }
        self.replies = self.replies.saturating_add(1);
        self.microseconds = self.microseconds.saturating_add(microseconds);
    }
}

/// The bound of the bucket at a place: in seconds, as it is written, and in microseconds.
pub(crate) fn bound_of(place: usize) -> (&'static str, u64)
    requires { place < 10 }
    ensures { result.0.now ≡ get_or bounds place [] }
{
    match place {
        0 => ("0.001", 1_000),
        1 => ("0.002", 2_000),
        2 => ("0.005", 5_000),
        3 => ("0.01", 10_000),
        4 => ("0.02", 20_000),
        5 => ("0.05", 50_000),
        6 => ("0.1", 100_000),
        7 => ("0.5", 500_000),
        8 => ("1", 1_000_000),
        _ => ("5", 5_000_000),
    }
}
