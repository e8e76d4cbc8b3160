//! Lines of a kind of which anybody may cause as many as they like.

/// How many lines of such a kind a second has at most.
const MOST_A_SECOND: u64 = 100;

/// Lines of a kind of which anybody may cause as many as they like: those past the first ones of a
/// second are left out, and counted.
#[derive(Clone, Copy)]
pub(crate) struct LineRate {
    second: u64,
    /// How many came in that second.
    lines: u64,
    left_out: u64,
}

impl LineRate {
    /// None came yet.
    pub(crate) fn new() -> LineRate {
        LineRate {
            second: 0,
            lines: 0,
            left_out: 0,
        }
    }

    /// One more comes in this second: whether it is to be written. Where no clock tells the second,
    /// it is.
    pub(crate) fn admits(&mut self, second: Option<u64>) -> bool {
        let Some(second) = second else {
            return true;
        };
        if second != self.second {
            self.second = second;
            self.lines = 0;
        }
        self.lines = self.lines.saturating_add(1);
        let is_admitted = self.lines <= MOST_A_SECOND;
        if !is_admitted {
            self.left_out = self.left_out.saturating_add(1);
        }
        is_admitted
    }

    /// How many were left out in seconds before this one.
    pub(crate) fn left_out(&self, second: Option<u64>) -> u64 {
        if second == Some(self.second) {
            0
        } else {
            self.left_out
        }
    }

    /// Those that were left out were told.
    pub(crate) fn forget(&mut self) {
        self.left_out = 0;
    }
}
