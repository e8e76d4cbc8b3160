//! A clock that counts.

use acq_core::Moment;
use acq_front::Clock;

/// 2024-05-01 at 09:30.
const BEGIN: u64 = 1_714_555_800;

/// Gives one second after the other.
#[derive(Drop)]
pub struct CountingClock {
    seconds: u64,
}

impl CountingClock {
    /// It begins on 2024-05-01 at 09:30.
    pub fn new() -> CountingClock {
        CountingClock { seconds: BEGIN }
    }
}

impl Clock for CountingClock {
    fn now(&mut self) -> Moment {
        self.seconds = self.seconds.saturating_add(1);
        moment_at(self.seconds)
    }
}

/// The moment so many seconds after 1970, or the nearest one that there is.
pub fn moment_at(seconds: u64) -> Moment {
    let Some(moment) = Moment::from_seconds(seconds.clamp(BEGIN, 4_102_444_799)) else {
        unreachable!();
    };
    moment
}
