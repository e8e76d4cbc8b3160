//! The clock of this machine.

ghost use Rattle.std.specs.Prelude.{◌≡◌};
ghost use Rattle.acq_commands.specs.ClockMoments.{nearest_moment};

use acq_core::Moment;
use acq_front::Clock;
use std::time;
use std::time::{SystemTime, UNIX_EPOCH};

/// 2000-01-01 at 00:00:00, the first moment that there is.
const FIRST: u64 = 946_684_800;

/// 2099-12-31 at 23:59:59, the last one.
const LAST: u64 = 4_102_444_799;

/// Tells the moment by the clock of this machine: its second, or the nearest moment that there is;
/// the first one where the clock can't be read.
#[derive(Drop)]
pub struct SystemClock<'a, C> {
    clock: &'a C,
}

impl<'a, C: time::Clock> SystemClock<'a, C> {
    /// The moments of this clock.
    pub fn new(clock: &'a C) -> SystemClock<'a, C> {
        SystemClock { clock }
    }
}

impl<C: time::Clock> Clock for SystemClock<'_, C> {
    fn now(&mut self) -> Moment {
        let seconds = match SystemTime::now(self.clock) {
            Ok(now) => now.duration_since(UNIX_EPOCH).map_or(0, |d| d.as_secs()),
            Err(_) => 0,
        };
        moment_near(seconds)
    }
}

/// The moment nearest to so many seconds since 1970-01-01 00:00:00.
pub fn moment_near(seconds: u64) -> Moment
    ensures { result ≡ nearest_moment seconds }
{
    let Some(moment) = Moment::from_seconds(seconds.clamp(FIRST, LAST)) else {
        unreachable!();
    };
    moment
}
