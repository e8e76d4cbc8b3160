//! A clock that stands still.

ghost use Rattle.std.specs.Prelude.{◌≡◌};

use crate::clock::Clock;
use acq_core::Moment;

/// A clock that gives one moment, always.
#[derive(Drop)]
pub struct FixedClock {
    moment: Moment,
}

impl FixedClock {
    /// A clock that gives this moment.
    pub fn new(moment: Moment) -> FixedClock
        ensures { result ≡ record { moment = moment } }
    {
        FixedClock { moment }
    }
}

impl Clock for FixedClock {
    ghost use Rattle.std.specs.Prelude.{◌≡◌};

    ghost may_give = { λ c m. m ≡ c.moment };

    fn now(&mut self) -> Moment {
        self.moment
    }
}
