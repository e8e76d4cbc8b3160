//! A clock over memory.

ghost use Rattle.std.specs.Prelude.{◌≡◌, Some};
ghost use Rattle.acq_front.specs.Supplies.{moments_of};

use crate::clock::Clock;
use acq_core::Moment;

/// 2000-01-01 at 00:00:00, the first moment that there is.
const FIRST_MOMENT: u64 = 946_684_800;

/// A clock that gives these moments, and then 2000-01-01 at 00:00:00.
#[derive(Drop)]
pub struct SliceClock<'a> {
    moments: &'a [Moment],
}

impl<'a> SliceClock<'a> {
    /// A clock that gives these moments.
    pub fn new(moments: &'a [Moment]) -> SliceClock<'a>
        ensures { moments_of result ≡ moments.entry.now }
    {
        SliceClock { moments }
    }
}

impl Clock for SliceClock<'_> {
    ghost use Rattle.std.specs.Prelude.{Some};
    ghost use Rattle.acq_front.specs.Supplies.{moments_of};

    ghost coming = { λ c. Some (moments_of c) };

    fn now(&mut self) -> Moment {
        if let Some((first, later)) = self.moments.split_first() {
            self.moments = later;
            return *first;
        }
        let Some(first) = Moment::from_seconds(FIRST_MOMENT) else {
            unreachable!();
        };
        first
    }
}
