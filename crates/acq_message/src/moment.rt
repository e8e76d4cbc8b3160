//! Moments.

ghost use Rattle.std.specs.Prelude.{◌≡◌, true, SomeIff};
ghost use Rattle.acq_message.specs.Moments.{is_moment};

use std::marker::Model;

/// A moment of UTC, in whole seconds since 1970-01-01 00:00:00, from 2000-01-01 00:00:00 to
/// 2099-12-31 23:59:59 (own profile). Contracts see it as the number of seconds.
#[derive(Clone, Copy)]
pub struct Moment {
    seconds: u64,
}

impl Model for Moment {
    ghost use Rattle.std.specs.Prelude.{ℕ, ◌≡◌, true};
    ghost use Rattle.acq_message.specs.Moments.{is_moment};

    ghost Value = { ℕ };

    ghost view = { λ x. x.seconds };

    ghost invariant = { λ x. is_moment x.seconds ≡ true };

    ghost inverse = { λ n. record { seconds = n } };
}

impl Moment {
    /// The moment so many seconds after 1970-01-01 00:00:00, or `None` outside the range. It takes
    /// no memory.
    pub fn from_seconds(seconds: u64) -> Option<Moment>
        ensures { SomeIff result (is_moment seconds ≡ true) seconds }
    {
        if (946_684_800..=4_102_444_799).contains(&seconds) {
            Some(Moment { seconds })
        } else {
            None
        }
    }

    /// The seconds since 1970-01-01 00:00:00.
    pub fn seconds(&self) -> u64
        ensures value { result ≡ self.now }
        ensures range { is_moment self.now ≡ true }
    {
        self.seconds
    }
}
