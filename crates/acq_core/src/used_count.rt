//! Counts against the limit of a day.

ghost use Rattle.std.specs.Prelude.{◌≡◌, true, SomeIff};
ghost use Rattle.acq_core.specs.Numbers.{is_used_count};

use std::marker::Model;

/// How many messages of a merchant count against the limit of one day: no more than the greatest
/// limit, 999,999 (own profile). Contracts see it as a number.
#[derive(Clone, Copy)]
pub struct UsedCount {
    number: u32,
}

impl Model for UsedCount {
    ghost use Rattle.std.specs.Prelude.{ℕ, ◌≡◌, true};
    ghost use Rattle.acq_core.specs.Numbers.{is_used_count};

    ghost Value = { ℕ };

    ghost view = { λ x. x.number };

    ghost invariant = { λ x. is_used_count x.number ≡ true };

    ghost inverse = { λ n. record { number = n } };
}

impl UsedCount {
    /// The count of that many messages, or `None` above the greatest limit. It takes no memory.
    pub fn from_number(number: u32) -> Option<UsedCount>
        ensures { SomeIff result (is_used_count number ≡ true) number }
    {
        if number <= 999_999 {
            Some(UsedCount { number })
        } else {
            None
        }
    }

    /// None. It takes no memory.
    pub fn zero() -> UsedCount
        ensures { result ≡ 0 }
    {
        UsedCount { number: 0 }
    }

    /// The number of messages.
    pub fn number(&self) -> u32
        ensures value { result ≡ self.now }
        ensures range { is_used_count self.now ≡ true }
    {
        self.number
    }
}
