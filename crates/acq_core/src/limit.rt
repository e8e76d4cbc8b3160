//! Limits of a day.

ghost use Rattle.std.specs.Prelude.{◌≡◌, true, SomeIff};
ghost use Rattle.acq_core.specs.Numbers.{is_limit};

use std::marker::Model;

/// How many messages of one merchant a business day admits, from 1 to 999,999 (own profile).
/// Contracts see it as a number.
#[derive(Clone, Copy)]
pub struct Limit {
    number: u32,
}

impl Model for Limit {
    ghost use Rattle.std.specs.Prelude.{ℕ, ◌≡◌, true};
    ghost use Rattle.acq_core.specs.Numbers.{is_limit};

    ghost Value = { ℕ };

    ghost view = { λ x. x.number };

    ghost invariant = { λ x. is_limit x.number ≡ true };

    ghost inverse = { λ n. record { number = n } };
}

impl Limit {
    /// The limit of that many messages, or `None` outside the range. It takes no memory.
    pub fn from_number(number: u32) -> Option<Limit>
        ensures { SomeIff result (is_limit number ≡ true) number }
    {
        if (1..=999_999).contains(&number) {
            Some(Limit { number })
        } else {
            None
        }
    }

    /// The number of messages.
    pub fn number(&self) -> u32
        ensures value { result ≡ self.now }
        ensures range { is_limit self.now ≡ true }
    {
        self.number
    }
}
