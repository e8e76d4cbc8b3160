//! Amounts.

ghost use Rattle.std.specs.Prelude.{◌≡◌, true, SomeIff};
ghost use Rattle.acq_message.specs.Numbers.{is_amount, is_accepted_amount};

use std::marker::Model;

/// An amount in minor units, as element 4 may have it: from 0 to 999,999,999,999. Which amounts are
/// accepted is a check of its own. Contracts see it as a number. Source: ISO 8583:1987, amount,
/// transaction.
#[derive(Clone, Copy, PartialEq, Eq)]
pub struct Amount {
    number: u64,
}

impl Model for Amount {
    ghost use Rattle.std.specs.Prelude.{ℕ, ◌≡◌, true};
    ghost use Rattle.acq_message.specs.Numbers.{is_amount};

    ghost Value = { ℕ };

    ghost view = { λ x. x.number };

    ghost invariant = { λ x. is_amount x.number ≡ true };

    ghost inverse = { λ n. record { number = n } };
}

impl Amount {
    /// The amount of so many minor units, or `None` above twelve digits. It takes no memory.
    pub fn from_number(number: u64) -> Option<Amount>
        ensures { SomeIff result (is_amount number ≡ true) number }
    {
        if number <= 999_999_999_999 {
            Some(Amount { number })
        } else {
            None
        }
    }

    /// Whether a request of this amount may be accepted: from 1 to 9,999,999,999 (own profile).
    pub fn is_accepted(&self) -> bool
        ensures { result ≡ is_accepted_amount self.now }
    {
        (1..=9_999_999_999).contains(&self.number)
    }

    /// The minor units.
    pub fn number(&self) -> u64
        ensures value { result ≡ self.now }
        ensures range { is_amount self.now ≡ true }
    {
        self.number
    }
}
