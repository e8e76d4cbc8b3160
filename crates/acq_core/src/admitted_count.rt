//! Counts of admitted requests.

ghost use Rattle.std.specs.Prelude.{◌≡◌, true, SomeIff};
ghost use Rattle.acq_core.specs.Numbers.{is_admitted_count};

use std::marker::Model;

/// How many of a merchant's requests were admitted so far, each of which got a reference: no more
/// than 999,999 on each of the 36,525 days that there are (own profile). Contracts see it as a
/// number.
#[derive(Clone, Copy)]
pub struct AdmittedCount {
    number: u64,
}

impl Model for AdmittedCount {
    ghost use Rattle.std.specs.Prelude.{ℕ, ◌≡◌, true};
    ghost use Rattle.acq_core.specs.Numbers.{is_admitted_count};

    ghost Value = { ℕ };

    ghost view = { λ x. x.number };

    ghost invariant = { λ x. is_admitted_count x.number ≡ true };

    ghost inverse = { λ n. record { number = n } };
}

impl AdmittedCount {
    /// The count of that many, or `None` where there are not so many. It takes no memory.
    pub fn from_number(number: u64) -> Option<AdmittedCount>
        ensures { SomeIff result (is_admitted_count number ≡ true) number }
    {
        if number <= 36_524_963_475 {
            Some(AdmittedCount { number })
        } else {
            None
        }
    }

    /// None. It takes no memory.
    pub fn zero() -> AdmittedCount
        ensures { result ≡ 0 }
    {
        AdmittedCount { number: 0 }
    }

    /// The number.
    pub fn number(&self) -> u64
        ensures value { result ≡ self.now }
        ensures range { is_admitted_count self.now ≡ true }
    {
        self.number
    }
}
