//! First references.

ghost use Rattle.std.specs.Prelude.{◌≡◌, ◌+◌, true, SomeIff};
ghost use Rattle.acq_core.specs.Numbers.{is_first_reference};

use crate::admitted_count::AdmittedCount;
use acq_message::Reference;
use std::marker::Model;

/// The reference that a merchant's first admitted request gets, from 1 to 900,000,000,000, so that
/// twelve digits hold all that follow (own profile). Contracts see it as a number.
#[derive(Clone, Copy)]
pub struct FirstReference {
    number: u64,
}

impl Model for FirstReference {
    ghost use Rattle.std.specs.Prelude.{ℕ, ◌≡◌, true};
    ghost use Rattle.acq_core.specs.Numbers.{is_first_reference};

    ghost Value = { ℕ };

    ghost view = { λ x. x.number };

    ghost invariant = { λ x. is_first_reference x.number ≡ true };

    ghost inverse = { λ n. record { number = n } };
}

impl FirstReference {
    /// The first reference with that number, or `None` outside the range. It takes no memory.
    pub fn from_number(number: u64) -> Option<FirstReference>
        ensures { SomeIff result (is_first_reference number ≡ true) number }
    {
        if (1..=900_000_000_000).contains(&number) {
            Some(FirstReference { number })
        } else {
            None
        }
    }

    /// The number.
    pub fn number(&self) -> u64
        ensures value { result ≡ self.now }
        ensures range { is_first_reference self.now ≡ true }
    {
        self.number
    }

    /// The reference of the request that is admitted after so many others.
    pub fn reference_after(&self, admitted: AdmittedCount) -> Reference
        ensures { result ≡ self.now + admitted }
    {
        let Some(reference) = Reference::from_number(self.number + admitted.number()) else {
            unreachable!();
        };
        reference
    }
}
