//! References.

ghost use Rattle.std.specs.Prelude.{◌≡◌, true, SomeIff};
ghost use Rattle.acq_message.specs.Numbers.{is_reference};
ghost use Rattle.day_totals.specs.Digits.{zero_padded};

use day_totals::write_digits;
use std::marker::Model;

/// What a merchant's admitted requests are told apart by, as element 37 has it: a number of at most
/// twelve digits. Contracts see it as a number. Source: ISO 8583:1987, retrieval reference number;
/// how it is given: own profile.
#[derive(Clone, Copy, PartialEq, Eq, Hash)]
pub struct Reference {
    number: u64,
}

impl Model for Reference {
    ghost use Rattle.std.specs.Prelude.{ℕ, ◌≡◌, true};
    ghost use Rattle.acq_message.specs.Numbers.{is_reference};

    ghost Value = { ℕ };

    ghost view = { λ x. x.number };

    ghost invariant = { λ x. is_reference x.number ≡ true };

    ghost inverse = { λ n. record { number = n } };
}

impl Reference {
    /// The reference with that number, or `None` above twelve digits. It takes no memory.
    pub fn from_number(number: u64) -> Option<Reference>
        ensures { SomeIff result (is_reference number ≡ true) number }
    {
        if number <= 999_999_999_999 {
            Some(Reference { number })
        } else {
            None
        }
    }

    /// The number.
    pub fn number(&self) -> u64
        ensures value { result ≡ self.now }
        ensures range { is_reference self.now ≡ true }
    {
        self.number
    }

    /// The twelve digits of element 37.
    pub fn text(self) -> [u8; 12]
        ensures { result ≡ zero_padded 12 self }
    {
        let mut text = [b'0'; 12];
        write_digits(self.number(), &mut text);
        text
    }
}
