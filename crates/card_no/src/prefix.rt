//! Prefixes of card numbers.

ghost use Rattle.std.specs.Prelude.{◌≡◌, SomeIff, length, true};
ghost use Rattle.std.specs.List.{list_all};
ghost use Rattle.std.specs.Char.{is_ascii_digit};
ghost use Rattle.std.specs.Str.Parse.{digits_value};
ghost use Rattle.card_no.specs.Prefix.{prefix_digits, IsPrefix, is_prefix_text, prefix_of_text};

use crate::digits::{all_digits, number};
use std::marker::Model;

/// The number of a card number's first digits, as many as an issuer identification number has by
/// ISO/IEC 7812-1:2017 ([`Prefix::DIGITS`]). It finds the card's issuer. Contracts see the number.
#[derive(Clone, Copy, Debug, PartialEq, Eq)]
pub struct Prefix {
    number: u32,
}

impl Model for Prefix {
    ghost use Rattle.std.specs.Prelude.{ℕ};
    ghost use Rattle.card_no.specs.Prefix.{IsPrefix};

    ghost Value = { ℕ };

    ghost view = { λ prefix. prefix.number };

    ghost invariant = { λ prefix. IsPrefix prefix.number };

    ghost inverse = { λ number. record { number = number } };
}

impl Prefix {
    /// How many digits a prefix has.
    pub const DIGITS: usize = 8;

    /// The greatest number of so many digits.
    pub const GREATEST: u32 = 99_999_999;

    /// The prefix with this number, where it is no greater than [`Prefix::GREATEST`].
    pub fn from_number(number: u32) -> Option<Prefix>
        ensures { SomeIff result (IsPrefix number) number }
    {
        if number > Prefix::GREATEST {
            return None;
        }
        Some(Prefix { number })
    }

    /// The prefix that a text spells, or `None` where it isn't just [`Prefix::DIGITS`] digits. It
    /// takes no memory.
    pub fn read(text: &[u8]) -> Option<Prefix>
        ensures { result ≡ prefix_of_text text.now }
    {
        if !is_prefix_text(text) {
            return None;
        }
        Some(Prefix::of_digits(text))
    }

    /// The prefix that just so many digits spell.
    pub(crate) fn of_digits(digits: &[u8]) -> Prefix
        requires each { list_all is_ascii_digit digits.now ≡ true }
        requires size { length digits.now ≡ prefix_digits }
        ensures { result ≡ digits_value 10 digits.now }
    {
        Prefix {
            number: number(digits),
        }
    }

    /// The number.
    pub fn number(self) -> u32
        ensures value { result ≡ self }
        ensures range { IsPrefix self }
    {
        let Prefix { number } = self;
        number
    }
}

/// Whether a text is as many digits as a prefix has.
pub(crate) fn is_prefix_text(text: &[u8]) -> bool
    ensures { result ≡ is_prefix_text text.now }
{
    text.len() == Prefix::DIGITS && all_digits(text)
}
