//! Valid card numbers.

ghost use Rattle.std.specs.Prelude.{◌≡◌, ◌≤◌, SomeIff, length, true};
ghost use Rattle.std.specs.List.{list_all};
ghost use Rattle.std.specs.Char.{is_ascii_digit};
ghost use Rattle.card_no.specs.CardNumbers.{greatest_digits, counted_at, check_sum, is_valid_card};
ghost use Rattle.card_no.specs.CardNumbers.{prefix_of};
ghost use Rattle.card_no.specs.CardNumbers.{masked_of};

use crate::digits::{GREATEST_LEN, all_digits};
use crate::masked_number::MaskedNumber;
use crate::prefix::Prefix;
use std::fmt;
use std::marker::Model;

const LEAST_LEN: usize = 10;

/// A valid card number: 10 to 19 digits that pass the check of ISO/IEC 7812-1; the lower bound is
/// this profile's own. It is printed masked, also by `Debug`.
#[derive(Clone, Copy)]
pub struct CardNumber {
    // The digits, and a `0` for each place behind them.
    digits: [u8; GREATEST_LEN],
    len: usize,
}

impl Model for CardNumber {
    ghost use Rattle.std.specs.Prelude.{◌≡◌, ◌≤◌, ℕ, List, length, take, true};
    ghost use Rattle.card_no.specs.CardNumbers.{greatest_digits, is_valid_card};
    ghost use Rattle.card_no.specs.Padding.{padded, length-taken};

    ghost Value = { List ℕ };

    ghost view = { λ c. take c.len c.digits };

    ghost invariant = { λ c. (c.len ≤ greatest_digits)
        × (is_valid_card (take c.len c.digits) ≡ true)
        × (padded (take c.len c.digits) ≡ c.digits) };

    ghost inverse = { λ digits. record { digits = padded digits; len = length digits } };

    ghost inverse_ok = { λ c h i. record {
      digits = h.2 i;
      len = length-taken c.digits c.len h.0 h.2 i;
    } };
}

impl CardNumber {
    /// The card number that a text is, if it is a valid one. It takes no memory.
    pub fn read(text: &[u8]) -> Option<CardNumber>
        ensures { SomeIff result (is_valid_card text.now ≡ true) text.now }
    {
        if !is_valid(text) {
            return None;
        }
        let mut digits = [b'0'; GREATEST_LEN];
        digits[..text.len()].copy_from_slice(text);
        Some(CardNumber {
            digits,
            len: text.len(),
        })
    }

    /// The digits, as bytes from 0x30 to 0x39. It takes no memory.
    pub fn digits(&self) -> &[u8]
        ensures value { result.now ≡ self.now }
        ensures valid { is_valid_card result.now ≡ true }
    {
        &self.digits[..self.len]
    }

    /// The number of the first digits, which finds the issuer. It takes no memory.
    pub fn prefix(&self) -> Prefix
        ensures { result ≡ prefix_of self.now }
    {
        let digits = self.digits();
        Prefix::of_digits(&digits[..Prefix::DIGITS])
    }

    /// The number as it may be shown: the first six digits, a `*` for each digit between, and the
    /// last four. It takes no memory.
    pub fn masked(&self) -> MaskedNumber
        ensures { result ≡ masked_of self.now }
    {
        MaskedNumber::of(self.digits())
    }
}

impl fmt::Debug for CardNumber {
    ghost use Rattle.std.specs.Prelude.{Some};
    ghost use Rattle.card_no.specs.CardNumbers.{card_debug_text};

    ghost debug_output = { λ digits. Some (card_debug_text digits) };

    fn fmt<W: fmt::Write>(&self, f: &mut fmt::Formatter<W>) -> fmt::Result {
        write!(f, "CardNumber({})", self.masked())
    }
}

/// Whether a text is a valid card number.
fn is_valid(text: &[u8]) -> bool
    ensures { result ≡ is_valid_card text.now }
{
    if text.len() < LEAST_LEN || text.len() > GREATEST_LEN || !all_digits(text) {
        return false;
    }
    sum_of_places(text) % 10 == 0
}

/// What a digit counts for at a place; the last digit's place is 0.
fn counted(place: usize, digit: u8) -> u8
    requires { digit ≤ 9 }
    ensures value { result ≡ counted_at place digit }
    ensures bound { result ≤ 9 }
{
    if place % 2 == 0 {
        digit
    } else if 2 * digit > 9 {
        2 * digit - 9
    } else {
        2 * digit
    }
}

/// The sum of what the digits count for at their places.
fn sum_of_places(digits: &[u8]) -> u32
    requires each { list_all is_ascii_digit digits.now ≡ true }
    requires size { length digits.now ≤ greatest_digits }
    ensures { result ≡ check_sum digits.now }
{
    let mut sum = 0;
    for (i, b) in digits.iter().enumerate() {
        let place = digits.len() - 1 - i;
        sum += u32::from(counted(place, *b - b'0'));
    }
    sum
}
