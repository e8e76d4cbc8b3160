//! What may be shown of a card number.

ghost use Rattle.std.specs.Prelude.{◌≡◌, ◌≤◌, IsAscii, length, true};
ghost use Rattle.std.specs.Char.{is_ascii_digit};
ghost use Rattle.std.specs.List.{list_all};
ghost use Rattle.card_no.specs.CardNumbers.{least_digits, greatest_digits, masked_of};

use crate::digits::GREATEST_LEN;
use std::fmt;
use std::marker::Model;

const SHOWN_FIRST: usize = 6;

const SHOWN_LAST: usize = 4;

/// The first six digits of a card number, a `*` for each digit between, and the last four.
#[derive(Drop)]
pub struct MaskedNumber {
    text: [u8; GREATEST_LEN],
    len: usize,
}

impl Model for MaskedNumber {
    ghost use Rattle.std.specs.Prelude.{◌≤◌, ℕ, IsAscii, List, take};
    ghost use Rattle.card_no.specs.CardNumbers.{greatest_digits};

    ghost Value = { List ℕ };

    ghost view = { λ m. take m.len m.text };

    ghost invariant = { λ m. (m.len ≤ greatest_digits) × IsAscii (take m.len m.text) };
}

impl MaskedNumber {
    /// The mask of a card number with these digits.
    pub(crate) fn of(digits: &[u8]) -> MaskedNumber
        requires least { least_digits ≤ length digits.now }
        requires greatest { length digits.now ≤ greatest_digits }
        requires each { list_all is_ascii_digit digits.now ≡ true }
        ensures { result ≡ masked_of digits.now }
    {
        let len = digits.len();
        let last = len - SHOWN_LAST;
        let mut text = [b'*'; GREATEST_LEN];
        text[..SHOWN_FIRST].copy_from_slice(&digits[..SHOWN_FIRST]);
        text[last..len].copy_from_slice(&digits[last..]);
        MaskedNumber { text, len }
    }

    /// Its bytes, digits and `*`.
    pub fn as_bytes(&self) -> &[u8]
        ensures value { result.now ≡ self.now }
        ensures ascii { IsAscii result.now }
    {
        &self.text[..self.len]
    }
}

impl fmt::Display for MaskedNumber {
    ghost use Rattle.std.specs.Prelude.{Some};

    ghost output = { λ mask. Some mask };

    fn fmt<W: fmt::Write>(&self, f: &mut fmt::Formatter<W>) -> fmt::Result {
        let Ok(text) = str::from_utf8(self.as_bytes()) else {
            unreachable!();
        };
        f.write_str(text)
    }
}

impl fmt::Debug for MaskedNumber {
    ghost use Rattle.std.specs.Prelude.{Some};
    ghost use Rattle.card_no.specs.CardNumbers.{mask_debug_text};

    ghost debug_output = { λ mask. Some (mask_debug_text mask) };

    fn fmt<W: fmt::Write>(&self, f: &mut fmt::Formatter<W>) -> fmt::Result {
        write!(f, "MaskedNumber({self})")
    }
}
