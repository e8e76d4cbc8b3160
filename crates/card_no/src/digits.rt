//! Decimal digits, as bytes from 0x30 to 0x39.

ghost use Rattle.std.specs.Prelude.{◌≡◌, ◌<◌, ◌≤◌, ◌^◌, length, true};
ghost use Rattle.std.specs.List.{list_all};
ghost use Rattle.std.specs.Char.{is_ascii_digit};
ghost use Rattle.std.specs.Str.Parse.{digits_value};

/// The most digits that a card number has.
pub(crate) const GREATEST_LEN: usize = 19;

/// Whether a text is digits alone.
pub(crate) fn all_digits(text: &[u8]) -> bool
    ensures { result ≡ list_all is_ascii_digit text.now }
{
    text.iter().all(|b| b.is_ascii_digit())
}

/// The number that nine digits or fewer spell, as many as fit in any case.
pub(crate) fn number(digits: &[u8]) -> u32
    requires each { list_all is_ascii_digit digits.now ≡ true }
    requires size { length digits.now ≤ 9 }
    ensures value { result ≡ digits_value 10 digits.now }
    ensures bound { result < 10 ^ length digits.now }
{
    let mut number = 0;
    for b in digits {
        number = number * 10 + u32::from(*b - b'0');
    }
    number
}
