//! Decimal digits, as bytes from 0x30 to 0x39.

ghost use Rattle.std.specs.Prelude.{◌≡◌, ◌<◌, ◌≤◌, ◌^◌, length, true};
ghost use Rattle.std.specs.List.{list_all};
ghost use Rattle.std.specs.Char.{is_ascii_digit};
ghost use Rattle.std.specs.Str.Parse.{digits_value};

/// The number that sixteen digits or fewer spell, as many as an element's number has.
pub fn digits_value(digits: &[u8]) -> u64
    requires each { list_all is_ascii_digit digits.now ≡ true }
    requires size { length digits.now ≤ 16 }
    ensures value { result ≡ digits_value 10 digits.now }
    ensures bound { result < 10 ^ length digits.now }
{
    let mut number = 0;
    for b in digits {
        number = number * 10 + u64::from(*b - b'0');
    }
    number
}
