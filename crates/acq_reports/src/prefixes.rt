//! Prefixes of cards as text.

ghost use Rattle.std.specs.Prelude.{◌≡◌};
ghost use Rattle.day_totals.specs.Digits.{zero_padded};

use day_totals::write_digits;

/// The eight digits of a prefix, as a range's ends are written.
pub fn prefix_text(prefix: u32) -> [u8; 8]
    ensures { result ≡ zero_padded 8 prefix }
{
    let mut text = [b'0'; 8];
    write_digits(u64::from(prefix), &mut text);
    text
}
