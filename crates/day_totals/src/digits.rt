//! Decimal digits of a fixed length.

ghost use Rattle.std.specs.Prelude.{◌≡◌, length};
ghost use Rattle.day_totals.specs.Digits.{zero_padded};

/// Fills the text with the last digits of a number, with zeros in front.
pub fn write_digits(mut number: u64, text: &mut [u8])
    ensures { text.new ≡ zero_padded (length text.old) number }
{
    for place in (0..text.len()).rev() {
        text[place] = b'0' + (number % 10) as u8;
        number /= 10;
    }
}
