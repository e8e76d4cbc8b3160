//! The sixteen hexadecimal digits of a bitmap, written and read without the branches at each digit
//! that the crate `hex` takes.

ghost use Rattle.std.specs.Prelude.{◌≡◌, true, Some, length};
ghost use Rattle.std.specs.List.{list_all};
ghost use Rattle.hex.specs.Hex.{is_hex_digit, hex_digit_value};
ghost use Rattle.iso_codec.specs.Message.{IsBitmap, is_upper_hex};

static UPPER_DIGITS: [u8; 16] = *b"0123456789ABCDEF";

/// The digits of a bitmap, with capitals.
pub fn digits_of_bits(bits: u64) -> [u8; 16]
    ensures digits { IsBitmap result bits }
    ensures capitals { list_all is_upper_hex result ≡ true }
{
    let bytes = bits.to_be_bytes();
    let mut digits = [0; 16];
    for i in 0..8 {
        let byte = bytes[i];
        digits[2 * i] = UPPER_DIGITS[(byte / 16) as usize];
        digits[2 * i + 1] = UPPER_DIGITS[(byte % 16) as usize];
    }
    digits
}

/// The value of a digit of either case: its lower half, and 9 more for a letter, since those alone
/// are 0x40 and above.
fn value(digit: u8) -> u8
    requires { is_hex_digit digit ≡ true }
    ensures { hex_digit_value digit ≡ Some result }
{
    digit % 16 + digit / 64 * 9
}

/// The bitmap that digits of either case spell.
pub fn bits_of_digits(digits: &[u8]) -> u64
    requires size { length digits.now ≡ 16 }
    requires hexadecimal { list_all is_hex_digit digits.now ≡ true }
    ensures { IsBitmap digits.now result }
{
    let mut bytes = [0; 8];
    for i in 0..8 {
        bytes[i] = value(digits[2 * i]) * 16 + value(digits[2 * i + 1]);
    }
    u64::from_be_bytes(bytes)
}
