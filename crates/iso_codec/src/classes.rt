//! Which texts are of which class of ISO 8583:1987.

ghost use Rattle.std.specs.Prelude.{◌≡◌};
ghost use Rattle.std.specs.List.{list_all};
ghost use Rattle.std.specs.Char.{is_ascii_digit, is_ascii_hexdigit};
ghost use Rattle.iso_codec.specs.Content.{is_alphanumeric, is_printable, is_track, is_signed};
ghost use Rattle.iso_codec.specs.Content.{has_class};

use crate::class::Class;

// The loops look at every byte, which measures faster than to leave at the first that fails.

/// Whether all bytes are of class n of ISO 8583:1987: `0` to `9`.
pub fn all_digits(text: &[u8]) -> bool
    ensures { result ≡ list_all is_ascii_digit text.now }
{
    let mut all = true;
    for b in text {
        all &= b.is_ascii_digit();
    }
    all
}

/// Whether all bytes are of class an of ISO 8583:1987: digits, letters of either case, the space.
pub fn all_alphanumeric(text: &[u8]) -> bool
    ensures { result ≡ list_all is_alphanumeric text.now }
{
    let mut all = true;
    for b in text {
        all &= matches!(*b, b'0'..=b'9' | b'A'..=b'Z' | b'a'..=b'z' | b' ');
    }
    all
}

/// Whether all bytes are of class ans of ISO 8583:1987: from the space, 0x20, to the tilde, 0x7E.
pub fn all_printable(text: &[u8]) -> bool
    ensures { result ≡ list_all is_printable text.now }
{
    let mut all = true;
    for b in text {
        all &= matches!(*b, b' '..=b'~');
    }
    all
}

fn all_track(text: &[u8]) -> bool
    ensures { result ≡ list_all is_track text.now }
{
    let mut all = true;
    for b in text {
        all &= matches!(*b, 0x30..=0x3f | b'D');
    }
    all
}

/// Whether all bytes are hexadecimal digits, of either case.
pub(crate) fn all_hex(text: &[u8]) -> bool
    ensures { result ≡ list_all is_ascii_hexdigit text.now }
{
    let mut all = true;
    for b in text {
        all &= b.is_ascii_hexdigit();
    }
    all
}

fn all_signed(text: &[u8]) -> bool
    ensures { result ≡ is_signed text.now }
{
    match text {
        [b'C' | b'D', digits @ ..] => all_digits(digits),
        _ => false,
    }
}

/// Whether a content has a class.
#[tactic(auto, unfolding(crate::specs::Content::has_class))]
pub(crate) fn fits_class(class: Class, text: &[u8]) -> bool
    ensures { result ≡ has_class class text.now }
{
    match class {
        Class::Numeric => all_digits(text),
        Class::Alphanumeric => all_alphanumeric(text),
        Class::Printable => all_printable(text),
        Class::Track => all_track(text),
        Class::Hex => all_hex(text),
        Class::SignedNumeric => all_signed(text),
        Class::Any => true,
    }
}
