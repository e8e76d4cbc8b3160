//! The parts of a text, and bytes in an answer.

use std::str;

/// What stands before the first byte of this kind, and behind it.
pub fn split_at_first(text: &[u8], separator: u8) -> Option<(&[u8], &[u8])> {
    let place = text.iter().position(|byte| *byte == separator)?;
    let (before, rest) = text.split_at(place);
    let (_, behind) = rest.split_first()?;
    Some((before, behind))
}

/// The number that a text is.
pub fn number_of(text: &[u8]) -> Option<u64> {
    str::from_utf8(text).ok()?.parse().ok()
}

/// The number that a text is, where it isn't too large.
pub fn short_number_of(text: &[u8]) -> Option<u32> {
    u32::try_from(number_of(text)?).ok()
}

/// Puts a number behind an answer.
pub fn put_number(number: u64, answer: &mut String) -> Option<()> {
    write!(answer, "{number}").ok()
}

/// Puts bytes behind an answer.
pub fn put_bytes(bytes: &[u8], answer: &mut String) -> Option<()> {
    for byte in bytes {
        answer.push(char::from(*byte)).ok()?;
    }
    Some(())
}
