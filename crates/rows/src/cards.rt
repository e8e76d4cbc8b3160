//! Card numbers and track 2.

use crate::texts::put_bytes;
use card_no::{CardNumber, Prefix, split_track2};

/// Puts a card number's prefix and its digits as they may be shown.
pub fn put_card(text: &[u8], answer: &mut String) -> Option<()> {
    let Some(card) = CardNumber::read(text) else {
        return answer.push_str("none").ok();
    };
    put_prefix(card.prefix().number(), answer)?;
    answer.push_str(" ").ok()?;
    put_bytes(card.masked().as_bytes(), answer)
}

/// Puts the digits of a prefix.
pub fn put_prefix(number: u32, answer: &mut String) -> Option<()> {
    let width = Prefix::DIGITS;
    write!(answer, "{number:0width$}").ok()
}

/// Puts what stands before the separator of a track 2, and behind it.
pub fn put_track2(text: &[u8], answer: &mut String) -> Option<()> {
    let Some((number, rest)) = split_track2(text) else {
        return answer.push_str("none").ok();
    };
    answer.push_str("\"").ok()?;
    put_bytes(number, answer)?;
    answer.push_str("\" and \"").ok()?;
    put_bytes(rest, answer)?;
    answer.push_str("\"").ok()
}
