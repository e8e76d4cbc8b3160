//! The card of a message.

ghost use Rattle.std.specs.Prelude.{◌≡◌, None, IfSome, option_map, length, true};
ghost use Rattle.std.specs.List.{list_all};
ghost use Rattle.std.specs.Char.{is_ascii_digit};
ghost use Rattle.std.specs.Option.{option_copied};
ghost use Rattle.acq_message.specs.Cards.{track_of, card_of, expiry_of, expiry_at};
ghost use Rattle.acq_message.specs.Cards.{has_bad_track, has_two_cards};
ghost use Rattle.iso_codec.specs.Setting.{set_fault};

use card_no::split_track2;
use iso_codec::{Message, all_digits};

/// The card number of a message: element 2, else what stands before the first `=` or `D` of element
/// 35. It may be empty, and need not be valid. It takes no memory.
pub fn card_of(message: &Message) -> Option<&[u8]>
    ensures { option_copied result ≡ card_of message.now }
{
    card_number_of(message)
}

/// The same, and that element 2 may have it.
pub(crate) fn card_number_of(message: &Message) -> Option<&[u8]>
    ensures value { option_copied result ≡ card_of message.now }
    ensures fits { IfSome result (λ number. set_fault 2 number.now ≡ None) }
{
    match message.get(2) {
        Some(number) => Some(number),
        None => match track_of(message) {
            Some((number, _)) => Some(number),
            None => None,
        },
    }
}

/// The expiry of a message's card, YYMM: element 14, else the four digits behind the first `=` or
/// `D` of element 35, where four stand there. It takes no memory.
pub fn expiry_of(message: &Message) -> Option<&[u8]>
    ensures value { option_copied result ≡ expiry_of message.now }
    ensures size { IfSome result (λ expiry. length expiry.now ≡ 4) }
    ensures digits { IfSome result (λ expiry. list_all is_ascii_digit expiry.now ≡ true) }
{
    match message.get(14) {
        Some(expiry) => Some(expiry),
        None => match track_of(message) {
            Some((_, after)) => expiry_at(after),
            None => None,
        },
    }
}

fn expiry_at(after: &[u8]) -> Option<&[u8]>
    ensures value { option_copied result ≡ expiry_at after.now }
    ensures size { IfSome result (λ expiry. length expiry.now ≡ 4) }
    ensures digits { IfSome result (λ expiry. list_all is_ascii_digit expiry.now ≡ true) }
{
    if after.len() < 4 {
        return None;
    }
    let (expiry, _) = after.split_at(4);
    if all_digits(expiry) {
        Some(expiry)
    } else {
        None
    }
}

/// The card number in element 35, and what stands after it.
fn track_of(message: &Message) -> Option<(&[u8], &[u8])>
    ensures { option_map (λ track. (track.0.now, track.1.now)) result ≡ track_of message.now }
{
    match message.get(35) {
        Some(content) => split_track2(content),
        None => None,
    }
}

/// Whether element 35 is there and has no card number.
pub(crate) fn has_bad_track(message: &Message) -> bool
    ensures { result ≡ has_bad_track message.now }
{
    message.get(35).is_some() && track_of(message).is_none()
}

/// Whether elements 2 and 35 have different card numbers.
pub(crate) fn has_two_cards(message: &Message) -> bool
    ensures { result ≡ has_two_cards message.now }
{
    let Some(number) = message.get(2) else {
        return false;
    };
    match track_of(message) {
        Some((other, _)) => number != other,
        None => false,
    }
}
