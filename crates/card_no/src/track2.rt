//! The card number in track 2.

ghost use Rattle.std.specs.Prelude.{◌≡◌, option_map, position};
ghost use Rattle.card_no.specs.Track2.{is_separator, may_be_number, track2_of};

use crate::digits::{GREATEST_LEN, all_digits};

/// The card number of track 2 and what stands after it: the parts before and after the first `=` or
/// `D`. `None` where there is no such separator, or something else than 0 to 19 digits before it.
/// The number need not be a valid one. It takes no memory.
pub fn split_track2(track: &[u8]) -> Option<(&[u8], &[u8])>
    ensures { option_map (λ p. (p.0.now, p.1.now)) result ≡ track2_of track.now }
{
    let Some(place) = separator_place(track) else {
        return None;
    };
    let number = &track[..place];
    if !may_be_number(number) {
        return None;
    }
    Some((number, &track[place + 1..]))
}

/// Whether a text is digits, and no more than a card number has.
fn may_be_number(text: &[u8]) -> bool
    ensures { result ≡ may_be_number text.now }
{
    text.len() <= GREATEST_LEN && all_digits(text)
}

/// Where the first `=` or `D` stands.
fn separator_place(track: &[u8]) -> Option<usize>
    ensures { result ≡ position is_separator track.now }
{
    track.iter().position(|b| matches!(*b, b'=' | b'D'))
}
