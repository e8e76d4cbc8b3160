//! Why the first check refuses a request.

ghost use Rattle.std.specs.Prelude.{◌≡◌};
ghost use Rattle.acq_message.specs.Cards.{has_bad_track, has_two_cards};
ghost use Rattle.acq_message.specs.Elements.{has};
ghost use Rattle.acq_message.specs.FirstCheck.{has_one_of};
ghost use Rattle.acq_message.specs.Services.{needed_card};
ghost use Rattle.acq_reasons.specs.Reasons.{malformation, bad_element, bad_content};
ghost use Rattle.acq_reasons.specs.Reasons.{first_missing, first_unverifiable};

use crate::reason::Reason;
use acq_message::Service;
use card_no::split_track2;
use iso_codec::Message;

/// The elements of a PIN block and of authentication codes.
const UNVERIFIABLE: [u8; 3] = [52, 64, 128];

/// Why the first check refuses a request of a service.
pub(crate) fn malformation(service: Service, message: &Message) -> Reason
    ensures { result ≡ malformation service message.now }
{
    if let Some(number) = first_missing(message, service.needed()) {
        return Reason::MissingElement(number);
    }
    if !has_needed_card(service, message) {
        return Reason::MissingCard;
    }
    match first_unverifiable(message) {
        Some(number) => Reason::Unverifiable(number),
        None => bad_content(message),
    }
}

/// Of a message whose elements are there and can be checked: its card, or what is to remain.
fn bad_content(message: &Message) -> Reason
    ensures { result ≡ bad_content message.now }
{
    if has_bad_track(message) {
        Reason::TrackWithoutCard
    } else if has_two_cards(message) {
        Reason::TwoCards
    } else {
        Reason::BadRemainder
    }
}

/// The first of these elements that isn't there.
fn first_missing(message: &Message, numbers: &[u8]) -> Option<u8>
    ensures { result ≡ first_missing message.now numbers.now }
{
    numbers
        .iter()
        .copied()
        .find(|number| !has(message, *number))
}

/// The first element that is there and can't be checked.
fn first_unverifiable(message: &Message) -> Option<u8>
    ensures { result ≡ first_unverifiable message.now }
{
    UNVERIFIABLE
        .iter()
        .copied()
        .find(|number| has(message, *number))
}

/// Whether a card is there, where a request needs one.
fn has_needed_card(service: Service, message: &Message) -> bool
    ensures { result ≡ has_one_of message.now (needed_card service) }
{
    match service {
        Service::Authorization | Service::Financial => has(message, 2) || has(message, 35),
        _ => true,
    }
}

/// Whether element 35 is there and has no card number.
fn has_bad_track(message: &Message) -> bool
    ensures { result ≡ has_bad_track message.now }
{
    match message.get(35) {
        Some(track) => split_track2(track).is_none(),
        None => false,
    }
}

/// Whether elements 2 and 35 have different card numbers.
fn has_two_cards(message: &Message) -> bool
    ensures { result ≡ has_two_cards message.now }
{
    let (Some(number), Some(track)) = (message.get(2), message.get(35)) else {
        return false;
    };
    match split_track2(track) {
        Some((other, _)) => number != other,
        None => false,
    }
}

fn has(message: &Message, number: u8) -> bool
    ensures { result ≡ has message.now number }
{
    message.get(number).is_some()
}
