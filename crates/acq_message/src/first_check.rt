//! The first check of every request (own profile).

ghost use Rattle.std.specs.Prelude.{◌≡◌};
ghost use Rattle.std.specs.List.{list_all, list_any};
ghost use Rattle.acq_message.specs.Services.{needed, needed_card};
ghost use Rattle.acq_message.specs.Elements.{has};
ghost use Rattle.acq_message.specs.FirstCheck.{is_malformed, has_one_of, unverifiable};
ghost use Rattle.acq_message.specs.FirstCheck.{has_bad_remainder};

use crate::card::{has_bad_track, has_two_cards};
use crate::elements::remaining_text;
use crate::service::Service;
use iso_codec::{Message, all_digits};

/// Whether the first check refuses a request: an element is missing that it needs, one is there
/// that the host can't check, its card is not clear, or not what a reversal lets remain. It takes
/// no memory.
pub fn is_malformed(service: Service, message: &Message) -> bool
    ensures { result ≡ is_malformed service message.now }
{
    !is_complete(service, message)
        || !has_needed_card(service, message)
        || has_unverifiable(message)
        || has_bad_track(message)
        || has_two_cards(message)
        || has_bad_remainder(service, message)
}

/// Whether all elements that a request needs are there.
fn is_complete(service: Service, message: &Message) -> bool
    ensures { result ≡ list_all (has message.now) (needed service) }
{
    service.needed().iter().all(|number| has(message, *number))
}

/// Whether a card is there, where a request needs one.
fn has_needed_card(service: Service, message: &Message) -> bool
    ensures { result ≡ has_one_of message.now (needed_card service) }
{
    match service {
        Service::Authorization | Service::Financial => has(message, 2) || has(message, 35),
        _ => true,
    }
}

/// Whether an element is there that the host can't check.
fn has_unverifiable(message: &Message) -> bool
    ensures { result ≡ list_any (has message.now) unverifiable }
{
    has(message, 52) || has(message, 64) || has(message, 128)
}

/// Whether element 95 of a reversal is there, and doesn't begin with an amount of twelve digits.
fn has_bad_remainder(service: Service, message: &Message) -> bool
    ensures { result ≡ has_bad_remainder service message.now }
{
    match service {
        Service::Reversal | Service::ReversalAdvice => !all_digits(remaining_text(message)),
        _ => false,
    }
}

fn has(message: &Message, number: u8) -> bool
    ensures { result ≡ has message.now number }
{
    message.get(number).is_some()
}
