//! What to look up for what came.

ghost use Rattle.std.specs.Prelude.{◌≡◌, true};
ghost use Rattle.acq_message.specs.Services.{is_recordable};
ghost use Rattle.acq_core.specs.Known.{wanted_by, wanted_by_key, wanted_with_room};
ghost use Rattle.acq_core.specs.Known.{wanted_for, prefix_in};

use crate::days::reconciled_day;
use acq_core::{Arrival, Wanted};
use acq_message::{
    CheckedRequest, Service, card_of, key_of, merchant_of, original_key, reference_in, terminal_of,
};
use card_no::{CardNumber, Prefix};
use day_totals::Day;
use iso_codec::Message;

/// What to look up on a day for what came.
pub fn wanted_by(today: Day, arrival: &Arrival) -> Wanted
    ensures { result ≡ wanted_by today arrival.now }
{
    match arrival {
        Arrival::Undecoded(_) | Arrival::Unserved(_) | Arrival::Malformed(_) | Arrival::CutOver =>
            Wanted::nothing(),
        Arrival::Requested(request) => wanted_for(today, request),
        Arrival::Answered {
            merchant,
            reference,
            ..
        } => Wanted {
            merchant: Some(*merchant),
            reference: Some(*reference),
            ..Wanted::nothing()
        },
        Arrival::RangeAdded(range) => Wanted {
            bounds: Some((range.low, range.high)),
            ..Wanted::nothing()
        },
        Arrival::RangeDropped { low, high } => Wanted {
            bounds: Some((*low, *high)),
            ..Wanted::nothing()
        },
        Arrival::Enrolled(merchant) => Wanted {
            merchant: Some(merchant.id),
            ..Wanted::nothing()
        },
        Arrival::TerminalAdded(terminal) => Wanted {
            merchant: Some(terminal.merchant),
            terminal: Some(terminal.id),
            ..Wanted::nothing()
        },
    }
}

/// What a request of each service needs.
fn wanted_for(today: Day, request: &CheckedRequest) -> Wanted
    ensures { result ≡ wanted_for today request.now.service request.now.message }
{
    let message = &request.as_request().message;
    match request.as_request().service {
        Service::Authorization | Service::Financial => Wanted {
            prefix: prefix_in(message),
            admitted: true,
            ..wanted_with_room(today, request)
        },
        Service::Completion => Wanted {
            reference: reference_in(message),
            ..wanted_with_room(today, request)
        },
        Service::Reversal | Service::ReversalAdvice => Wanted {
            original: original_key(request),
            ..wanted_with_room(today, request)
        },
        Service::Reconciliation => Wanted {
            totals_day: reconciled_day(today, message),
            ..wanted_by_key(request)
        },
        Service::NetworkManagement => Wanted::nothing(),
    }
}

/// What every recorded request needs.
fn wanted_by_key(request: &CheckedRequest) -> Wanted
    requires { is_recordable request.now.service ≡ true }
    ensures { result ≡ wanted_by_key request.now.service request.now.message }
{
    Wanted {
        merchant: Some(merchant_of(request)),
        terminal: Some(terminal_of(request)),
        key: Some(key_of(request)),
        ..Wanted::nothing()
    }
}

/// What a request needs that is accepted only where its day has room.
fn wanted_with_room(today: Day, request: &CheckedRequest) -> Wanted
    requires { is_recordable request.now.service ≡ true }
    ensures { result ≡ wanted_with_room today request.now.service request.now.message }
{
    Wanted {
        used_day: Some(today),
        ..wanted_by_key(request)
    }
}

/// The prefix of a valid card.
fn prefix_in(message: &Message) -> Option<Prefix>
    ensures { result ≡ prefix_in message.now }
{
    match CardNumber::read(card_of(message).unwrap_or(&[])) {
        Some(card) => Some(card.prefix()),
        None => None,
    }
}
