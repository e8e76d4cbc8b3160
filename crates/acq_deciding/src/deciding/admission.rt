//! Authorizations, sales and returns.

ghost use Rattle.std.specs.Prelude.{◌≡◌, ◌<◌, true, Some, IfOk};
ghost use Rattle.card_no.specs.CardNumbers.{is_valid_card};
ghost use Rattle.day_totals.specs.Day.{date_of};
ghost use Rattle.acq_message.specs.Services.{is_recordable};
ghost use Rattle.acq_message.specs.Elements.{or_empty};
ghost use Rattle.acq_message.specs.Cards.{card_of, expiry_of};
ghost use Rattle.acq_core.specs.Changes.{admitted_row, admitted_leg};
ghost use Rattle.acq_core.specs.Decision.{admission, is_expired, is_past};
ghost use Rattle.acq_core.specs.Looking.{known_of};
ghost use Rattle.acq_deciding.specs.Meaning.{meaning_of, is_feasible};
ghost use Rattle.acq_core.specs.Outcome.{query_of};

use super::{is_full, is_other_transaction};
use crate::decision::Decision;
use crate::recording::recorded_row;
use acq_core::{Change, Looked, Merchant, Output, Query, Status};
use acq_message::{
    CheckedRequest, Reference, ResponseCode, Service, amount_in, card_of, digits_value,
    draft_reply, expiry_of, merchant_of, sale_leg,
};
use card_no::{CardNumber, IssuerId, Range};
use day_totals::{Day, Leg};
use iso_codec::Message;
use std::alloc::{AllocError, Global};

/// What is to be done about an authorization, a sale or a return whose key is new.
pub(super) fn admission<'a>(
    looked: &'a Looked,
    merchant: &Merchant,
    request: &'a CheckedRequest,
) -> Decision<'a>
    requires { is_recordable request.now.service ≡ true }
    ensures value { meaning_of result ≡ admission (known_of looked.now) merchant.now request.now }
    ensures feasible { is_feasible (known_of looked.now) (meaning_of result) ≡ true }
{
    let message = &request.as_request().message;
    if is_other_transaction(merchant, request.as_request()) {
        return Decision::Refuses(request, ResponseCode::InvalidTransaction);
    }
    if !amount_in(message).is_accepted() {
        return Decision::Refuses(request, ResponseCode::InvalidAmount);
    }
    if !has_valid_card(message) {
        return Decision::Refuses(request, ResponseCode::InvalidCard);
    }
    if is_expired(looked.today, message) {
        return Decision::Refuses(request, ResponseCode::ExpiredCard);
    }
    let Some(range) = &looked.range else {
        return Decision::Refuses(request, ResponseCode::NoSuchIssuer);
    };
    if is_full(looked) {
        return Decision::Refuses(request, ResponseCode::LimitExceeded);
    }
    let reference = merchant.first_reference.reference_after(looked.admitted);
    Decision::Admits {
        request,
        range,
        reference,
    }
}

/// Whether a message has a valid card number.
pub fn has_valid_card(message: &Message) -> bool
    ensures { result ≡ is_valid_card (or_empty (card_of message.now)) }
{
    CardNumber::read(card_of(message).unwrap_or(&[])).is_some()
}

/// Whether the expiry of a message's card, where it is known, has passed on a day.
pub fn is_expired(today: Day, message: &Message) -> bool
    ensures { result ≡ is_expired today (expiry_of message.now) }
{
    let Some(expiry) = expiry_of(message) else {
        return false;
    };
    let (year, month) = expiry.split_at(2);
    is_past(today, digits_value(year), digits_value(month))
}

/// Whether a month of a year after 2000 isn't 1 to 12, or lies before the month of a day.
fn is_past(today: Day, year: u64, month: u64) -> bool
    requires year { year < 100 }
    requires month { month < 100 }
    ensures { result ≡ is_past (date_of today) year month }
{
    !(1..=12).contains(&month)
        || (2000 + year) * 12 + month < u64::from(today.year()) * 12 + u64::from(today.month())
}

/// What goes out and what changes where a request is admitted: its card's issuer is asked.
pub(crate) fn admitted(
    alloc: Global,
    today: Day,
    request: &CheckedRequest,
    range: &Range,
    reference: Reference,
) -> Result<(Output, Option<Change>), AllocError>
    requires recordable { is_recordable request.now.service ≡ true }
    requires card { is_valid_card (or_empty (card_of request.now.message)) ≡ true }
    ensures output { IfOk result (λ x. x.0
        ≡ Output.Ask (query_of request.now range.now reference)) }
    ensures change { IfOk result (λ x. x.1
        ≡ Some (Change.AddRequest (admitted_row today request.now range.now reference))) }
{
    let query = query_of(alloc, request, range, reference)?;
    let message = request.as_request();
    let draft = draft_reply(alloc, today, message, reference)?;
    let mut row = recorded_row(alloc, today, request, draft)?;
    row.status = Status::Pending;
    row.admitted = true;
    row.reference = Some(reference);
    row.leg = admitted_leg(message.service, sale_leg(&message.message));
    row.hold_days = Some(range.hold_days);
    Ok((Output::Ask(query), Some(Change::AddRequest(row))))
}

/// What the issuer is asked.
fn query_of(
    alloc: Global,
    request: &CheckedRequest,
    range: &Range,
    reference: Reference,
) -> Result<Query, AllocError>
    requires recordable { is_recordable request.now.service ≡ true }
    requires card { is_valid_card (or_empty (card_of request.now.message)) ≡ true }
    ensures { IfOk result (λ query. query ≡ query_of request.now range.now reference) }
{
    let merchant = merchant_of(request);
    let request = request.as_request();
    let message = &request.message;
    let Some(card) = CardNumber::read(card_of(message).unwrap_or(&[])) else {
        unreachable!();
    };
    let issuer = IssuerId::from_slice(alloc, range.issuer.as_bytes())?;
    Ok(Query {
        merchant,
        reference,
        service: request.service,
        leg: sale_leg(message),
        card,
        amount: amount_in(message),
        issuer,
    })
}

/// A hold has no leg until it is completed.
fn admitted_leg(service: Service, leg: Leg) -> Leg
    ensures { result ≡ admitted_leg service leg }
{
    match service {
        Service::Financial => leg,
        _ => Leg::Credit,
    }
}
