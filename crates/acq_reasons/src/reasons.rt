//! Why what came gets another code than 00: the checks in their order, over what was looked up.

ghost use Rattle.std.specs.Prelude.{◌≡◌, ◌∷◌, [], IfOk, true, None, if◌then◌else◌};
ghost use Rattle.std.specs.List.{list_all};
ghost use Rattle.std.specs.Char.{is_ascii_digit};
ghost use Rattle.acq_message.specs.Elements.{text_at};
ghost use Rattle.acq_message.specs.Services.{is_recordable};
ghost use Rattle.acq_core.specs.Known.{reconciled_day};
ghost use Rattle.acq_core.specs.Decision.{is_full, open_hold};
ghost use Rattle.acq_core.specs.Looking.{known_of};
ghost use Rattle.acq_core.specs.Tables.{prior_of};
ghost use Rattle.iso_codec.specs.Message.{content_of};
ghost use Rattle.acq_reasons.specs.Reasons.{reason_for, request_reason, merchant_reason};
ghost use Rattle.acq_reasons.specs.Reasons.{repeat_reason, reason_by, admission_reason};
ghost use Rattle.acq_reasons.specs.Reasons.{completion_reason, completion_reason_of, is_hold};
ghost use Rattle.acq_reasons.specs.Reasons.{shut_hold, reversal_reason, final_original};
ghost use Rattle.acq_reasons.specs.Reasons.{approved_original, unapproved_original, first_reason};
ghost use Rattle.acq_reasons.specs.Reasons.{reconciliation_reason, network_reason};
ghost use Rattle.acq_reasons.specs.Reasons.{answer_reason, verdict_reason, is_approval};
ghost use Rattle.acq_reasons.specs.Reasons.{has_other_transaction, has_other_currency};

use crate::first_check::malformation;
use crate::reason::Reason;
use acq_core::{Arrival, Looked, Merchant, Request, Status};
use acq_deciding::checks;
use acq_message::{
    CheckedRequest, Service, Verdict, amount_in, original_acquirer, remaining_in, text_at,
};
use acq_rules::{has_essence_of, is_final_for, is_in_balance, is_open_at, reconciled_day};
use iso_codec::{Message, all_digits};
use std::alloc::{AllocError, Global};

/// Why what came gets another code than 00, if it does; a repeat gets the code that was kept. An
/// `Err` says that memory was wanting, and nothing else.
pub fn reason_for(
    alloc: Global,
    looked: &Looked,
    arrival: &Arrival,
) -> Result<Option<Reason>, AllocError>
    ensures { IfOk result (λ why. why ≡ reason_for (known_of looked.now) arrival.now) }
{
    match arrival {
        Arrival::Malformed(request) => Ok(Some(malformation(request.service, &request.message))),
        Arrival::Requested(request) => request_reason(alloc, looked, request),
        Arrival::Answered { verdict, .. } => Ok(answer_reason(looked, *verdict)),
        Arrival::Undecoded(_)
        | Arrival::Unserved(_)
        | Arrival::CutOver
        | Arrival::RangeAdded(_)
        | Arrival::RangeDropped { .. }
        | Arrival::Enrolled(_)
        | Arrival::TerminalAdded(_) => Ok(None),
    }
}

/// Of a request that the first check passes.
fn request_reason(
    alloc: Global,
    looked: &Looked,
    request: &CheckedRequest,
) -> Result<Option<Reason>, AllocError>
    ensures { IfOk result (λ why. why
        ≡ request_reason request.now.service (known_of looked.now) request.now) }
{
    match request.as_request().service {
        Service::NetworkManagement => Ok(network_reason(&request.as_request().message)),
        _ => merchant_reason(alloc, looked, request),
    }
}

/// Of one that is recorded if an enrolled merchant's terminal sent it.
fn merchant_reason(
    alloc: Global,
    looked: &Looked,
    request: &CheckedRequest,
) -> Result<Option<Reason>, AllocError>
    requires { is_recordable request.now.service ≡ true }
    ensures { IfOk result (λ why. why
        ≡ merchant_reason (known_of looked.now) request.now looked.now.merchant) }
{
    let Some(merchant) = &looked.merchant else {
        return Ok(Some(Reason::UnknownMerchant));
    };
    if !looked.has_terminal {
        return Ok(Some(Reason::UnknownTerminal));
    }
    match &looked.recorded {
        Some(recorded) => repeat_reason(alloc, request, recorded),
        None => Ok(reason_by(looked, merchant, request)),
    }
}

/// Of one whose key is recorded.
fn repeat_reason(
    alloc: Global,
    request: &CheckedRequest,
    recorded: &Request,
) -> Result<Option<Reason>, AllocError>
    ensures { IfOk result (λ why. why ≡ repeat_reason request.now (prior_of recorded.now)) }
{
    if has_essence_of(alloc, request.as_request(), recorded)? {
        Ok(None)
    } else {
        Ok(Some(Reason::OtherRequest))
    }
}

/// Of one whose key is new, by its service.
fn reason_by(looked: &Looked, merchant: &Merchant, request: &CheckedRequest) -> Option<Reason>
    requires { is_recordable request.now.service ≡ true }
    ensures { result
        ≡ reason_by request.now.service (known_of looked.now) merchant.now request.now }
{
    match request.as_request().service {
        Service::Authorization | Service::Financial => admission_reason(looked, merchant, request),
        Service::Completion => completion_reason(looked, merchant, request),
        Service::Reversal | Service::ReversalAdvice => reversal_reason(looked, request),
        Service::Reconciliation => reconciliation_reason(looked, request),
        Service::NetworkManagement => unreachable!(),
    }
}

/// Of an authorization, a sale or a return.
fn admission_reason(
    looked: &Looked,
    merchant: &Merchant,
    request: &CheckedRequest,
) -> Option<Reason>
    ensures { result ≡ admission_reason (known_of looked.now) merchant.now request.now }
{
    let message = &request.as_request().message;
    if has_other_transaction(request) {
        return Some(Reason::OtherTransaction);
    }
    if has_other_currency(merchant, request) {
        return Some(Reason::OtherCurrency);
    }
    if !amount_in(message).is_accepted() {
        return Some(Reason::AmountOutOfRange);
    }
    if !checks::has_valid_card(message) {
        return Some(Reason::InvalidCard);
    }
    if checks::is_expired(looked.today, message) {
        return Some(Reason::ExpiredCard);
    }
    if looked.range.is_none() {
        return Some(Reason::NoRange);
    }
    full_day(looked)
}

/// The day is full, or nothing is in the way.
fn full_day(looked: &Looked) -> Option<Reason>
    ensures { result ≡ first_reason ((is_full (known_of looked.now), Reason.DayFull) ∷ []) None }
{
    if checks::is_full(looked) {
        Some(Reason::DayFull)
    } else {
        None
    }
}

/// Whether element 3 asks for another transaction than the service has.
fn has_other_transaction(request: &CheckedRequest) -> bool
    ensures { result ≡ has_other_transaction request.now }
{
    !checks::has_transaction(request.as_request())
}

/// Whether element 49 is another currency than the merchant's.
fn has_other_currency(merchant: &Merchant, request: &CheckedRequest) -> bool
    ensures { result ≡ has_other_currency merchant.now request.now }
{
    text_at(&request.as_request().message, 49) != merchant.currency.to_bytes().as_slice()
}

/// Of a completion.
fn completion_reason(
    looked: &Looked,
    merchant: &Merchant,
    request: &CheckedRequest,
) -> Option<Reason>
    ensures { result ≡ completion_reason (known_of looked.now) merchant.now request.now }
{
    if has_other_transaction(request) {
        return Some(Reason::OtherTransaction);
    }
    if has_other_currency(merchant, request) {
        return Some(Reason::OtherCurrency);
    }
    if !amount_in(&request.as_request().message).is_accepted() {
        return Some(Reason::AmountOutOfRange);
    }
    hold_reason(looked, request)
}

/// Of a completion whose own elements are well, by the hold that it names.
fn hold_reason(looked: &Looked, request: &CheckedRequest) -> Option<Reason>
    ensures { let k = known_of looked.now in result
        ≡ completion_reason_of k request.now (open_hold request.now.moment k.referred) }
{
    let Some(hold) = &looked.referred else {
        return Some(missing_hold(&request.as_request().message));
    };
    if !is_open_at(request.as_request().moment, hold) {
        return Some(no_open_hold(hold));
    }
    if amount_in(&request.as_request().message).number() > hold.amount.number() {
        return Some(Reason::AboveHold);
    }
    full_day(looked)
}

/// Why element 37 refers to nothing.
fn missing_hold(message: &Message) -> Reason
    ensures { let digits = list_all is_ascii_digit (text_at message.now 37) in
        result ≡ (if digits then Reason.NoSuchReference else Reason.BadReference) }
{
    if all_digits(text_at(message, 37)) {
        Reason::NoSuchReference
    } else {
        Reason::BadReference
    }
}

/// Why a request that element 37 refers to is no open hold.
fn no_open_hold(request: &Request) -> Reason
    ensures { let p = prior_of request.now in
        result ≡ (if is_hold p.key.service then shut_hold p p.reply_state else Reason.NotAHold) }
{
    match request.key.service {
        Service::Authorization => shut_hold(request),
        _ => Reason::NotAHold,
    }
}

/// Why a hold isn't open.
fn shut_hold(hold: &Request) -> Reason
    requires { hold.now.key.service ≡ Service.Authorization }
    ensures { let p = prior_of hold.now in result ≡ shut_hold p p.reply_state }
{
    match hold.status {
        Status::Pending => Reason::HoldWaits,
        Status::ReversedPending => Reason::HoldReversedEarly,
        Status::Approved | Status::Lowered => match hold.hold_end {
            Some(_) => Reason::HoldExpired,
            None => ended_hold(&hold.reply),
        },
        _ => ended_hold(&hold.reply),
    }
}

/// Why a hold that has no last second isn't open: by the code that it got.
fn ended_hold(reply: &Message) -> Reason
    ensures { result
        ≡ (if is_approval reply.now then Reason.HoldEnded else Reason.HoldDeclined) }
{
    if is_approval(reply) {
        Reason::HoldEnded
    } else {
        Reason::HoldDeclined
    }
}

/// Whether a reply says 00.
fn is_approval(reply: &Message) -> bool
    ensures { result ≡ is_approval reply.now }
{
    text_at(reply, 39) == b"00".as_slice()
}

/// Of a reversal.
fn reversal_reason(looked: &Looked, request: &CheckedRequest) -> Option<Reason>
    ensures { result ≡ reversal_reason (known_of looked.now) request.now }
{
    let message = &request.as_request().message;
    let Some(original) = &looked.original else {
        return Some(Reason::NoOriginal);
    };
    if !checks::fits_acquirer(original_acquirer(message), &original.acquirer) {
        return Some(Reason::OtherAcquirer);
    }
    let remaining = remaining_in(message);
    if is_final_for(remaining, original.status) {
        return Some(final_original(original));
    }
    if amount_in(message) != original.amount {
        return Some(Reason::OtherAmount);
    }
    if remaining.number() >= original.amount.number() {
        return Some(Reason::NothingTaken);
    }
    full_day(looked)
}

/// Why an original can't be reversed.
fn final_original(original: &Request) -> Reason
    ensures { let p = prior_of original.now in result ≡ final_original p p.reply_state }
{
    match original.status {
        Status::Pending => Reason::OriginalWaits,
        Status::ReversedPending => Reason::OriginalReversed,
        _ if is_approval(&original.reply) => approved_original(original),
        _ => unapproved_original(original),
    }
}

/// Of an original that got 00.
fn approved_original(original: &Request) -> Reason
    ensures { let p = prior_of original.now in
        result ≡ approved_original p.key.service p.hold_end }
{
    if original.key.service != Service::Authorization {
        return Reason::OriginalReversed;
    }
    match (original.status, original.hold_end) {
        (Status::Approved | Status::Lowered, Some(_)) => Reason::OriginalLowered,
        _ => Reason::OriginalEnded,
    }
}

/// Of an original that got another code: an admitted one was declined.
fn unapproved_original(original: &Request) -> Reason
    ensures { let p = prior_of original.now in
        result ≡ unapproved_original p.key.service p.reference }
{
    match (original.key.service, original.reference) {
        (Service::Completion, _) | (_, None) => Reason::OriginalRefused,
        (_, Some(_)) => Reason::OriginalDeclined,
    }
}

/// Of a reconciliation.
fn reconciliation_reason(looked: &Looked, request: &CheckedRequest) -> Option<Reason>
    ensures { let k = known_of looked.now in result ≡ reconciliation_reason k request.now
        (reconciled_day k.today (content_of request.now.message.elements 15)) }
{
    if reconciled_day(looked.today, &request.as_request().message).is_none() {
        return Some(Reason::NoSuchDay);
    }
    if is_in_balance(looked, request) {
        None
    } else {
        Some(Reason::OutOfBalance)
    }
}

/// Of network management.
fn network_reason(message: &Message) -> Option<Reason>
    ensures { result ≡ network_reason message.now }
{
    match message.get(70) {
        Some(b"001" | b"002" | b"301") => None,
        _ => Some(Reason::UnknownNetworkCode),
    }
}

/// Of an issuer's answer.
fn answer_reason(looked: &Looked, verdict: Verdict) -> Option<Reason>
    ensures { let k = known_of looked.now in result ≡ answer_reason k verdict k.merchant }
{
    match (&looked.merchant, &looked.referred) {
        (Some(_), Some(request)) => match request.status {
            Status::Pending => verdict_reason(verdict),
            _ => None,
        },
        _ => None,
    }
}

/// Of what an issuer says.
fn verdict_reason(verdict: Verdict) -> Option<Reason>
    ensures { result ≡ verdict_reason verdict }
{
    match verdict {
        Verdict::Approved(_) => None,
        Verdict::Declined(code) => Some(Reason::Declined(code)),
        Verdict::NoAnswer => Some(Reason::NoAnswer),
    }
}
