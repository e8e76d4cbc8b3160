//! The order of the checks: what is to be done about what came, over what was looked up.

ghost use Rattle.std.specs.Prelude.{◌≡◌, nat_lt, true, IfOk, if◌then◌else◌};
ghost use Rattle.std.specs.List.{list_any};
ghost use Rattle.std.specs.Str.{bytes_eq};
ghost use Rattle.day_totals.specs.Day.{last_day};
ghost use Rattle.acq_message.specs.Elements.{essence_of, transaction_in};
ghost use Rattle.acq_message.specs.Services.{is_recordable};
ghost use Rattle.acq_core.specs.Decision as decided;
ghost use Rattle.acq_core.specs.Decision.{decision, decision_of_request, decision_of_merchant};
ghost use Rattle.acq_core.specs.Decision.{decision_of_repeat, decision_by, repeat_of, is_full};
ghost use Rattle.acq_core.specs.Decision.{is_other_transaction, transactions};
ghost use Rattle.acq_core.specs.Known.{Known};
ghost use Rattle.acq_core.specs.Looking.{known_of};
ghost use Rattle.acq_deciding.specs.Meaning.{meaning_of, is_feasible};
ghost use Rattle.acq_core.specs.Tables.{prior_of};

pub(crate) mod admission;
pub(crate) mod answer;
pub(crate) mod completion;
mod enrolment;
mod network;
mod ranges;
pub(crate) mod reconciliation;
pub(crate) mod reversal;

use crate::decision::Decision;
use acq_core::{Arrival, Looked, Merchant, Output, Request, Status};
use acq_message::{CheckedRequest, RequestMessage, ResponseCode, Service, text_at, transaction_in};
use acq_rules::has_essence_of;
use day_totals::Day;
use std::alloc::{AllocError, Global};

/// What is to be done about what came.
pub(crate) fn decision<'a>(
    alloc: Global,
    looked: &'a Looked,
    arrival: &'a Arrival,
) -> Result<Decision<'a>, AllocError>
    ensures value { IfOk result (λ d. meaning_of d ≡ decision (known_of looked.now) arrival.now) }
    ensures feasible { IfOk result (λ d. is_feasible (known_of looked.now) (meaning_of d) ≡ true) }
{
    match arrival {
        Arrival::Undecoded(fault) => Ok(Decision::Reports(Output::Undecodable(*fault))),
        Arrival::Unserved(message) => Ok(Decision::Reports(Output::UnservedType(message.kind()))),
        Arrival::Malformed(request) => Ok(Decision::Replies(request, ResponseCode::FormatError)),
        Arrival::Requested(request) => decision_of_request(alloc, looked, request),
        Arrival::Answered {
            moment,
            verdict,
            ..
        } => Ok(answer::decision_of_answer(looked, *moment, *verdict)),
        Arrival::CutOver => Ok(decision_of_cutover(looked.today)),
        Arrival::RangeAdded(range) => Ok(ranges::decision_of_new_range(range, &looked.overlapped)),
        Arrival::RangeDropped { low, high } => {
            Ok(ranges::decision_of_old_range(*low, *high, &looked.overlapped))
        }
        Arrival::Enrolled(merchant) => {
            Ok(enrolment::decision_of_enrolment(*merchant, looked.merchant))
        }
        Arrival::TerminalAdded(terminal) => Ok(enrolment::decision_of_terminal(
            *terminal,
            looked.has_terminal,
            looked.merchant,
        )),
    }
}

/// A day that ends, unless it is the last.
fn decision_of_cutover(today: Day) -> Decision<'static>
    ensures value { meaning_of result
        ≡ (if nat_lt today last_day then decided.CutsOver else decided.Reports Output.LastDay) }
    ensures feasible { (k : Known) → k.today ≡ today → is_feasible k (meaning_of result) ≡ true }
{
    match today.next() {
        Some(_) => Decision::CutsOver,
        None => Decision::Reports(Output::LastDay),
    }
}

/// A request that the first check passes. Network management needs no merchant and is never
/// recorded.
fn decision_of_request<'a>(
    alloc: Global,
    looked: &'a Looked,
    request: &'a CheckedRequest,
) -> Result<Decision<'a>, AllocError>
    ensures value { IfOk result (λ d. meaning_of d
        ≡ decision_of_request request.now.service (known_of looked.now) request.now) }
    ensures feasible { IfOk result (λ d. is_feasible (known_of looked.now) (meaning_of d) ≡ true) }
{
    let message = request.as_request();
    match message.service {
        Service::NetworkManagement => {
            Ok(Decision::Replies(message, network::network_response(&message.message)))
        }
        _ => decision_of_merchant(alloc, looked, request),
    }
}

/// Only enrolled merchants' terminals are served.
fn decision_of_merchant<'a>(
    alloc: Global,
    looked: &'a Looked,
    request: &'a CheckedRequest,
) -> Result<Decision<'a>, AllocError>
    requires { is_recordable request.now.service ≡ true }
    ensures value { IfOk result (λ d. meaning_of d
        ≡ decision_of_merchant (known_of looked.now) request.now looked.now.merchant) }
    ensures feasible { IfOk result (λ d. is_feasible (known_of looked.now) (meaning_of d) ≡ true) }
{
    match &looked.merchant {
        Some(merchant) if looked.has_terminal => match &looked.recorded {
            Some(recorded) => decision_of_repeat(alloc, request, recorded),
            None => Ok(decision_by_service(looked, merchant, request)),
        },
        _ => Ok(Decision::Replies(request.as_request(), ResponseCode::InvalidMerchant)),
    }
}

/// A request whose key is recorded: a repeat must be alike in its essence.
fn decision_of_repeat<'a>(
    alloc: Global,
    request: &'a CheckedRequest,
    recorded: &'a Request,
) -> Result<Decision<'a>, AllocError>
    ensures value { IfOk result (λ d. meaning_of d
        ≡ decision_of_repeat request.now (prior_of recorded.now)) }
    ensures feasible { (k : Known) → IfOk result (λ d. is_feasible k (meaning_of d) ≡ true) }
{
    let message = request.as_request();
    if has_essence_of(alloc, message, recorded)? {
        Ok(repeat_of(recorded))
    } else {
        Ok(Decision::Replies(message, ResponseCode::DuplicateTransmission))
    }
}

/// What a repeat of a recorded request gets.
fn repeat_of(recorded: &Request) -> Decision
    ensures value { meaning_of result ≡ repeat_of (prior_of recorded.now).reply_state }
    ensures feasible { (k : Known) → is_feasible k (meaning_of result) ≡ true }
{
    match recorded.status {
        Status::Pending => Decision::Reports(Output::Waiting),
        Status::ReversedPending => Decision::Reports(Output::Late),
        _ => Decision::Repeats(&recorded.reply),
    }
}

/// A request whose key is new, by its service.
fn decision_by_service<'a>(
    looked: &'a Looked,
    merchant: &Merchant,
    request: &'a CheckedRequest,
) -> Decision<'a>
    requires { is_recordable request.now.service ≡ true }
    ensures value { meaning_of result
        ≡ decision_by request.now.service (known_of looked.now) merchant.now request.now }
    ensures feasible { is_feasible (known_of looked.now) (meaning_of result) ≡ true }
{
    match request.as_request().service {
        Service::Authorization | Service::Financial => {
            admission::admission(looked, merchant, request)
        }
        Service::Completion => completion::completion(looked, merchant, request),
        Service::Reversal | Service::ReversalAdvice => reversal::reversal(looked, request),
        Service::Reconciliation => reconciliation::reconciliation(looked.today, request),
        Service::NetworkManagement => unreachable!(),
    }
}

/// Whether the merchant's day admits no more.
pub fn is_full(looked: &Looked) -> bool
    ensures { result ≡ is_full (known_of looked.now) }
{
    looked.used.number() >= looked.limit.number()
}

/// Whether a request asks for another transaction than its service has, or its currency is another
/// than the merchant's.
fn is_other_transaction(merchant: &Merchant, request: &RequestMessage) -> bool
    ensures { result ≡ is_other_transaction merchant.now request.now }
{
    !has_transaction(request)
        || text_at(&request.message, 49) != merchant.currency.to_bytes().as_slice()
}

/// Purchases are authorized and completed, sold or returned.
pub fn has_transaction(request: &RequestMessage) -> bool
    ensures { result ≡ list_any (bytes_eq (transaction_in request.now.message))
        (transactions request.now.service) }
{
    let transaction = transaction_in(&request.message);
    let is_return = request.service == Service::Financial && transaction == b"20".as_slice();
    is_return || transaction == b"00".as_slice()
}
