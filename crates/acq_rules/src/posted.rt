//! What requests post.

ghost use Rattle.std.specs.Prelude.{◌≡◌, true, IfOk};
ghost use Rattle.acq_message.specs.Services.{is_recordable};
ghost use Rattle.acq_message.specs.Elements.{or_empty};
ghost use Rattle.acq_core.specs.Changes.{approval_posting, posting_today, or_zero, reversal_leg};
ghost use Rattle.acq_core.specs.Changes.{posted_leg};
ghost use Rattle.acq_core.specs.Tables.{prior_of, reference_by, leg_by};

use acq_core::{Posting, Request, Status};
use acq_message::{
    Amount, CheckedRequest, ElementContent, Reference, Service, merchant_of, terminal_of, trace_of,
};
use day_totals::{Day, Leg};
use std::alloc::{AllocError, Global};

/// What an approved sale or return posts, to its own day. A hold posts nothing.
pub fn approval_posting(alloc: Global, request: &Request) -> Result<Option<Posting>, AllocError>
    ensures { IfOk result (λ posting. let p = prior_of request.now in
        posting ≡ approval_posting p p.leg) }
{
    let Some(leg) = leg_of(request) else {
        return Ok(None);
    };
    let card = card_copied(alloc, request)?;
    Ok(Some(Posting {
        merchant: request.key.merchant,
        day: request.day,
        leg,
        amount: request.amount,
        reference: or_zero(reference_of(request)),
        card,
        terminal: request.key.terminal,
        trace: request.key.trace,
    }))
}

/// What a request posts today of what an earlier one was about.
pub fn posting_today(
    alloc: Global,
    today: Day,
    request: &CheckedRequest,
    leg: Leg,
    amount: Amount,
    earlier: &Request,
) -> Result<Posting, AllocError>
    requires { is_recordable request.now.service ≡ true }
    ensures { IfOk result (λ posting. posting
        ≡ posting_today today request.now leg amount (prior_of earlier.now)) }
{
    let card = card_copied(alloc, earlier)?;
    Ok(Posting {
        merchant: merchant_of(request),
        day: today,
        leg,
        amount,
        reference: or_zero(reference_of(earlier)),
        card,
        terminal: terminal_of(request),
        trace: trace_of(request),
    })
}

/// The reference of an admitted request, or that of the hold that a completion completes.
pub fn reference_of(request: &Request) -> Option<Reference>
    ensures { result ≡ reference_by request.now.key.service request.now }
{
    match request.key.service {
        Service::Completion => request.follows,
        _ => request.reference,
    }
}

/// What an admitted sale or return, or an accepted completion, posts under.
fn leg_of(request: &Request) -> Option<Leg>
    ensures { result ≡ leg_by request.now.key.service request.now }
{
    match (request.key.service, request.reference, request.follows) {
        (Service::Financial, Some(_), _) | (Service::Completion, _, Some(_)) => Some(request.leg),
        _ => None,
    }
}

/// The leg that an earlier request was posted under: none while it is pending.
pub fn posted_leg(request: &Request) -> Option<Leg>
    ensures { let p = prior_of request.now in result ≡ posted_leg p.reply_state p.leg }
{
    match request.status {
        Status::Pending | Status::ReversedPending => None,
        _ => leg_of(request),
    }
}

/// The leg that reverses another.
pub(crate) fn reversal_leg(leg: Leg) -> Leg
    ensures { result ≡ reversal_leg leg }
{
    match leg {
        Leg::Credit => Leg::CreditReversal,
        Leg::Debit => Leg::DebitReversal,
        Leg::CreditReversal => Leg::Credit,
        Leg::DebitReversal => Leg::Debit,
    }
}

/// A reference, 0 where there is none.
fn or_zero(reference: Option<Reference>) -> Reference
    ensures { result ≡ or_zero reference }
{
    if let Some(reference) = reference {
        return reference;
    }
    let Some(zero) = Reference::from_number(0) else {
        unreachable!();
    };
    zero
}

/// A copy of a request's card number, empty where there is none.
fn card_copied(alloc: Global, request: &Request) -> Result<ElementContent, AllocError>
    ensures { IfOk result (λ card. card ≡ or_empty request.now.card) }
{
    match &request.card {
        Some(card) => card.copied(alloc),
        None => ElementContent::from_slice(alloc, &[]),
    }
}
