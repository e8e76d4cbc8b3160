//! What may be reversed, what that posts, and what it leaves.

ghost use Rattle.std.specs.Prelude.{◌≡◌, ◌-◌, ◌&&◌, ◌||◌, not, nat_lt, true, IfOk};
ghost use Rattle.iso_codec.specs.Message.{IsoMessage};
ghost use Rattle.acq_message.specs.Services.{is_recordable};
ghost use Rattle.acq_core.specs.Changes.{reversal_posting, reversing_leg, remains_of};
ghost use Rattle.acq_core.specs.Changes.{reversed_status, is_lowered};
ghost use Rattle.acq_core.specs.Decision.{is_awaited};
ghost use Rattle.acq_core.specs.Tables.{is_reversible, prior_of, reply_state_of};

use crate::posted::{posted_leg, posting_today, reversal_leg};
use acq_core::{Posting, Remains, Request, Status};
use acq_message::{Amount, CheckedRequest, Service, remaining_in};
use day_totals::{Day, Leg};
use std::alloc::{AllocError, Global};

/// Whether a request that stands so can't be reversed, or not in part, since it is pending.
pub fn is_final_for(remaining: Amount, status: Status) -> bool
    ensures { (reply : IsoMessage) → result ≡ (not (is_reversible status)
        || (is_awaited (reply_state_of status reply) && nat_lt 0 remaining)) }
{
    match status {
        Status::Pending => remaining.number() > 0,
        Status::Approved => false,
        _ => true,
    }
}

/// What a reversal posts: what it takes of the original's amount, where the original was posted.
pub fn reversal_posting(
    alloc: Global,
    today: Day,
    request: &CheckedRequest,
    original: &Request,
) -> Result<Option<Posting>, AllocError>
    requires { is_recordable request.now.service ≡ true }
    ensures { IfOk result (λ posting. posting
        ≡ reversal_posting today request.now (prior_of original.now)) }
{
    match posted_leg(original) {
        Some(leg) => {
            let leg = reversal_leg(leg);
            let amount = taken(original.amount, remaining_in(&request.as_request().message));
            Ok(Some(posting_today(alloc, today, request, leg, amount, original)?))
        }
        None => Ok(None),
    }
}

/// The leg that a reversal posts, else credit.
pub fn reversing_leg(leg: Option<Leg>) -> Leg
    ensures { result ≡ reversing_leg leg }
{
    match leg {
        Some(leg) => reversal_leg(leg),
        None => Leg::Credit,
    }
}

/// What is taken of an amount, of which so much remains.
fn taken(amount: Amount, remaining: Amount) -> Amount
    ensures { result ≡ amount - remaining }
{
    let taken = amount.number().saturating_sub(remaining.number());
    let Some(taken) = Amount::from_number(taken) else {
        unreachable!();
    };
    taken
}

/// What is left of an original that is reversed, of whose amount so much remains.
pub fn remains_of(original: &Request, remaining: Amount) -> Remains
    ensures { result ≡ remains_of (prior_of original.now) remaining }
{
    if is_lowered(original.key.service, remaining) {
        return Remains {
            status: Status::Lowered,
            amount: remaining,
        };
    }
    Remains {
        status: reversed_status(original.status),
        amount: original.amount,
    }
}

/// Whether it is a hold of which something remains.
fn is_lowered(service: Service, remaining: Amount) -> bool
    ensures { result ≡ is_lowered service remaining }
{
    service == Service::Authorization && remaining.number() > 0
}

/// The status of an original that is reversed.
fn reversed_status(status: Status) -> Status
    ensures { (reply : IsoMessage) → result ≡ reversed_status (reply_state_of status reply) }
{
    match status {
        Status::Pending | Status::ReversedPending => Status::ReversedPending,
        _ => Status::Reversed,
    }
}
