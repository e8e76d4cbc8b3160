//! Answers of issuers.

ghost use Rattle.std.specs.Prelude.{◌≡◌, true, Some, IfOk};
ghost use Rattle.iso_codec.specs.Reading.{spelling};
ghost use Rattle.acq_message.specs.Reply.{answered_reply};
ghost use Rattle.acq_core.specs.Changes.{answered_status, answered_hold_end, answer_posting};
ghost use Rattle.acq_core.specs.Decision.{decision_of_answer, decision_of_reply_state};
ghost use Rattle.acq_core.specs.Known.{Known};
ghost use Rattle.acq_core.specs.Looking.{known_of};
ghost use Rattle.acq_deciding.specs.Meaning.{meaning_of, is_feasible};
ghost use Rattle.acq_core.specs.Tables.{prior_of};

use crate::decision::Decision;
use crate::effects::replied;
use acq_core::{Change, Looked, Output, Posting, Request, Status};
use acq_message::{MerchantId, Moment, Service, Verdict, answered_reply};
use acq_rules::approval_posting;
use std::alloc::{AllocError, Global};

/// What is to be done about an answer.
pub(super) fn decision_of_answer(looked: &Looked, moment: Moment, verdict: Verdict) -> Decision
    ensures value { let k = known_of looked.now in
        meaning_of result ≡ decision_of_answer k moment verdict k.merchant }
    ensures feasible { (k : Known) → is_feasible k (meaning_of result) ≡ true }
{
    if looked.merchant.is_none() {
        return Decision::Reports(Output::NoSuchMerchant);
    }
    match &looked.referred {
        Some(request) => decision_of_status(moment, verdict, request),
        None => Decision::Reports(Output::UnknownReference),
    }
}

/// An answer counts only while its request is pending.
fn decision_of_status(moment: Moment, verdict: Verdict, request: &Request) -> Decision
    ensures value { let p = prior_of request.now in
        meaning_of result ≡ decision_of_reply_state moment verdict p p.reply_state }
    ensures feasible { (k : Known) → is_feasible k (meaning_of result) ≡ true }
{
    match request.status {
        Status::Pending => Decision::Answers {
            moment,
            verdict,
            request,
        },
        Status::ReversedPending => Decision::Reports(Output::Late),
        _ => Decision::Reports(Output::AlreadyAnswered),
    }
}

/// What goes out and what changes where a pending request is answered.
pub(crate) fn answered(
    alloc: Global,
    merchant: Option<MerchantId>,
    moment: Moment,
    verdict: &Verdict,
    request: &Request,
) -> Result<(Output, Option<Change>), AllocError>
    ensures output { IfOk result (λ x. x.0
        ≡ Output.Reply merchant (spelling (answered_reply request.now.reply verdict.now))) }
    ensures change { IfOk result (λ x. let p = prior_of request.now in x.1
        ≡ Some (Change.Answered p.key (answered_status verdict.now)
        (answered_reply request.now.reply verdict.now)
        (answered_hold_end p.key.service moment verdict.now p.hold_days)
        (answer_posting verdict.now p))) }
{
    let posting = answer_posting(alloc, *verdict, request)?;
    let reply = answered_reply(alloc, &request.reply, *verdict)?;
    let output = replied(alloc, merchant, &reply)?;
    let change = Change::Answered {
        key: request.key,
        status: answered_status(*verdict),
        reply,
        hold_end: answered_hold_end(moment, *verdict, request),
        posting,
    };
    Ok((output, Some(change)))
}

/// The status of a request that was answered so.
fn answered_status(verdict: Verdict) -> Status
    ensures { result ≡ answered_status verdict }
{
    match verdict {
        Verdict::Approved(_) => Status::Approved,
        Verdict::Declined(_) | Verdict::NoAnswer => Status::Declined,
    }
}

/// How many seconds a hold is open for each of its days.
const DAY_SECONDS: u64 = 86_400;

/// The last second of a hold that opens.
fn answered_hold_end(moment: Moment, verdict: Verdict, request: &Request) -> Option<u64>
    ensures { let row = request.now in
        result ≡ answered_hold_end row.key.service moment verdict row.hold_days }
{
    match (request.key.service, verdict, request.hold_days) {
        (Service::Authorization, Verdict::Approved(_), Some(days)) => {
            Some(moment.seconds() + u64::from(days) * DAY_SECONDS)
        }
        _ => None,
    }
}

/// Only an approval posts.
fn answer_posting(
    alloc: Global,
    verdict: Verdict,
    request: &Request,
) -> Result<Option<Posting>, AllocError>
    ensures { IfOk result (λ posting. posting ≡ answer_posting verdict (prior_of request.now)) }
{
    match verdict {
        Verdict::Approved(_) => approval_posting(alloc, request),
        Verdict::Declined(_) | Verdict::NoAnswer => Ok(None),
    }
}
