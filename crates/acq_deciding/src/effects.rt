//! What goes out and what changes, of what was decided.

ghost use Rattle.std.specs.Prelude.{◌≡◌, ◌+◌, ◌<◌, true, Some, IfOk};
ghost use Rattle.iso_codec.specs.Reading.{spelling};
ghost use Rattle.day_totals.specs.Day.{last_day};
ghost use Rattle.acq_message.specs.Services.{is_recordable};
ghost use Rattle.acq_message.specs.Reply.{coded_reply};
ghost use Rattle.acq_core.specs.Changes.{change_of, refused_row, recorded_row};
ghost use Rattle.acq_core.specs.Looking.{known_of};
ghost use Rattle.acq_deciding.specs.Meaning.{meaning_of, is_feasible};
ghost use Rattle.acq_core.specs.Outcome.{outcome_of, output_of};

use crate::deciding::{admission, answer, completion, reconciliation, reversal};
use crate::decision::Decision;
use crate::recording::recorded_row;
use acq_core::{Change, Looked, Output, Request};
use acq_message::{CheckedRequest, MerchantId, RequestMessage, ResponseCode, coded_reply, spelled};
use day_totals::Day;
use iso_codec::Message;
use std::alloc::{AllocError, Global};

/// What goes out to a merchant, and what changes, of a decision over what was looked up. All memory
/// of both is taken here.
pub(crate) fn carry_out(
    alloc: Global,
    looked: &Looked,
    merchant: Option<MerchantId>,
    decision: Decision,
) -> Result<(Output, Option<Change>), AllocError>
    requires { is_feasible (known_of looked.now) (meaning_of decision) ≡ true }
    ensures output { IfOk result (λ x. x.0
        ≡ output_of merchant (outcome_of (known_of looked.now) (meaning_of decision.entry))) }
    ensures change { IfOk result (λ x. x.1
        ≡ change_of (known_of looked.now) (meaning_of decision.entry)) }
{
    let today = looked.today;
    match decision {
        Decision::Reports(output) => Ok((output, None)),
        Decision::ReportsOverlap(range) => Ok((Output::Overlap(range.copied(alloc)?), None)),
        Decision::Replies(request, code) => {
            Ok((coded(alloc, today, merchant, request, code)?, None))
        }
        Decision::Repeats(reply) => Ok((replied(alloc, merchant, reply)?, None)),
        Decision::Refuses(request, code) => refused(alloc, today, merchant, request, code),
        Decision::Admits {
            request,
            range,
            reference,
        } => admission::admitted(alloc, today, request, range, reference),
        Decision::Completes { request, hold } => {
            completion::completed(alloc, today, merchant, request, hold)
        }
        Decision::Reverses { request, original } => {
            reversal::reversed(alloc, today, merchant, request, original)
        }
        Decision::Reconciles { request, day } => {
            reconciliation::reconciled(alloc, looked, merchant, request, day)
        }
        Decision::Answers {
            moment,
            verdict,
            request,
        } => answer::answered(alloc, merchant, moment, &verdict, request),
        Decision::CutsOver => Ok(performed(Change::SetDay(day_after(today)))),
        Decision::AddsRange(range) => Ok(performed(Change::AddRange(range.copied(alloc)?))),
        Decision::DropsRange { low, high } => Ok(performed(Change::DropRange { low, high })),
        Decision::Enrols(merchant) => Ok(performed(Change::AddMerchant(merchant))),
        Decision::AddsTerminal(terminal) => Ok(performed(Change::AddTerminal(terminal))),
    }
}

/// What was asked for is done, by this change.
fn performed(change: Change) -> (Output, Option<Change>)
    ensures { result ≡ (Output.Done, Some change) }
{
    (Output::Done, Some(change))
}

/// A reply in its spelling, for the merchant that was named.
pub(crate) fn replied(
    alloc: Global,
    merchant: Option<MerchantId>,
    reply: &Message,
) -> Result<Output, AllocError>
    ensures { IfOk result (λ output. output ≡ Output.Reply merchant (spelling reply.now)) }
{
    Ok(Output::Reply(merchant, spelled(alloc, reply)?))
}

/// A reply that adds a code and the business day to what it echoes.
fn coded(
    alloc: Global,
    today: Day,
    merchant: Option<MerchantId>,
    request: &RequestMessage,
    code: ResponseCode,
) -> Result<Output, AllocError>
    ensures { IfOk result (λ output. output
        ≡ Output.Reply merchant (spelling (coded_reply today request.now code))) }
{
    replied(alloc, merchant, &coded_reply(alloc, today, request, code)?)
}

/// What goes out and what changes where a check refuses a request.
fn refused(
    alloc: Global,
    today: Day,
    merchant: Option<MerchantId>,
    request: &CheckedRequest,
    code: ResponseCode,
) -> Result<(Output, Option<Change>), AllocError>
    requires { is_recordable request.now.service ≡ true }
    ensures output { IfOk result (λ x. x.0
        ≡ Output.Reply merchant (spelling (coded_reply today request.now code))) }
    ensures change { IfOk result (λ x. x.1
        ≡ Some (Change.AddRequest (refused_row today request.now code))) }
{
    let reply = coded_reply(alloc, today, request.as_request(), code)?;
    let (output, row) = replied_and_recorded(alloc, today, merchant, request, reply)?;
    Ok((output, Some(Change::AddRequest(row))))
}

/// A reply in its spelling, and the row of a request that nothing came of, which keeps it.
pub(crate) fn replied_and_recorded(
    alloc: Global,
    today: Day,
    merchant: Option<MerchantId>,
    request: &CheckedRequest,
    reply: Message,
) -> Result<(Output, Request), AllocError>
    requires { is_recordable request.now.service ≡ true }
    ensures output { IfOk result (λ x. x.0 ≡ Output.Reply merchant (spelling reply)) }
    ensures row { IfOk result (λ x. x.1 ≡ recorded_row today request.now reply) }
{
    let output = replied(alloc, merchant, &reply)?;
    let row = recorded_row(alloc, today, request, reply)?;
    Ok((output, row))
}

/// The day after one that isn't the last.
fn day_after(today: Day) -> Day
    requires { today < last_day }
    ensures { result ≡ today + 1 }
{
    let Some(day) = today.next() else {
        unreachable!();
    };
    day
}
