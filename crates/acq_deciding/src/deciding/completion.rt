//! Completions of holds.

ghost use Rattle.std.specs.Prelude.{◌≡◌, true, Some, IfOk};
ghost use Rattle.iso_codec.specs.Reading.{spelling};
ghost use Rattle.acq_message.specs.Services.{is_recordable};
ghost use Rattle.acq_message.specs.Reply.{coded_reply};
ghost use Rattle.acq_core.specs.Changes.{completion_row, completion_posting, remains_of_hold};
ghost use Rattle.acq_core.specs.Decision.{completion};
ghost use Rattle.acq_core.specs.Looking.{known_of};
ghost use Rattle.acq_deciding.specs.Meaning.{meaning_of, is_feasible};
ghost use Rattle.acq_core.specs.Tables.{prior_of};

use super::{is_full, is_other_transaction};
use crate::decision::Decision;
use crate::effects::replied_and_recorded;
use acq_core::{Change, Looked, Merchant, Output, Remains, Request, Status};
use acq_message::{CheckedRequest, MerchantId, ResponseCode, amount_in, coded_reply};
use acq_rules::{is_open_at, posting_today, reference_of};
use day_totals::{Day, Leg};
use std::alloc::{AllocError, Global};

/// What is to be done about a completion whose key is new.
pub(super) fn completion<'a>(
    looked: &'a Looked,
    merchant: &Merchant,
    request: &'a CheckedRequest,
) -> Decision<'a>
    requires { is_recordable request.now.service ≡ true }
    ensures value { meaning_of result ≡ completion (known_of looked.now) merchant.now request.now }
    ensures feasible { is_feasible (known_of looked.now) (meaning_of result) ≡ true }
{
    let amount = amount_in(&request.as_request().message);
    if is_other_transaction(merchant, request.as_request()) {
        return Decision::Refuses(request, ResponseCode::InvalidTransaction);
    }
    if !amount.is_accepted() {
        return Decision::Refuses(request, ResponseCode::InvalidAmount);
    }
    let Some(hold) = &looked.referred else {
        return Decision::Refuses(request, ResponseCode::RecordNotFound);
    };
    if !is_open_at(request.as_request().moment, hold) {
        return Decision::Refuses(request, ResponseCode::RecordNotFound);
    }
    if amount.number() > hold.amount.number() {
        return Decision::Refuses(request, ResponseCode::InvalidAmount);
    }
    if is_full(looked) {
        return Decision::Refuses(request, ResponseCode::LimitExceeded);
    }
    Decision::Completes { request, hold }
}

/// What goes out and what changes where a hold is completed.
pub(crate) fn completed(
    alloc: Global,
    today: Day,
    merchant: Option<MerchantId>,
    request: &CheckedRequest,
    hold: &Request,
) -> Result<(Output, Option<Change>), AllocError>
    requires { is_recordable request.now.service ≡ true }
    ensures output { IfOk result (λ x. x.0
        ≡ Output.Reply merchant
        (spelling (coded_reply today request.now ResponseCode.Approved))) }
    ensures change { IfOk result (λ x. let p = prior_of hold.now in x.1
        ≡ Some (Change.Follow (completion_row today request.now p) p.key (remains_of_hold p)
        (Some (completion_posting today request.now p)))) }
{
    let message = request.as_request();
    let amount = amount_in(&message.message);
    let posting = posting_today(alloc, today, request, Leg::Debit, amount, hold)?;
    let card = hold.card_copied(alloc)?;
    let reply = coded_reply(alloc, today, message, ResponseCode::Approved)?;
    let (output, mut row) = replied_and_recorded(alloc, today, merchant, request, reply)?;
    row.status = Status::Approved;
    row.admitted = true;
    row.follows = reference_of(hold);
    row.leg = Leg::Debit;
    row.card = card;
    let change = Change::Follow {
        request: row,
        original: hold.key,
        remains: Remains {
            status: Status::Completed,
            amount: hold.amount,
        },
        posting: Some(posting),
    };
    Ok((output, Some(change)))
}
