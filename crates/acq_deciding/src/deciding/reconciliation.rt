//! Reconciliations of a day.

ghost use Rattle.std.specs.Prelude.{◌≡◌, true, Some, IfOk};
ghost use Rattle.iso_codec.specs.Message.{content_of};
ghost use Rattle.iso_codec.specs.Reading.{spelling};
ghost use Rattle.acq_message.specs.Services.{is_recordable};
ghost use Rattle.acq_message.specs.Elements.{text_at};
ghost use Rattle.acq_message.specs.Reply.{totals_reply};
ghost use Rattle.acq_core.specs.Changes.{reconciliation_row};
ghost use Rattle.acq_core.specs.Decision.{reconciliation_of};
ghost use Rattle.acq_core.specs.Known.{Known, reconciled_day};
ghost use Rattle.acq_core.specs.Looking.{known_of};
ghost use Rattle.acq_deciding.specs.Meaning.{meaning_of, is_feasible};
ghost use Rattle.acq_core.specs.Outcome.{is_in_balance, balance_code};

use crate::decision::Decision;
use crate::effects::replied_and_recorded;
use acq_core::{Change, Looked, Output, Reconciliation, Status};
use acq_message::{CheckedRequest, MerchantId, ResponseCode, merchant_of, totals_reply};
use acq_rules::{is_in_balance, reconciled_day};
use day_totals::Day;
use std::alloc::{AllocError, Global};

/// What is to be done about a reconciliation whose key is new.
pub(super) fn reconciliation(today: Day, request: &CheckedRequest) -> Decision
    requires { is_recordable request.now.service ≡ true }
    ensures value { meaning_of result ≡ reconciliation_of request.now
        (reconciled_day today (content_of request.now.message.elements 15)) }
    ensures feasible { (k : Known) → is_feasible k (meaning_of result) ≡ true }
{
    match reconciled_day(today, &request.as_request().message) {
        Some(day) => Decision::Reconciles { request, day },
        None => Decision::Refuses(request, ResponseCode::ReconcileError),
    }
}

/// What goes out and what changes where a day is reconciled.
pub(crate) fn reconciled(
    alloc: Global,
    looked: &Looked,
    merchant: Option<MerchantId>,
    request: &CheckedRequest,
    day: Day,
) -> Result<(Output, Option<Change>), AllocError>
    requires { is_recordable request.now.service ≡ true }
    ensures output { IfOk result (λ x.
        let k = known_of looked.now in
        let in_balance = is_in_balance k request.now in
        x.0 ≡ Output.Reply merchant (spelling
        (totals_reply day request.now (balance_code in_balance) in_balance k.totals))) }
    ensures change { IfOk result (λ x.
        let k = known_of looked.now in
        x.1 ≡ Some (Change.Reconciled (reconciliation_row k request.now day)
        (record {
          merchant = text_at request.now.message 42;
          day = day;
          in_balance = is_in_balance k request.now;
        }))) }
{
    let message = request.as_request();
    let in_balance = is_in_balance(looked, request);
    let code = balance_code(in_balance);
    let reply = totals_reply(alloc, day, message, code, in_balance, &looked.totals)?;
    let (output, mut row) = replied_and_recorded(alloc, looked.today, merchant, request, reply)?;
    row.status = Status::Reconciled;
    let reconciliation = Reconciliation {
        merchant: merchant_of(request),
        day,
        in_balance,
    };
    let change = Change::Reconciled {
        request: row,
        reconciliation,
    };
    Ok((output, Some(change)))
}

/// The code of a reconciliation with totals.
fn balance_code(in_balance: bool) -> ResponseCode
    ensures { result ≡ balance_code in_balance }
{
    if in_balance {
        ResponseCode::Approved
    } else {
        ResponseCode::ReconcileError
    }
}
