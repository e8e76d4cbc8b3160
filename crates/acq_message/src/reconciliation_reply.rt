//! The reply to a reconciliation.

ghost use Rattle.std.specs.Prelude.{◌≡◌, IfOk, codes, if◌then◌else◌};
ghost use Rattle.acq_message.specs.Reply.{with_contents, count_elements, amount_elements};
ghost use Rattle.acq_message.specs.Reply.{totals_reply};

use crate::reply::coded_reply;
use crate::request_message::RequestMessage;
use crate::response_code::ResponseCode;
use crate::with_content::with_content;
use day_totals::{Day, Leg, Totals};
use iso_codec::Message;
use std::alloc::{AllocError, Global};

/// The reply to a reconciliation of a day: a code, whether the claimed totals are in balance, and
/// the host's totals.
pub fn totals_reply(
    alloc: Global,
    day: Day,
    request: &RequestMessage,
    code: ResponseCode,
    in_balance: bool,
    totals: &Totals,
) -> Result<Message, AllocError>
    ensures { IfOk result (λ m. m ≡ totals_reply day request.now code in_balance totals.now) }
{
    let message = coded_reply(alloc, day, request, code)?;
    let message = with_content(message, alloc, 66, &balance_text(in_balance))?;
    let message = with_counts(message, alloc, totals)?;
    let message = with_amounts(message, alloc, totals)?;
    with_content(message, alloc, 97, &totals.net_text())
}

/// Element 66: 1 where the claimed totals are in balance, else 2.
fn balance_text(in_balance: bool) -> [u8; 1]
    ensures { result ≡ if in_balance then codes "1" else codes "2" }
{
    if in_balance { *b"1" } else { *b"2" }
}

/// Elements 74 to 77.
fn with_counts(message: Message, alloc: Global, totals: &Totals) -> Result<Message, AllocError>
    ensures { IfOk result (λ m. m ≡ record {
      kind = message.kind;
      elements = with_contents message.elements (count_elements totals.now);
    }) }
{
    let message = with_content(message, alloc, 74, &totals.count_text(Leg::Credit))?;
    let message = with_content(message, alloc, 75, &totals.count_text(Leg::CreditReversal))?;
    let message = with_content(message, alloc, 76, &totals.count_text(Leg::Debit))?;
    with_content(message, alloc, 77, &totals.count_text(Leg::DebitReversal))
}

/// Elements 86 to 89.
fn with_amounts(message: Message, alloc: Global, totals: &Totals) -> Result<Message, AllocError>
    ensures { IfOk result (λ m. m ≡ record {
      kind = message.kind;
      elements = with_contents message.elements (amount_elements totals.now);
    }) }
{
    let message = with_content(message, alloc, 86, &totals.amount_text(Leg::Credit))?;
    let message = with_content(message, alloc, 87, &totals.amount_text(Leg::CreditReversal))?;
    let message = with_content(message, alloc, 88, &totals.amount_text(Leg::Debit))?;
    with_content(message, alloc, 89, &totals.amount_text(Leg::DebitReversal))
}
