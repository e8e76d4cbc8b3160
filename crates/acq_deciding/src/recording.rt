//! Rows of requests, as they are recorded.

ghost use Rattle.std.specs.Prelude.{◌≡◌, true, IfOk};
ghost use Rattle.std.specs.Option.{option_copied};
ghost use Rattle.acq_message.specs.Services.{is_recordable};
ghost use Rattle.acq_core.specs.Changes.{recorded_row};

use acq_core::{Request, Status};
use acq_message::{CheckedRequest, ElementContent, amount_in, card_of, essence_of, key_of};
use day_totals::{Day, Leg};
use iso_codec::Message;
use std::alloc::{AllocError, Global};

/// The row of a request that nothing came of, with its reply.
pub(crate) fn recorded_row(
    alloc: Global,
    today: Day,
    request: &CheckedRequest,
    reply: Message,
) -> Result<Request, AllocError>
    requires { is_recordable request.now.service ≡ true }
    ensures { IfOk result (λ row. row ≡ recorded_row today request.now reply) }
{
    let key = key_of(request);
    let request = request.as_request();
    let message = &request.message;
    let essence = essence_of(alloc, request.service, message)?;
    let card = content_copied(alloc, card_of(message))?;
    let acquirer = content_copied(alloc, message.get(32))?;
    Ok(Request {
        key,
        essence,
        day: today,
        status: Status::Refused,
        admitted: false,
        reference: None,
        follows: None,
        amount: amount_in(message),
        leg: Leg::Credit,
        card,
        acquirer,
        hold_days: None,
        hold_end: None,
        reply,
    })
}

/// A copy of an element's content, where it is there.
fn content_copied(
    alloc: Global,
    content: Option<&[u8]>,
) -> Result<Option<ElementContent>, AllocError>
    ensures { IfOk result (λ copy. copy ≡ option_copied content.entry) }
{
    match content {
        Some(bytes) => Ok(Some(ElementContent::from_slice(alloc, bytes)?)),
        None => Ok(None),
    }
}
