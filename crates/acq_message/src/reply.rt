//! Replies.

ghost use Rattle.std.specs.Prelude.{◌≡◌, Some, IfOk};
ghost use Rattle.acq_message.specs.Elements.{merchant_in};
ghost use Rattle.acq_message.specs.Reply.{reply, reply_to, day_element, code_element, coded_reply};
ghost use Rattle.acq_message.specs.Reply.{referring_reply, draft_reply, answered_reply};
ghost use Rattle.iso_codec.specs.Reading.{spelling};

use crate::merchant_id::MerchantId;
use crate::message_text::MessageText;
use crate::reference::Reference;
use crate::request_message::RequestMessage;
use crate::response_code::ResponseCode;
use crate::service::Service;
use crate::verdict::Verdict;
use crate::with_content::with_content;
use day_totals::Day;
use iso_codec::{Message, encode};
use std::alloc::{AllocError, Global};

/// Room for most replies.
const USUAL_LENGTH: usize = 256;

/// The merchant that a message names. It takes no memory.
pub fn merchant_in(message: &Message) -> Option<MerchantId>
    ensures { result ≡ merchant_in message.now }
{
    MerchantId::read(message.get(42)?)
}

/// The bytes of a message.
pub fn spelled(alloc: Global, message: &Message) -> Result<MessageText, AllocError>
    ensures { IfOk result (λ text. text ≡ spelling message.now) }
{
    let mut text = Vec::with_capacity(alloc, USUAL_LENGTH)?;
    encode(alloc, message, &mut text)?;
    Ok(MessageText::from_vec(text))
}

/// What each reply has: what it echoes, and the business day.
pub(crate) fn dated_reply(
    alloc: Global,
    day: Day,
    request: &RequestMessage,
) -> Result<Message, AllocError>
    ensures { IfOk result
        (λ m. m ≡ reply_to request.now (day_element request.now.service day)) }
{
    let service = request.service;
    let echo = request
        .message
        .select(alloc, service.reply_kind(), service.echoed())?;
    match service {
        Service::NetworkManagement => Ok(echo),
        _ => with_content(echo, alloc, 15, &day.mmdd()),
    }
}

/// The reply of a code and the business day.
pub fn coded_reply(
    alloc: Global,
    day: Day,
    request: &RequestMessage,
    code: ResponseCode,
) -> Result<Message, AllocError>
    ensures { IfOk result (λ m. m ≡ coded_reply day request.now code) }
{
    let message = dated_reply(alloc, day, request)?;
    with_content(message, alloc, 39, &code.to_bytes())
}

/// The same with a reference, where there is one.
pub fn referring_reply(
    alloc: Global,
    day: Day,
    request: &RequestMessage,
    reference: Option<Reference>,
    code: ResponseCode,
) -> Result<Message, AllocError>
    ensures { IfOk result (λ m. m ≡ referring_reply day request.now reference code) }
{
    let message = match reference {
        Some(reference) => draft_reply(alloc, day, request, reference)?,
        None => dated_reply(alloc, day, request)?,
    };
    with_content(message, alloc, 39, &code.to_bytes())
}

/// What stands fixed of the reply to an admitted request, before its issuer answers.
pub fn draft_reply(
    alloc: Global,
    day: Day,
    request: &RequestMessage,
    reference: Reference,
) -> Result<Message, AllocError>
    ensures { IfOk result (λ m. m ≡ draft_reply day request.now reference) }
{
    let message = dated_reply(alloc, day, request)?;
    with_content(message, alloc, 37, &reference.text())
}

/// The reply to a request that its issuer answered, from what stood fixed of it.
pub fn answered_reply(
    alloc: Global,
    draft: &Message,
    verdict: Verdict,
) -> Result<Message, AllocError>
    ensures { IfOk result (λ m. m ≡ answered_reply draft.now verdict) }
{
    let copy = draft.copied(alloc)?;
    let message = match verdict.authorization_id() {
        Some(id) => with_content(copy, alloc, 38, &id.to_bytes())?,
        None => copy,
    };
    with_content(message, alloc, 39, &verdict.code().to_bytes())
}
