//! What a request differs in from the one that used its key before.

ghost use Rattle.std.specs.Prelude.{◌≡◌, ◌++◌, IfOk, OnOk, flat_map, option_map};
ghost use Rattle.acq_core.specs.Looking.{known_of};
ghost use Rattle.acq_core.specs.Tables.{prior_of};
ghost use Rattle.acq_explain.specs.Differing.{essential_elements, shown_or_nothing, both_shown};
ghost use Rattle.acq_explain.specs.Differing.{difference, difference_at, differences, spelled_by};
ghost use Rattle.acq_explain.specs.Differing.{differing_from, differing};

use crate::details::{put_element_name, put_shown};
use acq_core::{Looked, Request};
use acq_message::{RequestMessage, essence_of, text_at};
use acq_reasons::Reason;
use iso_codec::{DecodeFault, Message, decode};
use std::alloc::{AllocError, Global};

/// Puts what a request that is refused for it has otherwise than the one that used its key before.
pub(crate) fn put_differing(
    alloc: Global,
    text: &mut Vec<u8>,
    looked: &Looked,
    request: &RequestMessage,
    reason: &Reason,
) -> Result<(), AllocError>
    ensures { OnOk result (text.new.items
        ≡ text.old.items ++ differing (known_of looked.now) request.now reason.now) }
{
    match reason {
        Reason::OtherRequest => put_differing_from(alloc, text, request, &looked.recorded),
        _ => Ok(()),
    }
}

/// Puts what a request has otherwise than this one.
fn put_differing_from(
    alloc: Global,
    text: &mut Vec<u8>,
    request: &RequestMessage,
    recorded: &Option<Request>,
) -> Result<(), AllocError>
    ensures { OnOk result (text.new.items
        ≡ text.old.items ++ differing_from request.now (option_map prior_of recorded.now)) }
{
    let Some(recorded) = recorded else {
        return Ok(());
    };
    let essence = essence_of(alloc, request.service, &request.message)?;
    let own = spelled_by(alloc, essence.as_bytes())?;
    let kept = spelled_by(alloc, recorded.essence.as_bytes())?;
    put_differences(text, &own, &kept)
}

/// The message that a text spells, if it does.
fn spelled_by(alloc: Global, text: &[u8]) -> Result<Option<Message>, AllocError>
    ensures { IfOk result (λ found. found ≡ spelled_by text.now) }
{
    match decode(alloc, text) {
        Ok(message) => Ok(Some(message)),
        Err(DecodeFault::Memory) => Err(AllocError),
        Err(_) => Ok(None),
    }
}

/// Puts the differences of two messages of just what must be alike.
fn put_differences(
    text: &mut Vec<u8>,
    own: &Option<Message>,
    kept: &Option<Message>,
) -> Result<(), AllocError>
    ensures { OnOk result (text.new.items ≡ text.old.items ++ differences own.now kept.now) }
{
    match (own, kept) {
        (Some(own), Some(kept)) => put_each(text, own, kept, essential_elements()),
        _ => Ok(()),
    }
}

/// The card number, and what a repeat must have alike beside it.
fn essential_elements() -> &'static [u8]
    ensures { result.now ≡ essential_elements }
{
    &[
        2, 3, 4, 15, 37, 49, 74, 75, 76, 77, 86, 87, 88, 89, 90, 95, 97,
    ]
}

/// Puts the differences in these elements.
fn put_each(
    text: &mut Vec<u8>,
    own: &Message,
    kept: &Message,
    numbers: &[u8],
) -> Result<(), AllocError>
    ensures { OnOk result (text.new.items
        ≡ text.old.items ++ flat_map (difference_at own.now kept.now) numbers.now) }
{
    for number in numbers.iter() {
        let before = text_at(kept, *number);
        put_difference(text, *number, text_at(own, *number), before)?;
    }
    Ok(())
}

/// Puts the line of an element, if its content isn't what it was before.
#[tactic(auto, unfolding(crate::specs::Differing::difference))]
fn put_difference(
    text: &mut Vec<u8>,
    number: u8,
    content: &[u8],
    before: &[u8],
) -> Result<(), AllocError>
    ensures { OnOk result (text.new.items
        ≡ text.old.items ++ difference number content.now before.now) }
{
    if content == before {
        return Ok(());
    }
    text.extend_from_slice(b"    ")?;
    put_element_name(text, number)?;
    text.extend_from_slice(b": ")?;
    put_both(text, number, content, before)?;
    text.extend_from_slice(b"\n")
}

/// Puts an element's content, and what it was before.
#[tactic(auto, unfolding(crate::specs::Differing::both_shown))]
fn put_both(text: &mut Vec<u8>, number: u8, content: &[u8], before: &[u8]) -> Result<(), AllocError>
    ensures { OnOk result (text.new.items
        ≡ text.old.items ++ both_shown number content.now before.now) }
{
    put_shown_or_nothing(text, number, content)?;
    text.extend_from_slice(b", before ")?;
    put_shown_or_nothing(text, number, before)
}

/// Puts what is shown of an element, or that it isn't there.
fn put_shown_or_nothing(text: &mut Vec<u8>, number: u8, content: &[u8]) -> Result<(), AllocError>
    ensures { OnOk result (text.new.items
        ≡ text.old.items ++ shown_or_nothing number content.now) }
{
    if content.is_empty() {
        text.extend_from_slice(b"nothing")
    } else {
        put_shown(text, number, content)
    }
}
