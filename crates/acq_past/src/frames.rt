//! The frames of requests.

use acq_core::{Moment, Request, RequestMessage, Service, Status};
use acq_message::{CheckedRequest, text_at};
use iso_codec::{DecodeFault, Message, SetFault, decode};
use std::alloc::{AllocError, Global};

/// The elements of an essence but the card number.
const ESSENTIAL: [u8; 16] = [3, 4, 15, 37, 49, 74, 75, 76, 77, 86, 87, 88, 89, 90, 95, 97];

/// The elements that a reply echoes and an essence lacks: local time and date (ISO 8583:1987, time
/// and date, local transaction).
const LOCAL: [u8; 2] = [12, 13];

/// What stands behind the card number in a track: an expiry that no business day passes.
const BEHIND_CARD: &[u8] = b"=9912";

/// A month that is none, so a card with it has expired on any day.
const EXPIRED: &[u8] = b"0000";

/// A request that a row may be of, if there is one: with its key, its essence, and what its reply
/// echoes. A card number that the reply doesn't echo came in a track.
pub(crate) fn request_of(
    alloc: Global,
    row: &Request,
) -> Result<Option<CheckedRequest>, AllocError> {
    let essence = match decode(alloc, row.essence.as_bytes()) {
        Ok(essence) => essence,
        Err(DecodeFault::Memory) => return Err(AllocError),
        Err(_) => return Ok(None),
    };
    let Some(message) = message_of(alloc, row, &essence)? else {
        return Ok(None);
    };
    let request = RequestMessage {
        moment: moment_of(row),
        service: row.key.service,
        message,
    };
    Ok(CheckedRequest::new(request).ok())
}

fn message_of(
    alloc: Global,
    row: &Request,
    essence: &Message,
) -> Result<Option<Message>, AllocError> {
    let [a, b, c] = row.key.service.digits();
    let Some(mut message) = Message::new(alloc, [a, b, c, b'0']) else {
        return Ok(None);
    };
    let fits = put_named(alloc, &mut message, essence, &ESSENTIAL)?
        && put_named(alloc, &mut message, &row.reply, &LOCAL)?
        && put_key(alloc, &mut message, row)?
        && put_card(alloc, &mut message, row, essence)?;
    Ok(if fits { Some(message) } else { None })
}

/// Sets these elements as another message has them. Returns whether it may have them.
fn put_named(
    alloc: Global,
    message: &mut Message,
    other: &Message,
    numbers: &[u8],
) -> Result<bool, AllocError> {
    for number in numbers.iter() {
        if let Some(content) = other.get(*number) {
            if !put(alloc, message, *number, content)? {
                return Ok(false);
            }
        }
    }
    Ok(true)
}

/// Sets the elements of the key, and the acquirer.
fn put_key(alloc: Global, message: &mut Message, row: &Request) -> Result<bool, AllocError> {
    let fits = put(alloc, message, 7, &row.key.transmission.to_bytes())?
        && put(alloc, message, 11, &row.key.trace.to_bytes())?
        && put(alloc, message, 41, &row.key.terminal.to_bytes())?
        && put(alloc, message, 42, &row.key.merchant.to_bytes())?;
    match &row.acquirer {
        Some(acquirer) if fits => put(alloc, message, 32, acquirer.as_bytes()),
        _ => Ok(fits),
    }
}

/// Sets the card number, and an expiry if the card had expired.
fn put_card(
    alloc: Global,
    message: &mut Message,
    row: &Request,
    essence: &Message,
) -> Result<bool, AllocError> {
    if code_of(row) == b"54".as_slice() && !put(alloc, message, 14, EXPIRED)? {
        return Ok(false);
    }
    if let Some(card) = row.reply.get(2) {
        return put(alloc, message, 2, card);
    }
    let Some(card) = essence.get(2) else {
        return Ok(true);
    };
    let mut track = Vec::from_slice(alloc, card)?;
    track.extend_from_slice(BEHIND_CARD)?;
    put(alloc, message, 35, track.as_slice())
}

/// Sets an element. Returns whether it may have this content.
fn put(
    alloc: Global,
    message: &mut Message,
    number: u8,
    content: &[u8],
) -> Result<bool, AllocError> {
    match message.set(alloc, number, content) {
        Ok(()) => Ok(true),
        Err(SetFault::Memory) => Err(AllocError),
        Err(_) => Ok(false),
    }
}

/// The code that a row's reply has, in element 39.
pub(crate) fn code_of(row: &Request) -> &[u8] {
    text_at(&row.reply, 39)
}

/// Whether a request was refused with one of these codes.
pub(crate) fn is_refused_with(row: &Request, codes: &[[u8; 2]]) -> bool {
    matches!(row.status, Status::Refused)
        && codes.iter().any(|code| code_of(row) == code.as_slice())
}

/// When a request came: at the first moment; a completion that found no open hold at the last, at
/// which none is open.
fn moment_of(row: &Request) -> Moment {
    if matches!(row.key.service, Service::Completion) && is_refused_with(row, &[*b"25"]) {
        return moment(4_102_444_799);
    }
    moment(946_684_800)
}

/// A moment, or the first.
pub(crate) fn moment(seconds: u64) -> Moment {
    match Moment::from_seconds(seconds) {
        Some(moment) => moment,
        None => match Moment::from_seconds(946_684_800) {
            Some(first) => first,
            None => unreachable!(),
        },
    }
}
