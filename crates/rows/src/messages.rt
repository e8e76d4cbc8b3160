//! Elements, classes of bytes, types of messages, and messages in hexadecimal.

use crate::texts::{number_of, put_bytes, split_at_first};
use acq_core::Service;
use acq_link::hex_frames::frames_of_hex;
use iso_codec::{Message, SetFault, all_alphanumeric, all_digits, all_printable};
use std::alloc::Global;

/// Puts the classes of bytes that a text is of, each of which is within the next.
pub fn put_class(text: &[u8], answer: &mut String) -> Option<()> {
    let classes = match (
        all_digits(text),
        all_alphanumeric(text),
        all_printable(text),
    ) {
        (true, true, true) => "n an ans",
        (false, true, true) => "an ans",
        (false, false, true) => "ans",
        (false, false, false) => "none",
        _ => "one without the next",
    };
    answer.push_str(classes).ok()
}

/// Puts the frames of a text of lines in hexadecimal, or its fault.
pub fn put_frames(alloc: Global, text: &[u8], answer: &mut String) -> Option<()> {
    match frames_of_hex(alloc, text) {
        Ok(frames) => put_bytes(frames.as_slice(), answer),
        Err(fault) => write!(answer, "{fault}").ok(),
    }
}

/// Puts whether an element takes a content, or its fault.
pub fn put_element(alloc: Global, text: &[u8], answer: &mut String) -> Option<()> {
    let (number, content) = split_at_first(text, b' ')?;
    let number = u8::try_from(number_of(number)?).ok()?;
    match set(alloc, number, content)? {
        Ok(()) => answer.push_str("set").ok(),
        Err(fault) => put_fault(&fault, answer),
    }
}

/// What comes of setting an element of a new message.
fn set(alloc: Global, number: u8, content: &[u8]) -> Option<Result<(), SetFault>> {
    let mut message = Message::new(alloc, *b"0800")?;
    Some(message.set(alloc, number, content))
}

/// Puts a fault's number, its element and its text.
fn put_fault(fault: &SetFault, answer: &mut String) -> Option<()> {
    write!(answer, "{} {} {fault}", fault.number(), fault.element()).ok()
}

/// Puts the type of the reply to a type, where it is served.
pub fn put_reply_type(text: &[u8], answer: &mut String) -> Option<()> {
    match Service::of(*text.first_chunk()?) {
        Some(service) => put_bytes(&service.reply_kind(), answer),
        None => answer.push_str("none").ok(),
    }
}
