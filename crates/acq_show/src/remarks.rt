//! For which elements the host replies 30 to a request, by those that are there alone.

ghost use Rattle.std.specs.Prelude.{◌≡◌, ◌++◌, OnOk};
ghost use Rattle.acq_message.specs.Elements.{has};
ghost use Rattle.acq_message.specs.FirstCheck.{has_one_of};
ghost use Rattle.acq_message.specs.Services.{needed_card};
ghost use Rattle.acq_show.specs.Remarks.{message_remark, remark_on, remark, element_remark};
ghost use Rattle.acq_show.specs.Remarks.{element_words, first_missing, first_unverifiable};

use crate::names::element_name;
use acq_message::Service;
use iso_codec::Message;
use itoa::Buffer;
use std::alloc::AllocError;

/// The elements of a PIN block and of authentication codes.
const UNVERIFIABLE: [u8; 3] = [52, 64, 128];

/// Puts a line that says why the host replies 30 to a message, if it is told.
pub(crate) fn put_message_remark(text: &mut Vec<u8>, message: &Message) -> Result<(), AllocError>
    ensures { OnOk result (text.new.items ≡ text.old.items ++ message_remark message.now) }
{
    match Service::of(message.kind()) {
        Some(service) => put_remark_on(text, service, message),
        None => Ok(()),
    }
}

/// The same of a request of a service.
fn put_remark_on(text: &mut Vec<u8>, service: Service, message: &Message) -> Result<(), AllocError>
    ensures { OnOk result (text.new.items ≡ text.old.items ++ remark_on service message.now) }
{
    if let Some(number) = first_missing(message, service.needed()) {
        return put_element_remark(text, number, b"is missing");
    }
    if !has_needed_card(service, message) {
        return put_remark(text, b"neither element 2 nor 35 is there");
    }
    match first_unverifiable(message) {
        Some(number) => put_element_remark(text, number, b"is there, and can't be checked"),
        None => Ok(()),
    }
}

/// The first of these elements that isn't there.
fn first_missing(message: &Message, numbers: &[u8]) -> Option<u8>
    ensures { result ≡ first_missing message.now numbers.now }
{
    numbers
        .iter()
        .copied()
        .find(|number| !has(message, *number))
}

/// The first element that is there and can't be checked.
fn first_unverifiable(message: &Message) -> Option<u8>
    ensures { result ≡ first_unverifiable message.now }
{
    UNVERIFIABLE
        .iter()
        .copied()
        .find(|number| has(message, *number))
}

/// Whether a card is there, where a request needs one.
fn has_needed_card(service: Service, message: &Message) -> bool
    ensures { result ≡ has_one_of message.now (needed_card service) }
{
    match service {
        Service::Authorization | Service::Financial => has(message, 2) || has(message, 35),
        _ => true,
    }
}

fn has(message: &Message, number: u8) -> bool
    ensures { result ≡ has message.now number }
{
    message.get(number).is_some()
}

/// Puts a line that says why.
fn put_remark(text: &mut Vec<u8>, words: &[u8]) -> Result<(), AllocError>
    ensures { OnOk result (text.new.items ≡ text.old.items ++ remark words.now) }
{
    text.extend_from_slice(b"the host replies 30: ")?;
    text.extend_from_slice(words)?;
    text.extend_from_slice(b"\n")
}

/// The same of an element.
fn put_element_remark(text: &mut Vec<u8>, number: u8, words: &[u8]) -> Result<(), AllocError>
    ensures { OnOk result (text.new.items ≡ text.old.items ++ element_remark number words.now) }
{
    text.extend_from_slice(b"the host replies 30: ")?;
    put_element_words(text, number)?;
    text.extend_from_slice(words)?;
    text.extend_from_slice(b"\n")
}

/// Puts an element's number and its name.
fn put_element_words(text: &mut Vec<u8>, number: u8) -> Result<(), AllocError>
    ensures { OnOk result (text.new.items ≡ text.old.items ++ element_words number) }
{
    let mut digits = Buffer::new();
    text.extend_from_slice(b"element ")?;
    text.extend_from_slice(digits.format(number).as_bytes())?;
    text.extend_from_slice(b", ")?;
    text.extend_from_slice(element_name(number).as_bytes())?;
    text.extend_from_slice(b", ")
}
