//! The fields of event lines: numbers, names, verdicts, messages.

ghost use Rattle.std.specs.Prelude.{◌≡◌, true, IfOk, IfSome};
ghost use Rattle.acq_message.specs.Numbers.{is_reference};
ghost use Rattle.acq_out.specs.Fields.{is_number_text, number_of_text, moment_of_text};
ghost use Rattle.acq_out.specs.Fields.{first_reference_of_text, merchant_of_text};
ghost use Rattle.acq_out.specs.Fields.{terminal_of_text, currency_of_text, message_of_hex};
ghost use Rattle.acq_out.specs.Fields.{verdict_of_texts};

use acq_core::{
    Currency, FirstReference, MerchantId, MessageText, Moment, Reference, TerminalId, Verdict,
};
use acq_message::digits_value;
use hex::FromHexError;
use iso_codec::all_digits;
use std::alloc::{AllocError, Global};

/// The most digits of a number.
const MOST_DIGITS: usize = 12;

/// The bytes of a merchant's name.
const MERCHANT_LEN: usize = 15;

/// The bytes of a terminal's name.
const TERMINAL_LEN: usize = 8;

/// Whether a text is 1 to 12 digits.
fn is_number_text(text: &[u8]) -> bool
    ensures { result ≡ is_number_text text.now }
{
    (1..=MOST_DIGITS).contains(&text.len()) && all_digits(text)
}

/// The number that 1 to 12 digits spell.
fn number_of(text: &[u8]) -> Option<u64>
    ensures value { result ≡ number_of_text text.now }
    ensures range { IfSome result (λ number. is_reference number ≡ true) }
{
    if is_number_text(text) {
        Some(digits_value(text))
    } else {
        None
    }
}

/// A moment, as seconds since 1970-01-01 00:00:00 UTC.
pub fn moment_of(text: &[u8]) -> Option<Moment>
    ensures { result ≡ moment_of_text text.now }
{
    Moment::from_seconds(number_of(text)?)
}

/// A reference; each number that a field spells is one.
pub fn reference_of(text: &[u8]) -> Option<Reference>
    ensures { result ≡ number_of_text text.now }
{
    Reference::from_number(number_of(text)?)
}

/// A merchant's first reference.
pub(crate) fn first_reference_of(text: &[u8]) -> Option<FirstReference>
    ensures { result ≡ first_reference_of_text text.now }
{
    FirstReference::from_number(number_of(text)?)
}

/// A merchant's name, filled on the right with spaces.
pub fn merchant_of(text: &[u8]) -> Option<MerchantId>
    ensures { result ≡ merchant_of_text text.now }
{
    if text.is_empty() || text.len() > MERCHANT_LEN {
        return None;
    }
    let mut name = [b' '; MERCHANT_LEN];
    name[..text.len()].copy_from_slice(text);
    MerchantId::read(&name)
}

/// A terminal's name, filled on the right with spaces.
pub fn terminal_of(text: &[u8]) -> Option<TerminalId>
    ensures { result ≡ terminal_of_text text.now }
{
    if text.is_empty() || text.len() > TERMINAL_LEN {
        return None;
    }
    let mut name = [b' '; TERMINAL_LEN];
    name[..text.len()].copy_from_slice(text);
    TerminalId::read(&name)
}

/// A currency.
pub(crate) fn currency_of(text: &[u8]) -> Option<Currency>
    ensures { result ≡ currency_of_text text.now }
{
    Currency::read(text)
}

/// A message, in hexadecimal digits of either case.
pub(crate) fn message_of(alloc: Global, text: &[u8]) -> Result<Option<MessageText>, AllocError>
    ensures { IfOk result (λ message. message ≡ message_of_hex text.now) }
{
    match hex::decode(alloc, text) {
        Ok(bytes) => Ok(Some(MessageText::from_vec(bytes))),
        Err(FromHexError::OutOfMemory) => Err(AllocError),
        Err(_) => Ok(None),
    }
}

/// What an issuer says: `approved` with an authorization id, `declined` with a code, or `none`.
pub fn verdict_of(word: &[u8], text: &[u8]) -> Option<Verdict>
    ensures { result ≡ verdict_of_texts word.now text.now }
{
    if word == b"approved".as_slice() {
        Verdict::approved(text)
    } else if word == b"declined".as_slice() {
        Verdict::declined(text)
    } else if word == b"none".as_slice() && text.is_empty() {
        Some(Verdict::NoAnswer)
    } else {
        None
    }
}
