//! Messages whose issuers are asked.

ghost use Rattle.std.specs.Prelude.{◌≡◌, IfOk, option_copied, string_bytes};
ghost use Rattle.hex.specs.Hex.{encode_upper};
ghost use Rattle.acq_gateway_lines.specs.Lines.{hex_in, is_of, message_in};

use acq_core::{MerchantId, MessageText, Reference, Request};
use std::alloc::{AllocError, Global};

/// A terminal's message as it came, whose issuer is asked. It has what a book keeps none of, so
/// nothing but a gateway's line ever shows it.
#[derive(Drop)]
pub struct WaitingMessage {
    pub merchant: MerchantId,
    pub reference: Reference,
    pub text: MessageText,
}

impl WaitingMessage {
    /// Whether it is the message of a row.
    fn is_of(&self, row: &Request) -> bool
        ensures { result ≡ is_of row.now self.now }
    {
        match row.reference {
            Some(reference) => self.reference == reference && self.merchant == row.key.merchant,
            None => false,
        }
    }
}

/// A row's message, if it is among these.
fn message_in<'m>(messages: &'m [WaitingMessage], row: &Request) -> Option<&'m WaitingMessage>
    ensures { option_copied result ≡ message_in row.now messages.entry.now }
{
    messages.iter().find(|message| message.is_of(row))
}

/// A row's message in hexadecimal, or nothing where it isn't among these.
pub(crate) fn hex_in(
    alloc: Global,
    messages: &[WaitingMessage],
    row: &Request,
) -> Result<String, AllocError>
    ensures { IfOk result (λ text. string_bytes text ≡ hex_in row.now messages.now) }
{
    match message_in(messages, row) {
        Some(message) => hex::encode_upper(alloc, message.text.as_bytes()),
        None => Ok(String::new(alloc)),
    }
}
