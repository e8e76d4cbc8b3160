//! What a request was.

ghost use Rattle.std.specs.Prelude.{◌≡◌, ◌++◌, OnOk};
ghost use Rattle.acq_inquiry.specs.RequestLines.{asked_amount, asked_words, card_words};
ghost use Rattle.acq_inquiry.specs.RequestLines.{financial_words, reference_words, service_words};

use crate::line_parts::put_number;
use acq_core::{Reference, Request, Service};
use acq_message::{amount_in, transaction_in};
use acq_reports::content_bytes;
use acq_show::put_content;
use iso_codec::Message;
use std::alloc::AllocError;

/// Puts what a request was, with its references and its card.
pub(crate) fn put_asked_words(text: &mut Vec<u8>, row: &Request) -> Result<(), AllocError>
    ensures { OnOk result (text.new.items ≡ text.old.items ++ asked_words row.now) }
{
    text.extend_from_slice(service_words(row.key.service, &row.reply))?;
    put_asked_amount(text, row.key.service, &row.reply)?;
    put_reference(text, b", reference ", row.reference)?;
    put_reference(text, b", of ", row.follows)?;
    put_card(text, content_bytes(&row.card))
}

fn service_words(service: Service, reply: &Message) -> &'static [u8]
    ensures { result.now ≡ service_words service reply.now }
{
    match service {
        Service::Authorization => b"authorization",
        Service::Financial => financial_words(transaction_in(reply)),
        Service::Completion => b"completion",
        Service::Reversal => b"reversal",
        Service::ReversalAdvice => b"reversal advice",
        Service::Reconciliation => b"reconciliation",
        Service::NetworkManagement => b"network management",
    }
}

fn financial_words(transaction: &[u8]) -> &'static [u8]
    ensures { result.now ≡ financial_words transaction.now }
{
    if transaction == b"00".as_slice() {
        b"sale"
    } else if transaction == b"20".as_slice() {
        b"return"
    } else {
        b"financial request"
    }
}

/// Puts the amount that was asked for. The row of a lowered hold has it no more, its reply has.
fn put_asked_amount(text: &mut Vec<u8>, service: Service, reply: &Message) -> Result<(), AllocError>
    ensures { OnOk result (text.new.items
        ≡ text.old.items ++ asked_amount service reply.now) }
{
    match service {
        Service::Reconciliation | Service::NetworkManagement => Ok(()),
        _ => {
            text.extend_from_slice(b" of ")?;
            put_number(text, amount_in(reply).number())
        }
    }
}

/// Puts a reference behind such words, where it is there.
fn put_reference(
    text: &mut Vec<u8>,
    before: &[u8],
    reference: Option<Reference>,
) -> Result<(), AllocError>
    ensures { OnOk result (text.new.items
        ≡ text.old.items ++ reference_words before.now reference) }
{
    match reference {
        Some(reference) => {
            text.extend_from_slice(before)?;
            text.extend_from_slice(&reference.text())
        }
        None => Ok(()),
    }
}

/// Puts the card, masked, where it is there.
fn put_card(text: &mut Vec<u8>, card: &[u8]) -> Result<(), AllocError>
    ensures { OnOk result (text.new.items ≡ text.old.items ++ card_words card.now) }
{
    if card.is_empty() {
        return Ok(());
    }
    text.extend_from_slice(b", card ")?;
    put_content(text, 2, card)
}
