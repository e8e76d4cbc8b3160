//! What is advised of a row.

ghost use Rattle.std.specs.Prelude.{◌≡◌, take, IfErr, IfOk};
ghost use Rattle.iso_codec.specs.Reading.{reading_of};
ghost use Rattle.acq_gateway_lines.specs.Lines.{advice_of, reversal_of, service_named};

use crate::notice::Notice;
use acq_core::{Amount, Reference, Request, Service};
use acq_message::{remaining_in, text_at};
use iso_codec::{DecodeFault, Message, decode};
use std::alloc::{AllocError, Global};

/// What is advised of a row: the kind of the request that it is about, that request's reference,
/// the amount that was completed, taken back or asked for, and what of it remains.
#[derive(Clone, Copy)]
pub struct Advice {
    pub service: Option<Service>,
    pub reference: Option<Reference>,
    pub amount: u64,
    pub remains: u64,
}

impl Advice {
    /// What is advised of a row of which this is told.
    pub(crate) fn of(alloc: Global, notice: Notice, row: &Request) -> Result<Advice, AllocError>
        ensures { IfOk result (λ advice. advice ≡ advice_of notice row.now) }
    {
        match notice {
            Notice::Completion => Ok(Advice {
                service: Some(Service::Authorization),
                reference: row.follows,
                amount: row.amount.number(),
                remains: 0,
            }),
            Notice::Reversal => reversal_of(alloc, row),
            _ => Ok(Advice {
                service: Some(row.key.service),
                reference: row.reference,
                amount: row.amount.number(),
                remains: 0,
            }),
        }
    }
}

/// A reversal, by what its message says.
fn reversal_of(alloc: Global, row: &Request) -> Result<Advice, AllocError>
    ensures { IfOk result (λ advice. advice ≡ reversal_of row.now (reading_of row.now.essence)) }
{
    match decode(alloc, row.essence.as_bytes()) {
        Ok(message) => Ok(reversal_by(row, &message)),
        Err(DecodeFault::Memory) => Err(AllocError),
        Err(_) => Ok(Advice {
            service: None,
            reference: row.follows,
            amount: row.amount.number(),
            remains: 0,
        }),
    }
}

/// A reversal, by its message.
fn reversal_by(row: &Request, message: &Message) -> Advice
    ensures { result ≡ reversal_of row.now (Ok message.now) }
{
    let remains = remaining_in(message).number();
    let original = text_at(message, 90);
    Advice {
        service: Some(service_named(&original[..original.len().min(3)])),
        reference: row.follows,
        amount: row.amount.number().saturating_sub(remains),
        remains,
    }
}

/// The service of the request that element 90 of a reversal names, by the first digits of its type.
fn service_named(digits: &[u8]) -> Service
    ensures { result ≡ service_named digits.now }
{
    if digits == b"010".as_slice() {
        Service::Authorization
    } else if digits == b"020".as_slice() {
        Service::Financial
    } else {
        Service::Completion
    }
}
