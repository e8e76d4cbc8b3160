//! What came.

ghost use Rattle.std.specs.Prelude.{◌≡◌, IfOk};
ghost use Rattle.acq_message.specs.Services.{service_of};
ghost use Rattle.acq_core.specs.Arrivals.{arrival_of, arrival_of_message, arrival_of_reading};
ghost use Rattle.acq_core.specs.Arrivals.{checked, merchant_named};
ghost use Rattle.iso_codec.specs.Reading.{reading_of};

use crate::event::Event;
use crate::merchant::Merchant;
use crate::terminal::Terminal;
use acq_message::{
    CheckedRequest, MerchantId, Moment, Reference, RequestMessage, Service, Verdict, merchant_in,
};
use card_no::Range;
use iso_codec::{DecodeFault, Message, decode};
use std::alloc::{AllocError, Global};

/// An event as the host sees it: a frame by what it spells, read once.
#[derive(Drop)]
pub enum Arrival {
    /// A frame that spells no message, for this reason, which is never want of memory.
    Undecoded(DecodeFault),
    /// A message of a type that isn't served.
    Unserved(Message),
    /// A request that the first check refuses.
    Malformed(RequestMessage),
    /// A request that the first check passes.
    Requested(CheckedRequest),
    /// What an issuer says to the request of a merchant with a reference.
    Answered {
        moment: Moment,
        merchant: MerchantId,
        reference: Reference,
        verdict: Verdict,
    },
    /// The business day ends.
    CutOver,
    /// A range to add.
    RangeAdded(Range),
    /// The ends of a range to drop.
    RangeDropped {
        low: u32,
        high: u32,
    },
    /// A merchant to enrol.
    Enrolled(Merchant),
    /// A terminal to add.
    TerminalAdded(Terminal),
}

impl Arrival {
    /// An event as the host sees it. A frame is decoded here, and nowhere else.
    pub fn of(alloc: Global, event: &Event) -> Result<Arrival, AllocError>
        ensures { IfOk result (λ arrival. arrival ≡ arrival_of event.now) }
    {
        match event {
            Event::Frame(moment, text) => Arrival::of_frame(alloc, *moment, text.as_bytes()),
            Event::Answer(moment, merchant, reference, verdict) => Ok(Arrival::Answered {
                moment: *moment,
                merchant: *merchant,
                reference: *reference,
                verdict: *verdict,
            }),
            Event::Cutover(_) => Ok(Arrival::CutOver),
            Event::AddRange(range) => Ok(Arrival::RangeAdded(range.copied(alloc)?)),
            Event::DropRange(low, high) => Ok(Arrival::RangeDropped {
                low: *low,
                high: *high,
            }),
            Event::Enrol(id, currency, first_reference) => Ok(Arrival::Enrolled(Merchant {
                id: *id,
                currency: *currency,
                first_reference: *first_reference,
            })),
            Event::AddTerminal(merchant, id) => Ok(Arrival::TerminalAdded(Terminal {
                merchant: *merchant,
                id: *id,
            })),
        }
    }

    /// A frame whose message has these bytes, by what it reads as.
    pub fn of_frame(alloc: Global, moment: Moment, bytes: &[u8]) -> Result<Arrival, AllocError>
        ensures { IfOk result (λ arrival. arrival
            ≡ arrival_of_reading moment (reading_of bytes.now)) }
    {
        match decode(alloc, bytes) {
            Ok(message) => Ok(Arrival::of_message(moment, message)),
            Err(DecodeFault::Memory) => Err(AllocError),
            Err(fault) => Ok(Arrival::Undecoded(fault)),
        }
    }

    /// A message, by the service of its type and the first check.
    fn of_message(moment: Moment, message: Message) -> Arrival
        ensures { result ≡ arrival_of_message moment message (service_of message.kind) }
    {
        match Service::of(message.kind()) {
            Some(service) => Arrival::checked(RequestMessage {
                moment,
                service,
                message,
            }),
            None => Arrival::Unserved(message),
        }
    }

    /// A request, by the first check.
    fn checked(request: RequestMessage) -> Arrival
        ensures { result ≡ checked request }
    {
        match CheckedRequest::new(request) {
            Ok(request) => Arrival::Requested(request),
            Err(request) => Arrival::Malformed(request),
        }
    }

    /// The merchant that it names, if it names one.
    pub fn merchant(&self) -> Option<MerchantId>
        ensures { result ≡ merchant_named self.now }
    {
        match self {
            Arrival::Unserved(message) => merchant_in(message),
            Arrival::Malformed(request) => merchant_in(&request.message),
            Arrival::Requested(request) => merchant_in(&request.as_request().message),
            Arrival::Answered { merchant, .. } => Some(*merchant),
            Arrival::Enrolled(merchant) => Some(merchant.id),
            Arrival::TerminalAdded(terminal) => Some(terminal.merchant),
            Arrival::Undecoded(_)
            | Arrival::CutOver
            | Arrival::RangeAdded(_)
            | Arrival::RangeDropped { .. } => None,
        }
    }
}
