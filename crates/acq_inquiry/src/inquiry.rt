//! What is asked for.

ghost use Rattle.std.specs.Prelude.{◌≡◌};
ghost use Rattle.acq_inquiry.specs.Inquiries.{is_asked};

use acq_core::{Reference, Request, TerminalId, Trace};
use acq_reports::content_bytes;
use day_totals::Day;

/// What is asked for, of a merchant's requests.
#[derive(Clone, Copy, PartialEq, Eq)]
pub enum Inquiry {
    /// The request with this reference.
    Reference(Reference),
    /// Those of a terminal with this trace number.
    Trace(TerminalId, Trace),
    /// Those of a business day whose card numbers end in these digits.
    CardEnds([u8; 4], Day),
}

impl Inquiry {
    /// Whether a request is asked for.
    pub(crate) fn asks_for(&self, row: &Request) -> bool
        ensures { result ≡ is_asked self.now row.now }
    {
        match self {
            Inquiry::Reference(reference) => match row.reference {
                Some(own) => own == *reference,
                None => false,
            },
            Inquiry::Trace(terminal, trace) => {
                row.key.terminal == *terminal && row.key.trace == *trace
            }
            Inquiry::CardEnds(digits, day) => {
                row.day == *day && content_bytes(&row.card).ends_with(digits)
            }
        }
    }
}
