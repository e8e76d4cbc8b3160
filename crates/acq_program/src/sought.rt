//! By what a request is looked for.

ghost use Rattle.std.specs.Prelude.{◌≡◌};
ghost use Rattle.acq_program.specs.Arguments.{inquiry_of};

use acq_core::{Reference, TerminalId};
use acq_inquiry::Inquiry;
use acq_message::Trace;
use day_totals::Day;

/// The options of `find` by which a request is looked for, each by itself.
#[derive(Clone, Copy)]
pub(crate) struct Sought {
    pub reference: Option<Reference>,
    pub terminal: Option<TerminalId>,
    pub trace: Option<Trace>,
    pub card_ends: Option<[u8; 4]>,
    pub day: Option<Day>,
}

impl Sought {
    /// What is asked for, where they are those of one way to ask and no others.
    pub fn inquiry(&self) -> Option<Inquiry>
        ensures { result ≡ inquiry_of self.now }
    {
        match (
            self.reference,
            self.terminal,
            self.trace,
            self.card_ends,
            self.day,
        ) {
            (Some(reference), None, None, None, None) => Some(Inquiry::Reference(reference)),
            (None, Some(terminal), Some(trace), None, None) => {
                Some(Inquiry::Trace(terminal, trace))
            }
            (None, None, None, Some(digits), Some(day)) => Some(Inquiry::CardEnds(digits, day)),
            _ => None,
        }
    }
}
