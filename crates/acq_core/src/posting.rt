//! Postings.

ghost use Rattle.std.specs.Prelude.{◌≡◌, IfOk};

use acq_message::{Amount, ElementContent, MerchantId, Reference, TerminalId, Trace};
use day_totals::{Day, Leg};
use std::alloc::{AllocError, Global};

/// A row of the postings, but for its number, which the book gives it: 1 plus the number of that
/// merchant's postings of that day before it.
#[derive(Drop)]
pub struct Posting {
    pub merchant: MerchantId,
    pub day: Day,
    pub leg: Leg,
    pub amount: Amount,
    /// The reference of the request, or of the one that it follows.
    pub reference: Reference,
    /// The card number of the request; of a completion its hold's, of a reversal its original's.
    pub card: ElementContent,
    /// The terminal of the message that posted.
    pub terminal: TerminalId,
    /// The trace of the message that posted.
    pub trace: Trace,
}

impl Posting {
    /// A copy.
    pub fn copied(&self, alloc: Global) -> Result<Posting, AllocError>
        ensures { IfOk result (λ copy. copy ≡ self.now) }
    {
        let card = self.card.copied(alloc)?;
        Ok(Posting {
            merchant: self.merchant,
            day: self.day,
            leg: self.leg,
            amount: self.amount,
            reference: self.reference,
            card,
            terminal: self.terminal,
            trace: self.trace,
        })
    }
}
