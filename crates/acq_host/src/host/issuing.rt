//! What a gateway to issuers is told of the book of a host, while it takes events.

ghost use Rattle.std.specs.Prelude.{◌≡◌, is_ok, IfOk};
ghost use Rattle.acq_book.specs.Calls.{Looks};
ghost use Rattle.acq_book.specs.Promise.{CountsFault};
ghost use Rattle.acq_gateway_lines.specs.Outcomes.{outcome_at};
ghost use Rattle.acq_gateway_lines.specs.Slices.{IsSliceOf};

use crate::host::Host;
use acq_book::{Book, BookFault};
use acq_core::{MerchantId, Moment, Reference, Verdict};
use acq_gateway_lines::{AnswerOutcome, GatewaySlice, WaitingMessage, gateway_slice, outcome_for};

impl<B: Book + Drop> Host<B> {
    /// The lines of the rows behind so many, in slices, as `gateway_slice` gives them.
    pub fn gateway_slice(
        &mut self,
        moment: Moment,
        messages: &[WaitingMessage],
        rows: u64,
        most: u64,
    ) -> Result<GatewaySlice, BookFault>
        ensures slice { B.is_honest self.new → B.is_open self.old → IfOk result
            (IsSliceOf (B.tables self.old) moment messages.now rows most) }
        ensures looks { Looks B.Book self.old self.new (is_ok result) }
        ensures store { CountsFault result (B.failures self.old) (B.failures self.new) }
    {
        gateway_slice(self.alloc, &mut self.book, moment, messages, rows, most)
    }

    /// What is said to a verdict on a merchant's request, by what the book has of it.
    pub fn answer_outcome(
        &mut self,
        merchant: MerchantId,
        reference: Reference,
        verdict: &Verdict,
    ) -> Result<AnswerOutcome, BookFault>
        ensures outcome { B.is_honest self.new → B.is_open self.old → IfOk result (λ outcome.
            outcome ≡ outcome_at (B.tables self.old) merchant reference verdict.now) }
        ensures looks { Looks B.Book self.old self.new (is_ok result) }
        ensures store { CountsFault result (B.failures self.old) (B.failures self.new) }
    {
        outcome_for(&mut self.book, merchant, reference, verdict)
    }
}
