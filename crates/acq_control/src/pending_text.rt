//! Answers to what waits, as a text of a book.

use acq_book::Book;
use acq_core::Moment;
use acq_host::BookText;
use acq_link::Sink;
use acq_reports::ReportFault;
use acq_stand_in::{StandIn, answers_to_pending};
use day_totals::Day;
use std::alloc::Global;

/// The answers of these issuers to the requests of a day that wait for one, given at a moment.
#[derive(Drop)]
pub(crate) struct PendingText<'a> {
    pub(crate) issuers: &'a StandIn,
    pub(crate) day: Day,
    pub(crate) moment: Moment,
}

impl BookText for PendingText<'_> {
    ghost use Rattle.std.specs.Prelude.{Some};
    ghost use Rattle.acq_stand_in.specs.Pending.{pending_text};

    ghost text = { λ asked t. pending_text asked.issuers.now asked.moment (Some asked.day) t };

    fn write<B: Book, K: Sink>(
        &self,
        alloc: Global,
        book: &mut B,
        writer: &mut K,
    ) -> Result<(), ReportFault> {
        answers_to_pending(
            alloc,
            book,
            self.issuers,
            Some(self.day),
            self.moment,
            writer,
        )
    }
}
