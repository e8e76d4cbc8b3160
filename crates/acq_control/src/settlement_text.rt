//! A settlement report, as a text of a book.

use acq_book::Book;
use acq_host::BookText;
use acq_link::Sink;
use acq_reports::{ReportFault, settlement_once_compared};
use day_totals::Day;
use std::alloc::Global;

/// The settlement report of a day that was compared.
#[derive(Clone, Copy)]
pub(crate) struct SettlementText {
    pub(crate) day: Day,
}

impl BookText for SettlementText {
    ghost use Rattle.acq_reports.specs.SettlementReport.{settlement_text};

    ghost text = { λ asked t. settlement_text t asked.day };

    fn write<B: Book, K: Sink>(
        &self,
        alloc: Global,
        book: &mut B,
        writer: &mut K,
    ) -> Result<(), ReportFault> {
        settlement_once_compared(alloc, book, self.day, writer)
    }
}
