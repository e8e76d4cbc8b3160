//! A settlement report as CSV, as a text of a book.

use acq_book::Book;
use acq_host::BookText;
use acq_link::Sink;
use acq_reports::ReportFault;
use acq_statement::report_csv_once_compared;
use day_totals::Day;
use std::alloc::Global;

/// The settlement report of a day that was compared, as CSV.
#[derive(Clone, Copy)]
pub(crate) struct ReportCsvText {
    pub(crate) day: Day,
}

impl BookText for ReportCsvText {
    ghost use Rattle.acq_statement.specs.ReportCsv.{report_csv};

    ghost text = { λ asked t. report_csv t asked.day };

    fn write<B: Book, K: Sink>(
        &self,
        alloc: Global,
        book: &mut B,
        writer: &mut K,
    ) -> Result<(), ReportFault> {
        report_csv_once_compared(alloc, book, self.day, writer)
    }
}
