//! The sums of a day, as a text of a book.

use acq_book::Book;
use acq_host::BookText;
use acq_link::Sink;
use acq_reports::ReportFault;
use acq_statement::write_day_sums;
use day_totals::Day;
use std::alloc::Global;

/// The sums of a day by currency.
#[derive(Clone, Copy)]
pub(crate) struct SumsText {
    pub(crate) day: Day,
}

impl BookText for SumsText {
    ghost use Rattle.acq_statement.specs.DaySums.{day_sums};

    ghost text = { λ asked t. day_sums t asked.day };

    fn write<B: Book, K: Sink>(
        &self,
        alloc: Global,
        book: &mut B,
        writer: &mut K,
    ) -> Result<(), ReportFault> {
        write_day_sums(alloc, book, self.day, writer)
    }
}
