//! Reports on the book of a host, while it takes events.

ghost use Rattle.std.specs.Prelude.{◌≡◌, ◌+◌, ◌++◌, None, IfOk, is_ok};
ghost use Rattle.acq_book.specs.Calls.{Looks};
ghost use Rattle.acq_book.specs.Promise.{CountsFault};
ghost use Rattle.acq_reports.specs.Faults.{CountsStore, TellsStore, failed_writes, is_settled};
ghost use Rattle.acq_reports.specs.OpenHolds.{holds_text};
ghost use Rattle.acq_reports.specs.Refusals.{day_refusal, merchant_refusal};
ghost use Rattle.acq_reports.specs.SettlementReport.{settlement_text};
ghost use Rattle.acq_reports.specs.Writing.{Allows, Reports};
ghost use Rattle.acq_clearing.specs.ClearingFile.{clearing_text};
ghost use Rattle.acq_clearing.specs.Slices.{file_from};
ghost use Rattle.acq_statement.specs.ReportCsv.{report_csv};

use crate::book_look::BookLook;
use crate::book_text::BookText;
use crate::host::Host;
use acq_book::{Book, BookFault};
use acq_clearing::{Bookmark, Slice, clearing, clearing_slice};
use acq_core::{MerchantId, Moment};
use acq_link::Sink;
use acq_reports::{ReportFault, check_day, open_holds, settlement};
use acq_statement::write_report_csv;
use day_totals::Day;

impl<B: Book + Drop> Host<B> {
    /// Writes the clearing file of a day that is over, as `clearing` does.
    pub fn write_clearing<K: Sink>(&mut self, day: Day, writer: &mut K) -> Result<(), ReportFault>
        ensures text { B.is_honest self.new → B.is_open self.old → Reports
            (day_refusal (B.tables self.old) day) (clearing_text (B.tables self.old) day)
            (K.sent writer.old) (K.sent writer.new) result }
        ensures writes { K.failures writer.new
            ≡ K.failures writer.old + failed_writes result }
        ensures looks { Looks B.Book self.old self.new (is_settled result) }
        ensures store { TellsStore B.Book self.old self.new result }
    {
        clearing(self.alloc, &mut self.book, day, writer)
    }

    /// Refuses a day that isn't over, or some of whose requests are pending, as `clearing` does.
    pub fn check_day(&mut self, day: Day) -> Result<(), ReportFault>
        ensures refuses { B.is_open self.new → Allows (day_refusal (B.tables self.old) day) result }
        ensures looks { Looks B.Book self.old self.new (is_settled result) }
        ensures store { CountsStore result (B.failures self.old) (B.failures self.new) }
    {
        check_day(&mut self.book, day)
    }

    /// A day's clearing file from a bookmark on, in slices, as `clearing_slice` gives it.
    pub fn clearing_slice(&mut self, day: Day, from: Bookmark) -> Result<Slice, BookFault>
        ensures text { B.is_honest self.new → B.is_open self.old → IfOk result (λ slice.
            slice.text.items ++ file_from (B.tables self.old) day slice.next
            ≡ file_from (B.tables self.old) day from) }
        ensures looks { Looks B.Book self.old self.new (is_ok result) }
        ensures store { CountsFault result (B.failures self.old) (B.failures self.new) }
    {
        clearing_slice(self.alloc, &mut self.book, day, from)
    }

    /// Writes the settlement report of a day that is over, as `settlement` does.
    pub fn write_settlement<K: Sink>(&mut self, day: Day, writer: &mut K) -> Result<(), ReportFault>
        ensures text { B.is_honest self.new → B.is_open self.old → Reports
            (day_refusal (B.tables self.old) day) (settlement_text (B.tables self.old) day)
            (K.sent writer.old) (K.sent writer.new) result }
        ensures writes { K.failures writer.new
            ≡ K.failures writer.old + failed_writes result }
        ensures looks { Looks B.Book self.old self.new (is_settled result) }
        ensures store { TellsStore B.Book self.old self.new result }
    {
        settlement(self.alloc, &mut self.book, day, writer)
    }

    /// Writes the settlement report of a day that is over as CSV, as `write_report_csv` does.
    pub fn write_report_csv<K: Sink>(&mut self, day: Day, writer: &mut K) -> Result<(), ReportFault>
        ensures text { B.is_honest self.new → B.is_open self.old → Reports
            (day_refusal (B.tables self.old) day) (report_csv (B.tables self.old) day)
            (K.sent writer.old) (K.sent writer.new) result }
        ensures writes { K.failures writer.new
            ≡ K.failures writer.old + failed_writes result }
        ensures looks { Looks B.Book self.old self.new (is_settled result) }
        ensures store { TellsStore B.Book self.old self.new result }
    {
        write_report_csv(self.alloc, &mut self.book, day, writer)
    }

    /// Writes a merchant's open holds, as `open_holds` does.
    pub fn write_holds<K: Sink>(
        &mut self,
        merchant: MerchantId,
        moment: Moment,
        writer: &mut K,
    ) -> Result<(), ReportFault>
        ensures text { B.is_honest self.new → B.is_open self.old → Reports
            (merchant_refusal (B.tables self.old) merchant)
            (holds_text (B.tables self.old) merchant moment)
            (K.sent writer.old) (K.sent writer.new) result }
        ensures writes { K.failures writer.new
            ≡ K.failures writer.old + failed_writes result }
        ensures looks { Looks B.Book self.old self.new (is_settled result) }
        ensures store { CountsStore result (B.failures self.old) (B.failures self.new) }
    {
        open_holds(self.alloc, &mut self.book, merchant, moment, writer)
    }

    /// Writes another text of the book.
    pub fn write_text<X: BookText, K: Sink>(
        &mut self,
        asked: &X,
        writer: &mut K,
    ) -> Result<(), ReportFault>
        ensures text { B.is_honest self.new → B.is_open self.old → Reports None
            (X.text asked.now (B.tables self.old)) (K.sent writer.old) (K.sent writer.new) result }
        ensures writes { K.failures writer.new
            ≡ K.failures writer.old + failed_writes result }
        ensures looks { Looks B.Book self.old self.new (is_settled result) }
        ensures store { CountsStore result (B.failures self.old) (B.failures self.new) }
    {
        asked.write(self.alloc, &mut self.book, writer)
    }

    /// Has a look at the book.
    pub fn look<T, X: BookLook<T>>(&mut self, asked: &X) -> Result<T, BookFault>
        ensures makes { B.is_honest self.new → B.is_open self.old → IfOk result
            (X.makes asked.now (B.tables self.old)) }
        ensures looks { Looks B.Book self.old self.new (is_ok result) }
        ensures store { CountsFault result (B.failures self.old) (B.failures self.new) }
    {
        asked.look(self.alloc, &mut self.book)
    }
}
