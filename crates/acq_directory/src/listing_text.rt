//! Listings.

ghost use Rattle.std.specs.Prelude.{◌≡◌, ◌+◌, List, ℕ, is_ok};
ghost use Rattle.acq_book.specs.Calls.{Looks};
ghost use Rattle.acq_book.specs.Promise.{CountsFault};
ghost use Rattle.acq_reports.specs.Faults.{CountsStore, failed_writes, is_settled};
ghost use Rattle.acq_reports.specs.Writing.{PutsReport, Writes};
ghost use Rattle.acq_directory.specs.Listings.{listing_text, records_of};

use crate::listing::Listing;
use crate::records::{merchant_text, range_text, terminal_text};
use acq_book::{Book, BookFault, Visit};
use acq_core::{Merchant, Terminal};
use acq_link::Sink;
use acq_reports::{Report, ReportFault};
use card_no::Range;
use std::alloc::Global;

/// Writes a listing (own profile; `specs/Listings.antt`): CSV, a header and a record for each
/// merchant, terminal or range, in order of the merchants' bytes, of these and the terminals', or
/// of the ranges' lower ends.
///
/// Nothing is refused. `Write` tells how many bytes of the text went out; with `Memory` and `Store`
/// a beginning of it may have.
pub fn write_listing<B: Book, K: Sink>(
    alloc: Global,
    book: &mut B,
    listing: Listing,
    writer: &mut K,
) -> Result<(), ReportFault>
    ensures text { B.is_honest book.new → B.is_open book.old → Writes K.sent K.failures
        (listing_text listing (B.tables book.old)) writer.old writer.new result }
    ensures writes { K.failures writer.new ≡ K.failures writer.old + failed_writes result }
    ensures looks { Looks B.Book book.old book.new (is_settled result) }
    ensures store { CountsStore result (B.failures book.old) (B.failures book.new) }
{
    let mut records = Records {
        report: Report::new(alloc, writer),
    };
    let walked = if records.report.put(listing.header()) {
        put_records(book, listing, &mut records)
    } else {
        Ok(())
    };
    records.report.end(walked)
}

/// Puts the records of a listing.
fn put_records<B: Book, K: Sink>(
    book: &mut B,
    listing: Listing,
    records: &mut Records<'_, K>,
) -> Result<(), BookFault>
    ensures text { B.is_honest book.new → B.is_open book.old → PutsReport K.sent K.failures
        (records_of listing (B.tables book.old)) records.old.report records.new.report result }
    ensures any { (text : List ℕ) × PutsReport K.sent K.failures text
        records.old.report records.new.report result }
    ensures looks { Looks B.Book book.old book.new (is_ok result) }
    ensures store { CountsFault result (B.failures book.old) (B.failures book.new) }
{
    match listing {
        Listing::Merchants => book.walk_merchants(records),
        Listing::Terminals => book.walk_terminals(records),
        Listing::Ranges => book.walk_ranges(records),
    }
}

/// Puts the record of each row.
#[derive(Drop)]
struct Records<'a, K> {
    report: Report<'a, K>,
}

impl<K: Sink> Visit<Merchant> for Records<'_, K> {
    ghost use Rattle.acq_reports.specs.Writing.{Puts};
    ghost use Rattle.acq_directory.specs.Listings.{merchant_line};

    ghost sees = { λ old row more new.
        Puts K.sent K.failures (merchant_line row) old.report more new.report };

    fn row(&mut self, row: &Merchant) -> bool {
        let record = merchant_text(self.report.alloc(), row);
        self.report.put_made(record)
    }
}

impl<K: Sink> Visit<Terminal> for Records<'_, K> {
    ghost use Rattle.acq_reports.specs.Writing.{Puts};
    ghost use Rattle.acq_directory.specs.Listings.{terminal_line};

    ghost sees = { λ old row more new.
        Puts K.sent K.failures (terminal_line row) old.report more new.report };

    fn row(&mut self, row: &Terminal) -> bool {
        let record = terminal_text(self.report.alloc(), row);
        self.report.put_made(record)
    }
}

impl<K: Sink> Visit<Range> for Records<'_, K> {
    ghost use Rattle.acq_reports.specs.Writing.{Puts};
    ghost use Rattle.acq_directory.specs.Listings.{range_line};

    ghost sees = { λ old row more new.
        Puts K.sent K.failures (range_line row) old.report more new.report };

    fn row(&mut self, row: &Range) -> bool {
        let record = range_text(self.report.alloc(), row);
        self.report.put_made(record)
    }
}
