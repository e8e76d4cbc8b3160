//! Open holds.

ghost use Rattle.std.specs.Prelude.{◌≡◌, ◌+◌, IfOk};
ghost use Rattle.acq_book.specs.Calls.{Looks};
ghost use Rattle.acq_reports.specs.Faults.{CountsStore, failed_writes, is_settled};
ghost use Rattle.acq_reports.specs.Marks.{csv_line};
ghost use Rattle.acq_reports.specs.OpenHolds.{holds_text, hold_fields, is_before_end};
ghost use Rattle.acq_reports.specs.Refusals.{merchant_refusal};
ghost use Rattle.acq_reports.specs.Writing.{Reports, Writes};

use crate::hold_ends::hold_end_text;
use crate::masks::masked;
use crate::records::{content_bytes, record_text, reference_text};
use crate::refusals::check_merchant;
use crate::report::Report;
use crate::report_fault::ReportFault;
use acq_book::{Book, Visit};
use acq_core::{MerchantId, Moment, Request};
use acq_link::Sink;
use itoa::Buffer;
use std::alloc::{AllocError, Global};

/// The names of a record's fields.
const HEADER: &[u8] = b"reference,card,amount,until\n";

/// Writes a merchant's holds that are open at a moment (own profile; `specs/OpenHolds.antt`): CSV,
/// a header and a record for each hold, in order of reference. The card is masked, the amount is in
/// minor units, and the last second of the hold is written YYYY-MM-DD hh:mm:ss, in UTC.
///
/// It fails with `NoSuchMerchant` before anything is written. `Write` tells how many bytes of the
/// text went out; with `Memory` and `Store` a beginning of it may have.
pub fn open_holds<B: Book, K: Sink>(
    alloc: Global,
    book: &mut B,
    merchant: MerchantId,
    moment: Moment,
    writer: &mut K,
) -> Result<(), ReportFault>
    ensures text { B.is_honest book.new → B.is_open book.old → Reports
        (merchant_refusal (B.tables book.old) merchant)
        (holds_text (B.tables book.old) merchant moment)
        (K.sent writer.old) (K.sent writer.new) result }
    ensures writes { K.failures writer.new ≡ K.failures writer.old + failed_writes result }
    ensures looks { Looks B.Book book.old book.new (is_settled result) }
    ensures store { CountsStore result (B.failures book.old) (B.failures book.new) }
{
    check_merchant(book, merchant)?;
    write_holds(alloc, book, merchant, moment, writer)
}

/// Writes the header and the open holds of a merchant.
fn write_holds<B: Book, K: Sink>(
    alloc: Global,
    book: &mut B,
    merchant: MerchantId,
    moment: Moment,
    writer: &mut K,
) -> Result<(), ReportFault>
    ensures text { B.is_honest book.new → B.is_open book.old → Writes K.sent K.failures
        (holds_text (B.tables book.old) merchant moment) writer.old writer.new result }
    ensures writes { K.failures writer.new ≡ K.failures writer.old + failed_writes result }
    ensures looks { Looks B.Book book.old book.new (is_settled result) }
    ensures store { CountsStore result (B.failures book.old) (B.failures book.new) }
{
    let mut holds = OpenHolds {
        report: Report::new(alloc, writer),
        moment,
    };
    let walked = if holds.report.put(HEADER) {
        book.walk_holds(merchant, &mut holds)
    } else {
        Ok(())
    };
    holds.report.end(walked)
}

/// Puts the holds that are open at a moment.
#[derive(Drop)]
struct OpenHolds<'a, K> {
    report: Report<'a, K>,
    moment: Moment,
}

impl<K: Sink> Visit<Request> for OpenHolds<'_, K> {
    ghost use Rattle.std.specs.Prelude.{◌≡◌};
    ghost use Rattle.acq_reports.specs.OpenHolds.{hold_line};
    ghost use Rattle.acq_reports.specs.Writing.{Puts};

    ghost sees = { λ old row more new.
        Puts K.sent K.failures (hold_line old.moment row) old.report more new.report
        × (new.moment ≡ old.moment) };

    fn row(&mut self, row: &Request) -> bool {
        if is_before_end(self.moment, row.hold_end) {
            let line = hold_text(self.report.alloc(), row);
            self.report.put_made(line)
        } else {
            self.report.put(b"")
        }
    }
}

fn is_before_end(moment: Moment, end: Option<u64>) -> bool
    ensures { result ≡ is_before_end moment end }
{
    match end {
        Some(end) => moment.seconds() <= end,
        None => false,
    }
}

/// A hold's record.
fn hold_text(alloc: Global, row: &Request) -> Result<Vec<u8>, AllocError>
    ensures { IfOk result (λ text. text.items ≡ csv_line (hold_fields row.now)) }
{
    let reference = reference_text(row.reference);
    let card = masked(alloc, content_bytes(&row.card))?;
    let mut amount = Buffer::new();
    let end = hold_end_text(row.hold_end.unwrap_or(0));
    let fields: [&[u8]; 4] = [
        &reference,
        card.as_slice(),
        amount.format(row.amount.number()).as_bytes(),
        &end,
    ];
    record_text(alloc, &fields)
}
