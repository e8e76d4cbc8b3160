//! Clearing files.

ghost use Rattle.std.specs.Prelude.{◌≡◌, ◌+◌, ◌∷◌, [], IfOk};
ghost use Rattle.acq_book.specs.Calls.{Looks};
ghost use Rattle.acq_reports.specs.Faults.{CountsStore, TellsStore, failed_writes, is_settled};
ghost use Rattle.acq_reports.specs.Marks.{csv_line};
ghost use Rattle.acq_reports.specs.Refusals.{day_refusal};
ghost use Rattle.acq_reports.specs.Writing.{Reports, Writes};
ghost use Rattle.acq_clearing.specs.ClearingFile.{clearing_text, leg_name, posting_line};

use acq_book::{Book, Visit};
use acq_core::Posting;
use acq_link::Sink;
use acq_reports::{Report, ReportFault, check_day, check_sums, merchant_names, record_text};
use day_totals::{Day, Leg};
use itoa::Buffer;
use std::alloc::{AllocError, Global};

/// The names of a record's fields.
pub(crate) const HEADER: &[u8] = b"day,merchant,number,leg,amount,reference,card,terminal,trace\n";

/// Writes the clearing file of a day that is over (own profile; `specs/ClearingFile.antt`): CSV, a
/// header and a record for each posting of the day, in order of the merchants' bytes and the
/// numbers. Days are written YYYY-MM-DD, amounts in minor units. Card numbers stand whole, since
/// the networks clear by them: where the file goes is the caller's to guard.
///
/// It fails with `DayNotOver` or `StillPending` before anything is written, and so with `Store`
/// where a merchant's postings don't add up to its totals: then the store isn't honest. `Write`
/// tells how many bytes of the text went out; with `Memory` and `Store` a beginning of it may have.
///
/// The merchants' names are held in memory, and of those that have postings the sums.
#[tactic(auto, using(acq_book::proofs::Chains::looks_more, acq_reports::proofs::Chains::failed_later))]
pub fn clearing<B: Book, K: Sink>(
    alloc: Global,
    book: &mut B,
    day: Day,
    writer: &mut K,
) -> Result<(), ReportFault>
    ensures text { B.is_honest book.new → B.is_open book.old → Reports
        (day_refusal (B.tables book.old) day) (clearing_text (B.tables book.old) day)
        (K.sent writer.old) (K.sent writer.new) result }
    ensures writes { K.failures writer.new ≡ K.failures writer.old + failed_writes result }
    ensures looks { Looks B.Book book.old book.new (is_settled result) }
    ensures store { TellsStore B.Book book.old book.new result }
{
    check_day(book, day)?;
    let names = merchant_names(alloc, book)?;
    check_sums(alloc, book, day, names.as_slice())?;
    write_postings(alloc, book, day, writer)
}

/// Writes the header and the postings of a day.
fn write_postings<B: Book, K: Sink>(
    alloc: Global,
    book: &mut B,
    day: Day,
    writer: &mut K,
) -> Result<(), ReportFault>
    ensures text { B.is_honest book.new → B.is_open book.old → Writes K.sent K.failures
        (clearing_text (B.tables book.old) day) writer.old writer.new result }
    ensures writes { K.failures writer.new ≡ K.failures writer.old + failed_writes result }
    ensures looks { Looks B.Book book.old book.new (is_settled result) }
    ensures store { CountsStore result (B.failures book.old) (B.failures book.new) }
{
    let mut postings = Postings {
        report: Report::new(alloc, writer),
    };
    let walked = if postings.report.put(HEADER) {
        book.walk_postings(day, &mut postings)
    } else {
        Ok(())
    };
    postings.report.end(walked)
}

/// Puts each posting's record.
#[derive(Drop)]
struct Postings<'a, K> {
    report: Report<'a, K>,
}

impl<K: Sink> Visit<(u64, Posting)> for Postings<'_, K> {
    ghost use Rattle.acq_reports.specs.Writing.{Puts};
    ghost use Rattle.acq_clearing.specs.ClearingFile.{posting_line};

    ghost sees = { λ old row more new.
        Puts K.sent K.failures (posting_line row) old.report more new.report };

    fn row(&mut self, row: &(u64, Posting)) -> bool {
        let line = posting_text(self.report.alloc(), row);
        self.report.put_made(line)
    }
}

/// A posting's record.
pub(crate) fn posting_text(alloc: Global, row: &(u64, Posting)) -> Result<Vec<u8>, AllocError>
    ensures { IfOk result (λ text. text.items ≡ posting_line row.now) }
{
    let posting = &row.1;
    let day = posting.day.date_text();
    let merchant = posting.merchant.to_bytes();
    let mut number = Buffer::new();
    let mut amount = Buffer::new();
    let reference = posting.reference.text();
    let terminal = posting.terminal.to_bytes();
    let trace = posting.trace.to_bytes();
    nine_fields(
        alloc,
        &day,
        &merchant,
        number.format(row.0).as_bytes(),
        leg_name(posting.leg),
        amount.format(posting.amount.number()).as_bytes(),
        &reference,
        posting.card.as_bytes(),
        &terminal,
        &trace,
    )
}

/// A record of nine fields, which are lent for one time.
fn nine_fields<'a>(
    alloc: Global,
    day: &'a [u8],
    merchant: &'a [u8],
    number: &'a [u8],
    leg: &'a [u8],
    amount: &'a [u8],
    reference: &'a [u8],
    card: &'a [u8],
    terminal: &'a [u8],
    trace: &'a [u8],
) -> Result<Vec<u8>, AllocError>
    ensures { IfOk result (λ text. text.items ≡ csv_line (day.now ∷ merchant.now ∷ number.now
        ∷ leg.now ∷ amount.now ∷ reference.now ∷ card.now ∷ terminal.now ∷ trace.now ∷ [])) }
{
    let fields: [&[u8]; 9] = [
        day, merchant, number, leg, amount, reference, card, terminal, trace,
    ];
    record_text(alloc, &fields)
}

fn leg_name(leg: Leg) -> &'static [u8]
    ensures { result.now ≡ leg_name leg }
{
    match leg {
        Leg::Credit => b"credit",
        Leg::CreditReversal => b"credit-reversal",
        Leg::Debit => b"debit",
        Leg::DebitReversal => b"debit-reversal",
    }
}
