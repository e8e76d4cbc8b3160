//! The sums of a day.

ghost use Rattle.std.specs.Prelude.{◌≡◌, ◌+◌, ◌++◌, ◌∷◌, [], IfOk, flat_map};
ghost use Rattle.acq_book.specs.Calls.{Looks};
ghost use Rattle.acq_reports.specs.Faults.{CountsStore, failed_writes, is_settled};
ghost use Rattle.acq_reports.specs.Marks.{csv_line};
ghost use Rattle.acq_reports.specs.Writing.{Writes};
ghost use Rattle.acq_statement.specs.DaySums.{day_sums, day_sums_on, sums_header, sums_record};
ghost use Rattle.acq_statement.specs.Fields.{totals_fields};
ghost use Rattle.acq_statement.specs.Parts.{PutsPart};

use crate::currencies::currencies_of;
use crate::currency_records::currency_sums;
use crate::enrolled::enrolled_merchants;
use crate::figures::FigureBuffers;
use crate::part::{Part, put_each, walk_of};
use crate::sums::Sums;
use acq_book::{Book, BookFault};
use acq_core::Merchant;
use acq_link::Sink;
use acq_message::Currency;
use acq_reports::{Report, ReportFault, record_text};
use day_totals::Day;
use std::alloc::{AllocError, Global};

/// The names of a record's fields.
const HEADER: &[u8] = b"currency,credits,credit_amount,credit_reversals,\
    credit_reversal_amount,debits,debit_amount,debit_reversals,debit_reversal_amount,\
    owed_to_merchants\n";

/// Writes the sums of a day as CSV (own profile; `specs/DaySums.antt`): a header, and for each
/// currency that an enrolled merchant has a record with the sums of its merchants' totals. Any day
/// may be asked for, also one that isn't over. Amounts are in minor units. What is owed to
/// merchants is negative where they owe the acquirer.
///
/// The merchants are held in memory meanwhile. Their totals are looked up; no posting is read.
///
/// `Write` tells how many bytes of the text went out; with `Memory` and `Store` a beginning of it
/// may have. No other fault comes.
#[tactic(auto, using(crate::proofs::Chains::looks_more, crate::proofs::Chains::failed_later))]
pub fn write_day_sums<B: Book, K: Sink>(
    alloc: Global,
    book: &mut B,
    day: Day,
    writer: &mut K,
) -> Result<(), ReportFault>
    ensures text { B.is_honest book.new → B.is_open book.old → Writes K.sent K.failures
        (day_sums (B.tables book.old) day) writer.old writer.new result }
    ensures writes { K.failures writer.new ≡ K.failures writer.old + failed_writes result }
    ensures looks { Looks B.Book book.old book.new (is_settled result) }
    ensures store { CountsStore result (B.failures book.old) (B.failures book.new) }
{
    let merchants = enrolled_merchants(alloc, book)?;
    write_sums(alloc, book, day, merchants.as_slice(), writer)
}

/// Writes the sums of these merchants.
fn write_sums<B: Book, K: Sink>(
    alloc: Global,
    book: &mut B,
    day: Day,
    merchants: &[Merchant],
    writer: &mut K,
) -> Result<(), ReportFault>
    ensures text { B.is_honest book.new → B.is_open book.old → Writes K.sent K.failures
        (day_sums_on (B.tables book.old) day merchants.now) writer.old writer.new result }
    ensures writes { K.failures writer.new ≡ K.failures writer.old + failed_writes result }
    ensures looks { Looks B.Book book.old book.new (is_settled result) }
    ensures store { CountsStore result (B.failures book.old) (B.failures book.new) }
{
    let currencies = match currencies_of(alloc, merchants) {
        Ok(currencies) => currencies,
        Err(AllocError) => return Err(ReportFault::Memory),
    };
    let mut report = Report::new(alloc, writer);
    let written = put_sums(book, day, merchants, currencies.as_slice(), &mut report);
    report.end(walk_of(written))
}

/// Puts the header, and the records of these currencies.
fn put_sums<B: Book, K: Sink>(
    book: &mut B,
    day: Day,
    merchants: &[Merchant],
    currencies: &[Currency],
    report: &mut Report<'_, K>,
) -> Result<bool, BookFault>
    ensures { PutsPart B.Book K.sent K.failures
        (λ t. sums_header ++ flat_map (sums_record t (day ∷ []) merchants.now) currencies.now)
        book.old book.new report.old report.new result }
{
    if !report.put(HEADER) {
        return Ok(false);
    }
    let days = [day];
    let sums = SumsRecord {
        merchants,
        days: &days,
    };
    put_each(book, currencies, &sums, report)
}

/// The record of a currency's sums.
#[derive(Clone, Copy)]
struct SumsRecord<'a> {
    merchants: &'a [Merchant],
    days: &'a [Day],
}

impl Part<Currency> for SumsRecord<'_> {
    ghost use Rattle.acq_statement.specs.DaySums.{sums_record};

    ghost text = { λ part currency t. sums_record t part.days.now part.merchants.now currency };

    fn put<B: Book, K: Sink>(
        &self,
        book: &mut B,
        item: &Currency,
        report: &mut Report<'_, K>,
    ) -> Result<bool, BookFault> {
        let sums = currency_sums(book, self.days, self.merchants, *item)?;
        let record = sums_text(report.alloc(), *item, &sums);
        Ok(report.put_made(record))
    }
}

fn sums_text(alloc: Global, currency: Currency, sums: &Sums) -> Result<Vec<u8>, AllocError>
    ensures { IfOk result (λ text. text.items
        ≡ csv_line (currency ∷ totals_fields sums.now)) }
{
    let bytes = currency.to_bytes();
    let mut buffers = FigureBuffers::new();
    let figures = buffers.format(sums);
    let fields: [&[u8]; 10] = [
        &bytes,
        figures.credits,
        figures.credit_amount,
        figures.credit_reversals,
        figures.credit_reversal_amount,
        figures.debits,
        figures.debit_amount,
        figures.debit_reversals,
        figures.debit_reversal_amount,
        figures.owed,
    ];
    record_text(alloc, &fields)
}
