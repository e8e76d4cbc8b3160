//! Settlement reports as CSV.

ghost use Rattle.std.specs.Prelude.{◌≡◌, ◌+◌, ◌++◌, ◌∷◌, [], IfOk, None, flat_map, is_ok};
ghost use Rattle.acq_book.specs.Calls.{Looks};
ghost use Rattle.acq_reports.specs.Faults.{CountsStore, TellsStore, failed_writes, is_settled};
ghost use Rattle.acq_reports.specs.Refusals.{day_refusal};
ghost use Rattle.acq_reports.specs.SettlementReport.{names_of};
ghost use Rattle.acq_reports.specs.Writing.{Reports, Writes};
ghost use Rattle.acq_statement.specs.Currencies.{currencies_of};
ghost use Rattle.acq_statement.specs.Parts.{PutsPart};
ghost use Rattle.acq_statement.specs.ReportCsv.{currency_record, merchant_record, report_csv};
ghost use Rattle.acq_statement.specs.ReportCsv.{report_csv_on, report_header};

use crate::currencies::currencies_of;
use crate::currency_records::CurrencyRecord;
use crate::enrolled::enrolled_merchants;
use crate::merchant_records::MerchantRecord;
use crate::part::{put_each, walk_of};
use acq_book::{Book, BookFault};
use acq_core::{Merchant, MerchantId};
use acq_link::Sink;
use acq_message::Currency;
use acq_reports::{Report, ReportFault, check_day, check_sums};
use day_totals::Day;
use std::alloc::{AllocError, Global};

/// The names of a record's fields.
const HEADER: &[u8] = b"merchant,currency,credits,credit_amount,credit_reversals,\
    credit_reversal_amount,debits,debit_amount,debit_reversals,debit_reversal_amount,\
    owed_to_merchant,reconciliation\n";

/// Writes the settlement report of a day that is over as CSV (own profile; `specs/ReportCsv.antt`):
/// a header, a record with the totals of each enrolled merchant, in order of their bytes, and one
/// with the sums of each currency that a merchant has. Amounts are in minor units. What is owed to
/// a merchant is negative where it owes the acquirer.
///
/// The merchants are held in memory meanwhile, and of those that have postings the sums; no posting
/// is. The totals are looked up twice.
///
/// It fails with `DayNotOver` or `StillPending` before anything is written, and so with `Store`
/// where a merchant's postings don't add up to its totals: then the store isn't honest. `Write`
/// tells how many bytes of the text went out; with `Memory` and `Store` a beginning of it may have.
#[tactic(auto, using(crate::proofs::Chains::looks_more, crate::proofs::Chains::failed_later))]
pub fn write_report_csv<B: Book, K: Sink>(
    alloc: Global,
    book: &mut B,
    day: Day,
    writer: &mut K,
) -> Result<(), ReportFault>
    ensures text { B.is_honest book.new → B.is_open book.old → Reports
        (day_refusal (B.tables book.old) day) (report_csv (B.tables book.old) day)
        (K.sent writer.old) (K.sent writer.new) result }
    ensures writes { K.failures writer.new ≡ K.failures writer.old + failed_writes result }
    ensures looks { Looks B.Book book.old book.new (is_settled result) }
    ensures store { TellsStore B.Book book.old book.new result }
{
    check_day(book, day)?;
    let merchants = enrolled_merchants(alloc, book)?;
    let names = match names_of(alloc, merchants.as_slice()) {
        Ok(names) => names,
        Err(AllocError) => return Err(ReportFault::Memory),
    };
    check_sums(alloc, book, day, names.as_slice())?;
    write_records(alloc, book, day, merchants.as_slice(), writer)
}

/// Writes the settlement report of a day that is over and whose postings were compared with its
/// totals, as a `DayComparison` does it slice by slice, as CSV: the text of [`write_report_csv`],
/// of the totals alone.
///
/// `Write` tells how many bytes of it went out; with `Memory` and `Store` a beginning of it may
/// have. No other fault comes.
#[tactic(auto, using(crate::proofs::Chains::looks_more))]
pub fn report_csv_once_compared<B: Book, K: Sink>(
    alloc: Global,
    book: &mut B,
    day: Day,
    writer: &mut K,
) -> Result<(), ReportFault>
    ensures text { B.is_honest book.new → B.is_open book.old → Reports None
        (report_csv (B.tables book.old) day) (K.sent writer.old) (K.sent writer.new) result }
    ensures writes { K.failures writer.new ≡ K.failures writer.old + failed_writes result }
    ensures looks { Looks B.Book book.old book.new (is_settled result) }
    ensures store { CountsStore result (B.failures book.old) (B.failures book.new) }
{
    let merchants = enrolled_merchants(alloc, book)?;
    write_records(alloc, book, day, merchants.as_slice(), writer)
}

/// The merchants' names.
fn names_of(alloc: Global, merchants: &[Merchant]) -> Result<Vec<MerchantId>, AllocError>
    ensures { IfOk result (λ names. names.items ≡ names_of merchants.now) }
{
    merchants
        .iter()
        .map(|merchant| merchant.id)
        .collect::<Vec<MerchantId>>(alloc)
}

/// Writes the report on these merchants.
fn write_records<B: Book, K: Sink>(
    alloc: Global,
    book: &mut B,
    day: Day,
    merchants: &[Merchant],
    writer: &mut K,
) -> Result<(), ReportFault>
    ensures text { B.is_honest book.new → B.is_open book.old → Writes K.sent K.failures
        (report_csv_on (B.tables book.old) day merchants.now) writer.old writer.new result }
    ensures writes { K.failures writer.new ≡ K.failures writer.old + failed_writes result }
    ensures looks { Looks B.Book book.old book.new (is_settled result) }
    ensures store { CountsStore result (B.failures book.old) (B.failures book.new) }
{
    let currencies = match currencies_of(alloc, merchants) {
        Ok(currencies) => currencies,
        Err(AllocError) => return Err(ReportFault::Memory),
    };
    let mut report = Report::new(alloc, writer);
    let written = put_records(book, day, merchants, currencies.as_slice(), &mut report);
    report.end(walk_of(written))
}

/// Puts the header, and the records of these merchants and currencies.
fn put_records<B: Book, K: Sink>(
    book: &mut B,
    day: Day,
    merchants: &[Merchant],
    currencies: &[Currency],
    report: &mut Report<'_, K>,
) -> Result<bool, BookFault>
    ensures { PutsPart B.Book K.sent K.failures
        (λ t. report_header ++ flat_map (merchant_record t day) merchants.now
        ++ flat_map (currency_record t (day ∷ []) merchants.now) currencies.now)
        book.old book.new report.old report.new result }
{
    if !report.put(HEADER) {
        return Ok(false);
    }
    match put_each(book, merchants, &MerchantRecord { day }, report) {
        Ok(true) => {
            let days = [day];
            let sums = CurrencyRecord {
                merchants,
                days: &days,
            };
            put_each(book, currencies, &sums, report)
        }
        Ok(false) => Ok(false),
        Err(fault) => Err(fault),
    }
}
