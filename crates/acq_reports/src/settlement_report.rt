//! Settlement reports.

ghost use Rattle.std.specs.Prelude.{◌≡◌, ◌+◌, ◌++◌, ℕ, List, is_ok, codes};
ghost use Rattle.std.specs.Prelude.{IfOk, None, OnOk, OnErr};
ghost use Rattle.std.specs.Fmt.{decimal};
ghost use Rattle.std.specs.List.{flat_map};
ghost use Rattle.acq_book.specs.Calls.{Looks};
ghost use Rattle.acq_book.specs.Promise.{CountsFault};
ghost use Rattle.acq_reports.specs.Faults.{CountsStore, TellsStore, failed_writes, is_settled};
ghost use Rattle.acq_reports.specs.Marks.{dotted};
ghost use Rattle.acq_reports.specs.Refusals.{day_refusal};
ghost use Rattle.acq_reports.specs.SettlementReport.{settlement_text, report_on, merchant_line};
ghost use Rattle.acq_reports.specs.SettlementReport.{line_of, leg_words, totals_words, state_word};
ghost use Rattle.acq_reports.specs.SettlementReport.{first_line, last_line};
ghost use Rattle.acq_reports.specs.Writing.{Puts, PutsLines, PutsReport, Reports, Writes};
ghost use Rattle.day_totals.specs.Totals.{total_for};

use crate::masks::put_repeated;
use crate::names::merchant_names;
use crate::refusals::check_day;
use crate::report::Report;
use crate::report_fault::ReportFault;
use crate::sums::check_sums;
use acq_book::{Book, BookFault};
use acq_core::{MerchantId, Reconciliation};
use acq_link::Sink;
use day_totals::{Day, Leg, Totals};
use itoa::Buffer;
use std::alloc::{AllocError, Global};

/// Room for a merchant's line.
const LINE: usize = 144;

/// Writes the settlement report of a day that is over (own profile; `specs/SettlementReport.antt`):
/// a first line with the day, a line with the totals of each enrolled merchant, in order of their
/// bytes, and a last line with the number of merchants. Amounts are in minor units.
///
/// The merchants' names are held in memory meanwhile, fifteen bytes for each, since a book is lent
/// to its walk, and of those that have postings the sums; no posting is.
///
/// It fails with `DayNotOver` or `StillPending` before anything is written, and so with `Store`
/// where a merchant's postings don't add up to its totals: then the store isn't honest. `Write`
/// tells how many bytes of the text went out; with `Memory` and `Store` a beginning of it may have.
#[tactic(auto, using(crate::proofs::Chains::looks_more, crate::proofs::Chains::failed_later))]
pub fn settlement<B: Book, K: Sink>(
    alloc: Global,
    book: &mut B,
    day: Day,
    writer: &mut K,
) -> Result<(), ReportFault>
    ensures text { B.is_honest book.new → B.is_open book.old → Reports
        (day_refusal (B.tables book.old) day) (settlement_text (B.tables book.old) day)
        (K.sent writer.old) (K.sent writer.new) result }
    ensures writes { K.failures writer.new ≡ K.failures writer.old + failed_writes result }
    ensures looks { Looks B.Book book.old book.new (is_settled result) }
    ensures store { TellsStore B.Book book.old book.new result }
{
    check_day(book, day)?;
    let names = merchant_names(alloc, book)?;
    check_sums(alloc, book, day, names.as_slice())?;
    write_report(alloc, book, day, names.as_slice(), writer)
}

/// Writes the settlement report of a day that is over and whose postings were compared with its
/// totals, as a [`DayComparison`] does it slice by slice: the text of [`settlement`], of the totals
/// alone.
///
/// `Write` tells how many bytes of it went out; with `Memory` and `Store` a beginning of it may
/// have. No other fault comes.
///
/// [`DayComparison`]: crate::DayComparison
#[tactic(auto, using(crate::proofs::Chains::looks_more))]
pub fn settlement_once_compared<B: Book, K: Sink>(
    alloc: Global,
    book: &mut B,
    day: Day,
    writer: &mut K,
) -> Result<(), ReportFault>
    ensures text { B.is_honest book.new → B.is_open book.old → Reports None
        (settlement_text (B.tables book.old) day) (K.sent writer.old) (K.sent writer.new) result }
    ensures writes { K.failures writer.new ≡ K.failures writer.old + failed_writes result }
    ensures looks { Looks B.Book book.old book.new (is_settled result) }
    ensures store { CountsStore result (B.failures book.old) (B.failures book.new) }
{
    let names = merchant_names(alloc, book)?;
    write_report(alloc, book, day, names.as_slice(), writer)
}

/// Writes the report on these merchants.
fn write_report<B: Book, K: Sink>(
    alloc: Global,
    book: &mut B,
    day: Day,
    names: &[MerchantId],
    writer: &mut K,
) -> Result<(), ReportFault>
    ensures text { B.is_honest book.new → B.is_open book.old → Writes K.sent K.failures
        (report_on (B.tables book.old) day names.now) writer.old writer.new result }
    ensures writes { K.failures writer.new ≡ K.failures writer.old + failed_writes result }
    ensures looks { Looks B.Book book.old book.new (is_settled result) }
    ensures store { CountsStore result (B.failures book.old) (B.failures book.new) }
{
    let mut report = Report::new(alloc, writer);
    let written = write_lines(book, day, names, &mut report);
    report.end(written)
}

/// Puts the lines of the report, until a write fails.
#[tactic(auto, using(crate::proofs::Chains::looks_more))]
fn write_lines<B: Book, K: Sink>(
    book: &mut B,
    day: Day,
    names: &[MerchantId],
    report: &mut Report<'_, K>,
) -> Result<(), BookFault>
    ensures text { B.is_honest book.new → B.is_open book.old → PutsReport K.sent K.failures
        (report_on (B.tables book.old) day names.now) report.old report.new result }
    ensures any { (text : List ℕ)
        × PutsReport K.sent K.failures text report.old report.new result }
    ensures looks { Looks B.Book book.old book.new (is_ok result) }
    ensures store { CountsFault result (B.failures book.old) (B.failures book.new) }
{
    let alloc = report.alloc();
    if !report.put_made(first_text(alloc, day)) {
        return Ok(());
    }
    match write_merchants(book, day, names, report) {
        Ok(true) => {
            report.put_made(last_text(alloc, names.len()));
            Ok(())
        }
        Ok(false) => Ok(()),
        Err(fault) => Err(fault),
    }
}

/// Puts the lines of these merchants, and returns whether more may follow.
#[tactic(auto, using(crate::proofs::Chains::looks_more))]
fn write_merchants<B: Book, K: Sink>(
    book: &mut B,
    day: Day,
    names: &[MerchantId],
    report: &mut Report<'_, K>,
) -> Result<bool, BookFault>
    ensures text { B.is_honest book.new → B.is_open book.old → PutsLines K.sent K.failures
        (flat_map (merchant_line (B.tables book.old) day) names.now)
        report.old report.new result }
    ensures any { (text : List ℕ)
        × PutsLines K.sent K.failures text report.old report.new result }
    ensures looks { Looks B.Book book.old book.new (is_ok result) }
    ensures store { CountsFault result (B.failures book.old) (B.failures book.new) }
{
    for name in names.iter() {
        match write_merchant(book, day, *name, report) {
            Ok(true) => {}
            Ok(false) => return Ok(false),
            Err(fault) => return Err(fault),
        }
    }
    Ok(true)
}

/// Puts a merchant's line, and returns whether more may follow.
#[tactic(auto, using(crate::proofs::Chains::looks_more))]
fn write_merchant<B: Book, K: Sink>(
    book: &mut B,
    day: Day,
    name: MerchantId,
    report: &mut Report<'_, K>,
) -> Result<bool, BookFault>
    ensures put { B.is_open book.new → IfOk result (λ more. Puts K.sent K.failures
        (merchant_line (B.tables book.old) day name) report.old more report.new) }
    ensures any { (text : List ℕ)
        × PutsLines K.sent K.failures text report.old report.new result }
    ensures unput { OnErr result (report.new ≡ report.old) }
    ensures looks { Looks B.Book book.old book.new (is_ok result) }
    ensures store { CountsFault result (B.failures book.old) (B.failures book.new) }
{
    let totals = book.totals(name, day)?;
    let last = book.last_reconciliation(name, day)?;
    let line = line_text(report.alloc(), name, &totals, last);
    Ok(report.put_made(line))
}

/// The line of a merchant.
fn line_text(
    alloc: Global,
    name: MerchantId,
    totals: &Totals,
    last: Option<Reconciliation>,
) -> Result<Vec<u8>, AllocError>
    ensures { IfOk result (λ text. text.items ≡ line_of name totals.now last) }
{
    let mut line = Vec::with_capacity(alloc, LINE)?;
    line.extend_from_slice(&name.to_bytes())?;
    put_leg(&mut line, totals, Leg::Credit)?;
    put_leg(&mut line, totals, Leg::CreditReversal)?;
    put_leg(&mut line, totals, Leg::Debit)?;
    put_leg(&mut line, totals, Leg::DebitReversal)?;
    line.extend_from_slice(b" ")?;
    line.extend_from_slice(&totals.net_text())?;
    line.extend_from_slice(b" ")?;
    line.extend_from_slice(state_word(last))?;
    line.extend_from_slice(b"\n")?;
    Ok(line)
}

/// Puts the count and the amount of a leg.
fn put_leg(line: &mut Vec<u8>, totals: &Totals, leg: Leg) -> Result<(), AllocError>
    ensures { OnOk result (line.new.items
        ≡ line.old.items ++ leg_words (total_for totals.now leg)) }
{
    put_dotted(line, 6, totals.count(leg))?;
    put_dotted(line, 16, totals.amount(leg))
}

/// Puts a space, and a number to the right of so many places, which dots fill.
fn put_dotted(line: &mut Vec<u8>, places: usize, number: u64) -> Result<(), AllocError>
    ensures { OnOk result (line.new.items
        ≡ line.old.items ++ (codes " " ++ dotted places (decimal number))) }
{
    let mut buffer = Buffer::new();
    let digits = buffer.format(number).as_bytes();
    line.push(b' ')?;
    put_repeated(line, b'.', places.saturating_sub(digits.len()))?;
    line.extend_from_slice(digits)
}

/// What a merchant's last reconciliation of a day found, as a report says it.
pub fn state_word(last: Option<Reconciliation>) -> &'static [u8]
    ensures { result.now ≡ state_word last }
{
    match last {
        None => b"none",
        Some(row) if row.in_balance => b"balanced",
        Some(_) => b"differs",
    }
}

/// The line with the day.
fn first_text(alloc: Global, day: Day) -> Result<Vec<u8>, AllocError>
    ensures { IfOk result (λ text. text.items ≡ first_line day) }
{
    let mut line = Vec::from_slice(alloc, b"SETTLEMENT ")?;
    line.extend_from_slice(&day.date_text())?;
    line.extend_from_slice(b"\n")?;
    Ok(line)
}

/// The line with the number of merchants.
fn last_text(alloc: Global, merchants: usize) -> Result<Vec<u8>, AllocError>
    ensures { IfOk result (λ text. text.items ≡ last_line merchants) }
{
    let mut line = Vec::from_slice(alloc, b"MERCHANTS ")?;
    let mut buffer = Buffer::new();
    line.extend_from_slice(buffer.format(merchants as u64).as_bytes())?;
    line.extend_from_slice(b"\n")?;
    Ok(line)
}
