//! Statements of merchants.

ghost use Rattle.std.specs.Prelude.{◌≡◌, ◌+◌, ◌++◌, flat_map};
ghost use Rattle.acq_book.specs.Calls.{Looks};
ghost use Rattle.acq_reports.specs.Faults.{CountsStore, failed_writes, is_settled};
ghost use Rattle.acq_reports.specs.Writing.{Reports, Writes};
ghost use Rattle.acq_statement.specs.Currencies.{currency_sums};
ghost use Rattle.acq_statement.specs.Lines.{currency_lines, statement_header};
ghost use Rattle.acq_statement.specs.Parts.{PutsPart};
ghost use Rattle.acq_statement.specs.Span.{statement_refusal};
ghost use Rattle.acq_statement.specs.Statement.{statement_text, statement_with};

use crate::asked::{Asked, asked_merchants, check_asked};
use crate::claims::asked_claims;
use crate::currencies::currencies_of;
use crate::currency_lines::CurrencyLines;
use crate::days::Days;
use crate::lines::statement_header;
use crate::part::{Part, put_each, walk_of};
use crate::statement_blocks::MerchantBlocks;
use crate::statement_form::StatementForm;
use crate::terminals::all_terminals;
use acq_book::{Book, BookFault};
use acq_core::{Merchant, MerchantId};
use acq_link::Sink;
use acq_message::Currency;
use acq_reports::{Report, ReportFault};
use std::alloc::{AllocError, Global};

/// Writes a statement of these merchants, in this order, or of all, in order of their bytes (own
/// profile; `specs/Statement.antt`): for each merchant and each day a line for each of its
/// terminals, its totals, which are those of the settlement report, and two for each reconciliation
/// of that day, what was claimed and what the host had then; and at the end the sums of each
/// currency. Any day may be asked for, also one that isn't over.
///
/// Merchants, terminals and the claims that are asked for are held in memory meanwhile; no posting
/// is. All requests are walked once, and each merchant's postings of each day; for each merchant
/// the terminals and claims of all are gone over.
///
/// It fails with `NoSuchMerchant` before anything is written. `Write` tells how many bytes of the
/// text went out; with `Memory` and `Store` a beginning of it may have.
#[tactic(auto, using(acq_reports::proofs::Chains::looks_more))]
pub fn write_statement<B: Book, K: Sink>(
    alloc: Global,
    book: &mut B,
    merchants: &[MerchantId],
    days: Days,
    form: StatementForm,
    writer: &mut K,
) -> Result<(), ReportFault>
    ensures text { B.is_honest book.new → B.is_open book.old → Reports
        (statement_refusal (B.tables book.old) merchants.now)
        (statement_text (B.tables book.old) merchants.now days form)
        (K.sent writer.old) (K.sent writer.new) result }
    ensures writes { K.failures writer.new ≡ K.failures writer.old + failed_writes result }
    ensures looks { Looks B.Book book.old book.new (is_settled result) }
    ensures store { CountsStore result (B.failures book.old) (B.failures book.new) }
{
    check_asked(book, merchants)?;
    let rows = asked_merchants(alloc, book, merchants)?;
    let asked = Asked { merchants, days };
    let claims = asked_claims(alloc, book, &asked)?;
    let terminals = all_terminals(alloc, book)?;
    let days = match days.list(alloc) {
        Ok(days) => days,
        Err(AllocError) => return Err(ReportFault::Memory),
    };
    let blocks = MerchantBlocks {
        form,
        terminals: terminals.as_slice(),
        claims: claims.as_slice(),
        days: days.as_slice(),
    };
    let sums = CurrencyLines {
        form,
        merchants: rows.as_slice(),
        days: days.as_slice(),
    };
    write_blocks(alloc, book, &blocks, &sums, writer)
}

/// Writes the statement of the merchants of these sums: what is written of each, and the sums.
pub(crate) fn write_blocks<B: Book, K: Sink, P: Part<Merchant>>(
    alloc: Global,
    book: &mut B,
    blocks: &P,
    sums: &CurrencyLines<'_>,
    writer: &mut K,
) -> Result<(), ReportFault>
    ensures text { B.is_honest book.new → B.is_open book.old → Writes K.sent K.failures
        (statement_with sums.now.form
        (λ merchant. P.text blocks.now merchant (B.tables book.old))
        (B.tables book.old) sums.now.days.now sums.now.merchants.now)
        writer.old writer.new result }
    ensures writes { K.failures writer.new ≡ K.failures writer.old + failed_writes result }
    ensures looks { Looks B.Book book.old book.new (is_settled result) }
    ensures store { CountsStore result (B.failures book.old) (B.failures book.new) }
{
    let currencies = match currencies_of(alloc, sums.merchants) {
        Ok(currencies) => currencies,
        Err(AllocError) => return Err(ReportFault::Memory),
    };
    let mut report = Report::new(alloc, writer);
    let written = put_statement(book, blocks, sums, currencies.as_slice(), &mut report);
    report.end(walk_of(written))
}

/// Puts the header, what is written of each merchant, and the sums of these currencies.
fn put_statement<B: Book, K: Sink, P: Part<Merchant>>(
    book: &mut B,
    blocks: &P,
    sums: &CurrencyLines<'_>,
    currencies: &[Currency],
    report: &mut Report<'_, K>,
) -> Result<bool, BookFault>
    ensures { PutsPart B.Book K.sent K.failures (λ t. statement_header sums.now.form
        ++ flat_map (λ merchant. P.text blocks.now merchant t) sums.now.merchants.now
        ++ flat_map (λ currency. currency_lines sums.now.form currency
        (currency_sums t sums.now.days.now sums.now.merchants.now currency)) currencies.now)
        book.old book.new report.old report.new result }
{
    if !report.put(statement_header(sums.form)) {
        return Ok(false);
    }
    match put_each(book, sums.merchants, blocks, report) {
        Ok(true) => put_each(book, currencies, sums, report),
        Ok(false) => Ok(false),
        Err(fault) => Err(fault),
    }
}
