//! Records of currencies, and their sums.

ghost use Rattle.std.specs.Prelude.{◌≡◌, ◌∷◌, [], ◌++◌, IfOk, List, is_ok};
ghost use Rattle.std.specs.Str.{bytes_eq};
ghost use Rattle.day_totals.specs.Totals.{DayTotals};
ghost use Rattle.acq_book.specs.Calls.{Looks};
ghost use Rattle.acq_book.specs.Promise.{CountsFault};
ghost use Rattle.acq_reports.specs.Marks.{csv_line};
ghost use Rattle.acq_statement.specs.Currencies.{currency_sums, totals_of_days};
ghost use Rattle.acq_statement.specs.Fields.{totals_fields};
ghost use Rattle.acq_statement.specs.Parts.{PutsPart};
ghost use Rattle.acq_statement.specs.Sums.{sums_of};

use crate::figures::FigureBuffers;
use crate::part::Part;
use crate::sums::Sums;
use acq_book::{Book, BookFault};
use acq_core::Merchant;
use acq_link::Sink;
use acq_message::Currency;
use acq_reports::{Report, record_text};
use day_totals::Day;
use std::alloc::{AllocError, Global};

/// The record of a currency's sums.
#[derive(Clone, Copy)]
pub(crate) struct CurrencyRecord<'a> {
    pub merchants: &'a [Merchant],
    pub days: &'a [Day],
}

impl Part<Currency> for CurrencyRecord<'_> {
    ghost use Rattle.acq_statement.specs.ReportCsv.{currency_record};

    ghost text = { λ part currency t. currency_record t part.days.now part.merchants.now currency };

    fn put<B: Book, K: Sink>(
        &self,
        book: &mut B,
        item: &Currency,
        report: &mut Report<'_, K>,
    ) -> Result<bool, BookFault> {
        let sums = currency_sums(book, self.days, self.merchants, *item)?;
        let record = currency_text(report.alloc(), *item, &sums);
        Ok(report.put_made(record))
    }
}

/// The sums of the days of a currency's merchants.
#[tactic(auto, using(acq_reports::proofs::Chains::looks_more))]
pub(crate) fn currency_sums<B: Book>(
    book: &mut B,
    days: &[Day],
    merchants: &[Merchant],
    currency: Currency,
) -> Result<Sums, BookFault>
    ensures sums { B.is_honest book.new → B.is_open book.old → IfOk result (λ sums.
        sums ≡ currency_sums (B.tables book.old) days.now merchants.now currency) }
    ensures looks { Looks B.Book book.old book.new (is_ok result) }
    ensures store { CountsFault result (B.failures book.old) (B.failures book.new) }
{
    let mut sums = Sums::none();
    for merchant in merchants.iter() {
        if merchant.currency.to_bytes() == currency.to_bytes() {
            sums = with_days(book, days, merchant, sums)?;
        }
    }
    Ok(sums)
}

/// Sums, and a merchant's days besides.
#[tactic(auto, using(acq_reports::proofs::Chains::looks_more))]
fn with_days<B: Book>(
    book: &mut B,
    days: &[Day],
    merchant: &Merchant,
    before: Sums,
) -> Result<Sums, BookFault>
    ensures sums { B.is_honest book.new → B.is_open book.old → IfOk result (λ sums.
        (all : List DayTotals) → before ≡ sums_of all
        → sums ≡ sums_of (all ++ totals_of_days (B.tables book.old) days.now merchant.now)) }
    ensures looks { Looks B.Book book.old book.new (is_ok result) }
    ensures store { CountsFault result (B.failures book.old) (B.failures book.new) }
{
    let mut sums = before;
    for day in days.iter() {
        let totals = book.totals(merchant.id, *day)?;
        sums.add(&totals);
    }
    Ok(sums)
}

fn currency_text(alloc: Global, currency: Currency, sums: &Sums) -> Result<Vec<u8>, AllocError>
    ensures { IfOk result (λ text. text.items
        ≡ csv_line ([] ∷ currency ∷ totals_fields sums.now ++ [] ∷ [])) }
{
    let bytes = currency.to_bytes();
    let mut buffers = FigureBuffers::new();
    let figures = buffers.format(sums);
    let fields: [&[u8]; 12] = [
        b"",
        &bytes,
        figures.credits,
        figures.credit_amount,
        figures.credit_reversals,
        figures.credit_reversal_amount,
        figures.debits,
        figures.debit_amount,
        figures.debit_reversals,
        figures.debit_reversal_amount,
        figures.owed,
        b"",
    ];
    record_text(alloc, &fields)
}
