//! Lines of currencies at the end of a statement.

ghost use Rattle.std.specs.Prelude.{◌≡◌, IfOk};
ghost use Rattle.acq_statement.specs.Lines.{currency_lines};
ghost use Rattle.acq_statement.specs.Parts.{PutsPart};
ghost use Rattle.acq_statement.specs.declared.statement_form.StatementForm.TheVariants.{Csv};

use crate::currency_records::currency_sums;
use crate::figures::FigureBuffers;
use crate::leg_texts::{joined, legs_text, owed_text};
use crate::part::Part;
use crate::statement_form::StatementForm;
use crate::sums::Sums;
use acq_book::{Book, BookFault};
use acq_core::Merchant;
use acq_link::Sink;
use acq_message::Currency;
use acq_reports::{Report, record_text};
use day_totals::Day;
use std::alloc::{AllocError, Global};

/// The lines of a currency's sums.
#[derive(Clone, Copy)]
pub(crate) struct CurrencyLines<'a> {
    pub form: StatementForm,
    pub merchants: &'a [Merchant],
    pub days: &'a [Day],
}

impl Part<Currency> for CurrencyLines<'_> {
    ghost use Rattle.acq_statement.specs.Currencies.{currency_sums};
    ghost use Rattle.acq_statement.specs.Lines.{currency_lines};

    ghost text = { λ part currency t. currency_lines part.form currency
        (currency_sums t part.days.now part.merchants.now currency) };

    fn put<B: Book, K: Sink>(
        &self,
        book: &mut B,
        item: &Currency,
        report: &mut Report<'_, K>,
    ) -> Result<bool, BookFault> {
        let sums = currency_sums(book, self.days, self.merchants, *item)?;
        let lines = lines_text(report.alloc(), self.form, *item, &sums);
        Ok(report.put_made(lines))
    }
}

fn lines_text(
    alloc: Global,
    form: StatementForm,
    currency: Currency,
    sums: &Sums,
) -> Result<Vec<u8>, AllocError>
    ensures { IfOk result (λ text. text.items ≡ currency_lines form currency sums.now) }
{
    match form {
        StatementForm::Csv => record_of_sums(alloc, currency, sums),
        StatementForm::Text => {
            let bytes = currency.to_bytes();
            let legs = legs_text(alloc, sums)?;
            let owed = owed_text(alloc, b"merchants", b" owe the acquirer ", sums)?;
            let texts: [&[u8]; 6] = [
                b"currency ",
                &bytes,
                b": ",
                legs.as_slice(),
                b"\n",
                owed.as_slice(),
            ];
            joined(alloc, &texts)
        }
    }
}

fn record_of_sums(alloc: Global, currency: Currency, sums: &Sums) -> Result<Vec<u8>, AllocError>
    ensures { IfOk result (λ text. text.items ≡ currency_lines Csv currency sums.now) }
{
    let bytes = currency.to_bytes();
    let mut buffers = FigureBuffers::new();
    let figures = buffers.format(sums);
    let fields: [&[u8]; 15] = [
        b"",
        &bytes,
        b"",
        b"currency",
        b"",
        b"",
        figures.credits,
        figures.credit_amount,
        figures.credit_reversals,
        figures.credit_reversal_amount,
        figures.debits,
        figures.debit_amount,
        figures.debit_reversals,
        figures.debit_reversal_amount,
        figures.owed,
    ];
    record_text(alloc, &fields)
}
