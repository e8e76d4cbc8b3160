//! Records of merchants in the settlement report.

ghost use Rattle.std.specs.Prelude.{◌≡◌, ◌∷◌, [], ◌++◌, IfOk};
ghost use Rattle.acq_reports.specs.Marks.{csv_line};
ghost use Rattle.acq_reports.specs.SettlementReport.{state_word};
ghost use Rattle.acq_statement.specs.Fields.{totals_fields};
ghost use Rattle.acq_statement.specs.Parts.{PutsPart};

use crate::figures::FigureBuffers;
use crate::part::Part;
use crate::sums::Sums;
use acq_book::{Book, BookFault};
use acq_core::{Merchant, Reconciliation};
use acq_link::Sink;
use acq_reports::{Report, record_text, state_word};
use day_totals::{Day, Totals};
use std::alloc::{AllocError, Global};

/// The record of a merchant's day.
#[derive(Clone, Copy)]
pub(crate) struct MerchantRecord {
    pub day: Day,
}

impl Part<Merchant> for MerchantRecord {
    ghost use Rattle.acq_statement.specs.ReportCsv.{merchant_record};

    ghost text = { λ part merchant t. merchant_record t part.day merchant };

    fn put<B: Book, K: Sink>(
        &self,
        book: &mut B,
        item: &Merchant,
        report: &mut Report<'_, K>,
    ) -> Result<bool, BookFault> {
        let totals = book.totals(item.id, self.day)?;
        let last = book.last_reconciliation(item.id, self.day)?;
        let record = merchant_text(report.alloc(), item, &totals, last);
        Ok(report.put_made(record))
    }
}

fn merchant_text(
    alloc: Global,
    merchant: &Merchant,
    totals: &Totals,
    last: Option<Reconciliation>,
) -> Result<Vec<u8>, AllocError>
    ensures { IfOk result (λ text. text.items ≡ csv_line (merchant.now.id ∷ merchant.now.currency
        ∷ totals_fields totals.now ++ state_word last ∷ [])) }
{
    let id = merchant.id.to_bytes();
    let currency = merchant.currency.to_bytes();
    let sums = Sums::of(totals);
    let mut buffers = FigureBuffers::new();
    let figures = buffers.format(&sums);
    let fields: [&[u8]; 12] = [
        &id,
        &currency,
        figures.credits,
        figures.credit_amount,
        figures.credit_reversals,
        figures.credit_reversal_amount,
        figures.debits,
        figures.debit_amount,
        figures.debit_reversals,
        figures.debit_reversal_amount,
        figures.owed,
        state_word(last),
    ];
    record_text(alloc, &fields)
}
