//! Records of a statement.

ghost use Rattle.std.specs.Prelude.{◌≡◌, IfOk};
ghost use Rattle.acq_statement.specs.FigureTexts.{figures_texts};
ghost use Rattle.acq_statement.specs.Lines.{day_record};

use crate::figures::Figures;
use acq_core::Merchant;
use acq_reports::record_text;
use day_totals::Day;
use std::alloc::{AllocError, Global};

/// What a record is about: a merchant's day, the kind of line, and the terminal and the trace, if
/// it has them.
#[derive(Clone, Copy)]
pub(crate) struct Place<'a> {
    pub merchant: &'a Merchant,
    pub day: Day,
    pub line: &'a [u8],
    pub terminal: &'a [u8],
    pub trace: &'a [u8],
}

/// A record of these figures.
pub(crate) fn day_record(
    alloc: Global,
    place: &Place<'_>,
    figures: &Figures<'_>,
) -> Result<Vec<u8>, AllocError>
    ensures { IfOk result (λ text. text.items
        ≡ day_record place.now.merchant.now place.now.day place.now.line.now
        place.now.terminal.now place.now.trace.now (figures_texts figures.now)) }
{
    let id = place.merchant.id.to_bytes();
    let currency = place.merchant.currency.to_bytes();
    let date = place.day.date_text();
    let fields: [&[u8]; 15] = [
        &id,
        &currency,
        &date,
        place.line,
        place.terminal,
        place.trace,
        figures.credits,
        figures.credit_amount,
        figures.credit_reversals,
        figures.credit_reversal_amount,
        figures.debits,
        figures.debit_amount,
        figures.debit_reversals,
        figures.debit_reversal_amount,
        figures.owed,
    ];
    record_text(alloc, &fields)
}
