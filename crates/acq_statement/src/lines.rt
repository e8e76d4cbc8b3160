//! Lines of a statement, in both forms.

ghost use Rattle.std.specs.Prelude.{◌≡◌, IfOk};
ghost use Rattle.acq_reports.specs.SettlementReport.{balance_word};
ghost use Rattle.acq_statement.specs.Lines.{claimed_line, found_line, owed_line, statement_header};
ghost use Rattle.acq_statement.specs.Lines.{terminal_line, title_line, total_line};

use crate::claim::Claim;
use crate::day_record::{Place, day_record};
use crate::figures::FigureBuffers;
use crate::leg_texts::{joined, legs_text, net_text, owed_text};
use crate::statement_form::StatementForm;
use crate::sums::Sums;
use crate::terminal_sums::TerminalSums;
use acq_core::Merchant;
use day_totals::{Day, Totals};
use std::alloc::{AllocError, Global};

/// The merchant's day that lines are of, and their form.
#[derive(Clone, Copy)]
pub(crate) struct DayLines {
    pub form: StatementForm,
    pub merchant: Merchant,
    pub day: Day,
}

impl DayLines {
    /// The line with the merchant and the day.
    pub fn title(&self, alloc: Global) -> Result<Vec<u8>, AllocError>
        ensures { IfOk result (λ text.
            text.items ≡ title_line self.now.form self.now.merchant self.now.day) }
    {
        let id = self.merchant.id.to_bytes();
        let date = self.day.date_text();
        let currency = self.merchant.currency.to_bytes();
        match self.form {
            StatementForm::Csv => Ok(Vec::new(alloc)),
            StatementForm::Text => {
                let texts: [&[u8]; 6] = [&id, b" ", &date, b", currency ", &currency, b"\n"];
                joined(alloc, &texts)
            }
        }
    }

    /// The line of a terminal.
    pub fn terminal(&self, alloc: Global, at: &TerminalSums) -> Result<Vec<u8>, AllocError>
        ensures { IfOk result (λ text.
            text.items ≡ terminal_line self.now.form self.now.merchant self.now.day at.now) }
    {
        let id = at.id.to_bytes();
        match self.form {
            StatementForm::Csv => {
                let place = self.place(b"terminal", &id, b"");
                let mut buffers = FigureBuffers::new();
                let figures = buffers.format(&at.sums);
                day_record(alloc, &place, &figures)
            }
            StatementForm::Text => {
                let legs = legs_text(alloc, &at.sums)?;
                let texts: [&[u8]; 5] = [b"  terminal ", &id, b": ", legs.as_slice(), b"\n"];
                joined(alloc, &texts)
            }
        }
    }

    /// The line of the merchant's totals.
    pub fn total(&self, alloc: Global, totals: &Totals) -> Result<Vec<u8>, AllocError>
        ensures { IfOk result (λ text.
            text.items ≡ total_line self.now.form self.now.merchant self.now.day totals.now) }
    {
        let sums = Sums::of(totals);
        match self.form {
            StatementForm::Csv => {
                let place = self.place(b"merchant", b"", b"");
                let mut buffers = FigureBuffers::new();
                let figures = buffers.format(&sums);
                day_record(alloc, &place, &figures)
            }
            StatementForm::Text => {
                let legs = legs_text(alloc, &sums)?;
                let net = totals.net_text();
                let texts: [&[u8]; 5] = [b"  merchant: ", legs.as_slice(), b", net ", &net, b"\n"];
                joined(alloc, &texts)
            }
        }
    }

    /// The line of what a terminal claimed.
    pub fn claimed(&self, alloc: Global, claim: &Claim) -> Result<Vec<u8>, AllocError>
        ensures { IfOk result (λ text.
            text.items ≡ claimed_line self.now.form self.now.merchant self.now.day claim.now) }
    {
        let terminal = claim.terminal.to_bytes();
        let trace = claim.trace.to_bytes();
        match self.form {
            StatementForm::Csv => {
                let place = self.place(b"claimed", &terminal, &trace);
                let mut buffers = FigureBuffers::new();
                let figures = buffers.format_claim(&claim.claimed);
                day_record(alloc, &place, &figures)
            }
            StatementForm::Text => {
                let legs = legs_text(alloc, &Sums::of_claim(&claim.claimed))?;
                let net = net_text(&claim.claimed);
                let texts: [&[u8]; 9] = [
                    b"  claimed by ",
                    &terminal,
                    b" in ",
                    &trace,
                    b": ",
                    legs.as_slice(),
                    b", net ",
                    &net,
                    b"\n",
                ];
                joined(alloc, &texts)
            }
        }
    }

    /// The line of what the host had then.
    pub fn found(&self, alloc: Global, claim: &Claim) -> Result<Vec<u8>, AllocError>
        ensures { IfOk result (λ text.
            text.items ≡ found_line self.now.form self.now.merchant self.now.day claim.now) }
    {
        let terminal = claim.terminal.to_bytes();
        let trace = claim.trace.to_bytes();
        match self.form {
            StatementForm::Csv => {
                let place = self.place(b"found", &terminal, &trace);
                let mut buffers = FigureBuffers::new();
                let figures = buffers.format_claim(&claim.found);
                day_record(alloc, &place, &figures)
            }
            StatementForm::Text => {
                let legs = legs_text(alloc, &Sums::of_claim(&claim.found))?;
                let net = net_text(&claim.found);
                let texts: [&[u8]; 11] = [
                    b"  found for ",
                    &terminal,
                    b" in ",
                    &trace,
                    b": ",
                    legs.as_slice(),
                    b", net ",
                    &net,
                    b", ",
                    balance_word(claim.in_balance),
                    b"\n",
                ];
                joined(alloc, &texts)
            }
        }
    }

    /// The line of who owes whom how much.
    pub fn owed(&self, alloc: Global, totals: &Totals) -> Result<Vec<u8>, AllocError>
        ensures { IfOk result (λ text. text.items ≡ owed_line self.now.form totals.now) }
    {
        match self.form {
            StatementForm::Csv => Ok(Vec::new(alloc)),
            StatementForm::Text => {
                owed_text(
                    alloc,
                    b"merchant",
                    b" owes the acquirer ",
                    &Sums::of(totals),
                )
            }
        }
    }

    fn place<'a>(&'a self, line: &'a [u8], terminal: &'a [u8], trace: &'a [u8]) -> Place<'a>
        ensures merchant { result.merchant.now ≡ self.now.merchant }
        ensures day { result.day ≡ self.now.day }
        ensures line { result.line.now ≡ line.now }
        ensures terminal { result.terminal.now ≡ terminal.now }
        ensures trace { result.trace.now ≡ trace.now }
    {
        Place {
            merchant: &self.merchant,
            day: self.day,
            line,
            terminal,
            trace,
        }
    }
}

fn balance_word(in_balance: bool) -> &'static [u8]
    ensures { result.now ≡ balance_word in_balance }
{
    if in_balance { b"balanced" } else { b"differs" }
}

/// The names of a record's fields, in the form that has them.
pub(crate) fn statement_header(form: StatementForm) -> &'static [u8]
    ensures { result.now ≡ statement_header form }
{
    match form {
        StatementForm::Text => b"",
        StatementForm::Csv => {
            b"merchant,currency,day,line,terminal,trace,credits,credit_amount,credit_reversals,\
            credit_reversal_amount,debits,debit_amount,debit_reversals,debit_reversal_amount,\
            owed_to_merchant\n"
        }
    }
}
