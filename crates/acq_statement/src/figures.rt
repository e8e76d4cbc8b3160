//! Texts of sums.

ghost use Rattle.std.specs.Prelude.{◌≡◌, pos, ◌-ℤ◌};
ghost use Rattle.acq_statement.specs.Fields.{claim_fields, figures_fields, totals_fields};
ghost use Rattle.acq_statement.specs.FigureTexts.{figures_texts};
ghost use Rattle.std.specs.Fmt.{decimal};

use crate::sums::Sums;
use day_totals::{Claimed, Leg};
use itoa::Buffer;

/// Sums as a record's fields: the count and the amount of each leg, and what is owed to the
/// merchant.
#[derive(Clone, Copy)]
pub(crate) struct Figures<'a> {
    pub credits: &'a [u8],
    pub credit_amount: &'a [u8],
    pub credit_reversals: &'a [u8],
    pub credit_reversal_amount: &'a [u8],
    pub debits: &'a [u8],
    pub debit_amount: &'a [u8],
    pub debit_reversals: &'a [u8],
    pub debit_reversal_amount: &'a [u8],
    pub owed: &'a [u8],
}

/// Room for the texts of sums.
#[derive(Drop)]
pub(crate) struct FigureBuffers {
    credits: Buffer,
    credit_amount: Buffer,
    credit_reversals: Buffer,
    credit_reversal_amount: Buffer,
    debits: Buffer,
    debit_amount: Buffer,
    debit_reversals: Buffer,
    debit_reversal_amount: Buffer,
    owed: Buffer,
}

impl FigureBuffers {
    pub fn new() -> FigureBuffers {
        FigureBuffers {
            credits: Buffer::new(),
            credit_amount: Buffer::new(),
            credit_reversals: Buffer::new(),
            credit_reversal_amount: Buffer::new(),
            debits: Buffer::new(),
            debit_amount: Buffer::new(),
            debit_reversals: Buffer::new(),
            debit_reversal_amount: Buffer::new(),
            owed: Buffer::new(),
        }
    }

    /// The texts of these sums.
    pub fn format(&mut self, sums: &Sums) -> Figures<'_>
        ensures { figures_texts result ≡ totals_fields sums.now }
    {
        self.format_with(sums, sums.owed())
    }

    /// The texts of what was claimed.
    pub fn format_claim(&mut self, claimed: &Claimed) -> Figures<'_>
        ensures { figures_texts result ≡ claim_fields claimed.now }
    {
        let sums = Sums::of_claim(claimed);
        self.format_with(&sums, owed_by(claimed))
    }

    /// The texts of these sums, by which so much is owed to the merchant.
    fn format_with(&mut self, sums: &Sums, owed: i128) -> Figures<'_>
        ensures { figures_texts result ≡ figures_fields sums.now owed }
    {
        let credits = sums.leg(Leg::Credit);
        let credit_reversals = sums.leg(Leg::CreditReversal);
        let debits = sums.leg(Leg::Debit);
        let debit_reversals = sums.leg(Leg::DebitReversal);
        Figures {
            credits: text(&mut self.credits, credits.count()),
            credit_amount: text(&mut self.credit_amount, credits.amount()),
            credit_reversals: text(&mut self.credit_reversals, credit_reversals.count()),
            credit_reversal_amount: text(
                &mut self.credit_reversal_amount,
                credit_reversals.amount(),
            ),
            debits: text(&mut self.debits, debits.count()),
            debit_amount: text(&mut self.debit_amount, debits.amount()),
            debit_reversals: text(&mut self.debit_reversals, debit_reversals.count()),
            debit_reversal_amount: text(&mut self.debit_reversal_amount, debit_reversals.amount()),
            owed: self.owed.format(owed).as_bytes(),
        }
    }
}

fn text(buffer: &mut Buffer, number: u128) -> &[u8]
    ensures { result.now ≡ decimal number }
{
    buffer.format(number).as_bytes()
}

/// What is owed to the merchant by a claim.
fn owed_by(claimed: &Claimed) -> i128
    ensures { result ≡ pos 0 -ℤ claimed.now.net }
{
    0 - i128::from(claimed.net)
}
