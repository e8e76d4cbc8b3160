//! Sums of totals, over many days.

ghost use Rattle.std.specs.Prelude.{◌≡◌, [], ◌∷◌, ◌++◌, List};
ghost use Rattle.day_totals.specs.Totals.{total_for, with_leg_amount};
ghost use Rattle.acq_statement.specs.ClaimTotals.{claim_totals};
ghost use Rattle.acq_statement.specs.LegTexts.{due_to_acquirer, due_to_merchant};
ghost use Rattle.acq_statement.specs.Sums.{both_totals, capped_posting, capped_totals, owed_of};
ghost use Rattle.acq_statement.specs.Sums.{sums_of};

use crate::leg_sum::LegSum;
use day_totals::{Claimed, Leg, Totals};
use std::marker::Model;

/// The number and the sum of many postings, for each leg. Totals have the limits of a day, which
/// the sums of many days may pass.
#[derive(Clone, Copy)]
pub(crate) struct Sums {
    credits: LegSum,
    credit_reversals: LegSum,
    debits: LegSum,
    debit_reversals: LegSum,
}

impl Model for Sums {
    ghost use Rattle.day_totals.specs.Totals.{DayTotals};
    ghost use Rattle.acq_statement.specs.SumsView.{sums_view, sums_inside};

    ghost Value = { DayTotals };

    ghost view = { sums_view };

    ghost inverse = { sums_inside };
}

impl Sums {
    /// The sums of no days.
    pub fn none() -> Sums
        ensures { result ≡ sums_of [] }
    {
        let none = LegSum::of(0, 0);
        Sums {
            credits: none,
            credit_reversals: none,
            debits: none,
            debit_reversals: none,
        }
    }

    /// The sums of one day.
    pub fn of(totals: &Totals) -> Sums
        ensures { result ≡ totals.now }
    {
        Sums {
            credits: LegSum::of(totals.count(Leg::Credit), totals.amount(Leg::Credit)),
            credit_reversals: LegSum::of(
                totals.count(Leg::CreditReversal),
                totals.amount(Leg::CreditReversal),
            ),
            debits: LegSum::of(totals.count(Leg::Debit), totals.amount(Leg::Debit)),
            debit_reversals: LegSum::of(
                totals.count(Leg::DebitReversal),
                totals.amount(Leg::DebitReversal),
            ),
        }
    }

    /// Adds another day.
    pub fn add(&mut self, totals: &Totals)
        ensures { self.new ≡ capped_totals (both_totals self.old totals.now) }
    {
        self.credits
            .add(totals.count(Leg::Credit), totals.amount(Leg::Credit));
        self.credit_reversals.add(
            totals.count(Leg::CreditReversal),
            totals.amount(Leg::CreditReversal),
        );
        self.debits
            .add(totals.count(Leg::Debit), totals.amount(Leg::Debit));
        self.debit_reversals.add(
            totals.count(Leg::DebitReversal),
            totals.amount(Leg::DebitReversal),
        );
    }

    /// What a terminal claims.
    pub fn of_claim(claimed: &Claimed) -> Sums
        ensures { result ≡ claim_totals claimed.now }
    {
        Sums {
            credits: LegSum::of(claimed.counts[0], claimed.amounts[0]),
            credit_reversals: LegSum::of(claimed.counts[1], claimed.amounts[1]),
            debits: LegSum::of(claimed.counts[2], claimed.amounts[2]),
            debit_reversals: LegSum::of(claimed.counts[3], claimed.amounts[3]),
        }
    }

    /// Adds a posting.
    pub fn add_posting(&mut self, leg: Leg, amount: u64)
        ensures { self.new ≡ capped_posting self.old leg amount }
    {
        match leg {
            Leg::Credit => self.credits.add(1, amount),
            Leg::CreditReversal => self.credit_reversals.add(1, amount),
            Leg::Debit => self.debits.add(1, amount),
            Leg::DebitReversal => self.debit_reversals.add(1, amount),
        }
    }

    /// What they have for a leg.
    pub fn leg(&self, leg: Leg) -> LegSum
        ensures { result ≡ total_for self.now leg }
    {
        match leg {
            Leg::Credit => self.credits,
            Leg::CreditReversal => self.credit_reversals,
            Leg::Debit => self.debits,
            Leg::DebitReversal => self.debit_reversals,
        }
    }

    /// What is due to the merchants.
    pub fn due_to_merchant(&self) -> u128
        ensures { result ≡ due_to_merchant self.now }
    {
        self.debits.amount() + self.credit_reversals.amount()
    }

    /// What is due to the acquirer.
    pub fn due_to_acquirer(&self) -> u128
        ensures { result ≡ due_to_acquirer self.now }
    {
        self.credits.amount() + self.debit_reversals.amount()
    }

    /// What the acquirer owes the merchants: less than nothing, where they owe it.
    pub fn owed(&self) -> i128
        ensures { result ≡ owed_of self.now }
    {
        (self.debits.amount() as i128 - self.debit_reversals.amount() as i128)
            - (self.credits.amount() as i128 - self.credit_reversals.amount() as i128)
    }
}
