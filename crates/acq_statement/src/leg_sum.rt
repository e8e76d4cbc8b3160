//! The number and the sum of one leg's postings, over many days.

ghost use Rattle.std.specs.Prelude.{◌≡◌, ◌≤◌};
ghost use Rattle.acq_statement.specs.Sums.{both_legs, capped_leg, greatest_sum};

use std::marker::Model;

/// How many postings of a leg there are, and the sum of their amounts in minor units, each at most
/// [`LegSum::GREATEST`].
#[derive(Clone, Copy)]
pub(crate) struct LegSum {
    count: u128,
    amount: u128,
}

impl Model for LegSum {
    ghost use Rattle.day_totals.specs.declared.leg_total.LegTotal.{LegTotal};
    ghost use Rattle.acq_statement.specs.LegView.{leg_view, leg_inside};
    ghost use Rattle.acq_statement.specs.Sums.{IsLegCapped};

    ghost Value = { LegTotal };

    ghost view = { leg_view };

    ghost invariant = { λ x. IsLegCapped (leg_view x) };

    ghost inverse = { leg_inside };
}

impl LegSum {
    /// The greatest sum that is told: four of them fit a signed number.
    const GREATEST: u128 = (1 << 126) - 1;

    /// So many postings, of so many minor units.
    pub fn of(count: u64, amount: u64) -> LegSum
        ensures { result ≡ record { count = count; amount = amount } }
    {
        LegSum {
            count: u128::from(count),
            amount: u128::from(amount),
        }
    }

    /// Adds so many postings, of so many minor units.
    pub fn add(&mut self, count: u64, amount: u64)
        ensures { self.new
            ≡ capped_leg (both_legs self.old (record { count = count; amount = amount })) }
    {
        self.count = (self.count + u128::from(count)).min(LegSum::GREATEST);
        self.amount = (self.amount + u128::from(amount)).min(LegSum::GREATEST);
    }

    /// How many postings there are.
    pub fn count(self) -> u128
        ensures value { result ≡ self.count }
        ensures bound { result ≤ greatest_sum }
    {
        let LegSum { count, amount: _ } = self;
        count
    }

    /// The sum of their amounts.
    pub fn amount(self) -> u128
        ensures value { result ≡ self.amount }
        ensures bound { result ≤ greatest_sum }
    {
        let LegSum { count: _, amount } = self;
        amount
    }
}
