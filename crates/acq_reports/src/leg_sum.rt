//! The number and the sum of one leg's postings, of which there may be too many.

ghost use Rattle.std.specs.Prelude.{◌≡◌};
ghost use Rattle.day_totals.specs.Totals.{with_amount};
ghost use Rattle.day_totals.specs.declared.leg_total.LegTotal.{LegTotal};
ghost use Rattle.acq_reports.specs.DaySums.{capped_leg};

/// How many postings of a leg there are, and the sum of their amounts in minor units. A number that
/// is full stays so: no totals of a day have it.
#[derive(Clone, Copy, Debug, PartialEq, Eq)]
pub(crate) struct LegSum {
    pub count: u64,
    pub amount: u64,
}

impl LegSum {
    /// Counts one more posting.
    pub fn add(&mut self, amount: u64)
        ensures { (t : LegTotal) → self.old ≡ capped_leg t
            → self.new ≡ capped_leg (with_amount t amount) }
    {
        self.count = self.count.saturating_add(1);
        self.amount = self.amount.saturating_add(amount);
    }
}
