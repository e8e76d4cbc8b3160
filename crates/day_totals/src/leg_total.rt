//! The number and the sum of one leg's postings.

ghost use Rattle.std.specs.Prelude.{◌≡◌, ◌+◌, ◌<◌, ◌≤◌, ◌^◌};

/// How many postings of a leg there are, and the sum of their amounts in minor units.
#[derive(Clone, Copy, Debug, PartialEq, Eq)]
pub struct LegTotal {
    pub count: u64,
    pub amount: u64,
}

impl LegTotal {
    ghost use Rattle.day_totals.specs.Totals.{with_amount};

    /// No postings.
    pub const ZERO: LegTotal = LegTotal {
        count: 0,
        amount: 0,
    };

    /// Counts one more posting.
    pub fn add(&mut self, amount: u64)
        requires count_fits { self.old.count + 1 < 2 ^ 64 }
        requires amount_fits { self.old.amount + amount < 2 ^ 64 }
        ensures { self.new ≡ with_amount self.old amount }
    {
        self.count += 1;
        self.amount += amount;
    }
}
