//! The sums of a merchant's postings of one day, of which there may be too many.

ghost use Rattle.std.specs.Prelude.{◌≡◌};
ghost use Rattle.day_totals.specs.Totals.{DayTotals, total_for, with_leg_amount, zero_totals};
ghost use Rattle.acq_reports.specs.DaySums.{capped_leg, sums_of};

use crate::leg_sum::LegSum;
use day_totals::{Leg, Totals};

/// The number and the sum of a merchant's postings of one day, for each leg. Totals have limits,
/// which a damaged store may break; these have none.
#[derive(Clone, Copy, Debug, PartialEq, Eq)]
pub(crate) struct MerchantSums {
    credits: LegSum,
    credit_reversals: LegSum,
    debits: LegSum,
    debit_reversals: LegSum,
}

impl MerchantSums {
    /// The sums of no postings.
    pub fn none() -> MerchantSums
        ensures { result ≡ sums_of zero_totals }
    {
        MerchantSums::of(&Totals::zero())
    }

    /// The sums of postings that have these totals.
    pub fn of(totals: &Totals) -> MerchantSums
        ensures { result ≡ sums_of totals.now }
    {
        MerchantSums {
            credits: leg_sum(totals, Leg::Credit),
            credit_reversals: leg_sum(totals, Leg::CreditReversal),
            debits: leg_sum(totals, Leg::Debit),
            debit_reversals: leg_sum(totals, Leg::DebitReversal),
        }
    }

    /// Counts one more posting.
    pub fn add(&mut self, leg: Leg, amount: u64)
        ensures { (t : DayTotals) → self.old ≡ sums_of t
            → self.new ≡ sums_of (with_leg_amount t leg amount) }
    {
        match leg {
            Leg::Credit => self.credits.add(amount),
            Leg::CreditReversal => self.credit_reversals.add(amount),
            Leg::Debit => self.debits.add(amount),
            Leg::DebitReversal => self.debit_reversals.add(amount),
        }
    }
}

/// What totals have for a leg.
fn leg_sum(totals: &Totals, leg: Leg) -> LegSum
    ensures { result ≡ capped_leg (total_for totals.now leg) }
{
    LegSum {
        count: totals.count(leg),
        amount: totals.amount(leg),
    }
}
