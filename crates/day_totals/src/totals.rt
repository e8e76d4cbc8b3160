//! The totals of a merchant's day, and the texts of their elements.

ghost use Rattle.std.specs.Prelude.{◌≡◌, ◌↔◌, ◌+◌, ◌<◌, ◌≤◌, ◌++◌, ◌∷◌, [], ℕ, List, sum, IsTrue};
ghost use Rattle.std.specs.Prelude.{IsSome, IfSome, pos, ◌≤ℤ◌, unsigned_abs};
ghost use Rattle.std.specs.Str.Parse.{digits_value};
ghost use Rattle.day_totals.specs.Digits.{zero_padded};
ghost use Rattle.day_totals.specs.Totals.{greatest_count, greatest_amount, Posting, DayTotals};
ghost use Rattle.day_totals.specs.Totals.{zero_totals, totals_of, total_for, counts_of, amounts_of};
ghost use Rattle.day_totals.specs.Totals.{with_leg_amount, AreWithinLimits, IsWithinLimits, net_of};
ghost use Rattle.day_totals.specs.Totals.{net_text_of, Agrees, agrees_with};

use crate::digits::write_digits;
use crate::leg_total::LegTotal;
use crate::{Claimed, Leg};
use std::marker::Model;

/// The number and the sum of a merchant's postings of one day, for each leg.
///
/// A day has at most [`Totals::GREATEST_COUNT`] postings, each of at most
/// [`Totals::GREATEST_POSTING`] minor units, so ten digits hold each count, and sixteen each sum
/// and the net (own profile).
#[derive(Clone, Copy, Debug, PartialEq, Eq)]
pub struct Totals {
    credits: LegTotal,
    credit_reversals: LegTotal,
    debits: LegTotal,
    debit_reversals: LegTotal,
}

impl Model for Totals {
    ghost use Rattle.day_totals.specs.Totals.{DayTotals};

    ghost Value = { DayTotals };

    ghost use Rattle.day_totals.specs.TotalsView.{totals_view, fields_of};
    ghost use Rattle.day_totals.specs.Totals.{IsWithinLimits};

    ghost view = { totals_view };

    ghost invariant = { λ t. IsWithinLimits (totals_view t) };

    ghost inverse = { fields_of };
}

impl Totals {
    /// How many postings a day may have.
    pub const GREATEST_COUNT: u64 = 999_999;

    /// How many minor units one posting may have.
    pub const GREATEST_POSTING: u64 = 9_999_999_999;

    /// How many minor units a day's postings may have together.
    pub const GREATEST_AMOUNT: u64 = Totals::GREATEST_COUNT * Totals::GREATEST_POSTING;

    /// The totals of no postings.
    pub fn zero() -> Totals
        ensures value { result ≡ zero_totals }
        ensures sums { result ≡ totals_of [] }
    {
        Totals {
            credits: LegTotal::ZERO,
            credit_reversals: LegTotal::ZERO,
            debits: LegTotal::ZERO,
            debit_reversals: LegTotal::ZERO,
        }
    }

    /// The totals with these counts and amounts, in the order of [`Leg`], where they are within
    /// a day's limits.
    pub fn from_parts(counts: [u64; 4], amounts: [u64; 4]) -> Option<Totals>
        ensures within { IsSome result ↔ AreWithinLimits counts amounts }
        ensures counts { IfSome result (λ t. counts_of t ≡ counts) }
        ensures amounts { IfSome result (λ t. amounts_of t ≡ amounts) }
    {
        if !is_within(&counts, Totals::GREATEST_COUNT)
            || !is_within(&amounts, Totals::GREATEST_AMOUNT)
        {
            return None;
        }
        Some(Totals {
            credits: LegTotal {
                count: counts[0],
                amount: amounts[0],
            },
            credit_reversals: LegTotal {
                count: counts[1],
                amount: amounts[1],
            },
            debits: LegTotal {
                count: counts[2],
                amount: amounts[2],
            },
            debit_reversals: LegTotal {
                count: counts[3],
                amount: amounts[3],
            },
        })
    }

    /// Counts one more posting, for which the day has room: [`Totals::from_parts`] is the test.
    pub fn add(&mut self, leg: Leg, amount: u64)
        requires { IsWithinLimits (with_leg_amount self.old leg amount) }
        ensures value { self.new ≡ with_leg_amount self.old leg amount }
        ensures sums { (postings : List Posting) → self.old ≡ totals_of postings
            → self.new ≡ totals_of (postings ++ (leg, amount) ∷ []) }
    {
        match leg {
            Leg::Credit => self.credits.add(amount),
            Leg::CreditReversal => self.credit_reversals.add(amount),
            Leg::Debit => self.debits.add(amount),
            Leg::DebitReversal => self.debit_reversals.add(amount),
        }
    }

    /// What the totals have for a leg.
    fn total_for(&self, leg: Leg) -> LegTotal
        ensures value { result ≡ total_for self.now leg }
        ensures within { IsWithinLimits self.now }
    {
        match leg {
            Leg::Credit => self.credits,
            Leg::CreditReversal => self.credit_reversals,
            Leg::Debit => self.debits,
            Leg::DebitReversal => self.debit_reversals,
        }
    }

    /// The number of a leg's postings.
    pub fn count(&self, leg: Leg) -> u64
        ensures value { result ≡ (total_for self.now leg).count }
        ensures bound { result ≤ greatest_count }
        ensures within { IsWithinLimits self.now }
    {
        self.total_for(leg).count
    }

    /// The sum of a leg's postings, in minor units.
    pub fn amount(&self, leg: Leg) -> u64
        ensures value { result ≡ (total_for self.now leg).amount }
        ensures bound { result ≤ greatest_amount }
        ensures within { IsWithinLimits self.now }
    {
        self.total_for(leg).amount
    }

    /// Credits less debits, each less what was reversed, in minor units (ISO 8583:1987, net
    /// reconciliation).
    pub fn net(&self) -> i64
        ensures value { result ≡ net_of self.now }
        ensures within { unsigned_abs result ≤ greatest_amount }
    {
        (self.credits.amount as i64 - self.credit_reversals.amount as i64)
            - (self.debits.amount as i64 - self.debit_reversals.amount as i64)
    }

    /// The four counts, in the order of the legs.
    fn counts(&self) -> [u64; 4]
        ensures { result ≡ counts_of self.now }
    {
        [
            self.credits.count,
            self.credit_reversals.count,
            self.debits.count,
            self.debit_reversals.count,
        ]
    }

    /// The four amounts, in the order of the legs.
    fn amounts(&self) -> [u64; 4]
        ensures { result ≡ amounts_of self.now }
    {
        [
            self.credits.amount,
            self.credit_reversals.amount,
            self.debits.amount,
            self.debit_reversals.amount,
        ]
    }

    /// Whether a terminal's day is in balance: its eight numbers and its net are these.
    pub fn agrees(&self, claimed: &Claimed) -> bool
        ensures exact { IsTrue result ↔ Agrees claimed.now self.now }
        ensures test { result ≡ agrees_with claimed.now self.now }
    {
        claimed.counts == self.counts()
            && claimed.amounts == self.amounts()
            && claimed.net == self.net()
    }

    /// Element 74 (credits), 75 (credit reversals), 76 (debits) or 77 (debit reversals) of
    /// ISO 8583:1987.
    pub fn count_text(&self, leg: Leg) -> [u8; 10]
        ensures text { result ≡ zero_padded 10 (total_for self.now leg).count }
        ensures number { digits_value 10 result ≡ (total_for self.now leg).count }
    {
        let mut text = [b'0'; 10];
        write_digits(self.count(leg), &mut text);
        text
    }

    /// Element 86 (credits), 87 (credit reversals), 88 (debits) or 89 (debit reversals) of
    /// ISO 8583:1987.
    pub fn amount_text(&self, leg: Leg) -> [u8; 16]
        ensures text { result ≡ zero_padded 16 (total_for self.now leg).amount }
        ensures number { digits_value 10 result ≡ (total_for self.now leg).amount }
    {
        let mut text = [b'0'; 16];
        write_digits(self.amount(leg), &mut text);
        text
    }

    /// Element 97 of ISO 8583:1987, the net: `C` where it is zero or more, else `D`, and sixteen
    /// digits.
    pub fn net_text(&self) -> [u8; 17]
        ensures { result ≡ net_text_of (net_of self.now) }
    {
        let net = self.net();
        let mut text = [if net < 0 { b'D' } else { b'C' }; 17];
        write_digits(net.unsigned_abs(), &mut text[1..]);
        text
    }
}

/// Whether the sum of the numbers is no more than the limit.
fn is_within(numbers: &[u64; 4], limit: u64) -> bool
    ensures { IsTrue result ↔ (sum numbers.now ≤ limit) }
{
    let mut left = limit;
    for number in numbers {
        if *number > left {
            return false;
        }
        left -= *number;
    }
    true
}
