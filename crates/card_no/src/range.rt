//! The prefixes of one issuer's cards.

ghost use Rattle.std.specs.Prelude.{◌≡◌, IfOk, true};
ghost use Rattle.card_no.specs.Prefix.{six_digits, eight_digits};
ghost use Rattle.card_no.specs.Ranges.{is_issuer, is_valid_range, holds_prefix, overlaps, between};
ghost use Rattle.card_no.specs.Ranges.{has_ends, is_valid_range_under};
ghost use Rattle.card_no.specs.Widening.{widened};

use crate::digits::all_digits;
use crate::issuer_id::IssuerId;
use crate::prefix::Prefix;
use std::alloc::{AllocError, Global};

const ISSUER_LEN: usize = 11;

/// The cards of one issuer (own profile): those whose prefix lies from `low` to `high`, both
/// included. A hold on such a card is open for `hold_days` days. Any values make a `Range`:
/// [`Range::is_valid`] says whether a list may have it.
#[derive(Debug, Drop)]
pub struct Range {
    pub low: u32,
    pub high: u32,
    pub issuer: IssuerId,
    pub hold_days: u8,
}

impl Range {
    /// The fewest days that a hold lasts.
    pub const LEAST_HOLD_DAYS: u8 = 1;

    /// The most days that a hold lasts.
    pub const GREATEST_HOLD_DAYS: u8 = 31;

    /// Whether a list may have this range: `low` is not above `high`, `high` is a prefix, the
    /// issuer is 1 to 11 digits, and a hold lasts from the fewest to the most days.
    pub fn is_valid(&self) -> bool
        ensures { result ≡ is_valid_range self.now }
    {
        self.low <= self.high
            && self.high <= Prefix::GREATEST
            && is_issuer(self.issuer.as_bytes())
            && self.hold_days >= Range::LEAST_HOLD_DAYS
            && self.hold_days <= Range::GREATEST_HOLD_DAYS
    }

    /// Whether a prefix lies in the range.
    pub fn holds(&self, prefix: Prefix) -> bool
        ensures { result ≡ holds_prefix prefix self.now }
    {
        let number = prefix.number();
        self.low <= number && number <= self.high
    }

    /// Whether a range with these ends overlaps this one: neither begins behind the other.
    pub fn overlaps(&self, low: u32, high: u32) -> bool
        ensures { result ≡ overlaps (between low high) self.now }
    {
        low <= self.high && self.low <= high
    }

    /// A copy.
    pub fn copied(&self, alloc: Global) -> Result<Range, AllocError>
        ensures { IfOk result (λ range. range ≡ self.now) }
    {
        let issuer = IssuerId::from_slice(alloc, self.issuer.as_bytes())?;
        Ok(Range {
            low: self.low,
            high: self.high,
            issuer,
            hold_days: self.hold_days,
        })
    }

    /// The range by prefixes of eight digits that holds the cards of this one by six: from the
    /// first to the last prefix of eight digits that begins as one of its own. It takes no memory.
    pub fn widen(self) -> Range
        requires { is_valid_range_under six_digits self ≡ true }
        ensures value { result ≡ widened self }
        ensures valid { is_valid_range_under eight_digits result ≡ true }
    {
        Range {
            low: self.low * 100,
            high: self.high * 100 + 99,
            ..self
        }
    }

    /// Whether these are the range's ends.
    pub fn has_ends(&self, low: u32, high: u32) -> bool
        ensures { result ≡ has_ends low high self.now }
    {
        self.low == low && self.high == high
    }
}

/// Whether a text is 1 to 11 digits.
pub(crate) fn is_issuer(text: &[u8]) -> bool
    ensures { result ≡ is_issuer text.now }
{
    !text.is_empty() && text.len() <= ISSUER_LEN && all_digits(text)
}
