//! The texts that spell a range.

ghost use Rattle.std.specs.Prelude.{◌≡◌, [], ◌∷◌, IfOk};
ghost use Rattle.card_no.specs.RangeFiles.{is_days_text, are_range_texts, range_of_fields};

use crate::digits::{all_digits, number};
use crate::issuer_id::IssuerId;
use crate::prefix::is_prefix_text;
use crate::range::{Range, is_issuer};
use std::alloc::{AllocError, Global};

impl Range {
    /// The range that four texts spell, whatever its values, or `None` where one is out of its
    /// form: `low` and `high` have as many digits as a prefix, `issuer` has 1 to 11, and the hold
    /// days have one or two (own profile).
    pub fn from_texts(
        alloc: Global,
        low: &[u8],
        high: &[u8],
        issuer: &[u8],
        days: &[u8],
    ) -> Result<Option<Range>, AllocError>
        ensures { IfOk result (λ range. range
            ≡ range_of_fields (low.now ∷ high.now ∷ issuer.now ∷ days.now ∷ [])) }
    {
        if !are_range_texts(low, high, issuer, days) {
            return Ok(None);
        }
        Ok(Some(Range {
            low: number(low),
            high: number(high),
            issuer: IssuerId::from_slice(alloc, issuer)?,
            hold_days: number(days) as u8,
        }))
    }
}

/// Whether the four fields of a record are in their form.
fn are_range_texts(low: &[u8], high: &[u8], issuer: &[u8], days: &[u8]) -> bool
    ensures { result ≡ are_range_texts low.now high.now issuer.now days.now }
{
    is_prefix_text(low) && is_prefix_text(high) && is_issuer(issuer) && is_days_text(days)
}

/// Whether a text is one or two digits.
fn is_days_text(text: &[u8]) -> bool
    ensures { result ≡ is_days_text text.now }
{
    (1..=2).contains(&text.len()) && all_digits(text)
}
