//! Sums of days.

use day_totals::Totals;

/// The sums of a merchant's day.
#[derive(Clone, Copy)]
pub(crate) struct DaySums {
    /// How many postings there are.
    pub posted: u64,
    pub totals: Totals,
}
