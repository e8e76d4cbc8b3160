//! Pending requests of a day.

use day_totals::Day;

/// How many requests of a business day are pending.
#[derive(Clone, Copy)]
pub struct PendingDay {
    pub day: Day,
    pub requests: u64,
}
