//! Figures of a book.

use crate::pending_day::PendingDay;
use acq_core::Limit;
use day_totals::Day;

/// Figures of a book.
#[derive(Drop)]
pub struct BookFigures {
    /// The business day.
    pub day: Day,
    /// How many messages of a merchant it admits.
    pub limit: Limit,
    pub merchants: u64,
    /// Those of all merchants.
    pub terminals: u64,
    pub ranges: u64,
    /// Messages of the business day that count against the limit, of all merchants.
    pub requests_today: u64,
    /// The days from that of the first request that waits for its issuer to the business day.
    pub pending: Vec<PendingDay>,
}
