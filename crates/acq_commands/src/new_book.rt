//! A new book that is asked for.

use acq_core::Limit;
use day_totals::Day;

/// A new book that is asked for.
#[derive(Drop)]
pub struct NewBook {
    /// The path of its file.
    pub path: String,
    /// How many messages of one merchant a business day admits.
    pub limit: Limit,
    /// The first business day.
    pub first_day: Day,
}
