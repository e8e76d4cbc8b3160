//! What a replay is asked for.

use crate::group_size::GroupSize;
use acq_core::Limit;
use acq_faults::DayReport;
use day_totals::Day;

/// What a replay is asked for.
#[derive(Drop)]
pub struct ReplayOptions {
    /// The path of the book's file; a new book in memory where there is none.
    pub book: Option<String>,
    /// How many messages of one merchant a business day of the new book admits.
    pub limit: Limit,
    /// The first business day of the new book.
    pub first_day: Day,
    /// How many events are taken at once.
    pub group: GroupSize,
    /// The reports that are written in place of a line of what comes of each event, if any.
    pub reports: Vec<DayReport>,
}
