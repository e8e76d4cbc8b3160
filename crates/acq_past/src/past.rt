//! Events that lead to a book's rows.

use crate::book_rows::BookRows;
use crate::finder::Finder;
use acq_core::Event;
use day_totals::Day;
use std::alloc::{AllocError, Global};
use std::hash::RandomState;

/// What may have made a book.
#[derive(Drop)]
pub struct Past {
    /// The first business day.
    pub first_day: Day,
    /// What the host took, in order.
    pub events: Vec<Event>,
}

/// Seeks events that lead to these rows. If there is a row that no host wrote, they lead to those
/// before it.
pub fn find_past(alloc: Global, keys: RandomState, rows: &BookRows) -> Result<Past, AllocError> {
    let first_day = first_day_of(rows);
    let mut finder = Finder::new(alloc, keys, rows, first_day)?;
    finder.enrol()?;
    finder.take_requests()?;
    finder.finish()?;
    Ok(Past {
        first_day,
        events: finder.into_events(),
    })
}

/// The day of the first request. That no row is of an earlier day is all that a book says of it.
fn first_day_of(rows: &BookRows) -> Day {
    match rows.requests.first() {
        Some(row) => row.day.min(rows.day),
        None => rows.day,
    }
}
