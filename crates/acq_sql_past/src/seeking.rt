//! What may have made a book.

use crate::reading::book_rows;
use acq_core::{Event, Limit};
use acq_past::{Past, find_past};
use day_totals::Day;
use sqlite::{Alter, Connection, Error};
use std::alloc::Global;
use std::hash::RandomState;

/// What may have made the book in a database, and the limit that it has: these events, from a first
/// day on that leads to the book's, or without them events that are sought in the book's rows.
pub fn past_of_book<S: Alter>(
    alloc: Global,
    keys: RandomState,
    conn: &mut Connection<S>,
    events: Option<Vec<Event>>,
) -> Result<(Limit, Past), Error> {
    let rows = book_rows(alloc, conn)?;
    let past = match events {
        Some(events) => Past {
            first_day: day_before(rows.day, events.as_slice()),
            events,
        },
        None => find_past(alloc, keys, &rows)?,
    };
    Ok((rows.limit, past))
}

/// So many days before a day as there are cutovers, or the first day that there is.
fn day_before(day: Day, events: &[Event]) -> Day {
    let mut first = day.number();
    for event in events.iter() {
        if matches!(event, Event::Cutover(_)) {
            first = first.saturating_sub(1);
        }
    }
    match Day::from_number(first) {
        Some(first) => first,
        None => day,
    }
}
