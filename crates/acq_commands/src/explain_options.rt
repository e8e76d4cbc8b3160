//! What `explain` is asked for.

use crate::input_form::InputForm;
use acq_core::{Limit, Moment};
use day_totals::Day;

/// What `explain` is asked for: over the book in a file, or over a new one behind the events of a
/// file, if one is named.
#[derive(Drop)]
pub struct ExplainOptions {
    /// The path of the book's file; without it the book is a new one in memory.
    pub book: Option<String>,
    /// The path of the file of events that a new book takes first.
    pub events: Option<String>,
    /// How many messages of one merchant a business day of a new book admits.
    pub limit: Limit,
    /// The first business day of a new book.
    pub first_day: Day,
    /// How messages stand in the input.
    pub form: InputForm,
    /// The moment at which they come, or without it the clock's.
    pub moment: Option<Moment>,
}
