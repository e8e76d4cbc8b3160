//! The answers to pending requests that are asked for.

use acq_core::Moment;
use day_totals::Day;

/// Answers to the requests that are pending in the book in a file.
#[derive(Drop)]
pub struct PendingOptions {
    /// The path of the book's file.
    pub path: String,
    /// The business day of the requests; without one those of all days are answered.
    pub day: Option<Day>,
    /// The path of the file that says what issuers answer; without one no issuer answers.
    pub issuers: Option<String>,
    /// The moment at which the answers come; without one it is the clock's.
    pub moment: Option<Moment>,
}
