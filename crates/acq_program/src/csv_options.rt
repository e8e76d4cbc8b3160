//! The settlement report that is asked for as CSV.

use day_totals::Day;

/// The settlement report of a day of the book in a file, as CSV.
#[derive(Drop)]
pub struct CsvOptions {
    /// The path of the book's file.
    pub path: String,
    pub day: Day,
}
