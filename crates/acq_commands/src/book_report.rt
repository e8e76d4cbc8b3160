//! A report on the book in a file.

use acq_faults::DayReport;

/// A report on the book in a file.
#[derive(Drop)]
pub struct BookReport {
    /// The path of the book's file.
    pub path: String,
    /// The report.
    pub report: DayReport,
}
