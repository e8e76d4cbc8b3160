//! Reports that are asked for.

use crate::report_kind::ReportKind;
use day_totals::Day;

/// A report on a business day that is over.
#[derive(Clone, Copy, Debug)]
pub struct DayReport {
    /// What is written of the day.
    pub kind: ReportKind,
    /// The day.
    pub day: Day,
}
