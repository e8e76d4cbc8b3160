//! Kinds of reports on a day.

/// Kinds of reports on a business day that is over.
#[derive(Clone, Copy, Debug, PartialEq, Eq)]
pub enum ReportKind {
    /// The clearing file.
    Clearing,
    /// The settlement report.
    Settlement,
}
