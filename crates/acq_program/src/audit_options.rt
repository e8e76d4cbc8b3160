//! The audit that is asked for.

/// An audit of the book in a file.
#[derive(Drop)]
pub struct AuditOptions {
    /// The path of the book's file.
    pub path: String,
    /// The path of a file with the lines of the events that the book took; without one they are
    /// sought in its rows.
    pub events: Option<String>,
}
