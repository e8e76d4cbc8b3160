//! Forms of a statement.

/// How a statement is written.
#[derive(Clone, Copy, Debug, PartialEq, Eq)]
pub enum StatementForm {
    /// For people.
    Text,
    /// For programs: a header, and records of fields.
    Csv,
}
