//! How two tables differ.

/// How a table of a file differs from one that was made, at a row.
#[derive(Clone, Copy, Debug)]
pub enum How {
    /// Both have the row, and this is the first column in which it differs.
    Column(&'static str),
    /// The file lacks the row.
    Missing,
    /// The file has the row, and the other has none.
    Surplus,
}
