//! The list of ranges that is asked for.

/// A list that is to become the ranges of the book in a file.
#[derive(Drop)]
pub struct RangesOptions {
    /// The path of the book's file.
    pub path: String,
    /// The path of the list's file.
    pub list: String,
    /// Whether only the events are written by which it would.
    pub is_dry: bool,
}
